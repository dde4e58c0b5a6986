//! Whether the labels are those of one pool, and what is wrong where none is valid.
ghost use Rattle.std.specs.Prelude.{◌↔◌, ◌<◌, length, IsTrue};
ghost use Rattle.pool_labels.specs.Choices.{AgreesWithFront, AllAgree, AreOfOnePool, HasValid, IsBreachOf, IsFirstBad, IsValidReading, LabelsAgree};

use crate::scanned::{Reading, ScannedLabel};
use vdev_label::{Breach, Label};

pub(crate) fn is_valid(reading: &Reading) -> bool
    ensures { IsTrue result ↔ IsValidReading reading.now }
{
    match reading {
        Reading::Valid(_) => true,
        Reading::Bad(_) | Reading::Unreadable => false,
    }
}

/// Whether a label is valid.
pub(crate) fn has_valid(labels: &[ScannedLabel]) -> bool
    ensures { IsTrue result ↔ HasValid labels.now }
{
    for label in labels {
        if is_valid(&label.reading) {
            return true;
        }
    }
    false
}

/// What is wrong with a label, if something is.
fn breach_of(label: &ScannedLabel) -> Option<Breach>
    ensures { IsBreachOf label.now.reading result }
{
    match label.reading {
        Reading::Bad(breach) => Some(breach),
        Reading::Valid(_) | Reading::Unreadable => None,
    }
}

/// What is wrong with the first label of which that is known; the tail where it is of none.
pub(crate) fn first_bad(labels: &[ScannedLabel]) -> Breach
    ensures { IsFirstBad labels.now result }
{
    for label in labels {
        match breach_of(label) {
            Some(breach) => return breach,
            None => continue,
        }
    }
    Breach::Tail
}

/// Whether two labels are of one pool, and of one disk just where they were read of one.
fn are_of_one_pool(disk: usize, label: &Label, other: usize, second: &Label) -> bool
    ensures { IsTrue result ↔ AreOfOnePool disk label.now other second.now }
{
    if label.pool_guid != second.pool_guid {
        return false;
    }
    (disk == other) == (label.guid == second.guid)
}

fn agree(first: &ScannedLabel, second: &ScannedLabel) -> bool
    ensures { IsTrue result ↔ LabelsAgree first.now second.now }
{
    let Reading::Valid(label) = &first.reading else {
        return true;
    };
    let Reading::Valid(other) = &second.reading else {
        return true;
    };
    are_of_one_pool(first.disk, label, second.disk, other)
}

/// Whether a label agrees with those in front of it.
fn agrees_with_front(labels: &[ScannedLabel], i: usize) -> bool
    requires { i < length labels.now }
    ensures { IsTrue result ↔ AgreesWithFront labels.now i }
{
    for j in 0..i {
        if !agree(&labels[j], &labels[i]) {
            return false;
        }
    }
    true
}

/// Whether all labels agree.
pub(crate) fn all_agree(labels: &[ScannedLabel]) -> bool
    ensures { IsTrue result ↔ AllAgree labels.now }
{
    for i in 0..labels.len() {
        if !agrees_with_front(labels, i) {
            return false;
        }
    }
    true
}
