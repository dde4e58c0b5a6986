//! Writing the labels of a new pool.
ghost use Rattle.std.specs.Prelude.{◌≡◌, ◌≤◌, ◌<◌, ◌^◌, length, map, IsTrue, OnOk, string_bytes, All};
ghost use Rattle.std.specs.List.{list_all};
ghost use Rattle.model_disk.specs.Joint.{bytes_of, calls_on, content};
ghost use Rattle.model_disk.specs.Runs.{AreSettled, AreSettledBelow, IsSettled, Makes, no_write};
ghost use Rattle.vdev_label.specs.Limits.{IsAllowed};
ghost use Rattle.vdev_label.specs.Pairs.{IsCount, is_letter, is_name, is_name_byte};
ghost use Rattle.vdev_label.specs.Plain.{config_view, label_view};
ghost use Rattle.vdev_label.specs.Reads.{KeepsElsewhere};
ghost use Rattle.pool_slots.specs.Labels.{IsLabelShown, IsValid};
ghost use Rattle.pool_slots.specs.Slots.{HaveLabels, MakesOn, is_disk};
ghost use Rattle.pool_format.specs.Faults.{FailedOn, IsFaultOf};
ghost use Rattle.pool_format.specs.Labels.{AllShow, AreLabeled, IsLabelWrite, children_of as plain_children, label_on, labels_of, of_child};

use crate::children::{Child, children_of};
use crate::refusal::Refusal;
use model_disk::{Disk, DiskArray};
use std::alloc::Global;
use vdev_label::{Config, LABELS, Label, State, allowed_has_room};

/// What a pool is known by.
#[derive(Drop)]
pub struct PoolIdentity {
    /// 1 to 27 bytes of `a-z 0-9 . _ -`, the first a letter.
    pub name: String,
    pub guid: u64,
}

fn is_letter(b: u8) -> bool
    ensures { result ≡ is_letter b }
{
    b'a' <= b && b <= b'z'
}

fn is_name_byte(b: u8) -> bool
    ensures { result ≡ is_name_byte b }
{
    is_letter(b) || (b'0' <= b && b <= b'9') || b == b'.' || b == b'_' || b == b'-'
}

fn are_name_bytes(bytes: &[u8]) -> bool
    ensures { result ≡ list_all is_name_byte bytes.now }
{
    bytes.iter().all(|b| is_name_byte(*b))
}

impl PoolIdentity {
    /// Whether a pool may have the name: 1 to 27 bytes of `a-z 0-9 . _ -`, the first a letter.
    pub fn has_good_name(&self) -> bool
        ensures { result ≡ is_name (string_bytes self.now.name) }
    {
        match self.name.as_bytes().split_first() {
            Some((first, others)) => {
                is_letter(*first) && are_name_bytes(others) && others.len() <= 26
            }
            None => false,
        }
    }
}

/// Writes a label of a disk.
fn write_label<D: Disk + Drop>(
    alloc: Global,
    disks: &mut DiskArray<D>,
    which: usize,
    number: u64,
    label: &Label,
) -> Result<(), Refusal>
    requires which { which < length disks.old.starts }
    requires number { number < LABELS }
    requires room { 1048576 ≤ length (bytes_of disks.old.starts which) }
    requires valid { IsValid (label_view label.now) }
    ensures makes { MakesOn (is_disk which)
        (label_on disks.old.starts which (label_view label.now)) disks.old disks.new }
    ensures shown { OnOk result (IsLabelShown (length (bytes_of disks.old.starts which))
        (content disks.new which) number (label_view label.now)) }
    ensures elsewhere { KeepsElsewhere disks.old disks.new which number }
    ensures failed { FailedOn (IsFaultOf result) disks.old disks.new }
{
    match vdev_label::write_label(alloc, disks, which, number, label) {
        Ok(()) => Ok(()),
        Err(vdev_label::Refusal::DiskFault) => Err(Refusal::DiskFault { disk: which }),
        Err(vdev_label::Refusal::NoMemory) => Err(Refusal::NoMemory),
        Err(vdev_label::Refusal::BadLabel(_)) => unreachable!(),
    }
}

/// Writes the four labels of a disk.
fn write_four<D: Disk + Drop>(
    alloc: Global,
    disks: &mut DiskArray<D>,
    which: usize,
    label: &Label,
) -> Result<(), Refusal>
    requires which { which < length disks.old.starts }
    requires room { 1048576 ≤ length (bytes_of disks.old.starts which) }
    requires valid { IsValid (label_view label.now) }
    ensures makes { MakesOn (is_disk which)
        (label_on disks.old.starts which (label_view label.now)) disks.old disks.new }
    ensures shown { OnOk result (AllShow (length (bytes_of disks.old.starts which))
        (content disks.new which) (label_view label.now)) }
    ensures failed { FailedOn (IsFaultOf result) disks.old disks.new }
{
    for number in 0..LABELS {
        write_label(alloc, disks, which, number, label)?;
    }
    Ok(())
}

/// Flushes a disk.
fn flush<D: Disk + Drop>(disks: &mut DiskArray<D>, which: usize) -> Result<(), Refusal>
    requires which { which < length disks.old.starts }
    ensures makes { MakesOn (is_disk which) no_write disks.old disks.new }
    ensures settled { OnOk result (IsSettled (calls_on which disks.new.calls)) }
    ensures failed { FailedOn (IsFaultOf result) disks.old disks.new }
{
    match disks.flush(which) {
        Ok(()) => Ok(()),
        Err(_) => Err(Refusal::DiskFault { disk: which }),
    }
}

/// Writes the four labels of a disk and flushes it.
fn label_disk<D: Disk + Drop>(
    alloc: Global,
    disks: &mut DiskArray<D>,
    which: usize,
    label: &Label,
) -> Result<(), Refusal>
    requires which { which < length disks.old.starts }
    requires room { 1048576 ≤ length (bytes_of disks.old.starts which) }
    requires valid { IsValid (label_view label.now) }
    ensures makes { MakesOn (is_disk which)
        (label_on disks.old.starts which (label_view label.now)) disks.old disks.new }
    ensures shown { OnOk result (AllShow (length (bytes_of disks.old.starts which))
        (content disks.new which) (label_view label.now)) }
    ensures settled { OnOk result (IsSettled (calls_on which disks.new.calls)) }
    ensures failed { FailedOn (IsFaultOf result) disks.old disks.new }
{
    write_four(alloc, disks, which, label)?;
    flush(disks, which)
}

/// Makes a label that of a child.
fn set_child(label: &mut Label, child: Child)
    ensures { label_view label.new ≡ of_child (label_view label.old) child }
{
    label.top_guid = child.top_guid;
    label.guid = child.guid;
}

/// Labels each disk as the child of its number.
fn label_disks<D: Disk + Drop>(
    alloc: Global,
    disks: &mut DiskArray<D>,
    label: &mut Label,
    children: &[Child],
) -> Result<(), Refusal>
    requires count { length children.now ≡ length disks.old.starts }
    requires room { HaveLabels disks.old.starts }
    requires valid { All (λ child. IsValid (of_child (label_view label.old) child)) children.now }
    ensures makes { Makes (IsLabelWrite disks.old.starts
        (map (of_child (label_view label.old)) children.now)) disks.old disks.new }
    ensures shown { OnOk result (AreLabeled disks.new
        (map (of_child (label_view label.old)) children.now)) }
    ensures settled { OnOk result (AreSettled disks.new) }
    ensures failed { FailedOn (IsFaultOf result) disks.old disks.new }
{
    for which in 0..children.len() {
        set_child(label, children[which]);
        label_disk(alloc, disks, which, label)?;
    }
    Ok(())
}

/// A law: a `u64` is a word of 64 bits.
fn is_word(number: u64)
    ensures { number < 2 ^ 64 }
{
    let _ = number;
}

/// Writes the four labels of each disk of a new pool and flushes them: claim, group, that the pool is
/// active, the disk's own guid and that of its vdev, and the configuration. The disks are those of the
/// vdevs' children, in order. A call that fails ends it.
pub fn write_labels<D: Disk + Drop>(
    alloc: Global,
    disks: &mut DiskArray<D>,
    pool: PoolIdentity,
    config: Config,
    claim: u64,
    group: u64,
) -> Result<(), Refusal>
    requires count { length (plain_children (config_view config)) ≡ length disks.old.starts }
    requires room { HaveLabels disks.old.starts }
    requires allowed { IsAllowed pool.guid (config_view config) }
    requires name { IsTrue (is_name (string_bytes pool.name)) }
    requires claim { IsCount claim }
    requires group { IsCount group }

    // Nothing is written but each disk's own label, in its four places.
    ensures makes { Makes (IsLabelWrite disks.old.starts
        (labels_of pool config claim group)) disks.old disks.new }

    // Then the labels of each disk show its own, flushed.
    ensures shown { OnOk result (AreLabeled disks.new (labels_of pool config claim group)) }
    ensures settled { OnOk result (AreSettled disks.new) }

    // A call failed on the disk that a `DiskFault` names, and no other call did.
    ensures failed { FailedOn (IsFaultOf result) disks.old disks.new }
{
    allowed_has_room();
    is_word(pool.guid);
    let children = children_of(alloc, &config)?;
    let mut label = Label {
        claim,
        guid: 0,
        name: pool.name,
        pool_guid: pool.guid,
        state: State::Active,
        top_guid: 0,
        group,
        config,
    };
    label_disks(alloc, disks, &mut label, &children)
}
