//! Records of chains that are linked past a snapshot.
ghost use Rattle.std.specs.Prelude.{◌≡◌, ◌⊎◌, ℕ, Option, OnOk};
ghost use Rattle.dataset_chains.specs.Over.{AreOver};
ghost use Rattle.dataset_chains.specs.States.{AreOfOneSet, HaveSameLists, record_at};
ghost use Rattle.dataset_destroys.specs.Places.{ArePlaced, FitsPlace, IsApart, IsLone, after_of};
ghost use Rattle.dataset_destroys.specs.Steps.{AreLinked, IsBefore, IsPassed};
ghost use Rattle.dataset_destroys.specs.Touched.{IsBeside};
ghost use Rattle.objset.specs.Objects.{Object};

use crate::places::Place;
use crate::records::{put_record, take_out};
use dataset_chains::DatasetChanges;
use meta_objset::DatasetRecord;
use std::alloc::AllocError;

/// A snapshot's record goes, and what comes after it stands behind the snapshot before it.
pub(crate) fn link_past(changes: &mut DatasetChanges, place: &Place) -> Result<(), AllocError>
    requires fits { FitsPlace place.now }
    requires lone { IsLone place.now }
    ensures one_set { AreOfOneSet changes.old changes.new }
    ensures lists { HaveSameLists changes.old changes.new }
    ensures touched { OnOk result ((number : ℕ)
        → (record_at changes.new number ≡ record_at changes.old number)
        ⊎ ((number ≡ (place.now).number) ⊎ IsBeside (place.now).gone number)) }
    ensures value { OnOk result ((objects : ℕ → Option Object) → AreOver objects changes.old
        → ArePlaced objects changes.old place.now → IsApart place.now
        → IsPassed objects changes.old changes.new (place.now).number (place.now).gone.previous
        (place.now).gone.next (place.now).after (place.now).before) }
{
    put_record(changes, place.gone.next, &place.follower())?;
    link_before(changes, place)?;
    take_out(changes, place.number)?;
    Ok(())
}

impl Place {
    /// The record of what comes after the snapshot, once that is gone.
    fn follower(&self) -> DatasetRecord
        ensures { result ≡ after_of self.now }
    {
        DatasetRecord {
            previous: self.gone.previous,
            ..self.after
        }
    }
}

/// What came after a snapshot comes after the one before it, unless that has another behind it: then the snapshot was a clone's first.
fn link_before(changes: &mut DatasetChanges, place: &Place) -> Result<(), AllocError>
    requires { FitsPlace place.now }
    ensures one_set { AreOfOneSet changes.old changes.new }
    ensures lists { HaveSameLists changes.old changes.new }
    ensures touched { OnOk result ((number : ℕ)
        → (record_at changes.new number ≡ record_at changes.old number)
        ⊎ IsBeside (place.now).gone number) }
    ensures value { OnOk result ((objects : ℕ → Option Object) → AreOver objects changes.old
        → IsBefore objects changes.old (place.now).gone.previous (place.now).before
        → AreLinked objects changes.old changes.new (place.now).number (place.now).gone.previous
        (place.now).gone.next (place.now).before) }
{
    let Some(before) = place.before else {
        return Ok(());
    };
    if before.next != place.number {
        return Ok(());
    }
    let linked = DatasetRecord {
        next: place.gone.next,
        ..before
    };
    put_record(changes, place.gone.previous, &linked)?;
    Ok(())
}
