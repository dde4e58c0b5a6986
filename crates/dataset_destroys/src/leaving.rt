//! Heads whose records go.
ghost use Rattle.std.specs.Prelude.{◌≡◌, ◌⊎◌, ℕ, Option, OnOk};
ghost use Rattle.dataset_chains.specs.Over.{AreOver};
ghost use Rattle.dataset_chains.specs.States.{AreOfOneSet, HaveSameLists, record_at};
ghost use Rattle.dataset_destroys.specs.HeadPlaces.{AreHeadPlaced, FitsHead, IsLoneHead};
ghost use Rattle.dataset_destroys.specs.Steps.{AreOneLess, IsBefore, IsLeft};
ghost use Rattle.dataset_destroys.specs.Touched.{IsBeside};
ghost use Rattle.objset.specs.Objects.{Object};

use crate::head_places::HeadPlace;
use crate::records::{put_record, take_out};
use dataset_chains::DatasetChanges;
use meta_objset::DatasetRecord;
use std::alloc::AllocError;

/// A head's record goes, and its origin has a clone less.
pub(crate) fn leave(changes: &mut DatasetChanges, place: &HeadPlace) -> Result<(), AllocError>
    requires fits { FitsHead place.now }
    requires lone { IsLoneHead place.now }
    ensures one_set { AreOfOneSet changes.old changes.new }
    ensures lists { HaveSameLists changes.old changes.new }
    ensures touched { OnOk result ((number : ℕ)
        → (record_at changes.new number ≡ record_at changes.old number)
        ⊎ ((number ≡ (place.now).number) ⊎ IsBeside (place.now).gone number)) }
    ensures value { OnOk result ((objects : ℕ → Option Object) → AreOver objects changes.old
        → AreHeadPlaced objects changes.old place.now
        → IsLeft objects changes.old changes.new (place.now).number (place.now).gone.previous
        (place.now).before) }
{
    leave_origin(changes, place)?;
    take_out(changes, place.number)?;
    Ok(())
}

/// The origin of a clone has a clone less.
fn leave_origin(changes: &mut DatasetChanges, place: &HeadPlace) -> Result<(), AllocError>
    requires fits { FitsHead place.now }
    requires lone { IsLoneHead place.now }
    ensures one_set { AreOfOneSet changes.old changes.new }
    ensures lists { HaveSameLists changes.old changes.new }
    ensures touched { OnOk result ((number : ℕ)
        → (record_at changes.new number ≡ record_at changes.old number)
        ⊎ IsBeside (place.now).gone number) }
    ensures value { OnOk result ((objects : ℕ → Option Object) → AreOver objects changes.old
        → IsBefore objects changes.old (place.now).gone.previous (place.now).before
        → AreOneLess objects changes.old changes.new (place.now).gone.previous
        (place.now).before) }
{
    let Some(before) = place.before else {
        return Ok(());
    };
    let less = DatasetRecord {
        clones: before.clones - 1,
        ..before
    };
    put_record(changes, place.gone.previous, &less)?;
    Ok(())
}
