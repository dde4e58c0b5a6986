//! What becomes unused of a metaslab as blocks are given back.
ghost use Rattle.std.specs.Prelude.{◌≡◌, ◌⊎◌, [], ◌∷◌, OnOk, IfErr};
ghost use Rattle.space_map.specs.declared.entry.Kind.TheVariants.{Freed};
ghost use Rattle.space_map.specs.FreeRuns.{CanEnter, IsEntered, entry_of};
ghost use Rattle.block_store.specs.Gone.{CannotGiveBack, GivesBack};
ghost use Rattle.block_store.specs.Releases.{copies_of, copies_of_all, copies_of_at, copy_of_at};

use crate::read::places_of;
use crate::refusal::Refusal;
use crate::shape::VdevShape;
use block_pointer::{Block, Dva};
use space_map::{FreeSet, Kind, Run};

/// A metaslab of a vdev.
#[derive(Clone, Copy)]
pub(crate) struct MetaslabAt {
    pub shape: VdevShape,
    pub vdev: usize,
    pub metaslab: usize,
}

/// Adds what all copies of these blocks have of a metaslab to what is unused of it. `BadPointer` only where they can't all be given
/// back. After an error some were added.
pub(crate) fn give_back(free: &mut FreeSet, at: MetaslabAt, gone: &[Block]) -> Result<(), Refusal>
    ensures given { OnOk result (GivesBack at (copies_of_all gone.now) free.old free.new) }
    ensures sectors { free.new.sectors ≡ free.old.sectors }
    ensures refused { IfErr result (λ refusal. (refusal ≡ Refusal.NoMemory)
        ⊎ ((refusal ≡ Refusal.BadPointer)
        × CannotGiveBack at (copies_of_all gone.now) free.old)) }
{
    for block in gone {
        give_block(free, at, block)?;
    }
    Ok(())
}

/// Adds what the copies of a block have of it.
fn give_block(free: &mut FreeSet, at: MetaslabAt, block: &Block) -> Result<(), Refusal>
    ensures given { OnOk result (GivesBack at (copies_of block.now) free.old free.new) }
    ensures sectors { free.new.sectors ≡ free.old.sectors }
    ensures refused { IfErr result (λ refusal. (refusal ≡ Refusal.NoMemory)
        ⊎ ((refusal ≡ Refusal.BadPointer)
        × CannotGiveBack at (copies_of block.now) free.old)) }
{
    let places = places_of(block.copies);
    give_places(free, at, block, places.as_slice())
}

/// Adds what copies of a block that lie at these places have of it.
fn give_places(
    free: &mut FreeSet,
    at: MetaslabAt,
    block: &Block,
    places: &[Dva],
) -> Result<(), Refusal>
    ensures given { OnOk result
        (GivesBack at (copies_of_at block.now places.now) free.old free.new) }
    ensures sectors { free.new.sectors ≡ free.old.sectors }
    ensures refused { IfErr result (λ refusal. (refusal ≡ Refusal.NoMemory)
        ⊎ ((refusal ≡ Refusal.BadPointer)
        × CannotGiveBack at (copies_of_at block.now places.now) free.old)) }
{
    for place in places {
        give_place(free, at, block, *place)?;
    }
    Ok(())
}

/// Adds what the copy that lies there has of it.
fn give_place(free: &mut FreeSet, at: MetaslabAt, block: &Block, place: Dva) -> Result<(), Refusal>
    ensures given { OnOk result
        (GivesBack at (copy_of_at block.now place ∷ []) free.old free.new) }
    ensures sectors { free.new.sectors ≡ free.old.sectors }
    ensures refused { IfErr result (λ refusal. (refusal ≡ Refusal.NoMemory)
        ⊎ ((refusal ≡ Refusal.BadPointer)
        × CannotGiveBack at (copy_of_at block.now place ∷ []) free.old)) }
{
    if place.vdev as usize != at.vdev || at.shape.metaslab_of(place) != at.metaslab as u64 {
        return Ok(());
    }
    let start = place.offset % at.shape.metaslab_sectors();
    let len = u64::from(place.allocated);
    add(free, Run { start, len })
}

/// Adds a run. `BadPointer` where it isn't within the metaslab, or has a sector that is there already. An error changes nothing.
fn add(free: &mut FreeSet, run: Run) -> Result<(), Refusal>
    ensures added { OnOk result (IsEntered free.old free.new (entry_of Freed run)) }
    ensures sectors { free.new.sectors ≡ free.old.sectors }
    ensures refused { IfErr result (λ refusal. (refusal ≡ Refusal.NoMemory)
        ⊎ ((refusal ≡ Refusal.BadPointer) × ¬ CanEnter free.old (entry_of Freed run))) }
{
    if run.len == 0 {
        return Ok(());
    }
    let sectors = free.sectors();
    if run.len > sectors || run.start > sectors - run.len {
        return Err(Refusal::BadPointer);
    }
    match free.change(Kind::Freed, run) {
        Ok(()) => Ok(()),
        Err(space_map::Refusal::BadMap) => Err(Refusal::BadPointer),
        Err(space_map::Refusal::NoMemory) => Err(Refusal::NoMemory),
    }
}
