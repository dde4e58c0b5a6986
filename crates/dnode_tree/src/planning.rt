//! One block of an object that is planned.
ghost use Rattle.std.specs.Prelude.{◌≡◌, ◌*◌, ◌^◌, ◌<◌, ◌∷◌, [], ℕ, List, length, OnOk, IfOk, IfErr};
ghost use Rattle.std.specs.List.{AllByRecursion};
ghost use Rattle.block_pointer.specs.Block.{FitsBlock};
ghost use Rattle.block_pointer.specs.Copies.{dvas};
ghost use Rattle.dnode.specs.Node.{IsNode};
ghost use Rattle.block_store.specs.Causes.{IsCaused};
ghost use Rattle.block_store.specs.Blocks.{Contents, Adds};
ghost use Rattle.block_store.specs.Demands.{HavePlaces, LackPlaces};
ghost use Rattle.block_store.specs.Plans.{Plans};
ghost use Rattle.block_store.specs.Reading.{Asks};
ghost use Rattle.block_store.specs.Steps.{OnlyReadsAndPlans};
ghost use Rattle.dnode_tree.specs.Spots.{demands_at};
ghost use Rattle.dnode_tree.specs.Subtree.{asked_of};
ghost use Rattle.dnode_tree.specs.Tree.{property_of};
ghost use Rattle.dnode_tree.specs.Writes.{copies_at, HasNoRoom, IsForRoom};

use crate::descent::property_at;
use crate::writes::Rewriting;
use block_pointer::{Block, Copies, Dva};
use block_store::{BlockStore, NewBlock, Refusal};
use model_disk::Disk;
use std::alloc::Global;

impl<'a> Rewriting<'a> {
    /// Plans a block of the object.
    pub(crate) fn plan_block<D: Disk + Drop>(
        self,
        store: &mut BlockStore<D>,
        alloc: Global,
        bytes: &[u8],
        level: u8,
        fill: u64,
    ) -> Result<Block, Refusal>
        requires node { IsNode self.node.now }
        requires low { level < 6 }
        requires born { 0 < self.birth }
        requires filled { 0 < fill }
        requires fill_of_data { level ≡ 0 → fill ≡ 1 }
        requires size { length bytes.now ≡ (property_of self.node.now level).sectors * 512 }
        ensures steps { (missing : List ℕ) → OnlyReadsAndPlans store.old store.new missing }
        ensures fits { IfOk result FitsBlock }
        ensures property { IfOk result (λ block.
            block.property ≡ property_of self.entry.node.now level) }
        ensures asks { IfOk result
            (Asks (asked_of (property_of self.entry.node.now level) self.entry.birth)) }
        ensures birth { IfOk result (λ block. block.birth ≡ self.entry.birth) }
        ensures fill { IfOk result (λ block. block.fill ≡ fill) }
        ensures copies { IfOk result (λ block.
            length (dvas block.copies) ≡ copies_at self.entry.copies block.property.level) }
        ensures planned { IfOk result (λ block. (stored planned : Contents)
            → Plans store.old stored planned → (later : Contents) × Plans store.new stored later
            × Adds planned later block bytes.now) }
        ensures refused { IfErr result IsForRoom }
        ensures caused { (missing : List ℕ)
            → IfErr result (IsCaused store.old store.new missing) }
        ensures no_room { IfErr result (λ refusal. refusal ≡ Refusal.NoSpace
            → (missing : List ℕ)
            → HasNoRoom store.old store.new missing self.entry.node.now self.entry.copies) }
        ensures place { OnOk result ((first : ℕ)
            → HavePlaces store.old.spaces
            (demands_at self.entry.node.now self.entry.copies
            ((record { level = level; first = first }) ∷ []))
            store.new.spaces) }
        ensures no_place { IfErr result (λ refusal. refusal ≡ Refusal.NoSpace → (first : ℕ)
            → LackPlaces store.old.spaces
            (demands_at self.entry.node.now self.entry.copies
            ((record { level = level; first = first }) ∷ []))
            store.new.spaces) }
    {
        let block = NewBlock {
            property: property_at(self.node, level),
            birth: self.birth,
            fill,
        };
        let planned = store.plan_write(alloc, bytes, block, self.copies.at(level))?;
        vdevs_are_short(&planned.copies);
        Ok(planned)
    }
}

/// The numbers of vdevs have 32 bits.
fn vdevs_are_short(copies: &Copies)
    ensures { AllByRecursion (λ place. place.vdev < 2 ^ 32) (dvas copies.now) }
{
    match copies {
        Copies::One(first) => {
            vdev_is_short(first);
        }
        Copies::Two(first, second) => {
            vdev_is_short(first);
            vdev_is_short(second);
        }
        Copies::Three(first, second, third) => {
            vdev_is_short(first);
            vdev_is_short(second);
            vdev_is_short(third);
        }
    }
}

fn vdev_is_short(place: &Dva)
    ensures { place.now.vdev < 2 ^ 32 }
{
    let _vdev = place.vdev;
}
