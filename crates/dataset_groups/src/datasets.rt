//! The datasets of a pool as a group finds and changes them.
ghost use Rattle.std.specs.Prelude.{◌≡◌, ◌≤◌, ◌<◌, ℕ, List, Option};

use dataset_destroys::DatasetChanges;
use dnode::ObjectSet;
use meta_objset::Directory;
use std::alloc::Global;

/// The number of the first object behind the tables of a meta object set.
pub const FIRST_OBJECT: u64 = 5;

/// The numbers of objects are below 32 * 128^5.
const NUMBERS_END: u64 = 1 << 40;

/// Where the numbers end that new objects take: those from the next one on.
#[derive(Clone, Copy)]
pub struct NumberBounds {
    /// New objects take numbers below this one.
    pub end: u64,
    /// Before the group no object had this number or a later one.
    pub behind: u64,
}

/// What a transaction group makes of a pool's datasets so far.
///
/// Where a method answers an error what it was to change is perhaps changed in part, and blocks may be planned that nothing has: these datasets
/// are to be dropped, and another plan begun.
#[derive(Drop)]
pub struct GroupDatasets {
    /// The names of the datasets, with the objects of their records.
    pub directory: Directory,
    /// Their records and dead lists.
    pub changes: DatasetChanges,
    /// The number of the next object that is made.
    pub next: u64,
    /// Where these numbers end.
    pub bounds: NumberBounds,
}

impl GroupDatasets {
    ghost use Rattle.block_pointer.specs.declared.block.Block.{Block};
    ghost use Rattle.block_store.specs.Blocks.{Contents};
    ghost use Rattle.dataset_destroys.specs.Chains.{Reading};
    ghost use Rattle.dataset_destroys.specs.ChainStanding.{HasChains};
    ghost use Rattle.dataset_destroys.specs.States.{AreUntouched, birth_of, set_of};
    ghost use Rattle.dataset_groups.specs.Groups.{SpellsGroup, first_number};
    ghost use Rattle.dataset_groups.specs.Names.{NamesPool};
    ghost use Rattle.dataset_groups.specs.NewVolumes.{numbers_end};
    ghost use Rattle.dead_list.specs.Datasets.{Pool};
    ghost use Rattle.dnode.specs.ObjectSet.{FitsObjectSet};
    ghost use Rattle.objset.specs.Objects.{Object, AreObjects};
    ghost use Rattle.pool_model.specs.Pools.{PlainPool};

    /// The datasets of a meta object set, whose blocks were born in the transaction group `birth` or before, under the names of its directory.
    /// Nothing is read yet.
    pub fn new(alloc: Global, set: ObjectSet, birth: u64, directory: Directory) -> GroupDatasets
        requires { FitsObjectSet set }
        ensures of_set { (set_of result.changes ≡ set) × (birth_of result.changes ≡ birth) }
        ensures none { AreUntouched result.changes }
        ensures directory { result.directory ≡ directory }
        ensures next { result.next ≡ first_number set }
        ensures bounds { (result.bounds.end ≡ numbers_end)
            × (result.bounds.behind ≡ first_number set) }
        ensures behind { (4 < result.next) × (result.next ≤ numbers_end) }

        // Where the set's datasets fit one another, and the directory names them, the group begins with them.
        ensures value { (stored : Contents) (bound group : ℕ) (objects : ℕ → Option Object)
            (own : List Block) (blocks : ℕ → List Block) (pool : Pool) (readings : ℕ → Reading)
            (plain : PlainPool) → AreObjects stored birth set objects own blocks
            → HasChains stored bound objects pool readings → bound ≤ group
            → NamesPool pool readings directory plain
            → SpellsGroup stored group objects result (record pool { group = group }) readings
            plain }
    {
        let next = set.objects.max(FIRST_OBJECT);
        GroupDatasets {
            directory,
            changes: DatasetChanges::new(alloc, set, birth),
            next,
            bounds: NumberBounds {
                end: NUMBERS_END,
                behind: next,
            },
        }
    }

    /// Has new objects take the numbers from `first` on and below `end`, as some of objects that are gone, in place of those behind all objects.
    /// That no object has one of these is the caller's to see to, and that nothing was made so far.
    pub fn number_from(&mut self, first: u64, end: u64)
        ensures directory { self.new.directory ≡ self.old.directory }
        ensures changes { self.new.changes ≡ self.old.changes }
        ensures next { self.new.next ≡ first }
        ensures bounds { (self.new.bounds.end ≡ end)
            × (self.new.bounds.behind ≡ self.old.bounds.behind) }
    {
        self.next = first;
        self.bounds.end = end;
    }
}
