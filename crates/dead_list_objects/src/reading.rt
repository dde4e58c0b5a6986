//! Dead lists are read.
ghost use Rattle.std.specs.Prelude.{◌≡◌, ◌⊎◌, ℕ, List, Option, IfOk, IfErr, IsPermutation};
ghost use Rattle.block_pointer.specs.declared.block.Block.{Block};
ghost use Rattle.block_store.specs.Blocks.{Contents};
ghost use Rattle.block_store.specs.Steps.{OnlyReadsBlocks, AnswersTell};
ghost use Rattle.block_store.specs.Store.{Holds};
ghost use Rattle.dead_list.specs.Rows.{SpellsList, SpellsNoList};
ghost use Rattle.dnode.specs.ObjectSet.{FitsObjectSet};
ghost use Rattle.objset.specs.Objects.{Object, AreObjects};
ghost use Rattle.object_table.specs.Ends.{IsEndFound, IsEndOf};
ghost use Rattle.object_table.specs.Tables.{HasTable};
ghost use Rattle.dead_list_objects.specs.Causes.{IsCausedOf};
ghost use Rattle.dead_list_objects.specs.Lists.{dead_list_kind, HasDeadList, HasSomeDeadList, IsEndUnread, IsForLossOf, IsListFound, IsListRefused};

use crate::kind::DEAD_LIST_KIND;
use crate::refusal::Refusal;
use block_store::BlockStore;
use dead_list::DeadList;
use dnode::ObjectSet;
use model_disk::Disk;
use object_table::TableEnd;
use std::alloc::Global;

/// The dead list of an object, by the object's number. `BadList` where a row of it is no block pointer, or a hole's; `Unread`
/// with `BadPointer` where it is no object of a dead list. The set's blocks were born in the transaction group `birth` or
/// before. The disks that are named are taken as missing.
pub fn read_dead_list<D: Disk + Drop>(
    set: &ObjectSet,
    store: &mut BlockStore<D>,
    alloc: Global,
    number: u64,
    birth: u64,
    missing: &[usize],
) -> Result<DeadList, Refusal>
    requires { FitsObjectSet set.now }
    ensures reads { OnlyReadsBlocks store.old store.new missing.now }
    ensures value { IfOk result (λ list. (stored : Contents) (objects : ℕ → Option Object)
        (own : List Block) (blocks : ℕ → List Block) → Holds store.old stored
        → AreObjects stored birth set.now objects own blocks
        → AnswersTell store.old store.new missing.now
        → HasDeadList (objects number) list) }
    // It is the only list, but for the order of its blocks.
    ensures one { IfOk result (λ list. (stored : Contents) (objects : ℕ → Option Object)
        (own : List Block) (blocks : ℕ → List Block) → Holds store.old stored
        → AreObjects stored birth set.now objects own blocks
        → AnswersTell store.old store.new missing.now
        → (other : List Block) → HasDeadList (objects number) other → IsPermutation other list) }

    // Whatever the set is: what was read, and on a refusal its cause.
    ensures found { IfOk result (IsListFound store.old.spaces set.now birth number) }
    ensures refused { IfErr result
        (IsListRefused store.old store.new missing.now set.now birth number) }
    ensures caused { IfErr result (IsCausedOf store.old store.new missing.now) }

    // And it is read, over disks whose answers tell, unless too many disks miss of a block.
    ensures known { IfErr result (λ refusal. (stored : Contents) (objects : ℕ → Option Object)
        (own : List Block) (blocks : ℕ → List Block) → Holds store.old stored
        → AreObjects stored birth set.now objects own blocks
        → AnswersTell store.old store.new missing.now
        → IsForLossOf refusal ⊎ ¬ HasSomeDeadList (objects number)) }
{
    let rows = object_table::read(set, store, alloc, DEAD_LIST_KIND, number, birth, missing)?;
    list_of(alloc, &rows)
}

/// The list that the rows spell.
fn list_of(alloc: Global, rows: &[u8]) -> Result<DeadList, Refusal>
    ensures found { IfOk result (SpellsList rows.now) }
    ensures only { (list : List Block) → SpellsList rows.now list
        → IfOk result (IsPermutation list) }
    ensures refused { IfErr result (λ refusal. (refusal ≡ Refusal.NoMemory)
        ⊎ ((refusal ≡ Refusal.BadList) × SpellsNoList rows.now)) }
{
    match DeadList::decode(alloc, rows) {
        Ok(list) => Ok(list),
        Err(dead_list::Refusal::BadPointer) => Err(Refusal::BadList),
        Err(dead_list::Refusal::NoMemory) => Err(Refusal::NoMemory),
    }
}

/// The end of a dead list, by the number of its object: what `extension` has to know of it, and the number of its blocks. Of
/// the blocks of the list's object the first and the last are read. `Unread` with `BadPointer` where it is no object of a dead
/// list, or where no table has these two blocks; the rows are not judged. The set's blocks were born in the transaction group
/// `birth` or before. The disks that are named are taken as missing.
pub fn read_dead_list_end<D: Disk + Drop>(
    set: &ObjectSet,
    store: &mut BlockStore<D>,
    alloc: Global,
    number: u64,
    birth: u64,
    missing: &[usize],
) -> Result<TableEnd, Refusal>
    requires { FitsObjectSet set.now }
    ensures reads { OnlyReadsBlocks store.old store.new missing.now }
    ensures value { IfOk result (λ end. (stored : Contents) (objects : ℕ → Option Object)
        (own : List Block) (blocks : ℕ → List Block) → Holds store.old stored
        → AreObjects stored birth set.now objects own blocks
        → AnswersTell store.old store.new missing.now
        → (rows : List ℕ) → HasTable dead_list_kind (objects number) rows
        → IsEndOf dead_list_kind (objects number) rows end) }

    // Whatever the set is: what was read, and on a refusal its cause.
    ensures found { IfOk result (IsEndFound store.old.spaces set.now birth dead_list_kind number) }
    ensures refused { IfErr result
        (IsEndUnread store.old store.new missing.now set.now birth number) }
    ensures caused { IfErr result (IsCausedOf store.old store.new missing.now) }

    // And it is read, over disks whose answers tell, unless too many disks miss of a block.
    ensures known { IfErr result (λ refusal. (stored : Contents) (objects : ℕ → Option Object)
        (own : List Block) (blocks : ℕ → List Block) → Holds store.old stored
        → AreObjects stored birth set.now objects own blocks
        → AnswersTell store.old store.new missing.now
        → IsForLossOf refusal
        ⊎ ((rows : List ℕ) → ¬ HasTable dead_list_kind (objects number) rows)) }
{
    let end = object_table::read_end(set, store, alloc, DEAD_LIST_KIND, number, birth, missing)?;
    Ok(end)
}
