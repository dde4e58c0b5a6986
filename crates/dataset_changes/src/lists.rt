//! Dead lists are read and changed.
ghost use Rattle.std.specs.Prelude.{◌≡◌, ◌⊎◌, ◌++◌, [], if◌then◌else◌, ℕ, List, Option, Some, None, All, OnOk, IfOk, IfErr, IfSome, IsPermutation};
ghost use Rattle.block_pointer.specs.declared.block.Block.{Block};
ghost use Rattle.block_pointer.specs.Block.{FitsBlock};
ghost use Rattle.block_store.specs.Blocks.{Contents};
ghost use Rattle.block_store.specs.Causes.{IsCaused};
ghost use Rattle.block_store.specs.Losses.{IsForLoss};
ghost use Rattle.block_store.specs.Steps.{OnlyReadsBlocks, AnswersTell};
ghost use Rattle.block_store.specs.Store.{Holds};
ghost use Rattle.dead_list_objects.specs.Lists.{dead_list_kind, HasDeadList, IsEndUnread, IsListRefused};
ghost use Rattle.dead_list_objects.specs.declared.refusal.Refusal.{Refusal as ListRefusal};
ghost use Rattle.object_table.specs.Ends.{IsEndOf};
ghost use Rattle.object_table.specs.Tables.{HasTable};
ghost use Rattle.objset.specs.Objects.{Object, AreObjects};
ghost use Rattle.dataset_changes.specs.Fitting.{FitsListState};
ghost use Rattle.dataset_changes.specs.Over.{AreOver, HasListNow, IsListNow, IsListOver};
ghost use Rattle.dataset_changes.specs.Refused.{IsListEndUnread, IsListUnread, of_list};
ghost use Rattle.dataset_changes.specs.States.{AreOfOneSet, HasListPut, HaveSameRecords, IsNumber};
ghost use Rattle.dataset_changes.specs.States.{birth_of, is_made_list, list_at, set_of, with_list, without_list};
ghost use Rattle.dataset_changes.specs.declared.states.ListState.{ListState};
ghost use Rattle.dataset_changes.specs.declared.states.ListState.TheVariants as lists;

use crate::changes::DatasetChanges;
use crate::records::is_number;
use crate::states::ListState;
use block_pointer::Block;
use block_store::{BlockStore, Refusal};
use dead_list::DeadList;
use model_disk::Disk;
use object_table::TableEnd;
use std::alloc::{AllocError, Global};

impl DatasetChanges {
    /// The whole dead list at a number, as the group leaves it so far, is taken out: an empty one stays. It is read of the set where it
    /// wasn't yet. `BadPointer` where the number is none of an object behind the tables, where the object is none of a dead list, or a row
    /// of it none, and where the list is gone.
    pub fn take_list<D: Disk + Drop>(
        &mut self,
        store: &mut BlockStore<D>,
        alloc: Global,
        number: u64,
    ) -> Result<DeadList, Refusal>
        ensures reads { OnlyReadsBlocks store.old store.new [] }
        ensures one_set { AreOfOneSet self.old self.new }
        ensures records { HaveSameRecords self.old self.new }
        ensures taken { OnOk result (HasListPut self.old number
            (Some (with_list (list_at self.old number) [])) self.new) }
        ensures fits { IfOk result (λ list. All FitsBlock list × IsNumber number) }
        ensures value { IfOk result (λ found. (stored : Contents) (objects : ℕ → Option Object)
            (own : List Block) (blocks : ℕ → List Block) → Holds store.old stored
            → AreObjects stored (birth_of self.old) (set_of self.old) objects own blocks
            → AnswersTell store.old store.new [] → AreOver objects self.old
            → AreOver objects self.new × HasListNow objects self.old number found
            × ((list : List Block) → HasListNow objects self.old number list
            → IsPermutation found list)) }
        ensures caused { IfErr result (IsCaused store.old store.new []) }
        ensures refused { IfErr result (IsListUnread store.old store.new self.old number) }
        ensures known { IfErr result (λ refusal. (stored : Contents) (objects : ℕ → Option Object)
            (own : List Block) (blocks : ℕ → List Block) → Holds store.old stored
            → AreObjects stored (birth_of self.old) (set_of self.old) objects own blocks
            → AnswersTell store.old store.new [] → IsNumber number → (list : List Block)
            → HasListNow objects self.old number list → IsForLoss refusal) }
    {
        if !is_number(number) {
            return Err(Refusal::BadPointer);
        }
        let made = self.is_list_made(number);
        let state = self.remove_list(number);
        let list = self.whole_list(store, alloc, number, state)?;
        self.insert_list(number, whole_state(made, DeadList::new(alloc)))?;
        Ok(list)
    }

    /// Another dead list in place of one that was taken out or made.
    pub fn put_list(&mut self, number: u64, list: DeadList) -> Result<(), AllocError>
        requires fits { All FitsBlock list }
        requires number { IsNumber number }
        ensures one_set { AreOfOneSet self.old self.new }
        ensures records { HaveSameRecords self.old self.new }
        ensures put { OnOk result (HasListPut self.old number
            (Some (with_list (list_at self.old number) list)) self.new) }
        ensures over { OnOk result ((objects : ℕ → Option Object) (old : List Block)
            → AreOver objects self.old → HasListNow objects self.old number old
            → AreOver objects self.new) }
    {
        let made = self.is_list_made(number);
        self.insert_list(number, whole_state(made, list))
    }

    /// Adds blocks to a dead list. Where it wasn't read whole, of the set only the first and the last block of its object are read, and nothing
    /// where there are no blocks to be added. `BadPointer` where the number is none of an object behind the tables, where the object is none
    /// of a dead list, and where the list is gone.
    pub fn add_to_list<D: Disk + Drop>(
        &mut self,
        store: &mut BlockStore<D>,
        alloc: Global,
        number: u64,
        added: &[Block],
    ) -> Result<(), Refusal>
        requires fits { All FitsBlock added.now }
        ensures reads { OnlyReadsBlocks store.old store.new [] }
        ensures idle { added.now ≡ [] → store.new ≡ store.old }
        ensures one_set { AreOfOneSet self.old self.new }
        ensures records { HaveSameRecords self.old self.new }
        ensures others { OnOk result ((state : Option ListState)
            × HasListPut self.old number state self.new) }
        ensures value { OnOk result ((stored : Contents) (objects : ℕ → Option Object)
            (own : List Block) (blocks : ℕ → List Block) → Holds store.old stored
            → AreObjects stored (birth_of self.old) (set_of self.old) objects own blocks
            → AnswersTell store.old store.new [] → AreOver objects self.old
            → (list : List Block) → HasListNow objects self.old number list
            → AreOver objects self.new × HasListNow objects self.new number (list ++ added.now)) }
        ensures caused { IfErr result (IsCaused store.old store.new []) }
        ensures refused { IfErr result (IsListEndUnread store.old store.new self.old number) }
        ensures known { IfErr result (λ refusal. (stored : Contents) (objects : ℕ → Option Object)
            (own : List Block) (blocks : ℕ → List Block) → Holds store.old stored
            → AreObjects stored (birth_of self.old) (set_of self.old) objects own blocks
            → AnswersTell store.old store.new [] → IsNumber number → (list : List Block)
            → HasListNow objects self.old number list → IsForLoss refusal) }
    {
        if added.is_empty() {
            return Ok(());
        }
        if !is_number(number) {
            return Err(Refusal::BadPointer);
        }
        let state = self.remove_list(number);
        let known = self.known_list(store, alloc, number, state)?;
        self.insert_list(number, with_blocks(known, added)?)?;
        Ok(())
    }

    /// An empty dead list whose object is made.
    pub fn make_list(&mut self, alloc: Global, number: u64) -> Result<(), AllocError>
        requires number { IsNumber number }
        ensures one_set { AreOfOneSet self.old self.new }
        ensures records { HaveSameRecords self.old self.new }
        ensures put { OnOk result (HasListPut self.old number (Some (lists.Made [])) self.new) }
        ensures over { OnOk result ((objects : ℕ → Option Object) → AreOver objects self.old
            → objects number ≡ None → AreOver objects self.new) }
    {
        self.insert_list(number, ListState::Made(DeadList::new(alloc)))
    }

    /// The object of a dead list goes; the list isn't read. One that was made isn't made. `BadPointer` where the number is none of an object behind
    /// the tables.
    pub fn free_list(&mut self, number: u64) -> Result<(), Refusal>
        ensures one_set { AreOfOneSet self.old self.new }
        ensures records { HaveSameRecords self.old self.new }
        ensures put { OnOk result
            (HasListPut self.old number (without_list (list_at self.old number)) self.new) }
        ensures number { OnOk result (IsNumber number) }
        ensures over { OnOk result ((objects : ℕ → Option Object) (list : List Block)
            → AreOver objects self.old → HasListNow objects self.old number list
            → AreOver objects self.new) }
        ensures refused { IfErr result (λ refusal. (refusal ≡ Refusal.NoMemory)
            ⊎ ((refusal ≡ Refusal.BadPointer) × ¬ IsNumber number)) }
    {
        if !is_number(number) {
            return Err(Refusal::BadPointer);
        }
        if self.is_list_made(number) {
            self.remove_list(number);
            return Ok(());
        }
        self.insert_list(number, ListState::Gone)?;
        Ok(())
    }

    /// Whether the object of the dead list at a number is made.
    fn is_list_made(&self, number: u64) -> bool
        ensures { result ≡ is_made_list (list_at self.now number) }
    {
        match self.lists.get(&number) {
            Some(ListState::Made(_)) => true,
            _ => false,
        }
    }

    /// The whole dead list at a number, of which this became so far.
    fn whole_list<D: Disk + Drop>(
        &self,
        store: &mut BlockStore<D>,
        alloc: Global,
        number: u64,
        state: Option<ListState>,
    ) -> Result<DeadList, Refusal>
        requires { IfSome state FitsListState }
        ensures reads { OnlyReadsBlocks store.old store.new [] }
        ensures fits { IfOk result (All FitsBlock) }
        ensures value { IfOk result (λ found. (stored : Contents) (objects : ℕ → Option Object)
            (own : List Block) (blocks : ℕ → List Block) → Holds store.old stored
            → AreObjects stored (birth_of self.now) (set_of self.now) objects own blocks
            → AnswersTell store.old store.new [] → IsListOver (objects number) state
            → IsListNow (objects number) state found
            × ((list : List Block) → IsListNow (objects number) state list
            → IsPermutation found list)) }
        ensures caused { IfErr result (IsCaused store.old store.new []) }
        ensures refused { IfErr result (λ refusal. (refusal ≡ Refusal.NoMemory)
            ⊎ (((why : ListRefusal) × (refusal ≡ of_list why)
            × IsListRefused store.old store.new [] (set_of self.now) (birth_of self.now) number why)
            ⊎ ((refusal ≡ Refusal.BadPointer) × (state ≡ Some lists.Gone)))) }
        ensures known { IfErr result (λ refusal. (stored : Contents) (objects : ℕ → Option Object)
            (own : List Block) (blocks : ℕ → List Block) → Holds store.old stored
            → AreObjects stored (birth_of self.now) (set_of self.now) objects own blocks
            → AnswersTell store.old store.new [] → (list : List Block)
            → IsListNow (objects number) state list → IsForLoss refusal) }
    {
        match state {
            None => self.read_list(store, alloc, number),
            Some(ListState::Added { blocks: added, .. }) => {
                let list = self.read_list(store, alloc, number)?;
                joined(list, added)
            }
            Some(ListState::Whole(list)) => Ok(list),
            Some(ListState::Made(list)) => Ok(list),
            Some(ListState::Gone) => Err(Refusal::BadPointer),
        }
    }

    /// Reads the dead list at a number of the set.
    fn read_list<D: Disk + Drop>(
        &self,
        store: &mut BlockStore<D>,
        alloc: Global,
        number: u64,
    ) -> Result<DeadList, Refusal>
        ensures reads { OnlyReadsBlocks store.old store.new [] }
        ensures fits { IfOk result (All FitsBlock) }
        ensures value { IfOk result (λ found. (stored : Contents) (objects : ℕ → Option Object)
            (own : List Block) (blocks : ℕ → List Block) → Holds store.old stored
            → AreObjects stored (birth_of self.now) (set_of self.now) objects own blocks
            → AnswersTell store.old store.new [] → HasDeadList (objects number) found) }
        ensures one { IfOk result (λ found. (stored : Contents) (objects : ℕ → Option Object)
            (own : List Block) (blocks : ℕ → List Block) → Holds store.old stored
            → AreObjects stored (birth_of self.now) (set_of self.now) objects own blocks
            → AnswersTell store.old store.new [] → (list : List Block)
            → HasDeadList (objects number) list → IsPermutation found list) }
        ensures caused { IfErr result (IsCaused store.old store.new []) }
        ensures refused { IfErr result (λ refusal. (why : ListRefusal) × (refusal ≡ of_list why)
            × IsListRefused store.old store.new [] (set_of self.now) (birth_of self.now)
            number why) }
        ensures known { IfErr result (λ refusal. (stored : Contents) (objects : ℕ → Option Object)
            (own : List Block) (blocks : ℕ → List Block) → Holds store.old stored
            → AreObjects stored (birth_of self.now) (set_of self.now) objects own blocks
            → AnswersTell store.old store.new [] → (list : List Block)
            → HasDeadList (objects number) list → IsForLoss refusal) }
    {
        match dead_list_objects::read_dead_list(&self.set, store, alloc, number, self.birth, &[]) {
            Ok(list) => Ok(list),
            Err(why) => Err(refusal_of(why)),
        }
    }

    /// What became of the dead list at a number so far. Where nothing did its end is read of the set.
    fn known_list<D: Disk + Drop>(
        &self,
        store: &mut BlockStore<D>,
        alloc: Global,
        number: u64,
        state: Option<ListState>,
    ) -> Result<ListState, Refusal>
        requires { IfSome state FitsListState }
        ensures reads { OnlyReadsBlocks store.old store.new [] }
        ensures fits { IfOk result FitsListState }
        ensures gone { IfOk result (λ known. known ≡ lists.Gone → state ≡ Some lists.Gone) }
        ensures value { IfOk result (λ known. (stored : Contents) (objects : ℕ → Option Object)
            (own : List Block) (blocks : ℕ → List Block) → Holds store.old stored
            → AreObjects stored (birth_of self.now) (set_of self.now) objects own blocks
            → AnswersTell store.old store.new [] → IsListOver (objects number) state
            → (list : List Block) → IsListNow (objects number) state list
            → IsListOver (objects number) (Some known)
            × IsListNow (objects number) (Some known) list) }
        ensures caused { IfErr result (IsCaused store.old store.new []) }
        ensures refused { IfErr result (λ refusal. (why : ListRefusal) × (refusal ≡ of_list why)
            × IsEndUnread store.old store.new [] (set_of self.now) (birth_of self.now)
            number why) }
        ensures known { IfErr result (λ refusal. (stored : Contents) (objects : ℕ → Option Object)
            (own : List Block) (blocks : ℕ → List Block) → Holds store.old stored
            → AreObjects stored (birth_of self.now) (set_of self.now) objects own blocks
            → AnswersTell store.old store.new [] → (list : List Block)
            → IsListNow (objects number) state list → IsForLoss refusal) }
    {
        match state {
            None => {
                let end = self.read_end(store, alloc, number)?;
                let blocks = DeadList::new(alloc);
                Ok(ListState::Added { end, blocks })
            }
            Some(known) => Ok(known),
        }
    }

    /// Reads the end of the dead list at a number of the set.
    fn read_end<D: Disk + Drop>(
        &self,
        store: &mut BlockStore<D>,
        alloc: Global,
        number: u64,
    ) -> Result<TableEnd, Refusal>
        ensures reads { OnlyReadsBlocks store.old store.new [] }
        ensures value { IfOk result (λ end. (stored : Contents) (objects : ℕ → Option Object)
            (own : List Block) (blocks : ℕ → List Block) → Holds store.old stored
            → AreObjects stored (birth_of self.now) (set_of self.now) objects own blocks
            → AnswersTell store.old store.new [] → (rows : List ℕ)
            → HasTable dead_list_kind (objects number) rows
            → IsEndOf dead_list_kind (objects number) rows end) }
        ensures caused { IfErr result (IsCaused store.old store.new []) }
        ensures refused { IfErr result (λ refusal. (why : ListRefusal) × (refusal ≡ of_list why)
            × IsEndUnread store.old store.new [] (set_of self.now) (birth_of self.now)
            number why) }
        ensures known { IfErr result (λ refusal. (stored : Contents) (objects : ℕ → Option Object)
            (own : List Block) (blocks : ℕ → List Block) → Holds store.old stored
            → AreObjects stored (birth_of self.now) (set_of self.now) objects own blocks
            → AnswersTell store.old store.new [] → (list : List Block)
            → HasDeadList (objects number) list → IsForLoss refusal) }
    {
        let birth = self.birth;
        match dead_list_objects::read_dead_list_end(&self.set, store, alloc, number, birth, &[]) {
            Ok(end) => Ok(end),
            Err(why) => Err(refusal_of(why)),
        }
    }
}

/// Rows that are no dead list's are no pointer to one.
fn refusal_of(why: dead_list_objects::Refusal) -> Refusal
    ensures { result ≡ of_list why }
{
    match why {
        dead_list_objects::Refusal::NoMemory => Refusal::NoMemory,
        dead_list_objects::Refusal::BadList => Refusal::BadPointer,
        dead_list_objects::Refusal::Unread(why) => why,
    }
}

/// What became of a list that is known whole.
fn whole_state(made: bool, list: DeadList) -> ListState
    ensures { result ≡ (if made then lists.Made list else lists.Whole list) }
{
    if made {
        ListState::Made(list)
    } else {
        ListState::Whole(list)
    }
}

/// The blocks of two lists.
fn joined(list: DeadList, blocks: DeadList) -> Result<DeadList, Refusal>
    ensures value { IfOk result (IsPermutation (list ++ blocks)) }
    ensures refused { IfErr result (λ refusal. refusal ≡ Refusal.NoMemory) }
{
    let mut list = list;
    let mut blocks = blocks;
    list.merge(&mut blocks)?;
    Ok(list)
}

/// The blocks of a list and these.
fn pushed(list: DeadList, added: &[Block]) -> Result<DeadList, Refusal>
    ensures value { IfOk result (IsPermutation (list ++ added.now)) }
    ensures refused { IfErr result (λ refusal. refusal ≡ Refusal.NoMemory) }
{
    let mut list = list;
    for block in added {
        list.push(*block)?;
    }
    Ok(list)
}

/// What becomes of a list where blocks are added to it. `BadPointer` where it is gone.
fn with_blocks(state: ListState, added: &[Block]) -> Result<ListState, Refusal>
    requires fits { FitsListState state }
    requires added { All FitsBlock added.now }
    ensures fits { IfOk result FitsListState }
    ensures value { IfOk result (λ longer. (object : Option Object) (list : List Block)
        → IsListOver object (Some state) → IsListNow object (Some state) list
        → IsListOver object (Some longer) × IsListNow object (Some longer) (list ++ added.now)) }
    ensures refused { IfErr result (λ refusal. (refusal ≡ Refusal.NoMemory)
        ⊎ ((refusal ≡ Refusal.BadPointer) × (state ≡ lists.Gone))) }
{
    match state {
        ListState::Added { end, blocks } => {
            let blocks = pushed(blocks, added)?;
            Ok(ListState::Added { end, blocks })
        }
        ListState::Whole(list) => Ok(ListState::Whole(pushed(list, added)?)),
        ListState::Made(list) => Ok(ListState::Made(pushed(list, added)?)),
        ListState::Gone => Err(Refusal::BadPointer),
    }
}
