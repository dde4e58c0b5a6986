//! The pipeline of transaction groups.
ghost use Rattle.std.specs.Prelude.{◌≡◌, ◌≤◌, is_some, ◌&&◌, not, if◌then◌else◌};
ghost use Rattle.pool_model.specs.View.{open_after, waiting_after, hold_group, is_held, is_quiescing, is_quiesced};
ghost use Rattle.pool_model.specs.Refusals.{greatest};
ghost use Rattle.pool_model.specs.Flow.{added, released_by};
ghost use Rattle.pool_model.specs.Accepted.{writer_of, number_of};
ghost use Rattle.txg_pipeline.specs.Items.{is_action_item};

use crate::pending::Pending;
use crate::refusal::Refusal;
use pool_model::{Holder, Item, Stage};
use std::alloc::Global;
use std::collections::HashMap;
use std::mem;

/// The last group and the last number of a writer.
const GREATEST: u64 = 1 << 62;

/// The groups above the committed one, the holds of writers, and what each group has accepted.
#[derive(Drop)]
pub struct Pipeline {
    alloc: Global,
    committed: u64,
    syncing: bool,
    waiting: Option<Stage>,
    holds: Vec<Holder>,
    next: HashMap<u32, u64>,
    accepting: Pending,
    waited: Pending,
    synced: Pending,
    ghost ends: { open_after committed syncing (is_some waiting) ≤ greatest },
}

impl Pipeline {
    ghost use Rattle.std.specs.Prelude.{◌<◌, ◌⊎◌, ℕ, suc, ◌==◌, true, false, IfSome, IfOk, OnOk, IfErr, OnErr};
    ghost use Rattle.pool_model.specs.declared.step.Step.TheVariants.{Hold, Release, Close, Quiesce, Plan, Device};
    ghost use Rattle.pool_model.specs.declared.step.Reply.TheVariants.{Held, Receipt, Released, Closed, Quiesced, Planned, Committed};
    ghost use Rattle.pool_model.specs.Flow.{Flow, opened, waiting_in, with_accepted};
    ghost use Rattle.txg_pipeline.specs.Carries.{Carries, next_of, empty_after, Does, IsUnchanged, IsAdmitted, IsNotAdmitted, IsNotAccepted, step_of_item};
    ghost use Rattle.txg_pipeline.specs.declared.refusal.Refusal.TheVariants.{NoMemory, AlreadyHeld, NoHold, NotNow};

    /// The pipeline after a group was committed: nobody has a hold, and the next group is open.
    pub fn new(alloc: Global, committed: u64) -> Pipeline
        requires { committed < greatest }
        ensures { Carries result (empty_after committed) }
    {
        Pipeline {
            alloc,
            committed,
            syncing: false,
            waiting: None,
            holds: Vec::new(alloc),
            next: HashMap::new(alloc),
            accepting: Pending::new(alloc),
            waited: Pending::new(alloc),
            synced: Pending::new(alloc),
        }
    }

    /// The group that takes holds.
    pub fn open_group(&self) -> u64
        ensures { (f : Flow) → Carries self.now f → result ≡ opened f }
    {
        self.open_number()
    }

    fn open_number(&self) -> u64
        ensures { result ≡ open_after self.now.committed self.now.syncing
            (is_some self.now.waiting) }
    {
        self.waiting_number() + u64::from(self.waiting.is_some())
    }

    fn waiting_number(&self) -> u64
        ensures { result ≡ waiting_after self.now.committed self.now.syncing }
    {
        self.committed + 1 + u64::from(self.syncing)
    }

    pub fn committed_group(&self) -> u64
        ensures { (f : Flow) → Carries self.now f → result ≡ f.committed }
    {
        self.committed
    }

    /// Whether the group after the committed one is synced.
    pub fn is_syncing(&self) -> bool
        ensures { (f : Flow) → Carries self.now f → result ≡ f.syncing }
    {
        self.syncing
    }

    pub fn waiting(&self) -> Option<Stage>
        ensures { (f : Flow) → Carries self.now f → result ≡ f.waiting }
    {
        self.waiting
    }

    /// The group of the writer's hold.
    pub fn hold_of(&self, writer: u32) -> Option<u64>
        ensures { (f : Flow) → Carries self.now f → result ≡ hold_group writer f.holds }
    {
        group_of(&self.holds, writer)
    }

    /// The writer's next number.
    pub fn expected(&self, writer: u32) -> u64
        ensures { (f : Flow) → Carries self.now f → result ≡ f.next writer }
    {
        self.next.get(&writer).copied().unwrap_or(1)
    }

    /// Whether a writer may send an item with this number now: the group of its hold, or why not.
    pub fn admitted(&self, writer: u32, number: u64) -> Result<u64, Refusal>
        ensures small { OnOk result (number ≤ greatest) }
        ensures ok { IfOk result (λ group. (f : Flow) → Carries self.now f
            → IsAdmitted f writer number group) }
        ensures refused { IfErr result (λ cause. (f : Flow) → Carries self.now f
            → IsNotAdmitted f writer number cause) }
    {
        let Some(group) = self.hold_of(writer) else {
            return Err(Refusal::NoHold);
        };
        let expected = self.expected(writer);
        if number != expected || number > GREATEST {
            return Err(Refusal::OutOfOrder { expected });
        }
        Ok(group)
    }

    /// What the open group has accepted.
    pub fn open_items(&self) -> &Pending
        ensures { (f : Flow) → Carries self.now f → result.now ≡ f.ledger (opened f) }
    {
        &self.accepting
    }

    /// What the waiting group has accepted.
    pub fn waiting_items(&self) -> Option<&Pending>
        ensures some { (f : Flow) → Carries self.now f → is_some result ≡ is_some f.waiting }
        ensures items { IfSome result (λ items. (f : Flow) → Carries self.now f
            → items.now ≡ f.ledger (waiting_in f)) }
    {
        if self.waiting.is_some() {
            Some(&self.waited)
        } else {
            None
        }
    }

    /// What the group that is synced has accepted.
    pub fn syncing_items(&self) -> Option<&Pending>
        ensures some { (f : Flow) → Carries self.now f → is_some result ≡ f.syncing }
        ensures items { IfSome result (λ items. (f : Flow) → Carries self.now f
            → items.now ≡ f.ledger (suc f.committed)) }
    {
        if self.syncing {
            Some(&self.synced)
        } else {
            None
        }
    }

    /// The writer takes a hold of the open group.
    pub fn hold(&mut self, writer: u32) -> Result<u64, Refusal>
        ensures held { IfOk result (λ group. Does self.old (Hold writer) (Held group) self.new) }
        ensures refused { IfErr result (λ cause. (cause ≡ NoMemory)
            ⊎ ((cause ≡ AlreadyHeld) × ((f : Flow) → Carries self.old f
            → is_some (hold_group writer f.holds) ≡ true))) }
        ensures err { OnErr result (IsUnchanged self.old self.new) }
    {
        if self.hold_of(writer).is_some() {
            return Err(Refusal::AlreadyHeld);
        }
        let group = self.open_number();
        if self.holds.push(Holder { writer, group }).is_err() {
            return Err(Refusal::NoMemory);
        }
        Ok(group)
    }

    /// A write under a hold of the open or the quiescing group, or an action under one of the open group, joins the
    /// items of that group. It costs the same however many items there are; a long write costs a look-up for each of its
    /// pieces.
    pub fn accept(&mut self, item: Item) -> Result<u64, Refusal>
        ensures accepted { IfOk result (λ group. Does self.old (step_of_item item)
            (Receipt group) self.new) }
        ensures refused { IfErr result (λ cause. (f : Flow) → Carries self.old f
            → IsNotAccepted f item cause) }
        ensures err { OnErr result (IsUnchanged self.old self.new) }
    {
        let (writer, number) = sender_of(&item);
        let group = self.admitted(writer, number)?;
        let is_open = group == self.open_number();
        if !is_open && is_action(&item) {
            return Err(Refusal::NotNow);
        }
        if !self.keep(is_open, writer, number, item) {
            return Err(Refusal::NoMemory);
        }
        Ok(group)
    }

    /// The writer gives its hold back.
    pub fn release(&mut self, writer: u32) -> Result<(), Refusal>
        ensures released { OnOk result (Does self.old (Release writer) Released self.new) }
        ensures was_held { OnOk result ((f : Flow) → Carries self.old f
            → is_some (hold_group writer f.holds) ≡ true) }
        ensures refused { IfErr result (λ cause. (cause ≡ NoHold)
            × ((f : Flow) → Carries self.old f → hold_group writer f.holds ≡ None)) }
        ensures err { OnErr result (IsUnchanged self.old self.new) }
    {
        if self.hold_of(writer).is_none() {
            return Err(Refusal::NoHold);
        }
        remove_holds(&mut self.holds, writer);
        Ok(())
    }

    /// The open group begins to wait, and the next one opens.
    pub fn close_open(&mut self) -> Result<u64, Refusal>
        ensures closed { IfOk result (λ group. Does self.old Close (Closed group) self.new) }
        ensures refused { IfErr result (λ cause. (cause ≡ NotNow)
            × ((f : Flow) → Carries self.old f → (is_some f.waiting ≡ true)
            ⊎ (greatest ≤ opened f))) }
        ensures err { OnErr result (IsUnchanged self.old self.new) }
    {
        let closing = self.open_number();
        if self.waiting.is_some() || closing >= GREATEST {
            return Err(Refusal::NotNow);
        }
        self.waited = mem::replace(&mut self.accepting, Pending::new(self.alloc));
        self.waiting = Some(Stage::Quiescing);
        Ok(closing)
    }

    /// The waiting group takes nothing more, where no hold is left in it.
    pub fn mark_quiesced(&mut self) -> Result<u64, Refusal>
        ensures quiesced { IfOk result (λ group. Does self.old Quiesce (Quiesced group) self.new) }
        ensures refused { IfErr result (λ cause. (cause ≡ NotNow)
            × ((f : Flow) → Carries self.old f → (is_quiescing f.waiting ≡ false)
            ⊎ (is_held (waiting_in f) f.holds ≡ true))) }
        ensures err { OnErr result (IsUnchanged self.old self.new) }
    {
        let group = self.waiting_number();
        if !may_be_held(self.waiting) || is_group_held(&self.holds, group) {
            return Err(Refusal::NotNow);
        }
        self.waiting = Some(Stage::Quiesced);
        Ok(group)
    }

    /// The quiesced group begins to be synced, where none is.
    pub fn take(&mut self) -> Result<u64, Refusal>
        ensures taken { IfOk result (λ group. (timestamp : ℕ)
            → Does self.old (Plan timestamp) (Planned group) self.new) }
        ensures was_idle { IfOk result (λ group. (f : Flow) → Carries self.old f
            → f.syncing ≡ false) }
        ensures refused { IfErr result (λ cause. (cause ≡ NotNow)
            × ((f : Flow) → Carries self.old f → (f.syncing ≡ true)
            ⊎ (is_quiesced f.waiting ≡ false))) }
        ensures err { OnErr result (IsUnchanged self.old self.new) }
    {
        if self.syncing || !may_be_taken(self.waiting) {
            return Err(Refusal::NotNow);
        }
        self.synced = mem::replace(&mut self.waited, Pending::new(self.alloc));
        self.syncing = true;
        self.waiting = None;
        Ok(self.committed + 1)
    }

    /// The group that is synced is committed, and its items are let go.
    pub fn committed(&mut self) -> Result<u64, Refusal>
        ensures committed { IfOk result (λ group. Does self.old Device (Committed group) self.new) }
        ensures refused { IfErr result (λ cause. (cause ≡ NotNow)
            × ((f : Flow) → Carries self.old f → f.syncing ≡ false)) }
        ensures err { OnErr result (IsUnchanged self.old self.new) }
    {
        if !self.syncing {
            return Err(Refusal::NotNow);
        }
        self.synced = Pending::new(self.alloc);
        self.committed += 1;
        self.syncing = false;
        Ok(self.committed)
    }

    // Whether memory sufficed for the item to be kept, in the open group or in the waiting one.
    fn keep(&mut self, is_open: bool, writer: u32, number: u64, item: Item) -> bool
        requires { number ≤ greatest }
        ensures kept { result ≡ true → (f : Flow) → Carries self.old f → (group : ℕ)
            → IsAdmitted f writer number group → (is_open ≡ (group == opened f)) →
            Carries self.new (with_accepted f writer group item) }
        ensures refused { result ≡ false → IsUnchanged self.old self.new }
    {
        if self.next.try_reserve(1).is_err() {
            return false;
        }
        if !add_to(
            self.alloc,
            &mut self.accepting,
            &mut self.waited,
            is_open,
            item,
        ) {
            return false;
        }
        self.next.insert(writer, number + 1).is_ok()
    }
}

fn group_of(holds: &[Holder], writer: u32) -> Option<u64>
    ensures { result ≡ hold_group writer holds.now }
{
    holds
        .iter()
        .find(|holder| holder.writer == writer)
        .map(|holder| holder.group)
}

fn is_group_held(holds: &[Holder], group: u64) -> bool
    ensures { result ≡ is_held group holds.now }
{
    holds.iter().any(|holder| holder.group == group)
}

fn remove_holds(holds: &mut Vec<Holder>, writer: u32)
    ensures { holds.new.items ≡ released_by holds.old.items writer }
{
    holds.retain(|holder| holder.writer != writer);
}

fn may_be_held(waiting: Option<Stage>) -> bool
    ensures { result ≡ is_quiescing waiting }
{
    matches!(waiting, Some(Stage::Quiescing))
}

fn may_be_taken(waiting: Option<Stage>) -> bool
    ensures { result ≡ is_quiesced waiting }
{
    matches!(waiting, Some(Stage::Quiesced))
}

fn sender_of(item: &Item) -> (u32, u64)
    ensures writer { result.0 ≡ writer_of item.now }
    ensures number { result.1 ≡ number_of item.now }
{
    match item {
        Item::Write(write) => (write.writer, write.number),
        Item::Action(action) => (action.writer, action.number),
    }
}

fn is_action(item: &Item) -> bool
    ensures { result ≡ is_action_item item.now }
{
    matches!(item, Item::Action(_))
}

// The item joins those of the open group or of the waiting one, where memory suffices.
fn add_to(
    alloc: Global,
    accepting: &mut Pending,
    waited: &mut Pending,
    is_open: bool,
    item: Item,
) -> bool
    ensures accepting { accepting.new ≡
        (if result && is_open then added accepting.old item else accepting.old) }
    ensures waited { waited.new ≡
        (if result && not is_open then added waited.old item else waited.old) }
{
    if is_open {
        accepting.add(alloc, item).is_ok()
    } else {
        waited.add(alloc, item).is_ok()
    }
}
