//! What is due behind the block writes of a plan.
ghost use Rattle.std.specs.Prelude.{◌≡◌, ◌+◌, ◌↔◌, length, IsTrue};
ghost use Rattle.disk_set.specs.Behind.{LeftOut};

use std::collections::VecDeque;

/// The write of an uberblock's slot in one of the four labels of a disk.
#[derive(Clone, Copy, PartialEq, Eq, Drop)]
pub struct SlotWrite {
    pub disk: usize,
    pub label: u64,
}

/// What is due behind the block writes of a plan, in this order: flushes of disks, writes of slots, and flushes again.
#[derive(Drop)]
pub struct Behind {
    pub flushes: VecDeque<usize>,
    pub slots: VecDeque<SlotWrite>,
    pub slot_flushes: VecDeque<usize>,
}

impl Behind {
    /// Whether nothing is due.
    pub fn is_done(&self) -> bool
        ensures { IsTrue result ↔ (length self.now.flushes.items
            + (length self.now.slots.items + length self.now.slot_flushes.items) ≡ 0) }
    {
        self.flushes.is_empty() && self.slots.is_empty() && self.slot_flushes.is_empty()
    }

    /// Leaves out what is due on a disk from the slots on.
    pub fn leave_out(&mut self, disk: usize)
        ensures { LeftOut disk self.old self.new }
    {
        self.slots.retain(|write| write.disk != disk);
        self.slot_flushes.retain(|flush| *flush != disk);
    }
}
