//! The steps of the machine and its replies.
use crate::item::{Action, Write};
use crate::refusal::Refusal;
use crate::shared_bytes::Bytes;
use crate::text::Name;

/// What is asked of the pool: one step of the machine, taken whole.
#[derive(Drop)]
pub enum Step {
    /// Takes a hold of the open group.
    Hold(u32),
    Write(Write),
    Act(Action),
    /// Gives the writer's hold back.
    Release(u32),
    /// Lets the open group wait, and opens the next.
    Close,
    /// Asks that the waiting group be quiesced.
    Quiesce,
    /// Takes the quiesced group to be synced, or plans again the syncing one whose plan was dropped.
    Plan {
        /// As it goes into the uberblock.
        timestamp: u64,
    },
    /// Makes the next device calls of the plan: one to four, in one phase. Where a disk went out and none is left, none is made.
    Device,
    /// Takes the disk of this number out of use: no call is made on it from then on. A plan of which something before the slots is left
    /// is dropped; from the slots on the commit goes on without the disk.
    DiskOut(usize),
    /// Reads what all accepted groups make.
    Read {
        name: Name,
        /// In bytes.
        offset: u64,
        len: u64,
    },
    /// Reads what a committed group contains.
    ReadUnder {
        group: u64,
        name: Name,
        offset: u64,
        len: u64,
    },
}

/// A phase of a commit. None begins before the one before it is done.
#[derive(Clone, Copy, Debug, PartialEq, Eq)]
pub enum Phase {
    /// Writes of the group's blocks.
    Blocks,
    /// A flush of each disk in use.
    BlocksFlush,
    /// Where the disks have labels: the uberblock, in a slot of each of the four labels of each disk in use.
    Slots,
    /// A flush of each of these disks.
    SlotsFlush,
}

#[derive(Debug, Drop)]
pub enum Reply {
    Held(u64),
    Receipt(u64),
    Released,
    Closed(u64),
    Quiesced(u64),
    Planned(u64),
    /// Device calls were made, the last of them in this phase, and some are left. Where that one failed, which it may from
    /// the slots on, its disk is out and nothing is left on it.
    Moved(Phase),
    /// This disk failed a write or a flush before the slots: it is out, and the plan is dropped.
    Replan(usize),
    /// No device call is left. From the slots on the last one may have failed: its disk is out.
    Committed(u64),
    /// The disk is out.
    Out,
    Bytes(Bytes),
    Refused(Refusal),
}
