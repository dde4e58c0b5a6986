//! Laws of commits that are made in steps.
//!
//! Who makes a few device calls at a time, drops plans, or goes on without a disk that fails, keeps one of two relations between any
//! two calls. Each is said of the disks in use alone.
//!
//! - `AreInBlocks`, in the blocks phase and all the time between commits: since a moment at which the last uberblock was committed
//!   with nothing unflushed, only free bytes were written. A byte is free where no slot has it, nor a tree that an open may come to:
//!   that of the last uberblock, or of the two groups before it under its claim. No plan is named: the writes of the present plan
//!   and of dropped ones, flushed or not, answered or failed, are all writes of free bytes.
//! - `AreInSlots`, in the slots phase: at some moment nothing was unflushed and the next uberblock's tree stood (`CanWriteSlots`),
//!   and since then only its slots were written.
//!
//! # Step by step
//!
//! 1. After an open or a commit `AreAt` holds of the last uberblock: the blocks phase begins (`blocks_phase`, `begins`).
//! 2. A plan takes its places off the labels and off the trees in reach. The calls of a step that writes some of its blocks are a run of
//!    free writes, `Makes (free_writes ..)`, put together call by call (lemmas `Makes-write`, `Makes-flush`, `Makes-more` of `model_disk`).
//!    So the phase goes on, and a stop at any moment of the step, inside a call too, leaves disks that lead to the last uberblock
//!    (`goes_on`). Where another relation says which writes a core makes, lemma `writes_go_on` of proofs/PhaseSteps.antt takes it, if
//!    each is free.
//! 3. A disk fails a write or a flush. The failed call is one of the run's. The disk goes out: each relation holds of the disks that
//!    are left (`disks_go_out`). The plan is dropped, and nothing more is to be shown, since what it left unflushed is free. The
//!    next plan goes on from the same relation.
//! 4. All blocks are written, and the disks in use are flushed, some in each step. A flush that succeeds settles its disk
//!    (`flush_settles`), and it stays so through reads and flushes (`reads_and_flushes_keep`). Once each disk in use is settled, `AreAt`
//!    holds of the last uberblock again (`ends`), and with the new tree `CanWriteSlots`. The last tree stands all the while (`tree`).
//! 5. The slots phase begins (`slots_phase`, `begins`). Now the plan can't be dropped: no relation leads back. A step that writes slots
//!    of the new uberblock keeps the phase, and a stop at any moment leaves disks that lead to the last uberblock or to the new one
//!    (`goes_on`). Slots stand one by one (`slots_stand_in_turn`). A disk that fails goes out, and the commit goes on without it.
//! 6. The slots of all four labels stand on each disk in use, and each disk is flushed: `AreAt` holds of the new uberblock (`ends`).
//!
//! Labels that are written anew between commits are free writes too, beside their slots (`relabels_go_on`).
//!
//! What is refused: before the flush a slot isn't free, nor a byte of a tree in reach; after it nothing may be written but the new
//! uberblock's slots. So in the blocks phase no byte is unflushed that isn't free, and no slot shows the next uberblock, not even
//! a flushed one (`unflushed`, `unseen`). In the slots phase only bytes of its slots are unflushed (`wrong_writes_are_refused`).
ghost use Rattle.pool_slots.specs.PhaseLaws.{BlocksBegin, BlocksEnd, BlocksGoOn, LastTreeStands};
ghost use Rattle.pool_slots.specs.PhaseLaws.{NextIsUnseen, UnflushedIsFree, UnflushedIsSlots};
ghost use Rattle.pool_slots.specs.PhaseLaws.{SlotsBegin, SlotsEnd, SlotsGoOn, SlotsKeepTree};
ghost use Rattle.pool_slots.specs.PhaseLaws.{DisksGoOut, ReadsAndFlushesKeep};
ghost use Rattle.pool_slots.specs.PhaseLaws.{FlushSettles, RelabelsGoOn, SlotsStandInTurn};
ghost use Rattle.pool_slots.specs.PhaseLaws.{WrongWritesAreRefused};

/// The phase in which blocks are written and flushed, and all that is between commits.
pub fn blocks_phase()
    ensures begins { BlocksBegin }
    ensures goes_on { BlocksGoOn }
    ensures ends { BlocksEnd }
    ensures unflushed { UnflushedIsFree }
    ensures unseen { NextIsUnseen }
    ensures tree { LastTreeStands }
{}

/// Labels that are written anew in the blocks phase, where no tree has a byte of a label. What the labels show is no part of it.
pub fn relabels_go_on()
    ensures { RelabelsGoOn }
{}

/// The phase in which the slots of the next uberblock are written and flushed.
pub fn slots_phase()
    ensures begins { SlotsBegin }
    ensures goes_on { SlotsGoOn }
    ensures ends { SlotsEnd }
    ensures unflushed { UnflushedIsSlots }
    ensures tree { SlotsKeepTree }
{}

/// Slots stand one by one: a write that is answered well makes one stand, and leaves the others.
pub fn slots_stand_in_turn()
    ensures { SlotsStandInTurn }
{}

/// Disks go out in any phase: it is the same phase of the disks that are left.
pub fn disks_go_out()
    ensures { DisksGoOut }
{}

/// Reads and flushes, answered or failed, change no phase.
pub fn reads_and_flushes_keep()
    ensures { ReadsAndFlushesKeep }
{}

/// A disk is settled by a flush that succeeds.
pub fn flush_settles()
    ensures { FlushSettles }
{}

/// Whoever has just written a slot before its phase, a byte of a tree in reach, or in the slots phase another slot keeps no phase.
pub fn wrong_writes_are_refused()
    ensures { WrongWritesAreRefused }
{}
