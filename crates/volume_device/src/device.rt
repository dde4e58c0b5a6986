//! The device.
ghost use Rattle.std.specs.Prelude.{◌≡◌, ◌<◌, ◌++◌, ℕ, List, length, None, Some, true, false, IfErr, IfOk, OnErr, OnOk};
ghost use Rattle.pool_model.specs.declared.refusal.Refusal.TheVariants.{NoMemory};
ghost use Rattle.pool_model.specs.View.{View};
ghost use Rattle.command_steps.specs.Made.{IsAtRest};
ghost use Rattle.volume_device.specs.Contents.{AreRead, Contents, IsCutOff, IsFlushed, IsSame, IsSettled, IsWritten, IsWrittenOn, at_rest};
ghost use Rattle.volume_device.specs.Devices.{Has, Leads, Shows, core_of, name_of};
ghost use Rattle.volume_device.specs.Causes.{IsCaused, cause_of, reading, writing, flushing};

use crate::commit::commit;
use crate::laws::parts_are_one;
use pool_model::{Bytes, Name, Refusal, Reply, Step, Write};
use pool_steps::PoolSteps;
use std::alloc::Global;

/// The one writer of a session.
const WRITER: u32 = 1;

/// The most bytes that one step reads or writes: 1 MiB.
const MOST_BYTES: usize = 1 << 20;

/// So many bytes may wait for a commit, once a write is done: 32 MiB.
const MOST_PENDING: u64 = 32 << 20;

/// A volume or a snapshot of an opened pool as a block device, as long as nobody else changes the pool.
///
/// It is the pool's writer 1, whose numbers it counts from 1 on: so nobody may have been it since the pool was opened. What it
/// writes waits in the open group until a flush, or until more than 32 MiB wait. A stop of the machine before that loses it,
/// all at once.
#[derive(Drop)]
pub struct Device<P> {
    core: P,
    name: Name,
    /// What each commit's uberblock gets.
    timestamp: u64,
    /// The writer's next number.
    number: u64,
    /// Bytes that were written since the last commit.
    pending: u64,
    /// Whether the writer holds the open group.
    held: bool,
    /// Why a commit was refused: from then on nothing is written or flushed.
    refused: Option<Refusal>,
}

impl<P: PoolSteps> Device<P> {
    /// A device of this volume or snapshot, in a pool at rest. The timestamp, in seconds of the Unix era, goes into the uberblock of
    /// each commit. Whether something has the name is asked at the first read or write.
    pub fn new(core: P, name: Name, timestamp: u64) -> Device<P>
        ensures core { core_of result ≡ core }
        ensures name { name_of result ≡ name }
        ensures shows { (v : View) → P.represents core v → IsAtRest v → v.next 1 ≡ 1
            → Shows P.PoolSteps result (at_rest v) }
    {
        Device {
            core,
            name,
            timestamp,
            number: 1,
            pending: 0,
            held: false,
            refused: None,
        }
    }

    /// The bytes of a range, in bytes from the volume's start, however it is aligned: all that was written is in them. It is read by
    /// steps of at most 1 MiB each, so that memory for the whole of it is needed.
    ///
    /// `NoSuchName` where nothing has the name, also for a length of 0. `OutOfRange` where a part of it lies past the end. `DiskFault`
    /// where too many disks of a block are lost; `BadPointer`, `BadDigest` or `BadMap` where a block that was read is damaged.
    /// It may go on after a refused commit.
    pub fn read(&mut self, alloc: Global, offset: u64, len: u64) -> Result<Vec<u8>, Refusal>
        ensures follows { P.came_from (core_of self.old) (core_of self.new) }
        ensures name { name_of self.new ≡ name_of self.old }
        ensures read { IfOk result (λ bytes. Leads P.PoolSteps self.old self.new
            (AreRead (name_of self.old) offset len bytes.items)) }
        ensures refused { IfErr result (λ cause. Leads P.PoolSteps self.old self.new IsSame) }
        ensures caused { IfErr result (IsCaused P.PoolSteps
            (reading (name_of self.old) offset len) self.old self.new) }
    {
        let mut done = len.min(MOST_BYTES as u64);
        let first = self.read_piece(alloc, offset, done)?;
        let mut bytes = given_back(alloc, first)?;
        while done < len {
            let more = (len - done).min(MOST_BYTES as u64);
            let Some(at) = offset.checked_add(done) else {
                return Err(Refusal::NoMemory);
            };
            let piece = self.read_piece(alloc, at, more)?;
            append(&mut bytes, piece.as_slice())?;
            done += more;
        }
        Ok(bytes)
    }

    /// Reads by one step.
    fn read_piece(&mut self, alloc: Global, offset: u64, len: u64) -> Result<Bytes, Refusal>
        ensures follows { P.came_from (core_of self.old) (core_of self.new) }
        ensures kept { self.new ≡ record self.old { core = core_of self.new } }
        ensures read { IfOk result (λ bytes. Leads P.PoolSteps self.old self.new
            (AreRead (name_of self.old) offset len bytes)) }
        ensures refused { OnErr result (Leads P.PoolSteps self.old self.new IsSame) }
        ensures caused { IfErr result (IsCaused P.PoolSteps
            (reading (name_of self.old) offset len) self.old self.new) }
    {
        let Ok(name) = self.name.copied(alloc) else {
            return Err(Refusal::NoMemory);
        };
        let reply = self.core.take_step(Step::Read { name, offset, len });
        match reply {
            Reply::Bytes(bytes) => Ok(bytes),
            _ => Err(cause_of(&reply)),
        }
    }

    /// Writes the bytes, from the offset in bytes on, by steps of at most 1 MiB each. Where more than 32 MiB wait behind it, it commits
    /// as a flush does. No bytes take no step.
    ///
    /// The offset and the length are whole sectors of 512 bytes: else `Misaligned`. `NoSuchName` where no volume has the name, as
    /// where a snapshot has it; `OutOfRange` where a part lies past the end; `NotYet` where the volume was made by the open group. An
    /// error leaves a front of the bytes written, maybe none or all, and nothing more committed. Once a commit was refused its cause
    /// is the answer to each write, and no step is taken.
    pub fn write(&mut self, alloc: Global, offset: u64, bytes: &[u8]) -> Result<(), Refusal>
        ensures follows { P.came_from (core_of self.old) (core_of self.new) }
        ensures name { name_of self.new ≡ name_of self.old }
        ensures written { OnOk result (Leads P.PoolSteps self.old self.new
            (IsWritten (name_of self.old) offset bytes.now)) }
        ensures refused { IfErr result (λ cause. Leads P.PoolSteps self.old self.new
            (IsCutOff (name_of self.old) offset bytes.now)) }
        ensures caused { IfErr result (IsCaused P.PoolSteps
            (writing (name_of self.old) offset bytes.now) self.old self.new) }
    {
        if let Some(cause) = self.refused {
            return Err(cause);
        }
        self.write_pieces(alloc, offset, bytes)?;
        self.settle()
    }

    /// Writes the bytes, a piece after another.
    fn write_pieces(&mut self, alloc: Global, offset: u64, bytes: &[u8]) -> Result<(), Refusal>
        requires { self.old.refused ≡ None }
        ensures follows { P.came_from (core_of self.old) (core_of self.new) }
        ensures name { name_of self.new ≡ name_of self.old }
        ensures goes_on { self.new.refused ≡ None }
        ensures written { OnOk result (Leads P.PoolSteps self.old self.new
            (IsWrittenOn (name_of self.old) offset bytes.now)) }
        ensures refused { IfErr result (λ cause. Leads P.PoolSteps self.old self.new
            (IsCutOff (name_of self.old) offset bytes.now)) }
        ensures caused { IfErr result (IsCaused P.PoolSteps
            (writing (name_of self.old) offset bytes.now) self.old self.new) }
    {
        parts_are_one();
        let mut done = 0;
        while done < bytes.len() {
            let len = (bytes.len() - done).min(MOST_BYTES);
            let Some(at) = offset.checked_add(done as u64) else {
                return Err(Refusal::NoMemory);
            };
            self.write_piece(alloc, at, &bytes[done..done + len])?;
            done += len;
        }
        Ok(())
    }

    /// Writes at most 1 MiB, under a hold of the open group.
    fn write_piece(&mut self, alloc: Global, offset: u64, piece: &[u8]) -> Result<(), Refusal>
        requires goes_on { self.old.refused ≡ None }
        requires some { 0 < length piece.now }
        ensures follows { P.came_from (core_of self.old) (core_of self.new) }
        ensures name { name_of self.new ≡ name_of self.old }
        ensures goes_on { self.new.refused ≡ None }
        ensures written { OnOk result (Leads P.PoolSteps self.old self.new
            (IsWrittenOn (name_of self.old) offset piece.now)) }
        ensures refused { IfErr result (λ cause. Leads P.PoolSteps self.old self.new IsSame) }
        ensures caused { IfErr result (IsCaused P.PoolSteps
            (writing (name_of self.old) offset piece.now) self.old self.new) }
    {
        let write = self.numbered(alloc, offset, piece)?;
        self.hold()?;
        self.take(write)
    }

    /// The write with the writer's next number.
    fn numbered(&self, alloc: Global, offset: u64, piece: &[u8]) -> Result<Write, Refusal>
        ensures write { IfOk result (λ write. write ≡ record {
          writer = 1;
          number = self.now.number;
          volume = name_of self.now;
          offset = offset;
          bytes = piece.now;
        }) }
        ensures refused { IfErr result (λ cause. cause ≡ NoMemory) }
    {
        let Ok(volume) = self.name.copied(alloc) else {
            return Err(Refusal::NoMemory);
        };
        let Ok(bytes) = Vec::from_slice(alloc, piece) else {
            return Err(Refusal::NoMemory);
        };
        Ok(Write {
            writer: WRITER,
            number: self.number,
            volume,
            offset,
            bytes: Bytes::new(bytes),
        })
    }

    /// Takes a hold of the open group, where there is none.
    fn hold(&mut self) -> Result<(), Refusal>
        requires { self.old.refused ≡ None }
        ensures follows { P.came_from (core_of self.old) (core_of self.new) }
        ensures same { Leads P.PoolSteps self.old self.new IsSame }
        ensures held { OnOk result (self.new ≡ record self.old {
          core = core_of self.new;
          held = true;
        }) }
        ensures not_held { OnErr result (self.new ≡ record self.old { core = core_of self.new }) }
        ensures caused { IfErr result (λ cause. (name : List ℕ) (offset : ℕ) (bytes : List ℕ) →
            IsCaused P.PoolSteps (writing name offset bytes) self.old self.new cause) }
    {
        if self.held {
            return Ok(());
        }
        let reply = self.core.take_step(Step::Hold(WRITER));
        if let Reply::Held(_) = reply {
            self.held = true;
            return Ok(());
        }
        Err(cause_of(&reply))
    }

    /// Takes the write, which has the next number, under the hold.
    fn take(&mut self, write: Write) -> Result<(), Refusal>
        requires goes_on { self.old.refused ≡ None }
        requires held { self.old.held ≡ true }
        requires numbered { (write.writer ≡ 1) × (write.number ≡ self.old.number) }
        requires some { 0 < length write.bytes }
        ensures follows { P.came_from (core_of self.old) (core_of self.new) }
        ensures name { name_of self.new ≡ name_of self.old }
        ensures goes_on { self.new.refused ≡ None }
        ensures written { OnOk result (Leads P.PoolSteps self.old self.new
            (IsWrittenOn write.volume write.offset write.bytes)) }
        ensures refused { IfErr result (λ cause. Leads P.PoolSteps self.old self.new IsSame) }
        ensures caused { IfErr result (IsCaused P.PoolSteps
            (writing write.volume write.offset write.bytes) self.old self.new) }
    {
        let len = write.bytes.len() as u64;
        let reply = self.core.take_step(Step::Write(write));
        if let Reply::Receipt(_) = reply {
            self.number = self.number.saturating_add(1);
            self.pending = self.pending.saturating_add(len);
            return Ok(());
        }
        Err(cause_of(&reply))
    }

    /// Commits what is pending, where it is too much.
    fn settle(&mut self) -> Result<(), Refusal>
        ensures follows { P.came_from (core_of self.old) (core_of self.new) }
        ensures name { name_of self.new ≡ name_of self.old }
        ensures settled { OnOk result (Leads P.PoolSteps self.old self.new IsSettled) }
        ensures refused { IfErr result (λ cause. Leads P.PoolSteps self.old self.new IsSame) }
        ensures caused { IfErr result (IsCaused P.PoolSteps flushing self.old self.new) }
    {
        if self.pending <= MOST_PENDING {
            return Ok(());
        }
        self.flush()
    }

    /// Commits all that was written. With nothing written since the last commit it takes no step, but that a hold is given back.
    ///
    /// `NoSpace`, `Suspended`, `NoMemory` or what a read is refused for, where the group can't be committed: nothing of it is, and from
    /// then on this cause is the answer to each write and flush. What was written can still be read.
    pub fn flush(&mut self) -> Result<(), Refusal>
        ensures follows { P.came_from (core_of self.old) (core_of self.new) }
        ensures name { name_of self.new ≡ name_of self.old }
        ensures flushed { OnOk result (Leads P.PoolSteps self.old self.new IsFlushed) }
        ensures refused { IfErr result (λ cause. Leads P.PoolSteps self.old self.new IsSame) }
        ensures caused { IfErr result (IsCaused P.PoolSteps flushing self.old self.new) }
    {
        if let Some(cause) = self.refused {
            return Err(cause);
        }
        self.release()?;
        self.commit()
    }

    /// Gives the hold of the open group back, where there is one.
    fn release(&mut self) -> Result<(), Refusal>
        requires { self.old.refused ≡ None }
        ensures follows { P.came_from (core_of self.old) (core_of self.new) }
        ensures name { name_of self.new ≡ name_of self.old }
        ensures same { Leads P.PoolSteps self.old self.new IsSame }
        ensures released { OnOk result (self.new ≡ record self.old {
          core = core_of self.new;
          held = false;
        }) }
        ensures caused { IfErr result (IsCaused P.PoolSteps flushing self.old self.new) }
    {
        if !self.held {
            return Ok(());
        }
        let reply = self.core.take_step(Step::Release(WRITER));
        if let Reply::Released = reply {
            self.held = false;
            return Ok(());
        }
        Err(self.stop(&reply))
    }

    /// Commits what is pending, if anything is, once the hold is given back.
    fn commit(&mut self) -> Result<(), Refusal>
        requires goes_on { self.old.refused ≡ None }
        requires free { self.old.held ≡ false }
        ensures follows { P.came_from (core_of self.old) (core_of self.new) }
        ensures name { name_of self.new ≡ name_of self.old }
        ensures flushed { OnOk result (Leads P.PoolSteps self.old self.new IsFlushed) }
        ensures refused { IfErr result (λ cause. Leads P.PoolSteps self.old self.new IsSame) }
        ensures caused { IfErr result (IsCaused P.PoolSteps flushing self.old self.new) }
    {
        if self.pending == 0 {
            return Ok(());
        }
        let reply = commit(&mut self.core, self.timestamp);
        if let Reply::Committed(_) = reply {
            self.pending = 0;
            return Ok(());
        }
        Err(self.stop(&reply))
    }

    /// A step of a commit was not answered as it should be: nothing is written or flushed from now on.
    fn stop(&mut self, reply: &Reply) -> Refusal
        ensures stopped { self.new ≡ record self.old { refused = Some result } }
        ensures caused { result ≡ cause_of reply.now }
    {
        let cause = cause_of(reply);
        self.refused = Some(cause);
        cause
    }

    /// The pool, given back as it is: flush first, or what waits is not committed.
    pub fn into_core(self) -> P
        ensures core { result ≡ core_of self }
        ensures has { (c : Contents) → Shows P.PoolSteps self c → Has P.PoolSteps result c }
    {
        self.core
    }
}

/// Why a step was not answered as it should be.
fn cause_of(reply: &Reply) -> Refusal
    ensures { result ≡ cause_of reply.now }
{
    match reply {
        Reply::Refused(cause) => *cause,
        _ => Refusal::NoMemory,
    }
}

/// The bytes of a reply.
fn given_back(alloc: Global, bytes: Bytes) -> Result<Vec<u8>, Refusal>
    ensures same { IfOk result (λ back. back.items ≡ bytes) }
    ensures refused { IfErr result (λ cause. cause ≡ NoMemory) }
{
    match bytes.into_vec(alloc) {
        Ok(back) => Ok(back),
        Err(_) => Err(Refusal::NoMemory),
    }
}

/// Puts more bytes behind these.
fn append(bytes: &mut Vec<u8>, more: &[u8]) -> Result<(), Refusal>
    ensures appended { OnOk result (bytes.new.items ≡ bytes.old.items ++ more.now) }
    ensures refused { IfErr result (λ cause. cause ≡ NoMemory) }
{
    match bytes.extend_from_slice(more) {
        Ok(()) => Ok(()),
        Err(_) => Err(Refusal::NoMemory),
    }
}
