//! Reads.
ghost use Rattle.std.specs.Prelude.{[], ◌≡◌, ◌⊎◌, ◌+◌, ◌≤◌, Bool, Some, None, IfOk, IfErr};
ghost use Rattle.pool_model.specs.declared.step.Step.TheVariants as steps;
ghost use Rattle.pool_model.specs.Machine.{AreBytesOf};
ghost use Rattle.pool_model.specs.Refusals.{refusal_of};
ghost use Rattle.pool_model.specs.declared.volume.PlainVolume.{PlainVolume};
ghost use Rattle.pool_model.specs.Pools.{volume_at};
ghost use Rattle.pool_model.specs.View.{View, now_of};
ghost use Rattle.volume_rules.specs.Covering.{IsCovered};
ghost use Rattle.volume_rules.specs.Shapes.{shape_of};
ghost use Rattle.pool_commit.specs.Calls.{GrewTo};
ghost use Rattle.pool_commit.specs.Reading.{OnlyReadsPool, PoolAnswersTell};
ghost use Rattle.pool_core.specs.Reading.{IsLostAnswer};
ghost use Rattle.pool_core.specs.Represents.{Represents};
ghost use Rattle.pool_core.specs.StateOf.{disks_in, state_of};
ghost use Rattle.pool_core.specs.Steps.{Goes, TakesStep};

use crate::pool::Core;
use model_disk::Disk;
use pool_model::{Bytes, Name, Refusal, Reply};
use volume_rules::{VolumeShape, against_read};

impl<D: Disk + Drop> Core<D> {
    /// Reads what all accepted groups make.
    pub(crate) fn read(&mut self, name: &Name, offset: u64, len: u64) -> Reply
        ensures grew { GrewTo (disks_in self.old) (disks_in self.new) }
        ensures goes { TakesStep (state_of self.old) (steps.Read name.now offset len) result
            (state_of self.new) }
        ensures moves { OnlyReadsPool (state_of self.old).commit (state_of self.new).commit [] }

        // No disk is read where one pending write has every byte.
        ensures covered { (v : View) (volume : PlainVolume) → Represents (state_of self.old) v
            → volume_at name.now (now_of v) ≡ Some volume
            → IsCovered v name.now (shape_of volume) offset len
            → state_of self.new ≡ state_of self.old }
    {
        let found = self.intake.find(name);
        match against_read(offset, len, found) {
            Some(cause) => return Reply::Refused(cause),
            None => {}
        }
        let Some(shape) = found else {
            return Reply::Refused(Refusal::NoSuchName);
        };
        if self.intake.is_covered(shape, name, offset, len) {
            return self.read_covered(name, shape, offset, len);
        }
        let base = self.intake.base_name(name);
        match self.commit.read_committed(self.alloc, base, offset, len) {
            Ok(mut bytes) => {
                self.intake
                    .read_pending(shape, name, offset, bytes.as_mut_slice());
                Reply::Bytes(Bytes::new(bytes))
            }
            Err(refusal) => Reply::Refused(Refusal::from(refusal)),
        }
    }

    /// Reads a range of a volume of NOW that one pending write has whole: no disk is read. Each volume of NOW has a name once, and
    /// the one of this name has this shape.
    fn read_covered(&self, name: &Name, shape: VolumeShape, offset: u64, len: u64) -> Reply
        requires within { offset + len ≤ shape.size }
        ensures { (v : View) (trusted : Bool) (volume : PlainVolume)
            → Represents (state_of self.now) v
            → volume_at name.now (now_of v) ≡ Some volume → shape_of volume ≡ shape
            → refusal_of v (steps.Read name.now offset len) ≡ None
            → IsCovered v name.now shape offset len
            → Goes (state_of self.now) v trusted (steps.Read name.now offset len) result
            (state_of self.now) }
    {
        let Ok(mut bytes) = vec![in self.alloc; 0; len as usize] else {
            return Reply::Refused(Refusal::NoMemory);
        };
        self.intake
            .read_pending(shape, name, offset, bytes.as_mut_slice());
        Reply::Bytes(Bytes::new(bytes))
    }

    /// Reads what a kept group contains.
    pub(crate) fn reply_under(&mut self, group: u64, name: &Name, offset: u64, len: u64) -> Reply
        ensures grew { GrewTo (disks_in self.old) (disks_in self.new) }
        ensures goes { TakesStep (state_of self.old)
            (steps.ReadUnder group name.now offset len) result (state_of self.new) }
        ensures moves { OnlyReadsPool (state_of self.old).commit (state_of self.new).commit [] }
    {
        match self.read_under(group, name, offset, len, &[]) {
            Ok(bytes) => Reply::Bytes(bytes),
            Err(refusal) => Reply::Refused(refusal),
        }
    }

    /// A range of a volume's bytes under a kept group, with the disks that are named taken as missing.
    pub fn read_under(
        &mut self,
        group: u64,
        name: &Name,
        offset: u64,
        len: u64,
        missing: &[usize],
    ) -> Result<Bytes, Refusal>
        ensures intake { (state_of self.new).intake ≡ (state_of self.old).intake }
        ensures reads { OnlyReadsPool (state_of self.old).commit
            (state_of self.new).commit missing.now }
        ensures bytes { IfOk result (λ bytes. (v : View) → Represents (state_of self.old) v
            → (refusal_of v (steps.ReadUnder group name.now offset len) ≡ None)
            × (PoolAnswersTell (state_of self.old).commit (state_of self.new).commit missing.now
            → AreBytesOf (v.pools group) name.now offset len bytes)) }
        ensures refused { IfErr result (λ refusal. (v : View) → Represents (state_of self.old) v
            → (refusal ≡ Refusal.NoMemory) ⊎ ((refusal_of v
            (steps.ReadUnder group name.now offset len) ≡ Some refusal)
            ⊎ ((refusal_of v (steps.ReadUnder group name.now offset len) ≡ None)
            × IsLostAnswer v (state_of self.old).commit (state_of self.new).commit
            group name.now offset len missing.now refusal))) }
    {
        let read = self
            .commit
            .read_under(self.alloc, group, name, offset, len, missing);
        match read {
            Ok(bytes) => Ok(Bytes::new(bytes)),
            Err(refusal) => Err(Refusal::from(refusal)),
        }
    }
}
