//! Reads of volumes.
ghost use Rattle.std.specs.Prelude.{◌≡◌, ◌⊎◌, ℕ, ◌+◌, ◌≤◌, ◌^◌, [], Some, None, IfOk, IfErr, length};
ghost use Rattle.std.specs.Option.{option_copied};
ghost use Rattle.pool_model.specs.Machine.{AreBytesOf};
ghost use Rattle.pool_model.specs.Pools.{volume_at};
ghost use Rattle.pool_model.specs.View.{View};
ghost use Rattle.volume_rules.specs.Overlay.{HasRangeAt, StandsThere};
ghost use Rattle.block_store.specs.Blocks.{Contents};
ghost use Rattle.block_store.specs.Steps.{OnlyReadsBlocks, AnswersTell};
ghost use Rattle.block_store.specs.Store.{Holds};
ghost use Rattle.pool_model.specs.Pools.{PlainPool};
ghost use Rattle.pool_model.specs.Refusals.{read_refusal};
ghost use Rattle.pool_commit.specs.Backs.{Backs, SpellsGroup};
ghost use Rattle.pool_commit.specs.StateOf.{state_of};
ghost use Rattle.pool_commit.specs.Reading.{PoolAnswersTell, OnlyReadsPool, IsReadFault};
ghost use Rattle.pool_commit.specs.Reading.{IsFaultIn, IsUnreadOf, IsUnreadUnder, IsLostUnder};
ghost use Rattle.pool_commit.specs.Reading.{HasNoCause, IsUnderCause, IsReadCause, IsLostAt, IsUnreadAt};

use crate::commit::Commit;
use crate::kept::KeptGroup;
use crate::refusal::Refusal;
use block_store::BlockStore;
use dataset_snapshots::{VolumeRange, read_range_in};
use model_disk::Disk;
use pool_model::Name;
use std::alloc::Global;
use volume_rules::against_read;

/// A range of a volume under a kept group. One that the pool of the group hasn't got is refused by the names that the group has in
/// memory, before any disk is read. Nor is a block of the directory read, which the group has in memory too.
fn read_of<D: Disk + Drop>(
    kept: &KeptGroup,
    store: &mut BlockStore<D>,
    alloc: Global,
    birth: u64,
    range: &VolumeRange<'_>,
    missing: &[usize],
) -> Result<Vec<u8>, Refusal>
    ensures reads { OnlyReadsBlocks store.old store.new missing.now }
    ensures bytes { IfOk result (λ bytes. (stored : Contents) (pool : PlainPool)
        → Holds store.old stored → SpellsGroup stored birth kept.now pool
        → (read_refusal range.now.offset range.now.len (volume_at range.now.name.now pool) ≡ None)
        × (AnswersTell store.old store.new missing.now
        → AreBytesOf pool range.now.name.now range.now.offset range.now.len bytes.items)) }
    ensures len { IfOk result (λ bytes. length bytes.items ≡ range.now.len) }
    ensures refused { IfErr result (λ refusal. (stored : Contents) (pool : PlainPool)
        → Holds store.old stored → SpellsGroup stored birth kept.now pool
        → (refusal ≡ Refusal.NoMemory)
        ⊎ (IsReadCause
        (read_refusal range.now.offset range.now.len (volume_at range.now.name.now pool)) refusal
        ⊎ ((read_refusal range.now.offset range.now.len (volume_at range.now.name.now pool) ≡ None)
        × IsUnreadOf store.old store.new kept.now birth range.now.name.now
        range.now.offset range.now.len
        missing.now refusal × IsFaultIn store.old store.new missing.now refusal))) }
    ensures unread { IfErr result (λ refusal. IsReadFault refusal
        → IsUnreadOf store.old store.new kept.now birth range.now.name.now
        range.now.offset range.now.len
        missing.now refusal) }
{
    let Some(shape) = kept.names().find(range.name) else {
        return Err(Refusal::NoSuchName);
    };
    if against_read(range.offset, range.len, Some(shape)).is_some() {
        return Err(Refusal::OutOfRange);
    }
    let Some(root) = &kept.root else {
        return Err(Refusal::NoSuchName);
    };
    match read_range_in(root, store, alloc, birth, kept.directory(), range, missing) {
        Ok(bytes) => Ok(bytes),
        Err(refusal) => Err(Refusal::from(refusal)),
    }
}

impl<D: Disk + Drop> Commit<D> {
    /// A range of a volume's bytes under a kept group. The disks that are named are taken as missing.
    pub fn read_under(
        &mut self,
        alloc: Global,
        group: u64,
        name: &Name,
        offset: u64,
        len: u64,
        missing: &[usize],
    ) -> Result<Vec<u8>, Refusal>
        ensures reads { OnlyReadsPool (state_of self.old) (state_of self.new) missing.now }
        ensures bytes { IfOk result (λ bytes. (v : View) → Backs (state_of self.old) v
            → HasNoCause v group name.now offset len
            × (PoolAnswersTell (state_of self.old) (state_of self.new) missing.now
            → AreBytesOf (v.pools group) name.now offset len bytes.items)) }
        ensures refused { IfErr result (λ refusal. (v : View) → Backs (state_of self.old) v
            → (refusal ≡ Refusal.NoMemory) ⊎ (IsUnderCause v group name.now offset len refusal
            ⊎ (HasNoCause v group name.now offset len
            × IsLostUnder v (state_of self.old) (state_of self.new) group name.now offset len
            missing.now refusal))) }

        // A block in which the range lies was read last, and could not be read.
        ensures unread { IfErr result (λ refusal. IsReadFault refusal
            → IsUnreadUnder (state_of self.old) (state_of self.new) group name.now offset len
            missing.now refusal) }
    {
        let Some(kept) = self.kept.group(group) else {
            return Err(Refusal::GroupGone);
        };
        let range = VolumeRange { name, offset, len };
        read_of(kept, &mut self.store, alloc, group, &range, missing)
    }

    /// A range of what the committed pool has at a name, or of zeros where no name is given.
    pub fn read_committed(
        &mut self,
        alloc: Global,
        name: Option<&Name>,
        offset: u64,
        len: u64,
    ) -> Result<Vec<u8>, Refusal>
        requires few { len ≤ 2 ^ 20 }
        ensures reads { OnlyReadsPool (state_of self.old) (state_of self.new) [] }
        ensures len { IfOk result (λ bytes. length bytes.items ≡ len) }
        ensures bytes { IfOk result (λ bytes. (v : View) (size : ℕ)
            → Backs (state_of self.old) v
            → PoolAnswersTell (state_of self.old) (state_of self.new) []
            → StandsThere (option_copied name.entry) (v.pools v.committed) size
            → offset + len ≤ size
            → HasRangeAt bytes.items (option_copied name.entry) (v.pools v.committed) size offset) }
        ensures refused { IfErr result (λ refusal. (v : View) (size : ℕ)
            → Backs (state_of self.old) v
            → StandsThere (option_copied name.entry) (v.pools v.committed) size
            → offset + len ≤ size
            → (refusal ≡ Refusal.NoMemory)
            ⊎ IsLostAt v (state_of self.old) (state_of self.new) (option_copied name.entry)
            offset len refusal) }
        ensures unread { IfErr result (λ refusal. IsReadFault refusal
            → IsUnreadAt (state_of self.old) (state_of self.new)
            (state_of self.old).kept.committed (option_copied name.entry) offset len refusal) }
    {
        let Some(name) = name else {
            return Ok(vec![in alloc; 0; len as usize]?);
        };
        let range = VolumeRange { name, offset, len };
        let committed = self.kept.committed();
        let last = self.kept.last();
        read_of(last, &mut self.store, alloc, committed, &range, &[])
    }
}
