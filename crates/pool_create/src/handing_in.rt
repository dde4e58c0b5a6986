//! Making a pool on disks that are handed in.
ghost use Rattle.std.specs.Prelude.{IfErr, IfOk};
ghost use Rattle.pool_open.specs.CoreStateOf.{state_of};
ghost use Rattle.pool_create.specs.Creates.{CreateRefusesOn, IsCreatedOn};

use crate::making::create_over;
use model_disk::{Disk, DiskArray, Member};
use pool_format::PoolIdentity;
use pool_members::{AllPresent, all_present};
use pool_open::{OpenedPool, Refusal};
use std::alloc::Global;
use vdev_label::Config;

/// Makes a pool of that name, guid and configuration on disks that show none: they are the children of the configuration's vdevs, in
/// order. Its first group, of number 3, has no volumes. It is committed under claim 1, and then each disk is given its labels and
/// flushed. At last the pool is read as an open reads it, without a claim, and all slots of all disks are read, which must show its uberblock
/// and no other. It goes on from there.
///
/// `BadConfig` where a pool may not have the name, or one of that guid the configuration; where the vdevs don't take all disks, or don't
/// lie on them; and where a disk shows a label or an uberblock. Then nothing was written on any disk; after any other refusal the disks
/// may show a part of a pool. `NoSpace` where the vdevs have no room for the first group; `DiskFault` where a call on a disk failed, a
/// read too; `NoMemory` also where the first group takes more steps than are taken. Where what is read isn't what was written, it is what
/// `open` answers to it, with `NoUberblock` in place of `BadConfig`. After a refusal the disks come back in the order handed in.
pub fn create<D: Disk + Drop>(
    alloc: Global,
    disks: Vec<D>,
    pool: PoolIdentity,
    config: Config,
) -> Result<OpenedPool<Member<D>>, (Refusal, Vec<D>)>
    ensures created { IfOk result (λ opened.
        IsCreatedOn D.Disk disks.items pool config opened.uberblock (state_of opened.core)) }
    ensures refused { IfErr result (λ failed.
        CreateRefusesOn D.Disk disks.items pool config failed.1.items failed.0) }
{
    let AllPresent { disks, handed } = match all_present(alloc, disks) {
        Ok(members) => members,
        Err(disks) => return Err((Refusal::NoMemory, disks)),
    };
    match create_over(alloc, DiskArray::new(disks), pool, config) {
        Ok(opened) => Ok(opened),
        Err((refusal, array)) => Err((refusal, handed.restore(array.into_disks()))),
    }
}
