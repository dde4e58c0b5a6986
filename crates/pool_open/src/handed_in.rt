//! Opening a pool on disks that are handed in.
ghost use Rattle.std.specs.Prelude.{◌≡◌, ◌<◌, IfErr, IfOk};
ghost use Rattle.pool_core.specs.StateOf.{disks_in, state_of};
ghost use Rattle.pool_open.specs.Finding.{AreBack};
ghost use Rattle.pool_open.specs.Opens.{IsOpenedOn, OpenRefuses};

use crate::attempts::open_over;
use crate::finding::{FoundPool, find};
use crate::opening::OpenedPool;
use crate::refusal::Refusal;
use model_disk::{Disk, DiskArray, Member};
use pool_format::PoolIdentity;
use pool_members::HandedIn;
use std::alloc::Global;

/// What an opened pool was found as.
#[derive(Drop)]
pub struct OpenedFrom<D: Disk + Drop> {
    /// The name and the guid that the label has which was chosen: of those with the configuration that the uberblock names the latest.
    pub identity: PoolIdentity,
    /// Where each disk is that was handed in, so that all of them come back.
    pub handed: HandedIn<D>,
}

/// A pool that was not opened, and all disks as they are then, in the order handed in.
#[derive(Drop)]
pub enum NotOpened<D: Disk + Drop> {
    /// No pool was found on them, and nothing was written.
    NotFound { refusal: Refusal, disks: Vec<D> },
    /// A pool was found. On a disk that is none of its children nothing was written.
    Refused { refusal: Refusal, disks: Vec<D> },
}

impl<D: Disk + Drop> NotOpened<D> {
    ghost use Rattle.pool_open.specs.Opens.{refusal_of};

    /// Why it was not opened.
    pub fn refusal(&self) -> Refusal
        ensures { result ≡ refusal_of self.now }
    {
        match self {
            NotOpened::NotFound { refusal, .. } | NotOpened::Refused { refusal, .. } => *refusal,
        }
    }
}

/// The disks are dropped.
impl<D: Disk + Drop> From<NotOpened<D>> for Refusal {
    ghost use Rattle.pool_open.specs.Opens.{refusal_of};

    ghost from_gives = { λ failed refusal. refusal ≡ refusal_of failed };

    fn from(failed: NotOpened<D>) -> Refusal {
        failed.refusal()
    }
}

/// Opens a pool on disks that are handed in, in any order: finds it, reads its last group, or where it goes back (`rewind`, 1 or 2) the
/// one that is so many groups less, and claims it before anything else is written. Where it is refused the disks come back, in the order
/// handed in. Disks that are none of its children are kept, and nothing is written on them; `into_disks` gives all disks back in that order.
///
/// A disk on which a write or flush of the claim fails is out from then on, and the pool is opened over the others, as `open_over` says.
///
/// The refusals of `find` come first, in their order; then those of `open_over`. Until a claim is begun nothing was written.
pub fn open<D: Disk + Drop>(
    alloc: Global,
    disks: Vec<D>,
    rewind: u64,
) -> Result<(OpenedPool<Member<D>>, OpenedFrom<D>), NotOpened<D>>
    requires rewind { rewind < 3 }
    ensures opened { IfOk result (λ opened. IsOpenedOn D.Disk disks.items rewind
        opened.0.uberblock (state_of opened.0.core) opened.1) }
    ensures refused { IfErr result (OpenRefuses D.Disk disks.items rewind) }
{
    let found = match find(alloc, disks, rewind) {
        Ok(found) => found,
        Err((cause, disks)) => {
            let refusal = Refusal::from(cause);
            return Err(NotOpened::NotFound { refusal, disks });
        }
    };
    let FoundPool {
        disks,
        handed,
        out,
        shapes,
        config,
        identity,
        ..
    } = found;
    match open_over(alloc, DiskArray::new(disks), &shapes, out, rewind, &config) {
        Ok(pool) => Ok((pool, OpenedFrom { identity, handed })),
        Err((refusal, disks)) => Err(NotOpened::Refused {
            refusal,
            disks: handed.restore(disks.into_disks()),
        }),
    }
}

/// The disks of a pool, as they are now, in the order handed in. What was accepted and isn't committed is dropped.
pub fn into_disks<D: Disk + Drop>(pool: OpenedPool<Member<D>>, handed: HandedIn<D>) -> Vec<D>
    ensures { AreBack D.Disk (disks_in pool.core) handed result.items }
{
    handed.restore(pool.core.into_disks())
}
