//! Disks that a pool may be made on, and their labels.
ghost use Rattle.std.specs.Prelude.{◌≡◌, ◌⊎◌, ℕ, length, true, false, Ok, IfErr, IfOk, OnOk, Err};
ghost use Rattle.block_store.specs.Opened.{MayBeOpened};
ghost use Rattle.model_disk.specs.Runs.{AreSettled, Makes, no_write};
ghost use Rattle.pool_create.specs.Planning.{IsAllowedPool};
ghost use Rattle.pool_format.specs.Blank.{TellsBlank};
ghost use Rattle.pool_format.specs.Labels.{AreLabeled, IsLabelWrite, children_of, labels_of};
ghost use Rattle.pool_open.specs.Held.{IsLaidOver};
ghost use Rattle.pool_slots.specs.Failures.{HasFailedOn};
ghost use Rattle.pool_slots.specs.Slots.{HaveLabels};
ghost use Rattle.vdev_label.specs.Plain.{config_view};

use crate::planning::NewPool;
use block_store::BlockStore;
use model_disk::{Disk, DiskArray};
use pool_format::{PoolIdentity, are_blank, write_labels};
use pool_open::{Refusal, labels_of_opened_lie};
use std::alloc::Global;
use vdev_label::Config;

/// The disks, where a store may be opened over them; else they come back in the error.
pub(crate) fn fitting<D: Disk + Drop>(
    alloc: Global,
    disks: DiskArray<D>,
    pool: &NewPool,
) -> Result<DiskArray<D>, (Refusal, DiskArray<D>)>
    ensures same { IfOk result (λ array. array ≡ disks) }
    ensures may { IfOk result (λ _.
        MayBeOpened disks.starts pool.now.shapes.items pool.now.out.items) }
    ensures labels { IfOk result (λ _. HaveLabels disks.starts) }
    ensures laid { IfOk result (λ _.
        IsLaidOver disks pool.now.shapes.items pool.now.out.items) }
    ensures refused { IfErr result (λ failed. (failed.0 ≡ Refusal.NoMemory)
        ⊎ ((failed.0 ≡ Refusal.BadConfig)
        × ¬ MayBeOpened disks.starts pool.now.shapes.items pool.now.out.items)) }
    ensures back { IfErr result (λ failed. failed.1 ≡ disks) }
{
    labels_of_opened_lie();
    match BlockStore::opened(alloc, disks, &pool.shapes, &pool.out) {
        Ok(store) => Ok(store.into_array()),
        Err((refusal, disks)) => Err((Refusal::from(refusal), disks)),
    }
}

/// Reads the disks, and refuses those that show a pool.
pub(crate) fn refuse_used<D: Disk + Drop>(
    alloc: Global,
    disks: &mut DiskArray<D>,
) -> Result<(), Refusal>
    requires room { HaveLabels disks.old.starts }
    ensures only { Makes no_write disks.old disks.new }
    ensures blank { OnOk result (TellsBlank disks.old disks.new (Ok true)) }
    ensures refused { IfErr result (λ refusal. (refusal ≡ Refusal.NoMemory)
        ⊎ (((refusal ≡ Refusal.BadConfig) × TellsBlank disks.old disks.new (Ok false))
        ⊎ ((refusal ≡ Refusal.DiskFault)
        × ((which : ℕ) × HasFailedOn disks.old disks.new which)))) }
{
    if !are_blank(alloc, disks)? {
        return Err(Refusal::BadConfig);
    }
    Ok(())
}

/// Labels the disks as those of the pool, with group 3 under claim 1.
pub(crate) fn label<D: Disk + Drop>(
    alloc: Global,
    disks: &mut DiskArray<D>,
    pool: PoolIdentity,
    config: Config,
) -> Result<(), Refusal>
    requires count { length (children_of (config_view config)) ≡ length disks.old.starts }
    requires room { HaveLabels disks.old.starts }
    requires allowed { IsAllowedPool pool config }
    ensures makes { Makes (IsLabelWrite disks.old.starts (labels_of pool config 1 3))
        disks.old disks.new }
    ensures labeled { OnOk result (AreLabeled disks.new (labels_of pool config 1 3)) }
    ensures settled { OnOk result (AreSettled disks.new) }
    ensures unfailed { OnOk result ((disk : ℕ) → ¬ HasFailedOn disks.old disks.new disk) }
    ensures refused { IfErr result (λ refusal. (refusal ≡ Refusal.NoMemory)
        ⊎ ((refusal ≡ Refusal.DiskFault)
        × ((which : ℕ) × HasFailedOn disks.old disks.new which))) }
{
    write_labels(alloc, disks, pool, config, 1, 3)?;
    Ok(())
}
