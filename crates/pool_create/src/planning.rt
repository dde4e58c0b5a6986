//! What follows from a configuration, before a disk is called.
ghost use Rattle.std.specs.Prelude.{◌≡◌, ◌⊎◌, ◌↔◌, IsTrue, IfErr, IfOk};
ghost use Rattle.pool_open.specs.Slots.{IsStampOf};
ghost use Rattle.pool_create.specs.Planning.{IsAllowedPool, IsNewPool, none_out};
ghost use Rattle.vdev_label.specs.Plain.{config_view, vdev_view};

use crate::guids::{guids_are_words, is_word};
use block_store::VdevShape;
use pool_format::PoolIdentity;
use pool_open::{Refusal, Stamp, shapes_of};
use std::alloc::{AllocError, Global};
use std::sync::Arc;
use vdev_label::{Config, Vdev, allowed_has_room, config_of_label_fits};

/// What the first group, and the reading of it, need to know of the pool.
#[derive(Drop)]
pub(crate) struct NewPool {
    pub(crate) shapes: Vec<VdevShape>,
    /// That no disk is out.
    pub(crate) out: Vec<bool>,
    pub(crate) stamp: Stamp,
    pub(crate) config: Arc<Config, Global>,
}

/// Marks of so many disks, none of which is out.
pub(crate) fn none_out(alloc: Global, count: usize) -> Result<Vec<bool>, AllocError>
    ensures { IfOk result (λ out. out.items ≡ none_out count) }
{
    vec![in alloc; false; count]
}

/// Whether a pool may have the name, and one of its guid the configuration.
fn is_allowed_pool(alloc: Global, pool: &PoolIdentity, config: &Config) -> Result<bool, AllocError>
    ensures { IfOk result (λ allowed. IsTrue allowed ↔ IsAllowedPool pool.now config.now) }
{
    if !pool.has_good_name() {
        return Ok(false);
    }
    config.is_allowed(alloc, pool.guid)
}

/// What the uberblocks of the new pool have in common.
fn stamp_of(alloc: Global, pool: &PoolIdentity, config: &Config) -> Result<Stamp, AllocError>
    requires { IsAllowedPool pool.now config.now }
    ensures { IfOk result (IsStampOf (config_view config.now) 1) }
{
    is_word(pool.guid);
    guids_are_words(config);
    allowed_has_room();
    config_of_label_fits();
    let guid_sum = config.guid_sum();
    let config_digest = config.digest(alloc)?;
    Ok(Stamp {
        guid_sum,
        claim: 1,
        config_digest,
    })
}

/// A copy of a vdev.
fn copied_vdev(alloc: Global, vdev: &Vdev) -> Result<Vdev, AllocError>
    ensures { IfOk result (λ copy. vdev_view copy ≡ vdev_view vdev.now) }
{
    let children = Vec::from_slice(alloc, &vdev.children)?;
    Ok(Vdev {
        guid: vdev.guid,
        parity: vdev.parity,
        child_sectors: vdev.child_sectors,
        slab_shift: vdev.slab_shift,
        meta_slabs: vdev.meta_slabs,
        children,
    })
}

/// A copy of a configuration.
fn copied(alloc: Global, config: &Config) -> Result<Config, AllocError>
    ensures { IfOk result (λ copy. config_view copy ≡ config_view config.now) }
{
    let mut vdevs = Vec::new(alloc);
    for i in 0..config.vdevs.len() {
        vdevs.push(copied_vdev(alloc, &config.vdevs[i])?)?;
    }
    Ok(Config { vdevs })
}

/// What follows from an allowed configuration, for so many disks.
fn new_pool(
    alloc: Global,
    count: usize,
    pool: &PoolIdentity,
    config: &Config,
) -> Result<NewPool, AllocError>
    requires { IsAllowedPool pool.now config.now }
    ensures { IfOk result (IsNewPool config.now count) }
{
    guids_are_words(config);
    let copied = copied(alloc, config)?;
    Ok(NewPool {
        shapes: shapes_of(alloc, config)?,
        out: none_out(alloc, count)?,
        stamp: stamp_of(alloc, pool, config)?,
        config: Arc::new(alloc, copied)?,
    })
}

/// Plans a pool of this name, guid and configuration for so many disks. `BadConfig` where they may not be a pool's.
pub(crate) fn plan(
    alloc: Global,
    count: usize,
    pool: &PoolIdentity,
    config: &Config,
) -> Result<NewPool, Refusal>
    ensures allowed { IfOk result (λ _. IsAllowedPool pool.now config.now) }
    ensures planned { IfOk result (IsNewPool config.now count) }
    ensures refused { IfErr result (λ refusal. (refusal ≡ Refusal.NoMemory)
        ⊎ ((refusal ≡ Refusal.BadConfig) × ¬ IsAllowedPool pool.now config.now)) }
{
    if !is_allowed_pool(alloc, pool, config)? {
        return Err(Refusal::BadConfig);
    }
    Ok(new_pool(alloc, count, pool, config)?)
}
