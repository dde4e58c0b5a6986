//! A pool that is made and run, exported, and opened on the very disks that come back.
ghost use Rattle.std.specs.Prelude.{◌≡◌, map, IfOk};
ghost use Rattle.model_disk.specs.declared.member.Member.TheVariants.{Present};
ghost use Rattle.pool_create.specs.CoreStateOf.{state_of};
ghost use Rattle.tests_lives.specs.Lived.{ExportsAndOpens, GivesBackAndOpens, HasLived, HasLivedOn, RunsOn};

use model_disk::{Disk, MemDisk, Member};
use pool_create::{NotOpened, OpenedPool, create, export, open};
use pool_format::PoolIdentity;
use pool_lives::{crash_histories_go_on, crash_histories_keep_the_last_group};
use pool_model::Step;
use pool_open::run;
use std::alloc::{AllocError, Global};
use std::test::*;
use vdev_label::{Config, Vdev};

/// Makes a pool and takes these steps.
fn lived<D: Disk + Drop>(
    alloc: Global,
    disks: Vec<D>,
    pool: PoolIdentity,
    config: Config,
    steps: Vec<Step>,
) -> Result<OpenedPool<Member<D>>, ()>
    ensures { IfOk result (λ opened. HasLived D.Disk disks.items pool config steps.items
        opened.uberblock (state_of opened.core)) }
{
    crash_histories_go_on::<D>();
    crash_histories_keep_the_last_group::<D>();
    let Ok(made) = create(alloc, disks, pool, config) else {
        return Err(());
    };
    let OpenedPool { core, uberblock } = made;
    let mut core = core;
    let mut replies = Vec::new(alloc);
    let Ok(()) = run(&mut core, steps, &mut replies) else {
        return Err(());
    };
    Ok(OpenedPool { core, uberblock })
}

/// The disks of members that are all there.
fn present<D: Disk + Drop>(alloc: Global, members: Vec<Member<D>>) -> Result<Vec<D>, ()>
    ensures { IfOk result (λ disks. members.items ≡ map Present disks.items) }
{
    let mut disks = Vec::new(alloc);
    'present: for member in members {
        let Member::Present(disk) = member else {
            return Err(());
        };
        if disks.push(disk).is_err() {
            return Err(());
        }
    }
    Ok(disks)
}

/// Exports a pool, and opens its very disks.
fn exported<D: Disk + Drop>(
    alloc: Global,
    pool: OpenedPool<Member<D>>,
) -> Result<OpenedPool<Member<D>>, ()>
    ensures { IfOk result (λ opened. ExportsAndOpens D.Disk (state_of pool.core)
        opened.uberblock (state_of opened.core)) }
{
    crash_histories_go_on::<D>();
    let Ok(members) = export(alloc, pool) else {
        return Err(());
    };
    let disks = present(alloc, members)?;
    let Ok((opened, _)) = open(alloc, disks, 0) else {
        return Err(());
    };
    Ok(opened)
}

/// Takes more steps.
fn run_on<D: Disk + Drop>(
    alloc: Global,
    pool: OpenedPool<Member<D>>,
    steps: Vec<Step>,
) -> Result<OpenedPool<Member<D>>, ()>
    ensures { IfOk result (λ ran. RunsOn D.Disk (state_of pool.core) steps.items
        (state_of ran.core)) }
{
    crash_histories_go_on::<D>();
    let OpenedPool { core, uberblock } = pool;
    let mut core = core;
    let mut replies = Vec::new(alloc);
    let Ok(()) = run(&mut core, steps, &mut replies) else {
        return Err(());
    };
    Ok(OpenedPool { core, uberblock })
}

/// Takes the disks back from a core, is refused to go back two groups on them, and opens them.
fn taken_back<D: Disk + Drop>(
    alloc: Global,
    pool: OpenedPool<Member<D>>,
) -> Result<OpenedPool<Member<D>>, ()>
    ensures { IfOk result (λ opened. GivesBackAndOpens D.Disk (state_of pool.core)
        opened.uberblock (state_of opened.core)) }
{
    crash_histories_go_on::<D>();
    let OpenedPool { core, .. } = pool;
    let None = core.export_refusal() else {
        return Err(());
    };
    let disks = present(alloc, core.into_disks())?;
    let disks = match open(alloc, disks, 2) {
        Err(NotOpened::NotFound { disks, .. }) => disks,
        _ => return Err(()),
    };
    let Ok((opened, _)) = open(alloc, disks, 0) else {
        return Err(());
    };
    Ok(opened)
}

/// Makes a pool and takes these steps, exports it and opens it, takes more steps, takes its disks back and opens them.
fn lived_on<D: Disk + Drop>(
    alloc: Global,
    disks: Vec<D>,
    pool: PoolIdentity,
    config: Config,
    steps: Vec<Step>,
    more: Vec<Step>,
) -> Result<OpenedPool<Member<D>>, ()>
    ensures { IfOk result (λ opened. HasLivedOn D.Disk disks.items pool config steps.items
        more.items opened.uberblock (state_of opened.core)) }
{
    crash_histories_keep_the_last_group::<D>();
    let first = lived(alloc, disks, pool, config, steps)?;
    let second = exported(alloc, first)?;
    let last = run_on(alloc, second, more)?;
    taken_back(alloc, last)
}

pub(crate) fn config(alloc: Global) -> Result<Config, AllocError> {
    let vdev = Vdev {
        guid: 100,
        parity: 1,
        child_sectors: 7168,
        slab_shift: 12,
        meta_slabs: 2,
        children: vec![in alloc; 101, 102, 103]?,
    };
    Ok(Config {
        vdevs: vec![in alloc; vdev]?,
    })
}

/// What commits a group: more steps of its device calls than it has calls.
fn one_group(alloc: Global) -> Result<Vec<Step>, AllocError> {
    let mut steps = vec![in alloc; Step::Close, Step::Quiesce, Step::Plan { timestamp: 0 }]?;
    for _ in 0..200 {
        steps.push(Step::Device)?;
    }
    Ok(steps)
}

/// The group and the claim of a pool that was made, committed a group, was exported and opened, committed another, and whose disks were taken back
/// and opened.
fn shown(alloc: Global) -> Result<[u64; 2], AllocError> {
    let disks = MemDisk::several(alloc, 3, 0x80_0000)?;
    let name = String::from_str(alloc, "pool")?;
    let identity = PoolIdentity { name, guid: 1 };
    let config = config(alloc)?;
    match lived_on(
        alloc,
        disks,
        identity,
        config,
        one_group(alloc)?,
        one_group(alloc)?,
    ) {
        Ok(pool) => Ok([pool.uberblock.group, pool.uberblock.claim]),
        Err(()) => Ok([0, 0]),
    }
}

#[test]
fn a_pool_lives_on(rt: HostRuntime) {
    assert!(rt; shown(rt.alloc()) == Ok([5, 3]));
}
