//! Writers in threads, and what closes, plans and commits beside them.
ghost use Rattle.std.specs.Prelude.{◌≡◌, ◌+◌, ◌<◌};

use crate::made::{BLOCK, SIZE, VOLUME, blocks, creation, does_replay, fresh, name};
use plain_machine::Machine;
use pool_model::{Bytes, Reply};
use pool_steps::PoolSteps;
use shared_pool::{Books, Entry, Recorded, SharedPool, Shares};
use std::alloc::Global;
use std::marker::Brand;
use std::process::Abort;
use std::sync::Wait;
use std::sync::ledger::{Blank, Ledger};
use std::test::*;
use std::thread::{Threads, join};
use worker_items::OpenGate;

#[test]
fn four_writers_in_one_to_four_threads(rt: HostRuntime) -> Result<(), Fail> {
    let alloc = rt.alloc();
    for threads in 1..5 {
        played::<Brand, Brand, _>(&rt, alloc, threads, Blank::new(4), Blank::new(4))?;
    }
    Ok(())
}

fn played<L: Ledger + Send + Sync, M: Ledger + Send + Sync, R: Threads + Wait + Abort + Sync>(
    rt: &R,
    alloc: Global,
    threads: u8,
    steps: Blank,
    calls: Blank,
) -> Result<(), Fail>
    requires threads { 0 < threads }
    requires steps { (steps.name ≡ L.name) × (steps.parts ≡ L.parts) }
    requires calls { (calls.name ≡ M.name) × (calls.parts ≡ M.parts) }
    requires four { (steps.parts ≡ 4) × (calls.parts ≡ 4) }
{
    let (books, all) = Books::<L, M>::open(steps, calls);
    let recorded = fresh(alloc, books)?;
    replayed(rt, alloc, threads, recorded, Machine::create(alloc), all)
}

// Both records replay on another core, one after the other.
fn replayed<
    C: PoolSteps + Send,
    L: Ledger + Send + Sync,
    M: Ledger + Send + Sync,
    R: Threads + Wait + Abort + Sync,
>(
    rt: &R,
    alloc: Global,
    threads: u8,
    recorded: Recorded<C, L, M>,
    mut other: C,
    all: Shares<L, M>,
) -> Result<(), Fail>
    requires threads { 0 < threads }
    requires four { (all.steps.parts ≡ 4) × (L.parts ≡ 4) × (M.parts ≡ 4) }
{
    let (mut recorded, mut all, first) = recorded_in_threads(rt, alloc, threads, recorded, all);
    recorded.audit(&mut all);
    let second = recorded.seal(&mut all)?;
    assert_eq!(rt; first.len(), 8);
    assert!(rt; does_replay(alloc, &mut other, first)?);
    assert!(rt; does_replay(alloc, &mut other, second)?);
    Ok(())
}

fn recorded_in_threads<
    C: PoolSteps + Send,
    L: Ledger + Send + Sync,
    M: Ledger + Send + Sync,
    R: Threads + Wait + Abort + Sync,
>(
    rt: &R,
    alloc: Global,
    threads: u8,
    recorded: Recorded<C, L, M>,
    all: Shares<L, M>,
) -> (Recorded<C, L, M>, Shares<L, M>, Vec<Entry>)
    requires threads { 0 < threads }
    requires four { all.steps.parts ≡ 4 }
    ensures { result.1.steps.parts ≡ 4 }
{
    let pool = SharedPool::new(recorded);
    let all = synced(rt, &pool, created(rt, alloc, &pool, all));
    let all = read_back(rt, alloc, &pool, Some(4), &[0, 0, 0, 0], all);
    let mut syncer = pool.syncer(all);
    let first = syncer.seal(rt).expect(rt, "memory");
    let all = in_four(rt, alloc, &pool, threads, syncer.into_shares());
    let all = synced(rt, &pool, all);
    let all = read_back(rt, alloc, &pool, None, &[1, 2, 3, 4], all);
    (pool.into_inner(), all, first)
}

// Writer 1 makes the volume.
fn created<C: PoolSteps, L: Ledger, M: Ledger, R: Wait + Abort>(
    rt: &R,
    alloc: Global,
    pool: &SharedPool<C, L, M>,
    shares: Shares<L, M>,
) -> Shares<L, M>
    ensures { result.steps.parts ≡ shares.steps.parts }
{
    let mut writer = pool.writer(1, shares);
    assert!(rt; matches!(writer.hold(rt), Ok(Reply::Held(4))));
    let change = creation(alloc).expect(rt, "memory");
    assert!(rt; matches!(writer.act(rt, 1, change), Ok(Reply::Receipt(4))));
    assert!(rt; matches!(writer.release(rt), Ok(Reply::Released)));
    writer.into_shares()
}

// Closes, quiesces, plans and commits, as far as it goes.
fn synced<C: PoolSteps, L: Ledger, M: Ledger, R: Threads + Wait + Sync>(
    rt: &R,
    pool: &SharedPool<C, L, M>,
    shares: Shares<L, M>,
) -> Shares<L, M>
    ensures { result.steps.parts ≡ shares.steps.parts }
{
    let mut quiescer = pool.quiescer(shares);
    let _ = quiescer.close(rt);
    let _ = quiescer.quiesce(rt);
    let mut syncer = pool.syncer(quiescer.into_shares());
    let _ = syncer.plan_with(rt, &OpenGate, 2, 0);
    let _ = syncer.device(rt);
    syncer.into_shares()
}

fn in_four<
    C: PoolSteps + Send,
    L: Ledger + Send + Sync,
    M: Ledger + Send + Sync,
    R: Threads + Wait + Abort + Sync,
>(
    rt: &R,
    alloc: Global,
    pool: &SharedPool<C, L, M>,
    threads: u8,
    mut one: Shares<L, M>,
) -> Shares<L, M>
    requires threads { 0 < threads }
    requires four { one.steps.parts ≡ 4 }
    ensures { result.steps.parts ≡ 4 }
{
    let two = one.split_off();
    let mut three = one.split_off();
    three.merge(two);
    let (mut low, high) = join(
        rt,
        || -> Shares<L, M>
            requires { (0 < threads) × (one.steps.parts ≡ 2) }
            ensures { result.steps.parts ≡ 2 }
        { in_two(rt, alloc, pool, (0, threads), one) },
        || -> Shares<L, M>
            requires { (0 < threads) × (three.steps.parts ≡ 2) }
            ensures { result.steps.parts ≡ 2 }
        { in_two(rt, alloc, pool, (2, threads), three) },
    );
    low.merge(high);
    low
}

fn in_two<
    C: PoolSteps + Send,
    L: Ledger + Send + Sync,
    M: Ledger + Send + Sync,
    R: Threads + Wait + Abort + Sync,
>(
    rt: &R,
    alloc: Global,
    pool: &SharedPool<C, L, M>,
    at: (u8, u8),
    mut one: Shares<L, M>,
) -> Shares<L, M>
    requires threads { 0 < at.1 }
    requires two { one.steps.parts ≡ 2 }
    ensures { result.steps.parts ≡ 2 }
{
    let two = one.split_off();
    let (thread, threads) = at;
    let next = thread.saturating_add(1);
    let (mut low, high) = join(
        rt,
        || -> Shares<L, M>
            requires { (0 < threads) × (one.steps.parts ≡ 1) }
            ensures { result.steps.parts ≡ 1 }
        { in_turn(rt, alloc, pool, (thread, threads), one) },
        || -> Shares<L, M>
            requires { (0 < threads) × (two.steps.parts ≡ 1) }
            ensures { result.steps.parts ≡ 1 }
        { in_turn(rt, alloc, pool, (next, threads), two) },
    );
    low.merge(high);
    low
}

// Of writers 1 to 4 those whose number is this thread's modulo the number of threads. A thread beyond them syncs meanwhile.
fn in_turn<C: PoolSteps, L: Ledger, M: Ledger, R: Threads + Wait + Abort + Sync>(
    rt: &R,
    alloc: Global,
    pool: &SharedPool<C, L, M>,
    at: (u8, u8),
    mut shares: Shares<L, M>,
) -> Shares<L, M>
    requires { (0 < at.1) × (shares.steps.parts ≡ 1) }
    ensures { result.steps.parts ≡ 1 }
{
    for writer in 1..5 {
        if at.0 >= at.1 {
            shares = synced(rt, pool, shares);
        } else if writer % at.1 == at.0 {
            shares = written(rt, alloc, pool, shares, writer);
        }
    }
    shares
}

// A writer writes its block, filled with its number.
fn written<C: PoolSteps, L: Ledger, M: Ledger, R: Wait + Abort>(
    rt: &R,
    alloc: Global,
    pool: &SharedPool<C, L, M>,
    shares: Shares<L, M>,
    who: u8,
) -> Shares<L, M>
    ensures { result.steps.parts ≡ shares.steps.parts }
{
    let mut writer = pool.writer(u32::from(who), shares);
    assert!(rt; matches!(writer.hold(rt), Ok(Reply::Held(_))));
    let volume = name(alloc, VOLUME).expect(rt, "memory");
    let bytes = Bytes::new(blocks(alloc, &[who]).expect(rt, "memory"));
    let offset = u64::from(who.saturating_sub(1)) * BLOCK;
    let number = if who == 1 { 2 } else { 1 };
    let receipt = writer.write(rt, number, volume, offset, bytes);
    assert!(rt; matches!(receipt, Ok(Reply::Receipt(_))));
    assert!(rt; matches!(writer.release(rt), Ok(Reply::Released)));
    writer.into_shares()
}

// The volume has these blocks; where a group is named, as it was committed.
fn read_back<C: PoolSteps, L: Ledger, M: Ledger, R: Wait + Abort>(
    rt: &R,
    alloc: Global,
    pool: &SharedPool<C, L, M>,
    group: Option<u64>,
    want: &[u8],
    shares: Shares<L, M>,
) -> Shares<L, M>
    ensures { result.steps.parts ≡ shares.steps.parts }
{
    let mut reader = pool.writer(9, shares);
    let volume = name(alloc, VOLUME).expect(rt, "memory");
    let reply = match group {
        Some(group) => reader.read_under(rt, group, volume, 0, SIZE),
        None => reader.read(rt, volume, 0, SIZE),
    };
    let want = blocks(alloc, want).expect(rt, "memory");
    assert!(rt; matches!(&reply, Ok(Reply::Bytes(bytes)) if bytes.as_slice() == want.as_slice()));
    reader.into_shares()
}
