//! Records of one thread.
ghost use Rattle.std.specs.Prelude.{◌≡◌};

use crate::made::{creation, does_replay, fresh};
use plain_machine::Machine;
use pool_model::{Action, Reply, Step};
use pool_steps::PoolSteps;
use shared_pool::{Books, ROOM, Recorded, Shares};
use std::alloc::Global;
use std::marker::Brand;
use std::process::Abort;
use std::sync::ledger::{Blank, Ledger};
use std::test::*;

#[test]
fn records_of_the_machine(rt: HostRuntime) -> Result<(), Fail> {
    let alloc = rt.alloc();
    over_the_machine::<Brand, Brand, _>(&rt, alloc, Blank::new(1), Blank::new(1))
}

fn over_the_machine<L: Ledger, M: Ledger, R: Abort>(
    rt: &R,
    alloc: Global,
    steps: Blank,
    calls: Blank,
) -> Result<(), Fail>
    requires steps { (steps.name ≡ L.name) × (steps.parts ≡ L.parts) }
    requires calls { (calls.name ≡ M.name) × (calls.parts ≡ M.parts) }
    requires one { (steps.parts ≡ 1) × (calls.parts ≡ 1) }
{
    let (books, mut all) = Books::<L, M>::open(steps, calls);
    let mut recorded = fresh(alloc, books)?;
    let mut other = Machine::create(alloc);
    sealed_twice(rt, alloc, &mut recorded, &mut other, &mut all)?;
    filled(rt, alloc, &mut recorded, &mut all)?;
    recorded.audit(&mut all);
    Ok(())
}

// Two records follow each other, and another core takes the steps of both.
fn sealed_twice<C: PoolSteps, L: Ledger, M: Ledger, R: Abort>(
    rt: &R,
    alloc: Global,
    recorded: &mut Recorded<C, L, M>,
    other: &mut C,
    all: &mut Shares<L, M>,
) -> Result<(), Fail>
    ensures { all.new.steps.parts ≡ all.old.steps.parts }
{
    recorded.take_step(Step::Hold(1), all)?;
    let first = recorded.seal(all)?;
    let action = Action {
        writer: 1,
        number: 1,
        change: creation(alloc)?,
    };
    let reply = recorded.take_step(Step::Act(action), all)?;
    assert!(rt; matches!(reply, Reply::Receipt(4)));
    let second = recorded.seal(all)?;
    assert_eq!(rt; (first.len(), second.len()), (1, 1));
    assert!(rt; does_replay(alloc, other, first)?);
    assert!(rt; does_replay(alloc, other, second)?);
    Ok(())
}

// A full record takes no step; sealed, it goes on.
fn filled<C: PoolSteps, L: Ledger, M: Ledger, R: Abort>(
    rt: &R,
    alloc: Global,
    recorded: &mut Recorded<C, L, M>,
    all: &mut Shares<L, M>,
) -> Result<(), Fail>
    requires { all.old.steps.parts ≡ 1 }
    ensures { all.new.steps.parts ≡ 1 }
{
    for _ in 0..ROOM {
        recorded.take_step(Step::Quiesce, all)?;
    }
    match recorded.take_step(Step::Close, all) {
        Ok(_) => assert!(rt; false, "a full record took a step"),
        Err(refusal) => {
            assert_eq!(rt; refusal.number(), 26);
            assert_eq!(rt; format!(in alloc; "{refusal}")?.as_str(), "26 RecordFull");
        }
    }
    assert_eq!(rt; recorded.entries().len(), ROOM);
    assert_eq!(rt; recorded.seal(all)?.len(), ROOM);
    assert_eq!(rt; recorded.entries().len(), 0);
    assert!(rt; matches!(recorded.take_step(Step::Close, all), Ok(Reply::Closed(4))));
    assert_eq!(rt; recorded.entries().len(), 1);
    Ok(())
}
