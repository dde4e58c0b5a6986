//! Pools on disks that are stopped and opened again.
use crate::telling::{expect_none, ran_otherwise, told_otherwise};
use programs::{Alone, PoolOnDisks, Workers};
use std::test::*;

/// A pool at group 8.
const EIGHT: &str = "pool 1 3 8388608 12 2 -> pool 3 claim 1
sync -> committed 4
sync -> committed 5
sync -> committed 6
sync -> committed 7
sync -> committed 8";

/// The first disk alone has the slot of group 9, and is left out; then no disk has that of the next one.
const STOPPED_TWICE: &str = "stop slots 1 -> stop
sync -> stopped
reopen 0 0 -> opened 8 claim 2
stop blocks -> stop
sync -> stopped
reopen 0 -> opened 8 claim 3
sync -> committed 9";

/// Two disks have the slot, so that one of them still shows it without the other.
const SLOTS_OF_TWO: &str = "stop slots 2 -> stop
sync -> stopped
reopen 0 0 -> opened 9 claim 2
reopen 0 -> opened 9 claim 3";

/// One disk has it, and shows it to all.
const SLOTS_OF_ONE: &str = "stop blocks -> stop
stop slots 1 -> stop
sync -> stopped
reopen 0 1 -> opened 9 claim 2";

/// None has it; a later stop replaces the one before, and a number that is no disk is no matter.
const SLOTS_OF_NONE: &str = "stop slots 3 -> stop
stop slots 0 -> stop
close -> closed 9
quiesced -> quiesced 9
commit -> stopped
reopen 0 -> opened 8 claim 2
reopen 0 0 1 -> refused 22 TooManyMissing
reopen 0 -> opened 8 claim 3";

/// All have it.
const SLOTS_OF_ALL: &str = "stop slots 7 -> stop
sync -> stopped
reopen 0 2 -> opened 9 claim 2";

/// A commit that is refused doesn't stop, and the next one does.
const REFUSED: &str = "stop blocks -> stop
commit -> refused 13 NotNow
sync -> stopped
reopen 0 -> opened 8 claim 2
sync -> committed 9
hold 1 -> held 10
reopen 0 -> opened 9 claim 3
hold 1 -> held 10";

/// A group back there is no volume, and a second one back no group is left.
const GONE_BACK: &str = "pool 1 3 8388608 12 2 -> pool 3 claim 1
hold 1 -> held 4
create 1 1 v 1024 512 -> receipt 4
release 1 -> released
sync -> committed 4
read v 0 512 -> 00x512
reopen 1 -> opened 3 claim 2
read v 0 512 -> refused 8 NoSuchName
reopen 1 -> refused 19 NoUberblock
reopen 0 -> opened 3 claim 3";

/// The first disk alone has the slot of group 9, and then the claim of it; without that disk the claim is taken again, and one more
/// with it.
const CLAIM_OF_ONE: &str = "stop slots 1 -> stop
sync -> stopped
stop claim 1 -> stop
reopen 0 -> stopped
reopen 0 0 -> opened 8 claim 3
reopen 0 -> opened 8 claim 4";

/// No slot has the claim, but the labels show it.
const CLAIM_OF_NONE: &str = "stop claim 0 -> stop
reopen 0 -> stopped
reopen 0 -> opened 8 claim 3";

/// All have it. A reopening that is refused doesn't stop, and the next one does.
const CLAIM_OF_ALL: &str = "stop claim 9 -> stop
reopen 0 0 1 -> refused 22 TooManyMissing
reopen 0 1 -> stopped
reopen 0 0 -> opened 8 claim 3
sync -> committed 9";

/// A clone is there again where the disks are opened again, and a group back, without one of them, it has what it had then; a later one
/// isn't there.
const CLONE_OPENED: &str = "pool 1 3 8388608 12 2 -> pool 3 claim 1
hold 1 -> held 4
create 1 1 v 1024 512 -> receipt 4
release 1 -> released
sync -> committed 4
hold 1 -> held 5
write 1 2 v 0 512 0a -> receipt 5
snapshot 1 3 v a -> receipt 5
clone 1 4 v@a w -> receipt 5
release 1 -> released
sync -> committed 5
reopen 0 -> opened 5 claim 2
read w 0 1024 -> 0ax512 00x512
hold 1 -> held 6
write 1 1 w 512 512 0b -> receipt 6
write 1 2 v 0 512 0c -> receipt 6
release 1 -> released
sync -> committed 6
hold 1 -> held 7
write 1 3 w 0 512 0d -> receipt 7
clone 1 4 v@a x -> receipt 7
release 1 -> released
sync -> committed 7
read w 0 1024 -> 0dx512 0bx512
reopen 1 1 -> opened 6 claim 3
read w 0 1024 -> 0ax512 0bx512
read v@a 0 1024 -> 0ax512 00x512
read v 0 1024 -> 0cx512 00x512
read x 0 1024 -> refused 8 NoSuchName
reopen 0 -> opened 6 claim 4
hold 1 -> held 7
clone 1 1 v@a w -> refused 10 Exists
clone 1 1 v@a x -> receipt 7
read x 0 1024 -> 0ax512 00x512";

/// What is destroyed is gone where the disks are opened again, and is there a group back, without one of them, if it was then; and an open
/// knows what has snapshots or clones.
const DESTROY_OPENED: &str = "pool 1 3 8388608 12 2 -> pool 3 claim 1
hold 1 -> held 4
create 1 1 v 1024 512 -> receipt 4
release 1 -> released
sync -> committed 4
hold 1 -> held 5
write 1 2 v 0 512 0a -> receipt 5
snapshot 1 3 v a -> receipt 5
clone 1 4 v@a w -> receipt 5
release 1 -> released
sync -> committed 5
reopen 0 -> opened 5 claim 2
hold 1 -> held 6
destroy 1 1 v@a -> refused 14 HasClones
destroy 1 1 v -> refused 15 HasSnapshots
destroy 1 1 w -> receipt 6
destroy 1 2 v@a -> receipt 6
release 1 -> released
sync -> committed 6
hold 1 -> held 7
destroy 1 3 v -> receipt 7
create 1 4 u 512 512 -> receipt 7
release 1 -> released
sync -> committed 7
read v 0 512 -> refused 8 NoSuchName
reopen 1 1 -> opened 6 claim 3
read v 0 1024 -> 0ax512 00x512
read v@a 0 512 -> refused 8 NoSuchName
read w 0 512 -> refused 8 NoSuchName
read u 0 512 -> refused 8 NoSuchName
hold 1 -> held 7
destroy 1 1 w -> refused 8 NoSuchName
destroy 1 1 v -> receipt 7
release 1 -> released
sync -> committed 7
read v 0 512 -> refused 8 NoSuchName";

/// A disk that was away missed a group: nothing of that group is read of it once it is back, by this open and by later ones, and where
/// another disk is away too what the group wrote is lost, and not wrong.
const MISSED_BY_ONE: &str = "pool 1 3 8388608 12 2 -> pool 3 claim 1
hold 1 -> held 4
create 1 1 v 4096 4096 -> receipt 4
release 1 -> released
sync -> committed 4
reopen 0 0 -> opened 4 claim 2
hold 1 -> held 5
write 1 1 v 0 4096 0b -> receipt 5
release 1 -> released
sync -> committed 5
reopen 0 -> opened 5 claim 3
read v 0 4096 -> 0bx4096
reopen 0 1 -> refused 2 DiskFault
reopen 0 2 -> refused 2 DiskFault
reopen 0 -> opened 5 claim 4
sync -> committed 6
reopen 0 -> opened 6 claim 5
read v 0 4096 -> 0bx4096
out 1 -> out
read v 0 4096 -> refused 2 DiskFault
reopen 0 0 -> opened 6 claim 6
read v 0 4096 -> 0bx4096
reopen 0 1 -> refused 2 DiskFault
reopen 0 2 -> refused 2 DiskFault
reopen 0 -> opened 6 claim 7
read v 0 4096 -> 0bx4096";

/// Behind a pool at group 8, rows that stop commits.
const STOPPED_COMMITS: [&[&str]; 6] = [
    &[EIGHT, STOPPED_TWICE],
    &[EIGHT, SLOTS_OF_ONE],
    &[EIGHT, SLOTS_OF_TWO],
    &[EIGHT, SLOTS_OF_NONE],
    &[EIGHT, SLOTS_OF_ALL],
    &[EIGHT, REFUSED],
];

/// Rows that stop claims, and some that go back.
const STOPPED_CLAIMS: [&[&str]; 7] = [
    &[EIGHT, CLAIM_OF_ONE],
    &[EIGHT, CLAIM_OF_NONE],
    &[EIGHT, CLAIM_OF_ALL],
    &[GONE_BACK],
    &[CLONE_OPENED],
    &[DESTROY_OPENED],
    &[MISSED_BY_ONE],
];

#[test]
fn commits_and_claims_are_stopped_and_groups_gone_back(rt: HostRuntime) -> Result<(), Fail> {
    let others = ran_otherwise::<PoolOnDisks, _>(&Alone, rt.alloc(), &STOPPED_COMMITS);
    expect_none(&rt, others)?;
    expect_none(
        &rt,
        ran_otherwise::<PoolOnDisks, _>(&Alone, rt.alloc(), &STOPPED_CLAIMS),
    )
}

#[test]
fn workers_plan_what_one_thread_plans(rt: HostRuntime) -> Result<(), Fail> {
    for workers in [1, 2, 4] {
        let planner = Workers::new(&rt, workers);
        for schedules in [&STOPPED_COMMITS[..], &STOPPED_CLAIMS[..]] {
            let others = ran_otherwise::<PoolOnDisks, _>(&planner, rt.alloc(), schedules);
            expect_none(&rt, others)?;
        }
    }
    Ok(())
}

/// What can't stand behind a stop, or at all: a disk that isn't there can't be left out.
const MISPLACED: [(&str, &str); 7] = [
    (
        "pool 1 3 8388608 12 2\nreopen 0 7\n",
        "pool 3 claim 1\npoolrun: line 2\n2",
    ),
    (
        "pool 1 3 8388608 12 2\nreopen 0 2\nreopen 0 1 3\nreopen 0\n",
        "pool 3 claim 1\nopened 3 claim 2\npoolrun: line 3\n2",
    ),
    (
        "pool 1 3 8388608 12 2\nreopen 0 0 1 2\nreopen 0\n",
        "pool 3 claim 1\nrefused 18 BadLabel tail\nopened 3 claim 2\n0",
    ),
    (
        "pool 1 3 8388608 12 2\nstop blocks\nsync\nstop blocks\nhold 1\n",
        "pool 3 claim 1\nstop\nstopped\nstop\npoolrun: line 5\n2",
    ),
    (
        "pool 1 3 8388608 12 2\nreopen 1\nreopen 0\npool 1 3 8388608 12 2\n",
        "pool 3 claim 1\nrefused 19 NoUberblock\nopened 3 claim 2\npoolrun: line 4\n2",
    ),
    (
        "pool 1 3 8388608 12 2\nreopen 1\nsync\n",
        "pool 3 claim 1\nrefused 19 NoUberblock\npoolrun: line 3\n2",
    ),
    (
        "pool 1 3 8388608 12 2\nstop claim 1\nreopen 0\nsync\n",
        "pool 3 claim 1\nstop\nstopped\npoolrun: line 4\n2",
    ),
];

#[test]
fn misplaced_lines_are_faults(rt: HostRuntime) -> Result<(), Fail> {
    expect_none(&rt, told_otherwise::<PoolOnDisks>(rt.alloc(), &MISPLACED))
}
