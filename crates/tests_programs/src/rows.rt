//! Schedules with their whole output, against the machine in memory and the core over disks.
use crate::telling::{expect_none, ran_otherwise};
use model_disk::MemDisk;
use plain_machine::Machine;
use programs::{Alone, Core};
use std::test::Fail;

/// The pool's core over disks in memory.
type OverDisks = Core<MemDisk>;

/// A volume v of 1024 bytes, made in group 4, which is committed.
const FIRST: &str = "pool 1 3 8388608 12 2 -> pool 3 claim 1
hold 1 -> held 4
create 1 1 v 1024 512 -> receipt 4
write 1 2 v 0 512 aa -> refused 9 NotYet
release 1 -> released
sync -> committed 4
read v 0 1024 -> 00x1024
read v 0 0 -> empty
";

/// Behind it, two writers in two groups. The writes of the quiescing group land before those of the open one.
const TWO_GROUPS: &str = "hold 1 -> held 5
close -> closed 5
hold 2 -> held 6
write 2 1 v 0 512 01 -> receipt 6
write 1 2 v 0 512 02 -> receipt 5
release 1 -> released
quiesced -> quiesced 5
commit -> committed 5
read v 0 1024 -> 01x512 00x512
under 5 v 0 1024 -> 02x512 00x512
";

/// Behind it, the first causes of refusals.
const REFUSALS: &str = "hold 1 -> held 5
hold 1 -> refused 5 AlreadyHeld
write 1 3 v 0 512 01 -> refused 7 OutOfOrder 2
write 1 2 v 1 512 01 -> refused 12 Misaligned
write 1 2 v 1024 512 01 -> refused 11 OutOfRange
write 1 2 v 0 1048577 01 -> refused 12 Misaligned
write 1 2 v 0 1049088 01 -> refused 11 OutOfRange
write 1 2 v 0 18446744073709551615 01 -> refused 12 Misaligned
write 1 2 v 0 18446744073709551104 01 -> refused 11 OutOfRange
write 2 1 v 0 512 01 -> refused 6 NoHold
device -> refused 13 NotNow
close -> closed 5
close -> refused 13 NotNow
quiesced -> refused 13 NotNow
commit -> refused 13 NotNow
sync -> refused 13 NotNow
snapshot 1 2 v a -> refused 13 NotNow
write 1 2 v 512 512 01 -> receipt 5
release 1 -> released
quiesced -> quiesced 5
";

/// Behind those, a plan, and a commit: without disks, or the last step over them, which flushes
/// each behind its slots.
const PLANNED: &str = "plan -> planned 5
";

const COMMITTED: &str = "device -> committed 5
";

/// Steps between the two, which write four columns each.
const FIVE_WRITES: &str = "device -> moved Blocks
device -> moved Blocks
device -> moved Blocks
device -> moved Blocks
device -> moved Blocks
";

const SIX_WRITES: &str = "device -> moved Blocks
device -> moved Blocks
device -> moved Blocks
device -> moved Blocks
device -> moved Blocks
device -> moved Blocks
";

const TEN_WRITES: &str = "device -> moved Blocks
device -> moved Blocks
device -> moved Blocks
device -> moved Blocks
device -> moved Blocks
device -> moved Blocks
device -> moved Blocks
device -> moved Blocks
device -> moved Blocks
device -> moved Blocks
";

/// Behind the writes over three disks, what is due before the last step: a flush of each disk, and four slots on each.
const SLOTS: &str = "device -> moved BlocksFlush
device -> moved Slots
device -> moved Slots
device -> moved Slots
";

/// Behind it, groups 5 to 8 each write their number over the first sector.
const KEPT: &str = "hold 1 -> held 5
write 1 2 v 0 512 05 -> receipt 5
release 1 -> released
sync -> committed 5
hold 1 -> held 6
write 1 3 v 0 512 06 -> receipt 6
release 1 -> released
sync -> committed 6
hold 1 -> held 7
write 1 4 v 0 512 07 -> receipt 7
release 1 -> released
sync -> committed 7
hold 1 -> held 8
write 1 5 v 0 512 08 -> receipt 8
release 1 -> released
sync -> committed 8
under 8 v 0 512 -> 08x512
under 7 v 0 512 -> 07x512
under 6 v 0 512 -> 06x512
under 5 v 0 512 -> refused 17 GroupGone
";

/// Behind it, a snapshot of group 5 has all writes of that group and none of later ones, as it is taken and once it is committed.
const TAKEN: &str = "hold 1 -> held 5
snapshot 1 2 v a -> receipt 5
write 1 3 v 0 512 0a -> receipt 5
read v@a 0 1024 -> 0ax512 00x512
snapshot 1 4 v a -> refused 10 Exists
snapshot 1 4 v A -> refused 16 BadName
snapshot 1 4 w a -> refused 8 NoSuchName
snapshot 1 4 v@a b -> refused 8 NoSuchName
write 1 4 v@a 0 512 01 -> refused 8 NoSuchName
read v@a 512 513 -> refused 11 OutOfRange
release 1 -> released
sync -> committed 5
hold 1 -> held 6
write 1 4 v 0 512 0b -> receipt 6
read v@a 0 512 -> 0ax512
release 1 -> released
sync -> committed 6
read v@a 0 512 -> 0ax512
read v 0 512 -> 0bx512
under 6 v@a 0 512 -> 0ax512
under 5 v@a 0 512 -> 0ax512
under 5 v 0 512 -> 0ax512
under 4 v@a 0 512 -> refused 8 NoSuchName
";

/// Behind those, a snapshot of a quiescing group, while the open one is written to; and one of a volume that its group makes.
const TAKEN_AGAIN: &str = "hold 1 -> held 7
snapshot 1 5 v b -> receipt 7
create 1 6 w 512 512 -> receipt 7
snapshot 1 7 w b -> receipt 7
close -> closed 7
hold 2 -> held 8
write 2 1 v 512 512 0c -> receipt 8
read v@b 512 512 -> 00x512
write 1 8 v 512 512 0d -> receipt 7
read v@b 0 1024 -> 0bx512 0dx512
read v 0 1024 -> 0bx512 0cx512
release 1 -> released
quiesced -> quiesced 7
commit -> committed 7
release 2 -> released
read w@b 0 512 -> 00x512
sync -> committed 8
read v@b 0 1024 -> 0bx512 0dx512
read v 0 1024 -> 0bx512 0cx512
read v@a 0 1024 -> 0ax512 00x512
";

/// Behind the first ones, a clone of a committed snapshot: what it reads and takes, before it is committed and after.
const CLONED: &str = "hold 1 -> held 5
write 1 2 v 0 512 0a -> receipt 5
snapshot 1 3 v a -> receipt 5
release 1 -> released
sync -> committed 5
hold 1 -> held 6
write 1 4 v 0 512 0b -> receipt 6
clone 1 5 v@a w -> receipt 6
read w 0 512 -> 0ax512
read w 0 1024 -> 0ax512 00x512
read w 512 513 -> refused 11 OutOfRange
write 1 6 w 0 512 0c -> refused 9 NotYet
clone 1 6 v@b x -> refused 8 NoSuchName
clone 1 6 x x -> refused 8 NoSuchName
clone 1 6 v x -> refused 8 NoSuchName
clone 1 6 w x -> refused 8 NoSuchName
clone 1 6 v@a V -> refused 16 BadName
clone 1 6 v@a v@b -> refused 16 BadName
clone 1 6 v V -> refused 16 BadName
clone 1 6 v@a v -> refused 10 Exists
clone 1 6 v@a w -> refused 10 Exists
clone 1 6 v w -> refused 8 NoSuchName
clone 1 7 v@a V -> refused 7 OutOfOrder 6
clone 2 1 v@a x -> refused 6 NoHold
release 1 -> released
sync -> committed 6
read w 0 1024 -> 0ax512 00x512
read v 0 1024 -> 0bx512 00x512
under 6 w 0 1024 -> 0ax512 00x512
under 5 w 0 512 -> refused 8 NoSuchName
hold 1 -> held 7
write 1 6 w 512 512 0c -> receipt 7
read w 512 512 -> 0cx512
read w 0 1024 -> 0ax512 0cx512
release 1 -> released
sync -> committed 7
read w 0 1024 -> 0ax512 0cx512
read v 0 1024 -> 0bx512 00x512
read v@a 0 1024 -> 0ax512 00x512
under 7 w 0 1024 -> 0ax512 0cx512
under 6 w 0 1024 -> 0ax512 00x512
under 7 v@a 0 1024 -> 0ax512 00x512
";

/// Behind those, all in group 8: a snapshot and a clone of it, a snapshot of that and a clone of that one. The writes of the group
/// count for each of them, those that come behind it too, and those of group 9, which is open meanwhile, for none.
const CLONED_AT_ONCE: &str = "hold 1 -> held 8
write 1 7 v 0 512 0d -> receipt 8
snapshot 1 8 v b -> receipt 8
clone 1 9 v@b x -> receipt 8
read x 0 1024 -> 0dx512 00x512
snapshot 1 10 x c -> receipt 8
read x@c 0 1024 -> 0dx512 00x512
clone 1 11 x@c y -> receipt 8
read y 0 1024 -> 0dx512 00x512
write 1 12 v 512 512 0e -> receipt 8
read v 0 1024 -> 0dx512 0ex512
read v@b 0 1024 -> 0dx512 0ex512
read x 0 1024 -> 0dx512 0ex512
read x@c 0 1024 -> 0dx512 0ex512
read y 0 1024 -> 0dx512 0ex512
write 1 13 x 0 512 0f -> refused 9 NotYet
write 1 13 x@c 0 512 0f -> refused 8 NoSuchName
close -> closed 8
clone 1 13 v@b z -> refused 13 NotNow
clone 1 13 v V -> refused 13 NotNow
hold 2 -> held 9
write 2 1 v 0 512 11 -> receipt 9
write 2 2 x 512 512 12 -> receipt 9
clone 2 3 v@b z -> receipt 9
snapshot 2 4 x d -> receipt 9
clone 2 5 x@d u -> receipt 9
read z 0 1024 -> 0dx512 0ex512
read u 0 1024 -> 0dx512 12x512
write 1 13 v 0 512 13 -> receipt 8
read v 0 1024 -> 11x512 0ex512
read v@b 0 1024 -> 13x512 0ex512
read x 0 1024 -> 13x512 12x512
read x@c 0 1024 -> 13x512 0ex512
read x@d 0 1024 -> 13x512 12x512
read y 0 1024 -> 13x512 0ex512
read z 0 1024 -> 13x512 0ex512
read u 0 1024 -> 13x512 12x512
write 1 14 y 0 512 14 -> refused 9 NotYet
write 1 14 z 0 512 14 -> refused 9 NotYet
release 1 -> released
quiesced -> quiesced 8
commit -> committed 8
read x 0 1024 -> 13x512 12x512
read u 0 1024 -> 13x512 12x512
under 8 v 0 1024 -> 13x512 0ex512
under 8 x 0 1024 -> 13x512 0ex512
under 8 y 0 1024 -> 13x512 0ex512
under 8 u 0 1024 -> refused 8 NoSuchName
release 2 -> released
sync -> committed 9
read v 0 1024 -> 11x512 0ex512
read v@b 0 1024 -> 13x512 0ex512
read x 0 1024 -> 13x512 12x512
read x@c 0 1024 -> 13x512 0ex512
read x@d 0 1024 -> 13x512 12x512
read y 0 1024 -> 13x512 0ex512
read z 0 1024 -> 13x512 0ex512
read u 0 1024 -> 13x512 12x512
read w 0 1024 -> 0ax512 0cx512
under 8 x 0 1024 -> 13x512 0ex512
under 7 x 0 1024 -> refused 8 NoSuchName
";

/// Behind those, clones of clones while group 10 is planned, group 11 waits and group 12 is open.
const CLONED_IN_FLOW: &str = "hold 1 -> held 10
write 1 14 y 0 512 15 -> receipt 10
snapshot 1 15 y e -> receipt 10
clone 1 16 y@e q -> receipt 10
release 1 -> released
close -> closed 10
quiesced -> quiesced 10
plan -> planned 10
read q 0 1024 -> 15x512 0ex512
hold 1 -> held 11
write 1 17 q 512 512 16 -> receipt 11
snapshot 1 18 q f -> receipt 11
clone 1 19 q@f r -> receipt 11
read r 0 1024 -> 15x512 16x512
close -> closed 11
hold 2 -> held 12
write 2 6 r 0 512 17 -> receipt 12
write 2 7 q 0 512 18 -> receipt 12
clone 2 8 q@f s -> receipt 12
write 1 20 q 512 512 19 -> receipt 11
read y 0 1024 -> 15x512 0ex512
read y@e 0 1024 -> 15x512 0ex512
read q 0 1024 -> 18x512 19x512
read q@f 0 1024 -> 15x512 19x512
read r 0 1024 -> 17x512 19x512
read s 0 1024 -> 15x512 19x512
under 9 q 0 1024 -> refused 8 NoSuchName
";

/// Behind the first ones, what has snapshots or clones can't be destroyed. A clone, its snapshot and then the volume can, and are gone at
/// once, but are under the groups before; a new volume has the name then, and none of the old one's bytes.
const DESTROYED: &str = "hold 1 -> held 5
write 1 2 v 0 512 0a -> receipt 5
snapshot 1 3 v a -> receipt 5
clone 1 4 v@a w -> receipt 5
destroy 1 5 v@a -> refused 14 HasClones
destroy 1 5 v -> refused 15 HasSnapshots
destroy 1 5 x -> refused 8 NoSuchName
destroy 1 5 v@b -> refused 8 NoSuchName
destroy 1 5 V -> refused 16 BadName
destroy 1 5 v@A -> refused 16 BadName
destroy 1 5 v@a@b -> refused 16 BadName
destroy 1 6 V -> refused 7 OutOfOrder 5
destroy 2 1 v@a -> refused 6 NoHold
release 1 -> released
sync -> committed 5
hold 1 -> held 6
destroy 1 5 v@a -> refused 14 HasClones
destroy 1 5 v -> refused 15 HasSnapshots
write 1 5 w 0 512 0b -> receipt 6
destroy 1 6 w -> receipt 6
destroy 1 7 w -> refused 8 NoSuchName
read w 0 512 -> refused 8 NoSuchName
write 1 7 w 0 512 0c -> refused 8 NoSuchName
under 5 w 0 1024 -> 0ax512 00x512
destroy 1 7 v -> refused 15 HasSnapshots
destroy 1 7 v@a -> receipt 6
read v@a 0 512 -> refused 8 NoSuchName
read v 0 1024 -> 0ax512 00x512
destroy 1 8 v -> receipt 6
read v 0 512 -> refused 8 NoSuchName
create 1 9 v 512 512 -> receipt 6
read v 0 512 -> 00x512
write 1 10 v 0 512 0d -> refused 9 NotYet
release 1 -> released
sync -> committed 6
read v 0 512 -> 00x512
read v 0 1024 -> refused 11 OutOfRange
under 6 w 0 512 -> refused 8 NoSuchName
under 5 w 0 1024 -> 0ax512 00x512
under 5 v@a 0 1024 -> 0ax512 00x512
under 5 v 0 1024 -> 0ax512 00x512
";

/// Behind those, what is made and destroyed in one group, and what is made again: in the waiting group, and in the open one of what the
/// waiting one makes.
const DESTROYED_AT_ONCE: &str = "hold 1 -> held 7
write 1 10 v 0 512 0d -> receipt 7
snapshot 1 11 v a -> receipt 7
clone 1 12 v@a w -> receipt 7
destroy 1 13 w -> receipt 7
destroy 1 14 v@a -> receipt 7
snapshot 1 15 v a -> receipt 7
clone 1 16 v@a x -> receipt 7
close -> closed 7
destroy 1 17 x -> refused 13 NotNow
hold 2 -> held 8
write 2 1 v 0 512 0e -> receipt 8
destroy 2 2 x -> receipt 8
destroy 2 3 v@a -> receipt 8
snapshot 2 4 v a -> receipt 8
clone 2 5 v@a x -> receipt 8
read v@a 0 512 -> 0ex512
read x 0 512 -> 0ex512
write 1 17 x 0 512 0f -> refused 9 NotYet
write 1 17 v 0 512 0f -> receipt 7
read v 0 512 -> 0ex512
release 1 -> released
quiesced -> quiesced 7
commit -> committed 7
read x 0 512 -> 0ex512
under 7 x 0 512 -> 0fx512
under 7 v@a 0 512 -> 0fx512
under 7 w 0 512 -> refused 8 NoSuchName
release 2 -> released
sync -> committed 8
read x 0 512 -> 0ex512
read v@a 0 512 -> 0ex512
read v 0 512 -> 0ex512
under 7 x 0 512 -> 0fx512
";

/// Names are judged against all that is accepted, and each step by the first cause that applies.
const CAUSES: &str = "pool 1 3 8388608 12 2 -> pool 3 claim 1
device -> refused 13 NotNow
plan -> refused 13 NotNow
quiesced -> refused 13 NotNow
release 1 -> refused 6 NoHold
write 1 9 v 7 512 00 -> refused 6 NoHold
hold 1 -> held 4
hold 1 -> refused 5 AlreadyHeld
write 1 9 v 7 512 00 -> refused 7 OutOfOrder 1
write 1 1 v 7 512 00 -> refused 8 NoSuchName
create 1 1 v 1024 512 -> receipt 4
create 1 2 v 1024 512 -> refused 10 Exists
create 1 2 V 1024 512 -> refused 16 BadName
write 1 2 v 7 512 00 -> refused 9 NotYet
quiesced -> refused 13 NotNow
close -> closed 4
close -> refused 13 NotNow
create 1 2 w 1024 512 -> refused 13 NotNow
quiesced -> refused 13 NotNow
plan -> refused 13 NotNow
hold 2 -> held 5
create 2 1 v 1024 512 -> refused 10 Exists
write 2 1 v 7 512 00 -> refused 12 Misaligned
write 2 1 v 1024 512 00 -> refused 11 OutOfRange
write 2 1 v 512 512 03 -> receipt 5
read v 0 1025 -> refused 11 OutOfRange
read v 0 1024 -> 00x512 03x512
read v 510 4 -> 00x2 03x2
under 3 v 0 1 -> refused 8 NoSuchName
under 4 v 0 1 -> refused 17 GroupGone
quiesced -> refused 13 NotNow
release 1 -> released
release 1 -> refused 6 NoHold
quiesced -> quiesced 4
plan -> planned 4
plan -> refused 13 NotNow
";

/// The end of them.
const NO_CAUSES: &str = "device -> committed 4
device -> refused 13 NotNow
";

/// What the machine in memory replies.
const IN_MEMORY: [&[&str]; 8] = [
    &[FIRST],
    &[FIRST, TWO_GROUPS],
    &[FIRST, REFUSALS, PLANNED, COMMITTED],
    &[FIRST, KEPT],
    &[FIRST, TAKEN, TAKEN_AGAIN],
    &[FIRST, CLONED, CLONED_AT_ONCE, CLONED_IN_FLOW],
    &[FIRST, DESTROYED, DESTROYED_AT_ONCE],
    &[CAUSES, NO_CAUSES],
];

/// What the core replies. The block that is written in group 5 has two columns; the indirect
/// block above it, the volume's dnodes and its set two copies of three, which are 18; the record
/// three copies of two; the dnodes of the meta object set and that set three of three, which are
/// 18, and two space maps too, which are 18 more: 62 columns. Group 4 makes a volume and the first root,
/// with its maps: 99 columns.
const OVER_DISKS: [&[&str]; 8] = [
    &[FIRST],
    &[FIRST, TWO_GROUPS],
    &[
        FIRST, REFUSALS, PLANNED, TEN_WRITES, SIX_WRITES, SLOTS, COMMITTED,
    ],
    &[FIRST, KEPT],
    &[FIRST, TAKEN, TAKEN_AGAIN],
    &[FIRST, CLONED, CLONED_AT_ONCE, CLONED_IN_FLOW],
    &[FIRST, DESTROYED, DESTROYED_AT_ONCE],
    &[
        CAUSES,
        TEN_WRITES,
        TEN_WRITES,
        FIVE_WRITES,
        SLOTS,
        NO_CAUSES,
    ],
];

/// Pools that are made over disks, and those that are not.
const POOLS: [&[&str]; 8] = [
    &["pool 1 2 8388608 12 2 -> pool 3 claim 1\n"],
    &["pool 1 1 8388608 12 2 -> refused 24 BadConfig\n"],
    &["pool 3 5 8388608 12 2 -> refused 24 BadConfig\n"],
    &["pool 1 3 8388607 12 2 -> refused 24 BadConfig\n"],
    &["pool 1 3 8388608 12 0 -> refused 24 BadConfig\n"],
    &["pool 1 3 8388608 12 5 -> refused 24 BadConfig\n"],
    &["pool 1 3 8796093022208 20 2 -> refused 24 BadConfig\n"],
    &["pool 1 3 8796093022209 12 2 -> refused 24 BadConfig\n"],
];

#[test]
fn the_machine_in_memory_replies(rt: HostRuntime) -> Result<(), Fail> {
    expect_none(
        &rt,
        ran_otherwise::<Machine, _>(&Alone, rt.alloc(), &IN_MEMORY),
    )
}

#[test]
fn the_core_over_disks_replies(rt: HostRuntime) -> Result<(), Fail> {
    let others = ran_otherwise::<OverDisks, _>(&Alone, rt.alloc(), &OVER_DISKS);
    expect_none(&rt, others)?;
    expect_none(
        &rt,
        ran_otherwise::<OverDisks, _>(&Alone, rt.alloc(), &POOLS),
    )
}
