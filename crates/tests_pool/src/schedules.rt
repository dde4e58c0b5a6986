//! Schedules over disks that fail, and what is read with disks missing.
use crate::making::wrong_in;
use std::alloc::Global;
use std::test::Fail;

/// Blocks of two sectors, partly written by two groups, with each disk missing in turn, and with
/// two. The way to a volume lies on the disks: where too many are missing, a hole can't be read
/// either. Group 5 writes 93 columns: three of each of the three blocks of data; 18 of each
/// volume, whose indirect block, dnodes and set have two copies of three columns; and of the meta
/// object set, of which all has three copies, six of each record, which has one sector, 18 of
/// the dnodes and the set, and 18 of two space maps, of one block each: of the metaslab that has the
/// data and the first copies, and of the one that has the second copies. So group 6 writes 66, and group 7,
/// which changes no map, those nine of the set alone. A step makes four.
const PARTS_OF_BLOCKS: &str = "pool 1 3 8388608 12 2
hold 1 -> held 4
create 1 1 v 4096 1024 -> receipt 4
create 1 2 w 4096 1024 -> receipt 4
release 1 -> released
sync -> committed 4
missing 0 1 2
under 4 v 1020 8 -> refused 2 DiskFault
missing
under 4 v 1020 8 -> 00x8
hold 1 -> held 5
write 1 3 v 512 512 01 -> receipt 5
write 1 4 v 1024 512 01 -> receipt 5
write 1 5 w 2048 512 02 -> receipt 5
write 1 6 v 3584 1024 03 -> refused 11 OutOfRange
release 1 -> released
close -> closed 5
quiesced -> quiesced 5
plan -> planned 5
times 24 device -> moved Blocks
device -> moved BlocksFlush
times 3 device -> moved Slots
device -> committed 5
under 5 v 510 4 -> 00x2 01x2
under 5 v 1534 4 -> 01x2 00x2
missing 0
under 5 v 510 4 -> 00x2 01x2
under 5 v 1022 4 -> 01x4
under 5 v 1534 4 -> 01x2 00x2
missing 1
under 5 v 510 4 -> 00x2 01x2
under 5 v 1022 4 -> 01x4
under 5 v 1534 4 -> 01x2 00x2
missing 2
under 5 v 510 4 -> 00x2 01x2
under 5 v 1022 4 -> 01x4
under 5 v 1534 4 -> 01x2 00x2
missing 0 1
under 5 v 512 4 -> refused 2 DiskFault
under 5 v 2048 4 -> refused 2 DiskFault
missing
under 5 v 2048 4 -> 00x4
hold 1 -> held 6
write 1 6 v 1024 512 04 -> receipt 6
write 1 7 v 3072 1024 05 -> receipt 6
write 1 8 v 3072 512 06 -> receipt 6
release 1 -> released
close -> closed 6
quiesced -> quiesced 6
plan -> planned 6
times 17 device -> moved Blocks
device -> moved BlocksFlush
times 3 device -> moved Slots
device -> committed 6
under 6 v 1022 4 -> 01x2 04x2
under 6 v 1534 4 -> 04x2 00x2
under 6 v 3582 4 -> 06x2 05x2
under 5 v 1022 4 -> 01x4
close -> closed 7
quiesced -> quiesced 7
plan -> planned 7
times 3 device -> moved Blocks
device -> moved BlocksFlush
times 3 device -> moved Slots
device -> committed 7
under 7 v 3582 4 -> 06x2 05x2
under 7 w 2048 4 -> 02x4
";

/// Volumes that groups make and write, and volumes under the groups before.
const VOLUMES_OF_GROUPS: &str = "pool 1 3 8388608 12 2
hold 1 -> held 4
write 1 1 v 0 512 07 -> refused 8 NoSuchName
create 1 1 v 4096 1024 -> receipt 4
create 1 2 w 2048 512 -> receipt 4
write 1 3 v 0 512 07 -> refused 9 NotYet
release 1 -> released
sync -> committed 4
under 4 v 0 4 -> 00x4
under 4 vw 0 4 -> refused 8 NoSuchName
under 4 w 1536 513 -> refused 11 OutOfRange
hold 1 -> held 5
write 1 3 v 512 512 01 -> receipt 5
write 1 4 w 0 512 02 -> receipt 5
create 1 5 vw 512 512 -> receipt 5
release 1 -> released
sync -> committed 5
hold 1 -> held 6
write 1 6 v 1024 512 03 -> receipt 6
write 1 7 v 1024 512 04 -> receipt 6
write 1 8 vw 0 512 05 -> receipt 6
release 1 -> released
sync -> committed 6
under 6 v 510 4 -> 00x2 01x2
under 6 v 1022 4 -> 01x2 04x2
under 6 w 510 4 -> 02x2 00x2
under 6 vw 508 4 -> 05x4
under 5 v 1022 4 -> 01x2 00x2
under 5 vw 0 4 -> 00x4
under 4 w 0 4 -> 00x4
";

/// Two blocks with a column on each of five disks. Behind their ten columns group 5 writes 26 of
/// the volume, two copies of five of the indirect block and the dnodes and of three of the set,
/// and 60 of the meta object set, three copies of two of the record, of five of the dnodes, of
/// three of the set and of five of each of two space maps: 96 writes, and then five flushes, 20 slots and
/// five flushes.
const FIVE_DISKS: &str = "pool 1 5 8388608 12 2
device -> refused 13 NotNow
hold 1 -> held 4
create 1 1 v 8192 2048 -> receipt 4
release 1 -> released
sync -> committed 4
hold 1 -> held 5
write 1 2 v 512 512 07 -> receipt 5
write 1 3 v 1024 512 07 -> receipt 5
write 1 4 v 2048 512 07 -> receipt 5
release 1 -> released
close -> closed 5
quiesced -> quiesced 5
plan -> planned 5
plan -> refused 13 NotNow
times 24 device -> moved Blocks
times 2 device -> moved BlocksFlush
times 5 device -> moved Slots
device -> moved SlotsFlush
device -> committed 5
device -> refused 13 NotNow
under 5 v 511 2 -> 00x1 07x1
missing 0
under 5 v 511 1538 -> 00x1 07x1024 00x512 07x1
missing 1
under 5 v 511 1538 -> 00x1 07x1024 00x512 07x1
missing 2
under 5 v 511 1538 -> 00x1 07x1024 00x512 07x1
missing 3
under 5 v 511 1538 -> 00x1 07x1024 00x512 07x1
missing 4
under 5 v 511 1538 -> 00x1 07x1024 00x512 07x1
missing 1 3
under 5 v 511 2 -> refused 2 DiskFault
under 5 v 4096 2 -> refused 2 DiskFault
under 4 v 511 2 -> refused 2 DiskFault
under 3 v 511 2 -> refused 8 NoSuchName
missing
under 5 v 4096 2 -> 00x2
under 4 v 511 2 -> 00x2
under 3 v 511 2 -> refused 8 NoSuchName
under 5 v 8191 2 -> refused 11 OutOfRange
under 6 v 511 2 -> refused 17 GroupGone
";

/// The last three committed groups are kept.
const KEPT_GROUPS: &str = "pool 1 3 8388608 12 2
hold 1 -> held 4
create 1 1 v 4096 1024 -> receipt 4
release 1 -> released
sync -> committed 4
hold 1 -> held 5
write 1 2 v 512 512 05 -> receipt 5
release 1 -> released
sync -> committed 5
hold 1 -> held 6
write 1 3 v 512 512 06 -> receipt 6
release 1 -> released
sync -> committed 6
hold 1 -> held 7
write 1 4 v 512 512 07 -> receipt 7
release 1 -> released
sync -> committed 7
under 5 v 511 2 -> 00x1 05x1
under 6 v 511 2 -> 00x1 06x1
under 7 v 511 2 -> 00x1 07x1
under 0 v 511 2 -> refused 17 GroupGone
under 3 v 511 2 -> refused 17 GroupGone
under 4 v 511 2 -> refused 17 GroupGone
under 8 v 511 2 -> refused 17 GroupGone
";

/// Pending writes of the groups that are synced, waiting and open lie over committed bytes, or over zeros.
const PENDING_WRITES: &str = "pool 1 3 8388608 12 2
hold 1 -> held 4
create 1 1 v 8192 1024 -> receipt 4
read v 1022 4 -> 00x4
release 1 -> released
sync -> committed 4
hold 1 -> held 5
write 1 2 v 0 8192 03 -> receipt 5
release 1 -> released
sync -> committed 5
hold 1 -> held 6
write 1 3 v 0 1024 04 -> receipt 6
create 1 4 w 8192 512 -> receipt 6
release 1 -> released
close -> closed 6
quiesced -> quiesced 6
plan -> planned 6
hold 1 -> held 7
write 1 5 v 1024 1024 05 -> receipt 7
write 1 6 w 0 512 05 -> receipt 7
release 1 -> released
close -> closed 7
hold 1 -> held 8
write 1 7 v 512 1024 06 -> receipt 8
read v 510 4 -> 04x2 06x2
read v 1534 4 -> 06x2 05x2
read v 2046 4 -> 05x2 03x2
read w 510 4 -> 05x2 00x2
under 5 v 510 4 -> 03x4
";

/// Disk 1 fails its first write for group 5, behind 33 of blocks and four of slots for group 4, and disk 2 its first flush for
/// group 6, behind two for each group before: that is one disk too many. Groups 5 and 6 have 57 columns each, 18 of them of two space
/// maps, of which the other two disks have 38.
const LEFT_OUT: &str = "fault 1 write 37
fault 2 flush 4
pool 1 3 8388608 12 2
hold 1 -> held 4
create 1 1 v 4096 1024 -> receipt 4
release 1 -> released
sync -> committed 4
hold 1 -> held 5
write 1 2 v 512 512 05 -> receipt 5
release 1 -> released
close -> closed 5
quiesced -> quiesced 5
plan -> planned 5
device -> replan 1
device -> refused 13 NotNow
under 4 v 511 2 -> 00x2
plan -> planned 5
times 11 device -> moved Blocks
device -> moved BlocksFlush
times 2 device -> moved Slots
device -> committed 5
under 5 v 511 2 -> 00x1 05x1
hold 1 -> held 6
write 1 3 v 512 512 06 -> receipt 6
release 1 -> released
close -> closed 6
quiesced -> quiesced 6
plan -> planned 6
times 10 device -> moved Blocks
device -> refused 4 Suspended
device -> refused 4 Suspended
under 5 v 511 2 -> refused 2 DiskFault
under 6 v 511 2 -> refused 17 GroupGone
";

/// Each disk fails each call: a suspended pool gives holds back, and does nothing else.
const SUSPENDED: &str = "fault 0 from 0
fault 1 from 0
fault 2 from 0
pool 1 3 8388608 12 2
close -> closed 4
quiesced -> quiesced 4
plan -> planned 4
device -> replan 0
plan -> planned 4
device -> refused 4 Suspended
hold 1 -> refused 4 Suspended
release 1 -> refused 6 NoHold
device -> refused 4 Suspended
";

/// Two disks fail their first slot for group 5, behind 33 writes of blocks and four slots each for group 4, and 21 and 22 writes for
/// group 5: without the first the commit goes on, without the second the pool is suspended, and the group isn't committed.
const TOO_FEW_SLOTS: &str = "fault 0 write 58
fault 1 write 59
pool 1 3 8388608 12 2
hold 1 -> held 4
create 1 1 v 1024 512 -> receipt 4
release 1 -> released
sync -> committed 4
hold 1 -> held 5
write 1 2 v 0 512 07 -> receipt 5
write 1 3 v 512 512 08 -> receipt 5
release 1 -> released
close -> closed 5
quiesced -> quiesced 5
plan -> planned 5
times 16 device -> moved Blocks
device -> moved BlocksFlush
device -> moved Slots
device -> refused 4 Suspended
hold 1 -> refused 4 Suspended
read v 510 4 -> refused 2 DiskFault
read v 0 512 -> 07x512
under 4 v 510 4 -> refused 2 DiskFault
under 5 v 510 4 -> refused 17 GroupGone
";

/// Each disk fails each call behind group 4, for which each has 33 writes, a flush, four slots and a flush: what one pending write
/// has whole is read all the same, and a byte beside it isn't.
const COVERED: &str = "fault 0 from 39
fault 1 from 39
fault 2 from 39
pool 1 3 8388608 12 2
hold 1 -> held 4
create 1 1 v 2048 512 -> receipt 4
release 1 -> released
sync -> committed 4
hold 1 -> held 5
write 1 2 v 0 1024 07 -> receipt 5
write 1 3 v 512 512 08 -> receipt 5
release 1 -> released
read v 510 4 -> 07x2 08x2
read v 0 1024 -> 07x512 08x512
read v 1022 4 -> refused 2 DiskFault
read v 1020 4 -> 08x4
";

/// Each of the two metaslabs before the meta region has room for eight blocks with their parity. Behind
/// what groups 4 and 5 wrote there is room for six in the first, which has the block that is stored and
/// the first copies of all else, and for seven in the other: 14 blocks are one too many.
const FULL: &str = "pool 1 2 8388608 12 1
hold 1 -> held 4
create 1 1 v 4194304 131072 -> receipt 4
release 1 -> released
sync -> committed 4
hold 1 -> held 5
write 1 2 v 0 512 05 -> receipt 5
release 1 -> released
sync -> committed 5
hold 1 -> held 6
write 1 3 v 0 1048576 06 -> receipt 6
write 1 4 v 1048576 786432 06 -> receipt 6
release 1 -> released
sync -> refused 3 NoSpace
device -> refused 13 NotNow
commit -> refused 3 NoSpace
under 5 v 511 2 -> 05x1 00x1
read v 511 2 -> 06x2
";

/// The three metaslabs before the meta region have room for ten blocks each: for 30 of the 32 that are
/// written.
const ONE_VOLUME: &str = "pool 1 3 8388608 12 2
hold 1 -> held 4
create 1 1 v 4194304 131072 -> receipt 4
release 1 -> released
sync -> committed 4
hold 1 -> held 5
write 1 2 v 0 1048576 aa -> receipt 5
write 1 3 v 1048576 1048576 aa -> receipt 5
write 1 4 v 2097152 1048576 aa -> receipt 5
write 1 5 v 3145728 1048576 aa -> receipt 5
release 1 -> released
sync -> refused 3 NoSpace
read v 0 512 -> aax512
";

/// With 13 blocks it is full: what is above them lies in what is left behind them. The ninth
/// write of the plan to disk 1 fails, behind 62 for the groups before, six of each for two space maps, and the
/// next plan uses its room.
const JUST_ROOM: &str = "fault 1 write 70
pool 1 2 8388608 12 1
hold 1 -> held 4
create 1 1 v 4194304 131072 -> receipt 4
release 1 -> released
sync -> committed 4
hold 1 -> held 5
write 1 2 v 0 512 05 -> receipt 5
release 1 -> released
sync -> committed 5
hold 1 -> held 6
write 1 3 v 131072 1048576 06 -> receipt 6
write 1 4 v 1179648 655360 06 -> receipt 6
release 1 -> released
close -> closed 6
quiesced -> quiesced 6
plan -> planned 6
commit -> refused 13 NotNow
times 4 device -> moved Blocks
device -> replan 1
commit -> committed 6
under 6 v 511 2 -> 05x1 00x1
under 6 v 1703936 2 -> 06x2
under 5 v 1703936 2 -> 00x2
";

/// A volume of 12 blocks is written whole. Of the 14 for which its metaslabs had room, fewer than
/// 12 are left: none to write it once more, and the group before stays as it is.
const WRITTEN_TWICE: &str = "pool 1 2 8388608 12 1
hold 1 -> held 4
create 1 1 v 1572864 131072 -> receipt 4
release 1 -> released
sync -> committed 4
hold 1 -> held 5
write 1 2 v 0 1048576 aa -> receipt 5
write 1 3 v 1048576 524288 aa -> receipt 5
release 1 -> released
sync -> committed 5
read v 0 512 -> aax512
hold 1 -> held 6
write 1 4 v 0 1048576 bb -> receipt 6
write 1 5 v 1048576 524288 bb -> receipt 6
release 1 -> released
sync -> refused 3 NoSpace
device -> refused 13 NotNow
commit -> refused 3 NoSpace
read v 0 512 -> bbx512
under 5 v 0 512 -> aax512
under 5 v 1572352 512 -> aax512
under 6 v 0 512 -> refused 17 GroupGone
";

/// Two blocks of a volume of six are written again in each of 12 groups. Its metaslabs have room for 14, so what groups replace
/// is used again three groups later.
const ROOM_GIVEN_BACK: &str = "pool 1 2 8388608 12 1
hold 1 -> held 4
create 1 1 v 786432 131072 -> receipt 4
release 1 -> released
sync -> committed 4
hold 1 -> held 5
write 1 2 v 0 786432 aa -> receipt 5
release 1 -> released
sync -> committed 5
hold 1 -> held 6
write 1 3 v 131072 262144 06 -> receipt 6
release 1 -> released
sync -> committed 6
hold 1 -> held 7
write 1 4 v 131072 262144 07 -> receipt 7
release 1 -> released
sync -> committed 7
hold 1 -> held 8
write 1 5 v 131072 262144 08 -> receipt 8
release 1 -> released
sync -> committed 8
hold 1 -> held 9
write 1 6 v 131072 262144 09 -> receipt 9
release 1 -> released
sync -> committed 9
hold 1 -> held 10
write 1 7 v 131072 262144 0a -> receipt 10
release 1 -> released
sync -> committed 10
hold 1 -> held 11
write 1 8 v 131072 262144 0b -> receipt 11
release 1 -> released
sync -> committed 11
hold 1 -> held 12
write 1 9 v 131072 262144 0c -> receipt 12
release 1 -> released
sync -> committed 12
hold 1 -> held 13
write 1 10 v 131072 262144 0d -> receipt 13
release 1 -> released
sync -> committed 13
hold 1 -> held 14
write 1 11 v 131072 262144 0e -> receipt 14
release 1 -> released
sync -> committed 14
hold 1 -> held 15
write 1 12 v 131072 262144 0f -> receipt 15
release 1 -> released
sync -> committed 15
hold 1 -> held 16
write 1 13 v 131072 262144 10 -> receipt 16
release 1 -> released
sync -> committed 16
hold 1 -> held 17
write 1 14 v 131072 262144 11 -> receipt 17
release 1 -> released
sync -> committed 17
under 17 v 131071 2 -> aax1 11x1
under 16 v 393215 2 -> 10x1 aax1
under 15 v 131072 512 -> 0fx512
under 14 v 131072 512 -> refused 17 GroupGone
read v 785920 512 -> aax512
";

/// Two disks of a vdev with two parities are taken out, and its volume reads; with a third out it doesn't, and the pool is suspended, but
/// disks may be taken out still.
const TAKEN_OUT: &str = "pool 2 5 8388608 12 2
hold 1 -> held 4
create 1 1 v 8192 8192 -> receipt 4
release 1 -> released
sync -> committed 4
hold 1 -> held 5
write 1 2 v 0 8192 07 -> receipt 5
release 1 -> released
sync -> committed 5
out 0 -> out
out 0 -> refused 13 NotNow
out 5 -> refused 11 OutOfRange
out 1 -> out
read v 0 8192 -> 07x8192
hold 1 -> held 6
write 1 3 v 0 8192 08 -> receipt 6
release 1 -> released
sync -> committed 6
read v 0 8192 -> 08x8192
under 5 v 0 8192 -> 07x8192
out 2 -> out
read v 0 8192 -> refused 2 DiskFault
hold 9 -> refused 4 Suspended
out 3 -> out
out 2 -> refused 13 NotNow
";

/// The first group of a pool of three disks with one parity, and a write that waits to be planned.
const WAITING: &str = "pool 1 3 8388608 12 2
hold 1 -> held 4
create 1 1 v 1024 512 -> receipt 4
release 1 -> released
sync -> committed 4
hold 1 -> held 5
write 1 2 v 0 512 aa -> receipt 5
release 1 -> released
close -> closed 5
quiesced -> quiesced 5
";

/// Its plan, as far as its blocks are written, and as far as they are flushed.
const WRITTEN: &str = "plan -> planned 5
times 14 device -> moved Blocks
";

const FLUSHED: &str = "device -> moved BlocksFlush
";

/// A disk that is taken out before the slots drops the plan, and with the next one the group is committed.
const DROPPED: &str = "out 1 -> out
device -> refused 13 NotNow
plan -> planned 5
commit -> refused 13 NotNow
times 11 device -> moved Blocks
device -> moved BlocksFlush
times 2 device -> moved Slots
device -> committed 5
";

/// From the slots on the commit goes on without it.
const GONE_ON: &str = "out 1 -> out
plan -> refused 13 NotNow
times 2 device -> moved Slots
device -> committed 5
";

/// So it does where two of the disks' slots are written, and where all are.
const SOME_SLOTS: &str = "times 2 device -> moved Slots
out 2 -> out
device -> committed 5
";

const ALL_SLOTS: &str = "times 3 device -> moved Slots
out 0 -> out
device -> committed 5
";

/// Where nothing is left but the flush of that disk, the group is committed with no call.
const NO_CALL_LEFT: &str = "pool 2 5 8388608 12 2
close -> closed 4
quiesced -> quiesced 4
plan -> planned 4
times 22 device -> moved Blocks
times 2 device -> moved BlocksFlush
times 5 device -> moved Slots
device -> moved SlotsFlush
out 4 -> out
device -> committed 4
device -> refused 13 NotNow
";

/// The group reads without the disk, and the one before it; the next one is committed without it; and a second disk suspends the pool, also
/// in the middle of a commit.
const WITHOUT: &str = "device -> refused 13 NotNow
read v 0 1024 -> aax512 00x512
under 5 v 0 1024 -> aax512 00x512
under 4 v 0 1024 -> 00x1024
hold 1 -> held 6
write 1 3 v 512 512 bb -> receipt 6
release 1 -> released
sync -> committed 6
read v 0 1024 -> aax512 bbx512
hold 1 -> held 7
write 1 4 v 0 512 cc -> receipt 7
release 1 -> released
close -> closed 7
quiesced -> quiesced 7
plan -> planned 7
device -> moved Blocks
";

const SUSPENDED_BY: [&str; 3] = [
    "out 0 -> out\ndevice -> refused 4 Suspended\nplan -> refused 4 Suspended\nrelease 1 -> refused 6 NoHold\n",
    "out 1 -> out\ndevice -> refused 4 Suspended\nplan -> refused 4 Suspended\nrelease 1 -> refused 6 NoHold\n",
    "out 2 -> out\ndevice -> refused 4 Suspended\nplan -> refused 4 Suspended\nrelease 1 -> refused 6 NoHold\n",
];

/// Each moment of a commit at which a disk is taken out, what becomes of it, and a disk that is there still.
const MOMENTS: [(&[&str], usize); 6] = [
    (&["plan -> planned 5\n", DROPPED], 0),
    (&["plan -> planned 5\ndevice -> moved Blocks\n", DROPPED], 0),
    (&[WRITTEN, DROPPED], 0),
    (&[WRITTEN, FLUSHED, GONE_ON], 0),
    (&[WRITTEN, FLUSHED, SOME_SLOTS], 1),
    (&[WRITTEN, FLUSHED, ALL_SLOTS], 2),
];

/// What is replied otherwise where a disk is taken out at each of these moments.
fn wrong_at(alloc: Global, moments: &[(&[&str], usize)]) -> Result<String, Fail> {
    let mut wrong = String::new(alloc);
    for (lines, other) in moments {
        let mut text = String::from_str(alloc, WAITING)?;
        for part in *lines {
            text.push_str(part)?;
        }
        text.push_str(WITHOUT)?;
        text.push_str(SUSPENDED_BY.get(*other).copied().unwrap_or(""))?;
        wrong.push_str(wrong_in(alloc, &[text.as_str()])?.as_str())?;
    }
    Ok(wrong)
}

#[test]
fn disks_are_taken_out(rt: HostRuntime) -> Result<(), Fail> {
    let mut wrong = wrong_in(rt.alloc(), &[TAKEN_OUT, NO_CALL_LEFT])?;
    wrong.push_str(wrong_at(rt.alloc(), &MOMENTS)?.as_str())?;
    assert!(rt; wrong.is_empty(), "{wrong}");
    Ok(())
}

#[test]
fn groups_have_their_replies(rt: HostRuntime) -> Result<(), Fail> {
    let wrong = wrong_in(
        rt.alloc(),
        &[
            VOLUMES_OF_GROUPS,
            KEPT_GROUPS,
            PENDING_WRITES,
            PARTS_OF_BLOCKS,
            FIVE_DISKS,
        ],
    )?;
    assert!(rt; wrong.is_empty(), "{wrong}");
    Ok(())
}

#[test]
fn failing_disks_have_their_replies(rt: HostRuntime) -> Result<(), Fail> {
    let wrong = wrong_in(rt.alloc(), &[LEFT_OUT, SUSPENDED, TOO_FEW_SLOTS, COVERED])?;
    assert!(rt; wrong.is_empty(), "{wrong}");
    Ok(())
}

#[test]
fn a_full_pool_has_its_replies(rt: HostRuntime) -> Result<(), Fail> {
    let wrong = wrong_in(
        rt.alloc(),
        &[FULL, ONE_VOLUME, JUST_ROOM, WRITTEN_TWICE, ROOM_GIVEN_BACK],
    )?;
    assert!(rt; wrong.is_empty(), "{wrong}");
    Ok(())
}

/// Behind a schedule, that disk 0 is out: with another one missing nothing is read.
const NO_DISK_0: &str = "missing 1
under 5 v 510 4 -> refused 2 DiskFault
";

const NO_DISK_1: &str = "missing 2
under 5 v 510 4 -> refused 2 DiskFault
";

const NO_DISK_2: &str = "missing 0
under 5 v 510 4 -> refused 2 DiskFault
";

/// One call of one disk fails, and what is missing then. A write of blocks: for group 4 the disks have 33 of these each, for group 5
/// 21, 22 and 21, behind four of slots, of which six are for two space maps: the first on disk 0, one in the middle on disk 1, and
/// the last on disk 2, of each group. A write of a slot: the first on disk 0 for group 4, or the last on disk 2 for group 5. A flush:
/// the first for group 4, which is the call behind the writes of blocks, or the one behind its slots, or one of those for group 5.
const CALL_FAULTS: &[(&str, &str)] = &[
    ("fault 0 at 0\n", NO_DISK_0),
    ("fault 1 write 16\n", NO_DISK_1),
    ("fault 2 write 32\n", NO_DISK_2),
    ("fault 0 write 37\n", NO_DISK_0),
    ("fault 1 write 47\n", NO_DISK_1),
    ("fault 2 write 57\n", NO_DISK_2),
    ("fault 0 write 33\n", NO_DISK_0),
    ("fault 2 write 61\n", NO_DISK_2),
    ("fault 0 at 33\n", NO_DISK_0),
    ("fault 1 at 33\n", NO_DISK_1),
    ("fault 2 at 33\n", NO_DISK_2),
    ("fault 0 flush 1\n", NO_DISK_0),
    ("fault 1 flush 2\n", NO_DISK_1),
    ("fault 2 flush 3\n", NO_DISK_2),
];

/// One read of one disk fails. The disks have 3, 4 and 6 reads for what is pending, then 15, 8 and 22 for the plan of group 5, of which
/// 10, 1 and 11 are for the space maps, then 7, 6 and 4 under it, and 3, 4 and 6 under group 4: so each of these faults comes, the
/// first on the first read of a disk, and the last on the last. Those of number 16 are for the maps.
const READ_FAULTS: &[(&str, &str)] = &[
    ("fault 0 read 0\n", ""),
    ("fault 1 read 3\n", ""),
    ("fault 2 read 6\n", ""),
    ("fault 0 read 16\n", ""),
    ("fault 2 read 16\n", ""),
    ("fault 0 read 18\n", ""),
    ("fault 1 read 21\n", ""),
    ("fault 2 read 37\n", ""),
];

/// Behind it, two groups are committed all the same.
const COMMITTED_IN_SPITE: &str = "pool 1 3 8388608 12 2
hold 1 -> held 4
create 1 1 v 1024 512 -> receipt 4
write 1 2 v 0 512 01 -> refused 9 NotYet
release 1 -> released
sync -> committed 4
hold 1 -> held 5
write 1 2 v 0 512 07 -> receipt 5
write 1 3 v 512 512 08 -> receipt 5
release 1 -> released
read v 510 4 -> 07x2 08x2
sync -> committed 5
under 5 v 510 4 -> 07x2 08x2
under 4 v 510 4 -> 00x4
";

/// What is replied otherwise in the schedule behind each fault, with its own end.
fn wrong_behind(alloc: Global, faults: &[(&str, &str)]) -> Result<String, Fail> {
    let mut wrong = String::new(alloc);
    for (fault, end) in faults {
        let text = format!(in alloc; "{fault}{COMMITTED_IN_SPITE}{end}")?;
        wrong.push_str(wrong_in(alloc, &[text.as_str()])?.as_str())?;
    }
    Ok(wrong)
}

#[test]
fn a_call_of_a_disk_may_fail(rt: HostRuntime) -> Result<(), Fail> {
    let mut wrong = wrong_behind(rt.alloc(), CALL_FAULTS)?;
    wrong.push_str(wrong_behind(rt.alloc(), READ_FAULTS)?.as_str())?;
    assert!(rt; wrong.is_empty(), "{wrong}");
    Ok(())
}
