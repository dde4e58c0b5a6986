//! Blocks that are written again in each of many groups: what groups give back has to be used again.
use crate::making::wrong_in;
use std::alloc::{AllocError, Global};
use std::ops::Range;
use std::test::Fail;

/// A small pool: what a group gives back has to be used again, for the volume and for all that leads to it.
const BLOCK: &str = "pool 1 3 8388608 12 2
hold 1 -> held 4
create 1 1 v 1024 512 -> receipt 4
release 1 -> released
sync -> committed 4
";

/// What the last groups read as: each block is filled with the number of its group, and 200 groups write it, from group 5 on.
const END_OF_BLOCK: &str = "read v 0 1024 -> ccx512 00x512
under 204 v 0 512 -> ccx512
under 203 v 0 512 -> cbx512
under 202 v 0 512 -> cax512
under 201 v 0 512 -> refused 17 GroupGone
";

/// Seven blocks.
const PIECE_BYTES: u64 = 229376;

/// Where the pieces begin that groups overwrite, by the group's number modulo 14: those of groups that follow each other lie apart.
const PIECES: [u64; 14] = [
    0, 1146880, 2293760, 229376, 1376256, 2523136, 458752, 1605632, 2752512, 688128, 1835008,
    2981888, 917504, 2064384,
];

/// A volume of 98 blocks is written whole. A block of 32 KiB takes 64 sectors of data and 32 of parity, so each of the three metaslabs
/// of 4,096 sectors before the meta region has room for 42, all have for 126, and the volume takes more than three quarters of it.
///
/// Of their 12,288 sectors it takes 9,408. What leads to its blocks takes two copies of 48 sectors each of the indirect block
/// and of the dnodes, and two of 4 of the object set: 200 sectors. A piece takes 672, and comes with what leads to it anew:
/// so a group takes 872, and gives back as many, which the third group behind it can use again. As a group is planned,
/// what two groups before it gave back can't be used yet, so that with its own 872 there are 12,224 in use, and 64
/// are left: no room for one block more.
const WHOLE: &str = "pool 1 3 8388608 12 2
hold 1 -> held 4
create 1 1 v 3211264 32768 -> receipt 4
release 1 -> released
sync -> committed 4
hold 1 -> held 5
write 1 2 v 0 1048576 05 -> receipt 5
write 1 3 v 1048576 1048576 05 -> receipt 5
write 1 4 v 2097152 1048576 05 -> receipt 5
write 1 5 v 3145728 65536 05 -> receipt 5
release 1 -> released
sync -> committed 5
";

/// Two bytes on each side of the end of each piece but the last, behind 112 groups from group 6 on, so that each piece is written
/// eight times. The last group wrote piece 11, as group 103 did before it.
const END_OF_WHOLE: &str = "read v 229374 4 -> 70x2 73x2
read v 458750 4 -> 73x2 68x2
read v 688126 4 -> 68x2 6bx2
read v 917502 4 -> 6bx2 6ex2
read v 1146878 4 -> 6ex2 71x2
read v 1376254 4 -> 71x2 74x2
read v 1605630 4 -> 74x2 69x2
read v 1835006 4 -> 69x2 6cx2
read v 2064382 4 -> 6cx2 6fx2
read v 2293758 4 -> 6fx2 72x2
read v 2523134 4 -> 72x2 75x2
read v 2752510 4 -> 75x2 6ax2
read v 2981886 4 -> 6ax2 6dx2
under 117 v 2523136 229376 -> 75x229376
under 116 v 2523136 229376 -> 67x229376
under 115 v 2523136 229376 -> 67x229376
under 114 v 2523136 229376 -> refused 17 GroupGone
";

/// The lines of groups with one write each, of so many bytes: each has the number of the group. The first item has this number.
fn overwriting(
    alloc: Global,
    groups: Range<u64>,
    first: u64,
    pieces: &[u64],
    len: u64,
) -> Result<String, AllocError> {
    let mut text = String::new(alloc);
    let mut number = first;
    for group in groups {
        let offset = pieces.get((group % 14) as usize).copied().unwrap_or(0);
        let byte = group % 256;
        let lines = format!(in alloc;
            "hold 1 -> held {group}
write 1 {number} v {offset} {len} {byte:02x} -> receipt {group}
release 1 -> released
sync -> committed {group}
"
        )?;
        text.push_str(lines.as_str())?;
        number = number.saturating_add(1);
    }
    Ok(text)
}

#[test]
fn what_groups_give_back_is_used_again(rt: HostRuntime) -> Result<(), Fail> {
    let alloc = rt.alloc();
    let groups = overwriting(alloc, 5..205, 2, &[], 512)?;
    let block = format!(in alloc; "{BLOCK}{groups}{END_OF_BLOCK}")?;
    let groups = overwriting(alloc, 6..118, 6, &PIECES, PIECE_BYTES)?;
    let whole = format!(in alloc; "{WHOLE}{groups}{END_OF_WHOLE}")?;
    let wrong = wrong_in(alloc, &[block.as_str(), whole.as_str()])?;
    assert!(rt; wrong.is_empty(), "{wrong}");
    Ok(())
}
