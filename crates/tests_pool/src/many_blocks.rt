//! A volume of thousands of blocks, with indirect blocks below another: written by three groups, and read under each of them with
//! disks missing.
use crate::making::wrong_in;
use std::alloc::{AllocError, Global};
use std::test::Fail;

/// A pool of one vdev over four disks, of which each block can lose two. Group 5 writes the whole volume, by two writes. An indirect
/// block has 128 pointers: 19 of them point to the 2,432 blocks of the volume, and one to these 19.
const WHOLE: &str = "pool 2 4 8388608 12 1
hold 1 -> held 4
create 1 1 v 1245184 512 -> receipt 4
release 1 -> released
sync -> committed 4
hold 1 -> held 5
write 1 2 v 0 1048576 51 -> receipt 5
write 1 3 v 1048576 196608 52 -> receipt 5
release 1 -> released
sync -> committed 5
hold 1 -> held 6
";

/// Which blocks the later groups write, each by a write of its own: the group, the block, and what all its bytes are. Group 6 writes
/// over the border of each two indirect blocks and more at one, group 7 there too, between borders, and up to the end.
const WRITTEN: [(u64, u64, u8); 48] = [
    (6, 127, 133),
    (6, 128, 134),
    (6, 255, 20),
    (6, 256, 21),
    (6, 383, 148),
    (6, 384, 149),
    (6, 511, 35),
    (6, 512, 36),
    (6, 639, 163),
    (6, 640, 164),
    (6, 767, 50),
    (6, 768, 51),
    (6, 895, 178),
    (6, 896, 179),
    (6, 1023, 65),
    (6, 1024, 66),
    (6, 1151, 193),
    (6, 1152, 194),
    (6, 1279, 80),
    (6, 1280, 81),
    (6, 1407, 208),
    (6, 1408, 209),
    (6, 1535, 95),
    (6, 1536, 96),
    (6, 1663, 223),
    (6, 1664, 224),
    (6, 1791, 110),
    (6, 1792, 111),
    (6, 1919, 238),
    (6, 1920, 239),
    (6, 2047, 125),
    (6, 2048, 126),
    (6, 2175, 12),
    (6, 2176, 13),
    (6, 2303, 140),
    (6, 2304, 141),
    (6, 1021, 63),
    (6, 1022, 64),
    (6, 1023, 65),
    (6, 1024, 66),
    (6, 1025, 67),
    (7, 1023, 66),
    (7, 1024, 67),
    (7, 60, 67),
    (7, 61, 68),
    (7, 62, 69),
    (7, 2430, 27),
    (7, 2431, 28),
];

const NEXT: &str = "release 1 -> released
sync -> committed 6
hold 1 -> held 7
";

/// With three disks missing a read is refused: so those that are named are missing.
const END: &str = "missing 0 1 2
under 7 v 0 1 -> refused 2 DiskFault
";

/// Reads under each group: over the borders at blocks 1024, 128 and 2048, of which the last begins what the second write wrote, between
/// borders, and up to the end. Each reads other ranges.
const READS: [&str; 5] = [
    "under 5 v 523364 1000 -> 51x1000
under 6 v 65324 600 -> 85x212 86x388
under 7 v 1048575 500 -> 7dx1 7ex499
",
    "under 5 v 65324 600 -> 51x600
under 6 v 1048575 500 -> 7dx1 7ex499
under 7 v 31756 1000 -> 45x500 51x500
",
    "under 5 v 1048575 500 -> 51x1 52x499
under 6 v 31756 1000 -> 51x1000
under 7 v 1244170 1014 -> 1bx502 1cx512
",
    "under 5 v 31756 1000 -> 51x1000
under 6 v 1244170 1014 -> 52x1014
under 7 v 523364 1000 -> 40x412 42x512 43x76
",
    "under 5 v 1244170 1014 -> 52x1014
under 6 v 523364 1000 -> 40x412 41x512 42x76
under 7 v 65324 600 -> 85x212 86x388
",
];

/// The disks that are missing.
const MISSING: [&str; 11] = [
    "", "0", "1", "2", "3", "0 1", "0 2", "0 3", "1 2", "1 3", "2 3",
];

/// The lines that write the volume.
fn writes(alloc: Global) -> Result<String, AllocError> {
    let mut text = String::from_str(alloc, WHOLE)?;
    let mut open = 6u64;
    for (index, &(group, block, value)) in WRITTEN.iter().enumerate() {
        if group != open {
            text.push_str(NEXT)?;
            open = group;
        }
        let (number, offset) = (index.saturating_add(4), block.saturating_mul(512));
        let line = format!(in alloc;
            "write 1 {number} v {offset} 512 {value:02x} -> receipt {group}\n"
        )?;
        text.push_str(line.as_str())?;
    }
    text.push_str("release 1 -> released\nsync -> committed 7\n")?;
    Ok(text)
}

/// The lines that read it under each group, with disks missing.
fn reads(alloc: Global) -> Result<String, AllocError> {
    let mut text = String::new(alloc);
    for (place, missing) in MISSING.iter().enumerate() {
        let reads = READS[place % 5];
        text.push_str(format!(in alloc; "missing {missing}\n{reads}")?.as_str())?;
    }
    text.push_str(END)?;
    Ok(text)
}

#[test]
fn many_blocks_are_read_with_disks_missing(rt: HostRuntime) -> Result<(), Fail> {
    let (writes, reads) = (writes(rt.alloc())?, reads(rt.alloc())?);
    let text = format!(in rt.alloc(); "{writes}{reads}")?;
    let wrong = wrong_in(rt.alloc(), &[text.as_str()])?;
    assert!(rt; wrong.is_empty(), "{wrong}");
    Ok(())
}
