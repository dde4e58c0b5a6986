//! Uberblocks, and the slots that they stand in.
ghost use Rattle.uberblock_ring.specs.Uberblock.{Fits};

use crate::spelling::{parse, spelled};
use block_pointer::{Block, Copies, Dva, Property};
use std::alloc::Global;
use std::test::Fail;
use uberblock_ring::*;
use words::LAST_COUNT;

/// A root in three copies, born in group 4.
const ROOT: Block = Block {
    copies: Copies::Three(
        Dva {
            vdev: 0,
            offset: 8,
            allocated: 12,
        },
        Dva {
            vdev: 0,
            offset: 4096,
            allocated: 12,
        },
        Dva {
            vdev: 1,
            offset: 20,
            allocated: 12,
        },
    ),
    property: Property {
        level: 0,
        object_type: 11,
        sectors: 2,
    },
    birth: 4,
    fill: 1,
    checksum: [0xee; 32],
};

const NO_DIGEST: [u8; 32] = [0xdd; 32];

/// What coreutils' `sha256sum` makes of the configuration that the labels have.
const DIGEST: [u8; 32] = [
    0x5c, 0xaf, 0xea, 0xdb, 0x29, 0xa5, 0x00, 0xca, 0xb3, 0x9c, 0xbc, 0x14, 0x49, 0x46, 0xf7, 0x48,
    0x2a, 0x05, 0x84, 0xe2, 0x7f, 0xeb, 0xf1, 0x25, 0x06, 0xed, 0x3a, 0x8c, 0x05, 0x29, 0x00, 0x9e,
];

/// And of the one where each disk has one sector more.
const LARGER: [u8; 32] = [
    0xf1, 0xbe, 0xf6, 0xab, 0xaa, 0xd0, 0xa4, 0xdf, 0xab, 0x1c, 0x3d, 0x60, 0x47, 0x4e, 0x97, 0xf5,
    0x47, 0x43, 0xc2, 0x92, 0x17, 0xd7, 0xd0, 0xf0, 0x83, 0x9c, 0xf7, 0xd4, 0xcb, 0x9d, 0x52, 0x63,
];

/// A sum of guids that no pool here has.
const NO_SUM: u64 = 0x0102_0304_0506_0708;

/// The names of uberblocks here.
const NAMES: [&str; 8] = [
    "plain",
    "next",
    "first",
    "second",
    "larger",
    "whole",
    "odd-config",
    "odd-sum",
];

const NONE: &str = "the slot has no uberblock";

pub(crate) const CASES: &[(&str, &str)] = &[
    // The slot of a group, and where it begins in a label.
    ("place 4", "4 135168"),
    ("place 130", "2 133120"),
    // An uberblock is read in its own slot.
    ("read 4: SLOT", "plain/1, kept true"),
    ("read 5: SLOT", NONE),
    ("read 132: SLOT", NONE),
    ("read 0: 00*1024", NONE),
    // The magic is another; as the slot is, and under a seal of its own.
    ("read 4: SLOT 0:0d", NONE),
    ("read 4: SLOT 0:0d seal", NONE),
    // The version is 2.
    ("read 4: SLOT 8:02", NONE),
    ("read 4: SLOT 8:02 seal", NONE),
    // The group is 0, another than the root's birth, too great.
    ("read 4: SLOT 16:00", NONE),
    ("read 4: SLOT 16:00 seal", NONE),
    ("read 4: SLOT 16:84", NONE),
    ("read 4: SLOT 16:84 seal", NONE),
    ("read 4: SLOT 23:80", NONE),
    ("read 4: SLOT 23:80 seal", NONE),
    // The root pointer is none, and a used place of it is empty.
    ("read 4: SLOT 40:00", NONE),
    ("read 4: SLOT 40:00 seal", NONE),
    ("read 4: SLOT 72:00", NONE),
    ("read 4: SLOT 72:00 seal", NONE),
    // Its type is 12, its level 1, its birth another.
    ("read 4: SLOT 94:0c", NONE),
    ("read 4: SLOT 94:0c seal", NONE),
    ("read 4: SLOT 95:81", NONE),
    ("read 4: SLOT 95:81 seal", NONE),
    ("read 4: SLOT 120:05", NONE),
    ("read 4: SLOT 120:05 seal", NONE),
    // The claim is 0, and too great.
    ("read 4: SLOT 168:00", NONE),
    ("read 4: SLOT 168:00 seal", NONE),
    ("read 4: SLOT 175:80", NONE),
    ("read 4: SLOT 175:80 seal", NONE),
    // The first byte behind the fields, and the last before the seal, are not zero.
    ("read 4: SLOT 208:01", NONE),
    ("read 4: SLOT 208:01 seal", NONE),
    ("read 4: SLOT 983:01", NONE),
    ("read 4: SLOT 983:01 seal", NONE),
    // The root has two copies, and is a hole.
    ("read 4: SLOT 72:00 76:00 80:00", NONE),
    ("read 4: SLOT 72:00 76:00 80:00 seal", NONE),
    (
        "read 4: 0cb1ba0000000000 0100000000000000 0400000000000000 0807060504030201 \
        0900000000000000 00*128 01 00*7 dd*32 00*776 117a0cb17ada1002 \
        17b6cbecc3bd226571a46cb2970116e6f4693f234a84be5c2bffb19a844e8e4c",
        NONE,
    ),
    (
        "read 4: 0cb1ba0000000000 0100000000000000 0400000000000000 0807060504030201 \
        0900000000000000 00*128 01 00*7 dd*32 00*816 seal",
        NONE,
    ),
    // Of uberblocks the best, of slots the highest, and what is so many groups before: the claim counts before the group.
    (
        "rank plain 1 0: plain 1, next 1",
        "next/1, Some(1), plain/1",
    ),
    (
        "rank plain 2 1: next 1, plain 1, plain 2",
        "plain/2, Some(2), none",
    ),
    // What is not there is not gone back to.
    ("rank next 1 2: none, plain 1", "plain/1, Some(1), none"),
    ("rank next 1 0: none", "none, None, none"),
];

/// The uberblock of this name under a claim: its group, its sum of guids and the digest of its configuration.
pub(crate) fn named(name: &str, claim: u64) -> Uberblock
    ensures { Fits result }
{
    let (group, guid_sum, config_digest) = match name {
        "next" => (5, NO_SUM, NO_DIGEST),
        "first" => (4, NO_SUM, DIGEST),
        "second" => (5, NO_SUM, DIGEST),
        "larger" => (5, NO_SUM, LARGER),
        "whole" => (4, 406, DIGEST),
        "odd-config" => (4, 406, NO_DIGEST),
        "odd-sum" => (4, 407, DIGEST),
        _ => (4, NO_SUM, NO_DIGEST),
    };
    Uberblock {
        group,
        guid_sum,
        timestamp: 9,
        root: Block {
            birth: group,
            ..ROOT
        },
        claim: claim.clamp(1, LAST_COUNT),
        config_digest,
    }
}

/// The name of what is that uberblock in each field, and its claim.
pub(crate) fn uberblock_text(alloc: Global, found: Option<&Uberblock>) -> Result<String, Fail> {
    let Some(found) = found else {
        return Ok(String::from_str(alloc, "none")?);
    };
    for name in &NAMES {
        if named(name, found.claim) == *found {
            return Ok(format!(in alloc; "{name}/{}", found.claim)?);
        }
    }
    Ok(String::from_str(alloc, "another")?)
}

/// Where the slot of a group is; or of uberblocks the best, of slots that have them the highest, and the one so many groups
/// before another; or what the bytes of a slot are read as.
pub(crate) fn answer(alloc: Global, line: &str) -> Result<String, Fail> {
    let (head, words) = line.split_once(": ").unwrap_or((line, ""));
    let step = parse(head);
    let [number, groups, _] = step.numbers;
    if step.verb == "place" {
        return Ok(format!(in alloc; "{} {}", slot_of(number), slot_offset(number))?);
    }
    if step.verb == "rank" {
        let mut slots = Vec::new(alloc);
        let mut there = Vec::new(alloc);
        for word in words.split(", ") {
            let it = parse(word);
            if it.verb == "none" {
                slots.push(None)?;
            } else {
                slots.push(Some(named(it.verb, it.numbers[0])))?;
                there.push(named(it.verb, it.numbers[0]))?;
            }
        }
        let best = uberblock_text(alloc, best(&there).as_ref())?;
        let before = rewound(&slots, &named(step.name, number), groups);
        let before = uberblock_text(alloc, before.as_ref())?;
        return Ok(format!(in alloc; "{best}, {:?}, {before}", highest(&slots))?);
    }
    let bytes = spelled(alloc, words)?;
    let Some(slot) = bytes.first_chunk::<1024>() else {
        return Ok(String::new(alloc));
    };
    match decode_slot((number % 256) as usize, slot) {
        Ok(uberblock) => {
            let is_kept = encode_slot(&uberblock) == *slot;
            let text = uberblock_text(alloc, Some(&uberblock))?;
            Ok(format!(in alloc; "{text}, kept {is_kept}")?)
        }
        Err(refusal) => Ok(format!(in alloc; "{refusal}")?),
    }
}
