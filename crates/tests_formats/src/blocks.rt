//! Seals, block pointers, dnodes, object sets and indirect blocks: what bytes are read as, where they are written again
//! as they were.

use crate::spelling::spelled;
use block_pointer::BlockPtr;
use dnode::{Dnode, Indirect, ObjectNode, ObjectSet, ObjectSetKind, levels_of};
use std::alloc::Global;
use std::test::Fail;
use words::{SEAL_LEN, check_seal};

/// The text of a pointer, and that of an indirect block with two.
const DATA: &str = "3/19088743/18 type 23 level 0 sectors 16 birth 2571 fill 1 \
    eeeeeeeeeeeeeeeeeeeeeeeeeeeeeeeeeeeeeeeeeeeeeeeeeeeeeeeeeeeeeeee, kept true";

const TWO: &str = "fill Some(6) of 128, kept true\n\
    1: 3/19088743/18 type 23 level 0 sectors 16 birth 2571 fill 1 \
    eeeeeeeeeeeeeeeeeeeeeeeeeeeeeeeeeeeeeeeeeeeeeeeeeeeeeeeeeeeeeeee\n\
    127: 3/19088743/18 type 23 level 1 sectors 32 birth 2571 fill 5 \
    eeeeeeeeeeeeeeeeeeeeeeeeeeeeeeeeeeeeeeeeeeeeeeeeeeeeeeeeeeeeeeee\n";

/// What is refused prints as one of these.
const NO_POINTER: &str = "the bytes spell no block pointer";

const NO_NODE: &str = "the bytes spell no block of a tree";

const OTHER_WORD: &str = "the word of the seal is another";

const OTHER_DIGEST: &str = "the digest of the area is another";

/// What bytes are, the bytes, and what is read.
pub(crate) const CASES: &[(&str, &str)] = &[
    // What stands before a seal; and seals of which a bit is turned.
    ("seal SEALED", "0000000000000000"),
    ("seal SEALED 0^01", OTHER_DIGEST),
    ("seal SEALED 7^01", OTHER_DIGEST),
    ("seal SEALED 8^01", OTHER_WORD),
    ("seal SEALED 15^01", OTHER_WORD),
    ("seal SEALED 47^01", OTHER_DIGEST),
    // An area that is sealed, over what stood at its end.
    (
        "bytes 00*40 01 00*7 seal",
        "0000000000000000117a0cb17ada1002\
        db94f7a088e82d292c717ca4ae97f5504af328e60077f574282125717b5818cc",
    ),
    // A pointer's copies, each with its device, its first sector and its sectors; and a hole.
    ("pointer DATA", DATA),
    ("pointer 00*128", "hole, kept true"),
    // No sectors are allocated.
    ("pointer DATA 0:00", NO_POINTER),
    // GRID is not zero.
    ("pointer DATA 3:01", NO_POINTER),
    // The gang bit is set.
    ("pointer DATA 15:80", NO_POINTER),
    // A place that is not used has an offset.
    ("pointer DATA 24:01", NO_POINTER),
    // A copy stands after a place that is not used.
    ("pointer DATA 32:12", NO_POINTER),
    // The logical size is not the physical one, and the other way round.
    ("pointer DATA 48:0e", NO_POINTER),
    ("pointer DATA 50:0e", NO_POINTER),
    // The compression is 3, the checksum is 7, the byte order is 0, the level is 6.
    ("pointer DATA 52:03", NO_POINTER),
    ("pointer DATA 53:07", NO_POINTER),
    ("pointer DATA 55:00", NO_POINTER),
    ("pointer DATA 55:86", NO_POINTER),
    // The first and the last word of padding are not zero.
    ("pointer DATA 56:01", NO_POINTER),
    ("pointer DATA 79:01", NO_POINTER),
    // The fill is 0; at level 0 it is 2, and above 1.
    ("pointer DATA 88:00", NO_POINTER),
    ("pointer DATA 88:02", NO_POINTER),
    ("pointer DATA 95:01", NO_POINTER),
    // There is no birth; and a hole has a bit.
    ("pointer DATA 80:00 81:00", NO_POINTER),
    ("pointer 00*127 01", NO_POINTER),
    // What changes nothing but what it says: a second copy, the type, the level, the checksum.
    (
        "pointer DATA 16:12",
        "3/19088743/18 0/0/18 type 23 level 0 sectors 16 birth 2571 fill 1 \
        eeeeeeeeeeeeeeeeeeeeeeeeeeeeeeeeeeeeeeeeeeeeeeeeeeeeeeeeeeeeeeee, kept true",
    ),
    (
        "pointer DATA 54:00",
        "3/19088743/18 type 0 level 0 sectors 16 birth 2571 fill 1 \
        eeeeeeeeeeeeeeeeeeeeeeeeeeeeeeeeeeeeeeeeeeeeeeeeeeeeeeeeeeeeeeee, kept true",
    ),
    (
        "pointer DATA 55:85",
        "3/19088743/18 type 23 level 5 sectors 16 birth 2571 fill 1 \
        eeeeeeeeeeeeeeeeeeeeeeeeeeeeeeeeeeeeeeeeeeeeeeeeeeeeeeeeeeeeeeee, kept true",
    ),
    (
        "pointer DATA 127:00",
        "3/19088743/18 type 23 level 0 sectors 16 birth 2571 fill 1 \
        eeeeeeeeeeeeeeeeeeeeeeeeeeeeeeeeeeeeeeeeeeeeeeeeeeeeeeeeeeeeee00, kept true",
    ),
    // The levels above a highest block.
    ("levels 0", "1"),
    ("levels 1", "2"),
    ("levels 127", "2"),
    ("levels 128", "3"),
    ("levels 16383", "3"),
    ("levels 16384", "4"),
    ("levels 2097152", "5"),
    ("levels 268435456", "6"),
    ("levels 34359738367", "6"),
    // An object of one block, one of 16,909,061 holes, and a free slot.
    (
        "dnode OBJECT",
        "type 23 sectors 16 highest 0 levels 1 root \
        3/19088743/18 type 23 level 0 sectors 16 birth 2571 fill 1 \
        eeeeeeeeeeeeeeeeeeeeeeeeeeeeeeeeeeeeeeeeeeeeeeeeeeeeeeeeeeeeeeee, kept true",
    ),
    (
        "dnode 170e050100080200 0001 00*6 04030201 00*492",
        "type 23 sectors 256 highest 16909060 levels 5 root hole, kept true",
    ),
    ("dnode 00*512", "free, kept true"),
    // The type is 0, and not the pointer's.
    ("dnode OBJECT 0:00", NO_NODE),
    ("dnode OBJECT 0:18", NO_NODE),
    // The indirect block shift is 13, there is a level too many, there are two pointers.
    ("dnode OBJECT 1:0d", NO_NODE),
    ("dnode OBJECT 2:02", NO_NODE),
    ("dnode OBJECT 3:02", NO_NODE),
    // There is a bonus type, the checksum is 7, the compression is 3, the byte behind it is not zero.
    ("dnode OBJECT 4:01", NO_NODE),
    ("dnode OBJECT 5:07", NO_NODE),
    ("dnode OBJECT 6:03", NO_NODE),
    ("dnode OBJECT 7:01", NO_NODE),
    // A data block has no sectors, is not as long as the pointer's, has more than 256 sectors.
    ("dnode OBJECT 8:00", NO_NODE),
    ("dnode OBJECT 8:11", NO_NODE),
    ("dnode OBJECT 9:01", NO_NODE),
    // There is a bonus, and a byte behind its length is not zero.
    ("dnode OBJECT 10:01", NO_NODE),
    ("dnode OBJECT 12:01", NO_NODE),
    // The highest block needs two levels, and seven.
    ("dnode OBJECT 16:01", NO_NODE),
    ("dnode OBJECT 20:08", NO_NODE),
    // The used space is told, and the last byte before the pointer is not zero.
    ("dnode OBJECT 24:01", NO_NODE),
    ("dnode OBJECT 63:01", NO_NODE),
    // The pointer's type is another, and its level is 1.
    ("dnode OBJECT 118:18", NO_NODE),
    ("dnode OBJECT 119:81", NO_NODE),
    // The first byte behind the pointer, and the last one, are not zero.
    ("dnode OBJECT 192:01", NO_NODE),
    ("dnode OBJECT 511:01", NO_NODE),
    // The object set of a pool, and of a volume.
    (
        "set SET",
        "meta of 64, type 10 sectors 32 highest 1 levels 2 root hole, kept true",
    ),
    (
        "set SET 512:03 520:02",
        "volume of 2, type 10 sectors 32 highest 1 levels 2 root hole, kept true",
    ),
    // There is no object of dnodes; its type is another; it is none; its blocks are short.
    ("set SET 0:00", NO_NODE),
    ("set SET 0:17", NO_NODE),
    ("set SET 1:0d", NO_NODE),
    ("set SET 8:10", NO_NODE),
    // The kind is 2, and above 3.
    ("set SET 512:02", NO_NODE),
    ("set SET 513:01", NO_NODE),
    // There are no objects, and more than dnodes.
    ("set SET 520:00", NO_NODE),
    ("set SET 520:41", NO_NODE),
    // The first byte behind the fields, and the last one, are not zero.
    ("set SET 528:01", NO_NODE),
    ("set SET 1023:01", NO_NODE),
    // An indirect block with pointers at 1 and 127.
    ("indirect TWO", TWO),
    // A byte is missing, there is a byte more, the last pointer is none.
    ("indirect 00*16383", NO_NODE),
    ("indirect 00*16385", NO_NODE),
    ("indirect 00*16383 01", NO_NODE),
    // An indirect block of holes in which two pointers are set: its fills, and whether it is written as these bytes.
    (
        "holes 1 DATA; 127 TOP = TWO",
        "Some(0) Some(1) Some(6) true",
    ),
    // A fill that is too great has no sum.
    (
        "holes 0 TOP 88:ff 89:ff 90:ff 91:ff 92:ff 93:ff 94:ff 95:ff; 5 DATA = \
        TOP 88:ff 89:ff 90:ff 91:ff 92:ff 93:ff 94:ff 95:ff 00*512 \
        12 00*3 03 00*3 67452301 00*36 0f000f0002081780 00*24 0b0a 00*6 01 00*7 ee*32 00*15616",
        "Some(0) Some(18446744073709551615) None true",
    ),
];

/// A pointer's copies and its properties.
fn pointer_text(alloc: Global, pointer: &BlockPtr) -> Result<String, Fail> {
    let mut text = String::new(alloc);
    let BlockPtr::Block(block) = pointer else {
        text.push_str(if pointer.is_hole() { "hole" } else { "none" })?;
        return Ok(text);
    };
    for copy in 0..3 {
        if let Some(dva) = block.copies.get(copy) {
            write!(text, "{}/{}/{} ", dva.vdev, dva.offset, dva.allocated)?;
        }
    }
    let property = block.property;
    write!(
        text,
        "type {} level {} sectors {} birth {} fill {} {}",
        property.object_type,
        property.level,
        property.sectors,
        block.birth,
        block.fill,
        hex::encode(alloc, block.checksum.as_slice())?
    )?;
    Ok(text)
}

fn node_text(alloc: Global, node: &ObjectNode) -> Result<String, Fail> {
    let levels = if node.highest < 34_359_738_368 {
        node.levels()
    } else {
        0
    };
    let root = pointer_text(alloc, &node.pointer)?;
    Ok(format!(in alloc;
        "type {} sectors {} highest {} levels {levels} root {root}",
        node.object_type, node.data_sectors, node.highest
    )?)
}

/// What the bytes of an area, a pointer or an indirect block are read as: of a block its fill, how many pointers it has,
/// and those that are no holes.
fn read(alloc: Global, verb: &str, bytes: &[u8]) -> Result<String, Fail> {
    if verb == "bytes" {
        return Ok(hex::encode(alloc, bytes)?);
    }
    if verb == "seal" && bytes.len() >= SEAL_LEN {
        return match check_seal(bytes) {
            Ok(front) => Ok(hex::encode(alloc, front)?),
            Err(fault) => Ok(format!(in alloc; "{fault}")?),
        };
    }
    if let ("pointer", Some(block)) = (verb, bytes.first_chunk::<128>()) {
        return match block_pointer::decode(block) {
            Ok(pointer) => {
                let is_kept = block_pointer::encode(&pointer) == *block;
                let text = pointer_text(alloc, &pointer)?;
                Ok(format!(in alloc; "{text}, kept {is_kept}")?)
            }
            Err(refusal) => Ok(format!(in alloc; "{refusal}")?),
        };
    }
    let block = match Indirect::decode(alloc, bytes) {
        Ok(block) => block,
        Err(refusal) => return Ok(format!(in alloc; "{refusal}")?),
    };
    let is_kept = block.encode(alloc)?.as_slice() == bytes;
    let count = block.pointers().len();
    let mut text = format!(in alloc; "fill {:?} of {count}, kept {is_kept}\n", block.fill())?;
    for place in 0..128 {
        let pointer = block.get(place);
        if !pointer.is_hole() {
            writeln!(text, "{place}: {}", pointer_text(alloc, &pointer)?)?;
        }
    }
    Ok(text)
}

/// What the bytes of a dnode, or else of an object set, are read as.
fn read_node(alloc: Global, verb: &str, bytes: &[u8]) -> Result<String, Fail> {
    if let ("dnode", Some(node)) = (verb, bytes.first_chunk::<512>()) {
        return match Dnode::decode(node) {
            Ok(Dnode::Object(it)) => {
                let is_kept = Dnode::Object(it).encode() == *node;
                Ok(format!(in alloc; "{}, kept {is_kept}", node_text(alloc, &it)?)?)
            }
            Ok(Dnode::Free) => {
                let is_kept = Dnode::Free.encode() == *node;
                Ok(format!(in alloc; "free, kept {is_kept}")?)
            }
            Err(refusal) => Ok(format!(in alloc; "{refusal}")?),
        };
    }
    let Some(block) = bytes.first_chunk::<1024>() else {
        return Ok(String::new(alloc));
    };
    match ObjectSet::decode(block) {
        Ok(set) => {
            let kind = match set.kind {
                ObjectSetKind::Meta => "meta",
                ObjectSetKind::Volume => "volume",
            };
            let is_kept = set.encode() == *block;
            let node = node_text(alloc, &set.dnodes)?;
            Ok(format!(in alloc; "{kind} of {}, {node}, kept {is_kept}", set.objects)?)
        }
        Err(refusal) => Ok(format!(in alloc; "{refusal}")?),
    }
}

/// The fills of an indirect block of holes in which pointers are set one after the other, and whether it is then written
/// as wanted.
fn built(alloc: Global, line: &str) -> Result<String, Fail> {
    let (pointers, wanted) = line.split_once(" = ").unwrap_or((line, ""));
    let wanted = spelled(alloc, wanted)?;
    let mut block = Indirect::holes(alloc)?;
    let mut text = format!(in alloc; "{:?} ", block.fill())?;
    for pointer in pointers.split("; ") {
        let (place, words) = pointer.split_once(" ").unwrap_or((pointer, ""));
        let place = place.parse::<usize>()?.min(127);
        if let Some(pointer) = spelled(alloc, words)?.first_chunk::<128>() {
            block.set(place, block_pointer::decode(pointer)?);
        }
        write!(text, "{:?} ", block.fill())?;
    }
    let is_wanted = block.encode(alloc)?.as_slice() == wanted.as_slice();
    write!(text, "{is_wanted}")?;
    Ok(text)
}

pub(crate) fn answer(alloc: Global, line: &str) -> Result<String, Fail> {
    let (verb, words) = line.split_once(" ").unwrap_or((line, ""));
    match verb {
        "levels" => {
            let highest = words.parse::<u64>()?.min(34_359_738_367);
            Ok(format!(in alloc; "{}", levels_of(highest))?)
        }
        "holes" => built(alloc, words),
        "dnode" | "set" => read_node(alloc, verb, &spelled(alloc, words)?),
        _ => read(alloc, verb, &spelled(alloc, words)?),
    }
}
