//! Bytes spelled in words.
use std::alloc::Global;
use std::test::Fail;
use words::seal;

/// The list of the first disk of a pool of one vdev with three disks of 8 MiB.
const LABEL_LIST: &str = "00000009
    00000005 'claim 000000 00000008 0000000000000001
    00000004 'guid 00000008 0000000000000065
    00000004 'name 00000009 00000004 'pool
    00000009 'pool_guid 000000 00000008 0000000000000001
    00000005 'state 000000 00000008 0000000000000000
    00000008 'top_guid 00000008 0000000000000064
    00000003 'txg 00 00000008 0000000000000002
    00000009 'vdev_tree 000000 00000013
    00000001
    00000008 'children 00000014 00000001
    00000009
    00000006 'ashift 0000 00000008 0000000000000009
    00000005 'asize 000000 00000008 0000000000001c00
    00000008 'children 00000014 00000003
    00000002 00000004 'guid 00000008 0000000000000065 00000002 'id 0000 00000008 0000000000000000
    00000002 00000004 'guid 00000008 0000000000000066 00000002 'id 0000 00000008 0000000000000001
    00000002 00000004 'guid 00000008 0000000000000067 00000002 'id 0000 00000008 0000000000000002
    00000004 'guid 00000008 0000000000000064
    00000002 'id 0000 00000008 0000000000000000
    0000000a 'meta_slabs 0000 00000008 0000000000000001
    00000008 'ms_shift 00000008 000000000000000c
    00000007 'nparity 00 00000008 0000000000000001
    00000004 'type 00000009 00000005 'raidz 000000
    00000007 'version 00 00000008 0000000000000001";

/// The configuration of that pool.
const CONFIG: &str = "00000001
    00000008 'children 00000014 00000001
    00000009
    00000006 'ashift 0000 00000008 0000000000000009
    00000005 'asize 000000 00000008 0000000000001c00
    00000008 'children 00000014 00000003
    00000002 00000004 'guid 00000008 0000000000000065 00000002 'id 0000 00000008 0000000000000000
    00000002 00000004 'guid 00000008 0000000000000066 00000002 'id 0000 00000008 0000000000000001
    00000002 00000004 'guid 00000008 0000000000000067 00000002 'id 0000 00000008 0000000000000002
    00000004 'guid 00000008 0000000000000064
    00000002 'id 0000 00000008 0000000000000000
    0000000a 'meta_slabs 0000 00000008 0000000000000001
    00000008 'ms_shift 00000008 000000000000000c
    00000007 'nparity 00 00000008 0000000000000001
    00000004 'type 00000009 00000005 'raidz 000000";

/// A list with one pair, txg = 4.
const ONE_PAIR: &str = "00000001 00000003 'txg 00 00000008 0000000000000004";

/// A list with a pair of each type: a number, a text, a list and two lists, one of them empty.
const EACH_TYPE: &str = "00000004
    00000001 'a 000000 00000008 0102030405060708
    00000002 'ab 0000 00000009 00000005 'raidz 000000
    00000001 'b 000000 00000013 00000001 00000001 'x 000000 00000008 0000000000000007
    00000001 'c 000000 00000014 00000002
    00000000
    00000001 00000001 'y 000000 00000008 0000000000000009";

/// A pointer to an 8 KiB block of type 23 at level 0, with one copy, on device 3.
const DATA: &str = "12 00*3 03 00*3 67452301 00*36 0f000f0002081780 00*24 0b0a 00*6 01 00*7 ee*32";

/// A pointer to an indirect block above data of type 23, with 5 of its blocks there.
const TOP: &str = "12 00*3 03 00*3 67452301 00*36 1f001f0002081781 00*24 0b0a 00*6 05 00*7 ee*32";

/// An object of one block, that of the pointer to data.
const OBJECT: &str = "170e010100080200 10 00*55
    12 00*3 03 00*3 67452301 00*36 0f000f0002081780 00*24 0b0a 00*6 01 00*7 ee*32 00*320";

/// An object set of a pool, with room for 64 objects.
const SET: &str = "0a0e020100080200 20 00*7 01 00*495 01 00*7 40 00*503";

/// Two pointers of an indirect block, at 1 and 127.
const TWO: &str = "00*128
    12 00*3 03 00*3 67452301 00*36 0f000f0002081780 00*24 0b0a 00*6 01 00*7 ee*32 00*16000
    12 00*3 03 00*3 67452301 00*36 1f001f0002081781 00*24 0b0a 00*6 05 00*7 ee*32";

/// The slot of the uberblock `plain`, with the digest that coreutils' `sha256sum` gives.
const SLOT: &str = "0cb1ba0000000000 0100000000000000 0400000000000000 0807060504030201
    0900000000000000
    0c00000000000000 0800000000000000 0c00000000000000 0010000000000000 0c00000001000000
    1400000000000000 0100010002080b80 00*24 04 00*7 01 00*7 ee*32
    01 00*7 dd*32 00*776 117a0cb17ada1002
    17b6cbecc3bd226571a46cb2970116e6f4693f234a84be5c2bffb19a844e8e4c";

/// A sealed area, with the digest that coreutils' `sha256sum` makes of eight zeros, the word of a seal and 32
/// zeros.
const SEALED: &str = "00*8 117a0cb17ada1002
    db94f7a088e82d292c717ca4ae97f5504af328e60077f574282125717b5818cc";

/// What a line may begin with in place of the bytes themselves.
const NAMED: [(&str, &str); 11] = [
    ("LABEL", LABEL_LIST),
    ("CONFIG", CONFIG),
    ("ONE", ONE_PAIR),
    ("EACH", EACH_TYPE),
    ("DATA", DATA),
    ("TOP", TOP),
    ("OBJECT", OBJECT),
    ("SET", SET),
    ("TWO", TWO),
    ("SLOT", SLOT),
    ("SEALED", SEALED),
];

/// Adds what a word spells, or changes what is there.
///
/// `0a0b` are bytes, `ab*512` is one of them 512 times, and `'text` has the bytes of the text. `len=512` cuts what is there
/// off, or adds zeros. `17:03` makes the byte at 17 another, and `17^03` turns bits of it. `seal` writes a seal over
/// the last 40 bytes.
fn push_word(alloc: Global, bytes: &mut Vec<u8>, word: &str) -> Result<(), Fail> {
    if let Some(text) = word.strip_prefix("'") {
        bytes.extend_from_slice(text.as_bytes())?;
    } else if let Some(len) = word.strip_prefix("len=") {
        bytes.resize(len.parse()?, 0)?;
    } else if let Some((byte, count)) = word.split_once("*") {
        let len = bytes.len().saturating_add(count.parse()?);
        bytes.resize(len, u8::from_str_radix(byte, 16)?)?;
    } else if let Some((place, byte)) = word.split_once(":") {
        let byte = u8::from_str_radix(byte, 16)?;
        if let Some(changed) = bytes.get_mut(place.parse::<usize>()?) {
            *changed = byte;
        }
    } else if let Some((place, bits)) = word.split_once("^") {
        let bits = u8::from_str_radix(bits, 16)?;
        if let Some(changed) = bytes.get_mut(place.parse::<usize>()?) {
            *changed ^= bits;
        }
    } else if word != "seal" {
        bytes.extend_from_slice(&hex::decode(alloc, word)?)?;
    } else if bytes.len() >= 40 {
        seal(bytes);
    }
    Ok(())
}

/// The bytes that the words of a line spell, each a change of those before. The first may be a name.
pub(crate) fn spelled(alloc: Global, line: &str) -> Result<Vec<u8>, Fail> {
    let (first, rest) = line.split_once(" ").unwrap_or((line, ""));
    let named = NAMED.iter().find(|named| named.0 == first);
    let front = named.map_or(first, |named| named.1);
    let mut bytes = Vec::new(alloc);
    for word in front.split_whitespace().chain(rest.split_whitespace()) {
        push_word(alloc, &mut bytes, word)?;
    }
    Ok(bytes)
}

/// The words of a step, in any order but for the first.
#[derive(Clone, Copy)]
pub(crate) struct Step<'a> {
    pub(crate) verb: &'a str,
    /// Its numbers, in their order.
    pub(crate) numbers: [u64; 3],
    /// Which of three disks are out: `-x-` says that the second is.
    pub(crate) out: [bool; 3],
    /// The last of the other words.
    pub(crate) name: &'a str,
}

pub(crate) fn parse(line: &str) -> Step<'_> {
    let (verb, rest) = line.split_once(" ").unwrap_or((line, ""));
    let mut step = Step {
        verb,
        numbers: [0; 3],
        out: [false; 3],
        name: "",
    };
    let mut place = 0_usize;
    for word in rest.split(" ") {
        if let Ok(number) = word.parse() {
            step.numbers[place % 3] = number;
            place = place.wrapping_add(1);
        } else if let [a, b, c] = word.as_bytes() {
            step.out = [*a == b'x', *b == b'x', *c == b'x'];
        } else {
            step.name = word;
        }
    }
    step
}
