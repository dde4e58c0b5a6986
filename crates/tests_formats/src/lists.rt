//! Name-value lists, configurations, and labels.

use crate::spelling::{parse, spelled};
use nvlist::{NvList, Value};
use std::alloc::Global;
use std::test::Fail;
use vdev_label::*;

/// What is refused prints as one of these.
const NO_LIST: &str = "the bytes spell no name-value list";

const LIST: &str = "bad label: list";

const PAIRS: &str = "bad label: pairs";

const TAIL: &str = "bad label: tail";

const DIGEST: &str = "bad label: digest";

/// What bytes are and the bytes, and what is read; of a list what is asked of it, one after the other.
pub(crate) const CASES: &[(&str, &str)] = &[
    // Lists with one pair, and with one of each type. How many pairs there are and whether none, and the values of
    // names: of two lists how many they are, whether the first is empty, and a number of the second.
    ("list ONE: number txg", "Some(4); kept true"),
    (
        "list EACH: len; number a; text ab; number ab; list b x; lists c y",
        "4 false; Some(72623859790382856); Some(\"raidz\"); None; Some(7); 2 true Some(9); kept true",
    ),
    // A pair is missing.
    ("list EACH 3:05", NO_LIST),
    // A name has no bytes.
    ("list EACH 7:00", NO_LIST),
    // A name has a control byte.
    ("list EACH 8:1f", NO_LIST),
    // A name has a delete.
    ("list EACH 8:7f", NO_LIST),
    // The zeros behind a name are none.
    ("list EACH 11:01", NO_LIST),
    // No value has type 10.
    ("list EACH 15:0a", NO_LIST),
    // A name stands before the last.
    ("list EACH 28:60", NO_LIST),
    // A text is no ASCII.
    ("list EACH 40:80", NO_LIST),
    // The zeros behind a text are none.
    ("list EACH 47:01", NO_LIST),
    // A text takes in a zero.
    ("list EACH 39:06", NO_LIST),
    // A list has more pairs than bytes.
    ("list EACH 60:ff", NO_LIST),
    // There are more lists than bytes.
    ("list EACH 96:ff", NO_LIST),
    // An empty list has a pair.
    ("list EACH 103:01", NO_LIST),
    // A front of it, of any length.
    ("fronts EACH", "each is refused"),
    // Lists nest six deep.
    (
        "list 00000001 00000001 'a 000000 00000013 00000001 00000001 'a 000000 00000013 \
        00000001 00000001 'a 000000 00000013 00000001 00000001 'a 000000 00000013 \
        00000001 00000001 'a 000000 00000013 00000000: len",
        "1 false; kept true",
    ),
    (
        "list 00000001 00000001 'a 000000 00000013 00000001 00000001 'a 000000 00000013 \
        00000001 00000001 'a 000000 00000013 00000001 00000001 'a 000000 00000013 \
        00000001 00000001 'a 000000 00000013 00000001 00000001 'a 000000 00000013 \
        00000000: len",
        NO_LIST,
    ),
    // Names are pushed in their order, with at most 64 bytes, all of them printable.
    (
        "new: say a pool; push name; push name; push na; push name\n; push txg; \
        push zzzzzzzzzzzzzzzzzzzzzzzzzzzzzzzzzzzzzzzzzzzzzzzzzzzzzzzzzzzzzzzzz; \
        push zzzzzzzzzzzzzzzzzzzzzzzzzzzzzzzzzzzzzzzzzzzzzzzzzzzzzzzzzzzzzzzz; \
        len; number txg; text a",
        "true; true; false; false; false; true; false; true; 4 false; Some(4); Some(\"pool\"); ",
    ),
    // A vdev by its guid, its parity, the sectors of a disk, the shift of a metaslab, the metaslabs of the meta region and the
    // guids of its disks; the sum of the guids; and what coreutils' `sha256sum` makes of the bytes.
    (
        "config CONFIG",
        "100 1 7168 12 1 [101, 102, 103]; sum 406; \
        5cafeadb29a500cab39cbc144946f7482a0584e27febf12506ed3a8c0529009e, kept true",
    ),
    // A byte more; and a list with another pair.
    ("config CONFIG 00", LIST),
    ("config ONE", PAIRS),
    // Which configurations are allowed, by the pool's guid and the same of each vdev.
    // The smallest.
    ("allowed 1: 100 1 7168 12 1 101 102 103", "true"),
    // One metaslab is none of the meta region.
    ("allowed 1: 100 1 7168 12 4 101 102 103", "true"),
    // All metaslabs are of the meta region.
    ("allowed 1: 100 1 7168 12 5 101 102 103", "false"),
    // There is no meta region.
    ("allowed 1: 100 1 7168 12 0 101 102 103", "false"),
    // The pool's guid is 0.
    ("allowed 0: 100 1 7168 12 1 101 102 103", "false"),
    // The vdev's guid is 0.
    ("allowed 1: 0 1 7168 12 1 101 102 103", "false"),
    // A disk's guid is 0.
    ("allowed 1: 100 1 7168 12 1 101 0 103", "false"),
    // A disk has the pool's guid.
    ("allowed 103: 100 1 7168 12 1 101 102 103", "false"),
    // A disk has the vdev's guid.
    ("allowed 1: 102 1 7168 12 1 101 102 103", "false"),
    // Two disks have one guid.
    ("allowed 1: 100 1 7168 12 1 101 102 101", "false"),
    // There is no parity.
    ("allowed 1: 100 0 7168 12 1 101 102 103", "false"),
    // There are three parities.
    ("allowed 1: 100 3 7168 12 1 101 102 103 104", "false"),
    // Two parities of three disks.
    ("allowed 1: 100 2 7168 12 1 101 102 103", "true"),
    // There is no disk for data.
    ("allowed 1: 100 2 7168 12 1 101 102", "false"),
    // The disks are too small.
    ("allowed 1: 100 1 6656 12 1 101 102 103", "false"),
    // A disk has no whole number of labels.
    ("allowed 1: 100 1 7169 12 1 101 102 103", "false"),
    // There are too many metaslabs.
    ("allowed 1: 100 1 17179859968 20 1 101 102", "false"),
    // The disks are too large.
    ("allowed 1: 100 1 17179860480 20 1 101 102", "false"),
    // The metaslabs are too small.
    ("allowed 1: 100 1 7168 11 1 101 102 103", "false"),
    // The metaslabs are too large.
    ("allowed 1: 100 1 1048576 21 1 101 102 103 104 105", "false"),
    // There are 1,024 metaslabs.
    ("allowed 1: 100 1 1399296 12 1 101 102 103", "true"),
    // There are 1,025 metaslabs.
    ("allowed 1: 100 1 1399808 12 1 101 102 103", "false"),
    // Of none, one, eight and nine vdevs.
    ("allowed 1: none", "false"),
    ("allowed 1: 100 1 7168 12 1 101 102 103", "true"),
    (
        "allowed 1: 100 1 7168 12 1 101 102 103; 200 1 7168 12 1 201 202 203; \
        300 1 7168 12 1 301 302 303; 400 1 7168 12 1 401 402 403; \
        500 1 7168 12 1 501 502 503; 600 1 7168 12 1 601 602 603; \
        700 1 7168 12 1 701 702 703; 800 1 7168 12 1 801 802 803",
        "true",
    ),
    (
        "allowed 1: 100 1 7168 12 1 101 102 103; 200 1 7168 12 1 201 202 203; \
        300 1 7168 12 1 301 302 303; 400 1 7168 12 1 401 402 403; \
        500 1 7168 12 1 501 502 503; 600 1 7168 12 1 601 602 603; \
        700 1 7168 12 1 701 702 703; 800 1 7168 12 1 801 802 803; \
        900 1 7168 12 1 901 902 903",
        "false",
    ),
    // Where labels lie on a disk of 8 MiB, and on one that has a part of a label behind it.
    ("offset 8388608 0", "0"),
    ("offset 8650751 0", "0"),
    ("offset 8388608 1", "262144"),
    ("offset 8650751 1", "262144"),
    ("offset 8388608 2", "7864320"),
    ("offset 8650751 2", "7864320"),
    ("offset 8388608 3", "8126464"),
    ("offset 8650751 3", "8126464"),
    // A label: its pool, whether that is active, its claim, the guids of the disk, the pool and the vdev, its group, and its
    // configuration.
    (
        "area LABEL len=114688 seal",
        "pool true 1 101 1 100 2: 100 1 7168 12 1 [101, 102, 103], kept true",
    ),
    // A pair is missing.
    ("area LABEL len=114688 3:0a seal", LIST),
    // A pair follows the list.
    ("area LABEL len=114688 3:08 seal", LIST),
    // A byte follows the list.
    ("area LABEL len=114688 577:01 seal", LIST),
    // The zeros behind a name are none.
    ("area LABEL len=114688 13:01 seal", LIST),
    // Names don't ascend.
    ("area LABEL len=114688 32:61 seal", LIST),
    // There is no claim.
    ("area LABEL len=114688 12:6e seal", PAIRS),
    // The claim is 0.
    ("area LABEL len=114688 27:00 seal", PAIRS),
    // The claim is above 2^62.
    ("area LABEL len=114688 20:40 seal", PAIRS),
    // The name begins with no small letter.
    ("area LABEL len=114688 64:50 seal", PAIRS),
    // The name begins with a digit.
    ("area LABEL len=114688 64:31 seal", PAIRS),
    // The name has a slash.
    ("area LABEL len=114688 65:2f seal", PAIRS),
    // There is no state 2.
    ("area LABEL len=114688 119:02 seal", PAIRS),
    // The group is 0.
    ("area LABEL len=114688 163:00 seal", PAIRS),
    // The group is above 2^62.
    ("area LABEL len=114688 156:40 seal", PAIRS),
    // The sectors have another size.
    ("area LABEL len=114688 235:0c seal", PAIRS),
    // The first child is number 1.
    ("area LABEL len=114688 323:01 seal", PAIRS),
    // The first vdev is number 1.
    ("area LABEL len=114688 451:01 seal", PAIRS),
    // No value has type 7.
    ("area LABEL len=114688 519:07 seal", LIST),
    // The vdev is no raidz.
    ("area LABEL len=114688 544:73 seal", PAIRS),
    // There is no version 2.
    ("area LABEL len=114688 575:02 seal", PAIRS),
    // Pairs are these and no others: one is missing at the end, and one follows there.
    ("area LABEL len=552 3:08 len=114688 seal", PAIRS),
    (
        "area LABEL 00000004 'zone 00000008 00*8 3:0a len=114688 seal",
        PAIRS,
    ),
    // Bytes of a sealed area are changed: the first breach is told.
    ("area LABEL len=114688 seal 0^03", DIGEST),
    ("area LABEL len=114688 seal 114687^01 3^02", DIGEST),
    ("area LABEL len=114688 seal 114648^01 0^02", TAIL),
    ("area LABEL len=114688 seal 114655^01 114687^02", TAIL),
];

/// What a list answers.
fn asked(alloc: Global, list: &mut NvList, query: &str) -> Result<String, Fail> {
    let mut words = query.split(" ");
    let verb = words.next().unwrap_or("");
    let name = words.next().unwrap_or("");
    let other = words.next().unwrap_or("");
    Ok(match verb {
        "number" => format!(in alloc; "{:?}", list.number(name))?,
        "text" => format!(in alloc; "{:?}", list.text(name))?,
        "list" => match list.list(name) {
            Some(list) => format!(in alloc; "{:?}", list.number(other))?,
            None => String::new(alloc),
        },
        "lists" => match list.lists(name) {
            Some([first, second]) => {
                format!(in alloc; "2 {} {:?}", first.is_empty(), second.number(other))?
            }
            _ => String::new(alloc),
        },
        "push" => format!(in alloc; "{}", list.push(name, Value::Number(4)).is_ok())?,
        "say" => {
            let value = Value::Text(String::from_str(alloc, other)?);
            format!(in alloc; "{}", list.push(name, value).is_ok())?
        }
        _ => format!(in alloc; "{} {}", list.len(), list.is_empty())?,
    })
}

/// What a list answers, one after the other.
fn answers(alloc: Global, list: &mut NvList, queries: &str) -> Result<String, Fail> {
    let mut text = String::new(alloc);
    for query in queries.split("; ") {
        let answer = asked(alloc, list, query)?;
        write!(text, "{answer}; ")?;
    }
    Ok(text)
}

/// A vdev by its guid, its parity, the sectors of a disk, the shift of a metaslab, the metaslabs of the meta region and the
/// guids of its disks.
fn config_text(alloc: Global, config: &Config) -> Result<String, Fail> {
    let mut text = String::new(alloc);
    for vdev in &config.vdevs {
        write!(
            text,
            "{} {} {} {} {} {:?}",
            vdev.guid,
            vdev.parity,
            vdev.child_sectors,
            vdev.slab_shift,
            vdev.meta_slabs,
            vdev.children.as_slice()
        )?;
    }
    Ok(text)
}

/// The name of the pool, whether it is active, the claim, the guids of the disk, the pool and the vdev, the group, and the
/// configuration.
pub(crate) fn label_text(alloc: Global, label: &Label) -> Result<String, Fail> {
    let config = config_text(alloc, &label.config)?;
    let is_active = label.state == State::Active;
    Ok(format!(in alloc;
        "{} {is_active} {} {} {} {} {}: {config}",
        label.name, label.claim, label.guid, label.pool_guid, label.top_guid, label.group
    )?)
}

/// What the bytes of a list, a configuration or the area of a label are read as.
fn read(alloc: Global, verb: &str, bytes: &[u8], queries: &str) -> Result<String, Fail> {
    match verb {
        "config" => match Config::decode(alloc, bytes) {
            Ok(config) => {
                let is_kept = config.encode(alloc)?.as_slice() == bytes;
                let digest = hex::encode(alloc, config.digest(alloc)?.as_slice())?;
                let text = config_text(alloc, &config)?;
                Ok(format!(in alloc;
                    "{text}; sum {}; {digest}, kept {is_kept}",
                    config.guid_sum()
                )?)
            }
            Err(refusal) => Ok(format!(in alloc; "{refusal}")?),
        },
        "area" if bytes.len() == AREA_LEN => match decode_area(alloc, bytes) {
            Ok(label) => {
                let is_kept = encode_area(alloc, &label)?.as_slice() == bytes;
                let text = label_text(alloc, &label)?;
                Ok(format!(in alloc; "{text}, kept {is_kept}")?)
            }
            Err(refusal) => Ok(format!(in alloc; "{refusal}")?),
        },
        _ => match nvlist::decode(alloc, bytes) {
            Ok((mut list, len)) => {
                let mut again = Vec::new(alloc);
                nvlist::encode(alloc, &list, &mut again)?;
                let is_kept = again.as_slice() == bytes && len == bytes.len();
                let text = answers(alloc, &mut list, queries)?;
                Ok(format!(in alloc; "{text}kept {is_kept}")?)
            }
            Err(refusal) => Ok(format!(in alloc; "{refusal}")?),
        },
    }
}

/// Whether a configuration of these vdevs is allowed.
fn is_allowed(alloc: Global, pool: u64, words: &str) -> Result<bool, Fail> {
    let mut vdevs = Vec::new(alloc);
    for vdev in words.split("; ") {
        let numbers = vdev.split(" ").filter_map(|word| word.parse::<u64>().ok());
        let numbers: Vec<u64> = numbers.collect(alloc)?;
        let [
            guid,
            parity,
            child_sectors,
            slab_shift,
            meta_slabs,
            children @ ..,
        ] = numbers.as_slice()
        else {
            continue;
        };
        vdevs.push(Vdev {
            guid: *guid,
            parity: *parity,
            child_sectors: *child_sectors,
            slab_shift: *slab_shift,
            meta_slabs: *meta_slabs,
            children: Vec::from_slice(alloc, children)?,
        })?;
    }
    Ok(Config { vdevs }.is_allowed(alloc, pool)?)
}

/// What is read, or what a list answers to whom pushes pairs, or whether vdevs are allowed, or where a label is.
pub(crate) fn answer(alloc: Global, line: &str) -> Result<String, Fail> {
    let (head, rest) = line.split_once(": ").unwrap_or((line, ""));
    let (verb, words) = head.split_once(" ").unwrap_or((head, ""));
    let [first, second, _] = parse(head).numbers;
    match verb {
        "allowed" => return Ok(format!(in alloc; "{}", is_allowed(alloc, first, rest)?)?),
        "offset" => {
            let offset = label_offset(first.max(1_048_576), second.min(3));
            return Ok(format!(in alloc; "{offset}")?);
        }
        "new" => return answers(alloc, &mut NvList::new(alloc), rest),
        _ => {}
    }
    let bytes = spelled(alloc, words)?;
    if verb != "fronts" {
        return read(alloc, verb, &bytes, rest);
    }
    for len in 0..bytes.len() {
        if nvlist::decode(alloc, &bytes[..len]).err() != Some(nvlist::Refusal::BadLabel) {
            return Ok(format!(in alloc; "the first {len} bytes are read")?);
        }
    }
    Ok(String::from_str(alloc, "each is refused")?)
}
