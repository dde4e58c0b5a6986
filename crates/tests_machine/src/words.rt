//! Names, bytes, causes, and what is judged of a volume by its shape.
use crate::items::{name, writes};
use crate::lines::{Bench, Call, wrong_lines};
use crate::volumes::SHAPE;
use pool_model::{Bytes, Refusal, VolumeBytes};
use std::alloc::Global;
use std::test::Fail;
use volume_rules::{against_read, against_write, is_good_shape, lay_over};

/// Names, bytes and causes.
const WORDS: &[(&str, &str)] = &[
    ("causes", "7 OutOfOrder 2, 17 GroupGone"),
    ("from 7", "OutOfOrder { expected: 7 }"),
    ("stored", "6 [0, 0, 7, 7, 0, 0]"),
    (
        "shared",
        "Bytes { bytes: [7, 7] } Bytes { bytes: [7, 7] } 2 false; [7, 7] [7, 7]",
    ),
    ("letters tank", "[116, 97, 110, 107]"),
    (
        "same tank tank; same tank tan; same v w",
        "true; false; false",
    ),
    (
        "before v w; before w v; before v v; before v v1; before v1 v; before v-z v.a; before v10 v2",
        "true; false; false; true; false; true; true",
    ),
];

/// `against_write GROUP` has why writes are refused, of a volume of 8192 bytes in blocks of 512 that group 4 made, or of none
/// (`absent`); `against_read` has an offset and a length. `lay` lays writes over 8 bytes at 10 of a volume of 32.
const VOLUMES: &[(&str, &str)] = &[
    (
        "against_write 5 there: write 1 1 v 512 512 1; against_write 5 absent: write 1 1 v 512 512 1;
            against_write 4 there: write 1 1 v 512 512 1; against_write 5 there: write 1 1 v 511 512 1;
            against_write 5 there: write 1 1 v 7680 1024 1",
        "None; Some(NoSuchName); Some(NotYet); Some(Misaligned); Some(OutOfRange)",
    ),
    (
        "against_read 1 there 8191; against_read 0 absent 1; against_read 1 there 8192",
        "None; Some(NoSuchName); Some(OutOfRange)",
    ),
    ("good 1024 512; good 1024 2048", "true; false"),
    // On the left, on the right, inside, outside, to another volume and past the end; and around.
    (
        "lay: write 1 1 v 8 4 1, write 1 1 v 16 8 2, write 1 1 v 13 2 3, write 1 1 v 0 10 4,
            write 1 1 w 0 32 5, write 1 1 v 16 17 6;
            lay: write 1 1 v 8 16 7",
        "[1, 1, 9, 3, 3, 9, 2, 2]; [7, 7, 7, 7, 7, 7, 7, 7]",
    ),
];

/// What is said of names, bytes and causes.
#[derive(Drop)]
struct Words;

impl Bench for Words {
    fn answer(&mut self, alloc: Global, call: &Call) -> Result<String, Fail> {
        let (one, other) = (name(alloc, call.word(1))?, name(alloc, call.word(2))?);
        let text = match call.word(0) {
            "same" => {
                let are_same = one.copied(alloc)?.is(&other);
                format!(in alloc; "{are_same}")
            }
            "before" => {
                let is_before = one.is_before(&other);
                format!(in alloc; "{is_before}")
            }
            "letters" => {
                let letters = one.into_vec();
                format!(in alloc; "{letters:?}")
            }
            "causes" => {
                let (first, second) = (Refusal::OutOfOrder { expected: 2 }, Refusal::GroupGone);
                format!(in alloc; "{first}, {second}")
            }
            "from" => {
                let expected = call.number(1);
                let cause = Refusal::from(txg_pipeline::Refusal::OutOfOrder { expected });
                format!(in alloc; "{cause:?}")
            }
            "shared" => return shared(alloc),
            _ => return stored(alloc),
        };
        Ok(text?)
    }
}

/// Six bytes, of which two are stored.
fn stored(alloc: Global) -> Result<String, Fail> {
    let mut bytes = VolumeBytes::zeros(alloc, 6)?;
    bytes.store(2, &Bytes::new(vec![in alloc; 7; 2]?));
    let (len, bytes) = (bytes.len(), bytes.as_slice());
    Ok(format!(in alloc; "{len} {bytes:?}")?)
}

/// Two bytes with three handles: a handle gives back a copy while others are there, and the last one the bytes.
fn shared(alloc: Global) -> Result<String, Fail> {
    let mut bytes = Bytes::new(vec![in alloc; 7; 2]?);
    let mut second = bytes.share(alloc)?;
    let third = second.share(alloc)?;
    let (len, is_empty) = (third.len(), third.is_empty());
    let mut text = format!(in alloc; "{bytes:?} {second:?} {len} {is_empty};")?;
    drop(third);
    let copied = bytes.into_vec(alloc)?;
    let last = second.into_vec(alloc)?;
    write!(text, " {copied:?} {last:?}")?;
    Ok(text)
}

/// What is judged of volumes by their shapes.
#[derive(Drop)]
struct Volumes;

impl Bench for Volumes {
    fn answer(&mut self, alloc: Global, call: &Call) -> Result<String, Fail> {
        let number = call.number(1);
        let volume = if call.word(2) == "there" {
            Some(SHAPE)
        } else {
            None
        };
        let writes = writes(alloc, call)?;
        let text = match call.word(0) {
            "against_write" => {
                let Some(write) = writes.first() else {
                    return Err(Fail::new("no write"));
                };
                let cause = against_write(write, number, volume);
                format!(in alloc; "{cause:?}")
            }
            "against_read" => {
                let cause = against_read(number, call.number(3), volume);
                format!(in alloc; "{cause:?}")
            }
            "good" => {
                let is_good = is_good_shape(number, call.number(2));
                format!(in alloc; "{is_good}")
            }
            _ => {
                let mut buffer = [9u8; 8];
                lay_over(&writes, &name(alloc, "v")?, 32, 10, &mut buffer);
                let bytes = buffer.as_slice();
                format!(in alloc; "{bytes:?}")
            }
        };
        Ok(text?)
    }
}

#[test]
fn names_and_shapes_are_judged(rt: HostRuntime) -> Result<(), Fail> {
    let mut wrong = wrong_lines(&rt, rt.alloc(), &mut Words, WORDS)?;
    wrong.push_str(wrong_lines(&rt, rt.alloc(), &mut Volumes, VOLUMES)?.as_str())?;
    assert!(rt; wrong.is_empty(), "{wrong}");
    Ok(())
}
