//! Lines with what they say, faults, and texts.
use pool_model::{Bytes, Phase, Refusal as Cause, Reply};
use schedule_lines::{
    Command, DiskNumbers, Line, Refusal, Run, made_text, opened_text, parse, reply_text, runs,
    runs_text,
};
use std::alloc::{AllocError, Global};
use std::test::Fail;

/// Lines, and what each says.
const LINES: [(&str, &str); 29] = [
    ("", "Skipped"),
    ("# a  line of words", "Skipped"),
    (
        "pool 2 5 67108864 11 3",
        "Command(Pool(PoolLine { parities: 2, disks: 5, bytes: 67108864, metaslab_shift: 11, meta_metaslabs: 3 }))",
    ),
    ("hold 0", "Command(Hold { writer: 0 })"),
    ("hold 4294967295", "Command(Hold { writer: 4294967295 })"),
    ("release 10", "Command(Release { writer: 10 })"),
    (
        "write 1 2 vol 512 1024 a5",
        "Command(Write(WriteLine { writer: 1, number: 2, volume: Name { letters: [118, 111, 108] }, offset: 512, len: 1024, byte: 165 }))",
    ),
    (
        "write 7 18446744073709551615 9 0 18446744073709551615 0f",
        "Command(Write(WriteLine { writer: 7, number: 18446744073709551615, volume: Name { letters: [57] }, offset: 0, len: 18446744073709551615, byte: 15 }))",
    ),
    (
        "create 3 1 v 8192 512",
        "Command(Create(CreateLine { writer: 3, number: 1, volume: Name { letters: [118] }, size: 8192, block_size: 512 }))",
    ),
    (
        "snapshot 3 2 v s",
        "Command(Snapshot(SnapshotLine { writer: 3, number: 2, volume: Name { letters: [118] }, part: Name { letters: [115] } }))",
    ),
    (
        "clone 3 4 v@s w",
        "Command(Clone(CloneLine { writer: 3, number: 4, snapshot: Name { letters: [118, 64, 115] }, name: Name { letters: [119] } }))",
    ),
    (
        "destroy 3 5 v@s",
        "Command(Destroy(DestroyLine { writer: 3, number: 5, name: Name { letters: [118, 64, 115] } }))",
    ),
    ("close", "Command(Close)"),
    ("quiesced", "Command(Quiesced)"),
    ("plan", "Command(Plan)"),
    ("device", "Command(Device)"),
    ("commit", "Command(Commit)"),
    ("sync", "Command(Sync)"),
    (
        "read v@s 0 64",
        "Command(Read(ReadLine { name: Name { letters: [118, 64, 115] }, offset: 0, len: 64 }))",
    ),
    (
        "under 4 v 512 64",
        "Command(Under(UnderLine { group: 4, name: Name { letters: [118] }, offset: 512, len: 64 }))",
    ),
    (
        "read a\tb 1 2",
        "Command(Read(ReadLine { name: Name { letters: [97, 9, 98] }, offset: 1, len: 2 }))",
    ),
    ("out 0", "Command(Out { disk: 0 })"),
    ("out 4294967295", "Command(Out { disk: 4294967295 })"),
    ("stop blocks", "Command(Stop(Blocks))"),
    ("stop slots 0", "Command(Stop(Slots { disks: 0 }))"),
    (
        "stop slots 4294967295",
        "Command(Stop(Slots { disks: 4294967295 }))",
    ),
    ("stop claim 2", "Command(Stop(Claim { disks: 2 }))"),
    (
        "reopen 0",
        "Command(Reopen(ReopenLine { rewind: 0, absent: DiskNumbers { numbers: [] } }))",
    ),
    (
        "reopen 2 4 0 4294967295 4",
        "Command(Reopen(ReopenLine { rewind: 2, absent: DiskNumbers { numbers: [4, 0, 4294967295, 4] } }))",
    ),
];

/// Lines that say nothing, and why.
const FAULTS: [(&str, &str); 37] = [
    (" ", "two empty words"),
    (" # no comment", "a space before the mark"),
    ("hold", "a word is missing"),
    ("hold 1 2", "a word is too many"),
    ("hold  1", "two spaces"),
    ("hold 1 ", "a space at the end"),
    (" hold 1", "a space in front"),
    ("hold\t1", "a tab in place of the space"),
    ("hold 01", "a leading zero"),
    ("hold +1", "a sign"),
    ("hold 4294967296", "no writer has this number"),
    ("hold one", "a number in letters"),
    ("Hold 1", "an upper case letter"),
    ("holds 1", "no such word"),
    ("read v 0 18446744073709551616", "no length is this large"),
    ("read  0 64", "a name with no bytes"),
    ("write 1 2 v 512 1024 A5", "an upper case digit"),
    ("write 1 2 v 512 1024 5", "one digit of a byte"),
    ("write 1 2 v 512 1024 0a5", "three digits of a byte"),
    ("clone 1 2 v@s", "no name of a clone"),
    ("clone 1 2 v s w", "a snapshot's name in two words"),
    ("clone 1 v@s w", "no number of an item"),
    ("destroy 1 v", "no number of an item"),
    ("destroy 1 2", "no name"),
    ("close now", "a word behind the last"),
    ("out", "no disk"),
    ("out 4294967296", "no disk has this number"),
    ("stop", "no point"),
    ("stop slots", "no number of disks"),
    ("stop blocks 1", "a number of disks too many"),
    ("stop claim -1", "a sign of a number of disks"),
    ("stop claims 1", "no such point"),
    ("reopen", "no number of groups"),
    ("reopen 3", "too many groups back"),
    ("reopen 0 01", "a leading zero of a disk"),
    ("reopen 0 4294967296", "no disk has this number"),
    ("reopen 0 1 ", "a space behind the disks"),
];

fn said(alloc: Global, line: &str) -> Result<String, Fail> {
    let found = parse(alloc, line.as_bytes())?;
    Ok(format!(in alloc; "{found:?}")?)
}

/// What the lines among these say that say something else than stands beside them.
fn said_otherwise(alloc: Global, lines: &[(&str, &str)]) -> Result<String, Fail> {
    let mut others = String::new(alloc);
    for (line, wanted) in lines {
        let said = said(alloc, line)?;
        if said.as_str() != *wanted {
            others.push_str(said.as_str())?;
        }
    }
    Ok(others)
}

/// The disks that a line leaves out.
fn absent(alloc: Global, line: &str) -> Result<Vec<u32>, Fail> {
    match parse(alloc, line.as_bytes())? {
        Line::Command(Command::Reopen(reopen)) => Ok(reopen.absent.into_vec()),
        _ => Ok(Vec::new(alloc)),
    }
}

#[test]
fn lines_are_read(rt: HostRuntime) -> Result<(), Fail> {
    let others = said_otherwise(rt.alloc(), &LINES)?;
    assert!(rt; others.as_str() == "", "{others}");
    let absent = absent(rt.alloc(), "reopen 1 3 0 3")?;
    assert!(rt; DiskNumbers::new(absent).as_slice() == [3, 0, 3].as_slice());
    Ok(())
}

/// Why the lines among these say nothing that are not refused.
fn not_refused(alloc: Global, lines: &[(&str, &str)]) -> Result<String, Fail> {
    let mut others = String::new(alloc);
    for (line, why) in lines {
        if parse(alloc, line.as_bytes()).err() != Some(Refusal::Fault) {
            others.push_str(why)?;
        }
    }
    Ok(others)
}

#[test]
fn faults_are_refused(rt: HostRuntime) -> Result<(), Fail> {
    let others = not_refused(rt.alloc(), &FAULTS)?;
    assert!(rt; others.as_str() == "", "{others}");
    Ok(())
}

/// Replies, and how each is written.
fn reply_of(alloc: Global, number: usize) -> Result<Reply, AllocError> {
    Ok(match number {
        0 => Reply::Held(4),
        1 => Reply::Receipt(5),
        2 => Reply::Released,
        3 => Reply::Closed(4),
        4 => Reply::Quiesced(4),
        5 => Reply::Planned(4),
        6 => Reply::Moved(Phase::Blocks),
        7 => Reply::Moved(Phase::BlocksFlush),
        8 => Reply::Moved(Phase::Slots),
        9 => Reply::Moved(Phase::SlotsFlush),
        10 => Reply::Replan(2),
        11 => Reply::Committed(4),
        12 => Reply::Refused(Cause::OutOfOrder { expected: 2 }),
        13 => Reply::Refused(Cause::GroupGone),
        14 => Reply::Out,
        _ => Reply::Bytes(Bytes::new(Vec::from_slice(alloc, &[255; 3])?)),
    })
}

const TEXTS: &str =
    "held 4, receipt 5, released, closed 4, quiesced 4, planned 4, moved Blocks, moved BlocksFlush, moved Slots, moved SlotsFlush, replan 2, committed 4, refused 7 OutOfOrder 2, refused 17 GroupGone, out, ffx3, ";

fn reply_texts(alloc: Global) -> Result<String, Fail> {
    let mut texts = String::new(alloc);
    for number in 0..16 {
        let reply = reply_of(alloc, number)?;
        texts.push_str(reply_text(alloc, &reply)?.as_str())?;
        texts.push_str(", ")?;
    }
    Ok(texts)
}

#[test]
fn replies_and_pools_have_texts(rt: HostRuntime) -> Result<(), Fail> {
    assert!(rt; reply_texts(rt.alloc())?.as_str() == TEXTS);
    assert!(rt; opened_text(rt.alloc(), 7, 2)?.as_str() == "opened 7 claim 2");
    assert!(rt; made_text(rt.alloc(), 3, 1)?.as_str() == "pool 3 claim 1");
    Ok(())
}

fn text_of(alloc: Global, parts: &[(u8, usize)]) -> Result<String, Fail> {
    let mut bytes = Vec::new(alloc);
    for (byte, count) in parts {
        bytes.extend_from_slice(vec![in alloc; *byte; *count]?.as_slice())?;
    }
    Ok(runs_text(alloc, bytes.as_slice())?)
}

/// Bytes, each so often, and their text.
const PRINTED: [([(u8, usize); 3], &str); 4] = [
    ([(0, 0), (0, 0), (0, 0)], "empty"),
    ([(0, 1024), (0, 0), (0, 0)], "00x1024"),
    ([(1, 512), (0, 512), (0, 0)], "01x512 00x512"),
    ([(1, 1), (2, 2), (1, 1)], "01x1 02x2 01x1"),
];

#[test]
fn runs_are_found_and_printed(rt: HostRuntime) -> Result<(), Fail> {
    for (parts, wanted) in &PRINTED {
        assert!(rt; text_of(rt.alloc(), parts)?.as_str() == *wanted);
    }
    let found = runs(rt.alloc(), &[9, 9])?;
    assert!(rt; found.as_slice() == [Run { byte: 9, count: 2 }].as_slice());
    Ok(())
}
