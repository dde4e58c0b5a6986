//! Lines with what they ask for, and faults with their texts.
use crate::telling::{Kind, note, told, told_words, words_of};
use pool_command::{Command, Refusal, ZpoolCommand, parse};
use std::alloc::{AllocError, Global};
use std::test::Fail;

/// Lines, and what each asks for.
const LINES: [(&str, &str); 24] = [
    (
        "zpool create --seed 7 --bytes 8388608 tank raidz1 a b c",
        "Zpool(Create(NewPool { seed: 7, bytes: 8388608, meta: 2, shift: 12, name: Name { letters: [116, 97, 110, 107] }, parities: 1, files: Files { paths: [\"a\", \"b\", \"c\"] } }))",
    ),
    (
        "zpool create t raidz2 --ms=13 a --meta 3 b --bytes +8388608 --seed 0 c d",
        "Zpool(Create(NewPool { seed: 0, bytes: 8388608, meta: 3, shift: 13, name: Name { letters: [116] }, parities: 2, files: Files { paths: [\"a\", \"b\", \"c\", \"d\"] } }))",
    ),
    (
        "zpool add --seed 8 --bytes 16777216 --type raidz1 --new 2 a b c d",
        "Zpool(Add(NewVdev { seed: 8, bytes: 16777216, parities: 1, files: Files { paths: [\"a\", \"b\"] }, new_files: Files { paths: [\"c\", \"d\"] } }))",
    ),
    (
        "zpool status a",
        "Zpool(Status { files: Files { paths: [\"a\"] } })",
    ),
    (
        "zpool scrub -- -a b",
        "Zpool(Scrub { files: Files { paths: [\"-a\", \"b\"] } })",
    ),
    (
        "zpool export a b",
        "Zpool(Export { files: Files { paths: [\"a\", \"b\"] } })",
    ),
    (
        "zfs create --size 1024 --block 512 v a b c",
        "Zfs(Create { size: 1024, block_size: 512, name: Name { letters: [118] }, files: Files { paths: [\"a\", \"b\", \"c\"] } })",
    ),
    (
        "zfs create --size 18446744073709551615 --block 007 V a",
        "Zfs(Create { size: 18446744073709551615, block_size: 7, name: Name { letters: [86] }, files: Files { paths: [\"a\"] } })",
    ),
    (
        "zfs snapshot v@s a",
        "Zfs(Snapshot { volume: Name { letters: [118] }, part: Name { letters: [115] }, files: Files { paths: [\"a\"] } })",
    ),
    (
        "zfs snapshot v@s@t a",
        "Zfs(Snapshot { volume: Name { letters: [118] }, part: Name { letters: [115, 64, 116] }, files: Files { paths: [\"a\"] } })",
    ),
    (
        "zfs clone v@s w a",
        "Zfs(Clone { snapshot: Name { letters: [118, 64, 115] }, name: Name { letters: [119] }, files: Files { paths: [\"a\"] } })",
    ),
    (
        "zfs destroy v@s a",
        "Zfs(Destroy { name: Name { letters: [118, 64, 115] }, files: Files { paths: [\"a\"] } })",
    ),
    (
        "zfs list a b",
        "Zfs(List { files: Files { paths: [\"a\", \"b\"] } })",
    ),
    (
        "zfs write --at 512 v a",
        "Zfs(Write { offset: 512, name: Name { letters: [118] }, files: Files { paths: [\"a\"] } })",
    ),
    (
        "zfs read --at 1 --len 2 v@s a",
        "Zfs(Read { offset: 1, len: 2, name: Name { letters: [118, 64, 115] }, files: Files { paths: [\"a\"] } })",
    ),
    (
        "zfs read v --len 2 a --at 1 b",
        "Zfs(Read { offset: 1, len: 2, name: Name { letters: [118] }, files: Files { paths: [\"a\", \"b\"] } })",
    ),
    (
        "zfs destroy create a",
        "Zfs(Destroy { name: Name { letters: [99, 114, 101, 97, 116, 101] }, files: Files { paths: [\"a\"] } })",
    ),
    (
        "zfs write --all v a b",
        "Zfs(WriteAll { name: Name { letters: [118] }, files: Files { paths: [\"a\", \"b\"] } })",
    ),
    (
        "zfs write v a --all b",
        "Zfs(WriteAll { name: Name { letters: [118] }, files: Files { paths: [\"a\", \"b\"] } })",
    ),
    (
        "zfs write --at 0 -- v --all",
        "Zfs(Write { offset: 0, name: Name { letters: [118] }, files: Files { paths: [\"--all\"] } })",
    ),
    (
        "zfs read v@s a b",
        "Zfs(ReadAll { name: Name { letters: [118, 64, 115] }, files: Files { paths: [\"a\", \"b\"] } })",
    ),
    (
        "zfs read --at=0 --len=0 v a",
        "Zfs(Read { offset: 0, len: 0, name: Name { letters: [118] }, files: Files { paths: [\"a\"] } })",
    ),
    (
        "zfs serve v a b c",
        "Zfs(Serve { name: Name { letters: [118] }, files: Files { paths: [\"a\", \"b\", \"c\"] } })",
    ),
    (
        "zfs clone v@ @ a",
        "Zfs(Clone { snapshot: Name { letters: [118, 64] }, name: Name { letters: [64] }, files: Files { paths: [\"a\"] } })",
    ),
];

/// Lines that ask for nothing, and how the text of the fault begins.
const FAULTS: [(&str, &str); 30] = [
    ("zdb", "error: the program is zpool or zfs"),
    ("zpool", "error: 'zpool' requires a subcommand"),
    (
        "zpool destroy a",
        "error: unrecognized subcommand 'destroy'",
    ),
    (
        "zpool status",
        "error: the following required arguments were not provided:\n  <FILE>...",
    ),
    (
        "zpool status --all a",
        "error: unexpected argument '--all' found",
    ),
    (
        "zpool create --seed 7 --bytes 8 tank raidz1",
        "error: the following required arguments were not provided:\n  <FILE>...",
    ),
    (
        "zpool create --bytes 8 tank raidz1 a",
        "error: the following required arguments were not provided:\n  --seed <N>",
    ),
    (
        "zpool create --seed 7 --bytes 8 tank mirror a b",
        "error: TYPE is raidz1 or raidz2",
    ),
    (
        "zpool create --seed 7 --bytes 8 tank RAIDZ1 a b",
        "error: TYPE is raidz1 or raidz2",
    ),
    (
        "zpool create --seed -7 --bytes 8 tank raidz1 a b",
        "error: unexpected argument '-7' found",
    ),
    (
        "zpool create --seed=-7 --bytes 8 tank raidz1 a b",
        "error: invalid value '-7' for '--seed <N>'",
    ),
    (
        "zpool create --seed 18446744073709551616 --bytes 8 tank raidz1 a",
        "error: invalid value '18446744073709551616' for '--seed <N>'",
    ),
    (
        "zpool create --seed 7 --seed 7 --bytes 8 tank raidz1 a",
        "error: the argument '--seed <N>' cannot be used multiple times",
    ),
    (
        "zpool add --seed 7 --bytes 8 --type raidz1 --new 0 a b",
        "error: of the files",
    ),
    (
        "zpool add --seed 7 --bytes 8 --type raidz1 --new 2 a b",
        "error: of the files",
    ),
    (
        "zpool add --seed 7 --bytes 8 --type raidz1 --new 3 a b",
        "error: of the files",
    ),
    (
        "zfs snapshot v a",
        "error: a snapshot's name is VOLUME@SNAPSHOT",
    ),
    (
        "zfs clone v w a",
        "error: a snapshot's name is VOLUME@SNAPSHOT",
    ),
    (
        "zfs write v a",
        "error: give one of --at N and --all\n\nFor more information, try '--help'.\n",
    ),
    (
        "zfs write --at 0x200 v a",
        "error: invalid value '0x200' for '--at <N>'",
    ),
    (
        "zfs read --at 0 --len 1.5 v a",
        "error: invalid value '1.5' for '--len <N>'",
    ),
    (
        "zfs rollback v@s a",
        "error: unrecognized subcommand 'rollback'",
    ),
    (
        "zfs write --at 0 --all v a",
        "error: give one of --at N and --all\n\nFor more information, try '--help'.\n",
    ),
    (
        "zfs write --all --all v a",
        "error: the argument '--all' cannot be used multiple times",
    ),
    (
        "zfs write --all=yes v a",
        "error: unexpected value 'yes' for '--all' found",
    ),
    (
        "zfs write --all v",
        "error: the following required arguments were not provided:\n  <FILE>...",
    ),
    (
        "zfs read --at 0 v a",
        "error: give both --at N and --len N, or neither\n\nFor more information, try '--help'.\n",
    ),
    (
        "zfs read --len 4 v a",
        "error: give both --at N and --len N, or neither\n\nFor more information, try '--help'.\n",
    ),
    (
        "zfs serve v",
        "error: the following required arguments were not provided:\n  <FILE>...",
    ),
    (
        "zpool add --seed 7 --bytes 8 --type mirror --new 0 a",
        "error: TYPE is raidz1 or raidz2",
    ),
];

/// The lines of `LINES` of which something else comes, with that.
fn wrong_lines(alloc: Global) -> Result<String, AllocError> {
    let mut wrong = String::new(alloc);
    for (line, wanted) in &LINES {
        let (text, _) = told(alloc, line)?;
        if text.as_str() != *wanted {
            note(&mut wrong, line, text.as_str())?;
        }
    }
    Ok(wrong)
}

/// The lines of `FAULTS` of which something else comes, with that.
fn wrong_faults(alloc: Global) -> Result<String, AllocError> {
    let mut wrong = String::new(alloc);
    for (line, start) in &FAULTS {
        let (text, kind) = told(alloc, line)?;
        if kind != Kind::Fault || !text.as_str().starts_with(*start) {
            note(&mut wrong, line, text.as_str())?;
        }
    }
    Ok(wrong)
}

fn joined(alloc: Global, paths: &[String]) -> Result<String, AllocError> {
    let mut text = String::new(alloc);
    for path in paths {
        text.push_str(path.as_str())?;
        text.push_str(";")?;
    }
    Ok(text)
}

/// The files of which the status is asked, with a semicolon behind each.
fn files_in(alloc: Global, came: &Result<Command, Refusal>) -> Result<String, AllocError> {
    match came {
        Ok(Command::Zpool(ZpoolCommand::Status { files })) => joined(alloc, files.as_slice()),
        _ => String::from_str(alloc, "another command"),
    }
}

fn files_of(alloc: Global, line: &str) -> Result<String, AllocError> {
    let words = words_of(alloc, line)?;
    let came = parse(alloc, &words);
    files_in(alloc, &came)
}

#[test]
fn lines_ask_for(rt: HostRuntime) -> Result<(), Fail> {
    let wrong = wrong_lines(rt.alloc())?;
    assert!(rt; wrong.is_empty(), "{wrong}");
    Ok(())
}

#[test]
fn faults_are_told(rt: HostRuntime) -> Result<(), Fail> {
    let wrong = wrong_faults(rt.alloc())?;
    assert!(rt; wrong.is_empty(), "{wrong}");
    Ok(())
}

#[test]
fn no_words_are_no_command(rt: HostRuntime) -> Result<(), Fail> {
    let (text, kind) = told_words(rt.alloc(), &[]);
    let text = text?;
    assert!(rt; kind == Kind::Fault);
    assert!(rt;
        text.as_str() == "error: the program is zpool or zfs\n",
        "{text}"
    );
    Ok(())
}

#[test]
fn files_are_given_as_a_slice(rt: HostRuntime) -> Result<(), Fail> {
    let text = files_of(rt.alloc(), "zpool status /dev/b ./a")?;
    assert!(rt; text.as_str() == "/dev/b;./a;", "{text}");
    Ok(())
}
