//! The help: it is an answer and no fault, and each of its examples is a line that asks for a command.
use crate::telling::{Kind, note, told};
use std::alloc::{AllocError, Global};
use std::test::Fail;

/// Lines that ask for help or the version, how the answer begins, and what stands in it.
const ANSWERS: [(&str, &str, &str); 19] = [
    (
        "zpool --help",
        "Makes pools in files",
        "Exit status:\n  0  done\n  1  refused",
    ),
    ("zpool -h", "Makes pools in files", "and so claims it"),
    (
        "zfs --help",
        "Makes volumes and snapshots",
        "Exit status:\n  0  done\n  1  refused",
    ),
    (
        "zfs help",
        "Makes volumes and snapshots",
        "and so claims it",
    ),
    ("zpool --version", "zpool 1.0\n", ""),
    ("zfs -V", "zfs 1.0\n", ""),
    (
        "zpool create --help",
        "Makes a pool in new files",
        "  zpool create --seed 7 --bytes 8388608 tank raidz1 a b c\n",
    ),
    (
        "zpool add --help",
        "Gives a pool one vdev more",
        "  zpool add --seed 8 --bytes 8388608 --type raidz1 --new 3 a b c d e f\n",
    ),
    (
        "zpool status --help",
        "Prints a pool",
        "  zpool status a b c\n",
    ),
    (
        "zpool scrub --help",
        "Reads all that a pool holds",
        "  zpool scrub a b c\n",
    ),
    (
        "zpool export --help",
        "Puts a pool away",
        "  zpool export a b c\n",
    ),
    (
        "zfs create --help",
        "Makes a volume",
        "  zfs create --size 1048576 --block 8192 v a b c\n",
    ),
    (
        "zfs snapshot --help",
        "Keeps what a volume holds",
        "  zfs snapshot v@monday a b c\n",
    ),
    (
        "zfs clone --help",
        "Makes a volume that holds",
        "  zfs clone v@monday w a b c\n",
    ),
    (
        "zfs destroy --help",
        "Takes away a volume",
        "  zfs destroy v@monday a b c\n",
    ),
    (
        "zfs list -h",
        "Lists volumes and snapshots",
        "  zfs list a b c\n",
    ),
    (
        "zfs help write",
        "Writes standard input",
        "  zfs write --all v a b c < image\n",
    ),
    (
        "zfs read --help",
        "Prints bytes of a volume",
        "  zfs read v@monday a b c > image\n",
    ),
    (
        "zfs serve --help",
        "Serves a volume",
        "  zfs serve v a b c\n",
    ),
];

/// The lines of `ANSWERS` of which something else comes, with that.
fn wrong_answers(alloc: Global) -> Result<String, AllocError> {
    let mut wrong = String::new(alloc);
    for (line, start, part) in &ANSWERS {
        let (text, kind) = told(alloc, line)?;
        let text = text.as_str();
        if kind != Kind::Answer || !text.starts_with(*start) || !text.contains(*part) {
            note(&mut wrong, line, text)?;
        }
    }
    Ok(wrong)
}

/// The example in a line of help: it stands behind two spaces, up to a '<' or a '>'.
fn example_in(line: &str) -> Option<&str> {
    let line = line.strip_prefix("  ")?;
    let (line, _) = line.split_once(" < ").unwrap_or((line, ""));
    let (line, _) = line.split_once(" > ").unwrap_or((line, ""));
    if line.starts_with("zpool ") || line.starts_with("zfs ") {
        Some(line)
    } else {
        None
    }
}

/// Adds the examples of a help text that ask for no command.
fn note_bad_examples(wrong: &mut String, alloc: Global, help: &str) -> Result<(), AllocError> {
    for line in help.lines() {
        if let Some(example) = example_in(line) {
            let (text, kind) = told(alloc, example)?;
            if kind != Kind::Command {
                note(wrong, example, text.as_str())?;
            }
        }
    }
    Ok(())
}

/// The examples of all help texts that ask for no command.
fn bad_examples(alloc: Global) -> Result<String, AllocError> {
    let mut wrong = String::new(alloc);
    for (line, _, _) in &ANSWERS {
        let (help, _) = told(alloc, line)?;
        note_bad_examples(&mut wrong, alloc, help.as_str())?;
    }
    Ok(wrong)
}

#[test]
fn help_is_an_answer(rt: HostRuntime) -> Result<(), Fail> {
    let wrong = wrong_answers(rt.alloc())?;
    assert!(rt; wrong.is_empty(), "{wrong}");
    Ok(())
}

#[test]
fn examples_ask_for_commands(rt: HostRuntime) -> Result<(), Fail> {
    let bad = bad_examples(rt.alloc())?;
    assert!(rt; bad.is_empty(), "{bad}");
    Ok(())
}
