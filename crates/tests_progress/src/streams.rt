//! What readers and writers tell of what passes through them.
use progress::Metered;
use std::alloc::Global;
use std::io::{self, Read, Write};
use std::test::Fail;

/// How many MiB pass, whether it is shown, and what is told.
const CASES: [(u64, bool, &str); 4] = [
    (31, true, ""),
    (32, true, "zfs: 32 MiB\n"),
    (65, true, "zfs: 32 MiB\nzfs: 64 MiB\n"),
    (65, false, ""),
];

/// What is told as so many MiB are read, one at a time.
fn told_of_reading(alloc: Global, mebibytes: u64, is_shown: bool) -> Result<String, Fail> {
    let mut buffer = vec![in alloc; 0u8; 1 << 20]?;
    let mut errors = Vec::new(alloc);
    let mut input = Metered::new(io::repeat(7), &mut errors, "zfs", is_shown);
    for _ in 0..mebibytes {
        input.read_exact(buffer.as_mut_slice())?;
    }
    drop(input);
    Ok(String::from_utf8(errors)?)
}

/// And as they are written.
fn told_of_writing(alloc: Global, mebibytes: u64, is_shown: bool) -> Result<String, Fail> {
    let bytes = vec![in alloc; 7u8; 1 << 20]?;
    let mut errors = Vec::new(alloc);
    let mut output = Metered::new(io::sink(), &mut errors, "zfs", is_shown);
    for _ in 0..mebibytes {
        output.write_all(bytes.as_slice())?;
    }
    drop(output);
    Ok(String::from_utf8(errors)?)
}

#[test]
fn each_32_mebibytes_are_told(rt: HostRuntime) -> Result<(), Fail> {
    for (mebibytes, is_shown, wanted) in &CASES {
        let read = told_of_reading(rt.alloc(), *mebibytes, *is_shown)?;
        let written = told_of_writing(rt.alloc(), *mebibytes, *is_shown)?;
        assert!(rt; read.as_str() == *wanted, "{mebibytes}: {read}");
        assert!(rt; written.as_str() == *wanted, "{mebibytes}: {written}");
    }
    Ok(())
}
