//! Pools in files, which are closed and opened anew, also where some of them aren't what they were.
use crate::pools::{DISK_BYTES, blocks_of, fill, make};
use model_disk::FileDisk;
use pool_open::{OpenedPool, open};
use std::alloc::Global;
use std::fs::{self, File, Files, OpenOptions};
use std::test::Fail;

/// What is handed in for each of the three files of a pool that was filled, and what an open gives: the group and the first byte of each
/// block of the volume, and the first child that is absent.
///
/// `whole` is the file as the pool left it, and `short` the file without the last of its four labels; `shrunk` loses the label once it was
/// opened. `zeros` is a file of as many zeros, and `other` the file of another pool.
///
/// With one parity the pool opens without one of its files. A file that was cut has less than the 8 MiB of the least disk, so that
/// nothing is read of it; of one that is cut later a label can't be read; and a file of zeros has no valid label: for each of them the
/// child is absent. Without two of its files the pool is refused, and where no label is valid it isn't known whose they are.
/// A valid label of another pool is refused even where the other files would do: whoever handed it in mistook it.
const HANDED_IN: [(&str, &str); 7] = [
    (
        "whole whole whole",
        "(Some(5), Some((0, 170))) absent: None",
    ),
    (
        "short whole whole",
        "(Some(5), Some((0, 170))) absent: Some(0)",
    ),
    (
        "whole shrunk whole",
        "(Some(5), Some((0, 170))) absent: Some(1)",
    ),
    (
        "whole whole zeros",
        "(Some(5), Some((0, 170))) absent: Some(2)",
    ),
    ("whole other whole", "PoolMismatch"),
    ("short whole zeros", "TooManyMissing"),
    ("zeros zeros zeros", "BadLabel(Tail)"),
];

/// The files of the pool, and beside each one of another pool.
const PATHS: [(&str, &str); 3] = [
    ("tests_open_0.img", "tests_open_3.img"),
    ("tests_open_1.img", "tests_open_4.img"),
    ("tests_open_2.img", "tests_open_5.img"),
];

/// Of a file without the last of its four labels.
const SHORT_BYTES: u64 = 0x7c_0000;

/// Removes the files of both pools.
fn remove_all<R: Files<File = File>>(files: &R) {
    'paths: for (own, other) in &PATHS {
        let _ = fs::remove_file(files, own);
        let _ = fs::remove_file(files, other);
    }
}

/// Makes the pool of guid 1, or the other one, of guid 2, in new files and fills it. The files are closed then.
fn write_pool<R: Files<File = File>>(alloc: Global, files: &R, guid: u64) -> Result<(), Fail> {
    let mut disks = Vec::new(alloc);
    'paths: for (own, other) in &PATHS {
        let path = if guid == 1 { own } else { other };
        disks.push(FileDisk::create(files, path, DISK_BYTES as u64)?)?;
    }
    match make(alloc, disks, guid)? {
        Ok(OpenedPool { mut core, .. }) => {
            fill(alloc, &mut core)?;
            Ok(())
        }
        Err((refusal, _)) => Err(Fail::from(refusal)),
    }
}

/// Gives the file another length: its end is gone, or zeros are added.
fn resize<R: Files<File = File>>(files: &R, path: &str, size: u64) -> Result<(), Fail> {
    let file = OpenOptions::new().write(true).open(files, path)?;
    file.set_len(size)?;
    Ok(())
}

/// The disk that is handed in for a file of the pool, beside which stands one of the other.
fn disk_of<R: Files<File = File>>(
    files: &R,
    path: &str,
    other: &str,
    given: &str,
) -> Result<FileDisk, Fail> {
    match given {
        "whole" => {}
        "short" => resize(files, path, SHORT_BYTES)?,
        "shrunk" => {
            let disk = FileDisk::open(files, path)?;
            resize(files, path, SHORT_BYTES)?;
            return Ok(disk);
        }
        "zeros" => {
            resize(files, path, 0)?;
            resize(files, path, DISK_BYTES as u64)?;
        }
        "other" => return Ok(FileDisk::open(files, other)?),
        _ => return Err(Fail::new(format_args!("no file {given}"))),
    }
    Ok(FileDisk::open(files, path)?)
}

/// Makes two pools, and opens the first on files that are handed in so.
fn reopened<R: Files<File = File>>(alloc: Global, files: &R, line: &str) -> Result<String, Fail> {
    remove_all(files);
    write_pool(alloc, files, 1)?;
    write_pool(alloc, files, 2)?;
    let mut disks = Vec::new(alloc);
    'given: for ((own, other), given) in PATHS.iter().zip(line.split_whitespace()) {
        disks.push(disk_of(files, own, other, given)?)?;
    }
    let (pool, _) = match open(alloc, disks, 0) {
        Ok(opened) => opened,
        Err(failed) => return Ok(format!(in alloc; "{:?}", failed.refusal())?),
    };
    let OpenedPool {
        mut core,
        uberblock,
    } = pool;
    let blocks = blocks_of(alloc, &mut core);
    let members = core.into_disks();
    let absent = members.iter().position(|member| member.is_absent());
    let shown = (Some(uberblock.group), blocks?);
    Ok(format!(in alloc; "{shown:?} absent: {absent:?}")?)
}

/// Each row's files are made anew, and removed in the end.
#[test]
fn pools_in_files_open_again(rt: HostRuntime) -> Result<(), Fail> {
    'rows: for (line, wanted) in &HANDED_IN {
        let came = reopened(rt.alloc(), &rt, line)?;
        assert!(rt; came.as_str() == *wanted, "{line} -> {came}");
    }
    remove_all(&rt);
    Ok(())
}
