//! Disks in files, of which some are changed behind the pool's back.
use crate::playing::{Player, wrong_replies};
use block_store::VdevConfig;
use model_disk::FileDisk;
use pool_core::Core;
use raidz_map::Geometry;
use std::alloc::Global;
use std::fs::{self, File, Files, OpenOptions};
use std::os::unix::fs::FileExt;
use std::test::Fail;

const PATHS: [&str; 3] = ["tests_pool_0.img", "tests_pool_1.img", "tests_pool_2.img"];

const DISK_BYTES: u64 = 0x80_0000;

/// The sectors of a disk that are for blocks.
const FIRST_BYTE: u64 = 0x40_0000;

const BLOCK_BYTES: usize = 0x38_0000;

/// Group 5 has a block of the volume v.
const COMMITTED: &str = "hold 1 -> held 4
create 1 1 v 4096 1024 -> receipt 4
release 1 -> released
sync -> committed 4
hold 1 -> held 5
write 1 2 v 0 1024 07 -> receipt 5
release 1 -> released
sync -> committed 5";

/// Which disks are changed, and a read of the block behind that.
const CHANGED: [([bool; 3], &str); 6] = [
    ([false, false, false], "read v 0 1024 -> 07x1024"),
    ([true, false, false], "read v 0 1024 -> 07x1024"),
    ([false, true, false], "read v 0 1024 -> 07x1024"),
    ([false, false, true], "read v 0 1024 -> 07x1024"),
    ([true, true, false], "read v 0 1024 -> refused 21 BadDigest"),
    ([false, true, true], "read v 0 1024 -> refused 21 BadDigest"),
];

/// Three new files.
fn disks<R: Files<File = File>>(alloc: Global, files: &R) -> Result<Vec<FileDisk>, Fail> {
    let mut disks = Vec::new(alloc);
    for path in &PATHS {
        let _ = fs::remove_file(files, path);
        disks.push(FileDisk::create(files, path, DISK_BYTES)?)?;
    }
    Ok(disks)
}

/// Writes byte a5 over all sectors for blocks of these disks.
fn change<R: Files<File = File>>(
    alloc: Global,
    files: &R,
    changed: &[bool; 3],
) -> Result<(), Fail> {
    let bytes = vec![in alloc; 0xa5; BLOCK_BYTES]?;
    for (path, is_changed) in PATHS.iter().zip(changed.iter()) {
        if *is_changed {
            let file = OpenOptions::new().write(true).open(files, path)?;
            file.write_all_at(&bytes, FIRST_BYTE)?;
        }
    }
    Ok(())
}

/// What a pool of one vdev over the files, with one parity, replies otherwise where these are changed once the block is committed.
fn wrong_behind<R: Files<File = File>>(
    alloc: Global,
    files: &R,
    changed: &[bool; 3],
    read: &str,
) -> Result<String, Fail> {
    let vdev = VdevConfig {
        geometry: Geometry::new(3, 1, 9)?,
        metaslab_shift: 12,
        meta_slabs: 1,
    };
    let core = Core::create(alloc, disks(alloc, files)?, &[vdev])?;
    let missing = Vec::new(alloc);
    let mut player = Player { core, missing };
    let mut wrong = wrong_replies(alloc, &mut player, COMMITTED)?;
    change(alloc, files, changed)?;
    wrong.push_str(wrong_replies(alloc, &mut player, read)?.as_str())?;
    Ok(wrong)
}

#[test]
fn changed_disks_are_found_out(rt: HostRuntime) -> Result<(), Fail> {
    for (changed, read) in &CHANGED {
        let wrong = wrong_behind(rt.alloc(), &rt, changed, read)?;
        assert!(rt; wrong.is_empty(), "{read}: {wrong}");
    }
    for path in &PATHS {
        fs::remove_file(&rt, path)?;
    }
    Ok(())
}
