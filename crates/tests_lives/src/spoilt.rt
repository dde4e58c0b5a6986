//! A pool of which one disk holds other bytes in place of its blocks reads and writes on, and is whole again behind a scrub.
use crate::lived::config;
use crate::scrubbed::{there, wrong, wrong_scrubbed};
use model_disk::MemDisk;
use pool_create::{OpenedPool, create, open};
use pool_format::PoolIdentity;
use pool_open::into_disks;
use std::alloc::{AllocError, Global};
use std::test::Fail;

/// What the pool gets while its disks are whole.
const MADE: [(&str, &str); 9] = [
    ("hold 1", "held 4"),
    ("create 1 1 v 1024 512", "receipt 4"),
    ("release 1", "released"),
    ("sync", "committed 4"),
    ("hold 1", "held 5"),
    ("write 1 2 v 0 512 aa", "receipt 5"),
    ("release 1", "released"),
    ("sync", "committed 5"),
    ("read v 0 1024", "aax512 00x512"),
];

/// With the spoilt disk it is read as it was, and written on.
const SPOILT: [(&str, &str); 6] = [
    ("read v 0 1024", "aax512 00x512"),
    ("hold 1", "held 6"),
    ("write 1 1 v 512 512 bb", "receipt 6"),
    ("release 1", "released"),
    ("sync", "committed 6"),
    ("read v 0 1024", "aax512 bbx512"),
];

/// Behind the scrub another disk may go out.
const MENDED: [(&str, &str); 2] = [("out 0", "out"), ("read v 0 1024", "aax512 bbx512")];

/// The bytes of a disk that lie between its labels: from 4 MiB on, up to 512 KiB before its end of 8 MiB.
const BLOCKS: (usize, usize) = (0x40_0000, 0x78_0000);

/// A disk with the same labels, and a5 in place of all blocks.
fn spoil(alloc: Global, disk: MemDisk) -> Result<MemDisk, AllocError> {
    let bytes = disk.into_bytes();
    let mut spoilt = Vec::new(alloc);
    'copying: for (at, byte) in bytes.iter().enumerate() {
        let is_block = BLOCKS.0 <= at && at < BLOCKS.1;
        spoilt.push(if is_block { 0xa5 } else { *byte })?;
    }
    Ok(MemDisk::holding(spoilt))
}

/// The disks of such a pool, of which number 1 is spoilt.
fn spoilt_disks(alloc: Global) -> Result<Vec<MemDisk>, Fail> {
    let name = String::from_str(alloc, "pool")?;
    let identity = PoolIdentity { name, guid: 1 };
    let disks = MemDisk::several(alloc, 3, 0x80_0000)?;
    let Ok(made) = create(alloc, disks, identity, config(alloc)?) else {
        return Err(Fail::new("not made"));
    };
    let OpenedPool { mut core, .. } = made;
    if !wrong(alloc, &mut core, &MADE)?.is_empty() {
        return Err(Fail::new("not written"));
    }
    let mut disks = Vec::new(alloc);
    'disks: for (number, disk) in there(alloc, core.into_disks())?.into_iter().enumerate() {
        let disk = if number == 1 {
            spoil(alloc, disk)?
        } else {
            disk
        };
        disks.push(disk)?;
    }
    Ok(disks)
}

#[test]
fn a_spoilt_disk_loses_nothing(rt: HostRuntime) -> Result<(), Fail> {
    let alloc: Global = rt.alloc();
    let Ok((pool, from)) = open(alloc, spoilt_disks(alloc)?, 0) else {
        return Err(Fail::new("not opened"));
    };
    let OpenedPool {
        mut core,
        uberblock,
    } = pool;
    let opened = wrong(alloc, &mut core, &SPOILT)?;
    assert!(rt; opened.is_empty(), "{opened}");
    let disks = into_disks(OpenedPool { core, uberblock }, from.handed);
    let (behind, counts) = wrong_scrubbed(alloc, disks, &MENDED)?;
    assert!(rt; behind.is_empty(), "{behind}");
    assert!(rt; counts.group == 6 && counts.findings > 0 && counts.left == 0);
    Ok(())
}
