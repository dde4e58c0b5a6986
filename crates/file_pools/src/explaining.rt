//! What helps who gave files or numbers of which no pool was opened or made.
ghost use Rattle.std.specs.Prelude.{◌<◌};

use block_store::sectors_for_blocks;
use model_disk::{DiskArray, DiskError, FileDisk};
use pool_command::NewPool;
use raidz_map::MAX_CHILDREN;
use std::alloc::Global;
use std::fmt;
use std::fs::{File, Files};
use std::io::ErrorKind;
use vdev_label::{
    LABEL_LEN, LABELS, MAX_SLAB_SHIFT, MAX_SLABS, MIN_SLAB_SHIFT, Refusal, read_label,
};

/// Why a file is no disk of a pool.
#[derive(Clone, Copy)]
pub(crate) enum Strange {
    Missing,
    Unopened,
    NoLabel,
}

impl fmt::Display for Strange {
    fn fmt<W: fmt::Write>(&self, f: &mut fmt::Formatter<W>) -> fmt::Result {
        match self {
            Strange::Missing => f.write_str("no such file"),
            Strange::Unopened => f.write_str("can't be opened"),
            Strange::NoLabel => f.write_str("no disk of a pool"),
        }
    }
}

/// Whether that label of the disk may be whole: so it is too where it can't be read, or there is no memory for it.
fn may_have_label(alloc: Global, disk: FileDisk, number: u64) -> bool
    requires { number < LABELS }
{
    let Ok(disks) = vec![in alloc; disk] else {
        return true;
    };
    let mut disks = DiskArray::new(disks);
    if disks.size(0) < LABELS * LABEL_LEN {
        return false;
    }
    !matches!(
        read_label(alloc, &mut disks, 0, number),
        Err(Refusal::BadLabel(_))
    )
}

/// Why the file at this path is no disk of a pool, where it is none.
pub(crate) fn why_strange<F: Files<File = File>>(
    alloc: Global,
    files: &F,
    path: &str,
) -> Option<Strange> {
    for number in 0..LABELS {
        match FileDisk::open(files, path) {
            Ok(disk) => {
                if may_have_label(alloc, disk, number) {
                    return None;
                }
            }
            Err(DiskError::Io(error)) if error.kind() == ErrorKind::NotFound => {
                return Some(Strange::Missing);
            }
            Err(_) => return Some(Strange::Unopened),
        }
    }
    Some(Strange::NoLabel)
}

/// What doesn't fit of a new pool.
#[derive(Clone, Copy)]
pub(crate) enum Misfit {
    FileSize,
    FileCount { least: u64 },
    MetaslabSize,
    TooManyMetaslabs { count: u64 },
    TooFewMetaslabs { count: u64 },
    /// What is left: the name, or the numbers that the guids are made of.
    Name,
}

impl fmt::Display for Misfit {
    fn fmt<W: fmt::Write>(&self, f: &mut fmt::Formatter<W>) -> fmt::Result {
        match self {
            Misfit::FileSize => f.write_str(
                "--bytes: a file has from 8388608 to 8796093022208 bytes",
            ),
            Misfit::FileCount { least } => write!(
                f,
                "a pool of this type has from {least} to {MAX_CHILDREN} files"
            ),
            Misfit::MetaslabSize => write!(f, "--ms: from {MIN_SLAB_SHIFT} to {MAX_SLAB_SHIFT}"),
            Misfit::TooManyMetaslabs { count } => write!(
                f,
                "{count} metaslabs are more than {MAX_SLABS}: give a larger --ms"
            ),
            Misfit::TooFewMetaslabs { count } => {
                write!(
                    f,
                    "--meta is 1 or more, and less than the {count} metaslabs that there are: give a smaller --ms or larger files"
                )
            }
            Misfit::Name => f.write_str(
                "no pool has this name: 1 to 27 of 'a-z', '0-9', '.', '_' and '-', the first a letter",
            ),
        }
    }
}

/// The first rule that the pool breaks.
pub(crate) fn misfit_of(pool: &NewPool) -> Misfit {
    let Some(sectors) = sectors_for_blocks(pool.bytes) else {
        return Misfit::FileSize;
    };
    let count = pool.files.as_slice().len() as u64;
    let least = u64::from(pool.parities).saturating_add(1);
    if count < least || u64::from(MAX_CHILDREN) < count {
        return Misfit::FileCount { least };
    }
    if pool.shift < MIN_SLAB_SHIFT || MAX_SLAB_SHIFT < pool.shift {
        return Misfit::MetaslabSize;
    }
    let count = sectors * count / (1 << pool.shift);
    if MAX_SLABS < count {
        Misfit::TooManyMetaslabs { count }
    } else if pool.meta == 0 || count <= pool.meta {
        Misfit::TooFewMetaslabs { count }
    } else {
        Misfit::Name
    }
}
