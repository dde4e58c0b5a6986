//! What the command lines ask for.
use crate::files::Files;
use pool_model::Name;

/// What a line asks for, by its program.
#[derive(Debug, Drop)]
pub enum Command {
    Zpool(ZpoolCommand),
    Zfs(ZfsCommand),
}

/// What a line of `zpool` asks for. The files are those of the pool's disks, in any order.
#[derive(Debug, Drop)]
pub enum ZpoolCommand {
    /// Makes a pool.
    Create(NewPool),
    /// Gives a pool one vdev more.
    Add(NewVdev),
    /// Prints the pool and its disks.
    Status { files: Files },
    /// Reads all that the pool holds, and repairs what is wrong.
    Scrub { files: Files },
    /// Puts the pool away.
    Export { files: Files },
}

/// A pool in new files. No number and no name is judged here, but that there is a type with so many parities.
#[derive(Debug, Drop)]
pub struct NewPool {
    /// Its guids are made from this number.
    pub seed: u64,
    /// Of each file.
    pub bytes: u64,
    /// How many metaslabs are for the pool's own blocks.
    pub meta: u64,
    /// A metaslab has two to the power of this many sectors of 512 bytes.
    pub shift: u64,
    /// The pool's.
    pub name: Name,
    /// 1 or 2.
    pub parities: u32,
    /// The children of its one vdev, in order.
    pub files: Files,
}

/// A vdev in new files, for a pool that is there.
#[derive(Debug, Drop)]
pub struct NewVdev {
    /// Its guids are made from this number.
    pub seed: u64,
    /// Of each new file.
    pub bytes: u64,
    /// 1 or 2.
    pub parities: u32,
    /// Those of the pool: one at least.
    pub files: Files,
    /// The children of the new vdev, in order: one at least.
    pub new_files: Files,
}

/// What a line of `zfs` asks for. The files are those of the pool's disks, in any order. Names and numbers stand as the line has
/// them: whether they are good ones is for the pool to say.
#[derive(Debug, Drop)]
pub enum ZfsCommand {
    /// Makes a volume.
    Create {
        /// In bytes.
        size: u64,
        /// In bytes.
        block_size: u64,
        name: Name,
        files: Files,
    },
    /// Takes a snapshot of a volume.
    Snapshot {
        volume: Name,
        /// What stands behind the first '@' of the snapshot's name.
        part: Name,
        files: Files,
    },
    /// Makes a volume that has what a snapshot has.
    Clone {
        /// The snapshot's whole name.
        snapshot: Name,
        /// The clone's.
        name: Name,
        files: Files,
    },
    /// Takes away a volume or a snapshot.
    Destroy {
        name: Name,
        files: Files,
    },
    /// Prints the volumes and snapshots.
    List {
        files: Files,
    },
    /// Writes what stands on the input, in one write.
    Write {
        /// In bytes.
        offset: u64,
        name: Name,
        files: Files,
    },
    /// Writes the input to its end from the volume's first byte on, in as many writes as it takes.
    WriteAll {
        name: Name,
        files: Files,
    },
    /// Prints a range of a volume or a snapshot.
    Read {
        /// In bytes.
        offset: u64,
        /// In bytes.
        len: u64,
        name: Name,
        files: Files,
    },
    /// Prints the whole of a volume or a snapshot.
    ReadAll {
        name: Name,
        files: Files,
    },
    /// Serves a volume or a snapshot as a network block device, over standard input and output.
    Serve {
        name: Name,
        files: Files,
    },
}
