//! The words that `zfs` takes: its commands, options and what stands behind them, and the help on each.
ghost use Rattle.std.specs.Prelude.{IfOk};
ghost use Rattle.pool_command.specs.Words.{IsOfApp, zfs_app};

use crate::arguments::{
    CommandTable, OWN_FILES, Place, PlaceKind, ProgramTable, VOLUME, VOLUME_OR_SNAPSHOT, program,
};
use clap::Command;
use std::alloc::{AllocError, Global};

const NOTES: &str = "\
Files stand last on each line: nothing else says where the disks of a pool are.
A file that can't be opened counts as an absent disk. A file whose name begins
with a hyphen is given behind '--'.

Every command opens the pool on the files given last, and so claims it: it writes
to each disk, also where it only looks. Each file is locked meanwhile: another
command on it is refused. What a command changes is committed before it ends.

A volume is named without its pool, and a snapshot VOLUME@SNAPSHOT.

Exit status:
  0  done
  1  refused: standard error has 'zfs: refused NUMBER NAME'
  2  a fault of the line, found before a file is touched, or of standard input or
     output; or who is served broke the protocol

Refusals, and what helps:
  2 DiskFault        a disk failed: go on without its file, and look before you
                     repeat what you asked: it may be committed all the same
  3 NoSpace          destroy snapshots and volumes first
  4 Suspended        too many disks failed: open it again without them
  8 NoSuchName       'zfs list' has the names; a snapshot is never written
  10 Exists          another name
  11 OutOfRange      past the end, more than 1048576 bytes in one write or read,
                     or a volume smaller than its block or larger than
                     1099511627776
  12 Misaligned      offset and length of a write are multiples of 512, and a
                     volume's size is one of its block
  14 HasClones       destroy the snapshot's clones first
  15 HasSnapshots    destroy the volume's snapshots first
  16 BadName         1 to 27 of 'a-z', '0-9', '.', '_' and '-', the first a letter
  18 BadLabel        none of the files is a disk of a pool
  19 NoUberblock     no file has an uberblock that is whole
  22 TooManyMissing  give more of the pool's files
  23 PoolMismatch    files of two pools, or a disk twice
  25 Busy            another command has a file: wait for it

Example:
  zfs create --size 1048576 --block 8192 v a b c
  zfs list a b c";

const CREATE_NOTES: &str = "\
It reads as zeros, and takes no room before it is written: it may be larger than
the pool.

Example:
  zfs create --size 1048576 --block 8192 v a b c";

const SNAPSHOT_NOTES: &str = "\
Example:
  zfs snapshot v@monday a b c";

const CLONE_NOTES: &str = "\
Example:
  zfs clone v@monday w a b c";

const DESTROY_NOTES: &str = "\
A volume's snapshots are destroyed before it, and a snapshot's clones before the
snapshot.

Example:
  zfs destroy v@monday a b c";

const LIST_NOTES: &str = "\
It prints a line for each name, in the order of their bytes: SIZE and BLOCK in
bytes, and GROUP, the group that made it.

Example:
  zfs list a b c";

const WRITE_NOTES: &str = "\
One of --at and --all is given. With --at the input is one write: 512 to 1048576
bytes, a multiple of 512. With --all it may be as long as the volume, a multiple
of 512: it is committed on the way, and of an input that is cut short a front
stands in the volume.

Example:
  zfs write --at 0 v a b c < sector
  zfs write --all v a b c < image";

const READ_NOTES: &str = "\
--at and --len are given both, or neither: then all of it is printed.

Example:
  zfs read --at 0 --len 512 v a b c > sector
  zfs read v@monday a b c > image";

const SERVE_NOTES: &str = "\
It speaks the protocol NBD with whoever is at the other end of its standard input
and output, until that ends. What the other end has flushed is committed. A
snapshot is served for reading alone. Other commands on the files are refused
meanwhile.

Example:
  zfs serve v a b c
  socat -t 60 UNIX-LISTEN:v.sock EXEC:'zfs serve v a b c'";

const SNAPSHOT: &str = "The snapshot: a volume's name, '@', and a name of its own";

const FILES: Place = Place {
    name: "files",
    help: OWN_FILES,
    kind: PlaceKind::Files,
};

const NAME: Place = Place {
    name: "name",
    help: VOLUME,
    kind: PlaceKind::Word("NAME"),
};

const ANY_NAME: Place = Place {
    name: "name",
    help: VOLUME_OR_SNAPSHOT,
    kind: PlaceKind::Word("NAME"),
};

const SNAPSHOT_NAME: Place = Place {
    name: "snapshot",
    help: SNAPSHOT,
    kind: PlaceKind::Word("VOLUME@SNAPSHOT"),
};

const CREATE: &[Place] = &[
    Place {
        name: "size",
        help: "Bytes of the volume: a multiple of its block, up to 1099511627776",
        kind: PlaceKind::Number,
    },
    Place {
        name: "block",
        help: "Bytes of a block: a power of two from 512 to 131072",
        kind: PlaceKind::Number,
    },
    NAME,
    FILES,
];

const WRITE: &[Place] = &[
    Place {
        name: "at",
        help: "Where the one write begins, in bytes: a multiple of 512",
        kind: PlaceKind::GivenNumber,
    },
    Place {
        name: "all",
        help: "Write all of the input, from the volume's first byte on",
        kind: PlaceKind::Flag,
    },
    NAME,
    FILES,
];

const READ: &[Place] = &[
    Place {
        name: "at",
        help: "Where they begin, in bytes",
        kind: PlaceKind::GivenNumber,
    },
    Place {
        name: "len",
        help: "How many bytes: at most 1048576",
        kind: PlaceKind::GivenNumber,
    },
    ANY_NAME,
    FILES,
];

const ZFS: ProgramTable = ProgramTable {
    name: "zfs",
    about: "Makes volumes and snapshots, and reads and writes them",
    more: NOTES,
    commands: &[
        CommandTable {
            name: "create",
            about: "Makes a volume",
            more: CREATE_NOTES,
            places: CREATE,
        },
        CommandTable {
            name: "snapshot",
            about: "Keeps what a volume holds",
            more: SNAPSHOT_NOTES,
            places: &[SNAPSHOT_NAME, FILES],
        },
        CommandTable {
            name: "clone",
            about: "Makes a volume that holds what a snapshot holds",
            more: CLONE_NOTES,
            places: &[SNAPSHOT_NAME, NAME, FILES],
        },
        CommandTable {
            name: "destroy",
            about: "Takes away a volume, or a snapshot",
            more: DESTROY_NOTES,
            places: &[ANY_NAME, FILES],
        },
        CommandTable {
            name: "list",
            about: "Lists volumes and snapshots",
            more: LIST_NOTES,
            places: &[FILES],
        },
        CommandTable {
            name: "write",
            about: "Writes standard input to a volume",
            more: WRITE_NOTES,
            places: WRITE,
        },
        CommandTable {
            name: "read",
            about: "Prints bytes of a volume, or of a snapshot",
            more: READ_NOTES,
            places: READ,
        },
        CommandTable {
            name: "serve",
            about: "Serves a volume as a network block device",
            more: SERVE_NOTES,
            places: &[ANY_NAME, FILES],
        },
    ],
};

/// The command line of `zfs`.
pub(crate) fn zfs<'a>(alloc: Global) -> Result<Command<'a>, AllocError>
    ensures { IfOk result (IsOfApp zfs_app) }
{
    program(alloc, &ZFS)
}
