//! The words that `zpool` takes: its commands, options and what stands behind them, and the help on each.
ghost use Rattle.std.specs.Prelude.{IfOk};
ghost use Rattle.pool_command.specs.Words.{IsOfApp, zpool_app};

use crate::arguments::{CommandTable, OWN_FILES, Place, PlaceKind, ProgramTable, program};
use clap::Command;
use std::alloc::{AllocError, Global};

const NOTES: &str = "\
Files stand last on each line: nothing else says where the disks of a pool are.
A file that can't be opened counts as an absent disk. 'create' and 'add' make
their new files, which must not be there. A file whose name begins with a hyphen
is given behind '--'.

Every command but 'create' opens the pool on the files given last ('add' on those
before the new ones), and so claims it: it writes to each disk, also where it only
looks. Each file is locked meanwhile: another command on it is refused. What a
command changes is committed before it ends.

'add' is not there yet: it ends with status 2, and opens nothing.

Exit status:
  0  done
  1  refused: standard error has 'zpool: refused NUMBER NAME'
  2  a fault of the line, found before a file is touched, or of standard input or
     output

Refusals, and what helps:
  2 DiskFault        'create': a file is there already, or can't be made; else a
                     disk failed: go on without its file, and look before you
                     repeat what you asked: it may be committed all the same
  3 NoSpace          'create': larger files, or more metaslabs with --meta;
                     'scrub': destroy snapshots first
  4 Suspended        too many disks failed: open it again without them
  18 BadLabel        none of the files is a disk of a pool
  19 NoUberblock     no file has an uberblock that is whole
  22 TooManyMissing  give more of the pool's files
  23 PoolMismatch    files of two pools, or a disk twice
  24 BadConfig       'create': too few or too many files, or a size out of range
  25 Busy            another command has a file: wait for it

Example:
  zpool create --seed 7 --bytes 8388608 tank raidz1 a b c
  zpool status a b c";

const CREATE_NOTES: &str = "\
The pool has one vdev of all files, 2 to 32 of them for raidz1 and 3 to 32 for
raidz2: any one file may be lost, or with raidz2 any two. The order of the files
is that of the disks in 'zpool status'. A vdev has at most 1024 metaslabs.

Example:
  zpool create --seed 7 --bytes 8388608 tank raidz1 a b c";

const ADD_NOTES: &str = "\
It is not there yet. The pool is to be opened on the files before the new ones.
The new vdev has as many metaslabs for the pool's own blocks, and of the same
size, as the first one. A pool has at most 8 vdevs.

Example:
  zpool add --seed 8 --bytes 8388608 --type raidz1 --new 3 a b c d e f";

const STATUS_NOTES: &str = "\
It prints the pool's name, its claim and its last committed group, and each vdev
with its disks. A disk is online, absent (it is not among the files, or shows no
pool), or stale FROM TO: it lacks what the groups FROM to TO wrote.

Example:
  zpool status a b c";

const SCRUB_NOTES: &str = "\
It reads each column of every block that the last group G holds, writes anew what
is unreadable or wrong on a disk that is there, reads all again, and commits a
group. So a disk that was stale, and is whole again, is online. It prints
'group G findings N': N columns were unreadable or wrong. Where some still are, a
second line is 'left M': those of absent or failing disks, and of blocks that too
few disks have. The pool is opened once, so its claim rises by one.

Example:
  zpool scrub a b c";

const EXPORT_NOTES: &str = "\
The labels of the disks say then that the pool is put away. The next command on
these files opens it again.

Example:
  zpool export a b c";

const SEED: &str = "The guids are made from this number: another one for each pool and vdev";

const BYTES: &str = "Bytes of each new file, from 8388608 to 8796093022208";

const TYPE: &str = "raidz1 or raidz2";

const FILES: Place = Place {
    name: "files",
    help: OWN_FILES,
    kind: PlaceKind::Files,
};

const CREATE: &[Place] = &[
    Place {
        name: "seed",
        help: SEED,
        kind: PlaceKind::Number,
    },
    Place {
        name: "bytes",
        help: BYTES,
        kind: PlaceKind::Number,
    },
    Place {
        name: "meta",
        help: "Metaslabs for the pool's own blocks: 1 or more, and not all",
        kind: PlaceKind::NumberOr("2"),
    },
    Place {
        name: "ms",
        help: "A metaslab has 2^N sectors of 512 bytes: N from 12 to 20",
        kind: PlaceKind::NumberOr("12"),
    },
    Place {
        name: "name",
        help: "The pool: 1 to 27 of 'a-z', '0-9', '.', '_' and '-', the first a letter",
        kind: PlaceKind::Word("NAME"),
    },
    Place {
        name: "type",
        help: TYPE,
        kind: PlaceKind::Word("TYPE"),
    },
    Place {
        name: "files",
        help: "The files, one a disk: none of them is there yet",
        kind: PlaceKind::Files,
    },
];

const ADD: &[Place] = &[
    Place {
        name: "seed",
        help: SEED,
        kind: PlaceKind::Number,
    },
    Place {
        name: "bytes",
        help: BYTES,
        kind: PlaceKind::Number,
    },
    Place {
        name: "type",
        help: TYPE,
        kind: PlaceKind::Letters("TYPE"),
    },
    Place {
        name: "new",
        help: "The last N files are new: 1 or more, and not all",
        kind: PlaceKind::Number,
    },
    Place {
        name: "files",
        help: "The files of the pool's disks, and then the new ones",
        kind: PlaceKind::Files,
    },
];

const ZPOOL: ProgramTable = ProgramTable {
    name: "zpool",
    about: "Makes pools in files, and looks after them",
    more: NOTES,
    commands: &[
        CommandTable {
            name: "create",
            about: "Makes a pool in new files",
            more: CREATE_NOTES,
            places: CREATE,
        },
        CommandTable {
            name: "add",
            about: "Gives a pool one vdev more, in new files",
            more: ADD_NOTES,
            places: ADD,
        },
        CommandTable {
            name: "status",
            about: "Prints a pool and the state of its disks",
            more: STATUS_NOTES,
            places: &[FILES],
        },
        CommandTable {
            name: "scrub",
            about: "Reads all that a pool holds, and repairs what is wrong",
            more: SCRUB_NOTES,
            places: &[FILES],
        },
        CommandTable {
            name: "export",
            about: "Puts a pool away",
            more: EXPORT_NOTES,
            places: &[FILES],
        },
    ],
};

/// The command line of `zpool`.
pub(crate) fn zpool<'a>(alloc: Global) -> Result<Command<'a>, AllocError>
    ensures { IfOk result (IsOfApp zpool_app) }
{
    program(alloc, &ZPOOL)
}
