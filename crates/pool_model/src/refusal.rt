//! Why a step is refused.
ghost use Rattle.std.specs.Prelude.{◌≡◌};

use std::fmt;

/// Why a step is refused. It prints as its number, its name and its argument, if it has one: `7 OutOfOrder 2`.
#[derive(Clone, Copy, Debug, PartialEq, Eq, Drop)]
pub enum Refusal {
    /// Memory ran out.
    NoMemory,
    /// More columns of a block are lost than its vdev has parities.
    DiskFault,
    /// No free run of the size that a block needs is left.
    NoSpace,
    /// A vdev has more disks out than parities, until the pool is opened again.
    Suspended,
    AlreadyHeld,
    NoHold,
    /// The writer's next number is another one.
    OutOfOrder { expected: u64 },
    NoSuchName,
    /// The volume's creation group is not below the hold's group.
    NotYet,
    Exists,
    OutOfRange,
    Misaligned,
    NotNow,
    /// Clones of the snapshot are there.
    HasClones,
    /// Snapshots of the volume are there.
    HasSnapshots,
    BadName,
    /// The group is not kept.
    GroupGone,
    /// A block pointer, or what it leads to, is not what its parent asks.
    BadPointer,
    /// Enough columns of a block were read, and no choice of them has its SHA-256.
    BadDigest,
    /// A pool of this shape, or over these disks, can't be made.
    BadConfig,
    /// A space map has an entry that has no meaning.
    BadMap,
}

impl Refusal {
    ghost use Rattle.pool_model.specs.Causes.{number_of_cause, name_of_cause};

    /// The number by which a schedule's output and a program's error name it.
    pub fn number(&self) -> u8
        ensures { result ≡ number_of_cause self.now }
    {
        match self {
            Refusal::NoMemory => 1,
            Refusal::DiskFault => 2,
            Refusal::NoSpace => 3,
            Refusal::Suspended => 4,
            Refusal::AlreadyHeld => 5,
            Refusal::NoHold => 6,
            Refusal::OutOfOrder { .. } => 7,
            Refusal::NoSuchName => 8,
            Refusal::NotYet => 9,
            Refusal::Exists => 10,
            Refusal::OutOfRange => 11,
            Refusal::Misaligned => 12,
            Refusal::NotNow => 13,
            Refusal::HasClones => 14,
            Refusal::HasSnapshots => 15,
            Refusal::BadName => 16,
            Refusal::GroupGone => 17,
            Refusal::BadPointer => 20,
            Refusal::BadDigest => 21,
            Refusal::BadConfig => 24,
            Refusal::BadMap => 27,
        }
    }

    /// The name that stands after the number.
    pub fn name(&self) -> &'static str
        ensures { result.now ≡ name_of_cause self.now }
    {
        match self {
            Refusal::NoMemory => "NoMemory",
            Refusal::DiskFault => "DiskFault",
            Refusal::NoSpace => "NoSpace",
            Refusal::Suspended => "Suspended",
            Refusal::AlreadyHeld => "AlreadyHeld",
            Refusal::NoHold => "NoHold",
            Refusal::OutOfOrder { .. } => "OutOfOrder",
            Refusal::NoSuchName => "NoSuchName",
            Refusal::NotYet => "NotYet",
            Refusal::Exists => "Exists",
            Refusal::OutOfRange => "OutOfRange",
            Refusal::Misaligned => "Misaligned",
            Refusal::NotNow => "NotNow",
            Refusal::HasClones => "HasClones",
            Refusal::HasSnapshots => "HasSnapshots",
            Refusal::BadName => "BadName",
            Refusal::GroupGone => "GroupGone",
            Refusal::BadPointer => "BadPointer",
            Refusal::BadDigest => "BadDigest",
            Refusal::BadConfig => "BadConfig",
            Refusal::BadMap => "BadMap",
        }
    }
}

impl fmt::Display for Refusal {
    fn fmt<W: fmt::Write>(&self, f: &mut fmt::Formatter<W>) -> fmt::Result {
        let number = self.number();
        let name = self.name();
        match self {
            Refusal::OutOfOrder { expected } => write!(f, "{number} {name} {expected}"),
            _ => write!(f, "{number} {name}"),
        }
    }
}

impl std::error::Error for Refusal {}
