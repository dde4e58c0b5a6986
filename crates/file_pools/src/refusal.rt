//! Why a pool in files is not made, opened or put away.
ghost use Rattle.std.specs.Prelude.{◌≡◌};
ghost use Rattle.file_pools.specs.declared.refusal.Refusal.TheVariants as causes;
ghost use Rattle.pool_create.specs.OpenRefusal.TheVariants.{NoMemory};

use std::alloc::{AllocError, AllocFailed};
use std::fmt;

/// Why a pool in files is not made, opened or put away. It prints as its number, its name and its argument, if it has one:
/// `22 TooManyMissing`.
#[derive(Clone, Copy)]
pub enum Refusal {
    /// Another command has one of the files.
    Busy,
    /// A file can't be made anew: one of that name is there, or its folder isn't.
    NotMade,
    /// As the pool's disks are.
    Pool(pool_create::Refusal),
    /// The pool can't be put away now, or that was stopped.
    Export(pool_model::Refusal),
}

impl fmt::Display for Refusal {
    fn fmt<W: fmt::Write>(&self, f: &mut fmt::Formatter<W>) -> fmt::Result {
        match self {
            Refusal::Busy => f.write_str("25 Busy"),
            Refusal::NotMade => f.write_str("2 DiskFault"),
            Refusal::Export(cause) => write!(f, "{cause}"),
            Refusal::Pool(cause) => {
                let number = cause.number();
                let name = cause.name();
                write!(f, "{number} {name}")?;
                let argument = cause.argument();
                if argument.is_empty() {
                    return Ok(());
                }
                write!(f, " {argument}")
            }
        }
    }
}

impl From<AllocError> for Refusal {
    ghost from_gives = { λ _ refusal. refusal ≡ causes.Pool NoMemory };

    fn from(_error: AllocError) -> Refusal {
        Refusal::Pool(pool_create::Refusal::NoMemory)
    }
}

impl<T: Drop> From<AllocFailed<T>> for Refusal {
    ghost from_gives = { λ _ refusal. refusal ≡ causes.Pool NoMemory };

    fn from(_error: AllocFailed<T>) -> Refusal {
        Refusal::Pool(pool_create::Refusal::NoMemory)
    }
}
