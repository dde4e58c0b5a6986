//! Why a pool in memory is not made, opened or put away.
use std::alloc::AllocError;
use std::fmt;

/// Why a pool in memory is not made, opened or put away. It prints as its number, its name and its argument, if it has one.
#[derive(Clone, Copy)]
pub(crate) enum Refusal {
    /// A disk of that name is there.
    NotMade,
    Pool(pool_create::Refusal),
    Export(pool_model::Refusal),
}

impl fmt::Display for Refusal {
    fn fmt<W: fmt::Write>(&self, f: &mut fmt::Formatter<W>) -> fmt::Result {
        match self {
            Refusal::NotMade => f.write_str("2 DiskFault"),
            Refusal::Export(cause) => write!(f, "{cause}"),
            Refusal::Pool(cause) => {
                let (number, name) = (cause.number(), cause.name());
                write!(f, "{number} {name}")?;
                match cause.argument() {
                    "" => Ok(()),
                    argument => write!(f, " {argument}"),
                }
            }
        }
    }
}

impl From<AllocError> for Refusal {
    ghost from_gives = { λ _ _. Unit {0} };

    fn from(_error: AllocError) -> Refusal {
        Refusal::Pool(pool_create::Refusal::NoMemory)
    }
}
