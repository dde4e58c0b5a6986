//! Why a command ends before its end.
use pool_model::Refusal;
use std::alloc::AllocError;
use std::fmt;

/// Why a command ends before its end. It prints as it stands behind the program's name.
#[derive(Drop)]
pub enum Stop<R> {
    /// The pool is not made, opened or put away.
    Pools(R),
    /// The pool refuses a step; or memory ran out.
    Pool(Refusal),
    /// The change is committed, and a disk failed on the way: what it lacks is in the table of stale spans, from that group or the next one on.
    DiskLost,
    /// Standard input failed: of a write of one range, before any file was opened. Or it ended inside a request of a session.
    Input,
    /// Who is at the other end of a session breaks its protocol.
    Protocol,
    /// Standard output failed, when all was done but that.
    Output,
    /// A command that isn't there yet.
    NotThere,
}

impl<R> From<AllocError> for Stop<R> {
    ghost use Rattle.std.specs.Prelude.{◌≡◌};
    ghost use Rattle.pool_model.specs.declared.refusal.Refusal.TheVariants.{NoMemory};
    ghost use Rattle.commands.specs.declared.stop.Stop.TheVariants.{Pool};

    ghost from_gives = { λ _ stop. stop ≡ Pool NoMemory };

    fn from(_error: AllocError) -> Stop<R> {
        Stop::Pool(Refusal::NoMemory)
    }
}

impl<R: fmt::Display> fmt::Display for Stop<R> {
    fn fmt<W: fmt::Write>(&self, f: &mut fmt::Formatter<W>) -> fmt::Result {
        match self {
            Stop::Pools(cause) => write!(f, "refused {cause}"),
            Stop::Pool(cause) => write!(f, "refused {cause}"),
            Stop::DiskLost => f.write_str("refused 2 DiskFault"),
            Stop::Input => f.write_str("input"),
            Stop::Protocol => f.write_str("protocol"),
            Stop::Output => f.write_str("output"),
            Stop::NotThere => f.write_str("not there yet"),
        }
    }
}
