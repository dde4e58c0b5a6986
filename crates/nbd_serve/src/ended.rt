//! How a session ends.
use pool_model::Refusal;
use std::alloc::AllocError;

/// Why a session ended otherwise than politely. At every end but `Refused` all that was written is committed.
#[derive(Debug, Clone, Copy, Drop, thiserror::Error)]
pub enum Ended {
    /// The input ended or failed inside the handshake or a request.
    #[error("the input ended inside a request")]
    Torn,
    /// The client broke the protocol: a wrong magic number, unknown client flags, an option or a write that is too long, or a name
    /// with EXPORT_NAME that no export has.
    #[error("the client broke the protocol")]
    Hostile,
    /// The output failed.
    #[error("the output failed")]
    Output,
    /// The last flush was refused: not all that was written is committed.
    #[error("refused {0}")]
    Refused(Refusal),
    /// No memory for an option's data.
    #[error("no memory")]
    NoMemory,
}

impl From<AllocError> for Ended {
    ghost use Rattle.std.specs.Prelude.{◌≡◌};
    ghost use Rattle.nbd_serve.specs.declared.ended.Ended.TheVariants.{NoMemory};

    ghost from_gives = { λ _ ended. ended ≡ NoMemory };

    fn from(_error: AllocError) -> Ended {
        Ended::NoMemory
    }
}
