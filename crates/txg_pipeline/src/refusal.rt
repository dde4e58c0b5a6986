//! Why a call is refused.

#[derive(Clone, Copy, Debug, PartialEq, Eq, Drop, thiserror::Error)]
pub enum Refusal {
    #[error("out of memory")]
    NoMemory,
    #[error("the writer has a hold")]
    AlreadyHeld,
    #[error("the writer has no hold")]
    NoHold,
    /// The writer's next number is another one, or the number is above 2^62.
    #[error("the writer's next number is {expected}")]
    OutOfOrder { expected: u64 },
    /// No group is in the state that the call asks for.
    #[error("no group is in the state that is asked for")]
    NotNow,
}

impl From<Refusal> for pool_model::Refusal {
    ghost use Rattle.std.specs.Prelude.{◌≡◌};
    ghost use Rattle.txg_pipeline.specs.Calls.{cause_of};

    ghost from_gives = { λ cause refusal. refusal ≡ cause_of cause };

    fn from(cause: Refusal) -> pool_model::Refusal {
        match cause {
            Refusal::NoMemory => pool_model::Refusal::NoMemory,
            Refusal::AlreadyHeld => pool_model::Refusal::AlreadyHeld,
            Refusal::NoHold => pool_model::Refusal::NoHold,
            Refusal::OutOfOrder { expected } => pool_model::Refusal::OutOfOrder { expected },
            Refusal::NotNow => pool_model::Refusal::NotNow,
        }
    }
}
