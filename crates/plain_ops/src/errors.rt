use std::alloc::AllocError;
use thiserror::Error;

/// Why an operator gave no value.
#[derive(Clone, Copy, Debug, PartialEq, Eq, Error)]
pub enum OpError {
    #[error("out of memory")]
    Memory,
    #[error("an operand is of another kind")]
    Kind,
    #[error("the result lies outside the values")]
    Range,
    #[error("the index lies outside the list")]
    Index,
}

impl From<AllocError> for OpError {
    ghost use Rattle.std.specs.Prelude.{◌≡◌};
    ghost use Rattle.plain_ops.specs.declared.errors.OpError.TheVariants.{Memory};

    ghost from_gives = { λ _ e. e ≡ Memory };

    fn from(_error: AllocError) -> OpError {
        OpError::Memory
    }
}
