//! Why evaluating gives no answer.
use eval_core::Site;
use pointer_core::{Refusal, Rule};
use std::alloc::AllocError;
use thiserror::Error;

/// The first rule that isn't met, and where, without a path.
#[derive(Debug, Drop)]
pub struct Fault {
    pub rule: Rule,
    pub site: Site,
}

/// Why evaluating stops.
#[derive(Debug, Drop)]
pub enum Halt {
    Memory,
    Refused(Fault),
}

impl From<AllocError> for Halt {
    ghost use Rattle.std.specs.Prelude.{◌≡◌};
    ghost use Rattle.view_engine.specs.declared.halt.Halt.TheVariants.{Memory};

    ghost from_gives = { λ _ e. e ≡ Memory };

    fn from(_error: AllocError) -> Halt {
        Halt::Memory
    }
}

/// Why a view or an expression has no answer.
#[derive(Debug, Drop, Error)]
pub enum RunError {
    #[error("out of memory")]
    Memory,
    /// The first rule that isn't met, and the place where.
    #[error("refused: {0}")]
    Refused(Refusal),
}

impl From<AllocError> for RunError {
    ghost use Rattle.std.specs.Prelude.{◌≡◌};
    ghost use Rattle.view_engine.specs.declared.halt.RunError.TheVariants.{Memory};

    ghost from_gives = { λ _ e. e ≡ Memory };

    fn from(_error: AllocError) -> RunError {
        RunError::Memory
    }
}
