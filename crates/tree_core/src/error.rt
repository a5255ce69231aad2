ghost use Rattle.std.specs.Prelude.{◌≡◌};

use pointer_core::{Pointer, Refusal, Rule};
use std::alloc::AllocError;
use thiserror::Error;
use type_core::MakeError;

/// Why a tree isn't read or written.
#[derive(Debug, Drop, Error)]
pub enum TreeError {
    #[error("out of memory")]
    Memory,
    /// The first rule that isn't met, and the place where.
    #[error("refused: {0}")]
    Refused(Refusal),
}

impl From<AllocError> for TreeError {
    ghost use Rattle.std.specs.Prelude.{◌≡◌};
    ghost use Rattle.tree_core.specs.declared.error.TreeError.TheVariants.{Memory};

    ghost from_gives = { λ _ e. e ≡ Memory };

    fn from(_error: AllocError) -> TreeError {
        TreeError::Memory
    }
}

impl From<MakeError> for TreeError {
    ghost use Rattle.std.specs.Prelude.{◌≡◌};
    ghost use Rattle.tree_core.specs.Errors.{tree_error};

    ghost from_gives = { λ made e. e ≡ tree_error made };

    fn from(error: MakeError) -> TreeError {
        match error {
            MakeError::Memory => TreeError::Memory,
            MakeError::Refused(refusal) => TreeError::Refused(refusal),
        }
    }
}

/// A refusal by a rule at a place.
pub fn refuse(path: Pointer, rule: Rule) -> TreeError
    ensures { result ≡ TreeError.Refused (record { path = path; rule = rule }) }
{
    TreeError::Refused(Refusal { path, rule })
}
