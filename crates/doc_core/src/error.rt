use pointer_core::Refusal;
use std::alloc::AllocError;
use thiserror::Error;
use tree_core::TreeError;
use type_core::MakeError;
use view_engine::RunError;

/// Why a document isn't made, read or changed.
#[derive(Debug, Drop, Error)]
pub enum DocError {
    #[error("out of memory")]
    Memory,
    /// The first rule that isn't met, and the place where.
    #[error("refused: {0}")]
    Refused(Refusal),
}

impl From<AllocError> for DocError {
    ghost use Rattle.std.specs.Prelude.{◌≡◌};
    ghost use Rattle.doc_core.specs.declared.error.DocError.TheVariants.{Memory};

    ghost from_gives = { λ _ e. e ≡ Memory };

    fn from(_error: AllocError) -> DocError {
        DocError::Memory
    }
}

impl From<MakeError> for DocError {
    ghost use Rattle.std.specs.Prelude.{◌≡◌};
    ghost use Rattle.doc_core.specs.Errors.{making_error};

    ghost from_gives = { λ made e. e ≡ making_error made };

    fn from(error: MakeError) -> DocError {
        match error {
            MakeError::Memory => DocError::Memory,
            MakeError::Refused(refusal) => DocError::Refused(refusal),
        }
    }
}

impl From<TreeError> for DocError {
    ghost use Rattle.std.specs.Prelude.{◌≡◌};
    ghost use Rattle.doc_core.specs.Errors.{tree_error};

    ghost from_gives = { λ tree e. e ≡ tree_error tree };

    fn from(error: TreeError) -> DocError {
        match error {
            TreeError::Memory => DocError::Memory,
            TreeError::Refused(refusal) => DocError::Refused(refusal),
        }
    }
}

impl From<RunError> for DocError {
    ghost use Rattle.std.specs.Prelude.{◌≡◌};
    ghost use Rattle.doc_core.specs.Errors.{run_error};

    ghost from_gives = { λ run e. e ≡ run_error run };

    fn from(error: RunError) -> DocError {
        match error {
            RunError::Memory => DocError::Memory,
            RunError::Refused(refusal) => DocError::Refused(refusal),
        }
    }
}
