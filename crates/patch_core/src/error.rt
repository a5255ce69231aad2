use pointer_core::PointerError;
use std::alloc::AllocError;

/// Why a patch wasn't applied, or a list of patches wasn't read.
#[derive(Clone, Copy, Debug, PartialEq, Eq, thiserror::Error)]
pub enum PatchError {
    #[error("out of memory")]
    Memory,
    /// The place's parent isn't there or is a scalar, the key to replace or to remove isn't held, or the
    /// path is empty.
    #[error("there is no such place")]
    Path,
    #[error("there is no such index")]
    Index,
    /// It is no list of records, each with its operation, a path that is a text, and the value that its
    /// operation needs.
    #[error("no list of patches")]
    Shape,
    #[error("a path is no JSON pointer")]
    Pointer,
}

impl From<AllocError> for PatchError {
    ghost use Rattle.std.specs.Prelude.{◌≡◌};
    ghost use Rattle.patch_core.specs.declared.error.PatchError.TheVariants.{Memory};

    ghost from_gives = { λ _ e. e ≡ Memory };

    fn from(_refused: AllocError) -> PatchError {
        PatchError::Memory
    }
}

impl From<PointerError> for PatchError {
    ghost use Rattle.std.specs.Prelude.{◌≡◌};
    ghost use Rattle.patch_core.specs.PathError.{path_error};

    ghost from_gives = { λ p e. e ≡ path_error p };

    fn from(error: PointerError) -> PatchError {
        match error {
            PointerError::Memory => PatchError::Memory,
            PointerError::NoSlash | PointerError::BadTilde { .. } => PatchError::Pointer,
        }
    }
}
