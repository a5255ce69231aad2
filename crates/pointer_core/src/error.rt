ghost use Rattle.std.specs.Prelude.{◌≡◌};
ghost use Rattle.pointer_core.specs.declared.error.PointerError.TheVariants.{Memory};

use std::alloc::AllocError;
use thiserror::Error;

/// Why a text became no pointer. `at` counts the bytes before.
#[derive(Clone, Copy, Debug, PartialEq, Eq, Error)]
pub enum PointerError {
    #[error("out of memory")]
    Memory,
    #[error("a pointer that isn't empty begins with `/`")]
    NoSlash,
    #[error("the `~` at byte {at} of the pointer is followed by neither `0` nor `1`")]
    BadTilde { at: usize },
}

impl From<AllocError> for PointerError {
    ghost from_gives = { λ _ e. e ≡ Memory };

    fn from(_: AllocError) -> PointerError {
        PointerError::Memory
    }
}
