use expr_form::Fault;
use std::alloc::AllocError;

/// Why a schema file has no form.
#[derive(Debug, Drop, thiserror::Error)]
pub enum FormError {
    #[error("out of memory")]
    Memory,
    /// The first fault.
    #[error("schema {0}")]
    Wrong(Fault),
}

impl From<AllocError> for FormError {
    ghost use Rattle.std.specs.Prelude.{◌≡◌};
    ghost use Rattle.schema_form.specs.declared.fault.FormError.TheVariants.{Memory};

    ghost from_gives = { λ _ e. e ≡ Memory };

    fn from(_refused: AllocError) -> FormError {
        FormError::Memory
    }
}
