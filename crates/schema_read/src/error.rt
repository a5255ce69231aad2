use pointer_core::{Pointer, SchemaRule};
use std::alloc::AllocError;

/// Why a file is no schema.
#[derive(Debug, Drop, thiserror::Error)]
pub enum SchemaError {
    #[error("out of memory")]
    Memory,
    /// The file is no JSON in UTF-8, or it nests deeper than 127 or has a number past what a double holds.
    #[error("schema syntax")]
    Syntax,
    /// The rule of the first fault, and where it is.
    #[error("schema {pointer} {rule}")]
    Refused { pointer: Pointer, rule: SchemaRule },
}

impl From<AllocError> for SchemaError {
    ghost use Rattle.std.specs.Prelude.{◌≡◌};
    ghost use Rattle.schema_read.specs.declared.error.SchemaError.TheVariants.{Memory};

    ghost from_gives = { λ _ e. e ≡ Memory };

    fn from(_refused: AllocError) -> SchemaError {
        SchemaError::Memory
    }
}
