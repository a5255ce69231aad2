use pointer_core::{Pointer, SchemaRule};
use std::alloc::AllocError;

/// A rule of schemas that isn't met, and the place where.
#[derive(Debug, Drop, thiserror::Error)]
#[error("{path} {rule}")]
pub struct Fault {
    pub path: Pointer,
    pub rule: SchemaRule,
}

/// Why a part of a schema file isn't read.
#[derive(Debug, Drop, thiserror::Error)]
pub enum Trouble {
    #[error("out of memory")]
    Memory,
    /// The first fault in form, names, repetitions and depth.
    #[error("schema {0}")]
    Wrong(Fault),
    /// There is no such fault: the first expression that speaks of a model and names none that it may name.
    #[error("schema {0} target")]
    Astray(Pointer),
}

impl From<AllocError> for Trouble {
    ghost use Rattle.std.specs.Prelude.{◌≡◌};
    ghost use Rattle.expr_form.specs.declared.fault.Trouble.TheVariants.{Memory};

    ghost from_gives = { λ _ e. e ≡ Memory };

    fn from(_refused: AllocError) -> Trouble {
        Trouble::Memory
    }
}
