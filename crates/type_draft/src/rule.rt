//! What can be wrong with the types of a schema.
ghost use Rattle.std.specs.Prelude.{◌≡◌};
ghost use Rattle.type_draft.specs.declared.rule.DraftError.TheVariants.{Memory};

use pointer_core::SchemaRule;
use snap_core::TypeNo;
use std::alloc::AllocError;

/// Why a draft gives no types.
#[derive(Clone, Copy, Debug, PartialEq, Eq, thiserror::Error)]
pub enum DraftError {
    #[error("out of memory")]
    Memory,
    /// The first fault, at this type.
    #[error("a type at fault by the rule `{rule}`")]
    Wrong { t: TypeNo, rule: SchemaRule },
}

impl From<AllocError> for DraftError {
    ghost from_gives = { λ _ e. e ≡ Memory };

    fn from(_error: AllocError) -> DraftError {
        DraftError::Memory
    }
}
