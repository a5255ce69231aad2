//! What types say of the values that are written.
ghost use Rattle.std.specs.Prelude.{◌≡◌};
ghost use Rattle.std.specs.Option.{option_copied};
ghost use Rattle.tree_core.specs.TypesTyping as specs;

use snap_core::{ModelNo, Name, TypeNo};
use type_core::Types;

/// The property that is a model's identifier, if it has one.
pub fn identifier_of(types: &Types, m: ModelNo) -> Option<&Name>
    ensures { option_copied result ≡ (specs.typing_of types.now.table).identifier_of m }
{
    types.identifying(m)
}

/// A model's own type.
pub fn model_type(types: &Types, m: ModelNo) -> TypeNo
    ensures { result.0 ≡ specs.model_type types.now m }
{
    match types.own_type(m) {
        Some(t) => t,
        None => TypeNo(0),
    }
}
