//! Keys that must be names, and that stand for one thing of a model alone.
ghost use Rattle.std.specs.Prelude.{◌≡◌, Err};
ghost use Rattle.snap_core.specs.Value.{AreKeyed, AreOrderedMembers};
ghost use Rattle.snap_core.specs.View.{view, fields_view};
ghost use Rattle.expr_form.specs.Outcome.{Tells};
ghost use Rattle.behaviour_form.specs.Named as specs;

use expr_form::{Trouble, both, wrong};
use pointer_core::SchemaRule;
use snap_core::{Field, Name, NameError, Snap, find};
use std::alloc::Global;

/// Whether a part of a model, such as its properties, has a name.
pub fn stands_in(parts: &[Field], part: &str, name: &str) -> bool
    requires { AreOrderedMembers (fields_view parts.now) }
    ensures { result ≡ specs.stands_in part.now (fields_view parts.now) name.now }
{
    match find(parts, part) {
        Some(Snap::Dict(fields)) => find(fields.as_slice(), name).is_some(),
        _ => false,
    }
}

/// Whether a name stands for an action or a property.
fn is_taken(parts: &[Field], name: &str) -> bool
    requires { AreOrderedMembers (fields_view parts.now) }
    ensures { result ≡ specs.is_taken (fields_view parts.now) name.now }
{
    stands_in(parts, "actions", name) || stands_in(parts, "properties", name)
}

/// Reads the name of a view, which stands for no action and no property.
pub fn read_key(alloc: Global, parts: &[Field], key: &str) -> Result<Name, Trouble>
    requires { AreOrderedMembers (fields_view parts.now) }
    ensures { Tells (λ name. name) result (specs.key_read (specs.is_taken (fields_view parts.now)) key.now) }
{
    let name = match Name::read(alloc, key) {
        Ok(name) => name,
        Err(NameError::BadName) => return Err(wrong(alloc, SchemaRule::Name)),
        Err(NameError::Memory) => return Err(Trouble::Memory),
    };
    if is_taken(parts, key) {
        return Err(wrong(alloc, SchemaRule::Twice));
    }
    Ok(name)
}

/// Whether a value's trouble comes before that of its key: a fault of the value itself does, and so does a lack of
/// memory, behind which there may be such a fault.
fn comes_first(trouble: &Trouble) -> bool
    ensures { result ≡ specs.comes_first trouble.now }
{
    match trouble {
        Trouble::Memory => true,
        Trouble::Wrong(fault) => fault.path.is_root(),
        Trouble::Astray(_) => false,
    }
}

/// A key beside a value that has trouble.
fn beside<A: Drop, B: Drop>(key: Result<A, Trouble>, trouble: Trouble) -> Result<(A, B), Trouble>
    ensures { result ≡ specs.named_of key (Err trouble) }
{
    if comes_first(&trouble) {
        return Err(trouble);
    }
    both(key, Err(trouble))
}

/// What stands under a key that must be a name. A fault of the value itself comes before one of the key, and that
/// before those inside the value.
pub fn named<A: Drop, B: Drop>(
    key: Result<A, Trouble>,
    value: Result<B, Trouble>,
) -> Result<(A, B), Trouble>
    ensures { result ≡ specs.named_of key value }
{
    match value {
        Ok(value) => both(key, Ok(value)),
        Err(trouble) => beside(key, trouble),
    }
}
