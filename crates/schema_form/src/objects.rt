//! Objects by their keys.
ghost use Rattle.std.specs.Prelude.{◌≡◌};
ghost use Rattle.snap_core.specs.Value.{AreKeyed, AreOrderedMembers, value_at};
ghost use Rattle.snap_core.specs.View.{view, fields_view};
ghost use Rattle.schema_form.specs.Entries as entries;
ghost use Rattle.schema_form.specs.Names as names;

use snap_core::{Field, Snap, find};

pub fn has_key(fields: &[Field], key: &str) -> bool
    requires { AreKeyed (fields_view fields.now) }
    ensures { result ≡ names.has_key key.now (fields_view fields.now) }
{
    find(fields, key).is_some()
}

/// The entries of an object; none of any other value.
pub fn entries_of(value: &Snap) -> &[Field]
    ensures { fields_view result.now ≡ entries.entries (view value.now) }
{
    match value {
        Snap::Dict(fields) => fields.as_slice(),
        _ => &[],
    }
}

/// The entries of the object under a key; none where there is none.
#[tactic(auto, using(crate::proofs::Orders::keyed_by_order))]
pub fn entries_under<'a>(fields: &'a [Field], key: &str) -> &'a [Field]
    requires { AreOrderedMembers (fields_view fields.now) }
    ensures entries { fields_view result.now ≡ entries.entries_in (value_at key.now (fields_view fields.now)) }
    ensures keyed { AreKeyed (fields_view result.now) }
{
    match find(fields, key) {
        Some(value) => entries_of(value),
        None => &[],
    }
}
