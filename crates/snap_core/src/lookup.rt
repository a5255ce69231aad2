//! Fields of records by their keys.
ghost use Rattle.std.specs.Prelude.{◌≡◌, ◌<◌, ◌≤◌, length, slice_get, insert, Some, None, IfSome, IfOk, IfErr, MatchOption, MatchResult};
ghost use Rattle.std.specs.Option.{option_copied, option_map};
ghost use Rattle.snap_core.specs.Value.{AreKeyed, value_at};
ghost use Rattle.snap_core.specs.Level.{insert_field};
ghost use Rattle.snap_core.specs.View.{view, fields_view};

use crate::snap::{Field, Snap};

/// The value under a key, looked for by halves.
pub fn find<'a>(fields: &'a [Field], key: &str) -> Option<&'a Snap>
    requires { AreKeyed (fields_view fields.now) }
    ensures found { option_map view (option_copied result) ≡ value_at key.now (fields_view fields.now) }
{
    match position(fields, key) {
        Some(at) => Some(&fields[at].value),
        None => None,
    }
}

/// Where the field with a key stands, looked for by halves.
pub fn position(fields: &[Field], key: &str) -> Option<usize>
    requires { AreKeyed (fields_view fields.now) }
    ensures within { IfSome result (λ at. at < length fields.now) }
    ensures found { let value = value_at key.now (fields_view fields.now) in
        MatchOption result (value ≡ None)
        (λ at. (field : Field) → slice_get fields.now at ≡ Some field → value ≡ Some (view field.value)) }
    ensures key { IfSome result (λ at. (field : Field) → slice_get fields.now at ≡ Some field → field.key ≡ key.now) }
{
    search(fields, key).ok()
}

/// Where the field with a key stands, looked for by halves; otherwise where one with that key would go.
pub fn search(fields: &[Field], key: &str) -> Result<usize, usize>
    requires { AreKeyed (fields_view fields.now) }
    ensures within { MatchResult result (λ at. at < length fields.now) (λ at. at ≤ length fields.now) }
    ensures found { let value = value_at key.now (fields_view fields.now) in
        MatchResult result
        (λ at. (field : Field) → slice_get fields.now at ≡ Some field → value ≡ Some (view field.value))
        (λ _. value ≡ None) }
    ensures key { IfOk result (λ at. (field : Field) → slice_get fields.now at ≡ Some field → field.key ≡ key.now) }
    ensures place { IfErr result (λ at. (field : Field) → field.key ≡ key.now
        → fields_view (insert fields.now at field) ≡ insert_field key.now (view field.value) (fields_view fields.now)) }
{
    fields.binary_search_by(|field| field.key.text().cmp(key))
}
