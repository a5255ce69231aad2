//! The conditions of refinements.
ghost use Rattle.std.specs.Prelude.{◌≡◌, Some, IfOk, OnOk};
ghost use Rattle.snap_core.specs.Value.{integer, text};
ghost use Rattle.snap_core.specs.View.{view, fields_view};
ghost use Rattle.schema_form.specs.Faults as faults;
ghost use Rattle.schema_form.specs.Layout as layout;
ghost use Rattle.schema_form.specs.Outcome.{Finds};

use crate::bases::Base;
use crate::fault::FormError;
use crate::walk::{under, wrong};
use list_core::Parts;
use pointer_core::SchemaRule;
use snap_core::{Field, Snap, Txt, is_whole};
use std::alloc::Global;
use type_table::{Condition, Conditions};

/// Reads the conditions of a refinement, which are of its base's kind.
pub fn read_conditions(alloc: Global, base: Base, value: &Snap) -> Result<Conditions, FormError>
    ensures finds { Finds result (faults.conditions_faults (Some base) (view value.now)) }
    ensures ok { IfOk result (λ conditions. conditions ≡ layout.conditions_of (Some base) (view value.now)) }
{
    match value {
        Snap::Dict(fields) => read_each(alloc, base, fields.as_slice()),
        _ => Err(wrong(alloc, SchemaRule::Shape)),
    }
}

fn read_each(alloc: Global, base: Base, fields: &[Field]) -> Result<Conditions, FormError>
    ensures finds { Finds result
        (faults.member_faults (faults.condition_faults (Some base)) (fields_view fields.now)) }
    ensures ok { IfOk result
        (λ conditions. conditions ≡ layout.conditions_in (Some base) (fields_view fields.now)) }
{
    let mut conditions = Parts::new(alloc);
    for field in fields {
        let key = field.key.text();
        let condition = under(key, read_condition(alloc, base, key, &field.value))?;
        conditions.push(condition)?;
    }
    Ok(conditions)
}

/// Reads the condition under a key.
fn read_condition(
    alloc: Global,
    base: Base,
    key: &str,
    value: &Snap,
) -> Result<Condition, FormError>
    ensures finds { Finds result (faults.condition_faults (Some base) key.now (view value.now)) }
    ensures ok { IfOk result
        (λ condition. faults.condition_of (Some base) key.now (view value.now) ≡ Some condition) }
{
    match (base, value) {
        (Base::Integers, Snap::Int(n)) => read_bound(alloc, key, *n),
        (Base::Texts, Snap::Int(n)) => read_length(alloc, key, *n),
        (Base::Texts, Snap::Text(text)) => read_beginning(alloc, key, text),
        _ => Err(wrong(alloc, SchemaRule::Shape)),
    }
}

/// Reads a bound on integers.
fn read_bound(alloc: Global, key: &str, n: i64) -> Result<Condition, FormError>
    ensures finds { Finds result (faults.condition_faults (Some Base.Integers) key.now (integer n)) }
    ensures ok { IfOk result
        (λ condition. faults.condition_of (Some Base.Integers) key.now (integer n) ≡ Some condition) }
{
    match key {
        "min" if is_whole(i128::from(n)) => Ok(Condition::Min(n)),
        "max" if is_whole(i128::from(n)) => Ok(Condition::Max(n)),
        _ => Err(wrong(alloc, SchemaRule::Shape)),
    }
}

/// Reads a bound on the length of texts.
fn read_length(alloc: Global, key: &str, n: i64) -> Result<Condition, FormError>
    ensures finds { Finds result (faults.condition_faults (Some Base.Texts) key.now (integer n)) }
    ensures ok { IfOk result
        (λ condition. faults.condition_of (Some Base.Texts) key.now (integer n) ≡ Some condition) }
{
    match key {
        "minLength" if is_whole(i128::from(n)) => Ok(Condition::MinLength(n)),
        "maxLength" if is_whole(i128::from(n)) => Ok(Condition::MaxLength(n)),
        _ => Err(wrong(alloc, SchemaRule::Shape)),
    }
}

/// Reads what texts begin with.
fn read_beginning(alloc: Global, key: &str, beginning: &Txt) -> Result<Condition, FormError>
    ensures finds { Finds result (faults.condition_faults (Some Base.Texts) key.now (text beginning.now)) }
    ensures ok { IfOk result
        (λ condition. faults.condition_of (Some Base.Texts) key.now (text beginning.now) ≡ Some condition) }
{
    if key != "startsWith" {
        return Err(wrong(alloc, SchemaRule::Shape));
    }
    Ok(Condition::StartsWith(beginning.clone_in()?))
}
