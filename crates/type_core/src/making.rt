//! Making: what a type makes of a value that comes from outside, or of none.
ghost use Rattle.std.specs.Prelude.{◌≡◌, [], Option, Some, None, Ok, IfSome, IfOk, MatchResult};
ghost use Rattle.std.specs.Option.{option_copied};
ghost use Rattle.std.specs.List.{list_all};
ghost use Rattle.std.specs.Fmt.{char_count};
ghost use Rattle.snap_core.specs.Value.{Value, IsPlain, ArePlain, ArePlainMembers};
ghost use Rattle.snap_core.specs.View.{view, items_view, fields_view};
ghost use Rattle.type_core.specs.Making as specs;
ghost use Rattle.type_core.specs.Making.{maker_of, making, entry_making};
ghost use Rattle.type_core.specs.Identifiers.{ident_in};
ghost use Rattle.type_core.specs.Judging.{judged_by};
ghost use Rattle.type_core.specs.Makes.{MakesWithin};
ghost use Rattle.type_core.specs.Made.{Answers, IfRefused, value_of, refused_as};
ghost use Rattle.type_core.specs.Sound.{IsSound};
ghost use Rattle.type_core.specs.declared.making.MakeError.TheVariants.{Memory};

use crate::followed::Followed;
use crate::judging::judged;
use crate::limits::fits;
use crate::records::{keyed_by, make_absent, make_entries, make_items, make_properties};
use crate::types::Types;
use pointer_core::{Pointer, Refusal, Rule};
use snap_core::{Field, Snap, TypeNo};
use std::alloc::{AllocError, Global};
use thiserror::Error;
use type_table::{Condition, Shape, takes};

/// The greatest weight of a value that is made.
const MOST_WEIGHT: u32 = 1_048_576;

/// Why a value isn't made.
#[derive(Debug, Drop, Error)]
pub enum MakeError {
    #[error("out of memory")]
    Memory,
    /// The first rule that isn't met, in document order, and the place where, from the given value's
    /// root; `large` after all others, at the root.
    #[error("not made: {0}")]
    Refused(Refusal),
}

impl From<AllocError> for MakeError {
    ghost from_gives = { λ _ e. e ≡ Memory };

    fn from(_error: AllocError) -> MakeError {
        MakeError::Memory
    }
}

/// What the type `t` makes of a value, or of none.
///
/// Refused by the first rule that isn't met, in document order: `type` where a type doesn't take a
/// value, `refine` where a condition isn't met, `key` where a map's value is of a model with an
/// identifier and stands under another key, once that value is made. What is made and is heavier than
/// 1,048,576 or deeper than 64 is refused after all others, as `large`.
pub fn make(
    alloc: Global,
    types: &Types,
    t: TypeNo,
    given: Option<&Snap>,
) -> Result<Snap, MakeError>
    requires plain { IfSome given (λ s. IsPlain (view s.now)) }
    ensures made { IfOk result (λ s. making types.now t.0 (value_of given.entry) ≡ Ok (view s)) }
    ensures refused { IfRefused result
        (λ r. making types.now t.0 (value_of given.entry) ≡ Err (refused_as r)) }
    ensures table { IfOk result (λ s. MakesWithin types.now.table t.0 (value_of given.entry) (view s)) }
    ensures only { (s : Value) → MakesWithin types.now.table t.0 (value_of given.entry) s
        → MatchResult result (λ made. view made ≡ s) (λ e. e ≡ MakeError.Memory) }
    ensures again { IfOk result (λ s. making types.now t.0 (Some (view s)) ≡ Ok (view s)) }
    ensures plain { IfOk result (λ s. IsPlain (view s)) }
{
    let made = make_any(alloc, types, t, given)?;
    limited(alloc, made)
}

/// What a map with values of the type `t` makes of a value under a key.
///
/// Refused as `make` refuses it, and as `key`, before `large`, where a model with an identifier makes the value and
/// the key is another text.
pub fn make_entry(
    alloc: Global,
    types: &Types,
    t: TypeNo,
    key: &str,
    given: &Snap,
) -> Result<Snap, MakeError>
    requires plain { IsPlain (view given.now) }
    ensures made { Answers view result (entry_making types.now t.0 key.now (view given.now)) }
    ensures plain { IfOk result (λ s. IsPlain (view s)) }
{
    let made = make_keyed(alloc, types, t, key, given)?;
    limited(alloc, made)
}

/// What a map's type makes of an entry, limits aside.
fn make_keyed(
    alloc: Global,
    types: &Types,
    t: TypeNo,
    key: &str,
    given: &Snap,
) -> Result<Snap, MakeError>
    requires plain { IsPlain (view given.now) }
    ensures made { let v = view given.now in let table = types.now.table in
        Answers view result (specs.keyed key.now (ident_in table (judged_by table v t.0) v) (maker_of table types.now.defaults v t.0)) }
    ensures sound { IsSound types.now }
{
    let (followed, defaults) = types.inside();
    let made = make_value(alloc, followed, defaults, t, given);
    keyed_by(alloc, followed, t, key, given, made)
}

/// What a type makes of a value or of none, limits aside.
fn make_any(
    alloc: Global,
    types: &Types,
    t: TypeNo,
    given: Option<&Snap>,
) -> Result<Snap, MakeError>
    requires plain { IfSome given (λ s. IsPlain (view s.now)) }
    ensures made { Answers view result
        (specs.made_by types.now.table types.now.defaults t.0 (value_of given.entry)) }
    ensures sound { IsSound types.now }
{
    let (followed, defaults) = types.inside();
    match given {
        Some(value) => make_value(alloc, followed, defaults, t, value),
        None => make_absent(alloc, followed, defaults, t),
    }
}

fn limited(alloc: Global, made: Snap) -> Result<Snap, MakeError>
    ensures { Answers view result (specs.limited (Ok (view made))) }
{
    if !fits(&made, MOST_WEIGHT) {
        return Err(refused(alloc, Rule::Large));
    }
    Ok(made)
}

/// A refusal at the place itself.
pub fn refused(alloc: Global, rule: Rule) -> MakeError
    ensures { result ≡ MakeError.Refused (record { path = []; rule = rule }) }
{
    MakeError::Refused(Refusal {
        path: Pointer::new(alloc),
        rule,
    })
}

/// What a type makes of a value, limits aside.
#[cycle(making)]
pub fn make_value(
    alloc: Global,
    types: &Followed,
    defaults: &[Option<Snap>],
    t: TypeNo,
    given: &Snap,
) -> Result<Snap, MakeError>
    requires plain { IsPlain (view given.now) }
    ensures made { Answers view result (maker_of types.now defaults.now (view given.now) t.0) }
{
    let shape = judged(types, given, t);
    match given {
        Snap::List(items) => make_list(alloc, types, defaults, items.as_slice(), shape, given),
        Snap::Dict(fields) => make_dict(alloc, types, defaults, fields.as_slice(), shape, given),
        _ => make_scalar(alloc, types, given, shape),
    }
}

fn make_scalar(
    alloc: Global,
    types: &Followed,
    given: &Snap,
    shape: Option<&Shape>,
) -> Result<Snap, MakeError>
    ensures { Answers view result (specs.scalar_made types.now (view given.now) (option_copied shape.entry)) }
{
    if !takes(types.table(), shape, given) {
        return Err(refused(alloc, Rule::Mistyped));
    }
    if !admit(shape, given) {
        return Err(refused(alloc, Rule::Refine));
    }
    Ok(given.clone_in(alloc)?)
}

/// Whether the conditions of a refinement admit a value. Other shapes have none.
fn admit(shape: Option<&Shape>, given: &Snap) -> bool
    ensures { result
        ≡ list_all (specs.admits (view given.now)) (specs.conditions_of (option_copied shape.entry)) }
{
    match shape {
        Some(Shape::Refinement(_, conditions)) => {
            conditions.as_slice().iter().all(|c| admits(given, c))
        }
        _ => true,
    }
}

fn admits(given: &Snap, condition: &Condition) -> bool
    ensures { result ≡ specs.admits (view given.now) condition.now }
{
    match (given, condition) {
        (Snap::Int(n), Condition::Min(least)) => n >= least,
        (Snap::Int(n), Condition::Max(most)) => n <= most,
        (Snap::Text(text), Condition::MinLength(least)) => {
            count_chars(text.text()) as i128 >= i128::from(*least)
        }
        (Snap::Text(text), Condition::MaxLength(most)) => {
            count_chars(text.text()) as i128 <= i128::from(*most)
        }
        (Snap::Text(text), Condition::StartsWith(beginning)) => {
            text.text()
                .as_bytes()
                .starts_with(beginning.text().as_bytes())
        }
        _ => false,
    }
}

fn count_chars(text: &str) -> usize
    ensures { result ≡ char_count text.now }
{
    text.chars().count()
}

/// A list by the shape that judges it.
#[cycle(making)]
fn make_list(
    alloc: Global,
    types: &Followed,
    defaults: &[Option<Snap>],
    items: &[Snap],
    shape: Option<&Shape>,
    given: &Snap,
) -> Result<Snap, MakeError>
    requires plain { ArePlain (items_view items.now) }
    ensures { Answers view result (specs.list_made (view given.now)
        (specs.makers_of types.now defaults.now (items_view items.now)) (option_copied shape.entry)) }
{
    match shape {
        Some(Shape::Array(of)) => {
            Ok(Snap::List(make_items(alloc, types, defaults, *of, items)?))
        }
        Some(Shape::Frozen) => Ok(given.clone_in(alloc)?),
        _ => Err(refused(alloc, Rule::Mistyped)),
    }
}

/// A record by the shape that judges it.
#[cycle(making)]
fn make_dict(
    alloc: Global,
    types: &Followed,
    defaults: &[Option<Snap>],
    fields: &[Field],
    shape: Option<&Shape>,
    given: &Snap,
) -> Result<Snap, MakeError>
    requires plain { ArePlainMembers (fields_view fields.now) }
    ensures { let absent = specs.absent types.now defaults.now in
        let entries = specs.fields_of types.now defaults.now (fields_view fields.now) in
        Answers view result
        (specs.dict_made types.now absent (view given.now) entries (option_copied shape.entry)) }
{
    match shape {
        Some(Shape::Map(of)) => {
            Ok(Snap::Dict(make_entries(alloc, types, defaults, *of, fields)?))
        }
        Some(Shape::Model(m)) => {
            let properties = types.table().properties(*m);
            Ok(Snap::Dict(make_properties(alloc, types, defaults, fields, properties)?))
        }
        Some(Shape::Frozen) => Ok(given.clone_in(alloc)?),
        _ => Err(refused(alloc, Rule::Mistyped)),
    }
}
