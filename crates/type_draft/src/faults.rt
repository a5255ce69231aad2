//! Faults of a table of types: what a schema is refused for.
ghost use Rattle.std.specs.Prelude.{◌≡◌, ◌<◌, ℕ, length, IfOk, IfSome, IfNone, OnOk, MatchBool};
ghost use Rattle.type_draft.specs.Faults.{HasFault, IsFirstFault, IfWrong};
ghost use Rattle.type_draft.specs.Reaching.{AreKnown};
ghost use Rattle.type_draft.specs.Levels.{AreLevels};
ghost use Rattle.type_draft.specs.Passes.{IsFaultless, IsFirstOf, IsMissing};
ghost use Rattle.type_core.specs.Sound.{HasDefault};
ghost use Rattle.type_table.specs.Standings.{IsStanding};

use crate::defaults::is_known;
use crate::leads::{leads_back, levels_of};
use crate::rule::DraftError;
use pointer_core::SchemaRule;
use snap_core::{Snap, TypeNo};
use std::alloc::{AllocError, Global};
use type_table::{Shape, Standing, Table, are_apart, is_misplaced, misleads, standing_of};

/// The first pass: refuses a type that leads back to itself, an identifier that doesn't stand
/// directly at one property of a model, a reference that leads to no model with an identifier, a
/// safe reference that can't be cleared, and a union whose members aren't told apart.
///
/// `components` numbers the types so that none leads to one of a higher number; with any others the
/// check is slower.
pub fn check_types(alloc: Global, table: &Table, components: &[usize]) -> Result<(), DraftError>
    requires { AreKnown table.now }
    ensures ok { OnOk result ((t : ℕ) → IsFaultless table.now 0 t) }
    ensures wrong { IfWrong result (λ t rule. IsFirstFault table.now t.0 rule) }
{
    let standing = standing_of(alloc, table)?;
    let levels = levels_of(table, components);
    for t in 0..table.shapes.len() {
        check_type(alloc, table, &standing, levels, TypeNo(t))?;
    }
    Ok(())
}

fn check_type(
    alloc: Global,
    table: &Table,
    standing: &Standing,
    levels: &[usize],
    t: TypeNo,
) -> Result<(), DraftError>
    requires known { AreKnown table.now }
    requires standing { IsStanding table.now standing.now }
    requires levels { AreLevels table.now levels.now }
    requires within { t.0 < length table.now.shapes }
    ensures ok { OnOk result (IsFaultless table.now 0 t.0) }
    ensures wrong { IfWrong result (λ at rule. (at ≡ t) × IsFirstOf table.now 0 t.0 rule) }
{
    if leads_back(alloc, table, levels, t)? {
        return Err(DraftError::Wrong {
            t,
            rule: SchemaRule::Name,
        });
    }
    if is_misplaced(table, standing, t) {
        return Err(DraftError::Wrong {
            t,
            rule: SchemaRule::Identifier,
        });
    }
    if misleads(table, standing, t) {
        return Err(DraftError::Wrong {
            t,
            rule: SchemaRule::Target,
        });
    }
    if !is_apart(alloc, table, t)? {
        return Err(DraftError::Wrong {
            t,
            rule: SchemaRule::Union,
        });
    }
    Ok(())
}

/// Whether a type is no union, or its members are told apart.
fn is_apart(alloc: Global, table: &Table, t: TypeNo) -> Result<bool, AllocError>
    ensures { let fault = HasFault table.now t.0 SchemaRule.Union in
        IfOk result (λ apart. MatchBool apart (¬ fault) fault) }
{
    match table.shape(t) {
        Some(Shape::Union(members)) => are_apart(alloc, table, members.as_slice()),
        _ => Ok(true),
    }
}

/// The second pass: the first optional type whose default isn't known.
pub fn missing_default(table: &Table, defaults: &[Option<Snap>]) -> Option<TypeNo>
    ensures none { IfNone result ((t : ℕ) → HasDefault table.now defaults.now t) }
    ensures missing { IfSome result (λ t. IsMissing table.now defaults.now t.0) }
    ensures first { IfSome result (λ t. (u : ℕ) → u < t.0 → HasDefault table.now defaults.now u) }
{
    for t in 0..table.shapes.len() {
        if is_missing(table, defaults, TypeNo(t)) {
            return Some(TypeNo(t));
        }
    }
    None
}

fn is_missing(table: &Table, defaults: &[Option<Snap>], t: TypeNo) -> bool
    ensures { MatchBool result
        (IsMissing table.now defaults.now t.0)
        (HasDefault table.now defaults.now t.0) }
{
    match table.shape(t) {
        Some(Shape::Optional(_, _)) => !is_known(defaults, t),
        _ => false,
    }
}
