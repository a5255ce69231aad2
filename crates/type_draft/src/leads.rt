//! Types that lead back to themselves.
ghost use Rattle.std.specs.Prelude.{◌≡◌, ◌<◌, ◌≤◌, [], ◌∷◌, length, slice_index, vec_len, All, Contains, IsTrue, ◌↔◌, IfOk, OnOk};
ghost use Rattle.snap_core.specs.declared.number.TypeNo.{TypeNo as Number};
ghost use Rattle.type_table.specs.Table.{leads_of};
ghost use Rattle.type_table.specs.Names.{LeadsTo};
ghost use Rattle.type_draft.specs.Reaching.{leads_at, AreKnown, AreReached, HasReached};
ghost use Rattle.type_draft.specs.Levels.{AreLevels, IsAbove, IsLevel};

use snap_core::TypeNo;
use std::alloc::{AllocError, Global};
use type_table::{Shape, Table};

/// The types that a shape leads on to with no list, record or model between.
pub fn leads_of(shape: &Shape) -> &[TypeNo]
    ensures { result.now ≡ leads_of shape.now }
{
    match shape {
        Shape::Named(u)
        | Shape::Optional(u, _)
        | Shape::Maybe(u)
        | Shape::MaybeNull(u)
        | Shape::Refinement(u, _) => std::slice::from_ref(u),
        Shape::Union(members) => members.as_slice(),
        _ => &[],
    }
}

/// The same of a type.
fn leads_at(table: &Table, t: TypeNo) -> &[TypeNo]
    ensures { result.now ≡ leads_at table.now t.0 }
{
    match table.shape(t) {
        Some(shape) => leads_of(shape),
        None => &[],
    }
}

/// Levels of the types, which never rise along a lead: these numbers, if they never do, and otherwise
/// the same level for all.
pub fn levels_of<'a>(table: &Table, numbers: &'a [usize]) -> &'a [usize]
    ensures { AreLevels table.now result.now }
{
    if are_levels(table, numbers) {
        numbers
    } else {
        &[]
    }
}

fn are_levels(table: &Table, numbers: &[usize]) -> bool
    ensures { IsTrue result → AreLevels table.now numbers.now }
{
    for t in 0..table.shapes.len() {
        if !is_level(table, numbers, TypeNo(t)) {
            return false;
        }
    }
    true
}

/// Whether a type leads to none of a higher level.
fn is_level(table: &Table, levels: &[usize], t: TypeNo) -> bool
    ensures { IsTrue result ↔ IsLevel table.now levels.now t.0 }
{
    let level = level_at(levels, t);
    leads_at(table, t)
        .iter()
        .all(|u| level_at(levels, *u) <= level)
}

fn level_at(levels: &[usize], t: TypeNo) -> usize
    ensures { result ≡ slice_index levels.now t.0 }
{
    match levels.get(t.0) {
        Some(level) => *level,
        None => 0,
    }
}

/// Whether a type leads to types of lower levels alone.
fn is_above(table: &Table, levels: &[usize], t: TypeNo) -> bool
    ensures { IsTrue result ↔ IsAbove table.now levels.now t.0 }
{
    let level = level_at(levels, t);
    leads_at(table, t)
        .iter()
        .all(|u| level_at(levels, *u) < level)
}

/// Whether a type leads back to itself. One that leads to lower levels alone doesn't.
pub fn leads_back(
    alloc: Global,
    table: &Table,
    levels: &[usize],
    t: TypeNo,
) -> Result<bool, AllocError>
    requires known { AreKnown table.now }
    requires levels { AreLevels table.now levels.now }
    requires within { t.0 < length table.now.shapes }
    ensures { IfOk result (λ back. IsTrue back ↔ LeadsTo table.now t.0 t.0) }
{
    if is_above(table, levels, t) {
        return Ok(false);
    }
    reaches_itself(alloc, table, t)
}

/// Whether a type is among those that are reached from it.
fn reaches_itself(alloc: Global, table: &Table, t: TypeNo) -> Result<bool, AllocError>
    requires known { AreKnown table.now }
    requires within { t.0 < length table.now.shapes }
    ensures { IfOk result (λ back. IsTrue back ↔ LeadsTo table.now t.0 t.0) }
{
    let mut marks = vec![in alloc; false; table.shapes.len()]?;
    let mut reached = vec![in alloc; t]?;
    let mut at = 0;
    while at < reached.len() {
        let leads = leads_at(table, reached[at]);
        if is_among(leads, t) {
            return Ok(true);
        }
        reach_each(&mut marks, &mut reached, leads)?;
        at += 1;
    }
    Ok(false)
}

fn is_among(types: &[TypeNo], t: TypeNo) -> bool
    ensures { IsTrue result ↔ Contains types.now t }
{
    types.iter().any(|u| u.0 == t.0)
}

/// Adds to the types reached those of these that aren't there yet. Their marks say which are.
fn reach_each(
    marks: &mut Vec<bool>,
    reached: &mut Vec<TypeNo>,
    types: &[TypeNo],
) -> Result<(), AllocError>
    requires known { All (λ (t : Number). t.0 < vec_len marks.old) types.now }
    requires marked { AreReached marks.old.items reached.old.items }
    ensures { OnOk result
        (HasReached types.now marks.old.items reached.old.items marks.new.items reached.new.items) }
{
    for t in types {
        reach(marks, reached, *t)?;
    }
    Ok(())
}

fn reach(marks: &mut Vec<bool>, reached: &mut Vec<TypeNo>, t: TypeNo) -> Result<(), AllocError>
    requires known { t.0 < vec_len marks.old }
    requires marked { AreReached marks.old.items reached.old.items }
    ensures { OnOk result
        (HasReached (t ∷ []) marks.old.items reached.old.items marks.new.items reached.new.items) }
{
    if marks[t.0] {
        return Ok(());
    }
    marks[t.0] = true;
    reached.push(t)?;
    Ok(())
}
