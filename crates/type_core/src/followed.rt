//! Types whose names, optional types and maybes were followed once.
ghost use Rattle.std.specs.Prelude.{◌≡◌, ℕ, slice_get, Some, IfOk, IfSome, Option, Bool};
ghost use Rattle.std.specs.Option.{option_copied};
ghost use Rattle.snap_core.specs.Value.{Value};
ghost use Rattle.snap_core.specs.View.{view};
ghost use Rattle.snap_core.specs.declared.number.TypeNo.{TypeNo as Number};
ghost use Rattle.type_table.specs.declared.shape.Shape.{Shape as Judge};
ghost use Rattle.type_table.specs.Table.{Table as Known};
ghost use Rattle.type_table.specs.Names.{LeadsTo};
ghost use Rattle.type_table.specs.Identifiers.{is_firm};
ghost use Rattle.type_core.specs.Judging.{is_null, shape_for, judged_step, judged_by};
ghost use Rattle.type_core.specs.Behind.{IsJudgedAs, AreBehind};

use list_core::Parts;
use snap_core::{Snap, TypeNo};
use std::alloc::{AllocError, Global};
use std::marker::Model;
use type_table::{Shape, Table, Tagged};

/// Types none of which leads back to itself, with the tags of their unions, and beside each the type
/// that stands behind names, optional types and maybes. Contracts see the types alone.
#[derive(Debug, Drop)]
pub struct Followed {
    tagged: Tagged,
    /// The types that judge null.
    for_null: Parts<TypeNo>,
    /// The types that judge every other value.
    for_others: Parts<TypeNo>,
}

impl Model for Followed {
    ghost use Rattle.std.specs.Prelude.{ℕ, Bool, true, false};
    ghost use Rattle.type_table.specs.Table as specs;
    ghost use Rattle.type_table.specs.Names.{LeadsTo};
    ghost use Rattle.type_core.specs.Behind.{AreBehind};
    ghost use Rattle.std.specs.Coded.{codes};
    ghost use Rattle.snap_core.specs.contracts.snap.Snap as snap;

    ghost Value = { specs.Table };

    ghost coded = { Prim.hlevel (codes, snap.the_row.coded) };

    ghost view = { λ f. f.tagged };

    ghost invariant = { λ f. ((t : ℕ) → ¬ (LeadsTo f.tagged t t))
        × AreBehind f.tagged true f.for_null
        × AreBehind f.tagged false f.for_others };
}

impl Followed {
    /// Follows the types of a table. In `order` each type comes after those that it leads to; with any
    /// other, judging takes more steps.
    pub fn new(alloc: Global, table: Table, order: &[TypeNo]) -> Result<Followed, AllocError>
        requires loopless { (t : ℕ) → ¬ (LeadsTo table t t) }
        ensures { IfOk result (λ followed. followed ≡ table) }
    {
        let tagged = Tagged::new(alloc, table)?;
        let for_null = ends_for(alloc, tagged.table(), order, true)?;
        let for_others = ends_for(alloc, tagged.table(), order, false)?;
        Ok(Followed {
            tagged,
            for_null,
            for_others,
        })
    }

    /// The types with the tags of their unions.
    pub fn tagged(&self) -> &Tagged
        ensures types { result.now ≡ self.now }
        ensures loopless { (t : ℕ) → ¬ (LeadsTo self.now t t) }
    {
        &self.tagged
    }

    /// The types themselves.
    pub fn table(&self) -> &Table
        ensures { result.now ≡ self.now }
    {
        self.tagged.table()
    }

    /// Whether a type is a safe reference that null doesn't clear, as it is no property's type.
    pub fn is_firm(&self, t: TypeNo) -> bool
        ensures { result ≡ is_firm self.now t.0 }
    {
        self.tagged.is_firm(t)
    }

    /// The type that judges a value as this one does, with no name, optional type or maybe before it
    /// where all were followed.
    pub fn behind(&self, given: &Snap, t: TypeNo) -> TypeNo
        ensures { judged_by self.now (view given.now) t.0 ≡ judged_by self.now (view given.now) result.0 }
    {
        match given {
            Snap::Null => end_at(self.for_null.as_slice(), t),
            _ => end_at(self.for_others.as_slice(), t),
        }
    }
}

/// The type beside each, for null or for every other value.
fn ends_for(
    alloc: Global,
    table: &Table,
    order: &[TypeNo],
    null: bool,
) -> Result<Parts<TypeNo>, AllocError>
    requires loopless { (t : ℕ) → ¬ (LeadsTo table.now t t) }
    ensures { IfOk result (λ ends. AreBehind table.now null ends) }
{
    let mut ends = themselves(alloc, table.shapes.len())?;
    for t in order {
        follow(table, &mut ends, *t, null);
    }
    Ok(ends)
}

/// Each type beside itself.
fn themselves(alloc: Global, count: usize) -> Result<Parts<TypeNo>, AllocError>
    ensures { IfOk result (λ ends. (t : ℕ) (u : Number) → slice_get ends t ≡ Some u → u.0 ≡ t) }
{
    let mut ends = Parts::new(alloc);
    for t in 0..count {
        ends.push(TypeNo(t))?;
    }
    Ok(ends)
}

/// Puts beside a type what stands beside the next one.
fn follow(table: &Table, ends: &mut Parts<TypeNo>, t: TypeNo, null: bool)
    requires loopless { (t : ℕ) → ¬ (LeadsTo table.now t t) }
    requires behind { AreBehind table.now null ends.old }
    ensures { AreBehind table.now null ends.new }
{
    if let Some(next) = next_for(table, t, null) {
        let end = end_at(ends.as_slice(), next);
        if t.0 < ends.len() {
            ends.set(t.0, end);
        }
    }
}

/// The type behind a name, an optional type or a maybe. A maybe takes null itself.
fn next_for(table: &Table, t: TypeNo, null: bool) -> Option<TypeNo>
    ensures { (v : Value) (further : ℕ → Option Judge) → is_null v ≡ null → IfSome result
        (λ u. judged_step table.now v further (shape_for table.now v t.0) ≡ further u.0) }
{
    match table.shape(t) {
        Some(Shape::Named(u) | Shape::Optional(u, _)) => Some(*u),
        Some(Shape::Maybe(u) | Shape::MaybeNull(u)) => { if null { None } else { Some(*u) } }
        _ => None,
    }
}

fn end_at(ends: &[TypeNo], t: TypeNo) -> TypeNo
    ensures { (table : Known) (null : Bool) → AreBehind table null ends.now → IsJudgedAs table null t.0 result }
{
    match ends.get(t.0) {
        Some(end) => *end,
        None => t,
    }
}
