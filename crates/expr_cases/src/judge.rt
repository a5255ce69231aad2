//! What the texts of a table come to.
ghost use Rattle.std.specs.Prelude.{◌≡◌, length};
ghost use Rattle.snap_core.specs.Value.{IsOrdered, AreOrderedMembers};
ghost use Rattle.snap_core.specs.View.{view, fields_view};

use case_tables::Judge;
use expr_form::{Scope, Target, Trouble, read_body, read_expression};
use pointer_core::Pointer;
use snap_core::{Field, ModelNo, Snap};
use snap_json::read_loosely;
use std::alloc::{AllocError, Global};

/// What the texts of a table are.
#[derive(Clone, Copy)]
pub enum Texts {
    Expression,
    Body,
}

const TYPES: &str = r#"{"A":0,"M":0,"W":0}"#;

const TARGETS: [Target; 3] = [
    Target::Model(ModelNo(0)),
    Target::Identified(ModelNo(1)),
    Target::Other,
];

/// What a text comes to.
impl Judge for Texts {
    fn outcome(&self, alloc: Global, text: &str) -> Result<String, AllocError> {
        let Some(types) = read_loosely(alloc, TYPES.as_bytes())? else {
            return String::from_str(alloc, "no types");
        };
        let Some(value) = read_loosely(alloc, text.as_bytes())? else {
            return String::from_str(alloc, "syntax");
        };
        judged(alloc, *self, &value, &types)
    }
}

/// What a value comes to, by types that are a record.
fn judged(alloc: Global, texts: Texts, value: &Snap, types: &Snap) -> Result<String, AllocError>
    requires { IsOrdered (view types.now) }
{
    match types {
        Snap::Dict(types) => judged_among(alloc, texts, value, types.as_slice()),
        _ => String::from_str(alloc, "other types"),
    }
}

fn judged_among(
    alloc: Global,
    texts: Texts,
    value: &Snap,
    types: &[Field],
) -> Result<String, AllocError>
    requires { AreOrderedMembers (fields_view types.now) }
{
    if types.len() == TARGETS.len() {
        judged_by(alloc, texts, value, types, &TARGETS)
    } else {
        String::from_str(alloc, "other types")
    }
}

#[tactic(auto, using(crate::proofs::Orders::keyed_by_order))]
fn judged_by(
    alloc: Global,
    texts: Texts,
    value: &Snap,
    types: &[Field],
    targets: &[Target],
) -> Result<String, AllocError>
    requires ordered { AreOrderedMembers (fields_view types.now) }
    requires each { length targets.now ≡ length types.now }
{
    let mut scope = Scope::new(alloc)?;
    scope.bind("p")?;
    match texts {
        Texts::Expression => told(alloc, read_expression(value, types, targets, &mut scope)),
        Texts::Body => told(alloc, read_body(value, types, targets, &mut scope)),
    }
}

fn told<T: Drop>(alloc: Global, outcome: Result<T, Trouble>) -> Result<String, AllocError> {
    match outcome {
        Ok(_) => String::from_str(alloc, "ok"),
        Err(Trouble::Memory) => Err(AllocError),
        Err(Trouble::Wrong(fault)) => placed(alloc, fault.rule.name(), fault.path),
        Err(Trouble::Astray(path)) => placed(alloc, "astray", path),
    }
}

fn placed(alloc: Global, what: &str, path: Pointer) -> Result<String, AllocError> {
    if path.is_root() {
        format!(in alloc; "{what} at the root")
    } else {
        format!(in alloc; "{what} at {path}")
    }
}
