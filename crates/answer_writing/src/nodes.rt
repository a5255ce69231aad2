//! What the types make of nodes: identifiers and snapshots.
ghost use Rattle.std.specs.Prelude.{◌≡◌, Some, IfOk};
ghost use Rattle.snap_core.specs.Value.{dict, value_at};
ghost use Rattle.snap_core.specs.View.{view};
ghost use Rattle.type_table.specs.Identifiers.{ident_of};
ghost use Rattle.edit_core.specs.Typing.{is_kind};
ghost use Rattle.edit_core.specs.declared.kind.Kind.TheVariants.{Model};
ghost use Rattle.node_core.specs.View.{plain, plain_fields};
ghost use Rattle.tree_core.specs.Answers.{Answers};
ghost use Rattle.tree_core.specs.Reading.{identifier_in};
ghost use Rattle.tree_core.specs.TypesTyping.{typing_of};
ghost use Rattle.eval_core.specs.Reading.{ident_value};
ghost use Rattle.answer_writing.specs.Taking as specs;
ghost use Rattle.answer_writing.specs.View.{taking};

use crate::taking::Taking;
use edit_core::Kind;
use node_core::{Labelled, LabelledField};
use pointer_core::{Pointer, Rule};
use snap_core::{ModelNo, NodeNo, Snap};
use std::alloc::{AllocError, Global};
use tree_core::{TreeError, entry_at, refuse};
use tree_reading::node_of;
use type_core::Types;

/// What is made of a node: where references lead to a model its identifier, and its snapshot elsewhere.
pub fn make_node(
    alloc: Global,
    by: &Taking,
    n: NodeNo,
    target: Option<ModelNo>,
) -> Result<Snap, TreeError>
    ensures { Answers view result (specs.node_made (taking by.now) n target) }
{
    match target {
        Some(m) => make_identifier(alloc, by, n, m),
        None => Ok(snapshot_of(alloc, by, n)?),
    }
}

/// The snapshot of a node; null where it is dead.
fn snapshot_of(alloc: Global, by: &Taking, n: NodeNo) -> Result<Snap, AllocError>
    ensures { IfOk result (λ value. view value ≡ specs.node_value (taking by.now) n) }
{
    match node_of(by.root, n) {
        Some(node) => node.snapshot(alloc),
        None => Ok(Snap::Null),
    }
}

/// The identifier of a node of a model.
fn make_identifier(alloc: Global, by: &Taking, n: NodeNo, m: ModelNo) -> Result<Snap, TreeError>
    ensures { Answers view result (specs.identifier_made (taking by.now) n m) }
{
    match node_of(by.root, n) {
        Some(Labelled::Record(label, fields)) => {
            if !is_model(label.kind, m) {
                return Err(refuse(Pointer::new(alloc), Rule::Mistyped));
            }
            Ok(identifier_of(alloc, by.types, fields.as_slice(), m)?)
        }
        Some(Labelled::Array(label, _)) => {
            if !is_model(label.kind, m) {
                return Err(refuse(Pointer::new(alloc), Rule::Mistyped));
            }
            Ok(Snap::Null)
        }
        _ => Err(refuse(Pointer::new(alloc), Rule::Mistyped)),
    }
}

fn is_model(kind: Kind, m: ModelNo) -> bool
    ensures { result ≡ is_kind (Some kind) (Model m) }
{
    match kind {
        Kind::Model(own) => own.0 == m.0,
        _ => false,
    }
}

/// The identifier that a record has in a model; null where it has none.
fn identifier_of(
    alloc: Global,
    types: &Types,
    fields: &[LabelledField],
    m: ModelNo,
) -> Result<Snap, AllocError>
    ensures { IfOk result (λ value. view value
        ≡ ident_value (identifier_in ((typing_of types.now.table).identifier_of m) (dict tt (plain_fields fields.now)))) }
{
    match types.identifying(m) {
        Some(name) => identifier_under(alloc, fields, name.text()),
        None => Ok(Snap::Null),
    }
}

fn identifier_under(alloc: Global, fields: &[LabelledField], name: &str) -> Result<Snap, AllocError>
    ensures { IfOk result (λ value. view value ≡ ident_value (ident_of (value_at name.now (plain_fields fields.now)))) }
{
    match entry_at(fields, name) {
        Some(part) => identifier_value(alloc, part),
        None => Ok(Snap::Null),
    }
}

/// A text or an integer as it is, and null for anything else.
fn identifier_value(alloc: Global, part: &Labelled) -> Result<Snap, AllocError>
    ensures { IfOk result (λ value. view value ≡ ident_value (ident_of (Some (plain part.now)))) }
{
    match part {
        Labelled::Leaf(value) => match value {
            Snap::Text(_) | Snap::Int(_) => value.clone_in(alloc),
            _ => Ok(Snap::Null),
        },
        _ => Ok(Snap::Null),
    }
}
