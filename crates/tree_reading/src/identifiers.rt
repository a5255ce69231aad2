//! Nodes by their models and identifiers.
ghost use Rattle.std.specs.Prelude.{◌≡◌, Some};
ghost use Rattle.std.specs.Option.{option_copied, option_map};
ghost use Rattle.snap_core.specs.Value.{dict, value_at};
ghost use Rattle.snap_core.specs.View.{view};
ghost use Rattle.list_core.specs.Outcome.{Gives};
ghost use Rattle.type_table.specs.Identifiers.{ident_of};
ghost use Rattle.edit_core.specs.Labelled.{branches, entries};
ghost use Rattle.node_core.specs.View.{labelled, plain, plain_fields, items, fields};
ghost use Rattle.tree_core.specs.Reading as specs;
ghost use Rattle.tree_core.specs.TypesTyping.{typing_of};
ghost use Rattle.tree_reading.specs.Seeking.{sought};

use crate::places::entry_at;
use edit_core::Kind;
use node_core::{Labelled, LabelledField};
use snap_core::{Ident, ModelNo, Name, NodeNo, Snap};
use std::alloc::AllocError;
use type_core::Types;

/// The node of a model with an identifier: the first in document order; none where there is none. A text and a number
/// are never the same identifier.
pub fn resolved(root: &Labelled, types: &Types, m: ModelNo, identifier: &Ident) -> Option<NodeNo>
    ensures { option_map (λ n. n.0) result ≡ specs.resolved (typing_of types.now.table) m identifier.now (labelled root.now) }
{
    seek(root, types.identifying(m), m, identifier)
}

#[cycle(seeking)]
fn seek(from: &Labelled, name: Option<&Name>, m: ModelNo, identifier: &Ident) -> Option<NodeNo>
    ensures { option_map (λ n. n.0) result ≡ specs.sought_in (sought (option_copied name.entry) m identifier.now) (labelled from.now) }
{
    match from {
        Labelled::Leaf(_) => None,
        Labelled::Array(_, items) => seek_in_items(items.as_slice(), name, m, identifier),
        Labelled::Record(label, fields) => {
            if is_model(m, label.kind) && is_identified(fields.as_slice(), name, identifier) {
                return Some(label.number);
            }
            seek_in_fields(fields.as_slice(), name, m, identifier)
        }
    }
}

#[cycle(seeking)]
fn seek_in_items(
    parts: &[Labelled],
    name: Option<&Name>,
    m: ModelNo,
    identifier: &Ident,
) -> Option<NodeNo>
    ensures { option_map (λ n. n.0) result ≡ specs.sought_in_items (sought (option_copied name.entry) m identifier.now) (branches (items parts.now)) }
{
    for part in parts {
        if let Some(n) = seek(part, name, m, identifier) {
            return Some(n);
        }
    }
    None
}

#[cycle(seeking)]
fn seek_in_fields(
    parts: &[LabelledField],
    name: Option<&Name>,
    m: ModelNo,
    identifier: &Ident,
) -> Option<NodeNo>
    ensures { option_map (λ n. n.0) result ≡ specs.sought_in_entries (sought (option_copied name.entry) m identifier.now) (entries (fields parts.now)) }
{
    for part in parts {
        if let Some(n) = seek(&part.value, name, m, identifier) {
            return Some(n);
        }
    }
    None
}

/// Whether a node is of a model.
fn is_model(m: ModelNo, kind: Kind) -> bool
    ensures { result ≡ specs.is_model m kind }
{
    match kind {
        Kind::Model(other) => m.0 == other.0,
        _ => false,
    }
}

/// Whether a record holds an identifier under a name, where there is a name.
fn is_identified(parts: &[LabelledField], name: Option<&Name>, identifier: &Ident) -> bool
    ensures { result ≡ specs.same_identifier identifier.now (specs.identifier_in (option_copied name.entry) (dict tt (plain_fields parts.now))) }
{
    match name {
        Some(name) => holds_identifier(parts, name.text(), identifier),
        None => false,
    }
}

fn holds_identifier(parts: &[LabelledField], name: &str, identifier: &Ident) -> bool
    ensures { result ≡ specs.same_identifier identifier.now (ident_of (value_at name.now (plain_fields parts.now))) }
{
    match entry_at(parts, name) {
        Some(part) => is_identifier(part, identifier),
        None => false,
    }
}

fn is_identifier(part: &Labelled, identifier: &Ident) -> bool
    ensures { result ≡ specs.same_identifier identifier.now (ident_of (Some (plain part.now))) }
{
    match part {
        Labelled::Leaf(value) => is_ident(value, identifier),
        _ => false,
    }
}

fn is_ident(value: &Snap, identifier: &Ident) -> bool
    ensures { result ≡ specs.same_identifier identifier.now (ident_of (Some (view value.now))) }
{
    match (identifier, value) {
        (Ident::Text(sought), Snap::Text(own)) => sought.text() == own.text(),
        (Ident::Number(sought), Snap::Int(own)) => sought == own,
        _ => false,
    }
}

/// The identifier that a value is; none where it is neither a text nor a number.
pub fn identifier_of(part: &Labelled) -> Result<Option<Ident>, AllocError>
    ensures { Gives result (ident_of (Some (plain part.now))) }
{
    match part {
        Labelled::Leaf(value) => ident_from(value),
        _ => Ok(None),
    }
}

fn ident_from(value: &Snap) -> Result<Option<Ident>, AllocError>
    ensures { Gives result (ident_of (Some (view value.now))) }
{
    match value {
        Snap::Text(text) => Ok(Some(Ident::Text(text.clone_in()?))),
        Snap::Int(n) => Ok(Some(Ident::Number(*n))),
        _ => Ok(None),
    }
}
