//! The identifiers of models, which are fixed.
ghost use Rattle.std.specs.Prelude.{◌≡◌};
ghost use Rattle.std.specs.Option.{option_copied, option_map};
ghost use Rattle.snap_core.specs.Value.{IsPlain, ArePlainMembers, value_at};
ghost use Rattle.snap_core.specs.View.{view, fields_view};
ghost use Rattle.node_core.specs.View.{labelled, plain};
ghost use Rattle.edit_core.specs.Template.{entry_at};
ghost use Rattle.tree_core.specs.Nodes.{entries_of as specs_entries_of};
ghost use Rattle.edit_core.specs.Typing.{field_at};
ghost use Rattle.tree_core.specs.Writing as specs;
ghost use Rattle.tree_core.specs.TypesTyping.{typing_of};

use crate::parts::{entries_of, entry_at};
use crate::typing::identifier_of;
use edit_core::Kind;
use node_core::Labelled;
use snap_core::{Field, Name, Snap, find};
use type_core::Types;

/// Whether a name is that of the identifier of a node's model.
pub fn is_identifier(types: &Types, node: &Labelled, name: &str) -> bool
    ensures { result ≡ specs.is_identifier (typing_of types.now.table) (labelled node.now) name.now }
{
    match node.label() {
        Some(label) => is_identifier_of(types, label.kind, name),
        None => false,
    }
}

fn is_identifier_of(types: &Types, kind: Kind, name: &str) -> bool
    ensures { result ≡ specs.is_identifier_of (typing_of types.now.table) (Some kind) name.now }
{
    match kind {
        Kind::Model(m) => match identifier_of(types, m) {
            Some(identifier) => name == identifier.text(),
            None => false,
        },
        _ => false,
    }
}

/// The identifier of a model that a record gives another value of the right kind, if it does.
pub fn other_identifier<'a>(
    types: &'a Types,
    kind: Kind,
    node: &Labelled,
    given: &Snap,
) -> Option<&'a Name>
    requires { IsPlain (view given.now) }
    ensures { option_copied result
        ≡ specs.other_identifier (typing_of types.now.table) kind (labelled node.now) (view given.now) }
{
    match kind {
        Kind::Model(m) => {
            let name = identifier_of(types, m)?;
            if gives_other(name, node, given) {
                Some(name)
            } else {
                None
            }
        }
        _ => None,
    }
}

/// Whether a record gives another text or integer than the one that a node has under a name.
fn gives_other(name: &Name, node: &Labelled, given: &Snap) -> bool
    requires { IsPlain (view given.now) }
    ensures { result ≡ specs.others_held (entry_at name.now (specs_entries_of (labelled node.now))) (field_at name.now (view given.now)) }
{
    match entry_at(entries_of(node), name.text()) {
        Some(old) => match field_of(given, name) {
            Some(new) => are_others(old, new),
            None => false,
        },
        None => false,
    }
}

fn are_others(old: &Labelled, new: &Snap) -> bool
    ensures { result ≡ specs.are_others (plain old.now) (view new.now) }
{
    ((holds_text(old) && is_text(new)) || (holds_integer(old) && is_integer(new)))
        && !old.equals(new)
}

fn holds_text(held: &Labelled) -> bool
    ensures { result ≡ specs.is_text (plain held.now) }
{
    match held {
        Labelled::Leaf(value) => is_text(value),
        Labelled::Array(_, _) | Labelled::Record(_, _) => false,
    }
}

fn holds_integer(held: &Labelled) -> bool
    ensures { result ≡ specs.is_integer (plain held.now) }
{
    match held {
        Labelled::Leaf(value) => is_integer(value),
        Labelled::Array(_, _) | Labelled::Record(_, _) => false,
    }
}

fn is_text(value: &Snap) -> bool
    ensures { result ≡ specs.is_text (view value.now) }
{
    matches!(value, Snap::Text(_))
}

fn is_integer(value: &Snap) -> bool
    ensures { result ≡ specs.is_integer (view value.now) }
{
    matches!(value, Snap::Int(_))
}

/// The value of a record's field.
fn field_of<'a>(given: &'a Snap, name: &Name) -> Option<&'a Snap>
    requires { IsPlain (view given.now) }
    ensures { option_map view (option_copied result) ≡ field_at name.now (view given.now) }
{
    match given {
        Snap::Dict(fields) => field_in(fields.as_slice(), name),
        _ => None,
    }
}

fn field_in<'a>(fields: &'a [Field], name: &Name) -> Option<&'a Snap>
    requires plain { ArePlainMembers (fields_view fields.now) }
    ensures { option_map view (option_copied result) ≡ value_at name.now (fields_view fields.now) }
{
    find(fields, name.text())
}
