//! The parts of nodes.
ghost use Rattle.std.specs.Prelude.{◌≡◌, IfOk};
ghost use Rattle.std.specs.Option.{option_copied, option_map};
ghost use Rattle.edit_core.specs.Template.{entry_at};
ghost use Rattle.node_core.specs.View.{labelled, items, fields, field, turn};
ghost use Rattle.std.specs.Ordering.{nat_cmp, is_lt};
ghost use Rattle.std.specs.Cmp.Lexicographic.{slice_cmp};
ghost use Rattle.std.specs.Str.{bytes_eq};
ghost use Rattle.tree_core.specs.Nodes as specs;
ghost use Rattle.tree_core.specs.TypesTyping.{typing_of};

use node_core::{Labelled, LabelledField, Turn};
use reconcile_core::type_under;
use snap_core::{Txt, TypeNo};
use std::alloc::{AllocError, Global};
use type_core::Types;

#[tactic(auto, using(crate::proofs::Splicing::array_items))]
/// The items of an array; none of anything else.
pub fn items_of(node: &Labelled) -> &[Labelled]
    ensures { items result.now ≡ specs.items_of (labelled node.now) }
{
    match node {
        Labelled::Array(_, items) => items.as_slice(),
        _ => &[],
    }
}

#[tactic(auto, using(crate::proofs::Splicing::record_entries))]
/// The entries of a model or a map; none of anything else.
pub fn entries_of(node: &Labelled) -> &[LabelledField]
    ensures { fields result.now ≡ specs.entries_of (labelled node.now) }
{
    match node {
        Labelled::Record(_, fields) => fields.as_slice(),
        _ => &[],
    }
}

/// Where an entry with a key stands, or would go.
pub fn place_in(entries: &[LabelledField], key: &str) -> usize
    ensures { result ≡ specs.place_in key.now (fields entries.now) }
{
    for (at, entry) in entries.iter().enumerate() {
        if !comes_before(entry, key) {
            return at;
        }
    }
    entries.len()
}

/// Whether an entry's key comes before another.
fn comes_before(entry: &LabelledField, key: &str) -> bool
    ensures { result ≡ is_lt (slice_cmp nat_cmp (field entry.now).0 key.now) }
{
    entry.key.text() < key
}

/// The value of the first entry with a key.
pub fn entry_at<'a>(entries: &'a [LabelledField], key: &str) -> Option<&'a Labelled>
    ensures { option_map labelled (option_copied result) ≡ entry_at key.now (fields entries.now) }
{
    for entry in entries {
        if has_key(entry, key) {
            return Some(&entry.value);
        }
    }
    None
}

/// Whether an entry stands under a key.
fn has_key(entry: &LabelledField, key: &str) -> bool
    ensures { result ≡ bytes_eq key.now (field entry.now).0 }
{
    key == entry.key.text()
}

/// The turn from a node to its entry with a key.
pub fn turn_to(alloc: Global, node: &Labelled, key: &str) -> Result<Turn, AllocError>
    ensures { IfOk result (λ t. turn t ≡ specs.to_key key.now (specs.entries_of (labelled node.now))) }
{
    let at = place_in(entries_of(node), key);
    Ok(Turn::Entry(at, Txt::copy(alloc, key)?))
}

/// The type of a node's part under a key, where an item has none.
pub fn part_type(types: &Types, node: &Labelled, key: &str) -> TypeNo
    ensures { result.0 ≡ specs.part_type (typing_of types.now.table) (labelled node.now) key.now }
{
    match node.label() {
        Some(label) => type_under(types, label.kind, key),
        None => TypeNo(0),
    }
}
