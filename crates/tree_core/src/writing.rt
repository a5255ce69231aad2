//! Writing the parts of a node.
ghost use Rattle.std.specs.Prelude.{◌≡◌};
ghost use Rattle.snap_core.specs.Value.{IsPlain};
ghost use Rattle.snap_core.specs.View.{view};
ghost use Rattle.node_core.specs.View.{labelled};
ghost use Rattle.tree_core.specs.Answers.{Answers};
ghost use Rattle.tree_core.specs.Write.{write_of, WritesPlain};
ghost use Rattle.tree_core.specs.Written.{changed, goes_by, entry_of, item_of};
ghost use Rattle.tree_core.specs.Writing as specs;

use crate::changed::{Changed, part_added, part_removed, placed_at};
use crate::error::{TreeError, refuse};
use crate::fixed::is_identifier;
use crate::making::{make_at, make_entry_at};
use crate::parts::{entries_of, entry_at, items_of, part_type, turn_to};
use crate::paths::{item_path, part_path};
use crate::place::{Change, Place};
use crate::reconciling::{label_new, reconcile, set_item};
use crate::whole::write_whole;
use edit_core::Kind;
use node_core::{Labelled, Turn};
use pointer_core::{Pointer, Rule};
use snap_core::{Snap, TypeNo};
use std::alloc::{AllocError, Global};
use type_core::Types;

/// What a write to a node goes by: the types, the node's path, the type of its place, the path that the written
/// place was named by, and the next number.
#[derive(Drop)]
pub struct Writing<'a> {
    pub types: &'a Types,
    pub node: &'a Pointer,
    pub of: TypeNo,
    pub named: &'a Pointer,
    pub next: usize,
}

/// A part of a node that is written, by its key.
#[derive(Drop)]
pub struct Entry<'a> {
    pub node: &'a Labelled,
    pub key: &'a str,
}

/// An item that is written, by its index.
#[derive(Drop)]
pub struct Item<'a> {
    pub node: &'a Labelled,
    pub index: usize,
}

/// What a write makes of the node that it is written to.
pub fn write_node(
    alloc: Global,
    by: &Writing,
    place: &Place,
    change: &Change,
    node: &Labelled,
) -> Result<Changed, TreeError>
    requires { WritesPlain (write_of change.now) }
    ensures { Answers changed result (specs.node_written (goes_by by.now) place.now (write_of change.now) (labelled node.now)) }
{
    match node.label() {
        Some(label) => write_kind(alloc, by, place, change, node, label.kind),
        None => Err(refuse(Pointer::new(alloc), Rule::Kind)),
    }
}

fn write_kind(
    alloc: Global,
    by: &Writing,
    place: &Place,
    change: &Change,
    node: &Labelled,
    kind: Kind,
) -> Result<Changed, TreeError>
    requires { WritesPlain (write_of change.now) }
    ensures { Answers changed result (specs.kind_written (goes_by by.now) place.now (write_of change.now) (labelled node.now) kind) }
{
    match place {
        Place::Whole(_) => write_whole(alloc, by, kind, change, node),
        Place::Prop(_, name) => {
            if !is_model(node) {
                return Err(refuse(Pointer::new(alloc), Rule::Kind));
            }
            let entry = Entry {
                node,
                key: name.text(),
            };
            write_property(alloc, by, &entry, change)
        }
        Place::Item(_, index) => {
            if !is_array(node) {
                return Err(refuse(Pointer::new(alloc), Rule::Kind));
            }
            let item = Item {
                node,
                index: *index as usize,
            };
            write_item(alloc, by, &item, change)
        }
        Place::Key(_, key) => {
            if !is_map(node) {
                return Err(refuse(Pointer::new(alloc), Rule::Kind));
            }
            let entry = Entry {
                node,
                key: key.text(),
            };
            write_key(alloc, by, &entry, change)
        }
    }
}

fn is_model(node: &Labelled) -> bool
    ensures { result ≡ specs.is_model (labelled node.now) }
{
    match node {
        Labelled::Record(label, _) => matches!(label.kind, Kind::Model(_)),
        _ => false,
    }
}

fn is_map(node: &Labelled) -> bool
    ensures { result ≡ specs.is_map (labelled node.now) }
{
    match node {
        Labelled::Record(label, _) => matches!(label.kind, Kind::Map(_)),
        _ => false,
    }
}

fn is_array(node: &Labelled) -> bool
    ensures { result ≡ specs.is_array (labelled node.now) }
{
    match node {
        Labelled::Array(label, _) => matches!(label.kind, Kind::Array(_)),
        _ => false,
    }
}

fn write_property(
    alloc: Global,
    by: &Writing,
    entry: &Entry,
    change: &Change,
) -> Result<Changed, TreeError>
    requires { WritesPlain (write_of change.now) }
    ensures { Answers changed result (specs.property_written (goes_by by.now) (entry_of entry.now) (write_of change.now)) }
{
    match entry_at(entries_of(entry.node), entry.key) {
        Some(old) => match change {
            Change::Set(value) | Change::Insert(value) => set_property(
                alloc, by, entry, old, value,
            ),
            Change::Remove => Err(refuse(by.named.clone_in()?, Rule::Operation)),
        },
        None => Err(refuse(by.named.clone_in()?, Rule::Path)),
    }
}

fn set_property(
    alloc: Global,
    by: &Writing,
    entry: &Entry,
    old: &Labelled,
    value: &Snap,
) -> Result<Changed, TreeError>
    requires { IsPlain (view value.now) }
    ensures { Answers changed result (specs.property_set (goes_by by.now) (entry_of entry.now) (labelled old.now) (view value.now)) }
{
    let path = part_path(alloc, by.node, entry.key)?;
    if is_identifier(by.types, entry.node, entry.key) && !old.equals(value) {
        return Err(refuse(path, Rule::Fixed));
    }
    let t = part_type(by.types, entry.node, entry.key);
    let made = make_at(alloc, by.types, t, value, &path)?;
    Ok(set_entry(alloc, by, entry, old, &made)?)
}

/// Another value in the place of the one that is held.
fn set_entry(
    alloc: Global,
    by: &Writing,
    entry: &Entry,
    old: &Labelled,
    made: &Snap,
) -> Result<Changed, AllocError>
    requires { IsPlain (view made.now) }
    ensures { Rattle.std.specs.Prelude.IfOk result (λ c. changed c ≡ specs.entry_set (goes_by by.now) (entry_of entry.now) (labelled old.now) (view made.now)) }
{
    let t = part_type(by.types, entry.node, entry.key);
    let part = reconcile(alloc, by.types, t, old, made, by.next)?;
    let turn = turn_to(alloc, entry.node, entry.key)?;
    placed_at(alloc, turn, entry.node, part)
}

fn write_key(
    alloc: Global,
    by: &Writing,
    entry: &Entry,
    change: &Change,
) -> Result<Changed, TreeError>
    requires { WritesPlain (write_of change.now) }
    ensures { Answers changed result (specs.key_written (goes_by by.now) (entry_of entry.now) (write_of change.now)) }
{
    match change {
        Change::Set(value) | Change::Insert(value) => put_key(alloc, by, entry, value),
        Change::Remove => remove_key(alloc, by, entry),
    }
}

fn put_key(alloc: Global, by: &Writing, entry: &Entry, value: &Snap) -> Result<Changed, TreeError>
    requires { IsPlain (view value.now) }
    ensures { Answers changed result (specs.key_put (goes_by by.now) (entry_of entry.now) (view value.now)) }
{
    let path = part_path(alloc, by.node, entry.key)?;
    let t = part_type(by.types, entry.node, entry.key);
    let made = make_entry_at(alloc, by.types, t, entry.key, value, &path)?;
    match entry_at(entries_of(entry.node), entry.key) {
        Some(old) => Ok(set_entry(alloc, by, entry, old, &made)?),
        None => {
            let new = label_new(alloc, by.types, t, &made, by.next)?;
            let turn = turn_to(alloc, entry.node, entry.key)?;
            Ok(part_added(alloc, turn, new, entry.node)?)
        }
    }
}

fn remove_key(alloc: Global, by: &Writing, entry: &Entry) -> Result<Changed, TreeError>
    ensures { Answers changed result (specs.key_removed (goes_by by.now) (entry_of entry.now)) }
{
    match entry_at(entries_of(entry.node), entry.key) {
        Some(old) => {
            let turn = turn_to(alloc, entry.node, entry.key)?;
            Ok(part_removed(alloc, turn, old, by.next, entry.node)?)
        }
        None => Err(refuse(by.named.clone_in()?, Rule::Path)),
    }
}

fn write_item(
    alloc: Global,
    by: &Writing,
    item: &Item,
    change: &Change,
) -> Result<Changed, TreeError>
    requires { WritesPlain (write_of change.now) }
    ensures { Answers changed result (specs.item_written (goes_by by.now) (item_of item.now) (write_of change.now)) }
{
    match change {
        Change::Set(value) => replace_item(alloc, by, item, value),
        Change::Insert(value) => insert_item(alloc, by, item, value),
        Change::Remove => remove_item(alloc, by, item),
    }
}

fn replace_item(
    alloc: Global,
    by: &Writing,
    item: &Item,
    value: &Snap,
) -> Result<Changed, TreeError>
    requires { IsPlain (view value.now) }
    ensures { Answers changed result (specs.item_replaced (goes_by by.now) (item_of item.now) (view value.now)) }
{
    match items_of(item.node).get(item.index) {
        Some(old) => put_item(alloc, by, item, old, value),
        None => Err(refuse(by.named.clone_in()?, Rule::Index)),
    }
}

fn put_item(
    alloc: Global,
    by: &Writing,
    item: &Item,
    old: &Labelled,
    value: &Snap,
) -> Result<Changed, TreeError>
    requires { IsPlain (view value.now) }
    ensures { Answers changed result (specs.item_put (goes_by by.now) (item_of item.now) (labelled old.now) (view value.now)) }
{
    let made = make_item(alloc, by, item, value)?;
    let t = part_type(by.types, item.node, "");
    let part = set_item(alloc, by.types, t, old, &made, by.next)?;
    Ok(placed_at(alloc, Turn::Item(item.index), item.node, part)?)
}

fn insert_item(alloc: Global, by: &Writing, item: &Item, value: &Snap) -> Result<Changed, TreeError>
    requires { IsPlain (view value.now) }
    ensures { Answers changed result (specs.item_inserted (goes_by by.now) (item_of item.now) (view value.now)) }
{
    if item.index > items_of(item.node).len() {
        return Err(refuse(by.named.clone_in()?, Rule::Index));
    }
    let made = make_item(alloc, by, item, value)?;
    let t = part_type(by.types, item.node, "");
    let new = label_new(alloc, by.types, t, &made, by.next)?;
    Ok(part_added(alloc, Turn::Item(item.index), new, item.node)?)
}

fn remove_item(alloc: Global, by: &Writing, item: &Item) -> Result<Changed, TreeError>
    ensures { Answers changed result (specs.item_removed (goes_by by.now) (item_of item.now)) }
{
    match items_of(item.node).get(item.index) {
        Some(old) => Ok(part_removed(alloc, Turn::Item(item.index), old, by.next, item.node)?),
        None => Err(refuse(by.named.clone_in()?, Rule::Index)),
    }
}

/// What an array's type makes of a value at an index.
fn make_item(alloc: Global, by: &Writing, item: &Item, value: &Snap) -> Result<Snap, TreeError>
    requires { IsPlain (view value.now) }
    ensures made { Answers view result (specs.item_making (goes_by by.now) (item_of item.now) (view value.now)) }
    ensures plain { Rattle.std.specs.Prelude.IfOk result (λ s. IsPlain (view s)) }
{
    let path = item_path(alloc, by.node, item.index)?;
    let t = part_type(by.types, item.node, "");
    make_at(alloc, by.types, t, value, &path)
}
