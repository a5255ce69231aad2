//! The nodes of a tree by their numbers.
ghost use Rattle.std.specs.Prelude.{◌≡◌, ◌+◌, min, slice_get};
ghost use Rattle.std.specs.Option.{option_copied, option_map};
ghost use Rattle.edit_core.specs.Labelled.{branches, entries};
ghost use Rattle.node_core.specs.View.{labelled, items, fields};
ghost use Rattle.tree_core.specs.Reading as specs;
ghost use Rattle.tree_reading.specs.Searching.{node_in, node_in_items, node_in_entries, depth_in, depth_in_items, depth_in_entries};

use edit_core::Kind;
use node_core::{Labelled, LabelledField};
use snap_core::{NodeNo, Txt};

/// The node with a number: the first in document order; none where no node has it.
#[tactic(auto, using(crate::proofs::Searching::node_found))]
pub fn node_of(root: &Labelled, n: NodeNo) -> Option<&Labelled>
    ensures { option_map labelled (option_copied result) ≡ specs.node_of n.0 (labelled root.now) }
{
    find_node(root, n)
}

#[cycle(finding)]
fn find_node(from: &Labelled, n: NodeNo) -> Option<&Labelled>
    ensures { option_map labelled (option_copied result) ≡ node_in n.0 (labelled from.now) }
{
    match from {
        Labelled::Leaf(_) => None,
        Labelled::Array(label, items) => {
            if label.number == n {
                return Some(from);
            }
            find_in_items(items.as_slice(), n)
        }
        Labelled::Record(label, fields) => {
            if label.number == n {
                return Some(from);
            }
            find_in_fields(fields.as_slice(), n)
        }
    }
}

#[cycle(finding)]
fn find_in_items(parts: &[Labelled], n: NodeNo) -> Option<&Labelled>
    ensures { option_map labelled (option_copied result) ≡ node_in_items n.0 (branches (items parts.now)) }
{
    for part in parts {
        if let Some(node) = find_node(part, n) {
            return Some(node);
        }
    }
    None
}

#[cycle(finding)]
fn find_in_fields(parts: &[LabelledField], n: NodeNo) -> Option<&Labelled>
    ensures { option_map labelled (option_copied result) ≡ node_in_entries n.0 (entries (fields parts.now)) }
{
    for part in parts {
        if let Some(node) = find_node(&part.value, n) {
            return Some(node);
        }
    }
    None
}

/// How many steps lead from the root to a node, or `most` where there are more; none where it is dead.
#[tactic(auto, using(crate::proofs::Searching::depth_found))]
pub fn depth_to(root: &Labelled, n: NodeNo, most: u32) -> Option<u32>
    ensures { result ≡ option_map (λ depth. min depth most) (specs.depth_to n.0 (labelled root.now)) }
{
    depth_from(root, n, most)
}

#[cycle(measuring)]
fn depth_from(from: &Labelled, n: NodeNo, most: u32) -> Option<u32>
    ensures { result ≡ depth_in most n.0 (labelled from.now) }
{
    match from {
        Labelled::Leaf(_) => None,
        Labelled::Array(label, items) => {
            if label.number == n {
                return Some(0);
            }
            depth_in_items(items.as_slice(), n, most)
        }
        Labelled::Record(label, fields) => {
            if label.number == n {
                return Some(0);
            }
            depth_in_fields(fields.as_slice(), n, most)
        }
    }
}

#[cycle(measuring)]
fn depth_in_items(parts: &[Labelled], n: NodeNo, most: u32) -> Option<u32>
    ensures { result ≡ depth_in_items most n.0 (branches (items parts.now)) }
{
    for part in parts {
        if let Some(depth) = depth_from(part, n, most) {
            return Some(one_more(depth, most));
        }
    }
    None
}

#[cycle(measuring)]
fn depth_in_fields(parts: &[LabelledField], n: NodeNo, most: u32) -> Option<u32>
    ensures { result ≡ depth_in_entries most n.0 (entries (fields parts.now)) }
{
    for part in parts {
        if let Some(depth) = depth_from(&part.value, n, most) {
            return Some(one_more(depth, most));
        }
    }
    None
}

fn one_more(depth: u32, most: u32) -> u32
    ensures { result ≡ min (depth + 1) most }
{
    if depth < most { depth + 1 } else { most }
}

/// What a node is; none where it is dead.
pub fn kind_at(root: &Labelled, n: NodeNo) -> Option<Kind>
    ensures { result ≡ specs.kind_at n.0 (labelled root.now) }
{
    let label = node_of(root, n)?.label()?;
    Some(label.kind)
}

/// How many items, values or properties a node has; none where it is dead.
pub fn size_at(root: &Labelled, n: NodeNo) -> Option<usize>
    ensures { result ≡ specs.size_at n.0 (labelled root.now) }
{
    let node = node_of(root, n)?;
    Some(size_of(node))
}

fn size_of(node: &Labelled) -> usize
    ensures { result ≡ specs.size_of (labelled node.now) }
{
    match node {
        Labelled::Leaf(_) => 0,
        Labelled::Array(_, items) => items.len(),
        Labelled::Record(_, fields) => fields.len(),
    }
}

/// A key of a map, counted from 0 in ascending order; none where the node is dead or no map, or has not so many
/// values.
pub fn key_at(root: &Labelled, n: NodeNo, i: usize) -> Option<&Txt>
    ensures { option_copied result ≡ specs.key_at n.0 i (labelled root.now) }
{
    let node = node_of(root, n)?;
    key_of_map(node, i)
}

fn key_of_map(node: &Labelled, i: usize) -> Option<&Txt>
    ensures { option_copied result ≡ specs.key_of_map i (labelled node.now) }
{
    match node {
        Labelled::Record(label, fields) => match label.kind {
            Kind::Map(_) => key_in(fields.as_slice(), i),
            _ => None,
        },
        _ => None,
    }
}

fn key_in(parts: &[LabelledField], i: usize) -> Option<&Txt>
    ensures { option_copied result ≡ option_map (λ e. e.0) (slice_get (fields parts.now) i) }
{
    if i < parts.len() {
        Some(&parts[i].key)
    } else {
        None
    }
}
