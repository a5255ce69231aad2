//! Where pointers lead, and the pointers of nodes.
ghost use Rattle.std.specs.Prelude.{◌≡◌, ◌∷◌, ◌<◌, IfOk, IfSome};
ghost use Rattle.std.specs.Option.{option_map};
ghost use Rattle.patch_core.specs.Place.{index_below};
ghost use Rattle.tree_reading.specs.Leading.{along_item, along_entry, led_on};
ghost use Rattle.node_core.specs.View as node;
ghost use Rattle.node_core.specs.View.{labelled, fields};
ghost use Rattle.tree_core.specs.Reading as specs;
ghost use Rattle.tree_core.specs.Nodes.{place_in};

use crate::places::entry_at;
use list_core::Parts;
use node_core::{Labelled, LabelledField, Turn, Way, pointer_of};
use pointer_core::{Pointer, Token};
use snap_core::NodeNo;
use std::alloc::{AllocError, Global};

/// The pointer of a node; none where it is dead.
pub fn path_to(alloc: Global, root: &Labelled, n: NodeNo) -> Result<Option<Pointer>, AllocError>
    ensures { IfOk result (λ path. path ≡ specs.path_to n.0 (labelled root.now)) }
{
    match root.way_to(alloc, n)? {
        Some(way) => Ok(Some(pointer_of(alloc, way.as_slice())?)),
        None => Ok(None),
    }
}

/// The way that tokens lead: by items' indexes, and by the keys of properties and entries; none where they lead to no
/// place. Frozen values and references aren't entered.
pub fn way_along(
    alloc: Global,
    root: &Labelled,
    tokens: &[Token],
) -> Result<Option<Way>, AllocError>
    ensures { IfOk result (λ found. option_map node.way found ≡ specs.way_along tokens.now (labelled root.now)) }
{
    lead(alloc, tokens, root)
}

#[cycle(leading)]
fn lead(alloc: Global, tokens: &[Token], from: &Labelled) -> Result<Option<Way>, AllocError>
    ensures { IfOk result (λ found. option_map node.way found ≡ specs.way_along tokens.now (labelled from.now)) }
{
    match tokens {
        [] => Ok(Some(Parts::new(alloc))),
        [token, rest @ ..] => lead_behind(alloc, rest, token, from),
    }
}

#[cycle(leading)]
fn lead_behind(
    alloc: Global,
    rest: &[Token],
    token: &Token,
    from: &Labelled,
) -> Result<Option<Way>, AllocError>
    ensures { IfOk result (λ found. option_map node.way found ≡ specs.way_along (token.now ∷ rest.now) (labelled from.now)) }
{
    match from {
        Labelled::Leaf(_) => Ok(None),
        Labelled::Array(_, items) => lead_by_item(alloc, rest, token, items.as_slice()),
        Labelled::Record(_, fields) => lead_by_key(alloc, rest, token, fields.as_slice()),
    }
}

#[cycle(leading)]
fn lead_by_item(
    alloc: Global,
    rest: &[Token],
    token: &Token,
    parts: &[Labelled],
) -> Result<Option<Way>, AllocError>
    ensures { IfOk result (λ found. option_map node.way found ≡ along_item token.now rest.now (node.items parts.now)) }
{
    match index_below(token.text(), parts.len()) {
        Some(i) => lead_on(alloc, rest, Turn::Item(i), &parts[i]),
        None => Ok(None),
    }
}

#[cycle(leading)]
fn lead_by_key(
    alloc: Global,
    rest: &[Token],
    token: &Token,
    parts: &[LabelledField],
) -> Result<Option<Way>, AllocError>
    ensures { IfOk result (λ found. option_map node.way found ≡ along_entry token.now rest.now (fields parts.now)) }
{
    match entry_at(parts, token.text()) {
        Some(part) => {
            let to = Turn::Entry(place_in(parts, token.text()), token.clone_in()?);
            lead_on(alloc, rest, to, part)
        }
        None => Ok(None),
    }
}

/// The way behind a turn to a part.
#[cycle(leading)]
fn lead_on(
    alloc: Global,
    rest: &[Token],
    to: Turn,
    part: &Labelled,
) -> Result<Option<Way>, AllocError>
    ensures { IfOk result (λ found. option_map node.way found ≡ led_on (node.turn to) rest.now (labelled part.now)) }
{
    match lead(alloc, rest, part)? {
        Some(mut found) => {
            found.push_front(to)?;
            Ok(Some(found))
        }
        None => Ok(None),
    }
}

/// The index that a token names, where it is below a bound.
pub fn index_below(token: &str, bound: usize) -> Option<usize>
    ensures index { result ≡ index_below bound token.now }
    ensures below { IfSome result (λ index. index < bound) }
{
    let index = Pointer::index_of(token)? as usize;
    if index < bound { Some(index) } else { None }
}

/// Where an entry with a key stands, or would go.
fn place_in(parts: &[LabelledField], key: &str) -> usize
    ensures { result ≡ place_in key.now (fields parts.now) }
{
    for i in 0..parts.len() {
        if parts[i].key.text() >= key {
            return i;
        }
    }
    parts.len()
}
