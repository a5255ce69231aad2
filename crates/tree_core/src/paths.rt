//! Paths to places of a tree.
ghost use Rattle.std.specs.Prelude.{◌≡◌, [], ◌∷◌, ◌++◌, map, decimal};
ghost use Rattle.list_core.specs.Outcome.{Gives};
ghost use Rattle.edit_core.specs.Plain.{token_of};
ghost use Rattle.node_core.specs.View as node;
ghost use Rattle.tree_core.specs.Writing.{place_tokens};

use crate::place::Place;
use node_core::{Turn, pointer_of};
use pointer_core::{Pointer, Token};
use snap_core::Txt;
use std::alloc::{AllocError, Global};

fn index_token(alloc: Global, index: usize) -> Result<Token, AllocError>
    ensures { Gives result (decimal index) }
{
    Ok(Txt::from_string(format!(in alloc; "{index}")?))
}

/// The path of a node's part under a key.
pub fn part_path(alloc: Global, node: &Pointer, key: &str) -> Result<Pointer, AllocError>
    ensures { Gives result (node.now ++ key.now ∷ []) }
{
    let mut path = node.clone_in()?;
    path.push(Txt::copy(alloc, key)?)?;
    Ok(path)
}

/// The path of an array's item.
pub fn item_path(alloc: Global, node: &Pointer, index: usize) -> Result<Pointer, AllocError>
    ensures { Gives result (node.now ++ decimal index ∷ []) }
{
    let mut path = node.clone_in()?;
    path.push(index_token(alloc, index)?)?;
    Ok(path)
}

/// A path behind another.
pub fn joined(first: &Pointer, rest: &Pointer) -> Result<Pointer, AllocError>
    ensures { Gives result (first.now ++ rest.now) }
{
    let mut path = first.clone_in()?;
    for token in rest.tokens() {
        path.push(token.clone_in()?)?;
    }
    Ok(path)
}

/// The path of a place of the node at the end of a way.
pub fn path_of_place(alloc: Global, way: &[Turn], place: &Place) -> Result<Pointer, AllocError>
    ensures { Gives result (map token_of (node.way way.now) ++ place_tokens place.now) }
{
    let node = pointer_of(alloc, way)?;
    match place {
        Place::Whole(_) => Ok(node),
        Place::Prop(_, name) => part_path(alloc, &node, name.text()),
        Place::Item(_, index) => item_path(alloc, &node, *index as usize),
        Place::Key(_, key) => part_path(alloc, &node, key.text()),
    }
}
