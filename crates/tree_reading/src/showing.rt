//! What pointers show, which places they name, and where references at them lead.
ghost use Rattle.std.specs.Prelude.{◌≡◌, Some};
ghost use Rattle.std.specs.Option.{option_map};
ghost use Rattle.list_core.specs.Outcome.{Gives};
ghost use Rattle.snap_core.specs.View.{view};
ghost use Rattle.patch_core.specs.Place.{index_below};
ghost use Rattle.type_table.specs.Identifiers.{ident_of};
ghost use Rattle.node_core.specs.View.{label, labelled, plain};
ghost use Rattle.tree_core.specs.Answers.{Answers};
ghost use Rattle.tree_core.specs.Asking as asking;
ghost use Rattle.tree_core.specs.Listing.{node, entry_place};
ghost use Rattle.tree_core.specs.Outcome.{seen_from};
ghost use Rattle.tree_core.specs.declared.place.Place.TheVariants as place;

use crate::identifiers::{identifier_of, resolved};
use crate::nodes::node_of;
use crate::places::entry_at;
use crate::pointers::{path_to, way_along};
use crate::typing::{referred_by, type_at};
use edit_core::Kind;
use node_core::{Label, Labelled};
use pointer_core::{Pointer, Rule, Token};
use snap_core::{Ident, ModelNo, NodeNo, Snap};
use std::alloc::{AllocError, Global};
use tree_core::{Place, TreeError, refuse};
use type_core::Types;

/// The value at a pointer; refused `path` where it is no place. Frozen values and references aren't entered.
pub fn show(alloc: Global, root: &Labelled, path: &Pointer) -> Result<Snap, TreeError>
    ensures { Answers view result (asking.shown path.now (labelled root.now)) }
{
    let Some(way) = way_along(alloc, root, path.tokens())? else {
        return Err(refuse(path.clone_in()?, Rule::Path));
    };
    let Some(part) = root.part_at(way.as_slice()) else {
        return Err(refuse(path.clone_in()?, Rule::Path));
    };
    Ok(part.snapshot(alloc)?)
}

/// The value of a node; refused `dead` where it is dead.
pub fn show_node(alloc: Global, root: &Labelled, n: NodeNo) -> Result<Snap, TreeError>
    ensures { Answers view result (asking.node_shown n.0 (labelled root.now)) }
{
    match node_of(root, n) {
        Some(node) => Ok(node.snapshot(alloc)?),
        None => Err(refuse(Pointer::new(alloc), Rule::Dead)),
    }
}

/// The pointer of a node; refused `dead` where it is dead.
pub fn path_of(alloc: Global, root: &Labelled, n: NodeNo) -> Result<Pointer, TreeError>
    ensures { Answers (λ path. path) result (asking.node_path n.0 (labelled root.now)) }
{
    match path_to(alloc, root, n)? {
        Some(path) => Ok(path),
        None => Err(refuse(Pointer::new(alloc), Rule::Dead)),
    }
}

/// The place that a pointer names: the root as a whole, or a place in the node that holds it; refused `path` where it
/// is no place.
pub fn place_at(alloc: Global, root: &Labelled, path: &Pointer) -> Result<Place, TreeError>
    ensures { Answers (λ p. p) result (asking.place_at path.now (labelled root.now)) }
{
    match place_along(alloc, root, path.tokens())? {
        Some(place) => Ok(place),
        None => Err(refuse(path.clone_in()?, Rule::Path)),
    }
}

fn place_along(
    alloc: Global,
    root: &Labelled,
    tokens: &[Token],
) -> Result<Option<Place>, AllocError>
    ensures { Gives result (asking.place_along tokens.now (labelled root.now)) }
{
    match tokens {
        [] => Ok(root_place(root)),
        [holder @ .., token] => place_by(alloc, root, holder, token),
    }
}

fn root_place(root: &Labelled) -> Option<Place>
    ensures { result ≡ asking.root_place (labelled root.now) }
{
    let label = root.label()?;
    Some(Place::Whole(label.number))
}

/// The place that a token names in the node at the end of other tokens.
fn place_by(
    alloc: Global,
    root: &Labelled,
    holder: &[Token],
    token: &Token,
) -> Result<Option<Place>, AllocError>
    ensures { Gives result (asking.place_by (record { holder = holder.now; token = token.now }) (labelled root.now)) }
{
    let Some(way) = way_along(alloc, root, holder)? else {
        return Ok(None);
    };
    match root.part_at(way.as_slice()) {
        Some(from) => place_under(from, token),
        None => Ok(None),
    }
}

fn place_under(from: &Labelled, token: &Token) -> Result<Option<Place>, AllocError>
    ensures { Gives result (asking.place_under token.now (labelled from.now)) }
{
    match from {
        Labelled::Leaf(_) => Ok(None),
        Labelled::Array(own, items) => Ok(item_place(*own, token.text(), items.len())),
        Labelled::Record(own, fields) => match entry_at(fields.as_slice(), token.text()) {
            Some(_) => Ok(Some(entry_place(*own, token)?)),
            None => Ok(None),
        },
    }
}

fn item_place(own: Label, token: &str, len: usize) -> Option<Place>
    ensures { result ≡ option_map (place.Item (node (label own).number)) (index_below len token.now) }
{
    let index = Pointer::index_of(token)?;
    if (index as usize) < len {
        Some(Place::Item(own.number, index))
    } else {
        None
    }
}

/// The place that a token names in a model or a map, whether something stands there or not.
pub fn entry_place(own: Label, token: &Token) -> Result<Place, AllocError>
    ensures { Gives result (entry_place (label own) own.kind token.now) }
{
    match own.kind {
        Kind::Map(_) => Ok(Place::Key(own.number, token.clone_in()?)),
        _ => Ok(Place::Prop(own.number, token.clone_in()?)),
    }
}

/// Where the reference at a pointer leads; none where it holds null. Refused `path` where the pointer is no place,
/// `kind` where the place is none of references, and `reference` where no node has the identifier.
pub fn follow(
    alloc: Global,
    root: &Labelled,
    types: &Types,
    path: &Pointer,
) -> Result<Option<Pointer>, TreeError>
    ensures { Answers (λ target. target) result (asking.led_from types.now path.now (labelled root.now)) }
{
    let Some(way) = way_along(alloc, root, path.tokens())? else {
        return Err(refuse(path.clone_in()?, Rule::Path));
    };
    let Some(part) = root.part_at(way.as_slice()) else {
        return Err(refuse(path.clone_in()?, Rule::Path));
    };
    let Some(m) = referred_by(types, type_at(types, root, way.as_slice())) else {
        return Err(refuse(path.clone_in()?, Rule::Kind));
    };
    let identifier = identifier_of(part)?;
    follow_to(alloc, root, types, path, m, identifier)
}

/// The pointer of the node of a model with an identifier; none where there is no identifier. Refused `reference` at
/// a path where no node has it.
fn follow_to(
    alloc: Global,
    root: &Labelled,
    types: &Types,
    path: &Pointer,
    m: ModelNo,
    identifier: Option<Ident>,
) -> Result<Option<Pointer>, TreeError>
    ensures { Answers (λ target. target) result (seen_from path.now (asking.led_by types.now m identifier (labelled root.now))) }
{
    let Some(identifier) = identifier else {
        return Ok(None);
    };
    let Some(n) = resolved(root, types, m, &identifier) else {
        return Err(refuse(path.clone_in()?, Rule::Reference));
    };
    match path_to(alloc, root, n)? {
        Some(target) => Ok(Some(target)),
        None => Err(refuse(path.clone_in()?, Rule::Reference)),
    }
}
