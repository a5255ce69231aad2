//! Clearing a node: its items or its entries are removed one by one.
ghost use Rattle.std.specs.Prelude.{◌≡◌, ℕ, None};
ghost use Rattle.list_core.specs.Outcome.{Gives};
ghost use Rattle.edit_core.specs.Labelled.{branches, entries};
ghost use Rattle.node_core.specs.View.{labelled, items, fields};
ghost use Rattle.live_tree.specs.Contents.{state};
ghost use Rattle.tree_core.specs.Answers.{Answers};
ghost use Rattle.tree_core.specs.Written.{target};
ghost use Rattle.action_core.specs.Running.{removes_all};
ghost use Rattle.action_core.specs.Statements as specs;
ghost use Rattle.action_steps.specs.Acting.{acting_of};
ghost use Rattle.action_steps.specs.Doing.{Performs, point};

use crate::acting::Acting;
use crate::writing::give;
use answer_writing::Giving;
use edit_core::Kind;
use list_core::Parts;
use live_tree::Tree;
use node_core::{Items, Labelled, LabelledField};
use pointer_core::{Pointer, Rule};
use snap_core::NodeNo;
use std::alloc::{AllocError, Global};
use tree_core::{Place, Target, TreeError, refuse};
use view_engine::RunError;

/// Takes each of some places out, one after the other.
pub fn remove_all(acting: &Acting<'_>, places: &[Place], tree: &mut Tree) -> Result<(), RunError>
    ensures { (counted steps : ℕ) → Performs (λ x. x) result (removes_all (acting_of acting.now) places.now)
        (point (state tree.old) counted steps) (point (state tree.new) counted steps) }
{
    for place in places {
        let to = target_at(acting.running, place);
        give(acting, &to, Giving::Remove, tree)?;
    }
    Ok(())
}

/// A place that is named by itself, written on behalf of running nodes.
fn target_at<'a>(running: &'a [NodeNo], place: &'a Place) -> Target<'a>
    ensures { target result ≡ record { running = running.now; place = place.now; named = None } }
{
    Target {
        running,
        place,
        named: None,
    }
}

/// The places of a node that are removed where it is cleared; refused `dead`, and `kind` where it is a model.
pub fn removals(alloc: Global, tree: &Tree, n: NodeNo) -> Result<Parts<Place>, TreeError>
    ensures { Answers (λ places. places) result (specs.removals n (state tree.now).tree) }
{
    let whole = tree.whole();
    let Some(way) = whole.root.way_to(alloc, n)? else {
        return Err(refuse(Pointer::new(alloc), Rule::Dead));
    };
    match whole.root.part_at(way.as_slice()) {
        Some(node) => node_removals(alloc, n, node),
        None => Err(refuse(Pointer::new(alloc), Rule::Dead)),
    }
}

fn node_removals(alloc: Global, n: NodeNo, node: &Labelled) -> Result<Parts<Place>, TreeError>
    ensures { Answers (λ places. places) result (specs.node_removals n (labelled node.now)) }
{
    match node {
        Labelled::Leaf(_) => Err(refuse(Pointer::new(alloc), Rule::Kind)),
        Labelled::Array(_, items) => Ok(item_removals(alloc, n, items)?),
        Labelled::Record(label, fields) => match label.kind {
            Kind::Map(_) => Ok(entry_removals(alloc, n, fields.as_slice())?),
            _ => Err(refuse(Pointer::new(alloc), Rule::Kind)),
        },
    }
}

/// The items from the last to the first. One that no place can name is want of memory.
fn item_removals(alloc: Global, n: NodeNo, parts: &Items) -> Result<Parts<Place>, AllocError>
    ensures { Gives result (specs.item_removals n 0 (branches (items parts.now))) }
{
    let mut places = Parts::new(alloc);
    let mut i = parts.len();
    while i > 0 {
        i -= 1;
        let Ok(index) = u32::try_from(i) else {
            return Err(AllocError);
        };
        places.push(Place::Item(n, index))?;
    }
    Ok(places)
}

/// The entries by ascending keys.
fn entry_removals(
    alloc: Global,
    n: NodeNo,
    parts: &[LabelledField],
) -> Result<Parts<Place>, AllocError>
    ensures { Gives result (specs.entry_removals n (entries (fields parts.now))) }
{
    let mut places = Parts::new(alloc);
    for part in parts {
        places.push(Place::Key(n, part.key.clone_in()?))?;
    }
    Ok(places)
}
