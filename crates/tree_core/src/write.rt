//! Writing one place of a tree.
ghost use Rattle.std.specs.Prelude.{◌≡◌, ◌==◌, false, unwrap_or, IfOk, Some, None};
ghost use Rattle.edit_core.specs.Ways.{part_at_turn};
ghost use Rattle.std.specs.List.{list_any};
ghost use Rattle.snap_core.specs.declared.number.NodeNo.{NodeNo as RunningNo};
ghost use Rattle.std.specs.Option.{option_copied, option_map};
ghost use Rattle.snap_core.specs.View.{view};
ghost use Rattle.node_core.specs.View as node;
ghost use Rattle.edit_core.specs.Typing.{label_of};
ghost use Rattle.edit_core.specs.Numbers.{AreNumbered};
ghost use Rattle.snap_core.specs.Value.{IsPlain};
ghost use Rattle.type_core.specs.Sound.{IsSound};
ghost use Rattle.tree_core.specs.Answers.{Answers};
ghost use Rattle.tree_core.specs.Write.{write_of, WritesPlain};
ghost use Rattle.tree_core.specs.Written.{changed, target, tree, Added};
ghost use Rattle.edit_core.specs.Template.{template};
ghost use Rattle.edit_core.specs.Matching.{by_first};
ghost use Rattle.tree_core.specs.Nodes as nodes;
ghost use Rattle.tree_core.specs.TypesTyping.{typing_of, root_type};
ghost use Rattle.tree_core.specs.Writing as specs;

use crate::changed::{Changed, placed};
use crate::error::{TreeError, refuse};
use crate::parts::part_type;
use crate::paths::path_of_place;
use crate::place::{Change, Place};
use crate::reconciling::{New, label_new};
use crate::typing::model_type;
use crate::writing::{Writing, write_node};
use node_core::{Labelled, Turn, Way, pointer_of};
use pointer_core::{Pointer, Rule};
use snap_core::{NodeNo, Snap, TypeNo};
use std::alloc::{AllocError, Global};
use type_core::{Types, doubled, fits};

/// A place that is written on behalf of running nodes, and a name for it where it was named otherwise.
#[derive(Drop)]
pub struct Target<'a> {
    pub running: &'a [NodeNo],
    pub place: &'a Place,
    pub named: Option<&'a Pointer>,
}

/// A labelled snapshot and the next number.
#[derive(Drop)]
pub struct Tree<'a> {
    pub root: &'a Labelled,
    pub next: usize,
}

impl Place {
    /// The number of the place's node.
    pub fn node(&self) -> NodeNo
        ensures { result.0 ≡ specs.node_no self.now }
    {
        match self {
            Place::Whole(n) | Place::Prop(n, _) | Place::Item(n, _) | Place::Key(n, _) => *n,
        }
    }
}

/// A document's value with new nodes, numbered from 0 on.
pub fn number_new(alloc: Global, types: &Types, value: &Snap) -> Result<New, AllocError>
    requires { IsPlain (view value.now) }
    ensures { IfOk result (λ new. Added (template (by_first (typing_of types.now.table)) (root_type types.now) None (view value.now)) 0 new) }
{
    label_new(alloc, types, model_type(types, types.root()), value, 0)
}

/// What a write makes of a tree, before the tree is judged as a whole.
pub fn write_place(
    alloc: Global,
    types: &Types,
    to: &Target,
    change: &Change,
    whole: &Tree,
) -> Result<Changed, TreeError>
    requires { WritesPlain (write_of change.now) }
    ensures { Answers changed result (specs.place_written types.now (target to.now) (write_of change.now) (tree whole.now)) }
{
    match whole.root.way_to(alloc, to.place.node())? {
        Some(way) => write_at(alloc, types, to, change, whole, way.as_slice()),
        None => Err(refuse(Pointer::new(alloc), Rule::Dead)),
    }
}

/// The write of a place of the node at the end of a way.
fn write_at(
    alloc: Global,
    types: &Types,
    to: &Target,
    change: &Change,
    whole: &Tree,
    way: &[Turn],
) -> Result<Changed, TreeError>
    requires { WritesPlain (write_of change.now) }
    ensures { Answers changed result (specs.written_at types.now (target to.now) (write_of change.now) (record { tree = tree whole.now; way = node.way way.now })) }
{
    let named = name_for(alloc, way, to)?;
    if !may_write(way, to.running, whole.root) {
        return Err(refuse(named, Rule::Protected));
    }
    match whole.root.part_at(way) {
        Some(node) => {
            let path = pointer_of(alloc, way)?;
            let by = Writing {
                types,
                node: &path,
                of: type_at(way, types, model_type(types, types.root()), whole.root),
                named: &named,
                next: whole.next,
            };
            let changed = write_node(alloc, &by, to.place, change, node)?;
            Ok(placed(alloc, way, whole.root, changed)?)
        }
        None => Err(refuse(Pointer::new(alloc), Rule::Dead)),
    }
}

/// The path that names a place: the one that it was named by, or else its own.
fn name_for(alloc: Global, way: &[Turn], to: &Target) -> Result<Pointer, AllocError>
    ensures { IfOk result (λ path. path ≡ specs.name_for (node.way way.now) (target to.now)) }
{
    match to.named {
        Some(named) => named.clone_in(),
        None => path_of_place(alloc, way, to.place),
    }
}

#[cycle(may_write)]
/// Whether one of the running nodes is the node at the end of a way or above it.
pub fn may_write(way: &[Turn], running: &[NodeNo], root: &Labelled) -> bool
    ensures { result ≡ nodes.may_write running.now (node.way way.now) (node.labelled root.now) }
{
    match way {
        [] => is_running(running, root),
        [to, rest @ ..] => is_running(running, root) || may_write_below(to, rest, running, root),
    }
}

#[cycle(may_write)]
fn may_write_below(to: &Turn, rest: &[Turn], running: &[NodeNo], root: &Labelled) -> bool
    ensures { result ≡ unwrap_or (option_map (λ part. nodes.may_write running.now (node.way rest.now) part) (part_at_turn (node.turn to.now) (node.labelled root.now))) false }
{
    match root.part(to) {
        Some(part) => may_write(rest, running, part),
        None => false,
    }
}

/// Whether a node is one of those that run.
fn is_running(running: &[NodeNo], part: &Labelled) -> bool
    ensures { result ≡ nodes.is_running running.now (label_of (node.labelled part.now)) }
{
    match part.label() {
        Some(label) => has_number(running, label.number.0),
        None => false,
    }
}

fn has_number(running: &[NodeNo], number: usize) -> bool
    ensures { result ≡ list_any (λ (n : RunningNo). n.0 == number) running.now }
{
    running.iter().any(|n| n.0 == number)
}

/// The type of the place at the end of a way, from a value of a type on.
fn type_at(way: &[Turn], types: &Types, t: TypeNo, root: &Labelled) -> TypeNo
    ensures { result.0 ≡ nodes.type_at (typing_of types.now.table) t.0 (node.way way.now) (node.labelled root.now) }
{
    match way {
        [] => t,
        [to, rest @ ..] => match root.part(to) {
            Some(part) => type_at(rest, types, part_type(types, root, key_of(to)), part),
            None => t,
        },
    }
}

/// The key of a turn; an item has none.
pub fn key_of(to: &Turn) -> &str
    ensures { result.now ≡ nodes.key_of (node.turn to.now) }
{
    match to {
        Turn::Item(_) => "",
        Turn::Entry(_, key) => key.text(),
    }
}

/// The greatest weight of a tree.
const MOST_WEIGHT: u32 = 1_048_576;

/// What a write makes of a tree, or the first rule that it doesn't meet.
pub fn write_tree(
    alloc: Global,
    types: &Types,
    to: &Target,
    change: &Change,
    whole: &Tree,
) -> Result<Changed, TreeError>
    requires written { WritesPlain (write_of change.now) }
    requires numbered { AreNumbered whole.now.next (node.labelled whole.now.root.now) }
    requires plain { IsPlain (node.plain whole.now.root.now) }
    ensures outcome { Answers changed result (specs.written types.now (target to.now) (write_of change.now) (tree whole.now)) }
    ensures sound { IsSound types.now }
{
    let _ = types.root();
    let made = write_place(alloc, types, to, change, whole)?;
    judge(alloc, types, made)
}

/// A changed tree, unless it is too heavy or too deep, or two models of one type have the same identifier.
pub fn judge(alloc: Global, types: &Types, made: Changed) -> Result<Changed, TreeError>
    requires { IsPlain (node.plain made.value) }
    ensures outcome { Answers changed result (specs.judged types.now (changed made)) }
    ensures given { IfOk result (λ c. c ≡ made) }
{
    let snapshot = made.value.snapshot(alloc)?;
    if !fits(&snapshot, MOST_WEIGHT) {
        return Err(refuse(Pointer::new(alloc), Rule::Large));
    }
    match doubled(alloc, types, &snapshot)? {
        Some(path) => Err(refuse(path, Rule::Identifier)),
        None => Ok(made),
    }
}
