//! Writes of a tree on behalf of the nodes on which actions run.
ghost use Rattle.std.specs.Prelude.{◌≡◌, ◌++◌};
ghost use Rattle.list_core.specs.Outcome.{Gives};
ghost use Rattle.live_tree.specs.Contents.{state};
ghost use Rattle.tree_core.specs.Changed.{Changed};
ghost use Rattle.tree_core.specs.Recorded.{tree_in};
ghost use Rattle.tree_core.specs.Written.{target};
ghost use Rattle.answer_writing.specs.Giving.{given};
ghost use Rattle.answer_writing.specs.View.{giving_of};
ghost use Rattle.answer_writing.specs.Written.{GivesPlain};
ghost use Rattle.action_core.specs.Behaving.{node_path};
ghost use Rattle.action_core.specs.Statements as specs;
ghost use Rattle.action_steps.specs.Writes.{naming_of, IsToldIn, RefusesIn, Writes};

use crate::acting::{Acting, refused};
use crate::naming::Naming;
use answer_writing::{Giving, change_for};
use live_tree::Tree;
use pointer_core::{Pointer, Refusal, Rule};
use snap_core::NodeNo;
use std::alloc::{AllocError, Global};
use tree_core::{Target, TreeError, may_write};
use view_engine::RunError;

/// A write that a statement names.
pub fn write_named(acting: &Acting<'_>, w: Naming, tree: &mut Tree) -> Result<(), RunError>
    requires { GivesPlain (giving_of w.giving) }
    ensures { Writes result acting.now.frame.now
        (specs.named_written acting.now.schema.now.types acting.now.running.now (naming_of w) (tree_in (state tree.old)))
        (state tree.old) (state tree.new) }
{
    let path = named_path(acting.alloc, &w, &*tree)?;
    let Naming {
        node,
        place,
        giving,
        ..
    } = w;
    match place {
        Some(place) => {
            let named = Some(&path);
            let to = Target {
                running: acting.running,
                place: &place,
                named,
            };
            give(acting, &to, giving, tree)
        }
        None => Err(unsuited(acting, node, path, &*tree)),
    }
}

/// An answer, written at a place.
pub fn give(
    acting: &Acting<'_>,
    to: &Target<'_>,
    giving: Giving,
    tree: &mut Tree,
) -> Result<(), RunError>
    requires { GivesPlain (giving_of giving) }
    ensures { Writes result acting.now.frame.now (given acting.now.schema.now.types (target to.now) (giving_of giving) (tree_in (state tree.old)))
        (state tree.old) (state tree.new) }
{
    let types = acting.schema.types();
    let change = match change_for(acting.alloc, types, to, giving, &tree.whole()) {
        Ok(change) => change,
        Err(error) => return Err(told_in(acting.frame, error)),
    };
    match tree.write(acting.alloc, types, to, change) {
        Ok(()) => Ok(()),
        Err(error) => Err(told_in(acting.frame, error)),
    }
}

/// Why a key that a statement doesn't take isn't written: its node is dead, or mustn't be written, or else the key is of
/// the wrong kind.
fn unsuited(acting: &Acting<'_>, n: NodeNo, path: Pointer, tree: &Tree) -> RunError
    ensures { RefusesIn {A = Changed} acting.now.frame.now result (specs.unsuited acting.now.running.now n path (state tree.now).tree) }
{
    let whole = tree.whole();
    let Ok(way) = whole.root.way_to(acting.alloc, n) else {
        return RunError::Memory;
    };
    let Some(way) = way else {
        return refused(acting.frame, Rule::Dead);
    };
    if may_write(way.as_slice(), acting.running, whole.root) {
        return refused(acting.frame, Rule::Kind);
    }
    RunError::Refused(Refusal {
        path,
        rule: Rule::Protected,
    })
}

/// The path of the place that a statement names.
fn named_path(alloc: Global, w: &Naming, tree: &Tree) -> Result<Pointer, AllocError>
    ensures { Gives result (node_path w.now.node (state tree.now).tree ++ w.now.tokens) }
{
    let mut path = path_of(alloc, tree, w.node)?;
    for token in w.tokens.tokens() {
        path.push(token.clone_in()?)?;
    }
    Ok(path)
}

/// The path of a node; the empty path, where it is dead.
fn path_of(alloc: Global, tree: &Tree, n: NodeNo) -> Result<Pointer, AllocError>
    ensures { Gives result (node_path n (state tree.now).tree) }
{
    match tree.path_of(alloc, n) {
        Ok(path) => Ok(path),
        Err(TreeError::Memory) => Err(AllocError),
        Err(TreeError::Refused(_)) => Ok(Pointer::new(alloc)),
    }
}

/// An error of the tree, told in a frame: a dead node, and a node or a key of the wrong kind, are told of the frame.
pub fn told_in(frame: &Pointer, error: TreeError) -> RunError
    ensures { IsToldIn frame.now error result }
{
    match error {
        TreeError::Memory => RunError::Memory,
        TreeError::Refused(Refusal { path, rule }) => match rule {
            Rule::Dead => refused(frame, Rule::Dead),
            Rule::Kind => refused(frame, Rule::Kind),
            rule => RunError::Refused(Refusal { path, rule }),
        },
    }
}
