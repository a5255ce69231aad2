//! The middleware around an action.
ghost use Rattle.std.specs.Prelude.{◌≡◌, ◌++◌, ℕ, map, IfOk};
ghost use Rattle.expr_syntax.specs.Shown.{shown};
ghost use Rattle.std.specs.List.{list_any};
ghost use Rattle.std.specs.Str.{bytes_eq};
ghost use Rattle.model_syntax.specs.Shown.{middleware_shown};
ghost use Rattle.node_core.specs.View.{labelled, way};
ghost use Rattle.edit_core.specs.Typing.{label_of};
ghost use Rattle.live_tree.specs.Contents.{state};
ghost use Rattle.action_core.specs.Calling.{guards};
ghost use Rattle.action_core.specs.Layers as specs;
ghost use Rattle.action_core.specs.Layers.{layers_of, layers_along, own_layers, named_layers};
ghost use Rattle.action_steps.specs.Doing.{Performs, point};
ghost use Rattle.action_steps.specs.Acting.{behaving_of, callee_of, layer_of};

use crate::acting::Acting;
use crate::beginning::Callee;
use crate::binding::own_names;
use crate::parts::condition;
use edit_core::Kind;
use expr_core::Schema;
use expr_syntax::{Expr, Steps};
use list_core::Parts;
use live_tree::Tree;
use model_syntax::{Middleware, Surrounded};
use node_core::{Labelled, Turn};
use pointer_core::Pointer;
use snap_core::{Name, NodeNo};
use std::alloc::{AllocError, Global};
use std::sync::ledger::Ledger;
use view_engine::RunError;

/// A middleware, and the node that it was declared for.
#[derive(Drop)]
pub struct Layer<'a> {
    pub node: NodeNo,
    pub middleware: &'a Middleware,
}

/// The middleware that surrounds an action of a node, the outermost first: from its node up to the root, on each node in
/// the order of the schema.
pub fn layers_around<'a>(
    alloc: Global,
    schema: &'a Schema,
    tree: &Tree,
    callee: &Callee<'_>,
) -> Result<Parts<Layer<'a>>, AllocError>
    ensures { IfOk result (λ layers. map layer_of layers ≡ layers_of (behaving_of schema.now) (callee_of callee.now) (state tree.now).tree) }
{
    let root = tree.whole().root;
    match root.way_to(alloc, callee.node)? {
        Some(way) => layers_along(alloc, schema, callee.name, way.as_slice(), root),
        None => Ok(Parts::new(alloc)),
    }
}

/// The middleware from the node at the end of a way up to the value where the way begins.
fn layers_along<'a>(
    alloc: Global,
    schema: &'a Schema,
    name: &str,
    turns: &[Turn],
    from: &Labelled,
) -> Result<Parts<Layer<'a>>, AllocError>
    ensures { IfOk result (λ layers. map layer_of layers ≡ layers_along (behaving_of schema.now) name.now (way turns.now) (labelled from.now)) }
{
    let [turn, rest @ ..] = turns else {
        return with_own(schema, name, from, Parts::new(alloc));
    };
    match from.part(turn) {
        Some(part) => {
            let layers = layers_along(alloc, schema, name, rest, part)?;
            with_own(schema, name, from, layers)
        }
        None => with_own(schema, name, from, Parts::new(alloc)),
    }
}

/// Layers, and then those of a node.
fn with_own<'a>(
    schema: &'a Schema,
    name: &str,
    from: &Labelled,
    layers: Parts<Layer<'a>>,
) -> Result<Parts<Layer<'a>>, AllocError>
    ensures { IfOk result (λ all. map layer_of all ≡ map layer_of layers.entry ++ own_layers (behaving_of schema.now) name.now (label_of (labelled from.now))) }
{
    let Some(label) = from.label() else {
        return Ok(layers);
    };
    match label.kind {
        Kind::Model(m) => with_named(schema.middleware(m), name, label.number, layers),
        _ => Ok(layers),
    }
}

/// Layers, and then those of a node's middleware that surround the actions of a name.
fn with_named<'a>(
    declared: &'a [Middleware],
    name: &str,
    node: NodeNo,
    mut layers: Parts<Layer<'a>>,
) -> Result<Parts<Layer<'a>>, AllocError>
    ensures { IfOk result (λ all. map layer_of all ≡ map layer_of layers.entry ++ named_layers name.now node (map middleware_shown declared.now)) }
{
    for middleware in declared {
        if surrounds(name, middleware) {
            layers.push(Layer { node, middleware })?;
        }
    }
    Ok(layers)
}

/// Whether a middleware surrounds the actions of a name.
fn surrounds(name: &str, middleware: &Middleware) -> bool
    ensures { result ≡ specs.surrounds name.now (middleware_shown middleware.now) }
{
    match middleware {
        Middleware::Atomic(around) | Middleware::Protect(around, _) => has_name(name, around),
    }
}

fn has_name(name: &str, around: &Surrounded) -> bool
    ensures { result ≡ specs.has_name name.now around.now }
{
    match around {
        Surrounded::All => true,
        Surrounded::Named(names) => is_among(name, names.as_slice()),
    }
}

fn is_among(name: &str, names: &[Name]) -> bool
    ensures { result ≡ list_any (bytes_eq name.now) names.now }
{
    for other in names {
        if name == other.text() {
            return true;
        }
    }
    false
}

/// A condition of a node, in the frame of the action that it guards.
#[derive(Drop)]
pub struct Guard<'a> {
    pub node: NodeNo,
    pub condition: &'a Expr,
    pub frame: &'a Pointer,
}

/// Whether a condition admits the action that it guards.
pub fn admits<L: Ledger>(
    alloc: Global,
    schema: &Schema,
    guard: &Guard<'_>,
    tree: &Tree,
    steps: &mut Steps<L>,
) -> Result<bool, RunError>
    ensures { (counted : ℕ) → Performs (λ b. b) result (guards (behaving_of schema.now) guard.now.frame.now guard.now.node (shown guard.now.condition.now))
        (point (state tree.now) counted steps.old) (point (state tree.now) counted steps.new) }
{
    let env = own_names(alloc, tree, guard.node)?;
    let acting = Acting {
        alloc,
        schema,
        running: &[],
        frame: guard.frame,
        room: 0,
    };
    condition(&acting, guard.condition, &env, tree, steps)
}
