//! The middleware around an action.
ghost use Rattle.std.specs.Prelude.{ℕ, map};
ghost use Rattle.expr_syntax.specs.Shown.{shown};
ghost use Rattle.live_tree.specs.Contents.{state};
ghost use Rattle.action_core.specs.Act.{Act};
ghost use Rattle.action_core.specs.Calling.{surrounded};
ghost use Rattle.action_steps.specs.Doing.{point};
ghost use Rattle.action_steps.specs.Acting.{behaving_of, layer_of};
ghost use Rattle.action_run.specs.Surrounding.{Passes, Admits};

use action_steps::{Acting, Guard, Layer, admits, refused};
use expr_syntax::{Expr, Steps};
use live_tree::Tree;
use model_syntax::Middleware;
use pointer_core::Rule;
use snap_core::NodeNo;
use std::sync::ledger::Ledger;
use view_engine::RunError;

/// Asks the conditions around an action, the outermost first, and tells whether one of its middlewares is atomic.
pub fn pass<L: Ledger>(
    within: &Acting<'_>,
    layers: &[Layer<'_>],
    tree: &Tree,
    steps: &mut Steps<L>,
) -> Result<bool, RunError>
    ensures { (inner : Act (Unit {0})) (counted : ℕ) → Passes result (surrounded (behaving_of within.now.schema.now) within.now.frame.now (map layer_of layers.now) inner) inner
        (point (state tree.now) counted steps.old) (point (state tree.now) counted steps.new) }
{
    let mut is_atomic = false;
    for layer in layers {
        match layer.middleware {
            Middleware::Atomic(_) => is_atomic = true,
            Middleware::Protect(_, condition) => guard(within, layer.node, condition, tree, steps)?,
        }
    }
    Ok(is_atomic)
}

/// Refused `guarded` where a condition doesn't hold.
fn guard<L: Ledger>(
    within: &Acting<'_>,
    node: NodeNo,
    condition: &Expr,
    tree: &Tree,
    steps: &mut Steps<L>,
) -> Result<(), RunError>
    ensures { (inner : Act (Unit {0})) (counted : ℕ) → Admits result (behaving_of within.now.schema.now) within.now.frame.now node (shown condition.now) inner
        (point (state tree.now) counted steps.old) (point (state tree.now) counted steps.new) }
{
    let guard = Guard {
        node,
        condition,
        frame: within.frame,
    };
    if admits(within.alloc, within.schema, &guard, tree, steps)? {
        Ok(())
    } else {
        Err(refused(within.frame, Rule::Guarded))
    }
}
