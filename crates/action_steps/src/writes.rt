//! The statements that write.
ghost use Rattle.std.specs.Prelude.{ℕ};
ghost use Rattle.expr_syntax.specs.Shown.{shown};
ghost use Rattle.expr_syntax.specs.Syntax as syntax;
ghost use Rattle.live_tree.specs.Contents.{state};
ghost use Rattle.plain_answers.specs.Plainness.{IsPlainEnv, HasPlainConstants};
ghost use Rattle.action_core.specs.Running.{ran};
ghost use Rattle.action_steps.specs.Doing.{Performs, point};
ghost use Rattle.action_steps.specs.Acting.{acting_of, env_of};

use crate::acting::{Acting, node_in};
use crate::clearing::{removals, remove_all};
use crate::naming::{
    entry_put, item_inserted, item_pushed, item_replaced, part_dropped, property_set,
    snapshot_applied,
};
use crate::parts::{ThreeParts, three_parts, two_parts, value};
use crate::writing::{told_in, write_named};
use expr_syntax::{Expr, Steps};
use live_tree::Tree;
use snap_core::Name;
use std::sync::ledger::Ledger;
use view_engine::{Env, RunError};

/// Sets a property of a model.
pub fn set<L: Ledger>(
    acting: &Acting<'_>,
    on: &Expr,
    name: &Name,
    to: &Expr,
    env: &Env,
    tree: &mut Tree,
    steps: &mut Steps<L>,
) -> Result<(), RunError>
    requires on { HasPlainConstants (shown on.now) }
    requires to { HasPlainConstants (shown to.now) }
    requires bound { IsPlainEnv (env_of env.now) }
    ensures { (counted : ℕ) → Performs (λ _. env_of env.now) result (ran (acting_of acting.now) (syntax.set (shown on.now) name.now (shown to.now)) (env_of env.now))
        (point (state tree.old) counted steps.old) (point (state tree.new) counted steps.new) }
{
    let parts = two_parts(acting, on, to, env, &*tree, steps)?;
    let n = node_in(acting.frame, &parts.first)?;
    let naming = property_set(acting.alloc, n, name, parts.second)?;
    write_named(acting, naming, tree)
}

/// Sets a key of a map, or adds it.
pub fn put<L: Ledger>(
    acting: &Acting<'_>,
    on: &Expr,
    key: &Expr,
    to: &Expr,
    env: &Env,
    tree: &mut Tree,
    steps: &mut Steps<L>,
) -> Result<(), RunError>
    requires on { HasPlainConstants (shown on.now) }
    requires key { HasPlainConstants (shown key.now) }
    requires to { HasPlainConstants (shown to.now) }
    requires bound { IsPlainEnv (env_of env.now) }
    ensures { (counted : ℕ) → Performs (λ _. env_of env.now) result (ran (acting_of acting.now) (syntax.put (shown on.now) (shown key.now) (shown to.now)) (env_of env.now))
        (point (state tree.old) counted steps.old) (point (state tree.new) counted steps.new) }
{
    let parts = three_parts(acting, on, key, to, env, &*tree, steps)?;
    let n = node_in(acting.frame, &parts.first)?;
    let ThreeParts { second, third, .. } = parts;
    let naming = entry_put(acting.alloc, n, &second, third)?;
    write_named(acting, naming, tree)
}

/// Adds an item at the end of an array.
pub fn push<L: Ledger>(
    acting: &Acting<'_>,
    on: &Expr,
    to: &Expr,
    env: &Env,
    tree: &mut Tree,
    steps: &mut Steps<L>,
) -> Result<(), RunError>
    requires on { HasPlainConstants (shown on.now) }
    requires to { HasPlainConstants (shown to.now) }
    requires bound { IsPlainEnv (env_of env.now) }
    ensures { (counted : ℕ) → Performs (λ _. env_of env.now) result (ran (acting_of acting.now) (syntax.push (shown on.now) (shown to.now)) (env_of env.now))
        (point (state tree.old) counted steps.old) (point (state tree.new) counted steps.new) }
{
    let parts = two_parts(acting, on, to, env, &*tree, steps)?;
    let n = node_in(acting.frame, &parts.first)?;
    let size = tree.len(n).unwrap_or(0);
    let naming = item_pushed(acting.alloc, n, parts.second, size)?;
    write_named(acting, naming, tree)
}

/// Adds an item before the one at an index.
pub fn insert<L: Ledger>(
    acting: &Acting<'_>,
    on: &Expr,
    index: &Expr,
    to: &Expr,
    env: &Env,
    tree: &mut Tree,
    steps: &mut Steps<L>,
) -> Result<(), RunError>
    requires on { HasPlainConstants (shown on.now) }
    requires index { HasPlainConstants (shown index.now) }
    requires to { HasPlainConstants (shown to.now) }
    requires bound { IsPlainEnv (env_of env.now) }
    ensures { (counted : ℕ) → Performs (λ _. env_of env.now) result (ran (acting_of acting.now) (syntax.insert (shown on.now) (shown index.now) (shown to.now)) (env_of env.now))
        (point (state tree.old) counted steps.old) (point (state tree.new) counted steps.new) }
{
    let parts = three_parts(acting, on, index, to, env, &*tree, steps)?;
    let n = node_in(acting.frame, &parts.first)?;
    let ThreeParts { second, third, .. } = parts;
    let naming = item_inserted(acting.alloc, n, &second, third)?;
    write_named(acting, naming, tree)
}

/// Sets the item at an index.
pub fn replace<L: Ledger>(
    acting: &Acting<'_>,
    on: &Expr,
    index: &Expr,
    to: &Expr,
    env: &Env,
    tree: &mut Tree,
    steps: &mut Steps<L>,
) -> Result<(), RunError>
    requires on { HasPlainConstants (shown on.now) }
    requires index { HasPlainConstants (shown index.now) }
    requires to { HasPlainConstants (shown to.now) }
    requires bound { IsPlainEnv (env_of env.now) }
    ensures { (counted : ℕ) → Performs (λ _. env_of env.now) result (ran (acting_of acting.now) (syntax.replace (shown on.now) (shown index.now) (shown to.now)) (env_of env.now))
        (point (state tree.old) counted steps.old) (point (state tree.new) counted steps.new) }
{
    let parts = three_parts(acting, on, index, to, env, &*tree, steps)?;
    let n = node_in(acting.frame, &parts.first)?;
    let ThreeParts { second, third, .. } = parts;
    let naming = item_replaced(acting.alloc, n, &second, third)?;
    write_named(acting, naming, tree)
}

/// Removes an item of an array, or a key of a map.
pub fn drop<L: Ledger>(
    acting: &Acting<'_>,
    on: &Expr,
    key: &Expr,
    env: &Env,
    tree: &mut Tree,
    steps: &mut Steps<L>,
) -> Result<(), RunError>
    requires on { HasPlainConstants (shown on.now) }
    requires key { HasPlainConstants (shown key.now) }
    requires bound { IsPlainEnv (env_of env.now) }
    ensures { (counted : ℕ) → Performs (λ _. env_of env.now) result (ran (acting_of acting.now) (syntax.drop (shown on.now) (shown key.now)) (env_of env.now))
        (point (state tree.old) counted steps.old) (point (state tree.new) counted steps.new) }
{
    let parts = two_parts(acting, on, key, env, &*tree, steps)?;
    let n = node_in(acting.frame, &parts.first)?;
    let naming = part_dropped(acting.alloc, n, &parts.second)?;
    write_named(acting, naming, tree)
}

/// Removes all items of an array, last to first, or all keys of a map.
pub fn clear<L: Ledger>(
    acting: &Acting<'_>,
    on: &Expr,
    env: &Env,
    tree: &mut Tree,
    steps: &mut Steps<L>,
) -> Result<(), RunError>
    requires on { HasPlainConstants (shown on.now) }
    requires bound { IsPlainEnv (env_of env.now) }
    ensures { (counted : ℕ) → Performs (λ _. env_of env.now) result (ran (acting_of acting.now) (syntax.clear (shown on.now)) (env_of env.now))
        (point (state tree.old) counted steps.old) (point (state tree.new) counted steps.new) }
{
    let x = value(acting, on, env, &*tree, steps)?;
    let n = node_in(acting.frame, &x)?;
    match removals(acting.alloc, &*tree, n) {
        Ok(places) => remove_all(acting, places.as_slice(), tree),
        Err(error) => Err(told_in(acting.frame, error)),
    }
}

/// Applies a snapshot to a node.
pub fn apply<L: Ledger>(
    acting: &Acting<'_>,
    on: &Expr,
    to: &Expr,
    env: &Env,
    tree: &mut Tree,
    steps: &mut Steps<L>,
) -> Result<(), RunError>
    requires on { HasPlainConstants (shown on.now) }
    requires to { HasPlainConstants (shown to.now) }
    requires bound { IsPlainEnv (env_of env.now) }
    ensures { (counted : ℕ) → Performs (λ _. env_of env.now) result (ran (acting_of acting.now) (syntax.apply (shown on.now) (shown to.now)) (env_of env.now))
        (point (state tree.old) counted steps.old) (point (state tree.new) counted steps.new) }
{
    let parts = two_parts(acting, on, to, env, &*tree, steps)?;
    let n = node_in(acting.frame, &parts.first)?;
    let naming = snapshot_applied(acting.alloc, n, parts.second);
    write_named(acting, naming, tree)
}
