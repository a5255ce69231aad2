//! The bodies of actions, in which their parameters are bound.
ghost use Rattle.std.specs.Prelude.{◌≡◌, length, IfOk, OnOk, OnErr};
ghost use Rattle.std.specs.Option.{option_copied, option_map};
ghost use Rattle.snap_core.specs.Value.{AreKeyed};
ghost use Rattle.snap_core.specs.View.{view, items_view, fields_view};
ghost use Rattle.expr_syntax.specs.ShownStatements.{block_shown};
ghost use Rattle.expr_form.specs.Models.{target_of};
ghost use Rattle.expr_form.specs.Outcome.{Tells};
ghost use Rattle.behaviour_form.specs.Actions as specs;

use expr_form::{Scope, Target, Trouble, pair_in, read_body, text_in};
use expr_syntax::Block;
use snap_core::{Field, Snap};
use std::alloc::{AllocError, Global};

/// Reads the body of an action, by what stands under its `params`, if anything does.
pub fn read_action_body(
    alloc: Global,
    body: &Snap,
    params: Option<&Snap>,
    types: &[Field],
    targets: &[Target],
) -> Result<Block, Trouble>
    requires keyed { AreKeyed (fields_view types.now) }
    requires each { length targets.now ≡ length types.now }
    ensures { Tells block_shown result
        (specs.action_body_read (target_of (fields_view types.now) targets.now)
        (option_map view (option_copied params.entry)) (view body.now)) }
{
    let mut scope = scope_of(alloc, params)?;
    read_body(body, types, targets, &mut scope)
}

/// The names that are bound where an action begins: `self`, `root` and those of its parameters.
fn scope_of(alloc: Global, params: Option<&Snap>) -> Result<Scope, AllocError>
    ensures { IfOk result (λ scope. scope ≡ specs.names_bound (option_map view (option_copied params.entry))) }
{
    let mut scope = Scope::new(alloc)?;
    if let Some(Snap::List(items)) = params {
        bind_params(&mut scope, items.as_slice())?;
    }
    Ok(scope)
}

fn bind_params(scope: &mut Scope, items: &[Snap]) -> Result<(), AllocError>
    ensures { OnOk result (scope.new ≡ specs.params_bound scope.old (items_view items.now)) }
{
    for item in items {
        bind_param(scope, item)?;
    }
    Ok(())
}

/// Binds the name of a parameter. What isn't a list of two, the first of which is a text, binds nothing.
fn bind_param(scope: &mut Scope, item: &Snap) -> Result<(), AllocError>
    ensures { OnOk result (scope.new ≡ specs.param_bound scope.old (view item.now)) }
{
    let Some((name, _)) = pair_in(item) else {
        return Ok(());
    };
    match text_in(name) {
        Some(name) => scope.bind(name),
        None => Ok(()),
    }
}
