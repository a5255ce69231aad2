//! Statements that hold no block.
ghost use Rattle.std.specs.Prelude.{◌≡◌, length, map};
ghost use Rattle.snap_core.specs.Value.{AreKeyed};
ghost use Rattle.snap_core.specs.View.{view, fields_view};
ghost use Rattle.expr_syntax.specs.Shown.{shown, expressions};
ghost use Rattle.expr_syntax.specs.ShownStatements.{stmt_shown};
ghost use Rattle.expr_form.specs.Expressions.{expression_read};
ghost use Rattle.expr_form.specs.Models.{target_of};
ghost use Rattle.expr_form.specs.Outcome.{Tells};
ghost use Rattle.expr_form.specs.Statements as specs;

use crate::build_stmts::{
    binding_from, call_from, clear_from, given_from, keyed_from, set_from, throw_from,
};
use crate::expr::read_expression;
use crate::fault::Trouble;
use crate::models::Target;
use crate::names::{read_binder, read_name};
use crate::scope::Scope;
use crate::stmt_keys::{Given, Keyed, Single};
use crate::texts::{items_in, pair_in, triple_in};
use crate::walk::{at_index, both, pushed, wrong};
use expr_syntax::{Expr, Stmt};
use list_core::Parts;
use pointer_core::SchemaRule;
use snap_core::{Field, Snap};

fn read_set(
    value: &Snap,
    types: &[Field],
    targets: &[Target],
    scope: &mut Scope,
) -> Result<Stmt, Trouble>
    requires keyed { AreKeyed (fields_view types.now) }
    requires each { length targets.now ≡ length types.now }
    ensures reads { Tells stmt_shown result
        (specs.set_read (expression_read (target_of (fields_view types.now) targets.now)) scope.old (view value.now)) }
    ensures scope { scope.new ≡ scope.old }
{
    let alloc = scope.allocator();
    let Some(parts) = triple_in(value) else {
        return Err(wrong(alloc, SchemaRule::Shape));
    };
    let target = read_expression(parts.0, types, targets, scope);
    let target = at_index(0, target);
    let name = read_name(alloc, parts.1);
    let name = at_index(1, name);
    let value = read_expression(parts.2, types, targets, scope);
    let value = at_index(2, value);
    let inner = both(name, value);
    let whole = both(target, inner);
    set_from(alloc, whole)
}

/// A write at a key or an index.
fn read_keyed(
    form: Keyed,
    value: &Snap,
    types: &[Field],
    targets: &[Target],
    scope: &mut Scope,
) -> Result<Stmt, Trouble>
    requires keyed { AreKeyed (fields_view types.now) }
    requires each { length targets.now ≡ length types.now }
    ensures reads { Tells stmt_shown result
        (specs.keyed_read (expression_read (target_of (fields_view types.now) targets.now)) form scope.old (view value.now)) }
    ensures scope { scope.new ≡ scope.old }
{
    let alloc = scope.allocator();
    let Some(parts) = triple_in(value) else {
        return Err(wrong(alloc, SchemaRule::Shape));
    };
    let target = read_expression(parts.0, types, targets, scope);
    let target = at_index(0, target);
    let key = read_expression(parts.1, types, targets, scope);
    let key = at_index(1, key);
    let value = read_expression(parts.2, types, targets, scope);
    let value = at_index(2, value);
    let inner = both(key, value);
    let whole = both(target, inner);
    keyed_from(alloc, form, whole)
}

/// A write that has a target and one operand more.
fn read_given(
    form: Given,
    value: &Snap,
    types: &[Field],
    targets: &[Target],
    scope: &mut Scope,
) -> Result<Stmt, Trouble>
    requires keyed { AreKeyed (fields_view types.now) }
    requires each { length targets.now ≡ length types.now }
    ensures reads { Tells stmt_shown result
        (specs.given_read (expression_read (target_of (fields_view types.now) targets.now)) form scope.old (view value.now)) }
    ensures scope { scope.new ≡ scope.old }
{
    let alloc = scope.allocator();
    let Some(parts) = pair_in(value) else {
        return Err(wrong(alloc, SchemaRule::Shape));
    };
    let target = read_expression(parts.0, types, targets, scope);
    let target = at_index(0, target);
    let operand = read_expression(parts.1, types, targets, scope);
    let operand = at_index(1, operand);
    let whole = both(target, operand);
    given_from(alloc, form, whole)
}

fn read_binding(
    value: &Snap,
    types: &[Field],
    targets: &[Target],
    scope: &mut Scope,
) -> Result<Stmt, Trouble>
    requires keyed { AreKeyed (fields_view types.now) }
    requires each { length targets.now ≡ length types.now }
    ensures reads { Tells stmt_shown result
        (specs.binding_read (expression_read (target_of (fields_view types.now) targets.now)) scope.old (view value.now)) }
    ensures scope { scope.new ≡ scope.old }
{
    let alloc = scope.allocator();
    let Some(parts) = pair_in(value) else {
        return Err(wrong(alloc, SchemaRule::Shape));
    };
    let name = read_binder(alloc, parts.0);
    let name = at_index(0, name);
    let value = read_expression(parts.1, types, targets, scope);
    let value = at_index(1, value);
    let whole = both(name, value);
    binding_from(alloc, whole)
}

fn read_arguments(
    value: &Snap,
    types: &[Field],
    targets: &[Target],
    scope: &mut Scope,
) -> Result<Parts<Expr>, Trouble>
    requires keyed { AreKeyed (fields_view types.now) }
    requires each { length targets.now ≡ length types.now }
    ensures reads { Tells (λ es. expressions (map shown es)) result
        (specs.arguments_read (expression_read (target_of (fields_view types.now) targets.now)) scope.old (view value.now)) }
    ensures scope { scope.new ≡ scope.old }
{
    let alloc = scope.allocator();
    let Some(items) = items_in(value) else {
        return Err(wrong(alloc, SchemaRule::Shape));
    };
    let mut list = Ok(Parts::new(alloc));
    for (index, item) in items.iter().enumerate() {
        let part = read_expression(item, types, targets, scope);
        let part = at_index(index, part);
        let longer = pushed(list, part);
        list = longer;
    }
    list
}

fn read_call(
    value: &Snap,
    types: &[Field],
    targets: &[Target],
    scope: &mut Scope,
) -> Result<Stmt, Trouble>
    requires keyed { AreKeyed (fields_view types.now) }
    requires each { length targets.now ≡ length types.now }
    ensures reads { Tells stmt_shown result
        (specs.call_read (expression_read (target_of (fields_view types.now) targets.now)) scope.old (view value.now)) }
    ensures scope { scope.new ≡ scope.old }
{
    let alloc = scope.allocator();
    let Some(parts) = triple_in(value) else {
        return Err(wrong(alloc, SchemaRule::Shape));
    };
    let target = read_expression(parts.0, types, targets, scope);
    let target = at_index(0, target);
    let name = read_name(alloc, parts.1);
    let name = at_index(1, name);
    let arguments = read_arguments(parts.2, types, targets, scope);
    let arguments = at_index(2, arguments);
    let inner = both(name, arguments);
    let whole = both(target, inner);
    call_from(alloc, whole)
}

/// What stands under the key of a statement without blocks.
pub fn read_single(
    form: Single,
    value: &Snap,
    types: &[Field],
    targets: &[Target],
    scope: &mut Scope,
) -> Result<Stmt, Trouble>
    requires keyed { AreKeyed (fields_view types.now) }
    requires each { length targets.now ≡ length types.now }
    ensures reads { Tells stmt_shown result
        (specs.single_read (expression_read (target_of (fields_view types.now) targets.now)) form scope.old (view value.now)) }
    ensures scope { scope.new ≡ scope.old }
{
    let alloc = scope.allocator();
    match form {
        Single::Set => read_set(value, types, targets, scope),
        Single::Keyed(form) => read_keyed(form, value, types, targets, scope),
        Single::Given(form) => read_given(form, value, types, targets, scope),
        Single::Clear => {
            let target = read_expression(value, types, targets, scope);
            clear_from(alloc, target)
        }
        Single::Binding => read_binding(value, types, targets, scope),
        Single::Call => read_call(value, types, targets, scope),
        Single::Throw => {
            let reason = read_name(alloc, value);
            throw_from(reason)
        }
    }
}
