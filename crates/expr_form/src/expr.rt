//! Expressions: scalars, and objects with one key that says their form.
ghost use Rattle.std.specs.Prelude.{◌≡◌, length, List, ℕ};
ghost use Rattle.snap_core.specs.Value.{AreKeyed};
ghost use Rattle.snap_core.specs.View.{view, fields_view};
ghost use Rattle.expr_syntax.specs.Shown.{shown};
ghost use Rattle.expr_form.specs.Expressions as specs;
ghost use Rattle.expr_form.specs.Models.{target_of};
ghost use Rattle.expr_form.specs.Names.{bound};
ghost use Rattle.expr_form.specs.Outcome.{Tells};

use crate::build::{
    binding_from, choice_from, constant, constant_from, entry_from, find_from, is_from, list_from,
    make_from, named_from, one_from, own_from, two_from, variable_from, walk_from,
};
use crate::fault::Trouble;
use crate::formed::formed;
use crate::keys::{Aim, Group, Key, Leaf, Pair, Triple};
use crate::models::{Target, identified_named, model_named, read_entry};
use crate::names::{read_binder, read_name, read_variable};
use crate::numbers::check_numbers;
use crate::scope::{Scope, bind_in};
use crate::texts::{fields_in, items_in, pair_in, triple_in};
use crate::walk::{at_index, both, pushed, under, wrong};
use expr_syntax::Expr;
use list_core::Parts;
use pointer_core::SchemaRule;
use snap_core::{Field, Snap};
use std::alloc::Global;

/// How many expressions may be open at one time: one, and those that stand around it.
const MOST_OPEN: usize = 24;

/// A form that holds no expression.
fn read_leaf(alloc: Global, form: Leaf, value: &Snap, scope: &Scope) -> Result<Expr, Trouble>
    ensures { Tells shown result (specs.leaf_read scope.now form (view value.now)) }
{
    match form {
        Leaf::Const => constant_from(alloc, value, check_numbers(alloc, value)),
        Leaf::Var => variable_from(read_variable(alloc, value, scope)),
        Leaf::Own => own_from(read_name(alloc, value)),
    }
}

/// A value as an expression, in which no more than `room` expressions are open.
#[cycle(expressions)]
fn read_expr(
    value: &Snap,
    types: &[Field],
    targets: &[Target],
    room: usize,
    scope: &mut Scope,
) -> Result<Expr, Trouble>
    requires keyed { AreKeyed (fields_view types.now) }
    requires each { length targets.now ≡ length types.now }
    ensures reads { Tells shown result
        (specs.expr_read (target_of (fields_view types.now) targets.now) room scope.old (view value.now)) }
    ensures scope { scope.new ≡ scope.old }
{
    let alloc = scope.allocator();
    let formed = formed(alloc, value)?;
    if room == 0 {
        return Err(wrong(alloc, SchemaRule::Depth));
    }
    match formed {
        None => Ok(constant(alloc, value)?),
        Some(object) => read_keyed(object.0, object.1, types, targets, room - 1, scope),
    }
}

/// The expression that an object with one field is.
#[cycle(expressions)]
fn read_keyed(
    key: Key,
    field: &Field,
    types: &[Field],
    targets: &[Target],
    room: usize,
    scope: &mut Scope,
) -> Result<Expr, Trouble>
    requires keyed { AreKeyed (fields_view types.now) }
    requires each { length targets.now ≡ length types.now }
    ensures reads { Tells shown result
        (specs.keyed_read (target_of (fields_view types.now) targets.now)
        (specs.expr_read (target_of (fields_view types.now) targets.now) room)
        scope.old (key, field.now.key, view field.now.value)) }
    ensures scope { scope.new ≡ scope.old }
{
    match key {
        Key::Aim(aim) => read_aim(aim, field, types, targets, room, scope),
        Key::Group(group) => {
            let inside = read_group(group, &field.value, types, targets, room, scope);
            under(field.key.text(), inside)
        }
    }
}

/// What stands under the key of a form that speaks of no model.
#[cycle(expressions)]
fn read_group(
    group: Group,
    value: &Snap,
    types: &[Field],
    targets: &[Target],
    room: usize,
    scope: &mut Scope,
) -> Result<Expr, Trouble>
    requires keyed { AreKeyed (fields_view types.now) }
    requires each { length targets.now ≡ length types.now }
    ensures reads { Tells shown result
        (specs.group_read (specs.expr_read (target_of (fields_view types.now) targets.now) room) group scope.old (view value.now)) }
    ensures scope { scope.new ≡ scope.old }
{
    let alloc = scope.allocator();
    match group {
        Group::Leaf(form) => read_leaf(alloc, form, value, scope),
        Group::One(form) => one_from(alloc, form, read_expr(value, types, targets, room, scope)),
        Group::Pair(form) => read_pair(form, value, types, targets, room, scope),
        Group::Triple(form) => read_triple(form, value, types, targets, room, scope),
        Group::List => read_list(value, types, targets, room, scope),
        Group::Make => read_make(value, types, targets, room, scope),
    }
}

/// A form of two parts.
#[cycle(expressions)]
fn read_pair(
    form: Pair,
    value: &Snap,
    types: &[Field],
    targets: &[Target],
    room: usize,
    scope: &mut Scope,
) -> Result<Expr, Trouble>
    requires keyed { AreKeyed (fields_view types.now) }
    requires each { length targets.now ≡ length types.now }
    ensures reads { Tells shown result
        (specs.pair_read (specs.expr_read (target_of (fields_view types.now) targets.now) room) form scope.old (view value.now)) }
    ensures scope { scope.new ≡ scope.old }
{
    let alloc = scope.allocator();
    let Some(parts) = pair_in(value) else {
        return Err(wrong(alloc, SchemaRule::Shape));
    };
    let operand = read_expr(parts.0, types, targets, room, scope);
    let operand = at_index(0, operand);
    match form {
        Pair::Two(form) => {
            let right = read_expr(parts.1, types, targets, room, scope);
            let right = at_index(1, right);
            let operands = both(operand, right);
            two_from(alloc, form, operands)
        }
        Pair::Named(form) => {
            let name = read_name(alloc, parts.1);
            let name = at_index(1, name);
            let named = both(operand, name);
            named_from(alloc, form, named)
        }
    }
}

/// A form of three parts.
#[cycle(expressions)]
fn read_triple(
    form: Triple,
    value: &Snap,
    types: &[Field],
    targets: &[Target],
    room: usize,
    scope: &mut Scope,
) -> Result<Expr, Trouble>
    requires keyed { AreKeyed (fields_view types.now) }
    requires each { length targets.now ≡ length types.now }
    ensures reads { Tells shown result
        (specs.triple_read (specs.expr_read (target_of (fields_view types.now) targets.now) room) form scope.old (view value.now)) }
    ensures scope { scope.new ≡ scope.old }
{
    let alloc = scope.allocator();
    let Some(parts) = triple_in(value) else {
        return Err(wrong(alloc, SchemaRule::Shape));
    };
    match form {
        Triple::Walk(form) => {
            let walked = read_expr(parts.0, types, targets, room, scope);
            let walked = at_index(0, walked);
            let binder = read_binder(alloc, parts.1);
            let binder = at_index(1, binder);
            let body = read_bound(parts.1, parts.2, types, targets, room, scope);
            let body = at_index(2, body);
            let inner = both(binder, body);
            let walk = both(walked, inner);
            walk_from(alloc, form, walk)
        }
        Triple::Choice => {
            let condition = read_expr(parts.0, types, targets, room, scope);
            let condition = at_index(0, condition);
            let left = read_expr(parts.1, types, targets, room, scope);
            let left = at_index(1, left);
            let right = read_expr(parts.2, types, targets, room, scope);
            let right = at_index(2, right);
            let branches = both(left, right);
            let choice = both(condition, branches);
            choice_from(alloc, choice)
        }
        Triple::Binding => {
            let name = read_binder(alloc, parts.0);
            let name = at_index(0, name);
            let given = read_expr(parts.1, types, targets, room, scope);
            let given = at_index(1, given);
            let rest = read_bound(parts.0, parts.2, types, targets, room, scope);
            let rest = at_index(2, rest);
            let behind = both(given, rest);
            let binding = both(name, behind);
            binding_from(alloc, binding)
        }
    }
}

/// An expression in which the name of a binder is bound.
#[cycle(expressions)]
fn read_bound(
    name: &Snap,
    body: &Snap,
    types: &[Field],
    targets: &[Target],
    room: usize,
    scope: &mut Scope,
) -> Result<Expr, Trouble>
    requires keyed { AreKeyed (fields_view types.now) }
    requires each { length targets.now ≡ length types.now }
    ensures reads { Tells shown result
        (specs.expr_read (target_of (fields_view types.now) targets.now) room
        (bound scope.old (view name.now)) (view body.now)) }
    ensures scope { scope.new ≡ scope.old }
{
    let len = scope.len();
    bind_in(scope, name)?;
    let body = read_expr(body, types, targets, room, scope);
    scope.leave(len);
    body
}

/// A list of expressions.
#[cycle(expressions)]
fn read_list(
    value: &Snap,
    types: &[Field],
    targets: &[Target],
    room: usize,
    scope: &mut Scope,
) -> Result<Expr, Trouble>
    requires keyed { AreKeyed (fields_view types.now) }
    requires each { length targets.now ≡ length types.now }
    ensures reads { Tells shown result
        (specs.list_read (specs.expr_read (target_of (fields_view types.now) targets.now) room) scope.old (view value.now)) }
    ensures scope { scope.new ≡ scope.old }
{
    let alloc = scope.allocator();
    let Some(items) = items_in(value) else {
        return Err(wrong(alloc, SchemaRule::Shape));
    };
    let mut list = Ok(Parts::new(alloc));
    for (index, item) in items.iter().enumerate() {
        let part = read_expr(item, types, targets, room, scope);
        let part = at_index(index, part);
        let longer = pushed(list, part);
        list = longer;
    }
    list_from(list)
}

/// A record of expressions.
#[cycle(expressions)]
fn read_make(
    value: &Snap,
    types: &[Field],
    targets: &[Target],
    room: usize,
    scope: &mut Scope,
) -> Result<Expr, Trouble>
    requires keyed { AreKeyed (fields_view types.now) }
    requires each { length targets.now ≡ length types.now }
    ensures reads { Tells shown result
        (specs.make_read (specs.expr_read (target_of (fields_view types.now) targets.now) room) scope.old (view value.now)) }
    ensures scope { scope.new ≡ scope.old }
{
    let alloc = scope.allocator();
    let Some(fields) = fields_in(value) else {
        return Err(wrong(alloc, SchemaRule::Shape));
    };
    let mut entries = Ok(Parts::new(alloc));
    for field in fields {
        let key = field.key.text();
        let value = read_expr(&field.value, types, targets, room, scope);
        let value = under(key, value);
        let entry = entry_from(alloc, key, value);
        let longer = pushed(entries, entry);
        entries = longer;
    }
    make_from(entries)
}

/// A form that speaks of a model.
#[cycle(expressions)]
fn read_aim(
    form: Aim,
    field: &Field,
    types: &[Field],
    targets: &[Target],
    room: usize,
    scope: &mut Scope,
) -> Result<Expr, Trouble>
    requires keyed { AreKeyed (fields_view types.now) }
    requires each { length targets.now ≡ length types.now }
    ensures reads { Tells shown result
        (specs.aim_read (target_of (fields_view types.now) targets.now)
        (specs.expr_read (target_of (fields_view types.now) targets.now) room)
        form scope.old field.now.key (view field.now.value)) }
    ensures scope { scope.new ≡ scope.old }
{
    let alloc = scope.allocator();
    let key = field.key.text();
    let Some(parts) = pair_in(&field.value) else {
        return under(key, Err(wrong(alloc, SchemaRule::Shape)));
    };
    match form {
        Aim::Find => {
            let entry = read_entry(alloc, parts.0, types, targets);
            let entry = at_index(0, entry);
            let sought = read_expr(parts.1, types, targets, room, scope);
            let sought = at_index(1, sought);
            let found = both(entry, sought);
            let found = under(key, found);
            let identified = identified_named(parts.0, types, targets);
            find_from(alloc, identified, found)
        }
        Aim::Is => {
            let node = read_expr(parts.0, types, targets, room, scope);
            let node = at_index(0, node);
            let name = read_entry(alloc, parts.1, types, targets);
            let name = at_index(1, name);
            let told = both(node, name);
            let told = under(key, told);
            let model = model_named(parts.1, types, targets);
            is_from(alloc, model, told)
        }
    }
}

/// Reads an expression that stands by itself: a view, a condition, or a part of a statement.
pub fn read_expression(
    value: &Snap,
    types: &[Field],
    targets: &[Target],
    scope: &mut Scope,
) -> Result<Expr, Trouble>
    requires keyed { AreKeyed (fields_view types.now) }
    requires each { length targets.now ≡ length types.now }
    ensures reads { Tells shown result
        (specs.expression_read (target_of (fields_view types.now) targets.now) scope.old (view value.now)) }
    ensures scope { scope.new ≡ scope.old }
{
    read_expr(value, types, targets, MOST_OPEN, scope)
}
