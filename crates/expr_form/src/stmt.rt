//! Statements that hold blocks, and blocks.
ghost use Rattle.std.specs.Prelude.{◌≡◌, length, map, take, OnOk, OnErr};
ghost use Rattle.std.specs.Option.{option_copied, option_map};
ghost use Rattle.snap_core.specs.Value.{AreKeyed, dict, member, no_members};
ghost use Rattle.snap_core.specs.View.{view, items_view, fields_view};
ghost use Rattle.expr_syntax.specs.ShownStatements.{stmt_shown, block_shown};
ghost use Rattle.expr_form.specs.Expressions.{expression_read};
ghost use Rattle.expr_form.specs.Models.{target_of};
ghost use Rattle.expr_form.specs.Names.{bound};
ghost use Rattle.expr_form.specs.Outcome.{Tells};
ghost use Rattle.expr_form.specs.Seen.{stmt_formed_seen};
ghost use Rattle.expr_form.specs.StmtKeys.{stmt_key_of};
ghost use Rattle.expr_form.specs.Statements as specs;

use crate::build_stmts::{attempt_from, block_from, branches_from, each_from};
use crate::expr::read_expression;
use crate::fault::Trouble;
use crate::models::Target;
use crate::names::read_binder;
use crate::scope::{Scope, bind_in};
use crate::singles::read_single;
use crate::stmt_keys::{StmtKey, stmt_key_of};
use crate::texts::{items_in, pair_in, triple_in};
use crate::walk::{at_index, both, pushed, under, wrong};
use expr_syntax::{Block, Stmt};
use list_core::Parts;
use pointer_core::SchemaRule;
use snap_core::{Field, Snap};
use std::alloc::{AllocError, Global};

/// How many statements may be open at one time: one, and those that stand around it.
const MOST_STATEMENTS: usize = 8;

/// The form that a statement's only key stands for, and what stands under it.
fn formed(alloc: Global, value: &Snap) -> Result<(StmtKey, &Field), Trouble>
    ensures { Tells stmt_formed_seen result (specs.own_stmt (view value.now)) }
{
    match value {
        Snap::Dict(fields) => formed_object(alloc, fields.as_slice()),
        _ => Err(wrong(alloc, SchemaRule::Shape)),
    }
}

fn formed_object(alloc: Global, fields: &[Field]) -> Result<(StmtKey, &Field), Trouble>
    ensures { Tells stmt_formed_seen result (specs.own_stmt (dict tt (fields_view fields.now))) }
{
    if fields.len() != 1 {
        return Err(wrong(alloc, SchemaRule::Shape));
    }
    formed_field(alloc, &fields[0])
}

fn formed_field(alloc: Global, field: &Field) -> Result<(StmtKey, &Field), Trouble>
    ensures { Tells stmt_formed_seen result
        (specs.stmt_known field.now.key (view field.now.value) (stmt_key_of field.now.key)) }
{
    match stmt_key_of(field.key.text()) {
        Some(key) => Ok((key, field)),
        None => Err(wrong(alloc, SchemaRule::Shape)),
    }
}

/// What a statement that binds a name is to bind.
fn let_name(value: &Snap) -> Option<&Snap>
    ensures { option_map view (option_copied result) ≡ specs.let_name (view value.now) }
{
    match value {
        Snap::Dict(fields) => let_among(fields.as_slice()),
        _ => None,
    }
}

fn let_among(fields: &[Field]) -> Option<&Snap>
    ensures { option_map view (option_copied result) ≡ specs.let_name (dict tt (fields_view fields.now)) }
{
    if fields.len() != 1 {
        return None;
    }
    let_of(&fields[0])
}

/// What a statement with this one field is to bind.
fn let_of(field: &Field) -> Option<&Snap>
    ensures { option_map view (option_copied result)
        ≡ specs.let_name (dict tt (member field.now.key (view field.now.value) no_members)) }
{
    if field.key.text() != "let" {
        return None;
    }
    match pair_in(&field.value) {
        Some((name, _)) => Some(name),
        None => None,
    }
}

/// Binds what a statement binds for the rest of its block.
fn bind_after(scope: &mut Scope, value: &Snap) -> Result<(), AllocError>
    ensures ok { OnOk result (scope.new ≡ specs.bound_after scope.old (view value.now)) }
    ensures err { OnErr result (scope.new ≡ scope.old) }
{
    match let_name(value) {
        Some(name) => bind_in(scope, name),
        None => Ok(()),
    }
}

/// A value as a statement, in which no more than `room` statements are open.
#[cycle(statements)]
fn read_stmt(
    value: &Snap,
    types: &[Field],
    targets: &[Target],
    room: usize,
    scope: &mut Scope,
) -> Result<Stmt, Trouble>
    requires keyed { AreKeyed (fields_view types.now) }
    requires each { length targets.now ≡ length types.now }
    ensures reads { Tells stmt_shown result
        (specs.stmt_read (target_of (fields_view types.now) targets.now) room scope.old (view value.now)) }
    ensures scope { scope.new ≡ scope.old }
{
    let alloc = scope.allocator();
    let formed = formed(alloc, value)?;
    if room == 0 {
        return Err(wrong(alloc, SchemaRule::Depth));
    }
    let field = formed.1;
    let inside = read_inside(formed.0, &field.value, types, targets, room - 1, scope);
    under(field.key.text(), inside)
}

/// What stands under the key of a statement.
#[cycle(statements)]
fn read_inside(
    key: StmtKey,
    value: &Snap,
    types: &[Field],
    targets: &[Target],
    room: usize,
    scope: &mut Scope,
) -> Result<Stmt, Trouble>
    requires keyed { AreKeyed (fields_view types.now) }
    requires each { length targets.now ≡ length types.now }
    ensures reads { Tells stmt_shown result
        (specs.inside_read (expression_read (target_of (fields_view types.now) targets.now))
        (specs.block_read (specs.stmt_read (target_of (fields_view types.now) targets.now) room))
        key scope.old (view value.now)) }
    ensures scope { scope.new ≡ scope.old }
{
    match key {
        StmtKey::Single(form) => read_single(form, value, types, targets, scope),
        StmtKey::Branches => read_branches(value, types, targets, room, scope),
        StmtKey::Each => read_each(value, types, targets, room, scope),
        StmtKey::Attempt => read_attempt(value, types, targets, room, scope),
    }
}

/// One of two blocks, by a condition.
#[cycle(statements)]
fn read_branches(
    value: &Snap,
    types: &[Field],
    targets: &[Target],
    room: usize,
    scope: &mut Scope,
) -> Result<Stmt, Trouble>
    requires keyed { AreKeyed (fields_view types.now) }
    requires each { length targets.now ≡ length types.now }
    ensures reads { Tells stmt_shown result
        (specs.branches_read (expression_read (target_of (fields_view types.now) targets.now))
        (specs.block_read (specs.stmt_read (target_of (fields_view types.now) targets.now) room)) scope.old (view value.now)) }
    ensures scope { scope.new ≡ scope.old }
{
    let alloc = scope.allocator();
    let Some(parts) = triple_in(value) else {
        return Err(wrong(alloc, SchemaRule::Shape));
    };
    let condition = read_expression(parts.0, types, targets, scope);
    let condition = at_index(0, condition);
    let first = read_block(parts.1, types, targets, room, scope);
    let first = at_index(1, first);
    let second = read_block(parts.2, types, targets, room, scope);
    let second = at_index(2, second);
    let blocks = both(first, second);
    let whole = both(condition, blocks);
    branches_from(alloc, whole)
}

/// A block for each walked value.
#[cycle(statements)]
fn read_each(
    value: &Snap,
    types: &[Field],
    targets: &[Target],
    room: usize,
    scope: &mut Scope,
) -> Result<Stmt, Trouble>
    requires keyed { AreKeyed (fields_view types.now) }
    requires each { length targets.now ≡ length types.now }
    ensures reads { Tells stmt_shown result
        (specs.each_read (expression_read (target_of (fields_view types.now) targets.now))
        (specs.block_read (specs.stmt_read (target_of (fields_view types.now) targets.now) room)) scope.old (view value.now)) }
    ensures scope { scope.new ≡ scope.old }
{
    let alloc = scope.allocator();
    let Some(parts) = triple_in(value) else {
        return Err(wrong(alloc, SchemaRule::Shape));
    };
    let walked = read_expression(parts.0, types, targets, scope);
    let walked = at_index(0, walked);
    let name = read_binder(alloc, parts.1);
    let name = at_index(1, name);
    let block = read_bound(parts.1, parts.2, types, targets, room, scope);
    let block = at_index(2, block);
    let inner = both(name, block);
    let whole = both(walked, inner);
    each_from(alloc, whole)
}

/// A block, and one that runs where it is refused.
#[cycle(statements)]
fn read_attempt(
    value: &Snap,
    types: &[Field],
    targets: &[Target],
    room: usize,
    scope: &mut Scope,
) -> Result<Stmt, Trouble>
    requires keyed { AreKeyed (fields_view types.now) }
    requires each { length targets.now ≡ length types.now }
    ensures reads { Tells stmt_shown result
        (specs.attempt_read (specs.block_read (specs.stmt_read (target_of (fields_view types.now) targets.now) room)) scope.old (view value.now)) }
    ensures scope { scope.new ≡ scope.old }
{
    let alloc = scope.allocator();
    let Some(parts) = pair_in(value) else {
        return Err(wrong(alloc, SchemaRule::Shape));
    };
    let first = read_block(parts.0, types, targets, room, scope);
    let first = at_index(0, first);
    let second = read_block(parts.1, types, targets, room, scope);
    let second = at_index(1, second);
    let blocks = both(first, second);
    attempt_from(blocks)
}

/// A block in which the name of a binder is bound.
#[cycle(statements)]
fn read_bound(
    name: &Snap,
    block: &Snap,
    types: &[Field],
    targets: &[Target],
    room: usize,
    scope: &mut Scope,
) -> Result<Block, Trouble>
    requires keyed { AreKeyed (fields_view types.now) }
    requires each { length targets.now ≡ length types.now }
    ensures reads { Tells block_shown result
        (specs.block_read (specs.stmt_read (target_of (fields_view types.now) targets.now) room)
        (bound scope.old (view name.now)) (view block.now)) }
    ensures scope { scope.new ≡ scope.old }
{
    let len = scope.len();
    bind_in(scope, name)?;
    let block = read_block(block, types, targets, room, scope);
    scope.leave(len);
    block
}

/// A block, in which no more than `room` statements are open. What it binds is bound to its end.
#[cycle(statements)]
fn read_block(
    value: &Snap,
    types: &[Field],
    targets: &[Target],
    room: usize,
    scope: &mut Scope,
) -> Result<Block, Trouble>
    requires keyed { AreKeyed (fields_view types.now) }
    requires each { length targets.now ≡ length types.now }
    ensures reads { Tells block_shown result
        (specs.block_read (specs.stmt_read (target_of (fields_view types.now) targets.now) room) scope.old (view value.now)) }
    ensures scope { scope.new ≡ scope.old }
{
    let alloc = scope.allocator();
    let Some(items) = items_in(value) else {
        return Err(wrong(alloc, SchemaRule::Shape));
    };
    let len = scope.len();
    let statements = read_stmts(items, types, targets, room, scope);
    scope.leave(len);
    block_from(statements)
}

/// Statements one after the other. What they bind stays bound.
#[cycle(statements)]
fn read_stmts(
    items: &[Snap],
    types: &[Field],
    targets: &[Target],
    room: usize,
    scope: &mut Scope,
) -> Result<Parts<Stmt>, Trouble>
    requires keyed { AreKeyed (fields_view types.now) }
    requires each { length targets.now ≡ length types.now }
    ensures reads { Tells (map stmt_shown) result
        (specs.stmts_read (specs.stmt_read (target_of (fields_view types.now) targets.now) room) scope.old 0 (items_view items.now)) }
    ensures scope { take (length scope.old) scope.new ≡ scope.old }
{
    let mut list = Ok(Parts::new(scope.allocator()));
    for (index, item) in items.iter().enumerate() {
        let part = read_stmt(item, types, targets, room, scope);
        let part = at_index(index, part);
        let longer = pushed(list, part);
        list = longer;
        bind_after(scope, item)?;
    }
    list
}

/// Reads the body of an action.
pub fn read_body(
    value: &Snap,
    types: &[Field],
    targets: &[Target],
    scope: &mut Scope,
) -> Result<Block, Trouble>
    requires keyed { AreKeyed (fields_view types.now) }
    requires each { length targets.now ≡ length types.now }
    ensures reads { Tells block_shown result
        (specs.body_read (target_of (fields_view types.now) targets.now) scope.old (view value.now)) }
    ensures scope { scope.new ≡ scope.old }
{
    read_block(value, types, targets, MOST_STATEMENTS, scope)
}
