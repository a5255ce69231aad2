//! Statements, made of their parts.
ghost use Rattle.std.specs.Prelude.{◌≡◌, map, IfOk};
ghost use Rattle.expr_syntax.specs.Syntax.{Statement, set, clear, each, call, attempt, throw};
ghost use Rattle.expr_syntax.specs.Shown.{shown, expressions};
ghost use Rattle.expr_syntax.specs.ShownStatements.{stmt_shown, block_shown, statements};
ghost use Rattle.expr_syntax.specs.Forms.{inside};
ghost use Rattle.expr_form.specs.Statements as specs;
ghost use Rattle.expr_form.specs.Results.{Makes};

use crate::fault::Trouble;
use crate::stmt_keys::{Given, Keyed};
use expr_syntax::{Block, Expr, Stmt};
use list_core::Parts;
use snap_core::Name;
use std::alloc::{AllocError, Global};

fn boxed(alloc: Global, expr: Expr) -> Result<Box<Expr>, AllocError>
    ensures { IfOk result (λ b. inside b ≡ shown expr) }
{
    Ok(Box::new(alloc, expr)?)
}

fn keyed_stmt(form: Keyed, target: Box<Expr>, key: Box<Expr>, value: Box<Expr>) -> Stmt
    ensures { stmt_shown result ≡ specs.keyed_made form (inside target) (inside key) (inside value) }
{
    match form {
        Keyed::Put => Stmt::Put(target, key, value),
        Keyed::Insert => Stmt::Insert(target, key, value),
        Keyed::Replace => Stmt::Replace(target, key, value),
    }
}

fn given_stmt(form: Given, target: Box<Expr>, operand: Box<Expr>) -> Stmt
    ensures { stmt_shown result ≡ specs.given_made form (inside target) (inside operand) }
{
    match form {
        Given::Push => Stmt::Push(target, operand),
        Given::Drop => Stmt::Drop(target, operand),
        Given::Apply => Stmt::Apply(target, operand),
    }
}

fn made_set(alloc: Global, target: Expr, name: Name, value: Expr) -> Result<Stmt, AllocError>
    ensures { IfOk result (λ s. stmt_shown s ≡ set (shown target) name (shown value)) }
{
    let target = boxed(alloc, target)?;
    let value = boxed(alloc, value)?;
    Ok(Stmt::Set(target, name, value))
}

pub fn set_from(
    alloc: Global,
    parts: Result<(Expr, (Name, Expr)), Trouble>,
) -> Result<Stmt, Trouble>
    ensures { Makes (λ p s. stmt_shown s ≡ set (shown p.0) p.1.0 (shown p.1.1)) parts result }
{
    match parts {
        Ok((target, inner)) => {
            let (name, value) = inner;
            Ok(made_set(alloc, target, name, value)?)
        }
        Err(trouble) => Err(trouble),
    }
}

fn made_keyed(
    alloc: Global,
    form: Keyed,
    target: Expr,
    key: Expr,
    value: Expr,
) -> Result<Stmt, AllocError>
    ensures { IfOk result (λ s. stmt_shown s ≡ specs.keyed_made form (shown target) (shown key) (shown value)) }
{
    let target = boxed(alloc, target)?;
    let key = boxed(alloc, key)?;
    let value = boxed(alloc, value)?;
    Ok(keyed_stmt(form, target, key, value))
}

pub fn keyed_from(
    alloc: Global,
    form: Keyed,
    parts: Result<(Expr, (Expr, Expr)), Trouble>,
) -> Result<Stmt, Trouble>
    ensures { Makes (λ p s. stmt_shown s ≡ specs.keyed_made form (shown p.0) (shown p.1.0) (shown p.1.1)) parts result }
{
    match parts {
        Ok((target, inner)) => {
            let (key, value) = inner;
            Ok(made_keyed(alloc, form, target, key, value)?)
        }
        Err(trouble) => Err(trouble),
    }
}

fn made_given(alloc: Global, form: Given, target: Expr, operand: Expr) -> Result<Stmt, AllocError>
    ensures { IfOk result (λ s. stmt_shown s ≡ specs.given_made form (shown target) (shown operand)) }
{
    let target = boxed(alloc, target)?;
    let operand = boxed(alloc, operand)?;
    Ok(given_stmt(form, target, operand))
}

pub fn given_from(
    alloc: Global,
    form: Given,
    parts: Result<(Expr, Expr), Trouble>,
) -> Result<Stmt, Trouble>
    ensures { Makes (λ p s. stmt_shown s ≡ specs.given_made form (shown p.0) (shown p.1)) parts result }
{
    match parts {
        Ok((target, operand)) => { Ok(made_given(alloc, form, target, operand)?) }
        Err(trouble) => Err(trouble),
    }
}

fn made_binding(alloc: Global, name: Name, value: Expr) -> Result<Stmt, AllocError>
    ensures { IfOk result (λ s. stmt_shown s ≡ Statement.bind name (shown value)) }
{
    let value = boxed(alloc, value)?;
    Ok(Stmt::Let(name, value))
}

pub fn binding_from(alloc: Global, parts: Result<(Name, Expr), Trouble>) -> Result<Stmt, Trouble>
    ensures { Makes (λ p s. stmt_shown s ≡ Statement.bind p.0 (shown p.1)) parts result }
{
    match parts {
        Ok((name, value)) => { Ok(made_binding(alloc, name, value)?) }
        Err(trouble) => Err(trouble),
    }
}

fn made_clear(alloc: Global, target: Expr) -> Result<Stmt, AllocError>
    ensures { IfOk result (λ s. stmt_shown s ≡ clear (shown target)) }
{
    let target = boxed(alloc, target)?;
    Ok(Stmt::Clear(target))
}

pub fn clear_from(alloc: Global, parts: Result<Expr, Trouble>) -> Result<Stmt, Trouble>
    ensures { Makes (λ p s. stmt_shown s ≡ clear (shown p)) parts result }
{
    match parts {
        Ok(target) => { Ok(made_clear(alloc, target)?) }
        Err(trouble) => Err(trouble),
    }
}

fn made_call(
    alloc: Global,
    target: Expr,
    name: Name,
    arguments: Parts<Expr>,
) -> Result<Stmt, AllocError>
    ensures { IfOk result (λ s. stmt_shown s ≡ call (shown target) name (expressions (map shown arguments))) }
{
    let target = boxed(alloc, target)?;
    Ok(Stmt::Call(target, name, arguments))
}

pub fn call_from(
    alloc: Global,
    parts: Result<(Expr, (Name, Parts<Expr>)), Trouble>,
) -> Result<Stmt, Trouble>
    ensures { Makes (λ p s. stmt_shown s ≡ call (shown p.0) p.1.0 (expressions (map shown p.1.1))) parts result }
{
    match parts {
        Ok((target, inner)) => {
            let (name, arguments) = inner;
            Ok(made_call(alloc, target, name, arguments)?)
        }
        Err(trouble) => Err(trouble),
    }
}

fn made_branches(
    alloc: Global,
    condition: Expr,
    first: Block,
    second: Block,
) -> Result<Stmt, AllocError>
    ensures { IfOk result (λ s. stmt_shown s ≡ Statement.choice (shown condition) (block_shown first) (block_shown second)) }
{
    let condition = boxed(alloc, condition)?;
    Ok(Stmt::If(condition, first, second))
}

pub fn branches_from(
    alloc: Global,
    parts: Result<(Expr, (Block, Block)), Trouble>,
) -> Result<Stmt, Trouble>
    ensures { Makes (λ p s. stmt_shown s ≡ Statement.choice (shown p.0) (block_shown p.1.0) (block_shown p.1.1)) parts result }
{
    match parts {
        Ok((condition, inner)) => {
            let (first, second) = inner;
            Ok(made_branches(alloc, condition, first, second)?)
        }
        Err(trouble) => Err(trouble),
    }
}

fn made_each(alloc: Global, walked: Expr, name: Name, block: Block) -> Result<Stmt, AllocError>
    ensures { IfOk result (λ s. stmt_shown s ≡ each (shown walked) name (block_shown block)) }
{
    let walked = boxed(alloc, walked)?;
    Ok(Stmt::Each(walked, name, block))
}

pub fn each_from(
    alloc: Global,
    parts: Result<(Expr, (Name, Block)), Trouble>,
) -> Result<Stmt, Trouble>
    ensures { Makes (λ p s. stmt_shown s ≡ each (shown p.0) p.1.0 (block_shown p.1.1)) parts result }
{
    match parts {
        Ok((walked, inner)) => {
            let (name, block) = inner;
            Ok(made_each(alloc, walked, name, block)?)
        }
        Err(trouble) => Err(trouble),
    }
}

pub fn throw_from(reason: Result<Name, Trouble>) -> Result<Stmt, Trouble>
    ensures { Makes (λ r s. stmt_shown s ≡ throw r) reason result }
{
    match reason {
        Ok(reason) => Ok(Stmt::Throw(reason)),
        Err(trouble) => Err(trouble),
    }
}

pub fn attempt_from(parts: Result<(Block, Block), Trouble>) -> Result<Stmt, Trouble>
    ensures { Makes (λ p s. stmt_shown s ≡ attempt (block_shown p.0) (block_shown p.1)) parts result }
{
    match parts {
        Ok((first, second)) => Ok(Stmt::Try(first, second)),
        Err(trouble) => Err(trouble),
    }
}

pub fn block_from(list: Result<Parts<Stmt>, Trouble>) -> Result<Block, Trouble>
    ensures { Makes (λ ss b. block_shown b ≡ statements (map stmt_shown ss)) list result }
{
    match list {
        Ok(statements) => Ok(Block { statements }),
        Err(trouble) => Err(trouble),
    }
}
