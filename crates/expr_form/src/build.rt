//! Expressions, made of their parts.
ghost use Rattle.std.specs.Prelude.{◌≡◌, map, IfOk};
ghost use Rattle.snap_core.specs.View.{view};
ghost use Rattle.expr_syntax.specs.Syntax.{variable, own, choice, bind, list, make, find, is};
ghost use Rattle.expr_syntax.specs.Syntax as syntax;
ghost use Rattle.expr_syntax.specs.Shown.{shown, form_shown, expressions, members};
ghost use Rattle.expr_syntax.specs.Forms.{inside, entry_shown};
ghost use Rattle.expr_form.specs.Expressions as specs;
ghost use Rattle.expr_form.specs.Results.{Makes, aimed_of};

use crate::fault::Trouble;
use crate::keys::{Named, One, Two, Walk};
use crate::walk::astray;
use expr_syntax::{Entry, Expr, Form};
use list_core::Parts;
use snap_core::{ModelNo, Name, Snap, Txt};
use std::alloc::{AllocError, Global};

fn one_form(form: One, operand: Box<Expr>) -> Form
    ensures { form_shown result ≡ specs.one_made form (inside operand) }
{
    match form {
        One::Size => Form::Size(operand),
        One::Keys => Form::Keys(operand),
        One::Items => Form::Items(operand),
        One::Text => Form::Text(operand),
        One::Not => Form::Not(operand),
        One::Snapshot => Form::Snapshot(operand),
        One::Path => Form::Path(operand),
    }
}

fn two_form(form: Two, first: Box<Expr>, second: Box<Expr>) -> Form
    ensures { form_shown result ≡ specs.two_made form (inside first) (inside second) }
{
    match form {
        Two::Item => Form::Item(first, second),
        Two::Has => Form::Has(first, second),
        Two::Add => Form::Add(first, second),
        Two::Sub => Form::Sub(first, second),
        Two::Mul => Form::Mul(first, second),
        Two::Div => Form::Div(first, second),
        Two::Mod => Form::Mod(first, second),
        Two::Concat => Form::Concat(first, second),
        Two::Eq => Form::Eq(first, second),
        Two::Lt => Form::Lt(first, second),
        Two::And => Form::And(first, second),
        Two::Or => Form::Or(first, second),
    }
}

fn named_form(form: Named, operand: Box<Expr>, name: Name) -> Form
    ensures { form_shown result ≡ specs.named_made form (inside operand) name }
{
    match form {
        Named::Get => Form::Get(operand, name),
        Named::Ref => Form::Ref(operand, name),
    }
}

fn walk_form(form: Walk, walked: Box<Expr>, name: Name, body: Box<Expr>) -> Form
    ensures { form_shown result ≡ syntax.walk (specs.walk_kind form) (inside walked) name (inside body) }
{
    match form {
        Walk::Filter => Form::Filter(walked, name, body),
        Walk::Collect => Form::Collect(walked, name, body),
        Walk::All => Form::All(walked, name, body),
        Walk::Any => Form::Any(walked, name, body),
        Walk::Sum => Form::Sum(walked, name, body),
    }
}

/// A value that stands for itself.
pub fn constant(alloc: Global, value: &Snap) -> Result<Expr, AllocError>
    ensures { IfOk result (λ e. shown e ≡ syntax.constant (view value.now)) }
{
    Ok(Expr::of(Form::Const(value.clone_in(alloc)?)))
}

/// The constant, where nothing in it is wrong.
pub fn constant_from(
    alloc: Global,
    value: &Snap,
    checked: Result<(), Trouble>,
) -> Result<Expr, Trouble>
    ensures { Makes (λ u e. shown e ≡ syntax.constant (view value.now)) checked result }
{
    match checked {
        Ok(()) => Ok(constant(alloc, value)?),
        Err(trouble) => Err(trouble),
    }
}

pub fn variable_from(name: Result<Name, Trouble>) -> Result<Expr, Trouble>
    ensures { Makes (λ x e. shown e ≡ variable x) name result }
{
    match name {
        Ok(name) => Ok(Expr::of(Form::Var(name))),
        Err(trouble) => Err(trouble),
    }
}

pub fn own_from(name: Result<Name, Trouble>) -> Result<Expr, Trouble>
    ensures { Makes (λ p e. shown e ≡ own p) name result }
{
    match name {
        Ok(name) => Ok(Expr::of(Form::Own(name))),
        Err(trouble) => Err(trouble),
    }
}

fn made_one(alloc: Global, form: One, operand: Expr) -> Result<Expr, AllocError>
    ensures { IfOk result (λ e. shown e ≡ specs.one_made form (shown operand)) }
{
    let operand = Box::new(alloc, operand)?;
    Ok(Expr::of(one_form(form, operand)))
}

pub fn one_from(alloc: Global, form: One, operand: Result<Expr, Trouble>) -> Result<Expr, Trouble>
    ensures { Makes (λ a e. shown e ≡ specs.one_made form (shown a)) operand result }
{
    match operand {
        Ok(operand) => Ok(made_one(alloc, form, operand)?),
        Err(trouble) => Err(trouble),
    }
}

fn made_two(alloc: Global, form: Two, first: Expr, second: Expr) -> Result<Expr, AllocError>
    ensures { IfOk result (λ e. shown e ≡ specs.two_made form (shown first) (shown second)) }
{
    let first = Box::new(alloc, first)?;
    let second = Box::new(alloc, second)?;
    Ok(Expr::of(two_form(form, first, second)))
}

pub fn two_from(
    alloc: Global,
    form: Two,
    parts: Result<(Expr, Expr), Trouble>,
) -> Result<Expr, Trouble>
    ensures { Makes (λ p e. shown e ≡ specs.two_made form (shown p.0) (shown p.1)) parts result }
{
    match parts {
        Ok((first, second)) => Ok(made_two(alloc, form, first, second)?),
        Err(trouble) => Err(trouble),
    }
}

fn made_named(alloc: Global, form: Named, operand: Expr, name: Name) -> Result<Expr, AllocError>
    ensures { IfOk result (λ e. shown e ≡ specs.named_made form (shown operand) name) }
{
    let operand = Box::new(alloc, operand)?;
    Ok(Expr::of(named_form(form, operand, name)))
}

pub fn named_from(
    alloc: Global,
    form: Named,
    parts: Result<(Expr, Name), Trouble>,
) -> Result<Expr, Trouble>
    ensures { Makes (λ p e. shown e ≡ specs.named_made form (shown p.0) p.1) parts result }
{
    match parts {
        Ok((operand, name)) => Ok(made_named(alloc, form, operand, name)?),
        Err(trouble) => Err(trouble),
    }
}

fn made_walk(
    alloc: Global,
    form: Walk,
    walked: Expr,
    name: Name,
    body: Expr,
) -> Result<Expr, AllocError>
    ensures { IfOk result (λ e. shown e ≡ syntax.walk (specs.walk_kind form) (shown walked) name (shown body)) }
{
    let walked = Box::new(alloc, walked)?;
    let body = Box::new(alloc, body)?;
    Ok(Expr::of(walk_form(form, walked, name, body)))
}

pub fn walk_from(
    alloc: Global,
    form: Walk,
    parts: Result<(Expr, (Name, Expr)), Trouble>,
) -> Result<Expr, Trouble>
    ensures { Makes (λ p e. shown e ≡ syntax.walk (specs.walk_kind form) (shown p.0) p.1.0 (shown p.1.1)) parts result }
{
    match parts {
        Ok((walked, inner)) => {
            let (name, body) = inner;
            Ok(made_walk(alloc, form, walked, name, body)?)
        }
        Err(trouble) => Err(trouble),
    }
}

fn made_choice(
    alloc: Global,
    condition: Expr,
    first: Expr,
    second: Expr,
) -> Result<Expr, AllocError>
    ensures { IfOk result (λ e. shown e ≡ choice (shown condition) (shown first) (shown second)) }
{
    let condition = Box::new(alloc, condition)?;
    let first = Box::new(alloc, first)?;
    let second = Box::new(alloc, second)?;
    Ok(Expr::of(Form::If(condition, first, second)))
}

pub fn choice_from(
    alloc: Global,
    parts: Result<(Expr, (Expr, Expr)), Trouble>,
) -> Result<Expr, Trouble>
    ensures { Makes (λ p e. shown e ≡ choice (shown p.0) (shown p.1.0) (shown p.1.1)) parts result }
{
    match parts {
        Ok((condition, inner)) => {
            let (first, second) = inner;
            Ok(made_choice(alloc, condition, first, second)?)
        }
        Err(trouble) => Err(trouble),
    }
}

fn made_binding(alloc: Global, name: Name, value: Expr, body: Expr) -> Result<Expr, AllocError>
    ensures { IfOk result (λ e. shown e ≡ bind name (shown value) (shown body)) }
{
    let value = Box::new(alloc, value)?;
    let body = Box::new(alloc, body)?;
    Ok(Expr::of(Form::Let(name, value, body)))
}

pub fn binding_from(
    alloc: Global,
    parts: Result<(Name, (Expr, Expr)), Trouble>,
) -> Result<Expr, Trouble>
    ensures { Makes (λ p e. shown e ≡ bind p.0 (shown p.1.0) (shown p.1.1)) parts result }
{
    match parts {
        Ok((name, inner)) => {
            let (value, body) = inner;
            Ok(made_binding(alloc, name, value, body)?)
        }
        Err(trouble) => Err(trouble),
    }
}

pub fn list_from(parts: Result<Parts<Expr>, Trouble>) -> Result<Expr, Trouble>
    ensures { Makes (λ es e. shown e ≡ list (expressions (map shown es))) parts result }
{
    match parts {
        Ok(parts) => Ok(Expr::of(Form::List(parts))),
        Err(trouble) => Err(trouble),
    }
}

/// An entry of the record that `make` gives.
pub fn entry_from(alloc: Global, key: &str, value: Result<Expr, Trouble>) -> Result<Entry, Trouble>
    ensures { Makes (λ e entry. entry_shown entry ≡ (key.now, shown e)) value result }
{
    match value {
        Ok(value) => Ok(Entry {
            key: Txt::copy(alloc, key)?,
            value,
        }),
        Err(trouble) => Err(trouble),
    }
}

pub fn make_from(entries: Result<Parts<Entry>, Trouble>) -> Result<Expr, Trouble>
    ensures { Makes (λ es e. shown e ≡ make (members (map entry_shown es))) entries result }
{
    match entries {
        Ok(entries) => Ok(Expr::of(Form::Make(entries))),
        Err(trouble) => Err(trouble),
    }
}

fn made_find(alloc: Global, model: ModelNo, operand: Expr) -> Result<Expr, AllocError>
    ensures { IfOk result (λ e. shown e ≡ find model (shown operand)) }
{
    let operand = Box::new(alloc, operand)?;
    Ok(Expr::of(Form::Find(model, operand)))
}

fn made_is(alloc: Global, model: ModelNo, operand: Expr) -> Result<Expr, AllocError>
    ensures { IfOk result (λ e. shown e ≡ is (shown operand) model) }
{
    let operand = Box::new(alloc, operand)?;
    Ok(Expr::of(Form::Is(operand, model)))
}

/// What the operand is found to be, where a model is wanted: without one the expression goes astray itself, before
/// what stands in it.
fn aimed<T: Drop>(
    alloc: Global,
    target: Option<ModelNo>,
    operand: Result<T, Trouble>,
) -> Result<(ModelNo, T), Trouble>
    ensures { result ≡ aimed_of target operand }
{
    match (target, operand) {
        (_, Err(Trouble::Memory)) => Err(Trouble::Memory),
        (_, Err(Trouble::Wrong(fault))) => Err(Trouble::Wrong(fault)),
        (None, _) => Err(astray(alloc)),
        (Some(_), Err(trouble)) => Err(trouble),
        (Some(model), Ok(operand)) => Ok((model, operand)),
    }
}

/// The node of a model with an identifier; the operand stands behind the model's name.
pub fn find_from(
    alloc: Global,
    target: Option<ModelNo>,
    parts: Result<((), Expr), Trouble>,
) -> Result<Expr, Trouble>
    ensures { Makes (λ p e. shown e ≡ find p.0 (shown p.1.1)) (aimed_of target parts) result }
{
    match aimed(alloc, target, parts) {
        Ok((model, inner)) => {
            let ((), operand) = inner;
            Ok(made_find(alloc, model, operand)?)
        }
        Err(trouble) => Err(trouble),
    }
}

/// Whether a node is of a model; the operand stands before the model's name.
pub fn is_from(
    alloc: Global,
    target: Option<ModelNo>,
    parts: Result<(Expr, ()), Trouble>,
) -> Result<Expr, Trouble>
    ensures { Makes (λ p e. shown e ≡ is (shown p.1.0) p.0) (aimed_of target parts) result }
{
    match aimed(alloc, target, parts) {
        Ok((model, inner)) => {
            let (operand, ()) = inner;
            Ok(made_is(alloc, model, operand)?)
        }
        Err(trouble) => Err(trouble),
    }
}
