//! Forms by the number of their parts.
ghost use Rattle.std.specs.Prelude.{◌≡◌};
ghost use Rattle.expr_syntax.specs.Shown.{shown, form_shown};
ghost use Rattle.expr_syntax.specs.Syntax as syntax;
ghost use Rattle.view_engine.specs.Steps.{IsStepOf, walk_of};

use expr_syntax::{Entry, Expr, Form, Op};
use snap_core::{ModelNo, Name, Snap};

/// What is done with the one value that a form is given.
#[derive(Clone, Copy)]
pub enum Use<'a> {
    Ref(&'a Name),
    Operate(Op),
    Keys,
    Items,
    Snapshot,
    Path,
    Find(ModelNo),
    Is(ModelNo),
}

/// What a walk makes of what its body gives for each walked value.
#[derive(Clone, Copy)]
pub enum Walk {
    Filter,
    Collect,
    All,
    Any,
    Sum,
}

/// A walk: what is walked, the name of each walked value, and the body.
#[derive(Clone, Copy)]
pub struct Walking<'a> {
    pub walk: Walk,
    pub over: &'a Expr,
    pub name: &'a Name,
    pub body: &'a Expr,
}

/// What a choice goes on with.
#[derive(Clone, Copy)]
pub enum Branch<'a> {
    /// A truth that is known.
    Known(bool),
    /// An expression that is to be a truth.
    Truth(&'a Expr),
    Any(&'a Expr),
}

/// An expression without its form: what is evaluated, in order.
#[derive(Clone, Copy)]
pub enum Step<'a> {
    Const(&'a Snap),
    Var(&'a Name),
    Own(&'a Name),
    Get(&'a Expr, &'a Name),
    One(Use<'a>, &'a Expr),
    Two(Op, &'a Expr, &'a Expr),
    Walk(Walking<'a>),
    Choose(&'a Expr, Branch<'a>, Branch<'a>),
    Bind(&'a Name, &'a Expr, &'a Expr),
    List(&'a [Expr]),
    Make(&'a [Entry]),
}

/// What is evaluated of a form.
pub fn step_of(form: &Form) -> Step<'_>
    ensures { IsStepOf result (form_shown form.now) }
{
    match form {
        Form::Const(value) => Step::Const(value),
        Form::Var(name) => Step::Var(name),
        Form::Own(name) => Step::Own(name),
        Form::Get(e, name) => Step::Get(e, name),
        Form::Let(name, e, body) => Step::Bind(name, e, body),
        Form::And(a, b) => Step::Choose(a, Branch::Truth(b), Branch::Known(false)),
        Form::Or(a, b) => Step::Choose(a, Branch::Known(true), Branch::Truth(b)),
        Form::If(c, a, b) => step_of_choice(c, a, b),
        Form::List(items) => Step::List(items.as_slice()),
        Form::Make(entries) => Step::Make(entries.as_slice()),
        Form::Ref(e, name) => Step::One(Use::Ref(name), e),
        Form::Size(e) => Step::One(Use::Operate(Op::Size), e),
        Form::Text(e) => Step::One(Use::Operate(Op::Text), e),
        Form::Not(e) => Step::One(Use::Operate(Op::Not), e),
        Form::Keys(e) => Step::One(Use::Keys, e),
        Form::Items(e) => Step::One(Use::Items, e),
        Form::Snapshot(e) => Step::One(Use::Snapshot, e),
        Form::Path(e) => Step::One(Use::Path, e),
        Form::Find(m, e) => Step::One(Use::Find(*m), e),
        Form::Is(e, m) => Step::One(Use::Is(*m), e),
        Form::Item(a, b) => Step::Two(Op::Item, a, b),
        Form::Has(a, b) => Step::Two(Op::Has, a, b),
        Form::Add(a, b) => Step::Two(Op::Add, a, b),
        Form::Sub(a, b) => Step::Two(Op::Sub, a, b),
        Form::Mul(a, b) => Step::Two(Op::Mul, a, b),
        Form::Div(a, b) => Step::Two(Op::Div, a, b),
        Form::Mod(a, b) => Step::Two(Op::Mod, a, b),
        Form::Concat(a, b) => Step::Two(Op::Concat, a, b),
        Form::Eq(a, b) => Step::Two(Op::Eq, a, b),
        Form::Lt(a, b) => Step::Two(Op::Lt, a, b),
        Form::Filter(e, x, b) => step_of_walk(Walk::Filter, e, x, b),
        Form::Collect(e, x, b) => step_of_walk(Walk::Collect, e, x, b),
        Form::All(e, x, b) => step_of_walk(Walk::All, e, x, b),
        Form::Any(e, x, b) => step_of_walk(Walk::Any, e, x, b),
        Form::Sum(e, x, b) => step_of_walk(Walk::Sum, e, x, b),
    }
}

fn step_of_walk<'a>(walk: Walk, over: &'a Expr, name: &'a Name, body: &'a Expr) -> Step<'a>
    ensures { IsStepOf result (syntax.walk (walk_of walk) (shown over.now) name.now (shown body.now)) }
{
    Step::Walk(Walking {
        walk,
        over,
        name,
        body,
    })
}

fn step_of_choice<'a>(c: &'a Expr, a: &'a Expr, b: &'a Expr) -> Step<'a>
    ensures { IsStepOf result (syntax.choice (shown c.now) (shown a.now) (shown b.now)) }
{
    Step::Choose(c, Branch::Any(a), Branch::Any(b))
}
