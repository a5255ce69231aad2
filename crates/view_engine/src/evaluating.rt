//! Evaluating: what each form gives, in the order in which its parts are evaluated.
ghost use Rattle.std.specs.Prelude.{◌≡◌, ◌∷◌, ◌≤◌, ℕ, OnOk, map};
ghost use Rattle.expr_syntax.specs.Shown.{shown, expressions, members};
ghost use Rattle.expr_syntax.specs.Forms.{entry_shown};
ghost use Rattle.answer_ops.specs.View.{answer_of, answers_of};
ghost use Rattle.eval_core.specs.Run.{andthen};
ghost use Rattle.eval_core.specs.Evaluating.{evaluated, all_evaluated, members_evaluated};
ghost use Rattle.view_engine.specs.Did.{Did, course};
ghost use Rattle.view_engine.specs.Got.{reached, IsKnown};
ghost use Rattle.view_engine.specs.Names.{names_of};
ghost use Rattle.view_engine.specs.Progress.{scope_of};
ghost use Rattle.view_engine.specs.Steps.{tested, stepped, branched, used};
ghost use Rattle.view_engine.specs.declared.step.Step.TheVariants as step;

use crate::counting::count;
use crate::gathering::{Gathered, Turn, finished, gather};
use crate::halt::Halt;
use crate::items::walked;
use crate::making::record_of;
use crate::member::{Got, admit, lookup, own_lookup};
use crate::names::Names;
use crate::operating::{
    bounded, chosen, constant, finish, judged_truth, operate, truth_value, variable,
};
use crate::schema::Bodies;
use crate::scope::{Going, Scope};
use crate::step::{Branch, Step, Use, Walking};
use answer_ops::Value;
use expr_syntax::{Entry, Expr, Op, Steps};
use list_core::Parts;
use snap_core::Name;
use std::sync::ledger::Ledger;

/// Evaluates an expression.
#[cycle(evaluate)]
pub fn evaluate<L: Ledger, S: Bodies>(
    scope: &Scope<'_, S>,
    e: &Expr,
    names: &Names<'_>,
    counted: &mut u32,
    steps: &mut Steps<L>,
) -> Result<Value, Halt>
    ensures { Did answer_of result (evaluated (scope_of S.says scope.now) (shown e.now) (names_of names.now)) (course counted.old counted.new steps.old steps.new) }
{
    let step = count(&*scope, e, counted, steps)?;
    take(&*scope, step, &*names, counted, steps)
}

/// Takes a step, and tests its result.
#[cycle(evaluate)]
fn take<L: Ledger, S: Bodies>(
    scope: &Scope<'_, S>,
    step: Step<'_>,
    names: &Names<'_>,
    counted: &mut u32,
    steps: &mut Steps<L>,
) -> Result<Value, Halt>
    ensures { Did answer_of result (tested (scope_of S.says scope.now) (stepped (scope_of S.says scope.now) step.entry (names_of names.now))) (course counted.old counted.new steps.old steps.new) }
{
    match step {
        Step::Const(value) => constant(&*scope, value),
        Step::Var(name) => variable(&*scope, &*names, name),
        Step::Own(name) => own(&*scope, name, &*names, steps),
        Step::Get(e, name) => get(&*scope, e, name, &*names, counted, steps),
        Step::One(with, e) => one(&*scope, with, e, &*names, counted, steps),
        Step::Two(op, a, b) => two(&*scope, op, a, b, &*names, counted, steps),
        Step::Walk(with) => walk(&*scope, with, &*names, counted, steps),
        Step::Choose(c, yes, no) => choose(&*scope, c, yes, no, &*names, counted, steps),
        Step::Bind(name, e, body) => bind(&*scope, name, e, body, &*names, counted, steps),
        Step::List(es) => list(&*scope, es, &*names, counted, steps),
        Step::Make(entries) => make(&*scope, entries, &*names, counted, steps),
    }
}

/// A property or a view of `self`.
#[cycle(evaluate)]
fn own<L: Ledger, S: Bodies>(
    scope: &Scope<'_, S>,
    name: &Name,
    names: &Names<'_>,
    steps: &mut Steps<L>,
) -> Result<Value, Halt>
    ensures { (before : ℕ) → Did answer_of result (tested (scope_of S.says scope.now) (stepped (scope_of S.says scope.now) (step.Own name.entry) (names_of names.now))) (course before before steps.old steps.new) }
{
    let got = own_lookup(&*scope, &*names, name)?;
    let value = reach(&*scope, got, steps)?;
    bounded(&*scope, value)
}

/// A property or a view of a model, or a field of a record.
#[cycle(evaluate)]
fn get<L: Ledger, S: Bodies>(
    scope: &Scope<'_, S>,
    e: &Expr,
    name: &Name,
    names: &Names<'_>,
    counted: &mut u32,
    steps: &mut Steps<L>,
) -> Result<Value, Halt>
    ensures { Did answer_of result (tested (scope_of S.says scope.now) (stepped (scope_of S.says scope.now) (step.Get e.entry name.entry) (names_of names.now))) (course counted.old counted.new steps.old steps.new) }
{
    let from = evaluate(&*scope, e, &*names, counted, steps)?;
    let got = lookup(&*scope, &from, name)?;
    let value = reach(&*scope, got, steps)?;
    bounded(&*scope, value)
}

/// Something that is done with one value.
#[cycle(evaluate)]
fn one<L: Ledger, S: Bodies>(
    scope: &Scope<'_, S>,
    with: Use<'_>,
    e: &Expr,
    names: &Names<'_>,
    counted: &mut u32,
    steps: &mut Steps<L>,
) -> Result<Value, Halt>
    ensures { Did answer_of result (tested (scope_of S.says scope.now) (stepped (scope_of S.says scope.now) (step.One with.entry e.entry) (names_of names.now))) (course counted.old counted.new steps.old steps.new) }
{
    let x = evaluate(&*scope, e, &*names, counted, steps)?;
    finish(&*scope, with, x)
}

/// An operator on two values.
#[cycle(evaluate)]
fn two<L: Ledger, S: Bodies>(
    scope: &Scope<'_, S>,
    op: Op,
    a: &Expr,
    b: &Expr,
    names: &Names<'_>,
    counted: &mut u32,
    steps: &mut Steps<L>,
) -> Result<Value, Halt>
    ensures { Did answer_of result (tested (scope_of S.says scope.now) (stepped (scope_of S.says scope.now) (step.Two op a.entry b.entry) (names_of names.now))) (course counted.old counted.new steps.old steps.new) }
{
    let x = evaluate(&*scope, a, &*names, counted, steps)?;
    let y = evaluate(&*scope, b, &*names, counted, steps)?;
    operate(&*scope, op, &x, &y)
}

/// A walk: the body for each walked value.
#[cycle(evaluate)]
fn walk<L: Ledger, S: Bodies>(
    scope: &Scope<'_, S>,
    with: Walking<'_>,
    names: &Names<'_>,
    counted: &mut u32,
    steps: &mut Steps<L>,
) -> Result<Value, Halt>
    ensures { Did answer_of result (tested (scope_of S.says scope.now) (stepped (scope_of S.says scope.now) (step.Walk with.entry) (names_of names.now))) (course counted.old counted.new steps.old steps.new) }
{
    let from = evaluate(&*scope, with.over, &*names, counted, steps)?;
    let items = walked(&*scope, from)?;
    let mut so_far = Gathered::start(scope.alloc, with.walk);
    for i in 0..items.len() {
        let x = items.get(&*scope, i)?;
        let inner = Names::Bound(&*with.name, &x, &*names);
        let y = evaluate(&*scope, with.body, &inner, counted, steps)?;
        let turn = gather(&*scope, so_far, x, y)?;
        match turn {
            Turn::On(more) => so_far = more,
            Turn::Stop(b) => return Ok(truth_value(b)),
        }
    }
    finished(&*scope, so_far)
}

/// One of two branches, by a truth.
#[cycle(evaluate)]
fn choose<L: Ledger, S: Bodies>(
    scope: &Scope<'_, S>,
    c: &Expr,
    yes: Branch<'_>,
    no: Branch<'_>,
    names: &Names<'_>,
    counted: &mut u32,
    steps: &mut Steps<L>,
) -> Result<Value, Halt>
    ensures { Did answer_of result (tested (scope_of S.says scope.now) (stepped (scope_of S.says scope.now) (step.Choose c.entry yes.entry no.entry) (names_of names.now))) (course counted.old counted.new steps.old steps.new) }
{
    let x = evaluate(&*scope, c, &*names, counted, steps)?;
    let branch = chosen(&*scope, &x, yes, no)?;
    match branch {
        Branch::Known(b) => Ok(truth_value(b)),
        Branch::Any(e) => {
            let y = evaluate(&*scope, e, &*names, counted, steps)?;
            bounded(&*scope, y)
        }
        Branch::Truth(e) => {
            let y = evaluate(&*scope, e, &*names, counted, steps)?;
            judged_truth(&*scope, &y)
        }
    }
}

/// An expression with a name bound to what another one gives.
#[cycle(evaluate)]
fn bind<L: Ledger, S: Bodies>(
    scope: &Scope<'_, S>,
    name: &Name,
    e: &Expr,
    body: &Expr,
    names: &Names<'_>,
    counted: &mut u32,
    steps: &mut Steps<L>,
) -> Result<Value, Halt>
    ensures { Did answer_of result (tested (scope_of S.says scope.now) (stepped (scope_of S.says scope.now) (step.Bind name.entry e.entry body.entry) (names_of names.now))) (course counted.old counted.new steps.old steps.new) }
{
    let x = evaluate(&*scope, e, &*names, counted, steps)?;
    let inner = Names::Bound(&*name, &x, &*names);
    let y = evaluate(&*scope, body, &inner, counted, steps)?;
    bounded(&*scope, y)
}

/// What each of several expressions gives.
#[cycle(evaluate)]
fn list<L: Ledger, S: Bodies>(
    scope: &Scope<'_, S>,
    es: &[Expr],
    names: &Names<'_>,
    counted: &mut u32,
    steps: &mut Steps<L>,
) -> Result<Value, Halt>
    ensures { Did answer_of result (tested (scope_of S.says scope.now) (stepped (scope_of S.says scope.now) (step.List es.entry) (names_of names.now))) (course counted.old counted.new steps.old steps.new) }
{
    let mut values = Parts::new(scope.alloc);
    for e in es {
        let x = evaluate(&*scope, e, &*names, counted, steps)?;
        values.push(x)?;
    }
    bounded(&*scope, Value::Several(values))
}

/// A record, once all its entries are evaluated.
#[cycle(evaluate)]
fn make<L: Ledger, S: Bodies>(
    scope: &Scope<'_, S>,
    entries: &[Entry],
    names: &Names<'_>,
    counted: &mut u32,
    steps: &mut Steps<L>,
) -> Result<Value, Halt>
    ensures { Did answer_of result (tested (scope_of S.says scope.now) (stepped (scope_of S.says scope.now) (step.Make entries.entry) (names_of names.now))) (course counted.old counted.new steps.old steps.new) }
{
    let mut values = Parts::new(scope.alloc);
    for entry in entries {
        let x = evaluate(&*scope, &entry.value, &*names, counted, steps)?;
        values.push(x)?;
    }
    record_of(&*scope, entries, values)
}

/// What was looked up: a value, or a view that is asked.
#[cycle(evaluate)]
pub fn reach<L: Ledger, S: Bodies>(
    scope: &Scope<'_, S>,
    got: Got,
    steps: &mut Steps<L>,
) -> Result<Value, Halt>
    requires { IsKnown (S.says scope.now.schema.now) got }
    ensures { (before : ℕ) → Did answer_of result (reached (scope_of S.says scope.now) got) (course before before steps.old steps.new) }
{
    match got {
        Got::Value(value) => Ok(value),
        Got::View(n, v) => {
            let room = admit(&*scope, n, v)?;
            let inner = Scope {
                alloc: scope.alloc,
                tree: &*scope.tree,
                schema: &*scope.schema,
                going: Going::View(n, v, &scope.going),
                room,
            };
            let own = Value::Node(n);
            let root = Value::Node(inner.root());
            let names = Names::Body(&own, &root);
            let mut counted = 0;
            evaluate(&inner, inner.schema.body(v), &names, &mut counted, steps)
        }
    }
}
