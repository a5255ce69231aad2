//! Results, truths, and operators on answers.
#![tactic(auto, unfolding(eval_core::specs::Run::lift, eval_core::specs::Run::looks, eval_core::specs::Run::andthen, eval_core::specs::Run::joined, crate::specs::TreeSight::sight_of))]

ghost use Rattle.std.specs.Prelude.{◌≡◌};
ghost use Rattle.snap_core.specs.Value.{boolean};
ghost use Rattle.snap_core.specs.View.{view};
ghost use Rattle.answer_ops.specs.View.{answer_of};
ghost use Rattle.eval_core.specs.Answer.{Answer, plain, node};
ghost use Rattle.eval_core.specs.Run.{Eval};
ghost use Rattle.expr_syntax.specs.Syntax as syntax;
ghost use Rattle.eval_core.specs.Evaluating.{truth, bound_answer, told};
ghost use Rattle.eval_core.specs.Operating.{in_bounds, bounded_outcome, operated_on};
ghost use Rattle.eval_core.specs.Reading.{operate};
ghost use Rattle.eval_core.specs.Scope.{judged, gives, bound_in};
ghost use Rattle.view_engine.specs.Did.{Read};
ghost use Rattle.view_engine.specs.Names.{names_of};
ghost use Rattle.view_engine.specs.Progress.{scope_of};
ghost use Rattle.view_engine.specs.Steps.{tested, used, as_truth, Chooses};

use crate::halt::Halt;
use crate::names::{Names, bound};
use crate::parts::{has_key, part_of, size_of};
use crate::reading::reference;
use crate::schema::Bodies;
use crate::scope::Scope;
use crate::step::{Branch, Use};
use crate::telling::{all_items, find, is_of, keys, path, snapshot};
use answer_ops::{Value, is_bounded, operated};
use expr_syntax::Op;
use plain_ops::OpError;
use pointer_core::Rule;
use snap_core::{Name, NodeNo, Snap};

/// A result, unless it lies outside the values.
pub fn bounded<S: Bodies>(scope: &Scope<'_, S>, value: Value) -> Result<Value, Halt>
    ensures { Read answer_of result (judged (scope_of S.says scope.now) (in_bounds (answer_of value))) }
{
    if is_bounded(&value) {
        Ok(value)
    } else {
        Err(scope.refused(Rule::Range))
    }
}

/// A constant.
pub fn constant<S: Bodies>(scope: &Scope<'_, S>, value: &Snap) -> Result<Value, Halt>
    ensures { Read answer_of result (tested (scope_of S.says scope.now) (gives (plain (view value.now)))) }
{
    let copy = value.clone_in(scope.alloc)?;
    bounded(scope, Value::Plain(copy))
}

/// The value of a name.
pub fn variable<S: Bodies>(
    scope: &Scope<'_, S>,
    names: &Names<'_>,
    name: &Name,
) -> Result<Value, Halt>
    ensures { Read answer_of result (tested (scope_of S.says scope.now) (bound_answer (scope_of S.says scope.now) (bound_in name.now (names_of names.now)))) }
{
    match bound(names, name.text()) {
        Some(value) => {
            let copy = value.clone_in(scope.alloc)?;
            bounded(scope, copy)
        }
        None => Err(scope.refused(Rule::Kind)),
    }
}

/// A truth as a value.
pub fn truth_value(b: bool) -> Value
    ensures { answer_of result ≡ plain (boolean b) }
{
    Value::Plain(Snap::Bool(b))
}

fn truth<S: Bodies>(scope: &Scope<'_, S>, x: &Value) -> Result<bool, Halt>
    ensures { Read (λ b. b) result (truth (scope_of S.says scope.now) (answer_of x.now)) }
{
    match x {
        Value::Plain(Snap::Bool(b)) => Ok(*b),
        _ => Err(scope.refused(Rule::Kind)),
    }
}

/// A value that is to be a truth.
pub fn judged_truth<S: Bodies>(scope: &Scope<'_, S>, x: &Value) -> Result<Value, Halt>
    ensures { Read answer_of result (tested (scope_of S.says scope.now) (as_truth (scope_of S.says scope.now) (answer_of x.now))) }
{
    let b = truth(scope, x)?;
    Ok(truth_value(b))
}

/// The branch that a truth chooses.
pub fn chosen<'a, S: Bodies>(
    scope: &Scope<'_, S>,
    x: &Value,
    yes: Branch<'a>,
    no: Branch<'a>,
) -> Result<Branch<'a>, Halt>
    ensures { Chooses (scope_of S.says scope.now) (answer_of x.now) (yes.entry, no.entry) result }
{
    if truth(scope, x)? { Ok(yes) } else { Ok(no) }
}

/// What was given, where it may be a result.
fn bounded_result<S: Bodies>(
    scope: &Scope<'_, S>,
    given: Result<Value, Halt>,
) -> Result<Value, Halt>
    ensures { (eval : Eval Answer) → Read answer_of given eval → Read answer_of result (tested (scope_of S.says scope.now) eval) }
{
    let value = given?;
    bounded(scope, value)
}

/// A snapshot as a plain value.
fn plain_snapshot<S: Bodies>(scope: &Scope<'_, S>, x: &Value) -> Result<Value, Halt>
    ensures { Read answer_of result (told (scope_of S.says scope.now) syntax.snapshot (answer_of x.now)) }
{
    let value = snapshot(scope, x)?;
    Ok(Value::Plain(value))
}

/// What is done with the one value of a form, and its result tested.
pub fn finish<S: Bodies>(scope: &Scope<'_, S>, with: Use<'_>, x: Value) -> Result<Value, Halt>
    ensures { Read answer_of result (tested (scope_of S.says scope.now) (used (scope_of S.says scope.now) with.entry (answer_of x))) }
{
    match with {
        Use::Operate(op) => operate(scope, op, &x, &Value::Plain(Snap::Null)),
        Use::Ref(name) => bounded_result(scope, reference(scope, &x, name)),
        Use::Keys => bounded_result(scope, keys(scope, &x)),
        Use::Items => bounded_result(scope, all_items(scope, x)),
        Use::Snapshot => bounded_result(scope, plain_snapshot(scope, &x)),
        Use::Path => bounded_result(scope, path(scope, &x)),
        Use::Find(m) => bounded_result(scope, find(scope, m, &x)),
        Use::Is(m) => bounded_result(scope, is_of(scope, m, &x)),
    }
}

/// An operator on answers, and its result tested.
pub fn operate<S: Bodies>(scope: &Scope<'_, S>, op: Op, x: &Value, y: &Value) -> Result<Value, Halt>
    ensures { Read answer_of result (tested (scope_of S.says scope.now) (operate (scope_of S.says scope.now) op (answer_of x.now) (answer_of y.now))) }
{
    match x {
        Value::Node(n) => operate_node(scope, op, *n, y),
        Value::Plain(_) => operate_plainly(scope, op, x, y),
        Value::Several(_) => operate_plainly(scope, op, x, y),
    }
}

/// An operator on a node.
fn operate_node<S: Bodies>(
    scope: &Scope<'_, S>,
    op: Op,
    n: NodeNo,
    y: &Value,
) -> Result<Value, Halt>
    ensures { Read answer_of result (tested (scope_of S.says scope.now) (operate (scope_of S.says scope.now) op (node n) (answer_of y.now))) }
{
    match op {
        Op::Item => bounded_result(scope, part_of(scope, n, y)),
        Op::Has => bounded_result(scope, has_key(scope, n, y)),
        Op::Size => size_of(scope, n),
        _ => operate_plainly(scope, op, &Value::Node(n), y),
    }
}

/// An operator on answers of which none is read.
fn operate_plainly<S: Bodies>(
    scope: &Scope<'_, S>,
    op: Op,
    x: &Value,
    y: &Value,
) -> Result<Value, Halt>
    ensures { Read answer_of result (judged (scope_of S.says scope.now) (bounded_outcome (operated_on op (answer_of x.now) (answer_of y.now)))) }
{
    match operated(scope.alloc, op, x, y) {
        Ok(value) => Ok(value),
        Err(OpError::Memory) => Err(Halt::Memory),
        Err(OpError::Kind) => Err(scope.refused(Rule::Kind)),
        Err(OpError::Range) => Err(scope.refused(Rule::Range)),
        Err(OpError::Index) => Err(scope.refused(Rule::Index)),
    }
}
