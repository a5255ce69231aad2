ghost use Rattle.std.specs.Prelude.{◌≡◌, pos};
ghost use Rattle.snap_core.specs.Value.{integer};
ghost use Rattle.plain_ops.specs.Applied.{index_in};
ghost use Rattle.eval_core.specs.Operating.{bounded_outcome, operated_on, on_plain, one_of, answer_under, in_bounds};
ghost use Rattle.eval_core.specs.Answer.{plain};
ghost use Rattle.answer_ops.specs.Outcome.{AnswersAs};
ghost use Rattle.answer_ops.specs.View.{answer_of, answers_of};

use crate::limits::is_bounded;
use crate::sameness::same;
use crate::value::{Value, Values};
use expr_syntax::Op;
use plain_ops::{OpError, plain_op};
use snap_core::{Snap, is_whole};
use std::alloc::Global;

/// What an operator gives for answers of which none is read; refused `range` where it lies outside the values. An
/// operator of one operand leaves `y` aside.
pub fn operated(alloc: Global, op: Op, x: &Value, y: &Value) -> Result<Value, OpError>
    ensures { AnswersAs result (bounded_outcome (operated_on op (answer_of x.now) (answer_of y.now))) }
{
    match (op, x) {
        (Op::Eq, _) => Ok(Value::Plain(Snap::Bool(same(x, y)))),
        (Op::Item, Value::Several(xs)) => one_of(alloc, xs, y),
        (Op::Size, Value::Several(xs)) => counted(xs.len()),
        _ => on_plain(alloc, op, x, y),
    }
}

/// An operator on plain values.
fn on_plain(alloc: Global, op: Op, x: &Value, y: &Value) -> Result<Value, OpError>
    ensures { AnswersAs result (bounded_outcome (on_plain op (answer_of x.now) (answer_of y.now))) }
{
    match (x, y) {
        (Value::Plain(v), Value::Plain(w)) => Ok(Value::Plain(plain_op(alloc, op, v, w)?)),
        _ => Err(OpError::Kind),
    }
}

/// A number of answers.
fn counted(n: usize) -> Result<Value, OpError>
    ensures { AnswersAs result (in_bounds (plain (integer (pos n)))) }
{
    if is_whole(n as i128) {
        Ok(Value::Plain(Snap::Int(n as i64)))
    } else {
        Err(OpError::Range)
    }
}

/// One of several answers, at an integer.
fn one_of(alloc: Global, xs: &Values, k: &Value) -> Result<Value, OpError>
    ensures { AnswersAs result (bounded_outcome (one_of (answers_of xs.now) (answer_of k.now))) }
{
    match k {
        Value::Plain(Snap::Int(z)) => at_index(alloc, xs, *z),
        _ => Err(OpError::Kind),
    }
}

fn at_index(alloc: Global, xs: &Values, z: i64) -> Result<Value, OpError>
    ensures { AnswersAs result (bounded_outcome (answer_under (answers_of xs.now) (index_in z))) }
{
    let Some(index) = index_of(z) else {
        return Err(OpError::Index);
    };
    match xs.get(index) {
        Some(x) => bounded(alloc, x),
        None => Err(OpError::Index),
    }
}

/// An integer as an index, if it isn't negative.
fn index_of(z: i64) -> Option<usize>
    ensures { result ≡ index_in z }
{
    usize::try_from(z).ok()
}

/// A copy of an answer, where it may be a result.
fn bounded(alloc: Global, x: &Value) -> Result<Value, OpError>
    ensures { AnswersAs result (in_bounds (answer_of x.now)) }
{
    if is_bounded(x) {
        Ok(x.clone_in(alloc)?)
    } else {
        Err(OpError::Range)
    }
}
