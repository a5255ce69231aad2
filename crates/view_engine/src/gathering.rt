//! What walks gather.
#![tactic(auto, using(crate::proofs::Turning::turns), unfolding(eval_core::specs::Run::lift, eval_core::specs::Run::looks, eval_core::specs::Run::andthen, eval_core::specs::Run::joined, crate::specs::TreeSight::sight_of))]

ghost use Rattle.std.specs.Prelude.{◌≡◌, ◌+ℤ◌, true, false, MatchResult, if◌then◌else◌};
ghost use Rattle.snap_core.specs.Value.{boolean};
ghost use Rattle.expr_syntax.specs.Syntax as syntax;
ghost use Rattle.eval_core.specs.Answer.{Answer, plain, several};
ghost use Rattle.answer_ops.specs.View.{answer_of, answers_of};
ghost use Rattle.eval_core.specs.Scope.{judged, gives};
ghost use Rattle.eval_core.specs.Walking.{gathered, start, on, stop};
ghost use Rattle.view_engine.specs.Did.{Read};
ghost use Rattle.view_engine.specs.Progress.{scope_of};
ghost use Rattle.view_engine.specs.Steps.{tested, walk_of};
ghost use Rattle.view_engine.specs.Walked.{gathered_of, walk_in, turn_of, GoesOn, Turns};

use crate::halt::Halt;
use crate::operating::bounded;
use crate::schema::Bodies;
use crate::scope::Scope;
use crate::step::Walk;
use answer_ops::{Value, Values};
use list_core::Parts;
use pointer_core::Rule;
use snap_core::{Snap, is_whole};
use std::alloc::Global;

/// What a walk has gathered so far: values, or a truth that isn't decided yet, or a sum.
#[derive(Drop)]
pub enum Gathered {
    Filter(Values),
    Collect(Values),
    All,
    Any,
    Sum(i128),
}

/// A walk goes on, or stops with a truth.
#[derive(Drop)]
pub enum Turn {
    On(Gathered),
    Stop(bool),
}

impl Gathered {
    /// What a walk begins with.
    pub fn start(alloc: Global, walk: Walk) -> Gathered
        ensures gathered { gathered_of result ≡ start (walk_of walk) }
        ensures walk { walk_in result ≡ walk_of walk }
    {
        match walk {
            Walk::Filter => Gathered::Filter(Parts::new(alloc)),
            Walk::Collect => Gathered::Collect(Parts::new(alloc)),
            Walk::All => Gathered::All,
            Walk::Any => Gathered::Any,
            Walk::Sum => Gathered::Sum(0),
        }
    }
}

/// What is gathered once the body gave `y` for the walked value `x`.
pub fn gather<S: Bodies>(
    scope: &Scope<'_, S>,
    so_far: Gathered,
    x: Value,
    y: Value,
) -> Result<Turn, Halt>
    ensures turn { Read turn_of result (judged (scope_of S.says scope.now) (gathered (walk_in so_far) (gathered_of so_far) (answer_of x) (answer_of y))) }
    ensures walk { GoesOn so_far result }
{
    match (so_far, y) {
        (Gathered::Filter(values), Value::Plain(Snap::Bool(keep))) => filtered(values, x, keep),
        (Gathered::Collect(values), y) => collected(values, y),
        (Gathered::All, Value::Plain(Snap::Bool(b))) => Ok(all(b)),
        (Gathered::Any, Value::Plain(Snap::Bool(b))) => Ok(any(b)),
        (Gathered::Sum(sum), Value::Plain(Snap::Int(z))) => added(sum, z),
        _ => Err(scope.refused(Rule::Kind)),
    }
}

fn filtered(mut values: Values, x: Value, keep: bool) -> Result<Turn, Halt>
    ensures turn { Turns result (gathered syntax.filter (several (answers_of values)) (answer_of x) (plain (boolean keep))) }
    ensures walk { (before : Gathered) → walk_in before ≡ syntax.filter → GoesOn before result }
{
    if !keep {
        return Ok(Turn::On(Gathered::Filter(values)));
    }
    values.push(x)?;
    Ok(Turn::On(Gathered::Filter(values)))
}

fn collected(mut values: Values, y: Value) -> Result<Turn, Halt>
    ensures turn { (x : Answer) → Turns result (gathered syntax.collect (several (answers_of values)) x (answer_of y)) }
    ensures walk { (before : Gathered) → walk_in before ≡ syntax.collect → GoesOn before result }
{
    values.push(y)?;
    Ok(Turn::On(Gathered::Collect(values)))
}

fn all(b: bool) -> Turn
    ensures { turn_of result ≡ (if b then on (plain (boolean true)) else stop (plain (boolean false))) }
{
    if b {
        Turn::On(Gathered::All)
    } else {
        Turn::Stop(false)
    }
}

fn any(b: bool) -> Turn
    ensures { turn_of result ≡ (if b then stop (plain (boolean true)) else on (plain (boolean false))) }
{
    if b {
        Turn::Stop(true)
    } else {
        Turn::On(Gathered::Any)
    }
}

/// A sum that isn't tested yet. One past 128 bits is want of memory.
fn added(sum: i128, z: i64) -> Result<Turn, Halt>
    ensures { MatchResult result (λ turn. turn ≡ Turn.On (Gathered.Sum (sum +ℤ z))) (λ halt. halt ≡ Halt.Memory) }
{
    match sum.checked_add(i128::from(z)) {
        Some(sum) => Ok(Turn::On(Gathered::Sum(sum))),
        None => Err(Halt::Memory),
    }
}

/// What a walk gives that came to its end.
pub fn finished<S: Bodies>(scope: &Scope<'_, S>, gathered: Gathered) -> Result<Value, Halt>
    ensures { Read answer_of result (tested (scope_of S.says scope.now) (gives (gathered_of gathered))) }
{
    match gathered {
        Gathered::Filter(values) => bounded(scope, Value::Several(values)),
        Gathered::Collect(values) => bounded(scope, Value::Several(values)),
        Gathered::All => Ok(Value::Plain(Snap::Bool(true))),
        Gathered::Any => Ok(Value::Plain(Snap::Bool(false))),
        Gathered::Sum(z) => summed(scope, z),
    }
}

fn summed<S: Bodies>(scope: &Scope<'_, S>, z: i128) -> Result<Value, Halt>
    ensures { Read answer_of result (tested (scope_of S.says scope.now) (gives (gathered_of (Gathered.Sum z)))) }
{
    if is_whole(z) {
        Ok(Value::Plain(Snap::Int(z as i64)))
    } else {
        Err(scope.refused(Rule::Range))
    }
}
