//! The parts of statements, evaluated: those of one statement are counted together.
ghost use Rattle.std.specs.Prelude.{◌≡◌, ℕ, List, map, All, IfOk};
ghost use Rattle.expr_syntax.specs.Shown.{shown, expressions};
ghost use Rattle.answer_ops.specs.View.{answer_of, answers_of, answers_from};
ghost use Rattle.live_tree.specs.Contents.{state};
ghost use Rattle.plain_answers.specs.Plainness.{IsPlainAnswer, ArePlainAnswers, IsPlainEnv, HasPlainConstants, HavePlainConstants};
ghost use Rattle.eval_core.specs.Answer.{Answer, several};
ghost use Rattle.eval_core.specs.Run.{andthen};
ghost use Rattle.eval_core.specs.Evaluating.{evaluated, all_evaluated, truth};
ghost use Rattle.view_engine.specs.Asks.{items_evaluated};
ghost use Rattle.view_engine.specs.Did.{course};
ghost use Rattle.action_core.specs.Running.{two, three, items_read, evaluates_in};
ghost use Rattle.action_steps.specs.Doing.{Performs, point};
ghost use Rattle.action_steps.specs.Acting.{acting_of, env_of};
ghost use Rattle.action_steps.specs.Parts.{EvaluatesIn, IsTruthIn, both_of, three_of, call_of};

use crate::acting::{Acting, refused};
use answer_ops::{Value, Values};
use expr_syntax::{Expr, Steps};
use list_core::Parts;
use live_tree::Tree;
use pointer_core::{Pointer, Rule};
use schema_views::{Viewed, values_are_plain};
use snap_core::Snap;
use std::alloc::Global;
use std::sync::ledger::Ledger;
use view_engine::{Env, Framed, RunError, Views};

/// What an expression gives.
pub fn value<L: Ledger>(
    acting: &Acting<'_>,
    e: &Expr,
    env: &Env,
    tree: &Tree,
    steps: &mut Steps<L>,
) -> Result<Value, RunError>
    requires constants { HasPlainConstants (shown e.now) }
    requires bound { IsPlainEnv (env_of env.now) }
    ensures did { (counted : ℕ) → Performs answer_of result (evaluates_in (acting_of acting.now) (λ s. evaluated s (shown e.now) (env_of env.now)))
        (point (state tree.now) counted steps.old) (point (state tree.now) counted steps.new) }
    ensures plain { IfOk result (λ x. IsPlainAnswer (answer_of x)) }
{
    let mut counted = 0;
    part(acting, e, env, &mut counted, tree, steps)
}

/// Whether a condition holds.
pub fn condition<L: Ledger>(
    acting: &Acting<'_>,
    e: &Expr,
    env: &Env,
    tree: &Tree,
    steps: &mut Steps<L>,
) -> Result<bool, RunError>
    ensures { (counted : ℕ) → Performs (λ b. b) result (evaluates_in (acting_of acting.now) (λ s. andthen (evaluated s (shown e.now) (env_of env.now)) (truth s)))
        (point (state tree.now) counted steps.old) (point (state tree.now) counted steps.new) }
{
    let mut counted = 0;
    let x = part(acting, e, env, &mut counted, tree, steps)?;
    judged(acting.frame, &x)
}

/// The truth that an answer is; any other answer is refused `kind`.
fn judged(frame: &Pointer, x: &Value) -> Result<bool, RunError>
    ensures { IsTruthIn result (answer_of x.now) frame.now }
{
    match x {
        Value::Plain(Snap::Bool(b)) => Ok(*b),
        _ => Err(refused(frame, Rule::Kind)),
    }
}

/// What is walked of what an expression gives, all of it.
pub fn items<L: Ledger>(
    acting: &Acting<'_>,
    e: &Expr,
    env: &Env,
    tree: &Tree,
    steps: &mut Steps<L>,
) -> Result<Values, RunError>
    requires constants { HasPlainConstants (shown e.now) }
    requires bound { IsPlainEnv (env_of env.now) }
    ensures did { (counted : ℕ) → Performs (λ xs. map answer_of xs) result (evaluates_in (acting_of acting.now) (λ s. andthen (evaluated s (shown e.now) (env_of env.now)) (items_read s)))
        (point (state tree.now) counted steps.old) (point (state tree.now) counted steps.new) }
    ensures plain { IfOk result (λ xs. All IsPlainAnswer (map answer_of xs)) }
{
    values_are_plain(tree, acting.schema);
    let mut counted = 0;
    let walked = walked_items(acting, e, env, &mut counted, tree, steps)?;
    Ok(listed(acting.alloc, walked))
}

/// All that is walked of what an expression gives, as one answer.
fn walked_items<L: Ledger>(
    acting: &Acting<'_>,
    e: &Expr,
    env: &Env,
    counted: &mut u32,
    tree: &Tree,
    steps: &mut Steps<L>,
) -> Result<Value, RunError>
    ensures { EvaluatesIn acting.now tree.now answer_of result (λ s. items_evaluated s (shown e.now) (env_of env.now)) (course counted.old counted.new steps.old steps.new) }
{
    let viewed = Viewed {
        schema: acting.schema,
    };
    let framed = Framed {
        expr: e,
        env,
        frame: acting.frame,
    };
    let given = Views::new().items(acting.alloc, tree, &viewed, &framed, counted, steps);
    let Framed {
        expr: _,
        env: _,
        frame: _,
    } = framed;
    given
}

/// Several answers, one by one.
fn listed(alloc: Global, x: Value) -> Values
    ensures { (xs : List Answer) → answer_of x ≡ several (answers_from xs) → xs ≡ map answer_of result }
{
    match x {
        Value::Several(values) => values,
        _ => Parts::new(alloc),
    }
}

/// What two parts of a statement give.
#[derive(Drop)]
pub struct TwoParts {
    pub first: Value,
    pub second: Value,
}

/// What two expressions give.
pub fn two_parts<L: Ledger>(
    acting: &Acting<'_>,
    first: &Expr,
    second: &Expr,
    env: &Env,
    tree: &Tree,
    steps: &mut Steps<L>,
) -> Result<TwoParts, RunError>
    requires constants { HasPlainConstants (shown second.now) }
    requires bound { IsPlainEnv (env_of env.now) }
    ensures did { (counted : ℕ) → Performs both_of result
        (evaluates_in (acting_of acting.now) (λ s. two (evaluated s (shown first.now) (env_of env.now)) (evaluated s (shown second.now) (env_of env.now))))
        (point (state tree.now) counted steps.old) (point (state tree.now) counted steps.new) }
    ensures plain { IfOk result (λ xs. IsPlainAnswer (answer_of xs.second)) }
{
    let mut counted = 0;
    let first = part(acting, first, env, &mut counted, tree, steps)?;
    let second = part(acting, second, env, &mut counted, tree, steps)?;
    Ok(TwoParts { first, second })
}

/// What three parts of a statement give.
#[derive(Drop)]
pub struct ThreeParts {
    pub first: Value,
    pub second: Value,
    pub third: Value,
}

/// What three expressions give.
pub fn three_parts<L: Ledger>(
    acting: &Acting<'_>,
    first: &Expr,
    second: &Expr,
    third: &Expr,
    env: &Env,
    tree: &Tree,
    steps: &mut Steps<L>,
) -> Result<ThreeParts, RunError>
    requires constants { HasPlainConstants (shown third.now) }
    requires bound { IsPlainEnv (env_of env.now) }
    ensures did { (counted : ℕ) → Performs three_of result
        (evaluates_in (acting_of acting.now) (λ s. three (evaluated s (shown first.now) (env_of env.now)) (evaluated s (shown second.now) (env_of env.now)) (evaluated s (shown third.now) (env_of env.now))))
        (point (state tree.now) counted steps.old) (point (state tree.now) counted steps.new) }
    ensures plain { IfOk result (λ xs. IsPlainAnswer (answer_of xs.third)) }
{
    let mut counted = 0;
    let first = part(acting, first, env, &mut counted, tree, steps)?;
    let second = part(acting, second, env, &mut counted, tree, steps)?;
    let third = part(acting, third, env, &mut counted, tree, steps)?;
    Ok(ThreeParts {
        first,
        second,
        third,
    })
}

/// The node and the arguments of a call.
#[derive(Drop)]
pub struct CallParts {
    pub on: Value,
    pub args: Values,
}

/// What the parts of a call give.
pub fn call_parts<L: Ledger>(
    acting: &Acting<'_>,
    on: &Expr,
    args: &[Expr],
    env: &Env,
    tree: &Tree,
    steps: &mut Steps<L>,
) -> Result<CallParts, RunError>
    requires on { HasPlainConstants (shown on.now) }
    requires args { HavePlainConstants (expressions (map shown args.now)) }
    requires bound { IsPlainEnv (env_of env.now) }
    ensures did { (counted : ℕ) → Performs call_of result
        (evaluates_in (acting_of acting.now) (λ s. two (evaluated s (shown on.now) (env_of env.now)) (all_evaluated s (expressions (map shown args.now)) (env_of env.now))))
        (point (state tree.now) counted steps.old) (point (state tree.now) counted steps.new) }
    ensures plain { IfOk result (λ parts. ArePlainAnswers (answers_of parts.args)) }
{
    let mut counted = 0;
    let on = part(acting, on, env, &mut counted, tree, steps)?;
    let args = all_parts(acting, args, env, &mut counted, tree, steps)?;
    Ok(CallParts { on, args })
}

/// What an expression of a statement gives, so many expressions of the statement having been counted before.
fn part<L: Ledger>(
    acting: &Acting<'_>,
    e: &Expr,
    env: &Env,
    counted: &mut u32,
    tree: &Tree,
    steps: &mut Steps<L>,
) -> Result<Value, RunError>
    ensures did { EvaluatesIn acting.now tree.now answer_of result (λ s. evaluated s (shown e.now) (env_of env.now)) (course counted.old counted.new steps.old steps.new) }
    ensures plain { HasPlainConstants (shown e.now) → IsPlainEnv (env_of env.now) → IfOk result (λ x. IsPlainAnswer (answer_of x)) }
{
    values_are_plain(tree, acting.schema);
    let viewed = Viewed {
        schema: acting.schema,
    };
    let framed = Framed {
        expr: e,
        env,
        frame: acting.frame,
    };
    let given = Views::new().evaluate(acting.alloc, tree, &viewed, &framed, counted, steps);
    let Framed {
        expr: _,
        env: _,
        frame: _,
    } = framed;
    given
}

/// What each of several expressions gives.
fn all_parts<L: Ledger>(
    acting: &Acting<'_>,
    es: &[Expr],
    env: &Env,
    counted: &mut u32,
    tree: &Tree,
    steps: &mut Steps<L>,
) -> Result<Values, RunError>
    requires constants { HavePlainConstants (expressions (map shown es.now)) }
    requires bound { IsPlainEnv (env_of env.now) }
    ensures did { EvaluatesIn acting.now tree.now answers_of result (λ s. all_evaluated s (expressions (map shown es.now)) (env_of env.now)) (course counted.old counted.new steps.old steps.new) }
    ensures plain { IfOk result (λ xs. ArePlainAnswers (answers_of xs)) }
{
    let mut values = Parts::new(acting.alloc);
    for e in es {
        let x = part(acting, e, env, counted, tree, steps)?;
        values.push(x)?;
    }
    Ok(values)
}
