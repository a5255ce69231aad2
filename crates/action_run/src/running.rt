//! Running blocks, statements and calls.
ghost use Rattle.std.specs.Prelude.{◌≡◌, ◌∷◌, ℕ, map, length, take};
ghost use Rattle.expr_syntax.specs.Shown.{shown, expressions};
ghost use Rattle.expr_syntax.specs.ShownStatements.{statements, stmt_shown, block_shown};
ghost use Rattle.expr_syntax.specs.Syntax as syntax;
ghost use Rattle.answer_ops.specs.View.{answer_of, answers_of};
ghost use Rattle.live_tree.specs.Contents.{state};
ghost use Rattle.plain_answers.specs.Plainness.{IsPlainAnswer, ArePlainAnswers, IsPlainEnv, HasPlainConstants};
ghost use Rattle.action_core.specs.Calling.{called, surrounded};
ghost use Rattle.plain_answers.specs.EachExpression.{HoldsInEach, HoldsInStatement, HoldsInBlock};
ghost use Rattle.action_core.specs.Running.{ran, ran_block, is_budget};
ghost use Rattle.action_steps.specs.Doing.{Performs, point, IsRefusal};
ghost use Rattle.action_run.specs.Surrounding.{is_rescued, running_by};
ghost use Rattle.action_steps.specs.Acting.{behaving_of, running_of, acting_of, callee_of, layer_of, env_of};

use crate::binding::{bind, count, with_latest};
use crate::guarding::pass;
use action_steps::{
    Acting, Begun, Callee, Layer, apply, begin, call_parts, clear, condition, drop, insert, items,
    layers_around, node_in, push, put, refused, replace, set, value,
};
use answer_ops::Value;
use expr_syntax::{Block, Expr, Steps, Stmt};
use live_tree::Tree;
use pointer_core::{Pointer, Rule};
use snap_core::{Name, NodeNo, Txt};
use std::sync::ledger::Ledger;
use view_engine::{Env, RunError};

/// Runs the statements of a block, one after the other. What they bind is forgotten behind it.
#[cycle(run)]
pub fn run_block<L: Ledger>(
    acting: &Acting<'_>,
    block: &Block,
    env: &mut Env,
    tree: &mut Tree,
    counted: &mut u32,
    steps: &mut Steps<L>,
) -> Result<(), RunError>
    requires constants { HoldsInBlock HasPlainConstants (block_shown block.now) }
    requires bound { IsPlainEnv (env_of env.old) }
    ensures did { Performs (λ u. u) result (ran_block (acting_of acting.now) (block_shown block.now) (env_of env.old))
        (point (state tree.old) counted.old steps.old) (point (state tree.new) counted.new steps.new) }
    ensures env { env.new ≡ env.old }
{
    let bound = env.bindings.len();
    let result = run_statements(
        &*acting,
        block.statements.as_slice(),
        env,
        tree,
        counted,
        steps,
    );
    env.bindings.truncate(bound);
    result
}

#[cycle(run)]
fn run_statements<L: Ledger>(
    acting: &Acting<'_>,
    listed: &[Stmt],
    env: &mut Env,
    tree: &mut Tree,
    counted: &mut u32,
    steps: &mut Steps<L>,
) -> Result<(), RunError>
    requires constants { HoldsInBlock HasPlainConstants (statements (map stmt_shown listed.now)) }
    requires bound { IsPlainEnv (env_of env.old) }
    ensures did { Performs (λ u. u) result (ran_block (acting_of acting.now) (statements (map stmt_shown listed.now)) (env_of env.old))
        (point (state tree.old) counted.old steps.old) (point (state tree.new) counted.new steps.new) }
    ensures kept { take (length env.old.bindings) env.new.bindings ≡ env.old.bindings }
{
    for statement in listed {
        count(acting.frame, counted)?;
        run_statement(&*acting, statement, env, tree, counted, steps)?;
    }
    Ok(())
}

/// Runs a statement; what it binds is bound behind it.
#[cycle(run)]
fn run_statement<L: Ledger>(
    acting: &Acting<'_>,
    statement: &Stmt,
    env: &mut Env,
    tree: &mut Tree,
    counted: &mut u32,
    steps: &mut Steps<L>,
) -> Result<(), RunError>
    requires constants { HoldsInStatement HasPlainConstants (stmt_shown statement.now) }
    requires bound { IsPlainEnv (env_of env.old) }
    ensures did { Performs (λ u. env_of env.new) result (ran (acting_of acting.now) (stmt_shown statement.now) (env_of env.old))
        (point (state tree.old) counted.old steps.old) (point (state tree.new) counted.new steps.new) }
    ensures bound { IsPlainEnv (env_of env.new) }
    ensures kept { take (length env.old.bindings) env.new.bindings ≡ env.old.bindings }
{
    match statement {
        Stmt::Set(on, name, to) => set(&*acting, on, name, to, &*env, tree, steps),
        Stmt::Put(on, key, to) => put(&*acting, on, key, to, &*env, tree, steps),
        Stmt::Push(on, to) => push(&*acting, on, to, &*env, tree, steps),
        Stmt::Insert(on, index, to) => insert(&*acting, on, index, to, &*env, tree, steps),
        Stmt::Replace(on, index, to) => replace(&*acting, on, index, to, &*env, tree, steps),
        Stmt::Drop(on, key) => drop(&*acting, on, key, &*env, tree, steps),
        Stmt::Clear(on) => clear(&*acting, on, &*env, tree, steps),
        Stmt::Apply(on, to) => apply(&*acting, on, to, &*env, tree, steps),
        Stmt::Let(name, e) => bind_value(&*acting, name, e, env, &*tree, steps),
        Stmt::If(c, yes, no) => choose(&*acting, c, yes, no, env, tree, counted, steps),
        Stmt::Each(e, name, body) => each(&*acting, e, name, body, env, tree, counted, steps),
        Stmt::Call(on, name, args) => {
            let args = args.as_slice();
            call_on(&*acting, on, name, args, &*env, tree, counted, steps)
        }
        Stmt::Try(first, second) => attempt(&*acting, first, second, env, tree, counted, steps),
        Stmt::Throw(reason) => Err(thrown(&*acting, reason)),
    }
}

/// Binds a name to what an expression gives.
fn bind_value<L: Ledger>(
    acting: &Acting<'_>,
    name: &Name,
    e: &Expr,
    env: &mut Env,
    tree: &Tree,
    steps: &mut Steps<L>,
) -> Result<(), RunError>
    requires constants { HasPlainConstants (shown e.now) }
    requires bound { IsPlainEnv (env_of env.old) }
    ensures did { (counted : ℕ) → Performs (λ _. env_of env.new) result (ran (acting_of acting.now) (syntax.Statement.bind name.now (shown e.now)) (env_of env.old))
        (point (state tree.now) counted steps.old) (point (state tree.now) counted steps.new) }
    ensures bound { IsPlainEnv (env_of env.new) }
    ensures kept { take (length env.old.bindings) env.new.bindings ≡ env.old.bindings }
{
    let given = value(acting, e, &*env, tree, steps)?;
    bind(env, name, given)?;
    Ok(())
}

/// The refusal of a `throw`.
fn thrown(acting: &Acting<'_>, reason: &Name) -> RunError
    ensures { IsRefusal result acting.now.frame.now (Rule.Thrown reason.now) }
{
    match Txt::copy(acting.alloc, reason.text()) {
        Ok(reason) => refused(acting.frame, Rule::Thrown(reason)),
        Err(_) => RunError::Memory,
    }
}

/// Runs one of two blocks, by a condition.
#[cycle(run)]
fn choose<L: Ledger>(
    acting: &Acting<'_>,
    c: &Expr,
    yes: &Block,
    no: &Block,
    env: &mut Env,
    tree: &mut Tree,
    counted: &mut u32,
    steps: &mut Steps<L>,
) -> Result<(), RunError>
    requires yes { HoldsInBlock HasPlainConstants (block_shown yes.now) }
    requires no { HoldsInBlock HasPlainConstants (block_shown no.now) }
    requires bound { IsPlainEnv (env_of env.old) }
    ensures did { Performs (λ _. env_of env.old) result (ran (acting_of acting.now) (syntax.Statement.choice (shown c.now) (block_shown yes.now) (block_shown no.now)) (env_of env.old))
        (point (state tree.old) counted.old steps.old) (point (state tree.new) counted.new steps.new) }
    ensures env { env.new ≡ env.old }
{
    let holds = condition(&*acting, c, &*env, &*tree, steps)?;
    if holds {
        run_block(&*acting, yes, env, tree, counted, steps)
    } else {
        run_block(&*acting, no, env, tree, counted, steps)
    }
}

/// Runs a block for each of the values that are walked, as they are at the start.
#[cycle(run)]
fn each<L: Ledger>(
    acting: &Acting<'_>,
    e: &Expr,
    name: &Name,
    body: &Block,
    env: &mut Env,
    tree: &mut Tree,
    counted: &mut u32,
    steps: &mut Steps<L>,
) -> Result<(), RunError>
    requires over { HasPlainConstants (shown e.now) }
    requires body { HoldsInBlock HasPlainConstants (block_shown body.now) }
    requires bound { IsPlainEnv (env_of env.old) }
    ensures did { Performs (λ _. env_of env.old) result (ran (acting_of acting.now) (syntax.each (shown e.now) name.now (block_shown body.now)) (env_of env.old))
        (point (state tree.old) counted.old steps.old) (point (state tree.new) counted.new steps.new) }
    ensures env { env.new ≡ env.old }
{
    let values = items(&*acting, e, &*env, &*tree, steps)?;
    for value in values.as_slice() {
        let turn = Turn { name, value, body };
        run_turn(&*acting, &turn, env, tree, counted, steps)?;
    }
    Ok(())
}

/// One run of a block, with a name bound to a value.
#[derive(Drop)]
struct Turn<'a> {
    name: &'a Name,
    value: &'a Value,
    body: &'a Block,
}

/// Runs a block with a name bound to a value.
#[cycle(run)]
fn run_turn<L: Ledger>(
    acting: &Acting<'_>,
    turn: &Turn<'_>,
    env: &mut Env,
    tree: &mut Tree,
    counted: &mut u32,
    steps: &mut Steps<L>,
) -> Result<(), RunError>
    requires constants { HoldsInBlock HasPlainConstants (block_shown turn.now.body.now) }
    requires value { IsPlainAnswer (answer_of turn.now.value.now) }
    requires bound { IsPlainEnv (env_of env.old) }
    ensures did { Performs (λ u. u) result (ran_block (acting_of acting.now) (block_shown turn.now.body.now) ((turn.now.name.now, answer_of turn.now.value.now) ∷ env_of env.old))
        (point (state tree.old) counted.old steps.old) (point (state tree.new) counted.new steps.new) }
    ensures env { env.new ≡ env.old }
{
    let bound = env.bindings.len();
    bind(env, turn.name, turn.value.clone_in(acting.alloc)?)?;
    let result = run_block(&*acting, turn.body, env, tree, counted, steps);
    env.bindings.truncate(bound);
    result
}

/// Calls an action of the node that an expression gives.
#[tactic(auto, using(crate::proofs::Sequences::each_plain))]
#[cycle(run)]
fn call_on<L: Ledger>(
    acting: &Acting<'_>,
    on: &Expr,
    name: &Name,
    args: &[Expr],
    env: &Env,
    tree: &mut Tree,
    counted: &mut u32,
    steps: &mut Steps<L>,
) -> Result<(), RunError>
    requires on { HasPlainConstants (shown on.now) }
    requires args { HoldsInEach HasPlainConstants (expressions (map shown args.now)) }
    requires bound { IsPlainEnv (env_of env.now) }
    ensures did { Performs (λ _. env_of env.now) result (ran (acting_of acting.now) (syntax.call (shown on.now) name.now (expressions (map shown args.now))) (env_of env.now))
        (point (state tree.old) counted.old steps.old) (point (state tree.new) counted.new steps.new) }
{
    let parts = call_parts(&*acting, on, args, env, &*tree, steps)?;
    let node = node_in(acting.frame, &parts.on)?;
    let callee = Callee {
        node,
        name: name.text(),
        args: &parts.args,
    };
    call(&*acting, &callee, tree, counted, steps)
}

/// Runs a block, and where it is refused another one. A request that ran too many statements is over.
#[cycle(run)]
fn attempt<L: Ledger>(
    acting: &Acting<'_>,
    first: &Block,
    second: &Block,
    env: &mut Env,
    tree: &mut Tree,
    counted: &mut u32,
    steps: &mut Steps<L>,
) -> Result<(), RunError>
    requires first { HoldsInBlock HasPlainConstants (block_shown first.now) }
    requires second { HoldsInBlock HasPlainConstants (block_shown second.now) }
    requires bound { IsPlainEnv (env_of env.old) }
    ensures did { Performs (λ _. env_of env.old) result (ran (acting_of acting.now) (syntax.attempt (block_shown first.now) (block_shown second.now)) (env_of env.old))
        (point (state tree.old) counted.old steps.old) (point (state tree.new) counted.new steps.new) }
    ensures env { env.new ≡ env.old }
{
    let tried = run_block(&*acting, first, env, tree, counted, steps);
    if is_rescued(&tried) {
        return run_block(&*acting, second, env, tree, counted, steps);
    }
    tried
}

/// Whether another block is run where this came of a first one.
fn is_rescued(tried: &Result<(), RunError>) -> bool
    ensures { result ≡ is_rescued tried.now }
{
    match tried {
        Err(RunError::Refused(refusal)) => !is_budget(&refusal.rule),
        _ => false,
    }
}

fn is_budget(rule: &Rule) -> bool
    ensures { result ≡ is_budget rule.now }
{
    matches!(rule, Rule::Budget)
}

/// Calls an action.
#[cycle(run)]
pub fn call<L: Ledger>(
    acting: &Acting<'_>,
    callee: &Callee<'_>,
    tree: &mut Tree,
    counted: &mut u32,
    steps: &mut Steps<L>,
) -> Result<(), RunError>
    requires { ArePlainAnswers (answers_of callee.now.args.now) }
    ensures { Performs (λ u. u) result (called (behaving_of acting.now.schema.now) acting.now.room (running_of acting.now) (callee_of callee.now))
        (point (state tree.old) counted.old steps.old) (point (state tree.new) counted.new steps.new) }
{
    let Begun {
        frame,
        body,
        mut env,
    } = begin(acting.alloc, acting.schema, &*tree, acting.frame, callee)?;
    let Some(room) = acting.room.checked_sub(1) else {
        return Err(refused(&frame, Rule::Calls));
    };
    let layers = layers_around(acting.alloc, acting.schema, &*tree, callee)?;
    let running = with_latest(acting.alloc, callee.node, acting.running)?;
    let within = within(&*acting, running.as_slice(), &frame, room);
    surround(
        &within,
        layers.as_slice(),
        body,
        &mut env,
        tree,
        counted,
        steps,
    )
}

/// By what the statements of an action run that is one more of those that run.
fn within<'a>(
    acting: &Acting<'a>,
    running: &'a [NodeNo],
    frame: &'a Pointer,
    room: u32,
) -> Acting<'a>
    ensures acting { acting_of result ≡ running_by (behaving_of acting.now.schema.now) room running.now frame.now }
    ensures schema { behaving_of result.schema.now ≡ behaving_of acting.now.schema.now }
    ensures frame { result.frame.now ≡ frame.now }
    ensures room { result.room ≡ room }
{
    Acting {
        alloc: acting.alloc,
        schema: acting.schema,
        running,
        frame,
        room,
    }
}

/// Runs the body of an action within its middleware: where one of it is atomic and the body is refused, what the body
/// wrote is taken back.
#[cycle(run)]
fn surround<L: Ledger>(
    within: &Acting<'_>,
    layers: &[Layer<'_>],
    body: &Block,
    env: &mut Env,
    tree: &mut Tree,
    counted: &mut u32,
    steps: &mut Steps<L>,
) -> Result<(), RunError>
    requires constants { HoldsInBlock HasPlainConstants (block_shown body.now) }
    requires bound { IsPlainEnv (env_of env.old) }
    ensures { Performs (λ u. u) result (surrounded (behaving_of within.now.schema.now) within.now.frame.now (map layer_of layers.now) (ran_block (acting_of within.now) (block_shown body.now) (env_of env.old)))
        (point (state tree.old) counted.old steps.old) (point (state tree.new) counted.new steps.new) }
{
    let mark = tree.mark();
    let is_atomic = pass(&*within, layers, &*tree, steps)?;
    let result = run_block(&*within, body, env, tree, counted, steps);
    if is_atomic && result.is_err() {
        tree.roll_back(mark);
    }
    result
}
