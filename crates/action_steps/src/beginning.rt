//! What an action begins with.
ghost use Rattle.std.specs.Prelude.{◌≡◌, ◌<◌, IfOk, IfSome, option_and_then};
ghost use Rattle.list_core.specs.Outcome.{Gives};
ghost use Rattle.expr_syntax.specs.ShownStatements.{block_shown};
ghost use Rattle.expr_core.specs.Schema.{action_at, action_count};
ghost use Rattle.answer_ops.specs.View.{answers_of};
ghost use Rattle.live_tree.specs.Contents.{state};
ghost use Rattle.plain_answers.specs.Plainness.{ArePlainAnswers, IsPlainEnv, HasPlainConstants};
ghost use Rattle.plain_answers.specs.EachExpression.{HoldsInBlock};
ghost use Rattle.action_core.specs.Behaving.{node_path};
ghost use Rattle.action_core.specs.Beginning.{action_under, begun_by, frame_of};
ghost use Rattle.action_laws.specs.Laws.{IsPlainBehaving};
ghost use Rattle.action_steps.specs.Acting.{behaving_of, callee_of, env_of, Begins};

use crate::acting::refused;
use crate::binding::{Called, bind};
use answer_ops::Values;
use edit_core::Kind;
use expr_core::Schema;
use expr_syntax::{ActionNo, Block};
use live_tree::Tree;
use pointer_core::{Pointer, Rule};
use snap_core::{NodeNo, Txt};
use std::alloc::{AllocError, Global};
use tree_core::TreeError;
use view_engine::{Env, RunError};

/// An action that is called: of which node, its name, and what it is given.
#[derive(Drop)]
pub struct Callee<'a> {
    pub node: NodeNo,
    pub name: &'a str,
    pub args: &'a Values,
}

/// An action that begins: its frame, what it runs, and the names that are bound in it.
#[derive(Drop)]
pub struct Begun<'a> {
    pub frame: Pointer,
    pub body: &'a Block,
    pub env: Env,
}

/// What a called action begins with; refused `dead` at the caller's frame, and then `unknown`, `arguments` and
/// `reference` at its own.
pub fn begin<'a>(
    alloc: Global,
    schema: &'a Schema,
    tree: &Tree,
    caller: &Pointer,
    callee: &Callee<'_>,
) -> Result<Begun<'a>, RunError>
    requires { ArePlainAnswers (answers_of callee.now.args.now) }
    ensures outcome { Begins result (begun_by (behaving_of schema.now) caller.now (callee_of callee.now) (state tree.now).tree) }
    ensures bound { IfOk result (λ begun. IsPlainEnv (env_of begun.env)) }
    ensures constants { IfOk result (λ begun. HoldsInBlock HasPlainConstants (block_shown begun.body.now)) }
{
    let Some(kind) = tree.kind(callee.node) else {
        return Err(refused(caller, Rule::Dead));
    };
    let frame = frame_of(alloc, tree, callee)?;
    let Some(action) = action_under(schema, callee.name, kind) else {
        return Err(refused(&frame, Rule::Unknown));
    };
    let called = Called {
        node: callee.node,
        params: schema.params(action),
        args: callee.args.as_slice(),
    };
    let env = bind(alloc, schema.types(), tree, &frame, &called)?;
    behaves_plainly(schema);
    Ok(Begun {
        frame,
        body: schema.action_body(action),
        env,
    })
}

// The types of a schema are sound, and its constants are plain. It does nothing.
fn behaves_plainly(schema: &Schema)
    ensures { IsPlainBehaving (behaving_of schema.now) }
{
    let root = schema.types().root();
    let _ = schema.view(root, "");
    let _ = schema.action(root, "");
}

/// The frame of a callee: the path of its node, and its name.
fn frame_of(alloc: Global, tree: &Tree, callee: &Callee<'_>) -> Result<Pointer, AllocError>
    ensures { Gives result (frame_of (callee_of callee.now) (state tree.now).tree) }
{
    let mut path = path_of(alloc, tree, callee.node)?;
    path.push(Txt::copy(alloc, callee.name)?)?;
    Ok(path)
}

/// Where a node stands; the root, where it is dead.
fn path_of(alloc: Global, tree: &Tree, n: NodeNo) -> Result<Pointer, AllocError>
    ensures { Gives result (node_path n (state tree.now).tree) }
{
    match tree.path_of(alloc, n) {
        Ok(path) => Ok(path),
        Err(TreeError::Memory) => Err(AllocError),
        Err(TreeError::Refused(_)) => Ok(Pointer::new(alloc)),
    }
}

/// The action of a name of a kind of node: models alone have actions.
fn action_under(schema: &Schema, name: &str, kind: Kind) -> Option<ActionNo>
    ensures known { IfSome result (λ a. a.0 < action_count schema.now) }
    ensures action { option_and_then (action_at schema.now) result ≡ action_under (behaving_of schema.now) name.now kind }
{
    match kind {
        Kind::Model(m) => schema.action(m, name),
        _ => None,
    }
}
