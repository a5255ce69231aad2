//! The names that are bound in an action.
#![tactic(auto, unfolding(view_engine::specs::TreeSight::sight_of))]

ghost use Rattle.std.specs.Prelude.{◌≡◌, ◌++◌, IfOk, map, option_map};
ghost use Rattle.answer_ops.specs.View.{answer_of, answers_of};
ghost use Rattle.eval_core.specs.Asking.{bound_at};
ghost use Rattle.live_tree.specs.Contents.{state};
ghost use Rattle.plain_answers.specs.Plainness.{ArePlainAnswers, IsPlainEnv};
ghost use Rattle.type_core.specs.Sound.{IsSound};
ghost use Rattle.type_table.specs.Table.{Catalog};
ghost use Rattle.eval_core.specs.Answer.{node};
ghost use Rattle.view_engine.specs.Names.{binding_of};
ghost use Rattle.action_core.specs.Beginning as begun;
ghost use Rattle.action_steps.specs.Acting.{env_of};
ghost use Rattle.action_steps.specs.Beginning.{argument_as, bound_as, names_bound, seen};
ghost use Rattle.action_steps.specs.Doing.{IsOutcome};

use crate::acting::refused;
use crate::arguments::{Argument, Given, arguments};
use answer_ops::Value;
use list_core::Parts;
use live_tree::Tree;
use model_syntax::Param;
use pointer_core::{Pointer, Rule};
use snap_core::{Name, NodeNo};
use std::alloc::{AllocError, Global};
use type_core::Types;
use view_engine::{Binding, Env, RunError};

/// A call of a node's action: the parameters, and what they are given.
#[derive(Drop)]
pub(crate) struct Called<'a> {
    pub(crate) node: NodeNo,
    pub(crate) params: &'a [Param],
    pub(crate) args: &'a [Value],
}

/// The names that are bound in an action; refused `arguments`, and then `reference`, at its frame.
pub(crate) fn bind(
    alloc: Global,
    types: &Types,
    tree: &Tree,
    frame: &Pointer,
    called: &Called<'_>,
) -> Result<Env, RunError>
    requires { ArePlainAnswers (answers_of called.now.args.now) }
    ensures outcome { IsOutcome env_of result (names_bound types.now (state tree.now).tree frame.now called.now) }
    ensures plain { IfOk result (λ env. IsPlainEnv (env_of env)) }
{
    types_are_sound(types);
    let Some(given) = arguments(alloc, types, tree, called.params, called.args)? else {
        return Err(refused(frame, Rule::Arguments));
    };
    match all_reached(alloc, types, tree, called.node, given)? {
        Some(env) => Ok(env),
        None => Err(refused(frame, Rule::Reference)),
    }
}

// The types of a schema are sound. It does nothing.
fn types_are_sound(types: &Types)
    ensures { IsSound types.now }
{
    let _ = types.root();
}

/// The names that arguments are bound to, before `self` and `root`; none where a reference leads to no node.
fn all_reached(
    alloc: Global,
    types: &Types,
    tree: &Tree,
    n: NodeNo,
    mut given: Parts<Given>,
) -> Result<Option<Env>, AllocError>
    ensures { let sight = seen types.now (state tree.now).tree in IfOk result (λ env. option_map env_of env
        ≡ option_map (λ bound. bound ++ bound_at sight n) (begun.all_reached sight (map bound_as given))) }
{
    let Env { mut bindings } = own_names(alloc, tree, n)?;
    while let Some(last) = given.pop() {
        let Given { name, argument } = last;
        let Some(value) = reached(types, tree, argument) else {
            return Ok(None);
        };
        bindings.push(Binding { name, value })?;
    }
    Ok(Some(Env { bindings }))
}

/// What an argument is in the body; none where a reference leads to no node.
fn reached(types: &Types, tree: &Tree, argument: Argument) -> Option<Value>
    ensures { option_map answer_of result ≡ begun.reached (seen types.now (state tree.now).tree) (argument_as argument) }
{
    match argument {
        Argument::AsGiven(value) => Some(value),
        Argument::ToBeFound(m, identifier) => {
            let n = tree.resolve(types, m, &identifier)?;
            Some(Value::Node(n))
        }
        Argument::Gone => None,
    }
}

/// What is bound on each node: `self`, and `root`.
pub(crate) fn own_names(alloc: Global, tree: &Tree, n: NodeNo) -> Result<Env, AllocError>
    ensures { (types : Catalog) → IfOk result (λ env. env_of env ≡ bound_at (seen types (state tree.now).tree) n) }
{
    let mut bindings = Parts::new(alloc);
    bindings.push(bound_node(alloc, "root", root_of(tree))?)?;
    bindings.push(bound_node(alloc, "self", n)?)?;
    Ok(Env { bindings })
}

/// A name that stands for a node.
fn bound_node(alloc: Global, name: &str, n: NodeNo) -> Result<Binding, AllocError>
    ensures { IfOk result (λ bound. binding_of bound ≡ (name.now, node n)) }
{
    match Name::read(alloc, name) {
        Ok(name) => Ok(Binding {
            name,
            value: Value::Node(n),
        }),
        Err(_) => Err(AllocError),
    }
}

/// The root of the document.
fn root_of(tree: &Tree) -> NodeNo
    ensures { (types : Catalog) → result ≡ (seen types (state tree.now).tree).root }
{
    match tree.root() {
        Some(n) => n,
        None => NodeNo(0),
    }
}
