//! The arguments of an action, each by the type of its parameter.
ghost use Rattle.std.specs.Prelude.{◌≡◌, ℕ, Some, IfOk, MatchOption, map, option_map};
ghost use Rattle.snap_core.specs.Value.{IsPlain};
ghost use Rattle.snap_core.specs.View.{view, items_view};
ghost use Rattle.type_table.specs.Names.{named_by, named_step};
ghost use Rattle.type_table.specs.Table.{shape_at};
ghost use Rattle.answer_ops.specs.View.{answer_of, answers_of};
ghost use Rattle.live_tree.specs.Contents.{state};
ghost use Rattle.answer_writing.specs.Taking.{plains_in};
ghost use Rattle.plain_answers.specs.Plainness.{IsPlainAnswer, ArePlainAnswers};
ghost use Rattle.action_core.specs.Beginning as begun;
ghost use Rattle.action_steps.specs.Beginning.{argument_as, bound_as};

use answer_ops::Value;
use answer_writing::{are_plain, copy_plains};
use edit_core::Kind;
use list_core::Parts;
use live_tree::Tree;
use model_syntax::Param;
use node_core::same_kind;
use snap_core::{Ident, Items, ModelNo, Name, NodeNo, Snap, TypeNo};
use std::alloc::{AllocError, Global};
use type_core::{MakeError, Shape, Types, make};

/// An argument that is of its parameter's type.
#[derive(Debug, Drop)]
pub(crate) enum Argument {
    AsGiven(Value),
    /// The identifier of a node of a model.
    ToBeFound(ModelNo, Ident),
    /// A node that is dead.
    Gone,
}

/// An argument, and the name that it is bound to.
#[derive(Debug, Drop)]
pub(crate) struct Given {
    pub(crate) name: Name,
    pub(crate) argument: Argument,
}

/// The arguments, as many as there are parameters and each of its parameter's type; none otherwise.
pub(crate) fn arguments(
    alloc: Global,
    types: &Types,
    tree: &Tree,
    params: &[Param],
    args: &[Value],
) -> Result<Option<Parts<Given>>, AllocError>
    requires plain { ArePlainAnswers (answers_of args.now) }
    ensures { IfOk result (λ given. option_map (map bound_as) given ≡ begun.arguments_of types.now (state tree.now).tree params.now (answers_of args.now)) }
{
    if params.len() != args.len() {
        return Ok(None);
    }
    let mut given = Parts::new(alloc);
    for i in 0..params.len() {
        let param = &params[i];
        let Some(argument) = argument_of(alloc, types, tree, param.of, &args[i])? else {
            return Ok(None);
        };
        let name = param.name.clone_in(alloc)?;
        given.push(Given { name, argument })?;
    }
    Ok(Some(given))
}

/// An argument by its parameter's type; none where it isn't of it.
fn argument_of(
    alloc: Global,
    types: &Types,
    tree: &Tree,
    t: TypeNo,
    x: &Value,
) -> Result<Option<Argument>, AllocError>
    requires plain { IsPlainAnswer (answer_of x.now) }
    ensures { IfOk result (λ argument. option_map argument_as argument
        ≡ begun.argument_of types.now (state tree.now).tree t.0 (begun.parameter_target types.now t.0) (answer_of x.now)) }
{
    let target = parameter_target(types, t);
    match x {
        Value::Node(n) => Ok(node_at(tree, *n, target)),
        Value::Plain(value) => value_argument(alloc, types, t, target, value),
        Value::Several(values) => match plain_items(alloc, values.as_slice())? {
            Some(items) => value_argument(alloc, types, t, target, &Snap::List(items)),
            None => Ok(None),
        },
    }
}

/// The plain values that several answers are; none where a node stands in one of them.
fn plain_items(alloc: Global, values: &[Value]) -> Result<Option<Items>, AllocError>
    ensures { IfOk result (λ items. option_map items_view items ≡ plains_in (answers_of values.now)) }
{
    if !are_plain(values) {
        return Ok(None);
    }
    Ok(Some(copy_plains(alloc, values)?))
}

/// A node at a reference: one of its model, or a dead one. Elsewhere a node is none.
fn node_at(tree: &Tree, n: NodeNo, target: Option<ModelNo>) -> Option<Argument>
    ensures { option_map argument_as result ≡ begun.node_at n (state tree.now).tree target }
{
    let m = target?;
    match tree.kind(n) {
        None => Some(Argument::Gone),
        Some(kind) => {
            if same_kind(kind, Kind::Model(m)) {
                Some(Argument::AsGiven(Value::Node(n)))
            } else {
                None
            }
        }
    }
}

/// A plain argument, made by its type.
fn value_argument(
    alloc: Global,
    types: &Types,
    t: TypeNo,
    target: Option<ModelNo>,
    value: &Snap,
) -> Result<Option<Argument>, AllocError>
    requires plain { IsPlain (view value.now) }
    ensures { IfOk result (λ argument. option_map argument_as argument ≡ begun.value_argument types.now t.0 target (Some (view value.now))) }
{
    match make(alloc, types, t, Some(value)) {
        Ok(made) => Ok(plain_argument(target, made)),
        Err(MakeError::Memory) => Err(AllocError),
        Err(MakeError::Refused(_)) => Ok(None),
    }
}

/// A plain argument: at a reference an identifier.
fn plain_argument(target: Option<ModelNo>, value: Snap) -> Option<Argument>
    ensures { option_map argument_as result ≡ begun.plain_argument target (view value) }
{
    match (target, value) {
        (None, value) => Some(Argument::AsGiven(Value::Plain(value))),
        (Some(m), Snap::Text(text)) => Some(Argument::ToBeFound(m, Ident::Text(text))),
        (Some(m), Snap::Int(n)) => Some(Argument::ToBeFound(m, Ident::Number(n))),
        _ => None,
    }
}

/// The model that a parameter's references lead to, names followed; none where its type is no reference.
fn parameter_target(types: &Types, t: TypeNo) -> Option<ModelNo>
    ensures { result ≡ begun.parameter_target types.now t.0 }
{
    let t = named(types, t);
    if t.0 < types.count() {
        types.target(t)
    } else {
        None
    }
}

/// The type that a type is, names followed.
fn named(types: &Types, t: TypeNo) -> TypeNo
    ensures { result.0 ≡ named_by types.now.table t.0 }
{
    let mut at = t;
    for _ in 0..types.count() {
        match name_at(types, at) {
            Some(u) => at = u,
            None => return at,
        }
    }
    at
}

/// The type that a name at this number stands for; none where no name is there.
fn name_at(types: &Types, t: TypeNo) -> Option<TypeNo>
    ensures { (further : ℕ → ℕ) → MatchOption result
        (named_step further t.0 (shape_at types.now.table t.0) ≡ t.0)
        (λ u. named_step further t.0 (shape_at types.now.table t.0) ≡ further u.0) }
{
    if t.0 >= types.count() {
        return None;
    }
    match types.shape(t) {
        Shape::Named(u) => Some(*u),
        _ => None,
    }
}
