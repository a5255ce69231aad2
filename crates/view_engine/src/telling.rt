//! What is told of one value.
#![tactic(auto, unfolding(eval_core::specs::Run::lift, eval_core::specs::Run::looks, eval_core::specs::Run::andthen, eval_core::specs::Run::joined, crate::specs::TreeSight::sight_of))]

ghost use Rattle.std.specs.Prelude.{◌≡◌, Some, MatchResult};
ghost use Rattle.tree_core.specs.Reading.{kind_at};
ghost use Rattle.snap_core.specs.Value.{keys_of};
ghost use Rattle.snap_core.specs.declared.number.TypeNo.{TypeNo};
ghost use Rattle.expr_syntax.specs.Syntax as syntax;
ghost use Rattle.snap_core.specs.View.{view, items_view, fields_view};
ghost use Rattle.answer_ops.specs.View.{answer_of, answers_of};
ghost use Rattle.eval_core.specs.Answer.{node, several};
ghost use Rattle.eval_core.specs.Evaluating.{told};
ghost use Rattle.eval_core.specs.Making.{snapshot_of, snapshots_of};
ghost use Rattle.eval_core.specs.Reading.{keys_got, keys_of_kind, texts, path_got, find_got, node_or_null, is_got};
ghost use Rattle.eval_core.specs.Scope.{gives};
ghost use Rattle.eval_core.specs.Walking.{walk_over, start};
ghost use Rattle.view_engine.specs.Did.{Read};
ghost use Rattle.view_engine.specs.Walked.{items_of};
ghost use Rattle.view_engine.specs.Progress.{scope_of, whole_in};

use crate::halt::Halt;
use crate::items::{Items, key_of, map_len, walked};
use crate::schema::Bodies;
use crate::scope::Scope;
use answer_ops::{Value, Values};
use edit_core::Kind;
use list_core::Parts;
use pointer_core::Rule;
use snap_core::{Field, Ident, ModelNo, NodeNo, Snap};
use tree_core::TreeError;

/// The keys of a map or of a plain record, ascending.
pub fn keys<S: Bodies>(scope: &Scope<'_, S>, x: &Value) -> Result<Value, Halt>
    ensures { Read answer_of result (keys_got (scope_of S.says scope.now) (answer_of x.now)) }
{
    match x {
        Value::Node(n) => node_keys(scope, *n),
        Value::Plain(Snap::Dict(fields)) => field_keys(scope, fields.as_slice()),
        _ => Err(scope.refused(Rule::Kind)),
    }
}

fn node_keys<S: Bodies>(scope: &Scope<'_, S>, n: NodeNo) -> Result<Value, Halt>
    ensures { Read answer_of result (keys_got (scope_of S.says scope.now) (node n)) }
{
    match scope.tree.kind(n) {
        None => Err(scope.refused(Rule::Dead)),
        Some(Kind::Map(_)) => map_keys(scope, n),
        Some(_) => Err(scope.refused(Rule::Kind)),
    }
}

fn map_keys<S: Bodies>(scope: &Scope<'_, S>, n: NodeNo) -> Result<Value, Halt>
    ensures { (t : TypeNo) → Some (Kind.Map t) ≡ kind_at n.0 (whole_in S.says scope.now).tree
        → Read answer_of result (keys_of_kind (scope_of S.says scope.now) n (Kind.Map t)) }
{
    let mut keys = Parts::new(scope.alloc);
    for i in 0..map_len(scope, n) {
        keys.push(Value::Plain(Snap::Text(key_of(scope, n, i)?)))?;
    }
    Ok(Value::Several(keys))
}

fn field_keys<S: Bodies>(scope: &Scope<'_, S>, fields: &[Field]) -> Result<Value, Halt>
    ensures { MatchResult result (λ value. answer_of value ≡ several (texts (keys_of (fields_view fields.now)))) (λ halt. halt ≡ Halt.Memory) }
{
    let mut keys = Parts::new(scope.alloc);
    for field in fields {
        keys.push(Value::Plain(Snap::Text(field.key.clone_in()?)))?;
    }
    Ok(Value::Several(keys))
}

/// What is walked of a value, all of it read in order.
pub fn all_items<S: Bodies>(scope: &Scope<'_, S>, x: Value) -> Result<Value, Halt>
    ensures { Read answer_of result (told (scope_of S.says scope.now) syntax.items (answer_of x)) }
{
    let items = walked(scope, x)?;
    read_all(scope, &items)
}

fn read_all<S: Bodies>(scope: &Scope<'_, S>, items: &Items) -> Result<Value, Halt>
    ensures { Read answer_of result (walk_over (scope_of S.says scope.now) syntax.collect (λ y. gives y) (items_of (whole_in S.says scope.now) items.now) (start syntax.collect)) }
{
    let mut values = Parts::new(scope.alloc);
    for i in 0..items.len() {
        values.push(items.get(scope, i)?)?;
    }
    Ok(Value::Several(values))
}

/// The snapshot of a node, a plain value itself, and several answers as a list.
#[cycle(snapshot)]
pub fn snapshot<S: Bodies>(scope: &Scope<'_, S>, x: &Value) -> Result<Snap, Halt>
    ensures { Read view result (snapshot_of (scope_of S.says scope.now) (answer_of x.now)) }
{
    match x {
        Value::Plain(value) => Ok(value.clone_in(scope.alloc)?),
        Value::Node(n) => node_snapshot(scope, *n),
        Value::Several(values) => Ok(Snap::List(snapshots(scope, values)?)),
    }
}

#[cycle(snapshot)]
fn snapshots<S: Bodies>(scope: &Scope<'_, S>, values: &Values) -> Result<Parts<Snap>, Halt>
    ensures { Read items_view result (snapshots_of (scope_of S.says scope.now) (answers_of values.now)) }
{
    let mut items = Parts::new(scope.alloc);
    for value in values.as_slice() {
        items.push(snapshot(scope, value)?)?;
    }
    Ok(items)
}

fn node_snapshot<S: Bodies>(scope: &Scope<'_, S>, n: NodeNo) -> Result<Snap, Halt>
    ensures { Read view result (snapshot_of (scope_of S.says scope.now) (node n)) }
{
    match scope.tree.snapshot(scope.alloc, n) {
        Ok(value) => Ok(value),
        Err(TreeError::Memory) => Err(Halt::Memory),
        Err(TreeError::Refused(_)) => Err(scope.refused(Rule::Dead)),
    }
}

/// The pointer text of a node.
pub fn path<S: Bodies>(scope: &Scope<'_, S>, x: &Value) -> Result<Value, Halt>
    ensures { Read answer_of result (path_got (scope_of S.says scope.now) (answer_of x.now)) }
{
    let Value::Node(n) = x else {
        return Err(scope.refused(Rule::Kind));
    };
    match scope.tree.path_of(scope.alloc, *n) {
        Ok(path) => Ok(Value::Plain(Snap::Text(path.print()?))),
        Err(TreeError::Memory) => Err(Halt::Memory),
        Err(TreeError::Refused(_)) => Err(scope.refused(Rule::Dead)),
    }
}

/// The node of a model with an identifier; null where there is none.
pub fn find<S: Bodies>(scope: &Scope<'_, S>, m: ModelNo, x: &Value) -> Result<Value, Halt>
    ensures { Read answer_of result (find_got (scope_of S.says scope.now) m (answer_of x.now)) }
{
    match x {
        Value::Plain(Snap::Text(text)) => Ok(known(scope, m, &Ident::Text(text.clone_in()?))),
        Value::Plain(Snap::Int(n)) => Ok(known(scope, m, &Ident::Number(*n))),
        _ => Err(scope.refused(Rule::Kind)),
    }
}

fn known<S: Bodies>(scope: &Scope<'_, S>, m: ModelNo, identifier: &Ident) -> Value
    ensures { answer_of result ≡ node_or_null ((scope_of S.says scope.now).sight.known m identifier.now) }
{
    match scope.tree.resolve(scope.schema.types(), m, identifier) {
        Some(n) => Value::Node(n),
        None => Value::Plain(Snap::Null),
    }
}

/// Whether a value is a node of a model.
pub fn is_of<S: Bodies>(scope: &Scope<'_, S>, m: ModelNo, x: &Value) -> Result<Value, Halt>
    ensures { Read answer_of result (is_got (scope_of S.says scope.now) m (answer_of x.now)) }
{
    let Value::Node(n) = x else {
        return Ok(Value::Plain(Snap::Bool(false)));
    };
    match scope.tree.kind(*n) {
        None => Err(scope.refused(Rule::Dead)),
        Some(Kind::Model(k)) => Ok(Value::Plain(Snap::Bool(m.0 == k.0))),
        Some(_) => Ok(Value::Plain(Snap::Bool(false))),
    }
}
