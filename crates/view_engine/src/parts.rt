//! The parts of nodes: items of arrays, and entries of maps.
#![tactic(auto, unfolding(eval_core::specs::Run::lift, eval_core::specs::Run::looks, eval_core::specs::Run::andthen, eval_core::specs::Run::joined, crate::specs::TreeSight::sight_of))]

ghost use Rattle.std.specs.Prelude.{◌≡◌, Some, pos};
ghost use Rattle.plain_ops.specs.Applied.{index_in};
ghost use Rattle.tree_core.specs.Reading.{kind_at};
ghost use Rattle.answer_ops.specs.View.{answer_of};
ghost use Rattle.expr_syntax.specs.declared.op.Op.TheVariants as ops;
ghost use Rattle.snap_core.specs.Value.{text, integer};
ghost use Rattle.snap_core.specs.View.{view};
ghost use Rattle.snap_core.specs.declared.number.TypeNo.{TypeNo};
ghost use Rattle.eval_core.specs.Answer.{Answer, plain, node};
ghost use Rattle.eval_core.specs.Operating.{in_bounds};
ghost use Rattle.eval_core.specs.Scope.{judged, refused};
ghost use Rattle.eval_core.specs.Reading.{operate, item_of_kind, has_of_kind, of_level, entry_answer, entry_at};
ghost use Rattle.view_engine.specs.Did.{Read};
ghost use Rattle.view_engine.specs.Progress.{scope_of, whole_in};
ghost use Rattle.view_engine.specs.Steps.{tested};

use crate::halt::Halt;
use crate::items::{array_item, held_there, map_len};
use crate::schema::Bodies;
use crate::scope::Scope;
use answer_ops::Value;
use edit_core::Kind;
use pointer_core::Rule;
use snap_core::{NodeNo, Snap, Txt, is_whole};
use tree_core::Place;

/// The item of an array at an integer, or the value of a map at a text; null where a map has no such key.
pub fn part_of<S: Bodies>(scope: &Scope<'_, S>, n: NodeNo, k: &Value) -> Result<Value, Halt>
    ensures { Read answer_of result (operate (scope_of S.says scope.now) ops.Item (node n) (answer_of k.now)) }
{
    match scope.tree.kind(n) {
        None => Err(scope.refused(Rule::Dead)),
        Some(Kind::Model(_)) => Err(scope.refused(Rule::Kind)),
        Some(Kind::Array(_)) => item_under(scope, n, k),
        Some(Kind::Map(_)) => entry_under(scope, n, k),
    }
}

fn item_under<S: Bodies>(scope: &Scope<'_, S>, n: NodeNo, k: &Value) -> Result<Value, Halt>
    ensures { (t : TypeNo) → Some (Kind.Array t) ≡ kind_at n.0 (whole_in S.says scope.now).tree
        → Read answer_of result (item_of_kind (scope_of S.says scope.now) n (answer_of k.now) (Kind.Array t)) }
{
    match k {
        Value::Plain(k) => item_by(scope, n, k),
        _ => Err(scope.refused(Rule::Kind)),
    }
}

fn item_by<S: Bodies>(scope: &Scope<'_, S>, n: NodeNo, k: &Snap) -> Result<Value, Halt>
    ensures { (t : TypeNo) → Some (Kind.Array t) ≡ kind_at n.0 (whole_in S.says scope.now).tree
        → Read answer_of result (item_of_kind (scope_of S.says scope.now) n (plain (view k.now)) (Kind.Array t)) }
{
    match k {
        Snap::Int(z) => item_at(scope, n, *z),
        _ => Err(scope.refused(Rule::Kind)),
    }
}

fn entry_under<S: Bodies>(scope: &Scope<'_, S>, n: NodeNo, k: &Value) -> Result<Value, Halt>
    ensures { (t : TypeNo) → Some (Kind.Map t) ≡ kind_at n.0 (whole_in S.says scope.now).tree
        → Read answer_of result (item_of_kind (scope_of S.says scope.now) n (answer_of k.now) (Kind.Map t)) }
{
    match k {
        Value::Plain(k) => entry_by(scope, n, k),
        _ => Err(scope.refused(Rule::Kind)),
    }
}

fn entry_by<S: Bodies>(scope: &Scope<'_, S>, n: NodeNo, k: &Snap) -> Result<Value, Halt>
    ensures { (t : TypeNo) → Some (Kind.Map t) ≡ kind_at n.0 (whole_in S.says scope.now).tree
        → Read answer_of result (item_of_kind (scope_of S.says scope.now) n (plain (view k.now)) (Kind.Map t)) }
{
    match k {
        Snap::Text(key) => value_under(scope, n, key),
        _ => Err(scope.refused(Rule::Kind)),
    }
}

fn item_at<S: Bodies>(scope: &Scope<'_, S>, n: NodeNo, z: i64) -> Result<Value, Halt>
    ensures { (t : TypeNo) → Some (Kind.Array t) ≡ kind_at n.0 (whole_in S.says scope.now).tree
        → Read answer_of result (item_of_kind (scope_of S.says scope.now) n (plain (integer z)) (Kind.Array t)) }
{
    match index_of(z) {
        Some(i) => item_before_end(scope, n, i),
        None => Err(scope.refused(Rule::Index)),
    }
}

/// An integer as an index, if it isn't negative.
fn index_of(z: i64) -> Option<usize>
    ensures { result ≡ index_in z }
{
    usize::try_from(z).ok()
}

fn item_before_end<S: Bodies>(scope: &Scope<'_, S>, n: NodeNo, i: usize) -> Result<Value, Halt>
    ensures { (t : TypeNo) → Some (Kind.Array t) ≡ kind_at n.0 (whole_in S.says scope.now).tree
        → Read answer_of result (of_level (scope_of S.says scope.now) n (λ es. entry_answer (scope_of S.says scope.now) n (refused (scope_of S.says scope.now) Rule.Index) (entry_at i es))) }
{
    let len = scope.tree.len(n).unwrap_or(0);
    if i < len {
        array_item(scope, n, i)
    } else {
        Err(scope.refused(Rule::Index))
    }
}

fn value_under<S: Bodies>(scope: &Scope<'_, S>, n: NodeNo, key: &Txt) -> Result<Value, Halt>
    ensures { (t : TypeNo) → Some (Kind.Map t) ≡ kind_at n.0 (whole_in S.says scope.now).tree
        → Read answer_of result (item_of_kind (scope_of S.says scope.now) n (plain (text key.now)) (Kind.Map t)) }
{
    let place = Place::Key(n, key.clone_in()?);
    held_there(scope, &place)
}

/// Whether a map has a key.
pub fn has_key<S: Bodies>(scope: &Scope<'_, S>, n: NodeNo, k: &Value) -> Result<Value, Halt>
    ensures { Read answer_of result (operate (scope_of S.says scope.now) ops.Has (node n) (answer_of k.now)) }
{
    match (scope.tree.kind(n), k) {
        (None, _) => Err(scope.refused(Rule::Dead)),
        (Some(Kind::Map(_)), Value::Plain(Snap::Text(key))) => is_key(scope, n, key),
        _ => Err(scope.refused(Rule::Kind)),
    }
}

fn is_key<S: Bodies>(scope: &Scope<'_, S>, n: NodeNo, key: &Txt) -> Result<Value, Halt>
    ensures { (t : TypeNo) → Some (Kind.Map t) ≡ kind_at n.0 (whole_in S.says scope.now).tree
        → Read answer_of result (has_of_kind (scope_of S.says scope.now) n (plain (text key.now)) (Kind.Map t)) }
{
    let place = Place::Key(n, key.clone_in()?);
    let there = scope.tree.held(scope.schema.types(), &place).is_some();
    Ok(Value::Plain(Snap::Bool(there)))
}

/// How many items or values a node has.
pub fn size_of<S: Bodies>(scope: &Scope<'_, S>, n: NodeNo) -> Result<Value, Halt>
    ensures { (y : Answer) → Read answer_of result (tested (scope_of S.says scope.now) (operate (scope_of S.says scope.now) ops.Size (node n) y)) }
{
    match scope.tree.kind(n) {
        None => Err(scope.refused(Rule::Dead)),
        Some(Kind::Model(_)) => Err(scope.refused(Rule::Kind)),
        Some(Kind::Array(_)) => counted(scope, scope.tree.len(n).unwrap_or(0)),
        Some(Kind::Map(_)) => counted(scope, map_len(scope, n)),
    }
}

/// A number of parts, where it may be a result.
fn counted<S: Bodies>(scope: &Scope<'_, S>, n: usize) -> Result<Value, Halt>
    ensures { Read answer_of result (judged (scope_of S.says scope.now) (in_bounds (plain (integer (pos n))))) }
{
    if is_whole(n as i128) {
        Ok(Value::Plain(Snap::Int(n as i64)))
    } else {
        Err(scope.refused(Rule::Range))
    }
}
