//! What is walked.
#![tactic(auto, unfolding(eval_core::specs::Run::lift, eval_core::specs::Run::looks, eval_core::specs::Run::andthen, eval_core::specs::Run::joined, crate::specs::TreeSight::sight_of))]

ghost use Rattle.std.specs.Prelude.{◌≡◌, ◌<◌, [], Some, length, slice_get, unwrap_or};
ghost use Rattle.answer_ops.specs.View.{answer_of};
ghost use Rattle.snap_core.specs.Value.{null};
ghost use Rattle.eval_core.specs.Answer.{node, plain};
ghost use Rattle.snap_core.specs.View.{view};
ghost use Rattle.eval_core.specs.Reading.{held_answer};
ghost use Rattle.eval_core.specs.Sight.{holds};
ghost use Rattle.eval_core.specs.Walking.{Item, standing, walked, read_item};
ghost use Rattle.view_engine.specs.Did.{Read};
ghost use Rattle.view_engine.specs.Progress.{scope_of, whole_in};
ghost use Rattle.view_engine.specs.TreeSight.{Whole, item_entry, key_entry, held_there, map_size};
ghost use Rattle.tree_core.specs.Reading.{key_at};
ghost use Rattle.list_core.specs.Outcome.{Gives};
ghost use Rattle.view_engine.specs.Walked.{items_of, place_site};

use crate::halt::Halt;
use crate::reading::held_value;
use crate::schema::Bodies;
use crate::scope::Scope;
use answer_ops::{Value, Values};
use edit_core::Kind;
use list_core::Parts;
use pointer_core::Rule;
use snap_core::{NodeNo, Snap, Txt};
use std::alloc::AllocError;
use tree_core::Place;

/// What is walked: values that are given, or what stands in a node with so many parts.
#[derive(Drop)]
pub enum Items {
    Given(Values),
    List(Parts<Snap>),
    Array(NodeNo, usize),
    Map(NodeNo, usize),
}

/// What is walked of a value: the items of an array, the values of a map, several answers, or a plain list.
pub fn walked<S: Bodies>(scope: &Scope<'_, S>, from: Value) -> Result<Items, Halt>
    ensures { Read (items_of (whole_in S.says scope.now)) result (walked (scope_of S.says scope.now) (answer_of from)) }
{
    match from {
        Value::Node(n) => walked_node(scope, n),
        Value::Several(values) => Ok(Items::Given(values)),
        Value::Plain(value) => walked_list(scope, value),
    }
}

fn walked_list<S: Bodies>(scope: &Scope<'_, S>, from: Snap) -> Result<Items, Halt>
    ensures { Read (items_of (whole_in S.says scope.now)) result (walked (scope_of S.says scope.now) (plain (view from))) }
{
    match from {
        Snap::List(values) => Ok(Items::List(values)),
        _ => Err(scope.refused(Rule::Kind)),
    }
}

fn walked_node<S: Bodies>(scope: &Scope<'_, S>, n: NodeNo) -> Result<Items, Halt>
    ensures { Read (items_of (whole_in S.says scope.now)) result (walked (scope_of S.says scope.now) (node n)) }
{
    match scope.tree.kind(n) {
        None => Err(scope.refused(Rule::Dead)),
        Some(Kind::Model(_)) => Err(scope.refused(Rule::Kind)),
        Some(Kind::Array(_)) => Ok(Items::Array(n, scope.tree.len(n).unwrap_or(0))),
        Some(Kind::Map(_)) => Ok(Items::Map(n, map_len(scope, n))),
    }
}

impl Items {
    pub fn len(&self) -> usize
        ensures { (whole : Whole) → result ≡ length (items_of whole self.now) }
    {
        match self {
            Items::Given(values) => values.len(),
            Items::List(values) => values.len(),
            Items::Array(_, len) => *len,
            Items::Map(_, len) => *len,
        }
    }

    /// One walked value, which is read now.
    pub fn get<S: Bodies>(&self, scope: &Scope<'_, S>, i: usize) -> Result<Value, Halt>
        requires { i < length (items_of (whole_in S.says scope.now) self.now) }
        ensures { (item : Item) → slice_get (items_of (whole_in S.says scope.now) self.now) i ≡ Some item
            → Read answer_of result (read_item (scope_of S.says scope.now) item) }
    {
        match self {
            Items::Given(values) => Ok(values.as_slice()[i].clone_in(scope.alloc)?),
            Items::List(values) => Ok(Value::Plain(values.as_slice()[i].clone_in(scope.alloc)?)),
            Items::Array(n, _) => array_item(scope, *n, i),
            Items::Map(n, _) => map_value(scope, *n, i),
        }
    }
}

/// An item of an array. One that no place can name is want of memory.
pub fn array_item<S: Bodies>(scope: &Scope<'_, S>, n: NodeNo, i: usize) -> Result<Value, Halt>
    ensures { Read answer_of result (read_item (scope_of S.says scope.now) (standing n (item_entry (whole_in S.says scope.now) n i))) }
{
    match u32::try_from(i) {
        Ok(i) => held_there(scope, &Place::Item(n, i)),
        Err(_) => Err(Halt::Memory),
    }
}

/// How many entries a map has.
pub fn map_len<S: Bodies>(scope: &Scope<'_, S>, n: NodeNo) -> usize
    ensures { result ≡ map_size (whole_in S.says scope.now) n }
{
    match scope.tree.key(n, 0) {
        Some(_) => scope.tree.len(n).unwrap_or(0),
        None => 0,
    }
}

/// A key of a map; empty where there is none.
pub fn key_of<S: Bodies>(scope: &Scope<'_, S>, n: NodeNo, i: usize) -> Result<Txt, AllocError>
    ensures { Gives result (unwrap_or (key_at n.0 i (whole_in S.says scope.now).tree) []) }
{
    match scope.tree.key(n, i) {
        Some(key) => key.clone_in(),
        None => Ok(Txt::new(scope.alloc)),
    }
}

/// A value of a map.
fn map_value<S: Bodies>(scope: &Scope<'_, S>, n: NodeNo, i: usize) -> Result<Value, Halt>
    ensures { Read answer_of result (read_item (scope_of S.says scope.now) (standing n (key_entry (whole_in S.says scope.now) n i))) }
{
    let key = key_of(scope, n, i)?;
    held_there(scope, &Place::Key(n, key))
}

/// What a place holds; null where it is no place.
pub fn held_there<S: Bodies>(scope: &Scope<'_, S>, place: &Place) -> Result<Value, Halt>
    ensures { Read answer_of result (held_answer (scope_of S.says scope.now) (place_site place.now) (unwrap_or (held_there (whole_in S.says scope.now) place.now) (holds null))) }
{
    match scope.tree.held(scope.schema.types(), place) {
        Some(held) => held_value(scope, place, held),
        None => Ok(Value::Plain(Snap::Null)),
    }
}
