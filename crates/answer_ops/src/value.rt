ghost use Rattle.std.specs.Prelude.{◌≡◌, ◌+◌, min};
ghost use Rattle.eval_core.specs.Answer.{answer_weight, answer_depth, answers_weight, answers_depth};
ghost use Rattle.answer_ops.specs.View.{answer_of, answers_of};
ghost use Rattle.list_core.specs.Outcome.{Gives};

use list_core::Parts;
use snap_core::{NodeNo, Snap};
use std::alloc::{AllocError, Global};

/// What an expression answers.
#[derive(Debug, Drop)]
pub enum Value {
    Plain(Snap),
    /// A model, an array or a map of the document.
    Node(NodeNo),
    Several(Parts<Value>),
}

pub type Values = Parts<Value>;

impl Value {
    /// An equal answer.
    #[cycle(copy)]
    pub fn clone_in(&self, alloc: Global) -> Result<Value, AllocError>
        ensures { Gives result self.now }
    {
        match self {
            Value::Plain(value) => Ok(Value::Plain(value.clone_in(alloc)?)),
            Value::Node(n) => Ok(Value::Node(*n)),
            Value::Several(values) => Ok(Value::Several(copy_values(alloc, values)?)),
        }
    }
}

#[cycle(copy)]
fn copy_values(alloc: Global, values: &Values) -> Result<Values, AllocError>
    ensures { Gives result values.now }
{
    let mut copy = Parts::new(alloc);
    for value in values.as_slice() {
        copy.push(value.clone_in(alloc)?)?;
    }
    Ok(copy)
}

impl Value {
    /// The weight, or `most` where it is more: several answers weigh as a list, and a node weighs 1.
    #[cycle(weigh)]
    pub fn weight(&self, most: u64) -> u64
        ensures { result ≡ min (answer_weight (answer_of self.now)) most }
    {
        match self {
            Value::Plain(value) => value.weight(most),
            Value::Node(_) => most.min(1),
            Value::Several(values) => weigh_values(values.as_slice(), most),
        }
    }

    /// The depth, or `most` where it is more: several answers are 2 deeper than the deepest of them.
    #[cycle(deepen)]
    pub fn depth(&self, most: u64) -> u64
        ensures { result ≡ min (answer_depth (answer_of self.now)) most }
    {
        if most < 2 {
            return most;
        }
        match self {
            Value::Plain(value) => value.depth(most),
            Value::Node(_) => 1,
            Value::Several(values) => 2 + deepest_value(values.as_slice(), most - 2),
        }
    }
}

#[cycle(weigh)]
fn weigh_values(values: &[Value], most: u64) -> u64
    ensures { result ≡ min (1 + answers_weight (answers_of values.now)) most }
{
    let mut sum = most.min(1);
    for value in values {
        sum += value.weight(most - sum);
    }
    sum
}

/// The depth of the deepest value, or `most` where it is more; 0 where there is none.
#[cycle(deepen)]
fn deepest_value(values: &[Value], most: u64) -> u64
    ensures { result ≡ min (answers_depth (answers_of values.now)) most }
{
    let mut deepest = 0;
    for value in values {
        deepest = value.depth(most).max(deepest);
    }
    deepest
}
