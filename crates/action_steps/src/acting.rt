//! By what the statements of an action run, and what they are refused for at the frame.
ghost use Rattle.answer_ops.specs.View.{answer_of};
ghost use Rattle.action_steps.specs.Doing.{IsRefusal, IsNodeIn};

use answer_ops::Value;
use expr_core::Schema;
use pointer_core::{Pointer, Refusal, Rule};
use snap_core::NodeNo;
use std::alloc::Global;
use view_engine::RunError;

/// By what the statements of an action run.
#[derive(Drop)]
pub struct Acting<'a> {
    pub alloc: Global,
    pub schema: &'a Schema,
    /// The nodes on which actions run, the latest first.
    pub running: &'a [NodeNo],
    /// The frame of the latest action: the path that its node had when it began, and its name.
    pub frame: &'a Pointer,
    /// How many more actions may run at once.
    pub room: u32,
}

/// A refusal by a rule, told of a frame.
pub fn refused(frame: &Pointer, rule: Rule) -> RunError
    ensures { IsRefusal result frame.now rule }
{
    match frame.clone_in() {
        Ok(path) => RunError::Refused(Refusal { path, rule }),
        Err(_) => RunError::Memory,
    }
}

/// The node that an answer is; any other answer is refused `kind`.
pub fn node_in(frame: &Pointer, x: &Value) -> Result<NodeNo, RunError>
    ensures { IsNodeIn result (answer_of x.now) frame.now }
{
    match x {
        Value::Node(n) => Ok(*n),
        _ => Err(refused(frame, Rule::Kind)),
    }
}
