//! Running an action that a request calls.
ghost use Rattle.answer_ops.specs.View.{answers_of};
ghost use Rattle.live_tree.specs.Contents.{state};
ghost use Rattle.live_tree.specs.Laws.{CanBeTakenBack};
ghost use Rattle.plain_answers.specs.Plainness.{ArePlainAnswers};
ghost use Rattle.action_core.specs.Act.{state_of};
ghost use Rattle.action_core.specs.Calling.{acted};
ghost use Rattle.action_steps.specs.Acting.{behaving_of, callee_of};
ghost use Rattle.action_run.specs.Running.{Runs, Costs};

use crate::running::call;
use action_steps::{Acting, Callee};
use expr_core::Schema;
use expr_syntax::Steps;
use live_tree::Tree;
use pointer_core::Pointer;
use std::alloc::Global;
use std::sync::ledger::Ledger;
use view_engine::RunError;

/// How many actions may run at once.
const MOST_ACTIONS: u32 = 32;

/// Runs an action. What it wrote before a refusal stays, unless a middleware took it back; after want of memory the
/// caller rolls the tree back.
pub fn run<L: Ledger>(
    alloc: Global,
    tree: &mut Tree,
    schema: &Schema,
    callee: &Callee<'_>,
    steps: &mut Steps<L>,
) -> Result<(), RunError>
    requires { ArePlainAnswers (answers_of callee.now.args.now) }
    ensures outcome { Runs result (acted (behaving_of schema.now) (callee_of callee.now) (state_of (state tree.old))) (state tree.new) }
    ensures ticks { Costs result (acted (behaving_of schema.now) (callee_of callee.now) (state_of (state tree.old))) steps.old steps.new }
    ensures kept { CanBeTakenBack (state tree.old) (state tree.new) }
{
    let frame = Pointer::new(alloc);
    let outside = Acting {
        alloc,
        schema,
        running: &[],
        frame: &frame,
        room: MOST_ACTIONS,
    };
    let mut counted = 0;
    call(&outside, callee, tree, &mut counted, steps)
}
