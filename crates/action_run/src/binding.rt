//! The names that statements bind, and the statements that are counted.
ghost use Rattle.std.specs.Prelude.{◌≡◌, ◌∷◌, ◌≤◌, ℕ, suc, length, take, OnOk, OnErr};
ghost use Rattle.list_core.specs.Outcome.{Gives};
ghost use Rattle.answer_ops.specs.View.{answer_of};
ghost use Rattle.action_core.specs.Behaving.{counts};
ghost use Rattle.tree_core.specs.State.{State as Tree};
ghost use Rattle.action_steps.specs.Doing.{Performs, point};
ghost use Rattle.action_steps.specs.Acting.{env_of};

use action_steps::refused;
use answer_ops::Value;
use list_core::Parts;
use pointer_core::{Pointer, Rule};
use snap_core::{Name, NodeNo};
use std::alloc::{AllocError, Global};
use view_engine::{Binding, Env, RunError};

/// How many statements a request may run.
const MOST_STATEMENTS: u32 = 100_000;

/// Counts one statement more, in a frame.
pub fn count(frame: &Pointer, counted: &mut u32) -> Result<(), RunError>
    ensures did { (tree : Tree) (steps : ℕ) → Performs (λ u. u) result (counts frame.now) (point tree counted.old steps) (point tree counted.new steps) }
    ensures more { OnOk result (counted.new ≡ suc counted.old) }
    ensures within { OnOk result (counted.new ≤ 100000) }
{
    if *counted >= MOST_STATEMENTS {
        return Err(refused(frame, Rule::Budget));
    }
    *counted += 1;
    Ok(())
}

/// Binds a name to a value, behind all others.
pub fn bind(env: &mut Env, name: &Name, value: Value) -> Result<(), AllocError>
    ensures ok { OnOk result (env_of env.new ≡ (name.now, answer_of value) ∷ env_of env.old) }
    ensures kept { OnOk result (take (length env.old.bindings) env.new.bindings ≡ env.old.bindings) }
    ensures err { OnErr result (env.new ≡ env.old) }
{
    let name = name.clone_in(env.bindings.allocator())?;
    env.bindings.push(Binding { name, value })?;
    Ok(())
}

/// The nodes on which actions run, with one more, the latest first.
pub fn with_latest(
    alloc: Global,
    latest: NodeNo,
    running: &[NodeNo],
) -> Result<Parts<NodeNo>, AllocError>
    ensures { Gives result (latest ∷ running.now) }
{
    let mut nodes = Parts::from_slice(alloc, running)?;
    nodes.push_front(latest)?;
    Ok(nodes)
}
