ghost use Rattle.std.specs.Prelude.{◌≡◌};
ghost use Rattle.list_core.specs.Outcome.{Gives};
ghost use Rattle.edit_core.specs.Logged.{patch_of_logged};
ghost use Rattle.node_core.specs.View.{edit_of};

use crate::labelled::Labelled;
use crate::way::{Way, copy_way, pointer_of};
use patch_core::{Patch, PatchOp};
use std::alloc::{AllocError, Global};

/// What happens at one place among a node's parts.
#[derive(Debug, Drop)]
pub enum Operation {
    Add(Labelled),
    /// Takes this old part out.
    Remove(Labelled),
    /// Takes the first, the old part, out and puts the second in.
    Replace(Labelled, Labelled),
}

/// An edit of a labelled value, as a log keeps it: the way to the place, and what happens there. Where the way has
/// no turns, the whole is replaced.
#[derive(Debug, Drop)]
pub struct LoggedEdit {
    pub way: Way,
    pub operation: Operation,
}

impl Operation {
    /// An equal operation.
    pub fn clone_in(&self, alloc: Global) -> Result<Operation, AllocError>
        ensures { Gives result self.now }
    {
        match self {
            Operation::Add(new) => Ok(Operation::Add(new.clone_in(alloc)?)),
            Operation::Remove(old) => Ok(Operation::Remove(old.clone_in(alloc)?)),
            Operation::Replace(old, new) => Ok(Operation::Replace(
                old.clone_in(alloc)?,
                new.clone_in(alloc)?,
            )),
        }
    }
}

impl LoggedEdit {
    /// The patch that the edit is without labels.
    pub fn patch(&self, alloc: Global) -> Result<Patch, AllocError>
        ensures { Gives result (patch_of_logged (edit_of self.now)) }
    {
        let path = pointer_of(alloc, self.way.as_slice())?;
        match &self.operation {
            Operation::Add(new) => Ok(Patch {
                op: PatchOp::Add,
                path,
                value: Some(new.snapshot(alloc)?),
                old: None,
            }),
            Operation::Remove(old) => Ok(Patch {
                op: PatchOp::Remove,
                path,
                value: None,
                old: Some(old.snapshot(alloc)?),
            }),
            Operation::Replace(old, new) => Ok(Patch {
                op: PatchOp::Replace,
                path,
                value: Some(new.snapshot(alloc)?),
                old: Some(old.snapshot(alloc)?),
            }),
        }
    }

    /// An equal edit.
    pub fn clone_in(&self, alloc: Global) -> Result<LoggedEdit, AllocError>
        ensures { Gives result self.now }
    {
        Ok(LoggedEdit {
            way: copy_way(alloc, &self.way)?,
            operation: self.operation.clone_in(alloc)?,
        })
    }
}
