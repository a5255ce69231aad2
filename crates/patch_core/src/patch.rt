ghost use Rattle.std.specs.Prelude.{◌≡◌, IsSome, IfErr};
ghost use Rattle.list_core.specs.Outcome.{Gives};
ghost use Rattle.snap_core.specs.View.{view};
ghost use Rattle.patch_core.specs.Application.{written};
ghost use Rattle.patch_core.specs.Printing.{op_name};
ghost use Rattle.patch_core.specs.Reading.{op_named};
ghost use Rattle.patch_core.specs.Inverse.{opposite, inverse_of};

use crate::error::PatchError;
use pointer_core::Pointer;
use snap_core::Snap;
use std::alloc::{AllocError, Global};

/// What a patch does at its place.
#[derive(Clone, Copy, Debug, PartialEq, Eq)]
pub enum PatchOp {
    /// Sets a key, or puts an item in.
    Add,
    /// Sets what is held.
    Replace,
    /// Takes out what is held.
    Remove,
}

/// A change of a value at one place. It has the value that an `Add` or a `Replace` writes. It can be taken back
/// where it has the old value that a `Replace` or a `Remove` finds.
#[derive(Debug, Drop)]
pub struct Patch {
    pub op: PatchOp,
    pub path: Pointer,
    pub value: Option<Snap>,
    pub old: Option<Snap>,
}

impl PatchOp {
    /// The operation's name in JSON.
    pub fn name(self) -> &'static str
        ensures { result.now ≡ op_name self }
    {
        match self {
            PatchOp::Add => "add",
            PatchOp::Replace => "replace",
            PatchOp::Remove => "remove",
        }
    }

    /// The operation with a name.
    pub fn named(name: &str) -> Option<PatchOp>
        ensures { result ≡ op_named name.now }
    {
        match name {
            "add" => Some(PatchOp::Add),
            "replace" => Some(PatchOp::Replace),
            "remove" => Some(PatchOp::Remove),
            _ => None,
        }
    }

    /// The operation that undoes it.
    fn opposite(self) -> PatchOp
        ensures { result ≡ opposite self }
    {
        match self {
            PatchOp::Add => PatchOp::Remove,
            PatchOp::Replace => PatchOp::Replace,
            PatchOp::Remove => PatchOp::Add,
        }
    }
}

impl Patch {
    /// An equal patch.
    pub fn clone_in(&self, alloc: Global) -> Result<Patch, AllocError>
        ensures { Gives result self.now }
    {
        Ok(Patch {
            op: self.op,
            path: self.path.clone_in()?,
            value: clone_value(alloc, &self.value)?,
            old: clone_value(alloc, &self.old)?,
        })
    }

    /// The value that the patch writes.
    pub(crate) fn written(&self) -> &Snap
        requires { IsSome self.now.value }
        ensures { view result.now ≡ written self.now }
    {
        self.value.as_ref().unwrap()
    }
}

/// The patch that takes a patch back.
pub fn inverse(alloc: Global, patch: &Patch) -> Result<Patch, PatchError>
    ensures ok { Gives result (inverse_of patch.now) }
    ensures err { IfErr result (λ error. error ≡ PatchError.Memory) }
{
    Ok(Patch {
        op: patch.op.opposite(),
        path: patch.path.clone_in()?,
        value: clone_value(alloc, &patch.old)?,
        old: clone_value(alloc, &patch.value)?,
    })
}

fn clone_value(alloc: Global, value: &Option<Snap>) -> Result<Option<Snap>, AllocError>
    ensures { Gives result value.now }
{
    match value {
        Some(value) => Ok(Some(value.clone_in(alloc)?)),
        None => Ok(None),
    }
}
