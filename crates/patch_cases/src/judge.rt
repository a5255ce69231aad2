//! What the lines of a table come to.
ghost use Rattle.std.specs.Prelude.{All};
ghost use Rattle.snap_core.specs.Value.{IsPlain};
ghost use Rattle.snap_core.specs.View.{view};
ghost use Rattle.patch_core.specs.Application.{HasValue};
ghost use Rattle.patch_core.specs.Printing.{HasPlainValues};

use case_tables::Judge;
use patch_core::{PatchError, Patches, apply, print_patches, read_patches};
use snap_core::Snap;
use snap_json::{ReadError, print_snap, read_snap};
use std::alloc::{AllocError, Global};

/// What the lines of a table are.
#[derive(Clone, Copy)]
pub enum Texts {
    /// A value and patches, which come to the value after them.
    Applied,
    /// Patches, which come to how they are printed.
    Read,
}

/// What a line comes to: JSON, or why it comes to none.
impl Judge for Texts {
    fn outcome(&self, alloc: Global, given: &str) -> Result<String, AllocError> {
        let found = match self {
            Texts::Applied => applied(alloc, given),
            Texts::Read => read(alloc, given),
        };
        match found {
            Ok(text) => Ok(text),
            Err(Refusal::Memory) => Err(AllocError),
            Err(refusal) => String::from_str(alloc, refusal.name()),
        }
    }
}

/// Why a line comes to no value.
#[derive(Clone, Copy)]
enum Refusal {
    Memory,
    /// It isn't two texts with ` | ` between.
    Parts,
    Syntax,
    Whole,
    Path,
    Index,
    Shape,
    Pointer,
}

impl Refusal {
    fn name(self) -> &'static str {
        match self {
            Refusal::Memory => "memory",
            Refusal::Parts => "parts",
            Refusal::Syntax => "syntax",
            Refusal::Whole => "whole",
            Refusal::Path => "path",
            Refusal::Index => "index",
            Refusal::Shape => "shape",
            Refusal::Pointer => "pointer",
        }
    }
}

impl From<AllocError> for Refusal {
    fn from(_refused: AllocError) -> Refusal {
        Refusal::Memory
    }
}

impl From<ReadError> for Refusal {
    fn from(error: ReadError) -> Refusal {
        match error {
            ReadError::Memory => Refusal::Memory,
            ReadError::Syntax => Refusal::Syntax,
            ReadError::Whole { .. } => Refusal::Whole,
        }
    }
}

impl From<PatchError> for Refusal {
    fn from(error: PatchError) -> Refusal {
        match error {
            PatchError::Memory => Refusal::Memory,
            PatchError::Path => Refusal::Path,
            PatchError::Index => Refusal::Index,
            PatchError::Shape => Refusal::Shape,
            PatchError::Pointer => Refusal::Pointer,
        }
    }
}

fn read(alloc: Global, given: &str) -> Result<String, Refusal> {
    let list = read_snap(alloc, given.as_bytes())?;
    printed(alloc, &list)
}

#[tactic(auto, using(crate::proofs::Plain::ordered_from_plain))]
fn printed(alloc: Global, list: &Snap) -> Result<String, Refusal>
    requires { IsPlain (view list.now) }
{
    let patches = read_patches(alloc, list)?;
    let shown = print_patches(alloc, &patches)?;
    compact(alloc, &shown)
}

fn applied(alloc: Global, given: &str) -> Result<String, Refusal> {
    let Some((value, patches)) = given.split_once(" | ") else {
        return Err(Refusal::Parts);
    };
    let mut target = read_snap(alloc, value.as_bytes())?;
    let list = read_snap(alloc, patches.as_bytes())?;
    change(alloc, &mut target, &list)?;
    compact(alloc, &target)
}

#[tactic(auto, using(crate::proofs::Plain::ordered_from_plain))]
fn change(alloc: Global, target: &mut Snap, list: &Snap) -> Result<(), Refusal>
    requires target { IsPlain (view target.old) }
    requires list { IsPlain (view list.now) }
    ensures { IsPlain (view target.new) }
{
    let patches = read_patches(alloc, list)?;
    apply_all(alloc, target, &patches)?;
    Ok(())
}

#[tactic(auto, using(crate::proofs::Plain::ordered_from_plain))]
fn apply_all(alloc: Global, target: &mut Snap, patches: &Patches) -> Result<(), PatchError>
    requires target { IsPlain (view target.old) }
    requires values { All HasValue patches.now }
    requires plain { All HasPlainValues patches.now }
    ensures { IsPlain (view target.new) }
{
    for patch in patches.as_slice() {
        apply(alloc, target, patch)?;
    }
    Ok(())
}

fn compact(alloc: Global, snap: &Snap) -> Result<String, Refusal>
    requires { IsPlain (view snap.now) }
{
    let bytes = print_snap(alloc, snap)?;
    match String::from_utf8(bytes.into_vec()) {
        Ok(text) => Ok(text),
        Err(_) => Err(Refusal::Memory),
    }
}
