ghost use Rattle.std.specs.Prelude.{◌≡◌, [], ◌∷◌, ◌++◌, ◌<◌, length, slice_get, take, ◌↔◌, IsTrue, OnOk, OnErr, IfErr};
ghost use Rattle.std.specs.Option.{option_copied};
ghost use Rattle.list_core.specs.Outcome.{Gives};
ghost use Rattle.patch_core.specs.Inverse.{back};

use crate::error::PatchError;
use crate::patch::{Patch, inverse};
use list_core::Parts;
use std::alloc::{AllocError, Global};
use std::marker::Model;

/// One more than the most patches of a list.
const LIMIT: usize = 2_147_483_648;

/// Patches in the order in which they are applied, fewer than 2 to the power of 31, so that no list of a value
/// passes 2 to the power of 32 items while they are. Contracts see the list.
#[derive(Debug, Drop)]
pub struct Patches {
    patches: Parts<Patch>,
}

impl Model for Patches {
    ghost use Rattle.std.specs.Prelude.{List, ◌<◌, length};
    ghost use Rattle.std.specs.Coded.{codes};
    ghost use Rattle.snap_core.specs.contracts.snap.Snap as snap;
    ghost use Rattle.patch_core.specs.declared.patch.Patch.{Patch};

    ghost Value = { List Patch };

    ghost coded = { Prim.hlevel (codes, snap.the_row.coded) };

    ghost view = { λ p. p.patches };

    ghost invariant = { λ p. length p.patches < 2147483648 };
}

impl Patches {
    /// No patches; memory is taken from `alloc` as the list grows.
    pub fn new(alloc: Global) -> Patches
        ensures { result ≡ [] }
    {
        Patches {
            patches: Parts::new(alloc),
        }
    }

    /// How many patches there are.
    pub fn len(&self) -> usize
        ensures length { result ≡ length self.now }
        ensures few { length self.now < 2147483648 }
    {
        self.patches.len()
    }

    /// Whether there are none.
    pub fn is_empty(&self) -> bool
        ensures { IsTrue result ↔ (self.now ≡ []) }
    {
        self.patches.is_empty()
    }

    /// The patches as a slice.
    pub fn as_slice(&self) -> &[Patch]
        ensures { result.now ≡ self.now }
    {
        self.patches.as_slice()
    }

    /// The patch at an index, or none where there are not so many.
    pub fn get(&self, at: usize) -> Option<&Patch>
        ensures { option_copied result ≡ slice_get self.now at }
    {
        self.patches.get(at)
    }

    /// Adds a patch at the end. It is gone where memory runs out, which is said of a full list too.
    pub fn push(&mut self, patch: Patch) -> Result<(), AllocError>
        ensures ok { OnOk result (self.new ≡ self.old ++ patch ∷ []) }
        ensures err { OnErr result (self.new ≡ self.old) }
    {
        if self.patches.len() + 1 >= LIMIT {
            return Err(AllocError);
        }
        self.patches.push(patch)
    }

    /// Adds the patches of another list at the end. They are gone where memory runs out, which is said of a full
    /// list too.
    pub fn extend(&mut self, others: Patches) -> Result<(), AllocError>
        ensures ok { OnOk result (self.new ≡ self.old ++ others) }
        ensures err { OnErr result (self.new ≡ self.old) }
    {
        if others.len() >= LIMIT - self.patches.len() {
            return Err(AllocError);
        }
        let Patches { patches } = others;
        self.patches.extend(patches)
    }

    /// Leaves the first `len` patches; all of them where there are no more.
    pub fn truncate(&mut self, len: usize)
        ensures { self.new ≡ take len self.old }
    {
        self.patches.truncate(len);
    }

    /// An equal list.
    pub fn clone_in(&self) -> Result<Patches, AllocError>
        ensures { Gives result self.now }
    {
        let alloc = self.patches.allocator();
        let mut copy = Patches::new(alloc);
        for patch in self.as_slice() {
            copy.push(patch.clone_in(alloc)?)?;
        }
        Ok(copy)
    }
}

#[tactic(auto, using(crate::proofs::TakenBack::back_push))]
/// The inverses of patches, last first, which take the whole list back.
pub fn reversed(alloc: Global, patches: &Patches) -> Result<Patches, PatchError>
    ensures ok { Gives result (back patches.now) }
    ensures err { IfErr result (λ error. error ≡ PatchError.Memory) }
{
    let mut inverses = Patches::new(alloc);
    for patch in patches.as_slice().iter().rev() {
        inverses.push(inverse(alloc, patch)?)?;
    }
    Ok(inverses)
}
