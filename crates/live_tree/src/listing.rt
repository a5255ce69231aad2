//! Writing lists of patches, and putting patches back.
ghost use Rattle.std.specs.Prelude.{◌≡◌, ◌≤◌, All, OnOk, OnErr, IfOk, IfErr};
ghost use Rattle.patch_core.specs.Application.{HasValue};
ghost use Rattle.patch_core.specs.Printing.{HasPlainValues};
ghost use Rattle.edit_core.specs.Logged.{before_log};
ghost use Rattle.node_core.specs.View.{labelled, edits_of};
ghost use Rattle.tree_core.specs.Answers.{Answers};
ghost use Rattle.tree_core.specs.Listing.{list_written};
ghost use Rattle.tree_core.specs.State.{mark_of, rolled_back};
ghost use Rattle.tree_core.specs.Written.{changed};
ghost use Rattle.tree_core.specs.Recorded.{after_list, tree_in, Leaves};
ghost use Rattle.tree_lists.specs.Restoring.{restored, after_restoring};
ghost use Rattle.live_tree.specs.Contents.{state};
ghost use Rattle.live_tree.specs.Inside.{IsWell};
ghost use Rattle.live_tree.specs.Laws.{CanBeTakenBack, given_back};

use crate::tree::Tree;
use patch_core::Patches;
use std::alloc::{AllocError, Global};
use tree_core::{Changed, TreeError};
use tree_lists::{restore, write_list};
use type_core::Types;

impl Tree {
    /// Writes a list of patches on the root's behalf, all or nothing: after an error all is as before.
    pub fn write_list(
        &mut self,
        alloc: Global,
        types: &Types,
        patches: &Patches,
    ) -> Result<(), TreeError>
        requires values { All HasValue patches.now }
        requires plain { All HasPlainValues patches.now }
        ensures outcome { Leaves result (after_list types.now patches.now (state self.old)) (state self.new) }
        ensures unchanged { OnErr result (state self.new ≡ state self.old) }
        ensures undone { OnOk result (rolled_back (mark_of (state self.old)) (state self.new) ≡ given_back (state self.old) (state self.new)) }
        ensures later { (state self.old).next ≤ (state self.new).next }
        ensures kept { CanBeTakenBack (state self.old) (state self.new) }
    {
        let change = self.list_change(alloc, types, patches)?;
        Ok(self.record(alloc, change)?)
    }

    /// What a list of patches makes of the tree.
    fn list_change(
        &self,
        alloc: Global,
        types: &Types,
        patches: &Patches,
    ) -> Result<Changed, TreeError>
        requires values { All HasValue patches.now }
        requires plain { All HasPlainValues patches.now }
        ensures outcome { Answers changed result (list_written types.now patches.now (tree_in (state self.now))) }
        ensures undone { IfOk result (λ c. before_log (edits_of c.edits) (labelled c.value) ≡ labelled self.now.root) }
        ensures well { IfOk result (λ c. IsWell c.next (labelled c.value)) }
        ensures later { IfOk result (λ c. self.now.next ≤ c.next) }
    {
        write_list(alloc, types, patches.as_slice(), &self.whole())
    }

    /// Puts patches back, each as it stands: nothing is refused, what comes in has new nodes, and a patch that names no
    /// place of the tree changes nothing. After want of memory all is as before.
    pub fn put_back(
        &mut self,
        alloc: Global,
        types: &Types,
        patches: &Patches,
    ) -> Result<(), TreeError>
        requires values { All HasValue patches.now }
        requires plain { All HasPlainValues patches.now }
        ensures ok { OnOk result (state self.new ≡ after_restoring types.now patches.now (state self.old)) }
        ensures memory { IfErr result (λ error. error ≡ TreeError.Memory) }
        ensures unchanged { OnErr result (state self.new ≡ state self.old) }
        ensures undone { OnOk result (rolled_back (mark_of (state self.old)) (state self.new) ≡ given_back (state self.old) (state self.new)) }
        ensures later { (state self.old).next ≤ (state self.new).next }
        ensures kept { CanBeTakenBack (state self.old) (state self.new) }
    {
        let change = self.restored(alloc, types, patches)?;
        Ok(self.record(alloc, change)?)
    }

    /// What patches that are put back make of the tree.
    fn restored(
        &self,
        alloc: Global,
        types: &Types,
        patches: &Patches,
    ) -> Result<Changed, AllocError>
        requires values { All HasValue patches.now }
        requires plain { All HasPlainValues patches.now }
        ensures outcome { IfOk result (λ c. changed c ≡ restored types.now patches.now (tree_in (state self.now))) }
        ensures undone { IfOk result (λ c. before_log (edits_of c.edits) (labelled c.value) ≡ labelled self.now.root) }
        ensures well { IfOk result (λ c. IsWell c.next (labelled c.value)) }
        ensures later { IfOk result (λ c. self.now.next ≤ c.next) }
    {
        restore(alloc, types, patches.as_slice(), &self.whole())
    }
}
