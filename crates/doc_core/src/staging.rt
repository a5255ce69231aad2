//! Requests that change a document: staged first, then kept by `commit` or taken back by `cancel`.
ghost use Rattle.std.specs.Prelude.{◌≡◌, All, None, IfOk, IfErr, OnOk, OnErr};
ghost use Rattle.snap_core.specs.Value.{IsPlain};
ghost use Rattle.snap_core.specs.View.{view};
ghost use Rattle.patch_core.specs.Application.{HasValue};
ghost use Rattle.patch_core.specs.Printing.{HasPlainValues};
ghost use Rattle.tree_core.specs.Recorded.{after_settling};
ghost use Rattle.tree_core.specs.State.{State, mark_of, patches_of};
ghost use Rattle.tree_core.specs.Written.{target};
ghost use Rattle.live_tree.specs.Contents.{state};
ghost use Rattle.live_tree.specs.Laws.{CanBeTakenBack};
ghost use Rattle.doc_core.specs.Changing.{patched, replaced, root_written};
ghost use Rattle.doc_core.specs.Documents.{IsDocument};
ghost use Rattle.doc_core.specs.Staging.{Stages, IsAsBefore, IsStagedAfter, Leaves, Settles};

use crate::document::{Document, Staged};
use crate::error::DocError;
use expr_core::Schema;
use live_tree::{Mark, Tree};
use patch_core::Patches;
use pointer_core::{Pointer, Refusal, Rule};
use snap_core::{NodeNo, Snap};
use std::alloc::Global;
use tree_core::{Change, Place, Target, TreeError};
use type_core::Types;

impl Document {
    /// Applies patches, each in turn, as the root's own writes, and settles the document. After an error all is as
    /// before.
    pub fn apply_patches(
        &mut self,
        alloc: Global,
        schema: &Schema,
        patches: &Patches,
    ) -> Result<Staged, DocError>
        requires document { IsDocument schema.now.types (state self.old) }
        requires values { All HasValue patches.now }
        requires plain { All HasPlainValues patches.now }
        ensures outcome { Stages result (patched schema.now.types patches.now (state self.old)) (state self.new) }
        ensures staged { OnOk result (IsStagedAfter schema.now.types (state self.old) (state self.new)) }
        ensures unchanged { OnErr result (IsAsBefore (state self.old) (state self.new)) }
        ensures plain { IfOk result (λ staged. All HasPlainValues staged.patches) }
    {
        let types = schema.types();
        let mark = self.tree.mark();
        self.tree.write_list(alloc, types, patches)?;
        settle(&mut self.tree, alloc, types, mark)
    }

    /// Writes another snapshot in the place of the document's own, as the root's own write, and settles the document.
    /// After an error all is as before.
    pub fn apply_snapshot(
        &mut self,
        alloc: Global,
        schema: &Schema,
        given: &Snap,
    ) -> Result<Staged, DocError>
        requires document { IsDocument schema.now.types (state self.old) }
        requires plain { IsPlain (view given.now) }
        ensures outcome { Stages result (replaced schema.now.types (view given.now) (state self.old)) (state self.new) }
        ensures staged { OnOk result (IsStagedAfter schema.now.types (state self.old) (state self.new)) }
        ensures unchanged { OnErr result (IsAsBefore (state self.old) (state self.new)) }
        ensures plain { IfOk result (λ staged. All HasPlainValues staged.patches) }
    {
        let types = schema.types();
        let mark = self.tree.mark();
        write_root(&mut self.tree, alloc, types, given)?;
        settle(&mut self.tree, alloc, types, mark)
    }
}

// Writes a value in the root's place.
fn write_root(tree: &mut Tree, alloc: Global, types: &Types, given: &Snap) -> Result<(), DocError>
    requires { IsPlain (view given.now) }
    ensures outcome { Leaves result (root_written types.now (view given.now) (state tree.old)) (state tree.new) }
    ensures kept { CanBeTakenBack (state tree.old) (state tree.new) }
    ensures unchanged { OnErr result (state tree.new ≡ state tree.old) }
{
    let Some(root) = tree.root() else {
        return Err(DocError::Refused(Refusal {
            path: Pointer::new(alloc),
            rule: Rule::Path,
        }));
    };
    let change = Change::Set(given.clone_in(alloc)?);
    let place = Place::Whole(root);
    tree.write(alloc, types, &target_of(&[root], &place), change)?;
    Ok(())
}

// A place that no path names.
fn target_of<'a>(running: &'a [NodeNo], place: &'a Place) -> Target<'a>
    ensures { target result ≡ record { running = running.now; place = place.now; named = None } }
{
    Target {
        running,
        place,
        named: None,
    }
}

/// Settles what was written and tells all patches. After an error the tree is as at the mark.
pub fn settle(tree: &mut Tree, alloc: Global, types: &Types, mark: Mark) -> Result<Staged, DocError>
    ensures settled { IfOk result (λ staged. Settles types.now (state tree.old) (state tree.new) staged) }
    ensures memory { IfErr result (λ error. error ≡ DocError.Memory) }
    ensures kept { OnOk result (CanBeTakenBack (state tree.old) (state tree.new)) }
    ensures unchanged { (before : State) → mark.0 ≡ mark_of before → CanBeTakenBack before (state tree.old)
        → OnErr result (IsAsBefore before (state tree.new)) }
{
    match settle_tree(tree, alloc, types) {
        Ok(patches) => Ok(Staged {
            patches,
            fault: None,
        }),
        Err(_) => {
            tree.roll_back(mark);
            Err(DocError::Memory)
        }
    }
}

fn settle_tree(tree: &mut Tree, alloc: Global, types: &Types) -> Result<Patches, TreeError>
    ensures settled { OnOk result (state tree.new ≡ after_settling types.now (state tree.old)) }
    ensures patches { IfOk result (λ patches. patches ≡ patches_of (state tree.new)) }
    ensures kept { CanBeTakenBack (state tree.old) (state tree.new) }
{
    tree.settle(alloc, types)?;
    Ok(tree.copy_log()?)
}
