//! What a change leaves of a tree: the snapshot before it is kept, so that it can be taken back.
ghost use Rattle.std.specs.Prelude.{◌≡◌, ◌≤◌, ◌++◌, map, OnOk, OnErr, IfOk};
ghost use Rattle.list_core.specs.Outcome.{Gives};
ghost use Rattle.edit_core.specs.Logged.{before_log, patch_of_logged};
ghost use Rattle.node_core.specs.View.{labelled, edits_of};
ghost use Rattle.tree_core.specs.State.{mark_of, rolled_back};
ghost use Rattle.tree_core.specs.Written.{changed};
ghost use Rattle.tree_core.specs.Recorded.{with_change};
ghost use Rattle.live_tree.specs.Contents.{state};
ghost use Rattle.live_tree.specs.Inside.{IsWell};
ghost use Rattle.live_tree.specs.Laws.{CanBeTakenBack, given_back};

use crate::call::Call;
use crate::tree::Tree;
use node_core::LoggedEdit;
use patch_core::Patches;
use std::alloc::{AllocError, Global};
use std::mem;
use tree_core::Changed;

impl Tree {
    /// Records a change as one call; one without edits leaves all as it is.
    #[tactic(auto, using(crate::proofs::KeptCalls::kept_more, crate::proofs::KeptCalls::state_more, crate::proofs::KeptCalls::nothing_recorded))]
    pub(crate) fn record(&mut self, alloc: Global, change: Changed) -> Result<(), AllocError>
        requires undone { before_log (edits_of change.edits) (labelled change.value) ≡ labelled self.old.root }
        requires well { IsWell change.next (labelled change.value) }
        requires later { self.old.next ≤ change.next }
        ensures ok { OnOk result (state self.new ≡ with_change (changed change) (state self.old)) }
        ensures err { OnErr result (self.new ≡ self.old) }
        ensures undone { OnOk result (rolled_back (mark_of (state self.old)) (state self.new) ≡ given_back (state self.old) (state self.new)) }
        ensures kept { CanBeTakenBack (state self.old) (state self.new) }
    {
        if change.edits.is_empty() {
            return Ok(());
        }
        let patches = patches_of(alloc, change.edits.as_slice())?;
        self.calls.reserve(1)?;
        self.patches.extend(patches)?;
        let Changed { value, edits, next } = change;
        let before = mem::replace(&mut self.root, value);
        self.calls.append(Call { edits, before });
        self.next = next;
        Ok(())
    }
}

/// Edits as patches, without their labels.
fn patches_of(alloc: Global, edits: &[LoggedEdit]) -> Result<Patches, AllocError>
    ensures { Gives result (map patch_of_logged (edits_of edits.now)) }
{
    let mut patches = Patches::new(alloc);
    for edit in edits {
        patches.push(edit.patch(alloc)?)?;
    }
    Ok(patches)
}
