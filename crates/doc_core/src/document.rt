ghost use Rattle.std.specs.Prelude.{◌≡◌, []};
ghost use Rattle.live_tree.specs.Contents.{state};
ghost use Rattle.live_tree.specs.Laws.{CanBeTakenBack};
ghost use Rattle.tree_core.specs.State.{State, committed};
ghost use Rattle.doc_core.specs.Staging.{IsAsBefore};

use live_tree::{Mark, Tree};
use patch_core::Patches;
use pointer_core::Refusal;
use std::marker::Model;

/// A document of a schema, which each of its calls is given again. Contracts see its labelled snapshot and what is
/// staged.
#[derive(Debug, Drop)]
pub struct Document {
    pub(crate) tree: Tree,
}

impl Model for Document {
    ghost use Rattle.live_tree.specs.Contents.{Contents};
    ghost use Rattle.live_tree.specs.contracts.tree.Tree as live;

    ghost Value = { Contents };

    ghost coded = { live.the_row.coded };

    ghost view = { λ d. d.tree };
}

/// What a request did to a document, which can still be taken back: its patches, those of settling last. A refused action
/// keeps what it wrote before, unless a middleware took that back; so its refusal stands beside the patches.
#[derive(Debug, Drop)]
pub struct Staged {
    pub patches: Patches,
    pub fault: Option<Refusal>,
}

impl Document {
    /// Keeps what is staged for good.
    pub fn commit(&mut self)
        ensures { state self.new ≡ committed (state self.old) }
    {
        self.tree.commit();
    }

    /// Takes back what is staged: the very nodes of before are there again.
    pub fn cancel(&mut self)
        ensures { (before : State) → before.calls ≡ [] → CanBeTakenBack before (state self.old) → IsAsBefore before (state self.new) }
    {
        self.tree.roll_back(Mark::of_commit());
    }
}
