ghost use Rattle.std.specs.Prelude.{◌≡◌, ◌-◌, length};
ghost use Rattle.list_core.specs.Outcome.{Gives};
ghost use Rattle.tree_core.specs.State.{State, mark_of, rolled_back, without_newest, committed, patches_of};
ghost use Rattle.live_tree.specs.Laws.{CanBeTakenBack, given_back};
ghost use Rattle.std.specs.Option.{option_map};
ghost use Rattle.snap_core.specs.Value.{IsPlain};
ghost use Rattle.edit_core.specs.Labelled.{bare};
ghost use Rattle.edit_core.specs.Typing.{label_of};
ghost use Rattle.edit_core.specs.Numbers.{AreNumbered};
ghost use Rattle.node_core.specs.View.{labelled, plain};
ghost use Rattle.tree_core.specs.Recorded.{tree_in};
ghost use Rattle.tree_core.specs.Written.{tree};
ghost use Rattle.live_tree.specs.Contents.{state};

use crate::call::Call;
use list_core::RoomyParts;
use node_core::Labelled;
use patch_core::Patches;
use snap_core::NodeNo;
use std::alloc::AllocError;
use std::marker::Model;
use tree_core::Tree as Whole;

/// A point in a tree's log to which it can be rolled back.
#[derive(Clone, Copy, Debug, PartialEq, Eq)]
pub struct Mark(usize);

/// A typed tree whose nodes keep their identity, and what was done to it since the last commit.
#[derive(Debug, Drop)]
pub struct Tree {
    pub(crate) root: Labelled,
    pub(crate) next: usize,
    pub(crate) calls: RoomyParts<Call>,
    pub(crate) patches: Patches,
}

impl Model for Tree {
    ghost use Rattle.live_tree.specs.Contents.{Contents};
    ghost use Rattle.std.specs.Coded.{codes};
    ghost use Rattle.snap_core.specs.contracts.snap.Snap as snap;
    ghost use Rattle.node_core.specs.contracts.labelled.Labelled as labelled;

    ghost Value = { Contents };

    ghost coded = { Prim.hlevel (codes, snap.the_row.coded, labelled.the_row.coded) };

    ghost use Rattle.live_tree.specs.Inside.{contents, IsKept};

    ghost view = { λ t. contents t.root t.next t.calls.items };

    ghost invariant = { λ t. IsKept (contents t.root t.next t.calls.items) t.calls.items t.patches };
}

impl Mark {
    /// The mark of the last commit.
    pub fn of_commit() -> Mark
        ensures { result.0 ≡ 0 }
    {
        Mark(0)
    }
}

impl Tree {
    /// The mark of the tree as it is.
    pub fn mark(&self) -> Mark
        ensures mark { result.0 ≡ mark_of (state self.now) }
        ensures plain { IsPlain (bare (state self.now).tree) }
    {
        Mark(self.patches.len())
    }

    /// The patches since the last commit.
    pub fn log(&self) -> &Patches
        ensures { result.now ≡ patches_of (state self.now) }
    {
        &self.patches
    }

    /// A copy of the patches since the last commit.
    pub fn copy_log(&self) -> Result<Patches, AllocError>
        ensures { Gives result (patches_of (state self.now)) }
    {
        self.patches.clone_in()
    }

    #[tactic(auto, using(crate::proofs::RollingBack::taken_back, crate::proofs::RollingBack::at_mark))]
    /// Takes back what was done since a mark: the very nodes of then are there again. Numbers that were given out
    /// since are not given out again.
    pub fn roll_back(&mut self, mark: Mark)
        ensures state { state self.new ≡ rolled_back mark.0 (state self.old) }
        ensures back { (before : State) → mark.0 ≡ mark_of before → CanBeTakenBack before (state self.old)
            → state self.new ≡ given_back before (state self.old) }
    {
        while self.mark().0 > mark.0 {
            self.take_back();
        }
    }

    /// Takes the newest call back.
    fn take_back(&mut self)
        ensures state { state self.new ≡ without_newest (state self.old) }
        ensures fewer { length self.new.calls ≡ length self.old.calls - 1 }
    {
        if let Some(Call { edits, before }) = self.calls.pop() {
            self.patches.truncate(self.patches.len() - edits.len());
            self.root = before;
        }
    }

    /// The root as a node; none where the tree is a plain value.
    pub fn root(&self) -> Option<NodeNo>
        ensures { option_map (λ n. n.0) result ≡ option_map (λ l. l.number) (label_of (state self.now).tree) }
    {
        match &self.root {
            Labelled::Leaf(_) => None,
            Labelled::Array(label, _) | Labelled::Record(label, _) => Some(label.number),
        }
    }

    /// The labelled snapshot and the next number, as definitions of writing see them.
    pub fn whole(&self) -> Whole<'_>
        ensures tree { tree result ≡ tree_in (state self.now) }
        ensures numbered { AreNumbered result.next (labelled result.root.now) }
        ensures plain { IsPlain (plain result.root.now) }
    {
        Whole {
            root: &self.root,
            next: self.next,
        }
    }

    /// Keeps what was done for good: it can't be rolled back any more.
    pub fn commit(&mut self)
        ensures { state self.new ≡ committed (state self.old) }
    {
        self.calls.truncate(0);
        self.patches.truncate(0);
    }
}
