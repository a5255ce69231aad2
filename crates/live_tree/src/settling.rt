//! Settling a tree.
ghost use Rattle.std.specs.Prelude.{◌≡◌, ◌≤◌, OnOk, OnErr, IfOk, IfErr};
ghost use Rattle.snap_core.specs.Value.{IsPlain};
ghost use Rattle.edit_core.specs.Labelled.{bare};
ghost use Rattle.edit_core.specs.Logged.{before_log};
ghost use Rattle.edit_core.specs.Plain.{IsShort};
ghost use Rattle.node_core.specs.View.{labelled, edits_of};
ghost use Rattle.tree_core.specs.Recorded.{after_settling, tree_in, GoesOn};
ghost use Rattle.tree_core.specs.Settling.{settled};
ghost use Rattle.tree_core.specs.State.{mark_of, rolled_back};
ghost use Rattle.tree_core.specs.Written.{changed};
ghost use Rattle.live_tree.specs.Contents.{state};
ghost use Rattle.live_tree.specs.Inside.{IsWell};
ghost use Rattle.live_tree.specs.Laws.{CanBeTakenBack, given_back};

use crate::tree::Tree;
use std::alloc::{AllocError, Global};
use tree_core::{Changed, TreeError};
use tree_reading::{Settled, settle};
use type_core::Types;

impl Tree {
    /// Clears the safe references that lead to no node: a property becomes null, a value of a map goes, and so do items
    /// of an array, last to first. After want of memory all is as before.
    pub fn settle(&mut self, alloc: Global, types: &Types) -> Result<(), TreeError>
        ensures ok { OnOk result (state self.new ≡ after_settling types.now (state self.old)) }
        ensures memory { IfErr result (λ error. error ≡ TreeError.Memory) }
        ensures unchanged { OnErr result (state self.new ≡ state self.old) }
        ensures undone { OnOk result (rolled_back (mark_of (state self.old)) (state self.new) ≡ given_back (state self.old) (state self.new)) }
        ensures later { (state self.old).next ≤ (state self.new).next }
        ensures kept { CanBeTakenBack (state self.old) (state self.new) }
        ensures leads { IsShort (bare (state self.old).tree) → OnOk result (GoesOn (state self.old) (state self.new)) }
    {
        let change = self.settled(alloc, types)?;
        Ok(self.record(alloc, change)?)
    }

    /// What settling makes of the tree.
    #[tactic(auto, using(crate::proofs::SettledTree::settled_is))]
    fn settled(&self, alloc: Global, types: &Types) -> Result<Changed, AllocError>
        ensures outcome { IfOk result (λ c. changed c ≡ settled types.now (tree_in (state self.now))) }
        ensures undone { IfOk result (λ c. before_log (edits_of c.edits) (labelled c.value) ≡ labelled self.now.root) }
        ensures well { IfOk result (λ c. IsWell c.next (labelled c.value)) }
        ensures later { IfOk result (λ c. self.now.next ≤ c.next) }
        ensures plain { IsPlain (bare (labelled self.now.root)) }
    {
        let Settled { value, edits } = settle(alloc, types, &self.root)?;
        Ok(Changed {
            value,
            edits,
            next: self.next,
        })
    }
}
