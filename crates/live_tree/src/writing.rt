//! Writing a tree.
ghost use Rattle.std.specs.Prelude.{◌≡◌, ◌≤◌, OnOk, OnErr, IfOk, IfErr};
ghost use Rattle.snap_core.specs.Value.{IsPlain};
ghost use Rattle.snap_core.specs.View.{view};
ghost use Rattle.edit_core.specs.Logged.{before_log};
ghost use Rattle.node_core.specs.View.{labelled, edits_of};
ghost use Rattle.tree_core.specs.Answers.{Answers};
ghost use Rattle.tree_core.specs.Writing.{written};
ghost use Rattle.tree_core.specs.Written.{changed, target};
ghost use Rattle.tree_core.specs.Recorded.{state_of, new_tree, after_write, tree_in, Leaves, IsSoundValue, IsTreeOf};
ghost use Rattle.tree_core.specs.State.{rolled_back, mark_of};
ghost use Rattle.tree_core.specs.Write.{write_of, WritesPlain};
ghost use Rattle.live_tree.specs.Contents.{state};
ghost use Rattle.live_tree.specs.Inside.{IsWell};
ghost use Rattle.live_tree.specs.Laws.{CanBeTakenBack, given_back};

use crate::tree::Tree;
use list_core::RoomyParts;
use patch_core::Patches;
use snap_core::Snap;
use std::alloc::Global;
use tree_core::{Change, Changed, New, Target, TreeError, number_new, write_tree};
use type_core::Types;

impl Tree {
    /// A tree of a value, with new nodes.
    #[tactic(auto, using(crate::proofs::Beginning::new_kept, crate::proofs::Beginning::new_state, crate::proofs::Beginning::new_typed))]
    pub fn new(alloc: Global, types: &Types, value: Snap) -> Result<Tree, TreeError>
        requires sound { IsSoundValue types.now (view value) }
        requires plain { IsPlain (view value) }
        ensures made { IfOk result (λ tree. state tree ≡ state_of (new_tree types.now (view value))) }
        ensures typed { IfOk result (λ tree. IsTreeOf types.now (state tree)) }
        ensures memory { IfErr result (λ error. error ≡ TreeError.Memory) }
    {
        let New { value: root, next } = number_new(alloc, types, &value)?;
        Ok(Tree {
            root,
            next,
            calls: RoomyParts::new(alloc),
            patches: Patches::new(alloc),
        })
    }

    /// Writes one place on behalf of running nodes. After an error all is as before.
    pub fn write(
        &mut self,
        alloc: Global,
        types: &Types,
        to: &Target<'_>,
        change: Change,
    ) -> Result<(), TreeError>
        requires plain { WritesPlain (write_of change) }
        ensures outcome { Leaves result (after_write types.now (target to.now) (write_of change) (state self.old)) (state self.new) }
        ensures unchanged { OnErr result (state self.new ≡ state self.old) }
        ensures undone { OnOk result (rolled_back (mark_of (state self.old)) (state self.new) ≡ given_back (state self.old) (state self.new)) }
        ensures later { (state self.old).next ≤ (state self.new).next }
        ensures kept { CanBeTakenBack (state self.old) (state self.new) }
    {
        let changed = self.change_by(alloc, types, to, &change)?;
        self.record(alloc, changed)?;
        Ok(())
    }

    /// What a write makes of the tree.
    #[tactic(auto, using(crate::proofs::Changes::undone, crate::proofs::Changes::well, crate::proofs::Changes::later))]
    fn change_by(
        &self,
        alloc: Global,
        types: &Types,
        to: &Target<'_>,
        change: &Change,
    ) -> Result<Changed, TreeError>
        requires plain { WritesPlain (write_of change.now) }
        ensures outcome { Answers changed result (written types.now (target to.now) (write_of change.now) (tree_in (state self.now))) }
        ensures undone { IfOk result (λ c. before_log (edits_of c.edits) (labelled c.value) ≡ labelled self.now.root) }
        ensures well { IfOk result (λ c. IsWell c.next (labelled c.value)) }
        ensures later { IfOk result (λ c. self.now.next ≤ c.next) }
    {
        write_tree(alloc, types, to, change, &self.whole())
    }
}
