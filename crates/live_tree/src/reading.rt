//! What a tree shows: its nodes, its places, and what pointers and identifiers lead to.
ghost use Rattle.std.specs.Prelude.{◌≡◌, min, IfOk, IsSome, Some, MatchResult};
ghost use Rattle.std.specs.Option.{option_copied, option_map};
ghost use Rattle.snap_core.specs.Value.{IsPlain};
ghost use Rattle.snap_core.specs.View.{view};
ghost use Rattle.edit_core.specs.Labelled.{bare};
ghost use Rattle.tree_core.specs.Answers.{Answers};
ghost use Rattle.tree_core.specs.Asking as asking;
ghost use Rattle.tree_core.specs.Reading as specs;
ghost use Rattle.tree_core.specs.TypesTyping.{typing_of};
ghost use Rattle.tree_reading.specs.Held.{held_at};
ghost use Rattle.live_tree.specs.Contents.{state};

use crate::tree::Tree;
use edit_core::Kind;
use pointer_core::Pointer;
use snap_core::{Ident, ModelNo, NodeNo, Snap, Txt};
use std::alloc::Global;
use tree_core::{Place, TreeError};
use tree_reading::{
    Held, depth_to, follow, held_at, key_at, kind_at, path_of, place_at, raw, resolved, show,
    show_node, size_at,
};
use type_core::Types;

impl Tree {
    /// The value of a node; refused `dead` where it is dead.
    pub fn snapshot(&self, alloc: Global, n: NodeNo) -> Result<Snap, TreeError>
        ensures { Answers view result (asking.node_shown n.0 (state self.now).tree) }
    {
        show_node(alloc, &self.root, n)
    }

    /// The pointer of a node; refused `dead` where it is dead.
    pub fn path_of(&self, alloc: Global, n: NodeNo) -> Result<Pointer, TreeError>
        ensures { Answers (λ path. path) result (asking.node_path n.0 (state self.now).tree) }
    {
        path_of(alloc, &self.root, n)
    }

    /// How many tokens a node's pointer has, or 4294967295 where it has more; none where the node is dead.
    pub fn path_len(&self, n: NodeNo) -> Option<u32>
        ensures { result ≡ option_map (λ depth. min depth 4294967295) (specs.depth_to n.0 (state self.now).tree) }
    {
        depth_to(&self.root, n, 4_294_967_295)
    }

    /// The place that a pointer names: the root as a whole, or a place in the node that holds it; refused `path` where
    /// it is no place.
    pub fn at(&self, alloc: Global, path: &Pointer) -> Result<Place, TreeError>
        ensures { Answers (λ place. place) result (asking.place_at path.now (state self.now).tree) }
    {
        place_at(alloc, &self.root, path)
    }

    /// The value at a place of the tree.
    pub fn raw(&self, alloc: Global, place: &Place) -> Result<Snap, TreeError>
        requires { IsSome (specs.part_at_place place.now (state self.now).tree) }
        ensures { MatchResult result
            (λ value. Some (view value) ≡ option_map bare (specs.part_at_place place.now (state self.now).tree))
            (λ error. error ≡ TreeError.Memory) }
    {
        Ok(raw(alloc, &self.root, place)?)
    }

    /// The node of a model with an identifier; none where there is none. A text and a number are never the same
    /// identifier.
    pub fn resolve(&self, types: &Types, m: ModelNo, identifier: &Ident) -> Option<NodeNo>
        ensures { option_map (λ n. n.0) result ≡ specs.resolved (typing_of types.now.table) m identifier.now (state self.now).tree }
    {
        resolved(&self.root, types, m, identifier)
    }

    /// What a node is; none where it is dead.
    pub fn kind(&self, n: NodeNo) -> Option<Kind>
        ensures { result ≡ specs.kind_at n.0 (state self.now).tree }
    {
        kind_at(&self.root, n)
    }

    /// What stands at a place; none where it is no place of the tree.
    pub fn held(&self, types: &Types, place: &Place) -> Option<Held>
        ensures { result ≡ held_at types.now.table place.now (state self.now).tree }
    {
        held_at(&self.root, types, place)
    }

    /// How many items, values or properties a node has; none where it is dead.
    pub fn len(&self, n: NodeNo) -> Option<usize>
        ensures { result ≡ specs.size_at n.0 (state self.now).tree }
    {
        size_at(&self.root, n)
    }

    /// A key of a map, counted from 0 in ascending order; none where the node is dead or no map, or has not so many
    /// values.
    pub fn key(&self, n: NodeNo, i: usize) -> Option<&Txt>
        ensures { option_copied result ≡ specs.key_at n.0 i (state self.now).tree }
    {
        key_at(&self.root, n, i)
    }

    /// The value at a pointer; refused `path` where it is no place. Frozen values and references aren't entered.
    pub fn show(&self, alloc: Global, path: &Pointer) -> Result<Snap, TreeError>
        ensures outcome { Answers view result (asking.shown path.now (state self.now).tree) }
        ensures plain { IfOk result (λ value. IsPlain (view value)) }
    {
        show(alloc, &self.root, path)
    }

    /// Where the reference at a pointer leads; none where it holds null. Refused `path` where the pointer is no place,
    /// `kind` where the place is none of references, and `reference` where no node has the identifier.
    pub fn follow(
        &self,
        alloc: Global,
        types: &Types,
        path: &Pointer,
    ) -> Result<Option<Pointer>, TreeError>
        ensures { Answers (λ target. target) result (asking.led_from types.now path.now (state self.now).tree) }
    {
        follow(alloc, &self.root, types, path)
    }
}
