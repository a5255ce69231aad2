//! Nodes, places and changes, as calls name them.
ghost use Rattle.std.specs.Prelude.{IfOk, IfSome};
ghost use Rattle.snap_core.specs.Value.{IsPlain, ArePlainMembers};
ghost use Rattle.snap_core.specs.View.{view, fields_view};
ghost use Rattle.tree_core.specs.Write.{write_of, WritesPlain};

use crate::fault::Fault;
use crate::session::Session;
use list_core::Parts;
use pointer_core::Pointer;
use snap_core::{Field, NodeNo, Snap, Txt, find};
use std::alloc::Global;
use tree_core::{Change, Place};
use tree_reading::Held;
use type_core::Types;

/// The value under a key.
#[tactic(auto, using(crate::proofs::Plain::keyed, crate::proofs::Plain::plain_at))]
pub fn value_of<'a>(fields: &'a [Field], key: &str) -> Option<&'a Snap>
    requires { ArePlainMembers (fields_view fields.now) }
    ensures { IfSome result (λ value. IsPlain (view value.now)) }
{
    match find(fields, key) {
        Some(value) => Some(value),
        None => None,
    }
}

/// The change that a call makes.
pub fn change_of(alloc: Global, fields: &[Field]) -> Result<Change, Fault>
    requires { ArePlainMembers (fields_view fields.now) }
    ensures { IfOk result (λ change. WritesPlain (write_of change)) }
{
    if let Some(value) = value_of(fields, "set") {
        return Ok(Change::Set(value.clone_in(alloc)?));
    }
    if let Some(value) = value_of(fields, "insert") {
        return Ok(Change::Insert(value.clone_in(alloc)?));
    }
    match value_of(fields, "remove") {
        Some(_) => Ok(Change::Remove),
        None => Err(Fault::NoCase),
    }
}

/// The place of a node that a call writes.
pub fn place_of(alloc: Global, node: NodeNo, fields: &[Field]) -> Result<Place, Fault>
    requires { ArePlainMembers (fields_view fields.now) }
{
    if let Some(Snap::Text(name)) = value_of(fields, "prop") {
        return Ok(Place::Prop(node, Txt::copy(alloc, name.text())?));
    }
    if let Some(Snap::Text(key)) = value_of(fields, "key") {
        return Ok(Place::Key(node, Txt::copy(alloc, key.text())?));
    }
    match value_of(fields, "item") {
        Some(Snap::Int(at)) => match u32::try_from(*at) {
            Ok(at) => Ok(Place::Item(node, at)),
            Err(_) => Err(Fault::NoCase),
        },
        Some(_) => Err(Fault::NoCase),
        None => Ok(Place::Whole(node)),
    }
}

impl Session {
    /// The nodes that run: the root, unless a call says otherwise.
    pub fn running(
        &self,
        alloc: Global,
        types: &Types,
        fields: &[Field],
    ) -> Result<Parts<NodeNo>, Fault>
        requires { ArePlainMembers (fields_view fields.now) }
    {
        if let Some(Snap::List(names)) = value_of(fields, "running") {
            return self.nodes(alloc, types, names.as_slice());
        }
        let mut running = Parts::new(alloc);
        running.push(self.node_at(alloc, types, "")?)?;
        Ok(running)
    }

    /// The nodes that names say.
    pub fn nodes(
        &self,
        alloc: Global,
        types: &Types,
        names: &[Snap],
    ) -> Result<Parts<NodeNo>, Fault> {
        let mut nodes = Parts::new(alloc);
        for name in names {
            nodes.push(self.node(alloc, types, name)?)?;
        }
        Ok(nodes)
    }

    /// The node that a name says: its pointer, or its number among those that are kept.
    pub fn node(&self, alloc: Global, types: &Types, name: &Snap) -> Result<NodeNo, Fault> {
        match name {
            Snap::Text(path) => self.node_at(alloc, types, path.text()),
            Snap::Int(at) => self.kept_at(*at),
            _ => Err(Fault::NoCase),
        }
    }

    fn kept_at(&self, at: i64) -> Result<NodeNo, Fault> {
        let Ok(at) = usize::try_from(at) else {
            return Err(Fault::NoCase);
        };
        match self.kept.get(at) {
            Some(node) => Ok(*node),
            None => Err(Fault::NoCase),
        }
    }

    fn node_at(&self, alloc: Global, types: &Types, path: &str) -> Result<NodeNo, Fault> {
        let pointer = Pointer::parse(alloc, path)?;
        let place = self.tree.at(alloc, &pointer)?;
        match self.tree.held(types, &place) {
            Some(Held::Node(node)) => Ok(node),
            _ => Err(Fault::NoCase),
        }
    }
}
