//! The schema and the tree that the lines of a table are about.
ghost use Rattle.std.specs.Prelude.{◌≡◌, OnOk, None};
ghost use Rattle.list_core.specs.Outcome.{Gives};
ghost use Rattle.snap_core.specs.Value.{IsPlain};
ghost use Rattle.snap_core.specs.View.{view};
ghost use Rattle.type_core.specs.Doubled.{identifiers_of, doubled_of};
ghost use Rattle.tree_core.specs.TypesTyping.{root_type as root_no, model_type as model_no};

use crate::fault::Fault;
use expr_core::Schema;
use list_core::Parts;
use live_tree::{Mark, Tree};
use pointer_core::{Refusal, Rule};
use schema_read::read_schema;
use snap_core::{ModelNo, NodeNo, Snap, TypeNo};
use snap_json::read_snap;
use std::alloc::Global;
use type_core::{Types, doubled, make};

/// A tree, the nodes of it that are kept, and its marks.
#[derive(Drop)]
pub struct Session {
    pub tree: Tree,
    pub kept: Parts<NodeNo>,
    pub marks: Parts<Mark>,
}

/// The schema and the tree of the lines that follow.
#[derive(Drop)]
pub struct Ground {
    schema: Option<Schema>,
    session: Option<Session>,
}

impl Ground {
    /// No schema yet, and no tree.
    pub fn new() -> Ground {
        Ground {
            schema: None,
            session: None,
        }
    }

    /// Has a schema, and no tree yet.
    pub fn set_schema(&mut self, alloc: Global, file: &str) -> Result<(), Fault> {
        self.schema = Some(read_schema(alloc, file.as_bytes())?);
        self.session = None;
        Ok(())
    }

    /// Has a new tree.
    pub fn set_tree(&mut self, alloc: Global, value: &str) -> Result<(), Fault> {
        let Some(schema) = &self.schema else {
            return Err(Fault::NoCase);
        };
        let given = read_snap(alloc, value.as_bytes())?;
        let tree = new_tree(alloc, schema.types(), &given)?;
        self.session = Some(Session {
            tree,
            kept: Parts::new(alloc),
            marks: Parts::new(alloc),
        });
        Ok(())
    }

    /// What a call of the tree comes to.
    pub fn called(&mut self, alloc: Global, call: &str) -> Result<Snap, Fault> {
        let Some(schema) = &self.schema else {
            return Err(Fault::NoCase);
        };
        let Some(session) = &mut self.session else {
            return Err(Fault::NoCase);
        };
        match read_snap(alloc, call.as_bytes())? {
            Snap::Dict(fields) => session.call(alloc, schema.types(), fields.as_slice()),
            _ => Err(Fault::NoCase),
        }
    }
}

/// A tree of what the root's model makes of a value.
fn new_tree(alloc: Global, types: &Types, given: &Snap) -> Result<Tree, Fault>
    requires { IsPlain (view given.now) }
{
    let made = make(alloc, types, root_type(types), Some(given))?;
    let value = once(alloc, types, made)?;
    Ok(Tree::new(alloc, types, value)?)
}

/// The value, unless two models of one type in it have the same identifier.
fn once(alloc: Global, types: &Types, made: Snap) -> Result<Snap, Fault>
    requires plain { IsPlain (view made) }
    ensures none { OnOk result (doubled_of (identifiers_of types.now (view made)) ≡ None) }
    ensures same { Gives result made }
{
    match doubled(alloc, types, &made)? {
        Some(path) => Err(Fault::Refused(Refusal {
            path,
            rule: Rule::Identifier,
        })),
        None => Ok(made),
    }
}

/// The type that is the root's model.
fn root_type(types: &Types) -> TypeNo
    ensures { result.0 ≡ root_no types.now }
{
    own_type(types, types.root())
}

/// A model's own type.
fn own_type(types: &Types, m: ModelNo) -> TypeNo
    ensures { result.0 ≡ model_no types.now m }
{
    match types.own_type(m) {
        Some(t) => t,
        None => TypeNo(0),
    }
}
