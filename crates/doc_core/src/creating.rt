//! New documents.
ghost use Rattle.std.specs.Prelude.{◌≡◌, ◌<◌, None, length, IfOk, OnOk};
ghost use Rattle.snap_core.specs.Value.{IsPlain};
ghost use Rattle.snap_core.specs.View.{view};
ghost use Rattle.type_core.specs.Doubled.{doubled_of, identifiers_of};
ghost use Rattle.type_core.specs.Sound.{IsSound};
ghost use Rattle.live_tree.specs.Contents.{state};
ghost use Rattle.tree_core.specs.Recorded.{IsSoundValue};
ghost use Rattle.tree_core.specs.TypesTyping.{root_type};
ghost use Rattle.doc_core.specs.Answers.{Answers};
ghost use Rattle.doc_core.specs.Changing.{created, tried, unless_twice};
ghost use Rattle.doc_core.specs.Documents.{IsDocument};

use crate::document::Document;
use crate::error::DocError;
use expr_core::Schema;
use live_tree::Tree;
use pointer_core::{Refusal, Rule};
use snap_core::{Snap, TypeNo};
use std::alloc::Global;
use type_core::{Types, doubled, make};

/// What the root's model makes of a value; refused as `make` refuses it, and then `identifier`, where an identifier
/// stands a second time.
#[tactic(auto, using(crate::proofs::Trying::tried_made, crate::proofs::Trying::tried_refused))]
pub fn try_value(alloc: Global, types: &Types, given: &Snap) -> Result<Snap, DocError>
    requires { IsPlain (view given.now) }
    ensures outcome { Answers view result (tried types.now (view given.now)) }
    ensures sound { IfOk result (λ made. IsSoundValue types.now (view made)) }
    ensures plain { IfOk result (λ made. IsPlain (view made)) }
    ensures types { IsSound types.now }
{
    match make(alloc, types, root_type(types), Some(given)) {
        Ok(made) => once(alloc, types, made),
        Err(error) => Err(DocError::from(error)),
    }
}

// The type that is the root's model.
fn root_type(types: &Types) -> TypeNo
    ensures known { result.0 < length types.now.table.shapes }
    ensures own { result.0 ≡ root_type types.now }
    ensures sound { IsSound types.now }
{
    types.model_type(types.root())
}

// A value, unless an identifier stands twice in it.
fn once(alloc: Global, types: &Types, made: Snap) -> Result<Snap, DocError>
    requires { IsPlain (view made) }
    ensures outcome { Answers view result (unless_twice (doubled_of (identifiers_of types.now (view made))) (view made)) }
    ensures same { IfOk result (λ given. given ≡ made) }
    ensures single { OnOk result (doubled_of (identifiers_of types.now (view made)) ≡ None) }
{
    match doubled(alloc, types, &made)? {
        Some(path) => Err(DocError::Refused(Refusal {
            path,
            rule: Rule::Identifier,
        })),
        None => Ok(made),
    }
}

impl Document {
    /// A document of a value, with new nodes, settled.
    pub fn create(alloc: Global, schema: &Schema, given: &Snap) -> Result<Document, DocError>
        requires { IsPlain (view given.now) }
        ensures outcome { Answers state result (created schema.now.types (view given.now)) }
        ensures document { IfOk result (λ document. IsDocument schema.now.types (state document)) }
    {
        let types = schema.types();
        let made = try_value(alloc, types, given)?;
        let mut tree = Tree::new(alloc, types, made)?;
        tree.settle(alloc, types)?;
        tree.commit();
        Ok(Document { tree })
    }
}
