//! What views of a document answer.
ghost use Rattle.std.specs.Prelude.{◌≡◌, ◌+◌, ◌≤◌, ◌++◌, ◌∷◌, [], IfOk};
ghost use Rattle.snap_core.specs.Value.{IsPlain};
ghost use Rattle.snap_core.specs.View.{view};
ghost use Rattle.expr_core.specs.Schema.{views_of};
ghost use Rattle.live_tree.specs.Contents.{state};
ghost use Rattle.doc_core.specs.Answers.{Answers};
ghost use Rattle.doc_core.specs.Viewing.{viewed, most_steps};

use crate::document::Document;
use crate::error::DocError;
use expr_core::Schema;
use expr_syntax::Steps;
use pointer_core::{Pointer, Refusal, Rule};
use schema_views::{answer_view, view_at};
use snap_core::{Snap, Txt};
use std::alloc::{AllocError, Global};
use std::sync::ledger::Ledger;

impl Document {
    /// What a view of the node at a pointer answers, as `schema_views` tells it. Refused `path` where the pointer is no
    /// place, and `unknown`, at the place and the name, where no model node is there or its model has no such view; then
    /// as evaluating is refused.
    pub fn view<L: Ledger>(
        &self,
        alloc: Global,
        schema: &Schema,
        path: &Pointer,
        name: &str,
        steps: &mut Steps<L>,
    ) -> Result<Snap, DocError>
        ensures outcome { Answers view result (viewed schema.now.types (views_of schema.now) path.now name.now (state self.now).tree) }
        ensures plain { IfOk result (λ answer. IsPlain (view answer)) }
        ensures ticks { steps.new ≤ steps.old + most_steps schema.now.types (views_of schema.now) path.now name.now (state self.now).tree }
    {
        let place = self.tree.at(alloc, path)?;
        match view_at(&self.tree, schema, &place, name) {
            Some(of) => Ok(answer_view(alloc, &self.tree, schema, of, steps)?),
            None => Err(unknown(alloc, path, name)?),
        }
    }
}

/// The refusal of a name that nothing of the node at a place has.
pub fn unknown(alloc: Global, path: &Pointer, name: &str) -> Result<DocError, AllocError>
    ensures { IfOk result (λ error. error ≡ DocError.Refused (record { path = path.now ++ name.now ∷ []; rule = Rule.Unknown })) }
{
    let mut path = path.clone_in()?;
    path.push(Txt::copy(alloc, name)?)?;
    Ok(DocError::Refused(Refusal {
        path,
        rule: Rule::Unknown,
    }))
}
