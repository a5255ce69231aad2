//! What a document shows.
ghost use Rattle.std.specs.Prelude.{IfOk};
ghost use Rattle.snap_core.specs.Value.{IsPlain};
ghost use Rattle.snap_core.specs.View.{view};
ghost use Rattle.tree_core.specs.Asking.{led_from, shown};
ghost use Rattle.live_tree.specs.Contents.{state};
ghost use Rattle.doc_core.specs.Answers.{Answers};

use crate::document::Document;
use crate::error::DocError;
use expr_core::Schema;
use pointer_core::Pointer;
use snap_core::Snap;
use std::alloc::Global;

impl Document {
    /// The value at a pointer; refused `path` where it is no place. Frozen values and references aren't entered.
    pub fn snapshot(&self, alloc: Global, path: &Pointer) -> Result<Snap, DocError>
        ensures outcome { Answers view result (shown path.now (state self.now).tree) }
        ensures plain { IfOk result (λ value. IsPlain (view value)) }
    {
        Ok(self.tree.show(alloc, path)?)
    }

    /// Where the reference at a pointer leads; none where it holds null. Refused `path` where the pointer is no place,
    /// `kind` where the place is none of references, and `reference` where no node has the identifier.
    pub fn resolve(
        &self,
        alloc: Global,
        schema: &Schema,
        path: &Pointer,
    ) -> Result<Option<Pointer>, DocError>
        ensures { Answers (λ target. target) result (led_from schema.now.types path.now (state self.now).tree) }
    {
        Ok(self.tree.follow(alloc, schema.types(), path)?)
    }
}
