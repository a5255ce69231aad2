ghost use Rattle.std.specs.Prelude.{[]};
ghost use Rattle.list_core.specs.Outcome.{Gives};

use crate::answer::answer_asked;
use crate::held::Held;
use crate::visit::Visit;
use expr_core::Schema;
use http_front::Request;
use link_core::Handler;
use route_core::Routes;
use snap_core::Bytes;
use std::alloc::{AllocError, Global};
use std::marker::Model;

/// Documents of one schema, by their names. Contracts see the schema, and the name and the snapshot of each document.
#[derive(Drop)]
pub struct Host {
    schema: Schema,
    routes: Routes,
    docs: Vec<Held>,
}

impl Model for Host {
    ghost use Rattle.std.specs.Prelude.{map};
    ghost use Rattle.std.specs.Coded.{codes};
    ghost use Rattle.snap_core.specs.contracts.snap.Snap as snap;
    ghost use Rattle.expr_syntax.specs.contracts.expr.Form as form;
    ghost use Rattle.expr_syntax.specs.contracts.stmt.Stmt as stmt;
    ghost use Rattle.host_core.specs.Host.{Hosted};
    ghost use Rattle.host_core.specs.Inside.{AreHeld, shown_of};

    ghost Value = { Hosted };

    ghost coded = { Prim.hlevel (codes, snap.the_row.coded, form.the_row.coded, stmt.the_row.coded) };

    ghost view = { λ h. record { schema = h.schema; shown = map shown_of h.docs.items } };

    ghost invariant = { λ h. AreHeld h.schema.types h.docs.items };
}

impl Host {
    /// A host without documents.
    pub fn new(alloc: Global, schema: Schema) -> Result<Host, AllocError>
        ensures { Gives result (record { schema = schema; shown = [] }) }
    {
        Ok(Host {
            schema,
            routes: Routes::new(alloc)?,
            docs: Vec::new(alloc),
        })
    }
}

impl Handler for Host {
    ghost use Rattle.host_core.specs.Host.{Replies};

    ghost replies = { Replies };

    fn answer(&mut self, request: &Request<'_>) -> Result<Bytes, AllocError> {
        let visit = Visit {
            alloc: *self.docs.allocator(),
            schema: &self.schema,
            request,
        };
        let asked = self.routes.asked(request.method, request.path);
        answer_asked(&visit, asked, &mut self.docs)
    }
}
