//! Requests that call an action of a document's node.
ghost use Rattle.std.specs.Prelude.{◌≡◌, ◌<◌, All, Ok, IfOk, OnErr, OnOk};
ghost use Rattle.snap_core.specs.Value.{ArePlain, IsPlain};
ghost use Rattle.snap_core.specs.View.{items_view, view};
ghost use Rattle.patch_core.specs.Printing.{HasPlainValues};
ghost use Rattle.expr_core.specs.Schema.{behaviours_shown};
ghost use Rattle.live_tree.specs.Contents.{state};
ghost use Rattle.doc_core.specs.Acting.{acted_on};
ghost use Rattle.doc_core.specs.Documents.{IsDocument};
ghost use Rattle.doc_core.specs.Staging.{IsAsBefore, IsStagedAfter, StagesAct};
ghost use Rattle.host_core.specs.Answering.{act_done};
ghost use Rattle.host_core.specs.Asking.{Acts};
ghost use Rattle.host_core.specs.Inside.{ActsIn, IsDone, closes, snapshot_of, visit_of};
ghost use Rattle.host_core.specs.Keeping.{IsKept};

use crate::calling::{Call, call_in};
use crate::keeping::finish;
use crate::reading::value_in;
use crate::visit::Visit;
use doc_core::{DocError, Document, Staged};
use expr_syntax::Steps;
use snap_core::{Bytes, Snap};
use std::alloc::AllocError;
use std::marker::Brand;
use std::sync::ledger::{Blank, Ledger};

/// Calls the action that the body names.
pub fn act(visit: &Visit<'_>, document: &mut Document) -> Result<Bytes, AllocError>
    requires { IsDocument visit.now.schema.now.types (state document.old) }
    ensures done { IfOk result (λ bytes. IsDone (closes visit.now) (Acts (visit_of visit.now) (snapshot_of document.old)) bytes (snapshot_of document.new)) }
    ensures document { IsDocument visit.now.schema.now.types (state document.new) }
    ensures err { OnErr result (snapshot_of document.new ≡ snapshot_of document.old) }
{
    match value_in(visit)? {
        Ok(body) => act_by(visit, document, &body),
        Err(reply) => Ok(reply),
    }
}

// Calls the action of a body that was read.
fn act_by(visit: &Visit<'_>, document: &mut Document, body: &Snap) -> Result<Bytes, AllocError>
    requires document { IsDocument visit.now.schema.now.types (state document.old) }
    requires plain { IsPlain (view body.now) }
    ensures done { IfOk result (λ bytes. IsDone (closes visit.now) (ActsIn (visit_of visit.now) (Ok (view body.now)) (state document.old)) bytes (snapshot_of document.new)) }
    ensures document { IsDocument visit.now.schema.now.types (state document.new) }
    ensures err { OnErr result (snapshot_of document.new ≡ snapshot_of document.old) }
{
    match call_in(visit, body)? {
        Ok(call) => act_on(visit, document, &call),
        Err(reply) => Ok(reply),
    }
}

fn act_on(visit: &Visit<'_>, document: &mut Document, call: &Call<'_>) -> Result<Bytes, AllocError>
    requires document { IsDocument visit.now.schema.now.types (state document.old) }
    requires plain { ArePlain (items_view call.now.given.now) }
    ensures done { IfOk result (λ bytes. IsKept (closes visit.now) (act_done (state document.old)
        (acted_on visit.now.schema.now.types (behaviours_shown visit.now.schema.now) call.now.path call.now.name.now (items_view call.now.given.now) (state document.old)))
        bytes (snapshot_of document.new)) }
    ensures document { IsDocument visit.now.schema.now.types (state document.new) }
    ensures err { OnErr result (snapshot_of document.new ≡ snapshot_of document.old) }
{
    let outcome = act_counted::<Brand>(visit, document, call, Blank::new(1));
    finish(visit, document, outcome)
}

// What the action did, its steps counted on a new ledger.
fn act_counted<L: Ledger>(
    visit: &Visit<'_>,
    document: &mut Document,
    call: &Call<'_>,
    blank: Blank,
) -> Result<Staged, DocError>
    requires name { blank.name ≡ L.name }
    requires parts { blank.parts ≡ L.parts }
    requires some { 0 < blank.parts }
    requires document { IsDocument visit.now.schema.now.types (state document.old) }
    requires plain { ArePlain (items_view call.now.given.now) }
    ensures outcome { StagesAct result
        (acted_on visit.now.schema.now.types (behaviours_shown visit.now.schema.now) call.now.path call.now.name.now (items_view call.now.given.now) (state document.old))
        (state document.new) }
    ensures staged { OnOk result (IsStagedAfter visit.now.schema.now.types (state document.old) (state document.new)) }
    ensures unchanged { OnErr result (IsAsBefore (state document.old) (state document.new)) }
    ensures plain { IfOk result (λ staged. All HasPlainValues staged.patches) }
{
    let mut steps = Steps::<L>::new(blank);
    document.act(
        visit.alloc,
        visit.schema,
        &call.path,
        call.name,
        call.given,
        &mut steps,
    )
}
