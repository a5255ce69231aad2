//! Requests on one document.
ghost use Rattle.std.specs.Prelude.{◌≡◌, ◌<◌, All, IfOk, OnErr};
ghost use Rattle.std.specs.Option.{option_copied};
ghost use Rattle.snap_core.specs.Value.{IsPlain, Value};
ghost use Rattle.snap_core.specs.View.{view};
ghost use Rattle.patch_core.specs.Application.{HasValue};
ghost use Rattle.patch_core.specs.Printing.{HasPlainValues};
ghost use Rattle.type_core.specs.Making.{Outcome};
ghost use Rattle.http_front.specs.Reply.{printed};
ghost use Rattle.live_tree.specs.Contents.{state};
ghost use Rattle.tree_core.specs.Asking.{led_from, shown};
ghost use Rattle.doc_core.specs.Answers.{Answers};
ghost use Rattle.doc_core.specs.Changing.{patched, replaced};
ghost use Rattle.doc_core.specs.Documents.{IsDocument};
ghost use Rattle.doc_core.specs.Viewing.{viewed};
ghost use Rattle.expr_core.specs.Schema.{views_of};
ghost use Rattle.host_core.specs.Answering.{answer_of, change_done, target_reply, value_reply};
ghost use Rattle.host_core.specs.Asking.{Changes, Replaces, Resolves, Shows, Views};
ghost use Rattle.host_core.specs.Inside.{IsDone, closes, snapshot_of, visit_of};
ghost use Rattle.host_core.specs.Keeping.{IsKept};

use crate::keeping::finish;
use crate::reading::{patches_in, pointer_in, value_in};
use crate::visit::Visit;
use doc_core::{DocError, Document};
use expr_syntax::Steps;
use host_replies::{answer_reply, node_reply, refusal_reply, snapshot_reply};
use patch_core::Patches;
use pointer_core::Pointer;
use snap_core::{Bytes, Snap};
use std::alloc::AllocError;
use std::marker::Brand;
use std::sync::ledger::{Blank, Ledger};

/// Shows the value at the query's pointer.
pub fn show(visit: &Visit<'_>, document: &Document) -> Result<Bytes, AllocError>
    requires { IsDocument visit.now.schema.now.types (state document.now) }
    ensures { IfOk result (λ bytes. IsDone (closes visit.now) (Shows (visit_of visit.now) (snapshot_of document.now)) bytes (snapshot_of document.now)) }
{
    match pointer_in(visit)? {
        Ok(path) => show_answer(visit, document.snapshot(visit.alloc, &path)),
        Err(reply) => Ok(reply),
    }
}

/// The reply that shows a value, or to its refusal.
pub fn show_answer(visit: &Visit<'_>, answer: Result<Snap, DocError>) -> Result<Bytes, AllocError>
    requires { IfOk answer (λ value. IsPlain (view value)) }
    ensures { (outcome : Outcome Value) → Answers view answer outcome
        → IfOk result (λ bytes. bytes ≡ printed (closes visit.now) (value_reply outcome)) }
{
    match answer {
        Ok(value) => snapshot_reply(visit.alloc, visit.request.close, 200, value),
        Err(DocError::Memory) => Err(AllocError),
        Err(DocError::Refused(refusal)) => {
            refusal_reply(visit.alloc, visit.request.close, &refusal)
        }
    }
}

/// Says where the reference at the query's pointer leads.
pub fn resolve(visit: &Visit<'_>, document: &Document) -> Result<Bytes, AllocError>
    requires { IsDocument visit.now.schema.now.types (state document.now) }
    ensures { IfOk result (λ bytes. IsDone (closes visit.now) (Resolves (visit_of visit.now) (snapshot_of document.now)) bytes (snapshot_of document.now)) }
{
    match pointer_in(visit)? {
        Ok(path) => resolve_at(visit, document, &path),
        Err(reply) => Ok(reply),
    }
}

fn resolve_at(visit: &Visit<'_>, document: &Document, path: &Pointer) -> Result<Bytes, AllocError>
    ensures { IfOk result (λ bytes. bytes ≡ printed (closes visit.now) (target_reply (led_from visit.now.schema.now.types path.now (state document.now).tree))) }
{
    match document.resolve(visit.alloc, visit.schema, path) {
        Ok(target) => node_reply(visit.alloc, visit.request.close, target.as_ref()),
        Err(DocError::Memory) => Err(AllocError),
        Err(DocError::Refused(refusal)) => {
            refusal_reply(visit.alloc, visit.request.close, &refusal)
        }
    }
}

/// Says what a view of the node at the query's pointer answers.
pub fn ask_view(visit: &Visit<'_>, document: &Document, name: &str) -> Result<Bytes, AllocError>
    requires { IsDocument visit.now.schema.now.types (state document.now) }
    ensures { IfOk result (λ bytes. IsDone (closes visit.now) (Views (visit_of visit.now) name.now (snapshot_of document.now)) bytes (snapshot_of document.now)) }
{
    match pointer_in(visit)? {
        Ok(path) => ask_view_at(visit, document, &path, name),
        Err(reply) => Ok(reply),
    }
}

fn ask_view_at(
    visit: &Visit<'_>,
    document: &Document,
    path: &Pointer,
    name: &str,
) -> Result<Bytes, AllocError>
    ensures { IfOk result (λ bytes. bytes ≡ printed (closes visit.now) (answer_of (viewed visit.now.schema.now.types (views_of visit.now.schema.now) path.now name.now (state document.now).tree))) }
{
    let wanted = Wanted { path, name };
    match view_answer::<Brand>(visit, document, &wanted, Blank::new(1)) {
        Ok(answer) => answer_reply(visit.alloc, visit.request.close, answer),
        Err(DocError::Memory) => Err(AllocError),
        Err(DocError::Refused(refusal)) => {
            refusal_reply(visit.alloc, visit.request.close, &refusal)
        }
    }
}

// A view that is asked: its name, and where its node stands.
#[derive(Clone, Copy, Debug)]
struct Wanted<'a> {
    path: &'a Pointer,
    name: &'a str,
}

// What the view answers, its steps counted on a new ledger.
fn view_answer<L: Ledger>(
    visit: &Visit<'_>,
    document: &Document,
    wanted: &Wanted<'_>,
    blank: Blank,
) -> Result<Snap, DocError>
    requires name { blank.name ≡ L.name }
    requires parts { blank.parts ≡ L.parts }
    requires some { 0 < blank.parts }
    ensures outcome { Answers view result (viewed visit.now.schema.now.types (views_of visit.now.schema.now) wanted.now.path.now wanted.now.name.now (state document.now).tree) }
    ensures plain { IfOk result (λ answer. IsPlain (view answer)) }
{
    let mut steps = Steps::<L>::new(blank);
    document.view(
        visit.alloc,
        visit.schema,
        wanted.path,
        wanted.name,
        &mut steps,
    )
}

/// Changes a document by the patches of the body.
pub fn change(visit: &Visit<'_>, document: &mut Document) -> Result<Bytes, AllocError>
    requires { IsDocument visit.now.schema.now.types (state document.old) }
    ensures done { IfOk result (λ bytes. IsDone (closes visit.now) (Changes (visit_of visit.now) (snapshot_of document.old)) bytes (snapshot_of document.new)) }
    ensures document { IsDocument visit.now.schema.now.types (state document.new) }
    ensures err { OnErr result (snapshot_of document.new ≡ snapshot_of document.old) }
{
    match patches_in(visit)? {
        Ok(patches) => change_by(visit, document, &patches),
        Err(reply) => Ok(reply),
    }
}

fn change_by(
    visit: &Visit<'_>,
    document: &mut Document,
    patches: &Patches,
) -> Result<Bytes, AllocError>
    requires document { IsDocument visit.now.schema.now.types (state document.old) }
    requires values { All HasValue patches.now }
    requires plain { All HasPlainValues patches.now }
    ensures done { IfOk result (λ bytes. IsKept (closes visit.now) (change_done (state document.old) (patched visit.now.schema.now.types patches.now (state document.old))) bytes (snapshot_of document.new)) }
    ensures document { IsDocument visit.now.schema.now.types (state document.new) }
    ensures err { OnErr result (snapshot_of document.new ≡ snapshot_of document.old) }
{
    let outcome = document.apply_patches(visit.alloc, visit.schema, patches);
    finish(visit, document, outcome)
}

/// Puts the snapshot of the body in the place of a document's own.
pub fn replace(visit: &Visit<'_>, document: &mut Document) -> Result<Bytes, AllocError>
    requires { IsDocument visit.now.schema.now.types (state document.old) }
    ensures done { IfOk result (λ bytes. IsDone (closes visit.now) (Replaces (visit_of visit.now) (snapshot_of document.old)) bytes (snapshot_of document.new)) }
    ensures document { IsDocument visit.now.schema.now.types (state document.new) }
    ensures err { OnErr result (snapshot_of document.new ≡ snapshot_of document.old) }
{
    match value_in(visit)? {
        Ok(given) => replace_by(visit, document, &given),
        Err(reply) => Ok(reply),
    }
}

fn replace_by(visit: &Visit<'_>, document: &mut Document, given: &Snap) -> Result<Bytes, AllocError>
    requires document { IsDocument visit.now.schema.now.types (state document.old) }
    requires plain { IsPlain (view given.now) }
    ensures done { IfOk result (λ bytes. IsKept (closes visit.now) (change_done (state document.old) (replaced visit.now.schema.now.types (view given.now) (state document.old))) bytes (snapshot_of document.new)) }
    ensures document { IsDocument visit.now.schema.now.types (state document.new) }
    ensures err { OnErr result (snapshot_of document.new ≡ snapshot_of document.old) }
{
    let outcome = document.apply_snapshot(visit.alloc, visit.schema, given);
    finish(visit, document, outcome)
}
