//! Requests that make or remove a document.
ghost use Rattle.std.specs.Prelude.{◌≡◌, None, IfOk, OnErr};
ghost use Rattle.snap_core.specs.Value.{IsPlain};
ghost use Rattle.snap_core.specs.View.{view};
ghost use Rattle.http_front.specs.Reply.{printed};
ghost use Rattle.live_tree.specs.Contents.{state};
ghost use Rattle.doc_core.specs.Changing.{created};
ghost use Rattle.doc_core.specs.Documents.{IsDocument};
ghost use Rattle.host_replies.specs.Replies as replies;
ghost use Rattle.host_core.specs.Asking.{creating, discarding, doc_made};
ghost use Rattle.host_core.specs.Docs.{find, with_doc};
ghost use Rattle.host_core.specs.Inside.{AreHeld, IsAnswered, StandsAt, closes, held_docs, place_in, snapshot_of, visit_of};

use crate::held::{Held, position};
use crate::reading::value_in;
use crate::visit::Visit;
use doc_core::{DocError, Document};
use host_replies::{refusal_reply, removed_reply, rule_reply, snapshot_reply};
use pointer_core::{Pointer, Rule};
use snap_core::{Bytes, Snap, Txt};
use std::alloc::AllocError;

/// The most documents of a host.
const MOST_DOCS: usize = 32;

/// Makes the document of a name by the body.
pub fn create(visit: &Visit<'_>, docs: &mut Vec<Held>, name: &str) -> Result<Bytes, AllocError>
    requires { AreHeld visit.now.schema.now.types docs.old.items }
    ensures answer { IfOk result (λ bytes. IsAnswered (closes visit.now)
        (λ answer. answer ≡ creating (visit_of visit.now) name.now (held_docs docs.old.items)) bytes (held_docs docs.new.items)) }
    ensures held { AreHeld visit.now.schema.now.types docs.new.items }
    ensures err { OnErr result (held_docs docs.new.items ≡ held_docs docs.old.items) }
{
    if position(docs, name).is_some() {
        return rule_reply(visit.alloc, visit.request.close, &Rule::Exists);
    }
    if docs.len() >= MOST_DOCS {
        return rule_reply(visit.alloc, visit.request.close, &Rule::Full);
    }
    match value_in(visit)? {
        Ok(given) => create_of(visit, docs, name, &given),
        Err(reply) => Ok(reply),
    }
}

fn create_of(
    visit: &Visit<'_>,
    docs: &mut Vec<Held>,
    name: &str,
    given: &Snap,
) -> Result<Bytes, AllocError>
    requires held { AreHeld visit.now.schema.now.types docs.old.items }
    requires none { find name.now (held_docs docs.old.items) ≡ None }
    requires plain { IsPlain (view given.now) }
    ensures answer { IfOk result (λ bytes. IsAnswered (closes visit.now)
        (λ answer. answer ≡ doc_made name.now (held_docs docs.old.items) (created visit.now.schema.now.types (view given.now)))
        bytes (held_docs docs.new.items)) }
    ensures held { AreHeld visit.now.schema.now.types docs.new.items }
    ensures err { OnErr result (held_docs docs.new.items ≡ held_docs docs.old.items) }
{
    match Document::create(visit.alloc, visit.schema, given) {
        Ok(document) => add(visit, docs, name, document),
        Err(DocError::Memory) => Err(AllocError),
        Err(DocError::Refused(refusal)) => {
            refusal_reply(visit.alloc, visit.request.close, &refusal)
        }
    }
}

// Adds a new document, once the reply that shows it is made.
fn add(
    visit: &Visit<'_>,
    docs: &mut Vec<Held>,
    name: &str,
    document: Document,
) -> Result<Bytes, AllocError>
    requires held { AreHeld visit.now.schema.now.types docs.old.items }
    requires none { find name.now (held_docs docs.old.items) ≡ None }
    requires document { IsDocument visit.now.schema.now.types (state document) }
    ensures reply { IfOk result (λ bytes. bytes ≡ printed (closes visit.now) (replies.snapshot_reply 201 (snapshot_of document))) }
    ensures docs { IfOk result (λ _. held_docs docs.new.items
        ≡ with_doc (record { name = name.now; snapshot = snapshot_of document }) (held_docs docs.old.items)) }
    ensures held { AreHeld visit.now.schema.now.types docs.new.items }
    ensures err { OnErr result (held_docs docs.new.items ≡ held_docs docs.old.items) }
{
    let reply = new_reply(visit, &document)?;
    let held = Held {
        name: Txt::copy(visit.alloc, name)?,
        document,
    };
    let at = place_for(docs, name);
    docs.insert(at, held)?;
    Ok(reply)
}

// The reply that shows a new document. The root is a place, so that the one error is want of memory.
fn new_reply(visit: &Visit<'_>, document: &Document) -> Result<Bytes, AllocError>
    ensures { IfOk result (λ bytes. bytes ≡ printed (closes visit.now) (replies.snapshot_reply 201 (snapshot_of document.now))) }
{
    match document.snapshot(visit.alloc, &Pointer::new(visit.alloc)) {
        Ok(shown) => snapshot_reply(visit.alloc, visit.request.close, 201, shown),
        Err(_) => Err(AllocError),
    }
}

// Where a document of a name goes: before the first whose name comes after it.
fn place_for(docs: &[Held], name: &str) -> usize
    ensures { result ≡ place_in name.now docs.now }
{
    for (at, held) in docs.iter().enumerate() {
        if name.cmp(held.name.text()).is_lt() {
            return at;
        }
    }
    docs.len()
}

/// Removes the document of a name.
pub fn discard(visit: &Visit<'_>, docs: &mut Vec<Held>, name: &str) -> Result<Bytes, AllocError>
    requires { AreHeld visit.now.schema.now.types docs.old.items }
    ensures answer { IfOk result (λ bytes. IsAnswered (closes visit.now)
        (λ answer. answer ≡ discarding name.now (held_docs docs.old.items)) bytes (held_docs docs.new.items)) }
    ensures held { AreHeld visit.now.schema.now.types docs.new.items }
    ensures err { OnErr result (held_docs docs.new.items ≡ held_docs docs.old.items) }
{
    match position(docs, name) {
        Some(at) => discard_at(visit, docs, name, at),
        None => rule_reply(visit.alloc, visit.request.close, &Rule::Unknown),
    }
}

fn discard_at(
    visit: &Visit<'_>,
    docs: &mut Vec<Held>,
    name: &str,
    at: usize,
) -> Result<Bytes, AllocError>
    requires held { AreHeld visit.now.schema.now.types docs.old.items }
    requires stands { StandsAt name.now at docs.old.items }
    ensures answer { IfOk result (λ bytes. IsAnswered (closes visit.now)
        (λ answer. answer ≡ discarding name.now (held_docs docs.old.items)) bytes (held_docs docs.new.items)) }
    ensures held { AreHeld visit.now.schema.now.types docs.new.items }
    ensures err { OnErr result (held_docs docs.new.items ≡ held_docs docs.old.items) }
{
    let reply = removed_reply(visit.alloc, visit.request.close, name)?;
    let _removed = docs.remove(at);
    Ok(reply)
}
