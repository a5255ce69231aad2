//! From a request to its reply.
ghost use Rattle.std.specs.Prelude.{◌≡◌, map, take, IfOk, OnErr};
ghost use Rattle.http_front.specs.Reply.{printed};
ghost use Rattle.route_core.specs.Ask.{asked_by, seen, seen_ask};
ghost use Rattle.host_replies.specs.Replies as replies;
ghost use Rattle.host_core.specs.Answering.{trying};
ghost use Rattle.host_core.specs.Asking.{Acts, AnswersAsk, AnswersAsked, Changes, On, Replaces, Resolves, Shows, Steps, Views};
ghost use Rattle.host_core.specs.Docs.{names_of};
ghost use Rattle.host_core.specs.Inside.{AreHeld, IsAnswered, closes, held_docs, visit_of};
ghost use Rattle.host_core.specs.Reading as reading;

use crate::acting::act;
use crate::creating::{create, discard};
use crate::document::{ask_view, change, replace, resolve, show, show_answer};
use crate::held::{Held, position};
use crate::reading::value_in;
use crate::visit::Visit;
use doc_core::try_value;
use host_replies::{method_reply, names_reply, rule_reply};
use pointer_core::Rule;
use route_core::{Ask, Asked};
use snap_core::{Bytes, Txt};
use std::alloc::AllocError;

/// Answers what a request asks.
pub fn answer_asked(
    visit: &Visit<'_>,
    asked: Asked<'_>,
    docs: &mut Vec<Held>,
) -> Result<Bytes, AllocError>
    requires { AreHeld visit.now.schema.now.types docs.old.items }
    ensures answer { IfOk result (λ bytes. IsAnswered (closes visit.now)
        (AnswersAsked (visit_of visit.now) (seen asked.entry) (held_docs docs.old.items)) bytes (held_docs docs.new.items)) }
    ensures held { AreHeld visit.now.schema.now.types docs.new.items }
    ensures err { OnErr result (held_docs docs.new.items ≡ held_docs docs.old.items) }
{
    match asked {
        Asked::Unknown => rule_reply(visit.alloc, visit.request.close, &Rule::Unknown),
        Asked::Wrong { allow } => method_reply(visit.alloc, visit.request.close, allow),
        Asked::Well(ask) => answer_ask(visit, ask, docs),
    }
}

fn answer_ask(visit: &Visit<'_>, ask: Ask<'_>, docs: &mut Vec<Held>) -> Result<Bytes, AllocError>
    requires { AreHeld visit.now.schema.now.types docs.old.items }
    ensures answer { IfOk result (λ bytes. IsAnswered (closes visit.now)
        (AnswersAsk (visit_of visit.now) (seen_ask ask.entry) (held_docs docs.old.items)) bytes (held_docs docs.new.items)) }
    ensures held { AreHeld visit.now.schema.now.types docs.new.items }
    ensures err { OnErr result (held_docs docs.new.items ≡ held_docs docs.old.items) }
{
    match ask {
        Ask::Try => answer_try(visit),
        Ask::List => answer_list(visit, docs),
        Ask::Create(name) => create(visit, docs, name),
        Ask::Discard(name) => discard(visit, docs, name),
        Ask::Show(name) => show_named(visit, docs, name),
        Ask::Replace(name) => replace_named(visit, docs, name),
        Ask::Change(name) => change_named(visit, docs, name),
        Ask::Resolve(name) => resolve_named(visit, docs, name),
        Ask::Act(name) => act_named(visit, docs, name),
        Ask::View(name, one) => view_named(visit, docs, name, one),
    }
}

fn unknown(visit: &Visit<'_>) -> Result<Bytes, AllocError>
    ensures { IfOk result (λ bytes. bytes ≡ printed (closes visit.now) (replies.rule_reply Rule.Unknown)) }
{
    rule_reply(visit.alloc, visit.request.close, &Rule::Unknown)
}

// Tries the body's value.
fn answer_try(visit: &Visit<'_>) -> Result<Bytes, AllocError>
    ensures { IfOk result (λ bytes. bytes ≡ printed (closes visit.now)
        (trying visit.now.schema.now.types (reading.value_in visit.now.request.now.body.now))) }
{
    match value_in(visit)? {
        Ok(given) => show_answer(visit, try_value(visit.alloc, visit.schema.types(), &given)),
        Err(reply) => Ok(reply),
    }
}

// Lists the names of all documents.
fn answer_list(visit: &Visit<'_>, docs: &[Held]) -> Result<Bytes, AllocError>
    ensures { IfOk result (λ bytes. bytes ≡ printed (closes visit.now) (replies.names_reply (names_of (held_docs docs.now)))) }
{
    let mut names = Vec::new(visit.alloc);
    for held in docs {
        names.push(held.name.clone_in()?)?;
    }
    names_reply(visit.alloc, visit.request.close, names)
}

fn show_named(visit: &Visit<'_>, docs: &[Held], name: &str) -> Result<Bytes, AllocError>
    requires { AreHeld visit.now.schema.now.types docs.now }
    ensures { IfOk result (λ bytes. IsAnswered (closes visit.now)
        (On name.now (held_docs docs.now) (Shows (visit_of visit.now))) bytes (held_docs docs.now)) }
{
    match position(docs, name) {
        Some(at) => show(visit, &docs[at].document),
        None => unknown(visit),
    }
}

fn resolve_named(visit: &Visit<'_>, docs: &[Held], name: &str) -> Result<Bytes, AllocError>
    requires { AreHeld visit.now.schema.now.types docs.now }
    ensures { IfOk result (λ bytes. IsAnswered (closes visit.now)
        (On name.now (held_docs docs.now) (Resolves (visit_of visit.now))) bytes (held_docs docs.now)) }
{
    match position(docs, name) {
        Some(at) => resolve(visit, &docs[at].document),
        None => unknown(visit),
    }
}

fn view_named(visit: &Visit<'_>, docs: &[Held], name: &str, one: &str) -> Result<Bytes, AllocError>
    requires { AreHeld visit.now.schema.now.types docs.now }
    ensures { IfOk result (λ bytes. IsAnswered (closes visit.now)
        (On name.now (held_docs docs.now) (Views (visit_of visit.now) one.now)) bytes (held_docs docs.now)) }
{
    match position(docs, name) {
        Some(at) => ask_view(visit, &docs[at].document, one),
        None => unknown(visit),
    }
}

fn change_named(visit: &Visit<'_>, docs: &mut Vec<Held>, name: &str) -> Result<Bytes, AllocError>
    requires { AreHeld visit.now.schema.now.types docs.old.items }
    ensures answer { IfOk result (λ bytes. IsAnswered (closes visit.now)
        (On name.now (held_docs docs.old.items) (Changes (visit_of visit.now))) bytes (held_docs docs.new.items)) }
    ensures held { AreHeld visit.now.schema.now.types docs.new.items }
    ensures err { OnErr result (held_docs docs.new.items ≡ held_docs docs.old.items) }
{
    match position(docs, name) {
        Some(at) => change(visit, &mut docs[at].document),
        None => unknown(visit),
    }
}

fn replace_named(visit: &Visit<'_>, docs: &mut Vec<Held>, name: &str) -> Result<Bytes, AllocError>
    requires { AreHeld visit.now.schema.now.types docs.old.items }
    ensures answer { IfOk result (λ bytes. IsAnswered (closes visit.now)
        (On name.now (held_docs docs.old.items) (Replaces (visit_of visit.now))) bytes (held_docs docs.new.items)) }
    ensures held { AreHeld visit.now.schema.now.types docs.new.items }
    ensures err { OnErr result (held_docs docs.new.items ≡ held_docs docs.old.items) }
{
    match position(docs, name) {
        Some(at) => replace(visit, &mut docs[at].document),
        None => unknown(visit),
    }
}

fn act_named(visit: &Visit<'_>, docs: &mut Vec<Held>, name: &str) -> Result<Bytes, AllocError>
    requires { AreHeld visit.now.schema.now.types docs.old.items }
    ensures answer { IfOk result (λ bytes. IsAnswered (closes visit.now)
        (On name.now (held_docs docs.old.items) (Acts (visit_of visit.now))) bytes (held_docs docs.new.items)) }
    ensures held { AreHeld visit.now.schema.now.types docs.new.items }
    ensures err { OnErr result (held_docs docs.new.items ≡ held_docs docs.old.items) }
{
    match position(docs, name) {
        Some(at) => act(visit, &mut docs[at].document),
        None => unknown(visit),
    }
}
