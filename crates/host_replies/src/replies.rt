ghost use Rattle.std.specs.Prelude.{◌≡◌, ◌⊎◌, map, All, Some, None, IfOk, IsSome};
ghost use Rattle.std.specs.Option.{option_copied};
ghost use Rattle.snap_core.specs.Value.{IsPlain};
ghost use Rattle.snap_core.specs.View.{view};
ghost use Rattle.patch_core.specs.Printing.{HasPlainValues};
ghost use Rattle.http.specs.StatusCode.{IsStatusCode, reason_phrase};
ghost use Rattle.http_front.specs.Reply.{printed};
ghost use Rattle.host_replies.specs.Replies as replies;

use crate::bodies::{
    change_body, list_of_texts, node_value, only, place_body, refused_change_body, rule_body,
};
use http_front::print_reply;
use patch_core::Patches;
use pointer_core::{Pointer, Refusal, Rule};
use snap_core::{Bytes, Snap, Txt};
use snap_json::print_snap;
use std::alloc::{AllocError, Global};

/// The reply that names a rule alone.
#[tactic(auto, using(crate::proofs::Statuses::status_is_code))]
pub fn rule_reply(alloc: Global, close: bool, rule: &Rule) -> Result<Bytes, AllocError>
    ensures { IfOk result (λ bytes. bytes ≡ printed close (replies.rule_reply rule.now)) }
{
    let body = rule_body(alloc, rule)?;
    reply(alloc, rule.status(), close, &body)
}

/// The reply that names a rule and a place, and the reason that an action gave.
#[tactic(auto, using(crate::proofs::Statuses::status_is_code))]
pub fn refusal_reply(alloc: Global, close: bool, refusal: &Refusal) -> Result<Bytes, AllocError>
    ensures { IfOk result (λ bytes. bytes ≡ printed close (replies.place_reply refusal.now.rule refusal.now.path)) }
{
    let body = place_body(alloc, refusal)?;
    reply(alloc, refusal.rule.status(), close, &body)
}

/// The reply to another method than these.
pub fn method_reply(alloc: Global, close: bool, methods: &str) -> Result<Bytes, AllocError>
    ensures { IfOk result (λ bytes. bytes ≡ printed close (replies.method_reply methods.now)) }
{
    let body = rule_body(alloc, &Rule::Method)?;
    let text = print_snap(alloc, &body)?;
    print_reply(alloc, 405, Some(methods), close, text.as_slice())
}

/// The reply that shows a snapshot: 200, or 201 for a new document.
pub fn snapshot_reply(
    alloc: Global,
    close: bool,
    status: u16,
    shown: Snap,
) -> Result<Bytes, AllocError>
    requires plain { IsPlain (view shown) }
    requires status { (status ≡ 200) ⊎ (status ≡ 201) }
    ensures { IfOk result (λ bytes. bytes ≡ printed close (replies.snapshot_reply status (view shown))) }
{
    let body = only(alloc, "snapshot", shown)?;
    reply(alloc, status, close, &body)
}

/// The reply that says what a view answers.
pub fn answer_reply(alloc: Global, close: bool, answer: Snap) -> Result<Bytes, AllocError>
    requires { IsPlain (view answer) }
    ensures { IfOk result (λ bytes. bytes ≡ printed close (replies.answer_reply (view answer))) }
{
    let body = only(alloc, "answer", answer)?;
    reply(alloc, 200, close, &body)
}

/// The reply that lists names.
pub fn names_reply(alloc: Global, close: bool, names: Vec<Txt>) -> Result<Bytes, AllocError>
    ensures { IfOk result (λ bytes. bytes ≡ printed close (replies.names_reply names.items)) }
{
    let body = only(alloc, "docs", list_of_texts(alloc, names)?)?;
    reply(alloc, 200, close, &body)
}

/// The reply to the removal of a document.
pub fn removed_reply(alloc: Global, close: bool, name: &str) -> Result<Bytes, AllocError>
    ensures { IfOk result (λ bytes. bytes ≡ printed close (replies.removed_reply name.now)) }
{
    let body = only(alloc, "removed", Snap::Text(Txt::copy(alloc, name)?))?;
    reply(alloc, 200, close, &body)
}

/// The reply that says where a reference leads.
pub fn node_reply(alloc: Global, close: bool, target: Option<&Pointer>) -> Result<Bytes, AllocError>
    ensures { IfOk result (λ bytes. bytes ≡ printed close (replies.node_reply (option_copied target.entry))) }
{
    let body = only(alloc, "node", node_value(target)?)?;
    reply(alloc, 200, close, &body)
}

/// The reply to a change: its patches, and their inverses in the same order.
pub fn change_reply(alloc: Global, close: bool, patches: &Patches) -> Result<Bytes, AllocError>
    requires { All HasPlainValues patches.now }
    ensures { IfOk result (λ bytes. bytes ≡ printed close (replies.change_reply patches.now)) }
{
    match change_body(alloc, patches) {
        Ok(body) => reply(alloc, 200, close, &body),
        Err(_) => Err(AllocError),
    }
}

/// The reply to an action that is refused and yet kept patches: the refusal beside the change.
#[tactic(auto, using(crate::proofs::Statuses::status_is_code))]
pub fn refused_change_reply(
    alloc: Global,
    close: bool,
    refusal: &Refusal,
    patches: &Patches,
) -> Result<Bytes, AllocError>
    requires { All HasPlainValues patches.now }
    ensures { IfOk result (λ bytes. bytes ≡ printed close (replies.refused_change_reply refusal.now.rule refusal.now.path patches.now)) }
{
    match refused_change_body(alloc, refusal, patches) {
        Ok(body) => reply(alloc, refusal.rule.status(), close, &body),
        Err(_) => Err(AllocError),
    }
}

fn reply(alloc: Global, status: u16, close: bool, body: &Snap) -> Result<Bytes, AllocError>
    requires plain { IsPlain (view body.now) }
    requires code { IsStatusCode status }
    requires phrase { IsSome (reason_phrase status) }
    ensures { IfOk result (λ bytes. bytes ≡ printed close (replies.reply_of status (view body.now))) }
{
    let text = print_snap(alloc, body)?;
    print_reply(alloc, status, None, close, text.as_slice())
}
