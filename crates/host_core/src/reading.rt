//! What requests bring. What can't be read gets a reply at once.
ghost use Rattle.std.specs.Prelude.{◌≡◌, ◌≢◌, [], All, IfOk, OnOk, unwrap_or};
ghost use Rattle.snap_core.specs.Value.{IsPlain};
ghost use Rattle.snap_core.specs.View.{view};
ghost use Rattle.patch_core.specs.Application.{HasValue};
ghost use Rattle.patch_core.specs.Printing.{HasPlainValues};
ghost use Rattle.snap_json.specs.Reading.{reading};
ghost use Rattle.http_front.specs.Reply.{printed};
ghost use Rattle.host_replies.specs.Replies as replies;
ghost use Rattle.host_core.specs.Inside.{IsRead, closes, visit_of};
ghost use Rattle.host_core.specs.Reading as specs;

use crate::visit::Visit;
use host_replies::{refusal_reply, rule_reply};
use http_front::query_value;
use patch_core::{PatchError, Patches, read_patches};
use pointer_core::{Pointer, PointerError, Refusal, Rule};
use snap_core::{Bytes, Snap, Txt};
use snap_json::{ReadError, read_snap};
use std::alloc::AllocError;

/// What was read, or the reply to what can't be read.
pub type Read<T> = Result<T, Bytes>;

/// The pointer of the request's query.
pub fn pointer_in(visit: &Visit<'_>) -> Result<Read<Pointer>, AllocError>
    ensures { IfOk result (IsRead (closes visit.now) (λ path. path) (specs.Points visit.now.request.now.query.now)) }
{
    let found = query_value(visit.alloc, visit.request.query, "path")?;
    match Pointer::parse(visit.alloc, text_of(&found)) {
        Ok(path) => Ok(Ok(path)),
        Err(error) => Ok(Err(pointer_refusal(visit, error)?)),
    }
}

/// The reply to a text that is no pointer's.
pub fn pointer_refusal(visit: &Visit<'_>, error: PointerError) -> Result<Bytes, AllocError>
    ensures reply { IfOk result (λ bytes. bytes ≡ printed (closes visit.now) (replies.rule_reply Rule.Pointer)) }
    ensures cause { OnOk result (error ≢ PointerError.Memory) }
{
    match error {
        PointerError::Memory => Err(AllocError),
        PointerError::NoSlash | PointerError::BadTilde { .. } => refuse(visit, &Rule::Pointer),
    }
}

fn text_of(found: &Option<Txt>) -> &str
    ensures { result.now ≡ unwrap_or found.now [] }
{
    match found {
        Some(text) => text.text(),
        None => "",
    }
}

pub fn refuse(visit: &Visit<'_>, rule: &Rule) -> Result<Bytes, AllocError>
    ensures { IfOk result (λ bytes. bytes ≡ printed (closes visit.now) (replies.rule_reply rule.now)) }
{
    rule_reply(visit.alloc, visit.request.close, rule)
}

/// The value of the request's body.
pub fn value_in(visit: &Visit<'_>) -> Result<Read<Snap>, AllocError>
    ensures read { IfOk result (IsRead (closes visit.now) view (λ found. found ≡ specs.value_in visit.now.request.now.body.now)) }
    ensures plain { IfOk result (λ read. IfOk read (λ value. IsPlain (view value))) }
{
    match read_snap(visit.alloc, visit.request.body) {
        Ok(value) => Ok(Ok(value)),
        Err(ReadError::Memory) => Err(AllocError),
        Err(ReadError::Syntax) => Ok(Err(refuse(visit, &Rule::Syntax)?)),
        Err(ReadError::Whole { path }) => Ok(Err(refuse_at(visit, path)?)),
    }
}

// The reply to a number that isn't whole.
fn refuse_at(visit: &Visit<'_>, path: Pointer) -> Result<Bytes, AllocError>
    ensures { IfOk result (λ bytes. bytes ≡ printed (closes visit.now) (replies.place_reply Rule.Whole path)) }
{
    let refusal = Refusal {
        path,
        rule: Rule::Whole,
    };
    refusal_reply(visit.alloc, visit.request.close, &refusal)
}

/// The patches of the request's body.
pub fn patches_in(visit: &Visit<'_>) -> Result<Read<Patches>, AllocError>
    ensures read { IfOk result (IsRead (closes visit.now) (λ patches. patches) (specs.Lists visit.now.request.now.body.now)) }
    ensures values { IfOk result (λ read. IfOk read (All HasValue)) }
    ensures plain { IfOk result (λ read. IfOk read (All HasPlainValues)) }
{
    match value_in(visit)? {
        Ok(value) => patches_of(visit, &value),
        Err(reply) => Ok(Err(reply)),
    }
}

// The patches that a value spells.
fn patches_of(visit: &Visit<'_>, value: &Snap) -> Result<Read<Patches>, AllocError>
    requires { IsPlain (view value.now) }
    ensures read { IfOk result (IsRead (closes visit.now) (λ patches. patches) (specs.Spells (view value.now))) }
    ensures values { IfOk result (λ read. IfOk read (All HasValue)) }
    ensures plain { IfOk result (λ read. IfOk read (All HasPlainValues)) }
{
    match read_patches(visit.alloc, value) {
        Ok(patches) => Ok(Ok(patches)),
        Err(PatchError::Shape) => Ok(Err(refuse(visit, &Rule::Shape)?)),
        Err(PatchError::Pointer) => Ok(Err(refuse(visit, &Rule::Pointer)?)),
        Err(_) => Err(AllocError),
    }
}
