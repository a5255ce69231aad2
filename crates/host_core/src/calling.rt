//! Bodies that call an action.
ghost use Rattle.std.specs.Prelude.{◌≡◌, codes, IfOk, IfSome};
ghost use Rattle.std.specs.List.{list_all};
ghost use Rattle.std.specs.Option.{option_copied, option_map};
ghost use Rattle.snap_core.specs.Value.{AreKeyed, IsPlain, ArePlain, keys_of, value_at};
ghost use Rattle.snap_core.specs.View.{fields_view, items_view, view};
ghost use Rattle.patch_core.specs.Reading as patch;
ghost use Rattle.host_core.specs.Calling as specs;
ghost use Rattle.host_core.specs.Inside.{IsRead, closes};

use crate::reading::{Read, pointer_refusal, refuse};
use crate::visit::Visit;
use pointer_core::{Pointer, Rule};
use snap_core::{Field, Snap, find};
use std::alloc::AllocError;

/// An action that is called: of the node at a pointer, by its name, given these values.
#[derive(Debug, Drop)]
pub struct Call<'a> {
    pub path: Pointer,
    pub name: &'a str,
    pub given: &'a [Snap],
}

// A call whose pointer is still a text.
#[derive(Clone, Copy, Debug)]
struct CallText<'a> {
    path: &'a str,
    name: &'a str,
    given: &'a [Snap],
}

/// The call that a body spells. Its shape is tested before its pointer.
pub fn call_in<'a>(visit: &Visit<'_>, body: &'a Snap) -> Result<Read<Call<'a>>, AllocError>
    requires { IsPlain (view body.now) }
    ensures read { IfOk result (IsRead (closes visit.now) specs.seen_call (specs.CallsBy (specs.call_text (view body.now)))) }
    ensures plain { IfOk result (λ read. IfOk read (λ call. ArePlain (items_view call.given.now))) }
{
    match call_text(body) {
        Some(spelled) => call_of(visit, &spelled),
        None => Ok(Err(refuse(visit, &Rule::Shape)?)),
    }
}

// The call of a text.
fn call_of<'a>(visit: &Visit<'_>, spelled: &CallText<'a>) -> Result<Read<Call<'a>>, AllocError>
    ensures read { IfOk result (IsRead (closes visit.now) specs.seen_call (specs.IsCallOf (specs.seen_text spelled.now))) }
    ensures given { IfOk result (λ read. IfOk read (λ call. call.given.now ≡ spelled.now.given.now)) }
{
    match Pointer::parse(visit.alloc, spelled.path) {
        Ok(path) => Ok(Ok(Call {
            path,
            name: spelled.name,
            given: spelled.given,
        })),
        Err(error) => Ok(Err(pointer_refusal(visit, error)?)),
    }
}

// What a value spells.
fn call_text(body: &Snap) -> Option<CallText<'_>>
    requires { IsPlain (view body.now) }
    ensures text { option_map specs.seen_text result ≡ specs.call_text (view body.now) }
    ensures plain { IfSome result (λ call. ArePlain (items_view call.given.now)) }
{
    match body {
        Snap::Dict(fields) => call_among(fields.as_slice()),
        _ => None,
    }
}

// What the fields of a record spell.
fn call_among(fields: &[Field]) -> Option<CallText<'_>>
    requires { AreKeyed (fields_view fields.now) }
    ensures { option_map specs.seen_text result ≡ specs.call_among (fields_view fields.now) }
{
    if !are_call_keys(fields) {
        return None;
    }
    let path = path_in(find(fields, "path"))?;
    let name = text_in(find(fields, "name"))?;
    let given = given_in(find(fields, "args"))?;
    Some(CallText { path, name, given })
}

fn are_call_keys(fields: &[Field]) -> bool
    ensures { result ≡ list_all specs.is_call_key (keys_of (fields_view fields.now)) }
{
    fields.iter().all(|field| has_call_key(field))
}

fn has_call_key(field: &Field) -> bool
    ensures { result ≡ specs.is_call_key field.now.key }
{
    let key = field.key.text();
    key == "args" || key == "name" || key == "path"
}

// The text of a pointer, which is empty where there is none.
fn path_in(value: Option<&Snap>) -> Option<&str>
    ensures { option_copied result ≡ specs.path_in (option_map view (option_copied value.entry)) }
{
    match value {
        None => Some(""),
        Some(_) => text_in(value),
    }
}

fn text_in(value: Option<&Snap>) -> Option<&str>
    ensures { option_copied result ≡ patch.text_in (option_map view (option_copied value.entry)) }
{
    match value {
        Some(Snap::Text(text)) => Some(text.text()),
        _ => None,
    }
}

// What an action is given: nothing, where there is no list.
fn given_in(value: Option<&Snap>) -> Option<&[Snap]>
    ensures { option_map (λ given. items_view given) (option_copied result) ≡ specs.given_in (option_map view (option_copied value.entry)) }
{
    match value {
        None => Some(&[]),
        Some(Snap::List(items)) => Some(items.as_slice()),
        Some(_) => None,
    }
}
