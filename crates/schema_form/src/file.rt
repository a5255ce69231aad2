//! The parts of a schema file: host, root, types and history.
ghost use Rattle.std.specs.Prelude.{◌≡◌, ◌&&◌, ◌⊎◌, pos, codes, Err, IfOk, IfErr};
ghost use Rattle.snap_core.specs.Value.{IsOrdered, AreKeyed, AreOrderedMembers, dict, integer};
ghost use Rattle.snap_core.specs.View.{view, fields_view};
ghost use Rattle.schema_form.specs.Faults as faults;
ghost use Rattle.schema_form.specs.Form as form;
ghost use Rattle.schema_form.specs.Form.{IsForm, IsWhole};
ghost use Rattle.schema_form.specs.Names as names;
ghost use Rattle.schema_form.specs.Outcome.{Finds};
ghost use Rattle.schema_form.specs.Parts.{IsNext, IsFound, IsMadeOf};

use crate::entries::{Gathered, read_types};
use crate::fault::FormError;
use crate::form::{EntryNo, SchemaForm};
use crate::leaves::read_target;
use crate::objects::{entries_under, has_key};
use crate::walk::{require, under, wrong};
use pointer_core::SchemaRule;
use snap_core::{Field, Snap, is_whole};
use std::alloc::Global;

/// Reads a schema file, as it was read loosely, into its form, or names its first fault: in form,
/// names, repetitions and the range of the history, in the order of the file with the keys of each
/// object ascending.
pub fn read_form(alloc: Global, file: &Snap) -> Result<SchemaForm, FormError>
    requires { IsOrdered (view file.now) }
    ensures finds { Finds result (faults.file_faults (view file.now)) }
    ensures form { IfOk result (IsForm (view file.now)) }
    ensures whole { IfOk result IsWhole }
{
    match file {
        Snap::Dict(parts) => read_object(alloc, parts.as_slice()),
        _ => Err(wrong(alloc, SchemaRule::Shape)),
    }
}

/// What is found in the parts of a file. A part that isn't there is a fault of the file.
#[derive(Debug, Drop)]
struct Found {
    history: u32,
    root: Result<EntryNo, FormError>,
    types: Result<Gathered, FormError>,
}

#[tactic(auto, using(crate::proofs::Orders::keyed_by_order))]
fn read_object(alloc: Global, parts: &[Field]) -> Result<SchemaForm, FormError>
    requires { AreOrderedMembers (fields_view parts.now) }
    ensures finds { Finds result (faults.file_faults (dict tt (fields_view parts.now))) }
    ensures form { IfOk result (IsForm (dict tt (fields_view parts.now))) }
    ensures whole { IfOk result IsWhole }
{
    if !has_parts(parts) {
        return Err(wrong(alloc, SchemaRule::Shape));
    }
    let found = read_parts(alloc, parts, entries_under(parts, "types"))?;
    form_of(found)
}

/// The form of a file with all parts.
fn form_of(found: Found) -> Result<SchemaForm, FormError>
    ensures ok { IfOk result (IsMadeOf found) }
    ensures err { IfErr result (λ error. (found.root ≡ Err error) ⊎ (found.types ≡ Err error)) }
{
    let Found {
        history,
        root,
        types,
    } = found;
    let root = root?;
    let Gathered {
        entries,
        expressions,
        models,
        behaviours,
        astray,
    } = types?;
    Ok(SchemaForm {
        entries,
        expressions,
        models,
        behaviours,
        astray,
        root,
        history,
    })
}

/// Whether a file has each part that it must have.
fn has_parts(parts: &[Field]) -> bool
    requires { AreKeyed (fields_view parts.now) }
    ensures { result ≡ (names.has_key (codes "host") (fields_view parts.now)
        && names.has_key (codes "root") (fields_view parts.now)
        && names.has_key (codes "types") (fields_view parts.now)) }
{
    has_key(parts, "host") && has_key(parts, "root") && has_key(parts, "types")
}

fn read_parts(alloc: Global, parts: &[Field], types: &[Field]) -> Result<Found, FormError>
    requires ordered { AreOrderedMembers (fields_view parts.now) }
    requires keyed { AreKeyed (fields_view types.now) }
    ensures finds { Finds result
        (faults.member_faults (faults.part_faults (fields_view types.now)) (fields_view parts.now)) }
    ensures found { IfOk result (IsFound (fields_view types.now) (fields_view parts.now)) }
{
    let mut found = Found {
        history: 50,
        root: Err(wrong(alloc, SchemaRule::Shape)),
        types: Err(wrong(alloc, SchemaRule::Shape)),
    };
    for part in parts {
        let read = read_part(alloc, types, part, found);
        let next = under(part.key.text(), read)?;
        found = next;
    }
    Ok(found)
}

/// Reads a part of the file.
fn read_part(alloc: Global, types: &[Field], part: &Field, found: Found) -> Result<Found, FormError>
    requires keyed { AreKeyed (fields_view types.now) }
    requires ordered { IsOrdered (view part.now.value) }
    ensures finds { Finds result
        (faults.part_faults (fields_view types.now) part.now.key (view part.now.value)) }
    ensures next { IfOk result
        (λ next. IsNext (fields_view types.now) found next part.now.key (view part.now.value)) }
{
    let value = &part.value;
    match part.key.text() {
        "history" => {
            let history = read_history(alloc, value)?;
            Ok(Found { history, ..found })
        }
        "host" => {
            check_host(alloc, value)?;
            Ok(found)
        }
        "root" => {
            let root = Ok(read_target(alloc, types, value)?);
            Ok(Found { root, ..found })
        }
        "types" => {
            let types = Ok(read_types(alloc, value)?);
            Ok(Found { types, ..found })
        }
        _ => Err(wrong(alloc, SchemaRule::Shape)),
    }
}

/// Reads the length of the history.
fn read_history(alloc: Global, value: &Snap) -> Result<u32, FormError>
    ensures finds { Finds result (faults.history_faults (view value.now)) }
    ensures ok { IfOk result (λ history. form.history_in (Some (view value.now)) ≡ pos history) }
{
    match value {
        Snap::Int(n) => read_length(alloc, *n),
        _ => Err(wrong(alloc, SchemaRule::Shape)),
    }
}

fn read_length(alloc: Global, n: i64) -> Result<u32, FormError>
    ensures finds { Finds result (faults.history_faults (integer n)) }
    ensures ok { IfOk result (λ history. n ≡ pos history) }
{
    if !is_whole(i128::from(n)) {
        return Err(wrong(alloc, SchemaRule::Shape));
    }
    require(alloc, 0 <= n && n <= 100, SchemaRule::History)?;
    Ok(n as u32)
}

/// Checks the host's number.
fn check_host(alloc: Global, value: &Snap) -> Result<(), FormError>
    ensures { Finds result (faults.host_faults (view value.now)) }
{
    match value {
        Snap::Int(n) => require(alloc, *n == 1, SchemaRule::Shape),
        _ => Err(wrong(alloc, SchemaRule::Shape)),
    }
}
