//! What calls come to, as values and as texts.
use crate::fault::Fault;
use list_core::Parts;
use patch_core::Patch;
use pointer_core::Refusal;
use snap_core::{Field, Fields, Snap, Txt};
use snap_json::read_snap;
use std::alloc::{AllocError, Global};

/// What came of a call: as it was wanted where it is that, and otherwise what was found, or why nothing was.
pub fn told(alloc: Global, found: Result<Snap, Fault>, wants: &str) -> Result<String, AllocError> {
    match found {
        Ok(value) => shown(alloc, &value, wants),
        Err(Fault::Memory) => Err(AllocError),
        Err(Fault::NoCase) => String::from_str(alloc, "no case"),
        Err(Fault::Refused(refusal)) => refused(alloc, &refusal),
    }
}

fn shown(alloc: Global, value: &Snap, wants: &str) -> Result<String, AllocError> {
    if is_wanted(alloc, value, wants) {
        return String::from_str(alloc, wants);
    }
    format!(in alloc; "{value:?}")
}

fn is_wanted(alloc: Global, value: &Snap, wants: &str) -> bool {
    match read_snap(alloc, wants.as_bytes()) {
        Ok(wanted) => wanted.equal(value),
        Err(_) => false,
    }
}

fn refused(alloc: Global, refusal: &Refusal) -> Result<String, AllocError> {
    let rule = refusal.rule.name();
    if refusal.path.is_root() {
        return format!(in alloc; "{rule} at (root)");
    }
    let path = &refusal.path;
    format!(in alloc; "{rule} at {path}")
}

/// A patch as a record, with the values that it has.
pub fn shown_patch(alloc: Global, patch: &Patch) -> Result<Snap, AllocError> {
    let mut fields = Parts::new(alloc);
    if let Some(old) = &patch.old {
        push(alloc, &mut fields, "oldValue", old.clone_in(alloc)?)?;
    }
    push(
        alloc,
        &mut fields,
        "op",
        Snap::Text(Txt::copy(alloc, patch.op.name())?),
    )?;
    push(alloc, &mut fields, "path", Snap::Text(patch.path.print()?))?;
    if let Some(value) = &patch.value {
        push(alloc, &mut fields, "value", value.clone_in(alloc)?)?;
    }
    Ok(Snap::Dict(fields))
}

fn push(alloc: Global, fields: &mut Fields, key: &str, value: Snap) -> Result<(), AllocError> {
    fields.push(Field {
        key: Txt::copy(alloc, key)?,
        value,
    })
}

/// A number as a value.
pub fn counted(number: usize) -> Result<Snap, Fault> {
    match i64::try_from(number) {
        Ok(number) => Ok(Snap::Int(number)),
        Err(_) => Err(Fault::NoCase),
    }
}
