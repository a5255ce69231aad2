//! The keys that must be names.
ghost use Rattle.std.specs.Prelude.{◌≡◌, IfOk};
ghost use Rattle.snap_core.specs.Name.{is_name};
ghost use Rattle.snap_core.specs.Value.{dict};
ghost use Rattle.snap_core.specs.View.{view, fields_view};
ghost use Rattle.schema_form.specs.Faults as faults;
ghost use Rattle.schema_form.specs.Outcome.{Finds};

use crate::fault::FormError;
use crate::walk::wrong;
use crate::words::{form_of, plain_of};
use pointer_core::SchemaRule;
use snap_core::{Field, Name, NameError, Snap};
use std::alloc::Global;

/// Whether a value is a text or an object whose key stands for a form, whatever stands in it.
pub fn is_expression(value: &Snap) -> bool
    ensures { result ≡ faults.is_expression (view value.now) }
{
    match value {
        Snap::Text(_) => true,
        Snap::Dict(fields) => has_form(fields.as_slice()),
        _ => false,
    }
}

fn has_form(fields: &[Field]) -> bool
    ensures { result ≡ faults.is_expression (dict tt (fields_view fields.now)) }
{
    if fields.len() != 1 {
        return false;
    }
    form_of(fields[0].key.text()).is_some()
}

/// The fault of a key that is no name. Where the value under it isn't of a known form, that comes first.
fn misnamed(alloc: Global, is_formed: bool) -> FormError
    ensures { result ≡ faults.misnamed is_formed }
{
    if is_formed {
        wrong(alloc, SchemaRule::Name)
    } else {
        wrong(alloc, SchemaRule::Shape)
    }
}

/// Reads a key that must be a name.
pub fn read_name(alloc: Global, key: &str, is_formed: bool) -> Result<Name, FormError>
    ensures finds { Finds result (faults.key_faults is_formed (is_name key.now)) }
    ensures ok { IfOk result (λ name. name ≡ key.now) }
{
    match Name::read(alloc, key) {
        Ok(name) => Ok(name),
        Err(NameError::BadName) => Err(misnamed(alloc, is_formed)),
        Err(NameError::Memory) => Err(FormError::Memory),
    }
}

/// Reads a key that must be a name, and no word for a plain type.
pub fn read_free_name(alloc: Global, key: &str, is_formed: bool) -> Result<Name, FormError>
    ensures finds { Finds result (faults.key_faults is_formed (faults.is_free key.now)) }
    ensures ok { IfOk result (λ name. name ≡ key.now) }
{
    if plain_of(key).is_some() {
        return Err(misnamed(alloc, is_formed));
    }
    read_name(alloc, key, is_formed)
}
