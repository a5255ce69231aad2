//! The texts of expressions that are names.
ghost use Rattle.std.specs.Prelude.{◌≡◌, IsTrue};
ghost use Rattle.snap_core.specs.View.{view};
ghost use Rattle.expr_form.specs.Names as specs;
ghost use Rattle.expr_form.specs.Outcome.{Tells};

use crate::fault::Trouble;
use crate::scope::Scope;
use crate::texts::text_in;
use crate::walk::wrong;
use pointer_core::SchemaRule;
use snap_core::{Name, NameError, Snap};
use std::alloc::Global;

/// Reads the name of a property, a view, an action or a reason.
pub fn read_name(alloc: Global, value: &Snap) -> Result<Name, Trouble>
    ensures { Tells (λ name. name) result (specs.name_read (view value.now)) }
{
    let Some(text) = text_in(value) else {
        return Err(wrong(alloc, SchemaRule::Shape));
    };
    match Name::read(alloc, text) {
        Ok(name) => Ok(name),
        Err(NameError::BadName) => Err(wrong(alloc, SchemaRule::Name)),
        Err(NameError::Memory) => Err(Trouble::Memory),
    }
}

/// Reads the name of a variable, which must be bound.
pub fn read_variable(alloc: Global, value: &Snap, scope: &Scope) -> Result<Name, Trouble>
    ensures { Tells (λ name. name) result (specs.variable_read scope.now (view value.now)) }
{
    let name = read_name(alloc, value)?;
    if !scope.has(name.text()) {
        return Err(wrong(alloc, SchemaRule::Name));
    }
    Ok(name)
}

/// Whether a name is one of those that are bound everywhere.
fn is_fixed(name: &str) -> bool
    ensures { result ≡ specs.is_fixed name.now }
{
    name == "self" || name == "root"
}

/// Reads a name that is bound from there on.
pub fn read_binder(alloc: Global, value: &Snap) -> Result<Name, Trouble>
    ensures { Tells (λ name. name) result (specs.binder_read (view value.now)) }
{
    let name = read_name(alloc, value)?;
    if is_fixed(name.text()) {
        return Err(wrong(alloc, SchemaRule::Twice));
    }
    Ok(name)
}
