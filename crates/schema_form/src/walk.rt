//! The first fault of a part, seen from the place itself or from one step above it.
ghost use Rattle.std.specs.Prelude.{◌≡◌, [], Ok, IfOk, decimal, List};
ghost use Rattle.expr_form.specs.declared.fault.Fault.{Fault as FaultSpec};
ghost use Rattle.schema_form.specs.declared.fault.FormError.TheVariants as error;
ghost use Rattle.schema_form.specs.Faults as faults;
ghost use Rattle.schema_form.specs.Outcome.{Finds};
ghost use Rattle.schema_form.specs.Told.{IsTold};

use crate::fault::FormError;
use expr_form::{Fault, Trouble};
use pointer_core::{Pointer, SchemaRule};
use std::alloc::Global;

/// A rule that isn't met at the place itself.
pub fn wrong(alloc: Global, rule: SchemaRule) -> FormError
    ensures { result ≡ error.Wrong (record { path = []; rule = rule }) }
{
    FormError::Wrong(Fault {
        path: Pointer::new(alloc),
        rule,
    })
}

/// Refuses by the rule, unless the test holds.
pub fn require(alloc: Global, holds: bool, rule: SchemaRule) -> Result<(), FormError>
    ensures { Finds result (faults.unless holds rule) }
{
    if holds {
        Ok(())
    } else {
        Err(wrong(alloc, rule))
    }
}

/// The outcome as it reads from one step higher up, where `token` leads down.
pub fn under<T>(token: &str, inner: Result<T, FormError>) -> Result<T, FormError>
    ensures finds { (found : List FaultSpec) → Finds inner found → Finds result (faults.under token.now found) }
    ensures ok { IfOk result (λ value. inner ≡ Ok value) }
{
    match inner {
        Err(FormError::Wrong(Fault { path, rule })) => {
            let path = path.under(token)?;
            Err(FormError::Wrong(Fault { path, rule }))
        }
        other => other,
    }
}

/// The outcome as it reads from the list whose item at `index` has it.
pub fn at_index<T>(index: usize, inner: Result<T, FormError>) -> Result<T, FormError>
    ensures finds { (found : List FaultSpec) → Finds inner found → Finds result (faults.under (decimal index) found) }
    ensures ok { IfOk result (λ value. inner ≡ Ok value) }
{
    match inner {
        Err(FormError::Wrong(Fault { path, rule })) => {
            let path = path.under_index(index)?;
            Err(FormError::Wrong(Fault { path, rule }))
        }
        other => other,
    }
}

/// What a part is read as by itself, or the place of the first expression in it that goes astray.
pub fn told<T>(read: Result<T, Trouble>) -> Result<Result<T, Pointer>, FormError>
    ensures { IsTold read result }
{
    match read {
        Ok(value) => Ok(Ok(value)),
        Err(Trouble::Astray(path)) => Ok(Err(path)),
        Err(Trouble::Wrong(fault)) => Err(FormError::Wrong(fault)),
        Err(Trouble::Memory) => Err(FormError::Memory),
    }
}
