//! Steps of the walk: the trouble of a part, seen from one step above it, and the parts of one form together.
ghost use Rattle.std.specs.Prelude.{◌≡◌, [], decimal, Result, Ok, Err, if◌then◌else◌};
ghost use Rattle.expr_form.specs.declared.fault.Trouble.TheVariants as trouble;
ghost use Rattle.expr_form.specs.Results.{lower, lowered, both_of, pushed_of, IsOrMemory};
ghost use Rattle.list_core.specs.Outcome.{Gives};

use crate::fault::{Fault, Trouble};
use list_core::Parts;
use pointer_core::{Pointer, SchemaRule};
use std::alloc::{AllocError, Global};

/// A rule that isn't met at the place itself.
pub fn wrong(alloc: Global, rule: SchemaRule) -> Trouble
    ensures { result ≡ trouble.Wrong (record { path = []; rule = rule }) }
{
    Trouble::Wrong(Fault {
        path: Pointer::new(alloc),
        rule,
    })
}

/// An expression that leads to no model, at the place itself.
pub fn astray(alloc: Global) -> Trouble
    ensures { result ≡ trouble.Astray [] }
{
    Trouble::Astray(Pointer::new(alloc))
}

/// The trouble as it reads from one step higher up, where `token` leads down.
fn raised(token: &str, inner: Trouble) -> Result<Trouble, AllocError>
    ensures { Gives result (lower token.now inner) }
{
    match inner {
        Trouble::Memory => Ok(Trouble::Memory),
        Trouble::Wrong(Fault { path, rule }) => {
            let path = path.under(token)?;
            Ok(Trouble::Wrong(Fault { path, rule }))
        }
        Trouble::Astray(path) => Ok(Trouble::Astray(path.under(token)?)),
    }
}

/// The trouble as it reads from the list whose item at `index` has it.
fn raised_index(index: usize, inner: Trouble) -> Result<Trouble, AllocError>
    ensures { Gives result (lower (decimal index) inner) }
{
    match inner {
        Trouble::Memory => Ok(Trouble::Memory),
        Trouble::Wrong(Fault { path, rule }) => {
            let path = path.under_index(index)?;
            Ok(Trouble::Wrong(Fault { path, rule }))
        }
        Trouble::Astray(path) => Ok(Trouble::Astray(path.under_index(index)?)),
    }
}

/// The outcome as it reads from one step higher up, where `token` leads down.
pub fn under<T>(token: &str, inner: Result<T, Trouble>) -> Result<T, Trouble>
    ensures { IsOrMemory result (lowered token.now inner) }
{
    match inner {
        Ok(value) => Ok(value),
        Err(trouble) => Err(raised(token, trouble)?),
    }
}

/// The outcome as it reads from the list whose item at `index` has it.
pub fn at_index<T>(index: usize, inner: Result<T, Trouble>) -> Result<T, Trouble>
    ensures { IsOrMemory result (lowered (decimal index) inner) }
{
    match inner {
        Ok(value) => Ok(value),
        Err(trouble) => Err(raised_index(index, trouble)?),
    }
}

/// Two parts, the first of which stands before the second. A fault of the second comes before a part that goes
/// astray, so both parts are read before either is looked at.
pub fn both<A: Drop, B: Drop>(
    first: Result<A, Trouble>,
    second: Result<B, Trouble>,
) -> Result<(A, B), Trouble>
    ensures { result ≡ both_of first second }
{
    match (first, second) {
        (Ok(first), Ok(second)) => Ok((first, second)),
        (Err(Trouble::Astray(_)), Err(Trouble::Memory)) => Err(Trouble::Memory),
        (Err(Trouble::Astray(_)), Err(Trouble::Wrong(fault))) => Err(Trouble::Wrong(fault)),
        (Err(trouble), _) => Err(trouble),
        (Ok(_), Err(trouble)) => Err(trouble),
    }
}

/// A list with one part more, which stands behind it.
pub fn pushed<T: Drop>(
    list: Result<Parts<T>, Trouble>,
    part: Result<T, Trouble>,
) -> Result<Parts<T>, Trouble>
    ensures { IsOrMemory result (pushed_of (both_of list part)) }
{
    let (mut list, part) = both(list, part)?;
    list.push(part)?;
    Ok(list)
}
