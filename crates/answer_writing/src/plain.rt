//! Answers in which no node stands.
ghost use Rattle.std.specs.Prelude.{◌≡◌, true, Some, IfOk, is_some};
ghost use Rattle.snap_core.specs.View.{view, items_view};
ghost use Rattle.answer_ops.specs.View.{answer_of, answers_of};
ghost use Rattle.answer_writing.specs.Taking.{plain_in, plains_in};

use answer_ops::Value;
use list_core::Parts;
use snap_core::{Items, Snap};
use std::alloc::{AllocError, Global};

/// Whether an answer is a plain value: no node stands in it.
#[cycle(plain)]
pub fn is_plain(x: &Value) -> bool
    ensures { result ≡ is_some (plain_in (answer_of x.now)) }
{
    match x {
        Value::Plain(_) => true,
        Value::Node(_) => false,
        Value::Several(xs) => are_plain(xs.as_slice()),
    }
}

#[cycle(plain)]
pub fn are_plain(xs: &[Value]) -> bool
    ensures { result ≡ is_some (plains_in (answers_of xs.now)) }
{
    for x in xs {
        if !is_plain(x) {
            return false;
        }
    }
    true
}

/// The plain value that an answer is.
#[cycle(copy)]
pub fn copy_plain(alloc: Global, x: &Value) -> Result<Snap, AllocError>
    requires { is_some (plain_in (answer_of x.now)) ≡ true }
    ensures { IfOk result (λ value. plain_in (answer_of x.now) ≡ Some (view value)) }
{
    match x {
        Value::Plain(value) => Ok(value.clone_in(alloc)?),
        Value::Node(_) => unreachable!(),
        Value::Several(xs) => Ok(Snap::List(copy_plains(alloc, xs.as_slice())?)),
    }
}

/// The plain values that answers are.
#[cycle(copy)]
pub fn copy_plains(alloc: Global, xs: &[Value]) -> Result<Items, AllocError>
    requires { is_some (plains_in (answers_of xs.now)) ≡ true }
    ensures { IfOk result (λ values. plains_in (answers_of xs.now) ≡ Some (items_view values)) }
{
    let mut values = Parts::new(alloc);
    for x in xs {
        values.push(copy_plain(alloc, x)?)?;
    }
    Ok(values)
}
