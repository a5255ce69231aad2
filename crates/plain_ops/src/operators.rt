ghost use Rattle.std.specs.Prelude.{◌≡◌, Ok};
ghost use Rattle.std.specs.Option.{option_copied, option_map};
ghost use Rattle.snap_core.specs.Value.{value_at};
ghost use Rattle.snap_core.specs.View.{view, items_view, fields_view};
ghost use Rattle.plain_ops.specs.Outcome.{AnswersOp};
ghost use Rattle.plain_ops.specs.Limits.{in_range};
ghost use Rattle.plain_ops.specs.Applied as applied;

use crate::arithmetic::{difference, product, quotient, rest, sum};
use crate::errors::OpError;
use crate::limits::{bounded, counted, joined, truth};
use expr_syntax::Op;
use snap_core::{Field, Items, Snap, Txt};
use std::alloc::Global;

/// What an operator gives for plain values. An operator of one operand leaves `b` aside.
pub fn plain_op(alloc: Global, op: Op, a: &Snap, b: &Snap) -> Result<Snap, OpError>
    ensures { AnswersOp result (applied.operated op (view a.now) (view b.now)) }
{
    match op {
        Op::Add | Op::Sub | Op::Mul | Op::Div | Op::Mod => arithmetic(op, a, b),
        Op::Concat => match (a, b) {
            (Snap::Text(front), Snap::Text(back)) => joined(alloc, front, back),
            _ => Err(OpError::Kind),
        },
        Op::Text => decimal_text(alloc, a),
        Op::Eq => truth(a.equal(b)),
        Op::Lt => comes_before(a, b),
        Op::Not => match a {
            Snap::Bool(b) => truth(!*b),
            _ => Err(OpError::Kind),
        },
        Op::Item => part(alloc, a, b),
        Op::Has => match (a, b) {
            (Snap::Dict(fields), Snap::Text(key)) => {
                truth(field(fields.as_slice(), key.text()).is_some())
            }
            _ => Err(OpError::Kind),
        },
        Op::Size => size(a),
    }
}

/// An operator on two integers.
fn arithmetic(op: Op, a: &Snap, b: &Snap) -> Result<Snap, OpError>
    requires { applied.IsArithmetic op }
    ensures { AnswersOp result (applied.operated op (view a.now) (view b.now)) }
{
    let (Snap::Int(y), Snap::Int(z)) = (a, b) else {
        return Err(OpError::Kind);
    };
    match op {
        Op::Add => sum(*y, *z),
        Op::Sub => difference(*y, *z),
        Op::Mul => product(*y, *z),
        Op::Div => quotient(*y, *z),
        _ => rest(*y, *z),
    }
}

fn decimal_text(alloc: Global, a: &Snap) -> Result<Snap, OpError>
    ensures { AnswersOp result (in_range (applied.decimal_text (view a.now))) }
{
    let Snap::Int(z) = a else {
        return Err(OpError::Kind);
    };
    let digits = format!(in alloc; "{z}")?;
    joined(alloc, &Txt::from_string(digits), &Txt::new(alloc))
}

/// Integers in their order, texts by their bytes.
fn comes_before(a: &Snap, b: &Snap) -> Result<Snap, OpError>
    ensures { AnswersOp result (in_range (applied.comes_before (view a.now) (view b.now))) }
{
    match (a, b) {
        (Snap::Int(y), Snap::Int(z)) => truth(y < z),
        (Snap::Text(s), Snap::Text(u)) => truth(s.text() < u.text()),
        _ => Err(OpError::Kind),
    }
}

/// The item of a list at an index, or the value of a record under a key.
fn part(alloc: Global, a: &Snap, b: &Snap) -> Result<Snap, OpError>
    ensures { AnswersOp result (in_range (applied.part_of (view a.now) (view b.now))) }
{
    match (a, b) {
        (Snap::List(items), Snap::Int(z)) => match item(items, *z) {
            Some(item) => bounded(alloc, item),
            None => Err(OpError::Index),
        },
        (Snap::Dict(fields), Snap::Text(key)) => match field(fields.as_slice(), key.text()) {
            Some(value) => bounded(alloc, value),
            None => Ok(Snap::Null),
        },
        _ => Err(OpError::Kind),
    }
}

fn item(items: &Items, z: i64) -> Option<&Snap>
    ensures { option_map view (option_copied result) ≡ applied.item_of (items_view items.now) (applied.index_in z) }
{
    match index_of(z) {
        Some(index) => items.get(index),
        None => None,
    }
}

/// An integer as an index, if it isn't negative.
fn index_of(z: i64) -> Option<usize>
    ensures { result ≡ applied.index_in z }
{
    usize::try_from(z).ok()
}

/// The value of the first field with a key.
fn field<'a>(fields: &'a [Field], key: &str) -> Option<&'a Snap>
    ensures { option_map view (option_copied result) ≡ value_at key.now (fields_view fields.now) }
{
    for field in fields {
        if field.key.text() == key {
            return Some(&field.value);
        }
    }
    None
}

/// How many parts a value has, or how many Unicode scalar values a text.
fn size(a: &Snap) -> Result<Snap, OpError>
    ensures { AnswersOp result (in_range (applied.size_of (view a.now))) }
{
    match a {
        Snap::List(items) => counted(items.len()),
        Snap::Dict(fields) => counted(fields.len()),
        Snap::Text(text) => counted(text.text().chars().count()),
        _ => Err(OpError::Kind),
    }
}
