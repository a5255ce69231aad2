ghost use Rattle.std.specs.Prelude.{◌≡◌, ◌++◌, IsTrue, pos, Ok, length};
ghost use Rattle.snap_core.specs.Value.{boolean, integer, text};
ghost use Rattle.snap_core.specs.View.{view};
ghost use Rattle.plain_ops.specs.Outcome.{AnswersOp};
ghost use Rattle.plain_ops.specs.Limits as limits;
ghost use Rattle.plain_ops.specs.Limits.{in_range};

use crate::errors::OpError;
use snap_core::{Snap, Txt, is_whole};
use std::alloc::Global;

/// The greatest weight of a result.
const MOST_WEIGHT: u64 = 1_048_576;

/// The greatest depth of a result.
const MOST_DEPTH: u64 = 64;

/// An integer, where it is whole.
pub fn whole(n: i128) -> Result<Snap, OpError>
    ensures { AnswersOp result (in_range (Ok (integer n))) }
{
    if is_whole(n) {
        Ok(Snap::Int(n as i64))
    } else {
        Err(OpError::Range)
    }
}

/// A number of parts, as an integer.
pub fn counted(n: usize) -> Result<Snap, OpError>
    ensures { AnswersOp result (in_range (Ok (integer (pos n)))) }
{
    whole(n as i128)
}

pub fn truth(b: bool) -> Result<Snap, OpError>
    ensures { AnswersOp result (in_range (Ok (boolean b))) }
{
    Ok(Snap::Bool(b))
}

/// Two texts joined.
pub fn joined(alloc: Global, front: &Txt, back: &Txt) -> Result<Snap, OpError>
    ensures { AnswersOp result (in_range (Ok (text (front.now ++ back.now)))) }
{
    if front.len() as u128 + back.len() as u128 >= MOST_WEIGHT as u128 {
        return Err(OpError::Range);
    }
    let mut joined = Txt::copy(alloc, front.text())?;
    joined.push_str(back.text())?;
    Ok(Snap::Text(joined))
}

/// A copy of a value, where it may be a result.
pub fn bounded(alloc: Global, value: &Snap) -> Result<Snap, OpError>
    ensures { AnswersOp result (in_range (Ok (view value.now))) }
{
    if is_bounded(value) {
        Ok(value.clone_in(alloc)?)
    } else {
        Err(OpError::Range)
    }
}

fn is_bounded(value: &Snap) -> bool
    ensures { result ≡ limits.is_bounded (view value.now) }
{
    is_no_wide_integer(value)
        && value.weight(MOST_WEIGHT + 1) <= MOST_WEIGHT
        && value.depth(MOST_DEPTH + 1) <= MOST_DEPTH
}

fn is_no_wide_integer(value: &Snap) -> bool
    ensures { result ≡ limits.is_no_wide_integer (view value.now) }
{
    match value {
        Snap::Int(n) => is_whole(i128::from(*n)),
        _ => true,
    }
}
