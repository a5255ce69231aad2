ghost use Rattle.std.specs.Prelude.{◌≡◌};
ghost use Rattle.snap_core.specs.View.{view};
ghost use Rattle.plain_ops.specs.Limits as limits;
ghost use Rattle.eval_core.specs.Answer.{is_bounded_answer};
ghost use Rattle.answer_ops.specs.View.{answer_of};

use crate::value::Value;
use snap_core::{Snap, is_whole};

/// The greatest weight of a result.
const MOST_WEIGHT: u64 = 1_048_576;

/// The greatest depth of a result.
const MOST_DEPTH: u64 = 64;

/// Whether an answer may be a result: an integer is whole, and nothing is too heavy or too deep. A node counts as a
/// scalar.
pub fn is_bounded(value: &Value) -> bool
    ensures { result ≡ is_bounded_answer (answer_of value.now) }
{
    match value {
        Value::Plain(plain) => is_bounded_plain(plain),
        Value::Node(_) => true,
        Value::Several(_) => {
            value.weight(MOST_WEIGHT + 1) <= MOST_WEIGHT
                && value.depth(MOST_DEPTH + 1) <= MOST_DEPTH
        }
    }
}

fn is_bounded_plain(value: &Snap) -> bool
    ensures { result ≡ limits.is_bounded (view value.now) }
{
    is_no_wide_integer(value)
        && value.weight(MOST_WEIGHT + 1) <= MOST_WEIGHT
        && value.depth(MOST_DEPTH + 1) <= MOST_DEPTH
}

fn is_no_wide_integer(value: &Snap) -> bool
    ensures { result ≡ limits.is_no_wide_integer (view value.now) }
{
    match value {
        Snap::Int(n) => is_whole(i128::from(*n)),
        _ => true,
    }
}
