ghost use Rattle.std.specs.Prelude.{◌≡◌, Ok, int_div, int_rem, ◌+ℤ◌, ◌-ℤ◌, ◌*ℤ◌};
ghost use Rattle.snap_core.specs.Value.{integer};
ghost use Rattle.plain_ops.specs.Outcome.{AnswersOp};
ghost use Rattle.plain_ops.specs.Limits.{in_range};
ghost use Rattle.plain_ops.specs.Applied.{divided};

use crate::errors::OpError;
use crate::limits::whole;
use snap_core::Snap;

pub fn sum(y: i64, z: i64) -> Result<Snap, OpError>
    ensures { AnswersOp result (in_range (Ok (integer (y +ℤ z)))) }
{
    match y.checked_add(z) {
        Some(n) => whole(i128::from(n)),
        None => Err(OpError::Range),
    }
}

pub fn difference(y: i64, z: i64) -> Result<Snap, OpError>
    ensures { AnswersOp result (in_range (Ok (integer (y -ℤ z)))) }
{
    match y.checked_sub(z) {
        Some(n) => whole(i128::from(n)),
        None => Err(OpError::Range),
    }
}

pub fn product(y: i64, z: i64) -> Result<Snap, OpError>
    ensures { AnswersOp result (in_range (Ok (integer (y *ℤ z)))) }
{
    match y.checked_mul(z) {
        Some(n) => whole(i128::from(n)),
        None => Err(OpError::Range),
    }
}

/// The quotient, rounded towards zero.
pub fn quotient(y: i64, z: i64) -> Result<Snap, OpError>
    ensures { AnswersOp result (in_range (divided int_div y z)) }
{
    if z == 0 {
        return Err(OpError::Range);
    }
    match y.checked_div(z) {
        Some(n) => whole(i128::from(n)),
        None => Err(OpError::Range),
    }
}

/// The rest of a division, with the sign of `y`.
pub fn rest(y: i64, z: i64) -> Result<Snap, OpError>
    ensures { AnswersOp result (in_range (divided int_rem y z)) }
{
    if z == 0 {
        return Err(OpError::Range);
    }
    whole(i128::from(y.wrapping_rem(z)))
}
