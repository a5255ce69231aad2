//! Whole numbers.
ghost use Rattle.std.specs.Prelude.{◌≡◌};
ghost use Rattle.snap_core.specs.Value as value;

/// The greatest integer of a value, and the least one without its sign: 2 to the power of 53, less 1.
const MOST: i128 = 9_007_199_254_740_991;

/// Whether an integer is one that a value may hold. A double holds each of them, and none of their
/// neighbours is taken for it (`Number.MAX_SAFE_INTEGER` of ECMAScript).
pub fn is_whole(n: i128) -> bool
    ensures { result ≡ value.is_whole n }
{
    -MOST <= n && n <= MOST
}
