//! How heavy and how deep what is made may be.
ghost use Rattle.std.specs.Prelude.{◌≡◌};
ghost use Rattle.snap_core.specs.View.{view};
ghost use Rattle.type_core.specs.Making as specs;

use snap_core::Snap;

/// The greatest depth of a value that is made.
const MOST_DEPTH: u64 = 64;

/// Whether a value is no heavier than this, and no deeper than what is made may be.
pub fn fits(made: &Snap, most_weight: u32) -> bool
    ensures { result ≡ specs.fits most_weight (view made.now) }
{
    let most_weight = u64::from(most_weight);
    made.weight(most_weight + 1) <= most_weight && made.depth(MOST_DEPTH + 1) <= MOST_DEPTH
}
