ghost use Rattle.std.specs.Prelude.{◌≡◌};
ghost use Rattle.snap_core.specs.View.{view};
ghost use Rattle.eval_core.specs.Answer.{Answer};
ghost use Rattle.tree_core.specs.Write.{write_of};
ghost use Rattle.answer_writing.specs.Giving.{with_value};
ghost use Rattle.answer_writing.specs.View.{in_manner};

use snap_core::Snap;
use tree_core::Change;

/// How a value comes to a place: in the place of what stands there, or before it.
#[derive(Clone, Copy, Debug)]
pub enum Manner {
    Set,
    Insert,
}

/// The change that a value is in a manner.
pub fn change_by(manner: Manner, value: Snap) -> Change
    ensures { (x : Answer) → write_of result ≡ with_value (in_manner manner x) (view value) }
{
    match manner {
        Manner::Set => Change::Set(value),
        Manner::Insert => Change::Insert(value),
    }
}
