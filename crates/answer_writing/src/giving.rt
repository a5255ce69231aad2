ghost use Rattle.std.specs.Prelude.{◌≡◌, IfOk, Some};
ghost use Rattle.snap_core.specs.Value.{IsPlain};
ghost use Rattle.snap_core.specs.View.{view};
ghost use Rattle.node_core.specs.View.{plain};
ghost use Rattle.tree_core.specs.Answers.{Answers};
ghost use Rattle.tree_core.specs.Write.{write_of, WritesPlain};
ghost use Rattle.tree_core.specs.Writing.{written};
ghost use Rattle.tree_core.specs.Written.{target, tree};
ghost use Rattle.plain_answers.specs.Plainness.{IsPlainAnswer};
ghost use Rattle.answer_ops.specs.View.{answer_of};
ghost use Rattle.answer_writing.specs.Giving.{given};
ghost use Rattle.answer_writing.specs.Taking.{plain_in};
ghost use Rattle.answer_writing.specs.View.{giving_of, in_manner};
ghost use Rattle.answer_writing.specs.Written.{GivesPlain, value_given, ComesTo};

use crate::manner::{Manner, change_by};
use crate::placing::value_at;
use crate::plain::{copy_plain, is_plain};
use answer_ops::Value;
use snap_core::Snap;
use std::alloc::Global;
use tree_core::{Change, Target, Tree, TreeError};
use type_core::Types;

/// What is given to a place.
#[derive(Debug, Drop)]
pub enum Giving {
    /// An answer in the place of what stands there.
    Set(Value),
    /// An answer as a new item.
    Insert(Value),
    /// Nothing: what stands there goes.
    Remove,
}

/// The change that a place is given, each node in it replaced by what the types make of it; or the first rule that
/// giving doesn't meet before anything is written.
pub fn change_for(
    alloc: Global,
    types: &Types,
    to: &Target,
    giving: Giving,
    whole: &Tree,
) -> Result<Change, TreeError>
    requires answer { GivesPlain (giving_of giving) }
    requires tree { IsPlain (plain whole.now.root.now) }
    ensures outcome { ComesTo (λ w. written types.now (target to.now) w (tree whole.now)) result
        (given types.now (target to.now) (giving_of giving) (tree whole.now)) }
    ensures plain { IfOk result (λ change. WritesPlain (write_of change)) }
{
    match giving {
        Giving::Set(answer) => change_in(alloc, types, to, Manner::Set, answer, whole),
        Giving::Insert(answer) => change_in(alloc, types, to, Manner::Insert, answer, whole),
        Giving::Remove => Ok(Change::Remove),
    }
}

/// The change that an answer is in a manner.
fn change_in(
    alloc: Global,
    types: &Types,
    to: &Target,
    manner: Manner,
    answer: Value,
    whole: &Tree,
) -> Result<Change, TreeError>
    requires answer { IsPlainAnswer (answer_of answer) }
    requires tree { IsPlain (plain whole.now.root.now) }
    ensures outcome { ComesTo (λ w. written types.now (target to.now) w (tree whole.now)) result
        (given types.now (target to.now) (in_manner manner (answer_of answer)) (tree whole.now)) }
    ensures plain { IfOk result (λ change. WritesPlain (write_of change)) }
{
    let _ = types.root();
    let value = value_for(alloc, types, to, manner, answer, whole)?;
    Ok(change_by(manner, value))
}

/// The value that is written for an answer.
fn value_for(
    alloc: Global,
    types: &Types,
    to: &Target,
    manner: Manner,
    answer: Value,
    whole: &Tree,
) -> Result<Snap, TreeError>
    requires { IsPlainAnswer (answer_of answer) }
    ensures { let x = answer_of answer in
        Answers view result (value_given types.now (target to.now) (in_manner manner x) x (tree whole.now) (plain_in x)) }
{
    match answer {
        Value::Plain(value) => Ok(value),
        answer => {
            if is_plain(&answer) {
                Ok(copy_plain(alloc, &answer)?)
            } else {
                value_at(alloc, types, to, manner, &answer, whole)
            }
        }
    }
}
