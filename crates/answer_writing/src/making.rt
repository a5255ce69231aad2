//! What the types make of answers whose nodes are taken.
ghost use Rattle.std.specs.Prelude.{decimal};
ghost use Rattle.snap_core.specs.Value.{Value as Made, IsPlain};
ghost use Rattle.snap_core.specs.View.{view, items_view};
ghost use Rattle.type_core.specs.Making.{Outcome, items_made, under};
ghost use Rattle.node_core.specs.View.{items};
ghost use Rattle.tree_core.specs.Answers.{Answers};
ghost use Rattle.eval_core.specs.Answer.{several};
ghost use Rattle.plain_answers.specs.Plainness.{IsPlainAnswer, ArePlainAnswers};
ghost use Rattle.answer_ops.specs.View.{answer_of, answers_of};
ghost use Rattle.answer_writing.specs.Taking as specs;
ghost use Rattle.answer_writing.specs.View.{taking, aim};

use crate::items::{item_held, items_at, items_under};
use crate::nodes::make_node;
use crate::plain::{are_plain, copy_plains};
use crate::taking::Taking;
use answer_ops::Value;
use list_core::Parts;
use node_core::Labelled;
use pointer_core::{Pointer, Refusal, Rule};
use snap_core::{Items, Snap, TypeNo};
use std::alloc::Global;
use tree_core::{TreeError, refuse};
use tree_reading::referred_by;
use type_core::{MakeError, make};

/// What the type of a place makes of an answer, the limits of the whole aside.
#[cycle(making)]
pub fn make_answer(
    alloc: Global,
    by: &Taking,
    x: &Value,
    of: TypeNo,
    held: Option<&Labelled>,
) -> Result<Snap, TreeError>
    requires { IsPlainAnswer (answer_of x.now) }
    ensures { Answers view result (specs.answer_made (taking by.now) (answer_of x.now) (aim of held.entry)) }
{
    match x {
        Value::Plain(value) => make_plain(alloc, by, value, of),
        Value::Node(n) => make_node(alloc, by, *n, referred_by(by.types, of)),
        Value::Several(xs) => make_several(alloc, by, xs.as_slice(), of, held),
    }
}

/// What a type makes of a plain value; one that is too large by itself is taken as it is given, since what holds it is
/// then too large when it is made.
fn make_plain(alloc: Global, by: &Taking, value: &Snap, of: TypeNo) -> Result<Snap, TreeError>
    requires { IsPlain (view value.now) }
    ensures { Answers view result (specs.plain_made (taking by.now) (view value.now) of.0) }
{
    match make(alloc, by.types, of, Some(value)) {
        Err(
            MakeError::Refused(
                Refusal {
                    rule: Rule::Large,
                    ..
                },
            ),
        ) => Ok(value.clone_in(alloc)?),
        made => Ok(made?),
    }
}

/// Several answers: a plain list where no node stands in them, and otherwise item by item.
#[cycle(making)]
fn make_several(
    alloc: Global,
    by: &Taking,
    xs: &[Value],
    of: TypeNo,
    held: Option<&Labelled>,
) -> Result<Snap, TreeError>
    requires { ArePlainAnswers (answers_of xs.now) }
    ensures { Answers view result (specs.answer_made (taking by.now) (several (answers_of xs.now)) (aim of held.entry)) }
{
    if are_plain(xs) {
        let list = Snap::List(copy_plains(alloc, xs)?);
        return make_plain(alloc, by, &list, of);
    }
    match items_at(alloc, by.types, of) {
        Some(of) => Ok(Snap::List(make_items(alloc, by, xs, of, items_under(held))?)),
        None => Err(refuse(Pointer::new(alloc), Rule::Mistyped)),
    }
}

/// The items of an array, each beside what stands at its index.
#[cycle(making)]
fn make_items(
    alloc: Global,
    by: &Taking,
    xs: &[Value],
    of: TypeNo,
    held: &[Labelled],
) -> Result<Items, TreeError>
    requires { ArePlainAnswers (answers_of xs.now) }
    ensures { Answers items_view result (items_made 0 of.0 (specs.answers_made (taking by.now) (answers_of xs.now) (items held.now))) }
{
    let mut made = Parts::new(alloc);
    for i in 0..xs.len() {
        let x = &xs[i];
        let value = make_answer(alloc, by, x, of, item_held(x, held, i));
        let value = under_index(i, value)?;
        made.push(value)?;
    }
    Ok(made)
}

/// What making an item came to, as it reads from its list.
fn under_index(index: usize, made: Result<Snap, TreeError>) -> Result<Snap, TreeError>
    ensures { (outcome : Outcome Made) → Answers view made outcome
        → Answers view result (under (decimal index) outcome) }
{
    match made {
        Err(TreeError::Refused(Refusal { path, rule })) => {
            Err(refuse(path.under_index(index)?, rule))
        }
        made => made,
    }
}
