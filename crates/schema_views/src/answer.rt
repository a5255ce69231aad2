//! What views answer, as values.
ghost use Rattle.std.specs.Prelude.{◌≡◌, ◌+◌, ◌≤◌, ◌<◌, IfOk};
ghost use Rattle.snap_core.specs.Value.{IsPlain};
ghost use Rattle.snap_core.specs.View.{view, items_view};
ghost use Rattle.pointer_core.specs.Path.{printed};
ghost use Rattle.edit_core.specs.Labelled.{bare};
ghost use Rattle.answer_ops.specs.View.{answer_of, answers_of};
ghost use Rattle.view_engine.specs.Did.{cost_of};
ghost use Rattle.expr_core.specs.Plain.{HavePlainConstants};
ghost use Rattle.expr_core.specs.Schema.{view_count, views_of};
ghost use Rattle.live_tree.specs.Contents.{state};
ghost use Rattle.schema_views.specs.Answering.{Shows, answered, answer_value, answer_values, only, path_in, run_of};
ghost use Rattle.schema_views.specs.Locating.{asked_of};

use crate::locate::ViewOf;
use crate::viewed::Viewed;
use answer_ops::{Value, Values};
use expr_core::Schema;
use expr_syntax::Steps;
use list_core::Parts;
use live_tree::Tree;
use snap_core::{Field, NodeNo, Snap, Txt};
use std::alloc::{AllocError, Global};
use std::sync::ledger::Ledger;
use tree_core::TreeError;
use view_engine::{RunError, Views};

/// What a view of a node answers: `{"plain":value}`, `{"node":pointer}` or `{"several":[answers]}`, in the words of the
/// replies of a host. Refusals are those of evaluating, with their paths.
pub fn answer_view<L: Ledger>(
    alloc: Global,
    tree: &Tree,
    schema: &Schema,
    of: ViewOf,
    steps: &mut Steps<L>,
) -> Result<Snap, RunError>
    requires { of.view.0 < view_count schema.now }
    ensures answer { Shows result (answered schema.now.types (views_of schema.now) (asked_of of) (state tree.now).tree) }
    ensures plain { IfOk result (λ answer. IsPlain (view answer)) }
    ensures ticks { steps.new ≤ steps.old + cost_of (run_of schema.now.types (views_of schema.now) (asked_of of) (state tree.now).tree) }
{
    values_are_plain(tree, schema);
    let viewed = Viewed { schema };
    let answer = Views::new().ask(alloc, tree, &viewed, of.node, of.view, steps)?;
    Ok(show_answer(alloc, tree, answer)?)
}

/// The value of a tree is plain, and so are the constants in the views of a schema. It does nothing.
pub fn values_are_plain(tree: &Tree, schema: &Schema)
    ensures value { IsPlain (bare (state tree.now).tree) }
    ensures constants { HavePlainConstants (views_of schema.now) }
{
    let _ = tree.mark();
    let _ = schema.view(schema.root(), "");
}

#[cycle(show)]
fn show_answer(alloc: Global, tree: &Tree, answer: Value) -> Result<Snap, AllocError>
    ensures { IfOk result (λ shown. view shown ≡ answer_value (path_in (state tree.now).tree) (answer_of answer)) }
{
    match answer {
        Value::Plain(value) => only(alloc, "plain", value),
        Value::Node(n) => only(alloc, "node", Snap::Text(path_of(alloc, tree, n)?)),
        Value::Several(answers) => {
            only(
                alloc,
                "several",
                Snap::List(show_answers(alloc, tree, answers)?),
            )
        }
    }
}

#[cycle(show)]
fn show_answers(alloc: Global, tree: &Tree, answers: Values) -> Result<Parts<Snap>, AllocError>
    ensures { IfOk result (λ shown. items_view shown ≡ answer_values (path_in (state tree.now).tree) (answers_of answers)) }
{
    let mut shown = Parts::new(alloc);
    for answer in answers.into_vec() {
        shown.push(show_answer(alloc, tree, answer)?)?;
    }
    Ok(shown)
}

// A record of one entry.
fn only(alloc: Global, key: &str, value: Snap) -> Result<Snap, AllocError>
    ensures { IfOk result (λ made. view made ≡ only key.now (view value)) }
{
    let mut fields = Parts::new(alloc);
    fields.push(Field {
        key: Txt::copy(alloc, key)?,
        value,
    })?;
    Ok(Snap::Dict(fields))
}

// The text of a node's path; of the empty path, where it is dead.
fn path_of(alloc: Global, tree: &Tree, n: NodeNo) -> Result<Txt, AllocError>
    ensures { IfOk result (λ text. text ≡ printed (path_in (state tree.now).tree n)) }
{
    match tree.path_of(alloc, n) {
        Ok(path) => path.print(),
        Err(TreeError::Memory) => Err(AllocError),
        Err(TreeError::Refused(_)) => Ok(Txt::copy(alloc, "")?),
    }
}
