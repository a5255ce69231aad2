//! Requests for actions.
ghost use Rattle.std.specs.Prelude.{◌≡◌, All, None, IfOk, OnOk, OnErr};
ghost use Rattle.snap_core.specs.Value.{IsPlain, ArePlain};
ghost use Rattle.snap_core.specs.View.{items_view};
ghost use Rattle.patch_core.specs.Printing.{HasPlainValues};
ghost use Rattle.plain_answers.specs.Plainness.{ArePlainAnswers};
ghost use Rattle.answer_ops.specs.View.{answers_of};
ghost use Rattle.edit_core.specs.Labelled.{bare};
ghost use Rattle.expr_core.specs.Plain.{HavePlainConstants, HavePlainActions};
ghost use Rattle.expr_core.specs.Schema.{behaviours_shown, views_of};
ghost use Rattle.live_tree.specs.Contents.{state};
ghost use Rattle.live_tree.specs.Laws.{CanBeTakenBack};
ghost use Rattle.tree_core.specs.State.{State, mark_of, patches_of};
ghost use Rattle.action_steps.specs.Acting.{callee_of};
ghost use Rattle.action_steps.specs.Doing.{spent};
ghost use Rattle.doc_core.specs.Acting.{acted_on, after_outcome, after_run, most_act_steps, node_there, plain_answers, run_of};
ghost use Rattle.doc_core.specs.Documents.{IsDocument};
ghost use Rattle.doc_core.specs.Staging.{StagesAct, IsAsBefore, IsStagedAfter, TakesSteps, RunsTo, CostsOf, outcome_of};

use crate::document::{Document, Staged};
use crate::error::DocError;
use crate::staging::settle;
use crate::viewing::unknown;
use action_run::{Callee, run};
use answer_ops::{Value, Values};
use expr_core::Schema;
use expr_syntax::Steps;
use list_core::Parts;
use live_tree::{Mark, Tree};
use pointer_core::{Pointer, Refusal};
use schema_views::values_are_plain;
use snap_core::{NodeNo, Snap};
use std::alloc::{AllocError, Global};
use std::sync::ledger::Ledger;
use tree_core::Place;
use tree_reading::Held;
use view_engine::RunError;

impl Document {
    /// Runs an action of the node at a pointer with plain arguments, and settles the document. Refused `path` where the
    /// pointer is no place, and `unknown`, at the place and the name, where no model node is there or its model has no
    /// such action; then as running is refused. A refusal that left patches stands beside them; after any other, and
    /// after want of memory, all is as before.
    pub fn act<L: Ledger>(
        &mut self,
        alloc: Global,
        schema: &Schema,
        path: &Pointer,
        name: &str,
        args: &[Snap],
        steps: &mut Steps<L>,
    ) -> Result<Staged, DocError>
        requires document { IsDocument schema.now.types (state self.old) }
        requires plain { ArePlain (items_view args.now) }
        ensures outcome { StagesAct result (acted_on schema.now.types (behaviours_shown schema.now) path.now name.now (items_view args.now) (state self.old)) (state self.new) }
        ensures staged { OnOk result (IsStagedAfter schema.now.types (state self.old) (state self.new)) }
        ensures unchanged { OnErr result (IsAsBefore (state self.old) (state self.new)) }
        ensures plain { IfOk result (λ staged. All HasPlainValues staged.patches) }
        ensures ticks { TakesSteps result (most_act_steps schema.now.types (behaviours_shown schema.now) path.now name.now (items_view args.now) (state self.old)) steps.old steps.new }
    {
        let place = self.tree.at(alloc, path)?;
        let Some(node) = node_at(&self.tree, schema, &place) else {
            return Err(unknown(alloc, path, name)?);
        };
        let args = answers(alloc, args)?;
        let callee = Callee {
            node,
            name,
            args: &args,
        };
        all_is_plain(&self.tree, schema);
        act_on(&mut self.tree, alloc, schema, &callee, steps)
    }
}

// The value of a tree is plain, and so are the constants in the views and the actions of a schema. It does nothing.
fn all_is_plain(tree: &Tree, schema: &Schema)
    ensures value { IsPlain (bare (state tree.now).tree) }
    ensures views { HavePlainConstants (views_of schema.now) }
    ensures actions { HavePlainActions (behaviours_shown schema.now) }
{
    values_are_plain(tree, schema);
    let _ = schema.action(schema.root(), "");
}

// The node that a place holds.
fn node_at(tree: &Tree, schema: &Schema, place: &Place) -> Option<NodeNo>
    ensures { result ≡ node_there schema.now.types place.now (state tree.now).tree }
{
    match tree.held(schema.types(), place) {
        Some(Held::Node(node)) => Some(node),
        _ => None,
    }
}

// Values as the arguments of an action.
fn answers(alloc: Global, values: &[Snap]) -> Result<Values, AllocError>
    ensures { IfOk result (λ answers. answers_of answers ≡ plain_answers (items_view values.now)) }
{
    let mut answers = Parts::new(alloc);
    for value in values {
        answers.push(Value::Plain(value.clone_in(alloc)?))?;
    }
    Ok(answers)
}

// Runs an action of a document's tree, and settles what it wrote.
fn act_on<L: Ledger>(
    tree: &mut Tree,
    alloc: Global,
    schema: &Schema,
    callee: &Callee<'_>,
    steps: &mut Steps<L>,
) -> Result<Staged, DocError>
    requires { ArePlainAnswers (answers_of callee.now.args.now) }
    ensures outcome { StagesAct result (after_run schema.now.types (run_of schema.now.types (behaviours_shown schema.now) (callee_of callee.now) (state tree.old))) (state tree.new) }
    ensures ticks { TakesSteps result (spent (run_of schema.now.types (behaviours_shown schema.now) (callee_of callee.now) (state tree.old)).state.met) steps.old steps.new }
    ensures kept { OnOk result (CanBeTakenBack (state tree.old) (state tree.new)) }
    ensures unchanged { OnErr result (IsAsBefore (state tree.old) (state tree.new)) }
{
    let mark = tree.mark();
    let fault = run_on(tree, alloc, schema, callee, steps)?;
    let staged = settle(tree, alloc, schema.types(), mark)?;
    with_fault(tree, mark, staged, fault)
}

// Runs an action, and tells its refusal. After want of memory the tree is as before.
fn run_on<L: Ledger>(
    tree: &mut Tree,
    alloc: Global,
    schema: &Schema,
    callee: &Callee<'_>,
    steps: &mut Steps<L>,
) -> Result<Option<Refusal>, DocError>
    requires { ArePlainAnswers (answers_of callee.now.args.now) }
    ensures outcome { RunsTo result (run_of schema.now.types (behaviours_shown schema.now) (callee_of callee.now) (state tree.old)) (state tree.new) }
    ensures ticks { CostsOf result (run_of schema.now.types (behaviours_shown schema.now) (callee_of callee.now) (state tree.old)) steps.old steps.new }
    ensures kept { OnOk result (CanBeTakenBack (state tree.old) (state tree.new)) }
    ensures unchanged { OnErr result (IsAsBefore (state tree.old) (state tree.new)) }
{
    let mark = tree.mark();
    match run(alloc, tree, schema, callee, steps) {
        Ok(()) => Ok(None),
        Err(RunError::Refused(refusal)) => Ok(Some(refusal)),
        Err(RunError::Memory) => {
            tree.roll_back(mark);
            Err(DocError::Memory)
        }
    }
}

// Staged with the refusal beside the patches, unless it left none.
fn with_fault(
    tree: &mut Tree,
    mark: Mark,
    staged: Staged,
    fault: Option<Refusal>,
) -> Result<Staged, DocError>
    requires patches { staged.patches ≡ patches_of (state tree.old) }
    requires faultless { staged.fault ≡ None }
    ensures outcome { StagesAct result (after_outcome (outcome_of fault) (state tree.old)) (state tree.new) }
    ensures stays { OnOk result (state tree.new ≡ state tree.old) }
    ensures unchanged { (before : State) → mark.0 ≡ mark_of before → CanBeTakenBack before (state tree.old)
        → OnErr result (IsAsBefore before (state tree.new)) }
{
    match fault {
        None => Ok(staged),
        Some(refusal) if staged.patches.is_empty() => {
            tree.roll_back(mark);
            Err(DocError::Refused(refusal))
        }
        Some(refusal) => Ok(Staged {
            patches: staged.patches,
            fault: Some(refusal),
        }),
    }
}
