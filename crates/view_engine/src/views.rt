ghost use Rattle.std.specs.Prelude.{◌≡◌, ◌+◌, ◌≤◌, [], OnOk, OnErr};
ghost use Rattle.pointer_core.specs.Path.{Path};
ghost use Rattle.expr_syntax.specs.Shown.{shown};
ghost use Rattle.eval_core.specs.Asking.{view_run, frame_scope};
ghost use Rattle.eval_core.specs.Evaluating.{evaluated};
ghost use Rattle.answer_ops.specs.View.{answer_of};
ghost use Rattle.live_tree.specs.Contents.{state};
ghost use Rattle.view_engine.specs.Asks.{sight_by, telling, in_frame, items_in_frame, items_evaluated};
ghost use Rattle.view_engine.specs.Did.{Did, course, cost_of};
ghost use Rattle.view_engine.specs.Names.{names_of, bindings_of};
ghost use Rattle.view_engine.specs.Progress.{scope_of, telling_by};
ghost use Rattle.view_engine.specs.Saying.{IsView};
ghost use Rattle.view_engine.specs.Told.{Tells};

use crate::evaluating::{evaluate, reach};
use crate::halt::{Halt, RunError};
use crate::member::Got;
use crate::names::{Env, Names};
use crate::path::told;
use crate::schema::Bodies;
use crate::scope::{Going, Scope};
use crate::telling::all_items;
use answer_ops::Value;
use expr_syntax::{Expr, Steps, ViewNo};
use live_tree::Tree;
use pointer_core::Pointer;
use snap_core::NodeNo;
use std::alloc::Global;
use std::sync::ledger::Ledger;

/// How many views may be in progress.
const MOST_VIEWS: u32 = 100;

/// The views of one document. No answer is kept yet: each ask evaluates anew.
#[derive(Debug, Default, Drop)]
pub struct Views {}

/// An expression in a frame: the names that are bound there, and the frame's path.
pub struct Framed<'a> {
    pub expr: &'a Expr,
    pub env: &'a Env,
    pub frame: &'a Pointer,
}

impl Views {
    pub fn new() -> Views {
        Views {}
    }

    /// The answer of a view of a node. A dead node is refused at the empty path.
    pub fn ask<L: Ledger, S: Bodies>(
        &mut self,
        alloc: Global,
        tree: &Tree,
        schema: &S,
        n: NodeNo,
        v: ViewNo,
        steps: &mut Steps<L>,
    ) -> Result<Value, RunError>
        requires { IsView (S.says schema.now) v }
        ensures answer { Tells (telling (S.says schema.now) tree.now []) result (view_run (S.says schema.now).viewing (sight_by (S.says schema.now) tree.now) n v 0).outcome }
        ensures ticks { steps.new ≤ steps.old + cost_of (view_run (S.says schema.now).viewing (sight_by (S.says schema.now) tree.now) n v 0) }
    {
        let scope = outermost(alloc, tree, schema);
        let answer = reach(&scope, Got::View(n, v), steps);
        let here = Pointer::new(alloc);
        told(&scope, &here, answer)
    }

    /// What an expression of a statement or a condition gives, `counted` expressions of it having been counted before.
    /// After a refusal, and where memory runs out, `counted` is as before.
    pub fn evaluate<L: Ledger, S: Bodies>(
        &mut self,
        alloc: Global,
        tree: &Tree,
        schema: &S,
        framed_by: &Framed<'_>,
        counted: &mut u32,
        steps: &mut Steps<L>,
    ) -> Result<Value, RunError>
        ensures answer { Tells (telling (S.says schema.now) tree.now framed_by.now.frame.now) result (in_frame (S.says schema.now) tree.now framed_by.now counted.old).outcome }
        ensures counted { OnOk result (counted.new ≡ counted.old + (in_frame (S.says schema.now) tree.now framed_by.now counted.old).own) }
        ensures unchanged { OnErr result (counted.new ≡ counted.old) }
        ensures ticks { steps.new ≤ steps.old + cost_of (in_frame (S.says schema.now) tree.now framed_by.now counted.old) }
    {
        let scope = outermost(alloc, tree, schema);
        let names = Names::Listed(framed_by.env);
        let mut so_far = *counted;
        let answer = evaluate(&scope, framed_by.expr, &names, &mut so_far, steps);
        let value = told(&scope, framed_by.frame, answer)?;
        *counted = so_far;
        Ok(value)
    }

    /// What is walked of what an expression gives, all of it read in order, and counted as `evaluate` does.
    pub fn items<L: Ledger, S: Bodies>(
        &mut self,
        alloc: Global,
        tree: &Tree,
        schema: &S,
        framed_by: &Framed<'_>,
        counted: &mut u32,
        steps: &mut Steps<L>,
    ) -> Result<Value, RunError>
        ensures answer { Tells (telling (S.says schema.now) tree.now framed_by.now.frame.now) result (items_in_frame (S.says schema.now) tree.now framed_by.now counted.old).outcome }
        ensures counted { OnOk result (counted.new ≡ counted.old + (items_in_frame (S.says schema.now) tree.now framed_by.now counted.old).own) }
        ensures unchanged { OnErr result (counted.new ≡ counted.old) }
        ensures ticks { steps.new ≤ steps.old + cost_of (items_in_frame (S.says schema.now) tree.now framed_by.now counted.old) }
    {
        let scope = outermost(alloc, tree, schema);
        let names = Names::Listed(framed_by.env);
        let mut so_far = *counted;
        let answer = evaluate_items(&scope, framed_by.expr, &names, &mut so_far, steps);
        let value = told(&scope, framed_by.frame, answer)?;
        *counted = so_far;
        Ok(value)
    }
}

/// What is walked of what an expression gives, all of it read in order.
fn evaluate_items<L: Ledger, S: Bodies>(
    scope: &Scope<'_, S>,
    e: &Expr,
    names: &Names<'_>,
    counted: &mut u32,
    steps: &mut Steps<L>,
) -> Result<Value, Halt>
    ensures { Did answer_of result (items_evaluated (scope_of S.says scope.now) (shown e.now) (names_of names.now)) (course counted.old counted.new steps.old steps.new) }
{
    let from = evaluate(scope, e, names, counted, steps)?;
    all_items(scope, from)
}

/// By what the expressions of a frame are evaluated.
fn outermost<'a, S: Bodies>(alloc: Global, tree: &'a Tree, schema: &'a S) -> Scope<'a, S>
    ensures scope { scope_of S.says result ≡ frame_scope (S.says schema.now).viewing (sight_by (S.says schema.now) tree.now) }
    ensures told { (frame : Path) → telling_by S.says result frame ≡ telling (S.says schema.now) tree.now frame }
    ensures says { S.says result.schema.now ≡ S.says schema.now }
{
    Scope {
        alloc,
        tree,
        schema,
        going: Going::Nothing,
        room: MOST_VIEWS,
    }
}
