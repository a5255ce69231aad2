//! Expressions are counted before their parts.
ghost use Rattle.std.specs.Prelude.{◌≡◌, ◌+◌, ◌<◌, OnOk, IfOk};
ghost use Rattle.expr_syntax.specs.Shown.{shown};
ghost use Rattle.eval_core.specs.Run.{counts};
ghost use Rattle.view_engine.specs.Did.{Did, course};
ghost use Rattle.view_engine.specs.Progress.{scope_of, nothing_of};
ghost use Rattle.view_engine.specs.Steps.{IsStepOf};

use crate::halt::Halt;
use crate::schema::Bodies;
use crate::scope::Scope;
use crate::step::{Step, step_of};
use expr_syntax::{Expr, Steps};
use pointer_core::Rule;
use std::sync::ledger::Ledger;

/// How many expressions one body, statement or condition may evaluate.
pub const MOST_EXPRESSIONS: u32 = 100_000;

/// Counts an expression, and looks at it; refused `work` where too many were counted.
pub fn count<'a, L: Ledger, S: Bodies>(
    scope: &Scope<'_, S>,
    e: &'a Expr,
    counted: &mut u32,
    steps: &mut Steps<L>,
) -> Result<Step<'a>, Halt>
    ensures did { Did nothing_of result (counts (scope_of S.says scope.now).here) (course counted.old counted.new steps.old steps.new) }
    ensures step { IfOk result (λ step. IsStepOf step (shown e.now)) }
    ensures counted { OnOk result ((counted.old < 100000) × (counted.new ≡ counted.old + 1)) }
{
    if *counted >= MOST_EXPRESSIONS {
        return Err(scope.refused(Rule::Work));
    }
    *counted += 1;
    Ok(step_of(e.look(steps)))
}
