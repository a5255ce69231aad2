//! Sites told as paths.
#![tactic(auto, unfolding(eval_core::specs::Run::lift, eval_core::specs::Run::looks, eval_core::specs::Run::andthen, eval_core::specs::Run::joined, crate::specs::TreeSight::sight_of))]

ghost use Rattle.std.specs.Prelude.{◌≡◌, ◌∷◌, ◌++◌, [], Result, MatchResult};
ghost use Rattle.answer_ops.specs.View.{answer_of};
ghost use Rattle.eval_core.specs.Answer.{Answer};
ghost use Rattle.eval_core.specs.Run as run;
ghost use Rattle.view_engine.specs.Halts.{Answers};
ghost use Rattle.view_engine.specs.Progress.{telling_by, sight_in};
ghost use Rattle.view_engine.specs.Told.{Tells, path_of};
ghost use Rattle.view_engine.specs.declared.halt.RunError.TheVariants as errors;

use crate::halt::{Fault, Halt, RunError};
use crate::schema::Bodies;
use crate::scope::Scope;
use answer_ops::Value;
use eval_core::Site;
use pointer_core::{Pointer, Refusal};
use snap_core::{NodeNo, Txt};
use tree_core::TreeError;

/// What evaluating came to, as it is told.
pub fn told<S: Bodies>(
    scope: &Scope<'_, S>,
    frame: &Pointer,
    given: Result<Value, Halt>,
) -> Result<Value, RunError>
    ensures { (outcome : Result Answer run.Fault) → Answers answer_of given outcome → Tells (telling_by S.says scope.now frame.now) result outcome }
{
    match given {
        Ok(value) => Ok(value),
        Err(Halt::Memory) => Err(RunError::Memory),
        Err(Halt::Refused(Fault { rule, site })) => {
            let path = path_of(scope, frame, site)?;
            Err(RunError::Refused(Refusal { path, rule }))
        }
    }
}

fn path_of<S: Bodies>(
    scope: &Scope<'_, S>,
    frame: &Pointer,
    site: Site,
) -> Result<Pointer, RunError>
    ensures { MatchResult result (λ path. path ≡ path_of (telling_by S.says scope.now frame.now) site) (λ error. error ≡ errors.Memory) }
{
    match site {
        Site::Frame => Ok(frame.clone_in()?),
        Site::View(n, v) => match scope.schema.view_name(v) {
            Some(name) => under(scope, n, Txt::copy(scope.alloc, name.text())?),
            None => node_path(scope, n),
        },
        Site::Entry(n, token) => under(scope, n, token),
    }
}

/// The path of a part of a node.
fn under<S: Bodies>(scope: &Scope<'_, S>, n: NodeNo, token: Txt) -> Result<Pointer, RunError>
    ensures { MatchResult result (λ path. path ≡ (sight_in S.says scope.now).place n ++ token ∷ []) (λ error. error ≡ errors.Memory) }
{
    let mut path = node_path(scope, n)?;
    path.push(token)?;
    Ok(path)
}

fn node_path<S: Bodies>(scope: &Scope<'_, S>, n: NodeNo) -> Result<Pointer, RunError>
    ensures { MatchResult result (λ path. path ≡ (sight_in S.says scope.now).place n) (λ error. error ≡ errors.Memory) }
{
    match scope.tree.path_of(scope.alloc, n) {
        Ok(path) => Ok(path),
        Err(TreeError::Memory) => Err(RunError::Memory),
        Err(TreeError::Refused(_)) => Ok(Pointer::new(scope.alloc)),
    }
}
