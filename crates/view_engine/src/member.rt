//! What names lead to.
#![tactic(auto, unfolding(eval_core::specs::Run::lift, eval_core::specs::Run::looks, eval_core::specs::Run::andthen, eval_core::specs::Run::joined, crate::specs::TreeSight::sight_of))]

ghost use Rattle.std.specs.Prelude.{◌≡◌, IfOk, codes};
ghost use Rattle.answer_ops.specs.View.{answer_of};
ghost use Rattle.eval_core.specs.Reading.{got, own_got, got_of_kind};
ghost use Rattle.eval_core.specs.Answer.{node};
ghost use Rattle.eval_core.specs.Scope.{bound_in};
ghost use Rattle.view_engine.specs.Got.{Finds, IsKnown, Admits};
ghost use Rattle.view_engine.specs.Names.{names_of};
ghost use Rattle.view_engine.specs.Progress.{scope_of};
ghost use Rattle.view_engine.specs.Saying.{member_of};

use crate::halt::{Fault, Halt};
use crate::names::{Names, bound};
use crate::reading::{field, property};
use crate::schema::{Bodies, Named};
use crate::scope::{Scope, first_going, is_going};
use answer_ops::Value;
use edit_core::Kind;
use eval_core::Site;
use expr_syntax::ViewNo;
use pointer_core::Rule;
use snap_core::{ModelNo, Name, NodeNo, Snap};

/// What a name leads to: a value that is there, or a view that is asked.
#[derive(Debug, Drop)]
pub enum Got {
    Value(Value),
    View(NodeNo, ViewNo),
}

/// A property or a view of `self`.
pub fn own_lookup<S: Bodies>(
    scope: &Scope<'_, S>,
    names: &Names<'_>,
    name: &Name,
) -> Result<Got, Halt>
    ensures found { Finds (scope_of S.says scope.now) result (own_got (scope_of S.says scope.now) name.now (bound_in (codes "self") (names_of names.now))) }
    ensures known { IfOk result (IsKnown (S.says scope.now.schema.now)) }
{
    match bound(names, "self") {
        Some(own) => lookup(scope, own, name),
        None => Err(scope.refused(Rule::Kind)),
    }
}

/// A property or a view of a model, or a field of a plain record.
pub fn lookup<S: Bodies>(scope: &Scope<'_, S>, from: &Value, name: &Name) -> Result<Got, Halt>
    ensures found { Finds (scope_of S.says scope.now) result (got (scope_of S.says scope.now) name.now (answer_of from.now)) }
    ensures known { IfOk result (IsKnown (S.says scope.now.schema.now)) }
{
    match from {
        Value::Node(n) => node_lookup(scope, *n, name),
        Value::Plain(Snap::Dict(fields)) => {
            Ok(Got::Value(field(scope.alloc, fields.as_slice(), name)?))
        }
        _ => Err(scope.refused(Rule::Kind)),
    }
}

fn node_lookup<S: Bodies>(scope: &Scope<'_, S>, n: NodeNo, name: &Name) -> Result<Got, Halt>
    ensures found { Finds (scope_of S.says scope.now) result (got (scope_of S.says scope.now) name.now (node n)) }
    ensures known { IfOk result (IsKnown (S.says scope.now.schema.now)) }
{
    match scope.tree.kind(n) {
        None => Err(scope.refused(Rule::Dead)),
        Some(Kind::Model(m)) => model_lookup(scope, n, m, name),
        Some(_) => Err(scope.refused(Rule::Kind)),
    }
}

fn model_lookup<S: Bodies>(
    scope: &Scope<'_, S>,
    n: NodeNo,
    m: ModelNo,
    name: &Name,
) -> Result<Got, Halt>
    ensures found { Finds (scope_of S.says scope.now) result (got_of_kind (scope_of S.says scope.now) n name.now (Kind.Model m)) }
    ensures known { IfOk result (IsKnown (S.says scope.now.schema.now)) }
{
    match scope.schema.named(m, name) {
        Some(Named::Property) => Ok(Got::Value(property(scope, n, name)?)),
        Some(Named::View(v)) => Ok(Got::View(n, v)),
        None => Err(scope.refused(Rule::Kind)),
    }
}

/// Admits a view of a node, with room for so many more views behind it: refused `dead`, then `cycle`, then `deep`.
pub fn admit<S: Bodies>(scope: &Scope<'_, S>, n: NodeNo, v: ViewNo) -> Result<u32, Halt>
    ensures { Admits S.says scope.now (record { node = n; view = v }) result }
{
    if scope.tree.kind(n).is_none() {
        return Err(refused_at(Site::Frame, Rule::Dead));
    }
    if is_going(&scope.going, n, v) {
        return Err(refused_at(Site::View(n, v), Rule::Cycle));
    }
    if scope.room == 0 {
        return Err(refused_at(first_going(&scope.going, n, v), Rule::Deep));
    }
    Ok(scope.room - 1)
}

/// A refusal at a site.
pub fn refused_at(site: Site, rule: Rule) -> Halt
    ensures { result ≡ Halt.Refused (record { rule = rule; site = site }) }
{
    Halt::Refused(Fault { rule, site })
}
