//! Reading what places hold.
#![tactic(auto, unfolding(eval_core::specs::Run::lift, eval_core::specs::Run::looks, eval_core::specs::Run::andthen, eval_core::specs::Run::joined, crate::specs::TreeSight::sight_of))]

ghost use Rattle.std.specs.Prelude.{◌≡◌, IsSome, IfOk, MatchResult, Some, unwrap_or};
ghost use Rattle.snap_core.specs.Value.{value_at, null};
ghost use Rattle.snap_core.specs.View.{view, fields_view};
ghost use Rattle.list_core.specs.Outcome.{Gives};
ghost use Rattle.type_table.specs.Identifiers.{ident_of};
ghost use Rattle.tree_core.specs.Reading.{part_at_place};
ghost use Rattle.eval_core.specs.Answer.{plain};
ghost use Rattle.eval_core.specs.Reading.{held_answer, prop_answer, of_prop, prop_identifier, ref_got, ref_of_kind, ident_value};
ghost use Rattle.answer_ops.specs.View.{answer_of};
ghost use Rattle.view_engine.specs.Did.{Read};
ghost use Rattle.view_engine.specs.Progress.{scope_of, whole_in};
ghost use Rattle.view_engine.specs.TreeSight.{held_as, value_at_place};
ghost use Rattle.view_engine.specs.Walked.{place_site};

use crate::halt::Halt;
use crate::member::refused_at;
use crate::schema::{Bodies, Named};
use crate::scope::Scope;
use answer_ops::Value;
use edit_core::Kind;
use eval_core::Site;
use pointer_core::Rule;
use snap_core::{Field, Ident, ModelNo, Name, NodeNo, Snap, Txt};
use std::alloc::{AllocError, Global};
use tree_core::Place;
use tree_reading::Held;

/// The value of a field of a record; null where there is none.
#[tactic(auto, using(crate::proofs::Seeing::fields_read))]
pub fn field(alloc: Global, fields: &[Field], name: &Name) -> Result<Value, AllocError>
    ensures { IfOk result (λ value. answer_of value ≡ plain (unwrap_or (value_at name.now (fields_view fields.now)) null)) }
{
    for field in fields {
        if field.key.text() == name.text() {
            return Ok(Value::Plain(field.value.clone_in(alloc)?));
        }
    }
    Ok(Value::Plain(Snap::Null))
}

/// What a property of a model holds.
pub fn property<S: Bodies>(scope: &Scope<'_, S>, n: NodeNo, name: &Name) -> Result<Value, Halt>
    ensures { Read answer_of result (of_prop (scope_of S.says scope.now) n name.now (prop_answer (scope_of S.says scope.now) n name.now)) }
{
    let place = Place::Prop(n, Txt::copy(scope.alloc, name.text())?);
    match scope.tree.held(scope.schema.types(), &place) {
        Some(held) => held_value(scope, &place, held),
        None => Err(scope.refused(Rule::Kind)),
    }
}

/// What stands at a place: a value, a node, or the target of a reference.
pub fn held_value<S: Bodies>(scope: &Scope<'_, S>, place: &Place, held: Held) -> Result<Value, Halt>
    requires { IsSome (part_at_place place.now (whole_in S.says scope.now).tree) }
    ensures { Read answer_of result (held_answer (scope_of S.says scope.now) (place_site place.now) (held_as (value_at_place (whole_in S.says scope.now) place.now) held)) }
{
    match held {
        Held::Node(n) => Ok(Value::Node(n)),
        Held::Plain => Ok(Value::Plain(raw(scope, place)?)),
        Held::Target(m) => target(scope, place, m),
        Held::Safe(m) => safe_target(scope, place, m),
    }
}

/// The target of a reference; refused `reference` where there is none.
fn target<S: Bodies>(scope: &Scope<'_, S>, place: &Place, m: ModelNo) -> Result<Value, Halt>
    requires { IsSome (part_at_place place.now (whole_in S.says scope.now).tree) }
    ensures { Read answer_of result (held_answer (scope_of S.says scope.now) (place_site place.now) (held_as (value_at_place (whole_in S.says scope.now) place.now) (Held.Target m))) }
{
    let Some(identifier) = identifier_at(scope, place)? else {
        return Ok(Value::Plain(Snap::Null));
    };
    match scope.tree.resolve(scope.schema.types(), m, &identifier) {
        Some(n) => Ok(Value::Node(n)),
        None => Err(refused_at(site_of(scope.alloc, place)?, Rule::Reference)),
    }
}

/// The target of a safe reference; null where there is none.
fn safe_target<S: Bodies>(scope: &Scope<'_, S>, place: &Place, m: ModelNo) -> Result<Value, Halt>
    requires { IsSome (part_at_place place.now (whole_in S.says scope.now).tree) }
    ensures { Read answer_of result (held_answer (scope_of S.says scope.now) (place_site place.now) (held_as (value_at_place (whole_in S.says scope.now) place.now) (Held.Safe m))) }
{
    let Some(identifier) = identifier_at(scope, place)? else {
        return Ok(Value::Plain(Snap::Null));
    };
    match scope.tree.resolve(scope.schema.types(), m, &identifier) {
        Some(n) => Ok(Value::Node(n)),
        None => Ok(Value::Plain(Snap::Null)),
    }
}

/// The identifier that a reference holds; none for null.
fn identifier_at<S: Bodies>(scope: &Scope<'_, S>, place: &Place) -> Result<Option<Ident>, Halt>
    requires { IsSome (part_at_place place.now (whole_in S.says scope.now).tree) }
    ensures { MatchResult result (λ found. found ≡ ident_of (Some (value_at_place (whole_in S.says scope.now) place.now))) (λ halt. halt ≡ Halt.Memory) }
{
    match raw(scope, place)? {
        Snap::Text(text) => Ok(Some(Ident::Text(text))),
        Snap::Int(n) => Ok(Some(Ident::Number(n))),
        _ => Ok(None),
    }
}

/// The value at a place.
pub fn raw<S: Bodies>(scope: &Scope<'_, S>, place: &Place) -> Result<Snap, Halt>
    requires { IsSome (part_at_place place.now (whole_in S.says scope.now).tree) }
    ensures { MatchResult result (λ value. view value ≡ value_at_place (whole_in S.says scope.now) place.now) (λ halt. halt ≡ Halt.Memory) }
{
    match scope.tree.raw(scope.alloc, place) {
        Ok(value) => Ok(value),
        Err(_) => Err(Halt::Memory),
    }
}

/// Where a refusal that speaks of a place is told.
fn site_of(alloc: Global, place: &Place) -> Result<Site, AllocError>
    ensures { Gives result (place_site place.now) }
{
    match place {
        Place::Whole(n) => Ok(Site::Entry(*n, Txt::new(alloc))),
        Place::Prop(n, token) | Place::Key(n, token) => Ok(Site::Entry(*n, token.clone_in()?)),
        Place::Item(n, i) => Ok(Site::Entry(*n, Txt::from_string(format!(in alloc; "{i}")?))),
    }
}

/// The identifier that a reference property holds, resolved or not; null where it holds none.
pub fn reference<S: Bodies>(scope: &Scope<'_, S>, from: &Value, name: &Name) -> Result<Value, Halt>
    ensures { Read answer_of result (ref_got (scope_of S.says scope.now) name.now (answer_of from.now)) }
{
    let Value::Node(n) = from else {
        return Err(scope.refused(Rule::Kind));
    };
    match scope.tree.kind(*n) {
        None => Err(scope.refused(Rule::Dead)),
        Some(Kind::Model(m)) => model_reference(scope, *n, m, name),
        Some(_) => Err(scope.refused(Rule::Kind)),
    }
}

fn model_reference<S: Bodies>(
    scope: &Scope<'_, S>,
    n: NodeNo,
    m: ModelNo,
    name: &Name,
) -> Result<Value, Halt>
    ensures { Read answer_of result (ref_of_kind (scope_of S.says scope.now) n name.now (Kind.Model m)) }
{
    match scope.schema.named(m, name) {
        Some(Named::Property) => property_reference(scope, n, name),
        _ => Err(scope.refused(Rule::Kind)),
    }
}

fn property_reference<S: Bodies>(
    scope: &Scope<'_, S>,
    n: NodeNo,
    name: &Name,
) -> Result<Value, Halt>
    ensures { Read answer_of result (of_prop (scope_of S.says scope.now) n name.now (prop_identifier (scope_of S.says scope.now))) }
{
    let place = Place::Prop(n, Txt::copy(scope.alloc, name.text())?);
    match scope.tree.held(scope.schema.types(), &place) {
        Some(Held::Target(_) | Held::Safe(_)) => Ok(identifier_value(raw(scope, &place)?)),
        _ => Err(scope.refused(Rule::Kind)),
    }
}

/// A value that is an identifier; null where it is none.
fn identifier_value(value: Snap) -> Value
    ensures { answer_of result ≡ plain (ident_value (ident_of (Some (view value)))) }
{
    match value {
        Snap::Text(_) | Snap::Int(_) => Value::Plain(value),
        _ => Value::Plain(Snap::Null),
    }
}
