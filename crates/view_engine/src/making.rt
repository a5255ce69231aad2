//! Plain records that are made of answers.
#![tactic(auto, unfolding(eval_core::specs::Run::lift, eval_core::specs::Run::looks, eval_core::specs::Run::andthen, eval_core::specs::Run::joined, crate::specs::TreeSight::sight_of))]

ghost use Rattle.std.specs.Prelude.{◌≡◌, length, OnOk, IfErr};
ghost use Rattle.snap_core.specs.Value.{AreKeyed};
ghost use Rattle.snap_core.specs.View.{view, items_view, fields_view};
ghost use Rattle.answer_ops.specs.View.{answer_of, answers_of};
ghost use Rattle.eval_core.specs.Making.{record_made, made_value, made_values, node_made, identifier_made, with_field};
ghost use Rattle.eval_core.specs.Scope.{judged};
ghost use Rattle.view_engine.specs.Did.{Read};
ghost use Rattle.view_engine.specs.Made.{made_of, MadeAs};
ghost use Rattle.view_engine.specs.Progress.{scope_of, whole_in};
ghost use Rattle.view_engine.specs.Steps.{tested};
ghost use Rattle.view_engine.specs.TreeSight.{identifier_by};

use crate::halt::Halt;
use crate::operating::bounded;
use crate::reading::raw;
use crate::schema::Bodies;
use crate::scope::Scope;
use answer_ops::{Value, Values};
use edit_core::Kind;
use expr_syntax::Entry;
use list_core::Parts;
use pointer_core::Rule;
use snap_core::{Field, Fields, Items, ModelNo, NodeNo, Snap, Txt, search};
use tree_core::Place;

/// A record of entries and their values, and the record tested.
pub fn record_of<S: Bodies>(
    scope: &Scope<'_, S>,
    entries: &[Entry],
    values: Values,
) -> Result<Value, Halt>
    requires { length entries.now ≡ length values }
    ensures { Read answer_of result (tested (scope_of S.says scope.now) (judged (scope_of S.says scope.now) (record_made (scope_of S.says scope.now).sight (made_of entries.now values)))) }
{
    let answers = values.as_slice();
    let mut fields = Parts::new(scope.alloc);
    for i in 0..entries.len() {
        let value = made(scope, &answers[i])?;
        let key = entries[i].key.clone_in()?;
        set_field(&mut fields, key, value)?;
    }
    bounded(scope, Value::Plain(Snap::Dict(fields)))
}

/// Sets the value of a field, or adds the field where its key stands in order; it is looked for by halves.
fn set_field(fields: &mut Fields, key: Txt, value: Snap) -> Result<(), Halt>
    requires { AreKeyed (fields_view fields.old) }
    ensures ok { OnOk result (fields_view fields.new ≡ with_field key (view value) (fields_view fields.old)) }
    ensures keyed { OnOk result (AreKeyed (fields_view fields.new)) }
    ensures memory { IfErr result (λ halt. halt ≡ Halt.Memory) }
{
    match search(fields.as_slice(), key.text()) {
        Ok(at) => {
            fields.set(at, Field { key, value });
            Ok(())
        }
        Err(at) => Ok(fields.insert(at, Field { key, value })?),
    }
}

/// A plain value of an answer: a node as its identifier, several answers as a list.
#[cycle(made)]
fn made<S: Bodies>(scope: &Scope<'_, S>, x: &Value) -> Result<Snap, Halt>
    ensures { MadeAs (scope_of S.says scope.now) view result (made_value (scope_of S.says scope.now).sight (answer_of x.now)) }
{
    match x {
        Value::Plain(value) => Ok(value.clone_in(scope.alloc)?),
        Value::Node(n) => node_made(scope, *n),
        Value::Several(values) => Ok(Snap::List(made_items(scope, values)?)),
    }
}

#[cycle(made)]
fn made_items<S: Bodies>(scope: &Scope<'_, S>, values: &Values) -> Result<Items, Halt>
    ensures { MadeAs (scope_of S.says scope.now) items_view result (made_values (scope_of S.says scope.now).sight (answers_of values.now)) }
{
    let mut items = Parts::new(scope.alloc);
    for value in values.as_slice() {
        items.push(made(scope, value)?)?;
    }
    Ok(items)
}

/// The identifier of a node; refused `kind` where it has none.
fn node_made<S: Bodies>(scope: &Scope<'_, S>, n: NodeNo) -> Result<Snap, Halt>
    ensures { MadeAs (scope_of S.says scope.now) view result (node_made ((scope_of S.says scope.now).sight.being n)) }
{
    match scope.tree.kind(n) {
        None => Err(scope.refused(Rule::Dead)),
        Some(Kind::Model(m)) => model_made(scope, n, m),
        Some(_) => Err(scope.refused(Rule::Kind)),
    }
}

fn model_made<S: Bodies>(scope: &Scope<'_, S>, n: NodeNo, m: ModelNo) -> Result<Snap, Halt>
    ensures { MadeAs (scope_of S.says scope.now) view result (identifier_made (identifier_by (whole_in S.says scope.now) n (Kind.Model m))) }
{
    let Some(name) = scope.schema.types().identifying(m) else {
        return Err(scope.refused(Rule::Kind));
    };
    let place = Place::Prop(n, Txt::copy(scope.alloc, name.text())?);
    if scope.tree.held(scope.schema.types(), &place).is_none() {
        return Err(scope.refused(Rule::Kind));
    }
    match raw(scope, &place)? {
        Snap::Text(text) => Ok(Snap::Text(text)),
        Snap::Int(n) => Ok(Snap::Int(n)),
        _ => Err(scope.refused(Rule::Kind)),
    }
}
