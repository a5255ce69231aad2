//! Nodes that are taken: at references, and where they stand now.
ghost use Rattle.std.specs.Prelude.{◌≡◌, Some};
ghost use Rattle.std.specs.Option.{option_copied, option_map};
ghost use Rattle.node_core.specs.View.{labelled, items};
ghost use Rattle.answer_ops.specs.View.{answer_of, answers_of};
ghost use Rattle.answer_writing.specs.Taking as specs;
ghost use Rattle.answer_writing.specs.View.{taking, aim};

use crate::items::{item_held, items_at, items_under};
use answer_ops::Value;
use node_core::Labelled;
use pointer_core::Rule;
use snap_core::{NodeNo, TypeNo};
use std::alloc::Global;
use tree_reading::{node_of, referred_by};
use type_core::Types;

/// By what answers are taken: the types, and the snapshot whose nodes stand in them.
#[derive(Drop)]
pub struct Taking<'a> {
    pub types: &'a Types,
    pub root: &'a Labelled,
}

/// The rule that the first node of an answer doesn't meet: it is dead, or it stands neither at a reference nor at its
/// own place.
#[cycle(fault)]
pub fn fault_in(
    alloc: Global,
    by: &Taking,
    x: &Value,
    of: TypeNo,
    held: Option<&Labelled>,
) -> Option<Rule>
    ensures { result ≡ specs.fault_in (taking by.now) (answer_of x.now) (aim of held.entry) }
{
    match x {
        Value::Plain(_) => None,
        Value::Node(n) => node_fault(by, *n, of, held),
        Value::Several(xs) => match items_at(alloc, by.types, of) {
            Some(items) => fault_among(alloc, by, xs.as_slice(), items, items_under(held)),
            None => None,
        },
    }
}

#[cycle(fault)]
fn fault_among(
    alloc: Global,
    by: &Taking,
    xs: &[Value],
    of: TypeNo,
    held: &[Labelled],
) -> Option<Rule>
    ensures { result ≡ specs.fault_among (taking by.now) (answers_of xs.now) of.0 (items held.now) }
{
    for i in 0..xs.len() {
        let x = &xs[i];
        let fault = fault_in(alloc, by, x, of, item_held(x, held, i));
        if fault.is_some() {
            return fault;
        }
    }
    None
}

fn node_fault(by: &Taking, n: NodeNo, of: TypeNo, held: Option<&Labelled>) -> Option<Rule>
    ensures { result ≡ specs.node_fault (taking by.now) n (aim of held.entry) }
{
    if node_of(by.root, n).is_none() {
        return Some(Rule::Dead);
    }
    if referred_by(by.types, of).is_some() || stands_there(n, held) {
        None
    } else {
        Some(Rule::Alive)
    }
}

/// Whether a node is what stands at a place.
fn stands_there(n: NodeNo, held: Option<&Labelled>) -> bool
    ensures { result ≡ specs.stands_there n (option_map labelled (option_copied held.entry)) }
{
    match held {
        Some(held) => has_number(n, held),
        None => false,
    }
}

fn has_number(n: NodeNo, held: &Labelled) -> bool
    ensures { result ≡ specs.stands_there n (Some (labelled held.now)) }
{
    match held.label() {
        Some(label) => label.number.0 == n.0,
        None => false,
    }
}
