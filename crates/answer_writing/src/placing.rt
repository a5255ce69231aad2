//! Places that answers with nodes are given to.
ghost use Rattle.std.specs.Prelude.{◌≡◌, ℕ, None, Ok, Err, length, if◌then◌else◌};
ghost use Rattle.std.specs.Option.{option_copied, option_map};
ghost use Rattle.snap_core.specs.Value.{Value as Made};
ghost use Rattle.snap_core.specs.View.{view};
ghost use Rattle.eval_core.specs.Answer.{Answer};
ghost use Rattle.type_table.specs.Table.{Table};
ghost use Rattle.type_core.specs.Making.{Outcome};
ghost use Rattle.type_core.specs.Made.{refused_as};
ghost use Rattle.edit_core.specs.Ways.{part_at};
ghost use Rattle.edit_core.specs.Typing.{label_of, kind_in};
ghost use Rattle.node_core.specs.View as nodes;
ghost use Rattle.tree_core.specs.Answers.{Answers};
ghost use Rattle.tree_core.specs.Nodes.{type_at};
ghost use Rattle.tree_core.specs.Outcome.{seen_from};
ghost use Rattle.tree_core.specs.TypesTyping.{typing_of, root_type};
ghost use Rattle.tree_core.specs.Written.{target, tree};
ghost use Rattle.plain_answers.specs.Plainness.{IsPlainAnswer};
ghost use Rattle.answer_ops.specs.View.{answer_of};
ghost use Rattle.answer_writing.specs.Giving as specs;
ghost use Rattle.answer_writing.specs.View as seen;
ghost use Rattle.answer_writing.specs.View.{in_manner};
ghost use Rattle.answer_writing.specs.Written.{unless_dead, place_met, value_given};

use crate::making::make_answer;
use crate::manner::{Manner, change_by};
use crate::taking::{Taking, fault_in};
use answer_ops::Value;
use edit_core::Kind;
use node_core::{Labelled, Turn};
use pointer_core::{Pointer, Refusal, Rule};
use snap_core::{Snap, TypeNo};
use std::alloc::Global;
use tree_core::{
    Place, Target, Tree, TreeError, joined, part_type, path_of_place, refuse, write_place,
};
use tree_reading::{part_of, type_at};
use type_core::Types;

/// A node of a tree, with the way to it.
#[derive(Drop)]
pub struct Site<'a> {
    pub root: &'a Labelled,
    pub way: &'a [Turn],
    pub node: &'a Labelled,
}

/// The value that is written for an answer that holds nodes: its place is judged by its own rules, then the nodes,
/// then what is made.
pub fn value_at(
    alloc: Global,
    types: &Types,
    to: &Target,
    manner: Manner,
    answer: &Value,
    whole: &Tree,
) -> Result<Snap, TreeError>
    requires { IsPlainAnswer (answer_of answer.now) }
    ensures { let x = answer_of answer.now in
        Answers view result (value_given types.now (target to.now) (in_manner manner x) x (tree whole.now) None) }
{
    judge_place(alloc, types, to, manner, whole)?;
    match whole.root.way_to(alloc, to.place.node())? {
        Some(way) => value_along(
            alloc,
            types,
            to.place,
            manner,
            answer,
            whole.root,
            way.as_slice(),
        ),
        None => Err(refuse(Pointer::new(alloc), Rule::Dead)),
    }
}

/// The rules that a place is judged by before what is written there: those that null in it meets.
fn judge_place(
    alloc: Global,
    types: &Types,
    to: &Target,
    manner: Manner,
    whole: &Tree,
) -> Result<(), TreeError>
    ensures { (x : Answer) → Answers (λ u. tt {0}) result (place_met types.now (target to.now) (in_manner manner x) (tree whole.now)) }
{
    match write_place(alloc, types, to, &change_by(manner, Snap::Null), whole) {
        Ok(_) => Ok(()),
        Err(TreeError::Memory) => Err(TreeError::Memory),
        Err(TreeError::Refused(refusal)) => unless_of_value(refusal),
    }
}

/// A refusal, unless its rule is judged of the value that is written.
fn unless_of_value(refusal: Refusal) -> Result<(), TreeError>
    ensures { Answers (λ u. tt {0}) result (specs.after_place (Err (refused_as refusal)) (Ok (tt {0}))) }
{
    if is_of_value(&refusal.rule) {
        Ok(())
    } else {
        Err(TreeError::Refused(refusal))
    }
}

fn is_of_value(rule: &Rule) -> bool
    ensures { result ≡ specs.is_of_value rule.now }
{
    matches!(
        rule,
        Rule::Mistyped | Rule::Refine | Rule::Key | Rule::Large | Rule::Identifier
    )
}

/// The value for an answer at a place of the node at the end of a way.
fn value_along(
    alloc: Global,
    types: &Types,
    place: &Place,
    manner: Manner,
    answer: &Value,
    root: &Labelled,
    way: &[Turn],
) -> Result<Snap, TreeError>
    requires { IsPlainAnswer (answer_of answer.now) }
    ensures { let x = answer_of answer.now in
        Answers view result (unless_dead (part_at (nodes.way way.now) (nodes.labelled root.now)) (λ found.
        specs.value_taken types.now (record { root = nodes.labelled root.now; way = nodes.way way.now; node = found }) place.now (in_manner manner x) x)) }
{
    match root.part_at(way) {
        Some(node) => take(
            alloc,
            types,
            &Site { root, way, node },
            place,
            manner,
            answer,
        ),
        None => Err(refuse(Pointer::new(alloc), Rule::Dead)),
    }
}

/// The value that the type of a place makes of an answer, or the first node that isn't taken.
fn take(
    alloc: Global,
    types: &Types,
    site: &Site,
    place: &Place,
    manner: Manner,
    answer: &Value,
) -> Result<Snap, TreeError>
    requires { IsPlainAnswer (answer_of answer.now) }
    ensures { let x = answer_of answer.now in
        Answers view result (specs.value_taken types.now (seen.site site.now) place.now (in_manner manner x) x) }
{
    let by = Taking {
        types,
        root: site.root,
    };
    let of = type_of_place(types, site, place);
    let held = held_for(manner, place, site.node);
    let path = path_of_place(alloc, site.way, place)?;
    match fault_in(alloc, &by, answer, of, held) {
        Some(Rule::Dead) => Err(refuse(Pointer::new(alloc), Rule::Dead)),
        Some(rule) => Err(refuse(path, rule)),
        None => at_place(path, make_answer(alloc, &by, answer, of, held)),
    }
}

/// The type of a place of a node. For a node as a whole it is that of the node's own place, where the node is an array,
/// and otherwise no type.
fn type_of_place(types: &Types, site: &Site, place: &Place) -> TypeNo
    ensures { let s = seen.site site.now in let typing = typing_of types.now.table in
        result.0 ≡ specs.type_of_place types.now.table s.node (type_at typing (root_type types.now) s.way s.root) place.now }
{
    match place {
        Place::Whole(_) => whole_type(types, site),
        Place::Prop(_, key) | Place::Key(_, key) => part_type(types, site.node, key.text()),
        Place::Item(_, _) => part_type(types, site.node, ""),
    }
}

fn whole_type(types: &Types, site: &Site) -> TypeNo
    ensures { let s = seen.site site.now in let typing = typing_of types.now.table in
        result.0 ≡ specs.whole_type types.now.table (kind_in (label_of s.node)) (type_at typing (root_type types.now) s.way s.root) }
{
    if is_array(site.node) {
        type_at(types, site.root, site.way)
    } else {
        TypeNo(types.count())
    }
}

fn is_array(node: &Labelled) -> bool
    ensures { (table : Table) (t : ℕ) → specs.whole_type table (kind_in (label_of (nodes.labelled node.now))) t
        ≡ (if result then t else length table.shapes) }
{
    match node.label() {
        Some(label) => matches!(label.kind, Kind::Array(_)),
        None => false,
    }
}

/// What a value takes the place of: a new item of nothing.
fn held_for<'a>(manner: Manner, place: &Place, node: &'a Labelled) -> Option<&'a Labelled>
    ensures { (x : Answer) → option_map nodes.labelled (option_copied result) ≡ specs.held_for (in_manner manner x) place.now (nodes.labelled node.now) }
{
    match (manner, place) {
        (Manner::Insert, Place::Item(_, _)) => None,
        _ => part_of(node, place),
    }
}

/// What making came to, as it reads from the place that a path leads to.
fn at_place(path: Pointer, made: Result<Snap, TreeError>) -> Result<Snap, TreeError>
    ensures { (outcome : Outcome Made) → Answers view made outcome → Answers view result (seen_from path outcome) }
{
    match made {
        Err(TreeError::Refused(Refusal { path: rest, rule })) => {
            Err(refuse(joined(&path, &rest)?, rule))
        }
        made => made,
    }
}
