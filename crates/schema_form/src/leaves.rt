//! Type expressions that hold no others: literals, enumerations, references, and refinements, whose base is a word.
ghost use Rattle.std.specs.Prelude.{◌≡◌, ◌+◌, [], ◌∷◌, ◌++◌, length, Some, IfOk, OnOk};
ghost use Rattle.std.specs.Option.{option_map};
ghost use Rattle.snap_core.specs.Value.{AreKeyed, text, list};
ghost use Rattle.snap_core.specs.Unview.{snap_of};
ghost use Rattle.snap_core.specs.View.{view, items_view, fields_view};
ghost use Rattle.schema_form.specs.Bases.{AreBases};
ghost use Rattle.schema_form.specs.Faults as faults;
ghost use Rattle.schema_form.specs.Layout as layout;
ghost use Rattle.schema_form.specs.Names as names;
ghost use Rattle.schema_form.specs.Outcome.{Finds};
ghost use Rattle.schema_form.specs.declared.words.Form.TheVariants as forms;
ghost use Rattle.schema_form.specs.declared.words.Leaf.TheVariants as leaves;
ghost use Rattle.schema_form.specs.declared.form.Kind.{Kind};
ghost use Rattle.schema_form.specs.declared.form.Kind.TheVariants as kind;

use crate::bases::{Base, base_of, refinable};
use crate::enumerations::{read_texts, text_in};
use crate::fault::FormError;
use crate::form::{EntryNo, Expression, Expressions, Kind, Place, Step, Word};
use crate::keys::is_expression;
use crate::names::{entry_of, word_of};
use crate::numbers::read_literal;
use crate::refinements::read_conditions;
use crate::walk::{require, under, wrong};
use crate::words::Leaf;
use pointer_core::SchemaRule;
use snap_core::{Field, Snap, TypeNo};
use std::alloc::Global;

/// The number after that of the next expression.
pub fn next_number(expressions: &Expressions) -> TypeNo
    ensures { result.0 ≡ length expressions.now + 1 }
{
    TypeNo(expressions.as_slice().len() + 1)
}

/// Adds a type expression of a form that holds no other form, or names its first fault.
pub fn read_leaf(
    types: &[Field],
    bases: &[Option<Base>],
    leaf: Leaf,
    value: &Snap,
    place: Place,
    expressions: &mut Expressions,
) -> Result<(), FormError>
    requires keyed { AreKeyed (fields_view types.now) }
    requires bases { AreBases types.now bases.now }
    ensures finds { Finds result (faults.leaf_faults (fields_view types.now) leaf (view value.now)) }
    ensures laid { OnOk result (expressions.new ≡ expressions.old
        ++ layout.inside_laid (fields_view types.now) (forms.Leaf leaf) (view value.now) (length expressions.old) place) }
{
    match leaf {
        Leaf::Literal => add_literal(value, place, expressions),
        Leaf::Enumeration => add_enumeration(value, place, expressions),
        Leaf::Refinement => read_refinement(types, bases, value, place, expressions),
        Leaf::Reference => add_reference(types, value, place, expressions),
        Leaf::SafeReference => add_safe_reference(types, value, place, expressions),
    }
}

fn add_literal(value: &Snap, place: Place, expressions: &mut Expressions) -> Result<(), FormError>
    ensures finds { Finds result (faults.literal_faults (view value.now)) }
    ensures laid { let literal : Kind = kind.Literal (snap_of (view value.now)) in
        OnOk result (expressions.new ≡ expressions.old ++ record { place = place; kind = literal } ∷ []) }
{
    let literal = read_literal(expressions.allocator(), value)?;
    let kind = Kind::Literal(literal);
    expressions.push(Expression { place, kind })?;
    Ok(())
}

fn add_enumeration(
    value: &Snap,
    place: Place,
    expressions: &mut Expressions,
) -> Result<(), FormError>
    ensures finds { Finds result (faults.enumeration_faults (view value.now)) }
    ensures laid { let enumeration : Kind = kind.Enumeration (layout.texts_of (view value.now)) in
        OnOk result (expressions.new ≡ expressions.old ++ record { place = place; kind = enumeration } ∷ []) }
{
    let texts = read_texts(expressions.allocator(), value)?;
    let kind = Kind::Enumeration(texts);
    expressions.push(Expression { place, kind })?;
    Ok(())
}

/// The entry that a text names.
pub fn read_target(alloc: Global, types: &[Field], value: &Snap) -> Result<EntryNo, FormError>
    requires { AreKeyed (fields_view types.now) }
    ensures finds { Finds result (faults.name_faults (fields_view types.now) (view value.now)) }
    ensures ok { IfOk result (λ entry. layout.entry_named (fields_view types.now) (view value.now) ≡ Some entry) }
{
    match value {
        Snap::Text(name) => read_name(alloc, types, name.text()),
        _ => Err(wrong(alloc, SchemaRule::Shape)),
    }
}

fn read_name(alloc: Global, types: &[Field], name: &str) -> Result<EntryNo, FormError>
    requires { AreKeyed (fields_view types.now) }
    ensures finds { Finds result (faults.name_faults (fields_view types.now) (text name.now)) }
    ensures ok { IfOk result (λ entry. names.entry_of (fields_view types.now) name.now ≡ Some entry) }
{
    match entry_of(types, name) {
        Some(entry) => Ok(entry),
        None => Err(wrong(alloc, SchemaRule::Name)),
    }
}

fn add_reference(
    types: &[Field],
    value: &Snap,
    place: Place,
    expressions: &mut Expressions,
) -> Result<(), FormError>
    requires { AreKeyed (fields_view types.now) }
    ensures finds { Finds result (faults.name_faults (fields_view types.now) (view value.now)) }
    ensures laid { OnOk result (expressions.new ≡ expressions.old
        ++ layout.said place (option_map kind.Reference (layout.entry_named (fields_view types.now) (view value.now)))) }
{
    let target = read_target(expressions.allocator(), types, value)?;
    let kind = Kind::Reference(target);
    expressions.push(Expression { place, kind })?;
    Ok(())
}

fn add_safe_reference(
    types: &[Field],
    value: &Snap,
    place: Place,
    expressions: &mut Expressions,
) -> Result<(), FormError>
    requires { AreKeyed (fields_view types.now) }
    ensures finds { Finds result (faults.name_faults (fields_view types.now) (view value.now)) }
    ensures laid { OnOk result (expressions.new ≡ expressions.old
        ++ layout.said place (option_map kind.SafeReference (layout.entry_named (fields_view types.now) (view value.now)))) }
{
    let target = read_target(expressions.allocator(), types, value)?;
    let kind = Kind::SafeReference(target);
    expressions.push(Expression { place, kind })?;
    Ok(())
}

/// What a text stands for that must be a type.
pub fn known_word(alloc: Global, types: &[Field], text: &str) -> Result<Word, FormError>
    requires { AreKeyed (fields_view types.now) }
    ensures finds { Finds result (faults.word_faults (fields_view types.now) text.now) }
    ensures ok { IfOk result (λ word. names.word_of (fields_view types.now) text.now ≡ Some word) }
{
    match word_of(types, text) {
        Some(word) => Ok(word),
        None => Err(wrong(alloc, SchemaRule::Name)),
    }
}

/// Refuses what is wrong at the own place of a type expression.
pub fn check_own(alloc: Global, types: &[Field], value: &Snap) -> Result<(), FormError>
    requires { AreKeyed (fields_view types.now) }
    ensures { Finds result (faults.own_faults (fields_view types.now) (view value.now)) }
{
    match value {
        Snap::Text(word) => {
            known_word(alloc, types, word.text())?;
            Ok(())
        }
        _ => require(alloc, is_expression(value), SchemaRule::Shape),
    }
}

/// The word that is the base of a refinement, and the base that it is.
#[derive(Clone, Copy)]
pub struct Based {
    pub word: Word,
    pub base: Base,
}

fn read_base(
    alloc: Global,
    types: &[Field],
    bases: &[Option<Base>],
    value: &Snap,
) -> Result<Based, FormError>
    requires keyed { AreKeyed (fields_view types.now) }
    requires bases { AreBases types.now bases.now }
    ensures finds { Finds result (faults.base_faults (fields_view types.now) (view value.now)) }
    ensures word { IfOk result (λ based. names.word_in (fields_view types.now) (view value.now) ≡ Some based.word) }
    ensures base { IfOk result (λ based. faults.base_in (fields_view types.now) (view value.now) ≡ Some based.base) }
{
    match value {
        Snap::Text(word) => read_base_word(alloc, types, bases, word.text()),
        _ => Err(wrong(alloc, SchemaRule::Shape)),
    }
}

fn read_base_word(
    alloc: Global,
    types: &[Field],
    bases: &[Option<Base>],
    word: &str,
) -> Result<Based, FormError>
    requires keyed { AreKeyed (fields_view types.now) }
    requires bases { AreBases types.now bases.now }
    ensures finds { Finds result (faults.base_faults (fields_view types.now) (text word.now)) }
    ensures word { IfOk result (λ based. names.word_of (fields_view types.now) word.now ≡ Some based.word) }
    ensures base { IfOk result (λ based. names.base_of (fields_view types.now) word.now ≡ Some based.base) }
{
    let word = known_word(alloc, types, word)?;
    match refinable(base_of(bases, word)) {
        Some(base) => Ok(Based { word, base }),
        None => Err(wrong(alloc, SchemaRule::Shape)),
    }
}

fn read_refinement(
    types: &[Field],
    bases: &[Option<Base>],
    value: &Snap,
    place: Place,
    expressions: &mut Expressions,
) -> Result<(), FormError>
    requires keyed { AreKeyed (fields_view types.now) }
    requires bases { AreBases types.now bases.now }
    ensures finds { Finds result (faults.refinement_faults (fields_view types.now) (view value.now)) }
    ensures laid { OnOk result (expressions.new ≡ expressions.old
        ++ layout.inside_laid (fields_view types.now) (forms.Leaf leaves.Refinement) (view value.now) (length expressions.old) place) }
{
    match value {
        Snap::List(items) => read_refined(types, bases, items.as_slice(), place, expressions),
        _ => Err(wrong(expressions.allocator(), SchemaRule::Shape)),
    }
}

/// A base and its conditions.
fn read_refined(
    types: &[Field],
    bases: &[Option<Base>],
    items: &[Snap],
    place: Place,
    expressions: &mut Expressions,
) -> Result<(), FormError>
    requires keyed { AreKeyed (fields_view types.now) }
    requires bases { AreBases types.now bases.now }
    ensures finds { Finds result (faults.refinement_faults (fields_view types.now) (list tt (items_view items.now))) }
    ensures laid { OnOk result (expressions.new ≡ expressions.old
        ++ layout.inside_laid (fields_view types.now) (forms.Leaf leaves.Refinement)
        (list tt (items_view items.now)) (length expressions.old) place) }
{
    let alloc = expressions.allocator();
    if items.len() != 2 {
        return Err(wrong(alloc, SchemaRule::Shape));
    }
    let based = under("0", read_base(alloc, types, bases, &items[0]))?;
    let conditions = under("1", read_conditions(alloc, based.base, &items[1]))?;
    let part = Place::Part(TypeNo(expressions.len()), Step::Refined);
    let kind = Kind::Refinement(next_number(expressions), conditions);
    expressions.push(Expression { place, kind })?;
    let kind = Kind::Word(based.word);
    expressions.push(Expression { place: part, kind })?;
    Ok(())
}
