//! Type expressions: words, and objects with one key that says their form.
ghost use Rattle.std.specs.Prelude.{◌≡◌, ◌+◌, ◌++◌, length, IfOk, OnOk};
ghost use Rattle.snap_core.specs.Value.{AreKeyed, text, list, dict};
ghost use Rattle.snap_core.specs.View.{view, items_view, fields_view};
ghost use Rattle.schema_form.specs.Bases.{AreBases};
ghost use Rattle.schema_form.specs.Faults as faults;
ghost use Rattle.schema_form.specs.Layout as layout;
ghost use Rattle.schema_form.specs.Outcome.{Finds};
ghost use Rattle.schema_form.specs.declared.words.Form.TheVariants as forms;

use crate::bases::Base;
use crate::fault::FormError;
use crate::form::{Expression, Expressions, Holder, Kind, Place, Step};
use crate::leaves::{known_word, next_number, read_leaf};
use crate::numbers::check_numbers;
use crate::walk::{at_index, under, wrong};
use crate::words::{Form, form_of};
use list_core::Parts;
use pointer_core::SchemaRule;
use snap_core::{Field, Snap, TypeNo};
use type_table::Members;

/// Adds a type expression and those in it, or names its first fault. `types` are the entries that
/// names lead to, and `bases` what each of them is as a base of a refinement.
#[cycle(expressions)]
pub fn read_type(
    value: &Snap,
    types: &[Field],
    bases: &[Option<Base>],
    place: Place,
    expressions: &mut Expressions,
) -> Result<(), FormError>
    requires keyed { AreKeyed (fields_view types.now) }
    requires bases { AreBases types.now bases.now }
    ensures finds { Finds result (faults.type_faults (fields_view types.now) (view value.now)) }
    ensures laid { OnOk result (expressions.new ≡ expressions.old
        ++ layout.type_laid (fields_view types.now) (view value.now) (length expressions.old) place) }
{
    match value {
        Snap::Text(word) => read_word(types, word.text(), place, expressions),
        Snap::Dict(fields) => read_object(fields.as_slice(), types, bases, place, expressions),
        _ => Err(wrong(expressions.allocator(), SchemaRule::Shape)),
    }
}

fn read_word(
    types: &[Field],
    word: &str,
    place: Place,
    expressions: &mut Expressions,
) -> Result<(), FormError>
    requires { AreKeyed (fields_view types.now) }
    ensures finds { Finds result (faults.word_faults (fields_view types.now) word.now) }
    ensures laid { OnOk result (expressions.new ≡ expressions.old
        ++ layout.type_laid (fields_view types.now) (text word.now) (length expressions.old) place) }
{
    let word = known_word(expressions.allocator(), types, word)?;
    let kind = Kind::Word(word);
    expressions.push(Expression { place, kind })?;
    Ok(())
}

#[cycle(expressions)]
fn read_object(
    fields: &[Field],
    types: &[Field],
    bases: &[Option<Base>],
    place: Place,
    expressions: &mut Expressions,
) -> Result<(), FormError>
    requires keyed { AreKeyed (fields_view types.now) }
    requires bases { AreBases types.now bases.now }
    ensures finds { Finds result
        (faults.type_faults (fields_view types.now) (dict tt (fields_view fields.now))) }
    ensures laid { OnOk result (expressions.new ≡ expressions.old
        ++ layout.type_laid (fields_view types.now) (dict tt (fields_view fields.now)) (length expressions.old) place) }
{
    if fields.len() != 1 {
        return Err(wrong(expressions.allocator(), SchemaRule::Shape));
    }
    read_keyed(&fields[0], types, bases, place, expressions)
}

#[cycle(expressions)]
fn read_keyed(
    field: &Field,
    types: &[Field],
    bases: &[Option<Base>],
    place: Place,
    expressions: &mut Expressions,
) -> Result<(), FormError>
    requires keyed { AreKeyed (fields_view types.now) }
    requires bases { AreBases types.now bases.now }
    ensures finds { Finds result
        (faults.field_faults (fields_view types.now) field.now.key (view field.now.value)) }
    ensures laid { OnOk result (expressions.new ≡ expressions.old
        ++ layout.field_laid (fields_view types.now) field.now.key (view field.now.value) (length expressions.old) place) }
{
    let key = field.key.text();
    let Some(form) = form_of(key) else {
        return Err(wrong(expressions.allocator(), SchemaRule::Shape));
    };
    let inner = read_inside(&field.value, types, bases, form, place, expressions);
    under(key, inner)
}

/// What stands under the key of a form.
#[cycle(expressions)]
fn read_inside(
    value: &Snap,
    types: &[Field],
    bases: &[Option<Base>],
    form: Form,
    place: Place,
    expressions: &mut Expressions,
) -> Result<(), FormError>
    requires keyed { AreKeyed (fields_view types.now) }
    requires bases { AreBases types.now bases.now }
    ensures finds { Finds result (faults.inside_faults (fields_view types.now) form (view value.now)) }
    ensures laid { OnOk result (expressions.new ≡ expressions.old
        ++ layout.inside_laid (fields_view types.now) form (view value.now) (length expressions.old) place) }
{
    match (form, value) {
        (Form::Leaf(leaf), _) => read_leaf(types, bases, leaf, value, place, expressions),
        (Form::Holder(holder), _) => read_held(value, types, bases, holder, place, expressions),
        (Form::Optional, Snap::List(items)) => {
            read_defaulted(items.as_slice(), types, bases, place, expressions)
        }
        (Form::Union, Snap::List(items)) => {
            read_union(items.as_slice(), types, bases, place, expressions)
        }
        (Form::Optional | Form::Union, _) => {
            Err(wrong(expressions.allocator(), SchemaRule::Shape))
        }
    }
}

/// A form that holds one type.
#[cycle(expressions)]
fn read_held(
    value: &Snap,
    types: &[Field],
    bases: &[Option<Base>],
    holder: Holder,
    place: Place,
    expressions: &mut Expressions,
) -> Result<(), FormError>
    requires keyed { AreKeyed (fields_view types.now) }
    requires bases { AreBases types.now bases.now }
    ensures finds { Finds result (faults.type_faults (fields_view types.now) (view value.now)) }
    ensures laid { OnOk result (expressions.new ≡ expressions.old
        ++ layout.inside_laid (fields_view types.now) (forms.Holder holder) (view value.now) (length expressions.old) place) }
{
    let own = TypeNo(expressions.len());
    let kind = Kind::Holder(holder, next_number(expressions));
    expressions.push(Expression { place, kind })?;
    let part = Place::Part(own, Step::Held(holder));
    read_type(value, types, bases, part, expressions)
}

/// A type and its default.
#[cycle(expressions)]
fn read_defaulted(
    items: &[Snap],
    types: &[Field],
    bases: &[Option<Base>],
    place: Place,
    expressions: &mut Expressions,
) -> Result<(), FormError>
    requires keyed { AreKeyed (fields_view types.now) }
    requires bases { AreBases types.now bases.now }
    ensures finds { Finds result
        (faults.inside_faults (fields_view types.now) forms.Optional (list tt (items_view items.now))) }
    ensures laid { OnOk result (expressions.new ≡ expressions.old
        ++ layout.inside_laid (fields_view types.now) forms.Optional (list tt (items_view items.now)) (length expressions.old) place) }
{
    let alloc = expressions.allocator();
    if items.len() != 2 {
        return Err(wrong(alloc, SchemaRule::Shape));
    }
    let own = TypeNo(expressions.len());
    let default = items[1].clone_in(alloc)?;
    let kind = Kind::Optional(next_number(expressions), default);
    expressions.push(Expression { place, kind })?;
    let part = Place::Part(own, Step::Defaulted);
    let of = read_type(&items[0], types, bases, part, expressions);
    under("0", of)?;
    under("1", check_numbers(alloc, &items[1]))
}

/// Two members or more.
#[cycle(expressions)]
fn read_union(
    items: &[Snap],
    types: &[Field],
    bases: &[Option<Base>],
    place: Place,
    expressions: &mut Expressions,
) -> Result<(), FormError>
    requires keyed { AreKeyed (fields_view types.now) }
    requires bases { AreBases types.now bases.now }
    ensures finds { Finds result
        (faults.inside_faults (fields_view types.now) forms.Union (list tt (items_view items.now))) }
    ensures laid { OnOk result (expressions.new ≡ expressions.old
        ++ layout.inside_laid (fields_view types.now) forms.Union (list tt (items_view items.now)) (length expressions.old) place) }
{
    let alloc = expressions.allocator();
    if items.len() < 2 {
        return Err(wrong(alloc, SchemaRule::Shape));
    }
    let own = TypeNo(expressions.len());
    let kind = Kind::Union(Parts::new(alloc));
    expressions.push(Expression { place, kind })?;
    let members = read_members(items, types, bases, own, expressions)?;
    let kind = Kind::Union(members);
    expressions.set(own.0, Expression { place, kind });
    Ok(())
}

/// The members of the union of this number. Gives their numbers.
#[cycle(expressions)]
fn read_members(
    items: &[Snap],
    types: &[Field],
    bases: &[Option<Base>],
    union: TypeNo,
    expressions: &mut Expressions,
) -> Result<Members, FormError>
    requires keyed { AreKeyed (fields_view types.now) }
    requires bases { AreBases types.now bases.now }
    ensures finds { Finds result
        (faults.numbered 0 (faults.parts_faults (fields_view types.now) (items_view items.now))) }
    ensures laid { OnOk result (expressions.new ≡ expressions.old
        ++ layout.members_laid union.0 0 (layout.parts_laid_of (fields_view types.now) (items_view items.now)) (length expressions.old)) }
    ensures numbers { IfOk result (λ members. members
        ≡ layout.member_numbers union.0 0 (layout.parts_laid_of (fields_view types.now) (items_view items.now)) (length expressions.old)) }
{
    let mut members = Parts::new(expressions.allocator());
    for (index, item) in items.iter().enumerate() {
        members.push(TypeNo(expressions.len()))?;
        let part = Place::Part(union, Step::Member(index));
        let member = read_type(item, types, bases, part, expressions);
        at_index(index, member)?;
    }
    Ok(members)
}
