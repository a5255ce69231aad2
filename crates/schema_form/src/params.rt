//! The parameters of actions: names and types.
ghost use Rattle.std.specs.Prelude.{◌≡◌, [], ◌∷◌, ◌++◌, length, IfOk, OnOk};
ghost use Rattle.snap_core.specs.Value.{text, list};
ghost use Rattle.snap_core.specs.View.{view, items_view, fields_view};
ghost use Rattle.expr_form.specs.Names as expr_names;
ghost use Rattle.schema_form.specs.Entries as entries;
ghost use Rattle.schema_form.specs.Faults as faults;
ghost use Rattle.schema_form.specs.Layout as layout;
ghost use Rattle.schema_form.specs.Modelled as modelled;
ghost use Rattle.schema_form.specs.Outcome.{Finds};
ghost use Rattle.schema_form.specs.Setting.{IsSetting, names_of};

use crate::bases::{Base, type_base};
use crate::expressions::read_type;
use crate::fault::FormError;
use crate::form::{Expressions, Place};
use crate::keys::read_name;
use crate::leaves::check_own;
use crate::setting::Setting;
use crate::walk::{at_index, require, under, wrong};
use expr_form::{pair_in, text_in};
use list_core::Parts;
use model_syntax::Param;
use pointer_core::SchemaRule;
use snap_core::{Name, Snap, TypeNo};
use std::alloc::Global;

/// Reads the parameters of the action at an index, and adds the type expressions of their types.
pub fn read_params(
    by: &Setting,
    action: usize,
    value: &Snap,
    expressions: &mut Expressions,
) -> Result<Parts<Param>, FormError>
    requires { IsSetting by.now }
    ensures finds { Finds result (faults.params_faults (fields_view by.now.types.now) (view value.now)) }
    ensures ok { IfOk result (λ params. record { expressions = expressions.new; params = params }
        ≡ modelled.with_params (fields_view by.now.types.now) (by.now.model, action)
        (record { expressions = expressions.old; params = [] }) (entries.items (view value.now))) }
{
    match value {
        Snap::List(items) => read_few(by, action, items.as_slice(), expressions),
        _ => Err(wrong(expressions.allocator(), SchemaRule::Shape)),
    }
}

/// At most eight of them.
fn read_few(
    by: &Setting,
    action: usize,
    items: &[Snap],
    expressions: &mut Expressions,
) -> Result<Parts<Param>, FormError>
    requires { IsSetting by.now }
    ensures finds { Finds result (faults.params_faults (fields_view by.now.types.now) (list tt (items_view items.now))) }
    ensures ok { IfOk result (λ params. record { expressions = expressions.new; params = params }
        ≡ modelled.with_params (fields_view by.now.types.now) (by.now.model, action)
        (record { expressions = expressions.old; params = [] }) (items_view items.now)) }
{
    require(
        expressions.allocator(),
        items.len() <= 8,
        SchemaRule::Arguments,
    )?;
    read_each(by, action, items, expressions)
}

fn read_each(
    by: &Setting,
    action: usize,
    items: &[Snap],
    expressions: &mut Expressions,
) -> Result<Parts<Param>, FormError>
    requires { IsSetting by.now }
    ensures finds { Finds result (faults.params_from (fields_view by.now.types.now) [] 0 (items_view items.now)) }
    ensures ok { IfOk result (λ params. record { expressions = expressions.new; params = params }
        ≡ modelled.with_params (fields_view by.now.types.now) (by.now.model, action)
        (record { expressions = expressions.old; params = [] }) (items_view items.now)) }
{
    let mut params = Parts::new(expressions.allocator());
    for (index, item) in items.iter().enumerate() {
        let param = read_param(by, action, item, params.as_slice(), expressions);
        params.push(at_index(index, param)?)?;
    }
    Ok(params)
}

/// A name and a type, behind the parameters before it.
fn read_param(
    by: &Setting,
    action: usize,
    value: &Snap,
    earlier: &[Param],
    expressions: &mut Expressions,
) -> Result<Param, FormError>
    requires { IsSetting by.now }
    ensures finds { Finds result (faults.param_faults (fields_view by.now.types.now) (names_of earlier.now) (view value.now)) }
    ensures named { IfOk result (λ param. faults.with_name (names_of earlier.now) (entries.param_in (view value.now)) ≡ names_of (earlier.now ++ param ∷ [])) }
    ensures ok { IfOk result (λ param. record { expressions = expressions.new; params = earlier.now ++ param ∷ [] }
        ≡ modelled.with_param (fields_view by.now.types.now) (by.now.model, action)
        (record { expressions = expressions.old; params = earlier.now }) (view value.now)) }
{
    let alloc = expressions.allocator();
    let Some((name, of)) = pair_in(value) else {
        return Err(wrong(alloc, SchemaRule::Shape));
    };
    let name = under("0", read_param_name(alloc, earlier, name))?;
    let number = TypeNo(expressions.len());
    let place = Place::Param(by.model, action, earlier.len());
    under("1", read_param_type(by, of, place, expressions))?;
    Ok(Param { name, of: number })
}

/// A name that no parameter before it has.
fn read_param_name(alloc: Global, earlier: &[Param], value: &Snap) -> Result<Name, FormError>
    ensures finds { Finds result (faults.param_name_faults (names_of earlier.now) (view value.now)) }
    ensures ok { IfOk result (λ name. view value.now ≡ text name) }
{
    match value {
        Snap::Text(name) => read_new_name(alloc, earlier, name.text()),
        _ => Err(wrong(alloc, SchemaRule::Shape)),
    }
}

fn read_new_name(alloc: Global, earlier: &[Param], name: &str) -> Result<Name, FormError>
    ensures finds { Finds result (faults.param_name_faults (names_of earlier.now) (text name.now)) }
    ensures ok { IfOk result (λ read. read ≡ name.now) }
{
    let read = read_name(alloc, name, true)?;
    require(alloc, !is_fixed(name), SchemaRule::Twice)?;
    require(alloc, !is_among(earlier, name), SchemaRule::Arguments)?;
    Ok(read)
}

/// Whether a name is bound everywhere.
fn is_fixed(name: &str) -> bool
    ensures { result ≡ expr_names.is_fixed name.now }
{
    name == "self" || name == "root"
}

fn is_among(earlier: &[Param], name: &str) -> bool
    ensures { result ≡ faults.is_among (names_of earlier.now) name.now }
{
    for param in earlier {
        if name == param.name.text() {
            return true;
        }
    }
    false
}

/// A type that a parameter may be of.
fn read_param_type(
    by: &Setting,
    value: &Snap,
    place: Place,
    expressions: &mut Expressions,
) -> Result<(), FormError>
    requires { IsSetting by.now }
    ensures finds { Finds result (faults.param_type_faults (fields_view by.now.types.now) (view value.now)) }
    ensures laid { OnOk result (expressions.new ≡ expressions.old
        ++ layout.type_laid (fields_view by.now.types.now) (view value.now) (length expressions.old) place) }
{
    let alloc = expressions.allocator();
    check_own(alloc, by.types, value)?;
    let is_barred = matches!(type_base(by.types, by.bases, value), Some(Base::Barred));
    require(alloc, !is_barred, SchemaRule::Arguments)?;
    read_type(value, by.types, by.bases, place, expressions)
}
