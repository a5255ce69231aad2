//! Whether the members of a union are told apart.
ghost use Rattle.std.specs.Prelude.{◌≡◌, List, map, length, IfOk};
ghost use Rattle.std.specs.List.{list_all, filter};
ghost use Rattle.std.specs.Option.{option_copied};
ghost use Rattle.type_table.specs.Names.{shape_by};
ghost use Rattle.type_table.specs.Unions as unions;

use crate::shape::Shape;
use crate::table::Table;
use crate::tags::{models_of, tag_among};
use crate::taken::{Taken, scalars_of};
use crate::unions::{is_array, is_map};
use snap_core::{ModelNo, TypeNo};
use std::alloc::{AllocError, Global};

/// Whether the members of a union are told apart.
pub fn are_apart(alloc: Global, table: &Table, members: &[TypeNo]) -> Result<bool, AllocError>
    ensures { IfOk result (λ apart. apart ≡ unions.are_apart table.now members.now) }
{
    if !are_members(table, members) {
        return Ok(false);
    }
    let apart = none_meet(alloc, table, members)?;
    let models = models_of(alloc, table, members)?;
    let tag = have_tag(alloc, table, models.as_slice())?;
    Ok(
        apart
            && count_arrays(table, members) <= 1
            && is_alone(count_maps(table, members), models.len())
            && tag,
    )
}

fn are_members(table: &Table, members: &[TypeNo]) -> bool
    ensures { result ≡ list_all (λ t. unions.is_member (shape_by table.now t.0)) members.now }
{
    members.iter().all(|t| is_member(table.named_shape(*t)))
}

fn is_member(shape: Option<&Shape>) -> bool
    ensures { result ≡ unions.is_member (option_copied shape.entry) }
{
    match shape {
        None => false,
        Some(
            Shape::Identifier
            | Shape::IdentifierNumber
            | Shape::Frozen
            | Shape::Optional(_, _)
            | Shape::Maybe(_)
            | Shape::MaybeNull(_)
            | Shape::Union(_)
            | Shape::Reference(_)
            | Shape::Safe(_)
            | Shape::Named(_),
        ) => false,
        Some(_) => true,
    }
}

fn count_arrays(table: &Table, members: &[TypeNo]) -> usize
    ensures { result ≡ length (filter (λ t. unions.is_array (shape_by table.now t.0)) members.now) }
{
    members
        .iter()
        .filter(|t| is_array(table.named_shape(**t)))
        .count()
}

fn count_maps(table: &Table, members: &[TypeNo]) -> usize
    ensures { result ≡ length (filter (λ t. unions.is_map (shape_by table.now t.0)) members.now) }
{
    members
        .iter()
        .filter(|t| is_map(table.named_shape(**t)))
        .count()
}

/// Whether there are no maps, or one map and no model.
fn is_alone(maps: usize, models: usize) -> bool
    ensures { (ts : List TypeNo) (ms : List (TypeNo × ModelNo)) → length ts ≡ maps → length ms ≡ models
        → result ≡ unions.is_alone ts ms }
{
    match maps {
        0 => true,
        1 => models == 0,
        _ => false,
    }
}

/// Whether there are fewer than two models, or a tag tells them apart.
fn have_tag(alloc: Global, table: &Table, models: &[(TypeNo, ModelNo)]) -> Result<bool, AllocError>
    ensures { IfOk result (λ have. have ≡ unions.have_tag table.now models.now) }
{
    if models.len() < 2 {
        return Ok(true);
    }
    Ok(tag_among(alloc, table, models)?.is_some())
}

/// Whether no scalar is taken by two of the members.
fn none_meet(alloc: Global, table: &Table, members: &[TypeNo]) -> Result<bool, AllocError>
    ensures { IfOk result (λ apart. apart
        ≡ unions.none_meet (map (λ t. unions.scalars_of table.now (shape_by table.now t.0)) members.now)) }
{
    let mut taken = Taken::new(alloc);
    let mut rest = members;
    while let Some((t, before)) = rest.split_last() {
        let scalars = scalars_of(table, table.named_shape(*t));
        if taken.meets(scalars) {
            return Ok(false);
        }
        taken.add(scalars)?;
        rest = before;
    }
    Ok(true)
}
