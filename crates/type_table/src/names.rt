//! The types that names stand for.
ghost use Rattle.std.specs.Prelude.{◌≡◌, ◌+◌, ◌≤◌, ℕ, List, Some, None, slice_get, replicate, IfOk, IfSome};
ghost use Rattle.type_table.specs.declared.shape.ModelType.{ModelType as Kept};
ghost use Rattle.type_table.specs.Names.{named_within};
ghost use Rattle.type_table.specs.NameEnds.{AreEnds, AreEndsWithin};

use crate::shape::Shape;
use list_core::Parts;
use snap_core::TypeNo;
use std::alloc::{AllocError, Global};

/// The type that each type is, names followed. Where `order` has each name after the type that it
/// stands for, the end is found of each that is in no circle.
pub fn ends_of(
    alloc: Global,
    shapes: &[Shape],
    order: &[TypeNo],
) -> Result<Parts<Option<TypeNo>>, AllocError>
    ensures { IfOk result (λ ends. (models : List Kept) → AreEnds (record { shapes = shapes.now; models = models }) ends) }
{
    let mut ends = none_yet(alloc, shapes.len())?;
    let order = &order[..order.len().min(shapes.len())];
    for t in order {
        find_end(shapes, &mut ends, *t);
    }
    Ok(ends)
}

fn none_yet(alloc: Global, count: usize) -> Result<Parts<Option<TypeNo>>, AllocError>
    ensures { IfOk result (λ ends. ends ≡ replicate count None) }
{
    let mut ends = Parts::new(alloc);
    for _t in 0..count {
        ends.push(None)?;
    }
    Ok(ends)
}

/// Notes the end of a type, if it is known what the type stands for.
fn find_end(shapes: &[Shape], ends: &mut Parts<Option<TypeNo>>, t: TypeNo)
    ensures { (models : List Kept) (most : ℕ)
        → AreEndsWithin (record { shapes = shapes.now; models = models }) most ends.old
        → AreEndsWithin (record { shapes = shapes.now; models = models }) (most + 1) ends.new }
{
    let end = end_of(shapes, ends.as_slice(), t);
    if t.0 < ends.len() {
        ends.set(t.0, end);
    }
}

fn end_of(shapes: &[Shape], ends: &[Option<TypeNo>], t: TypeNo) -> Option<TypeNo>
    ensures { (models : List Kept) (most m : ℕ)
        → AreEndsWithin (record { shapes = shapes.now; models = models }) most ends.now → most ≤ m
        → IfSome result (λ u. named_within (record { shapes = shapes.now; models = models }) (m + 1) t.0 ≡ u.0) }
{
    match shapes.get(t.0) {
        Some(Shape::Named(u)) => end_at(ends, *u),
        _ => Some(t),
    }
}

fn end_at(ends: &[Option<TypeNo>], t: TypeNo) -> Option<TypeNo>
    ensures { IfSome result (λ u. slice_get ends.now t.0 ≡ Some (Some u)) }
{
    match ends.get(t.0) {
        Some(end) => *end,
        None => None,
    }
}
