//! Types with the tags of their unions.
ghost use Rattle.std.specs.Prelude.{◌≡◌, map, IfOk};
ghost use Rattle.std.specs.Option.{option_copied};
ghost use Rattle.type_table.specs.Table.{shape_at};
ghost use Rattle.type_table.specs.Identifiers.{is_firm};
ghost use Rattle.type_table.specs.Unions.{tag_in};

use crate::shape::Shape;
use crate::standing::mark_properties;
use crate::table::Table;
use crate::tags::tag_in;
use list_core::Parts;
use snap_core::{Txt, TypeNo};
use std::alloc::{AllocError, Global};
use std::marker::Model;

/// Types, for each union the tag that tells its models apart, and which types are properties' own.
/// Contracts see the types alone.
#[derive(Debug, Drop)]
pub struct Tagged {
    table: Table,
    tags: Parts<Option<Txt>>,
    of_property: Parts<bool>,
}

impl Model for Tagged {
    ghost use Rattle.std.specs.Prelude.{◌≡◌, Some, map, length};
    ghost use Rattle.type_table.specs.Identifiers.{property_types};
    ghost use Rattle.type_table.specs.Marks.{AreMarks};
    ghost use Rattle.type_table.specs.Table as specs;
    ghost use Rattle.type_table.specs.Unions.{tag_in};
    ghost use Rattle.std.specs.Coded.{codes};
    ghost use Rattle.snap_core.specs.contracts.snap.Snap as snap;

    ghost Value = { specs.Table };

    ghost coded = { Prim.hlevel (codes, snap.the_row.coded) };

    ghost view = { λ t. t.table };

    ghost invariant = { λ t. (t.tags ≡ map (λ shape. tag_in t.table (Some shape)) t.table.shapes)
        × AreMarks t.of_property (property_types t.table.models)
        × (length t.of_property ≡ length t.table.shapes) };
}

impl Tagged {
    /// Finds the tags of the unions of a table.
    pub fn new(alloc: Global, table: Table) -> Result<Tagged, AllocError>
        ensures { IfOk result (λ tagged. tagged ≡ table) }
    {
        let mut tags = Parts::new(alloc);
        for shape in table.shapes.as_slice() {
            tags.push(tag_in(alloc, &table, shape)?)?;
        }
        let of_property = mark_properties(alloc, &table)?;
        Ok(Tagged {
            table,
            tags,
            of_property,
        })
    }

    /// Whether a type is a safe reference that null doesn't clear, as it is no property's type.
    pub fn is_firm(&self, t: TypeNo) -> bool
        ensures { result ≡ is_firm self.now t.0 }
    {
        match (self.table.shape(t), self.of_property.get(t.0)) {
            (Some(Shape::Safe(_)), Some(of_property)) => !*of_property,
            _ => false,
        }
    }

    pub fn table(&self) -> &Table
        ensures { result.now ≡ self.now }
    {
        &self.table
    }

    /// The tag of a union of two or more models.
    pub fn tag(&self, t: TypeNo) -> Option<&Txt>
        ensures { option_copied result ≡ tag_in self.now (shape_at self.now t.0) }
    {
        match self.tags.get(t.0) {
            Some(Some(tag)) => Some(tag),
            _ => None,
        }
    }
}
