//! The identifiers that are in a tree, met once each.
ghost use Rattle.std.specs.Prelude.{◌≡◌, Some, OnOk};
ghost use Rattle.std.specs.Option.{option_copied};
ghost use Rattle.snap_core.specs.Value.{dict, value_at};
ghost use Rattle.type_core.specs.Finding.{met};
ghost use Rattle.type_table.specs.Identifiers.{ident_of};
ghost use Rattle.edit_core.specs.Labelled.{branches, entries};
ghost use Rattle.node_core.specs.View.{labelled, plain, plain_fields, items, fields};
ghost use Rattle.tree_core.specs.Reading.{identifier_in};
ghost use Rattle.tree_core.specs.Settling as specs;
ghost use Rattle.tree_core.specs.TypesTyping.{typing_of};

use crate::places::entry_at;
use edit_core::Kind;
use node_core::{Labelled, LabelledField};
use snap_core::{ModelNo, Name};
use std::alloc::AllocError;
use type_core::{Seen, Types};

/// Meets the identifiers of a value's nodes, in document order.
#[cycle(gathering)]
pub fn gather(types: &Types, seen: &mut Seen, from: &Labelled) -> Result<(), AllocError>
    ensures { OnOk result (seen.new ≡ specs.all_met (typing_of types.now.table) seen.old (labelled from.now)) }
{
    match from {
        Labelled::Leaf(_) => Ok(()),
        Labelled::Array(_, items) => gather_items(types, seen, items.as_slice()),
        Labelled::Record(label, fields) => {
            gather_record(types, seen, label.kind, fields.as_slice())
        }
    }
}

#[cycle(gathering)]
fn gather_items(types: &Types, seen: &mut Seen, parts: &[Labelled]) -> Result<(), AllocError>
    ensures { OnOk result (seen.new ≡ specs.items_met (typing_of types.now.table) seen.old (branches (items parts.now))) }
{
    for part in parts {
        gather(types, seen, part)?;
    }
    Ok(())
}

/// Meets the record's own identifier, and then those in it.
#[cycle(gathering)]
fn gather_record(
    types: &Types,
    seen: &mut Seen,
    kind: Kind,
    parts: &[LabelledField],
) -> Result<(), AllocError>
    ensures { let typing = typing_of types.now.table in
        OnOk result (seen.new ≡ specs.entries_met typing (specs.own_met typing seen.old kind (dict tt (plain_fields parts.now))) (entries (fields parts.now))) }
{
    meet_own(types, seen, kind, parts)?;
    for part in parts {
        gather(types, seen, &part.value)?;
    }
    Ok(())
}

/// Meets the identifier of a record of a kind.
fn meet_own(
    types: &Types,
    seen: &mut Seen,
    kind: Kind,
    parts: &[LabelledField],
) -> Result<(), AllocError>
    ensures { OnOk result (seen.new ≡ specs.own_met (typing_of types.now.table) seen.old kind (dict tt (plain_fields parts.now))) }
{
    match kind {
        Kind::Model(m) => meet_named(seen, m, types.identifying(m), parts),
        _ => Ok(()),
    }
}

/// Meets the identifier of a record of a model, by its name.
fn meet_named(
    seen: &mut Seen,
    m: ModelNo,
    name: Option<&Name>,
    parts: &[LabelledField],
) -> Result<(), AllocError>
    ensures { OnOk result (seen.new ≡ met seen.old m (identifier_in (option_copied name.entry) (dict tt (plain_fields parts.now)))) }
{
    match name {
        Some(name) => meet_under(seen, m, name.text(), parts),
        None => Ok(()),
    }
}

fn meet_under(
    seen: &mut Seen,
    m: ModelNo,
    name: &str,
    parts: &[LabelledField],
) -> Result<(), AllocError>
    ensures { OnOk result (seen.new ≡ met seen.old m (ident_of (value_at name.now (plain_fields parts.now)))) }
{
    match entry_at(parts, name) {
        Some(part) => meet_part(seen, m, part),
        None => Ok(()),
    }
}

fn meet_part(seen: &mut Seen, m: ModelNo, part: &Labelled) -> Result<(), AllocError>
    ensures { OnOk result (seen.new ≡ met seen.old m (ident_of (Some (plain part.now)))) }
{
    match part {
        Labelled::Leaf(value) => seen.meet(m, value),
        _ => Ok(()),
    }
}
