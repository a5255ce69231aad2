//! Safe references that lead to no node.
ghost use Rattle.std.specs.Prelude.{◌≡◌, Some, IfOk};
ghost use Rattle.node_core.specs.View.{labelled, plain};
ghost use Rattle.tree_core.specs.Settling as specs;
ghost use Rattle.tree_reading.specs.Clearing.{goes_by};

use crate::typing::{is_safe, target_at};
use node_core::Labelled;
use snap_core::{ModelNo, TypeNo};
use std::alloc::AllocError;
use type_core::{Seen, Types};

/// What settling goes by: the types, and the identifiers that are in the tree.
#[derive(Clone, Copy)]
pub struct Clearing<'a> {
    pub types: &'a Types,
    pub met: &'a Seen,
}

/// Whether a value of a type is a safe reference that leads to no node.
pub fn is_loose(by: &Clearing, t: TypeNo, part: &Labelled) -> Result<bool, AllocError>
    ensures { IfOk result (λ loose. loose ≡ specs.is_loose (goes_by by.now) t.0 (labelled part.now)) }
{
    match safe_target(by.types, t) {
        Some(m) => leads_nowhere(by.met, m, part),
        None => Ok(false),
    }
}

/// The model that safe references of a type lead to; none where it is no type of them.
fn safe_target(types: &Types, t: TypeNo) -> Option<ModelNo>
    ensures { result ≡ specs.safe_target types.now.table t.0 }
{
    if is_safe(types, t) {
        target_at(types, t)
    } else {
        None
    }
}

fn leads_nowhere(met: &Seen, m: ModelNo, part: &Labelled) -> Result<bool, AllocError>
    ensures { IfOk result (λ loose. loose ≡ specs.leads_nowhere met.now (Some m) (plain part.now)) }
{
    match part {
        Labelled::Leaf(value) => Ok(!met.has(m, value)?),
        _ => Ok(false),
    }
}
