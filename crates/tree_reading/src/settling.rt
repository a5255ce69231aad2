//! Settling: safe references that lead to no node are cleared.
ghost use Rattle.std.specs.Prelude.{◌≡◌, IfOk};
ghost use Rattle.edit_core.specs.Logged.{after_log};
ghost use Rattle.node_core.specs.View.{labelled, edits_of};
ghost use Rattle.tree_core.specs.Settling.{settling_in};
ghost use Rattle.tree_core.specs.Settling as specs;
ghost use Rattle.tree_reading.specs.Settled.{SettlingAlwaysLeads};

use crate::clearing::{Edits, settling_edits};
use crate::gathering::gather;
use crate::loose::Clearing;
use crate::settled::settled_value;
use node_core::Labelled;
use std::alloc::{AllocError, Global};
use type_core::{Seen, Types};

/// A tree without its loose references, and the edits that lead there.
#[derive(Debug, Drop)]
pub struct Settled {
    pub value: Labelled,
    pub edits: Edits,
}

/// Clears the safe references that lead to no node: a property becomes null, a value of a map goes, and so do items of
/// an array, last to first.
#[tactic(auto, using(crate::proofs::SettlingLaws::after_settling))]
pub fn settle(alloc: Global, types: &Types, root: &Labelled) -> Result<Settled, AllocError>
    ensures edits { IfOk result (λ s. edits_of s.edits ≡ specs.settling_edits (settling_in types.now (labelled root.now)) (labelled root.now)) }
    ensures value { IfOk result (λ s. labelled s.value ≡ after_log (specs.settling_edits (settling_in types.now (labelled root.now)) (labelled root.now)) (labelled root.now)) }
{
    let mut met = Seen::new(alloc);
    gather(types, &mut met, root)?;
    let by = Clearing { types, met: &met };
    let edits = settling_edits(alloc, &by, root)?;
    let value = settled_value(alloc, &by, root)?;
    Ok(Settled { value, edits })
}

/// Settling's edits lead to the tree without its loose references, and back again.
pub fn settling_leads()
    ensures { SettlingAlwaysLeads }
{}
