ghost use Rattle.doc_core.specs.Laws.{ChangesLead, AtomicsKeepAllOrNothing};

use action_laws::failed_atomics_are_nothing;

/// The patches of a change lead from the snapshot before to the one after, and their inverses, last first, lead back.
pub fn changes_lead()
    ensures { ChangesLead }
{}

/// An atomic action of a settled document ends well, or nothing is kept of it.
pub fn atomics_keep_all_or_nothing()
    ensures { AtomicsKeepAllOrNothing }
{
    failed_atomics_are_nothing();
}
