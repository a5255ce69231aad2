ghost use Rattle.action_laws.specs.Laws.{ActionsLead, ActionsAreDone, SettledTreesStay, FailedAtomicsAreNothing};
ghost use Rattle.action_laws.specs.Schemas.{SchemasBehavePlainly};

/// The patches that an action keeps, refused or not, fit in turn, lead to the snapshot behind it and, taken back, to the
/// one before; rolling back gives the very nodes of then; and a sound tree stays sound.
pub fn actions_lead()
    ensures { ActionsLead }
{}

/// So it is after settling, and then the tree is settled.
pub fn actions_are_done()
    ensures { ActionsAreDone }
{}

/// A schema whose types have no fault, and whose views and actions have plain constants, behaves as the two laws above ask.
pub fn schemas_behave_plainly()
    ensures { SchemasBehavePlainly }
{}

/// Settling a settled tree leaves it as it is.
pub fn settled_trees_stay()
    ensures { SettledTreesStay }
{}

/// A refused action of a settled tree that an atomic middleware surrounds leaves the tree as it was, settling included.
pub fn failed_atomics_are_nothing()
    ensures { FailedAtomicsAreNothing }
{}
