ghost use Rattle.tree_laws.specs.Laws.{WritesLead, ListsLead, SettlingLeadsOn, LeadingGoesOn, WritesStayTyped, ListsStayTyped, SettlingStaysTyped, NewTreesAreSound, WritesKeepTrees, ListsKeepTrees, SettlingKeepsTrees, SettlingSettles, WritesAreDone, ListsAreDone};

/// The patches of a write fit in turn, lead to the snapshot after it and, taken back, to the one before.
pub fn writes_lead()
    ensures { WritesLead }
{}

/// So do those of a list of patches.
pub fn lists_lead()
    ensures { ListsLead }
{}

/// So do those of settling.
pub fn settling_leads_on()
    ensures { SettlingLeadsOn }
{}

/// What calls did one after the other leads on as a whole.
pub fn leading_goes_on()
    ensures { LeadingGoesOn }
{}

/// After a write each node has the kind that its type gives it, numbers differ, and all values are plain.
pub fn writes_stay_typed()
    ensures { WritesStayTyped }
{}

/// So it is after a list of patches.
pub fn lists_stay_typed()
    ensures { ListsStayTyped }
{}

/// So it is after settling.
pub fn settling_stays_typed()
    ensures { SettlingStaysTyped }
{}

/// A new tree of a sound value is sound.
pub fn new_trees_are_sound()
    ensures { NewTreesAreSound }
{}

/// After a write a sound tree is sound: its value is made of itself, and no identifier stands twice.
pub fn writes_keep_trees()
    ensures { WritesKeepTrees }
{}

/// So it is after a list of patches.
pub fn lists_keep_trees()
    ensures { ListsKeepTrees }
{}

/// So it is after settling.
pub fn settling_keeps_trees()
    ensures { SettlingKeepsTrees }
{}

/// After settling each safe reference leads to a node, or is null.
pub fn settling_settles()
    ensures { SettlingSettles }
{}

/// A write of a sound tree, and settling after it: what was logged leads there and back, and the tree is sound and settled.
pub fn writes_are_done()
    ensures { WritesAreDone }
{}

/// So it is after a list of patches.
pub fn lists_are_done()
    ensures { ListsAreDone }
{}
