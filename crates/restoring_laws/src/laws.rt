ghost use Rattle.restoring_laws.specs.Laws.{PuttingBackApplies, CountedArePutBack, EachIsApplied, CountedAreApplied, CallsAreUndone, SingleWritesAreUndone, SinglePatchesAreUndone, CallsAreRedone, DeadNodesStayDead};

/// Patches that fit in turn, at places in nodes, and are put back lead where applying them leads, and are logged as they are.
pub fn putting_back_applies()
    ensures { PuttingBackApplies }
{}

/// So do patches that fit in turn where the log grew by as many.
pub fn counted_are_put_back()
    ensures { CountedArePutBack }
{}

/// A patch that changes a tree when it is put back makes of its snapshot what applying it makes.
pub fn each_is_applied()
    ensures { EachIsApplied }
{}

/// So does each of many in its turn where the log grew by as many.
pub fn counted_are_applied()
    ensures { CountedAreApplied }
{}

/// The inverses of what a call logged, last first, undo it.
pub fn calls_are_undone()
    ensures { CallsAreUndone }
{}

/// The inverse of the one patch that a write logged undoes it.
pub fn single_writes_are_undone()
    ensures { SingleWritesAreUndone }
{}

/// So it is with a list of one patch.
pub fn single_patches_are_undone()
    ensures { SinglePatchesAreUndone }
{}

/// What a call logged does it again.
pub fn calls_are_redone()
    ensures { CallsAreRedone }
{}

/// What comes in has new nodes: no node that is dead comes back, whatever patches are put back.
pub fn dead_nodes_stay_dead()
    ensures { DeadNodesStayDead }
{}
