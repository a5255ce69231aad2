ghost use Rattle.eval_core.specs.Laws.{SameCellsSameRun, HeightTellsDeep, AllStayWithin, AmongIsAlone, TracesRepeat, PlainOperands};

/// A run is the same over another sight, where the two agree at each cell that it read: answer or refusal, reads in
/// order, height and counts.
pub fn same_cells_same_run()
    ensures { SameCellsSameRun }
{}

/// A view that ends well from nothing does the same while others are in progress, where its height has room.
/// Otherwise too many views are in progress, which is told of the first of them.
pub fn height_tells_deep()
    ensures { HeightTellsDeep }
{}

/// A view that ends well while others are in progress does the same from nothing.
pub fn among_is_alone()
    ensures { AmongIsAlone }
{}

/// In the trace of a view that ends well, a view counts the same wherever it is entered.
pub fn traces_repeat()
    ensures { TracesRepeat }
{}

/// No body, statement or condition counts more expressions than it may, and no more views are in progress than
/// may be.
pub fn all_stay_within()
    ensures { AllStayWithin }
{}

/// On plain operands an operator reads nothing, and gives what it gives on plain values.
pub fn plain_operands()
    ensures { PlainOperands }
{}
