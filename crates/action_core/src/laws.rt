ghost use Rattle.action_core.specs.Laws.{FailedAtomicsLeaveAll, RequestsGoOn};

/// Where an action that an atomic middleware surrounds ends refused, the tree is as it was: its snapshot with all labels,
/// and the edits that are kept.
pub fn failed_atomics_leave_all()
    ensures { FailedAtomicsLeaveAll }
{}

/// What a request tried and met only grows, and no more statements are run than may be.
pub fn requests_go_on()
    ensures { RequestsGoOn }
{}
