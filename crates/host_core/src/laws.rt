//! What holds of every request to a host.
ghost use Rattle.host_core.specs.Laws.{NamesAscend, OthersStay, RepliesAreOwn};
ghost use Rattle.host_core.specs.Sound.{ChangesTell};

/// Names stay ascending.
pub fn names_ascend()
    ensures { NamesAscend }
{}

/// A request leaves the documents as they were that it isn't on.
pub fn others_stay()
    ensures { OthersStay }
{}

/// What a request on a document gets goes by this document alone, unless the host is full.
pub fn replies_are_own()
    ensures { RepliesAreOwn }
{}

/// A change of a sound document is told by patches that lead to what it leaves, which is sound again, and back.
pub fn changes_tell()
    ensures { ChangesTell }
{}
