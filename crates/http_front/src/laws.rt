ghost use Rattle.http_front.specs.Laws.{WholeIsOnly, WholeStays, FrontOfWhole, WholeIsShort, PartialIsShort, NothingIsPartial, ArrivesOnce};

/// A request that has come whole is the only answer to its bytes.
pub fn whole_is_only()
    ensures { WholeIsOnly }
{}

/// Bytes after a request that has come whole change nothing of it.
pub fn whole_stays()
    ensures { WholeStays }
{}

/// Bytes from the front of a whole request are the beginning of one, or hold all of that request.
pub fn front_of_whole()
    ensures { FrontOfWhole }
{}

/// A request has at most 327,680 bytes, and the beginning of one has fewer.
pub fn requests_are_short()
    ensures whole { WholeIsShort }
    ensures partial { PartialIsShort }
{}

/// No bytes are the beginning of a request, and nothing else.
pub fn nothing_is_partial()
    ensures { NothingIsPartial }
{}

/// There is one answer to bytes at whose front a head stands, or one of at most 64 fields can still
/// come.
pub fn arrives_once()
    ensures { ArrivesOnce }
{}
