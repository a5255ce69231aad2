ghost use Rattle.host_laws.specs.Laws.{CreatedAreSound, DocumentsStaySound, FailedAtomicsStay, OtherRepliesAreOwn, RunsAreOwn, RunsStaySound};

use action_laws::failed_atomics_are_nothing;

/// A new document is sound and settled.
pub fn created_are_sound()
    ensures { CreatedAreSound }
{}

/// A request leaves sound documents sound.
pub fn documents_stay_sound()
    ensures { DocumentsStaySound }
{}

/// Whatever requests come to a host with no documents, all of its documents are sound, and replies tell their changes.
pub fn runs_stay_sound()
    ensures { RunsStaySound }
{}

/// A request for an action that ends refused under an atomic middleware leaves all documents as they were, and its reply is a
/// refusal without patches.
pub fn failed_atomics_stay()
    ensures { FailedAtomicsStay }
{
    failed_atomics_are_nothing();
}

/// What a request gets that makes no document goes by its own document alone, be the host full or not.
pub fn other_replies_are_own()
    ensures { OtherRepliesAreOwn }
{}

/// Where no document is refused for want of room, requests on one document get what they get of a host of their own.
pub fn runs_are_own()
    ensures { RunsAreOwn }
{}
