//! What is staged is kept once its reply is made.
ghost use Rattle.std.specs.Prelude.{◌≡◌, All, Ok, IfOk, OnErr, option_map};
ghost use Rattle.patch_core.specs.Printing.{HasPlainValues};
ghost use Rattle.type_core.specs.Made.{refused_as};
ghost use Rattle.edit_core.specs.Labelled.{bare};
ghost use Rattle.http_front.specs.Reply.{printed};
ghost use Rattle.live_tree.specs.Contents.{state};
ghost use Rattle.doc_core.specs.Documents.{IsDocument};
ghost use Rattle.host_core.specs.Answering.{act_done, acted_reply};
ghost use Rattle.host_core.specs.Inside.{closes, snapshot_of};
ghost use Rattle.host_core.specs.Keeping.{IsKept, IsStaged, Staging};

use crate::visit::Visit;
use doc_core::{DocError, Document, Staged};
use host_replies::{change_reply, refusal_reply, refused_change_reply};
use snap_core::Bytes;
use std::alloc::AllocError;

/// Replies to what was staged, and keeps it, or replies to its refusal.
pub fn finish(
    visit: &Visit<'_>,
    document: &mut Document,
    outcome: Result<Staged, DocError>,
) -> Result<Bytes, AllocError>
    requires { IfOk outcome (λ staged. All HasPlainValues staged.patches) }
    ensures done { (s : Staging) → IsStaged s outcome (state document.old)
        → IfOk result (λ bytes. IsKept (closes visit.now) (act_done s.before s.outcome) bytes (snapshot_of document.new)) }
    ensures document { (s : Staging) → IsStaged s outcome (state document.old) → IsDocument s.types (state document.new) }
    ensures err { (s : Staging) → IsStaged s outcome (state document.old)
        → OnErr result (snapshot_of document.new ≡ bare s.before.tree) }
{
    match outcome {
        Ok(staged) => keep(visit, document, &staged),
        Err(DocError::Memory) => Err(AllocError),
        Err(DocError::Refused(refusal)) => {
            refusal_reply(visit.alloc, visit.request.close, &refusal)
        }
    }
}

// Keeps what is staged once its reply is made.
fn keep(visit: &Visit<'_>, document: &mut Document, staged: &Staged) -> Result<Bytes, AllocError>
    requires { All HasPlainValues staged.now.patches }
    ensures done { (s : Staging) → IsStaged s (Ok staged.now) (state document.old)
        → IfOk result (λ bytes. IsKept (closes visit.now) (act_done s.before s.outcome) bytes (snapshot_of document.new)) }
    ensures document { (s : Staging) → IsStaged s (Ok staged.now) (state document.old) → IsDocument s.types (state document.new) }
    ensures err { (s : Staging) → IsStaged s (Ok staged.now) (state document.old)
        → OnErr result (snapshot_of document.new ≡ bare s.before.tree) }
{
    match staged_reply(visit, staged) {
        Ok(reply) => {
            document.commit();
            Ok(reply)
        }
        Err(error) => {
            document.cancel();
            Err(error)
        }
    }
}

// The reply that tells what is staged, and beside it the refusal of an action that left it.
fn staged_reply(visit: &Visit<'_>, staged: &Staged) -> Result<Bytes, AllocError>
    requires { All HasPlainValues staged.now.patches }
    ensures { IfOk result (λ bytes. bytes ≡ printed (closes visit.now) (acted_reply (option_map refused_as staged.now.fault) staged.now.patches)) }
{
    match &staged.fault {
        Some(refusal) => refused_change_reply(
            visit.alloc,
            visit.request.close,
            refusal,
            &staged.patches,
        ),
        None => change_reply(visit.alloc, visit.request.close, &staged.patches),
    }
}
