//! The documents that a host holds.
ghost use Rattle.std.specs.Prelude.{◌≡◌, ◌<◌, None, length, IfNone, IfSome, is_some};
ghost use Rattle.host_core.specs.Docs.{find};
ghost use Rattle.host_core.specs.Inside.{held_docs, StandsAt};

use doc_core::Document;
use snap_core::Txt;

/// A document and its name.
#[derive(Debug, Drop)]
pub struct Held {
    pub name: Txt,
    pub document: Document,
}

/// Where the document of a name stands.
pub fn position(docs: &[Held], name: &str) -> Option<usize>
    ensures within { IfSome result (λ at. at < length docs.now) }
    ensures stands { IfSome result (λ at. StandsAt name.now at docs.now) }
    ensures none { IfNone result (find name.now (held_docs docs.now) ≡ None) }
    ensures found { is_some result ≡ is_some (find name.now (held_docs docs.now)) }
{
    for (at, held) in docs.iter().enumerate() {
        if name == held.name.text() {
            return Some(at);
        }
    }
    None
}
