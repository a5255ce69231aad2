ghost use Rattle.std.specs.Prelude.{◌≡◌, ◌↔◌, IsTrue};
ghost use Rattle.list_core.specs.Outcome.{Gives};

use crate::text::Txt;
use std::alloc::AllocError;

/// What tells a model from the others of its kind in one document. A text and a number are never equal, the
/// number's digits included.
#[derive(Debug, Drop)]
pub enum Ident {
    Text(Txt),
    Number(i64),
}

impl Ident {
    /// An equal identifier.
    pub fn clone_in(&self) -> Result<Ident, AllocError>
        ensures { Gives result self.now }
    {
        match self {
            Ident::Text(text) => Ok(Ident::Text(text.clone_in()?)),
            Ident::Number(n) => Ok(Ident::Number(*n)),
        }
    }

    /// Whether two identifiers are equal.
    pub fn equal(&self, other: &Ident) -> bool
        ensures { IsTrue result ↔ (self.now ≡ other.now) }
    {
        match (self, other) {
            (Ident::Text(a), Ident::Text(b)) => a.text() == b.text(),
            (Ident::Number(a), Ident::Number(b)) => a == b,
            _ => false,
        }
    }
}
