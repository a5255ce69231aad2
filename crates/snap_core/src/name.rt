ghost use Rattle.std.specs.Prelude.{◌≡◌, ◌↔◌, false, IsTrue, IfOk, IsErrOf};
ghost use Rattle.std.specs.List.{list_all};
ghost use Rattle.snap_core.specs.Name.{is_name, is_name_byte};
ghost use Rattle.list_core.specs.Outcome.{Gives};

use crate::text::Txt;
use std::alloc::{AllocError, Global};
use std::marker::Model;
use thiserror::Error;

/// Why a text became no `Name`.
#[derive(Clone, Copy, Debug, PartialEq, Eq, Error)]
pub enum NameError {
    #[error("out of memory")]
    Memory,
    #[error("a name is 1 to 64 ASCII letters, digits and underscores, with no digit first")]
    BadName,
}

/// The name of a model, a property or another part of a schema: 1 to 64 ASCII letters, digits and
/// `_`, with no digit first. Contracts see its bytes.
#[derive(Debug, Drop)]
pub struct Name {
    text: Txt,
}

impl Model for Name {
    ghost use Rattle.std.specs.Prelude.{List, ℕ, IsTrue};
    ghost use Rattle.snap_core.specs.Name.{is_name};

    ghost Value = { List ℕ };

    ghost view = { λ n. n.text };

    ghost invariant = { λ n. IsTrue (is_name n.text) };
}

impl Name {
    /// Reads a name.
    pub fn read(alloc: Global, text: &str) -> Result<Name, NameError>
        ensures ok { Gives result text.now }
        ensures bad { IsErrOf result NameError.BadName ↔ (is_name text.now ≡ false) }
        ensures named { IfOk result (λ name. IsTrue (is_name name)) }
    {
        if !is_name(text.as_bytes()) {
            return Err(NameError::BadName);
        }
        let text = Txt::copy(alloc, text).map_err(|_| NameError::Memory)?;
        Ok(Name { text })
    }

    /// The name's text.
    pub fn text(&self) -> &str
        ensures text { result.now ≡ self.now }
        ensures named { IsTrue (is_name self.now) }
    {
        self.text.text()
    }

    /// An equal name.
    pub fn clone_in(&self, alloc: Global) -> Result<Name, AllocError>
        ensures { Gives result self.now }
    {
        let text = Txt::copy(alloc, self.text())?;
        Ok(Name { text })
    }
}

/// Whether the bytes of a text are a `Name`.
pub fn is_name(bytes: &[u8]) -> bool
    ensures { result ≡ is_name bytes.now }
{
    match bytes {
        [] => false,
        [first, ..] => bytes.len() <= 64 && !first.is_ascii_digit() && has_name_bytes(bytes),
    }
}

fn has_name_bytes(bytes: &[u8]) -> bool
    ensures { result ≡ list_all is_name_byte bytes.now }
{
    bytes
        .iter()
        .all(|byte| byte.is_ascii_alphanumeric() || *byte == b'_')
}
