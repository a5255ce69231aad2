ghost use Rattle.std.specs.Prelude.{◌≡◌, [], ◌++◌, length, encode_utf8, OnOk, OnErr};
ghost use Rattle.std.specs.String.{string_bytes};
ghost use Rattle.list_core.specs.Outcome.{Gives};

use list_core::Parts;
use std::alloc::{AllocError, Global};
use std::marker::Model;

/// Bytes of any kind.
pub type Bytes = Parts<u8>;

/// A text in UTF-8, which contracts see as its bytes.
#[derive(Debug, Drop)]
pub struct Txt {
    text: String,
}

impl Model for Txt {
    ghost use Rattle.std.specs.Prelude.{List, ℕ};
    ghost use Rattle.std.specs.String.{string_bytes};

    ghost Value = { List ℕ };

    ghost view = { λ t. string_bytes t.text };
}

impl Txt {
    /// An empty text, which takes its memory from `alloc` as it grows.
    pub fn new(alloc: Global) -> Txt
        ensures { result ≡ [] }
    {
        Txt {
            text: String::new(alloc),
        }
    }

    /// The text of a `String`, which it takes over.
    pub fn from_string(text: String) -> Txt
        ensures { result ≡ string_bytes text }
    {
        Txt { text }
    }

    /// The same text on the heap.
    pub fn copy(alloc: Global, text: &str) -> Result<Txt, AllocError>
        ensures { Gives result text.now }
    {
        Ok(Txt {
            text: String::from_str(alloc, text)?,
        })
    }

    /// The text as a slice of its bytes.
    pub fn text(&self) -> &str
        ensures { result.now ≡ self.now }
    {
        self.text.as_str()
    }

    /// How many bytes the text has.
    pub fn len(&self) -> usize
        ensures { result ≡ length self.now }
    {
        self.text.len()
    }

    /// Adds a character at the end.
    pub fn push(&mut self, c: char) -> Result<(), AllocError>
        ensures ok { OnOk result (self.new ≡ self.old ++ encode_utf8 c) }
        ensures err { OnErr result (self.new ≡ self.old) }
    {
        self.text.push(c)
    }

    /// Adds a text at the end.
    pub fn push_str(&mut self, text: &str) -> Result<(), AllocError>
        ensures ok { OnOk result (self.new ≡ self.old ++ text.now) }
        ensures err { OnErr result (self.new ≡ self.old) }
    {
        self.text.push_str(text)
    }

    /// An equal text, which takes its memory from where this one does.
    pub fn clone_in(&self) -> Result<Txt, AllocError>
        ensures { Gives result self.now }
    {
        Txt::copy(*self.text.allocator(), self.text())
    }
}
