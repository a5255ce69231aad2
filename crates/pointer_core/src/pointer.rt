ghost use Rattle.std.specs.Prelude.{◌≡◌, [], ◌∷◌, ◌++◌, length, slice_get, decimal, encode_utf8, ◌↔◌, IsTrue, OnOk, OnErr};
ghost use Rattle.std.specs.Option.{option_copied};
ghost use Rattle.list_core.specs.Outcome.{Gives};
ghost use Rattle.pointer_core.specs.Path.{printed, escaped};

use list_core::Parts;
use snap_core::Txt;
use std::alloc::{AllocError, Global};
use std::marker::Model;

/// One step of a pointer: a property's name, a key, or an index in decimal.
pub type Token = Txt;

/// A place as the tokens that lead to it from the root, which contracts see as their list.
#[derive(Debug, Drop)]
pub struct Pointer {
    tokens: Parts<Token>,
}

impl Model for Pointer {
    ghost use Rattle.std.specs.Prelude.{List, ℕ};

    ghost Value = { List (List ℕ) };

    ghost view = { λ p. p.tokens };
}

impl Pointer {
    /// The root's pointer, which has no tokens.
    pub fn new(alloc: Global) -> Pointer
        ensures { result ≡ [] }
    {
        Pointer {
            tokens: Parts::new(alloc),
        }
    }

    /// How many tokens there are.
    pub fn len(&self) -> usize
        ensures { result ≡ length self.now }
    {
        self.tokens.len()
    }

    /// Whether the pointer is the root's.
    pub fn is_root(&self) -> bool
        ensures { IsTrue result ↔ (self.now ≡ []) }
    {
        self.tokens.is_empty()
    }

    /// The tokens from the root on.
    pub fn tokens(&self) -> &[Token]
        ensures { result.now ≡ self.now }
    {
        self.tokens.as_slice()
    }

    /// An equal pointer, which takes its memory from where this one does.
    pub fn clone_in(&self) -> Result<Pointer, AllocError>
        ensures { Gives result self.now }
    {
        let mut copy = Pointer::new(self.tokens.allocator());
        for token in self.tokens() {
            copy.push(token.clone_in()?)?;
        }
        Ok(copy)
    }

    /// The token at an index from the root, or none where there are not so many.
    pub fn get(&self, at: usize) -> Option<&Token>
        ensures { option_copied result ≡ slice_get self.now at }
    {
        self.tokens.get(at)
    }

    /// Goes one step further down. The token is gone where memory runs out.
    pub fn push(&mut self, token: Token) -> Result<(), AllocError>
        ensures ok { OnOk result (self.new ≡ self.old ++ token ∷ []) }
        ensures err { OnErr result (self.new ≡ self.old) }
    {
        self.tokens.push(token)
    }

    /// The pointer as it reads one level higher up, where `token` leads to what was its root.
    pub fn under(self, token: &str) -> Result<Pointer, AllocError>
        ensures { Gives result (token.now ∷ self) }
    {
        let token = Txt::copy(self.tokens.allocator(), token)?;
        self.under_token(token)
    }

    /// The same, where its root was the item of a list at `index`.
    pub fn under_index(self, index: usize) -> Result<Pointer, AllocError>
        ensures { Gives result (decimal index ∷ self) }
    {
        let token = format!(in self.tokens.allocator(); "{index}")?;
        self.under_token(Txt::from_string(token))
    }

    fn under_token(self, token: Token) -> Result<Pointer, AllocError>
        ensures { Gives result (token ∷ self) }
    {
        let Pointer { mut tokens } = self;
        tokens.push_front(token)?;
        Ok(Pointer { tokens })
    }

    /// The pointer's text: nothing for the root, otherwise a `/` before each token.
    pub fn print(&self) -> Result<Txt, AllocError>
        ensures { Gives result (printed self.now) }
    {
        let mut text = Txt::new(self.tokens.allocator());
        for token in self.tokens.as_slice() {
            text.push('/')?;
            push_escaped(&mut text, token.text())?;
        }
        Ok(text)
    }
}

fn push_escaped(text: &mut Txt, token: &str) -> Result<(), AllocError>
    ensures { OnOk result (text.new ≡ text.old ++ escaped token.now) }
{
    for c in token.chars() {
        push_escaped_char(text, c)?;
    }
    Ok(())
}

#[tactic(auto, using(crate::proofs::Escapes::character_kept))]
fn push_escaped_char(text: &mut Txt, c: char) -> Result<(), AllocError>
    ensures { OnOk result (text.new ≡ text.old ++ escaped (encode_utf8 c)) }
{
    if c == '~' {
        text.push_str("~0")
    } else if c == '/' {
        text.push_str("~1")
    } else {
        text.push(c)
    }
}
