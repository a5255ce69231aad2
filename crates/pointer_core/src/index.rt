//! Tokens that are indices.
ghost use Rattle.std.specs.Prelude.{◌≡◌, ℕ, ◌<◌, ◌^◌, decimal, IfSome};
ghost use Rattle.std.specs.Char.{is_ascii_digit};
ghost use Rattle.std.specs.List.{list_all};
ghost use Rattle.pointer_core.specs.Index.{index_of, is_numeral};

use crate::pointer::Pointer;

impl Pointer {
    /// The index that a token names.
    #[tactic(auto, using(crate::proofs::Indices::spelled_of, crate::proofs::Indices::read_of))]
    pub fn index_of(token: &str) -> Option<u32>
        ensures index { result ≡ index_of token.now }
        ensures spelled { IfSome result (λ index. token.now ≡ decimal index) }
        ensures read { (index : ℕ) → index < 2 ^ 32 → token.now ≡ decimal index → result ≡ Some index }
    {
        index_below_limit(token)
    }
}

fn index_below_limit(token: &str) -> Option<u32>
    ensures { result ≡ index_of token.now }
{
    if is_numeral(token.as_bytes()) {
        token.parse().ok()
    } else {
        None
    }
}

/// Whether the bytes are `0`, or a digit 1 to 9 and further digits.
fn is_numeral(token: &[u8]) -> bool
    ensures { result ≡ is_numeral token.now }
{
    match token {
        [] => false,
        [first, rest @ ..] => {
            if *first == b'0' {
                rest.is_empty()
            } else {
                has_digits(token)
            }
        }
    }
}

fn has_digits(token: &[u8]) -> bool
    ensures { result ≡ list_all is_ascii_digit token.now }
{
    token.iter().all(|digit| digit.is_ascii_digit())
}
