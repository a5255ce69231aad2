//! Pointers from their texts.
ghost use Rattle.std.specs.Prelude.{◌≡◌, ◌≢◌, ◌<◌, length, drop, ◌++◌, ◌==◌, ◌&&◌, not, ◌⊎◌, [], ◌∷◌, encode_utf8, false, IsTrue, IfOk, IfErr, IsErrOf, OnOk, MatchOption, MatchResult};
ghost use Rattle.pointer_core.specs.Path.{Path, printed};
ghost use Rattle.pointer_core.specs.Reading.{text_so_far, open_tilde};
ghost use Rattle.pointer_core.specs.Spelling.{is_wrong, wrong_tilde, pointer_fault};

use crate::error::PointerError;
use crate::pointer::{Pointer, Token};
use snap_core::Txt;
use std::alloc::{AllocError, Global};

impl Pointer {
    /// Reads a pointer's text.
    #[tactic(auto, using(crate::proofs::Tildes::no_fault_printed, crate::proofs::Tokens::same_path))]
    pub fn parse(alloc: Global, text: &str) -> Result<Pointer, PointerError>
        ensures spelled { IfOk result (λ pointer. printed pointer ≡ text.now) }
        ensures read { (path : Path) → printed path ≡ text.now
            → MatchResult result (λ pointer. pointer ≡ path) (λ error. error ≡ PointerError.Memory) }
        ensures fault { MatchOption (pointer_fault text.now)
            (IfErr result (λ error. error ≡ PointerError.Memory))
            (λ fault. IsErrOf result fault) }
    {
        match fault(text) {
            Some(fault) => Err(fault),
            None => Ok(read(alloc, text)?),
        }
    }
}

/// Why the text is no pointer's, if there is a reason.
fn fault(text: &str) -> Option<PointerError>
    ensures { result ≡ pointer_fault text.now }
{
    match text.as_bytes() {
        [] => None,
        [b'/', ..] => wrong_tilde(text.as_bytes()).map(|at| PointerError::BadTilde { at }),
        _ => Some(PointerError::NoSlash),
    }
}

#[tactic(auto, using(crate::proofs::Tildes::ends_there))]
fn wrong_tilde(text: &[u8]) -> Option<usize>
    ensures { result ≡ wrong_tilde text.now }
{
    for at in 0..text.len() {
        if is_wrong_at(text, at) {
            return Some(at);
        }
    }
    None
}

/// Whether a `~` stands at an index that neither `0` nor `1` follows.
fn is_wrong_at(text: &[u8], at: usize) -> bool
    requires { at < length text.now }
    ensures { result ≡ is_wrong (drop at text.now) }
{
    is_wrong(&text[at..])
}

fn is_wrong(text: &[u8]) -> bool
    ensures { result ≡ is_wrong text.now }
{
    match text {
        [b'~', b'0' | b'1', ..] => false,
        [b'~', ..] => true,
        _ => false,
    }
}

/// Reads a text that has no fault.
fn read(alloc: Global, text: &str) -> Result<Pointer, AllocError>
    requires { pointer_fault text.now ≡ None }
    ensures { IfOk result (λ pointer. printed pointer ≡ text.now) }
{
    match text.strip_prefix('/') {
        None => Ok(Pointer::new(alloc)),
        Some(behind) => read_behind(alloc, behind),
    }
}

/// Reads what stands behind a text's first `/`.
#[tactic(auto, using(crate::proofs::Tildes::fine_from_no_fault, crate::proofs::Tildes::digit_follows, crate::proofs::Tildes::closed_at_end))]
fn read_behind(alloc: Global, behind: &str) -> Result<Pointer, AllocError>
    requires { pointer_fault (47 ∷ behind.now) ≡ None }
    ensures { IfOk result (λ pointer. printed pointer ≡ 47 ∷ behind.now) }
{
    let mut reading = Reading {
        before: Pointer::new(alloc),
        token: Txt::new(alloc),
        escape: false,
    };
    for c in behind.chars() {
        take(alloc, &mut reading, c)?;
    }
    finish(reading)
}

/// What has been read: the tokens before, what has come of the last one, and whether a `~` opened an escape.
#[derive(Drop)]
struct Reading {
    before: Pointer,
    token: Token,
    escape: bool,
}

/// Takes the next character.
fn take(alloc: Global, reading: &mut Reading, c: char) -> Result<(), AllocError>
    requires { IsTrue reading.old.escape → (c ≡ 48) ⊎ (c ≡ 49) }
    ensures text { OnOk result (text_so_far reading.new ≡ text_so_far reading.old ++ encode_utf8 c) }
    ensures escape { OnOk result (reading.new.escape ≡ (c == 126 && not reading.old.escape)) }
{
    if reading.escape {
        return end_escape(reading, c);
    }
    match c {
        '~' => {
            reading.escape = true;
            Ok(())
        }
        '/' => begin_token(alloc, reading),
        _ => push_plain(reading, c),
    }
}

fn end_escape(reading: &mut Reading, c: char) -> Result<(), AllocError>
    requires escape { IsTrue reading.old.escape }
    requires digit { (c ≡ 48) ⊎ (c ≡ 49) }
    ensures text { OnOk result (text_so_far reading.new ≡ text_so_far reading.old ++ encode_utf8 c) }
    ensures escape { OnOk result (reading.new.escape ≡ false) }
{
    reading.escape = false;
    reading.token.push(if c == '0' { '~' } else { '/' })
}

fn push_plain(reading: &mut Reading, c: char) -> Result<(), AllocError>
    requires escape { reading.old.escape ≡ false }
    requires no_tilde { c ≢ 126 }
    requires no_slash { c ≢ 47 }
    ensures text { OnOk result (text_so_far reading.new ≡ text_so_far reading.old ++ encode_utf8 c) }
    ensures escape { OnOk result (reading.new.escape ≡ false) }
{
    reading.token.push(c)
}

fn begin_token(alloc: Global, reading: &mut Reading) -> Result<(), AllocError>
    requires escape { reading.old.escape ≡ false }
    ensures text { OnOk result (text_so_far reading.new ≡ text_so_far reading.old ++ 47 ∷ []) }
    ensures escape { OnOk result (reading.new.escape ≡ false) }
{
    let token = std::mem::replace(&mut reading.token, Txt::new(alloc));
    reading.before.push(token)
}

fn finish(reading: Reading) -> Result<Pointer, AllocError>
    requires { reading.escape ≡ false }
    ensures { IfOk result (λ pointer. printed pointer ≡ text_so_far reading) }
{
    let Reading {
        mut before,
        token,
        ..
    } = reading;
    before.push(token)?;
    Ok(before)
}
