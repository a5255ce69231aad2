//! Bytes as a line spells them.
ghost use Rattle.std.specs.Prelude.{◌≤◌};

use snap_core::Bytes;
use std::alloc::{AllocError, Global};

/// The bytes that a text spells. `\r` and `\n` are a carriage return and a line end, `\xff` is the byte
/// of two small hexadecimal digits, and `\(ab*3)` is `ababab`. A backslash before anything else stands
/// for itself.
pub fn bytes_of(alloc: Global, text: &str) -> Result<Bytes, AllocError> {
    let mut bytes = Bytes::new(alloc);
    let mut parts = text.split('\\');
    if let Some(first) = parts.next() {
        push_bytes(&mut bytes, first.as_bytes())?;
    }
    for part in parts {
        push_escaped(&mut bytes, part)?;
    }
    Ok(bytes)
}

/// Adds bytes behind those that are there.
pub fn push_bytes(bytes: &mut Bytes, more: &[u8]) -> Result<(), AllocError> {
    for byte in more {
        bytes.push(*byte)?;
    }
    Ok(())
}

// Adds what stands behind a backslash, up to the next one.
fn push_escaped(bytes: &mut Bytes, part: &str) -> Result<(), AllocError> {
    match part.as_bytes() {
        [b'r', rest @ ..] => {
            bytes.push(b'\r')?;
            push_bytes(bytes, rest)
        }
        [b'n', rest @ ..] => {
            bytes.push(b'\n')?;
            push_bytes(bytes, rest)
        }
        [b'x', high, low, rest @ ..] => {
            bytes.push(digit_of(*high) * 16 + digit_of(*low))?;
            push_bytes(bytes, rest)
        }
        [b'(', ..] => push_repeated(bytes, part),
        _ => {
            bytes.push(b'\\')?;
            push_bytes(bytes, part.as_bytes())
        }
    }
}

// The number of a small hexadecimal digit, and 0 for anything else.
fn digit_of(byte: u8) -> u8
    ensures { result ≤ 15 }
{
    match byte {
        b'0'..=b'9' => byte - b'0',
        b'a'..=b'f' => byte - b'a' + 10,
        _ => 0,
    }
}

// Adds `(TEXT*N)`, which is TEXT so many times, and what stands behind it.
fn push_repeated(bytes: &mut Bytes, part: &str) -> Result<(), AllocError> {
    let (repeated, rest) = part.split_once(')').unwrap_or((part, ""));
    let (text, count) = repeated.split_once('*').unwrap_or((repeated, "1"));
    let text = text.strip_prefix('(').unwrap_or(text);
    for _ in 0..count.parse::<u32>().unwrap_or(0) {
        push_bytes(bytes, text.as_bytes())?;
    }
    push_bytes(bytes, rest.as_bytes())
}
