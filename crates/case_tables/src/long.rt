//! Long texts in short: `<a*70000>` stands for the letter 70000 times.
use std::alloc::{AllocError, Global};

/// The text with each `<PIECE*COUNT>` written out. Anything else in angle brackets stays.
pub fn written_out(alloc: Global, text: &str) -> Result<String, AllocError> {
    let mut whole = String::new(alloc);
    for (at, part) in text.split('<').enumerate() {
        if at == 0 {
            whole.push_str(part)?;
        } else {
            push_part(alloc, &mut whole, part)?;
        }
    }
    Ok(whole)
}

// Adds what stands behind a `<`.
fn push_part(alloc: Global, whole: &mut String, part: &str) -> Result<(), AllocError> {
    let Some((inside, behind)) = part.split_once('>') else {
        return push_plain(whole, part);
    };
    let Some((piece, count)) = inside.rsplit_once('*') else {
        return push_plain(whole, part);
    };
    let Ok(count) = count.parse::<usize>() else {
        return push_plain(whole, part);
    };
    whole.push_str(piece.repeat(alloc, count)?.as_str())?;
    whole.push_str(behind)
}

fn push_plain(whole: &mut String, part: &str) -> Result<(), AllocError> {
    whole.push('<')?;
    whole.push_str(part)
}
