ghost use Rattle.std.specs.Prelude.{◌≡◌, IfOk};
ghost use Rattle.std.specs.Str.{bytes_eq};
ghost use Rattle.http_front.specs.Query as spec;

use form_urlencoded::{decode, raw_pairs};
use snap_core::Txt;
use std::alloc::{AllocError, Global};

/// The value of the first pair of that name in a query, decoded; None where there is none.
pub fn query_value(alloc: Global, query: &[u8], name: &str) -> Result<Option<Txt>, AllocError>
    ensures { IfOk result (λ value. value ≡ spec.query_value query.now name.now) }
{
    for (encoded, value) in raw_pairs(query) {
        if is_name(alloc, encoded, name)? {
            return Ok(Some(text_of(alloc, value)?));
        }
    }
    Ok(None)
}

fn is_name(alloc: Global, encoded: &[u8], name: &str) -> Result<bool, AllocError>
    ensures { IfOk result (λ same. same ≡ bytes_eq (spec.text_of encoded.now) name.now) }
{
    Ok(decode(alloc, encoded)?.as_bytes() == name.as_bytes())
}

fn text_of(alloc: Global, encoded: &[u8]) -> Result<Txt, AllocError>
    ensures { IfOk result (λ text. text ≡ spec.text_of encoded.now) }
{
    Txt::copy(alloc, &decode(alloc, encoded)?)
}
