ghost use Rattle.std.specs.Prelude.{◌≡◌, [], ◌++◌, codes, decimal, unwrap_or, IfOk, OnOk, IsSome};
ghost use Rattle.std.specs.Option.{option_copied};
ghost use Rattle.std.specs.String.{string_bytes};
ghost use Rattle.http.specs.StatusCode.{IsStatusCode, reason_phrase};
ghost use Rattle.http_front.specs.Reply.{printed, connection_line, allow_line, status_line, line};

use http::StatusCode;
use snap_core::Bytes;
use std::alloc::{AllocError, Global};

/// The bytes of a reply in JSON, for a status that has a standard phrase. It names the methods that
/// are allowed, where there are any to name, and with `close` it says that the link is closed after it.
#[tactic(auto, unfolding(crate::specs::Reply::printed))]
pub fn print_reply(
    alloc: Global,
    status: u16,
    allow: Option<&str>,
    close: bool,
    body: &[u8],
) -> Result<Bytes, AllocError>
    requires code { IsStatusCode status }
    requires phrase { IsSome (reason_phrase status) }
    ensures { IfOk result (λ bytes. bytes ≡ printed close (record {
      status = status;
      allow = option_copied allow.entry;
      body = body.now;
    })) }
{
    let mut head = first_lines(alloc, status, body.len())?;
    add_allow(&mut head, allow)?;
    head.push_str(connection_text(close))?;
    head.push_str("\r\n")?;
    let mut bytes = head.into_bytes();
    bytes.extend_from_slice(body)?;
    Ok(Bytes::from_vec(bytes))
}

// The lines that each reply begins with.
fn first_lines(alloc: Global, status: u16, body_len: usize) -> Result<String, AllocError>
    requires { IsStatusCode status }
    ensures { IfOk result (λ head. string_bytes head ≡ status_line status
        ++ line (codes "Content-Type: application/json")
        ++ line (codes "Content-Length: " ++ decimal body_len)) }
{
    let phrase = phrase_of(status);
    format!(in alloc;
        "HTTP/1.1 {status} {phrase}\r\nContent-Type: application/json\r\nContent-Length: {body_len}\r\n"
    )
}

fn phrase_of(status: u16) -> &'static str
    requires { IsStatusCode status }
    ensures { result.now ≡ unwrap_or (reason_phrase status) [] }
{
    match StatusCode::from_u16(status) {
        Ok(code) => code.canonical_reason().unwrap_or(""),
        Err(_) => "",
    }
}

fn add_allow(head: &mut String, allow: Option<&str>) -> Result<(), AllocError>
    ensures { OnOk result (string_bytes head.new
        ≡ string_bytes head.old ++ allow_line (option_copied allow.entry)) }
{
    let Some(methods) = allow else {
        return Ok(());
    };
    head.push_str("Allow: ")?;
    head.push_str(methods)?;
    head.push_str("\r\n")
}

fn connection_text(close: bool) -> &'static str
    ensures { result.now ≡ connection_line close }
{
    if close { "Connection: close\r\n" } else { "" }
}
