//! The replies that a link gives by itself.
ghost use Rattle.std.specs.Prelude.{◌≡◌, true, IfOk};
ghost use Rattle.http_front.specs.Answer.{IsHeadStatus};
ghost use Rattle.http_front.specs.Reply.{printed};
ghost use Rattle.link_core.specs.Replies.{refusal, rule_body, head_rule, memory_reply};

use http_front::print_reply;
use snap_core::Bytes;
use std::alloc::{AllocError, Global};

/// The reply where memory runs out. It is written as it stands, so it takes none.
const MEMORY_REPLY: &[u8] =
    b"HTTP/1.1 500 Internal Server Error\r\nContent-Type: application/json\r\nContent-Length: 18\r\nConnection: close\r\n\r\n{\"error\":\"memory\"}";

// The reply where memory runs out.
pub(crate) fn memory_bytes() -> &'static [u8]
    ensures { result.now ≡ memory_reply }
{
    MEMORY_REPLY
}

// The reply to a head that is refused with that status.
pub(crate) fn print_refusal(alloc: Global, status: u16) -> Result<Bytes, AllocError>
    requires { IsHeadStatus status }
    ensures { IfOk result (λ bytes. bytes ≡ printed true (refusal status)) }
{
    print_reply(alloc, status, None, true, refusal_body(status).as_bytes())
}

fn refusal_body(status: u16) -> &'static str
    ensures { result.now ≡ rule_body (head_rule status) }
{
    match status {
        413 => "{\"error\":\"body\"}",
        431 => "{\"error\":\"fields\"}",
        501 => "{\"error\":\"coding\"}",
        _ => "{\"error\":\"head\"}",
    }
}
