ghost use Rattle.std.specs.Prelude.{◌≡◌, ◌≤◌, ◌+◌, length, take, drop};
ghost use Rattle.httparse.specs.Grammar.{RequestHead};
ghost use Rattle.http_front.specs.Answer.{arrival_of, UsesAtMost, RefusesHead};
ghost use Rattle.http_front.specs.Arrival.{Arrives};
ghost use Rattle.http_front.specs.Front.{IsHeadFound, CoversHead, HasSpans};
ghost use Rattle.http_front.specs.Request.{seen, request_of, path_of, query_of};

use crate::fields::{body_length, closes};
use httparse::spans::{EMPTY_HEADER_SPAN, HeaderSpan, RequestSpans, parse_request};
use httparse::{Error, Status};

const MOST_FIELDS: usize = 64;

const MOST_HEAD_BYTES: usize = 65_536;

/// A request that came whole.
#[derive(Clone, Copy, Debug)]
pub struct Request<'a> {
    /// As it was sent: methods are compared byte by byte.
    pub method: &'a [u8],
    /// The target up to its first `?`.
    pub path: &'a [u8],
    /// The target from behind its first `?` on, still encoded.
    pub query: &'a [u8],
    /// As many bytes as the head says.
    pub body: &'a [u8],
    /// Whether the link is to be closed after the reply.
    pub close: bool,
}

/// What the bytes of a link that have come so far begin with.
#[derive(Clone, Copy, Debug)]
pub enum Next<'a> {
    /// A request: the first `used` bytes.
    Found { request: Request<'a>, used: usize },
    /// The beginning of a request: ask again with more bytes.
    NeedMore,
    /// No request. Answer with this status, and close the link.
    Bad { status: u16 },
}

/// Reads the first request of the bytes of a link.
///
/// A head (RFC 9112) has at most 64 fields and 65,536 bytes; a larger one is 431 (Request Header
/// Fields Too Large). Bytes that no head begins with are 400 (Bad Request). A coded body is 501 (Not
/// Implemented), two lengths or one that isn't 1 to 18 digits are 400, and a body of more than 262,144
/// bytes is 413 (Payload Too Large). Without a length the body is empty.
pub fn next_request(bytes: &[u8]) -> Next<'_>
    ensures arrives { Arrives bytes.now (arrival_of bytes.now result) }
    ensures used { UsesAtMost (length bytes.now) result }
    ensures status { RefusesHead result }
{
    let mut headers = [EMPTY_HEADER_SPAN; MOST_FIELDS];
    match parse_request(bytes, &mut headers) {
        Ok(Status::Complete(spans)) => after_head(bytes, &spans, &headers),
        Ok(Status::Partial) if bytes.len() < MOST_HEAD_BYTES => Next::NeedMore,
        Ok(Status::Partial) | Err(Error::TooManyHeaders) => Next::Bad { status: 431 },
        Err(_) => Next::Bad { status: 400 },
    }
}

// What the bytes are that begin with a head of at most 64 fields, of whatever size.
fn after_head<'a>(bytes: &'a [u8], spans: &RequestSpans, headers: &[HeaderSpan]) -> Next<'a>
    requires { IsHeadFound bytes.now headers.now spans.now }
    ensures arrives { Arrives bytes.now (arrival_of bytes.now result) }
    ensures used { UsesAtMost (length bytes.now) result }
    ensures status { RefusesHead result }
{
    if spans.len > MOST_HEAD_BYTES {
        return Next::Bad { status: 431 };
    }
    let fields = &headers[..spans.headers];
    match body_length(bytes, fields) {
        Ok(n) if n <= bytes.len() - spans.len => Next::Found {
            request: request_of(bytes, spans, fields, n),
            used: spans.len + n,
        },
        Ok(_) => Next::NeedMore,
        Err(status) => Next::Bad { status },
    }
}

// The request of a head and the body of this length after it.
fn request_of<'a>(
    bytes: &'a [u8],
    spans: &RequestSpans,
    fields: &[HeaderSpan],
    len: usize,
) -> Request<'a>
    requires within { HasSpans (length bytes.now) fields.now spans.now }
    requires body { spans.now.len + len ≤ length bytes.now }
    ensures { (head : RequestHead) → CoversHead bytes.now fields.now spans.now head
        → seen result ≡ request_of head (take len (drop spans.now.len bytes.now)) }
{
    let (path, query) = split_target(spans.path.of(bytes));
    Request {
        method: spans.method.of(bytes),
        path,
        query,
        body: &bytes[spans.len..spans.len + len],
        close: closes(bytes, spans.version, fields),
    }
}

// The parts of a target before and behind its first `?`.
fn split_target(target: &[u8]) -> (&[u8], &[u8])
    ensures path { result.0.now ≡ path_of target.now }
    ensures query { result.1.now ≡ query_of target.now }
{
    match target.iter().position(|&b| b == b'?') {
        Some(i) => (&target[..i], &target[i + 1..]),
        None => (target, &[]),
    }
}
