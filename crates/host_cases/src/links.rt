//! What links bring, and what must be written to them.
//!
//! A line `link` ends a link, and what stands behind it is of the next one. What the lines of a link
//! spell stands one behind the other: `input TEXT` brings these bytes, `ask METHOD TARGET BODY` a
//! request, which needs no body, and `body BODY` a request to `/check`. `reply TEXT` are bytes that must
//! be written, `gets STATUS BODY` a reply, `gets-last STATUS BODY` one after which the link closes, and
//! `gets 405 METHODS | BODY` one that names methods. `answer` is `gets`.
use crate::case::parts_of;
use crate::text::{bytes_of, push_bytes};
use snap_core::Bytes;
use std::alloc::{AllocError, Global};

/// What a link brings, and what must be written to it.
#[derive(Drop)]
pub struct LinkCase {
    pub input: Bytes,
    pub wanted: Bytes,
}

impl LinkCase {
    fn new(alloc: Global) -> LinkCase {
        LinkCase {
            input: Bytes::new(alloc),
            wanted: Bytes::new(alloc),
        }
    }

    // Adds what a line spells.
    fn add(&mut self, alloc: Global, key: &str, value: &str) -> Result<(), AllocError> {
        match key {
            "input" => push_text(alloc, &mut self.input, value),
            "ask" => push_request(alloc, &mut self.input, value),
            "body" => push_body(alloc, &mut self.input, "POST", "/check", value),
            "reply" => push_text(alloc, &mut self.wanted, value),
            "gets" | "answer" => push_reply(alloc, &mut self.wanted, value, ""),
            "gets-last" => push_reply(alloc, &mut self.wanted, value, "Connection: close\r\n"),
            _ => Ok(()),
        }
    }
}

/// The links of a case, the last of which may bring nothing.
pub fn links_of(alloc: Global, block: &str) -> Result<Vec<LinkCase>, AllocError> {
    let mut links = Vec::new(alloc);
    let mut link = LinkCase::new(alloc);
    for line in block.lines() {
        let (key, value) = parts_of(line);
        if key == "link" {
            links.push(link)?;
            link = LinkCase::new(alloc);
        } else {
            link.add(alloc, key, value)?;
        }
    }
    links.push(link)?;
    Ok(links)
}

fn push_text(alloc: Global, bytes: &mut Bytes, text: &str) -> Result<(), AllocError> {
    push_bytes(bytes, bytes_of(alloc, text)?.as_slice())
}

// Adds the request that a method, a target and a body spell, where there is a body.
fn push_request(alloc: Global, bytes: &mut Bytes, value: &str) -> Result<(), AllocError> {
    let (method, rest) = parts_of(value);
    match rest.split_once(' ') {
        Some((target, body)) => push_body(alloc, bytes, method, target, body),
        None => {
            let head = format!(in alloc; "{method} {rest} HTTP/1.1\r\n\r\n")?;
            push_bytes(bytes, head.as_bytes())
        }
    }
}

// Adds a request with a body.
fn push_body(
    alloc: Global,
    bytes: &mut Bytes,
    method: &str,
    target: &str,
    text: &str,
) -> Result<(), AllocError> {
    let body = bytes_of(alloc, text)?;
    let head = format!(in alloc;
        "{method} {target} HTTP/1.1\r\nContent-Length: {}\r\n\r\n",
        body.len()
    )?;
    push_bytes(bytes, head.as_bytes())?;
    push_bytes(bytes, body.as_slice())
}

// Adds the reply that a status, its methods and a body spell. These lines stand last in its head.
fn push_reply(
    alloc: Global,
    bytes: &mut Bytes,
    value: &str,
    lines: &str,
) -> Result<(), AllocError> {
    let (status, rest) = parts_of(value);
    let (methods, text) = methods_of(status, rest);
    let body = bytes_of(alloc, text)?;
    let phrase = phrase_of(status);
    let first = format!(in alloc;
        "HTTP/1.1 {status} {phrase}\r\nContent-Type: application/json\r\nContent-Length: {}\r\n",
        body.len()
    )?;
    push_bytes(bytes, first.as_bytes())?;
    if let Some(methods) = methods {
        let allow = format!(in alloc; "Allow: {methods}\r\n")?;
        push_bytes(bytes, allow.as_bytes())?;
    }
    push_bytes(bytes, lines.as_bytes())?;
    push_bytes(bytes, b"\r\n")?;
    push_bytes(bytes, body.as_slice())
}

// The methods that a reply names, where it does, and its body.
fn methods_of<'a>(status: &str, rest: &'a str) -> (Option<&'a str>, &'a str) {
    if status != "405" {
        return (None, rest);
    }
    match rest.split_once(" | ") {
        Some((methods, body)) => (Some(methods), body),
        None => (None, rest),
    }
}

// The phrases of the statuses, as RFC 9110 has them (413 by its older name).
fn phrase_of(status: &str) -> &str {
    match status {
        "200" => "OK",
        "201" => "Created",
        "400" => "Bad Request",
        "404" => "Not Found",
        "405" => "Method Not Allowed",
        "409" => "Conflict",
        "413" => "Payload Too Large",
        "422" => "Unprocessable Entity",
        "431" => "Request Header Fields Too Large",
        "500" => "Internal Server Error",
        "501" => "Not Implemented",
        _ => "",
    }
}
