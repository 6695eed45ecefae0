//! The bytes of a reply (RFC 9112 sections 4, 6 and 9.6).
ghost use Rattle.std.specs.Prelude.{◌≡◌, ◌++◌, IfOk, OnOk, Some, false, ◌<◌, ◌^◌, length, string_bytes};
ghost use Rattle.std.specs.List.{flat_map};
ghost use Rattle.kapi_http.specs.Reply.{allow_line, body_bytes, close_line, framing_line, further, status_line, text, type_line};

use crate::message::{Method, Reply, StatusCode};
use kapi_text::{Memory, Sequence};
use std::alloc::Global;

/// At least the length of a head whose Allow line names each method at most once.
const HEAD_ROOM: usize = 176;

/// The reply's bytes: status line, header fields, empty line and body.
#[tactic(auto, using(std::proofs::Common::append_assoc), unfolding(crate::specs::Reply::text))]
pub fn write_reply(alloc: Global, reply: &Reply) -> Result<Vec<u8>, Memory>
    ensures { IfOk result (λ b. b.items ≡ text reply.now) }
{
    // The body comes into the same memory, which is allocated once.
    let mut head = String::with_capacity(alloc, HEAD_ROOM + body_length(&reply.body))?;
    write_status(&mut head, reply.code)?;
    write_type(&mut head, reply.plain)?;
    write_framing(&mut head, reply.chunked, &reply.body)?;
    write_allow(&mut head, reply.allow.as_slice())?;
    write_close(&mut head, reply.close)?;
    head.push_str("\r\n")?;
    let mut out = head.into_bytes();
    write_body(&mut out, &reply.body)?;
    Ok(out)
}

fn body_length(body: &Option<Sequence<u8>>) -> usize
    ensures exact { result ≡ length (body_bytes body.now) }
    ensures small { result < 2 ^ 63 }
{
    match body {
        Some(body) => body.as_slice().len(),
        None => 0,
    }
}

#[tactic(auto, using(std::proofs::Common::append_assoc))]
fn write_status(out: &mut String, code: StatusCode) -> Result<(), Memory>
    ensures { OnOk result (string_bytes out.new ≡ string_bytes out.old ++ status_line code) }
{
    out.push_str("HTTP/1.1 ")?;
    write!(out, "{}", code.number())?;
    out.push_str(" ")?;
    out.push_str(code.phrase())?;
    out.push_str("\r\n")
}

fn write_type(out: &mut String, plain: bool) -> Result<(), Memory>
    ensures { OnOk result (string_bytes out.new ≡ string_bytes out.old ++ type_line plain) }
{
    if plain {
        out.push_str("Content-Type: text/plain\r\n")
    } else {
        out.push_str("Content-Type: application/json\r\n")
    }
}

fn write_framing(out: &mut String, chunked: bool, body: &Option<Sequence<u8>>) -> Result<(), Memory>
    ensures { OnOk result (string_bytes out.new ≡ string_bytes out.old ++ framing_line chunked body.now) }
{
    if chunked {
        return out.push_str("Transfer-Encoding: chunked\r\n");
    }
    match body {
        Some(body) => write_length(out, body.as_slice()),
        None => Ok(()),
    }
}

#[tactic(auto, using(std::proofs::Common::append_assoc))]
fn write_length(out: &mut String, body: &[u8]) -> Result<(), Memory>
    ensures { OnOk result (string_bytes out.new ≡ string_bytes out.old ++ framing_line false (Some body.now)) }
{
    out.push_str("Content-Length: ")?;
    write!(out, "{}", body.len())?;
    out.push_str("\r\n")
}

#[tactic(auto, using(std::proofs::Common::append_assoc))]
fn write_allow(out: &mut String, methods: &[Method]) -> Result<(), Memory>
    ensures { OnOk result (string_bytes out.new ≡ string_bytes out.old ++ allow_line methods.now) }
{
    match methods.split_first() {
        Some((method, methods)) => {
            out.push_str("Allow: ")?;
            out.push_str(method.as_str())?;
            write_further(out, methods)?;
            out.push_str("\r\n")
        }
        None => Ok(()),
    }
}

#[tactic(auto, using(std::proofs::Common::append_assoc))]
fn write_further(out: &mut String, methods: &[Method]) -> Result<(), Memory>
    ensures { OnOk result (string_bytes out.new ≡ string_bytes out.old ++ flat_map further methods.now) }
{
    for method in methods {
        out.push_str(", ")?;
        out.push_str(method.as_str())?;
    }
    Ok(())
}

fn write_close(out: &mut String, close: bool) -> Result<(), Memory>
    ensures { OnOk result (string_bytes out.new ≡ string_bytes out.old ++ close_line close) }
{
    if close {
        out.push_str("Connection: close\r\n")
    } else {
        Ok(())
    }
}

fn write_body(out: &mut Vec<u8>, body: &Option<Sequence<u8>>) -> Result<(), Memory>
    ensures { OnOk result (out.new.items ≡ out.old.items ++ body_bytes body.now) }
{
    match body {
        Some(body) => out.extend_from_slice(body.as_slice()),
        None => Ok(()),
    }
}
