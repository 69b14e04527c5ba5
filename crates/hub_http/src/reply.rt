//! Replies and their bytes.

ghost use Rattle.std.specs.Prelude.{◌≡◌, ◌++◌, IfOk, OnOk};
ghost use Rattle.hub_http.specs.Statuses.{reason_phrase};
ghost use Rattle.hub_http.specs.Texts.{head_end, head_front, length_line, status_line};
ghost use Rattle.hub_http.specs.Texts.{head_text, refusal_body, answer_text, reply_text};

use crate::refusal::Refusal;
use crate::status::StatusCode;
use itoa::Buffer;
use std::alloc::{AllocError, Global};

/// A whole reply.
#[derive(Debug, Drop)]
pub enum Reply {
    /// A status, and a body: JSON text and a line feed.
    Done {
        /// The status of the reply.
        status: StatusCode,
        /// The body of the reply.
        body: Vec<u8>,
    },
    /// A refusal. `refusal_body` of `specs/Texts.antt` gives the body.
    Refused(Refusal),
}

// No head of a reply and no body of a refusal is longer, in bytes.
const ROOM: usize = 192;

#[tactic(auto, unfolding(crate::specs::Texts::status_line))]
fn put_status_line(out: &mut Vec<u8>, status: StatusCode) -> Result<(), AllocError>
    ensures { OnOk result (out.new.items
        ≡ out.old.items ++ status_line status (reason_phrase status)) }
{
    let mut number = Buffer::new();
    out.extend_from_slice(b"HTTP/1.1 ")?;
    out.extend_from_slice(number.format(status.as_u16()).as_bytes())?;
    out.extend_from_slice(b" ")?;
    out.extend_from_slice(status.reason_phrase().as_bytes())?;
    out.extend_from_slice(b"\r\n")?;
    Ok(())
}

// Appends the front of a head, before the body's length. For the status 200 or 201 it is one append.
fn put_front(out: &mut Vec<u8>, status: StatusCode) -> Result<(), AllocError>
    ensures { OnOk result (out.new.items ≡ out.old.items ++ head_front status) }
{
    if status.as_u16() == 200 {
        out.extend_from_slice(
            b"HTTP/1.1 200 OK\r\nContent-Type: application/json\r\nContent-Length: ",
        )?;
        return Ok(());
    }
    if status.as_u16() == 201 {
        out.extend_from_slice(
            b"HTTP/1.1 201 Created\r\nContent-Type: application/json\r\nContent-Length: ",
        )?;
        return Ok(());
    }
    put_status_line(out, status)?;
    out.extend_from_slice(b"Content-Type: application/json\r\nContent-Length: ")?;
    Ok(())
}

/// The rest of a head, behind the number of the body's length. It costs nothing.
#[tactic(auto, unfolding(crate::specs::Texts::close_line))]
pub fn head_end(close: bool) -> &'static str
    ensures { result.now ≡ head_end close }
{
    if close {
        "\r\nConnection: close\r\n\r\n"
    } else {
        "\r\n\r\n"
    }
}

fn put_head(
    out: &mut Vec<u8>,
    status: StatusCode,
    len: usize,
    close: bool,
) -> Result<(), AllocError>
    ensures { OnOk result (out.new.items ≡ out.old.items ++ head_text status (length_line len) close) }
{
    let mut number = Buffer::new();
    put_front(out, status)?;
    out.extend_from_slice(number.format(len).as_bytes())?;
    out.extend_from_slice(head_end(close).as_bytes())?;
    Ok(())
}

#[tactic(auto, unfolding(crate::specs::Texts::refusal_body))]
fn refusal_body(alloc: Global, refusal: Refusal) -> Result<Vec<u8>, AllocError>
    ensures { IfOk result (λ v. v.items ≡ refusal_body refusal) }
{
    let mut body = Vec::with_capacity(alloc, ROOM)?;
    body.extend_from_slice(b"{\"error\":\"")?;
    body.extend_from_slice(refusal.error().as_bytes())?;
    body.extend_from_slice(b"\",\"reason\":\"")?;
    body.extend_from_slice(refusal.reason().as_bytes())?;
    body.extend_from_slice(b"\"}\n")?;
    Ok(body)
}

fn with_body(
    alloc: Global,
    status: StatusCode,
    body: &[u8],
    head_only: bool,
    close: bool,
) -> Result<Vec<u8>, AllocError>
    ensures { IfOk result (λ v. v.items ≡ answer_text status body.now head_only close) }
{
    let mut bytes = Vec::with_capacity(alloc, ROOM + body.len())?;
    put_head(&mut bytes, status, body.len(), close)?;
    if !head_only {
        bytes.extend_from_slice(body)?;
    }
    Ok(bytes)
}

/// The bytes of a reply (RFC 9112, sections 4 and 6). With `head_only`, for a HEAD, the body is left out, and
/// the head still tells its length. The cost is the reply's length, in one allocation, and another for a
/// refusal.
pub fn reply_bytes(
    alloc: Global,
    reply: &Reply,
    head_only: bool,
    close: bool,
) -> Result<Vec<u8>, AllocError>
    ensures { IfOk result (λ v. v.items ≡ reply_text reply.now head_only close) }
{
    match reply {
        Reply::Done { status, body } => with_body(alloc, *status, body, head_only, close),
        Reply::Refused(refusal) => {
            let body = refusal_body(alloc, *refusal)?;
            with_body(alloc, refusal.status(), body.as_slice(), head_only, close)
        }
    }
}
