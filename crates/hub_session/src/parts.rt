//! Whole answers to a writer.
ghost use Rattle.std.specs.Prelude.{◌≡◌, length};
ghost use Rattle.hub_http.specs.Counts.{SendsTo};
ghost use Rattle.hub_http.specs.Texts.{head_text, length_line};
ghost use Rattle.hub_http.specs.Texts.{refusal_body, reply_text};
ghost use Rattle.hub_session.specs.Replies.{body_in, parts_text, status_in};

use hub_http::{
    IoFault, Output, Refusal, Reply, StatusCode, head_end, reply_bytes, send, send_vec, write_all,
};
use itoa::Buffer;
use std::alloc::Global;

/// Writes parts, one behind the other, each mostly by one write, and does not flush.
fn write_parts<W: Output>(writer: &mut W, parts: &[&[u8]]) -> Result<(), IoFault>
    ensures { SendsTo W.written W.fault_count W.failure_count result writer.old writer.new
        (parts_text parts.now) }
{
    for part in parts {
        write_all(writer, part)?;
    }
    Ok(())
}

/// Writes the head of an answer.
fn write_head<W: Output>(writer: &mut W, reply: &Reply, close: bool) -> Result<(), IoFault>
    ensures { SendsTo W.written W.fault_count W.failure_count result writer.old writer.new
        (head_text (status_in reply.now) (length_line (length (body_in reply.now))) close) }
{
    let (status, len) = framing(reply);
    let mut number = Buffer::new();
    let mut length = Buffer::new();
    write_parts(
        writer,
        &[
            b"HTTP/1.1 ",
            number.format(status.as_u16()).as_bytes(),
            b" ",
            status.reason_phrase().as_bytes(),
            b"\r\nContent-Type: application/json\r\nContent-Length: ",
            length.format(len).as_bytes(),
            head_end(close).as_bytes(),
        ],
    )
}

/// Sends the body of a refusal.
fn send_refusal<W: Output>(writer: &mut W, refusal: Refusal) -> Result<(), IoFault>
    ensures { SendsTo W.written W.fault_count W.failure_count result writer.old writer.new
        (refusal_body refusal) }
{
    write_parts(
        writer,
        &[
            b"{\"error\":\"",
            refusal.error().as_bytes(),
            b"\",\"reason\":\"",
            refusal.reason().as_bytes(),
            b"\"}\n",
        ],
    )?;
    send(writer, b"")
}

/// The length of a refusal's body, in bytes.
fn refusal_len(refusal: Refusal) -> usize
    ensures { result ≡ length (refusal_body refusal) }
{
    25 + refusal.error().len() + refusal.reason().len()
}

/// The status of an answer, and the length of its body.
fn framing(reply: &Reply) -> (StatusCode, usize)
    ensures status { result.0 ≡ status_in reply.now }
    ensures length { result.1 ≡ length (body_in reply.now) }
{
    match reply {
        Reply::Done { status, body } => (*status, body.len()),
        Reply::Refused(refusal) => (refusal.status(), refusal_len(*refusal)),
    }
}

/// Sends the body of an answer, which the writer may keep.
fn send_body<W: Output>(writer: &mut W, reply: Reply) -> Result<(), IoFault>
    ensures { SendsTo W.written W.fault_count W.failure_count result writer.old writer.new
        (body_in reply) }
{
    match reply {
        Reply::Done { body, .. } => send_vec(writer, body),
        Reply::Refused(refusal) => send_refusal(writer, refusal),
    }
}

/// Sends a whole answer, mostly by one write. Out of memory for the whole, the answer goes in parts, which
/// take no memory: a request that did its work is answered. The head is seven parts, the body of a refusal
/// five, and another body one, each mostly one write.
pub(crate) fn send_reply<W: Output>(
    alloc: Global,
    writer: &mut W,
    reply: Reply,
    head_only: bool,
    close: bool,
) -> Result<(), IoFault>
    ensures { SendsTo W.written W.fault_count W.failure_count result writer.old writer.new
        (reply_text reply head_only close) }
{
    if let Ok(bytes) = reply_bytes(alloc, &reply, head_only, close) {
        return send_vec(writer, bytes);
    }
    write_head(writer, &reply, close)?;
    if head_only {
        return send(writer, b"");
    }
    send_body(writer, reply)
}
