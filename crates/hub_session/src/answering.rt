//! Answers to single requests.
ghost use Rattle.std.specs.Prelude.{◌≡◌, Some, is_err};
ghost use Rattle.hub_http.specs.Counts.{CallCounts, SendsTo};
ghost use Rattle.hub_http.specs.Stream.{asked_by};
ghost use Rattle.hub_session.specs.Replies.{refusal_of};
ghost use Rattle.hub_session.specs.Rules.{moment};
ghost use Rattle.hub_session.specs.Sessions.{HasBegun, HasToldFault, after_answer};
ghost use Rattle.hub_session.specs.Sessions.{after_stream, after_whole, is_head, stream_head};

use crate::closing::{Closing, StreamEnd};
use crate::feed::begin_items;
use crate::item::Sending;
use crate::parts::send_reply;
use crate::service::{Answer, Service};
use hub_http::{
    HttpFault, IoFault, Output, Refusal, Reply, Request, send, stream_head_text, write_all,
};
use hub_model::Mode;
use std::alloc::Global;

/// How an answer was begun.
#[derive(Clone, Copy)]
pub(crate) enum Begun {
    /// The answer is over, written whole or broken. The session closes for this reason, or goes on.
    Answered(Option<Closing>),
    /// A stream of which no row was sent yet. Its text before its items was written.
    Streaming(Sending),
}

fn after_answer(close: bool) -> Option<Closing>
    ensures { result ≡ after_answer close }
{
    close.then_some(Closing::Requested)
}

pub(crate) fn after_stream(close: bool, end: StreamEnd) -> Option<Closing>
    ensures { result ≡ after_stream close end }
{
    match end {
        StreamEnd::Complete => after_answer(close),
        StreamEnd::Stopped | StreamEnd::NoMemory => Some(Closing::Cut),
        StreamEnd::Broken => Some(Closing::Broken),
        StreamEnd::Exhausted => Some(Closing::Exhausted),
    }
}

/// Why a session closes after an answer that was to be sent whole, if it does.
fn after_whole(sent: Result<(), IoFault>, close: bool) -> Option<Closing>
    ensures { result ≡ after_whole (is_err sent) close }
{
    match sent {
        Ok(()) => after_answer(close),
        Err(_) => Some(Closing::Broken),
    }
}

fn is_head(request: &Request) -> bool
    ensures { result ≡ is_head (asked_by request.now) }
{
    request.method.as_slice() == b"HEAD".as_slice()
}

/// Writes the head of a stream's answer, and the chunk before its items.
fn write_head<W: Output, S: Service>(
    writer: &mut W,
    service: &S,
    mode: Mode,
    close: bool,
) -> Result<(), IoFault>
    ensures { SendsTo W.written W.fault_count W.failure_count result writer.old writer.new
        (stream_head close mode) }
{
    write_all(writer, stream_head_text(close).as_bytes())?;
    begin_items(writer, service, mode)
}

/// Answers a request, or begins its stream: then only the items are left to send.
pub(crate) fn begin_answer<W: Output, S: Service>(
    alloc: Global,
    writer: &mut W,
    service: &mut S,
    request: &Request,
) -> Begun
    ensures told { HasBegun S.rules (asked_by request.now) result
        (moment service.old (W.written writer.old)) (moment service.new (W.written writer.new)) }
    ensures counts { CallCounts (result ≡ Begun.Answered (Some Closing.Broken)) W.fault_count
        W.failure_count writer.old writer.new }
{
    let head_only = is_head(request);
    let close = request.close;
    match service.answer(request) {
        Answer::Whole(reply) => {
            let sent = send_reply(alloc, writer, reply, head_only, close);
            Begun::Answered(after_whole(sent, close))
        }
        Answer::Stream(mode, life) => {
            if head_only {
                service.drop_stream();
                let sent = send(writer, stream_head_text(close).as_bytes());
                return Begun::Answered(after_whole(sent, close));
            }
            match write_head(writer, service, mode, close) {
                Ok(()) => Begun::Streaming(Sending::new(mode, life)),
                Err(_) => {
                    service.drop_stream();
                    Begun::Answered(Some(Closing::Broken))
                }
            }
        }
    }
}

/// The refusal that answers a fault of reading a request, if one does.
fn refusal_of(fault: HttpFault) -> Option<Refusal>
    ensures { result ≡ refusal_of fault }
{
    match fault {
        HttpFault::NoMemory => Some(Refusal::NoMemory),
        HttpFault::BadHead => Some(Refusal::BadHead),
        HttpFault::HeadTooLong => Some(Refusal::HeadTooLong),
        HttpFault::BodyTooLong => Some(Refusal::BodyTooLong),
        HttpFault::Version => Some(Refusal::Version),
        HttpFault::Coding => Some(Refusal::Coding),
        HttpFault::Ended | HttpFault::IoFault => None,
    }
}

/// Answers a fault of reading a request where it has a reply, and says why the session closes.
pub(crate) fn answer_fault<W: Output>(alloc: Global, writer: &mut W, fault: HttpFault) -> Closing
    ensures { HasToldFault W.written W.fault_count W.failure_count fault result writer.old writer.new }
{
    let sent = match refusal_of(fault) {
        Some(refusal) => send_reply(alloc, writer, Reply::Refused(refusal), false, true),
        None => send(writer, b""),
    };
    match sent {
        Ok(()) => Closing::Fault(fault),
        Err(_) => Closing::Broken,
    }
}
