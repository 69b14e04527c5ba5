//! Streams to a writer.
ghost use Rattle.std.specs.Prelude.{◌≡◌, ◌<◌, ◌≤◌, ◌+◌, ◌^◌, ◌++◌, ℕ, List, IfOk, IsErrOf};
ghost use Rattle.std.specs.Prelude.{MatchBool, if◌then◌else◌};
ghost use Rattle.hub_http.specs.Counts.{CallCounts, SendsTo};
ghost use Rattle.hub_http.specs.Items.{feed_head};
ghost use Rattle.hub_http.specs.Chunks.{WritesTo, text_chunks};
ghost use Rattle.hub_session.specs.Feeds.{behind_chunk, feed_text, items_text};
ghost use Rattle.hub_session.specs.Feeds.{IsFed, IsFedTo, IsStreamed, SendsNext};
ghost use Rattle.hub_session.specs.Rules.{moment};

use crate::closing::StreamEnd;
use crate::item::{Sending, SentItem};
use crate::service::Service;
use hub_http::{ChunkFault, ChunkWriter, IoFault, Output, send, write_all};
use hub_model::Mode;
use std::alloc::Global;

/// The chunk before the items of a stream; a continuous feed has none. It needs no memory.
fn head_chunk(mode: Mode) -> &'static str
    ensures { result.now ≡ text_chunks (feed_head mode) }
{
    match mode {
        Mode::Normal => "d\r\n{\"results\":[\n\r\n",
        Mode::Longpoll => "d\r\n{\"results\":[\n\r\n",
        Mode::Continuous => "",
    }
}

/// The number of rows before the next item, where `rows` came before this one.
fn rows_after(rows: u64, is_row: bool) -> u64
    requires { rows + 1 < 2 ^ 64 }
    ensures rows { result ≡ if is_row then rows + 1 else rows }
    ensures bound { result ≤ rows + 1 }
{
    if is_row { rows + 1 } else { rows }
}

/// Drops the stream of an item that was not sent. After its End a stream holds nothing, and is not dropped.
fn give_back<S: Service>(service: &mut S, is_end: bool)
    ensures { MatchBool is_end (service.new ≡ service.old) (S.rules.drops service.old service.new) }
{
    if !is_end {
        service.drop_stream();
    }
}

/// The text behind the chunk of an item, which is the End or not: the last chunk (RFC 9112, section 7.1), or
/// none.
fn behind_chunk(is_end: bool) -> &'static str
    ensures { result.now ≡ behind_chunk is_end }
{
    if is_end { "0\r\n\r\n" } else { "" }
}

/// Ends the sending of an item behind its chunk. Behind an End the last chunk is sent. Behind another
/// item the writer is flushed, unless the next item is ready.
fn finish_item<W: Output, S: Service>(
    writer: &mut W,
    service: &S,
    item: SentItem,
) -> Result<(), ChunkFault>
    ensures { (start : W) (text : List ℕ)
        → WritesTo W.written W.fault_count W.failure_count item.written start writer.old text
        → WritesTo W.written W.fault_count W.failure_count result start writer.new
        (text ++ behind_chunk item.is_end) }
{
    item.written?;
    if !item.is_end && service.is_ready() {
        return Ok(());
    }
    match send(writer, behind_chunk(item.is_end).as_bytes()) {
        Ok(()) => Ok(()),
        Err(_) => Err(ChunkFault::IoFault),
    }
}

/// Goes on after the service sent an item of its stream, or had none. It answers how many rows are sent then,
/// or how the stream ended. A stream that ends before it handed its End is dropped. Where it stopped or found
/// no memory, the writer is flushed too. A fault of that flush is not told: the stream is cut all the same.
pub(crate) fn after_item<W: Output, S: Service>(
    writer: &mut W,
    service: &mut S,
    sending: Sending,
    sent: Option<SentItem>,
) -> Result<u64, StreamEnd>
    requires { sending.rows + 1 < 2 ^ 64 }
    ensures sent { (from : S) (start : W) (count : ℕ)
        → SendsNext S.rules.gives W.written W.fault_count W.failure_count sending sent
        from service.old start writer.old
        → IsStreamed S.rules sending.mode sending.life count sending.rows result
        (moment from (W.written start)) (moment service.new (W.written writer.new)) }
    ensures bound { IfOk result (λ rows. rows ≤ sending.rows + 1) }
    ensures counts { (from : S) (start : W)
        → SendsNext S.rules.gives W.written W.fault_count W.failure_count sending sent
        from service.old start writer.old
        → CallCounts (IsErrOf result StreamEnd.Broken) W.fault_count W.failure_count start writer.new }
{
    let Some(item) = sent else {
        let _ = send(writer, b"");
        service.drop_stream();
        return Err(StreamEnd::Stopped);
    };
    match finish_item(writer, service, item) {
        Ok(()) => {}
        Err(ChunkFault::NoMemory) => {
            let _ = send(writer, b"");
            give_back(service, item.is_end);
            return Err(StreamEnd::NoMemory);
        }
        Err(ChunkFault::IoFault) => {
            give_back(service, item.is_end);
            return Err(StreamEnd::Broken);
        }
    }
    if item.is_end {
        return Err(StreamEnd::Complete);
    }
    Ok(rows_after(sending.rows, item.is_row))
}

/// Sends the items of the stream that the service answered last.
pub(crate) fn send_items<W: Output, S: Service>(
    alloc: Global,
    writer: &mut W,
    service: &mut S,
    sending: Sending,
) -> StreamEnd
    requires { sending.rows ≡ 0 }
    ensures { IsFedTo S.rules W.written W.fault_count W.failure_count
        (items_text sending.mode sending.life 0) result service.old service.new writer.old writer.new }
{
    let mut chunks = ChunkWriter::new(alloc);
    let mut rows = sending.rows;
    for _ in 0..u64::MAX {
        let sending = Sending { rows, ..sending };
        let sent = service.send_next(sending, &mut chunks, writer);
        match after_item(writer, service, sending, sent) {
            Ok(sent) => rows = sent,
            Err(end) => return end,
        }
    }
    service.drop_stream();
    StreamEnd::Exhausted
}

/// Writes the chunk at the head of a stream, and flushes it where the first item is not ready yet.
pub(crate) fn begin_items<W: Output, S: Service>(
    writer: &mut W,
    service: &S,
    mode: Mode,
) -> Result<(), IoFault>
    ensures { SendsTo W.written W.fault_count W.failure_count result writer.old writer.new
        (text_chunks (feed_head mode)) }
{
    let bytes = head_chunk(mode).as_bytes();
    if service.is_ready() {
        write_all(writer, bytes)
    } else {
        send(writer, bytes)
    }
}

/// Sends the stream that the service answered last, of the life of this number, behind the head of its
/// answer. Each nonempty text is a chunk, and behind the End stands the last chunk (RFC 9112, section 7.1).
///
/// The end of a stream is flushed. So are the bytes before an item that is not ready, since the subscriber
/// waits for that item. A stream that stops without its End, or finds no memory, is flushed too, and the
/// service drops it. An item costs the length of its text and one write. It takes memory only where its text
/// is longer than each text before it.
pub fn stream_feed<W: Output, S: Service>(
    alloc: Global,
    writer: &mut W,
    service: &mut S,
    mode: Mode,
    life: u64,
) -> StreamEnd
    ensures fed { IsFed S.rules (feed_text mode life) result
        (moment service.old (W.written writer.old)) (moment service.new (W.written writer.new)) }
    ensures counts { CallCounts (result ≡ StreamEnd.Broken) W.fault_count
        W.failure_count writer.old writer.new }
{
    match begin_items(writer, service, mode) {
        Ok(()) => send_items(alloc, writer, service, Sending::new(mode, life)),
        Err(_) => {
            service.drop_stream();
            StreamEnd::Broken
        }
    }
}
