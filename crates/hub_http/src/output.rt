//! The writers that replies go to.
ghost use Rattle.std.specs.Prelude.{◌≡◌, ℕ, List, [], Option, is_err};
ghost use Rattle.std.specs.Prelude.{IfNone, IfSome, MatchResult, OnOk, IsErr};
ghost use Rattle.std.specs.Io.{WritesAtMost};
ghost use Rattle.std.specs.IoError.{error_kind};
ghost use Rattle.std.specs.Io.KnownBytes.{Keeps, Appends, WriteAppends};
ghost use Rattle.hub_http.specs.Counts.{one_more_if, write_faulted, write_failed, call_failed};
ghost use Rattle.hub_http.specs.Counts.{is_interruption, CallCounts, AppendsFront, SendsTo};
ghost use Rattle.hub_http.specs.Chunks.{text_chunks};

use crate::text::Text;
use std::alloc::AllocError;
use std::io;
use std::io::ErrorKind;
use thiserror::Error;

/// The destination of replies: a writer that counts its faults.
pub trait Output {
    /// The bytes that were written, or `None` where they are unknown.
    ghost written: { Self → Option (List ℕ) };

    /// The number of calls that answered an error, or took no byte of a text that is not empty.
    ghost fault_count: { Self → ℕ };

    /// The number of these calls that were no interruptions.
    ghost failure_count: { Self → ℕ };

    /// Writes a front of the bytes, and answers its length.
    fn write(&mut self, buf: &[u8]) -> io::Result<usize>
        ensures bound { WritesAtMost result buf.now }
        ensures bytes { WriteAppends (written self.old) (written self.new) result buf.now }
        ensures faults { fault_count self.new
            ≡ one_more_if (write_faulted result buf.now) (fault_count self.old) }
        ensures failures { failure_count self.new
            ≡ one_more_if (write_failed result buf.now) (failure_count self.old) };

    /// Takes all of the bytes as written and keeps their vector, or gives the vector back. A writer without a
    /// use for its memory gives it back, as this body does.
    fn keep(&mut self, bytes: Vec<u8>) -> Option<Vec<u8>>
        ensures kept { IfNone result (Appends (written self.old) (written self.new) bytes.items) }
        ensures back { IfSome result (λ given. given.items ≡ bytes.items) }
        ensures same { IfSome result (λ given. Keeps (written self.old) (written self.new)) }
        ensures faults { fault_count self.new ≡ fault_count self.old }
        ensures failures { failure_count self.new ≡ failure_count self.old }
    {
        Some(bytes)
    }

    /// Writes a text as one chunk that is made where the writer keeps its bytes, so that no byte is copied. The
    /// answer `None` says that nothing changed: the chunk is to be written as other bytes are. A writer without
    /// bytes of its own answers so, as this body does. Out of memory nothing changes, and no fault is counted. For
    /// an empty text nothing changes.
    fn write_chunk<T: Text>(&mut self, text: &T) -> Option<Result<(), AllocError>>
        ensures some { IfSome result (λ did. MatchResult did
            (λ _. Appends (written self.old) (written self.new) (text_chunks (T.bytes text.now)))
            (λ _. self.new ≡ self.old)) }
        ensures empty { T.bytes text.now ≡ [] → self.new ≡ self.old }
        ensures none { IfNone result (self.new ≡ self.old) }
        ensures faults { fault_count self.new ≡ fault_count self.old }
        ensures failures { failure_count self.new ≡ failure_count self.old }
    {
        None
    }

    /// Hands on the bytes that were written and not handed on yet.
    fn flush(&mut self) -> io::Result<()>
        ensures bytes { Keeps (written self.old) (written self.new) }
        ensures faults { fault_count self.new ≡ one_more_if (is_err result) (fault_count self.old) }
        ensures failures { failure_count self.new ≡ one_more_if (call_failed result) (failure_count self.old) };

    /// The number of calls that faulted, at most 2^64 - 1.
    fn faults(&self) -> u64
        ensures { result ≡ fault_count self.now };
}

/// The other side can't be written to, or 1,000,000 calls in a row were interrupted.
#[derive(Clone, Copy, Debug, PartialEq, Eq, Error)]
#[error("the other side can't be written to")]
pub struct IoFault;

/// The most writes or flushes in a row, where each is interrupted.
const TRIES: u32 = 1_000_000;

/// Whether the call that answered this error may be made again.
pub(crate) fn is_interrupted(error: &io::Error) -> bool
    ensures { result ≡ is_interruption (error_kind error.now) }
{
    match error.kind() {
        ErrorKind::Interrupted => true,
        _ => false,
    }
}

/// Flushes the writer. A flush that is interrupted is made again; 1,000,000 in a row are a fault.
fn flush<W: Output>(writer: &mut W) -> Result<(), IoFault>
    ensures { SendsTo W.written W.fault_count W.failure_count result writer.old writer.new [] }
{
    for _ in 0..TRIES {
        match writer.flush() {
            Ok(()) => return Ok(()),
            Err(e) if is_interrupted(&e) => {}
            Err(_) => break,
        }
    }
    Err(IoFault)
}

/// Writes all the bytes, mostly by one write, and does not flush. After a fault a front of them
/// was written. A write that is interrupted is made again; 1,000,000 in a row are a fault.
pub fn write_all<W: Output>(writer: &mut W, bytes: &[u8]) -> Result<(), IoFault>
    ensures ok { OnOk result (Appends (W.written writer.old) (W.written writer.new) bytes.now) }
    ensures front { AppendsFront (W.written writer.old) (W.written writer.new) bytes.now }
    ensures counts { CallCounts (IsErr result) W.fault_count W.failure_count writer.old writer.new }
{
    let mut rest = bytes;
    let mut tries = TRIES;
    while !rest.is_empty() {
        match writer.write(rest) {
            Ok(n) if n > 0 => {
                rest = &rest[n..];
                tries = TRIES;
            }
            Err(e) if is_interrupted(&e) && tries > 1 => tries -= 1,
            _ => return Err(IoFault),
        }
    }
    Ok(())
}

/// Writes all the bytes, mostly by one write, and flushes. After a fault a front of them was
/// written. A write or a flush that is interrupted is made again; 1,000,000 in a row are a fault.
pub fn send<W: Output>(writer: &mut W, bytes: &[u8]) -> Result<(), IoFault>
    ensures { SendsTo W.written W.fault_count W.failure_count result writer.old writer.new bytes.now }
{
    write_all(writer, bytes)?;
    flush(writer)
}

/// Sends all of a vector, as `send` does. The writer may keep the vector's memory.
pub fn send_vec<W: Output>(writer: &mut W, bytes: Vec<u8>) -> Result<(), IoFault>
    ensures { SendsTo W.written W.fault_count W.failure_count result writer.old writer.new bytes.items }
{
    match writer.keep(bytes) {
        None => flush(writer),
        Some(bytes) => send(writer, bytes.as_slice()),
    }
}
