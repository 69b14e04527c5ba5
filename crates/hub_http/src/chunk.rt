//! Chunks that are written to a writer.

ghost use Rattle.std.specs.Prelude.{◌≡◌, ◌+◌, ◌<◌, ◌≤◌, [], ◌∷◌, ◌++◌, drop, take};
ghost use Rattle.std.specs.Prelude.{false, length, OnOk, IsErrOf};
ghost use Rattle.std.specs.Fmt.{digit_glyph, digits};
ghost use Rattle.hub_document.specs.Appends.{Appends};
ghost use Rattle.hub_http.specs.Chunks.{WritesTo, text_chunks};

use crate::output::{Output, write_all};
use crate::text::Text;
use std::alloc::{AllocError, Global};
use thiserror::Error;

/// Why a chunk was not written whole.
#[derive(Clone, Copy, Debug, PartialEq, Eq, Error)]
pub enum ChunkFault {
    /// Out of memory: the writer was not called.
    #[error("out of memory")]
    NoMemory,
    /// The writer failed after a front of the chunk, or 1,000,000 writes in a row were interrupted.
    #[error("the other side can't be written to")]
    IoFault,
}

// The digit of a number below 16, in lower case.
fn digit(number: usize) -> u8
    requires { number < 16 }
    ensures { result ≡ digit_glyph false number }
{
    b"0123456789abcdef"[number]
}

/// The most hexadecimal digits of a size.
const SIZE: usize = 16;

/// The room for the head of a chunk: its size, CR and LF.
const ROOM: usize = SIZE + 2;

// Writes the head of a chunk of `size` bytes to the end of its room, and answers the place where it begins.
fn put_head(bytes: &mut [u8], size: usize) -> usize
    requires { 18 ≤ length bytes.old }
    ensures written { drop result bytes.new ≡ digits 16 false size ++ (13 ∷ 10 ∷ drop 18 bytes.old) }
    ensures start { result < 16 }
{
    bytes[SIZE + 1] = b'\n';
    bytes[SIZE] = b'\r';
    let mut at = SIZE - 1;
    let mut left = size;
    while left >= 16 {
        bytes[at] = digit(left % 16);
        left /= 16;
        at -= 1;
    }
    bytes[at] = digit(left);
    at
}

/// The length of a head with two digits, CR and LF.
const SHORT: usize = 4;

// Writes a text over the bytes from a place on.
fn write_at(bytes: &mut [u8], at: usize, text: &[u8])
    requires { at + length text.now ≤ length bytes.old }
    ensures written { bytes.new
        ≡ take at bytes.old ++ (text.now ++ drop (at + length text.now) bytes.old) }
    ensures len { length bytes.new ≡ length bytes.old }
{
    bytes[at..at + text.len()].copy_from_slice(text);
}

// Puts a text in place of the four bytes from a place on, and moves the bytes behind them by the difference.
fn replace_four(out: &mut Vec<u8>, start: usize, text: &[u8]) -> Result<(), AllocError>
    requires { start + 4 ≤ length out.old.items }
    ensures ok { OnOk result (out.new.items
        ≡ take start out.old.items ++ (text.now ++ drop (start + 4) out.old.items)) }
    ensures front { take start out.new.items ≡ take start out.old.items }
{
    let len = out.len();
    out.extend_from_slice(text)?;
    out.copy_within(start + SHORT..len, start + text.len());
    out.truncate(len - SHORT + text.len());
    write_at(out.as_mut_slice(), start, text);
    Ok(())
}

// Puts the head of a chunk of `size` bytes in place of the four bytes from a place on. The bytes behind them
// are moved where the size has not two digits.
#[inline(never)]
fn put_any_head(out: &mut Vec<u8>, start: usize, size: usize) -> Result<(), AllocError>
    requires { start + 4 ≤ length out.old.items }
    ensures ok { OnOk result (out.new.items ≡ take start out.old.items
        ++ (digits 16 false size ++ (13 ∷ 10 ∷ drop (start + 4) out.old.items))) }
    ensures front { take start out.new.items ≡ take start out.old.items }
{
    let mut head = [b'0'; ROOM];
    let at = put_head(&mut head, size);
    replace_four(out, start, &head[at..])
}

// As `put_any_head`. CR and LF stand there already, and a size of two digits is written without a move.
fn set_head(out: &mut Vec<u8>, start: usize, size: usize) -> Result<(), AllocError>
    requires place { start + 4 ≤ length out.old.items }
    requires behind { drop (start + 2) out.old.items ≡ 13 ∷ 10 ∷ drop (start + 4) out.old.items }
    ensures ok { OnOk result (out.new.items ≡ take start out.old.items
        ++ (digits 16 false size ++ (13 ∷ 10 ∷ drop (start + 4) out.old.items))) }
    ensures front { take start out.new.items ≡ take start out.old.items }
{
    if size < 16 || size >= 256 {
        return put_any_head(out, start, size);
    }
    out[start] = digit(size / 16);
    out[start + 1] = digit(size % 16);
    Ok(())
}

/// Appends the chunk of a text (RFC 9112, section 7.1), and nothing for an empty text. Out of memory, the
/// vector keeps its old bytes, and a part of the chunk may follow them. The cost is the text's length. The
/// text is made where its chunk lies, behind room for two digits of its size. It is moved where the size has
/// not two digits.
pub(crate) fn append_chunk<T: Text>(out: &mut Vec<u8>, text: &T) -> Result<(), AllocError>
    ensures { Appends (text_chunks (T.bytes text.now)) result out.old.items out.new.items }
{
    let start = out.len();
    out.extend_from_slice(b"00\r\n")?;
    text.append(out)?;
    let size = out.len() - start - SHORT;
    if size == 0 {
        out.truncate(start);
        return Ok(());
    }
    out.extend_from_slice(b"\r\n")?;
    set_head(out, start, size)
}

/// Writes texts as chunks (RFC 9112, section 7.1). A writer may have a place of its own where a chunk is made
/// (`Output::write_chunk`). For other writers the chunk is made in a buffer here, and written by one write
/// where the writer takes all of it.
#[derive(Debug, Drop)]
pub struct ChunkWriter {
    buffer: Vec<u8>,
}

impl ChunkWriter {
    /// A writer of chunks. It costs nothing: the first text that needs the buffer allocates.
    pub fn new(alloc: Global) -> ChunkWriter {
        ChunkWriter {
            buffer: Vec::new(alloc),
        }
    }

    /// Writes a text as one chunk. For an empty text, and out of memory, the writer stays as it is. Nothing
    /// is flushed. The cost is the text's length. Memory is taken as the writer takes it for its own bytes,
    /// and for another writer by the first text, and by a text that is longer than each before. The call is
    /// inlined: a stream makes it for each item.
    #[inline(always)]
    pub fn write<T: Text, W: Output>(&mut self, writer: &mut W, text: &T) -> Result<(), ChunkFault>
        ensures sent { WritesTo W.written W.fault_count W.failure_count result writer.old writer.new
            (text_chunks (T.bytes text.now)) }
        ensures memory { IsErrOf result ChunkFault.NoMemory → writer.new ≡ writer.old }
        ensures empty { T.bytes text.now ≡ []
            → (writer.new ≡ writer.old) × ¬ (IsErrOf result ChunkFault.IoFault) }
    {
        match writer.write_chunk(text) {
            Some(Ok(())) => return Ok(()),
            Some(Err(AllocError)) => return Err(ChunkFault::NoMemory),
            None => {}
        }
        self.buffer.clear();
        if append_chunk(&mut self.buffer, text).is_err() {
            return Err(ChunkFault::NoMemory);
        }
        if self.buffer.is_empty() {
            return Ok(());
        }
        match write_all(writer, self.buffer.as_slice()) {
            Ok(()) => Ok(()),
            Err(_) => Err(ChunkFault::IoFault),
        }
    }
}
