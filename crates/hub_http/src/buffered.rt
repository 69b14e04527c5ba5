//! Writers of std behind a buffer.

ghost use Rattle.std.specs.Prelude.{◌≡◌, [], OnOk};
ghost use Rattle.std.specs.Io.KnownBytes.{Keeps};
ghost use Rattle.std.specs.Prelude.{is_err};
ghost use Rattle.hub_http.specs.Buffers.{buffer_of, bytes_of, tally_of};
ghost use Rattle.hub_http.specs.Counts.{one_more_if, call_failed};
ghost use Rattle.hub_http.specs.Words.{faults_counted, failures_counted};

use crate::output::Output;
use crate::pending::Pending;
use crate::tally::Tally;
use crate::text::Text;
use std::alloc::{AllocError, Global};
use std::io;
use std::io::{ErrorKind, Write};

/// The most bytes that a write leaves in the buffer.
const FULL: usize = 65_536;

/// A writer of std behind a buffer, with its counts. It has what std's `BufWriter` has, and a chunk is made in the
/// buffer itself. The buffer is written out before bytes that would fill it above 64 KiB, and a chunk may fill it
/// above that. A text of 64 KiB and more is written through, and so is a text out of memory.
#[derive(Drop)]
pub struct Buffered<W> {
    inner: Tally<W>,
    pending: Pending,
}

impl<W: Write> Buffered<W> {
    /// The writer, with an empty buffer and nothing counted. The buffer takes memory with the first text.
    pub fn new(alloc: Global, inner: W) -> Buffered<W>
        ensures written { bytes_of W.contents result ≡ W.contents inner }
        ensures empty { buffer_of result ≡ [] }
        ensures faults { faults_counted (tally_of result) ≡ 0 }
        ensures failures { failures_counted (tally_of result) ≡ 0 }
    {
        Buffered {
            inner: Tally::new(inner),
            pending: Pending::new(Vec::new(alloc)),
        }
    }

    // Writes the buffer out. After an error a front of it was written.
    #[inline(never)]
    fn drain(&mut self) -> io::Result<()>
        ensures bytes { Keeps (bytes_of W.contents self.old) (bytes_of W.contents self.new) }
        ensures empty { OnOk result (buffer_of self.new ≡ []) }
        ensures faults { faults_counted (tally_of self.new)
            ≡ one_more_if (is_err result) (faults_counted (tally_of self.old)) }
        ensures failures { failures_counted (tally_of self.new)
            ≡ one_more_if (call_failed result) (failures_counted (tally_of self.old)) }
    {
        while !self.pending.is_empty() {
            let count = self.inner.write(self.pending.as_slice())?;
            if count == 0 {
                return Err(io::Error::from(ErrorKind::WriteZero));
            }
            self.pending.take(count);
        }
        Ok(())
    }
}

impl<W: Write> Output for Buffered<W> {
    ghost written = { λ b. bytes_of W.contents b };

    ghost fault_count = { λ b. faults_counted b.inner };

    ghost failure_count = { λ b. failures_counted b.inner };

    fn write(&mut self, buf: &[u8]) -> io::Result<usize> {
        if self.pending.len().saturating_add(buf.len()) > FULL {
            self.drain()?;
        }
        if buf.len() < FULL && self.pending.put(buf).is_ok() {
            return Ok(buf.len());
        }
        self.drain()?;
        self.inner.write(buf)
    }

    fn write_chunk<T: Text>(&mut self, text: &T) -> Option<Result<(), AllocError>> {
        if self.pending.len() >= FULL {
            return None;
        }
        Some(self.pending.put_chunk(text))
    }

    /// The buffer is empty behind a flush. No clause says that the writer itself hands its bytes on.
    fn flush(&mut self) -> io::Result<()>
        ensures bytes { Keeps (bytes_of W.contents self.old) (bytes_of W.contents self.new) }
        ensures empty { OnOk result (buffer_of self.new ≡ []) }
        ensures faults { faults_counted (tally_of self.new)
            ≡ one_more_if (is_err result) (faults_counted (tally_of self.old)) }
        ensures failures { failures_counted (tally_of self.new)
            ≡ one_more_if (call_failed result) (failures_counted (tally_of self.old)) }
    {
        self.drain()?;
        self.inner.flush()
    }

    fn faults(&self) -> u64 {
        self.inner.faults()
    }
}
