//! The readers that requests come from.
ghost use Rattle.std.specs.Prelude.{◌≡◌, ℕ, List, Option, is_err};
ghost use Rattle.std.specs.Io.{ReadsAtMost};
ghost use Rattle.std.specs.Io.KnownBytes.{ReadConsumes};
ghost use Rattle.hub_http.specs.Counts.{one_more, one_more_if, call_failed};

use std::io;

/// The source of requests: a reader that counts its reads and faults. So a caller can tell a fault of the
/// reader from a fault that is made up.
pub trait Input {
    /// The bytes that are left to read, or `None` where they are unknown.
    ghost left: { Self → Option (List ℕ) };

    /// The number of reads that answered an error.
    ghost fault_count: { Self → ℕ };

    /// The number of these reads whose error was no interruption.
    ghost failure_count: { Self → ℕ };

    /// The number of reads.
    ghost read_count: { Self → ℕ };

    /// Reads bytes to the front of `buf`, and counts the read. No byte comes only at the end of the input.
    fn read(&mut self, buf: &mut [u8]) -> io::Result<usize>
        ensures bound { ReadsAtMost result buf.new }
        ensures bytes { ReadConsumes (left self.old) (left self.new) result buf.new }
        ensures faults { fault_count self.new ≡ one_more_if (is_err result) (fault_count self.old) }
        ensures failures { failure_count self.new ≡ one_more_if (call_failed result) (failure_count self.old) }
        ensures reads { read_count self.new ≡ one_more (read_count self.old) };

    /// The number of reads that answered an error, at most 2^64 - 1.
    fn faults(&self) -> u64
        ensures { result ≡ fault_count self.now };

    /// The number of reads, at most 2^64 - 1.
    fn reads(&self) -> u64
        ensures { result ≡ read_count self.now };
}
