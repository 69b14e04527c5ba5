//! Any reader or writer of std, with its counts.
ghost use Rattle.std.specs.Prelude.{◌≡◌, ◌||◌, is_err};
ghost use Rattle.hub_http.specs.Counts.{one_more, one_more_if, call_failed};

use crate::input::Input;
use crate::output::{Output, is_interrupted};
use std::io;
use std::io::{Read, Write};

/// Any reader or writer of std, with its counts.
#[derive(Drop)]
pub struct Tally<T> {
    inner: T,
    faults: u64,
    failures: u64,
    reads: u64,
}

impl<T> Tally<T> {
    ghost use Rattle.hub_http.specs.Words.{inner_of, faults_counted, failures_counted, reads_counted};

    /// The reader or writer, with nothing counted yet.
    pub fn new(inner: T) -> Tally<T>
        ensures inner { inner_of result ≡ inner }
        ensures faults { faults_counted result ≡ 0 }
        ensures failures { failures_counted result ≡ 0 }
        ensures reads { reads_counted result ≡ 0 }
    {
        Tally {
            inner,
            faults: 0,
            failures: 0,
            reads: 0,
        }
    }

    /// The reader or writer itself.
    pub fn into_inner(self) -> T
        ensures { result ≡ inner_of self }
    {
        self.inner
    }

    // Counts a call, and answers its outcome. A call that is refused failed, as one that answered an error
    // other than an interruption.
    fn counted<N>(&mut self, outcome: io::Result<N>, refused: bool) -> io::Result<N>
        ensures same { result ≡ outcome }
        ensures counts { self.new ≡ record self.old {
          faults = one_more_if (is_err outcome || refused) self.old.faults;
          failures = one_more_if (call_failed outcome || refused) self.old.failures;
        } }
    {
        if outcome.is_err() || refused {
            self.faults = bump(self.faults);
        }
        let failed = match &outcome {
            Ok(_) => refused,
            Err(e) => refused || !is_interrupted(e),
        };
        if failed {
            self.failures = bump(self.failures);
        }
        outcome
    }
}

/// The next count, at most 2^64 - 1.
pub(crate) fn bump(count: u64) -> u64
    ensures { result ≡ one_more count }
{
    count.saturating_add(1)
}

impl<T: Read> Input for Tally<T> {
    ghost left = { λ t. T.remaining t.inner };

    ghost fault_count = { λ t. t.faults };

    ghost failure_count = { λ t. t.failures };

    ghost read_count = { λ t. t.reads };

    fn read(&mut self, buf: &mut [u8]) -> io::Result<usize> {
        self.reads = bump(self.reads);
        let outcome = self.inner.read(buf);
        self.counted(outcome, false)
    }

    fn faults(&self) -> u64 {
        self.faults
    }

    fn reads(&self) -> u64 {
        self.reads
    }
}

impl<T: Write> Output for Tally<T> {
    ghost written = { λ t. T.contents t.inner };

    ghost fault_count = { λ t. t.faults };

    ghost failure_count = { λ t. t.failures };

    fn write(&mut self, buf: &[u8]) -> io::Result<usize> {
        let outcome = self.inner.write(buf);
        let refused = matches!(outcome, Ok(0)) && !buf.is_empty();
        self.counted(outcome, refused)
    }

    fn flush(&mut self) -> io::Result<()> {
        let outcome = self.inner.flush();
        self.counted(outcome, false)
    }

    fn faults(&self) -> u64 {
        self.faults
    }
}
