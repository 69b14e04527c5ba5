//! The block that a reader's bytes come in.
ghost use Rattle.std.specs.Prelude.{◌≡◌, ◌<◌, ◌≤◌, [], ◌++◌, length, min, take};
ghost use Rattle.std.specs.Prelude.{drop, IfOk, IfErr, OnErr, IsErr};
ghost use Rattle.std.specs.Io.KnownBytes.{Keeps, IsAtEnd};
ghost use Rattle.hub_http.specs.Counts.{CallCounts};
ghost use Rattle.hub_http.specs.Stream.{to_read};

use crate::fault::HttpFault;
use crate::input::Input;
use crate::output::is_interrupted;
use crate::pending::Pending;
use std::alloc::AllocError;
use std::marker::Model;

/// The most bytes of one read.
pub(crate) const BLOCK: usize = 4096;

/// The most reads in a row, where each is interrupted.
const TRIES: u32 = 1_000_000;

/// The bytes of the last read that were not taken yet. They lie in the block, so a read takes no memory.
#[derive(Drop)]
pub(crate) struct Block {
    bytes: [u8; BLOCK],
    /// The number of bytes, from the front, that came by a read and were not taken yet.
    len: usize,
}

impl Model for Block {
    ghost use Rattle.std.specs.Prelude.{ℕ, List, take, ◌≤◌};

    ghost Value = { List ℕ };

    ghost view = { λ a. take a.len a.bytes };

    ghost invariant = { λ a. a.len ≤ 4096 };
}

impl Block {
    /// An empty block.
    pub(crate) fn new() -> Block
        ensures { result ≡ [] }
    {
        Block {
            bytes: [0; BLOCK],
            len: 0,
        }
    }

    /// Reads at most `most` bytes into the block where it is empty, and no byte only at the end of the input.
    /// A block that has bytes stays as it is.
    pub(crate) fn refill<R: Input>(&mut self, reader: &mut R, most: usize) -> Result<(), HttpFault>
        requires { 0 < most }
        ensures kept { Keeps (to_read self.old (R.left reader.old)) (to_read self.new (R.left reader.new)) }
        ensures end { IfOk result (λ _. self.new ≡ [] → IsAtEnd (R.left reader.new)) }
        ensures err { IfErr result (λ e. e ≡ HttpFault.IoFault) }
        ensures counts { CallCounts (IsErr result) R.fault_count R.failure_count reader.old reader.new }
    {
        if self.len > 0 {
            return Ok(());
        }
        let size = most.min(BLOCK);
        for _ in 0..TRIES {
            match reader.read(&mut self.bytes[..size]) {
                Ok(n) => {
                    self.len = n;
                    return Ok(());
                }
                Err(e) if is_interrupted(&e) => {}
                Err(_) => break,
            }
        }
        Err(HttpFault::IoFault)
    }

    /// Moves at most `most` bytes from the block's front to the end of the held bytes. An error changes
    /// nothing, and comes only where the block has bytes.
    pub(crate) fn give(&mut self, held: &mut Pending, most: usize) -> Result<usize, AllocError>
        ensures count { IfOk result (λ n. n ≡ min most (length self.old)) }
        ensures held { IfOk result (λ n. held.new ≡ held.old ++ take n self.old) }
        ensures rest { IfOk result (λ n. self.new ≡ drop n self.old) }
        ensures same { OnErr result ((held.new ≡ held.old) × (self.new ≡ self.old)) }
        ensures memory { OnErr result (0 < length self.old) }
    {
        let n = most.min(self.len);
        if n == 0 {
            return Ok(0);
        }
        held.put(&self.bytes[..n])?;
        self.bytes.copy_within(n..self.len, 0);
        self.len -= n;
        Ok(n)
    }
}
