//! The questions of a feed to its rows.

ghost use Rattle.std.specs.Prelude.{ℕ, List, ◌≡◌, ◌<◌, OnOk, OnErr};
ghost use Rattle.std.specs.List.{All};
ghost use Rattle.hub_index.specs.Rows.{IsIndex, seq_of, rows_after_move, next_after, last_before, count_after};

use std::alloc::AllocError;

/// The rows of a feed, in rising order. A row is the sequence of a document's latest edit, and the document's
/// number. No two rows are of one document.
pub trait SeqIndex {
    ghost rows: { Self → List (ℕ × ℕ) };

    /// Moves a document's row from `old` to the end, at `new`; `old` is None where the document has
    /// no row. No other row changes. An error leaves all rows as they were.
    fn move_to(&mut self, document: u32, old: Option<u64>, new: u64) -> Result<(), AllocError>
        requires own { seq_of document (rows self.old) ≡ old }
        requires positive { 0 < new }
        requires above { All (λ r. r.0 < new) (rows self.old) }
        ensures moved { OnOk result (rows self.new ≡ rows_after_move (rows self.old) document new) }
        ensures err { OnErr result (rows self.new ≡ rows self.old) }
        ensures index { IsIndex (rows self.new) };

    /// The first row above a place and not above the bound: its sequence and its document. It takes
    /// no memory.
    fn next_after(&self, place: u64, bound: Option<u64>) -> Option<(u64, u32)>
        ensures next { result ≡ next_after (rows self.now) place bound }
        ensures index { IsIndex (rows self.now) };

    /// The last row below a place: its sequence and its document. It takes no memory.
    fn last_before(&self, place: u64) -> Option<(u64, u32)>
        ensures last { result ≡ last_before (rows self.now) place }
        ensures index { IsIndex (rows self.now) };

    /// The number of rows above a place. It takes no memory.
    fn count_after(&self, place: u64) -> u64
        ensures count { result ≡ count_after (rows self.now) place }
        ensures index { IsIndex (rows self.now) };
}
