//! The sources that feeds follow.

ghost use Rattle.std.specs.Prelude.{◌≡◌, ◌<◌, ◌≤◌, ◌&&◌, ℕ, List, [], ◌∷◌};
ghost use Rattle.std.specs.Prelude.{Bool, true, nat_lt, Contains, option_map, IfOk};
ghost use Rattle.std.specs.List.{AllPairs};
ghost use Rattle.hub_model.specs.Current.{Current, pending};
ghost use Rattle.hub_model.specs.Feed.{is_within};
ghost use Rattle.hub_model.specs.declared.feeds.Style.{Style as Listing};
ghost use Rattle.hub_feed.specs.Reach.{first_within, first_listed};

use hub_model::Style;
use std::alloc::AllocError;

/// Whether a sequence lies above a place and not above the bound, if there is one. Constant time.
pub fn is_ahead(place: u64, bound: Option<u64>, seq: u64) -> bool
    ensures { result ≡ (nat_lt place seq && is_within bound seq) }
{
    match bound {
        Some(bound) => place < seq && seq <= bound,
        None => place < seq,
    }
}

/// The source of a feed: edits, numbered from 1. Each current edit has a row.
pub trait Source {
    /// A row as it is handed.
    type Row: Drop;

    /// How many edits there are.
    ghost length: { Self → ℕ };

    /// The number of the life of the edits. A source that is made again under its name has another number.
    ghost life: { Self → ℕ };

    /// The current rows.
    ghost current: { Self → List Current };

    /// A current row as it is shown now, in a style, with its document or without.
    ghost shown: { Self → Listing → Bool → Current → Self.Row };

    /// The sequence of a row that is shown.
    ghost seq_of: { Self.Row → ℕ };

    /// How many edits there are.
    fn length(&self) -> u64
        ensures { result ≡ length self.now };

    /// The number of the life of the edits.
    fn life(&self) -> u64
        ensures { result ≡ life self.now };

    /// The sequence and the id of the first current row above a place and not above the bound, if there is
    /// one. It takes no memory.
    fn next_after(&self, place: u64, bound: Option<u64>) -> Option<(u64, &str)>
        ensures { option_map (λ p. record { seq = p.0; id = p.1.now }) result
            ≡ first_within place bound (current self.now) };

    /// The sequence of the first current row of the document with this id above a place and not above the
    /// bound, if there is one. It takes no memory.
    fn next_of(&self, id: &str, place: u64, bound: Option<u64>) -> Option<u64>
        ensures { result ≡ option_map (λ c. c.seq)
            (first_listed place bound (id.now ∷ []) (current self.now)) };

    /// The number of current rows above a place. It takes no memory.
    fn count_after(&self, place: u64) -> u64
        ensures { result ≡ pending (current self.now) place };

    /// The current row of this sequence, as it is shown now.
    fn row(&self, seq: u64, style: Style, include_docs: bool) -> Result<Self::Row, AllocError>
        requires { (c : Current) × Contains (current self.now) c × (c.seq ≡ seq) }
        ensures { IfOk result (λ r. (c : Current) → Contains (current self.now) c → c.seq ≡ seq
            → r ≡ shown self.now style include_docs c) };

    /// As `row`, with the document. The row may be made in the memory of a spare row. A source without a use for
    /// that memory gives it back, as this body does.
    fn row_over(&self, seq: u64, style: Style, spare: Self::Row) -> Result<Self::Row, AllocError>
        requires { (c : Current) × Contains (current self.now) c × (c.seq ≡ seq) }
        ensures { IfOk result (λ r. (c : Current) → Contains (current self.now) c → c.seq ≡ seq
            → r ≡ shown self.now style true c) }
    {
        drop(spare);
        self.row(seq, style, true)
    }

    /// The sequence of a row.
    fn seq(row: &Self::Row) -> u64
        ensures { result ≡ seq_of row.now };

    /// The sequences of the current rows rise.
    ghost rise: { (s : Self) → AllPairs (λ (c d : Current). c.seq < d.seq) (current s) };

    /// The sequence of a current row is at most the number of edits.
    ghost within: { (s : Self) (c : Current) → Contains (current s) c → c.seq ≤ length s };

    /// A row that is shown has the sequence of its current row.
    ghost keeps: { (s : Self) (style : Listing) (include_docs : Bool) (c : Current)
        → seq_of (shown s style include_docs c) ≡ c.seq };
}
