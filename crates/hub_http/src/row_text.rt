//! Rows as a feed writes them.

ghost use Rattle.std.specs.Prelude.{ℕ, List};
ghost use Rattle.hub_document.specs.Appends.{Appends};

use std::alloc::AllocError;

/// A row of a feed, written as a JSON object. After an error the vector keeps its old bytes, and a part of
/// the text may follow them.
pub trait RowText {
    /// The row's object, in a feed of the life of this number.
    ghost row_text: { ℕ → Self → List ℕ };

    /// The members that end a feed of such rows, and the brace that closes it. The arguments are the number
    /// of the life, the feed's `last_seq`, and the number of current rows above that.
    ghost end_text: { ℕ → ℕ → ℕ → List ℕ };

    /// Appends the object. It costs the text's length.
    fn put_row(&self, out: &mut Vec<u8>, life: u64) -> Result<(), AllocError>
        ensures { Appends (row_text life self.now) result out.old.items out.new.items };

    /// Appends the members that end a feed of such rows, and the brace. It costs the text's length.
    fn put_end(out: &mut Vec<u8>, life: u64, last_seq: u64, pending: u64) -> Result<(), AllocError>
        ensures { Appends (end_text life last_seq pending) result out.old.items out.new.items };
}
