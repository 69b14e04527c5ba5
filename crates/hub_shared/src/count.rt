//! Counts of the edits that a database accepts.

ghost use Rattle.std.specs.Prelude.{◌≡◌, ℕ, ◌+◌, ◌<◌, ◌≤◌, true, false};

use std::marker::PhantomData;
use std::sync::ledger::{Blank, Book, Ledger, Share};

/// How the accepted edits of a database are counted: by a book under its lock, and a share in each handle. A
/// share has some of the parts of the right to know the total. A share with all parts knows the total.
pub trait Count: Drop {
    /// The book, which lies under the lock.
    type Book: Drop + Send;

    /// The share of a handle.
    type Share: Drop + Send;

    ghost use Rattle.std.specs.Prelude.{ℕ, Bool};

    /// Whether edits are counted at all.
    ghost counts: { Bool };

    /// How many parts there are.
    ghost all_parts: { ℕ };

    /// How many edits all shares have counted.
    ghost total: { Self.Book → ℕ };

    /// How many edits a share has counted.
    ghost amount: { Self.Share → ℕ };

    /// How many parts a share has.
    ghost parts: { Self.Share → ℕ };

    /// The book, and the share that has every part. It takes no memory.
    fn open(self) -> (Self::Book, Self::Share)
        ensures total { total result.0 ≡ 0 }
        ensures amount { amount result.1 ≡ 0 }
        ensures parts { counts ≡ true → (parts result.1 ≡ all_parts) × (0 < all_parts) };

    /// Counts accepted edits, and says by how much the share's amount rose. It takes no memory.
    fn add(book: &mut Self::Book, share: &mut Self::Share, edits: u64) -> u64
        requires { counts ≡ true → 0 < parts share.old }
        ensures counted { counts ≡ true → result ≡ edits }
        ensures most { result ≤ edits }
        ensures total { total book.new ≡ total book.old + result }
        ensures amount { amount share.new ≡ amount share.old + result }
        ensures parts { parts share.new ≡ parts share.old };

    /// Changes nothing, and shows how the share stands to the book. It takes no memory.
    fn audit(book: &mut Self::Book, share: &mut Self::Share)
        ensures same { (total book.new ≡ total book.old) × (amount share.new ≡ amount share.old)
            × (parts share.new ≡ parts share.old) }
        ensures bound { amount share.old ≤ total book.old }
        ensures whole { counts ≡ true → parts share.old ≡ all_parts → amount share.old ≡ total book.old };
}

/// Counts edits, by a ledger of std with a fixed number of parts.
#[derive(Drop)]
pub struct Counted<L: Ledger> {
    blank: Blank,
    of: PhantomData<L>,
    ghost name: { blank.name ≡ L.name },
    ghost cut: { blank.parts ≡ L.parts },
    ghost some: { 0 < L.parts },
}

impl<L: Ledger> Counted<L> {
    /// A count on the ledger `L`. It takes no memory.
    pub fn new(blank: Blank) -> Counted<L>
        requires name { blank.name ≡ L.name }
        requires parts { blank.parts ≡ L.parts }
        requires some { 0 < L.parts }
    {
        Counted {
            blank,
            of: PhantomData,
        }
    }
}

impl<L: Ledger> Count for Counted<L> {
    type Book = Book<L>;

    type Share = Share<L>;

    ghost use Rattle.std.specs.Prelude.{true};

    ghost counts = { true };

    ghost all_parts = { L.parts };

    ghost total = { λ b. b.total };

    ghost amount = { λ s. s.amount };

    ghost parts = { λ s. s.parts };

    fn open(self) -> (Book<L>, Share<L>) {
        let Counted { blank, of: _ } = self;
        blank.open::<L>()
    }

    fn add(book: &mut Book<L>, share: &mut Share<L>, edits: u64) -> u64 {
        book.add(share, edits);
        edits
    }

    fn audit(book: &mut Book<L>, share: &mut Share<L>) {
        book.audit(share);
    }
}

/// Counts nothing: for databases whose handles need no count.
#[derive(Drop)]
pub struct Plain;

/// The book and the share of `Plain`.
#[derive(Drop)]
pub struct NoCount;

impl Count for Plain {
    type Book = NoCount;

    type Share = NoCount;

    ghost use Rattle.std.specs.Prelude.{false};

    ghost counts = { false };

    ghost all_parts = { 0 };

    ghost total = { λ b. 0 };

    ghost amount = { λ s. 0 };

    ghost parts = { λ s. 0 };

    fn open(self) -> (NoCount, NoCount) {
        (NoCount, NoCount)
    }

    fn add(_book: &mut NoCount, _share: &mut NoCount, _edits: u64) -> u64 {
        0
    }

    fn audit(_book: &mut NoCount, _share: &mut NoCount) {}
}
