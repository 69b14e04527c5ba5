//! Numbers in the order of the ids that they stand for.

ghost use Rattle.std.specs.Prelude.{◌≡◌, ℕ, List, [], ◌++◌, ◌∷◌, length, None, OnOk, OnErr};
ghost use Rattle.hub_index.specs.Order.{IsOrder, id_at, number_in, with_number};

use crate::guesses::Guesses;
use crate::id_pages::{page_at, place_in, push_page, put};
use std::alloc::{AllocError, Global};
use std::marker::Model;

/// A holder of ids by their numbers.
pub trait Named {
    ghost ids: { Self → List (List ℕ) };

    /// The id of a number, and the empty text where the number is above all. It takes no memory, and
    /// constant time.
    fn id(&self, number: u32) -> &str
        ensures { result.now ≡ id_at (ids self.now) number };
}

/// Numbers in the byte order of their ids. A contract sees the list of the numbers. The ids stand elsewhere:
/// each call is given them. A number takes four bytes, and some two more where pages are not full. An order
/// has 512 bytes besides, for guesses of places. Ids that follow one another are found by a guess.
#[derive(Debug)]
pub struct IdOrder {
    alloc: Global,
    /// Pages of numbers, none of them empty.
    pages: Vec<Vec<u32>>,
    /// The place behind the number that came last, for each beginning of ids. A guess is verified.
    guesses: Guesses,
}

impl Drop for IdOrder {
    fn drop(self) {
        let Self {
            alloc,
            pages,
            guesses,
        } = self;
    }
}

impl Model for IdOrder {
    ghost use Rattle.std.specs.Prelude.{List, ℕ};
    ghost use Rattle.std.specs.List.{All};
    ghost use Rattle.hub_index.specs.Order.{IsNumberPage, numbers_of};

    ghost Value = { List ℕ };

    ghost view = { λ a. numbers_of a.pages.items };

    ghost invariant = { λ a. All IsNumberPage a.pages.items };
}

impl IdOrder {
    /// An order without a number. It takes no memory yet; `insert` takes it from this allocator.
    pub fn new(alloc: Global) -> IdOrder
        ensures { result ≡ [] }
    {
        IdOrder {
            alloc,
            pages: Vec::new(alloc),
            guesses: Guesses::new(),
        }
    }

    /// The number of this id. It compares logarithmically many ids, and two where the id lies above all. It
    /// compares at most six where the id belongs behind the one that came last with the same beginning, which
    /// is all but the last three bytes. It compares seven where one id stands between. Such a place is a
    /// guess, and is verified. The call takes no memory.
    pub fn find<N: Named>(&self, names: &N, id: &str) -> Option<u32>
        requires order { IsOrder (N.ids names.now) self.now }
        ensures { result ≡ number_in (N.ids names.now) self.now id.now }
    {
        let (page_guess, guess) = self.guesses.of(id);
        let page = page_at(names, self.pages.as_slice(), id, page_guess);
        let numbers = self.pages.get(page)?;
        let is_last = page + 1 == self.pages.len();
        let list = numbers.as_slice();
        let at = place_in(names, list, id, is_last, guess);
        let number = *list.get(at)?;
        if names.id(number) == id {
            Some(number)
        } else {
            None
        }
    }

    /// Takes in the number of a new id. It is the next number after those that have ids, and its id joins
    /// them later. The call compares logarithmically many ids, and two where the id lies above all. It
    /// compares at most five where the id belongs behind the one that came last with the same beginning,
    /// which is all but the last three bytes. It compares six where one id stands between. Such a place is a
    /// guess, and is verified. It may be wrong once after a page was halved. The call moves the numbers
    /// behind the new one on its page. A full page is halved before, and ids that come in order fill pages
    /// whole. An error leaves all numbers as they were.
    pub fn insert<N: Named>(&mut self, names: &N, number: u32, id: &str) -> Result<(), AllocError>
        requires order { IsOrder (N.ids names.now) self.old }
        requires next { number ≡ length (N.ids names.now) }
        requires new { number_in (N.ids names.now) self.old id.now ≡ None }
        ensures ok { OnOk result (self.new ≡ with_number (N.ids names.now) self.old id.now number) }
        ensures order { OnOk result (IsOrder (N.ids names.now ++ id.now ∷ []) self.new) }
        ensures err { OnErr result (self.new ≡ self.old) }
    {
        let (page_guess, guess) = self.guesses.of(id);
        let page = page_at(names, self.pages.as_slice(), id, page_guess);
        if page == self.pages.len() {
            return push_page(&mut self.pages, self.alloc, number);
        }
        let is_last = page + 1 == self.pages.len();
        let at = place_in(names, self.pages[page].as_slice(), id, is_last, guess);
        self.guesses.note(id, page, at + 1);
        put(&mut self.pages, self.alloc, page, at, number)
    }
}
