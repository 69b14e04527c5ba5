//! Guesses of the places of ids, by their beginnings.

ghost use Rattle.std.specs.Prelude.{◌<◌};

use crate::hash::hash_of;

/// The count of slots.
const SLOTS: usize = 64;

/// The count of bytes at the end of an id that its beginning leaves out.
const TAIL: usize = 3;

/// Guesses of the places of ids in an order. A guess is a page, and a place on that page. The beginning of an
/// id is the id without its last three bytes. Each beginning has one slot of 64, by a hash. Ids mostly follow
/// one another, as `run-0123` and `run-0124` do. So the place behind the id that came last of a beginning is
/// mostly the place of the next. No contract rests on a guess: its reader compares the ids at the place. So
/// beginnings that share a slot cost comparisons alone, and the hash has no secret. The slots take 512 bytes.
#[derive(Debug, Drop)]
pub(crate) struct Guesses {
    places: [(u32, u32); SLOTS],
}

// The slot of an id, by a hash of its beginning.
fn slot_of(id: &str) -> usize
    ensures { result < 64 }
{
    let bytes = id.as_bytes();
    let front = bytes.len().saturating_sub(TAIL);
    hash_of(&bytes[..front]) as usize % SLOTS
}

impl Guesses {
    /// Guesses of the first place on the first page.
    pub(crate) fn new() -> Guesses {
        Guesses {
            places: [(0, 0); SLOTS],
        }
    }

    /// The page, and the place there, that were noted last for the beginning of this id, or for another of
    /// the same slot. The cost is that of `hash_of`.
    pub(crate) fn of(&self, id: &str) -> (usize, usize) {
        let (page, at) = self.places[slot_of(id)];
        (page as usize, at as usize)
    }

    /// Notes a page, and a place there, for the beginning of this id. The slot's last pair is forgotten. The cost
    /// is that of `hash_of`.
    pub(crate) fn note(&mut self, id: &str, page: usize, at: usize) {
        self.places[slot_of(id)] = ((page & 0xffff_ffff) as u32, (at & 0xffff_ffff) as u32);
    }
}
