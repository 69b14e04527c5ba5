//! Guesses of the numbers of ids, by a hash.

ghost use Rattle.std.specs.Prelude.{◌≡◌, ◌<◌, length, IfSome};
ghost use Rattle.hub_index.specs.Order.{id_at};

use crate::hash::hash_of;
use crate::id_order::Named;
use std::alloc::{AllocError, Global};

/// The number of slots in which an id may stand. They lie side by side, mostly on one line of the cache.
const PLACES: usize = 8;

/// The bits of a hash that tell the first slot of an id, as far as there are slots.
const PLACE_BITS: u32 = 0xffff_fff8;

/// The mask of the fewest slots that are made, 16.
const FIRST_MASK: u32 = 15;

/// Numbers in slots by a hash of their ids. No contract rests on the slots: a number is given only after a look
/// at its id. A number that is missing has to be found in another way, such as by `IdOrder`. So ids that are made
/// to collide cost that other way, and the hash has no secret.
///
/// Each slot has a tag of one byte, and the tags of eight slots are compared at once. A new id mostly costs a look
/// at tags alone: they are a fourth of the slots, and so lie in the cache where the slots do not.
#[derive(Debug)]
pub struct IdHints {
    alloc: Global,
    /// The tags of eight slots in each word, the first in its lowest byte. The tag is zero where the slot is
    /// empty, and else `tag_of` the hash of its id.
    tags: Vec<u64>,
    /// Zeros, and numbers plus one. The bits above the mask are those of the id's hash. So few other ids are
    /// looked at, and a move into more slots needs no look at an id.
    slots: Vec<u32>,
    /// The number of slots less one, where there are any. The number of slots is a power of two.
    mask: u32,
}

impl Drop for IdHints {
    fn drop(self) {
        let Self {
            alloc,
            tags,
            slots,
            mask,
        } = self;
    }
}

/// The lowest bit of each byte of a word.
const LOWEST: u64 = 0x0101_0101_0101_0101;

/// The highest bit of each byte of a word.
const HIGHEST: u64 = 0x8080_8080_8080_8080;

// The tag of a hash: 1 to 128, by the highest bits of the hash.
fn tag_of(hash: u32) -> u8 {
    (hash >> 25) as u8 + 1
}

// The highest bit of each byte that is this tag, and of some bytes above the first that is. Zero says that no byte
// is the tag. (Mycroft's test for a byte that is zero.)
fn places_of(tags: u64, tag: u8) -> u64 {
    let others = tags ^ LOWEST.wrapping_mul(u64::from(tag));
    others.wrapping_sub(LOWEST) & !others & HIGHEST
}

impl IdHints {
    /// Hints without a number. They take no memory yet; `remember` takes it from this allocator.
    pub fn new(alloc: Global) -> IdHints {
        IdHints {
            alloc,
            tags: Vec::new(alloc),
            slots: Vec::new(alloc),
            mask: 0,
        }
    }

    // The number in a slot, where its id may have this hash.
    fn number_at(&self, at: usize, hash: u32) -> Option<u32> {
        let slot = *self.slots.get(at)?;
        if (slot ^ hash) & !self.mask != 0 {
            return None;
        }
        (slot & self.mask).checked_sub(1)
    }

    /// A number of this id, if it is remembered. It takes constant time: it compares ids whose hashes are
    /// alike, mostly one and at most 8. `None` tells nothing of the id: one or two numbers of a hundred are
    /// not remembered, and the number of the empty text is never given.
    pub fn find<N: Named>(&self, names: &N, id: &str) -> Option<u32>
        ensures { IfSome result (λ number. (number < length (N.ids names.now))
            × (id_at (N.ids names.now) number ≡ id.now)) }
    {
        if id.is_empty() {
            return None;
        }
        let hash = hash_of(id.as_bytes());
        let first = (hash & self.mask & PLACE_BITS) as usize;
        let mut places = places_of(*self.tags.get(first / PLACES)?, tag_of(hash));
        while places != 0 {
            let at = first + places.trailing_zeros() as usize / PLACES;
            if let Some(number) = self.number_at(at, hash)
                && names.id(number) == id
            {
                return Some(number);
            }
            places &= places - 1;
        }
        None
    }

    // Puts a number plus one into the first empty slot of a hash, else into its first slot.
    fn put(&mut self, hash: u32, next: u32) {
        let first = (hash & self.mask & PLACE_BITS) as usize;
        let Some(tags) = self.tags.get_mut(first / PLACES) else {
            return;
        };
        let at = places_of(*tags, 0).trailing_zeros() as usize / PLACES % PLACES;
        let bits = 8 * at as u32;
        *tags = (*tags & !(0xff << bits)) | (u64::from(tag_of(hash)) << bits);
        if let Some(slot) = self.slots.get_mut(first + at) {
            *slot = (hash & !self.mask) | (next & self.mask);
        }
    }

    // The same numbers in twice the slots, or in the first 16.
    fn grown(&self) -> Result<IdHints, AllocError> {
        let mask = self.mask.saturating_mul(2) | FIRST_MASK;
        let mut grown = IdHints {
            alloc: self.alloc,
            tags: vec![in self.alloc; 0; mask as usize / PLACES + 1]?,
            slots: vec![in self.alloc; 0; mask as usize + 1]?,
            mask,
        };
        for (at, slot) in self.slots.iter().enumerate() {
            if *slot != 0 {
                let place = (at & PLACE_BITS as usize) as u32;
                grown.put((*slot & !self.mask) | place, *slot & self.mask);
            }
        }
        Ok(grown)
    }

    /// Remembers the number of an id, the next after the numbers remembered before. Where all slots of the id
    /// are taken, the number in the first of them is forgotten. Once there are half as many numbers as slots,
    /// the slots are doubled, at a step for each. A number takes 10 to 20 bytes of slots and tags. Out of memory
    /// for more slots, the number may not be remembered.
    pub fn remember(&mut self, id: &str, number: u32) {
        if number >= self.mask / 2
            && let Ok(grown) = self.grown()
        {
            *self = grown;
        }
        if number < self.mask {
            self.put(hash_of(id.as_bytes()), number + 1);
        }
    }
}
