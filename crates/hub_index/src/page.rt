//! A page of rows: a slot for each of 256 consecutive sequences.

ghost use Rattle.std.specs.Prelude.{◌≡◌, ◌^◌, ◌<◌, nat_lt, nat_le, set, drop, replicate};
ghost use Rattle.std.specs.Prelude.{reverse, find, is_some, count_by, None, Some, IfOk};
ghost use Rattle.std.specs.List.{All};
ghost use Rattle.hub_index.specs.Pages.{page_rows, slot_rows};

use std::alloc::{AllocError, Global};
use std::marker::Model;

/// The number of slots of a page.
pub(crate) const PAGE_SIZE: u64 = 256;

/// A page: slots, each with the document whose row is there. A contract sees the page's number and its slots.
#[derive(Debug, Drop)]
pub(crate) struct Page {
    number: u64,
    /// The number of slots that have a document.
    live: usize,
    slots: Vec<Option<u32>>,
}

impl Model for Page {
    ghost use Rattle.std.specs.Prelude.{List, ℕ, Option};
    ghost use Rattle.hub_index.specs.Pages.{IsKeptPage};

    ghost Value = { ℕ × List (Option ℕ) };

    ghost view = { λ a. (a.number, a.slots.items) };

    ghost invariant = { λ a. IsKeptPage a.live (a.number, a.slots.items) };
}

// A vector of `size` empty slots.
fn empty_slots(alloc: Global, size: usize) -> Result<Vec<Option<u32>>, AllocError>
    ensures { IfOk result (λ slots. slots.items ≡ replicate size None) }
{
    vec![in alloc; None; size]
}

// The first slot from the place `from` on that has a document: its place, and the document.
fn first_from(slots: &[Option<u32>], from: usize) -> Option<(usize, u32)>
    ensures { result ≡ find (λ r. nat_le from r.0) (slot_rows 0 slots.now) }
{
    for at in from..slots.len() {
        if let Some(document) = slots[at] {
            return Some((at, document));
        }
    }
    None
}

// The last slot below the place `end` that has a document: its place, and the document.
fn last_below(slots: &[Option<u32>], end: usize) -> Option<(usize, u32)>
    ensures { result ≡ find (λ r. nat_lt r.0 end) (reverse (slot_rows 0 slots.now)) }
{
    let mut at = end.min(slots.len());
    while at > 0 {
        at -= 1;
        if let Some(document) = slots[at] {
            return Some((at, document));
        }
    }
    None
}

// The number of slots that have a document.
fn count_live(slots: &[Option<u32>]) -> usize
    ensures { result ≡ count_by is_some slots.now }
{
    slots.iter().filter(|slot| slot.is_some()).count()
}

impl Page {
    /// The page of this number, with empty slots.
    pub(crate) fn new(alloc: Global, number: u64) -> Result<Page, AllocError>
        requires { number < 2 ^ 56 }
        ensures { IfOk result (λ page. page ≡ (number, replicate 256 None)) }
    {
        let slots = empty_slots(alloc, PAGE_SIZE as usize)?;
        Ok(Page {
            number,
            live: 0,
            slots,
        })
    }

    /// The page's number.
    pub(crate) fn number(&self) -> u64
        ensures { result ≡ self.now.0 }
    {
        self.number
    }

    /// The number of slots that have a document.
    pub(crate) fn live(&self) -> usize
        ensures { result ≡ count_by is_some self.now.1 }
    {
        self.live
    }

    /// Puts a document into a slot, or empties it.
    pub(crate) fn put(&mut self, at: usize, document: Option<u32>)
        requires { at < 256 }
        ensures { self.new ≡ (self.old.0, set self.old.1 at document) }
    {
        if self.slots[at].is_some() {
            self.live -= 1;
        }
        if document.is_some() {
            self.live += 1;
        }
        self.slots[at] = document;
    }

    /// The first row above a place. It looks at slots from the place on.
    pub(crate) fn next_after(&self, place: u64) -> Option<(u64, u32)>
        requires { All (λ r. r.0 < 2 ^ 64) (page_rows self.now) }
        ensures { result ≡ find (λ r. nat_lt place r.0) (page_rows self.now) }
    {
        let base = PAGE_SIZE * self.number;
        let from = place.saturating_sub(base) as usize;
        let (at, document) = first_from(self.slots.as_slice(), from)?;
        Some((base + (at as u64 + 1), document))
    }

    /// The last row below a place. It looks at slots from the place down.
    pub(crate) fn last_before(&self, place: u64) -> Option<(u64, u32)>
        ensures { result ≡ find (λ r. nat_lt r.0 place) (reverse (page_rows self.now)) }
    {
        let base = PAGE_SIZE * self.number;
        let end = place.saturating_sub(base + 1) as usize;
        let (at, document) = last_below(self.slots.as_slice(), end)?;
        Some((base + (at as u64 + 1), document))
    }

    /// The number of rows above a place. It looks at slots from the place on, and at none where the place
    /// lies before the page.
    pub(crate) fn count_after(&self, place: u64) -> u64
        ensures { result ≡ count_by (λ r. nat_lt place r.0) (page_rows self.now) }
    {
        let base = PAGE_SIZE * self.number;
        if place <= base {
            return self.live as u64;
        }
        let from = ((place - base) as usize).min(self.slots.len());
        count_live(&self.slots[from..]) as u64
    }
}
