//! The rows of a feed of listed documents, kept in order while nothing is written.

ghost use Rattle.std.specs.Prelude.{◌≡◌, ◌<◌, ◌&&◌, ◌++◌, ℕ, [], find, map, nat_lt};
ghost use Rattle.std.specs.Prelude.{string_bytes, Contains, None, Some, IsTrue, OnOk, OnErr};
ghost use Rattle.std.specs.List.{AllPairs, cons_option, filter_map};
ghost use Rattle.hub_model.specs.Feed.{is_within};
ghost use Rattle.hub_model.specs.Filter.{DocIds};
ghost use Rattle.hub_database.specs.Listing.{IsPartedAt, KeepsOrLists, passing_sequences, seq_of_row};

use crate::contents::Contents;
use hub_feed::{Source, is_ahead};
use std::alloc::{AllocError, Global};

/// The rows of one feed of listed documents. They are found by the feed's ids once, and serve each of its
/// steps until the next write.
#[derive(Debug, Drop)]
pub(crate) struct Listing {
    /// The number of the feed for which `holds` was asked last, if its rows are not kept and nothing was written
    /// since.
    asked: Option<u64>,
    /// The number of the feed whose rows are kept, if there is one.
    pub(crate) feed: Option<u64>,
    /// The sequences of the current rows that the feed's filter passes, rising.
    pub(crate) rows: Vec<u64>,
    /// The index where `first_between` searched last. No contract rests on it: rows are compared first.
    near: usize,
}

// Puts a sequence at the end of the list, if there is one.
fn push_some(list: &mut Vec<u64>, seq: Option<u64>) -> Result<(), AllocError>
    ensures { OnOk result (list.new.items ≡ list.old.items ++ cons_option seq []) }
{
    if let Some(seq) = seq {
        list.push(seq)?;
    }
    Ok(())
}

// Finds the sequences of the current rows of the documents with these ids, in the order of the ids. The
// cost is a search for each id.
fn gather(list: &mut Vec<u64>, contents: &Contents, ids: &[String]) -> Result<(), AllocError>
    ensures { OnOk result (list.new.items
        ≡ filter_map (seq_of_row contents.now.journal) (map string_bytes ids.now)) }
{
    list.clear();
    for id in ids {
        push_some(list, contents.next_of(id.as_str(), 0, None))?;
    }
    Ok(())
}

// Whether each sequence is above the one before it. It costs a look at each, up to the first that is not.
fn is_rising(list: &[u64]) -> bool
    ensures { IsTrue result → AllPairs (λ m n. m < n) list.now }
{
    let mut at = 1;
    while at < list.len() {
        if list[at - 1] >= list[at] {
            return false;
        }
        at += 1;
    }
    true
}

// Sorts sequences, and leaves each once. It takes no memory. Ids are mostly listed in the order of their
// documents' edits: then it costs a look at each sequence.
fn arrange(list: &mut Vec<u64>)
    ensures rises { AllPairs (λ m n. m < n) list.new.items }
    ensures keeps { (n : ℕ) → Contains list.old.items n → Contains list.new.items n }
    ensures adds_none { (n : ℕ) → Contains list.new.items n → Contains list.old.items n }
{
    if is_rising(list.as_slice()) {
        return;
    }
    list.sort_unstable();
    list.dedup();
}

// Whether a list has fewer than twice as many ids as edits lie above a place: a find of an id costs less than half
// of a search of the list for an edit.
fn is_short(ids: &[String], place: u64, length: u64) -> bool {
    place.saturating_add(ids.len() as u64 / 2) < length
}

impl Listing {
    /// A listing that keeps no rows. It takes no memory yet.
    pub(crate) fn new(alloc: Global) -> Listing
        ensures { result.feed ≡ None }
    {
        Listing {
            asked: None,
            feed: None,
            rows: Vec::new(alloc),
            near: 0,
        }
    }

    /// Keeps no rows any more, as a write is to change them. The list keeps its memory. Constant time.
    pub(crate) fn forget(&mut self)
        ensures { self.new.feed ≡ None }
    {
        self.asked = None;
        self.feed = None;
    }

    // Finds the rows of the feed of this number, which lists these ids.
    fn list(&mut self, number: u64, contents: &Contents, ids: &[String]) -> Result<(), AllocError>
        ensures ok { OnOk result ((self.new.feed ≡ Some number)
            × (self.new.rows.items ≡ passing_sequences (DocIds (map string_bytes ids.now)) contents.now.journal)) }
        ensures err { OnErr result (self.new.feed ≡ None) }
    {
        self.feed = None;
        gather(&mut self.rows, contents, ids)?;
        arrange(&mut self.rows);
        self.feed = Some(number);
        Ok(())
    }

    /// Whether the rows of the feed of this number, which lists these ids, are kept. They are found where the
    /// list is short for the feed's place (`is_short`), and the feed asks twice with no write and no other such feed
    /// between: else feeds that ask by turns would find theirs for one step alone. To find them costs a search for
    /// each id, and a sort of the rows. Out of memory they are not kept. Once they are kept, the time is constant.
    pub(crate) fn holds(
        &mut self,
        number: u64,
        contents: &Contents,
        ids: &[String],
        place: u64,
    ) -> bool
        requires kept { self.old.feed ≡ Some number
            → self.old.rows.items ≡ passing_sequences (DocIds (map string_bytes ids.now)) contents.now.journal }
        ensures held { IsTrue result
            → self.new.rows.items ≡ passing_sequences (DocIds (map string_bytes ids.now)) contents.now.journal }
        ensures new { KeepsOrLists number (DocIds (map string_bytes ids.now)) contents.now.journal
            self.old self.new }
    {
        if self.feed == Some(number) {
            self.asked = None;
            return true;
        }
        self.asked.replace(number) == Some(number)
            && is_short(ids, place, contents.length())
            && self.list(number, contents, ids).is_ok()
    }

    // Whether no row before this index is above a place, and each from it on is. Constant time: the two rows
    // at the index are compared.
    fn is_parted_at(&self, at: usize, place: u64) -> bool
        requires { AllPairs (λ m n. m < n) self.now.rows.items }
        ensures { IsTrue result → IsPartedAt place self.now.rows.items at }
    {
        at <= self.rows.len()
            && (at == 0 || self.rows[at - 1] <= place)
            && (at == self.rows.len() || place < self.rows[at])
    }

    // The index of the first row above a place, or the number of rows. The index of the last search and the
    // one behind it are looked at first. Else the cost is a binary search.
    fn place_above(&self, place: u64) -> usize
        requires { AllPairs (λ m n. m < n) self.now.rows.items }
        ensures { IsPartedAt place self.now.rows.items result }
    {
        let guess = match self.rows.get(self.near) {
            Some(seq) if *seq <= place => self.near + 1,
            _ => self.near,
        };
        if self.is_parted_at(guess, place) {
            return guess;
        }
        self.rows.partition_point(|seq| *seq <= place)
    }

    /// The first of the sequences above a place and not above a bound, if there is one. The time is constant
    /// where the place is as before, or that of the row given last. Else the cost is a binary search.
    pub(crate) fn first_between(&mut self, place: u64, bound: Option<u64>) -> Option<u64>
        requires { AllPairs (λ m n. m < n) self.old.rows.items }
        ensures first { result ≡ find (λ n. nat_lt place n && is_within bound n) self.old.rows.items }
        ensures rows { self.new.rows ≡ self.old.rows }
        ensures feed { self.new.feed ≡ self.old.feed }
    {
        let at = self.place_above(place);
        self.near = at;
        let seq = *self.rows.get(at)?;
        if is_ahead(place, bound, seq) {
            return Some(seq);
        }
        None
    }
}
