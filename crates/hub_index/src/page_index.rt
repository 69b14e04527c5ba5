//! Rows in pages.

ghost use Rattle.std.specs.Prelude.{◌≡◌, ℕ, ◌+◌, ◌*◌, ◌<◌, ◌≤◌, ◌++◌, ◌∷◌, [], length};
ghost use Rattle.std.specs.Prelude.{nat_eq, nat_lt, not, find, filter};
ghost use Rattle.std.specs.Prelude.{slice_get, IfSome, IsSomeAnd, OnOk, OnErr, IfOk};
ghost use Rattle.std.specs.List.{All, AllPairs};
ghost use Rattle.std.specs.List.Sorted.{IsPartitionPoint};
ghost use Rattle.std.specs.Map.{remove_entry};
ghost use Rattle.std.specs.BTreeMap.{is_at};
ghost use Rattle.std.specs.Ordering.{nat_cmp};
ghost use Rattle.hub_index.specs.Pages.{AreLaid, IsPage, rows_of, page_count};

use crate::SeqIndex;
use crate::page::{PAGE_SIZE, Page};
use std::alloc::{AllocError, Global};
use std::marker::Model;

/// Rows in pages of 256 sequences. A contract sees the list of the rows. A page has a slot of eight bytes for
/// each sequence, and is given back once it has no row left. Then the pages behind it move up in one list,
/// where each has some forty bytes. A search for a page takes constant time where no page number from its own
/// to the last is missing. Else its time is logarithmic in the number of pages.
#[derive(Debug)]
pub struct PageIndex {
    alloc: Global,
    /// The pages. Their numbers rise.
    pages: Vec<Page>,
}

impl Drop for PageIndex {
    fn drop(self) {
        let Self { alloc, pages } = self;
    }
}

impl Model for PageIndex {
    ghost use Rattle.std.specs.Prelude.{List, ℕ};
    ghost use Rattle.hub_index.specs.Pages.{ArePages, rows_of};

    ghost Value = { List (ℕ × ℕ) };

    ghost view = { λ a. rows_of a.pages.items };

    ghost invariant = { λ a. ArePages a.pages.items };
}

// The page number of the sequence after this one, and the slot of that sequence there.
fn slot_of(before: u64) -> (u64, usize)
    ensures before { 256 * result.0 + result.1 ≡ before }
    ensures slot { result.1 < 256 }
{
    (before / PAGE_SIZE, (before % PAGE_SIZE) as usize)
}

// The place of the page of this number, where no page number from it to the last is missing.
fn place_from_last(pages: &[Page], number: u64) -> Option<usize>
    ensures { IfSome result (λ at. IsSomeAnd (slice_get pages.now at) (λ page. page.0 ≡ number)) }
{
    let behind = pages.last()?.number().checked_sub(number)?;
    let at = (pages.len() as u64 - 1).checked_sub(behind)? as usize;
    if pages[at].number() == number {
        Some(at)
    } else {
        None
    }
}

// The place where the page of this number stands or belongs: behind the pages of lower numbers. It looks at
// two pages where no page number from this one to the last is missing, and else at logarithmically many.
fn place_of(pages: &[Page], number: u64) -> usize
    requires { AllPairs (λ a b. a.0 < b.0) pages.now }
    ensures parted { IsPartitionPoint (λ page. page.0 < number) (λ page. number ≤ page.0) pages.now result }
    ensures within { result ≤ length pages.now }
{
    match place_from_last(pages, number) {
        Some(at) => at,
        None => pages.partition_point(|page| page.number() < number),
    }
}

// Adds a row above all others.
fn add_row(pages: &mut Vec<Page>, alloc: Global, document: u32, seq: u64) -> Result<(), AllocError>
    requires laid { AreLaid pages.old.items }
    requires positive { 0 < seq }
    requires above { All (λ r. r.0 < seq) (rows_of pages.old.items) }
    ensures ok { OnOk result (rows_of pages.new.items ≡ rows_of pages.old.items ++ (seq, document) ∷ []) }
    ensures pages { OnOk result (All IsPage pages.new.items) }
    ensures rising { OnOk result (AllPairs (λ a b. a.0 < b.0) pages.new.items) }
    ensures err { OnErr result (pages.new.items ≡ pages.old.items) }
{
    let (number, slot) = slot_of(seq - 1);
    let end = pages.len();
    if end > 0 && pages[end - 1].number() == number {
        pages[end - 1].put(slot, Some(document));
        return Ok(());
    }
    let mut page = Page::new(alloc, number)?;
    page.put(slot, Some(document));
    pages.push(page)?;
    Ok(())
}

// Removes the row at a sequence, and its page where it was the page's only row. No row is at the sequence 0.
// A row there is looked for in the last slot of 64 bits, which stays empty.
fn remove_row(pages: &mut Vec<Page>, seq: u64)
    requires pages { All IsPage pages.old.items }
    requires rising { AllPairs (λ a b. a.0 < b.0) pages.old.items }
    ensures rows { rows_of pages.new.items ≡ remove_entry (is_at (nat_cmp seq)) (rows_of pages.old.items) }
    ensures pages { All IsPage pages.new.items }
    ensures rising { AllPairs (λ a b. a.0 < b.0) pages.new.items }
{
    let (number, slot) = slot_of(seq.wrapping_sub(1));
    let at = place_of(pages.as_slice(), number);
    if at == pages.len() || pages[at].number() != number {
        return;
    }
    let page = &mut pages[at];
    page.put(slot, None);
    if page.live() == 0 {
        pages.remove(at);
    }
}

// The first row above a place.
fn row_after(pages: &[Page], place: u64) -> Option<(u64, u32)>
    requires { AreLaid pages.now }
    ensures { result ≡ find (λ r. nat_lt place r.0) (rows_of pages.now) }
{
    for at in place_of(pages, place / PAGE_SIZE)..pages.len() {
        if let Some(row) = pages[at].next_after(place) {
            return Some(row);
        }
    }
    None
}

impl PageIndex {
    /// An index without a row. It takes no memory yet; `move_to` takes it from this allocator.
    pub fn new(alloc: Global) -> PageIndex
        ensures { result ≡ [] }
    {
        PageIndex {
            alloc,
            pages: Vec::new(alloc),
        }
    }

    /// Removes the row at a sequence, if there is one, after a search for its page. It takes no memory, and
    /// gives the page back where the row was its only one.
    pub fn remove(&mut self, seq: u64)
        ensures { self.new ≡ filter (λ r. not (nat_eq r.0 seq)) self.old }
    {
        remove_row(&mut self.pages, seq);
    }

    /// The number of pages: those on which a row lies, and no other. It takes no memory, and constant time.
    pub fn pages(&self) -> u64
        ensures { result ≡ page_count self.now }
    {
        self.pages.as_slice().len() as u64
    }
}

impl SeqIndex for PageIndex {
    ghost rows = { λ rows. rows };

    /// The cost is constant time for the new row, and a search for the page of the old row. A page is taken
    /// where the new row is the first one on its page. A page is given back where the old row was its only
    /// one.
    fn move_to(&mut self, document: u32, old: Option<u64>, new: u64) -> Result<(), AllocError> {
        add_row(&mut self.pages, self.alloc, document, new)?;
        if let Some(old) = old {
            remove_row(&mut self.pages, old);
        }
        Ok(())
    }

    /// The cost is a search for the page of the place, and a look at the slots from the place to the row: at
    /// most those of two pages.
    fn next_after(&self, place: u64, bound: Option<u64>) -> Option<(u64, u32)> {
        let (seq, document) = row_after(self.pages.as_slice(), place)?;
        match bound {
            Some(bound) if bound < seq => None,
            _ => Some((seq, document)),
        }
    }

    /// The cost is that of `next_after`.
    fn last_before(&self, place: u64) -> Option<(u64, u32)> {
        let pages = self.pages.as_slice();
        let mut at = place_of(pages, place / PAGE_SIZE + 1);
        while at > 0 {
            at -= 1;
            if let Some(row) = pages[at].last_before(place) {
                return Some(row);
            }
        }
        None
    }

    /// It goes over the pages above the place, after a search for the first, and looks at the slots of
    /// one page.
    fn count_after(&self, place: u64) -> u64 {
        let pages = self.pages.as_slice();
        let mut count = 0;
        for at in place_of(pages, place / PAGE_SIZE)..pages.len() {
            count += pages[at].count_after(place);
        }
        count
    }
}
