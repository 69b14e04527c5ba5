//! Pages of numbers, in the order of the ids that the numbers stand for.

ghost use Rattle.std.specs.Prelude.{◌≡◌, ◌+◌, ◌<◌, ◌≤◌, length, filter, not};
ghost use Rattle.std.specs.Prelude.{true, false, take, drop, slice_get, IsSomeAnd, OnOk, OnErr};
ghost use Rattle.std.specs.Bool.{OnTrue, OnFalse};
ghost use Rattle.std.specs.List.{All, AllWithin, insert};
ghost use Rattle.std.specs.Ordering.{is_gt};
ghost use Rattle.hub_index.specs.Order.{IsNumberPage, IsOrder, PutsAt, begins_up_to, id_cmp};
ghost use Rattle.hub_index.specs.Order.{is_below, numbers_of, place_of};

use crate::id_order::Named;
use std::alloc::{AllocError, Global};

/// The most numbers of a page.
const PAGE_SIZE: usize = 256;

/// The place at which a full page is cut.
const HALF: usize = 128;

/// The count of numbers by which the memory of a page grows.
const STEP: usize = 32;

// Whether the first id of a page is this one or lies below it.
fn begins_up_to<N: Named>(names: &N, numbers: &[u32], id: &str) -> bool
    ensures { result ≡ begins_up_to (N.ids names.now) id.now numbers.now }
{
    match numbers.first() {
        Some(first) => names.id(*first).cmp(id).is_le(),
        None => false,
    }
}

// Whether an id stands or belongs on a page that has a page behind it: the page begins with this id or a
// lower one, and the page behind it above the id. Any number may be asked for. It compares at most two ids.
fn is_page_of<N: Named>(names: &N, pages: &[Vec<u32>], id: &str, page: usize) -> bool
    requires order { IsOrder (N.ids names.now) (numbers_of pages.now) }
    requires pages { All IsNumberPage pages.now }
    ensures within { OnTrue result (page < length pages.now) }
    ensures below { OnTrue result (All (λ n. is_below (N.ids names.now) id.now n ≡ true)
        (numbers_of (take page pages.now))) }
    ensures above { OnTrue result (All (λ n. is_gt (id_cmp (N.ids names.now) id.now n) ≡ true)
        (numbers_of (drop (page + 1) pages.now))) }
{
    if page >= pages.len() || page + 1 >= pages.len() {
        return false;
    }
    if !begins_up_to(names, pages[page].as_slice(), id) {
        return false;
    }
    !begins_up_to(names, pages[page + 1].as_slice(), id)
}

/// The page where an id stands or belongs. It is the last page that begins with this id or a lower one, and
/// the first page where none does. It compares one id where the page is the last one, three where it is the
/// guess, and else logarithmically many. The guess is verified, and may be any number.
pub(crate) fn page_at<N: Named>(names: &N, pages: &[Vec<u32>], id: &str, guess: usize) -> usize
    requires order { IsOrder (N.ids names.now) (numbers_of pages.now) }
    requires pages { All IsNumberPage pages.now }
    ensures within { 0 < length pages.now → result < length pages.now }
    ensures first { length pages.now ≡ 0 → result ≡ 0 }
    ensures below { All (λ n. is_below (N.ids names.now) id.now n ≡ true)
        (numbers_of (take result pages.now)) }
    ensures above { All (λ n. is_gt (id_cmp (N.ids names.now) id.now n) ≡ true)
        (numbers_of (drop (result + 1) pages.now)) }
{
    let end = pages.len();
    if end > 0 && begins_up_to(names, pages[end - 1].as_slice(), id) {
        return end - 1;
    }
    if is_page_of(names, pages, id, guess) {
        return guess;
    }
    pages
        .partition_point(|page| begins_up_to(names, page.as_slice(), id))
        .saturating_sub(1)
}

// Whether an id belongs to a place on a page, or behind it: the ids before the place lie below. It compares
// one id, and none at the first place.
fn belongs_from<N: Named>(names: &N, numbers: &[u32], id: &str, at: usize) -> bool
    requires order { IsOrder (N.ids names.now) numbers.now }
    requires place { at ≤ length numbers.now }
    ensures { OnTrue result
        (AllWithin (λ n. is_below (N.ids names.now) id.now n ≡ true) numbers.now 0 at) }
{
    at == 0 || names.id(numbers[at - 1]).cmp(id).is_lt()
}

// Whether an id belongs to a place on a page, or before it: no id from the place on lies below. Else the id
// at the place lies below, and so do those before it. It compares one id, and none behind all numbers.
fn belongs_up_to<N: Named>(names: &N, numbers: &[u32], id: &str, at: usize) -> bool
    requires order { IsOrder (N.ids names.now) numbers.now }
    ensures yes { OnTrue result
        (AllWithin (λ n. is_below (N.ids names.now) id.now n ≡ false) numbers.now at
        (length numbers.now)) }
    ensures within { OnFalse result (at < length numbers.now) }
    ensures no { OnFalse result
        (AllWithin (λ n. is_below (N.ids names.now) id.now n ≡ true) numbers.now 0 (at + 1)) }
{
    at >= numbers.len() || !names.id(numbers[at]).cmp(id).is_lt()
}

/// The place where the number of an id stands or belongs on a page: behind the numbers whose ids lie below.
/// It compares two ids where the place is the guess, three where it is the next, and else logarithmically
/// many. The guess is verified, and may be any number. On the last page the call compares the highest id
/// first, and no other where that id lies below.
pub(crate) fn place_in<N: Named>(
    names: &N,
    numbers: &[u32],
    id: &str,
    is_last: bool,
    guess: usize,
) -> usize
    requires order { IsOrder (N.ids names.now) numbers.now }
    ensures within { result ≤ length numbers.now }
    ensures before { take result numbers.now ≡ filter (is_below (N.ids names.now) id.now) numbers.now }
    ensures behind { drop result numbers.now
        ≡ filter (λ n. not (is_below (N.ids names.now) id.now n)) numbers.now }
{
    let count = numbers.len();
    if is_last && count > 0 && names.id(numbers[count - 1]).cmp(id).is_lt() {
        return count;
    }
    if guess <= count && belongs_from(names, numbers, id, guess) {
        if belongs_up_to(names, numbers, id, guess) {
            return guess;
        }
        // The id `124` stands between `1239` and `1240`.
        if belongs_up_to(names, numbers, id, guess + 1) {
            return guess + 1;
        }
    }
    numbers.partition_point(|number| names.id(*number).cmp(id).is_lt())
}

/// Adds a page behind all others, with this number alone.
pub(crate) fn push_page(
    pages: &mut Vec<Vec<u32>>,
    alloc: Global,
    number: u32,
) -> Result<(), AllocError>
    ensures { PutsAt result pages.old.items pages.new.items (length (numbers_of pages.old.items)) number }
{
    let mut page = Vec::new(alloc);
    page.try_reserve_exact(STEP)?;
    page.push(number)?;
    pages.push(page)?;
    Ok(())
}

// Keeps the numbers at places below `HALF`, and the memory for these.
fn cut(numbers: &mut Vec<u32>)
    ensures { numbers.new.items ≡ take 128 numbers.old.items }
{
    numbers.truncate(HALF);
    numbers.shrink_to(HALF);
}

// Cuts a full page in two.
fn split(pages: &mut Vec<Vec<u32>>, alloc: Global, page: usize) -> Result<(), AllocError>
    requires { IsSomeAnd (slice_get pages.old.items page) (λ numbers. length numbers.items ≡ 256) }
    ensures numbers { numbers_of pages.new.items ≡ numbers_of pages.old.items }
    ensures pages { All IsNumberPage pages.old.items → All IsNumberPage pages.new.items }
    ensures before { take page pages.new.items ≡ take page pages.old.items }
    ensures lower { OnOk result
        (IsSomeAnd (slice_get pages.new.items page) (λ numbers. length numbers.items ≡ 128)) }
    ensures upper { OnOk result
        (IsSomeAnd (slice_get pages.new.items (page + 1)) (λ numbers. length numbers.items ≡ 128)) }
{
    let upper = Vec::from_slice(alloc, &pages[page][HALF..])?;
    pages.insert(page + 1, upper)?;
    cut(&mut pages[page]);
    Ok(())
}

// Puts a number at a place. The memory grows by a few numbers and is not doubled: a page stays small.
fn insert_at(numbers: &mut Vec<u32>, at: usize, number: u32) -> Result<(), AllocError>
    requires { at ≤ length numbers.old.items }
    ensures ok { OnOk result (numbers.new.items ≡ insert numbers.old.items at number) }
    ensures err { OnErr result (numbers.new.items ≡ numbers.old.items) }
{
    if numbers.len() == numbers.capacity() {
        numbers.try_reserve_exact(STEP)?;
    }
    numbers.insert(at, number)?;
    Ok(())
}

// Puts a number at a place of a page that is not full.
fn put_within(
    pages: &mut Vec<Vec<u32>>,
    page: usize,
    at: usize,
    number: u32,
) -> Result<(), AllocError>
    requires { IsSomeAnd (slice_get pages.old.items page)
        (λ numbers. (at ≤ length numbers.items) × (length numbers.items < 256)) }
    ensures { PutsAt result pages.old.items pages.new.items (place_of pages.old.items page at) number }
{
    insert_at(&mut pages[page], at, number)
}

/// Puts a number at a place of a page. A full page is halved before, but a number that goes behind all others
/// begins a page. The numbers behind the place are moved on the page, and the pages behind a new page.
pub(crate) fn put(
    pages: &mut Vec<Vec<u32>>,
    alloc: Global,
    page: usize,
    at: usize,
    number: u32,
) -> Result<(), AllocError>
    requires place { IsSomeAnd (slice_get pages.old.items page) (λ numbers. at ≤ length numbers.items) }
    requires pages { All IsNumberPage pages.old.items }
    ensures { PutsAt result pages.old.items pages.new.items (place_of pages.old.items page at) number }
{
    let count = pages[page].len();
    if count < PAGE_SIZE {
        return put_within(pages, page, at, number);
    }
    if at == count && page + 1 == pages.len() {
        return push_page(pages, alloc, number);
    }
    split(pages, alloc, page)?;
    if at <= HALF {
        put_within(pages, page, at, number)
    } else {
        put_within(pages, page + 1, at - HALF, number)
    }
}
