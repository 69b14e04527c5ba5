//! Rows in pages: reads at the borders of pages, and which pages are kept.

ghost use Rattle.std.specs.Prelude.{◌≡◌, ◌+◌, ◌^◌, ◌<◌, ◌≤◌, ◌∷◌, [], IfOk, OnOk};
ghost use Rattle.std.specs.List.{All};

use crate::tests::{around, four_moves, move_again, move_both, room_for, same, seq_in};
use hub_index::{PageIndex, SeqIndex, TreeIndex};
use std::alloc::{AllocError, Global};
use std::test::Fail;

// Documents 1 to 4 around the borders of page 1.
fn border_rows(alloc: Global) -> Result<PageIndex, AllocError>
    ensures { IfOk result (λ index. index ≡ (256, 1) ∷ (257, 2) ∷ (512, 3) ∷ (513, 4) ∷ []) }
{
    let mut index = PageIndex::new(alloc);
    move_again(&mut index, 1, None, 256)?;
    move_again(&mut index, 2, None, 257)?;
    move_again(&mut index, 3, None, 512)?;
    move_again(&mut index, 4, None, 513)?;
    Ok(index)
}

#[test]
fn rows_are_read_across_borders(rt: HostRuntime) -> Result<(), Fail> {
    let index = border_rows(rt.alloc())?;
    for (place, next, last, count) in [
        (0u64, Some((256u64, 1u32)), None, 4u64),
        (255, Some((256, 1)), None, 4),
        (256, Some((257, 2)), None, 3),
        (257, Some((512, 3)), Some((256u64, 1u32)), 2),
        (258, Some((512, 3)), Some((257, 2)), 2),
        (511, Some((512, 3)), Some((257, 2)), 2),
        (512, Some((513, 4)), Some((257, 2)), 1),
        (513, None, Some((512, 3)), 0),
        (514, None, Some((513, 4)), 0),
        (u64::MAX, None, Some((513, 4)), 0),
    ] {
        same(&rt, &around(&index, place), &(next, last, count));
    }
    Ok(())
}

#[test]
fn bounds_end_rows_within_a_page(rt: HostRuntime) -> Result<(), Fail> {
    let index = border_rows(rt.alloc())?;
    for (place, bound, wanted) in [
        (0u64, 255u64, None),
        (0, 256, Some((256u64, 1u32))),
        (256, 256, None),
        (256, 257, Some((257, 2))),
        (257, 300, None),
        (257, 511, None),
        (257, 512, Some((512, 3))),
        (512, 512, None),
        (513, u64::MAX, None),
    ] {
        same(&rt, &index.next_after(place, Some(bound)), &wanted);
    }
    Ok(())
}

// Removes the row at a sequence. Answers how many pages and rows are left.
fn left_without(index: &mut PageIndex, seq: u64) -> (u64, u64)
    requires { 0 < seq }
{
    index.remove(seq);
    (index.pages(), index.count_after(0))
}

#[test]
fn rows_are_removed_with_their_pages(rt: HostRuntime) -> Result<(), Fail> {
    let mut index = border_rows(rt.alloc())?;
    same(&rt, &left_without(&mut index, 300), &(3, 4));
    same(&rt, &left_without(&mut index, 256), &(2, 3));
    same(&rt, &left_without(&mut index, 257), &(2, 2));
    same(&rt, &left_without(&mut index, 512), &(1, 1));
    same(&rt, &index.next_after(0, None), &Some((513, 4)));
    Ok(())
}

// How many pages there are, and the first row.
fn front(index: &PageIndex) -> (u64, Option<(u64, u32)>) {
    (index.pages(), index.next_after(0, None))
}

#[test]
fn a_page_goes_with_its_last_row(rt: HostRuntime) -> Result<(), Fail> {
    let mut index = border_rows(rt.alloc())?;
    same(&rt, &index.pages(), &3);
    move_again(&mut index, 1, Some(256), 514)?;
    same(&rt, &front(&index), &(2, Some((257, 2))));
    move_again(&mut index, 2, Some(257), 515)?;
    move_again(&mut index, 3, Some(512), 516)?;
    same(&rt, &front(&index), &(1, Some((513, 4))));
    Ok(())
}

// Moves the one row of an index.
fn move_one(index: &mut PageIndex, old: u64, new: u64) -> Result<(), AllocError>
    requires one { index.old ≡ (old, 7) ∷ [] }
    requires above { old < new }
    ensures { OnOk result (index.new ≡ (new, 7) ∷ []) }
{
    move_again(index, 7, Some(old), new)
}

#[test]
fn an_index_may_have_one_row(rt: HostRuntime) -> Result<(), Fail> {
    let mut index = PageIndex::new(rt.alloc());
    same(&rt, &index.pages(), &0);
    move_again(&mut index, 7, None, 256)?;
    move_one(&mut index, 256, 257)?;
    same(&rt, &index.last_before(257), &None);
    move_one(&mut index, 257, 258)?;
    same(&rt, &index.pages(), &1);
    let last = u64::MAX;
    move_one(&mut index, 258, last)?;
    same(&rt, &index.pages(), &1);
    same(&rt, &around(&index, last - 1), &(Some((last, 7)), None, 1));
    same(&rt, &around(&index, last), &(None, None, 0));
    Ok(())
}

// Moves the documents 1 to `count` above all rows, in their order: document 1 goes to `from` + 1.
fn move_in_order(
    index: &mut PageIndex,
    plain: &mut Vec<(u64, u32)>,
    from: u64,
    count: u32,
) -> Result<(), AllocError>
    requires same { index.old ≡ plain.old.items }
    requires below { All (λ r. r.0 ≤ from) plain.old.items }
    requires small { from < 2 ^ 32 }
    ensures same { OnOk result (index.new ≡ plain.new.items) }
    ensures below { OnOk result (All (λ r. r.0 ≤ from + count) plain.new.items) }
{
    for at in 0..count {
        move_both(index, plain, at + 1, from + at as u64 + 1)?;
    }
    Ok(())
}

#[test]
fn pages_without_a_row_are_given_back(rt: HostRuntime) -> Result<(), Fail> {
    let alloc = rt.alloc();
    let mut index = PageIndex::new(alloc);
    let mut plain = room_for(alloc, 600)?;
    move_in_order(&mut index, &mut plain, 0, 600)?;
    same(&rt, &index.pages(), &3);
    move_in_order(&mut index, &mut plain, 600, 256)?;
    same(&rt, &front(&index), &(3, Some((257, 257))));
    let found = (index.count_after(300), index.next_after(0, Some(256)));
    same(&rt, &found, &(556, None));
    Ok(())
}

// Whether two indexes give the same answers at a place.
fn agree(tree: &TreeIndex, pages: &PageIndex, place: u64, bound: u64) -> bool {
    tree.next_after(place, None) == pages.next_after(place, None)
        && tree.next_after(place, Some(bound)) == pages.next_after(place, Some(bound))
        && tree.last_before(place) == pages.last_before(place)
        && tree.count_after(place) == pages.count_after(place)
}

// Moves a document in both indexes, and in a plain list of their rows.
fn move_in_both(
    tree: &mut TreeIndex,
    pages: &mut PageIndex,
    plain: &mut Vec<(u64, u32)>,
    document: u32,
    new: u64,
) -> Result<(), AllocError>
    requires tree { tree.old ≡ plain.old.items }
    requires pages { pages.old ≡ plain.old.items }
    requires positive { 0 < new }
    requires above { All (λ r. r.0 < new) plain.old.items }
    ensures tree { OnOk result (tree.new ≡ plain.new.items) }
    ensures pages { OnOk result (pages.new ≡ plain.new.items) }
    ensures upto { OnOk result (All (λ r. r.0 ≤ new) plain.new.items) }
{
    let old = seq_in(plain.as_slice(), document);
    move_again(pages, document, old, new)?;
    move_both(tree, plain, document, new)?;
    Ok(())
}

#[test]
fn rows_of_a_page_agree_with_a_tree(rt: HostRuntime) -> Result<(), Fail> {
    let mut tree = TreeIndex::new(rt.alloc());
    let mut pages = PageIndex::new(rt.alloc());
    four_moves(&mut tree)?;
    four_moves(&mut pages)?;
    for place in [0, 1, 2, 3, 4, u64::MAX] {
        for bound in [0, 1, 2, 3, 4, u64::MAX] {
            assert!(rt;
                agree(&tree, &pages, place, bound),
                "after {place}, up to {bound}"
            );
        }
    }
    Ok(())
}

#[test]
fn random_moves_agree_with_a_tree(rt: HostRuntime) -> Result<(), Fail> {
    let alloc = rt.alloc();
    let mut tree = TreeIndex::new(alloc);
    let mut pages = PageIndex::new(alloc);
    let mut plain = room_for(alloc, 97)?;
    let mut random = 20_261_124u64;
    for step in 1u64..2001 {
        random = random
            .wrapping_mul(6_364_136_223_846_793_005)
            .wrapping_add(1_442_695_040_888_963_407);
        let document = (random / 65_536 % 97) as u32;
        let new = 20 * step + random / 16_777_216 % 20;
        move_in_both(&mut tree, &mut pages, &mut plain, document, new)?;
        for place in [0, random / 65_536 % (new + 1), new - 1, new] {
            let bound = random / 1_048_576 % (new + 2);
            assert!(rt;
                agree(&tree, &pages, place, bound),
                "after {place}, up to {bound}"
            );
        }
    }
    same(&rt, &pages.count_after(0), &97);
    Ok(())
}
