//! Rows that move, and the reads of an index.
//!
//! Any one growth of a move may be refused. Then the move answers an error, and the index shows the same as
//! before. The move made again succeeds.

ghost use Rattle.std.specs.Prelude.{◌≡◌, ◌<◌, ◌≤◌, [], IfOk, OnOk};
ghost use Rattle.std.specs.List.{All};
ghost use Rattle.hub_index.specs.Rows.{seq_of, rows_after_move};

use hub_index::{SeqIndex, TreeIndex};
use std::alloc::{AllocError, Global};
use std::fmt::Debug;
use std::process::Abort;
use std::test::Fail;

/// Fails unless the value found is the wanted value. The comparison is proved here, and not in each test.
pub(crate) fn same<T: PartialEq + Debug>(rt: &impl Abort, found: &T, wanted: &T) {
    assert_eq!(rt; *found, *wanted);
}

// The first row of any index, and the last.
fn first_row<I: SeqIndex>(index: &I) -> Option<(u64, u32)> {
    index.next_after(0, None)
}

fn last_row<I: SeqIndex>(index: &I) -> Option<(u64, u32)> {
    index.last_before(u64::MAX)
}

// The first row of an index, its last row, and how many rows it has.
fn shown<I: SeqIndex>(index: &I) -> (Option<(u64, u32)>, Option<(u64, u32)>, u64) {
    (first_row(index), last_row(index), index.count_after(0))
}

// Moves a document, and moves it again where no memory is found and the index shows the same as before.
pub(crate) fn move_again<I: SeqIndex>(
    index: &mut I,
    document: u32,
    old: Option<u64>,
    new: u64,
) -> Result<(), AllocError>
    requires own { seq_of document (I.rows index.old) ≡ old }
    requires positive { 0 < new }
    requires above { All (λ r. r.0 < new) (I.rows index.old) }
    ensures { OnOk result (I.rows index.new ≡ rows_after_move (I.rows index.old) document new) }
{
    let before = shown(index);
    match index.move_to(document, old, new) {
        Err(AllocError) if shown(index) == before => index.move_to(document, old, new),
        made => made,
    }
}

// An empty list of rows with room for so many, asked for again where no memory is found.
pub(crate) fn room_for(alloc: Global, count: usize) -> Result<Vec<(u64, u32)>, AllocError>
    ensures { IfOk result (λ plain. plain.items ≡ []) }
{
    match Vec::with_capacity(alloc, count) {
        Ok(plain) => Ok(plain),
        Err(AllocError) => Vec::with_capacity(alloc, count),
    }
}

// Moves the documents 7, 8 and 9 to the sequences 1, 2 and 3, and then the document 7 to 4.
pub(crate) fn four_moves<I: SeqIndex>(index: &mut I) -> Result<(), AllocError>
    requires { I.rows index.old ≡ [] }
{
    move_again(index, 7, None, 1)?;
    move_again(index, 8, None, 2)?;
    move_again(index, 9, None, 3)?;
    move_again(index, 7, Some(1), 4)?;
    Ok(())
}

// The first row after a place, the last row before it, and how many rows are after it.
pub(crate) fn around<I: SeqIndex>(index: &I, place: u64) -> Around {
    (
        index.next_after(place, None),
        index.last_before(place),
        index.count_after(place),
    )
}

/// The rows around a place.
pub(crate) type Around = (Option<(u64, u32)>, Option<(u64, u32)>, u64);

#[test]
fn rows_come_in_order(rt: HostRuntime) -> Result<(), Fail> {
    let mut index = TreeIndex::new(rt.alloc());
    same(&rt, &around(&index, 0), &(None, None, 0));
    same(&rt, &around(&index, 9), &(None, None, 0));
    same(&rt, &index.next_after(0, Some(9)), &None);
    four_moves(&mut index)?;
    for (place, next, last, count) in [
        (0u64, Some((2u64, 8u32)), None, 3u64),
        (1, Some((2, 8)), None, 3),
        (2, Some((3, 9)), None, 2),
        (3, Some((4, 7)), Some((2u64, 8u32)), 1),
        (4, None, Some((3, 9)), 0),
        (5, None, Some((4, 7)), 0),
        (u64::MAX, None, Some((4, 7)), 0),
    ] {
        same(&rt, &around(&index, place), &(next, last, count));
    }
    Ok(())
}

#[test]
fn bounds_end_the_rows(rt: HostRuntime) -> Result<(), Fail> {
    let mut index = TreeIndex::new(rt.alloc());
    four_moves(&mut index)?;
    for (place, bound, wanted) in [
        (2u64, 3u64, Some((3u64, 9u32))),
        (2, 2, None),
        (2, 1, None),
        (2, 0, None),
        (2, 4, Some((3, 9))),
        (3, 4, Some((4, 7))),
        (3, 3, None),
        (3, u64::MAX, Some((4, 7))),
        (4, u64::MAX, None),
        (0, 1, None),
        (0, 2, Some((2, 8))),
    ] {
        same(&rt, &index.next_after(place, Some(bound)), &wanted);
    }
    Ok(())
}

// The sequence of a document in a plain list of rows.
pub(crate) fn seq_in(plain: &[(u64, u32)], document: u32) -> Option<u64>
    ensures { result ≡ seq_of document plain.now }
{
    plain.iter().find(|row| row.1 == document).map(|row| row.0)
}

// Moves a document in a plain list of rows.
fn move_in(plain: &mut Vec<(u64, u32)>, document: u32, new: u64) -> Result<(), AllocError>
    ensures { OnOk result (plain.new.items ≡ rows_after_move plain.old.items document new) }
{
    plain.retain(|row| row.1 != document);
    plain.push((new, document))?;
    Ok(())
}

// Moves a document in an index, and in a plain list of the same rows.
pub(crate) fn move_both<I: SeqIndex>(
    index: &mut I,
    plain: &mut Vec<(u64, u32)>,
    document: u32,
    new: u64,
) -> Result<(), AllocError>
    requires same { I.rows index.old ≡ plain.old.items }
    requires positive { 0 < new }
    requires above { All (λ r. r.0 < new) plain.old.items }
    ensures same { OnOk result (I.rows index.new ≡ plain.new.items) }
    ensures moved { OnOk result (plain.new.items ≡ rows_after_move plain.old.items document new) }
    ensures upto { OnOk result (All (λ r. r.0 ≤ new) plain.new.items) }
{
    let old = seq_in(plain.as_slice(), document);
    move_again(index, document, old, new)?;
    move_in(plain, document, new)?;
    Ok(())
}

// Whether an index answers at a place as a plain list does. The sequences of the list rise.
fn answers_as<I: SeqIndex>(index: &I, plain: &[(u64, u32)], place: u64, bound: u64) -> bool {
    let mut first = None;
    let mut within = None;
    let mut above = 0u64;
    for row in plain {
        if row.0 > place {
            if above == 0 {
                first = Some(*row);
                within = if row.0 <= bound { Some(*row) } else { None };
            }
            above = above.saturating_add(1);
        }
    }
    index.count_after(place) == above
        && index.next_after(place, None) == first
        && index.next_after(place, Some(bound)) == within
}

#[test]
fn random_moves_agree_with_a_list(rt: HostRuntime) -> Result<(), Fail> {
    let alloc = rt.alloc();
    let mut index = TreeIndex::new(alloc);
    let mut plain = room_for(alloc, 97)?;
    let mut random = 20_260_101u64;
    for new in 1u64..2001 {
        random = random
            .wrapping_mul(6_364_136_223_846_793_005)
            .wrapping_add(1_442_695_040_888_963_407);
        let document = (random / 65_536 % 97) as u32;
        move_both(&mut index, &mut plain, document, new)?;
        for place in [0, random / 65_536 % (new + 1), new - 1, new] {
            let bound = random / 1_048_576 % (new + 2);
            assert!(rt;
                answers_as(&index, plain.as_slice(), place, bound),
                "after {place}, up to {bound}"
            );
        }
    }
    same(&rt, &index.count_after(0), &97);
    Ok(())
}
