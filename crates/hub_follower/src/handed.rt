//! Whether items are an answer to a follower that asks for changes.

ghost use Rattle.std.specs.Prelude.{◌≡◌, ◌≤◌, ◌<◌, ◌&&◌, ◌↔◌, ℕ, List, [], length, nat_le};
ghost use Rattle.std.specs.Prelude.{nat_lt, None, IfOk, IfSome, OnErr, IsTrue};
ghost use Rattle.std.specs.List.{list_all, list_any};
ghost use Rattle.hub_model.specs.RightlyHanded.{rows_of};
ghost use Rattle.hub_model.specs.Row.{ChangeRow as Row};
ghost use Rattle.hub_follow_model.specs.ChangesFeed.{IsChangesAnswer};
ghost use Rattle.hub_follower.specs.Handed.{are_listed, are_rising, end_of, has_sequence, HasDecided};
ghost use Rattle.hub_follower.specs.Handed.{is_shown, numbered_end, IsNumbered};
ghost use Rattle.hub_follower.specs.Rebuilt.{IsJudged, IsRebuilt};
ghost use Rattle.hub_follower.specs.Worlds.{IsAnswerOf};

use crate::call::Answer;
use crate::peer::Changes;
use crate::rebuilt::{no_edits, rebuild, rows_above};
use crate::same_row::has_row;
use hub_database::DbState;
use hub_document::ChangeRow;
use hub_feed::FeedHost;
use hub_model::Item;
use std::alloc::{AllocError, Global};

// The number of items of 100 rows and their end.
const ITEMS: usize = 101;

// The sequence that the end names, where the items are rows and then one end.
fn end_of(items: &[Item<ChangeRow>]) -> Option<u64>
    ensures { result ≡ end_of items.now }
{
    for (at, item) in items.iter().enumerate() {
        match item {
            Item::Row(_row) => {}
            Item::Beat => return None,
            Item::End { last_seq, .. } => {
                if at + 1 == items.len() {
                    return Some(*last_seq);
                }
                return None;
            }
        }
    }
    None
}

// Whether the rows rise from `since` to `last`, each made no earlier than those before it.
fn are_rising(items: &[Item<ChangeRow>], since: u64, last: u64) -> bool
    ensures { result ≡ are_rising last since 0 (rows_of items.now) }
{
    let mut seq = since;
    let mut seen = 0;
    for item in items {
        let Item::Row(row) = item else {
            continue;
        };
        if seq >= row.seq || row.seq > last || seen > row.seen {
            return false;
        }
        seq = row.seq;
        seen = row.seen;
    }
    true
}

// The sequence that the end names, where the items have the shape of an answer of a database with so many
// edits, and their numbers rise.
fn numbered_end(items: &[Item<ChangeRow>], since: u64, edits: u64) -> Option<u64>
    ensures { result ≡ numbered_end edits since items.now }
{
    let last = end_of(items)?;
    if items.len() <= ITEMS && since <= last && last <= edits && are_rising(items, since, last) {
        return Some(last);
    }
    None
}

// Whether each row was current when it was made. The copy is rebuilt to each of these moments.
fn are_shown(
    alloc: Global,
    db: &DbState,
    copy: &mut DbState,
    items: &[Item<ChangeRow>],
) -> Result<bool, AllocError>
    requires { IsRebuilt db.now.journal copy.old }
    ensures { IsJudged db.now.journal (list_all (is_shown db.now.journal) (rows_of items.now))
        result copy.new }
{
    for item in items {
        let Item::Row(row) = item else {
            continue;
        };
        rebuild(alloc, db, copy, row.seen.min(db.update_seq()))?;
        let rows = rows_above(copy, 0)?;
        if !has_row(rows.as_slice(), row) {
            return Ok(false);
        }
    }
    Ok(true)
}

// Whether a row has this sequence.
fn has_sequence(items: &[Item<ChangeRow>], seq: u64) -> bool
    ensures { result ≡ has_sequence (rows_of items.now) seq }
{
    for item in items {
        let Item::Row(row) = item else {
            continue;
        };
        if row.seq == seq {
            return true;
        }
    }
    false
}

// Whether each of these rows that is not above `last` has its sequence among the items' rows.
fn are_listed(rows: &[ChangeRow], last: u64, items: &[Item<ChangeRow>]) -> bool
    ensures { result ≡ are_listed last (rows_of items.now) rows.now }
{
    for row in rows {
        if row.seq <= last && !has_sequence(items, row.seq) {
            return false;
        }
    }
    true
}

// The sequence at which these items end, where they are an answer to a follower that asks for the changes
// above `since`.
fn answer_end(
    alloc: Global,
    db: &DbState,
    since: u64,
    items: &[Item<ChangeRow>],
) -> Result<Option<u64>, AllocError>
    ensures { HasDecided db.now.journal since items.now result }
{
    let last = match numbered_end(items, since, db.update_seq()) {
        Some(last) => last,
        None => return Ok(None),
    };
    let mut copy = no_edits(alloc);
    if !are_shown(alloc, db, &mut copy, items)? {
        return Ok(None);
    }
    rebuild(alloc, db, &mut copy, db.update_seq())?;
    let rows = rows_above(&copy, since)?;
    if are_listed(rows.as_slice(), last, items) {
        return Ok(Some(last));
    }
    Ok(None)
}

/// Whether these items are an answer to a follower that asks for the changes above `since`. An answer has all
/// items that a normal feed of every leaf, with a limit of 100, may have handed by now, its end included. The
/// number of pending rows is not looked at. Of a deleted database the journal that it had decides. The cost
/// is the storing of each edit in a copy, and for each row a list of all current rows. The function is meant
/// for tests and for `FollowWorld`, not for serving.
pub fn rightly_handed(
    alloc: Global,
    db: &DbState,
    since: u64,
    items: &[Item<ChangeRow>],
) -> Result<bool, AllocError>
    ensures ok { IfOk result (λ right. IsTrue right
        ↔ ((rows : List Row) × (last : ℕ) × IsChangesAnswer db.now.journal since items.now rows last)) }
    ensures memory { OnErr result ((0 < length db.now.journal)
        × IsNumbered (length db.now.journal) since items.now) }
{
    let end = answer_end(alloc, db, since, items)?;
    Ok(end.is_some())
}

// The rows among these items.
fn rows_of(alloc: Global, items: Vec<Item<ChangeRow>>) -> Result<Vec<ChangeRow>, AllocError>
    ensures { IfOk result (λ rows. rows.items ≡ rows_of items.items) }
{
    let mut rows = Vec::new(alloc);
    for item in items {
        match item {
            Item::Row(row) => rows.push(row)?,
            Item::Beat => {}
            Item::End { .. } => {}
        }
    }
    Ok(rows)
}

/// These items as the answer to a call for the changes above `since`; None where the database may not answer
/// so. The cost is that of `rightly_handed`.
pub(crate) fn changes_in(
    alloc: Global,
    db: &DbState,
    since: u64,
    items: Vec<Item<ChangeRow>>,
) -> Result<Option<Answer>, AllocError>
    ensures right { IfOk result (λ found. IfSome found
        (IsAnswerOf db.now.journal db.now.life since items.items)) }
    ensures wrong { IfOk result (λ found. found ≡ None → (rows : List Row) (last : ℕ)
        → ¬ IsChangesAnswer db.now.journal since items.items rows last) }
{
    let last_seq = match answer_end(alloc, db, since, items.as_slice())? {
        Some(last_seq) => last_seq,
        None => return Ok(None),
    };
    let rows = rows_of(alloc, items)?;
    let life = db.life();
    Ok(Some(Answer::Changes(Changes {
        rows,
        last_seq,
        life,
    })))
}
