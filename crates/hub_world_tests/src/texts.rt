//! Replies as texts.

use hub_database::Batch;
use hub_document::{ChangeRow, RevId};
use hub_model::{Item, Outcome};
use hub_world::Reply;
use std::alloc::AllocError;
use std::collections::VecDeque;
use std::fmt::Write;
use std::str;

// A revision after a blank.
fn put_rev(out: &mut String, rev: &RevId) -> Result<(), AllocError> {
    let hash = str::from_utf8(rev.hash()).unwrap_or("?");
    write!(out, " {}-{hash}", rev.generation())
}

// A row: its sequence, its id, its revisions, and whether it is deleted and has its document.
fn put_row(out: &mut String, row: &ChangeRow) -> Result<(), AllocError> {
    write!(out, "row {} {}", row.seq, row.id.as_str())?;
    for at in 0..row.changes.len() {
        if let Some(rev) = row.changes.get(at) {
            put_rev(out, &rev)?;
        }
    }
    if row.deleted {
        out.push_str(" deleted")?;
    }
    if row.doc.is_some() {
        out.push_str(" with its document")?;
    }
    Ok(())
}

fn put_item(out: &mut String, item: &Item<ChangeRow>) -> Result<(), AllocError> {
    match item {
        Item::Row(row) => put_row(out, row),
        Item::Beat => out.push_str("beat"),
        Item::End { last_seq, pending } => write!(out, "end {last_seq} pending {pending}"),
    }
}

/// The outcomes of a batch, each after a blank.
pub(crate) fn put_outcomes(out: &mut String, batch: &Batch) -> Result<(), AllocError> {
    for outcome in batch.replies.as_slice() {
        match outcome {
            Outcome::Stored(rev) => put_rev(out, rev)?,
            other => write!(out, " {other:?}")?,
        }
    }
    Ok(())
}

// The word for the kind of a reply.
fn word_of(reply: &Reply) -> &'static str {
    match reply {
        Reply::Outcomes(_) => "wrote",
        Reply::Opened(_) => "opened",
        Reply::TooManyFeeds => "too many feeds",
        Reply::DatabaseDeleted => "database deleted",
        Reply::Pushed(_) => "pushed",
        Reply::Full => "full",
        Reply::Nothing => "nothing",
        Reply::Gone => "gone",
        Reply::Took(None) => "took none",
        Reply::Took(Some(_)) => "took ",
        Reply::Left(_) => "left",
    }
}

// How many items are left, and then the items, each after a comma.
fn put_left(out: &mut String, items: &VecDeque<Item<ChangeRow>>) -> Result<(), AllocError> {
    write!(out, " {}", items.len())?;
    for item in items {
        out.push_str(", ")?;
        put_item(out, item)?;
    }
    Ok(())
}

/// The text of a reply.
pub(crate) fn put_reply(out: &mut String, reply: &Reply) -> Result<(), AllocError> {
    out.push_str(word_of(reply))?;
    match reply {
        Reply::Outcomes(batch) => put_outcomes(out, batch),
        Reply::Opened(feed) => write!(out, " {}", feed.number),
        Reply::Took(Some(item)) => put_item(out, item),
        Reply::Left(items) => put_left(out, items.as_deque()),
        _ => Ok(()),
    }
}

/// The texts of replies, a line each.
pub(crate) fn put_replies(out: &mut String, replies: &[Reply]) -> Result<(), AllocError> {
    for reply in replies {
        put_reply(out, reply)?;
        out.push('\n')?;
    }
    Ok(())
}
