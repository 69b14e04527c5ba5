//! The texts of answers.

use hub_document::{Body, ChangeRow, Changes, RevId};
use hub_model::Item;
use std::alloc::AllocError;
use std::fmt::{Debug, Write};
use std::str;

/// Writes why a call refuses.
pub(super) fn put_refusal(out: &mut String, fault: &impl Debug) -> Result<(), AllocError> {
    writeln!(out, "refused {fault:?}")
}

/// Writes a revision after a blank.
pub(super) fn put_rev(out: &mut String, rev: &RevId) -> Result<(), AllocError> {
    let hash = str::from_utf8(rev.hash()).unwrap_or("no text");
    write!(out, " {}-{hash}", rev.generation())
}

// Writes the revisions that a row lists.
fn put_changes(out: &mut String, changes: &Changes) -> Result<(), AllocError> {
    for at in 0..changes.len() {
        if let Some(rev) = changes.get(at) {
            put_rev(out, &rev)?;
        }
    }
    Ok(())
}

// Writes members after a blank.
fn put_members(out: &mut String, body: &Body) -> Result<(), AllocError> {
    out.push_str(" ")?;
    out.push_str(str::from_utf8(body.as_bytes()).unwrap_or("no text"))
}

// Writes a row.
fn put_row(out: &mut String, row: &ChangeRow) -> Result<(), AllocError> {
    write!(out, " {}/{} {}", row.seq, row.seen, row.id.as_str())?;
    put_changes(out, &row.changes)?;
    out.push_str(if row.deleted { " deleted" } else { "" })?;
    if let Some(body) = &row.doc {
        put_members(out, body)?;
    }
    out.push('\n')
}

/// Writes the contents of an item. The item's word stands before them.
pub(super) fn put_item(out: &mut String, item: &Item<ChangeRow>) -> Result<(), AllocError> {
    match item {
        Item::Row(row) => put_row(out, row),
        Item::End { last_seq, pending } => writeln!(out, " {last_seq}, {pending} pending"),
        Item::Beat => out.push_str(" beat\n"),
    }
}
