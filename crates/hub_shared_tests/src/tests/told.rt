//! The texts of rows, items, revisions and the outcomes of writes.

use hub_database::{Answer as DbAnswer, DbFault, Descending, Diff, Lookup, OpenRev, Receipt};
use hub_document::{Body, ChangeRow, Doc, RevId};
use hub_model::{Item, Outcome};
use hub_transcript::Answer;
use std::alloc::{AllocError, Global};
use std::fmt::{self, Debug};
use std::str;

/// A revision as its text.
#[derive(Drop)]
pub(crate) struct Rev(pub(crate) RevId);

impl fmt::Display for Rev {
    fn fmt<W: fmt::Write>(&self, f: &mut fmt::Formatter<W>) -> fmt::Result {
        let generation = self.0.generation();
        let hash = str::from_utf8(self.0.hash()).unwrap_or("?");
        write!(f, "{generation}-{hash}")
    }
}

/// Writes a row: its sequence, its document's id, and its first revision; then its document, if it has one.
pub(crate) fn put_row(
    alloc: Global,
    row: &ChangeRow,
    answer: &mut Answer,
) -> Result<(), AllocError> {
    let Some(rev) = row.changes.get(0) else {
        return answer.line("no revision");
    };
    let rev = Rev(rev);
    answer.line(format_args!("row {} {} {rev}", row.seq, row.id.as_str()))?;
    match &row.doc {
        Some(body) => put_shown(alloc, row, body, answer),
        None => Ok(()),
    }
}

/// Writes a value as its `Debug` shows it.
pub(crate) fn put_debug<D: Debug>(value: &D, answer: &mut Answer) -> Result<(), AllocError> {
    answer.line(format_args!("{value:?}"))
}

// Writes the text of a document.
fn put_text(text: &[u8], answer: &mut Answer) -> Result<(), AllocError> {
    answer.line(str::from_utf8(text).unwrap_or("?"))
}

// Writes a document.
fn put_doc(alloc: Global, doc: &Doc, answer: &mut Answer) -> Result<(), AllocError> {
    let mut text = Vec::new(alloc);
    doc.write(&mut text)?;
    put_text(text.as_slice(), answer)
}

// Writes the document that a row shows.
fn put_shown(
    alloc: Global,
    row: &ChangeRow,
    body: &Body,
    answer: &mut Answer,
) -> Result<(), AllocError> {
    let mut text = Vec::new(alloc);
    row.write_doc(&mut text, body)?;
    put_text(text.as_slice(), answer)
}

/// Writes an item.
pub(crate) fn put_item(
    alloc: Global,
    item: &Option<Item<ChangeRow>>,
    answer: &mut Answer,
) -> Result<(), AllocError> {
    match item {
        Some(Item::Row(row)) => put_row(alloc, row, answer),
        Some(Item::Beat) => answer.line("beat"),
        Some(Item::End { last_seq, pending }) => {
            answer.line(format_args!("end {last_seq} pending {pending}"))
        }
        None => answer.line("none"),
    }
}

// Writes the document of each revision, or the revision where it is missing.
fn put_opened(alloc: Global, opened: &[OpenRev], answer: &mut Answer) -> Result<(), AllocError> {
    for open in opened {
        match open {
            OpenRev::Found(doc) => put_doc(alloc, doc, answer)?,
            OpenRev::Missing(rev) => answer.line(format_args!("missing {}", Rev(*rev)))?,
        }
    }
    Ok(())
}

// Writes the missing revisions of each document, and their possible ancestors.
fn put_diffs(diffs: &[Diff], answer: &mut Answer) -> Result<(), AllocError> {
    for diff in diffs {
        answer.line(diff.id.as_str())?;
        for rev in diff.missing.as_slice() {
            answer.line(format_args!("missing {}", Rev(*rev)))?;
        }
        for rev in diff.possible_ancestors.as_slice() {
            answer.line(format_args!("behind {}", Rev(*rev)))?;
        }
    }
    Ok(())
}

// Writes rows downwards, and then their last sequence, how many are pending, and the life.
fn put_falling(alloc: Global, falling: &Descending, answer: &mut Answer) -> Result<(), AllocError> {
    for row in &falling.rows {
        put_row(alloc, row, answer)?;
    }
    answer.line(format_args!(
        "last {} pending {} life {}",
        falling.last_seq, falling.pending, falling.life
    ))
}

/// Writes the answer to a question: a document as its text, a winner as its revision and its mark. An error
/// out of memory.
pub(crate) fn put_answer(
    alloc: Global,
    told: &Result<DbAnswer, DbFault>,
    answer: &mut Answer,
) -> Result<(), AllocError> {
    match told {
        Ok(DbAnswer::Get(Lookup::Found(doc))) => put_doc(alloc, doc, answer),
        Ok(DbAnswer::Winner(Some(winner))) => {
            let rev = Rev(winner.rev);
            answer.line(format_args!("{rev} deleted {}", winner.deleted))
        }
        Ok(DbAnswer::OpenRevs(opened)) => put_opened(alloc, opened.as_slice(), answer),
        Ok(DbAnswer::RevsDiff(diffs)) => put_diffs(diffs.as_slice(), answer),
        Ok(DbAnswer::Descending(falling)) => put_falling(alloc, falling, answer),
        Err(DbFault::NoMemory) => Err(AllocError),
        other => put_debug(other, answer),
    }
}

/// Writes the outcomes of documents: the revision of a document that was stored, and each other outcome.
pub(crate) fn put_replies(
    replies: &[Outcome<RevId>],
    answer: &mut Answer,
) -> Result<(), AllocError> {
    for reply in replies {
        match reply {
            Outcome::Stored(rev) => answer.line(Rev(*rev))?,
            other => put_debug(other, answer)?,
        }
    }
    Ok(())
}

/// Writes receipts: the sequence, the document's id and the revision of each.
pub(crate) fn put_receipts(receipts: &[Receipt], answer: &mut Answer) -> Result<(), AllocError> {
    for receipt in receipts {
        let rev = Rev(receipt.rev);
        answer.line(format_args!("{} {} {rev}", receipt.seq, receipt.id.as_str()))?;
    }
    Ok(())
}
