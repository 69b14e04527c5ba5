//! The answers of a database about itself.

use crate::session::Session;
use crate::session::items::put_rev;
use hub_document::Doc;
use hub_feed::FeedHost;
use std::alloc::{AllocError, Global};
use std::fmt::Write;
use std::str;

// Writes a document on a line of its own.
fn put_doc(alloc: Global, doc: &Doc, out: &mut String) -> Result<(), AllocError> {
    let mut bytes = Vec::new(alloc);
    doc.write(&mut bytes)?;
    writeln!(
        out,
        "\n{}",
        str::from_utf8(bytes.as_slice()).unwrap_or("no text")
    )
}

impl Session {
    // Tells the number of edits, the length as a host of feeds, the life, and whether it is deleted.
    pub(super) fn tell(&self, out: &mut String) -> Result<(), AllocError> {
        let (seq, life) = (self.state.update_seq(), self.state.life());
        let length = FeedHost::length(&self.state);
        let word = if self.state.is_deleted() {
            "deleted"
        } else {
            "stands"
        };
        writeln!(out, "seq {seq}, length {length}, life {life}, {word}")
    }

    // Names an edit, and shows it.
    pub(super) fn entry(&self, seq: u64, out: &mut String) -> Result<(), AllocError> {
        self.put_name(seq, out)?;
        match &self.state.entry_doc(seq)? {
            Some(doc) => put_doc(self.alloc, doc, out),
            None => out.push_str("\nnone\n"),
        }
    }

    // Writes the id and the revision of an edit.
    fn put_name(&self, seq: u64, out: &mut String) -> Result<(), AllocError> {
        let Some((id, rev)) = self.state.entry(seq) else {
            return out.push_str("none");
        };
        out.push_str(id)?;
        put_rev(out, &rev)
    }

    // Tells the best leaf of a document, and whether it is deleted.
    pub(super) fn winner(&self, id: &str, out: &mut String) -> Result<(), AllocError> {
        let Some(winner) = self.state.winner(id) else {
            return out.push_str("none\n");
        };
        out.push_str(if winner.deleted { "deleted" } else { "stands" })?;
        put_rev(out, &winner.rev)?;
        out.push('\n')
    }
}
