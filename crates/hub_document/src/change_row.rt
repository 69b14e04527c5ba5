//! Rows of changes.

ghost use Rattle.std.specs.Prelude.{◌≡◌, ◌+◌, ◌++◌, ℕ, List, codes, length, take, slice_get, IfOk};
ghost use Rattle.json.specs.Print.{escape};
ghost use Rattle.hub_document.specs.Appends.{Appends};
ghost use Rattle.hub_document.specs.DocText.{IsFirstText, doc_text, rev_member, row_doc};
ghost use Rattle.hub_document.specs.Joined.{after_commas, head_text};

use crate::body::Body;
use crate::changes::{Changes, LentChanges};
use crate::doc_id::DocId;
use crate::text::{put_deleted, put_digest_rev, put_head, put_rev};
use std::alloc::{AllocError, Global};
use std::marker::Model;

/// A row of a feed of changes (CouchDB API reference, `_changes`).
#[derive(Debug)]
pub struct ChangeRow {
    /// The sequence of the document's latest edit.
    pub seq: u64,
    /// The document's id.
    pub id: DocId,
    /// The winner's revision, or the revisions of every leaf, best first.
    pub changes: Changes,
    /// Whether the winner is deleted.
    pub deleted: bool,
    /// The members of the winner's document, where documents are asked for. The document's id, revision and
    /// mark are the row's.
    pub doc: Option<Body>,
    /// How many edits the database had when the row was made: its update sequence.
    pub seen: u64,
}

impl Drop for ChangeRow {
    // Most rows own no memory, so that a call would cost more than the drop.
    #[inline(always)]
    fn drop(self) {
        let Self {
            seq,
            id,
            changes,
            deleted,
            doc,
            seen,
        } = self;
    }
}

impl Model for ChangeRow {
    ghost use Rattle.hub_model.specs.Row.{ChangeRow as Row};

    ghost Value = { Row };

    ghost view = { λ a. record {
      seq = a.seq;
      id = a.id;
      changes = a.changes;
      deleted = a.deleted;
      doc = a.doc;
      seen = a.seen;
    } };
}

// Appends the member `_rev` with the first revision that the row lists, if the row lists any.
fn put_winner(out: &mut Vec<u8>, changes: &Changes) -> Result<(), AllocError>
    ensures { Appends
        (after_commas (rev_member (slice_get changes.now 0))) result out.old.items out.new.items }
{
    match changes.lent() {
        LentChanges::One(rev) => put_digest_rev(out, rev),
        LentChanges::Many(revs) => put_rev(out, &revs.first().copied()),
    }
}

// Writes a text over the end of the bytes.
#[inline(always)]
fn put_over(bytes: &mut [u8], at: usize, text: &[u8; 36])
    requires { at + 36 ≡ length bytes.old }
    ensures bytes { bytes.new ≡ take at bytes.old ++ text.now }
    ensures len { length bytes.new ≡ length bytes.old }
{
    bytes[at..].copy_from_slice(text.as_slice());
}

// Appends the bytes after an id: its closing quote, and the member `_rev` with this JSON string of a revision.
#[inline(always)]
fn put_rev_part(out: &mut Vec<u8>, rev: &[u8; 36]) -> Result<(), AllocError>
    ensures { Appends (codes "\",\"_rev\":" ++ rev.now) result out.old.items out.new.items }
{
    let start = out.len();
    out.extend_from_slice(b"\",\"_rev\":....................................")?;
    put_over(out.as_mut_slice(), start + 9, rev);
    Ok(())
}

// Appends the front, which ends with `{"_id":"`, an id that needs no escape, and `_rev` with this JSON string of
// a revision.
fn put_plain_head(
    out: &mut Vec<u8>,
    front: &[u8],
    id: &str,
    rev: &[u8; 36],
) -> Result<(), AllocError>
    requires { escape id.now ≡ id.now }
    ensures { (before : List ℕ) → front.now ≡ before ++ codes "{\"_id\":\""
        → Appends (before ++ (head_text id.now ++ (codes ",\"_rev\":" ++ rev.now))) result
        out.old.items out.new.items }
{
    out.extend_from_slice(front)?;
    out.extend_from_slice(id.as_bytes())?;
    put_rev_part(out, rev)?;
    Ok(())
}

impl ChangeRow {
    /// A copy. The cost is the length of the list of revisions and of the members.
    pub fn copy(&self, alloc: Global) -> Result<ChangeRow, AllocError>
        ensures { IfOk result (λ row. row ≡ self.now) }
    {
        let id = self.id.copy()?;
        let changes = self.changes.copy(alloc)?;
        let doc = match &self.doc {
            Some(body) => Some(body.copy(alloc)?),
            None => None,
        };
        Ok(ChangeRow {
            seq: self.seq,
            id,
            changes,
            deleted: self.deleted,
            doc,
            seen: self.seen,
        })
    }

    /// Appends the text of the row's document, with these members. The cost is the text's length. Out of
    /// memory, the vector keeps its old bytes, and a part of the text may follow them.
    pub fn write_doc(&self, out: &mut Vec<u8>, body: &Body) -> Result<(), AllocError>
        ensures { Appends (doc_text (row_doc self.now body.now)) result out.old.items out.new.items }
    {
        put_head(out, self.id.as_str())?;
        put_winner(out, &self.changes)?;
        put_deleted(out, self.deleted)?;
        body.put_rest(out)?;
        Ok(())
    }

    /// As `write_doc`, for an id that needs no escape, with the JSON string of the row's first revision, and
    /// behind a text of the caller's: `front` is the caller's text, which may be empty, and then `{"_id":"`, the
    /// document's first bytes. The text is appended in fewer parts, and the digest's digits are not written
    /// again.
    pub fn write_plain_doc(
        &self,
        out: &mut Vec<u8>,
        front: &[u8],
        body: &Body,
        rev: &[u8; 36],
    ) -> Result<(), AllocError>
        requires plain { escape self.now.id ≡ self.now.id }
        requires rev { IsFirstText self.now rev.now }
        ensures { (before : List ℕ) → front.now ≡ before ++ codes "{\"_id\":\""
            → Appends (before ++ doc_text (row_doc self.now body.now)) result out.old.items out.new.items }
    {
        put_plain_head(out, front, self.id.as_str(), rev)?;
        put_deleted(out, self.deleted)?;
        body.put_rest(out)?;
        Ok(())
    }
}
