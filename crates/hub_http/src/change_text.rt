//! The texts of rows of changes.

ghost use Rattle.std.specs.Prelude.{◌≡◌, ◌+◌, ◌<◌, ◌≤◌, [], ◌∷◌, ◌++◌, codes, decimal, drop, take, length, OnOk};
ghost use Rattle.std.specs.Prelude.{false};
ghost use Rattle.hub_document.specs.Appends.{Appends};
ghost use Rattle.json.specs.Print.{escape, quoted};
ghost use Rattle.hub_model.specs.Revision.{text_of};
ghost use Rattle.hub_http.specs.ChangeTexts.{revision_text, revisions_text, row_mark, doc_member, row_end};
ghost use Rattle.hub_http.specs.ChangeTexts.{row_head, change_row_text, change_end_text};
ghost use Rattle.hub_http.specs.ChangeTexts.{plain_front};

use crate::row_text::RowText;
use hub_document::{
    ChangeRow, Changes, DigestRev, LentChanges, RevId, is_plain, put_quoted, put_sequence,
};
use itoa::{Buffer, write_digits};
use std::alloc::AllocError;

fn put_revision(out: &mut Vec<u8>, rev: &RevId) -> Result<(), AllocError>
    ensures { Appends (revision_text rev.now) result out.old.items out.new.items }
{
    out.extend_from_slice(b"{\"rev\":")?;
    rev.print_quoted(out)?;
    out.extend_from_slice(b"}")?;
    Ok(())
}

fn put_changes(out: &mut Vec<u8>, changes: &Changes) -> Result<(), AllocError>
    ensures { Appends (revisions_text changes.now) result out.old.items out.new.items }
{
    match changes.lent() {
        LentChanges::One(rev) => {
            out.extend_from_slice(b"{\"rev\":")?;
            rev.print_quoted(out)?;
            out.extend_from_slice(b"}")?;
            Ok(())
        }
        LentChanges::Many(revs) => put_revisions(out, revs),
    }
}

fn put_revisions(out: &mut Vec<u8>, revs: &[RevId]) -> Result<(), AllocError>
    ensures { Appends (revisions_text revs.now) result out.old.items out.new.items }
{
    let Some((first, rest)) = revs.split_first() else {
        return Ok(());
    };
    put_revision(out, first)?;
    for rev in rest {
        out.extend_from_slice(b",")?;
        put_revision(out, rev)?;
    }
    Ok(())
}

fn put_row_head(out: &mut Vec<u8>, life: u64, seq: u64, id: &str) -> Result<(), AllocError>
    ensures { Appends (row_head life seq id.now) result out.old.items out.new.items }
{
    out.extend_from_slice(b"{\"seq\":")?;
    put_sequence(out, seq, life)?;
    out.extend_from_slice(b",\"id\":")?;
    put_quoted(out, id)?;
    out.extend_from_slice(b",\"changes\":[")?;
    Ok(())
}

#[tactic(auto, unfolding(crate::specs::ChangeTexts::row_mark))]
fn put_mark(out: &mut Vec<u8>, deleted: bool) -> Result<(), AllocError>
    ensures { Appends (row_mark deleted) result out.old.items out.new.items }
{
    if deleted {
        out.extend_from_slice(b"],\"deleted\":true")
    } else {
        out.extend_from_slice(b"]")
    }
}

fn put_doc(out: &mut Vec<u8>, row: &ChangeRow) -> Result<(), AllocError>
    ensures { Appends (doc_member row.now row.now.doc) result out.old.items out.new.items }
{
    let Some(body) = &row.doc else {
        return Ok(());
    };
    out.extend_from_slice(b",\"doc\":")?;
    row.write_doc(out, body)?;
    Ok(())
}

fn put_row_end(out: &mut Vec<u8>, row: &ChangeRow) -> Result<(), AllocError>
    ensures { Appends (row_end row.now) result out.old.items out.new.items }
{
    put_mark(out, row.deleted)?;
    put_doc(out, row)?;
    out.extend_from_slice(b"}")?;
    Ok(())
}

// Room for the text before a sequence and for its 20 digits, and behind them the text between a row's sequence
// and its id: `-`, the digit of the life and `","id":"`.
fn sequence_room(life: u64) -> [u8; 38]
    requires { life < 10 }
    ensures { drop 28 result ≡ 45 ∷ (decimal life ++ codes "\",\"id\":\"") }
{
    let mut room = *b"0000000000000000000000000000-0\",\"id\":\"";
    room[29] = b'0' + life as u8;
    room
}

// Writes the text before a sequence directly in front of its digits, and returns the place of the first byte.
fn put_name(room: &mut [u8], digits: usize) -> usize
    requires { (8 ≤ digits) × (digits ≤ length room.old) }
    ensures start { result + 8 ≡ digits }
    ensures written { drop result room.new ≡ codes "{\"seq\":\"" ++ drop digits room.old }
{
    let at = digits - 8;
    room[at..digits].copy_from_slice(b"{\"seq\":\"");
    at
}

// Appends the bytes of a text from a place on.
fn put_from(out: &mut Vec<u8>, text: &[u8], at: usize) -> Result<(), AllocError>
    requires { at ≤ length text.now }
    ensures { Appends (drop at text.now) result out.old.items out.new.items }
{
    out.extend_from_slice(&text[at..])
}

// Appends the end of a row that brings no document, behind the JSON string of its only revision.
#[tactic(auto, unfolding(crate::specs::ChangeTexts::row_mark))]
fn put_short_end(out: &mut Vec<u8>, deleted: bool) -> Result<(), AllocError>
    ensures { Appends (125 ∷ (row_mark deleted ++ 125 ∷ [])) result out.old.items out.new.items }
{
    if deleted {
        out.extend_from_slice(b"}],\"deleted\":true}")
    } else {
        out.extend_from_slice(b"}]}")
    }
}

// The text between the only revision of a row and its document.
#[tactic(auto, unfolding(crate::specs::ChangeTexts::row_mark))]
fn doc_front(deleted: bool) -> &'static str
    ensures { result.now ≡ 125 ∷ (row_mark deleted ++ codes ",\"doc\":") }
{
    if deleted {
        "}],\"deleted\":true,\"doc\":"
    } else {
        "}],\"doc\":"
    }
}

// Writes the JSON string of a revision over a part of the bytes, and a copy of it over another text.
#[inline(always)]
fn write_rev(bytes: &mut [u8], at: usize, rev: &DigestRev, copy: &mut [u8; 36])
    requires short { rev.now.generation < 10 }
    requires place { at + 36 ≤ length bytes.old }
    requires form { take 36 (drop at bytes.old) ≡ codes "\"0-................................\"" }
    ensures bytes { bytes.new
        ≡ take at bytes.old ++ (quoted (text_of rev.now) ++ drop (at + 36) bytes.old) }
    ensures len { length bytes.new ≡ length bytes.old }
    ensures copy { copy.new ≡ quoted (text_of rev.now) }
{
    let part = &mut bytes[at..at + 36];
    rev.write_short(part);
    copy.copy_from_slice(part);
}

// Appends a text, with the JSON string of a revision over its bytes 20 to 56, and hands out a copy of that
// string.
#[inline(always)]
fn put_with_rev(
    out: &mut Vec<u8>,
    text: &[u8],
    rev: &DigestRev,
    copy: &mut [u8; 36],
) -> Result<(), AllocError>
    requires short { rev.now.generation < 10 }
    requires place { 56 ≤ length text.now }
    requires form { take 36 (drop 20 text.now) ≡ codes "\"0-................................\"" }
    ensures text { Appends (take 20 text.now ++ (quoted (text_of rev.now) ++ drop 56 text.now)) result
        out.old.items out.new.items }
    ensures copy { OnOk result (copy.new ≡ quoted (text_of rev.now)) }
{
    let start = out.len();
    out.extend_from_slice(text)?;
    write_rev(out.as_mut_slice(), start + 20, rev, copy);
    Ok(())
}

// A row of one revision whose id needs no escape, in a life whose number has one digit. Its text is written
// in few parts.
#[derive(Drop)]
struct PlainRow<'r> {
    row: &'r ChangeRow,
    id: &'r str,
    rev: &'r DigestRev,
    life: u64,
    ghost same: { id.now ≡ row.now.id },
    ghost plain: { escape row.now.id ≡ row.now.id },
    ghost only: { row.now.changes ≡ rev.now ∷ [] },
    ghost digit: { life < 10 },
}

impl PlainRow<'_> {
    // Appends the row's front, up to the end of its id.
    fn put_front(&self, out: &mut Vec<u8>) -> Result<(), AllocError>
        ensures { Appends (plain_front self.now.life self.now.row.now.seq self.now.row.now.id) result
            out.old.items out.new.items }
    {
        let row = self.row;
        let mut text = sequence_room(self.life);
        let digits = write_digits(row.seq, &mut text, 28);
        let at = put_name(&mut text, digits);
        put_from(out, text.as_slice(), at)?;
        out.extend_from_slice(self.id.as_bytes())?;
        Ok(())
    }

    // Appends the text between the row's id and its revision, and then the revision.
    fn put_revision(&self, out: &mut Vec<u8>) -> Result<(), AllocError>
        ensures { Appends (codes "\",\"changes\":[{\"rev\":" ++ quoted (text_of self.now.rev.now)) result
            out.old.items out.new.items }
    {
        out.extend_from_slice(b"\",\"changes\":[{\"rev\":")?;
        self.rev.print_quoted(out)?;
        Ok(())
    }

    // Appends the rest of a row that is not deleted, behind its id. The revision is written where it stands.
    fn put_short(&self, out: &mut Vec<u8>) -> Result<(), AllocError>
        requires live { self.now.row.now.deleted ≡ false }
        requires short { self.now.rev.now.generation < 10 }
        ensures { Appends
            (codes "\",\"changes\":[{\"rev\":"
            ++ (quoted (text_of self.now.rev.now) ++ 125 ∷ row_end self.now.row.now))
            result out.old.items out.new.items }
    {
        let row = self.row;
        let Some(body) = &row.doc else {
            let mut unread = [0u8; 36];
            let end = b"\",\"changes\":[{\"rev\":\"0-................................\"}]}";
            return put_with_rev(out, end, self.rev, &mut unread);
        };
        let mut rev = [0u8; 36];
        let front = b"\",\"changes\":[{\"rev\":\"0-................................\"}],\"doc\":";
        put_with_rev(out, front, self.rev, &mut rev)?;
        row.write_plain_doc(out, b"{\"_id\":\"", body, &rev)?;
        out.extend_from_slice(b"}")?;
        Ok(())
    }

    // Appends the row's end, behind the revision.
    fn put_end(&self, out: &mut Vec<u8>) -> Result<(), AllocError>
        ensures { Appends (125 ∷ row_end self.now.row.now) result out.old.items out.new.items }
    {
        let row = self.row;
        let Some(body) = &row.doc else {
            return put_short_end(out, row.deleted);
        };
        out.extend_from_slice(doc_front(row.deleted).as_bytes())?;
        row.write_doc(out, body)?;
        out.extend_from_slice(b"}")?;
        Ok(())
    }

    // Appends the whole row.
    fn put(&self, out: &mut Vec<u8>) -> Result<(), AllocError>
        ensures { Appends (change_row_text self.now.life self.now.row.now) result
            out.old.items out.new.items }
    {
        self.put_front(out)?;
        let row = self.row;
        if self.rev.generation() < 10 && !row.deleted {
            return self.put_short(out);
        }
        self.put_revision(out)?;
        self.put_end(out)
    }
}

impl RowText for ChangeRow {
    ghost row_text = { change_row_text };

    ghost end_text = { change_end_text };

    fn put_row(&self, out: &mut Vec<u8>, life: u64) -> Result<(), AllocError> {
        let id = self.id.as_str();
        if life < 10 && is_plain(id.as_bytes()) {
            match self.changes.lent() {
                LentChanges::One(rev) => {
                    let row = PlainRow {
                        row: self,
                        id,
                        rev,
                        life,
                    };
                    return row.put(out);
                }
                LentChanges::Many(_) => {}
            }
        }
        put_row_head(out, life, self.seq, id)?;
        put_changes(out, &self.changes)?;
        put_row_end(out, self)?;
        Ok(())
    }

    fn put_end(
        out: &mut Vec<u8>,
        life: u64,
        last_seq: u64,
        pending: u64,
    ) -> Result<(), AllocError> {
        let mut number = Buffer::new();
        out.extend_from_slice(b"\"last_seq\":")?;
        put_sequence(out, last_seq, life)?;
        out.extend_from_slice(b",\"pending\":")?;
        out.extend_from_slice(number.format(pending).as_bytes())?;
        out.extend_from_slice(b"}\n")?;
        Ok(())
    }
}
