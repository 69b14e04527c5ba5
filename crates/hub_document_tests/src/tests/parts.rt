//! Commands on values that come from no document's text: revisions, rows, limits and sequences.

use super::shown::Out;
use hub_document::{
    ChangeRow, Changes, DigestRev, Doc, DocFault, LentChanges, Limits, RevId, Revisions, UpdateRow,
    is_plain, put_sequence,
};
use hub_model::UpdateKind;
use hub_transcript::Words;
use std::alloc::{AllocError, Global};

// The MD5 of no bytes (RFC 1321, A.5).
const DIGEST: [u8; 16] = [
    0xd4, 0x1d, 0x8c, 0xd9, 0x8f, 0x00, 0xb2, 0x04, 0xe9, 0x80, 0x09, 0x98, 0xec, 0xf8, 0x42, 0x7e,
];

// Writes a new text.
fn put_text(text: Result<String, AllocError>, out: &mut Out) -> Result<(), DocFault> {
    out.put(text?.as_str());
    Ok(())
}

// The revision of a text: its hash, its parts and its generation.
fn rev(alloc: Global, text: &str, out: &mut Out) -> Result<(), DocFault> {
    let Some(rev) = RevId::read(text) else {
        out.put("none");
        return Ok(());
    };
    out.both("hash ", rev.hash());
    if let Some(rev) = RevId::from_parts(rev.generation(), rev.hash()) {
        out.rev(" parts", &rev);
    }
    put_text(format!(in alloc; " generation {}", rev.generation()), out)
}

// A row's revisions: `one` or `many` as they are lent, and the revisions at the places 0 to 2.
fn put_lent(changes: &Changes, out: &mut Out) {
    match changes.lent() {
        LentChanges::One(rev) => out.rev("one", &rev.rev()),
        LentChanges::Many(revs) => out.revs("many", revs),
    }
    out.put(" at");
    for at in 0..3 {
        match changes.get(at) {
            Some(rev) => out.rev("", &rev),
            None => out.put(" none"),
        }
    }
}

// A row's revisions as they are lent and by place, the list of a copy, and their number.
fn put_changes(alloc: Global, changes: &Changes, out: &mut Out) -> Result<(), DocFault> {
    put_lent(changes, out);
    let list = changes.copy(alloc)?.into_revisions(alloc)?;
    out.revs(" list", list.as_slice());
    put_text(format!(in alloc; " len {}", changes.len()), out)
}

// Whether a revision is the 3 of `DIGEST`, has this digest or has any, and the row's one revision.
fn one(alloc: Global, text: &str, out: &mut Out) -> Result<(), DocFault> {
    let Some(rev) = RevId::read(text) else {
        out.put("none");
        return Ok(());
    };
    if rev.is_same(&RevId::from_digest(3, &DIGEST)) {
        out.put("same ");
    }
    if rev.has_digest(&DIGEST) {
        out.put("has it ");
    }
    if let Some(digest) = rev.digest() {
        out.rev("digest", &RevId::from_digest(rev.generation(), &digest));
        out.put(" ");
    }
    put_changes(alloc, &Changes::one(alloc, rev)?, out)
}

// Appends the text in quotes of a revision whose generation has one digit, as a row of changes writes it.
fn put_short(rev: &DigestRev, out: &mut Out) {
    if rev.generation() >= 10 {
        return;
    }
    let mut text = *b"\"0-................................\"";
    rev.write_short(&mut text);
    let _ = out.bytes.extend_from_slice(text.as_slice());
    out.put(" ");
}

// A copy of the revision of `DIGEST` in little memory, its texts in quotes, and the row's one revision.
fn digest(alloc: Global, generation: u64, out: &mut Out) -> Result<(), DocFault> {
    let generation = u16::try_from(generation).unwrap_or(1).max(1);
    let rev = DigestRev::new(generation, DIGEST).copy();
    out.rev("rev", &rev.rev());
    out.rev(
        " digest",
        &RevId::from_digest(rev.generation(), &rev.digest()),
    );
    out.put(" quoted ");
    let _ = rev.print_quoted(&mut out.bytes);
    out.put(" ");
    let _ = rev.rev().print_quoted(&mut out.bytes);
    out.put(" ");
    put_short(&rev, out);
    put_changes(alloc, &Changes::of_digest(rev), out)
}

// The row's revisions of a list of words.
fn changes(alloc: Global, texts: &str) -> Result<Changes, AllocError> {
    let mut list = Vec::new(alloc);
    for text in texts.split(" ") {
        if let Some(rev) = RevId::read(text) {
            list.push(rev)?;
        }
    }
    Ok(Changes::new(Revisions::new(list)))
}

// Writes a row, and the text of its document where it has members.
fn put_row(alloc: Global, row: &ChangeRow, out: &mut Out) -> Result<(), DocFault> {
    let (id, deleted) = (row.id.as_str(), row.deleted);
    put_text(
        format!(in alloc; "{id} seq {} deleted {deleted} seen {} ", row.seq, row.seen),
        out,
    )?;
    put_changes(alloc, &row.changes, out)?;
    if let Some(body) = &row.doc {
        out.both("\nmembers ", body.as_bytes());
        out.put(" text ");
        row.write_doc(&mut out.bytes, body)?;
    }
    Ok(())
}

// A copy of a row of a document with these revisions.
fn row(alloc: Global, words: &mut Words<'_>, out: &mut Out) -> Result<(), DocFault> {
    let deleted = words.word() == "deleted";
    let Doc { id, body, .. } = Doc::read(alloc, words.word().as_bytes(), true)?;
    let row = ChangeRow {
        seq: 3,
        id,
        changes: changes(alloc, words.rest())?,
        deleted,
        doc: Some(body),
        seen: 4,
    };
    put_row(alloc, &row.copy(alloc)?, out)
}

// A copy of a row of the log of updates.
fn update(alloc: Global, words: &mut Words<'_>) -> Result<String, AllocError> {
    let kind = match words.verb("created updated") {
        0 => UpdateKind::Created,
        1 => UpdateKind::Updated,
        _ => UpdateKind::Deleted,
    };
    let row = UpdateRow {
        kind,
        seq: words.number(),
        seen: words.number(),
        db_name: String::from_str(alloc, words.rest())?,
    };
    format!(in alloc; "{:?}", row.copy(alloc)?)
}

/// Carries out one of these commands, or answers `?`:
/// - `rev TEXT` reads a revision, and answers its hash, the revision of its parts, and its generation;
/// - `one REV` tells whether REV is the revision 3 of the MD5 of no bytes, and whether it has this digest or
///   any. Then it shows a row's list of REV alone, as it is lent, by its places, and as the list of a copy;
/// - `digest GENERATION` answers a revision of this digest, two texts of it in quotes, and a row's list of it
///   alone;
/// - `changes REV ..` answers a row's list of these revisions;
/// - `row MARK TEXT REV ..` answers a copy of a row of the document of a text, with these revisions, and the
///   text of its document; MARK is `deleted` or `live`;
/// - `update KIND SEQ SEEN NAME` answers a copy of a row of the log of updates;
/// - `sequence SEQ LIFE` answers a text in quotes;
/// - `limits` answers the limits of a hub that serves;
/// - `no-memory` answers the reason of this fault;
/// - `plain TEXT` answers whether a text needs no escape.
pub(super) fn part(alloc: Global, command: &str, out: &mut Out) -> Result<(), DocFault> {
    let mut words = Words::of(command);
    match words.verb("rev one digest changes row update sequence limits no-memory plain") {
        0 => rev(alloc, words.rest(), out),
        1 => one(alloc, words.rest(), out),
        2 => digest(alloc, words.number(), out),
        3 => put_changes(alloc, &changes(alloc, words.rest())?, out),
        4 => row(alloc, &mut words, out),
        5 => put_text(update(alloc, &mut words), out),
        6 => Ok(put_sequence(&mut out.bytes, words.number(), words.number())?),
        7 => put_text(format!(in alloc; "{:?}", Limits::full()), out),
        8 => put_text(format!(in alloc; "{}", DocFault::NoMemory), out),
        9 => put_text(
            format!(in alloc; "{}", is_plain(words.rest().as_bytes())),
            out,
        ),
        _ => put_text(format!(in alloc; "?"), out),
    }
}
