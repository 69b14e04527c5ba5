//! The interpreter of transcripts.

use super::parts::part;
use super::shown::{Out, keep};
use hub_document::{
    Doc, DocFault, JsonRoom, LocalDoc, LocalId, put_doc, read_doc, read_value, write_local,
};
use hub_transcript::{Answer, Subject, Words};
use std::alloc::{AllocError, Global};
use std::str;

/// Reads documents and shows them. A command that finds a fault answers its reason.
///
/// These commands read a document. They answer its id, `rev REV`, `deleted`, `path REV ..` and its members,
/// as far as it has them. Then come the text of the document, the text of a copy, and a copy of the members.
/// Of a path they answer also the head, the first two revisions, and a list of all:
/// - `new TEXT` reads a text, of an edit that is made here, and `came TEXT` one of an edit that came;
/// - `put ID | TEXT` and `put ID, REV | TEXT` read a text that is put under an id, and `put-came` reads it of
///   an edit that came;
/// - `byte NUMBER TEXT` reads a text with the byte of this number in place of its `$`, and `room NUMBER TEXT`
///   reads it with a room.
///
/// These read a local document, or its id:
/// - `local COUNT ID | TEXT` answers the text of a local document with so many edits, its members and its id;
/// - `local-id TEXT` answers whether the text is an id, as it stands.
///
/// - `over TEXT | TEXT ..` reads documents. The members of each but the first are copied, in the memory of
///   the copy before it, or of the first one's members. It answers these copies, a line each.
///
/// The other commands are those of `part`.
#[derive(Drop)]
pub(super) struct Session {
    alloc: Global,
    out: Out,
}

impl<R> Subject<R> for Session {
    fn begin(_: &R, alloc: Global, _: &str) -> Result<Session, AllocError> {
        let bytes = Vec::with_capacity(alloc, 65_536)?;
        Ok(Session {
            alloc,
            out: Out { bytes },
        })
    }

    fn answer(&mut self, _: &R, command: &str, answer: &mut Answer) -> Result<(), AllocError> {
        self.out.bytes.clear();
        match carry_out(self.alloc, command, &mut self.out) {
            Ok(()) => answer.text(text_of(self.out.bytes.as_slice())),
            Err(DocFault::NoMemory) => Err(AllocError),
            Err(fault) => answer.line(fault),
        }
    }
}

// Bytes as a text.
fn text_of(bytes: &[u8]) -> &str {
    str::from_utf8(bytes).unwrap_or("no text")
}

// The document that is put under an id, from the value of a text.
fn put(alloc: Global, rest: &str, new_edits: bool) -> Result<Doc, DocFault> {
    let (place, text) = rest.split_once(" | ").unwrap_or((rest, ""));
    let (id, rev) = match place.split_once(", ") {
        Some((id, rev)) => (id, Some(rev)),
        None => (place, None),
    };
    let value = read_value(alloc, text.as_bytes())?;
    put_doc(alloc, id, rev, new_edits, &value)
}

// The document of a text with a byte of this number in it, read with a room or without.
fn with_byte(alloc: Global, rest: &str, room: bool) -> Result<Doc, DocFault> {
    let mut words = Words::of(rest);
    let byte = u8::try_from(words.number()).unwrap_or(0);
    let (front, behind) = words.rest().split_once('$').unwrap_or(("", ""));
    let mut bytes = Vec::from_slice(alloc, front.as_bytes())?;
    bytes.extend_from_slice(&[byte])?;
    bytes.extend_from_slice(behind.as_bytes())?;
    if !room {
        return Doc::read(alloc, bytes.as_slice(), true);
    }
    let value = JsonRoom::new(alloc).read(alloc, bytes.as_slice())?;
    read_doc(alloc, &value, true)
}

// A local document: its text with so many edits, its members and its id.
fn local(alloc: Global, rest: &str, out: &mut Out) -> Result<(), DocFault> {
    let mut words = Words::of(rest);
    let count = words.number();
    let (id, text) = words.rest().split_once(" | ").unwrap_or(("", ""));
    let doc = LocalDoc::read(alloc, id, text.as_bytes())?;
    write_local(&mut out.bytes, doc.id.as_str(), count, &doc.body)?;
    out.both(" body ", doc.body.as_bytes());
    out.both(" id ", doc.id.into_string().as_bytes());
    Ok(())
}

fn local_id(alloc: Global, text: &str, out: &mut Out) -> Result<(), DocFault> {
    let id = LocalId::read(alloc, text)?;
    out.put(match &id {
        Some(id) if id.as_str() == text => "id",
        Some(_) => "another id",
        None => "no id",
    });
    Ok(())
}

// Copies of the members of these texts but the first, each in the memory of the one before it.
fn over(alloc: Global, texts: &str, out: &mut Out) -> Result<(), DocFault> {
    let (first, texts) = texts.split_once(" | ").unwrap_or((texts, ""));
    let mut spare = Doc::read(alloc, first.as_bytes(), true)?.body;
    for text in texts.split(" | ") {
        let doc = Doc::read(alloc, text.as_bytes(), true)?;
        spare = doc.body.copy_over(spare)?;
        out.both("", spare.as_bytes());
        out.put("\n");
    }
    Ok(())
}

// Carries out a command.
fn carry_out(alloc: Global, command: &str, out: &mut Out) -> Result<(), DocFault> {
    let mut words = Words::of(command);
    let verb = words.verb("new came put put-came byte room local local-id over");
    let rest = words.rest();
    let read = match verb {
        0 => Doc::read(alloc, rest.as_bytes(), true),
        1 => Doc::read(alloc, rest.as_bytes(), false),
        2 => put(alloc, rest, true),
        3 => put(alloc, rest, false),
        4 => with_byte(alloc, rest, false),
        5 => with_byte(alloc, rest, true),
        6 => return local(alloc, rest, out),
        7 => return local_id(alloc, rest, out),
        8 => return over(alloc, rest, out),
        _ => return part(alloc, command, out),
    };
    keep(alloc, read, out)
}
