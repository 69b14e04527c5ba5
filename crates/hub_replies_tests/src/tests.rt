//! Bodies that no answer of a hub shows, as a transcript. They have the greatest numbers, a database name
//! whose bytes need an escape, and a batch with elements that have no reply. `hub_service_tests` shows the
//! other bodies.

use hub_database::Info;
use hub_document::{RevId, read_value};
use hub_http::Refusal;
use hub_replies::{
    BatchReply, batch_body, edit_body, edit_front, info_body, local_edit_body, names_body,
};
use hub_transcript::{Answer, Subject, Words, replay};
use std::alloc::{AllocError, Global};
use std::str;
use std::test::Fail;

/// Makes bodies, and answers each without the line feed at its end. `ODD` stands for a text with bytes that
/// need an escape.
///
/// - `name NAME`: the list of this database name alone;
/// - `info NAME DOCUMENTS DELETED SEQ LIFE`: the answer to a question about a database;
/// - `edit ID REV` and `edit ID COUNT`: the answer to an edit, and to an edit of a local document;
/// - `batch COUNT LIST`: the answer to a batch of these elements, with the first COUNT replies of `said`.
#[derive(Drop)]
struct Maker {
    alloc: Global,
}

impl<R> Subject<R> for Maker {
    fn begin(_: &R, alloc: Global, _: &str) -> Result<Maker, AllocError> {
        Ok(Maker { alloc })
    }

    fn answer(&mut self, _: &R, command: &str, answer: &mut Answer) -> Result<(), AllocError> {
        let mut words = Words::of(command);
        match words.verb("name info edit batch") {
            0 => name(self.alloc, words, answer),
            1 => info(self.alloc, words, answer),
            2 => edit(self.alloc, words, answer),
            _ => batch(self.alloc, words, answer),
        }
    }
}

// The text of a body without the line feed at its end.
fn line_of(body: &[u8]) -> &str {
    match body.strip_suffix(b"\n") {
        Some(line) => str::from_utf8(line).unwrap_or("no text"),
        None => "no line feed",
    }
}

// Answers a body.
fn put(answer: &mut Answer, body: Vec<u8>) -> Result<(), AllocError> {
    answer.line(line_of(body.as_slice()))
}

// The characters are a quote, a backslash, a line feed, the byte 1, a letter of two bytes and one of four.
// The JSON string of this text is "\"\\\n\u0001é😀".
const ODD: &str = "\"\\\n\u{1}é😀";

// The text that the next word stands for.
fn text_of<'a>(words: &mut Words<'a>) -> &'a str {
    let word = words.word();
    if word == "ODD" { ODD } else { word }
}

fn name(alloc: Global, mut words: Words<'_>, answer: &mut Answer) -> Result<(), AllocError> {
    let names = [String::from_str(alloc, text_of(&mut words))?];
    put(answer, names_body(alloc, &names)?)
}

fn info(alloc: Global, mut words: Words<'_>, answer: &mut Answer) -> Result<(), AllocError> {
    let name = text_of(&mut words);
    let info = Info {
        doc_count: words.number(),
        doc_del_count: words.number(),
        update_seq: words.number(),
        life: words.number(),
    };
    put(answer, info_body(alloc, name, &info)?)
}

fn edit(alloc: Global, mut words: Words<'_>, answer: &mut Answer) -> Result<(), AllocError> {
    let front = edit_front(alloc, text_of(&mut words))?;
    match RevId::read(words.rest()) {
        Some(rev) => put(answer, edit_body(front, &rev)?),
        None => put(answer, local_edit_body(front, words.number())?),
    }
}

// The replies to the elements of a batch, by their places. An element with None has no reply.
fn said() -> [Option<BatchReply>; 7] {
    [
        None,
        RevId::read("1-a").map(BatchReply::Stored),
        Some(BatchReply::Refused(Refusal::NotObject)),
        None,
        RevId::read("2-b").map(BatchReply::Stored),
        Some(BatchReply::Refused(Refusal::BadId)),
        Some(BatchReply::Refused(Refusal::Conflict)),
    ]
}

fn batch(alloc: Global, mut words: Words<'_>, answer: &mut Answer) -> Result<(), AllocError> {
    let said = said();
    let replies = said.get(..words.number() as usize).unwrap_or(&[]);
    let Ok(list) = read_value(alloc, words.rest().as_bytes()) else {
        return Err(AllocError);
    };
    match list.as_array() {
        Some(elements) => put(answer, batch_body(alloc, elements.as_slice(), replies)?),
        None => Err(AllocError),
    }
}

const BODIES: &str = r#"
# names of databases
> name ODD
["\"\\\n\u0001é😀"]
# what a database says of itself
> info ODD 10 4294967295 18446744073709551615 18446744073709551615
{"db_name":"\"\\\n\u0001é😀","doc_count":10,"doc_del_count":4294967295,"update_seq":"18446744073709551615-18446744073709551615","instance_start_time":"0"}
# answers to edits
> edit ODD 65535-0Zz9
{"ok":true,"id":"\"\\\n\u0001é😀","rev":"65535-0Zz9"}
> edit ODD 18446744073709551615
{"ok":true,"id":"\"\\\n\u0001é😀","rev":"0-18446744073709551615"}
# a batch of known documents, of others, and of elements that are none; one element has no reply of its own
> batch 4 [{"_id":"known"},{"_id":"a"},7,{"_id":"known"}]
[{"ok":true,"id":"a","rev":"1-a"},{"id":null,"error":"bad_request","reason":"not an object"}]
> batch 7 [{"_id":"known"},{"_id":"a"},7,{"_id":"known"},{"_id":"\"\\\n\u0001é😀"},{"_id":5},{"_id":"c"},{"_id":"behind"}]
[{"ok":true,"id":"a","rev":"1-a"},{"id":null,"error":"bad_request","reason":"not an object"},{"ok":true,"id":"\"\\\n\u0001é😀","rev":"2-b"},{"id":null,"error":"bad_request","reason":"bad id"},{"id":"c","error":"conflict","reason":"Document update conflict."}]
> batch 7 []
[]
# a batch whose first element has nothing said of it, and the others no reply
> batch 1 [{"_id":"known"},{"_id":"a"},7,{"_id":"known"},{"_id":"\"\\\n\u0001é😀"},{"_id":5},{"_id":"c"},{"_id":"behind"}]
[]
"#;

/// Bodies that are made of numbers and texts that no request gives.
#[test]
fn bodies(rt: HostRuntime) -> Result<(), Fail> {
    replay::<Maker, _>(&rt, rt.alloc(), BODIES)
}
