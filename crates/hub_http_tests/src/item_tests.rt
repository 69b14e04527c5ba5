//! The texts of items, in feeds of changes and of updates, and the names of methods.

use crate::texts::{Shown, undone};
use hub_document::{ChangeRow, Changes, Doc, DocFault, RevId, Revisions, UpdateRow};
use hub_http::{MethodName, RowText, item_text};
use hub_model::{Item, Mode, UpdateKind};
use hub_transcript::{Answer, Subject, Words, replay};
use std::alloc::{AllocError, Global};
use std::test::Fail;

/// A feed, and the texts of its items.
///
/// - `feed MODE ROWS LIFE`: a feed of this mode that wrote ROWS rows, of a database in this life.
/// - `row SEQ REV DOC`: the row of a sequence and a document, with REV as second revision unless REV is no
///   revision. `doc SEQ REV DOC`: the same row, with the document in it. `end SEQ PENDING`, `beat`: the end
///   and a heartbeat.
/// - `update KIND SEQ NAME`: the row of a database in a feed of updates. `end_of_updates SEQ PENDING`,
///   `beat_of_updates`: the end and a heartbeat of that feed.
/// - `method NAME`: the name of a method.
#[derive(Drop)]
struct Feed {
    alloc: Global,
    mode: Mode,
    rows_before: u64,
    life: u64,
}

fn mode_of(name: &str) -> Option<Mode> {
    if name == "normal" {
        return Some(Mode::Normal);
    }
    if name == "longpoll" {
        return Some(Mode::Longpoll);
    }
    if name == "continuous" {
        return Some(Mode::Continuous);
    }
    None
}

fn kind_of(name: &str) -> Option<UpdateKind> {
    if name == "created" {
        return Some(UpdateKind::Created);
    }
    if name == "updated" {
        return Some(UpdateKind::Updated);
    }
    if name == "deleted" {
        return Some(UpdateKind::Deleted);
    }
    None
}

// The revisions of a row: one, or two where there is another.
fn changes(alloc: Global, rev: RevId, other: Option<RevId>) -> Result<Changes, AllocError> {
    match other {
        Some(other) => Ok(Changes::new(Revisions::new(Vec::from_slice(alloc, &[rev, other])?))),
        None => Changes::one(alloc, rev),
    }
}

// A row of a command's words: sequence, second revision, and document. The row may bring the document.
fn row_of(alloc: Global, command: &str, brings: bool) -> Result<ChangeRow, DocFault> {
    let mut words = Words::of(command);
    let seq = words.number();
    let other = RevId::read(words.word());
    let doc = Doc::read(alloc, words.rest().as_bytes(), true)?;
    let Some(rev) = doc.rev else {
        return Err(DocFault::BadRev);
    };
    Ok(ChangeRow {
        seq,
        id: doc.id,
        changes: changes(alloc, rev, other)?,
        deleted: doc.deleted,
        doc: if brings { Some(doc.body) } else { None },
        seen: seq,
    })
}

impl Feed {
    // Shows an item's text. It is appended to a vector that already holds bytes, which have to stay.
    fn tell<R: RowText>(&self, item: &Item<R>, answer: &mut Answer) -> Result<(), AllocError> {
        let mut out = Vec::from_slice(self.alloc, b"held")?;
        item_text(&mut out, self.mode, self.rows_before, self.life, item)?;
        match out.strip_prefix(b"held".as_slice()) {
            Some(text) => answer.line(Shown(text)),
            None => answer.text("what was held is lost\n"),
        }
    }

    fn set(&mut self, command: &str, answer: &mut Answer) -> Result<(), AllocError> {
        let mut words = Words::of(command);
        let Some(mode) = mode_of(words.word()) else {
            return answer.text("no mode\n");
        };
        self.mode = mode;
        self.rows_before = words.number();
        self.life = words.number();
        Ok(())
    }

    fn row(&self, brings: bool, command: &str, answer: &mut Answer) -> Result<(), AllocError> {
        match row_of(self.alloc, command, brings) {
            Ok(row) => self.tell(&Item::Row(row), answer),
            Err(DocFault::NoMemory) => Err(AllocError),
            Err(fault) => answer.line(fault),
        }
    }

    fn update(&self, command: &str, answer: &mut Answer) -> Result<(), AllocError> {
        let mut words = Words::of(command);
        let Some(kind) = kind_of(words.word()) else {
            return answer.text("no kind\n");
        };
        let seq = words.number();
        let name = undone(self.alloc, words.rest())?;
        let Ok(db_name) = String::from_utf8(name) else {
            return answer.text("no name\n");
        };
        let row = UpdateRow {
            db_name,
            kind,
            seq,
            seen: 0,
        };
        self.tell(&Item::Row(row), answer)
    }

    fn end<R: RowText + Drop>(&self, command: &str, answer: &mut Answer) -> Result<(), AllocError> {
        let mut words = Words::of(command);
        let end: Item<R> = Item::End {
            last_seq: words.number(),
            pending: words.number(),
        };
        self.tell(&end, answer)
    }

    fn beat<R: RowText + Drop>(&self, answer: &mut Answer) -> Result<(), AllocError> {
        let beat: Item<R> = Item::Beat;
        self.tell(&beat, answer)
    }

    fn method(&self, name: &str, answer: &mut Answer) -> Result<(), AllocError> {
        let made = MethodName::new(self.alloc, name.as_bytes())?;
        answer.line(Shown(made.as_slice()))
    }
}

/// The commands, in the order in which they are looked up.
const VERBS: &str = "feed row doc end beat update end_of_updates beat_of_updates method";

impl<R> Subject<R> for Feed {
    fn begin(_: &R, alloc: Global, _: &str) -> Result<Feed, AllocError> {
        Ok(Feed {
            alloc,
            mode: Mode::Normal,
            rows_before: 0,
            life: 0,
        })
    }

    fn answer(&mut self, _: &R, command: &str, answer: &mut Answer) -> Result<(), AllocError> {
        let mut words = Words::of(command);
        let place = words.verb(VERBS);
        let rest = words.rest();
        match place {
            0 => self.set(rest, answer),
            1 => self.row(false, rest, answer),
            2 => self.row(true, rest, answer),
            3 => self.end::<ChangeRow>(rest, answer),
            4 => self.beat::<ChangeRow>(answer),
            5 => self.update(rest, answer),
            6 => self.end::<UpdateRow>(rest, answer),
            7 => self.beat::<UpdateRow>(answer),
            8 => self.method(rest, answer),
            _ => answer.text("?\n"),
        }
    }
}

const ITEMS: &str = r#"
# a normal feed
> feed normal 0 1
> row 1 - {"_id":"a","_rev":"1-a"}
{"seq":"1-1","id":"a","changes":[{"rev":"1-a"}]}
> feed normal 1 1
> row 2 - {"_id":"b","_rev":"1-b"}
,\n{"seq":"2-1","id":"b","changes":[{"rev":"1-b"}]}
> beat
\n
> feed normal 2 1
> end 2 0
\n],\n"last_seq":"2-1","pending":0}\n

# a longpoll feed
> feed longpoll 1 1
> beat
\n
> feed longpoll 2 1
> end 9 7
\n],\n"last_seq":"9-1","pending":7}\n

# a continuous feed
> feed continuous 3 1
> row 18446744073709551615 65535-0 {"_id":"a\"\\\u0001\n\u00e9/","_rev":"1-Z9z","_deleted":true}
{"seq":"18446744073709551615-1","id":"a\\"\\\\\\u0001\\n\xc3\xa9/","changes":[{"rev":"1-Z9z"},{"rev":"65535-0"}],"deleted":true}\n
> feed continuous 0 18446744073709551615
> row 18446744073709551615 - {"_id":"a","_rev":"1-a"}
{"seq":"18446744073709551615-18446744073709551615","id":"a","changes":[{"rev":"1-a"}]}\n
> feed continuous 1 18446744073709551615
> end 18446744073709551615 0
{"last_seq":"18446744073709551615-18446744073709551615","pending":0}\n
> feed continuous 2 1
> end 9 7
{"last_seq":"9-1","pending":7}\n
> feed continuous 1 1
> beat
\n

# rows that bring their documents
> feed normal 0 1
> doc 7 - {"_id":"a","_rev":"1-x","v":7}
{"seq":"7-1","id":"a","changes":[{"rev":"1-x"}],"doc":{"_id":"a","_rev":"1-x","v":7}}
> doc 7 - {"_id":"b","_rev":"2-y","_deleted":true}
{"seq":"7-1","id":"b","changes":[{"rev":"2-y"}],"deleted":true,"doc":{"_id":"b","_rev":"2-y","_deleted":true}}
> feed continuous 4 1
> doc 7 - {"_id":"a","_rev":"1-x","v":7}
{"seq":"7-1","id":"a","changes":[{"rev":"1-x"}],"doc":{"_id":"a","_rev":"1-x","v":7}}\n
> doc 7 - {"_id":"b","_rev":"2-y","_deleted":true}
{"seq":"7-1","id":"b","changes":[{"rev":"2-y"}],"deleted":true,"doc":{"_id":"b","_rev":"2-y","_deleted":true}}\n

# rows of one revision with a digest's hash, as most are, of several lives
> feed normal 1 0
> row 12 - {"_id":"a b","_rev":"3-00112233445566778899aabbccddeeff","v":7}
,\n{"seq":"12-0","id":"a b","changes":[{"rev":"3-00112233445566778899aabbccddeeff"}]}
> row 12 - {"_id":"a b","_rev":"3-00112233445566778899aabbccddeeff","_deleted":true,"v":7}
,\n{"seq":"12-0","id":"a b","changes":[{"rev":"3-00112233445566778899aabbccddeeff"}],"deleted":true}
> doc 12 - {"_id":"a b","_rev":"3-00112233445566778899aabbccddeeff","v":7}
,\n{"seq":"12-0","id":"a b","changes":[{"rev":"3-00112233445566778899aabbccddeeff"}],"doc":{"_id":"a b","_rev":"3-00112233445566778899aabbccddeeff","v":7}}
> doc 12 - {"_id":"a b","_rev":"3-00112233445566778899aabbccddeeff","_deleted":true,"v":7}
,\n{"seq":"12-0","id":"a b","changes":[{"rev":"3-00112233445566778899aabbccddeeff"}],"deleted":true,"doc":{"_id":"a b","_rev":"3-00112233445566778899aabbccddeeff","_deleted":true,"v":7}}
> feed normal 1 9
> row 12 - {"_id":"a b","_rev":"3-00112233445566778899aabbccddeeff","v":7}
,\n{"seq":"12-9","id":"a b","changes":[{"rev":"3-00112233445566778899aabbccddeeff"}]}
> row 12 - {"_id":"a b","_rev":"3-00112233445566778899aabbccddeeff","_deleted":true,"v":7}
,\n{"seq":"12-9","id":"a b","changes":[{"rev":"3-00112233445566778899aabbccddeeff"}],"deleted":true}
> doc 12 - {"_id":"a b","_rev":"3-00112233445566778899aabbccddeeff","v":7}
,\n{"seq":"12-9","id":"a b","changes":[{"rev":"3-00112233445566778899aabbccddeeff"}],"doc":{"_id":"a b","_rev":"3-00112233445566778899aabbccddeeff","v":7}}
> doc 12 - {"_id":"a b","_rev":"3-00112233445566778899aabbccddeeff","_deleted":true,"v":7}
,\n{"seq":"12-9","id":"a b","changes":[{"rev":"3-00112233445566778899aabbccddeeff"}],"deleted":true,"doc":{"_id":"a b","_rev":"3-00112233445566778899aabbccddeeff","_deleted":true,"v":7}}
> feed normal 1 10
> row 12 - {"_id":"a b","_rev":"3-00112233445566778899aabbccddeeff","v":7}
,\n{"seq":"12-10","id":"a b","changes":[{"rev":"3-00112233445566778899aabbccddeeff"}]}
> row 12 - {"_id":"a b","_rev":"3-00112233445566778899aabbccddeeff","_deleted":true,"v":7}
,\n{"seq":"12-10","id":"a b","changes":[{"rev":"3-00112233445566778899aabbccddeeff"}],"deleted":true}
> doc 12 - {"_id":"a b","_rev":"3-00112233445566778899aabbccddeeff","v":7}
,\n{"seq":"12-10","id":"a b","changes":[{"rev":"3-00112233445566778899aabbccddeeff"}],"doc":{"_id":"a b","_rev":"3-00112233445566778899aabbccddeeff","v":7}}
> doc 12 - {"_id":"a b","_rev":"3-00112233445566778899aabbccddeeff","_deleted":true,"v":7}
,\n{"seq":"12-10","id":"a b","changes":[{"rev":"3-00112233445566778899aabbccddeeff"}],"deleted":true,"doc":{"_id":"a b","_rev":"3-00112233445566778899aabbccddeeff","_deleted":true,"v":7}}
> feed normal 1 123
> row 12 - {"_id":"a b","_rev":"3-00112233445566778899aabbccddeeff","v":7}
,\n{"seq":"12-123","id":"a b","changes":[{"rev":"3-00112233445566778899aabbccddeeff"}]}
> row 12 - {"_id":"a b","_rev":"3-00112233445566778899aabbccddeeff","_deleted":true,"v":7}
,\n{"seq":"12-123","id":"a b","changes":[{"rev":"3-00112233445566778899aabbccddeeff"}],"deleted":true}
> doc 12 - {"_id":"a b","_rev":"3-00112233445566778899aabbccddeeff","v":7}
,\n{"seq":"12-123","id":"a b","changes":[{"rev":"3-00112233445566778899aabbccddeeff"}],"doc":{"_id":"a b","_rev":"3-00112233445566778899aabbccddeeff","v":7}}
> doc 12 - {"_id":"a b","_rev":"3-00112233445566778899aabbccddeeff","_deleted":true,"v":7}
,\n{"seq":"12-123","id":"a b","changes":[{"rev":"3-00112233445566778899aabbccddeeff"}],"deleted":true,"doc":{"_id":"a b","_rev":"3-00112233445566778899aabbccddeeff","_deleted":true,"v":7}}

# rows of updates in each mode
> feed normal 0 0
> update created 1 d
{"db_name":"d","type":"created","seq":"1-0"}
> update updated 20 team/mail-1
{"db_name":"team/mail-1","type":"updated","seq":"20-0"}
> update deleted 18446744073709551615 a"b\\c\n\1
{"db_name":"a\\"b\\\\c\\n\\u0001","type":"deleted","seq":"18446744073709551615-0"}
> feed normal 1 0
> update created 1 d
,\n{"db_name":"d","type":"created","seq":"1-0"}
> update updated 20 team/mail-1
,\n{"db_name":"team/mail-1","type":"updated","seq":"20-0"}
> update deleted 18446744073709551615 a"b\\c\n\1
,\n{"db_name":"a\\"b\\\\c\\n\\u0001","type":"deleted","seq":"18446744073709551615-0"}
> feed longpoll 0 0
> update created 1 d
{"db_name":"d","type":"created","seq":"1-0"}
> update updated 20 team/mail-1
{"db_name":"team/mail-1","type":"updated","seq":"20-0"}
> update deleted 18446744073709551615 a"b\\c\n\1
{"db_name":"a\\"b\\\\c\\n\\u0001","type":"deleted","seq":"18446744073709551615-0"}
> feed longpoll 2 0
> update created 1 d
,\n{"db_name":"d","type":"created","seq":"1-0"}
> update updated 20 team/mail-1
,\n{"db_name":"team/mail-1","type":"updated","seq":"20-0"}
> update deleted 18446744073709551615 a"b\\c\n\1
,\n{"db_name":"a\\"b\\\\c\\n\\u0001","type":"deleted","seq":"18446744073709551615-0"}
> feed continuous 0 0
> update created 1 d
{"db_name":"d","type":"created","seq":"1-0"}\n
> update updated 20 team/mail-1
{"db_name":"team/mail-1","type":"updated","seq":"20-0"}\n
> update deleted 18446744073709551615 a"b\\c\n\1
{"db_name":"a\\"b\\\\c\\n\\u0001","type":"deleted","seq":"18446744073709551615-0"}\n
> feed continuous 3 0
> update created 1 d
{"db_name":"d","type":"created","seq":"1-0"}\n
> update updated 20 team/mail-1
{"db_name":"team/mail-1","type":"updated","seq":"20-0"}\n
> update deleted 18446744073709551615 a"b\\c\n\1
{"db_name":"a\\"b\\\\c\\n\\u0001","type":"deleted","seq":"18446744073709551615-0"}\n

# ends and heartbeats of updates
> feed normal 2 0
> end_of_updates 9 7
\n],\n"last_seq":"9-0"}\n
> beat_of_updates
\n
> feed longpoll 2 0
> end_of_updates 0 7
\n],\n"last_seq":"0-0"}\n
> beat_of_updates
\n
> feed continuous 2 0
> end_of_updates 18446744073709551615 7
{"last_seq":"18446744073709551615-0"}\n
> beat_of_updates
\n

# names of methods
> method GET
GET
> method HEAD
HEAD
> method PUT
PUT
> method POST
POST
> method DELETE
DELETE
> method get
get
> method PATCH
PATCH
> method GETS
GETS
> method
"#;

#[test]
fn items(rt: HostRuntime) -> Result<(), Fail> {
    replay::<Feed, _>(&rt, rt.alloc(), ITEMS)
}
