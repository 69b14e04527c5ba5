//! A service of a feed of two rows and of a feed of updates.

use hub_document::{ChangeRow, Changes, Doc, RevId, Revisions, UpdateRow};
use hub_http::{ChunkWriter, Output, Refusal, Reply, Request, StatusCode};
use hub_model::{Item, Mode, UpdateKind};
use hub_session::{Answer, LentItem, Sending, SentItem, Service};
use std::alloc::Global;
use std::cell::Cell;

/// The body of an answer that a database was made.
const DONE: &str = concat!(r#"{"ok":true}"#, "\n");

/// The path of the database that is made.
const PATH: &str = "/d";

/// A feed that is served, and its path.
struct Feed {
    path: &'static str,
    mode: Mode,
    has_updates: bool,
}

const FEEDS: &[Feed] = &[
    Feed {
        path: "/normal",
        mode: Mode::Normal,
        has_updates: false,
    },
    Feed {
        path: "/longpoll",
        mode: Mode::Longpoll,
        has_updates: false,
    },
    Feed {
        path: "/continuous",
        mode: Mode::Continuous,
        has_updates: false,
    },
    Feed {
        path: "/updates",
        mode: Mode::Normal,
        has_updates: true,
    },
    Feed {
        path: "/updates/continuous",
        mode: Mode::Continuous,
        has_updates: true,
    },
];

/// A service of a feed of two rows, of a and of b, whose winner is deleted. It also has a feed of updates
/// of d, which was made, edited and removed.
#[derive(Drop)]
pub(crate) struct Rows<'a> {
    pub(crate) alloc: Global,
    pub(crate) mode: Mode,
    /// The stream has updates, not rows.
    pub(crate) has_updates: bool,
    pub(crate) next: u64,
    /// The items that are not ready: bit N stands for the item N, from 0 on.
    pub(crate) late: u64,
    /// The stream stops in place of its End.
    pub(crate) stops: bool,
    /// How many streams were given back.
    pub(crate) dropped: u64,
    /// How many items have news: where there is no news the stream waits.
    pub(crate) news: &'a Cell<u64>,
}

fn row(alloc: Global, seq: u64, doc: &str, rev: &str, deleted: bool) -> Option<Item<ChangeRow>> {
    let doc = Doc::read(alloc, doc.as_bytes(), true).ok()?;
    let mut revs = Vec::new(alloc);
    revs.push(RevId::read(rev)?).ok()?;
    Some(Item::Row(ChangeRow {
        seq,
        id: doc.id,
        changes: Changes::new(Revisions::new(revs)),
        deleted,
        doc: None,
        seen: 2,
    }))
}

impl Rows<'_> {
    /// A stream from its first item. The life in its sequences is 0 for updates, and 1 for rows.
    fn open(&mut self, mode: Mode, has_updates: bool) -> Answer {
        self.mode = mode;
        self.has_updates = has_updates;
        self.next = 0;
        Answer::Stream(mode, if has_updates { 0 } else { 1 })
    }

    /// The item of this number in a feed of rows; None out of memory, and where the stream stops.
    fn change(&self, number: u64) -> Option<Item<ChangeRow>> {
        match (number, self.mode) {
            (0, Mode::Longpoll) => Some(Item::Beat),
            (1, Mode::Longpoll) | (0, _) => row(self.alloc, 1, r#"{"_id":"a"}"#, "1-a", false),
            (1, _) => row(self.alloc, 2, r#"{"_id":"b"}"#, "2-b", true),
            (2, Mode::Continuous) => Some(Item::Beat),
            _ if self.stops => None,
            _ => Some(Item::End {
                last_seq: 2,
                pending: 0,
            }),
        }
    }

    /// The item at this sequence of the updates; None where its name finds no memory.
    fn update(&self, seq: u64) -> Option<Item<UpdateRow>> {
        let kind = match seq {
            1 => UpdateKind::Created,
            2 => UpdateKind::Updated,
            3 => UpdateKind::Deleted,
            _ => {
                return Some(Item::End {
                    last_seq: 3,
                    pending: 7,
                });
            }
        };
        Some(Item::Row(UpdateRow {
            db_name: "d".to_string(self.alloc).ok()?,
            kind,
            seq,
            seen: 3,
        }))
    }
}

impl Service for Rows<'_> {
    ghost rules = { record {
      answers = λ _ _ _ _. Unit {0};
      gives = λ _ _ _. Unit {0};
      drops = λ _ _. Unit {0};
    } };

    fn answer(&mut self, request: &Request) -> Answer {
        let target = request.target.as_slice();
        for feed in FEEDS {
            if target == feed.path.as_bytes() {
                return self.open(feed.mode, feed.has_updates);
            }
        }
        if target != PATH.as_bytes() {
            return Answer::Whole(Reply::Refused(Refusal::Missing));
        }
        match Vec::from_slice(self.alloc, DONE.as_bytes()) {
            Ok(body) => Answer::Whole(Reply::Done {
                status: StatusCode::CREATED,
                body,
            }),
            Err(_) => Answer::Whole(Reply::Refused(Refusal::NoMemory)),
        }
    }

    fn is_ready(&self) -> bool {
        self.late >> self.next.min(63) & 1 == 0
    }

    fn send_next<W: Output>(
        &mut self,
        sending: Sending,
        chunks: &mut ChunkWriter,
        writer: &mut W,
    ) -> Option<SentItem> {
        let news = self.news.get();
        if news == 0 {
            return None;
        }
        let next = self.next.saturating_add(1);
        let sent = if self.has_updates {
            let item = self.update(next)?;
            sending.send(chunks, writer, LentItem::Update(&item))
        } else {
            let item = self.change(self.next)?;
            sending.send(chunks, writer, LentItem::Change(&item))
        };
        self.next = next;
        self.news.set(news - 1);
        Some(sent)
    }

    fn waits(&self) -> bool {
        self.news.get() == 0
    }

    fn drop_stream(&mut self) {
        self.dropped = self.dropped.saturating_add(1);
    }
}
