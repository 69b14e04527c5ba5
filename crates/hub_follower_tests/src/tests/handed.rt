//! Which items are an answer to a follower that asks for changes.

use crate::tests::values::Values;
use crate::tests::{docs, number, numbered, text_of};
use hub_database::DbState;
use hub_document::{ChangeRow, Changes, Doc, DocId, Limits, RevId, Revisions};
use hub_feed::{FeedHost, FeedId, Next};
use hub_filter::Filter;
use hub_follower::rightly_handed;
use hub_model::{Item, Mode, Since, Style};
use hub_params::FeedParams;
use hub_transcript::{Answer, Words, replay};
use std::alloc::{AllocError, Global};
use std::test::Fail;

/// Two databases with the same edits, of which `above` deletes the second, and items of a feed of the first.
#[derive(Drop)]
pub(crate) struct Handed {
    alloc: Global,
    db: DbState,
    deleted: DbState,
    since: u64,
    feed: Option<FeedId>,
    items: Vec<Item<ChangeRow>>,
}

// The revisions of a list with commas; an error out of memory, and each time where a part is no revision.
fn revisions(alloc: Global, texts: &str) -> Result<Revisions, AllocError> {
    let mut revs = Vec::new(alloc);
    for text in texts.split(',') {
        let Some(rev) = RevId::read(text) else {
            return Err(AllocError);
        };
        revs.push(rev)?;
    }
    Ok(Revisions::new(revs))
}

// The part of a word before its first colon, and the part after it.
fn cut(word: &str) -> (&str, &str) {
    word.split_once(':').unwrap_or((word, ""))
}

// The row that a word writes. It is deleted where its only leaf is 2-b, which deletes its document here.
fn row_of(alloc: Global, word: &str) -> Result<ChangeRow, AllocError> {
    let (seq, rest) = cut(word);
    let (id, rest) = cut(rest);
    let (revs, seen) = cut(rest);
    let Some(id) = DocId::read(alloc, id)? else {
        return Err(AllocError);
    };
    Ok(ChangeRow {
        seq: number(seq)?,
        id,
        changes: Changes::new(revisions(alloc, revs)?),
        deleted: revs == "2-b",
        doc: None,
        seen: number(seen)?,
    })
}

// The item that a word writes: `beat`, `end:LAST`, or a row.
fn item_of(alloc: Global, word: &str) -> Result<Item<ChangeRow>, AllocError> {
    if word == "beat" {
        return Ok(Item::Beat);
    }
    if let Some(last_seq) = word.strip_prefix("end:") {
        return Ok(Item::End {
            last_seq: number(last_seq)?,
            pending: 0,
        });
    }
    Ok(Item::Row(row_of(alloc, word)?))
}

/// The items that the words write. This sign stands between two words.
pub(crate) fn items_of(
    alloc: Global,
    words: &str,
    sign: char,
) -> Result<Vec<Item<ChangeRow>>, AllocError> {
    let mut items = Vec::new(alloc);
    for word in words.split(sign) {
        if !word.is_empty() {
            items.push(item_of(alloc, word)?)?;
        }
    }
    Ok(items)
}

// The leaves that a row shows, with commas between them.
fn leaves_of(alloc: Global, row: &ChangeRow) -> Result<Vec<u8>, AllocError> {
    let mut text = Vec::new(alloc);
    for at in 0..row.changes.len() {
        if at > 0 {
            text.push(b',')?;
        }
        if let Some(rev) = row.changes.get(at) {
            rev.print(&mut text)?;
        }
    }
    Ok(text)
}

// Tells an item.
fn tell_item(alloc: Global, item: &Item<ChangeRow>, answer: &mut Answer) -> Result<(), AllocError> {
    match item {
        Item::Row(row) => {
            let leaves = leaves_of(alloc, row)?;
            let leaves = text_of(leaves.as_slice())?;
            answer.line(format_args!("{}:{}:{leaves}:{}", row.seq, row.id.as_str(), row.seen))
        }
        Item::Beat => answer.line("beat"),
        Item::End { last_seq, .. } => answer.line(format_args!("end:{last_seq}")),
    }
}

// Stores documents. Out of memory, the documents before the failing one stay; written again, they are known.
fn write(db: &mut DbState, docs: Vec<Doc>) -> Result<(), AllocError> {
    match db.write_edits(docs, false) {
        Ok(batch) if !batch.stopped => Ok(()),
        _ => Err(AllocError),
    }
}

// The parameters of a follower's feed.
fn asked(since: u64) -> FeedParams {
    FeedParams {
        mode: Mode::Normal,
        since: Since::Plain(since),
        limit: Some(100),
        descending: false,
        style: Style::AllDocs,
        include_docs: false,
        filter: Filter::All,
        heartbeat: None,
        timeout: 0,
    }
}

impl Handed {
    /// An empty database.
    pub(crate) fn new(alloc: Global) -> Handed {
        Handed {
            alloc,
            db: DbState::new(alloc, Limits::full(), 1),
            deleted: DbState::new(alloc, Limits::full(), 1),
            since: 0,
            feed: None,
            items: Vec::new(alloc),
        }
    }

    fn put(&mut self, words: &str, answer: &mut Answer) -> Result<(), AllocError> {
        write(&mut self.db, docs(self.alloc, words)?)?;
        write(&mut self.deleted, docs(self.alloc, words)?)?;
        answer.line(format_args!("{} edits", self.db.update_seq()))
    }

    // Tells whether items are right. The deleted database has to decide as the other one does.
    fn decide(
        &self,
        since: u64,
        items: &[Item<ChangeRow>],
        answer: &mut Answer,
    ) -> Result<(), AllocError> {
        let right = rightly_handed(self.alloc, &self.db, since, items)?;
        let deleted = rightly_handed(self.alloc, &self.deleted, since, items)?;
        if right != deleted {
            return answer.line("decided otherwise once it is deleted");
        }
        answer.line(if right { "right" } else { "wrong" })
    }

    fn above(&mut self, words: &mut Words<'_>, answer: &mut Answer) -> Result<(), AllocError> {
        let since = number(words.word())?;
        let items = items_of(self.alloc, words.rest(), ' ')?;
        if !self.deleted.is_deleted() && self.deleted.delete().is_err() {
            return answer.line("not deleted");
        }
        self.decide(since, items.as_slice(), answer)
    }

    // Opens a feed. Out of memory, no feed is opened.
    fn open(&mut self, since: u64) -> Result<(), AllocError> {
        match self.db.open_feed(asked(since)) {
            Ok(feed) => {
                self.since = since;
                self.feed = Some(feed);
                Ok(())
            }
            Err(_) => Err(AllocError),
        }
    }

    // Takes the next item of the feed, and tells it. Out of memory, the item stays due.
    fn hand(&mut self, answer: &mut Answer) -> Result<(), AllocError> {
        let Some(feed) = self.feed else {
            return answer.line("no feed");
        };
        self.items.reserve(1)?;
        match self.db.next_item(feed)? {
            Next::Give(item) => {
                tell_item(self.alloc, &item, answer)?;
                self.db.accept_item(feed, &item);
                self.items.push(item)?;
                Ok(())
            }
            Next::Nothing | Next::Gone => answer.line("nothing is due"),
        }
    }

    // Tells whether the rows of so many documents, with their end, are right.
    fn rows(&mut self, count: u64, answer: &mut Answer) -> Result<(), AllocError> {
        write(&mut self.db, numbered(self.alloc, count)?)?;
        write(&mut self.deleted, numbered(self.alloc, count)?)?;
        let mut items = Vec::new(self.alloc);
        for number in 0..count {
            let seq = number.saturating_add(1);
            let row = format!(in self.alloc; "{seq}:d{number}:1-a:{seq}")?;
            items.push(item_of(self.alloc, row.as_str())?)?;
        }
        items.push(Item::End {
            last_seq: count,
            pending: 0,
        })?;
        self.decide(0, items.as_slice(), answer)
    }

    /// Carries out a command.
    pub(crate) fn answer(&mut self, command: &str, answer: &mut Answer) -> Result<(), AllocError> {
        let mut words = Words::of(command);
        match words.verb("put feed hand handed above rows") {
            0 => self.put(words.rest(), answer),
            1 => self.open(number(words.rest())?),
            2 => self.hand(answer),
            3 => self.decide(self.since, self.items.as_slice(), answer),
            4 => self.above(&mut words, answer),
            5 => self.rows(number(words.rest())?, answer),
            _ => answer.line("?"),
        }
    }
}

// Items that feeds hand, also where documents move between their rows.
const FEEDS: &str = r#"
# three documents
> put {"_id":"a","_revisions":{"start":2,"ids":["c","a"]}} {"_id":"b","_rev":"1-b"} {"_id":"x","_revisions":{"start":2,"ids":["b","q"]},"_deleted":true} {"_id":"x","_revisions":{"start":2,"ids":["a","q"]}} {"_id":"x","_rev":"1-z"}
5 edits
> feed 0
> hand
1:a:2-c:5
> hand
2:b:1-b:5
> hand
5:x:2-a,1-z,2-b:5
> hand
end:5
> handed
right
# the last of them
> put {"_id":"a","_revisions":{"start":2,"ids":["c","a"]}} {"_id":"b","_rev":"1-b"} {"_id":"x","_revisions":{"start":2,"ids":["b","q"]},"_deleted":true} {"_id":"x","_revisions":{"start":2,"ids":["a","q"]}} {"_id":"x","_rev":"1-z"}
5 edits
> feed 2
> hand
5:x:2-a,1-z,2-b:5
> hand
end:5
> handed
right
# none
> put {"_id":"a","_revisions":{"start":2,"ids":["c","a"]}} {"_id":"b","_rev":"1-b"} {"_id":"x","_revisions":{"start":2,"ids":["b","q"]},"_deleted":true} {"_id":"x","_revisions":{"start":2,"ids":["a","q"]}} {"_id":"x","_rev":"1-z"}
5 edits
> feed 5
> hand
end:5
> handed
right
# b moves while it is still to come
> put {"_id":"a","_revisions":{"start":2,"ids":["c","a"]}} {"_id":"b","_rev":"1-b"} {"_id":"x","_revisions":{"start":2,"ids":["b","q"]},"_deleted":true} {"_id":"x","_revisions":{"start":2,"ids":["a","q"]}} {"_id":"x","_rev":"1-z"}
5 edits
> feed 0
> hand
1:a:2-c:5
> put {"_id":"b","_revisions":{"start":2,"ids":["d","b"]}}
6 edits
> hand
5:x:2-a,1-z,2-b:6
> hand
end:5
> handed
right
# x moves while it is still to come, and then b behind its own row
> put {"_id":"a","_revisions":{"start":2,"ids":["c","a"]}} {"_id":"b","_rev":"1-b"} {"_id":"x","_revisions":{"start":2,"ids":["b","q"]},"_deleted":true} {"_id":"x","_revisions":{"start":2,"ids":["a","q"]}} {"_id":"x","_rev":"1-z"}
5 edits
> feed 0
> hand
1:a:2-c:5
> put {"_id":"x","_revisions":{"start":3,"ids":["d","a","q"]}}
6 edits
> hand
2:b:1-b:6
> put {"_id":"b","_revisions":{"start":2,"ids":["d","b"]}}
7 edits
> hand
end:5
> handed
right
"#;

#[test]
fn what_feeds_hand_is_right(rt: HostRuntime) -> Result<(), Fail> {
    replay::<Values, _>(&rt, rt.alloc(), FEEDS)
}

// The database has edits of three documents, of which x has three leaves. In a later case a document's parent
// came late. An answer has a hundred rows at most.
const DECIDED: &str = r#"
# rows of all documents, and above a sequence
> put {"_id":"a","_revisions":{"start":2,"ids":["c","a"]}} {"_id":"b","_rev":"1-b"} {"_id":"x","_revisions":{"start":2,"ids":["b","q"]},"_deleted":true} {"_id":"x","_revisions":{"start":2,"ids":["a","q"]}} {"_id":"x","_rev":"1-z"}
5 edits
> above 0 1:a:2-c:5 2:b:1-b:5 5:x:2-a,1-z,2-b:5 end:5
right
> above 1 2:b:1-b:5 5:x:2-a,1-z,2-b:5 end:5
right
# up to 2, and between documents that moved
> put {"_id":"a","_revisions":{"start":2,"ids":["c","a"]}} {"_id":"b","_rev":"1-b"} {"_id":"x","_revisions":{"start":2,"ids":["b","q"]},"_deleted":true} {"_id":"x","_revisions":{"start":2,"ids":["a","q"]}} {"_id":"x","_rev":"1-z"}
5 edits
> above 0 1:a:2-c:5 2:b:1-b:5 end:2
right
> above 0 1:a:2-c:5 2:b:1-b:5 end:4
right
# made one after the other, when x had one leaf, and that x came again
> put {"_id":"a","_revisions":{"start":2,"ids":["c","a"]}} {"_id":"b","_rev":"1-b"} {"_id":"x","_revisions":{"start":2,"ids":["b","q"]},"_deleted":true} {"_id":"x","_revisions":{"start":2,"ids":["a","q"]}} {"_id":"x","_rev":"1-z"}
5 edits
> above 0 1:a:2-c:1 2:b:1-b:3 5:x:2-a,1-z,2-b:5 end:5
right
> above 0 3:x:2-b:3 end:3
wrong
> above 2 3:x:2-b:3 5:x:2-a,1-z,2-b:5 end:5
right
# a row is left out, comes twice, comes too early; rows in another order
> put {"_id":"a","_revisions":{"start":2,"ids":["c","a"]}} {"_id":"b","_rev":"1-b"} {"_id":"x","_revisions":{"start":2,"ids":["b","q"]},"_deleted":true} {"_id":"x","_revisions":{"start":2,"ids":["a","q"]}} {"_id":"x","_rev":"1-z"}
5 edits
> above 0 1:a:2-c:5 5:x:2-a,1-z,2-b:5 end:5
wrong
> above 0 1:a:2-c:5 2:b:1-b:5 2:b:1-b:5 5:x:2-a,1-z,2-b:5 end:5
wrong
> above 1 1:a:2-c:5 2:b:1-b:5 5:x:2-a,1-z,2-b:5 end:5
wrong
> above 0 2:b:1-b:5 1:a:2-c:5 5:x:2-a,1-z,2-b:5 end:5
wrong
# another revision, document or sequence; a leaf is missing; leaves in another order
> put {"_id":"a","_revisions":{"start":2,"ids":["c","a"]}} {"_id":"b","_rev":"1-b"} {"_id":"x","_revisions":{"start":2,"ids":["b","q"]},"_deleted":true} {"_id":"x","_revisions":{"start":2,"ids":["a","q"]}} {"_id":"x","_rev":"1-z"}
5 edits
> above 0 1:a:2-c:5 2:b:1-c:5 5:x:2-a,1-z,2-b:5 end:5
wrong
> above 0 1:a:2-c:5 2:c:1-b:5 5:x:2-a,1-z,2-b:5 end:5
wrong
> above 0 1:a:2-c:5 3:b:1-b:5 5:x:2-a,1-z,2-b:5 end:5
wrong
> above 0 1:a:2-c:5 2:b:1-b:5 5:x:2-a,2-b:5 end:5
wrong
> above 0 1:a:2-c:5 2:b:1-b:5 5:x:1-z,2-a,2-b:5 end:5
wrong
# not current when it was made, made before its edit or behind the last, or made before the row before it
> put {"_id":"a","_revisions":{"start":2,"ids":["c","a"]}} {"_id":"b","_rev":"1-b"} {"_id":"x","_revisions":{"start":2,"ids":["b","q"]},"_deleted":true} {"_id":"x","_revisions":{"start":2,"ids":["a","q"]}} {"_id":"x","_rev":"1-z"}
5 edits
> above 2 3:x:2-b:4 5:x:2-a,1-z,2-b:5 end:5
wrong
> above 0 1:a:2-c:5 2:b:1-b:1 5:x:2-a,1-z,2-b:5 end:5
wrong
> above 0 1:a:2-c:5 2:b:1-b:5 5:x:2-a,1-z,2-b:6 end:5
wrong
> above 0 1:a:2-c:5 2:b:1-b:3 5:x:2-a,1-z,2-b:5 end:5
wrong
# an end below a row, above the journal, below the sequence asked for, none, two, in front; a heartbeat
> put {"_id":"a","_revisions":{"start":2,"ids":["c","a"]}} {"_id":"b","_rev":"1-b"} {"_id":"x","_revisions":{"start":2,"ids":["b","q"]},"_deleted":true} {"_id":"x","_revisions":{"start":2,"ids":["a","q"]}} {"_id":"x","_rev":"1-z"}
5 edits
> above 0 1:a:2-c:5 2:b:1-b:5 5:x:2-a,1-z,2-b:5 end:4
wrong
> above 0 1:a:2-c:5 2:b:1-b:5 5:x:2-a,1-z,2-b:5 end:6
wrong
> above 6 end:6
wrong
> above 5 end:4
wrong
> above 0 1:a:2-c:5 2:b:1-b:5 5:x:2-a,1-z,2-b:5
wrong
> above 0 1:a:2-c:5 2:b:1-b:5 5:x:2-a,1-z,2-b:5 end:5 end:5
wrong
> above 0 end:5 1:a:2-c:5 2:b:1-b:5 5:x:2-a,1-z,2-b:5
wrong
> above 0 1:a:2-c:5 beat 2:b:1-b:5 5:x:2-a,1-z,2-b:5 end:5
wrong
> above 5
wrong
# two revisions alone, and a later one behind which both stand: before it came, both were leaves
> put {"_id":"x","_rev":"2-b"} {"_id":"x","_rev":"3-c"} {"_id":"x","_revisions":{"start":4,"ids":["d","c","b"]}}
3 edits
> above 0 3:x:4-d:3 end:3
right
> above 1 2:x:3-c,2-b:2 3:x:4-d:3 end:3
right
> above 1 2:x:3-c:2 3:x:4-d:3 end:3
wrong
> above 1 2:x:3-c,2-b:3 3:x:4-d:3 end:3
wrong
> above 0 3:x:4-d,2-b:3 end:3
wrong
# a hundred rows at most
> rows 100
right
# a hundred and one rows
> rows 101
wrong
"#;

#[test]
fn items_are_decided(rt: HostRuntime) -> Result<(), Fail> {
    replay::<Values, _>(&rt, rt.alloc(), DECIDED)
}
