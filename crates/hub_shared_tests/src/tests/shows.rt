//! Rows with documents that are shown where they lie, and whose memory serves the next rows.

use crate::tests::shared::Shared;
use hub_document::{ChangeRow, Doc};
use hub_model::Item;
use hub_shared::ChangeItem;
use hub_transcript::{Answer, replay};
use std::alloc::{AllocError, Global};
use std::test::Fail;

// How many documents a round has: two holdings hand them.
const COUNT: u64 = 42;

// The members of the document of this number in this round: a text of 0 to 40 bytes.
fn members(alloc: Global, number: u64, round: u64) -> Result<String, AllocError> {
    let length = number.saturating_mul(7).saturating_mul(round) % 41;
    let mut text = String::from_str(alloc, r#"{"v":""#)?;
    for _ in 0..length {
        text.push('x')?;
    }
    text.push_str(r#""}"#)?;
    Ok(text)
}

/// The documents of a round, which is the generation of their revisions. Their ids are the numbers from 0 on.
pub(crate) fn round_docs(alloc: Global, round: u64) -> Result<Vec<Doc>, AllocError> {
    let mut docs = Vec::new(alloc);
    for number in 0..COUNT {
        let members = members(alloc, number, round)?;
        let rest = members.as_str().strip_prefix('{').unwrap_or("");
        let text = format!(in alloc; r#"{{"_id":"{number}","_rev":"{round}-a",{rest}"#)?;
        let Ok(doc) = Doc::read(alloc, text.as_bytes(), false) else {
            return Err(AllocError);
        };
        docs.push(doc)?;
    }
    Ok(docs)
}

// Whether a row has the id and the members of the document with its sequence, where rounds alone were written.
fn is_written(alloc: Global, row: &ChangeRow) -> Result<bool, AllocError> {
    let before = row.seq.saturating_sub(1);
    let number = before % COUNT;
    let id = format!(in alloc; "{number}")?;
    let members = members(alloc, number, (before / COUNT).saturating_add(1))?;
    let Some(body) = &row.doc else {
        return Ok(false);
    };
    Ok(row.id.as_str() == id.as_str() && body.as_bytes() == members.as_bytes())
}

/// The rows that a feed showed.
#[derive(Drop)]
pub(crate) struct Tally {
    alloc: Global,
    // The first sequence and the last one.
    first: u64,
    last: u64,
    // How many rows are as they were written.
    rows: u64,
    // How many items were left before a poll.
    left: u64,
}

impl Tally {
    /// No rows.
    pub(crate) fn new(alloc: Global) -> Tally {
        Tally {
            alloc,
            first: 0,
            last: 0,
            rows: 0,
            left: 0,
        }
    }

    /// Counts an item that was left before a poll, if one was.
    pub(crate) fn count_left(&mut self, is_left: bool) {
        if is_left {
            self.left = self.left.saturating_add(1);
        }
    }

    /// Counts a row that is as it was written.
    pub(crate) fn see(&mut self, item: &ChangeItem) -> Result<(), AllocError> {
        let Item::Row(row) = item else {
            return Ok(());
        };
        if self.first == 0 {
            self.first = row.seq;
        }
        self.last = row.seq;
        if is_written(self.alloc, row)? {
            self.rows = self.rows.saturating_add(1);
        }
        Ok(())
    }

    /// Writes the counts.
    pub(crate) fn put(&self, answer: &mut Answer) -> Result<(), AllocError> {
        let Tally {
            first,
            last,
            rows,
            left,
            ..
        } = self;
        answer.line(format_args!(
            "{rows} rows as written, of {first} to {last}, {left} left by earlier polls"
        ))
    }
}

const SHOWN: &str = r#"
# two holdings hand the rows of a round, over the rows that were shown before
> round 1
> open feed=continuous&include_docs=true
since 0 of life 6
> show 1
42 rows as written, of 1 to 42, 40 left by earlier polls
> held 1
2
> round 2
> show 1
42 rows as written, of 43 to 84, 40 left by earlier polls
> held 1
4
> show 1
0 rows as written, of 0 to 0, 0 left by earlier polls
"#;

#[test]
fn rows_are_shown_as_they_were_written(rt: HostRuntime) -> Result<(), Fail> {
    replay::<Shared, _>(&rt, rt.alloc(), SHOWN)
}
