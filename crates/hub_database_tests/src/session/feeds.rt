//! Feeds.

use crate::listed::{Listed, NoHandle};
use crate::session::Session;
use crate::session::items::{put_item, put_refusal};
use hub_database::DbState;
use hub_document::ChangeRow;
use hub_feed::{FeedHost, FeedId, Handed, Next, OpenFault};
use hub_model::Item;
use hub_params::FeedParams;
use hub_transcript::Words;
use std::alloc::AllocError;
use std::fmt::{Debug, Write};
use std::mem;

// Answers the next item that a feed has to hand, and accepts it.
fn take(state: &mut DbState, feed: FeedId) -> Result<Next<ChangeRow>, AllocError> {
    match state.next_item(feed)? {
        Next::Give(item) => {
            state.accept_item(feed, &item);
            Ok(Next::Give(item))
        }
        Next::Nothing => Ok(Next::Nothing),
        Next::Gone => Ok(Next::Gone),
    }
}

// Writes an item behind its word.
fn put_named(out: &mut String, item: &Item<ChangeRow>) -> Result<(), AllocError> {
    out.push_str(if item.is_end() { "End" } else { "Row" })?;
    put_item(out, item)
}

// Writes the item that a feed had to hand.
fn put_next(out: &mut String, next: &Next<ChangeRow>) -> Result<(), AllocError> {
    match next {
        Next::Give(item) => put_named(out, item),
        Next::Nothing => out.push_str("Nothing\n"),
        Next::Gone => out.push_str("Gone\n"),
    }
}

// Writes the outcome of a hand, and the item that it handed.
fn put_handed(
    out: &mut String,
    did: &impl Debug,
    items: &[Item<ChangeRow>],
) -> Result<(), AllocError> {
    write!(out, "{did:?}")?;
    match items.first() {
        Some(item) => put_item(out, item),
        None => out.push('\n'),
    }
}

impl Session {
    // Opens a feed; an error out of memory, and each time where the query is refused.
    pub(super) fn open(&mut self, query: &str, out: &mut String) -> Result<(), AllocError> {
        let Ok(params) = FeedParams::read(self.alloc, query.as_bytes(), b"") else {
            return Err(AllocError);
        };
        match self.state.open_feed(params) {
            Ok(feed) => writeln!(out, "feed {}", feed.number),
            Err(OpenFault::NoMemory) => Err(AllocError),
            Err(fault) => put_refusal(out, &fault),
        }
    }

    // Hands the next item of a feed into a list with room for so many.
    fn hand(&mut self, feed: FeedId, room: usize, out: &mut String) -> Result<(), AllocError> {
        let mut list = Listed::new(self.alloc, room)?;
        let did = self.state.hand(feed, &NoHandle, &mut list)?;
        put_handed(out, &did, list.items())
    }

    // Hands so many items of a feed at most. Items before one that found no memory stay handed: the list keeps
    // them, and the rest is handed once more.
    fn hand_rest(
        &mut self,
        feed: FeedId,
        most: u64,
        list: &mut Listed<Item<ChangeRow>>,
    ) -> Result<(Handed, u64), AllocError> {
        if let Ok(did) = self.state.hand_items(feed, &NoHandle, list, most) {
            return Ok(did);
        }
        let taken = list.items().len() as u64;
        let rest = most.saturating_sub(taken);
        let (last, count) = self.state.hand_items(feed, &NoHandle, list, rest)?;
        Ok((last, taken.saturating_add(count)))
    }

    // Hands so many items of a feed at most into a list, and writes the outcome and each item.
    fn hand_items(
        &mut self,
        feed: FeedId,
        most: u64,
        mut list: Listed<Item<ChangeRow>>,
        out: &mut String,
    ) -> Result<(), AllocError> {
        let (last, count) = self.hand_rest(feed, most, &mut list)?;
        self.items = list.into_items();
        writeln!(out, "{last:?} {count}")?;
        for item in &self.items {
            put_named(out, item)?;
        }
        Ok(())
    }

    // Carries out a command on several items of a feed.
    fn run_items(&mut self, command: &str, out: &mut String) -> Result<(), AllocError> {
        let mut words = Words::of(command);
        let place = words.verb("items items-full items-over");
        let feed = FeedId {
            number: words.number(),
        };
        let most = words.number();
        let room = if place == 1 {
            most.saturating_sub(1)
        } else {
            most
        };
        let list = Listed::new(self.alloc, room as usize)?;
        match place {
            0 | 1 => self.hand_items(feed, most, list, out),
            2 => {
                let spare = mem::replace(&mut self.items, Vec::new(self.alloc));
                self.hand_items(feed, most, list.with_spare(spare), out)
            }
            _ => out.push_str("?"),
        }
    }

    // Carries out a command on a feed.
    pub(super) fn run_feed(&mut self, command: &str, out: &mut String) -> Result<(), AllocError> {
        let mut words = Words::of(command);
        let place = words.verb("take hand full beat-due expire finish");
        let feed = FeedId {
            number: words.number(),
        };
        match place {
            0 => put_next(out, &take(&mut self.state, feed)?),
            1 => self.hand(feed, 1, out),
            2 => self.hand(feed, 0, out),
            3 => writeln!(out, "{}", self.state.beat_due(feed)),
            4 => {
                self.state.expire(feed);
                Ok(())
            }
            5 => {
                self.state.finish(feed);
                Ok(())
            }
            _ => self.run_items(command, out),
        }
    }
}
