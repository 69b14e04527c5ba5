//! The feeds and lists that a connection sends.

ghost use Rattle.std.specs.Prelude.{◌≡◌};
ghost use Rattle.hub_session.specs.Feeds.{SendsItem, SendsNext};
ghost use Rattle.hub_session.specs.StreamItem.{Change};
ghost use Rattle.hub_service.specs.Feeds.{GoesOn, behind_listed, life_of, next_listed};

use crate::pumping::Pumping;
use hub_database::Descending;
use hub_document::ChangeRow;
use hub_http::{ChunkWriter, Output};
use hub_model::Item;
use hub_session::{LentItem, Sending, SentItem};
use hub_shared::{Feed, Plain, UpdatesFeed};
use std::marker::Model;
use std::sync::Wait;
use std::vec::IntoIter;

/// The rest of an answer that was made at once: the rows that are left, and the end.
#[derive(Drop)]
pub(crate) struct Listed {
    /// The rows that were not handed yet.
    rows: IntoIter<ChangeRow>,
    last_seq: u64,
    pending: u64,
    /// The number of the life of the sequences.
    life: u64,
}

impl Model for Listed {
    ghost use Rattle.std.specs.Vec.Iter.{into_iter_items};
    ghost use Rattle.hub_model.specs.Descending.{Descending as Answer};

    ghost Value = { Answer };

    ghost view = { λ a. record {
      rows = into_iter_items a.rows;
      last_seq = a.last_seq;
      pending = a.pending;
      life = a.life;
    } };
}

impl Listed {
    /// The whole answer: nothing of it was handed.
    pub(crate) fn new(answer: Descending) -> Listed
        ensures { result ≡ answer }
    {
        let Descending {
            rows,
            last_seq,
            pending,
            life,
        } = answer;
        Listed {
            rows: rows.into_iter(),
            last_seq,
            pending,
            life,
        }
    }

    /// Its next item: a row, and its end once no row is left.
    pub(crate) fn next(&mut self) -> Item<ChangeRow>
        ensures item { result ≡ next_listed self.old }
        ensures rest { self.new ≡ behind_listed self.old }
    {
        match self.rows.next() {
            Some(row) => Item::Row(row),
            None => Item::End {
                last_seq: self.last_seq,
                pending: self.pending,
            },
        }
    }
}

impl Listed {
    // Sends its next item. The call is never inlined: a feed's rows are sent by the same loop, and would pay for
    // the room of the item.
    #[inline(never)]
    fn send_next<W: Output>(
        &mut self,
        sending: Sending,
        chunks: &mut ChunkWriter,
        writer: &mut W,
    ) -> SentItem
        ensures item { SendsItem W.written W.fault_count W.failure_count sending
            (Change (next_listed self.old)) result writer.old writer.new }
        ensures rest { self.new ≡ behind_listed self.old }
    {
        let item = self.next();
        sending.send(chunks, writer, LentItem::Change(&item))
    }
}

/// A feed or a list that a connection sends, item by item.
#[derive(Drop)]
pub(crate) enum Sent {
    /// The rest of an answer that was made at once.
    Listed(Listed),
    /// A feed of a database.
    Changes(Feed<Plain>),
    /// A feed of the log of updates.
    Updates(UpdatesFeed),
}

impl Sent {
    /// The number of the life of its sequences. Constant time.
    pub(crate) fn life(&self) -> u64
        ensures { result ≡ life_of self.now }
    {
        match self {
            Sent::Listed(listed) => listed.life,
            Sent::Changes(feed) => feed.end().label().life(),
            Sent::Updates(feed) => feed.end().label().life(),
        }
    }

    /// Sends its next item, and becomes its own rest. There is no next item where a feed is handed no further.
    /// The cost is that of `Pumping::hand`, and the item's text; a row of a list is moved out of the list.
    pub(crate) fn send_next<N: Wait, P: Pumping, W: Output>(
        &mut self,
        rt: &N,
        pumping: &P,
        sending: Sending,
        chunks: &mut ChunkWriter,
        writer: &mut W,
    ) -> Option<SentItem>
        ensures { SendsNext GoesOn W.written W.fault_count W.failure_count sending result
            self.old self.new writer.old writer.new }
    {
        match self {
            Sent::Listed(listed) => Some(listed.send_next(sending, chunks, writer)),
            Sent::Changes(feed) => {
                if !feed.end().has_left() {
                    pumping.hand(feed);
                }
                feed.show(rt, chunks, writer, |item, chunks, writer| {
                    sending.send(chunks, writer, LentItem::Change(item))
                })
            }
            Sent::Updates(feed) => {
                if !feed.end().has_left() {
                    pumping.hand(feed);
                }
                feed.show(rt, chunks, writer, |item, chunks, writer| {
                    sending.send(chunks, writer, LentItem::Update(item))
                })
            }
        }
    }

    /// Ends the sending: the host of a feed forgets the feed.
    pub(crate) fn finish<N: Wait>(self, rt: &N) {
        match self {
            Sent::Listed(_) => {}
            Sent::Changes(feed) => {
                feed.finish(rt);
            }
            Sent::Updates(feed) => {
                feed.finish(rt);
            }
        }
    }
}
