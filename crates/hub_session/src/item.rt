//! The items of streams.
ghost use Rattle.std.specs.Prelude.{◌≡◌};
ghost use Rattle.hub_session.specs.Feeds.{SendsItem};
ghost use Rattle.hub_session.specs.Items.{is_end, is_row, stream_item_text};
ghost use Rattle.hub_session.specs.Lent.{lent_in};

use hub_document::{ChangeRow, UpdateRow};
use hub_http::{ChunkFault, ChunkWriter, Output, Text, item_text};
use hub_model::{Item, Mode};
use std::alloc::AllocError;

/// An item that a stream hands to its subscriber, lent. The service chooses the kind of its stream's items.
#[derive(Clone, Copy)]
pub enum LentItem<'a> {
    /// An item of a feed of changes of a database (CouchDB API reference, `_changes`).
    Change(&'a Item<ChangeRow>),
    /// An item of a feed of the log of updates (CouchDB API reference, `_db_updates`).
    Update(&'a Item<UpdateRow>),
}

impl LentItem<'_> {
    /// Whether the item is the end of its stream.
    fn is_end(self) -> bool
        ensures { result ≡ is_end (lent_in self.entry) }
    {
        match self {
            LentItem::Change(item) => item.is_end(),
            LentItem::Update(item) => item.is_end(),
        }
    }

    /// Whether the item is a row, and no heartbeat or end.
    fn is_row(self) -> bool
        ensures { result ≡ is_row (lent_in self.entry) }
    {
        match self {
            LentItem::Change(item) => matches!(item, Item::Row(_)),
            LentItem::Update(item) => matches!(item, Item::Row(_)),
        }
    }
}

/// An item, with the stream that sends it: both make the item's text.
#[derive(Clone, Copy)]
struct ItemText<'a> {
    item: LentItem<'a>,
    sending: Sending,
}

impl Text for ItemText<'_> {
    ghost bytes = { λ t. stream_item_text t.sending.mode t.sending.life t.sending.rows (lent_in t.item) };

    fn append(&self, buffer: &mut Vec<u8>) -> Result<(), AllocError> {
        let Sending { mode, life, rows } = self.sending;
        match self.item {
            LentItem::Change(item) => item_text(buffer, mode, rows, life, item),
            LentItem::Update(item) => item_text(buffer, mode, rows, life, item),
        }
    }
}

/// A stream that is being sent.
#[derive(Clone, Copy)]
pub struct Sending {
    pub(crate) mode: Mode,
    /// The number of the life of its sequences.
    pub(crate) life: u64,
    /// How many rows were sent.
    pub(crate) rows: u64,
}

/// An item whose text was written.
#[derive(Clone, Copy, Debug)]
pub struct SentItem {
    /// Whether the item is a row, and no heartbeat or end.
    pub is_row: bool,
    /// Whether the item is the end of its stream.
    pub is_end: bool,
    /// Whether its whole text was written, or which fault came.
    pub written: Result<(), ChunkFault>,
}

impl Sending {
    /// A stream of which no row was sent yet. Its sequences have the life of this number.
    pub fn new(mode: Mode, life: u64) -> Sending
        ensures { result ≡ record { mode = mode; life = life; rows = 0 } }
    {
        Sending {
            mode,
            life,
            rows: 0,
        }
    }

    /// Writes the text of the stream's next item to a writer, as one chunk. Nothing is flushed. The cost is the
    /// text's length and one write. It takes memory only where the text is longer than each text before it. The
    /// call is inlined: a stream sends each of its items by it.
    #[inline(always)]
    pub fn send<W: Output>(
        self,
        chunks: &mut ChunkWriter,
        writer: &mut W,
        item: LentItem<'_>,
    ) -> SentItem
        ensures { SendsItem W.written W.fault_count W.failure_count self (lent_in item.entry) result
            writer.old writer.new }
    {
        let text = ItemText {
            item,
            sending: self,
        };
        SentItem {
            is_row: item.is_row(),
            is_end: item.is_end(),
            written: chunks.write(writer, &text),
        }
    }
}
