//! The types of feeds that code and definitions share (CouchDB API reference, `_changes`).

ghost use Rattle.std.specs.Prelude.{◌≡◌};
ghost use Rattle.hub_model.specs.Feed.{since_of, is_waiting_mode};
ghost use Rattle.hub_model.specs.RightlyHanded.{is_end};

use crate::by_mode;

/// How long a feed lasts.
#[derive(Clone, Copy, Debug, PartialEq, Eq)]
pub enum Mode {
    /// The feed shows rows up to the last edit at its opening, and then ends.
    Normal,
    /// The feed waits for a first row, shows rows up to the last edit of that moment, and then ends.
    Longpoll,
    /// The feed goes on with later edits. Its limit, its time or a deletion may end it.
    Continuous,
}

impl Mode {
    /// Whether a feed of this mode waits for later edits.
    pub fn waits(self) -> bool
        ensures { result ≡ is_waiting_mode self }
    {
        by_mode!(
            self,
            normal: false,
            longpoll: true,
            continuous: true,
        )
    }
}

/// Which revisions a row lists.
#[derive(Clone, Copy, Debug, PartialEq, Eq)]
pub enum Style {
    /// The winner alone.
    MainOnly,
    /// Every leaf, best first.
    AllDocs,
}

/// The sequence after which a feed begins.
#[derive(Clone, Copy, Debug, PartialEq, Eq)]
pub enum Since {
    /// After the last edit at the feed's opening.
    Now,
    /// After this sequence, whatever life the edits are of.
    Plain(u64),
    /// After this sequence of the life with this number. In another life: from the first edit on.
    Tagged(u64, u64),
}

impl Since {
    /// The sequence after which a feed begins, in the life of this number and while there are `length` edits.
    /// It is `length` at most. Constant time.
    pub fn within(self, length: u64, life: u64) -> u64
        ensures { result ≡ since_of self length life }
    {
        match self {
            Since::Now => length,
            Since::Plain(seq) => seq.min(length),
            Since::Tagged(seq, of) if of == life => seq.min(length),
            Since::Tagged(_seq, _of) => 0,
        }
    }
}

/// An item that a feed hands to its subscriber. `R` is the type of its rows.
#[derive(Debug, Drop)]
pub enum Item<R> {
    /// A row.
    Row(R),
    /// A heartbeat.
    Beat,
    /// The end of the feed. `last_seq` is the feed's place, and `pending` is the number of the current rows
    /// above it, whether they pass the filter or not.
    End { last_seq: u64, pending: u64 },
}

impl<R> Item<R> {
    /// Whether this item is the end of its feed.
    pub fn is_end(&self) -> bool
        ensures { result ≡ is_end self.now }
    {
        matches!(self, Item::End { .. })
    }
}
