//! The answer of a hand.

ghost use Rattle.std.specs.Prelude.{◌≡◌};
ghost use Rattle.hub_feed.specs.Hand.{handed_as};

use hub_model::Item;

/// The answer of a hand: the item that the sink took, or why it took none.
#[derive(Clone, Copy, Debug, PartialEq, Eq)]
pub enum Handed {
    /// The sink took a row.
    Row,
    /// The sink took the end.
    End,
    /// The sink gave the item back, and nothing changed.
    Full,
    /// There was nothing to hand, and the feed's place is the length.
    Nothing,
    /// The feed will hand nothing more, or there is no such feed.
    Gone,
}

impl Handed {
    // The answer of a hand whose item the sink took. A heartbeat counts as a row.
    pub(crate) fn of<T>(item: &Item<T>) -> Handed
        ensures { result ≡ handed_as item.now }
    {
        match item {
            Item::End { .. } => Handed::End,
            Item::Row(_) | Item::Beat => Handed::Row,
        }
    }
}
