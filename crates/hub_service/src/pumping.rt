//! How the items of feeds come to the connection that sends them.

ghost use Rattle.std.specs.Prelude.{◌≡◌};

use hub_feed::FeedHost;
use hub_shared::{Gate, HostFeed, Point, Turn};
use std::sync::Wait;

/// A way to hand feeds their items while a connection sends them.
pub trait Pumping: Drop {
    /// Called before each answer to a request: a test may hold the connection there.
    fn pass_request(&self);

    /// Hands a feed its next item, unless an item is left to take. There is none where the feed waits, and where
    /// it is handed no further, as out of memory.
    fn hand<S: FeedHost>(&self, feed: &mut HostFeed<S>)
        ensures { feed.new ≡ feed.old };

    /// Whether a feed without a next item waits, and may have one later.
    fn waits<S: FeedHost>(&self, feed: &HostFeed<S>) -> bool;
}

// A gate that holds nobody.
#[derive(Drop)]
struct OpenGate;

impl Gate for OpenGate {
    fn pass(&self, _point: Point) {}
}

/// By turns: one thread hands a feed's items, and takes them. Where nothing is due to a feed its time is
/// over, since every writer waits for this thread.
#[derive(Drop)]
pub struct ByTurns<'h, N: Wait> {
    rt: &'h N,
}

impl<'h, N: Wait> ByTurns<'h, N> {
    /// The way of a thread that does both.
    pub fn new(rt: &'h N) -> ByTurns<'h, N> {
        ByTurns { rt }
    }
}

impl<'h, N: Wait> Pumping for ByTurns<'h, N> {
    fn pass_request(&self) {}

    fn hand<S: FeedHost>(&self, feed: &mut HostFeed<S>) {
        let is_held = !feed.fetch(self.rt) && feed.hold(self.rt, Turn::Hand, &OpenGate).is_ok();
        if is_held && !feed.fetch(self.rt) && feed.hold(self.rt, Turn::Expire, &OpenGate).is_ok() {
            let _ = feed.hold(self.rt, Turn::Hand, &OpenGate);
        }
    }

    fn waits<S: FeedHost>(&self, _feed: &HostFeed<S>) -> bool {
        false
    }
}
