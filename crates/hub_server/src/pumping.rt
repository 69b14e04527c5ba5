//! How the server hands feeds their items.

use hub_feed::FeedHost;
use hub_service::Pumping;
use hub_shared::{Clock, Gate, HostFeed, Point};
use std::sync::Wait;

/// By workers: the worker that steps a connection also hands its feed. Nobody waits for a feed: a feed with
/// nothing to hand is asked again once its host has news, or its time has come.
#[derive(Drop)]
pub struct ByWorkers<'h, R, G, K> {
    rt: &'h R,
    /// The gate that requests and holdings pass.
    gate: &'h G,
    /// The clock by which a heartbeat is due, or a feed's end.
    clock: &'h K,
    /// The connection's number.
    number: u64,
}

impl<'h, R, G, K> ByWorkers<'h, R, G, K> {
    /// The pumping of the connection of this number.
    pub(crate) fn new(rt: &'h R, gate: &'h G, clock: &'h K, number: u64) -> ByWorkers<'h, R, G, K> {
        ByWorkers {
            rt,
            gate,
            clock,
            number,
        }
    }
}

impl<'h, R: Wait, G: Gate, K: Clock> Pumping for ByWorkers<'h, R, G, K> {
    fn pass_request(&self) {
        self.gate.pass(Point::Request(self.number));
    }

    fn hand<S: FeedHost>(&self, feed: &mut HostFeed<S>) {
        feed.poll(self.rt, self.gate, self.clock);
    }

    fn waits<S: FeedHost>(&self, feed: &HostFeed<S>) -> bool {
        !feed.is_over()
    }
}
