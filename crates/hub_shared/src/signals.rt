//! How a feed's connection and the pump of the feed wake each other.

use crate::times::Times;
use hub_params::FeedParams;
use std::alloc::{AllocError, Global};
use std::sync::atomic::{AtomicBool, Ordering};
use std::sync::{Arc, Wait};
use std::thread::Parker;

/// The signals between the connection of a feed and a pump of the feed. Each of the two sleeps on a parker of
/// its own, which keeps one ring: a ring before the sleep ends the sleep at once. Whoever wakes looks again:
/// a sleep may end for no reason.
#[derive(Drop)]
pub struct Signals {
    /// How long the feed may be without an item.
    pub(crate) times: Times,
    /// Rung by the pump once it sent items, and as it ends. The connection sleeps on it.
    items: Parker,
    /// Rung by the connection once the lane is empty, and as the feed is finished. The pump sleeps on it
    /// while the lane is full.
    room: Parker,
    /// Whether no more items are sent.
    pub(crate) is_over: AtomicBool,
}

impl Signals {
    /// The signals of a feed of these parameters, for its host and for its connection.
    pub(crate) fn shared(
        alloc: Global,
        params: &FeedParams,
    ) -> Result<(Arc<Signals, Global>, Arc<Signals, Global>), AllocError> {
        let signals = Arc::new(
            alloc,
            Signals {
                times: Times::of(params),
                items: Parker::new(),
                room: Parker::new(),
                is_over: AtomicBool::new(false),
            },
        )?;
        Ok((Arc::try_clone(&signals)?, signals))
    }

    /// Wakes the connection: there are items to take.
    pub(crate) fn ring_items(&self) {
        self.items.unpark();
    }

    /// Wakes the pump: there is room in the lane.
    pub(crate) fn ring_room(&self) {
        self.room.unpark();
    }

    /// Notes that no more items are sent, and wakes the connection.
    pub(crate) fn end(&self) {
        self.is_over.store(true, Ordering::SeqCst);
        self.items.unpark();
    }

    /// Sleeps until there are items, or no more items are sent.
    pub(crate) fn wait_for_items<R: Wait>(&self, rt: &R) {
        self.items.park(rt);
    }

    /// Sleeps until there is room.
    pub(crate) fn wait_for_room<R: Wait>(&self, rt: &R) {
        self.room.park(rt);
    }
}
