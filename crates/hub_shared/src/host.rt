//! Hosts of feeds that threads share: a lock, and news.

use crate::count::{Count, Plain};
use crate::locked::Locked;
use hub_feed::HostView;
use std::alloc::{AllocError, Global};
use std::sync::{Arc, Condvar, Mutex, Wait};
use std::time::{self, Duration};

/// The longest wait, in milliseconds.
const MINUTE: u64 = 60_000;

/// A host of feeds that threads share, behind its lock. Each copy keeps it; it is dropped with the last copy.
#[derive(Drop)]
pub struct Host<S: HostView, C: Count = Plain> {
    /// The only lock, and the news. The lock guards the host and its subscribers. It is held for one call:
    /// nothing is waited for while it is held, and no other lock is taken under it. The news tells pumps of
    /// each change that they may wait for, and of each end of a feed, once the lock is free again. Pumps with
    /// nothing to hand sleep on it.
    pub(crate) shared: Arc<(Mutex<Locked<S, C>>, Condvar), Global>,
    pub(crate) alloc: Global,
}

impl<S: HostView, C: Count> Host<S, C> {
    /// The lock. Nothing is known of the value under it but the invariant of its type.
    pub(crate) fn locked(&self) -> &Mutex<Locked<S, C>> {
        &self.shared.0
    }

    /// Wakes the pumps that wait for news. It is called once the lock is free.
    pub(crate) fn tell(&self) {
        self.shared.1.notify_all();
    }

    /// Another copy. Constant time.
    pub fn again(&self) -> Result<Host<S, C>, AllocError> {
        Ok(Host {
            shared: Arc::try_clone(&self.shared)?,
            alloc: self.alloc,
        })
    }

    /// Waits for news after the news of the number `seen`, for `most` milliseconds at most, and for a minute
    /// at most. The numbers are compared under the lock, so no news between two holdings is missed.
    pub(crate) fn wait_for_news<R: Wait + time::Clock>(&self, rt: &R, seen: u64, most: u64) {
        let locked = self.locked().lock(rt);
        if locked.news() != seen {
            return;
        }
        let most = Duration::from_millis(most.min(MINUTE));
        let _waited = self.shared.1.wait_timeout(rt, locked, most);
    }
}
