//! How writes tell the threads that send feeds that there is news.

use std::alloc::Global;
use std::sync::Arc;
use std::sync::atomic::{AtomicBool, Ordering};

/// The bell of a thread that sends feeds of many hosts, rung where one of its watches has news.
#[derive(Drop)]
pub struct Bell {
    is_rung: AtomicBool,
}

impl Bell {
    /// A bell that is not rung.
    pub fn new() -> Bell {
        Bell {
            is_rung: AtomicBool::new(false),
        }
    }

    /// Whether it is rung. Constant time.
    pub fn is_rung(&self) -> bool {
        self.is_rung.load(Ordering::SeqCst)
    }

    /// Whether it was rung; from here on it is not. The caller looks at its watches afterwards: a watch that
    /// gets news later rings again.
    pub fn take(&self) -> bool {
        self.is_rung() && self.is_rung.swap(false, Ordering::SeqCst)
    }

    fn ring(&self) {
        self.is_rung.store(true, Ordering::SeqCst);
    }
}

/// A sender of at most one feed at a time. The feed can be watched for news while it waits.
pub trait Watchable {
    /// The number of the life of the feed's sequences, `None` where no feed is sent. The number names one
    /// database of a hub, and 0 its log of updates. Constant time.
    fn life(&self) -> Option<u64>;

    /// Where a feed is sent, the reading of the clock, in milliseconds, at which the feed is to be asked for
    /// its next item though its host has no news. Constant time.
    fn due(&self) -> Option<u64>;

    /// From here on this watch gets news of each change that the feed may wait for. The caller asks the feed
    /// for its next item once more after the call: an earlier write gave no news. It may wait for the host's
    /// lock.
    fn watch(&self, watch: Arc<Watch, Global>);
}

/// Whether a host has news for a thread that sends feeds of it. All these feeds share the watch.
#[derive(Drop)]
pub struct Watch {
    has_news: AtomicBool,
    bell: Arc<Bell, Global>,
}

impl Watch {
    /// A watch without news, which rings this bell.
    pub fn new(bell: Arc<Bell, Global>) -> Watch {
        Watch {
            has_news: AtomicBool::new(false),
            bell,
        }
    }

    /// Whether there was news; from here on there is none. The caller looks at its feeds afterwards: later
    /// news shows at the next call.
    pub fn take(&self) -> bool {
        self.has_news.load(Ordering::SeqCst) && self.has_news.swap(false, Ordering::SeqCst)
    }

    /// Notes news, and rings the bell. Where earlier news was not taken yet, the bell was rung for that.
    pub(crate) fn tell(&self) {
        if !self.has_news.load(Ordering::SeqCst) {
            self.has_news.store(true, Ordering::SeqCst);
            self.bell.ring();
        }
    }
}
