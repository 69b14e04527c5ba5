//! When a feed with nothing to hand gets a heartbeat, or its end.

ghost use Rattle.std.specs.Prelude.{◌≡◌};
ghost use Rattle.hub_shared.specs.Times.{due_after};

use hub_params::FeedParams;

/// How long a feed may be without an item, in milliseconds (CouchDB API reference, `_changes`,
/// `heartbeat` and `timeout`).
#[derive(Clone, Copy, Debug, PartialEq, Eq)]
pub struct Times {
    /// After this time a heartbeat is due. A feed with a heartbeat has no timeout.
    pub(crate) heartbeat: Option<u64>,
    /// After this time the feed's time is over.
    pub(crate) timeout: u64,
}

/// The next step for a feed that had nothing to hand.
#[derive(Clone, Copy, PartialEq, Eq)]
pub(crate) enum ClockDue {
    /// A heartbeat.
    Beat,
    /// Its time is over.
    Expire,
    /// To wait for news, this many milliseconds at most.
    Wait(u64),
}

impl Times {
    /// The times that these parameters ask for.
    pub(crate) fn of(params: &FeedParams) -> Times
        ensures { (result.heartbeat ≡ params.now.heartbeat) × (result.timeout ≡ params.now.timeout) }
    {
        Times {
            heartbeat: params.heartbeat,
            timeout: params.timeout,
        }
    }

    /// The next step, after so many milliseconds without an item. Constant time.
    pub(crate) fn due_after(self, passed: u64) -> ClockDue
        ensures { result ≡ due_after self passed }
    {
        match self.heartbeat {
            Some(every) if every <= passed => ClockDue::Beat,
            Some(every) => ClockDue::Wait(every - passed),
            None if self.timeout <= passed => ClockDue::Expire,
            None => ClockDue::Wait(self.timeout - passed),
        }
    }
}
