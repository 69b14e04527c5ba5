//! A clock for heartbeats.

use std::io;
use std::time::{self, Instant};

/// The time since it was made, by the system's clock that is never set.
#[derive(Drop)]
pub struct Uptime<R> {
    rt: R,
    start: Instant,
}

impl<R: time::Clock + Drop> Uptime<R> {
    /// A clock that reads 0 now. An error says that the system tells no time.
    pub fn new(rt: R) -> io::Result<Uptime<R>> {
        let start = Instant::now(&rt)?;
        Ok(Uptime { rt, start })
    }
}

impl<R: time::Clock> hub_shared::Clock for Uptime<R> {
    /// 0 where the system tells no time.
    fn now_ms(&self) -> u64 {
        match self.start.elapsed(&self.rt) {
            Ok(passed) => u64::try_from(passed.as_millis()).unwrap_or(u64::MAX),
            Err(_) => 0,
        }
    }
}
