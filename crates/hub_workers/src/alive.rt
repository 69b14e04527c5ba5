//! How many connections are served.

use std::sync::{Condvar, Mutex, Wait};

/// How many connections are served, and how many have ended.
#[derive(Clone, Copy)]
struct Numbers {
    served: u64,
    ended: u64,
}

/// The counts of connections, which threads share.
#[derive(Drop)]
pub(crate) struct Alive {
    numbers: Mutex<Numbers>,
    /// Told of each connection that ended.
    news: Condvar,
}

impl Alive {
    /// No connection is served yet.
    pub(crate) fn new() -> Alive {
        Alive {
            numbers: Mutex::new(Numbers {
                served: 0,
                ended: 0,
            }),
            news: Condvar::new(),
        }
    }

    /// One more connection is served.
    pub(crate) fn begin<R: Wait>(&self, rt: &R) {
        let mut numbers = self.numbers.lock(rt);
        numbers.served = numbers.served.saturating_add(1);
    }

    /// A connection that was served has ended.
    pub(crate) fn end<R: Wait>(&self, rt: &R) {
        let mut numbers = self.numbers.lock(rt);
        numbers.served = numbers.served.saturating_sub(1);
        numbers.ended = numbers.ended.wrapping_add(1);
        drop(numbers);
        self.news.notify_all();
    }

    /// How many connections have ended.
    pub(crate) fn ended<R: Wait>(&self, rt: &R) -> u64 {
        self.numbers.lock(rt).ended
    }

    /// Sleeps until the number of ended connections is another than `ended`, and says whether it is. It does
    /// not sleep where no connection is served, since none will end.
    pub(crate) fn wait_for_end<R: Wait>(&self, rt: &R, ended: u64) -> bool {
        let numbers = self.numbers.lock(rt);
        let numbers = self.news.wait_while(rt, numbers, move |now| {
            now.served > 0 && now.ended == ended
        });
        numbers.ended != ended
    }

    /// Sleeps until no connection is served.
    pub(crate) fn wait<R: Wait>(&self, rt: &R) {
        let numbers = self.numbers.lock(rt);
        let _none = self.news.wait_while(rt, numbers, |now| now.served > 0);
    }
}
