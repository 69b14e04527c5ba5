//! How one thread sends many feeds: each feed is asked for its next item, and no feed is waited for.

ghost use Rattle.std.specs.Prelude.{◌≡◌};

use crate::block::Block;
use crate::count::Count;
use crate::feed::HostFeed;
use crate::gate::{Clock, Gate};
use crate::label::FeedLabel;
use crate::pumping::Turn;
use crate::times::ClockDue;
use crate::watch::Watch;
use hub_feed::{FeedHost, Handed};
use hub_lane::Asks;
use hub_model::place_of;
use std::alloc::Global;
use std::sync::{Arc, Wait};

impl<S: FeedHost, C: Count> HostFeed<S, C> {
    // Makes one holding of the lock for this feed, and says whether its host may have more for it. The feed
    // is over after its end, and where an item finds no memory.
    fn hold_own<R, G>(&mut self, rt: &R, turn: Turn, gate: &G) -> bool
    where
        R: Asks<FeedLabel<S>, Block<S::Row>>,
        G: Gate,
        ensures { self.new ≡ self.old }
    {
        let spare = self.end.spare();
        match self.host.hold_once(rt, self.id, turn, gate, spare) {
            Ok(holding) if holding.last != Handed::Gone => holding.last != Handed::Nothing,
            _ => {
                self.signals.end();
                false
            }
        }
    }

    // For a feed without an item to take: sends the heartbeat that is due, or ends the feed's time. Where
    // neither is due, the feed waits from here on.
    fn pass_time<R, G, K>(&mut self, rt: &R, gate: &G, clock: &K)
    where
        R: Asks<FeedLabel<S>, Block<S::Row>>,
        G: Gate,
        K: Clock,
        ensures { self.new ≡ self.old }
    {
        let now = clock.now_ms();
        let since = self.idle_since.unwrap_or(now);
        self.idle_since = Some(since);
        match self.signals.times.due_after(now.saturating_sub(since)) {
            ClockDue::Beat => {
                self.idle_since = Some(now);
                self.hold_own(rt, Turn::Beat, gate);
                // The host is asked for items before the next heartbeat, however soon that is due.
                self.is_behind = true;
            }
            ClockDue::Expire => {
                self.hold_own(rt, Turn::Expire, gate);
                self.is_behind = self.hold_own(rt, Turn::Hand, gate);
            }
            ClockDue::Wait(most) => {
                let _ = self.end.spare();
                self.due = now.saturating_add(most);
                self.is_behind = true;
            }
        }
    }

    // Whether an item is left to take. From then on the feed is not idle.
    #[inline(always)]
    fn has_item<R: Asks<FeedLabel<S>, Block<S::Row>>>(&mut self, rt: &R) -> bool
        ensures { self.new ≡ self.old }
    {
        let found = self.end.fetch(rt);
        if found {
            self.idle_since = None;
        }
        found
    }

    /// Whether an item is left to take, for a thread that sends many feeds and waits for none. Where no item is
    /// left of the lane's blocks, one holding of the lock hands a block of as many items as it may. Where no
    /// item is due either, a heartbeat or the end of the feed's time comes as the clock says. `false` says
    /// that the feed waits, or that it is over (`is_over`): an item found no memory, or the End was handed. A
    /// feed that waits is to be asked again when its host has news (`watch`), and at the clock's `due` at the
    /// latest. A poll without an item left costs a holding, unless the last one found nothing more. A
    /// heartbeat costs one holding more, the end of the time two.
    pub fn poll<R, G, K>(&mut self, rt: &R, gate: &G, clock: &K) -> bool
    where
        R: Asks<FeedLabel<S>, Block<S::Row>>,
        G: Gate,
        K: Clock,
        ensures { self.new ≡ self.old }
    {
        if self.has_item(rt) {
            return true;
        }
        if self.is_over() {
            return false;
        }
        if self.is_behind {
            self.is_behind = self.hold_own(rt, Turn::Hand, gate);
            if self.has_item(rt) {
                return true;
            }
            if self.is_over() {
                return false;
            }
        }
        self.pass_time(rt, gate, clock);
        self.end.fetch(rt)
    }

    /// The reading of the clock at which a feed that `poll` left waiting gets a heartbeat, or its end.
    /// Constant time.
    pub fn due(&self) -> u64 {
        self.due
    }

    /// From here on each write, each deletion and each note of the host gives this watch news, until the feed
    /// is finished. The caller polls the feed once more after the call: an earlier write gave no news. The
    /// cost is the wait for the lock, and a binary search.
    pub fn watch<R: Wait>(&self, rt: &R, watch: Arc<Watch, Global>) {
        let mut guard = self.host.locked().lock(rt);
        let locked = &mut *guard;
        if let Some(at) = place_of(locked.subscribers.as_slice(), self.id.number) {
            let entry = &mut locked.subscribers[at];
            entry.1.watch(watch);
        }
    }
}
