//! The pumps of feeds.

use crate::block::Block;
use crate::count::Count;
use crate::gate::{Clock, Gate, Point};
use crate::host::Host;
use crate::label::FeedLabel;
use crate::signals::Signals;
use crate::times::ClockDue;
use hub_feed::{FeedHost, FeedId, Handed};
use hub_lane::Asks;
use hub_model::Item;
use std::alloc::AllocError;
use std::sync::Wait;
use std::time;

/// The task of one holding of the lock, for one feed.
#[derive(Clone, Copy, Debug, PartialEq, Eq)]
pub enum Turn {
    /// Hands the items that are due.
    Hand,
    /// Sends a heartbeat, if one is due.
    Beat,
    /// Ends the feed's time without an item.
    Expire,
}

/// The result of one holding.
#[derive(Clone, Copy)]
pub(crate) struct Holding {
    /// The answer of the last step. After `Turn::Hand`, `Full` also where items wait for room in the lane.
    pub(crate) last: Handed,
    /// Whether items were handed, or went into the lane.
    pub(crate) has_sent: bool,
    /// The number of the news as the lock was let go.
    news: u64,
}

impl<S: FeedHost, C: Count> Host<S, C> {
    /// One holding of the lock. The items that wait go into the lane as one block. Then come the steps. The
    /// items that wait after them go into the lane as another block, also where the steps found no memory.
    /// Where items wait after `Turn::Hand` even then, the answer is `Full`: once there is room, the feed is
    /// to be held again. The memory of the spare items may serve the items that are handed.
    pub(crate) fn hold_once<R, G>(
        &self,
        rt: &R,
        feed: FeedId,
        turn: Turn,
        gate: &G,
        spare: Vec<Item<S::Row>>,
    ) -> Result<Holding, AllocError>
    where
        R: Asks<FeedLabel<S>, Block<S::Row>>,
        G: Gate,
    {
        let mut locked = self.locked().lock(rt);
        gate.pass(Point::PumpHolding);
        let before = locked.hand_over(rt, feed);
        let done = locked.step(feed, turn, spare);
        let behind = locked.hand_over(rt, feed);
        let (last, sent) = done?;
        let is_held_up = turn == Turn::Hand && behind.is_none();
        Ok(Holding {
            last: if is_held_up { Handed::Full } else { last },
            has_sent: sent > 0 || before.unwrap_or(0) > 0 || behind.unwrap_or(0) > 0,
            news: locked.news(),
        })
    }
}

/// Takes the lock once. `Turn::Hand` hands until an answer is not `Row`, or the holding may hand no more, and
/// gives the last answer. Out of memory for a row, the items before it stay handed. The handed items go into
/// the feed's lane as one block. Where the lane was full they wait, and the answer is `Full`, as where as
/// many items wait as may. The other turns make one step, and answer `Nothing`, also where there is nothing
/// to do. `Turn::Beat` answers `Full` where as many items wait as may.
pub fn hold<S, C, R, G>(
    rt: &R,
    host: &Host<S, C>,
    feed: FeedId,
    turn: Turn,
    gate: &G,
) -> Result<Handed, AllocError>
where
    S: FeedHost,
    C: Count,
    R: Asks<FeedLabel<S>, Block<S::Row>>,
    G: Gate,
{
    let holding = host.hold_once(rt, feed, turn, gate, Vec::new(host.alloc))?;
    Ok(holding.last)
}

// The state of a pump between two holdings.
#[derive(Drop)]
struct PumpState<'a, S: FeedHost, C: Count, K: Clock> {
    host: &'a Host<S, C>,
    feed: FeedId,
    signals: &'a Signals,
    clock: &'a K,
    /// The clock's reading at the last item, or at the beginning.
    last_item: u64,
}

impl<'a, S: FeedHost, C: Count, K: Clock> PumpState<'a, S, C, K> {
    // The turn after one that answered `Nothing`. After a heartbeat or the end of its time the feed is asked
    // again. A feed with nothing to hand gets a heartbeat or the end of its time, or waits for news.
    fn after_nothing<R: Wait + time::Clock>(&mut self, rt: &R, turn: Turn, news: u64) -> Turn {
        let now = self.clock.now_ms();
        if turn == Turn::Beat {
            self.last_item = now;
            self.signals.ring_items();
        }
        if turn != Turn::Hand {
            return Turn::Hand;
        }
        match self
            .signals
            .times
            .due_after(now.saturating_sub(self.last_item))
        {
            ClockDue::Beat => Turn::Beat,
            ClockDue::Expire => Turn::Expire,
            ClockDue::Wait(most) => {
                self.host.wait_for_news(rt, news, most);
                Turn::Hand
            }
        }
    }

    // Hands until the feed is gone, or a row finds no memory: the loop itself has no end.
    fn run<R, G>(&mut self, rt: &R, gate: &G) -> Result<(), AllocError>
    where
        R: Asks<FeedLabel<S>, Block<S::Row>> + time::Clock,
        G: Gate,
    {
        let mut turn = Turn::Hand;
        for _ in rt.forever() {
            gate.pass(Point::PumpFree);
            let none = Vec::new(self.host.alloc);
            let holding = self.host.hold_once(rt, self.feed, turn, gate, none)?;
            if holding.has_sent {
                self.last_item = self.clock.now_ms();
                self.signals.ring_items();
            }
            turn = match holding.last {
                Handed::Gone => return Ok(()),
                Handed::Row | Handed::End => Turn::Hand,
                Handed::Full => {
                    self.signals.wait_for_room(rt);
                    Turn::Hand
                }
                Handed::Nothing => self.after_nothing(rt, turn, holding.news),
            };
        }
        Ok(())
    }
}

/// Hands a feed's items into its lane as they come, a block for each holding of the lock. It ends with Ok
/// once the feed is finished or has handed its end. Out of memory for a row it ends with that error, and the
/// feed stays as it is. Each holding hands at most as many items as `Locked::most` says. Where the lane is
/// full, the pump sleeps until `Feed::take` finds the lane empty. Where there is nothing to hand, it sleeps
/// until a write, a deletion or the end of a feed. This sleep ends at the latest when a heartbeat is due, or
/// the feed's time is over.
pub fn pump<S, C, R, G, K>(
    rt: &R,
    host: &Host<S, C>,
    feed: FeedId,
    gate: &G,
    clock: &K,
) -> Result<(), AllocError>
where
    S: FeedHost,
    C: Count,
    R: Asks<FeedLabel<S>, Block<S::Row>> + time::Clock,
    G: Gate,
    K: Clock,
{
    let Some(signals) = host.locked().lock(rt).signals(feed)? else {
        return Ok(());
    };
    let mut state = PumpState {
        host,
        feed,
        signals: &signals,
        clock,
        last_item: clock.now_ms(),
    };
    let done = state.run(rt, gate);
    signals.end();
    done
}
