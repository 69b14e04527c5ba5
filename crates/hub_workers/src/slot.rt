//! The places of a worker's connections.

use crate::awaits::Awaits;
use crate::conn::Conn;
use crate::readiness::Readiness;
use crate::turn::Turn;
use hub_session::Service;
use hub_shared::Watchable;

/// How long a client may take for its next request, or to make room for some byte, in milliseconds. After
/// this time its connection ends.
const PATIENCE: u64 = 600_000;

/// How long a client may take after its last answer to end its side or to send a byte, in milliseconds.
const FAREWELL: u64 = 1_000;

/// No time, as a reading of the clock.
pub(crate) const NEVER: u64 = u64::MAX;

/// The place of a connection.
#[derive(Drop)]
pub(crate) struct Slot<S: Service> {
    /// The connection, `None` while it has a turn, and where there is none.
    conn: Option<Box<Conn<S>>>,
    /// The event for which it waits. It is never a watch.
    awaits: Awaits,
    /// The event for which its time is counted: it waits for this, or did before it used up a turn.
    timed: Awaits,
    /// The readiness of the socket. During a turn, the readiness that the poll told since the turn began.
    readiness: Readiness,
    /// Whether its stream may go on: news came that no turn has taken yet, or the stream's time has come.
    has_news: bool,
    /// Whether it waited too long for its client.
    is_late: bool,
    /// Whether it is to have a turn.
    is_queued: bool,
    /// Since when it waits for its client, in milliseconds of the clock.
    since: u64,
    /// When it will have waited long enough, in milliseconds of the clock; never during a turn.
    due: u64,
}

/// A message about a connection.
#[derive(Drop)]
pub(crate) enum Told {
    /// Its socket has this readiness.
    Ready(Readiness),
    /// Its stream may go on.
    News,
    /// It is to be given up.
    Late,
}

impl<S: Service + Watchable + Drop> Slot<S> {
    /// A place of no connection.
    pub(crate) fn free() -> Slot<S> {
        Slot {
            conn: None,
            awaits: Awaits::Nothing,
            timed: Awaits::Nothing,
            readiness: Readiness::NONE,
            has_news: false,
            is_late: false,
            is_queued: false,
            since: 0,
            due: NEVER,
        }
    }

    // When this connection will have waited long enough.
    fn time_due(&self, conn: &Conn<S>) -> u64 {
        match self.awaits {
            Awaits::Input | Awaits::Room => self.since.saturating_add(PATIENCE),
            Awaits::Farewell => self.since.saturating_add(FAREWELL),
            Awaits::News => conn.driven.session.service().due().unwrap_or(NEVER),
            Awaits::Turn | Awaits::Watch(_) | Awaits::Nothing => NEVER,
        }
    }

    /// Puts a connection here that waits for `awaits`, at the reading `now` of the clock. The answer is when
    /// it will have waited long enough. Its time begins anew where it was renewed, or the event is another
    /// than before. A connection that waits for its next turn is to have it.
    pub(crate) fn put(&mut self, mut conn: Box<Conn<S>>, awaits: Awaits, now: u64) -> u64 {
        self.is_queued = awaits == Awaits::Turn;
        if !self.is_queued {
            if conn.is_renewed || self.timed != awaits {
                self.since = now;
            }
            conn.is_renewed = false;
            self.timed = awaits;
        }
        self.awaits = awaits;
        self.readiness = self.readiness.or(conn.readiness);
        self.due = self.time_due(&conn);
        self.conn = Some(conn);
        self.due
    }

    /// Takes its connection out for a turn, which has no number yet. None where no connection is here. News
    /// is dropped only where the connection waited for news: its stream asks its host in this turn. Else the
    /// stream may still have items from before the news, and end the turn after these items.
    pub(crate) fn take(&mut self, token: usize) -> Option<Turn<S>> {
        let mut conn = self.conn.take()?;
        conn.readiness = self.readiness;
        let turn = Turn {
            number: 0,
            token,
            conn,
            awaits: self.awaits,
            is_late: self.is_late,
        };
        self.readiness = Readiness::NONE;
        if self.awaits == Awaits::News {
            self.has_news = false;
        }
        self.is_late = false;
        self.is_queued = false;
        self.due = NEVER;
        Some(turn)
    }

    /// Notes a message about its connection, which may have a turn meanwhile.
    pub(crate) fn tell(&mut self, told: Told) {
        match told {
            Told::Ready(readiness) => self.readiness = self.readiness.or(readiness),
            Told::News => self.has_news = true,
            Told::Late => self.is_late = true,
        }
    }

    /// Tells it the clock's `now`. The answer is when it will have waited long enough, `NEVER` once it has.
    pub(crate) fn tell_time(&mut self, now: u64) -> u64 {
        if self.due <= now {
            self.due = NEVER;
            let told = match self.awaits {
                Awaits::News => Told::News,
                _ => Told::Late,
            };
            self.tell(told);
        }
        self.due
    }

    /// Whether its connection is to have a turn from here on, and was not to have one before. It is to have
    /// one where it is here, and its event has come or it waited too long.
    pub(crate) fn queue(&mut self) -> bool {
        let is_wanted = self.is_late || self.awaits.has_come(self.readiness, self.has_news);
        let is_new = is_wanted && self.conn.is_some() && !self.is_queued;
        if is_new {
            self.is_queued = true;
        }
        is_new
    }
}
