//! The relief of runners that are held at a gate, at a lock or by a long request.

ghost use Rattle.std.specs.Prelude.{◌≡◌, ◌-◌, ◌↔◌, IsTrue, if◌then◌else◌};

use crate::seat::Seat;
use crate::team::Team;
use hub_session::Service;
use hub_shared::{Clock, Watchable};
use std::sync::Wait;
use std::sync::atomic::{AtomicBool, Ordering};
use std::thread::{Parker, Scope};
use std::time::Duration;

/// The time between two looks at the workers, in milliseconds. A runner in one turn at both is relieved.
const PERIOD: u64 = 4;

/// How many looks in a row that find no worker busy come before a sleep.
const LOOKS: u32 = 25;

/// The times of the looks for runners that are held. A look comes every `PERIOD` while a worker is busy, and
/// `LOOKS` times after that. Then the thread that looks sleeps until a worker begins a turn.
#[derive(Drop)]
pub(crate) struct Monitor {
    parker: Parker,
    /// Whether that thread sleeps, or is about to: then whoever begins a turn wakes it.
    is_asleep: AtomicBool,
    /// Whether there will be no more connections.
    is_over: AtomicBool,
}

/// The looks for runners that are held.
#[derive(Clone, Copy)]
struct Looks {
    /// How many are left before a sleep.
    left: u32,
}

impl Looks {
    // No look yet.
    fn new() -> Looks {
        Looks { left: LOOKS }
    }

    // Counts one more look, and whether it found a worker busy.
    fn note(&mut self, is_busy: bool)
        ensures { self.new.left ≡ (if is_busy then LOOKS else self.old.left - 1) }
    {
        self.left = if is_busy {
            LOOKS
        } else {
            self.left.saturating_sub(1)
        };
    }

    // Whether so many looks in a row found no worker busy that it is time to sleep.
    fn are_over(self) -> bool
        ensures { IsTrue result ↔ (self.left ≡ 0) }
    {
        self.left == 0
    }
}

impl Monitor {
    /// A monitor that is awake.
    pub(crate) fn new() -> Monitor {
        Monitor {
            parker: Parker::new(),
            is_asleep: AtomicBool::new(false),
            is_over: AtomicBool::new(false),
        }
    }

    /// Wakes the monitor, if it sleeps: a turn begins. Constant time.
    pub(crate) fn wake(&self) {
        if self.is_asleep.load(Ordering::SeqCst) && self.is_asleep.swap(false, Ordering::SeqCst) {
            self.parker.unpark();
        }
    }

    /// Tells the monitor that there will be no more connections.
    pub(crate) fn end(&self) {
        self.is_over.store(true, Ordering::SeqCst);
        self.parker.unpark();
    }

    // Whether there will be no more connections.
    fn is_over(&self) -> bool {
        self.is_over.load(Ordering::SeqCst)
    }
}

impl<'e, R, S, K> Team<'e, R, S, K>
where
    R: Wait + Sync,
    S: Service + Watchable + Send + Drop,
    K: Clock + Sync,
{
    // Starts a thread that relieves a worker's runner, where the runner was held since the last look. Without
    // memory or a thread for it, the next look tries again.
    fn relieve_held<'s>(&'e self, scope: &'s Scope<'s, &'e ()>, seat: &'e Seat<S>) {
        let Some(number) = seat.held() else {
            return;
        };
        if let Ok(room) = self.make_room() {
            let _started = scope.spawn(move || self.relieve(seat, number, room));
        }
    }

    // Looks at each worker, and says whether one is busy.
    fn look<'s>(&'e self, scope: &'s Scope<'s, &'e ()>) -> bool {
        for seat in &self.seats {
            self.relieve_held(scope, seat);
        }
        self.is_busy()
    }

    // Sleeps while no worker is busy, until one is. It may come back for no reason.
    fn sleep(&self) {
        self.monitor.is_asleep.store(true, Ordering::SeqCst);
        if !self.is_busy() && !self.monitor.is_over() {
            self.monitor.parker.park(self.rt);
        }
        self.monitor.is_asleep.store(false, Ordering::SeqCst);
    }

    /// Looks for runners that are held, and has each relieved, until there will be no more connections.
    pub(crate) fn watch_over<'s>(&'e self, scope: &'s Scope<'s, &'e ()>) {
        let mut looks = Looks::new();
        for _ in self.rt.forever() {
            if self.monitor.is_over() {
                break;
            }
            if looks.are_over() {
                self.sleep();
                looks = Looks::new();
            } else {
                self.monitor
                    .parker
                    .park_timeout(self.rt, Duration::from_millis(PERIOD));
            }
            looks.note(self.look(scope));
        }
    }
}
