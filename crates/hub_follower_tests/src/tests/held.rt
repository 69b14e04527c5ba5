//! A peer that a test and a follower share.

ghost use Rattle.std.specs.Prelude.{◌≡◌};
ghost use Rattle.hub_follower.specs.Peers.{CallCounts};

use hub_database::{Diff, Replies};
use hub_document::{Asked, Doc};
use hub_follower::{CallFault, Changes, FetchedRevs, Log, Peer, Seq};
use std::alloc::{AllocError, Global};
use std::cell::RefCell;
use std::rc::Rc;

/// A peer that a test holds beside a follower. The test may put another peer in its place, as where a
/// database is made again. Each fault of the peer is counted.
#[derive(Drop)]
pub(crate) struct Held<P> {
    peer: Rc<RefCell<P>>,
    /// Whether a call for changes has the life of its sequence, or the number alone.
    tells_lives: bool,
    faults: u64,
}

impl<P: Peer + Drop> Held<P> {
    pub(crate) fn new(alloc: Global, peer: P) -> Result<Held<P>, AllocError> {
        Ok(Held {
            peer: Rc::new(alloc, RefCell::new(peer))?,
            tells_lives: true,
            faults: 0,
        })
    }

    /// The same peer for a follower, with a count of 0 faults.
    pub(crate) fn again(&self, tells_lives: bool) -> Result<Held<P>, AllocError> {
        Ok(Held {
            peer: self.peer.clone()?,
            tells_lives,
            faults: 0,
        })
    }

    /// Puts another peer in the place of this one.
    pub(crate) fn put(&self, peer: P) -> Result<(), AllocError> {
        match self.peer.try_replace(peer) {
            Ok(_old) => Ok(()),
            Err(_peer) => Err(AllocError),
        }
    }

    /// How many faults the peer itself counted.
    pub(crate) fn own_faults(&self) -> u64 {
        match self.peer.try_borrow() {
            Ok(peer) => peer.faults(),
            Err(_) => u64::MAX,
        }
    }

    // The sequence for the peer: with its life, or its number alone.
    fn told(&self, since: Seq) -> Seq {
        if self.tells_lives {
            return since;
        }
        Seq {
            n: since.n,
            life: None,
        }
    }

    // The outcome of a call. A fault of the peer is counted.
    fn counted<A>(&mut self, outcome: Result<A, CallFault>) -> Result<A, CallFault>
        ensures same { result ≡ outcome }
        ensures counts { CallCounts result self.old.faults self.new.faults }
    {
        if let Err(CallFault::Peer) = outcome {
            self.faults = self.faults.saturating_add(1);
        }
        outcome
    }
}

impl<P: Peer + Drop> Peer for Held<P> {
    // a call may have any answer
    ghost gives = { λ s call answer new. Unit };

    ghost loses = { λ s call new. Unit };

    ghost fault_count = { λ s. s.faults };

    fn changes(&mut self, since: Seq) -> Result<Changes, CallFault> {
        let since = self.told(since);
        let changes = match self.peer.try_borrow_mut() {
            Ok(mut peer) => peer.changes(since),
            Err(_) => Err(CallFault::Peer),
        };
        self.counted(changes)
    }

    fn revs_diff(&mut self, asked: &[Asked]) -> Result<Vec<Diff>, CallFault> {
        let diffs = match self.peer.try_borrow_mut() {
            Ok(mut peer) => peer.revs_diff(asked),
            Err(_) => Err(CallFault::Peer),
        };
        self.counted(diffs)
    }

    fn open_revs(&mut self, asked: &Asked) -> Result<FetchedRevs, CallFault> {
        let found = match self.peer.try_borrow_mut() {
            Ok(mut peer) => peer.open_revs(asked),
            Err(_) => Err(CallFault::Peer),
        };
        self.counted(found)
    }

    fn merge(&mut self, docs: &[Doc]) -> Result<Replies, CallFault> {
        let replies = match self.peer.try_borrow_mut() {
            Ok(mut peer) => peer.merge(docs),
            Err(_) => Err(CallFault::Peer),
        };
        self.counted(replies)
    }

    fn local_get(&mut self, log_id: &str) -> Result<Option<Log>, CallFault> {
        let log = match self.peer.try_borrow_mut() {
            Ok(mut peer) => peer.local_get(log_id),
            Err(_) => Err(CallFault::Peer),
        };
        self.counted(log)
    }

    fn local_put(&mut self, log_id: &str, log: &Log) -> Result<(), CallFault> {
        let done = match self.peer.try_borrow_mut() {
            Ok(mut peer) => peer.local_put(log_id, log),
            Err(_) => Err(CallFault::Peer),
        };
        self.counted(done)
    }

    fn faults(&self) -> u64 {
        self.faults
    }
}
