//! Peers that fail, for tests of a follower after a failure.

ghost use Rattle.std.specs.Prelude.{◌≡◌, ◌≢◌, min, ◌+◌, ◌-◌, ◌^◌, IfSome, IfNone, Result, Err};
ghost use Rattle.std.specs.Fn.{FnOnceReturnsAtMut};
ghost use Rattle.hub_follower.specs.Faults.{IsCountedDown};
ghost use Rattle.hub_follower.specs.declared.fault_peer.Loss.TheVariants.{Before, After};

use crate::fetched::FetchedRevs;
use crate::log::Log;
use crate::peer::{CallFault, Changes, Peer};
use hub_database::{Diff, Replies};
use hub_document::{Asked, Doc};
use hub_follow_model::Seq;

/// The part of a failing call that is lost.
#[derive(Clone, Copy, Debug, PartialEq, Eq)]
pub enum Loss {
    /// The call is lost: it has no effect.
    Before,
    /// The answer is lost: the call has its effect.
    After,
}

/// A peer over another peer, some of whose calls fail. Such a call is counted as a fault. After it the peer
/// goes on as the other peer does.
#[derive(Debug, Drop)]
pub struct FaultPeer<P> {
    peer: P,
    /// The number of the next call that fails, counted from 1 at the next call; 0: no call fails.
    left: u64,
    /// The same number, counted from 1 after the call that fails; 0: no later call fails.
    again: u64,
    loss: Loss,
    faults: u64,
}

impl<P: Peer> FaultPeer<P> {
    /// A peer that fails at its call of this number, counted from 1; at 0 no call fails. It takes no memory.
    pub fn new(peer: P, call: u64, loss: Loss) -> FaultPeer<P>
        ensures { result ≡ record { peer = peer; left = call; again = 0; loss = loss; faults = 0 } }
    {
        FaultPeer {
            peer,
            left: call,
            again: 0,
            loss,
            faults: 0,
        }
    }

    /// A peer that fails at each call whose number this one divides; at 0 no call fails. It takes no memory.
    pub fn repeating(peer: P, calls: u64, loss: Loss) -> FaultPeer<P>
        ensures { result ≡ record { peer = peer; left = calls; again = calls; loss = loss; faults = 0 } }
    {
        let mut failing = FaultPeer::new(peer, calls, loss);
        failing.again = calls;
        failing
    }

    /// The other peer. It takes no memory.
    pub fn into_peer(self) -> P
        ensures { result ≡ self.peer }
    {
        self.peer
    }

    // Counts a call, and a fault where a part of it is lost, and says which part; None: no part.
    fn next_loss(&mut self) -> Option<Loss>
        ensures peer { self.new.peer ≡ self.old.peer }
        ensures same { (self.new.again ≡ self.old.again) × (self.new.loss ≡ self.old.loss) }
        ensures left { IsCountedDown self.old.again self.old.left self.new.left }
        ensures none { IfNone result ((self.old.left ≢ 1) × (self.new.faults ≡ self.old.faults)) }
        ensures some { IfSome result (λ loss. (self.old.left ≡ 1) × (self.old.loss ≡ loss)
            × (self.new.faults ≡ min (self.old.faults + 1) (2 ^ 64 - 1))) }
    {
        match self.left {
            0 => None,
            1 => {
                self.left = self.again;
                self.faults = self.faults.saturating_add(1);
                Some(self.loss)
            }
            left => {
                self.left = left - 1;
                None
            }
        }
    }

    // Makes a call on the other peer, except for the part of it that is lost.
    fn pass<A: Drop, F: FnOnce(&mut P) -> Result<A, CallFault>>(
        &mut self,
        call: F,
    ) -> Result<A, CallFault>
        requires { F.IsAlwaysCallable call }
        ensures same { (self.new.again ≡ self.old.again) × (self.new.loss ≡ self.old.loss) }
        ensures left { IsCountedDown self.old.again self.old.left self.new.left }
        ensures whole { self.old.left ≢ 1
            → FnOnceReturnsAtMut F.FnOnce call self.old.peer result self.new.peer }
        ensures none { self.old.left ≢ 1 → self.new.faults ≡ self.old.faults }
        ensures lost { self.old.left ≡ 1 → (result ≡ Err CallFault.Peer)
            × (self.new.faults ≡ min (self.old.faults + 1) (2 ^ 64 - 1)) }
        ensures before { self.old.left ≡ 1 → self.old.loss ≡ Before → self.new.peer ≡ self.old.peer }
        ensures after { self.old.left ≡ 1 → self.old.loss ≡ After → (answer : Result A CallFault)
            × FnOnceReturnsAtMut F.FnOnce call self.old.peer answer self.new.peer }
    {
        match self.next_loss() {
            None => call(&mut self.peer),
            Some(Loss::Before) => Err(CallFault::Peer),
            Some(Loss::After) => {
                drop(call(&mut self.peer));
                Err(CallFault::Peer)
            }
        }
    }
}

impl<P: Peer> Peer for FaultPeer<P> {
    ghost use Rattle.std.specs.Prelude.{◌≡◌, ◌≢◌, ◌⊎◌, min, ◌+◌, ◌-◌, ◌^◌};
    ghost use Rattle.hub_follower.specs.Faults.{IsCountedDown, IsLost};

    // no part of the call is lost, and the other peer answers it
    ghost gives = { λ s call answer new. (s.left ≢ 1) × P.gives s.peer call answer new.peer
        × IsCountedDown s.again s.left new.left × (new.again ≡ s.again) × (new.loss ≡ s.loss)
        × (new.faults ≡ s.faults) };

    // the call is lost, and counted as a fault, or the other peer fails
    ghost loses = { λ s call new.
        (((s.left ≡ 1) × IsLost P.gives P.loses s.loss call s.peer new.peer
        × (new.faults ≡ min (s.faults + 1) (2 ^ 64 - 1)))
        ⊎ ((s.left ≢ 1) × P.loses s.peer call new.peer × (new.faults ≡ s.faults)))
        × IsCountedDown s.again s.left new.left × (new.again ≡ s.again) × (new.loss ≡ s.loss) };

    ghost fault_count = { λ s. min (s.faults + P.fault_count s.peer) (2 ^ 64 - 1) };

    fn changes(&mut self, since: Seq) -> Result<Changes, CallFault> {
        self.pass(|peer| peer.changes(since))
    }

    fn revs_diff(&mut self, asked: &[Asked]) -> Result<Vec<Diff>, CallFault> {
        self.pass(|peer| peer.revs_diff(asked))
    }

    fn open_revs(&mut self, asked: &Asked) -> Result<FetchedRevs, CallFault> {
        self.pass(|peer| peer.open_revs(asked))
    }

    fn merge(&mut self, docs: &[Doc]) -> Result<Replies, CallFault> {
        self.pass(|peer| peer.merge(docs))
    }

    fn local_get(&mut self, log_id: &str) -> Result<Option<Log>, CallFault> {
        self.pass(|peer| peer.local_get(log_id))
    }

    fn local_put(&mut self, log_id: &str, log: &Log) -> Result<(), CallFault> {
        self.pass(|peer| peer.local_put(log_id, log))
    }

    fn faults(&self) -> u64 {
        self.faults.saturating_add(self.peer.faults())
    }
}
