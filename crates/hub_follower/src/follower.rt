//! A follower over its two peers.

ghost use Rattle.std.specs.Prelude.{◌≡◌, ◌⊎◌, ◌≤◌, true, false, IfOk, IfErr, OnOk, OnErr, string_bytes};
ghost use Rattle.hub_document.specs.Local.{IsLocalId};
ghost use Rattle.hub_follow_model.specs.Follower as follow;
ghost use Rattle.hub_follow_model.specs.Sequence.{is_same_place};
ghost use Rattle.hub_follow_model.specs.World as world;
ghost use Rattle.hub_follower.specs.Peers.{standing_of, IsWalk, BeginsNot, IsCarriedOut};
ghost use Rattle.hub_follower.specs.Peers.{BothCount, IsCountedOfBoth};

use crate::driving::drive;
use crate::fault::FollowFault;
use crate::machine::FollowCore;
use crate::peer::Peer;
use hub_document::LocalId;
use hub_follow_model::Seq;
use std::alloc::Global;

/// The result of a round.
#[derive(Clone, Copy, Debug, PartialEq, Eq)]
pub enum Round {
    /// The place moved.
    Moved,
    /// The source had no changes after the place.
    Idle,
}

/// A follower that copies one peer into another, and has a session.
#[derive(Debug, Drop)]
pub struct Follower<S, T> {
    alloc: Global,
    source: S,
    target: T,
    /// The id of the replication logs at both ends.
    log_id: LocalId,
    core: FollowCore,
    ghost rests: { world.is_free core ≡ true },
}

/// A session that did not begin, with the two peers.
#[derive(Debug, Drop)]
pub struct FailedStart<S, T> {
    /// The fault for which the session did not begin.
    pub fault: FollowFault,
    pub source: S,
    pub target: T,
}

// The id of the logs; `BadLogId` where no local document may have it.
fn log_id_of(alloc: Global, text: &str) -> Result<LocalId, FollowFault>
    ensures ok { IfOk result (λ id. (id ≡ text.now) × IsLocalId text.now) }
    ensures bad { IfErr result (λ e. e ≡ FollowFault.BadLogId → ¬ IsLocalId text.now) }
    ensures whole { ¬ IsLocalId text.now → IfErr result (λ e. e ≡ FollowFault.BadLogId) }
    ensures err { IfErr result (λ e. (e ≡ FollowFault.BadLogId) ⊎ (e ≡ FollowFault.NoMemory)) }
{
    match LocalId::read(alloc, text) {
        Ok(Some(id)) => Ok(id),
        Ok(None) => Err(FollowFault::BadLogId),
        Err(_) => Err(FollowFault::NoMemory),
    }
}

// Whether the new place is the old one, as the old one counts in the new one's life.
fn is_same_place(old: Option<Seq>, new: Option<Seq>) -> bool
    ensures { result ≡ is_same_place old new }
{
    match (old, new) {
        (Some(old), Some(new)) => match new.life {
            Some(life) => old.counted_in(life) == new.n,
            None => old.n == new.n,
        },
        (None, None) => true,
        (Some(_old), None) => false,
        (None, Some(_new)) => false,
    }
}

// Begins a session. After an error the follower has none.
fn begin<S: Peer, T: Peer>(
    alloc: Global,
    core: &mut FollowCore,
    source: &mut S,
    target: &mut T,
    log_id: &str,
    session_id: &str,
) -> Result<(), FollowFault>
    requires { core.old ≡ follow.Down }
    ensures walk { OnOk result (IsWalk S.gives T.gives
        (standing_of (follow.SourceStart session_id.now) source.old target.old)
        (standing_of core.new source.new target.new)) }
    ensures rests { OnOk result (world.is_free core.new ≡ true) }
    ensures err { IfErr result (λ e. BeginsNot S.gives T.gives S.loses T.loses e
        (standing_of (follow.SourceStart session_id.now) source.old target.old)
        (standing_of core.new source.new target.new)) }
    ensures same { OnErr result (core.new ≡ follow.Down) }
    ensures counts { BothCount S.fault_count T.fault_count result
        source.old target.old source.new target.new }
{
    let Ok(session_id) = String::from_str(alloc, session_id) else {
        return Err(FollowFault::NoMemory);
    };
    core.start(session_id);
    drive(alloc, core, source, target, log_id)
}

impl<S: Peer + Drop, T: Peer + Drop> Follower<S, T> {
    /// Begins a session after the sequence up to which the logs of both peers agree. No session may have had
    /// its id before. The logs are the local documents of the id `log_id`. Where no local document may have
    /// that id, the session is refused as `BadLogId`, and no call is made. After an error the peers come back
    /// as the calls left them: to begin a session only reads.
    pub fn start(
        alloc: Global,
        source: S,
        target: T,
        log_id: &str,
        session_id: &str,
    ) -> Result<Follower<S, T>, FailedStart<S, T>>
        ensures walk { IfOk result (λ f. IsWalk S.gives T.gives
            (standing_of (follow.SourceStart session_id.now) source target)
            (standing_of f.core f.source f.target)) }
        ensures id { IfOk result (λ f. (f.log_id ≡ log_id.now) × IsLocalId log_id.now) }
        ensures bad_id { IfErr result (λ e. e.fault ≡ FollowFault.BadLogId → ¬ IsLocalId log_id.now) }
        ensures no_other { ¬ IsLocalId log_id.now → IfErr result (λ e. e.fault ≡ FollowFault.BadLogId) }
        ensures err { IfErr result (λ e. BeginsNot S.gives T.gives S.loses T.loses e.fault
            (standing_of (follow.SourceStart session_id.now) source target)
            (standing_of follow.Down e.source e.target)) }
        ensures fault { IfErr result (λ e. ¬ (e.fault ≡ FollowFault.BadLogId) → IsCountedOfBoth e.fault
            (S.fault_count source) (S.fault_count e.source)
            (T.fault_count target) (T.fault_count e.target)) }
    {
        let log_id = match log_id_of(alloc, log_id) {
            Ok(log_id) => log_id,
            Err(fault) => {
                return Err(FailedStart {
                    fault,
                    source,
                    target,
                });
            }
        };
        let (mut source, mut target) = (source, target);
        let mut core = FollowCore::new();
        match begin(
            alloc,
            &mut core,
            &mut source,
            &mut target,
            log_id.as_str(),
            session_id,
        ) {
            Ok(()) => Ok(Follower {
                alloc,
                source,
                target,
                log_id,
                core,
            }),
            Err(why) => {
                drop(core);
                Err(FailedStart {
                    fault: why,
                    source,
                    target,
                })
            }
        }
    }

    /// The follower's machine. Its `place` is the source's sequence up to which it has copied. Constant time.
    pub fn core(&self) -> &FollowCore
        ensures { result.now ≡ self.now.core }
    {
        &self.core
    }

    /// Copies the changes above the place, 100 documents at most. The round asks the target which of the
    /// listed leaves it misses, fetches these with their histories, and stores them. A place of another life
    /// than the source's counts as 0, and a place of no known life as it is; the round gives it the source's
    /// life. Without changes the result is `Idle`: the changes end at the place. Else the place moves to
    /// their end, once each fetched document was stored or known. After an error the session and its place
    /// are as before. The source was only read, and the target may have some of the fetched revisions.
    #[tactic(auto, using(crate::proofs::Walking::round_fails))]
    pub fn round(&mut self) -> Result<Round, FollowFault>
        ensures done { IsCarriedOut S.gives T.gives S.loses T.loses S.fault_count T.fault_count
            (world.round_start self.old.core) result
            (standing_of self.old.core self.old.source self.old.target)
            (standing_of self.new.core self.new.source self.new.target) }
        ensures id { self.new.log_id ≡ self.old.log_id }
        ensures idle { IfOk result (λ r. r ≡ Round.Idle
            → is_same_place (world.place_of self.old.core) (world.place_of self.new.core) ≡ true) }
        ensures moved { IfOk result (λ r. r ≡ Round.Moved
            → is_same_place (world.place_of self.old.core) (world.place_of self.new.core) ≡ false) }
    {
        let place = self.core.place();
        self.core.begin_round();
        let (source, target) = (&mut self.source, &mut self.target);
        let log_id = self.log_id.as_str();
        drive(self.alloc, &mut self.core, source, target, log_id)?;
        if is_same_place(place, self.core.place()) {
            Ok(Round::Idle)
        } else {
            Ok(Round::Moved)
        }
    }

    /// Records the place at the source, then at the target. After an error the session stays as it was, and
    /// the log may stand at neither end, at the source, or at both.
    #[tactic(auto, using(crate::proofs::Walking::checkpoint_fails))]
    pub fn checkpoint(&mut self) -> Result<(), FollowFault>
        ensures done { IsCarriedOut S.gives T.gives S.loses T.loses S.fault_count T.fault_count
            (world.checkpoint_start self.old.core) result
            (standing_of self.old.core self.old.source self.old.target)
            (standing_of self.new.core self.new.source self.new.target) }
        ensures id { self.new.log_id ≡ self.old.log_id }
    {
        self.core.begin_checkpoint();
        let (source, target) = (&mut self.source, &mut self.target);
        let log_id = self.log_id.as_str();
        drive(self.alloc, &mut self.core, source, target, log_id)
    }

    /// The two peers. It takes no memory.
    pub fn into_peers(self) -> (S, T)
        ensures { (result.0 ≡ self.source) × (result.1 ≡ self.target) }
    {
        let Follower {
            alloc: _,
            source,
            target,
            log_id: _,
            core,
        } = self;
        drop(core);
        (source, target)
    }
}
