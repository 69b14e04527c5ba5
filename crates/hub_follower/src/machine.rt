//! A follower as a machine that makes no call itself.

ghost use Rattle.std.specs.Prelude.{◌≡◌, ◌≢◌, true, option_map, string_bytes, Ok, OnOk, IfOk, IfErr};
ghost use Rattle.hub_follow_model.specs.Follower as follow;
ghost use Rattle.hub_follow_model.specs.World as world;
ghost use Rattle.hub_follower.specs.Peers.{calls_left, IsOwnFault};
ghost use Rattle.hub_follower.specs.Views.{answer_of, call_of, follower_of, phase_of, follower_behind};
ghost use Rattle.hub_follower.specs.Views.{IsFaultOf};

use crate::call::{Answer, Call};
use crate::fault::FollowFault;
use crate::log::Log;
use crate::phase::{self, Next, Phase};
use crate::session::Session;
use hub_follow_model::Seq;
use std::alloc::Global;
use std::marker::Model;
use std::mem;

/// The state of a follower.
#[derive(Debug, Drop)]
pub(crate) enum State {
    /// The follower has no session.
    Down,
    /// A session of this id begins: the follower asks for the source's log.
    SourceStart(String),
    /// The follower asks for the target's log; this is the source's log.
    TargetStart(String, Option<Log>),
    /// The follower has a session, and no phase is on.
    Ready(Session),
    /// The follower has a session, and is at this phase.
    Busy(Session, Phase),
}

/// A follower as a machine: it says which call it owes, and takes the answer.
#[derive(Debug, Drop)]
pub struct FollowCore {
    state: State,
}

impl Model for FollowCore {
    ghost use Rattle.hub_follow_model.specs.Follower as follow;

    ghost Value = { follow.Follower };

    ghost use Rattle.hub_follower.specs.Views.{follower_of};

    ghost view = { λ c. follower_of c.state };
}

// The next state of a session, by the answer to the call that its phase owes. The phase is spent.
fn answered(
    alloc: Global,
    session: &Session,
    phase: Phase,
    answer: Answer,
) -> Result<Next, FollowFault>
    requires fits { follow.IsAnswerTo (follow.phase_call session.now (phase_of phase)) (answer_of answer) }
    ensures ok { IfOk result (λ goes. follow.phase_result session.now (phase_of phase) (answer_of answer)
        ≡ Ok (follower_behind session.now goes)) }
    ensures err { IfErr result (λ e.
        IsFaultOf e (follow.phase_result session.now (phase_of phase) (answer_of answer))) }
{
    match (phase, answer) {
        (Phase::Listing, Answer::Changes(changes)) => {
            let last = Seq::of_life(changes.last_seq, changes.life);
            Ok(phase::comparison_or_ready(alloc, changes.rows, last)?)
        }
        (Phase::Comparison(_asked, last), Answer::RevsDiff(diffs)) => {
            Ok(phase::first_retrieval(alloc, diffs, last)?)
        }
        (Phase::Retrieval(wanted, later, got, last), Answer::OpenRevs(found)) => {
            let got = phase::documents_behind(wanted, found, got)?;
            Ok(phase::retrieval_or_storage(later, got, last))
        }
        (Phase::Storage(got, last), Answer::Merge(replies)) => {
            match phase::first_refusal(got, replies.as_slice()) {
                None => Ok(Next::ReadyAt(last)),
                Some(fault) => Err(fault),
            }
        }
        (Phase::SourceCheckpoint, Answer::Put) => Ok(Next::Busy(Phase::TargetCheckpoint)),
        (Phase::TargetCheckpoint, Answer::Put) => Ok(Next::Ready),
        (phase, answer) => {
            drop(phase);
            drop(answer);
            Err(FollowFault::Peer)
        }
    }
}

// The machine's state for a session and its next state.
fn gone_on(session: Session, next: Next) -> State
    ensures value { follower_of result ≡ follower_behind session next }
{
    match next {
        Next::Ready => State::Ready(session),
        Next::ReadyAt(last) => State::Ready(session.at(last)),
        Next::Busy(phase) => State::Busy(session, phase),
    }
}

// The state after an answer, and the fault where the answer brings one.
fn after(alloc: Global, state: State, answer: Answer) -> (State, Result<(), FollowFault>)
    requires fits { follow.IsAnswerToNext (follow.next_call (follower_of state)) (answer_of answer) }
    ensures ok { OnOk result.1 (follow.answer_result (follower_of state) (answer_of answer)
        ≡ Ok (follower_of result.0)) }
    ensures err { IfErr result.1 (λ e. (follower_of result.0 ≡ follow.after_failure (follower_of state))
        × IsFaultOf e (follow.answer_result (follower_of state) (answer_of answer))) }
{
    match (state, answer) {
        (State::SourceStart(session_id), Answer::Log(log)) => {
            (State::TargetStart(session_id, log), Ok(()))
        }
        (State::TargetStart(session_id, source), Answer::Log(log)) => {
            let session = Session::begin(alloc, session_id, source, log);
            (State::Ready(session), Ok(()))
        }
        (State::Busy(session, phase), answer) => match answered(alloc, &session, phase, answer) {
            Ok(next) => (gone_on(session, next), Ok(())),
            Err(fault) => (State::Ready(session), Err(fault)),
        },
        (State::Ready(session), answer) => {
            drop(answer);
            (State::Ready(session), Err(FollowFault::Peer))
        }
        (state, answer) => {
            drop(state);
            drop(answer);
            (State::Down, Err(FollowFault::Peer))
        }
    }
}

impl FollowCore {
    /// A follower without a session.
    pub fn new() -> FollowCore
        ensures { result ≡ follow.Down }
    {
        FollowCore { state: State::Down }
    }

    /// Whether the follower owes no call. Constant time.
    pub fn is_free(&self) -> bool
        ensures { result ≡ world.is_free self.now }
    {
        match &self.state {
            State::Down | State::Ready(_) => true,
            State::SourceStart(_) | State::TargetStart(_, _) | State::Busy(_, _) => false,
        }
    }

    /// The source's sequence up to which the follower has copied, where it has a session. Constant time.
    pub fn place(&self) -> Option<Seq>
        ensures { result ≡ world.place_of self.now }
    {
        match &self.state {
            State::Ready(session) | State::Busy(session, _) => Some(session.place()),
            State::Down | State::SourceStart(_) | State::TargetStart(_, _) => None,
        }
    }

    /// The greatest number of calls that the follower owes, once the changes were asked for and compared.
    pub(crate) fn calls_left(&self) -> u64
        ensures { result ≡ calls_left self.now }
    {
        match &self.state {
            State::Down | State::Ready(_) => 0,
            State::SourceStart(_) => 2,
            State::TargetStart(_, _) => 1,
            State::Busy(_, Phase::Listing | Phase::Comparison(_, _)) => 0,
            State::Busy(_, Phase::Retrieval(_, later, _, _)) => later.len() as u64 + 2,
            State::Busy(_, Phase::Storage(_, _) | Phase::TargetCheckpoint) => 1,
            State::Busy(_, Phase::SourceCheckpoint) => 2,
        }
    }

    // Puts the follower into this state.
    fn put(&mut self, state: State)
        ensures { self.new ≡ follower_of state }
    {
        self.state = state;
    }

    /// Drops all that the follower holds, its session too.
    pub(crate) fn restart(&mut self)
        ensures { self.new ≡ follow.Down }
    {
        self.put(State::Down);
    }

    /// Begins a session of this id: the logs are to be read.
    pub fn start(&mut self, session_id: String)
        requires { world.is_free self.old ≡ true }
        ensures { self.new ≡ follow.SourceStart (string_bytes session_id) }
    {
        self.put(State::SourceStart(session_id));
    }

    // Begins a phase, where there is a session and no call is owed. Else nothing changes.
    fn begin(&mut self, phase: Phase)
        ensures ready { (s : follow.Session) → self.old ≡ follow.Ready s
            → self.new ≡ follow.Busy s (phase_of phase) }
        ensures others { ((s : follow.Session) → self.old ≢ follow.Ready s) → self.new ≡ self.old }
    {
        let state = match mem::replace(&mut self.state, State::Down) {
            State::Ready(session) => State::Busy(session, phase),
            state => state,
        };
        self.put(state);
    }

    /// Begins a round, where there is a session and no call is owed. Else nothing changes.
    pub fn begin_round(&mut self)
        ensures { self.new ≡ world.round_start self.old }
    {
        self.begin(Phase::Listing);
    }

    /// Begins a checkpoint, where there is a session and no call is owed. Else nothing changes.
    pub fn begin_checkpoint(&mut self)
        ensures { self.new ≡ world.checkpoint_start self.old }
    {
        self.begin(Phase::SourceCheckpoint);
    }

    /// The call that the follower owes, to be made on the peer that the call names.
    pub fn next_call(&self) -> Option<Call<'_>>
        ensures { option_map call_of result ≡ follow.next_call self.now }
    {
        match &self.state {
            State::Down => None,
            State::SourceStart(_session_id) => Some(Call::GetSource),
            State::TargetStart(_session_id, _source) => Some(Call::GetTarget),
            State::Ready(_session) => None,
            State::Busy(session, Phase::Listing) => Some(Call::Changes(session.place())),
            State::Busy(_session, Phase::Comparison(asked, _last)) => Some(Call::RevsDiff(asked)),
            State::Busy(_session, Phase::Retrieval(next, _later, _got, _last)) => Some(
                Call::OpenRevs(next),
            ),
            State::Busy(_session, Phase::Storage(got, _last)) => Some(Call::Merge(&got.list)),
            State::Busy(session, Phase::SourceCheckpoint) => Some(Call::PutSource(session)),
            State::Busy(session, Phase::TargetCheckpoint) => Some(Call::PutTarget(session)),
        }
    }

    /// Takes the answer to the owed call, which has to fit it. The fault `Refused` comes only of an answer
    /// that refuses that document, and `Lost` only of one that misses that revision. Every other fault is
    /// `NoMemory`. After an error the phase is dropped, and the place stays.
    pub fn accept(&mut self, alloc: Global, answer: Answer) -> Result<(), FollowFault>
        requires fits { follow.IsAnswerToNext (follow.next_call self.old) (answer_of answer) }
        ensures ok { OnOk result (follow.answer_result self.old (answer_of answer) ≡ Ok self.new) }
        ensures err { IfErr result (λ e. (self.new ≡ follow.after_failure self.old)
            × IsFaultOf e (follow.answer_result self.old (answer_of answer))) }
        ensures own { IfErr result IsOwnFault }
    {
        let state = mem::replace(&mut self.state, State::Down);
        let (state, result) = after(alloc, state, answer);
        self.put(state);
        result
    }

    /// The owed call failed: the phase is dropped, and the place stays.
    pub fn fail(&mut self)
        ensures { self.new ≡ follow.after_failure self.old }
    {
        let state = match mem::replace(&mut self.state, State::Down) {
            State::Ready(session) => State::Ready(session),
            State::Busy(session, phase) => {
                drop(phase);
                State::Ready(session)
            }
            State::Down => State::Down,
            State::SourceStart(_session_id) => State::Down,
            State::TargetStart(_session_id, _source) => State::Down,
        };
        self.put(state);
    }
}
