//! The calls of a follower, made one after the other.

ghost use Rattle.std.specs.Prelude.{◌≡◌, true, None, IfErr, OnOk, OnErr};
ghost use Rattle.hub_follow_model.specs.Follower as follow;
ghost use Rattle.hub_follow_model.specs.World as world;
ghost use Rattle.hub_follower.specs.Peers.{standing_of, Breaks, Reaches, BothCount, IsMade, IsStep};
ghost use Rattle.hub_follower.specs.Views.{answer_of, call_of};

use crate::call::{Answer, Call};
use crate::fault::FollowFault;
use crate::machine::FollowCore;
use crate::peer::{CallFault, Peer};
use std::alloc::Global;

// Makes a call on the peer that the call names.
fn made<S: Peer, T: Peer>(
    alloc: Global,
    call: Call<'_>,
    source: &mut S,
    target: &mut T,
    log_id: &str,
) -> Result<Answer, CallFault>
    ensures { IsMade S.gives T.gives S.loses T.loses S.fault_count T.fault_count (call_of call.entry)
        answer_of result source.old target.old source.new target.new }
{
    match call {
        Call::GetSource => Ok(Answer::Log(source.local_get(log_id)?)),
        Call::GetTarget => Ok(Answer::Log(target.local_get(log_id)?)),
        Call::Changes(since) => Ok(Answer::Changes(source.changes(since)?)),
        Call::RevsDiff(asked) => Ok(Answer::RevsDiff(target.revs_diff(asked)?)),
        Call::OpenRevs(asked) => Ok(Answer::OpenRevs(source.open_revs(asked)?)),
        Call::Merge(docs) => Ok(Answer::Merge(target.merge(docs)?)),
        Call::PutSource(session) => {
            source.local_put(log_id, &session.source_log(alloc)?)?;
            Ok(Answer::Put)
        }
        Call::PutTarget(session) => {
            target.local_put(log_id, &session.target_log(alloc)?)?;
            Ok(Answer::Put)
        }
    }
}

/// Makes the next call, where there is one, and takes its answer: true where a call was made. After an error
/// the phase is dropped, and the place stays.
pub(crate) fn step<S: Peer, T: Peer>(
    alloc: Global,
    core: &mut FollowCore,
    source: &mut S,
    target: &mut T,
    log_id: &str,
) -> Result<bool, FollowFault>
    ensures { IsStep S.gives T.gives S.loses T.loses S.fault_count T.fault_count result
        (standing_of core.old source.old target.old) (standing_of core.new source.new target.new) }
{
    let answer = match core.next_call() {
        None => return Ok(false),
        Some(call) => made(alloc, call, source, target, log_id),
    };
    match answer {
        Ok(answer) => match core.accept(alloc, answer) {
            Ok(()) => Ok(true),
            Err(fault) => Err(fault),
        },
        Err(fault) => {
            core.fail();
            Err(match fault {
                CallFault::Peer => FollowFault::Peer,
                CallFault::NoMemory => FollowFault::NoMemory,
            })
        }
    }
}

/// Makes calls until none is owed, or one fails. After a failure the phase is dropped, and the place stays.
pub(crate) fn drive<S: Peer, T: Peer>(
    alloc: Global,
    core: &mut FollowCore,
    source: &mut S,
    target: &mut T,
    log_id: &str,
) -> Result<(), FollowFault>
    ensures ok { OnOk result (Reaches S.gives T.gives
        (standing_of core.old source.old target.old) (standing_of core.new source.new target.new)
        × (follow.next_call core.new ≡ None)) }
    ensures err { IfErr result (λ e. Breaks S.gives T.gives S.loses T.loses e
        (standing_of core.old source.old target.old) (standing_of core.new source.new target.new)) }
    ensures same { OnErr result (core.new ≡ follow.after_failure core.old) }
    ensures rests { OnErr result (world.is_free core.new ≡ true) }
    ensures counts { BothCount S.fault_count T.fault_count result
        source.old target.old source.new target.new }
{
    step(alloc, core, source, target, log_id)?;
    step(alloc, core, source, target, log_id)?;
    for _ in 0..core.calls_left() {
        if !step(alloc, core, source, target, log_id)? {
            return Ok(());
        }
    }
    Ok(())
}
