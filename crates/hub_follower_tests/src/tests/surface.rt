//! A follower's machine, driven by hand.

use crate::tests::logs::tell_log;
use crate::tests::values::Values;
use crate::tests::{Told, tell_fault};
use hub_follower::{Answer as Answered, Call, FollowCore, FollowFault, Seq, Session};
use hub_transcript::{Answer, Words, replay};
use std::alloc::{AllocError, Global};
use std::test::Fail;

// The call that a machine owes, in words.
fn owed(core: &FollowCore) -> &'static str {
    match core.next_call() {
        None => "nothing",
        Some(Call::GetSource) => "the source's log",
        Some(Call::GetTarget) => "the target's log",
        Some(Call::Changes(since)) if since == Seq::beginning() => "all changes",
        Some(Call::Changes(_since)) => "changes",
        Some(Call::RevsDiff(_asked)) => "what is missing",
        Some(Call::OpenRevs(_asked)) => "revisions",
        Some(Call::Merge(_docs)) => "storing",
        Some(Call::PutSource(_session)) => "keeping at the source",
        Some(Call::PutTarget(_session)) => "keeping at the target",
    }
}

// Tells the logs that a checkpoint of a session keeps.
fn tell_kept(alloc: Global, session: &Session, answer: &mut Answer) -> Result<(), AllocError> {
    let place = Told(Some(session.place()));
    let source = session.source_log(alloc)?;
    let target = session.target_log(alloc)?;
    answer.line(place)?;
    tell_log(&source, answer)?;
    tell_log(&target, answer)
}

// Begins a session, where no call is owed.
fn start(alloc: Global, core: &mut FollowCore, session_id: &str) -> Result<(), AllocError> {
    let session_id = String::from_str(alloc, session_id)?;
    if core.is_free() {
        core.start(session_id);
    }
    Ok(())
}

// Answers a call for a log: there is none.
fn absent(alloc: Global, core: &mut FollowCore, answer: &mut Answer) -> Result<(), AllocError> {
    let done = match core.next_call() {
        Some(Call::GetSource) => core.accept(alloc, Answered::Log(None)),
        Some(Call::GetTarget) => core.accept(alloc, Answered::Log(None)),
        _ => Ok(()),
    };
    match done {
        Ok(()) => Ok(()),
        Err(fault) => tell_fault(alloc, fault, answer),
    }
}

// Tells the logs that the owed call keeps.
fn kept(alloc: Global, core: &FollowCore, answer: &mut Answer) -> Result<(), AllocError> {
    match core.next_call() {
        Some(Call::PutSource(session)) => tell_kept(alloc, session, answer),
        Some(Call::PutTarget(session)) => tell_kept(alloc, session, answer),
        _ => answer.line("no log"),
    }
}

// Carries out a command on a machine.
fn go_on(
    alloc: Global,
    core: &mut FollowCore,
    words: &mut Words<'_>,
    answer: &mut Answer,
) -> Result<(), AllocError> {
    match words.verb("look start absent round checkpoint fail kept") {
        0 => Ok(()),
        1 => start(alloc, core, words.rest()),
        2 => absent(alloc, core, answer),
        3 => {
            core.begin_round();
            Ok(())
        }
        4 => {
            core.begin_checkpoint();
            Ok(())
        }
        5 => {
            core.fail();
            Ok(())
        }
        6 => kept(alloc, core, answer),
        _ => answer.line("?"),
    }
}

/// Carries out a command on a machine. Tells the call that the machine owes after it, and its place.
pub(crate) fn answer_of_machine(
    alloc: Global,
    core: &mut FollowCore,
    words: &mut Words<'_>,
    answer: &mut Answer,
) -> Result<(), AllocError> {
    go_on(alloc, core, words, answer)?;
    let place = Told(core.place());
    let rests = if core.is_free() { "free" } else { "busy" };
    answer.line(format_args!("{rests}, owes {}, at {place}", owed(core)))
}

const CALLS: &str = "
# a machine owes its calls
> machine look
free, owes nothing, at none
> machine start S1
busy, owes the source's log, at none
> machine absent
busy, owes the target's log, at none
> machine absent
free, owes nothing, at 0
> machine round
busy, owes all changes, at 0
> machine fail
free, owes nothing, at 0
> machine checkpoint
busy, owes keeping at the source, at 0
> machine kept
0
S1 0
S1 0 0 0
S1 0
S1 0 0 0
busy, owes keeping at the source, at 0
> machine fail
free, owes nothing, at 0
";

#[test]
fn a_machine_owes_its_calls(rt: HostRuntime) -> Result<(), Fail> {
    replay::<Values, _>(&rt, rt.alloc(), CALLS)
}
