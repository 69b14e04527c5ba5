//! Runs of a follower's world.

use crate::tests::handed::items_of;
use crate::tests::values::Values;
use crate::tests::{Told, docs};
use hub_follower::{FollowEvent, FollowWorld};
use hub_transcript::{Answer, Words, replay};
use std::alloc::{AllocError, Global};
use std::test::Fail;

// Two documents, a and then b.
const TWO: &str = r#"{"_id":"a","_rev":"1-a"} {"_id":"b","_rev":"1-b"}"#;

// The event of a verb that needs no more words, by its place among the verbs of `next_event`; an error each
// time where the place is of no such verb.
fn event_of(place: usize) -> Result<FollowEvent, AllocError> {
    match place {
        0 => Ok(FollowEvent::Round),
        1 => Ok(FollowEvent::Checkpoint),
        2 => Ok(FollowEvent::Answer),
        3 => Ok(FollowEvent::LostBefore),
        4 => Ok(FollowEvent::LostAfter),
        5 => Ok(FollowEvent::Restart),
        _ => Err(AllocError),
    }
}

// The event that the next words write; an error out of memory, and each time where they write no event.
fn next_event(alloc: Global, words: &mut Words<'_>) -> Result<FollowEvent, AllocError> {
    match words.verb("round checkpoint answer lost-before lost-after restart write start changes") {
        6 => Ok(FollowEvent::Write(docs(alloc, TWO)?)),
        7 => Ok(FollowEvent::Start(String::from_str(alloc, words.word())?)),
        8 => Ok(FollowEvent::Changes(items_of(alloc, words.word(), '+')?)),
        place => event_of(place),
    }
}

// All events that the words write.
fn events_of(alloc: Global, words: &mut Words<'_>) -> Result<Vec<FollowEvent>, AllocError> {
    let mut events = Vec::new(alloc);
    for _ in 0..words.rest().len() {
        if words.rest().is_empty() {
            return Ok(events);
        }
        events.push(next_event(alloc, words)?)?;
    }
    Ok(events)
}

/// Lets events happen in a new world, and tells the follower's place, and whether it owes a call.
pub(crate) fn run(
    alloc: Global,
    words: &mut Words<'_>,
    answer: &mut Answer,
) -> Result<(), AllocError> {
    let world = FollowWorld::run(alloc, events_of(alloc, words)?)?;
    let place = Told(world.core().place());
    let call = if world.core().is_free() {
        "no call"
    } else {
        "a call"
    };
    answer.line(format_args!("at {place}, owes {call}"))
}

const RUNS: &str = "
# a round and its checkpoint
> run write start S1 answer answer round answer answer answer answer answer checkpoint answer answer
at 2-1, owes no call
> run write start S1 answer answer round answer answer answer answer answer checkpoint answer answer restart start S2 answer answer
at 2-1, owes no call
# a merge whose answer is lost: the next round finds that nothing is missing
> run write start S1 answer answer round answer answer answer answer lost-after
at 0, owes no call
> run write start S1 answer answer round answer answer answer answer lost-after round answer answer
at 2-1, owes no call
# a checkpoint that is lost: the target's log is not written
> run write start S1 answer answer round answer answer answer answer answer checkpoint answer lost-before restart start S2 answer answer
at 0, owes no call
# a session whose id was used does not begin
> run write start S1 answer answer restart start S1 answer answer
at none, owes no call
# two rows that are handed are an answer, and the round goes on to its end
> run write start S1 answer answer round changes 1:a:1-a:1+2:b:1-b:2+end:2 answer answer answer answer
at 2-1, owes no call
# where the first row is left out they are none
> run write start S1 answer answer round changes 2:b:1-b:2+end:2 answer answer answer answer
at 0, owes a call
# changes that are not asked for are none, and those that are left out: the answer that is due comes then
> run write start S1 answer changes 1:a:1-a:1+2:b:1-b:2+end:2 answer round changes 2:b:1-b:2+end:2 changes 1:a:1-a:1+2:b:1-b:2+end:2 changes 1:a:1-a:1+2:b:1-b:2+end:2 answer answer answer answer
at 2-1, owes no call
";

#[test]
fn runs_of_a_world(rt: HostRuntime) -> Result<(), Fail> {
    replay::<Values, _>(&rt, rt.alloc(), RUNS)
}
