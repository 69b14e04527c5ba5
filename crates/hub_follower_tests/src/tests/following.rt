//! The calls of a follower, and the lines that tell them, whatever its peers are.
//!
//! A call that finds no memory is an error, and leaves the place. The command is then given once more.

use crate::tests::{Told, tell_fault};
use hub_follower::{FollowFault, Follower, Peer, Round};
use hub_transcript::Answer;
use std::alloc::{AllocError, Global};

/// Makes rounds until a round finds nothing new; a fault where 100 rounds are not enough.
pub(crate) fn copy_all<S: Peer + Drop, T: Peer + Drop>(
    follower: &mut Follower<S, T>,
) -> Result<(), FollowFault> {
    for _ in 0..100 {
        if follower.round()? == Round::Idle {
            return Ok(());
        }
    }
    Err(FollowFault::Peer)
}

/// Tells the place of a session, with `front` before it.
pub(crate) fn tell_place<S: Peer + Drop, T: Peer + Drop>(
    front: &str,
    kept: &Option<Follower<S, T>>,
    answer: &mut Answer,
) -> Result<(), AllocError> {
    match kept {
        Some(follower) => {
            let place = Told(follower.core().place());
            answer.line(format_args!("{front}at {place}"))
        }
        None => answer.line("no session"),
    }
}

/// Makes a round, and tells its outcome and the place after it.
pub(crate) fn tell_round<S: Peer + Drop, T: Peer + Drop>(
    alloc: Global,
    kept: &mut Option<Follower<S, T>>,
    answer: &mut Answer,
) -> Result<(), AllocError> {
    let Some(follower) = kept else {
        return answer.line("no session");
    };
    match follower.round() {
        Ok(Round::Moved) => answer.text("moved ")?,
        Ok(Round::Idle) => answer.text("idle ")?,
        Err(fault) => {
            tell_fault(alloc, fault, answer)?;
            answer.text(" ")?;
        }
    }
    tell_place("", kept, answer)
}

/// Makes rounds until a round finds nothing new, and one round more, which it tells.
pub(crate) fn tell_copy<S: Peer + Drop, T: Peer + Drop>(
    alloc: Global,
    kept: &mut Option<Follower<S, T>>,
    answer: &mut Answer,
) -> Result<(), AllocError> {
    let Some(follower) = kept else {
        return answer.line("no session");
    };
    match copy_all(follower) {
        Ok(()) => tell_round(alloc, kept, answer),
        Err(fault) => tell_fault(alloc, fault, answer),
    }
}

/// Records a follower's place. A failure tells why.
pub(crate) fn tell_checkpoint<S: Peer + Drop, T: Peer + Drop>(
    alloc: Global,
    kept: &mut Option<Follower<S, T>>,
    answer: &mut Answer,
) -> Result<(), AllocError> {
    let Some(follower) = kept else {
        return answer.line("no session");
    };
    match follower.checkpoint() {
        Ok(()) => Ok(()),
        Err(fault) => tell_fault(alloc, fault, answer),
    }
}
