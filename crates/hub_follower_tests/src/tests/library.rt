//! How a user of the libraries copies one database into another.

use crate::tests::copier::Copier;
use crate::tests::held::Held;
use hub_follower::{FollowFault, Follower, Peer, Round};
use hub_transcript::replay;
use std::alloc::Global;
use std::test::Fail;

// The example of README.md.
fn copy<S: Peer + Drop, T: Peer + Drop>(
    alloc: Global,
    source: S,
    target: T,
    session_id: &str,
) -> Result<(), FollowFault> {
    let log_id = "_local/copy";
    let mut follower = match Follower::start(alloc, source, target, log_id, session_id) {
        Ok(follower) => follower,
        Err(failed) => return Err(failed.fault),
    };
    for _ in 0..1_000_000 {
        match follower.round()? {
            Round::Moved => follower.checkpoint()?,
            Round::Idle => break,
        }
    }
    Ok(())
}

// One session of the example.
fn copy_once<P: Peer + Drop>(
    alloc: Global,
    source: &Held<P>,
    target: &Held<P>,
    session_id: &str,
) -> Result<(), FollowFault> {
    copy(alloc, source.again(true)?, target.again(true)?, session_id)
}

/// Whether the example succeeds. Out of memory, it runs once more, under the other id.
pub(crate) fn copies<P: Peer + Drop>(
    alloc: Global,
    source: &Held<P>,
    target: &Held<P>,
    (session_id, other_id): (&str, &str),
) -> bool {
    match copy_once(alloc, source, target, session_id) {
        Err(FollowFault::NoMemory) => copy_once(alloc, source, target, other_id).is_ok(),
        copied => copied.is_ok(),
    }
}

// Each command has the id of a session, and the id of another one where the first finds no memory.
const COPIED: &str = r#"
# a database is copied
> put {"_id":"a","_rev":"1-a"} {"_id":"b","_rev":"1-b"}
source 2
> library 2026-01-01 2026-01-01T12
copied
> count
target 2
> library 2026-01-02 2026-01-02T12
copied
> count
target 2
"#;

#[test]
fn a_database_is_copied(rt: HostRuntime) -> Result<(), Fail> {
    let handle = &rt;
    replay::<Copier<'_, HostRuntime>, _>(&handle, rt.alloc(), COPIED)
}
