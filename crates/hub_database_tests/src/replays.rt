//! The test of all transcripts. A transcript that fails names its case.

use crate::session::Session;
use crate::{
    deletion_tests, entry_tests, feed_tests, host_tests, life_tests, listed_tests, waiting_tests,
};
use hub_transcript::replay;
use std::test::Fail;

/// Databases that stand and that are deleted: their edits, their lives and their feeds.
#[test]
fn transcripts(rt: HostRuntime) -> Result<(), Fail> {
    for transcript in [
        deletion_tests::DELETED,
        entry_tests::ENTRIES,
        feed_tests::FEEDS,
        host_tests::HOSTED,
        host_tests::SEVERAL,
        host_tests::OVER,
        life_tests::LIVES,
        listed_tests::LISTED,
        waiting_tests::WAITING,
    ] {
        replay::<Session, _>(&rt, rt.alloc(), transcript)?;
    }
    Ok(())
}
