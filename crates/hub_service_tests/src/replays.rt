//! The tests of a client: all transcripts, by their subjects. A transcript that fails names its case.

use crate::client::Client;
use crate::{
    changes_tests, database_tests, deleted_tests, diffs_tests, documents_tests, edits_tests,
    feed_tests, history_tests, hostile_tests, hub_tests, ids_tests, leaves_tests, locals_tests,
    names_tests, open_revs_tests, parts_tests, paths_tests, questions_tests, replies_tests,
    routes_tests, tests, trees_tests, updates_tests, wire_tests,
};
use hub_transcript::replay;
use std::test::Fail;

/// Documents as they are shown and stored, and refused documents.
#[test]
fn documents(rt: HostRuntime) -> Result<(), Fail> {
    for transcript in [
        deleted_tests::DELETED,
        documents_tests::REFUSED,
        documents_tests::PUTS,
        documents_tests::SHOWN,
        locals_tests::LOCALS,
        questions_tests::QUESTIONS,
    ] {
        replay::<Client, _>(&rt, rt.alloc(), transcript)?;
    }
    Ok(())
}

/// Edits that come, edits that are made here, also on leaves, and their histories.
#[test]
fn edits(rt: HostRuntime) -> Result<(), Fail> {
    for transcript in [
        edits_tests::COME,
        edits_tests::MADE,
        edits_tests::LOCAL,
        history_tests::HISTORIES,
        leaves_tests::EDITS,
        leaves_tests::DIGESTS,
    ] {
        replay::<Client, _>(&rt, rt.alloc(), transcript)?;
    }
    Ok(())
}

/// Trees of revisions, also where histories come in parts, and missing revisions.
#[test]
fn trees(rt: HostRuntime) -> Result<(), Fail> {
    for transcript in [
        diffs_tests::DIFFS,
        open_revs_tests::SHOWN,
        open_revs_tests::PARTS,
        parts_tests::PARTS,
        trees_tests::TREES,
    ] {
        replay::<Client, _>(&rt, rt.alloc(), transcript)?;
    }
    Ok(())
}

/// Which request goes where, ids, and the bodies of answers.
#[test]
fn requests(rt: HostRuntime) -> Result<(), Fail> {
    for transcript in [
        ids_tests::IDS,
        ids_tests::ASKED,
        paths_tests::DOCUMENTS,
        paths_tests::LOCALS,
        paths_tests::IDS,
        replies_tests::BODIES,
        routes_tests::SERVER,
        routes_tests::DATABASES,
        routes_tests::CALLS,
    ] {
        replay::<Client, _>(&rt, rt.alloc(), transcript)?;
    }
    Ok(())
}

/// The databases of a hub, their names and their lives, and the log of updates.
#[test]
fn databases(rt: HostRuntime) -> Result<(), Fail> {
    for transcript in [
        database_tests::DELETED,
        hub_tests::HUBS,
        names_tests::REFUSED_IN_ORDER,
        names_tests::FULL_LOG,
        names_tests::BEFORE_A_FULL_LOG,
        names_tests::LIVES,
        names_tests::NAMES,
        updates_tests::ROWS,
        updates_tests::AGAIN,
        updates_tests::EDITS,
    ] {
        replay::<Client, _>(&rt, rt.alloc(), transcript)?;
    }
    Ok(())
}

/// Feeds of changes, also where their writer breaks.
#[test]
fn feeds(rt: HostRuntime) -> Result<(), Fail> {
    for transcript in [
        changes_tests::ROWS,
        changes_tests::LIVES,
        feed_tests::FEEDS,
        feed_tests::BROKEN,
    ] {
        replay::<Client, _>(&rt, rt.alloc(), transcript)?;
    }
    Ok(())
}

/// Limits, heads, ends and closings, and readers and writers that fail.
#[test]
fn sessions(rt: HostRuntime) -> Result<(), Fail> {
    for transcript in [
        hostile_tests::REFUSED,
        hostile_tests::CUT_INPUT,
        tests::LIMITS,
        tests::LAST_GENERATION,
        tests::CLOSING,
        tests::HEAD_FAULTS,
        tests::CUT_REQUESTS,
        wire_tests::WRITERS,
        wire_tests::READERS,
        wire_tests::CLOSING_FEED,
    ] {
        replay::<Client, _>(&rt, rt.alloc(), transcript)?;
    }
    Ok(())
}
