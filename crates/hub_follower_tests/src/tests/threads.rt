//! A follower beside a writer.

use crate::tests::telling::{agree, count};
use crate::tests::{LOG, database};
use hub_document::{Doc, Limits};
use hub_follower::{DbPeer, FaultPeer, FollowFault, Follower, Loss, Peer, Round};
use hub_shared::{Db, Plain};
use std::alloc::{AllocError, Global};
use std::sync::Wait;
use std::sync::atomic::{AtomicU64, Ordering};
use std::test::Fail;
use std::thread::{self, Threads};

// How many edits the writer makes, over how many documents.
const EDITS: u64 = 2000;

const DOCUMENTS: u64 = 50;

// The text of an edit: a first revision, a child of it, or a conflict. Each seventh edit deletes.
fn edit_text(alloc: Global, number: u64) -> Result<String, AllocError> {
    let doc = number % DOCUMENTS;
    let round = number / DOCUMENTS;
    let deleted = number % 7 == 3;
    let revisions = match round % 3 {
        0 => format!(in alloc; r#"{{"start":1,"ids":["r{round}"]}}"#)?,
        1 => {
            let parent = round - 1;
            format!(in alloc; r#"{{"start":2,"ids":["r{round}","r{parent}"]}}"#)?
        }
        _ => format!(in alloc; r#"{{"start":2,"ids":["r{round}","s{round}"]}}"#)?,
    };
    format!(in alloc; r#"{{"_id":"d{doc}","_deleted":{deleted},"_revisions":{revisions}}}"#)
}

// Makes all edits; None where one was not stored.
fn write_all<R: Wait>(rt: &R, alloc: Global, source: &Db<Plain>, done: &AtomicU64) -> Option<()> {
    let mut handle = source.handle().ok()?;
    for number in 0..EDITS {
        let text = edit_text(alloc, number).ok()?;
        let doc = Doc::read(alloc, text.as_bytes(), false).ok()?;
        let accepted = handle.write(rt, vec![in alloc; doc].ok()?, false).ok()?;
        accepted.receipts.first()?;
    }
    done.store(1, Ordering::SeqCst);
    Some(())
}

// Makes three rounds. Answers whether the last round found nothing new. A checkpoint may fail.
fn run_three<S: Peer + Drop, T: Peer + Drop>(
    follower: &mut Follower<S, T>,
) -> Result<bool, FollowFault> {
    let mut is_idle = false;
    for _ in 0..3 {
        is_idle = match follower.round() {
            Ok(Round::Idle) => true,
            Ok(Round::Moved) => {
                drop(follower.checkpoint());
                false
            }
            Err(FollowFault::Peer) => false,
            Err(fault) => return Err(fault),
        };
    }
    Ok(is_idle)
}

// One session of three rounds: whether the last round found nothing new. Each seventh answer of the target is
// lost, and each 61st of the source. A round asks the source for 50 documents, one call for each.
fn three_rounds<S: Peer + Drop, T: Peer + Drop>(
    alloc: Global,
    source: S,
    target: T,
    session_id: &str,
) -> Result<bool, FollowFault> {
    let source = FaultPeer::repeating(source, 61, Loss::After);
    let target = FaultPeer::repeating(target, 7, Loss::After);
    match Follower::start(alloc, source, target, LOG, session_id) {
        Ok(mut follower) => run_three(&mut follower),
        Err(failed) => Err(failed.fault),
    }
}

// A session of three rounds between two databases.
fn session<R: Wait>(
    rt: &R,
    alloc: Global,
    source: &Db<Plain>,
    target: &Db<Plain>,
    number: u64,
) -> Result<bool, FollowFault> {
    let session_id = format!(in alloc; "S{number}")?;
    let source = DbPeer::new(rt, alloc, source.handle()?);
    let target = DbPeer::new(rt, alloc, target.handle()?);
    three_rounds(alloc, source, target, session_id.as_str())
}

// Sessions, one after the other, until a session that began after the last edit found nothing new.
fn follow_all<R: Wait>(
    rt: &R,
    alloc: Global,
    source: &Db<Plain>,
    target: &Db<Plain>,
    done: &AtomicU64,
) -> Option<()> {
    for number in 0..u64::MAX {
        let is_written = done.load(Ordering::SeqCst) == 1;
        let is_idle = session(rt, alloc, source, target, number).ok()?;
        if is_idle && is_written {
            return Some(());
        }
        thread::yield_now();
    }
    None
}

// The follower beside the writer; None where one of them failed.
fn run<R: Threads + Wait + Sync>(
    rt: &R,
    alloc: Global,
    source: &Db<Plain>,
    target: &Db<Plain>,
) -> Option<()> {
    let done = AtomicU64::new(0);
    let (written, followed) = thread::join(
        rt,
        || write_all(rt, alloc, source, &done),
        || follow_all(rt, alloc, source, target, &done),
    );
    written?;
    followed
}

// How many edits a source has, and how many documents have the same leaves at both ends, before the first
// document that has other leaves.
fn agreed_count<S: Peer, T: Peer>(
    alloc: Global,
    source: &mut S,
    target: &mut T,
) -> Result<(u64, u64), AllocError> {
    let edits = count(source)?;
    for number in 0..DOCUMENTS {
        let id = format!(in alloc; "d{number}")?;
        if !agree(alloc, source, target, id.as_str())? {
            return Ok((edits, number));
        }
    }
    Ok((edits, DOCUMENTS))
}

#[test]
fn a_follower_beside_a_writer(rt: HostRuntime) -> Result<(), Fail> {
    let source = database(rt.alloc(), Limits::full(), 1)?;
    let target = database(rt.alloc(), Limits::full(), 1)?;
    assert!(rt; run(&rt, rt.alloc(), &source, &target).is_some());
    let mut source = DbPeer::new(&rt, rt.alloc(), source.handle()?);
    let mut target = DbPeer::new(&rt, rt.alloc(), target.handle()?);
    assert_eq!(rt;
        agreed_count(rt.alloc(), &mut source, &mut target)?,
        (EDITS, DOCUMENTS)
    );
    Ok(())
}
