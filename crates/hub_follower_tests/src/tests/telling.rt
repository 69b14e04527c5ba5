//! Calls on a peer, and the lines that tell their answers.
//!
//! A call is an error out of memory, and each time where the peer fails.

use crate::tests::{LOG, Told, docs, text_of};
use hub_database::OpenRev;
use hub_document::{Asked, Doc};
use hub_follower::{Changes, Log, Peer, Seq};
use hub_transcript::Answer;
use std::alloc::{AllocError, Global};

/// The rows that a peer lists above a sequence, with their end.
pub(crate) fn rows_above<P: Peer>(peer: &mut P, since: Seq) -> Result<Changes, AllocError> {
    match peer.changes(since) {
        Ok(changes) => Ok(changes),
        Err(_) => Err(AllocError),
    }
}

/// How many edits a peer has: the sequence at which its changes end.
pub(crate) fn count<P: Peer>(peer: &mut P) -> Result<u64, AllocError> {
    let mut since = Seq::beginning();
    for _ in 0..100 {
        let changes = rows_above(peer, since)?;
        if changes.rows.is_empty() {
            return Ok(changes.last_seq);
        }
        since = Seq::of_life(changes.last_seq, changes.life);
    }
    Err(AllocError)
}

/// Stores documents with their histories.
pub(crate) fn store<P: Peer>(peer: &mut P, docs: Vec<Doc>) -> Result<(), AllocError> {
    match peer.merge(docs.as_slice()) {
        Ok(_replies) => Ok(()),
        Err(_) => Err(AllocError),
    }
}

/// Stores the documents that the words write. Out of memory, the documents before the failing one stay;
/// written again, they are known.
pub(crate) fn put<P: Peer>(alloc: Global, peer: &mut P, words: &str) -> Result<(), AllocError> {
    store(peer, docs(alloc, words)?)
}

// The documents of rows, with the leaves that they list.
fn listed(alloc: Global, changes: Changes) -> Result<Vec<Asked>, AllocError> {
    let mut asked = Vec::new(alloc);
    for row in changes.rows {
        asked.push(Asked {
            id: row.id.to_text(alloc)?,
            revs: row.changes.copy(alloc)?.into_revisions(alloc)?,
        })?;
    }
    Ok(asked)
}

// The texts of revisions with their histories, each after a blank.
fn texts_of<P: Peer>(alloc: Global, peer: &mut P, asked: &Asked) -> Result<Vec<u8>, AllocError> {
    let Ok(found) = peer.open_revs(asked) else {
        return Err(AllocError);
    };
    let mut texts = Vec::new(alloc);
    for leaf in found.into_vec() {
        if let OpenRev::Found(doc) = leaf {
            texts.push(b' ')?;
            doc.write(&mut texts)?;
        }
    }
    Ok(texts)
}

// The texts of the leaves of a document, best first.
fn leaves<P: Peer>(alloc: Global, peer: &mut P, id: &str) -> Result<Vec<u8>, AllocError> {
    let rows = listed(alloc, rows_above(peer, Seq::beginning())?)?;
    for asked in &rows {
        if asked.id.as_str() == id {
            return texts_of(alloc, peer, asked);
        }
    }
    Ok(Vec::new(alloc))
}

/// Whether two peers have the same leaves of each of these documents, in the same order.
pub(crate) fn agree<S: Peer, T: Peer>(
    alloc: Global,
    source: &mut S,
    target: &mut T,
    ids: &str,
) -> Result<bool, AllocError> {
    for id in ids.split(' ') {
        if leaves(alloc, source, id)? != leaves(alloc, target, id)? {
            return Ok(false);
        }
    }
    Ok(true)
}

/// Tells the leaves of a document at two peers.
pub(crate) fn tell_leaves<P: Peer>(
    alloc: Global,
    source: &mut P,
    target: &mut P,
    id: &str,
    answer: &mut Answer,
) -> Result<(), AllocError> {
    let source = leaves(alloc, source, id)?;
    let target = leaves(alloc, target, id)?;
    let source = text_of(source.as_slice())?;
    let target = text_of(target.as_slice())?;
    answer.line(format_args!("source{source}\ntarget{target}"))
}

/// The sequence that a peer's replication log records.
pub(crate) fn recorded<P: Peer>(peer: &mut P) -> Result<Option<Seq>, AllocError> {
    match peer.local_get(LOG) {
        Ok(Some(log)) => Ok(Some(log.source_last_seq)),
        Ok(None) => Ok(None),
        Err(_) => Err(AllocError),
    }
}

/// Tells the sequences that two replication logs record.
pub(crate) fn tell_logs<P: Peer>(
    source: &mut P,
    target: &mut P,
    answer: &mut Answer,
) -> Result<(), AllocError> {
    let source = Told(recorded(source)?);
    let target = Told(recorded(target)?);
    answer.line(format_args!("logs {source} {target}"))
}

/// Keeps a replication log.
pub(crate) fn keep<P: Peer>(peer: &mut P, log: Log) -> Result<(), AllocError> {
    match peer.local_put(LOG, &log) {
        Ok(()) => Ok(()),
        Err(_) => Err(AllocError),
    }
}

/// Tells how many rows a peer lists above a sequence, and the sequence at which they end.
pub(crate) fn tell_changes<P: Peer>(
    peer: &mut P,
    since: Seq,
    answer: &mut Answer,
) -> Result<(), AllocError> {
    let changes = rows_above(peer, since)?;
    let end = Told(Some(Seq::of_life(changes.last_seq, changes.life)));
    answer.line(format_args!("{} rows up to {end}", changes.rows.len()))
}

/// Tells the documents of which a target misses revisions that a source lists above a sequence, and how many.
pub(crate) fn tell_missing<P: Peer>(
    alloc: Global,
    source: &mut P,
    target: &mut P,
    since: Seq,
    answer: &mut Answer,
) -> Result<(), AllocError> {
    let asked = listed(alloc, rows_above(source, since)?)?;
    let Ok(missing) = target.revs_diff(asked.as_slice()) else {
        return Err(AllocError);
    };
    for diff in &missing {
        answer.line(diff.id.as_str())?;
    }
    answer.line(format_args!("{} missing", missing.len()))
}
