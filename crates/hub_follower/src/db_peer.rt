//! Databases that threads share, as a follower's peers.

ghost use Rattle.std.specs.Prelude.{◌≡◌, true, map, IfOk};
ghost use Rattle.hub_follow_model.specs.Follower as follow;
ghost use Rattle.hub_database.specs.Edits.{edit_of};
ghost use Rattle.hub_follower.specs.Peers.{CallCounts};
ghost use Rattle.hub_follower.specs.Shared.{IsShared};
ghost use Rattle.hub_follower.specs.Views.{found_edit};

use crate::copies::copies_of;
use crate::fetched::FetchedRevs;
use crate::log::Log;
use crate::peer::{CallFault, Changes, Peer};
use crate::serving::listing_after;
use hub_database::{Diff, Replies};
use hub_document::{Asked, ChangeRow, Doc, DocFault, LocalDoc, OpenRevs};
use hub_feed::OpenFault;
use hub_filter::Filter;
use hub_follow_model::Seq;
use hub_model::{Item, Since};
use hub_params::FeedParams;
use hub_shared::{Feed, Gate, Handle, Plain, Point, Turn};
use std::alloc::{AllocError, Global};
use std::sync::Wait;

// The greatest number of rows that a follower asks for.
const ROWS: u64 = 100;

// A gate that holds nobody.
#[derive(Drop)]
struct Open;

impl Gate for Open {
    fn pass(&self, _point: Point) {}
}

// The parameters of a follower's feed: the first 100 changes above a sequence, rising, with every leaf.
fn params_after(since: Seq) -> FeedParams {
    let since = match since.life {
        None => Since::Plain(since.n),
        Some(life) => Since::Tagged(since.n, life),
    };
    FeedParams {
        since,
        limit: Some(ROWS),
        descending: false,
        filter: Filter::All,
        ..listing_after(0)
    }
}

// Takes the items that a feed has handed, and gives the sequence of its end where the end came.
fn take_rows<R: Wait>(
    rt: &R,
    feed: &mut Feed<Plain>,
    rows: &mut Vec<ChangeRow>,
) -> Result<Option<u64>, AllocError> {
    for _ in 0..=ROWS {
        match feed.take(rt) {
            Some(Item::Row(row)) => rows.push(row)?,
            Some(Item::End { last_seq, .. }) => return Ok(Some(last_seq)),
            Some(Item::Beat) => {}
            None => return Ok(None),
        }
    }
    Ok(None)
}

// Hands a feed on and takes its rows by turns, up to its end. Each turn hands one item at least. So there are
// no more turns than rows and an end.
fn rows_by_turns<R: Wait>(
    rt: &R,
    alloc: Global,
    feed: &mut Feed<Plain>,
) -> Result<Changes, CallFault> {
    let mut rows = Vec::new(alloc);
    for _ in 0..=ROWS {
        feed.hold(rt, Turn::Hand, &Open)?;
        if let Some(last_seq) = take_rows(rt, feed, &mut rows)? {
            let life = feed.end().label().life();
            return Ok(Changes {
                rows,
                last_seq,
                life,
            });
        }
    }
    Err(CallFault::Peer)
}

// The changes above a sequence, by a feed that is finished in every case.
fn changes_after<R: Wait>(
    rt: &R,
    alloc: Global,
    handle: &mut Handle<Plain>,
    since: Seq,
) -> Result<Changes, CallFault> {
    let mut feed = match handle.open_feed(rt, params_after(since)) {
        Ok(feed) => feed,
        Err(OpenFault::NoMemory) => return Err(CallFault::NoMemory),
        Err(_) => return Err(CallFault::Peer),
    };
    let changes = rows_by_turns(rt, alloc, &mut feed);
    drop(feed.finish(rt));
    changes
}

// The revisions of `asked` that the database misses.
fn diffs_of<R: Wait>(
    rt: &R,
    alloc: Global,
    handle: &mut Handle<Plain>,
    asked: &[Asked],
) -> Result<Vec<Diff>, CallFault>
    ensures { IfOk result (λ diffs.
        IsShared (follow.RevsDiff asked.now) (follow.RevsDiffAnswer diffs.items)) }
{
    let asked = copies_of(alloc, asked, Asked::copy)?;
    Ok(handle.look(rt, move |state| state.revs_diff(asked))?)
}

// These revisions of a document, with their histories.
fn documents_of<R: Wait>(
    rt: &R,
    alloc: Global,
    handle: &mut Handle<Plain>,
    asked: &Asked,
) -> Result<FetchedRevs, CallFault>
    ensures { IfOk result (λ found. IsShared (follow.OpenRevs asked.now.id asked.now.revs)
        (follow.OpenRevsAnswer (map found_edit found))) }
{
    let id = asked.id.as_str();
    let which = OpenRevs::Listed(asked.revs.copy(alloc)?);
    let found = handle.look(rt, |state| state.open_revs(id, &which, true))?;
    Ok(FetchedRevs::new(found))
}

// Stores documents with their histories.
fn store_all<R: Wait>(
    rt: &R,
    alloc: Global,
    handle: &mut Handle<Plain>,
    docs: &[Doc],
) -> Result<Replies, CallFault>
    ensures { IfOk result (λ replies.
        IsShared (follow.Merge (map edit_of docs.now)) (follow.MergeAnswer replies)) }
{
    let copies = copies_of(alloc, docs, Doc::copy)?;
    match handle.store(rt, copies, false) {
        Ok(batch) if !batch.stopped => Ok(batch.replies),
        _ => Err(CallFault::NoMemory),
    }
}

// The replication log of this id, if there is one that can be read.
fn log_of<R: Wait>(
    rt: &R,
    alloc: Global,
    handle: &mut Handle<Plain>,
    log_id: &str,
) -> Result<Option<Log>, CallFault> {
    let Some(local) = handle.look(rt, |state| state.local_copy(log_id))? else {
        return Ok(None);
    };
    Ok(Log::read(alloc, local.body.as_bytes())?)
}

// The local document that holds a log.
fn document_of(alloc: Global, log_id: &str, log: &Log) -> Result<LocalDoc, CallFault> {
    let text = log.text(alloc)?;
    match LocalDoc::read(alloc, log_id, text.as_slice()) {
        Ok(doc) => Ok(doc),
        Err(DocFault::NoMemory) => Err(CallFault::NoMemory),
        Err(_) => Err(CallFault::Peer),
    }
}

// Keeps a log as the replication log of this id.
fn keep_log<R: Wait>(
    rt: &R,
    alloc: Global,
    handle: &mut Handle<Plain>,
    log_id: &str,
    log: &Log,
) -> Result<(), CallFault> {
    let doc = document_of(alloc, log_id, log)?;
    handle.local_put(rt, doc)?;
    Ok(())
}

/// A database that threads share, as a follower's peer, by a handle of its own. The database may refuse a
/// call as a whole: it was deleted, a local document was written too often, or there are too many feeds. Such
/// a refusal is a fault of the peer, and counted.
#[derive(Drop)]
pub struct DbPeer<'a, R: Wait> {
    rt: &'a R,
    alloc: Global,
    handle: Handle<Plain>,
    faults: u64,
}

impl<'a, R: Wait> DbPeer<'a, R> {
    /// The peer of this handle, which has no fault yet. It takes no memory.
    pub fn new(rt: &'a R, alloc: Global, handle: Handle<Plain>) -> DbPeer<'a, R>
        ensures faults { result.faults ≡ 0 }
        ensures handle { result.handle ≡ handle }
    {
        DbPeer {
            rt,
            alloc,
            handle,
            faults: 0,
        }
    }

    // Gives a call's outcome back, and counts its fault of the peer.
    fn counted<A>(&mut self, outcome: Result<A, CallFault>) -> Result<A, CallFault>
        ensures same { result ≡ outcome }
        ensures counts { CallCounts result self.old.faults self.new.faults }
    {
        if let Err(CallFault::Peer) = outcome {
            self.faults = self.faults.saturating_add(1);
        }
        outcome
    }
}

impl<'a, R: Wait> Peer for DbPeer<'a, R> {
    ghost use Rattle.hub_follower.specs.Shared.{IsShared};

    // an answer is one that a holding of the lock shows
    ghost gives = { λ s call answer new. IsShared call answer };

    ghost loses = { λ s call new. Unit };

    ghost fault_count = { λ s. s.faults };

    fn changes(&mut self, since: Seq) -> Result<Changes, CallFault> {
        let changes = changes_after(self.rt, self.alloc, &mut self.handle, since);
        self.counted(changes)
    }

    fn revs_diff(&mut self, asked: &[Asked]) -> Result<Vec<Diff>, CallFault> {
        let diffs = diffs_of(self.rt, self.alloc, &mut self.handle, asked);
        self.counted(diffs)
    }

    fn open_revs(&mut self, asked: &Asked) -> Result<FetchedRevs, CallFault> {
        let found = documents_of(self.rt, self.alloc, &mut self.handle, asked);
        self.counted(found)
    }

    fn merge(&mut self, docs: &[Doc]) -> Result<Replies, CallFault> {
        let replies = store_all(self.rt, self.alloc, &mut self.handle, docs);
        self.counted(replies)
    }

    fn local_get(&mut self, log_id: &str) -> Result<Option<Log>, CallFault> {
        let log = log_of(self.rt, self.alloc, &mut self.handle, log_id);
        self.counted(log)
    }

    fn local_put(&mut self, log_id: &str, log: &Log) -> Result<(), CallFault> {
        let done = keep_log(self.rt, self.alloc, &mut self.handle, log_id, log);
        self.counted(done)
    }

    fn faults(&self) -> u64 {
        self.faults
    }
}
