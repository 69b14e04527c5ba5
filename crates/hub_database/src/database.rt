//! One database, and its calls but for those of its feeds.

ghost use Rattle.std.specs.Prelude.{◌≡◌, ◌⊎◌, ◌<◌, ◌≤◌, ◌^◌, [], false, true, length, option_map};
ghost use Rattle.std.specs.Prelude.{replicate, Err, IfOk, IfErr, OnErr, OnOk};
ghost use Rattle.hub_model.specs.Descending.{descending};
ghost use Rattle.hub_model.specs.Draft.{HasNextRevision};
ghost use Rattle.hub_model.specs.Journal.{IsLegal};
ghost use Rattle.hub_model.specs.Missing.{diffs};
ghost use Rattle.hub_model.specs.Outcome.{refusal_result};
ghost use Rattle.hub_model.specs.declared.outcomes.Fault.{Fault};
ghost use Rattle.hub_model.specs.declared.outcomes.Fault.TheVariants.{Deleted, SequenceFull};
ghost use Rattle.hub_model.specs.declared.outcomes.Outcome.TheVariants.{Stored, Refused};
ghost use Rattle.hub_params.specs.FeedModel.{params_of};
ghost use Rattle.hub_database.specs.Answers.{local_named};
ghost use Rattle.hub_database.specs.Database.{IsDeletedFault, IsFreeRead, IsRead, contents_of};
ghost use Rattle.hub_database.specs.Edits.{IsBatch, draft_of, one_draft_result, reply_of};
ghost use Rattle.hub_database.specs.Feeds.{deleted_database};
ghost use Rattle.hub_database.specs.Locals.{local_of, put_local, local_after_write};
ghost use Rattle.hub_database.specs.Reads.{HasDocument, info_of, lookup, open_revs as open_revs_of};

use crate::answers::{Diff, Info, Lookup, OpenRev};
use crate::batch::{Batch, DbFault, Replies};
use crate::contents::Contents;
use crate::descending::Descending;
use crate::document::{Incoming, Origin};
use crate::listing::Listing;
use crate::local::Local;
use hub_document::{Asked, Doc, Limits, LocalDoc, OpenRevs, RevId};
use hub_feed::Feeds;
use hub_model::{Fault, Outcome};
use hub_params::FeedParams;
use std::alloc::{AllocError, Global};
use std::marker::Model;

/// The state of one database: its contents, whether it was deleted, and its feeds.
#[derive(Debug)]
pub struct DbState {
    pub(crate) contents: Contents,
    /// Whether the database was deleted: then it takes no write, answers no question, and its feeds end.
    pub(crate) deleted: bool,
    /// The feeds that are not finished.
    pub(crate) feeds: Feeds,
    /// The rows of one feed of listed documents, kept in order until the next write.
    pub(crate) listing: Listing,
}

impl Drop for DbState {
    fn drop(self) {
        let Self {
            contents,
            deleted,
            feeds,
            listing,
        } = self;
    }
}

impl Model for DbState {
    ghost use Rattle.hub_database.specs.Database.{Database};

    ghost Value = { Database };

    ghost use Rattle.std.specs.Prelude.{length};
    ghost use Rattle.hub_feed.specs.Feeds.{AreBehind};
    ghost use Rattle.hub_database.specs.Listing.{IsListing};

    ghost view = { λ a. record {
      journal = a.contents.journal;
      deleted = a.deleted;
      locals = a.contents.locals;
      feeds = a.feeds.feeds;
      next_feed = a.feeds.next;
      limits = a.contents.limits;
      life = a.contents.life;
    } };

    ghost invariant = { λ a. AreBehind (length a.contents.journal) a.feeds.feeds
        × IsListing a.contents.journal a.feeds.feeds a.feeds.next a.listing };
}

// Refuses so many documents of a deleted database.
fn refuse_all(alloc: Global, count: usize) -> Result<Batch, AllocError>
    ensures { IfOk result (λ batch. (batch.replies ≡ replicate count (Refused Deleted))
        × (batch.stopped ≡ false)) }
{
    let list = vec![in alloc; Outcome::Refused(Fault::Deleted); count]?;
    Ok(Batch {
        replies: Replies::new(list),
        stopped: false,
    })
}

// The answer to an edit that is made here, by its outcome. No such edit was known before.
fn reply(outcome: Outcome<RevId>) -> Result<RevId, DbFault>
    ensures { result ≡ reply_of outcome }
{
    match outcome {
        Outcome::Stored(rev) => Ok(rev),
        Outcome::Refused(fault) => Err(DbFault::Refused(fault)),
        Outcome::Known => Err(DbFault::Refused(Fault::Conflict)),
    }
}

impl DbState {
    /// A database without documents, with this number as its life.
    pub fn new(alloc: Global, limits: Limits, life: u64) -> DbState
        ensures journal { result.journal ≡ [] }
        ensures stands { result.deleted ≡ false }
        ensures locals { result.locals ≡ [] }
        ensures feeds { result.feeds ≡ [] }
        ensures numbers { result.next_feed ≡ 0 }
        ensures limits { result.limits ≡ limits }
        ensures life { result.life ≡ life }
    {
        DbState {
            contents: Contents::new(alloc, limits, life),
            deleted: false,
            feeds: Feeds::new(alloc),
            listing: Listing::new(alloc),
        }
    }

    /// Whether the database was deleted.
    pub fn is_deleted(&self) -> bool
        ensures { result ≡ self.now.deleted }
    {
        self.deleted
    }

    /// The contents, where the database was not deleted. Each call below that fails for a deleted database
    /// asks this, once.
    pub fn standing(&self) -> Result<&Contents, DbFault>
        ensures { IsFreeRead self.now result (λ contents. contents.now ≡ contents_of self.now) }
    {
        if self.deleted {
            return Err(DbFault::Refused(Fault::Deleted));
        }
        Ok(&self.contents)
    }

    /// The number of edits that were accepted: the sequence of the last one.
    pub fn update_seq(&self) -> u64
        ensures value { result ≡ length self.now.journal }
        ensures legal { IsLegal self.now.journal }
        ensures within { result ≤ self.now.limits.journal }
    {
        self.contents.journal.len() as u64
    }

    /// The numbers of documents and of edits (CouchDB API reference, `GET /{db}`). Constant time: the
    /// counts are kept.
    pub fn info(&self) -> Result<Info, DbFault>
        ensures { IsFreeRead self.now result (λ info. info ≡ info_of self.now.journal self.now.life) }
    {
        Ok(self.standing()?.info())
    }

    /// A document: its winner, with its history where `revs` asks for it. The cost is that of
    /// `Contents::get`.
    pub fn get(&self, id: &str, revs: bool) -> Result<Lookup, DbFault>
        ensures { IsRead self.now result (λ found. found ≡ lookup self.now.journal id.now revs)
            (HasDocument self.now.journal id.now revs) }
    {
        Ok(self.standing()?.get(id, revs)?)
    }

    /// The revisions of a document that are asked for, each with its history where `revs` asks for it. An
    /// unknown document has no leaf, and each listed revision of it is missing. The cost is that of
    /// `Contents::open_revs`.
    pub fn open_revs(&self, id: &str, which: &OpenRevs, revs: bool) -> Result<Vec<OpenRev>, DbFault>
        ensures { let revisions = open_revs_of self.now.journal id.now which.now revs in
            IsRead self.now result (λ found. found.items ≡ revisions) (¬ (revisions ≡ [])) }
    {
        Ok(self.standing()?.open_revs(id, which, revs)?)
    }

    /// The missing revisions among those asked for, in the order asked. A document that misses none is left
    /// out. The cost is that of `Contents::revs_diff`.
    pub fn revs_diff(&self, asked: Vec<Asked>) -> Result<Vec<Diff>, DbFault>
        ensures { let missed = diffs self.now.journal asked.items in
            IsRead self.now result (λ found. found.items ≡ missed) (¬ (missed ≡ [])) }
    {
        Ok(self.standing()?.revs_diff(asked)?)
    }

    /// The current rows that pass, the greatest sequence first, in one answer. Only `since`, `limit`,
    /// `style`, `include_docs` and `filter` are looked at. The cost is that of
    /// `Contents::changes_descending`.
    pub fn changes_descending(&self, params: &FeedParams) -> Result<Descending, DbFault>
        ensures { let falling = descending self.now.journal self.now.life (params_of params.now) in
            IsRead self.now result (λ answer. answer ≡ falling) (¬ (falling.rows ≡ [])) }
    {
        Ok(self.standing()?.changes_descending(params)?)
    }

    /// The local document of this id. The cost is a look in the map of local documents.
    pub fn local_get(&self, id: &str) -> Result<Option<&Local>, DbFault>
        ensures { IsFreeRead self.now result (λ found.
            option_map (λ l. local_named id.now l.now) found ≡ local_of self.now.locals id.now) }
    {
        Ok(self.standing()?.local_get(id))
    }

    /// Stores a local document in the place of the one with its id, and returns how often the id was
    /// written. After the count 2^64 - 1 a write is refused as a full sequence. The cost is two looks in
    /// the map of local documents.
    pub fn local_put(&mut self, doc: LocalDoc) -> Result<u64, DbFault>
        ensures ok { IfOk result (λ count. (self.old.deleted ≡ false)
            × (count ≡ (local_after_write self.old.locals doc).count)
            × (self.new ≡ record self.old {
              locals = put_local (local_after_write self.old.locals doc) self.old.locals;
            })) }
        ensures err { IfErr result (λ e. (self.new ≡ self.old)
            × (IsDeletedFault self.old e
            ⊎ ((self.old.deleted ≡ false) × ((e ≡ DbFault.NoMemory)
            ⊎ ((e ≡ DbFault.Refused SequenceFull) × (2 ^ 64 ≤ (local_after_write self.old.locals doc).count)))))) }
        ensures memory { result ≡ Err DbFault.NoMemory
            → (self.old.deleted ≡ false) × ((local_after_write self.old.locals doc).count < 2 ^ 64) }
    {
        self.standing()?;
        self.contents.local_put(doc)
    }

    /// Stores documents one after the other. With `new_edits` their revisions are made here. Without it
    /// another database made them, and they come with their histories, as a replicator sends them (CouchDB
    /// API reference, `_bulk_docs`). Such a document without a history is refused as one that contradicts.
    /// A deleted database refuses each document as `Deleted`. The call fails only where the list of replies
    /// finds no memory. Where memory runs out at a document, the batch stops there, and the documents
    /// before it stay stored. Only a document that is to be stored, or whose revision is to be made, needs
    /// memory. Each document costs a search of its id, a move in the index of rows, one
    /// `RevTree::look_extend` or `RevTree::look_merge`, and one `RevTree::adopt`.
    pub fn write_edits(&mut self, docs: Vec<Doc>, new_edits: bool) -> Result<Batch, DbFault>
        ensures batch { IfOk result (IsBatch new_edits self.old.deleted self.old.limits.journal
            self.old.journal self.new.journal docs.items) }
        ensures rest { self.new ≡ record self.old { journal = self.new.journal } }
        ensures err { IfErr result (λ e. (e ≡ DbFault.NoMemory) × (self.new ≡ self.old)) }
        ensures memory { OnErr result (0 < length docs.items) }
    {
        if docs.is_empty() {
            return Ok(Batch {
                replies: Replies::new(Vec::new(self.contents.alloc())),
                stopped: false,
            });
        }
        if self.deleted {
            return Ok(refuse_all(self.contents.alloc(), docs.len())?);
        }
        self.listing.forget();
        Ok(self.contents.write_edits(docs, new_edits)?)
    }

    /// Stores one edit whose revision is made here, and returns that revision (CouchDB API reference, PUT
    /// and DELETE of a document). The first of these faults refuses it. `Deleted`: the database was
    /// deleted. `Conflict`: no leaf is named or chosen. `GenerationLimit`: the leaf has the last
    /// generation. `Conflict`: the made revision is known. `SequenceFull`: the journal is full. The cost is
    /// a search of the id, a move in the index of rows, and that of `RevTree::look_extend` and
    /// `RevTree::adopt`.
    pub fn write_one(&mut self, doc: Doc) -> Result<RevId, DbFault>
        ensures ok { IfOk result (λ rev.
            one_draft_result self.old.deleted self.old.limits.journal self.old.journal doc
            ≡ record { outcome = Stored rev; journal = self.new.journal }) }
        ensures rest { self.new ≡ record self.old { journal = self.new.journal } }
        ensures err { IfErr result (λ e. (self.new ≡ self.old) × ((e ≡ DbFault.NoMemory)
            ⊎ ((fault : Fault) × (e ≡ DbFault.Refused fault)
            × (one_draft_result self.old.deleted self.old.limits.journal self.old.journal doc
            ≡ refusal_result self.old.journal fault)))) }
        ensures memory { result ≡ Err DbFault.NoMemory
            → (self.old.deleted ≡ false) × HasNextRevision self.old.journal (draft_of doc) }
    {
        self.standing()?;
        self.listing.forget();
        let Doc {
            id,
            rev,
            path: _,
            deleted,
            body,
        } = doc;
        let edit = Incoming {
            origin: Origin::Here(rev),
            deleted,
            body,
        };
        let outcome = self.contents.store(id, edit)?;
        reply(outcome)
    }

    /// Deletes the database, and ends its open feeds: each has only its end left to hand. The call takes no
    /// memory. The cost is a step for each feed.
    pub fn delete(&mut self) -> Result<(), DbFault>
        ensures ok { OnOk result ((self.old.deleted ≡ false) × (self.new ≡ deleted_database self.old)) }
        ensures err { IfErr result (λ e. (self.old.deleted ≡ true) × (e ≡ DbFault.Refused Deleted)
            × (self.new ≡ self.old)) }
    {
        self.standing()?;
        self.deleted = true;
        self.feeds.end_all();
        Ok(())
    }
}
