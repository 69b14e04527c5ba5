//! Handles on a database.

ghost use Rattle.std.specs.Prelude.{◌≡◌, ◌⊎◌, ◌+◌, ◌<◌, true, false};
ghost use Rattle.std.specs.Prelude.{IfOk, IfErr, MatchResult, OnErr, vec_len};
ghost use Rattle.std.specs.Fn.{FnOnceReturnsAt};
ghost use Rattle.hub_model.specs.declared.outcomes.Fault.TheVariants.{Deleted, SequenceFull};
ghost use Rattle.hub_params.specs.FeedShown.{params_asked};
ghost use Rattle.hub_database.specs.Database.{Database, IsRead};
ghost use Rattle.hub_database.specs.Hosting.{hosted_of};
ghost use Rattle.hub_database.specs.Locals.{local_after_write};
ghost use Rattle.hub_feed.specs.Host.{opening_fault};
ghost use Rattle.hub_shared.specs.Feeds.{IsOpened};
ghost use Rattle.hub_database.specs.Receipts.{IsAudit};
ghost use Rattle.hub_database.specs.Answers.{IsAnswer, TakesMemory};
ghost use Rattle.hub_shared.specs.Handles.{HasCounted, IsEditedBy, IsFoundBy, IsLook, IsNew};
ghost use Rattle.hub_shared.specs.Handles.{IsStoredBy, IsWrittenBy};
ghost use Rattle.hub_shared.specs.Locals.{IsLocalFault};
ghost use Rattle.hub_shared.specs.Stored.{IsOutOfMemoryFor, stored_count};

use crate::count::{Count, Counted};
use crate::db::Db;
use crate::feed::{Feed, HostFeed};
use crate::locked::OpenedFeed;
use crate::write::Accepted;
use hub_database::{
    Answer, AuditFault, Batch, DbFault, DbState, Question, Receipt, ReceiptRoom, audit_of,
};
use hub_document::{Doc, LocalDoc, RevId};
use hub_feed::{FeedHost, OpenFault};
use hub_params::FeedParams;
use std::alloc::AllocError;
use std::marker::Model;
use std::sync::Wait;
use std::sync::ledger::Ledger;

/// A handle on a database; each thread has its own. It counts the edits that were accepted through it and
/// through the handles joined to it. Each of its calls finds a legal journal with at least so many edits.
#[derive(Drop)]
pub struct Handle<C: Count> {
    db: Db<C>,
    share: C::Share,
    count: u64,
}

impl<C: Count> Model for Handle<C> {
    ghost use Rattle.std.specs.Prelude.{◌≡◌, ◌<◌, true};
    ghost use Rattle.hub_shared.specs.Handles.{HandleState};

    ghost Value = { HandleState };

    ghost view = { λ a. record { parts = C.parts a.share; count = a.count } };

    ghost invariant = { λ a. (C.counts ≡ true → 0 < C.parts a.share) × (C.amount a.share ≡ a.count) };
}

impl<C: Count> Handle<C> {
    /// A handle that has counted nothing.
    pub(crate) fn new(db: Db<C>, share: C::Share) -> Handle<C>
        requires parts { C.counts ≡ true → 0 < C.parts share }
        requires amount { C.amount share ≡ 0 }
        ensures { result ≡ record { parts = C.parts share; count = 0 } }
    {
        Handle {
            db,
            share,
            count: 0,
        }
    }

    /// The database. Constant time.
    pub fn db(&self) -> &Db<C> {
        &self.db
    }

    /// How many edits were accepted through this handle, and through the handles joined to it. For a `Plain`
    /// database it is 0. Constant time.
    pub fn count(&self) -> u64
        ensures { result ≡ self.now.count }
    {
        self.count
    }

    /// Stores documents, as `Locked::write`. The documents' ids are copied, and the memory for the receipts
    /// is taken, before the lock is taken. The cost is these copies, the wait for the lock, and that of
    /// `Locked::store`.
    pub fn write<R: Wait>(
        &mut self,
        rt: &R,
        docs: Vec<Doc>,
        new_edits: bool,
    ) -> Result<Accepted, DbFault>
        ensures written { IfOk result (λ a.
            IsWrittenBy C.counts C.all_parts self.old new_edits docs.items a) }
        ensures counted { MatchResult result
            (λ a. HasCounted C.counts (vec_len a.receipts) self.old self.new) (λ _. self.new ≡ self.old) }
        ensures err { IfErr result (IsOutOfMemoryFor docs.items) }
    {
        let room = ReceiptRoom::of(self.db.alloc, docs.as_slice())?;
        let mut locked = self.db.locked().lock(rt);
        let edits = locked.audit_share(&mut self.share);
        let (batch, rise) = locked.store(&mut self.share, docs, new_edits)?;
        drop(locked);
        self.db.tell();
        self.count += rise;
        Ok(Accepted::new(batch, edits, room))
    }

    /// Asks the database, as it is at one moment: `ask` is called once, under the lock, and must wait for
    /// nothing. The cost is the wait for the lock, and that of `ask`.
    pub fn look<T, R: Wait, F: FnOnce(&DbState) -> Result<T, DbFault>>(
        &mut self,
        rt: &R,
        ask: F,
    ) -> Result<T, DbFault>
        requires { F.IsAlwaysCallable ask }
        ensures asked { (db : Database) × IsFoundBy C.counts C.all_parts self.old db
            × FnOnceReturnsAt F.FnOnce ask db result }
        ensures same { self.new ≡ self.old }
    {
        let mut locked = self.db.locked().lock(rt);
        locked.audit_share(&mut self.share);
        ask(locked.state())
    }

    /// Stores documents, as `write`, without receipts: their ids are not copied. The cost is the wait for the
    /// lock, and that of `Locked::store`. Beside the edits, only the list of replies takes memory.
    pub fn store<R: Wait>(
        &mut self,
        rt: &R,
        docs: Vec<Doc>,
        new_edits: bool,
    ) -> Result<Batch, DbFault>
        ensures stored { IfOk result (λ batch.
            IsStoredBy C.counts C.all_parts self.old new_edits docs.items batch) }
        ensures counted { MatchResult result
            (λ batch. HasCounted C.counts (stored_count batch.replies) self.old self.new)
            (λ _. self.new ≡ self.old) }
        ensures err { IfErr result (IsOutOfMemoryFor docs.items) }
    {
        let (batch, rise) = self
            .db
            .locked()
            .lock(rt)
            .store(&mut self.share, docs, new_edits)?;
        self.db.tell();
        self.count += rise;
        Ok(batch)
    }

    /// Stores one edit whose revision is made here, as `DbState::write_one`, and gives that revision. The
    /// refusals and their order are those of that call. Out of memory is the error only for a document that
    /// has a leaf to extend. The cost is the wait for the lock, that of `DbState::write_one`, and a look at
    /// each feed. It takes no memory beside that of `DbState::write_one`.
    pub fn write_one<R: Wait>(&mut self, rt: &R, doc: Doc) -> Result<RevId, DbFault>
        ensures edited { IsEditedBy C.counts C.all_parts self.old doc result }
        ensures counted { MatchResult result
            (λ _. HasCounted C.counts 1 self.old self.new) (λ _. self.new ≡ self.old) }
    {
        let (rev, rise) = self.db.locked().lock(rt).write_one(&mut self.share, doc)?;
        self.db.tell();
        self.count += rise;
        Ok(rev)
    }

    /// Answers a question. The cost is the wait for the lock, and that of `DbState::answer`.
    pub fn read<R: Wait>(&mut self, rt: &R, question: Question) -> Result<Answer, DbFault>
        ensures { IsLook C.counts C.all_parts self.old self.new (λ db.
            IsRead db result (IsAnswer db question) (TakesMemory db question)) }
    {
        self.look(rt, move |state| state.answer(question))
    }

    /// Stores a local document in place of the document of its id, and gives how often it was written: at
    /// least once. A deleted database is the first error. At the last count, 2^64 - 1, the error is a full
    /// sequence. The cost is the wait for the lock, and that of `DbState::local_put`.
    pub fn local_put<R: Wait>(&self, rt: &R, doc: LocalDoc) -> Result<u64, DbFault>
        ensures ok { IfOk result (λ count. (db : Database) × (db.deleted ≡ false)
            × (count ≡ (local_after_write db.locals doc).count)) }
        ensures once { IfOk result (λ count. 0 < count) }
        ensures err { IfErr result (λ e. (db : Database) × IsLocalFault db doc e) }
        ensures faults { IfErr result (λ e. (e ≡ DbFault.NoMemory) ⊎ ((e ≡ DbFault.Refused Deleted)
            ⊎ (e ≡ DbFault.Refused SequenceFull))) }
    {
        let mut guard = self.db.locked().lock(rt);
        let locked = &mut *guard;
        locked.state.local_put(doc)
    }

    /// Opens a feed, which stays until it is finished: its connection is to call `HostFeed::poll`, or a
    /// thread to `pump` it and the connection to call `Feed::take`. `descending` is not looked at. A deleted
    /// database is the first error, then too many feeds, and out of memory only where the database refuses
    /// nothing. The cost is the wait for the lock, and that of `Locked::begin`.
    pub fn open_feed<R: Wait>(&mut self, rt: &R, params: FeedParams) -> Result<Feed<C>, OpenFault>
        ensures new { IfOk result (IsNew (params_asked params) self.old.count) }
        ensures opened { IfOk result (λ feed. (db : Database)
            × IsFoundBy C.counts C.all_parts self.old db
            × IsOpened (hosted_of db) (params_asked params) feed) }
        ensures err { IfErr result (λ e. (db : Database)
            × IsFoundBy C.counts C.all_parts self.old db × (e ≡ opening_fault (hosted_of db))) }
        ensures same { self.new ≡ self.old }
    {
        let own = self.db.again();
        let mut locked = self.db.locked().lock(rt);
        locked.audit_share(&mut self.share);
        let Ok(db) = own else {
            return Err(locked.state().refusal().unwrap_or(OpenFault::NoMemory));
        };
        let OpenedFeed { id, taker } = locked.begin(params)?;
        Ok(HostFeed::new(db, id, taker))
    }

    /// Deletes the database. Its feeds come to their ends. It takes no memory. The cost is the wait for the
    /// lock, and a step for each feed.
    pub fn delete<R: Wait>(&self, rt: &R) -> Result<(), DbFault>
        ensures { IfErr result (λ e. e ≡ DbFault.Refused Deleted) }
    {
        let done = self.db.locked().lock(rt).delete();
        self.db.tell();
        done
    }

    /// Compares receipts with the journal, by `audit_of`. It takes no memory. The cost is the wait for the
    /// lock, and a look in the journal for each receipt.
    pub fn audit<R: Wait>(&mut self, rt: &R, receipts: &[Receipt]) -> Result<(), AuditFault>
        ensures { IsLook C.counts C.all_parts self.old self.new (λ db.
            IsAudit db.journal receipts.now result) }
    {
        let mut locked = self.db.locked().lock(rt);
        locked.audit_share(&mut self.share);
        audit_of(locked.state(), receipts)
    }
}

impl<L: Ledger + Send + Sync> Handle<Counted<L>> {
    /// Gives so many parts of this handle to a new handle, which has counted nothing yet. It takes no memory
    /// beside the count of the database's users.
    pub fn split(&mut self, parts: u64) -> Result<Handle<Counted<L>>, AllocError>
        requires { (0 < parts) × (parts < self.old.parts) }
        ensures given { IfOk result (λ handle. (handle.parts ≡ parts)
            × (handle.count ≡ 0) × (self.new.parts + handle.parts ≡ self.old.parts)) }
        ensures count { self.new.count ≡ self.old.count }
        ensures err { OnErr result (self.new ≡ self.old) }
    {
        let db = self.db.again()?;
        let share = self.share.split_off(parts, 0);
        Ok(Handle::new(db, share))
    }

    /// Joins another handle on this database to this one, with its parts and its count. It takes no memory.
    /// It waits for the lock: the book there bounds the sum of the counts.
    pub fn join<R: Wait>(&mut self, rt: &R, other: Handle<Counted<L>>)
        ensures { self.new ≡ record {
          parts = self.old.parts + other.parts;
          count = self.old.count + other.count;
        } }
    {
        let Handle {
            db: _,
            share,
            count,
        } = other;
        self.share.merge(share);
        self.db.locked().lock(rt).audit_share(&mut self.share);
        self.count += count;
    }
}
