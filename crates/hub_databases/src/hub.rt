//! A hub of databases behind locks.

ghost use Rattle.std.specs.Prelude.{◌≡◌, ◌⊎◌, true, false, Ok, Err, map};
ghost use Rattle.std.specs.Prelude.{string_bytes, Contains, IfErr, IfOk, IsSome, OnOk};
ghost use Rattle.hub_databases.specs.Kept.{AreNames, most_databases, with_made, without_name};
ghost use Rattle.hub_databases.specs.Names.{is_name as is_database_name};
ghost use Rattle.hub_databases.specs.Refusals.{IsCallByName, IsCreationFault, IsFree};
ghost use Rattle.hub_databases.specs.Refusals.{IsRemovalFault};
ghost use Rattle.hub_params.specs.FeedShown.{params_asked};
ghost use Rattle.hub_shared.specs.Handles.{IsEditedBy, IsNew, IsStoredBy};
ghost use Rattle.hub_shared.specs.Stored.{HasStored};
ghost use Rattle.hub_updates.specs.Asked.{updates_asked};

use crate::fault::HubFault;
use crate::hub_db::HubDb;
use crate::name::is_name;
use crate::names::Names;
use crate::written::{Edited, Written, has_stored};
use hub_database::{Batch, DbFault};
use hub_document::{Doc, Limits};
use hub_feed::OpenFault;
use hub_model::UpdateKind;
use hub_params::FeedParams;
use hub_shared::{Handle, Plain, Updates, UpdatesFeed};
use hub_updates::{NoteFault, Notice};
use std::alloc::{AllocError, Global};
use std::sync::{RwLock, Wait};

/// The databases of a hub by their names, and the log of updates. Threads share a hub by reference or by an
/// `Arc`.
pub struct Hub {
    alloc: Global,
    limits: Limits,
    // The order of the locks: the names, and then the log. A database's own lock is taken while neither is
    // held, and no lock is taken under it. So its holder delays only the callers of that database, and the
    // note of a write may come after the note of a deletion that happened later.
    /// The databases by their names.
    names: RwLock<Names>,
    /// The log of updates. Its lock is taken alone, or under the lock of the names.
    updates: Updates,
}

impl Drop for Hub {
    fn drop(self) {
        let Self {
            alloc,
            limits,
            names,
            updates,
        } = self;
    }
}

impl Hub {
    /// A hub without databases.
    pub fn new(alloc: Global, limits: Limits) -> Result<Hub, AllocError> {
        Ok(Hub {
            alloc,
            limits,
            names: RwLock::new(Names::new(alloc, limits.databases)),
            updates: Updates::of_updates(alloc, limits)?,
        })
    }

    // Adds a notice at the end of the log. On a fault the notice lapses, and the fault is returned.
    fn note<R: Wait>(&self, rt: &R, notice: Notice) -> Result<(), NoteFault> {
        match self.updates.note(rt, notice) {
            Ok(()) => Ok(()),
            Err((notice, fault)) => {
                notice.lapse();
                Err(fault)
            }
        }
    }

    // Makes an empty database under a name and notes the creation, or does neither. The database is counted
    // after the note. So lives rise from 1 as databases are made, and no life is left out or given twice.
    fn put<R: Wait>(
        &self,
        rt: &R,
        names: &mut Names,
        name: &str,
        notice: Notice,
    ) -> Result<(), HubFault>
        requires { is_database_name name.now ≡ true }
        ensures free { OnOk result (IsFree names.old name.now) }
        ensures ok { OnOk result (names.new ≡ with_made name.now names.old) }
        ensures err { IfErr result (λ e. (names.new ≡ names.old) × IsCreationFault names.old name.now e) }
    {
        if let Err(fault) = names.add(self.alloc, self.limits, name) {
            notice.lapse();
            return Err(fault);
        }
        if let Err(fault) = self.note(rt, notice) {
            names.take(name);
            return Err(HubFault::from(fault));
        }
        names.count();
        Ok(())
    }

    /// Makes an empty database of this name, and notes that it was created. Its life is the number of
    /// databases that were made so far, itself included. The cost is the wait for the names and for the
    /// log, a search among the names, and a note. The names are held meanwhile.
    pub fn create<R: Wait>(&self, rt: &R, name: &str) -> Result<(), HubFault>
        ensures { IsCallByName name.now result (λ e. ¬ (e ≡ HubFault.Absent)) }
    {
        if !is_name(name) {
            return Err(HubFault::BadName);
        }
        let notice = Notice::new(self.alloc, UpdateKind::Created, name)?;
        let mut names = self.names.write(rt);
        self.put(rt, &mut *names, name, notice)
    }

    /// The database of this name. The cost is the wait for the names, which readers share, and a search
    /// among them.
    pub fn find<R: Wait>(&self, rt: &R, name: &str) -> Result<HubDb, HubFault>
        ensures own { IfOk result (λ db. db ≡ name.now) }
        ensures call { IsCallByName name.now result (λ e.
            (e ≡ HubFault.BadName) ⊎ (e ≡ HubFault.Absent) ⊎ (e ≡ HubFault.NoMemory)) }
    {
        if !is_name(name) {
            return Err(HubFault::BadName);
        }
        let names = self.names.read(rt);
        match names.find(name) {
            Some(db) => Ok(db.again()?),
            None => Err(HubFault::Absent),
        }
    }

    // Takes a database from under its name and notes the deletion, or does neither. A handle on the
    // database is made first.
    fn take<R: Wait>(
        &self,
        rt: &R,
        names: &mut Names,
        name: &str,
        notice: Notice,
    ) -> Result<Handle<Plain>, HubFault>
        ensures there { OnOk result (Contains names.old.names name.now) }
        ensures ok { OnOk result (names.new ≡ without_name name.now names.old) }
        ensures err { IfErr result (λ e. (names.new ≡ names.old) × IsRemovalFault names.old name.now e) }
    {
        let handle = match names.find(name) {
            Some(db) => db.handle(),
            None => {
                notice.lapse();
                return Err(HubFault::Absent);
            }
        };
        let Ok(handle) = handle else {
            notice.lapse();
            return Err(HubFault::NoMemory);
        };
        self.note(rt, notice)?;
        names.take(name);
        Ok(handle)
    }

    /// Removes the database of this name, and notes that it was deleted. Once the names are free, the
    /// database is deleted under its own lock: its feeds come to their ends. The database is let go there
    /// unless someone still has it. The cost is the wait for the names and for the log, a search among the
    /// names, a note, and the cost of `Handle::delete`.
    pub fn remove<R: Wait>(&self, rt: &R, name: &str) -> Result<(), HubFault>
        ensures { IsCallByName name.now result
            (λ e. ¬ (e ≡ HubFault.Exists) × ¬ (e ≡ HubFault.TooMany)) }
    {
        if !is_name(name) {
            return Err(HubFault::BadName);
        }
        let notice = Notice::new(self.alloc, UpdateKind::Deleted, name)?;
        let taken = self.take(rt, &mut *self.names.write(rt), name, notice);
        let handle = taken?;
        // Another holder of the database may have deleted it before.
        let _deleted = handle.delete(rt);
        Ok(())
    }

    /// The names of the databases, in the order of their bytes. The cost is the wait for the names, which
    /// readers share, and copies of them.
    pub fn list<R: Wait>(&self, rt: &R) -> Result<Vec<String>, AllocError>
        ensures { IfOk result (λ names. AreNames most_databases (map string_bytes names.items)) }
    {
        self.names.read(rt).texts(self.alloc)
    }

    /// Stores one edit whose revision is made here, as `Handle::write_one`, and once the database is free
    /// again notes that it was updated. Where the log is full or out of memory, the edit stands without a
    /// note. A removed database refuses the edit. The notice is made before the edit: so `NoMemory` comes
    /// only where nothing was stored. The cost is the notice, which is one allocation, the wait for the
    /// database and for the log, and the costs of `DbState::write_one` and `Updates::note`.
    pub fn write_one<R: Wait>(&self, rt: &R, db: &HubDb, doc: Doc) -> Result<Edited, DbFault>
        ensures edited { IfOk result (λ e.
            IsEditedBy false 0 (record { parts = 0; count = 0 }) doc (Ok e.rev)) }
        ensures err { IfErr result (λ e. (e ≡ DbFault.NoMemory)
            ⊎ IsEditedBy false 0 (record { parts = 0; count = 0 }) doc (Err e)) }
    {
        let mut handle = db.handle()?;
        let notice = Notice::new(self.alloc, UpdateKind::Updated, db.name())?;
        match handle.write_one(rt, doc) {
            Ok(rev) => {
                let lapsed = self.note(rt, notice).err();
                Ok(Edited { rev, lapsed })
            }
            Err(fault) => {
                notice.lapse();
                Err(fault)
            }
        }
    }

    // Notes that a database was updated, where a document was stored. Else the notice lapses.
    fn note_batch<R: Wait>(&self, rt: &R, notice: Notice, batch: Batch) -> Written
        ensures batch { result.batch ≡ batch }
        ensures lapsed { IsSome result.lapsed → HasStored batch.replies }
    {
        if has_stored(batch.replies.as_slice()) {
            let lapsed = self.note(rt, notice).err();
            return Written { batch, lapsed };
        }
        notice.lapse();
        Written {
            batch,
            lapsed: None,
        }
    }

    /// Stores documents, as `Handle::store`. Once the database is free again, the call notes an update,
    /// where at least one document was stored. Where the log is full or out of memory, the edits stand
    /// without a note. A removed database refuses each document. The cost is the notice, which is one
    /// allocation, the wait for the database and for the log, a step for each reply, and the costs of
    /// `DbState::write_edits` and `Updates::note`.
    pub fn write<R: Wait>(
        &self,
        rt: &R,
        db: &HubDb,
        docs: Vec<Doc>,
        new_edits: bool,
    ) -> Result<Written, DbFault>
        ensures stored { IfOk result (λ w. IsStoredBy false 0 (record { parts = 0; count = 0 })
            new_edits docs.items w.batch) }
        ensures lapsed { IfOk result (λ w. IsSome w.lapsed → HasStored w.batch.replies) }
        ensures err { IfErr result (λ e. e ≡ DbFault.NoMemory) }
    {
        let mut handle = db.handle()?;
        let notice = Notice::new(self.alloc, UpdateKind::Updated, db.name())?;
        match handle.store(rt, docs, new_edits) {
            Ok(batch) => Ok(self.note_batch(rt, notice, batch)),
            Err(fault) => {
                notice.lapse();
                Err(fault)
            }
        }
    }

    /// Opens a feed of the log of updates, which stays until it is finished. Its connection calls
    /// `HostFeed::poll`, or takes by `HostFeed::take` while a `pump` hands. The feed shows every row of the
    /// log, upwards. The cost is the wait for the log, and that of `Updates::open_feed`.
    pub fn updates<R: Wait>(&self, rt: &R, params: FeedParams) -> Result<UpdatesFeed, OpenFault>
        ensures new { IfOk result (IsNew (updates_asked (params_asked params)) 0) }
        ensures err { IfErr result (λ e. (e ≡ OpenFault.NoMemory) ⊎ (e ≡ OpenFault.TooManyFeeds)) }
    {
        self.updates.open_feed(rt, params)
    }
}
