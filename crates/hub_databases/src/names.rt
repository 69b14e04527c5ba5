//! The databases of a hub by their names.

ghost use Rattle.std.specs.Prelude.{◌≡◌, ◌↔◌, ◌≤◌, ◌+◌, ◌-◌, ◌^◌, ◌<◌, [], true, map};
ghost use Rattle.std.specs.Prelude.{string_bytes, Contains, IsSome, OnOk, IfErr, IfOk, IfSome};
ghost use Rattle.hub_databases.specs.Kept.{AreNames, most_databases, with_name, without_name};
ghost use Rattle.hub_databases.specs.Names.{is_name as is_database_name};
ghost use Rattle.hub_databases.specs.Refusals.{IsCreationFault, IsFree};

use crate::fault::HubFault;
use crate::hub_db::HubDb;
use hub_document::Limits;
use std::alloc::{AllocError, Global};
use std::collections::BTreeMap;
use std::marker::Model;

/// The database under each name: it has that name. Contracts see the names, in the order of their bytes,
/// their limit, and the number of databases that were made so far.
#[derive(Drop)]
pub(crate) struct Names {
    /// The most databases that there may be.
    limit: u64,
    list: BTreeMap<String, HubDb>,
    /// The number of databases that were made so far: the life of the latest.
    made: u64,
}

impl Model for Names {
    ghost use Rattle.hub_databases.specs.Kept.{AreKept, NamesState, names_of};

    ghost Value = { NamesState };

    ghost view = { λ a. record { names = names_of a.list.entries; limit = a.limit; made = a.made } };

    ghost invariant = { λ a. AreKept a.limit a.list.entries };
}

impl Names {
    /// No names, with a limit on their number. It takes no memory.
    pub(crate) fn new(alloc: Global, limit: u64) -> Names
        requires limit { limit ≤ most_databases }
        ensures { result ≡ record { names = []; limit = limit; made = 0 } }
    {
        Names {
            limit,
            list: BTreeMap::new(alloc),
            made: 0,
        }
    }

    /// The database under a name. The cost is a search among the names.
    pub(crate) fn find(&self, name: &str) -> Option<&HubDb>
        ensures some { IsSome result ↔ Contains self.now.names name.now }
        ensures own { IfSome result (λ db. db.now ≡ name.now) }
    {
        self.list.get(name)
    }

    /// Puts an empty database of the next life under a free name, where there is room, and does not count
    /// it yet. Else all stays, and the fault is the first that holds. Lives end at 2^64 - 1: by then the
    /// log of updates, which has a note for each, is full. The cost is a search among the names.
    pub(crate) fn add(&mut self, alloc: Global, limits: Limits, name: &str) -> Result<(), HubFault>
        requires { is_database_name name.now ≡ true }
        ensures free { OnOk result (IsFree self.old name.now) }
        ensures low { OnOk result (self.old.made < 2 ^ 64 - 1) }
        ensures ok { OnOk result (self.new ≡ with_name name.now self.old) }
        ensures err { IfErr result (λ e. (self.new ≡ self.old) × IsCreationFault self.old name.now e) }
    {
        if self.find(name).is_some() {
            return Err(HubFault::Exists);
        }
        if self.list.len() as u64 >= self.limit {
            return Err(HubFault::TooMany);
        }
        if self.made == u64::MAX {
            return Err(HubFault::SequenceFull);
        }
        let key = name.to_string(alloc)?;
        let db = HubDb::new(alloc, limits, name, self.made + 1)?;
        match self.list.insert(key, db) {
            Ok(_) => Ok(()),
            Err(_) => Err(HubFault::NoMemory),
        }
    }

    /// Counts the database that was put last. Constant time.
    pub(crate) fn count(&mut self)
        requires { self.old.made < 2 ^ 64 - 1 }
        ensures { self.new ≡ record self.old { made = self.old.made + 1 } }
    {
        self.made += 1;
    }

    /// Takes out the database under a name. It takes no memory. The cost is a search among the names.
    pub(crate) fn take(&mut self, name: &str) -> Option<HubDb>
        ensures some { IsSome result ↔ Contains self.old.names name.now }
        ensures names { self.new ≡ without_name name.now self.old }
    {
        self.list.remove(name)
    }

    /// Copies of the names, in the order of their bytes.
    pub(crate) fn texts(&self, alloc: Global) -> Result<Vec<String>, AllocError>
        ensures { IfOk result (λ texts. (map string_bytes texts.items ≡ self.now.names)
            × AreNames most_databases self.now.names) }
    {
        let mut texts = Vec::new(alloc);
        for name in self.list.keys() {
            texts.push(name.as_str().to_string(alloc)?)?;
        }
        Ok(texts)
    }
}
