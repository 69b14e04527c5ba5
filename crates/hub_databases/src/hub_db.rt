//! A database of a hub.

ghost use Rattle.std.specs.Prelude.{◌≡◌, ◌<◌, ℕ, List, IfOk};
ghost use Rattle.std.specs.Arc.{arc_str_bytes};

use hub_document::Limits;
use hub_shared::{Db, Handle, Plain};
use std::alloc::{AllocError, Global};
use std::marker::Model;
use std::sync::ArcStr;

/// A database with its name. A database that is removed from its hub stays as long as someone has it, and
/// refuses writes. Contracts see its name.
pub struct HubDb {
    name: ArcStr,
    db: Db<Plain>,
}

impl Drop for HubDb {
    fn drop(self) {
        let Self { name, db } = self;
    }
}

impl Model for HubDb {
    ghost use Rattle.std.specs.Prelude.{ℕ, List};
    ghost use Rattle.std.specs.Arc.{arc_str_bytes};

    ghost Value = { List ℕ };

    ghost view = { λ a. arc_str_bytes a.name };
}

impl HubDb {
    /// An empty database of this name, with this number as its life. Life 0 is that of the log.
    pub(crate) fn new(
        alloc: Global,
        limits: Limits,
        name: &str,
        life: u64,
    ) -> Result<HubDb, AllocError>
        requires { 0 < life }
        ensures { IfOk result (λ made. made ≡ name.now) }
    {
        let name = ArcStr::from_str(alloc, name)?;
        let (db, _handle) = Db::new(alloc, limits, life, Plain)?;
        Ok(HubDb { name, db })
    }

    /// A second value for the same database. Constant time.
    pub(crate) fn again(&self) -> Result<HubDb, AllocError>
        ensures { IfOk result (λ db. db ≡ self.now) }
    {
        Ok(HubDb {
            name: self.name.clone()?,
            db: self.db.again()?,
        })
    }

    /// The database. Constant time.
    pub fn db(&self) -> &Db<Plain> {
        &self.db
    }

    /// A handle on the database: each thread has its own. Constant time.
    pub fn handle(&self) -> Result<Handle<Plain>, AllocError>
        ensures { IfOk result (λ handle. handle.count ≡ 0) }
    {
        self.db.handle()
    }

    /// The database's name. Constant time.
    pub fn name(&self) -> &str
        ensures { result.now ≡ self.now }
    {
        self.name.as_str()
    }
}
