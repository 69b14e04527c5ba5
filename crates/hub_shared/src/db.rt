//! Databases that threads share.

ghost use Rattle.std.specs.Prelude.{◌≡◌, true, IfOk};

use crate::count::{Count, NoCount, Plain};
use crate::handle::Handle;
use crate::host::Host;
use crate::locked::Locked;
use hub_database::DbState;
use hub_document::Limits;
use std::alloc::{AllocError, Global};
use std::sync::{Arc, Condvar, Mutex};

/// A database that threads share. Each `Db` and each `Handle` keeps it; it is dropped with the last of them.
pub type Db<C> = Host<DbState, C>;

impl<C: Count> Host<DbState, C> {
    /// An empty database, of the life of this number, and the handle that has every part of the count.
    pub fn new(
        alloc: Global,
        limits: Limits,
        life: u64,
        count: C,
    ) -> Result<(Db<C>, Handle<C>), AllocError>
        ensures count { IfOk result (λ made. made.1.count ≡ 0) }
        ensures parts { IfOk result (λ made. C.counts ≡ true → made.1.parts ≡ C.all_parts) }
    {
        let (book, share) = count.open();
        let state = DbState::new(alloc, limits, life);
        let locked = Locked::new(alloc, state, limits.lane as usize, limits.hold, book);
        let shared = Arc::new(alloc, (Mutex::new(locked), Condvar::new()))?;
        let db = Host { shared, alloc };
        let handle = Handle::new(db.again()?, share);
        Ok((db, handle))
    }
}

impl Host<DbState> {
    /// A handle, which counts nothing.
    pub fn handle(&self) -> Result<Handle<Plain>, AllocError>
        ensures { IfOk result (λ handle. handle.count ≡ 0) }
    {
        Ok(Handle::new(self.again()?, NoCount))
    }
}
