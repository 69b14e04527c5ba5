//! Rows of the log of updates.

ghost use Rattle.std.specs.Prelude.{◌≡◌, ◌<◌, length, IfOk, OnErr};

use hub_model::UpdateKind;
use std::alloc::{AllocError, Global};
use std::marker::Model;

/// A row of a feed of the log of updates (CouchDB API reference, `_db_updates`).
#[derive(Debug, Drop)]
pub struct UpdateRow {
    /// The database's name.
    pub db_name: String,
    /// Whether the database was made, updated or removed.
    pub kind: UpdateKind,
    /// The sequence of the event's note in the log.
    pub seq: u64,
    /// How many notes the log had when the row was made.
    pub seen: u64,
}

impl Model for UpdateRow {
    ghost use Rattle.std.specs.Prelude.{string_bytes};
    ghost use Rattle.hub_model.specs.Updates.{UpdateRow as Row};

    ghost Value = { Row };

    ghost view = { λ a. record {
      db_name = string_bytes a.db_name;
      kind = a.kind;
      seq = a.seq;
      seen = a.seen;
    } };
}

impl UpdateRow {
    /// A copy. The cost is the name's length, and an empty name takes no memory.
    pub fn copy(&self, alloc: Global) -> Result<UpdateRow, AllocError>
        ensures ok { IfOk result (λ row. row ≡ self.now) }
        ensures memory { OnErr result (0 < length self.now.db_name) }
    {
        let db_name = if self.db_name.is_empty() {
            String::new(alloc)
        } else {
            String::from_str(alloc, self.db_name.as_str())?
        };
        Ok(UpdateRow {
            db_name,
            kind: self.kind,
            seq: self.seq,
            seen: self.seen,
        })
    }
}
