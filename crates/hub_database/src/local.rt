//! Local documents.

ghost use Rattle.std.specs.Prelude.{◌≡◌, ◌⊎◌, ◌<◌, ◌≤◌, ◌^◌, option_map, Err};
ghost use Rattle.std.specs.Prelude.{IfSome, IfNone, IfOk, IfErr, OnOk, OnErr};
ghost use Rattle.hub_model.specs.declared.outcomes.Fault.TheVariants.{SequenceFull};
ghost use Rattle.hub_database.specs.Answers.{local_named};
ghost use Rattle.hub_database.specs.Kept.{locals_of};
ghost use Rattle.hub_database.specs.Locals.{local_of, next_count, put_local, local_after_write};

use crate::batch::DbFault;
use crate::contents::Contents;
use hub_document::{Body, LocalDoc, LocalId};
use hub_model::Fault;
use std::alloc::{AllocError, Global};
use std::collections::BTreeMap;

/// A local document as a database keeps it: no feed shows it, and no replication copies it (CouchDB API
/// reference, local documents).
#[derive(Debug, Drop)]
pub struct Local {
    /// How often the document was written, from 1: its revision is `0-count`.
    pub count: u64,
    /// The document's members.
    pub body: Body,
}

impl Local {
    /// A copy of the local document. The cost is a copy of its members.
    pub fn copy(&self, alloc: Global) -> Result<Local, AllocError>
        ensures { IfOk result (λ local. local ≡ self.now) }
    {
        Ok(Local {
            count: self.count,
            body: self.body.copy(alloc)?,
        })
    }
}

// Puts a local document in the place of the one with its id, if there is one.
fn put(locals: &mut BTreeMap<String, Local>, id: LocalId, local: Local) -> Result<(), AllocError>
    ensures ok { OnOk result (locals_of locals.new ≡ put_local (local_named id local) (locals_of locals.old)) }
    ensures err { OnErr result (locals_of locals.new ≡ locals_of locals.old) }
{
    locals.insert(id.into_string(), local)?;
    Ok(())
}

impl Contents {
    /// The local document of this id. The cost is a look in the map of local documents.
    pub fn local_get(&self, id: &str) -> Option<&Local>
        ensures { option_map (λ l. local_named id.now l.now) result ≡ local_of self.now.locals id.now }
    {
        self.locals.get(id)
    }

    // The count of the local document of this id after one more write; None past 2^64 - 1.
    fn count_after(&self, id: &str) -> Option<u64>
        ensures some { IfSome result (λ count. count ≡ next_count (local_of self.now.locals id.now)) }
        ensures none { IfNone result (2 ^ 64 ≤ next_count (local_of self.now.locals id.now)) }
    {
        match self.local_get(id) {
            Some(local) => local.count.checked_add(1),
            None => Some(1),
        }
    }

    /// Stores a local document, as `DbState::local_put` says.
    pub(crate) fn local_put(&mut self, doc: LocalDoc) -> Result<u64, DbFault>
        ensures ok { IfOk result (λ count. (count ≡ (local_after_write self.old.locals doc).count)
            × (self.new ≡ record self.old {
              locals = put_local (local_after_write self.old.locals doc) self.old.locals;
            })) }
        ensures rest { self.new ≡ record self.old { locals = self.new.locals } }
        ensures err { IfErr result (λ e. (self.new ≡ self.old) × ((e ≡ DbFault.NoMemory)
            ⊎ ((e ≡ DbFault.Refused SequenceFull) × (2 ^ 64 ≤ (local_after_write self.old.locals doc).count)))) }
        ensures memory { result ≡ Err DbFault.NoMemory → (local_after_write self.old.locals doc).count < 2 ^ 64 }
    {
        let LocalDoc { id, body } = doc;
        let Some(count) = self.count_after(id.as_str()) else {
            return Err(DbFault::Refused(Fault::SequenceFull));
        };
        put(&mut self.locals, id, Local { count, body })?;
        Ok(count)
    }
}
