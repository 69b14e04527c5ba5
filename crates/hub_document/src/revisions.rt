//! Lists of revisions.

ghost use Rattle.std.specs.Prelude.{◌≡◌, ◌<◌, length, IfOk, IfErr};

use crate::revision::RevId;
use std::alloc::{AllocError, Global};
use std::marker::Model;

/// A list of revisions, as a row of changes shows them.
#[derive(Debug, Drop)]
pub struct Revisions {
    list: Vec<RevId>,
}

impl Model for Revisions {
    ghost use Rattle.std.specs.Prelude.{List};
    ghost use Rattle.hub_model.specs.Revision.{Revision};

    ghost Value = { List Revision };

    ghost view = { λ a. a.list.items };
}

impl Revisions {
    /// The list of the vector's revisions.
    pub fn new(list: Vec<RevId>) -> Revisions
        ensures { result ≡ list.items }
    {
        Revisions { list }
    }

    /// The revisions in order.
    pub fn as_slice(&self) -> &[RevId]
        ensures { result.now ≡ self.now }
    {
        &self.list
    }

    /// A copy. The cost is the list's length, and an empty list takes no memory.
    pub fn copy(&self, alloc: Global) -> Result<Revisions, AllocError>
        ensures value { IfOk result (λ list. list ≡ self.now) }
        ensures memory { IfErr result (λ _. 0 < length self.now) }
    {
        if self.list.is_empty() {
            return Ok(Revisions::new(Vec::new(alloc)));
        }
        let list = Vec::from_slice(alloc, self.list.as_slice())?;
        Ok(Revisions { list })
    }
}
