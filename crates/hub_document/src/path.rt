//! Paths of revisions.

ghost use Rattle.std.specs.Prelude.{◌≡◌, ◌≤◌, Some, slice_get, take, IfOk};

use crate::revision::RevId;
use std::alloc::{AllocError, Global};
use std::marker::Model;

/// A revision of a document and its ancestors, newest first: a history, whose generations fall by one. A path
/// may end above the first generation, as where a database gave up its oldest revisions. CouchDB writes a
/// path as `_revisions`.
#[derive(Debug, Drop)]
pub struct Path {
    revisions: Vec<RevId>,
}

impl Model for Path {
    ghost use Rattle.std.specs.Prelude.{List};
    ghost use Rattle.hub_model.specs.Revision.{Revision};
    ghost use Rattle.hub_model.specs.Path.{IsHistory};

    ghost Value = { List Revision };

    ghost view = { λ a. a.revisions.items };

    ghost invariant = { λ a. IsHistory a.revisions.items };
}

impl Path {
    ghost use Rattle.hub_model.specs.Path.{IsHistory};

    /// The path of the vector's revisions. The call takes no memory.
    pub fn new(revisions: Vec<RevId>) -> Path
        requires { IsHistory revisions.items }
        ensures { result ≡ revisions.items }
    {
        Path { revisions }
    }

    /// The path's newest revision.
    pub fn head(&self) -> RevId
        ensures value { slice_get self.now 0 ≡ Some result }
        ensures good { IsHistory self.now }
    {
        self.revisions[0]
    }

    /// The revisions, newest first.
    pub fn revisions(&self) -> &[RevId]
        ensures { result.now ≡ self.now }
    {
        self.revisions.as_slice()
    }

    /// The vector that holds the revisions, newest first. Constant time.
    pub fn into_revisions(self) -> Vec<RevId>
        ensures { result.items ≡ self }
    {
        self.revisions
    }

    /// The path of the first `count` revisions, in the memory of this path. A shorter path stays as it is.
    #[tactic(auto, using(crate::proofs::PathLemmas::front_history))]
    pub fn front(self, count: u16) -> Path
        requires { 1 ≤ count }
        ensures { result ≡ take count self }
    {
        let mut revisions = self.revisions;
        revisions.truncate(usize::from(count));
        Path { revisions }
    }

    /// A copy. The cost is the path's length.
    pub fn copy(&self, alloc: Global) -> Result<Path, AllocError>
        ensures { IfOk result (λ p. p ≡ self.now) }
    {
        let revisions = Vec::from_slice(alloc, self.revisions.as_slice())?;
        Ok(Path { revisions })
    }
}
