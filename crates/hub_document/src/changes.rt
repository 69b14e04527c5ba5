//! The revisions that rows list.

ghost use Rattle.std.specs.Prelude.{◌≡◌, ◌<◌, ◌∷◌, [], length, slice_get, IfOk, OnErr};
ghost use Rattle.hub_document.specs.Changes.{IsDigestText, lent_in};

use crate::revision::{DigestRev, RevId};
use crate::revisions::Revisions;
use std::alloc::{AllocError, Global};
use std::marker::Model;

// How the revisions of a row are kept.
#[derive(Debug, Drop)]
enum ChangesRepr {
    // One revision whose hash is a digest's text. It takes no memory.
    One(DigestRev),
    // Any revisions, as a list.
    Many(Revisions),
}

/// The revisions that a row lists (CouchDB API reference, `_changes`). Most rows list one revision whose hash
/// is a digest's text, which `of_digest` and `one` keep without memory.
#[derive(Debug)]
pub struct Changes {
    kept: ChangesRepr,
}

impl Drop for Changes {
    fn drop(self) {
        let Self { kept } = self;
    }
}

/// The revisions that a row lists, lent as they are kept.
pub enum LentChanges<'a> {
    /// One revision whose hash is a digest's text.
    One(&'a DigestRev),
    /// Any revisions, as a list.
    Many(&'a [RevId]),
}

impl Model for Changes {
    ghost use Rattle.std.specs.Prelude.{List};
    ghost use Rattle.hub_model.specs.Revision.{Revision};
    ghost use Rattle.hub_document.specs.Changes.{changes_in};

    ghost Value = { List Revision };

    ghost view = { λ a. changes_in a.kept };
}

// A list of one revision.
fn list_of_one(alloc: Global, rev: RevId) -> Result<Revisions, AllocError>
    ensures { IfOk result (λ revs. revs ≡ rev ∷ []) }
{
    Ok(Revisions::new(Vec::from_slice(alloc, &[rev])?))
}

impl Changes {
    /// The list of these revisions. The call takes no memory.
    pub fn new(revs: Revisions) -> Changes
        ensures { result ≡ revs }
    {
        Changes {
            kept: ChangesRepr::Many(revs),
        }
    }

    /// The list of one revision whose hash is a digest's text. The call takes no memory.
    pub fn of_digest(rev: DigestRev) -> Changes
        ensures { result ≡ rev ∷ [] }
    {
        Changes {
            kept: ChangesRepr::One(rev),
        }
    }

    /// The list of one revision. The call takes memory only where the hash is no digest's text.
    pub fn one(alloc: Global, rev: RevId) -> Result<Changes, AllocError>
        ensures ok { IfOk result (λ changes. changes ≡ rev ∷ []) }
        ensures memory { OnErr result (¬ IsDigestText rev.hash) }
    {
        match rev.digest() {
            Some(digest) => Ok(Changes::of_digest(DigestRev::new(rev.generation(), digest))),
            None => Ok(Changes::new(list_of_one(alloc, rev)?)),
        }
    }

    /// The revisions, lent as they are kept. Constant time.
    pub fn lent(&self) -> LentChanges<'_>
        ensures { lent_in result ≡ self.now }
    {
        match &self.kept {
            ChangesRepr::One(rev) => LentChanges::One(rev),
            ChangesRepr::Many(revs) => LentChanges::Many(revs.as_slice()),
        }
    }

    /// How many revisions there are. Constant time.
    pub fn len(&self) -> usize
        ensures { result ≡ length self.now }
    {
        match &self.kept {
            ChangesRepr::One(_) => 1,
            ChangesRepr::Many(revs) => revs.as_slice().len(),
        }
    }

    /// The revision at this place, from 0 on. Constant time.
    pub fn get(&self, at: usize) -> Option<RevId>
        ensures { result ≡ slice_get self.now at }
    {
        match &self.kept {
            ChangesRepr::One(rev) => (at == 0).then_some(rev.rev()),
            ChangesRepr::Many(revs) => revs.as_slice().get(at).copied(),
        }
    }

    /// A copy. A list that takes no memory is copied without memory.
    pub fn copy(&self, alloc: Global) -> Result<Changes, AllocError>
        ensures ok { IfOk result (λ changes. changes ≡ self.now) }
        ensures memory { OnErr result (0 < length self.now) }
    {
        match &self.kept {
            ChangesRepr::One(rev) => Ok(Changes::of_digest(rev.copy())),
            ChangesRepr::Many(revs) => Ok(Changes::new(revs.copy(alloc)?)),
        }
    }

    /// The revisions as a list of their own. The call takes memory only where one revision was kept without.
    pub fn into_revisions(self, alloc: Global) -> Result<Revisions, AllocError>
        ensures ok { IfOk result (λ revs. revs ≡ self) }
        ensures memory { OnErr result (length self ≡ 1) }
    {
        let Self { kept } = self;
        match kept {
            ChangesRepr::One(rev) => list_of_one(alloc, rev.rev()),
            ChangesRepr::Many(revs) => Ok(revs),
        }
    }
}
