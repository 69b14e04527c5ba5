//! Revisions that are asked for.

ghost use Rattle.std.specs.Prelude.{◌≡◌, [], Some, map, option_map, IfOk, OnErr};
ghost use Rattle.hub_model.specs.Leaves.{leaves_of};
ghost use Rattle.hub_revtree.specs.Tree.{IsRevTree};
ghost use Rattle.hub_revtree.specs.Winner.{winner_of};
ghost use Rattle.hub_database.specs.Found.{history_of, shown_if_any, shown_in};
ghost use Rattle.hub_database.specs.Reads.{doc_shown, open_rev_of, open_revs as open_revs_of};

use crate::answers::OpenRev;
use crate::contents::Contents;
use crate::document::Document;
use hub_document::{Doc, OpenRevs, Path, RevId};
use hub_revtree::Winner;
use std::alloc::{AllocError, Global};

impl Document {
    // The history of a revision, where it is asked for.
    fn history(&self, alloc: Global, rev: &RevId, revs: bool) -> Result<Option<Path>, AllocError>
        ensures { IfOk result (λ path. path ≡ history_of revs self.now.tree.edits rev.now) }
    {
        if revs {
            self.tree.path(alloc, rev)
        } else {
            Ok(None)
        }
    }

    /// A revision's document, with its history where `revs` asks for it; None where the revision has no
    /// body. The cost is one find, a copy, and with the history that of `RevTree::path`.
    pub(crate) fn shown(
        &self,
        alloc: Global,
        rev: &RevId,
        revs: bool,
    ) -> Result<Option<Doc>, AllocError>
        ensures { IfOk result (λ doc. doc ≡ option_map (doc_shown revs) (shown_in self.now rev.now)) }
    {
        let Some(edit) = self.tree.headed(rev) else {
            return Ok(None);
        };
        Ok(Some(Doc {
            id: self.id.copy()?,
            rev: Some(edit.rev),
            path: self.history(alloc, rev, revs)?,
            deleted: edit.deleted,
            body: edit.body.copy(alloc)?,
        }))
    }

    /// The document of this winner, with its history where `revs` asks for it. The winner is not looked
    /// for: the cost is a copy, and with the history that of `RevTree::path`.
    pub(crate) fn winner_doc(
        &self,
        alloc: Global,
        winner: &Winner,
        revs: bool,
    ) -> Result<Option<Doc>, AllocError>
        requires tree { IsRevTree self.now.tree.edits }
        requires winner { Some winner.now ≡ winner_of (leaves_of self.now.tree.edits []) }
        ensures { IfOk result (λ doc. doc ≡ option_map (doc_shown revs) (shown_in self.now winner.now.rev)) }
    {
        let Some(body) = self.tree.winner_body() else {
            return Ok(None);
        };
        Ok(Some(Doc {
            id: self.id.copy()?,
            rev: Some(winner.rev),
            path: self.history(alloc, &winner.rev, revs)?,
            deleted: winner.deleted,
            body: body.copy(alloc)?,
        }))
    }

    // The answer for one revision.
    fn open_rev(&self, alloc: Global, rev: &RevId, revs: bool) -> Result<OpenRev, AllocError>
        ensures { IfOk result (λ found. found ≡ open_rev_of revs rev.now (shown_in self.now rev.now)) }
    {
        match self.shown(alloc, rev, revs)? {
            Some(doc) => Ok(OpenRev::Found(doc)),
            None => Ok(OpenRev::Missing(*rev)),
        }
    }
}

// The answer for each of these revisions of a document. Where there is no document each is missing.
fn open_each(
    alloc: Global,
    document: Option<&Document>,
    asked: &[RevId],
    revs: bool,
) -> Result<Vec<OpenRev>, AllocError>
    ensures ok { let shown = shown_if_any (option_map (λ d. d.now) document.entry) in
        IfOk result (λ found. found.items ≡ map (λ r. open_rev_of revs r (shown r)) asked.now) }
    ensures memory { OnErr result (¬ (asked.now ≡ [])) }
{
    let mut found = Vec::new(alloc);
    for rev in asked {
        let shown = match document {
            Some(document) => document.open_rev(alloc, rev, revs)?,
            None => OpenRev::Missing(*rev),
        };
        found.push(shown)?;
    }
    Ok(found)
}

impl Contents {
    /// The revisions of a document that are asked for, each with its history where `revs` asks for it. An
    /// unknown document has no leaf, and each listed revision of it is missing. The cost is a search of the
    /// id, that of `RevTree::leaves` for all leaves, and for each revision that of `Document::shown`.
    pub fn open_revs(
        &self,
        id: &str,
        which: &OpenRevs,
        revs: bool,
    ) -> Result<Vec<OpenRev>, AllocError>
        ensures ok { IfOk result (λ found. found.items
            ≡ open_revs_of self.now.journal id.now which.now revs) }
        ensures memory { OnErr result (¬ (open_revs_of self.now.journal id.now which.now revs ≡ [])) }
    {
        let alloc = self.alloc;
        match (self.document(id), which) {
            (Some(document), OpenRevs::All) => {
                let leaves = document.tree.leaves(alloc)?;
                open_each(alloc, Some(document), leaves.as_slice(), revs)
            }
            (Some(document), OpenRevs::Listed(listed)) => {
                open_each(alloc, Some(document), listed.as_slice(), revs)
            }
            (None, OpenRevs::All) => Ok(Vec::new(alloc)),
            (None, OpenRevs::Listed(listed)) => open_each(alloc, None, listed.as_slice(), revs),
        }
    }
}
