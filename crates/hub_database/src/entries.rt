//! The edits of a database by their sequences.

ghost use Rattle.std.specs.Prelude.{◌≡◌, ◌≤◌, false, Some, IfOk, IfSome, IsSome, OnErr, option_map, take};
ghost use Rattle.hub_revtree.specs.Extend.{path_to};
ghost use Rattle.hub_database.specs.Reads.{bare_doc, doc_shown, entry_at, entry_of, entry_doc_of};

use crate::contents::Contents;
use crate::database::DbState;
use crate::document::Document;
use hub_document::{Doc, Path, RevId};
use hub_revtree::StoredEdit;
use std::alloc::AllocError;

// The first `count` revisions of a path.
fn front_of(path: Option<Path>, count: u16) -> Option<Path>
    requires { 1 ≤ count }
    ensures { result ≡ option_map (take count) path }
{
    match path {
        Some(path) => Some(path.front(count)),
        None => None,
    }
}

impl Contents {
    // The edit of this sequence, with its document. Constant time.
    fn edit(&self, seq: u64) -> Option<(&Document, StoredEdit<'_>)>
        ensures edit { option_map (λ p. bare_doc p.0.now.id p.1.rev p.1.deleted p.1.body.now) result
            ≡ option_map (doc_shown false) (entry_at self.now.journal seq) }
        ensures path { option_map (λ p. option_map (take p.1.count) (path_to p.0.now.tree.edits p.1.rev))
            result
            ≡ option_map (λ e. Some e.path) (entry_at self.now.journal seq) }
        ensures some { IfSome result (λ p. 1 ≤ p.1.count) }
    {
        let at = seq.checked_sub(1)?;
        let entry = self.journal.get(at as usize)?;
        let document = &self.documents[entry.document as usize];
        let Some(edit) = document.tree.edit(entry.revision as usize) else {
            return None;
        };
        Some((document, edit))
    }
}

impl DbState {
    /// The id and the revision of the edit of this sequence; None for a sequence that no edit has.
    /// Constant time.
    pub fn entry(&self, seq: u64) -> Option<(&str, RevId)>
        ensures { option_map (λ p. (p.0.now, p.1)) result ≡ entry_of self.now.journal seq }
    {
        let Some((document, edit)) = self.contents.edit(seq) else {
            return None;
        };
        Some((document.id.as_str(), edit.rev))
    }

    /// The edit of this sequence, with the history of its arrival; None for a sequence that no edit has. The
    /// cost is that of `RevTree::path`, of all that is behind its revision by now, and a copy of the members.
    pub fn entry_doc(&self, seq: u64) -> Result<Option<Doc>, AllocError>
        ensures doc { IfOk result (λ doc. doc ≡ entry_doc_of self.now.journal seq) }
        ensures memory { OnErr result (IsSome (entry_at self.now.journal seq)) }
    {
        let alloc = self.contents.alloc;
        let Some((document, edit)) = self.contents.edit(seq) else {
            return Ok(None);
        };
        let path = document.tree.path(alloc, &edit.rev)?;
        Ok(Some(Doc {
            id: document.id.copy()?,
            rev: Some(edit.rev),
            path: front_of(path, edit.count),
            deleted: edit.deleted,
            body: edit.body.copy(alloc)?,
        }))
    }
}
