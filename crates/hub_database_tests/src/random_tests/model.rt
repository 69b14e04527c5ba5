//! A plain program that keeps the edits of one document, and goes through all of them for each answer.

use hub_document::{Doc, RevId, rev_of_edit};
use hub_model::{Fault, Outcome};
use std::alloc::{AllocError, Global};

/// An edit that was stored.
#[derive(Drop)]
pub(super) struct Edit {
    /// Its revision.
    pub(super) rev: RevId,
    /// The revision and the ancestors that its writer told, newest first.
    pub(super) line: Vec<RevId>,
    /// Whether it deletes the document.
    pub(super) deleted: bool,
    /// Its members, in braces.
    pub(super) body: Vec<u8>,
    /// Its sequence.
    pub(super) seq: u64,
}

/// The place of a revision in a history.
pub(super) fn place(line: &[RevId], rev: &RevId) -> Option<usize> {
    for at in 0..line.len() {
        if line[at].is_same(rev) {
            return Some(at);
        }
    }
    None
}

impl Edit {
    // Whether this edit is the better leaf: one that is not deleted comes before a deleted one. Then the
    // greater generation decides, and then the greater hash.
    fn is_better(&self, other: &Edit) -> bool {
        if self.deleted != other.deleted {
            return other.deleted;
        }
        if self.rev.generation() != other.rev.generation() {
            return self.rev.generation() > other.rev.generation();
        }
        self.rev.hash() > other.rev.hash()
    }
}

/// The facts that edits tell of a revision.
#[derive(Clone, Copy)]
pub(super) struct Node {
    pub(super) is_known: bool,
    /// Whether no edit tells it as a parent.
    pub(super) is_leaf: bool,
    pub(super) parent: Option<RevId>,
    /// The place of its edit, or `usize::MAX` where it has none.
    pub(super) edit: usize,
}

/// The edits of one document, oldest first.
#[derive(Drop)]
pub(super) struct Model {
    /// The document's id.
    pub(super) id: String,
    /// The seed of the tree. Histories are parts of the tree.
    pub(super) salt: u64,
    pub(super) edits: Vec<Edit>,
}

impl Model {
    /// The facts that the edits tell of a revision.
    pub(super) fn node(&self, rev: &RevId) -> Node {
        let mut node = Node {
            is_known: false,
            is_leaf: true,
            parent: None,
            edit: usize::MAX,
        };
        for at in 0..self.edits.len() {
            let edit = &self.edits[at];
            let Some(place) = place(edit.line.as_slice(), rev) else {
                continue;
            };
            node.is_known = true;
            if place == 0 {
                node.edit = at;
            } else {
                node.is_leaf = false;
            }
            if let Some(parent) = edit.line.get(place.saturating_add(1)) {
                node.parent = Some(*parent);
            }
        }
        node
    }

    // A line of revisions: `rev`, `next`, the parent of `next`, and so on, 101 at most.
    fn line_on(
        &self,
        alloc: Global,
        rev: RevId,
        mut next: Option<RevId>,
    ) -> Result<Vec<RevId>, AllocError> {
        let mut line = Vec::new(alloc);
        line.push(rev)?;
        for _ in 0..100 {
            let Some(rev) = next else {
                break;
            };
            line.push(rev)?;
            next = self.node(&rev).parent;
        }
        Ok(line)
    }

    /// The revision, its parent, and so on.
    pub(super) fn line(&self, alloc: Global, rev: &RevId) -> Result<Vec<RevId>, AllocError> {
        self.line_on(alloc, *rev, self.node(rev).parent)
    }

    /// The best leaf. Where `above` is given, the best of the leaves that are worse than `above`.
    pub(super) fn best(&self, above: Option<&Edit>) -> Option<&Edit> {
        let mut best: Option<&Edit> = None;
        for edit in &self.edits {
            if let Some(above) = above
                && !above.is_better(edit)
            {
                continue;
            }
            if let Some(found) = best
                && !edit.is_better(found)
            {
                continue;
            }
            if self.node(&edit.rev).is_leaf {
                best = Some(edit);
            }
        }
        best
    }

    /// The leaves' revisions, best first.
    pub(super) fn leaves(&self, alloc: Global) -> Result<Vec<RevId>, AllocError> {
        let mut leaves = Vec::new(alloc);
        let mut last = None;
        for _ in &self.edits {
            let Some(leaf) = self.best(last) else {
                break;
            };
            leaves.push(leaf.rev)?;
            last = Some(leaf);
        }
        Ok(leaves)
    }

    // Whether a history gives a revision another parent than the edits tell.
    fn contradicts(&self, line: &[RevId]) -> bool {
        for at in 0..line.len() {
            if let Some(told) = line.get(at.saturating_add(1))
                && let Some(parent) = self.node(&line[at]).parent
                && !told.is_same(&parent)
            {
                return true;
            }
        }
        false
    }

    // The parent of an edit that is made here on the named revision, or on none: a leaf, or no revision for
    // the first edit. None is a conflict.
    fn chosen(&self, named: &Option<RevId>) -> Option<Option<RevId>> {
        if let Some(rev) = named {
            let node = self.node(rev);
            return if node.is_known && node.is_leaf {
                Some(Some(*rev))
            } else {
                None
            };
        }
        match self.best(None) {
            None => Some(None),
            Some(winner) if winner.deleted => Some(Some(winner.rev)),
            Some(_) => None,
        }
    }

    /// The revision that a draft makes; None for a conflict, a known revision or a generation above 65535.
    pub(super) fn made(&self, alloc: Global, doc: &Doc) -> Result<Option<RevId>, AllocError> {
        let Some(parent) = self.chosen(&doc.rev) else {
            return Ok(None);
        };
        if let Some(rev) = &parent
            && rev.generation() == 65535
        {
            return Ok(None);
        }
        let made = rev_of_edit(alloc, doc.deleted, parent, &doc.id, &doc.body)?.rev();
        Ok(if self.node(&made).is_known {
            None
        } else {
            Some(made)
        })
    }

    // The outcome of a document.
    fn outcome(&self, alloc: Global, doc: &Doc) -> Result<Outcome<RevId>, AllocError> {
        let Some(path) = &doc.path else {
            return Ok(match self.made(alloc, doc)? {
                Some(rev) => Outcome::Stored(rev),
                None => Outcome::Refused(Fault::Conflict),
            });
        };
        let rev = path.head();
        if self.node(&rev).is_known {
            return Ok(Outcome::Known);
        }
        if self.contradicts(path.revisions()) {
            return Ok(Outcome::Refused(Fault::Contradicts));
        }
        Ok(Outcome::Stored(rev))
    }

    // The history of the edit that a document makes.
    fn history(&self, alloc: Global, doc: &Doc, rev: RevId) -> Result<Vec<RevId>, AllocError> {
        match &doc.path {
            Some(path) => Vec::from_slice(alloc, path.revisions()),
            None => self.line_on(alloc, rev, self.chosen(&doc.rev).unwrap_or(None)),
        }
    }

    /// Takes a document, and answers its outcome. A document that is stored gets this sequence.
    pub(super) fn take(
        &mut self,
        alloc: Global,
        doc: &Doc,
        seq: u64,
    ) -> Result<Outcome<RevId>, AllocError> {
        let outcome = self.outcome(alloc, doc)?;
        let Outcome::Stored(rev) = outcome else {
            return Ok(outcome);
        };
        let line = self.history(alloc, doc, rev)?;
        let body = Vec::from_slice(alloc, doc.body.as_bytes())?;
        self.edits.push(Edit {
            rev,
            line,
            deleted: doc.deleted,
            body,
            seq,
        })?;
        Ok(outcome)
    }
}
