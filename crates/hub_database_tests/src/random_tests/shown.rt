//! Whether a database and a tree show the same as the plain program.

use super::model::{Edit, Model, place};
use super::texts::put_doc;
use hub_database::{DbState, OpenRev};
use hub_document::{Asked, Doc, OpenRevs, RevId, Revisions};
use hub_revtree::RevTree;
use std::alloc::{AllocError, Global};
use std::str;
use std::test::Fail;

// Whether `found` are the revisions of `revs` below a generation, in order.
fn are_below(found: &[RevId], revs: &[RevId], generation: u16) -> bool {
    let mut at = 0usize;
    for rev in revs {
        if rev.generation() < generation {
            if found.get(at) != Some(rev) {
                return false;
            }
            at = at.saturating_add(1);
        }
    }
    at == found.len()
}

// Whether a document shows this edit, with this history.
fn is_edit(
    alloc: Global,
    id: &str,
    edit: &Edit,
    line: &[RevId],
    doc: &Doc,
) -> Result<bool, AllocError> {
    let mut shown = Vec::new(alloc);
    let mut wanted = String::new(alloc);
    let body = str::from_utf8(edit.body.as_slice()).unwrap_or("no text");
    doc.write(&mut shown)?;
    put_doc(
        &mut wanted,
        id,
        line,
        edit.deleted,
        body.trim_start_matches('{'),
    )?;
    Ok(shown.as_slice() == wanted.as_bytes())
}

impl Model {
    // Whether `open` is right for a revision: its edit with all its ancestors, or `Missing` without an edit.
    fn is_open(&self, alloc: Global, rev: &RevId, open: &OpenRev) -> Result<bool, AllocError> {
        let Some(edit) = self.edits.get(self.node(rev).edit) else {
            return Ok(matches!(open, OpenRev::Missing(missing) if missing.is_same(rev)));
        };
        let OpenRev::Found(doc) = open else {
            return Ok(false);
        };
        let line = self.line(alloc, rev)?;
        is_edit(alloc, self.id.as_str(), edit, line.as_slice(), doc)
    }

    // Whether `open` is right for each of these revisions.
    fn are_open(
        &self,
        alloc: Global,
        revs: &[RevId],
        open: &[OpenRev],
    ) -> Result<bool, AllocError> {
        if revs.len() != open.len() {
            return Ok(false);
        }
        for at in 0..revs.len() {
            if !self.is_open(alloc, &revs[at], &open[at])? {
                return Ok(false);
            }
        }
        Ok(true)
    }

    // Whether a database has an edit at its sequence, as it came.
    fn is_entry(&self, alloc: Global, state: &DbState, edit: &Edit) -> Result<bool, AllocError> {
        let Some((id, rev)) = state.entry(edit.seq) else {
            return Ok(false);
        };
        let Some(doc) = state.entry_doc(edit.seq)? else {
            return Ok(false);
        };
        Ok(
            id == self.id.as_str()
                && rev.is_same(&edit.rev)
                && is_edit(alloc, id, edit, edit.line.as_slice(), &doc)?,
        )
    }

    // Whether a database has each edit.
    fn are_entries(&self, alloc: Global, state: &DbState) -> Result<bool, AllocError> {
        for edit in &self.edits {
            if !self.is_entry(alloc, state, edit)? {
                return Ok(false);
            }
        }
        Ok(true)
    }

    // Whether a diff of revisions is right: the revisions that no edit tells, and the leaves below the
    // highest generation of them.
    fn is_diff(
        &self,
        asked: &[RevId],
        leaves: &[RevId],
        missing: &[RevId],
        ancestors: &[RevId],
    ) -> bool {
        let mut at = 0usize;
        let mut highest = 0;
        for rev in asked {
            if !self.node(rev).is_known {
                if missing.get(at) != Some(rev) {
                    return false;
                }
                at = at.saturating_add(1);
                highest = rev.generation().max(highest);
            }
        }
        at == missing.len() && are_below(ancestors, leaves, highest)
    }

    // Whether a tree has the same line of a revision, or does not know a revision that no edit tells.
    fn is_path(&self, alloc: Global, tree: &RevTree, rev: &RevId) -> Result<bool, AllocError> {
        let path = tree.path(alloc, rev)?;
        let Some(path) = &path else {
            return Ok(!self.node(rev).is_known);
        };
        let line = self.line(alloc, rev)?;
        Ok(self.node(rev).is_known && path.revisions() == line.as_slice())
    }

    // Whether a tree has the same line of each of these revisions, as many edits, and knows as many of these
    // revisions.
    fn are_paths(
        &self,
        alloc: Global,
        tree: &RevTree,
        asked: &[RevId],
    ) -> Result<bool, AllocError> {
        let mut nodes = 0usize;
        for rev in asked {
            if !self.is_path(alloc, tree, rev)? {
                return Ok(false);
            }
            if self.node(rev).is_known {
                nodes = nodes.saturating_add(1);
            }
        }
        Ok(tree.len() == self.edits.len() && tree.nodes() == nodes)
    }

    // Whether a database has the same winner.
    fn is_winner(&self, state: &DbState) -> bool {
        match (state.winner(self.id.as_str()), self.best(None)) {
            (Some(winner), Some(best)) => {
                winner.rev.is_same(&best.rev) && winner.deleted == best.deleted
            }
            (None, None) => true,
            _ => false,
        }
    }

    // Whether a database shows the winner, the leaves and each edit.
    fn is_shown(&self, alloc: Global, state: &DbState, leaves: &[RevId]) -> Result<bool, Fail> {
        let open = state.open_revs(self.id.as_str(), &OpenRevs::All, true)?;
        Ok(
            self.is_winner(state)
                && self.are_open(alloc, leaves, open.as_slice())?
                && self.are_entries(alloc, state)?,
        )
    }

    // Whether a database answers rightly for these revisions, of which some are missing.
    fn is_answered(
        &self,
        alloc: Global,
        state: &DbState,
        leaves: &[RevId],
        asked: &[RevId],
    ) -> Result<bool, Fail> {
        let id = String::from_str(alloc, self.id.as_str())?;
        let revs = Revisions::new(Vec::from_slice(alloc, asked)?);
        let list = OpenRevs::Listed(revs.copy(alloc)?);
        let mut questions = Vec::new(alloc);
        questions.push(Asked { id, revs })?;
        let open = state.open_revs(self.id.as_str(), &list, true)?;
        let diffs = state.revs_diff(questions)?;
        let Some(diff) = diffs.first() else {
            return Ok(false);
        };
        let (missing, ancestors) = (diff.missing.as_slice(), diff.possible_ancestors.as_slice());
        Ok(
            diff.id.as_str() == self.id.as_str()
                && self.is_diff(asked, leaves, missing, ancestors)
                && self.are_open(alloc, asked, open.as_slice())?,
        )
    }

    // These revisions, and then the other revisions that edits made.
    fn asked(&self, alloc: Global, tree: &[RevId]) -> Result<Vec<RevId>, AllocError> {
        let mut asked = Vec::from_slice(alloc, tree)?;
        for edit in &self.edits {
            if place(asked.as_slice(), &edit.rev).is_none() {
                asked.push(edit.rev)?;
            }
        }
        Ok(asked)
    }

    /// Names the first answer of the database or the tree that differs, for these revisions and those of all
    /// edits; an empty text where none differs.
    pub(super) fn other(
        &self,
        alloc: Global,
        state: &DbState,
        tree: &RevTree,
        revs: &[RevId],
    ) -> Result<&'static str, Fail> {
        let leaves = self.leaves(alloc)?;
        let asked = self.asked(alloc, revs)?;
        if !self.is_shown(alloc, state, leaves.as_slice())? {
            return Ok("the winner, the leaves or an edit");
        }
        if !self.is_answered(alloc, state, leaves.as_slice(), asked.as_slice())? {
            return Ok("the revisions that are asked for");
        }
        if !self.are_paths(alloc, tree, asked.as_slice())? {
            return Ok("the tree");
        }
        Ok("")
    }

    /// How many edits have revisions with more ancestors by now than their writers told.
    pub(super) fn grown(&self, alloc: Global) -> Result<u64, AllocError> {
        let mut count = 0u64;
        for edit in &self.edits {
            if self.line(alloc, &edit.rev)?.len() > edit.line.len() {
                count = count.saturating_add(1);
            }
        }
        Ok(count)
    }
}
