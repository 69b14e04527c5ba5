//! Questions to the contents of a database, and their answers.

ghost use Rattle.std.specs.Prelude.{◌≡◌, [], None, IfOk, IfSome, IfNone, OnErr};
ghost use Rattle.hub_model.specs.Journal.{IsLegal, edits_of};
ghost use Rattle.hub_model.specs.Leaves.{leaves_of};
ghost use Rattle.hub_model.specs.Missing.{diffs};
ghost use Rattle.hub_revtree.specs.Winner.{winner_of};
ghost use Rattle.hub_database.specs.Found.{IsFound, wanted_diff};
ghost use Rattle.hub_database.specs.Reads.{HasDocument, lookup};

use crate::answers::{Diff, Lookup};
use crate::contents::Contents;
use crate::database::DbState;
use crate::document::Document;
use crate::ids::Ids;
use hub_document::{Asked, Revisions};
use hub_revtree::Winner;
use std::alloc::AllocError;

impl Contents {
    /// The document with this id. The cost is a search of the id, by `Ids::number_of`.
    pub(crate) fn document(&self, id: &str) -> Option<&Document>
        ensures found { IfSome result (λ d. IsFound self.now.journal id.now d.now) }
        ensures none { IfNone result (edits_of self.now.journal id.now ≡ []) }
        ensures legal { IsLegal self.now.journal }
    {
        let ids = Ids {
            documents: self.documents.as_slice(),
        };
        let number = ids.number_of(&self.numbers, &self.hints, id)?;
        let document = &self.documents[number as usize];
        Some(document)
    }

    /// A document: its winner, with its history where `revs` asks for it. The cost is a search of the id,
    /// that of `RevTree::best`, and a copy of the document.
    pub fn get(&self, id: &str, revs: bool) -> Result<Lookup, AllocError>
        ensures found { IfOk result (λ found. found ≡ lookup self.now.journal id.now revs) }
        ensures memory { OnErr result (HasDocument self.now.journal id.now revs) }
    {
        let Some(document) = self.document(id) else {
            return Ok(Lookup::Unknown);
        };
        let Some(winner) = document.tree.best() else {
            return Ok(Lookup::Unknown);
        };
        if winner.deleted {
            return Ok(Lookup::Deleted);
        }
        match document.winner_doc(self.alloc, &winner, revs)? {
            Some(doc) => Ok(Lookup::Found(doc)),
            None => Ok(Lookup::Unknown),
        }
    }

    // The missing revisions of a document, among those asked for; None where it misses none.
    fn diff(&self, asked: Asked) -> Result<Option<Diff>, AllocError>
        ensures ok { IfOk result (λ diff. diff ≡ wanted_diff self.now.journal asked) }
        ensures memory { OnErr result (¬ (wanted_diff self.now.journal asked ≡ None)) }
    {
        let alloc = self.alloc;
        let Asked { id, revs } = asked;
        let Some(document) = self.document(id.as_str()) else {
            if revs.as_slice().is_empty() {
                return Ok(None);
            }
            return Ok(Some(Diff {
                id,
                missing: revs,
                possible_ancestors: Revisions::new(Vec::new(alloc)),
            }));
        };
        let missing = document.tree.missing(alloc, revs.as_slice())?;
        if missing.as_slice().is_empty() {
            return Ok(None);
        }
        let possible_ancestors = document.tree.possible_ancestors(alloc, revs.as_slice())?;
        Ok(Some(Diff {
            id,
            missing,
            possible_ancestors,
        }))
    }

    /// The missing revisions among those asked for, in the order asked. A document that misses none is left
    /// out. The cost is a search of the id for each document, and that of `RevTree::missing` and
    /// `RevTree::possible_ancestors`.
    pub fn revs_diff(&self, asked: Vec<Asked>) -> Result<Vec<Diff>, AllocError>
        ensures ok { IfOk result (λ found. found.items ≡ diffs self.now.journal asked.items) }
        ensures memory { OnErr result (¬ (diffs self.now.journal asked.items ≡ [])) }
    {
        let mut found = Vec::new(self.alloc);
        for asked in asked {
            if let Some(diff) = self.diff(asked)? {
                found.push(diff)?;
            }
        }
        Ok(found)
    }
}

impl DbState {
    /// The winner of a document, with its mark; None where there is no such document. A deleted database
    /// answers too. The cost is a search of the id, and that of `RevTree::best`.
    pub fn winner(&self, id: &str) -> Option<Winner>
        ensures { result ≡ winner_of (leaves_of self.now.journal id.now) }
    {
        let document = self.contents.document(id)?;
        document.tree.best()
    }
}
