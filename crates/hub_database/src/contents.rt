//! The contents of a database: its documents with their journal, and its local documents.

ghost use Rattle.std.specs.Prelude.{[], ◌∷◌, ◌++◌, false, ◌≡◌, ◌+◌, ◌<◌, ◌≤◌, ◌^◌};
ghost use Rattle.std.specs.Prelude.{length, vec_len, vec_capacity, None, IfOk, OnOk, OnErr};
ghost use Rattle.hub_index.specs.Order.{IsOrder, number_in, with_number};
ghost use Rattle.hub_index.specs.Rows.{rows_after_move};
ghost use Rattle.hub_model.specs.Journal.{edits_of};
ghost use Rattle.hub_database.specs.Documents.{files, one_if};
ghost use Rattle.hub_database.specs.Edits.{IsBatch, IsStore, NeedsRoom, stores_doc};
ghost use Rattle.hub_database.specs.Filed.{ids_of};
ghost use Rattle.hub_database.specs.Indexed.{IsMovable};
ghost use Rattle.hub_database.specs.Looked.{NeedsRoomFor, stores_edit};
ghost use Rattle.hub_database.specs.Reads.{info_of};

use crate::answers::Info;
use crate::batch::{Batch, Replies};
use crate::document::{Document, Incoming, Looked, Origin, look};
use crate::entry::Entry;
use crate::ids::Ids;
use crate::local::Local;
use crate::room::reserve_one;
use hub_document::{Doc, DocId, Limits, RevId};
use hub_feed::Source;
use hub_index::{IdHints, IdOrder, PageIndex, SeqIndex};
use hub_model::{Fault, Outcome};
use std::alloc::{AllocError, Global};
use std::collections::BTreeMap;
use std::marker::Model;

/// The contents of a database: the journal of its accepted edits, the tree of each document, its local
/// documents and the limits. `DbState::standing` lends them while the database stands, so that several
/// calls ask once whether it was deleted. The calls of `Contents` don't ask.
#[derive(Debug, Drop)]
pub struct Contents {
    /// The documents by number.
    pub(crate) documents: Vec<Document>,
    /// The numbers in the order of the ids.
    pub(crate) numbers: IdOrder,
    /// Guesses of the numbers of ids.
    pub(crate) hints: IdHints,
    pub(crate) journal: Vec<Entry>,
    /// The documents' numbers by the sequences of their latest edits.
    pub(crate) index: PageIndex,
    /// The number of documents with a deleted winner.
    deleted: u64,
    pub(crate) limits: Limits,
    pub(crate) alloc: Global,
    /// The local documents by their ids.
    pub(crate) locals: BTreeMap<String, Local>,
    /// The number of the database's life.
    pub(crate) life: u64,
}

impl Model for Contents {
    ghost use Rattle.hub_database.specs.Database.{Contents as Kept};

    ghost Value = { Kept };

    ghost use Rattle.hub_database.specs.Kept.{locals_of};
    ghost use Rattle.hub_database.specs.Inside.{IsWhole, edits_inside};

    ghost view = { λ a. record {
      journal = edits_inside a;
      locals = locals_of a.locals;
      limits = a.limits;
      life = a.life;
    } };

    ghost invariant = { IsWhole };
}

// The count of documents with a deleted winner, after a write of one document. `was` and `is` say whether
// its winner was deleted before the write, and is deleted now.
fn recounted(count: u64, was: bool, is: bool) -> u64
    requires some { one_if was ≤ count }
    requires fits { count < 2 ^ 63 }
    ensures { result + one_if was ≡ count + one_if is }
{
    if was == is {
        return count;
    }
    if is {
        return count + 1;
    }
    count - 1
}

// Takes in the next document: makes room for it and for its edit, and puts its row into the index and its
// number into the order of ids. An error leaves all as they were.
fn enter(
    documents: &mut Vec<Document>,
    journal: &mut Vec<Entry>,
    numbers: &mut IdOrder,
    index: &mut PageIndex,
    id: &DocId,
) -> Result<u32, AllocError>
    requires order { IsOrder (ids_of (files documents.old.items)) numbers.old }
    requires new { number_in (ids_of (files documents.old.items)) numbers.old id.now ≡ None }
    requires row { IsMovable (length documents.old.items) None (length journal.old.items + 1) index.old }
    requires few { length documents.old.items < 2 ^ 32 }
    ensures documents { documents.new.items ≡ documents.old.items }
    ensures journal { journal.new.items ≡ journal.old.items }
    ensures next { IfOk result (λ number. number ≡ length documents.old.items) }
    ensures room { OnOk result (vec_len documents.new + 1 ≤ vec_capacity documents.new) }
    ensures entry { OnOk result (vec_len journal.new + 1 ≤ vec_capacity journal.new) }
    ensures numbers { OnOk result (numbers.new ≡ with_number (ids_of (files documents.old.items))
        numbers.old id.now (length documents.old.items)) }
    ensures order { OnOk result
        (IsOrder (ids_of (files documents.old.items) ++ id.now ∷ []) numbers.new) }
    ensures index { OnOk result (index.new
        ≡ rows_after_move index.old (length documents.old.items) (length journal.old.items + 1)) }
    ensures err { OnErr result ((numbers.new ≡ numbers.old) × (index.new ≡ index.old)) }
{
    reserve_one(documents)?;
    reserve_one(journal)?;
    let number = documents.len() as u32;
    let seq = journal.len() as u64 + 1;
    index.move_to(number, None, seq)?;
    let ids = Ids {
        documents: documents.as_slice(),
    };
    if let Err(AllocError) = numbers.insert(&ids, number, id.as_str()) {
        index.remove(seq);
        return Err(AllocError);
    }
    Ok(number)
}

impl Contents {
    /// The contents of a database without documents.
    pub(crate) fn new(alloc: Global, limits: Limits, life: u64) -> Contents
        ensures { result ≡ record { journal = []; locals = []; limits = limits; life = life } }
    {
        Contents {
            documents: Vec::new(alloc),
            numbers: IdOrder::new(alloc),
            hints: IdHints::new(alloc),
            journal: Vec::new(alloc),
            index: PageIndex::new(alloc),
            deleted: 0,
            limits,
            alloc,
            locals: BTreeMap::new(alloc),
            life,
        }
    }

    /// The allocator of the contents.
    pub(crate) fn alloc(&self) -> Global {
        self.alloc
    }

    /// The numbers of documents and of edits. Constant time: the counts are kept.
    pub fn info(&self) -> Info
        ensures { result ≡ info_of self.now.journal self.now.life }
    {
        let doc_count = self.documents.len() as u64;
        let doc_del_count = self.deleted;
        Info {
            doc_count: doc_count - doc_del_count,
            doc_del_count,
            update_seq: self.length(),
            life: self.life,
        }
    }

    // Stores the first edit of a document. `enter` is the last step that fails without memory: the tree and
    // the hints go on without any.
    fn insert(&mut self, id: DocId, edit: Incoming) -> Result<Outcome<RevId>, AllocError>
        requires new { edits_of self.old.journal id ≡ [] }
        ensures { IsStore (stores_edit self.old.limits.journal self.old.journal id edit)
            (NeedsRoomFor self.old.journal id edit) self.old self.new result }
    {
        let full = self.journal.len() as u64 >= self.limits.journal;
        let mut document = Document::new(self.alloc, id);
        match look(&mut document.tree, &document.id, full, edit)? {
            Looked::Known => Ok(Outcome::Known),
            Looked::Refused(fault) => Ok(Outcome::Refused(fault)),
            Looked::Ready(ready) => {
                let number = enter(
                    &mut self.documents,
                    &mut self.journal,
                    &mut self.numbers,
                    &mut self.index,
                    &document.id,
                )?;
                let rev = document.take(&mut self.journal, number, ready);
                self.deleted = recounted(self.deleted, false, document.tree.is_deleted());
                self.hints.remember(document.id.as_str(), number);
                self.documents.push_reserved(document);
                Ok(Outcome::Stored(rev))
            }
        }
    }

    /// Stores an edit of the document with this id. The cost is a search of the id, and that of
    /// `RevTree::look_extend` or `RevTree::look_merge`, of `SeqIndex::move_to` and of `RevTree::adopt`.
    pub(crate) fn store(&mut self, id: DocId, edit: Incoming) -> Result<Outcome<RevId>, AllocError>
        ensures { IsStore (stores_edit self.old.limits.journal self.old.journal id edit)
            (NeedsRoomFor self.old.journal id edit) self.old self.new result }
    {
        let ids = Ids {
            documents: self.documents.as_slice(),
        };
        match ids.number_of(&self.numbers, &self.hints, id.as_str()) {
            Some(number) => {
                let document = &mut self.documents[number as usize];
                let was = document.tree.is_deleted();
                let outcome = document.extend(
                    &mut self.journal,
                    &mut self.index,
                    number,
                    self.limits.journal,
                    edit,
                )?;
                self.deleted = recounted(self.deleted, was, document.tree.is_deleted());
                Ok(outcome)
            }
            None => self.insert(id, edit),
        }
    }

    // Stores one document: with `new_edits` its revision is made here. The cost is that of `store`.
    fn write(&mut self, doc: Doc, new_edits: bool) -> Result<Outcome<RevId>, AllocError>
        ensures { IsStore (stores_doc new_edits self.old.limits.journal self.old.journal doc)
            (NeedsRoom new_edits self.old.journal doc) self.old self.new result }
    {
        let Doc {
            id,
            rev,
            path,
            deleted,
            body,
        } = doc;
        let origin = match (new_edits, path) {
            (true, _) => Origin::Here(rev),
            (false, Some(path)) => Origin::Elsewhere(path),
            (false, None) => return Ok(Outcome::Refused(Fault::Contradicts)),
        };
        self.store(
            id,
            Incoming {
                origin,
                deleted,
                body,
            },
        )
    }

    /// Stores documents one after the other, as `DbState::write_edits` says.
    pub(crate) fn write_edits(
        &mut self,
        docs: Vec<Doc>,
        new_edits: bool,
    ) -> Result<Batch, AllocError>
        ensures batch { IfOk result
            (IsBatch new_edits false self.old.limits.journal self.old.journal self.new.journal docs.items) }
        ensures rest { (self.new ≡ record self.old { journal = self.new.journal })
            × (length self.old.journal ≤ length self.new.journal) }
        ensures err { OnErr result (self.new ≡ self.old) }
    {
        let mut list = Vec::new(self.alloc);
        list.try_reserve(docs.len())?;
        for doc in docs {
            match self.write(doc, new_edits) {
                Ok(outcome) => list.push_reserved(outcome),
                Err(AllocError) => {
                    return Ok(Batch {
                        replies: Replies::new(list),
                        stopped: true,
                    });
                }
            }
        }
        Ok(Batch {
            replies: Replies::new(list),
            stopped: false,
        })
    }
}
