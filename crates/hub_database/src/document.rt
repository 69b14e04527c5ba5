//! One document of a database.

ghost use Rattle.std.specs.Prelude.{[], ◌∷◌, ◌++◌, false, true, None, Some, ◌≡◌, ◌+◌, ◌<◌, ◌≤◌};
ghost use Rattle.std.specs.Prelude.{◌^◌, length, vec_len, vec_capacity, IfOk, OnErr, OnOk};
ghost use Rattle.hub_model.specs.Journal.{IsAcceptable, head_of};
ghost use Rattle.hub_model.specs.Leaves.{leaves_of};
ghost use Rattle.hub_model.specs.Row.{doc_of};
ghost use Rattle.hub_revtree.specs.Tree.{IsRevTree};
ghost use Rattle.hub_database.specs.Indexed.{IsMovable};
ghost use Rattle.hub_database.specs.Looked.{IsLook, IsWritten, NeedsRoomFor, look_in, unless_full};
ghost use Rattle.hub_database.specs.Documents.{filed_document, made_row, setting_of};
ghost use Rattle.hub_database.specs.declared.document.Origin.TheVariants.{Elsewhere, Here};

use crate::entry::Entry;
use crate::room::reserve_one;
use hub_document::{Body, ChangeRow, Changes, DocId, Path, RevId};
use hub_index::{PageIndex, SeqIndex};
use hub_model::{Fault, Outcome, Style, by_style};
use hub_revtree::{EditFault, MergeFault, Ready, RevTree};
use std::alloc::{AllocError, Global};

/// A document: its id, the sequence of its latest edit, and its tree.
#[derive(Debug, Drop)]
pub(crate) struct Document {
    pub(crate) id: DocId,
    pub(crate) latest: u32,
    pub(crate) tree: RevTree,
}

/// The place where an edit's revision is made.
#[derive(Drop)]
pub(crate) enum Origin {
    /// In another database: the edit comes with its history.
    Elsewhere(Path),
    /// Here, on the leaf that is named. Without a name the tree chooses the leaf.
    Here(Option<RevId>),
}

/// A document's part of a write.
#[derive(Drop)]
pub(crate) struct Incoming {
    pub(crate) origin: Origin,
    pub(crate) deleted: bool,
    pub(crate) body: Body,
}

/// The result of a look at a tree.
#[derive(Drop)]
pub(crate) enum Looked {
    /// The revision is known.
    Known,
    /// The edit is refused.
    Refused(Fault),
    /// The edit is to be stored.
    Ready(Ready),
}

impl Looked {
    // The same result, but that a full journal refuses an edit that is to be stored.
    fn unless_full(self, full: bool) -> Looked
        ensures { result ≡ unless_full full self }
    {
        match self {
            Looked::Ready(_) if full => Looked::Refused(Fault::SequenceFull),
            looked => looked,
        }
    }
}

// Looks at an edit that comes with its history. The call is never inlined: an edit made here would clear the
// room of a merge.
#[inline(never)]
fn look_merge(
    tree: &mut RevTree,
    path: Path,
    deleted: bool,
    body: Body,
) -> Result<Looked, AllocError>
    ensures { IsLook [] false (record { origin = Elsewhere path; deleted = deleted; body = body })
        tree.old tree.new result }
{
    match tree.look_merge(path, deleted, body) {
        Ok(None) => Ok(Looked::Known),
        Ok(Some(ready)) => Ok(Looked::Ready(ready)),
        Err(MergeFault::Contradicts) => Ok(Looked::Refused(Fault::Contradicts)),
        Err(MergeFault::NoMemory) => Err(AllocError),
    }
}

// Looks at an edit that is made here.
fn look_extend(
    tree: &mut RevTree,
    id: &DocId,
    parent: Option<RevId>,
    deleted: bool,
    body: Body,
) -> Result<Looked, AllocError>
    ensures { IsLook id.now false (record { origin = Here parent; deleted = deleted; body = body })
        tree.old tree.new result }
{
    match tree.look_extend(id, parent, deleted, body) {
        Ok(ready) => Ok(Looked::Ready(ready)),
        Err(EditFault::Conflict) => Ok(Looked::Refused(Fault::Conflict)),
        Err(EditFault::GenerationLimit) => Ok(Looked::Refused(Fault::GenerationLimit)),
        Err(EditFault::NoMemory) => Err(AllocError),
    }
}

/// Looks at an edit of the document with this id, where the journal is full or not: the tree decides first.
/// The cost is that of `RevTree::look_merge` or `RevTree::look_extend`.
pub(crate) fn look(
    tree: &mut RevTree,
    id: &DocId,
    full: bool,
    edit: Incoming,
) -> Result<Looked, AllocError>
    ensures { IsLook id.now full edit tree.old tree.new result }
{
    let Incoming {
        origin,
        deleted,
        body,
    } = edit;
    match origin {
        Origin::Elsewhere(path) => {
            let looked = look_merge(tree, path, deleted, body)?;
            Ok(looked.unless_full(full))
        }
        Origin::Here(parent) => {
            let looked = look_extend(tree, id, parent, deleted, body)?;
            Ok(looked.unless_full(full))
        }
    }
}

impl Document {
    /// A document with no edit.
    pub(crate) fn new(alloc: Global, id: DocId) -> Document
        ensures { filed_document result ≡ record { id = id; latest = 0; edits = [] } }
    {
        Document {
            id,
            latest: 0,
            tree: RevTree::new(alloc),
        }
    }

    /// Takes an edit that was looked at, and returns its revision. The tree and the journal have room for
    /// the edit, so the call needs no memory. The cost is that of `RevTree::adopt`.
    pub(crate) fn take(&mut self, journal: &mut Vec<Entry>, number: u32, ready: Ready) -> RevId
        requires acceptable { IsAcceptable self.old.tree.edits ready }
        requires room { length ready.path ≤ self.old.tree.room }
        requires entry { vec_len journal.old + 1 ≤ vec_capacity journal.old }
        requires few { length self.old.tree.edits < 2 ^ 32 }
        requires limit { length journal.old.items + 1 < 2 ^ 32 }
        ensures rev { head_of ready ≡ Some result }
        ensures filed { filed_document self.new ≡ record {
          id = self.old.id;
          latest = length journal.old.items + 1;
          edits = self.old.tree.edits ++ ready ∷ [];
        } }
        ensures journal { journal.new.items ≡ journal.old.items
            ++ record { document = number; revision = length self.old.tree.edits } ∷ [] }
    {
        let rev = ready.rev();
        let revision = self.tree.len() as u32;
        self.tree.adopt(ready);
        journal.push_reserved(Entry {
            document: number,
            revision,
        });
        self.latest = journal.len() as u32;
        rev
    }

    /// Stores one more edit of this document, which has this number. The cost is that of `look`,
    /// `reserve_one`, `SeqIndex::move_to` and `take`.
    pub(crate) fn extend(
        &mut self,
        journal: &mut Vec<Entry>,
        index: &mut PageIndex,
        number: u32,
        limit: u64,
        edit: Incoming,
    ) -> Result<Outcome<RevId>, AllocError>
        requires limit { limit < 2 ^ 32 }
        requires few { length self.old.tree.edits ≤ length journal.old.items }
        requires row { IsMovable number (Some self.old.latest) (length journal.old.items + 1) index.old }
        ensures tree { IsRevTree self.old.tree.edits }
        ensures written { let before = setting_of number self.old journal.old.items index.old in
            let after = setting_of number self.new journal.new.items index.new in
            IfOk result (IsWritten (look_in limit before edit) before after) }
        ensures err { OnErr result ((filed_document self.new ≡ filed_document self.old)
            × (journal.new.items ≡ journal.old.items) × (index.new ≡ index.old)) }
        ensures memory { OnErr result (NeedsRoomFor self.old.tree.edits [] edit) }
    {
        let full = journal.len() as u64 >= limit;
        match look(&mut self.tree, &self.id, full, edit)? {
            Looked::Known => Ok(Outcome::Known),
            Looked::Refused(fault) => Ok(Outcome::Refused(fault)),
            Looked::Ready(ready) => {
                reserve_one(journal)?;
                let latest = u64::from(self.latest);
                index.move_to(number, Some(latest), journal.len() as u64 + 1)?;
                Ok(Outcome::Stored(self.take(journal, number, ready)))
            }
        }
    }

    // The members of the winner's document, if it has one. They may be made in the memory of a spare body.
    fn winner_members(&self, alloc: Global, spare: Option<Body>) -> Result<Option<Body>, AllocError>
        ensures { IfOk result (λ body. body ≡ doc_of true (leaves_of self.now.tree.edits [])) }
    {
        let Some(body) = self.tree.winner_body() else {
            return Ok(None);
        };
        let copy = match spare {
            Some(spare) => body.copy_over(spare)?,
            None => body.copy(alloc)?,
        };
        Ok(Some(copy))
    }

    // The row of the document at this sequence, with these members.
    #[inline(always)]
    fn row_of_members(
        &self,
        alloc: Global,
        seq: u64,
        seen: u64,
        style: Style,
        doc: Option<Body>,
    ) -> Result<ChangeRow, AllocError>
        ensures row { IfOk result (λ row. row ≡ made_row seq self.now.id self.now.tree.edits style doc seen) }
        ensures tree { OnOk result (IsRevTree self.now.tree.edits) }
    {
        let changes = by_style!(style,
            main_only: self.tree.winner_alone(alloc),
            all_docs: Ok(Changes::new(self.tree.leaves(alloc)?)),
        )?;
        Ok(ChangeRow {
            seq,
            id: self.id.copy()?,
            changes,
            deleted: self.tree.is_deleted(),
            doc,
            seen,
        })
    }

    // The row without the document. The call is never inlined: so it has no room for members.
    #[inline(never)]
    fn plain_row(
        &self,
        alloc: Global,
        seq: u64,
        seen: u64,
        style: Style,
    ) -> Result<ChangeRow, AllocError>
        ensures row { IfOk result (λ row. row ≡ made_row seq self.now.id self.now.tree.edits style None seen) }
        ensures tree { OnOk result (IsRevTree self.now.tree.edits) }
    {
        self.row_of_members(alloc, seq, seen, style, None)
    }

    // The row with the document, whose members may be made in the memory of a spare body.
    #[inline(never)]
    fn row_with_doc(
        &self,
        alloc: Global,
        seq: u64,
        seen: u64,
        style: Style,
        spare: Option<Body>,
    ) -> Result<ChangeRow, AllocError>
        ensures row { let edits = self.now.tree.edits in IfOk result (λ row. row
            ≡ made_row seq self.now.id edits style (doc_of true (leaves_of edits [])) seen) }
        ensures tree { OnOk result (IsRevTree self.now.tree.edits) }
    {
        let doc = self.winner_members(alloc, spare)?;
        self.row_of_members(alloc, seq, seen, style, doc)
    }

    /// The row of the document at this sequence, made while there are `seen` edits. The cost is constant;
    /// with every leaf it is that of `RevTree::leaves`, and with the document a copy of its members, which
    /// may be made in the memory of a spare body.
    #[inline(always)]
    pub(crate) fn row(
        &self,
        alloc: Global,
        seq: u64,
        seen: u64,
        style: Style,
        include_docs: bool,
        spare: Option<Body>,
    ) -> Result<ChangeRow, AllocError>
        ensures row { let edits = self.now.tree.edits in IfOk result (λ row. row
            ≡ made_row seq self.now.id edits style (doc_of include_docs (leaves_of edits [])) seen) }
        ensures tree { OnOk result (IsRevTree self.now.tree.edits) }
    {
        if include_docs {
            self.row_with_doc(alloc, seq, seen, style, spare)
        } else {
            self.plain_row(alloc, seq, seen, style)
        }
    }
}
