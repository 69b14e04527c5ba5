//! Random edits of documents: a database and a tree answer as the plain program does.

mod edits;
mod model;
mod shown;
mod texts;

use edits::{Random, next, push};
use hub_database::{DbState, Info};
use hub_document::{Doc, Limits, RevId};
use hub_model::{Fault, Outcome};
use hub_revtree::{EditFault, MergeFault, Merged, RevTree};
use model::Model;
use std::alloc::{AllocError, Global};
use std::process::Abort;
use std::test::Fail;

// How many edits had each outcome, and how many documents are live or deleted in the end.
#[derive(Drop)]
struct Counts {
    stored: u64,
    known: u64,
    contradicting: u64,
    conflicts: u64,
    /// Edits whose revisions have more ancestors in the end than their writers told.
    grown: u64,
    live: u64,
    deleted: u64,
}

// A document: its edits in a tree alone, and as the plain program has them.
#[derive(Drop)]
struct Document {
    tree: RevTree,
    model: Model,
}

// The outcome of an edit in a tree alone.
fn grow(tree: &mut RevTree, doc: Doc) -> Result<Outcome<RevId>, AllocError> {
    let Doc {
        id,
        rev,
        path,
        deleted,
        body,
    } = doc;
    let Some(path) = path else {
        return match tree.extend(&id, rev, deleted, body) {
            Ok(rev) => Ok(Outcome::Stored(rev)),
            Err(EditFault::NoMemory) => Err(AllocError),
            Err(EditFault::Conflict) => Ok(Outcome::Refused(Fault::Conflict)),
            Err(EditFault::GenerationLimit) => Ok(Outcome::Refused(Fault::GenerationLimit)),
        };
    };
    let head = path.head();
    match tree.merge(path, deleted, body) {
        Ok(Merged::Added) => Ok(Outcome::Stored(head)),
        Ok(Merged::Known) => Ok(Outcome::Known),
        Err(MergeFault::NoMemory) => Err(AllocError),
        Err(MergeFault::Contradicts) => Ok(Outcome::Refused(Fault::Contradicts)),
    }
}

// The outcome of an edit in a database.
fn store(
    alloc: Global,
    state: &mut DbState,
    doc: Doc,
    is_made: bool,
) -> Result<Option<Outcome<RevId>>, Fail> {
    let mut docs = Vec::new(alloc);
    docs.push(doc)?;
    let batch = state.write_edits(docs, is_made)?;
    Ok(batch.replies.as_slice().first().copied())
}

impl Document {
    // Takes one random edit more.
    fn step(
        &mut self,
        alloc: Global,
        state: &mut DbState,
        random: &mut Random,
        counts: &mut Counts,
    ) -> Result<(), Fail> {
        let mut text = String::new(alloc);
        let is_made = next(alloc, random, &self.model, &mut text)?;
        self.take(alloc, state, counts, text.as_str(), is_made)
    }

    // Takes a document. The database and the tree have to answer as the plain program does.
    fn take(
        &mut self,
        alloc: Global,
        state: &mut DbState,
        counts: &mut Counts,
        text: &str,
        is_made: bool,
    ) -> Result<(), Fail> {
        let doc = Doc::read(alloc, text.as_bytes(), is_made)?;
        let wanted = self
            .model
            .take(alloc, &doc, counts.stored.saturating_add(1))?;
        let grown = grow(&mut self.tree, doc.copy(alloc)?)?;
        let told = store(alloc, state, doc, is_made)?;
        counts.count(&wanted);
        if grown == wanted && told == Some(wanted) && state.update_seq() == counts.stored {
            return Ok(());
        }
        Err(Fail::new(format_args!("{text} is not {wanted:?}")))
    }

    // Takes one to eight edits. Then the database and the tree have to show the same as the plain program.
    fn run(
        &mut self,
        alloc: Global,
        state: &mut DbState,
        random: &mut Random,
        counts: &mut Counts,
        revs: &[RevId],
    ) -> Result<(), Fail> {
        for _ in 0..random.below(8) + 1 {
            self.step(alloc, state, random, counts)?;
        }
        counts.count_document(alloc, &self.model)?;
        let other = self.model.other(alloc, state, &self.tree, revs)?;
        if other.is_empty() {
            return Ok(());
        }
        let id = self.model.id.as_str();
        Err(Fail::new(format_args!("{id} differs: {other}")))
    }
}

impl Counts {
    // Counts the outcome of an edit.
    fn count(&mut self, outcome: &Outcome<RevId>) {
        let count = match outcome {
            Outcome::Stored(_) => &mut self.stored,
            Outcome::Known => &mut self.known,
            Outcome::Refused(Fault::Contradicts) => &mut self.contradicting,
            Outcome::Refused(_) => &mut self.conflicts,
        };
        *count = count.saturating_add(1);
    }

    // Counts the grown edits of a document, and the document as live or deleted.
    fn count_document(&mut self, alloc: Global, model: &Model) -> Result<(), AllocError> {
        self.grown = self.grown.saturating_add(model.grown(alloc)?);
        match model.best(None) {
            Some(winner) if winner.deleted => self.deleted = self.deleted.saturating_add(1),
            Some(_) => self.live = self.live.saturating_add(1),
            None => {}
        }
        Ok(())
    }
}

impl Counts {
    // The lowest of all counts.
    fn least(&self) -> u64 {
        let edits = self.stored.min(self.known).min(self.contradicting);
        let shown = self.grown.min(self.live).min(self.deleted);
        edits.min(shown).min(self.conflicts)
    }
}

// The revisions of generations 1 to 6, from which histories take parts, and the revisions of generation 7.
fn tree_revs(alloc: Global) -> Result<Vec<RevId>, AllocError> {
    let mut revs = Vec::new(alloc);
    for number in 0..21 {
        push(&mut revs, alloc, number / 3 + 1, number % 3)?;
    }
    Ok(revs)
}

const DOCUMENTS: u64 = 2_000;

// Edits of all documents.
fn run(
    alloc: Global,
    state: &mut DbState,
    random: &mut Random,
    counts: &mut Counts,
) -> Result<(), Fail> {
    let revs = tree_revs(alloc)?;
    for number in 0..DOCUMENTS {
        let mut document = Document {
            tree: RevTree::new(alloc),
            model: Model {
                id: format!(in alloc; "d{number}")?,
                salt: random.below(4_294_967_296),
                edits: Vec::new(alloc),
            },
        };
        document.run(alloc, state, random, counts, revs.as_slice())?;
    }
    Ok(())
}

#[test]
fn parts_of_histories_in_any_order(rt: HostRuntime) -> Result<(), Fail> {
    let alloc = rt.alloc();
    let mut state = DbState::new(alloc, Limits::full(), 6);
    let mut random = Random { state: 20_261_126 };
    let mut counts = Counts {
        stored: 0,
        known: 0,
        contradicting: 0,
        conflicts: 0,
        grown: 0,
        live: 0,
        deleted: 0,
    };
    run(alloc, &mut state, &mut random, &mut counts)?;
    let info = Info {
        doc_count: counts.live,
        doc_del_count: counts.deleted,
        update_seq: counts.stored,
        life: 6,
    };
    assert!(rt; state.info() == Ok(info));
    assert!(rt; counts.least() > 0);
    Ok(())
}
