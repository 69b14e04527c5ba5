//! The outcomes of documents that are stored (CouchDB API reference, `_bulk_docs`).

/// Why a document is refused.
#[derive(Clone, Copy, Debug, PartialEq, Eq)]
pub enum Fault {
    /// The database was deleted.
    Deleted,
    /// The path is no history, or gives a known revision another parent.
    Contradicts,
    /// `_rev` is no leaf, or is missing where the winner is not deleted, or the new revision is known.
    Conflict,
    /// The leaf that the document extends has the last generation, 65,535.
    GenerationLimit,
    /// The journal is at its limit.
    SequenceFull,
}

/// The outcome of one document.
#[derive(Clone, Copy, Debug, PartialEq, Eq)]
pub enum Outcome<R> {
    /// The document is the next edit of the journal, with this revision.
    Stored(R),
    /// Its revision was known, and nothing changed.
    Known,
    /// The document is refused, and nothing changed.
    Refused(Fault),
}
