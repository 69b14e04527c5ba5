//! The kinds of notes in the log of updates, which code and definitions share (CouchDB API reference,
//! `_db_updates`).

/// An event of a database.
#[derive(Clone, Copy, Debug, PartialEq, Eq)]
pub enum UpdateKind {
    /// The database was made.
    Created,
    /// At least one edit of one request was accepted.
    Updated,
    /// The database was deleted.
    Deleted,
}
