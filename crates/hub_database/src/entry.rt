//! The entries of a journal.

/// The place of an accepted edit: the number of its document, and the number of the edit in the document's
/// tree. Both count from 0.
#[derive(Clone, Copy, Debug, PartialEq, Eq)]
pub(crate) struct Entry {
    pub(crate) document: u32,
    pub(crate) revision: u32,
}
