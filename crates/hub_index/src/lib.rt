//! The rows of a feed by sequence (CouchDB API reference, `_changes`): the document at each sequence, and the
//! next row. Beside them the numbers of documents, in the order of their ids.
#![tactic(auto)]

mod guesses;
mod hash;
mod id_hints;
mod id_order;
mod id_pages;
mod page;
mod page_index;
mod seq_index;
mod tree_index;

pub use id_hints::IdHints;
pub use id_order::{IdOrder, Named};
pub use page_index::PageIndex;
pub use seq_index::SeqIndex;
pub use tree_index::TreeIndex;
