//! The tree of one document's revisions: its known revisions, its leaves and its winner (CouchDB API
//! reference, document revisions and conflicts).
#![tactic(auto)]

mod branches;
mod candidates;
mod edit;
mod fault;
mod heads;
mod index;
mod inner;
mod key;
mod leaf;
mod line;
mod look;
mod mark;
mod rev_key;
mod run;
mod sought;
mod stem;
mod stems;
mod tree;

pub use fault::{EditFault, MergeFault, Merged};
pub use heads::StoredEdit;
pub use leaf::Winner;
pub use tree::{Ready, RevTree};
