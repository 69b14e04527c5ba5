//! The state of one database: its documents, their trees, and the journal of accepted edits.
#![tactic(auto)]

mod answers;
mod batch;
mod contents;
mod database;
mod descending;
mod document;
mod entries;
mod entry;
mod host;
mod ids;
mod listing;
mod local;
mod open;
mod question;
mod reads;
mod receipt;
mod room;
mod rows;

pub use answers::{Diff, Info, Lookup, OpenRev};
pub use batch::{Batch, DbFault, Replies};
pub use contents::Contents;
pub use database::DbState;
pub use descending::Descending;
pub use local::Local;
pub use question::{Answer, Question};
pub use receipt::{AuditFault, Receipt, ReceiptRoom, audit_of};
