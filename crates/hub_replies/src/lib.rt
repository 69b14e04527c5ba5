//! The JSON bodies of the hub's replies: each is compact, and a line feed ends it.
#![tactic(auto)]

mod batch;
mod diffs;
mod docs;
mod edits;
mod fixed;
mod info;
mod names;
mod texts;

pub use batch::{BatchReply, batch_body};
pub use diffs::diffs_body;
pub use docs::{doc_body, local_doc_body, open_revs_body};
pub use edits::{edit_body, edit_front, local_edit_body};
pub use fixed::{commit_body, ok_body, welcome_body};
pub use info::info_body;
pub use names::names_body;
