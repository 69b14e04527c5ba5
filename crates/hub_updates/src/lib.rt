//! The log of updates: notices that a database was created, updated or deleted, and the feeds that show
//! them (CouchDB API reference, `_db_updates`).
#![tactic(auto)]

mod host;
mod log;
mod notice;
mod rows;
mod state;

pub use notice::Notice;
pub use state::{NoteFault, UpdatesState};
