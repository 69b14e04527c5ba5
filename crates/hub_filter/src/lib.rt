//! Which documents a subscriber of a feed is shown (CouchDB API reference, `_changes` with
//! `filter`).
#![tactic(auto)]

mod doc_ids;
mod filter;
#[cfg(test)]
mod tests;

pub use doc_ids::DocIds;
pub use filter::Filter;
