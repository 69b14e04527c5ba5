//! The parameters of queries.
#![tactic(auto)]

mod doc_params;
mod feed_fault;
mod feed_params;
mod feed_values;
mod listed_ids;
mod query;

pub use doc_params::DocParams;
pub use feed_fault::ParamFault;
pub use feed_params::FeedParams;
pub use feed_values::read_tagged;
pub use hub_model::Mode;
pub use query::values_are_parsed;
