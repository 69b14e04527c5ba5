//! The routes of requests.
#![tactic(auto)]

mod kind;
mod method;
mod path;
mod route;
mod routes;
mod samples;

pub use route::{Call, Route};
pub use routes::Routes;
pub use samples::{prefixes_stay, sample_ids, sample_paths};
