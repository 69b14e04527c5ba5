//! Sessions: the requests that bytes spell, answered by a service, one after the other.
#![tactic(auto)]

mod answering;
mod closing;
mod feed;
mod item;
mod machine;
mod parts;
mod service;
mod serving;

pub use closing::{Closing, StreamEnd};
pub use feed::stream_feed;
pub use item::{LentItem, Sending, SentItem};
pub use machine::{Session, Step};
pub use service::{Answer, Service};
pub use serving::{serve, serve_one};
