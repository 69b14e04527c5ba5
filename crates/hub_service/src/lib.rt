//! The HTTP API over the databases of a hub: the answers of a connection to requests, and the items of the
//! feeds that it sends.
#![tactic(auto)]

mod bulk;
mod connection;
mod context;
mod diff;
mod documents;
mod feeds;
mod info;
mod laws;
mod locals;
mod pumping;
mod refusal;
mod response;
mod rooms;
mod sent;
mod stream;

pub use connection::Connection;
pub use laws::{answers_are_right, streams_are_right};
pub use pumping::{ByTurns, Pumping};
pub use rooms::JsonRooms;
pub use stream::answer_stream;
