//! A follower, which copies one database into another, call by call (CouchDB Replication Protocol).
#![tactic(auto)]

mod call;
mod copies;
mod db_peer;
mod driving;
mod fault;
mod fault_peer;
mod fetched;
mod follower;
mod handed;
mod laws;
mod log;
mod log_text;
mod machine;
mod pair;
mod peer;
mod phase;
mod rebuilt;
mod same_row;
mod serving;
mod session;
mod world;

pub use call::{Answer, Call};
pub use db_peer::DbPeer;
pub use fault::FollowFault;
pub use fault_peer::{FaultPeer, Loss};
pub use fetched::FetchedRevs;
pub use follower::{FailedStart, Follower, Round};
pub use handed::rightly_handed;
pub use hub_follow_model::Seq;
pub use laws::{exact_peers_run, logs_read_back};
pub use log::{HistoryEntry, Log, common_sequence};
pub use machine::FollowCore;
pub use peer::{CallFault, Changes, Peer};
pub use session::Session;
pub use world::{FollowEvent, FollowWorld};
