//! A database with its feeds in one thread, as the program keeps it under a lock, and the laws of every run
//! of it.
#![tactic(auto)]

mod docs;
mod event;
mod items;
mod laws;
mod plain_list;
mod reply;
mod world;

pub use docs::Docs;
pub use event::Event;
pub use items::{Items, ToldItem};
pub use laws::{answers, hands_and_takes, headline, keeps_fitting, stays_legal, worked_runs};
pub use reply::Reply;
pub use world::World;
