//! The databases of a hub by their names, with the log of their updates.
#![tactic(auto)]

mod fault;
mod hub;
mod hub_db;
mod name;
mod names;
mod written;

pub use fault::HubFault;
pub use hub::Hub;
pub use hub_db::HubDb;
pub use name::is_name;
pub use written::{Edited, Written};
