//! The hub over TCP.
#![tactic(auto)]

mod clock;
mod pumping;
mod server;
mod services;

pub use clock::Uptime;
pub use pumping::ByWorkers;
pub use server::run_server;
