//! Workers that serve connections: one a processor, at least two, each with a poll of its own. A connection
//! is a value of one worker, which steps its session when its socket is ready or its stream has news.
#![tactic(auto)]

mod accepting;
mod alive;
mod awaits;
mod budget;
mod conn;
mod driven;
mod event_loop;
mod port;
mod readiness;
mod relief;
mod seat;
mod services;
mod serving;
mod slot;
mod stepping;
mod table;
mod team;
mod turn;
mod watches;

pub use services::MakeService;
pub use serving::serve_all;
