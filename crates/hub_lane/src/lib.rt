//! The lane of a feed: the queue between whoever hands the feed's items and the feed's connection. It is
//! bounded and in order, with one sender and one receiver. Its label says which lists of items may be sent.
#![tactic(auto)]

mod asks;
mod ends;
mod rule;

pub use asks::Asks;
pub use ends::{Full, Lane, Receiver, Sender};
pub use rule::{Kept, ends_agree};
