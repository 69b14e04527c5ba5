//! The server over sockets of this machine, as its clients see it.

mod ahead;
mod client;
mod closes;
mod crowds;
mod exchanges;
mod gates;
mod goings;
mod held;
mod large;
mod long;
mod many;
mod room;
mod running;
mod sequences;
mod slow;
mod texts;
mod waits;
