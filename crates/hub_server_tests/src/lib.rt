//! The server over sockets, as clients see it.
#![tactic(auto)]

#[cfg(test)]
mod tests;
