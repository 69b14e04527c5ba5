//! Tests of hub_feed, as its users see it.
#![tactic(auto)]

#[cfg(test)]
mod tests;
