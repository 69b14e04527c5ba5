//! Tests of hub_replies, as its users see it.
#![tactic(auto)]

#[cfg(test)]
mod tests;
