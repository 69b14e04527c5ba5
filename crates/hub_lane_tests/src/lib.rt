//! Tests of hub_lane, as its users see it.
#![tactic(auto)]

#[cfg(test)]
mod tests;
