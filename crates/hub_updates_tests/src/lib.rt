//! Tests of hub_updates, as its users see it.
#![tactic(auto)]

#[cfg(test)]
mod listed;
#[cfg(test)]
mod tests;
