//! Tests of hub_revtree, as its users see it.
#![tactic(auto)]

#[cfg(test)]
mod tests;
