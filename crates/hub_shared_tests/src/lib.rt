//! Databases under locks, as their users see them.
#![tactic(auto)]

#[cfg(test)]
mod tests;
