//! Databases by name, as their users see them.
#![tactic(auto)]

#[cfg(test)]
mod tests;
