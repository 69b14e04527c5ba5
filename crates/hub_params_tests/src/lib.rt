//! Parameters of feeds and documents, as their users see them.
#![tactic(auto)]

#[cfg(test)]
mod tests;
