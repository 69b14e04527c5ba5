//! Followers of databases, as their users see them: rounds, losses, logs and worlds.
#![tactic(auto)]

#[cfg(test)]
mod tests;
