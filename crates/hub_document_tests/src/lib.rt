//! Documents, revisions and texts, as their users see them.
#![tactic(auto)]

#[cfg(test)]
mod tests;
