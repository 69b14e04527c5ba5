//! Databases for many threads, as their users see them.
#![tactic(auto)]

#[cfg(test)]
mod ledger_tests;
#[cfg(test)]
mod tests;
