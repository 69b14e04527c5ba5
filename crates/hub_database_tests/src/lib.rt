//! Databases, as their users see them.
#![tactic(auto)]

#[cfg(test)]
mod deletion_tests;
#[cfg(test)]
mod entry_tests;
#[cfg(test)]
mod feed_tests;
#[cfg(test)]
mod host_tests;
#[cfg(test)]
mod life_tests;
#[cfg(test)]
mod listed;
#[cfg(test)]
mod listed_tests;
#[cfg(test)]
mod random_tests;
#[cfg(test)]
mod replays;
#[cfg(test)]
mod session;
#[cfg(test)]
mod waiting_tests;
