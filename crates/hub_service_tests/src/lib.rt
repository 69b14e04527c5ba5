//! Tests of hub_service, as its users see it.
#![tactic(auto)]

#[cfg(test)]
mod calls;
#[cfg(test)]
mod changes_tests;
#[cfg(test)]
mod client;
#[cfg(test)]
mod database_tests;
#[cfg(test)]
mod deleted_tests;
#[cfg(test)]
mod diffs_tests;
#[cfg(test)]
mod documents_tests;
#[cfg(test)]
mod edits_tests;
#[cfg(test)]
mod feed_tests;
#[cfg(test)]
mod history_tests;
#[cfg(test)]
mod hostile_tests;
#[cfg(test)]
mod hub_tests;
#[cfg(test)]
mod ids_tests;
#[cfg(test)]
mod leaves_tests;
#[cfg(test)]
mod locals_tests;
#[cfg(test)]
mod names_tests;
#[cfg(test)]
mod open_revs_tests;
#[cfg(test)]
mod parts_tests;
#[cfg(test)]
mod paths_tests;
#[cfg(test)]
mod questions_tests;
#[cfg(test)]
mod replays;
#[cfg(test)]
mod replies_tests;
#[cfg(test)]
mod routes_tests;
#[cfg(test)]
mod tests;
#[cfg(test)]
mod texts;
#[cfg(test)]
mod told;
#[cfg(test)]
mod trees_tests;
#[cfg(test)]
mod updates_tests;
#[cfg(test)]
mod wire;
#[cfg(test)]
mod wire_tests;
