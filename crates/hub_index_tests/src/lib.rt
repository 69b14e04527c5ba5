//! Tests of hub_index, as its users see it.
#![tactic(auto)]

#[cfg(test)]
mod hint_tests;
#[cfg(test)]
mod id_tests;
#[cfg(test)]
mod ids;
#[cfg(test)]
mod page_tests;
#[cfg(test)]
mod tests;
