//! Tests of hub_world, as its users see it.
#![tactic(auto)]

#[cfg(test)]
mod made;
#[cfg(test)]
mod random_tests;
#[cfg(test)]
mod shell;
#[cfg(test)]
mod tests;
#[cfg(test)]
mod texts;
