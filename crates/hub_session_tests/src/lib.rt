//! Tests of hub_session, as its users see it.
#![tactic(auto)]

#[cfg(test)]
mod cut;
#[cfg(test)]
mod cuts;
#[cfg(test)]
mod held;
#[cfg(test)]
mod holding;
#[cfg(test)]
mod plans;
#[cfg(test)]
mod rows;
#[cfg(test)]
mod shown;
#[cfg(test)]
mod stepped;
#[cfg(test)]
mod tests;
