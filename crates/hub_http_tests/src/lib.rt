//! Tests of hub_http, as its users see it.
#![tactic(auto)]

#[cfg(test)]
mod buffered_tests;
#[cfg(test)]
mod inbox_tests;
#[cfg(test)]
mod item_tests;
#[cfg(test)]
mod offers;
#[cfg(test)]
mod outbox_tests;
#[cfg(test)]
mod reader_tests;
#[cfg(test)]
mod reading;
#[cfg(test)]
mod reply_tests;
#[cfg(test)]
mod request_tests;
#[cfg(test)]
mod sink;
#[cfg(test)]
mod texts;
#[cfg(test)]
mod writer_tests;
