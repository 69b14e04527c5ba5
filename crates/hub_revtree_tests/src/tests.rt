//! Trees of revisions, as transcripts.
//!
//! `hub_service_tests` tests the answers over HTTP that show them.

mod asks;
mod best;
mod counts;
mod index;
mod lines;
mod session;
