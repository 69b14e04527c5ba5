//! The outcome of a look for the next request.
use crate::request::Request;

/// The outcome of a look for the next request in the bytes that came so far.
#[derive(Debug, Drop)]
pub enum Next {
    /// A request, all of whose bytes came.
    Whole(Request),
    /// More bytes have to come. No byte is lost.
    NotYet,
    /// The input is over, and ended between two requests.
    End,
}
