//! Why streams and sessions end.

ghost use Rattle.std.specs.Prelude.{◌↔◌, IsTrue};
ghost use Rattle.hub_session.specs.Closings.{IsEndedHere};

use hub_http::HttpFault;
use thiserror::Error;

/// How a stream ended. As an error it says why a client gets no more of the stream.
#[derive(Clone, Copy, Debug, PartialEq, Eq, Error)]
pub enum StreamEnd {
    /// With its End and the last chunk.
    #[error("the stream was sent to its end")]
    Complete,
    /// The service had no further item, and no End came.
    #[error("the stream stopped before its end")]
    Stopped,
    /// An item's text found no memory, and nothing of it was written.
    #[error("out of memory")]
    NoMemory,
    /// The other side can't be written to.
    #[error("the other side can't be written to")]
    Broken,
    /// After 2^64 - 1 items. A `Session` counts the rows alone.
    #[error("the stream has too many items")]
    Exhausted,
}

/// Why a session closed. As an error it says why a client gets no further answer.
#[derive(Clone, Copy, Debug, PartialEq, Eq, Error)]
pub enum Closing {
    /// The input ended between two requests.
    #[error("the input ended after a request")]
    Finished,
    /// The last request asked to close.
    #[error("the last request asked to close")]
    Requested,
    /// No request could be read. The fault was answered where it has a reply.
    #[error("{0}")]
    Fault(HttpFault),
    /// A stream stopped without its End, or out of memory.
    #[error("a stream was cut before its end")]
    Cut,
    /// The other side can't be written to.
    #[error("the other side can't be written to")]
    Broken,
    /// After 2^64 - 1 requests, or a stream that ended as `Exhausted`.
    #[error("the session is too long")]
    Exhausted,
}

impl Closing {
    /// Whether the client of a connection that closed for this reason may still send and read.
    pub fn is_ended_here(self) -> bool
        ensures { IsTrue result ↔ IsEndedHere self }
    {
        matches!(self, Closing::Requested | Closing::Fault(_) | Closing::Cut)
    }
}
