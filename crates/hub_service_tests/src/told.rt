//! The output of sessions, also of those that find no memory.
//!
//! With ample memory a session is right at once. Where a growth is refused, the session writes a front of
//! its answers. Then it is cut, or the refusal that tells out of memory follows, and the session may go on.
//! Over a new hub once more, the session is right.

use hub_http::HttpFault;
use hub_session::Closing;
use std::alloc::AllocError;

/// The output of a session, and why it closed.
#[derive(Drop)]
pub(crate) struct Told {
    pub(crate) output: String,
    pub(crate) closing: Closing,
}

/// The refusals that tell out of memory. The session goes on after the first, and closes with the second.
/// The third is of a HEAD, with the front of the next answer after it.
const REFUSALS: &[&str] = &[
    concat!(
        "HTTP/1.1 503 Service Unavailable\r\nContent-Type: application/json\r\n",
        "Content-Length: 51\r\n\r\n",
        r#"{"error":"out_of_memory","reason":"out of memory"}"#,
        "\n"
    ),
    concat!(
        "HTTP/1.1 503 Service Unavailable\r\nContent-Type: application/json\r\n",
        "Content-Length: 51\r\nConnection: close\r\n\r\n",
        r#"{"error":"out_of_memory","reason":"out of memory"}"#,
        "\n"
    ),
    concat!(
        "HTTP/1.1 503 Service Unavailable\r\nContent-Type: application/json\r\n",
        "Content-Length: 51\r\n\r\nHTTP/1.1 "
    ),
];

/// Whether bytes begin with a refusal that tells out of memory, or are a front of one.
fn is_refusal(bytes: &[u8]) -> bool {
    REFUSALS.iter().any(|refusal| {
        let refusal = refusal.as_bytes();
        bytes.starts_with(refusal) || refusal.starts_with(bytes)
    })
}

/// Whether bytes are a front of the expected ones, or such a front and a refusal that tells out of memory.
fn is_refused(output: &[u8], expected: &[u8]) -> bool {
    for count in 0..output.len() {
        if expected.starts_with(&output[..count]) && is_refusal(&output[count..]) {
            return true;
        }
    }
    expected.starts_with(output)
}

/// Whether a session without memory may close so.
fn is_doubtful(closing: Closing) -> bool {
    closing == Closing::Fault(HttpFault::NoMemory)
        || closing == Closing::Cut
        || closing == Closing::Broken
}

impl Told {
    /// Whether the session wrote the expected output, and closed so. An error says that memory was missing.
    /// A writer that is to break has room for a refusal, where that is shorter than the answer.
    pub(crate) fn is(&self, expected: &str, end: Closing) -> Result<bool, AllocError> {
        let (output, expected) = (self.output.as_bytes(), expected.as_bytes());
        let closing = self.closing;
        if output == expected && closing == end {
            return Ok(true);
        }
        let may_close = closing == end
            || is_doubtful(closing)
            || (closing == Closing::Finished && end == Closing::Broken);
        if may_close && is_refused(output, expected) {
            return Err(AllocError);
        }
        Ok(false)
    }

    /// Whether memory may have been missing for the session.
    pub(crate) fn is_doubtful(&self) -> bool {
        is_doubtful(self.closing) || self.output.contains("HTTP/1.1 503 ")
    }
}
