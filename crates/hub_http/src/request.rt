//! Requests.

use crate::method_name::MethodName;

/// A whole request (RFC 9112). Of its fields, `Content-Length` and `Connection` alone are kept, as flags.
#[derive(Debug, Drop)]
pub struct Request {
    /// The method, as `GET`.
    pub method: MethodName,
    /// The target as it was sent: it begins with `/`, is UTF-8, and is not decoded.
    pub target: Vec<u8>,
    /// Whether the head had a `Content-Length`.
    pub has_length: bool,
    /// The connection closes after the reply: `close` is an option of a `Connection` field.
    pub close: bool,
    /// The body, empty where the head had no `Content-Length`.
    pub body: Vec<u8>,
}
