//! The statuses of replies.

ghost use Rattle.std.specs.Prelude.{◌≡◌};
ghost use Rattle.hub_http.specs.Statuses.{reason_phrase};

use std::marker::Model;

/// The status of a reply (RFC 9110, section 15): a status that the hub sends. A contract sees its number.
#[derive(Clone, Copy, Debug, PartialEq, Eq)]
pub struct StatusCode(u16);

impl Model for StatusCode {
    ghost use Rattle.std.specs.Prelude.{ℕ};

    ghost Value = { ℕ };

    ghost view = { λ s. s.0 };

    ghost inverse = { λ n. record { 0 = n } };
}

impl StatusCode {
    /// The request was done.
    pub const OK: StatusCode = StatusCode(200);

    /// The request made a database or an edit, or it was a batch or a commit.
    pub const CREATED: StatusCode = StatusCode(201);

    /// The hub cannot read or take the request.
    pub const BAD_REQUEST: StatusCode = StatusCode(400);

    /// No such path, database or document is there.
    pub const NOT_FOUND: StatusCode = StatusCode(404);

    /// The path does not take this method.
    pub const METHOD_NOT_ALLOWED: StatusCode = StatusCode(405);

    /// The edit names no leaf that it may edit.
    pub const CONFLICT: StatusCode = StatusCode(409);

    /// The request does not say how long its body is.
    pub const LENGTH_REQUIRED: StatusCode = StatusCode(411);

    /// The database is there already.
    pub const PRECONDITION_FAILED: StatusCode = StatusCode(412);

    /// The body is too long.
    pub const PAYLOAD_TOO_LARGE: StatusCode = StatusCode(413);

    /// The head is too long.
    pub const REQUEST_HEADER_FIELDS_TOO_LARGE: StatusCode = StatusCode(431);

    /// The body has a transfer coding.
    pub const NOT_IMPLEMENTED: StatusCode = StatusCode(501);

    /// The hub has no room for the request now.
    pub const SERVICE_UNAVAILABLE: StatusCode = StatusCode(503);

    /// The version is not HTTP/1.1.
    pub const HTTP_VERSION_NOT_SUPPORTED: StatusCode = StatusCode(505);

    /// The number of the status. Constant time.
    pub fn as_u16(self) -> u16
        ensures { result ≡ self }
    {
        self.0
    }

    /// The phrase of the status. Constant time.
    pub fn reason_phrase(self) -> &'static str
        ensures { result.now ≡ reason_phrase self }
    {
        match self.0 {
            200 => "OK",
            201 => "Created",
            400 => "Bad Request",
            404 => "Not Found",
            405 => "Method Not Allowed",
            409 => "Conflict",
            411 => "Length Required",
            412 => "Precondition Failed",
            413 => "Payload Too Large",
            431 => "Request Header Fields Too Large",
            501 => "Not Implemented",
            503 => "Service Unavailable",
            505 => "HTTP Version Not Supported",
            _ => "",
        }
    }
}
