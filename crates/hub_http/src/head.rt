//! Heads of requests.
ghost use Rattle.std.specs.Prelude.{◌≡◌, ◌≤◌, length, codes, is_some};
ghost use Rattle.std.specs.List.{list_any};
ghost use Rattle.hub_http.specs.Heads.{same_word, is_named, length_or_fault, field_limit};
ghost use Rattle.hub_http.specs.Looking.{Looks, LooksWithin};

use crate::connection::has_close;
use crate::fault::HttpFault;
use crate::fields::Fields;
use crate::length::length_of;
use crate::method_name::MethodName;
use crate::request::Request;
use httparse::spans::{EMPTY_HEADER_SPAN, HeaderSpan, parse_request};
use httparse::{Error, Status};
use std::alloc::Global;

/// The parts of a request's head that the hub uses.
#[derive(Debug, Drop)]
pub(crate) struct Head {
    pub method: MethodName,
    pub target: Vec<u8>,
    pub length: Option<u64>,
    pub close: bool,
    /// The length of the head, in bytes.
    pub len: usize,
}

impl Head {
    /// The request of this head, with this body.
    pub(crate) fn with_body(self, body: Vec<u8>) -> Request
        ensures { result ≡ record {
          method = self.method;
          target = self.target;
          has_length = is_some self.length;
          close = self.close;
          body = body;
        } }
    {
        Request {
            method: self.method,
            target: self.target,
            has_length: self.length.is_some(),
            close: self.close,
            body,
        }
    }
}

/// The greatest length of a head, in bytes.
pub(crate) const HEAD_LIMIT: usize = 16_384;

/// The greatest number of a head's fields.
const FIELD_LIMIT: usize = 64;

/// Room for the fields of nearly every head. A look with fewer spans clears them in less time.
const FEW_FIELDS: usize = 16;

/// Whether two words are the same but for the case of their letters.
#[tactic(auto, unfolding(crate::specs::Heads::same_word))]
pub(crate) fn same_word(a: &[u8], b: &[u8]) -> bool
    ensures { result ≡ same_word a.now b.now }
{
    a.eq_ignore_ascii_case(b)
}

/// Whether a field is a `Transfer-Encoding`.
fn has_coding(fields: &Fields) -> bool
    ensures { result ≡ list_any (is_named (codes "transfer-encoding")) fields.now }
{
    for header in fields.headers {
        if same_word(header.name.of(fields.buf), b"transfer-encoding") {
            return true;
        }
    }
    false
}

/// The length of the body that a head asks for, or the head's first fault.
#[tactic(auto, unfolding(crate::specs::Heads::length_or_fault))]
fn asked(minor: u8, target: &[u8], fields: &Fields) -> Result<Option<u64>, HttpFault>
    ensures { result ≡ length_or_fault minor target.now fields.now }
{
    if minor != 1 {
        return Err(HttpFault::Version);
    }
    if has_coding(fields) {
        return Err(HttpFault::Coding);
    }
    match target {
        [b'/', ..] => length_of(fields),
        _ => Err(HttpFault::BadHead),
    }
}

/// Looks for a head at the front of the bytes, and answers `None` where more bytes have to come. A head with
/// more fields than spans is `HeadTooLong`.
fn look_within(
    alloc: Global,
    buf: &[u8],
    headers: &mut [HeaderSpan],
) -> Result<Option<Head>, HttpFault>
    requires { length headers.old ≤ field_limit }
    ensures { LooksWithin (length headers.old) buf.now result }
{
    match parse_request(buf, headers) {
        Ok(Status::Partial) => Ok(None),
        Ok(Status::Complete(spans)) => {
            if spans.len > HEAD_LIMIT {
                return Err(HttpFault::HeadTooLong);
            }
            let fields = Fields {
                buf,
                headers: &headers[..spans.headers],
            };
            let target = spans.path.of(buf);
            let length = asked(spans.version, target, &fields)?;
            Ok(Some(Head {
                method: MethodName::new(alloc, spans.method.of(buf))?,
                target: Vec::from_slice(alloc, target)?,
                length,
                close: has_close(&fields),
                len: spans.len,
            }))
        }
        Err(Error::TooManyHeaders) => Err(HttpFault::HeadTooLong),
        Err(_) => Err(HttpFault::BadHead),
    }
}

/// Looks for a head at the front of the bytes, and answers `None` where more bytes have to come. The cost is
/// the bytes' length, and twice that for a head of more than 16 fields or 16,384 bytes.
pub(crate) fn look(alloc: Global, buf: &[u8]) -> Result<Option<Head>, HttpFault>
    ensures { Looks buf.now result }
{
    match look_within(alloc, buf, &mut [EMPTY_HEADER_SPAN; FEW_FIELDS]) {
        Err(HttpFault::HeadTooLong) => {
            look_within(alloc, buf, &mut [EMPTY_HEADER_SPAN; FIELD_LIMIT])
        }
        looked => looked,
    }
}
