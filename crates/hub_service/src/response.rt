//! The responses to requests.

ghost use Rattle.std.specs.Prelude.{◌≡◌, Err, IfOk, OnErr};
ghost use Rattle.hub_service.specs.Said.{Body, IsSaid};

use crate::sent::Sent;
use hub_http::{Refusal, StatusCode};
use hub_model::Mode;
use std::alloc::AllocError;

/// The response to a request that is not refused.
#[derive(Drop)]
pub(crate) enum Response {
    /// A status, and a body.
    Body(StatusCode, Vec<u8>),
    /// A feed or a list, in this mode.
    Stream(Mode, Sent),
}

/// The response of this status and body. Out of memory for the body, it is a refusal.
pub(crate) fn answer(
    status: StatusCode,
    body: Result<Vec<u8>, AllocError>,
) -> Result<Response, Refusal>
    ensures said { IfOk body (λ b. IsSaid (Body status b.items) result) }
    ensures memory { OnErr body (result ≡ Err Refusal.NoMemory) }
{
    Ok(Response::Body(status, body?))
}
