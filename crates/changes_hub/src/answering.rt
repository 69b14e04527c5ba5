//! A session of the program, and the status that it ends with.

ghost use Rattle.std.specs.Prelude.{◌≡◌, IfOk, IfSome};
ghost use Rattle.std.specs.Process.{exit_status};
ghost use Rattle.hub_http.specs.Words.{IsOpen, to_come};
ghost use Rattle.changes_hub.specs.Statuses.{EndsWith, status_of};

use hub_document::Limits;
use hub_http::{Input, Output, Requests};
use hub_service::answer_stream;
use hub_session::Closing;
use std::alloc::Global;
use std::io;
use std::process::ExitCode;
use std::sync::Wait;

// The status of a session that closed for this reason.
fn status_of(closing: Closing) -> u8
    ensures { result ≡ status_of closing }
{
    match closing {
        Closing::Finished | Closing::Requested => 0,
        Closing::Fault(_) | Closing::Cut | Closing::Broken | Closing::Exhausted => 1,
    }
}

/// Answers requests by a hub without databases, up to the first closing, and flushes the answers. The status
/// is that of the closing: 0 where the client ended or asked for the end, and else 1. An error says that the
/// hub found no memory to begin with, or that the last flush failed.
pub(crate) fn answer<N: Wait, R: Input, W: Output>(
    rt: &N,
    alloc: Global,
    requests: &mut Requests<R>,
    writer: &mut W,
) -> io::Result<ExitCode>
    ensures { IsOpen requests.old → IfOk result (λ code. IfSome (to_come R.left requests.old) (λ bytes.
        EndsWith bytes (exit_status code) (W.written writer.old) (W.written writer.new))) }
{
    let closing = answer_stream(rt, alloc, requests, writer, Limits::full())?;
    writer.flush()?;
    Ok(ExitCode::from(status_of(closing)))
}
