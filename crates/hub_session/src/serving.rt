//! Sessions over a reader and a writer.
ghost use Rattle.std.specs.Prelude.{◌≡◌, IfSome, Some};
ghost use Rattle.hub_http.specs.Counts.{CallCounts};
ghost use Rattle.hub_http.specs.declared.fault.HttpFault.{HttpFault};
ghost use Rattle.hub_http.specs.Words.{to_come, IsOpen, HasEnded, failures_of, faults_of};
ghost use Rattle.hub_session.specs.Rules.{moment};
ghost use Rattle.hub_session.specs.Sessions.{IsServed, IsSession};

use crate::answering::{Begun, after_stream, answer_fault, begin_answer};
use crate::closing::Closing;
use crate::feed::send_items;
use crate::service::Service;
use hub_http::{HttpFault, Input, Output, Requests};
use std::alloc::Global;

/// Serves the next request, and says why the session closes, if it does. A fault of reading a request is
/// answered where it has a reply, and closes the session. Requests that ended before close it at once, with
/// nothing read or written.
pub fn serve_one<R: Input, W: Output, S: Service>(
    alloc: Global,
    requests: &mut Requests<R>,
    writer: &mut W,
    service: &mut S,
) -> Option<Closing>
    ensures told { IsOpen requests.old → IfSome (to_come R.left requests.old) (λ bytes.
        IsServed S.rules bytes result (to_come R.left requests.new)
        (moment service.old (W.written writer.old)) (moment service.new (W.written writer.new))) }
    ensures stays { IsOpen requests.old → result ≡ None → IsOpen requests.new }
    ensures ended { HasEnded requests.old → (result ≡ Some (Closing.Fault HttpFault.Ended))
        × (requests.new ≡ requests.old) × (service.new ≡ service.old) × (writer.new ≡ writer.old) }
    ensures writes { CallCounts (result ≡ Some Closing.Broken) W.fault_count W.failure_count
        writer.old writer.new }
    ensures reads { CallCounts (result ≡ Some (Closing.Fault HttpFault.IoFault)) (faults_of R.fault_count)
        (failures_of R.failure_count) requests.old requests.new }
{
    match requests.next() {
        Ok(Some(request)) => match begin_answer(alloc, writer, service, &request) {
            Begun::Answered(next) => next,
            Begun::Streaming(sending) => {
                let end = send_items(alloc, writer, service, sending);
                after_stream(request.close, end)
            }
        },
        Ok(None) => Some(Closing::Finished),
        Err(HttpFault::Ended) => Some(Closing::Fault(HttpFault::Ended)),
        Err(fault) => Some(answer_fault(alloc, writer, fault)),
    }
}

/// Serves the requests up to the first closing, and says why the session closed. Requests after the one that
/// closes are not answered, though they may have been read.
pub fn serve<R: Input, W: Output, S: Service>(
    alloc: Global,
    requests: &mut Requests<R>,
    writer: &mut W,
    service: &mut S,
) -> Closing
    ensures session { IsOpen requests.old → IfSome (to_come R.left requests.old) (λ bytes.
        IsSession S.rules bytes result
        (moment service.old (W.written writer.old)) (moment service.new (W.written writer.new))) }
    ensures ended { HasEnded requests.old → (result ≡ Closing.Fault HttpFault.Ended)
        × (requests.new ≡ requests.old) × (service.new ≡ service.old) × (writer.new ≡ writer.old) }
    ensures writes { CallCounts (result ≡ Closing.Broken) W.fault_count W.failure_count
        writer.old writer.new }
    ensures reads { CallCounts (result ≡ Closing.Fault HttpFault.IoFault) (faults_of R.fault_count)
        (failures_of R.failure_count) requests.old requests.new }
{
    for _ in 0..u64::MAX {
        if let Some(closing) = serve_one(alloc, requests, writer, service) {
            return closing;
        }
    }
    Closing::Exhausted
}
