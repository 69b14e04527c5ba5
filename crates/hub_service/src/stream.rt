//! The hub over a reader and a writer.

ghost use Rattle.std.specs.Prelude.{◌≡◌, Err, IfOk, IfSome, None, OnErr, Ok, Option};
ghost use Rattle.hub_http.specs.Counts.{CallCounts};
ghost use Rattle.hub_http.specs.Words.{HasEnded, IsOpen, failures_of, faults_of, to_come};
ghost use Rattle.hub_http.specs.declared.fault.HttpFault.{HttpFault};
ghost use Rattle.hub_session.specs.Rules.{moment};
ghost use Rattle.hub_session.specs.Sessions.{IsSession};
ghost use Rattle.hub_service.specs.Laws.{connection_rules};
ghost use Rattle.hub_service.specs.declared.sent.Sent.{Sent};

use crate::connection::Connection;
use crate::pumping::ByTurns;
use crate::rooms::JsonRooms;
use hub_databases::Hub;
use hub_document::Limits;
use hub_http::{Input, Output, Requests};
use hub_routes::Routes;
use hub_session::{Closing, serve};
use std::alloc::{AllocError, Global};
use std::sync::Wait;

/// Answers requests, one after the other, by a hub without databases, up to the first closing, and says why
/// the session closed. An error says that the hub found no memory to begin with: nothing was read or
/// written.
pub fn answer_stream<N: Wait, R: Input, W: Output>(
    rt: &N,
    alloc: Global,
    requests: &mut Requests<R>,
    writer: &mut W,
    limits: Limits,
) -> Result<Closing, AllocError>
    ensures session { IsOpen requests.old → IfOk result (λ closing.
        IfSome (to_come R.left requests.old) (λ bytes. (last : Option Sent)
        × IsSession connection_rules bytes closing (moment None (W.written writer.old))
        (moment last (W.written writer.new)))) }
    ensures ended { HasEnded requests.old → IfOk result (λ closing. (closing ≡ Closing.Fault HttpFault.Ended)
        × (requests.new ≡ requests.old) × (writer.new ≡ writer.old)) }
    ensures writes { CallCounts (result ≡ Ok Closing.Broken) W.fault_count W.failure_count
        writer.old writer.new }
    ensures reads { CallCounts (result ≡ Ok (Closing.Fault HttpFault.IoFault)) (faults_of R.fault_count)
        (failures_of R.failure_count) requests.old requests.new }
    ensures err { OnErr result ((writer.new ≡ writer.old) × (requests.new ≡ requests.old)) }
{
    let hub = Hub::new(alloc, limits)?;
    let routes = Routes::new(alloc)?;
    let rooms = JsonRooms::new(alloc);
    let mut connection = Connection::new(rt, alloc, &hub, &routes, &rooms, ByTurns::new(rt));
    Ok(serve(alloc, requests, writer, &mut connection))
}
