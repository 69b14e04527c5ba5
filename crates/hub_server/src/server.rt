//! The server.

use crate::services::HubServices;
use hub_databases::Hub;
use hub_document::Limits;
use hub_routes::Routes;
use hub_service::JsonRooms;
use hub_shared::{Clock, Gate};
use hub_workers::serve_all;
use std::alloc::Global;
use std::net::{Net, TcpListener};
use std::sync::Wait;
use std::thread::Threads;
use std::{array, io};

/// Serves so many connections of a hub without databases, by a worker a processor and at least two, and comes
/// back once all have ended. Connections are numbered from 1 as they are accepted; each passes
/// `Point::Request` of its number at the gate before each answer. Workers get connections in turn, and a
/// connection has no thread of its own. A connection may hold its worker's thread at a gate, at a lock or by
/// a long request: after some milliseconds another thread goes on with the worker's others. A connection for
/// which there is no memory is closed unanswered. A connection is closed too whose next request is not whole
/// within ten minutes after the last answer, or whose client takes no byte of an answer for ten minutes. An
/// error says that there was no memory, thread or descriptor to begin with, or that no connection could be
/// accepted while none was open. Where no connection can be accepted beside the open ones, the next
/// connection waits until one of these has ended.
pub fn run_server<R, G, K>(
    rt: &R,
    alloc: Global,
    listener: &TcpListener,
    count: u64,
    gate: G,
    clock: K,
    limits: Limits,
) -> io::Result<()>
where
    R: Threads + Wait + Net + Copy + Send + Sync + Drop + 'static,
    G: Gate + Send + Sync + Drop + 'static,
    K: Clock + Send + Sync + Drop + 'static,
{
    let hub = Hub::new(alloc, limits)?;
    let routes = Routes::new(alloc)?;
    let rooms = array::from_fn(|_| JsonRooms::new(alloc));
    let services = HubServices {
        rt,
        alloc,
        hub: &hub,
        routes: &routes,
        rooms: &rooms,
        gate: &gate,
        clock: &clock,
    };
    serve_all(rt, alloc, listener, count, &clock, &services)
}
