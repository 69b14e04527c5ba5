//! The services of a server's connections.

use crate::pumping::ByWorkers;
use hub_databases::Hub;
use hub_routes::Routes;
use hub_service::{Connection, JsonRooms};
use hub_shared::{Clock, Gate};
use hub_workers::MakeService;
use std::alloc::Global;
use std::sync::Wait;

/// How many sets of rooms there are. Where the number of workers divides this number, each set is of one
/// worker's connections, and no worker reads with a room that lies in another processor's cache.
pub(crate) const SETS: usize = 16;

/// The values that the connections to a hub share. It makes the services of these connections.
#[derive(Drop)]
pub(crate) struct HubServices<'h, R, G, K> {
    pub(crate) rt: &'h R,
    pub(crate) alloc: Global,
    pub(crate) hub: &'h Hub,
    pub(crate) routes: &'h Routes,
    /// The rooms for bodies. A connection has the set of its number.
    pub(crate) rooms: &'h [JsonRooms; SETS],
    pub(crate) gate: &'h G,
    pub(crate) clock: &'h K,
}

// The set of rooms of the connection of this number.
fn set_of(rooms: &[JsonRooms; SETS], number: u64) -> &JsonRooms {
    let sets = rooms.as_slice();
    &sets[(number % SETS as u64) as usize]
}

impl<'h, R, G, K> MakeService<Connection<'h, R, ByWorkers<'h, R, G, K>>>
    for HubServices<'h, R, G, K>
where
    R: Wait,
    G: Gate,
    K: Clock,
{
    fn make(&self, number: u64) -> Connection<'h, R, ByWorkers<'h, R, G, K>> {
        let pumping = ByWorkers::new(self.rt, self.gate, self.clock, number);
        Connection::new(
            self.rt,
            self.alloc,
            self.hub,
            self.routes,
            set_of(self.rooms, number),
            pumping,
        )
    }
}
