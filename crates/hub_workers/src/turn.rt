//! The turns of connections.

use crate::awaits::Awaits;
use crate::conn::Conn;
use hub_session::Service;
use hub_shared::Watchable;

/// A turn of a connection. A runner has it for as long as the turn goes on, and nobody else has it meanwhile.
#[derive(Drop)]
pub(crate) struct Turn<S: Service> {
    /// The number of the turn at its seat, by which its runner ends it.
    pub(crate) number: u64,
    /// The token of the connection.
    pub(crate) token: usize,
    pub(crate) conn: Box<Conn<S>>,
    /// The event for which the connection waits: before the turn, and then after it.
    pub(crate) awaits: Awaits,
    /// Whether the connection waited too long for its client.
    pub(crate) is_late: bool,
}

impl<S: Service + Watchable + Drop> Turn<S> {
    /// Goes on with the connection, or gives it up where it is late. Each read of the turn fills `room`.
    pub(crate) fn run(&mut self, room: &mut [u8]) {
        self.awaits = if self.is_late {
            self.conn.give_up()
        } else {
            self.conn.go_on(room)
        };
    }
}
