//! The events for which connections wait.

use crate::readiness::Readiness;

/// The event for which a connection waits after a turn.
#[derive(Clone, Copy, PartialEq, Eq)]
pub(crate) enum Awaits {
    /// Its next turn: this turn is used up.
    Turn,
    /// Bytes of the client, for its next request.
    Input,
    /// Room in the socket.
    Room,
    /// News of the stream that it sends, or the time at which the stream is due.
    News,
    /// A watch for its stream, whose sequences are of the life of this number.
    Watch(u64),
    /// The end of a client that was sent its last answer.
    Farewell,
    /// No event: the connection has ended.
    Nothing,
}

impl Awaits {
    /// Whether the event has come, by the socket's readiness and by whether there is news.
    pub(crate) fn has_come(self, readiness: Readiness, has_news: bool) -> bool {
        match self {
            Awaits::Input | Awaits::Farewell => readiness.read,
            Awaits::Room => readiness.write || readiness.hang_up,
            Awaits::News => has_news || readiness.hang_up,
            Awaits::Turn | Awaits::Watch(_) | Awaits::Nothing => false,
        }
    }
}
