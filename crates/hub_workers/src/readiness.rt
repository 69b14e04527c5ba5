//! The readiness of sockets.

ghost use Rattle.std.specs.Prelude.{◌≡◌, ◌||◌, false};

use mio::event::Event;

/// The readiness of a socket, as the poll told it and no call has refuted it since.
#[derive(Clone, Copy, PartialEq, Eq)]
pub(crate) struct Readiness {
    /// There may be bytes to read, or the end of them.
    pub(crate) read: bool,
    /// There may be room for bytes.
    pub(crate) write: bool,
    /// The client ended its side. This stays so: the end may lie behind bytes that a read gave, and is not
    /// told again.
    pub(crate) read_end: bool,
    /// The client can be reached no more. This stays so.
    pub(crate) hang_up: bool,
}

impl Readiness {
    /// The poll told nothing.
    pub(crate) const NONE: Readiness = Readiness {
        read: false,
        write: false,
        read_end: false,
        hang_up: false,
    };

    /// The readiness that an event tells.
    pub(crate) fn of(event: &Event) -> Readiness {
        Readiness {
            read: event.is_readable() || event.is_read_closed() || event.is_error(),
            write: event.is_writable(),
            read_end: event.is_read_closed(),
            hang_up: event.is_write_closed(),
        }
    }

    /// The readiness that either tells.
    pub(crate) fn or(self, other: Readiness) -> Readiness
        ensures read { result.read ≡ (self.read || other.read) }
        ensures write { result.write ≡ (self.write || other.write) }
        ensures read_end { result.read_end ≡ (self.read_end || other.read_end) }
        ensures hang_up { result.hang_up ≡ (self.hang_up || other.hang_up) }
    {
        Readiness {
            read: self.read || other.read,
            write: self.write || other.write,
            read_end: self.read_end || other.read_end,
            hang_up: self.hang_up || other.hang_up,
        }
    }
}
