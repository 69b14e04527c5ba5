//! How much a connection may do in one turn.

ghost use Rattle.std.specs.Prelude.{◌≡◌, ◌-◌, ◌⊎◌, ◌↔◌, IsTrue};

/// How many calls a turn may make on its socket.
const CALLS: u32 = 128;

/// How many bytes these calls may move.
const BYTES: usize = 1_048_576;

/// The rest of a turn: how many calls it may still make, and how many bytes these may move.
#[derive(Clone, Copy)]
pub(crate) struct Budget {
    calls: u32,
    bytes: usize,
}

impl Budget {
    /// The budget of a whole turn.
    pub(crate) fn whole() -> Budget {
        Budget {
            calls: CALLS,
            bytes: BYTES,
        }
    }

    /// Counts a call that moved so many bytes.
    pub(crate) fn spend(&mut self, bytes: usize)
        ensures calls { self.new.calls ≡ self.old.calls - 1 }
        ensures bytes { self.new.bytes ≡ self.old.bytes - bytes }
    {
        self.calls = self.calls.saturating_sub(1);
        self.bytes = self.bytes.saturating_sub(bytes);
    }

    /// Whether the turn is used up.
    pub(crate) fn is_spent(self) -> bool
        ensures { IsTrue result ↔ ((self.calls ≡ 0) ⊎ (self.bytes ≡ 0)) }
    {
        self.calls == 0 || self.bytes == 0
    }
}
