//! How much a hub holds and reads.

ghost use Rattle.hub_document.specs.Limited.{IsLimited};

/// The limits of a hub. Tests lower them. No limit is 0, or above its number in `Limits::full`.
#[derive(Clone, Copy, Debug, PartialEq, Eq)]
pub struct Limits {
    /// The bytes of a request's body: 8,388,608. `hub_http` has this number of its own, and no code reads the
    /// member.
    pub body: u64,
    /// The bytes of a request's head: 16,384. No code reads the member, as with `body`.
    pub head: u64,
    /// The header fields of a request: 64. No code reads the member, as with `body`.
    pub headers: u64,
    /// The databases of a hub: 256. Read where a database is made (`hub_databases`).
    pub databases: u64,
    /// The feeds of a database or of the log of updates that are not finished: 1,024. Read where a feed is
    /// opened (`refusal` of `hub_database` and `hub_updates`).
    pub feeds: u64,
    /// The items of a feed that wait for room in its lane: 64. Read where a feed is opened and where it is
    /// handed, to reserve memory for these items (`hub_shared`).
    pub lane: u64,
    /// The items that a feed is handed in one holding of the lock: 64. Read where a feed is handed
    /// (`hub_shared`).
    pub hold: u64,
    /// The edits of a database, or the notes of the log of updates: 4,294,967,295. Read where an edit or a
    /// note is stored (`DbState::write_edits`, `write_one`, `UpdatesState::note`).
    pub journal: u64,
    /// The entries of a replication log's history: 50. `hub_follower` has this number of its own.
    pub history: u64,
    ghost limited: { IsLimited body head headers databases feeds lane hold journal history },
}

impl Limits {
    ghost use Rattle.hub_document.specs.Profile.{IsProfile};

    /// The limits of a hub that serves.
    pub fn full() -> Limits
        ensures { IsProfile result }
    {
        Limits {
            body: 8_388_608,
            head: 16_384,
            headers: 64,
            databases: 256,
            feeds: 1_024,
            lane: 64,
            hold: 64,
            journal: 4_294_967_295,
            history: 50,
        }
    }
}
