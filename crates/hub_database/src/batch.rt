//! The result of a batch of writes.

ghost use Rattle.std.specs.Prelude.{◌≡◌};

use hub_document::RevId;
use hub_model::{Fault, Outcome};
use std::alloc::AllocError;
use std::marker::Model;

/// The fault of a call on a database.
#[derive(Clone, Copy, Debug, PartialEq, Eq)]
pub enum DbFault {
    /// A growth was refused.
    NoMemory,
    /// The call is refused.
    Refused(Fault),
}

impl From<AllocError> for DbFault {
    ghost use Rattle.std.specs.Prelude.{◌≡◌};
    ghost use Rattle.hub_database.specs.declared.batch.DbFault.TheVariants.{NoMemory};

    ghost from_gives = { λ _ e. e ≡ NoMemory };

    fn from(_refused: AllocError) -> DbFault {
        DbFault::NoMemory
    }
}

/// The outcome of each document of a batch, in order.
#[derive(Debug, Drop)]
pub struct Replies {
    list: Vec<Outcome<RevId>>,
}

impl Model for Replies {
    ghost use Rattle.std.specs.Prelude.{List};
    ghost use Rattle.hub_model.specs.Revision.{Revision};
    ghost use Rattle.hub_model.specs.declared.outcomes.Outcome.{Outcome};

    ghost Value = { List (Outcome Revision) };

    ghost view = { λ a. a.list.items };
}

impl Replies {
    /// The replies that the vector holds.
    pub fn new(list: Vec<Outcome<RevId>>) -> Replies
        ensures { result ≡ list.items }
    {
        Replies { list }
    }

    /// The replies in order.
    pub fn as_slice(&self) -> &[Outcome<RevId>]
        ensures { result.now ≡ self.now }
    {
        self.list.as_slice()
    }
}

/// The result of a batch of writes.
#[derive(Debug, Drop)]
pub struct Batch {
    /// The outcomes of the documents, from the first on.
    pub replies: Replies,
    /// Whether memory ran out at the document after these: this and the later documents are not stored.
    pub stopped: bool,
}
