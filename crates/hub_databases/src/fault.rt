//! The faults of calls on a hub's names.

use hub_updates::NoteFault;
use std::alloc::AllocError;

/// The fault of a call on a hub's names. A call answers the first fault that holds, in the order from
/// `BadName` on. `NoMemory` may come in the place of any fault after `BadName`.
#[derive(Clone, Copy, Debug, PartialEq, Eq)]
pub enum HubFault {
    /// A growth was refused.
    NoMemory,
    /// The text is no name of a database.
    BadName,
    /// There is a database of this name.
    Exists,
    /// There is no database of this name.
    Absent,
    /// There are as many databases as there may be.
    TooMany,
    /// The log of updates has as many notes as it may have.
    SequenceFull,
}

impl From<AllocError> for HubFault {
    ghost use Rattle.std.specs.Prelude.{◌≡◌};
    ghost use Rattle.hub_databases.specs.declared.fault.HubFault.TheVariants.{NoMemory};

    ghost from_gives = { λ _ e. e ≡ NoMemory };

    fn from(_refused: AllocError) -> HubFault {
        HubFault::NoMemory
    }
}

impl From<NoteFault> for HubFault {
    ghost use Rattle.hub_databases.specs.Faults.{IsFaultOf};

    ghost from_gives = { IsFaultOf };

    fn from(fault: NoteFault) -> HubFault {
        match fault {
            NoteFault::NoMemory => HubFault::NoMemory,
            NoteFault::SequenceFull => HubFault::SequenceFull,
        }
    }
}
