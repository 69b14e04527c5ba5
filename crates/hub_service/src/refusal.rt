//! The refusals of calls.

ghost use Rattle.std.specs.Prelude.{◌≡◌, Ok, Err, IfOk, IfErr};
ghost use Rattle.hub_service.specs.Moments.{with_refusal};
ghost use Rattle.hub_service.specs.Refusals.{of_hub_fault, of_note_fault};
ghost use Rattle.hub_service.specs.Refusals.{of_open_fault, of_param_fault};

use hub_database::DbFault;
use hub_databases::HubFault;
use hub_feed::OpenFault;
use hub_http::Refusal;
use hub_params::ParamFault;
use hub_updates::NoteFault;

/// The result of a call on a database, with its fault as a refusal.
pub(crate) fn with_refusal<T>(given: Result<T, DbFault>) -> Result<T, Refusal>
    ensures { result ≡ with_refusal given }
{
    match given {
        Ok(found) => Ok(found),
        Err(DbFault::NoMemory) => Err(Refusal::NoMemory),
        Err(DbFault::Refused(fault)) => Err(Refusal::from(fault)),
    }
}

/// The result of a call on the names of a hub, with its fault as a refusal.
pub(crate) fn with_hub_refusal<T>(given: Result<T, HubFault>) -> Result<T, Refusal>
    ensures ok { IfOk given (λ found. result ≡ Ok found) }
    ensures err { IfErr given (λ fault. result ≡ Err (of_hub_fault fault)) }
{
    match given {
        Ok(found) => Ok(found),
        Err(HubFault::NoMemory) => Err(Refusal::NoMemory),
        Err(HubFault::BadName) => Err(Refusal::BadName),
        Err(HubFault::Exists) => Err(Refusal::Exists),
        Err(HubFault::Absent) => Err(Refusal::Absent),
        Err(HubFault::TooMany) => Err(Refusal::TooMany),
        Err(HubFault::SequenceFull) => Err(Refusal::SequenceFull),
    }
}

/// The refusal of a write whose notice lapsed.
pub(crate) fn unnoted(fault: NoteFault) -> Refusal
    ensures { result ≡ of_note_fault fault }
{
    match fault {
        NoteFault::NoMemory => Refusal::NoMemory,
        NoteFault::SequenceFull => Refusal::SequenceFull,
    }
}

/// The refusal of a feed's parameters that can't be read.
pub(crate) fn unread(fault: ParamFault) -> Refusal
    ensures { result ≡ of_param_fault fault }
{
    match fault {
        ParamFault::NoMemory => Refusal::NoMemory,
        ParamFault::BadSince => Refusal::BadSince,
        ParamFault::BadLimit => Refusal::BadLimit,
        ParamFault::BadStyle => Refusal::BadStyle,
        ParamFault::BadFeed => Refusal::BadFeed,
        ParamFault::BadFilter => Refusal::BadFilter,
        ParamFault::BadDocIds => Refusal::BadDocIds,
        ParamFault::BadHeartbeat => Refusal::BadHeartbeat,
        ParamFault::DescendingMode => Refusal::DescendingMode,
        ParamFault::BadFlag => Refusal::BadFlag,
    }
}

/// The refusal of a feed that was not opened.
pub(crate) fn unopened(fault: OpenFault) -> Refusal
    ensures { result ≡ of_open_fault fault }
{
    match fault {
        OpenFault::NoMemory => Refusal::NoMemory,
        OpenFault::Deleted => Refusal::Deleted,
        OpenFault::TooManyFeeds => Refusal::TooManyFeeds,
    }
}
