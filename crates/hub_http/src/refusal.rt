//! The refusals that have a reply.
ghost use Rattle.std.specs.Prelude.{◌≡◌};
ghost use Rattle.hub_http.specs.Refusals.{status_of, error_of, reason_of};

use crate::status::StatusCode;
use hub_document::DocFault;
use hub_model::Fault;
use std::alloc::AllocError;

/// Why a request was refused (CouchDB API reference, HTTP status codes).
#[derive(Clone, Copy, Debug, PartialEq, Eq)]
pub enum Refusal {
    /// No memory was found.
    NoMemory,
    /// The text is not JSON.
    NotJson,
    /// The value is no object.
    NotObject,
    /// A number is no whole number from -2^63 to 2^64 - 1.
    BadNumber,
    /// A document's id is absent or no id.
    BadId,
    /// A revision is absent or no revision.
    BadRev,
    /// `_revisions` is no history, or `_rev` is not its first revision.
    BadRevisions,
    /// A member that begins with `_` is unknown or has no fitting value.
    BadMember,
    /// The id is longer than 512 bytes.
    TooLong,
    /// The history gives a known revision another parent.
    Contradicts,
    /// The named leaf has the last generation.
    GenerationLimit,
    /// No leaf is named or chosen, or the made revision is there already.
    Conflict,
    /// `since` is neither a sequence nor `now`.
    BadSince,
    /// `limit` is no number.
    BadLimit,
    /// `style` is unknown.
    BadStyle,
    /// `feed` is unknown.
    BadFeed,
    /// `filter` is unknown.
    BadFilter,
    /// `doc_ids` is no list of texts.
    BadDocIds,
    /// `heartbeat` or `timeout` is no number.
    BadHeartbeat,
    /// `descending` is asked of a feed that does not end at once.
    DescendingMode,
    /// `descending` or `include_docs` is no truth value.
    BadFlag,
    /// The database has as many feeds as it may have.
    TooManyFeeds,
    /// The journal is at its limit.
    SequenceFull,
    /// The database was deleted.
    Deleted,
    /// The name is no name of a database.
    BadName,
    /// The database is there already.
    Exists,
    /// There is no such database.
    Absent,
    /// There are as many databases as there may be.
    TooMany,
    /// The request's head is malformed.
    BadHead,
    /// The head is longer than 16,384 bytes or has more than 64 fields.
    HeadTooLong,
    /// The body is longer than 8 MiB.
    BodyTooLong,
    /// The version is not HTTP/1.1.
    Version,
    /// The body has a transfer coding.
    Coding,
    /// A request with a body has no `Content-Length`.
    LengthMissing,
    /// No route has this path, or no such document is there.
    Missing,
    /// The document was deleted.
    DocDeleted,
    /// The path does not take this method.
    MethodNotAllowed,
}

impl Refusal {
    /// The status of the reply.
    pub fn status(self) -> StatusCode
        ensures { result ≡ status_of self }
    {
        match self {
            Refusal::NoMemory | Refusal::TooManyFeeds | Refusal::SequenceFull | Refusal::TooMany =>
                { StatusCode::SERVICE_UNAVAILABLE }
            Refusal::Deleted | Refusal::Absent | Refusal::Missing | Refusal::DocDeleted => {
                StatusCode::NOT_FOUND
            }
            Refusal::Conflict => StatusCode::CONFLICT,
            Refusal::Exists => StatusCode::PRECONDITION_FAILED,
            Refusal::HeadTooLong => StatusCode::REQUEST_HEADER_FIELDS_TOO_LARGE,
            Refusal::BodyTooLong => StatusCode::PAYLOAD_TOO_LARGE,
            Refusal::Version => StatusCode::HTTP_VERSION_NOT_SUPPORTED,
            Refusal::Coding => StatusCode::NOT_IMPLEMENTED,
            Refusal::LengthMissing => StatusCode::LENGTH_REQUIRED,
            Refusal::MethodNotAllowed => StatusCode::METHOD_NOT_ALLOWED,
            _ => StatusCode::BAD_REQUEST,
        }
    }

    /// The member `error` of the reply.
    pub fn error(self) -> &'static str
        ensures { result.now ≡ error_of self }
    {
        match self {
            Refusal::NoMemory => "out_of_memory",
            Refusal::Conflict => "conflict",
            Refusal::TooManyFeeds => "too_many_feeds",
            Refusal::SequenceFull => "sequence_full",
            Refusal::Deleted | Refusal::Absent | Refusal::Missing | Refusal::DocDeleted => {
                "not_found"
            }
            Refusal::BadName => "illegal_database_name",
            Refusal::Exists => "file_exists",
            Refusal::TooMany => "too_many_databases",
            Refusal::HeadTooLong => "head_too_long",
            Refusal::BodyTooLong => "too_large",
            Refusal::Version => "http_version",
            Refusal::Coding => "not_implemented",
            Refusal::LengthMissing => "length_required",
            Refusal::MethodNotAllowed => "method_not_allowed",
            _ => "bad_request",
        }
    }

    /// The member `reason` of the reply.
    pub fn reason(self) -> &'static str
        ensures { result.now ≡ reason_of self }
    {
        match self {
            Refusal::NoMemory => "out of memory",
            Refusal::NotJson => "not JSON",
            Refusal::NotObject => "not an object",
            Refusal::BadNumber => "number out of profile",
            Refusal::BadId => "bad id",
            Refusal::BadRev => "bad rev",
            Refusal::BadRevisions => "bad _revisions",
            Refusal::BadMember => "bad member",
            Refusal::TooLong => "id too long",
            Refusal::Contradicts => "contradicting history",
            Refusal::GenerationLimit => "generation limit",
            Refusal::Conflict => "Document update conflict.",
            Refusal::BadSince => "bad since",
            Refusal::BadLimit => "bad limit",
            Refusal::BadStyle => "bad style",
            Refusal::BadFeed => "bad feed",
            Refusal::BadFilter => "bad filter",
            Refusal::BadDocIds => "bad doc_ids",
            Refusal::BadHeartbeat => "bad heartbeat",
            Refusal::DescendingMode => "descending needs feed=normal",
            Refusal::BadFlag => "bad flag",
            Refusal::TooManyFeeds => "too many feeds",
            Refusal::SequenceFull => "sequence full",
            Refusal::Deleted | Refusal::Absent => "Database does not exist.",
            Refusal::BadName => "bad name",
            Refusal::Exists => "The database could not be created, the file already exists.",
            Refusal::TooMany => "too many databases",
            Refusal::BadHead => "bad head",
            Refusal::HeadTooLong => "head too long",
            Refusal::BodyTooLong => "body too long",
            Refusal::Version => "HTTP/1.1 only",
            Refusal::Coding => "no transfer coding",
            Refusal::LengthMissing => "no Content-Length",
            Refusal::Missing => "missing",
            Refusal::DocDeleted => "deleted",
            Refusal::MethodNotAllowed => "method not allowed",
        }
    }
}

impl From<AllocError> for Refusal {
    ghost use Rattle.std.specs.Prelude.{◌≡◌};
    ghost use Rattle.hub_http.specs.declared.refusal.Refusal.TheVariants.{NoMemory};

    ghost from_gives = { λ _ r. r ≡ NoMemory };

    fn from(_refused: AllocError) -> Refusal {
        Refusal::NoMemory
    }
}

impl From<DocFault> for Refusal {
    ghost use Rattle.std.specs.Prelude.{◌≡◌};
    ghost use Rattle.hub_http.specs.Refusals.{of_doc_fault};

    ghost from_gives = { λ f r. r ≡ of_doc_fault f };

    fn from(fault: DocFault) -> Refusal {
        match fault {
            DocFault::NoMemory => Refusal::NoMemory,
            DocFault::NotJson => Refusal::NotJson,
            DocFault::NotObject => Refusal::NotObject,
            DocFault::BadNumber => Refusal::BadNumber,
            DocFault::BadId => Refusal::BadId,
            DocFault::BadRev => Refusal::BadRev,
            DocFault::BadRevisions => Refusal::BadRevisions,
            DocFault::BadMember => Refusal::BadMember,
            DocFault::TooLong => Refusal::TooLong,
        }
    }
}

impl From<Fault> for Refusal {
    ghost use Rattle.std.specs.Prelude.{◌≡◌};
    ghost use Rattle.hub_http.specs.Refusals.{of_fault};

    ghost from_gives = { λ f r. r ≡ of_fault f };

    fn from(fault: Fault) -> Refusal {
        match fault {
            Fault::Deleted => Refusal::Deleted,
            Fault::Contradicts => Refusal::Contradicts,
            Fault::Conflict => Refusal::Conflict,
            Fault::GenerationLimit => Refusal::GenerationLimit,
            Fault::SequenceFull => Refusal::SequenceFull,
        }
    }
}
