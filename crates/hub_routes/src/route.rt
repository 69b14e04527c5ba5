//! The routes of requests, as values.

use std::borrow::CowStr;

/// The call that a request asks for.
#[derive(Clone, Copy, Debug, PartialEq, Eq)]
pub enum Call {
    /// `GET /`
    Welcome,
    /// `GET /_all_dbs`
    AllDbs,
    /// `GET /_db_updates`
    DbUpdates,
    /// `GET /{db}`, `HEAD /{db}`
    Info,
    /// `PUT /{db}`
    PutDatabase,
    /// `DELETE /{db}`
    DeleteDatabase,
    /// `POST /{db}/_bulk_docs`
    BulkDocs,
    /// `GET /{db}/_changes`, `POST /{db}/_changes`
    Changes,
    /// `POST /{db}/_revs_diff`
    RevsDiff,
    /// `POST /{db}/_ensure_full_commit`
    FullCommit,
    /// `GET /{db}/{id}`, `GET /{db}/_design/{name}`
    GetDocument,
    /// `PUT /{db}/{id}`, `PUT /{db}/_design/{name}`
    PutDocument,
    /// `DELETE /{db}/{id}`, `DELETE /{db}/_design/{name}`
    DeleteDocument,
    /// `GET /{db}/_local/{name}`
    GetLocal,
    /// `PUT /{db}/_local/{name}`
    PutLocal,
}

/// The route of a request: a call, with the parts that the request lends to it. The name and the id are parts
/// of the path with their escapes read, and are still to be looked up. An id may have any length. The name or
/// the id is a text of its own only where an escape was read in it.
#[derive(Drop)]
pub struct Route<'r> {
    /// The call that is asked for.
    pub call: Call,
    /// The name of the database: the first part of the path.
    pub db: CowStr<'r>,
    /// The document's id, with `_design/` or `_local/` where the id has that. It is empty where the call asks
    /// for no document.
    pub id: CowStr<'r>,
    /// The bytes behind the first `?` of the target, as they were sent; empty where there is no `?`.
    pub query: &'r [u8],
}
