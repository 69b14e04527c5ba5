//! Bodies that are always the same.

ghost use Rattle.std.specs.Prelude.{◌≡◌};
ghost use Rattle.hub_replies.specs.Bodies.{welcome_body, ok_body, commit_body};

/// The hub's welcome, with its version (CouchDB API reference, `GET /`). It costs nothing.
pub fn welcome_body() -> &'static [u8]
    ensures { result.now ≡ welcome_body }
{
    b"{\"couchdb\":\"Welcome\",\"version\":\"3.0.0\"}\n"
}

/// The reply to a request that was done and asked for no data (CouchDB API reference, `PUT /{db}`,
/// `DELETE /{db}`). It costs nothing.
pub fn ok_body() -> &'static [u8]
    ensures { result.now ≡ ok_body }
{
    b"{\"ok\":true}\n"
}

/// The reply to a writer who wants earlier writes to be kept (CouchDB API reference,
/// `POST /{db}/_ensure_full_commit`). It costs nothing.
pub fn commit_body() -> &'static [u8]
    ensures { result.now ≡ commit_body }
{
    b"{\"instance_start_time\":\"0\",\"ok\":true}\n"
}
