//! The calls of methods and paths (CouchDB API reference, the methods of each path).

ghost use Rattle.std.specs.Prelude.{◌≡◌, bytes_eq};
ghost use Rattle.hub_routes.specs.Methods.{method_of, asked_of, has_document, takes_id, takes_body};

use crate::kind::Kind;
use crate::path::is_id;
use crate::route::Call;

/// A request's method.
#[derive(Clone, Copy)]
pub enum Method {
    /// `GET`
    Get,
    /// `HEAD`
    Head,
    /// `PUT`
    Put,
    /// `POST`
    Post,
    /// `DELETE`
    Delete,
    /// Any other method, also one of these in small letters.
    Other,
}

fn is(method: &[u8], word: &str) -> bool
    ensures { result ≡ bytes_eq method.now word.now }
{
    method == word.as_bytes()
}

/// The method of this name (RFC 9110, section 9.1: names of methods differ by case).
#[tactic(auto, unfolding(crate::specs::Methods::method_of))]
pub fn method_of(name: &[u8]) -> Method
    ensures { result ≡ method_of name.now }
{
    if is(name, "GET") {
        Method::Get
    } else if is(name, "HEAD") {
        Method::Head
    } else if is(name, "PUT") {
        Method::Put
    } else if is(name, "POST") {
        Method::Post
    } else if is(name, "DELETE") {
        Method::Delete
    } else {
        Method::Other
    }
}

/// The call of a method on a path of this kind; `None` where the path does not take the method.
#[tactic(auto, unfolding(crate::specs::Methods::asked_of))]
pub fn asked_of(kind: Kind, method: Method) -> Option<Call>
    ensures { result ≡ asked_of kind method }
{
    match (kind, method) {
        (Kind::Welcome, Method::Get) => Some(Call::Welcome),
        (Kind::AllDbs, Method::Get) => Some(Call::AllDbs),
        (Kind::DbUpdates, Method::Get) => Some(Call::DbUpdates),
        (Kind::Database, Method::Get | Method::Head) => Some(Call::Info),
        (Kind::Database, Method::Put) => Some(Call::PutDatabase),
        (Kind::Database, Method::Delete) => Some(Call::DeleteDatabase),
        (Kind::BulkDocs, Method::Post) => Some(Call::BulkDocs),
        (Kind::Changes, Method::Get | Method::Post) => Some(Call::Changes),
        (Kind::RevsDiff, Method::Post) => Some(Call::RevsDiff),
        (Kind::FullCommit, Method::Post) => Some(Call::FullCommit),
        (Kind::Document, Method::Get) => Some(Call::GetDocument),
        (Kind::Document, Method::Put) => Some(Call::PutDocument),
        (Kind::Document, Method::Delete) => Some(Call::DeleteDocument),
        (Kind::Local, Method::Get) => Some(Call::GetLocal),
        (Kind::Local, Method::Put) => Some(Call::PutLocal),
        _ => None,
    }
}

/// Whether a path of this kind names one document.
pub fn has_document(kind: Kind) -> bool
    ensures { result ≡ has_document kind }
{
    matches!(kind, Kind::Document | Kind::Local)
}

/// Whether a document of this kind may have this id. Every kind but `Document` takes any id.
pub fn takes_id(kind: Kind, id: &[u8]) -> bool
    ensures { result ≡ takes_id kind id.now }
{
    kind != Kind::Document || is_id(id)
}

/// Whether a request for a path of this kind needs a `Content-Length`.
pub fn takes_body(kind: Kind) -> bool
    ensures { result ≡ takes_body kind }
{
    matches!(kind, Kind::BulkDocs | Kind::RevsDiff)
}
