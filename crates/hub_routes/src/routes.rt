//! The routes of requests (CouchDB API reference, the paths of the server, databases and documents).

ghost use Rattle.std.specs.Prelude.{◌≡◌, ◌⊎◌, [], if◌then◌else◌, IfSome, IfOk, IfErr, OnOk, OnErr};
ghost use Rattle.std.specs.Prelude.{true, option_map};
ghost use Rattle.std.specs.Option.{ForSome};
ghost use Rattle.std.specs.Cow.{cow_str_bytes, cow_slice_items};
ghost use Rattle.std.specs.Str.{IsUtf8};
ghost use Rattle.percent_encoding.specs.Percent.{percent_decode};
ghost use Rattle.hub_http.specs.Stream.{asked_by};
ghost use Rattle.hub_routes.specs.Table.{table, kind_at};
ghost use Rattle.hub_routes.specs.Paths.{path_of, query_of, id_part, id_of, kind_of, HasPercent};
ghost use Rattle.hub_routes.specs.Paths.{HasOtherBytes, NeedsRoomForKind, ascii_path};
ghost use Rattle.hub_routes.specs.Methods.{has_document};
ghost use Rattle.hub_routes.specs.Routes.{IsGoodId, IsBadId, GoesTo};

use crate::kind::{Kind, refined, table};
use crate::method::{asked_of, has_document, method_of, takes_body, takes_id};
use crate::path::{cut, decoded, parts, text_of};
use crate::route::Route;
use hub_http::{Refusal, Request};
use matchit::Router;
use percent_encoding::{AsciiSet, percent_encode};
use std::alloc::{AllocError, Global};
use std::borrow::{CowSlice, CowStr};

// The kind of a path, and its id where that was decoded to tell the kind.
#[derive(Drop)]
struct Named<'p> {
    kind: Kind,
    id: Option<CowSlice<'p, u8>>,
}

// The path of a request, and its query.
fn target_of(request: &Request) -> (&[u8], &[u8])
    ensures path { result.0.now ≡ path_of (asked_by request.now).target }
    ensures query { result.1.now ≡ query_of (asked_by request.now).target }
{
    cut(request.target.as_slice(), b'?')
}

// The id of the document that a path of this kind names. It is empty where the path names none, and `BadId`
// where no such document may have it. An id in `read` is decoded already, and is not decoded again.
fn document_id<'p>(
    alloc: Global,
    kind: Kind,
    part: &'p [u8],
    read: Option<CowSlice<'p, u8>>,
) -> Result<CowStr<'p>, Refusal>
    requires { ForSome read (λ id. cow_slice_items id ≡ percent_decode part.now) }
    ensures value { IfOk result
        (λ s. cow_str_bytes s ≡ (if has_document kind then percent_decode part.now else [])) }
    ensures good { OnOk result (IsGoodId kind (percent_decode part.now)) }
    ensures none { IfErr result (λ e.
        ((e ≡ Refusal.NoMemory) × (has_document kind ≡ true) × HasPercent part.now)
        ⊎ ((e ≡ Refusal.BadId) × IsBadId kind (percent_decode part.now))) }
{
    if !has_document(kind) {
        return Ok(CowStr::Borrowed(""));
    }
    let bytes = match read {
        Some(id) => id,
        None => decoded(alloc, part)?,
    };
    match text_of(bytes) {
        Some(id) if takes_id(kind, id.as_str().as_bytes()) => Ok(id),
        _ => Err(Refusal::BadId),
    }
}

// The name of the database that this part of a path names.
fn database_name<'p>(alloc: Global, name: &'p [u8]) -> Result<CowStr<'p>, Refusal>
    ensures value { IfOk result (λ s. cow_str_bytes s ≡ percent_decode name.now) }
    ensures text { OnOk result (IsUtf8 (percent_decode name.now)) }
    ensures none { IfErr result (λ e. ((e ≡ Refusal.NoMemory) × HasPercent name.now)
        ⊎ ((e ≡ Refusal.BadName) × (¬ IsUtf8 (percent_decode name.now)))) }
{
    let Some(db) = text_of(decoded(alloc, name)?) else {
        return Err(Refusal::BadName);
    };
    Ok(db)
}

/// The table of routes. One table serves every session.
#[derive(Drop)]
pub struct Routes {
    router: Router<Kind>,
    ghost built: { router ≡ table },
}

impl Routes {
    /// Builds the table. It allocates a few dozen times: build one, and keep it.
    pub fn new(alloc: Global) -> Result<Routes, AllocError> {
        let router = table(alloc)?;
        Ok(Routes { router })
    }

    fn kind_at(&self, path: &str) -> Option<Kind>
        ensures { result ≡ kind_at path.now }
    {
        let found = self.router.at(path).ok()?;
        Some(*found.value)
    }

    // The kind of a path by the table. The path's bytes outside ASCII are escaped for the look.
    #[tactic(auto, unfolding(crate::specs::Paths::ascii_path))]
    fn kind_by_table(&self, alloc: Global, path: &[u8]) -> Result<Option<Kind>, AllocError>
        ensures kind { IfOk result (λ kind. kind ≡ kind_at (ascii_path path.now)) }
        ensures memory { OnErr result (HasOtherBytes path.now) }
    {
        let text = percent_encode(path, AsciiSet::EMPTY).into_cow(alloc)?;
        Ok(self.kind_at(text.as_str()))
    }

    // The kind of a path whose id is `part`. The id is decoded only where it may be a local document's.
    fn named<'p>(
        &self,
        alloc: Global,
        path: &'p [u8],
        part: &'p [u8],
    ) -> Result<Option<Named<'p>>, AllocError>
        requires { part.now ≡ id_part path.now }
        ensures kind { IfOk result (λ n. option_map (λ n. n.kind) n ≡ kind_of path.now) }
        ensures id { IfOk result
            (λ n. IfSome n (λ n. IfSome n.id (λ id. cow_slice_items id ≡ id_of path.now))) }
        ensures memory { OnErr result (NeedsRoomForKind path.now) }
    {
        match self.kind_by_table(alloc, path)? {
            Some(Kind::Document) => {
                let id = decoded(alloc, part)?;
                Ok(Some(Named {
                    kind: refined(Kind::Document, id.as_slice()),
                    id: Some(id),
                }))
            }
            Some(kind) => Ok(Some(Named { kind, id: None })),
            None => Ok(None),
        }
    }

    /// The route of a request. The first of these refuses the request: no such path; a method that the
    /// path does not take; a name that is no text; a missing length; an id that is no text or that no
    /// document may have. The cost is the target's length, and nothing is copied. Memory is taken once for a
    /// name with an escape, once for an id with an escape, and for a path with bytes outside ASCII.
    pub fn route<'r>(&self, alloc: Global, request: &'r Request) -> Result<Route<'r>, Refusal>
        ensures { GoesTo (asked_by request.now) result }
    {
        let (path, query) = target_of(request);
        let (name, part) = parts(path);
        let Some(Named { kind, id: read }) = self.named(alloc, path, part)? else {
            return Err(Refusal::Missing);
        };
        let Some(call) = asked_of(kind, method_of(request.method.as_slice())) else {
            return Err(Refusal::MethodNotAllowed);
        };
        let db = database_name(alloc, name)?;
        if takes_body(kind) && !request.has_length {
            return Err(Refusal::LengthMissing);
        }
        let id = document_id(alloc, kind, part, read)?;
        Ok(Route {
            call,
            db,
            id,
            query,
        })
    }
}
