//! The kinds of paths (CouchDB API reference, the paths of the server, databases and documents).

ghost use Rattle.std.specs.Prelude.{◌≡◌, IfOk, OnOk};
ghost use Rattle.hub_routes.specs.Table.{with_route, table};
ghost use Rattle.hub_routes.specs.Paths.{kind_by_id};

use crate::path::is_local;
use matchit::Router;
use std::alloc::{AllocError, Global};

/// The kind of a path, by the thing that it names.
#[derive(Clone, Copy, PartialEq, Eq)]
pub enum Kind {
    /// The hub.
    Welcome,
    /// The list of databases.
    AllDbs,
    /// The feed of updates of databases.
    DbUpdates,
    /// A database.
    Database,
    /// The place where a batch of documents is stored.
    BulkDocs,
    /// The feed of changes.
    Changes,
    /// The place where missing revisions are asked for.
    RevsDiff,
    /// The place where a commit is asked for.
    FullCommit,
    /// A document, or a design document.
    Document,
    /// A local document.
    Local,
}

// The routes that the hub serves, in the order in which they are added.
const ROUTES: [(&str, Kind); 12] = [
    ("/", Kind::Welcome),
    ("/_all_dbs", Kind::AllDbs),
    ("/_db_updates", Kind::DbUpdates),
    ("/{db}", Kind::Database),
    ("/{db}/", Kind::Database),
    ("/{db}/_bulk_docs", Kind::BulkDocs),
    ("/{db}/_changes", Kind::Changes),
    ("/{db}/_revs_diff", Kind::RevsDiff),
    ("/{db}/_ensure_full_commit", Kind::FullCommit),
    ("/{db}/{id}", Kind::Document),
    ("/{db}/_design/{name}", Kind::Document),
    ("/{db}/_local/{name}", Kind::Local),
];

// Adds a route. Each route reads well and no two of them conflict, so the only error is out of memory.
fn add(router: &mut Router<Kind>, route: &str, kind: Kind) -> Result<(), AllocError>
    ensures { OnOk result (router.new ≡ with_route route.now kind router.old) }
{
    match router.insert(route, kind) {
        Ok(()) => Ok(()),
        Err(_) => Err(AllocError),
    }
}

// Builds the table. The paths of the hub stand beside those of databases, so that none of them is taken for
// the name of a database.
pub fn table(alloc: Global) -> Result<Router<Kind>, AllocError>
    ensures { IfOk result (λ r. r ≡ table) }
{
    let mut router = Router::new(alloc);
    for (route, kind) in ROUTES {
        add(&mut router, route, kind)?;
    }
    Ok(router)
}

/// The kind of a path whose decoded id has these bytes: a local document is found by an escaped slash too.
pub fn refined(kind: Kind, id: &[u8]) -> Kind
    ensures { result ≡ kind_by_id kind id.now }
{
    match kind {
        Kind::Document if is_local(id) => Kind::Local,
        _ => kind,
    }
}
