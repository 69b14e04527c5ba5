//! Where requests go: which paths and methods there are, and the texts that a request lends to its route.
//!
//! A request shows its route by its answer. Where no answer shows it, the table of routes itself is asked.

use hub_http::{MethodName, Refusal, Request};
use hub_routes::{Route, Routes};
use hub_transcript::{Answer, Subject, Words, replay};
use std::alloc::{AllocError, Global};
use std::borrow::CowStr;
use std::str;
use std::test::Fail;

/// Requests to the hub itself.
pub(crate) const SERVER: &str = r#"
# of the server: the hub, its list of databases, and its log of updates
> PUT /d
HTTP/1.1 201 Created, JSON of 12:
{"ok":true}\n
> PUT /e
HTTP/1.1 201 Created, JSON of 12:
{"ok":true}\n
> GET /
HTTP/1.1 200 OK, JSON of 40:
{"couchdb":"Welcome","version":"3.0.0"}\n
> GET /?x
HTTP/1.1 200 OK, JSON of 40:
{"couchdb":"Welcome","version":"3.0.0"}\n
> HEAD /
HTTP/1.1 405 Method Not Allowed, JSON of 61:
> PUT /
HTTP/1.1 405 Method Not Allowed, JSON of 61:
{"error":"method_not_allowed","reason":"method not allowed"}\n
> POST / -
HTTP/1.1 405 Method Not Allowed, JSON of 61:
{"error":"method_not_allowed","reason":"method not allowed"}\n
> send get /
HTTP/1.1 405 Method Not Allowed, JSON of 61:
{"error":"method_not_allowed","reason":"method not allowed"}\n
> DELETE /
HTTP/1.1 405 Method Not Allowed, JSON of 61:
{"error":"method_not_allowed","reason":"method not allowed"}\n
> GET /_all_dbs
HTTP/1.1 200 OK, JSON of 10:
["d","e"]\n
> GET /_all_dbs?x=%ff -
HTTP/1.1 200 OK, JSON of 10:
["d","e"]\n
> HEAD /_all_dbs
HTTP/1.1 405 Method Not Allowed, JSON of 61:
> PUT /_all_dbs
HTTP/1.1 405 Method Not Allowed, JSON of 61:
{"error":"method_not_allowed","reason":"method not allowed"}\n
> POST /_all_dbs -
HTTP/1.1 405 Method Not Allowed, JSON of 61:
{"error":"method_not_allowed","reason":"method not allowed"}\n
> DELETE /_all_dbs
HTTP/1.1 405 Method Not Allowed, JSON of 61:
{"error":"method_not_allowed","reason":"method not allowed"}\n
> BREW /_all_dbs
HTTP/1.1 405 Method Not Allowed, JSON of 61:
{"error":"method_not_allowed","reason":"method not allowed"}\n
> GET /_all_dbs/
HTTP/1.1 400 Bad Request, JSON of 54:
{"error":"illegal_database_name","reason":"bad name"}\n
> GET /%5Fall_dbs
HTTP/1.1 400 Bad Request, JSON of 54:
{"error":"illegal_database_name","reason":"bad name"}\n
> GET /_db_updates
HTTP/1.1 200 OK, JSON in chunks:
d
{"results":[\n
2c
{"db_name":"d","type":"created","seq":"1-0"}
2e
,\n{"db_name":"e","type":"created","seq":"2-0"}
16
\n],\n"last_seq":"2-0"}\n
last chunk
> GET /_db_updates?since=1
HTTP/1.1 200 OK, JSON in chunks:
d
{"results":[\n
2c
{"db_name":"e","type":"created","seq":"2-0"}
16
\n],\n"last_seq":"2-0"}\n
last chunk
> GET /_db_updates?since=%31&a=+?b -
HTTP/1.1 200 OK, JSON in chunks:
d
{"results":[\n
2c
{"db_name":"e","type":"created","seq":"2-0"}
16
\n],\n"last_seq":"2-0"}\n
last chunk
> HEAD /_db_updates
HTTP/1.1 405 Method Not Allowed, JSON of 61:
> PUT /_db_updates
HTTP/1.1 405 Method Not Allowed, JSON of 61:
{"error":"method_not_allowed","reason":"method not allowed"}\n
> POST /_db_updates -
HTTP/1.1 405 Method Not Allowed, JSON of 61:
{"error":"method_not_allowed","reason":"method not allowed"}\n
> DELETE /_db_updates
HTTP/1.1 405 Method Not Allowed, JSON of 61:
{"error":"method_not_allowed","reason":"method not allowed"}\n
> BREW /_db_updates
HTTP/1.1 405 Method Not Allowed, JSON of 61:
{"error":"method_not_allowed","reason":"method not allowed"}\n
> DELETE //
HTTP/1.1 404 Not Found, JSON of 41:
{"error":"not_found","reason":"missing"}\n
> GET /_db_updates/x/y
HTTP/1.1 404 Not Found, JSON of 41:
{"error":"not_found","reason":"missing"}\n
> PUT //
HTTP/1.1 404 Not Found, JSON of 41:
{"error":"not_found","reason":"missing"}\n
> GET //
HTTP/1.1 404 Not Found, JSON of 41:
{"error":"not_found","reason":"missing"}\n
"#;

/// Requests to databases, whose names may have escapes.
pub(crate) const DATABASES: &str = r#"
# of databases
> PUT /d
HTTP/1.1 201 Created, JSON of 12:
{"ok":true}\n
> PUT /d/
HTTP/1.1 412 Precondition Failed, JSON of 95:
{"error":"file_exists","reason":"The database could not be created, the file already exists."}\n
> PUT /d?x=1
HTTP/1.1 412 Precondition Failed, JSON of 95:
{"error":"file_exists","reason":"The database could not be created, the file already exists."}\n
> GET /d
HTTP/1.1 200 OK, JSON of 93:
{"db_name":"d","doc_count":0,"doc_del_count":0,"update_seq":"0-1","instance_start_time":"0"}\n
> GET /d/
HTTP/1.1 200 OK, JSON of 93:
{"db_name":"d","doc_count":0,"doc_del_count":0,"update_seq":"0-1","instance_start_time":"0"}\n
> HEAD /d
HTTP/1.1 200 OK, JSON of 93:
> HEAD /d/?x
HTTP/1.1 200 OK, JSON of 93:
> PUT /a%2Fb
HTTP/1.1 201 Created, JSON of 12:
{"ok":true}\n
> PUT /d%2f_changes
HTTP/1.1 201 Created, JSON of 12:
{"ok":true}\n
> PUT /a+b
HTTP/1.1 201 Created, JSON of 12:
{"ok":true}\n
> PUT /a%2Fb%2Bc
HTTP/1.1 201 Created, JSON of 12:
{"ok":true}\n
> GET /a%2Fb+c
HTTP/1.1 200 OK, JSON of 97:
{"db_name":"a/b+c","doc_count":0,"doc_del_count":0,"update_seq":"0-5","instance_start_time":"0"}\n
> GET /_all_dbs
HTTP/1.1 200 OK, JSON of 39:
["a+b","a/b","a/b+c","d","d/_changes"]\n
> PUT /%zz
HTTP/1.1 400 Bad Request, JSON of 54:
{"error":"illegal_database_name","reason":"bad name"}\n
> PUT /é
HTTP/1.1 400 Bad Request, JSON of 54:
{"error":"illegal_database_name","reason":"bad name"}\n
> PUT /%C3%a9
HTTP/1.1 400 Bad Request, JSON of 54:
{"error":"illegal_database_name","reason":"bad name"}\n
> PUT /%ff
HTTP/1.1 400 Bad Request, JSON of 54:
{"error":"illegal_database_name","reason":"bad name"}\n
> GET /%ff/
HTTP/1.1 400 Bad Request, JSON of 54:
{"error":"illegal_database_name","reason":"bad name"}\n
> DELETE /%ff
HTTP/1.1 400 Bad Request, JSON of 54:
{"error":"illegal_database_name","reason":"bad name"}\n
> DELETE /a%2Fb
HTTP/1.1 200 OK, JSON of 12:
{"ok":true}\n
> DELETE /d
HTTP/1.1 200 OK, JSON of 12:
{"ok":true}\n
> PUT /d
HTTP/1.1 201 Created, JSON of 12:
{"ok":true}\n
> DELETE /d/
HTTP/1.1 200 OK, JSON of 12:
{"ok":true}\n
> PUT /d/
HTTP/1.1 201 Created, JSON of 12:
{"ok":true}\n
> DELETE /d?x=1
HTTP/1.1 200 OK, JSON of 12:
{"ok":true}\n
> GET /_all_dbs
HTTP/1.1 200 OK, JSON of 29:
["a+b","a/b+c","d/_changes"]\n
> send delete /d
HTTP/1.1 405 Method Not Allowed, JSON of 61:
{"error":"method_not_allowed","reason":"method not allowed"}\n
> POST /d -
HTTP/1.1 405 Method Not Allowed, JSON of 61:
{"error":"method_not_allowed","reason":"method not allowed"}\n
> send put /d
HTTP/1.1 405 Method Not Allowed, JSON of 61:
{"error":"method_not_allowed","reason":"method not allowed"}\n
> BREW /d
HTTP/1.1 405 Method Not Allowed, JSON of 61:
{"error":"method_not_allowed","reason":"method not allowed"}\n
> POST /%ff -
HTTP/1.1 405 Method Not Allowed, JSON of 61:
{"error":"method_not_allowed","reason":"method not allowed"}\n
> PUT /d//
HTTP/1.1 404 Not Found, JSON of 41:
{"error":"not_found","reason":"missing"}\n
"#;

/// Requests whose paths go on after the name of a database.
pub(crate) const CALLS: &str = r#"
# of the calls on a database
> PUT /d
HTTP/1.1 201 Created, JSON of 12:
{"ok":true}\n
> PUT /a%2Fb
HTTP/1.1 201 Created, JSON of 12:
{"ok":true}\n
> POST /d/_bulk_docs {"docs":[{"_id":"a","_rev":"1-a"},{"_id":"b","_rev":"1-b"}],"new_edits":false}
HTTP/1.1 201 Created, JSON of 3:
[]\n
> POST /a%2Fb/_bulk_docs?x {"docs":[{"_id":"a","_rev":"1-a"},{"_id":"b","_rev":"1-b"}],"new_edits":false}
HTTP/1.1 201 Created, JSON of 3:
[]\n
> GET /a%2Fb
HTTP/1.1 200 OK, JSON of 95:
{"db_name":"a/b","doc_count":2,"doc_del_count":0,"update_seq":"2-2","instance_start_time":"0"}\n
> POST /d/_bulk_docs
HTTP/1.1 411 Length Required, JSON of 57:
{"error":"length_required","reason":"no Content-Length"}\n
> POST /%ff/_bulk_docs
HTTP/1.1 400 Bad Request, JSON of 54:
{"error":"illegal_database_name","reason":"bad name"}\n
> GET /%ff/_bulk_docs
HTTP/1.1 405 Method Not Allowed, JSON of 61:
{"error":"method_not_allowed","reason":"method not allowed"}\n
> PUT /d/_bulk_docs -
HTTP/1.1 405 Method Not Allowed, JSON of 61:
{"error":"method_not_allowed","reason":"method not allowed"}\n
> POST //_bulk_docs -
HTTP/1.1 404 Not Found, JSON of 41:
{"error":"not_found","reason":"missing"}\n
> POST /d/_bulk_docs/ -
HTTP/1.1 404 Not Found, JSON of 41:
{"error":"not_found","reason":"missing"}\n
> GET /d/_changes
HTTP/1.1 200 OK, JSON in chunks:
d
{"results":[\n
30
{"seq":"1-1","id":"a","changes":[{"rev":"1-a"}]}
32
,\n{"seq":"2-1","id":"b","changes":[{"rev":"1-b"}]}
22
\n],\n"last_seq":"2-1","pending":0}\n
last chunk
> GET /d/_changes?
HTTP/1.1 200 OK, JSON in chunks:
d
{"results":[\n
30
{"seq":"1-1","id":"a","changes":[{"rev":"1-a"}]}
32
,\n{"seq":"2-1","id":"b","changes":[{"rev":"1-b"}]}
22
\n],\n"last_seq":"2-1","pending":0}\n
last chunk
> GET /d/_changes?since=%31&a=+?b
HTTP/1.1 200 OK, JSON in chunks:
d
{"results":[\n
30
{"seq":"2-1","id":"b","changes":[{"rev":"1-b"}]}
22
\n],\n"last_seq":"2-1","pending":0}\n
last chunk
> GET /a%2fb/_changes
HTTP/1.1 200 OK, JSON in chunks:
d
{"results":[\n
30
{"seq":"1-2","id":"a","changes":[{"rev":"1-a"}]}
32
,\n{"seq":"2-2","id":"b","changes":[{"rev":"1-b"}]}
22
\n],\n"last_seq":"2-2","pending":0}\n
last chunk
> GET /_e/_changes -
HTTP/1.1 400 Bad Request, JSON of 54:
{"error":"illegal_database_name","reason":"bad name"}\n
> HEAD /d/_changes
HTTP/1.1 405 Method Not Allowed, JSON of 61:
> PUT /d/_changes
HTTP/1.1 405 Method Not Allowed, JSON of 61:
{"error":"method_not_allowed","reason":"method not allowed"}\n
> DELETE /d/_changes
HTTP/1.1 405 Method Not Allowed, JSON of 61:
{"error":"method_not_allowed","reason":"method not allowed"}\n
> POST /d/_changes -
HTTP/1.1 200 OK, JSON in chunks:
d
{"results":[\n
30
{"seq":"1-1","id":"a","changes":[{"rev":"1-a"}]}
32
,\n{"seq":"2-1","id":"b","changes":[{"rev":"1-b"}]}
22
\n],\n"last_seq":"2-1","pending":0}\n
last chunk
> POST /d/_changes?since=1
HTTP/1.1 200 OK, JSON in chunks:
d
{"results":[\n
30
{"seq":"2-1","id":"b","changes":[{"rev":"1-b"}]}
22
\n],\n"last_seq":"2-1","pending":0}\n
last chunk
> POST /%ff/_changes -
HTTP/1.1 400 Bad Request, JSON of 54:
{"error":"illegal_database_name","reason":"bad name"}\n
> GET /%ff/_changes
HTTP/1.1 400 Bad Request, JSON of 54:
{"error":"illegal_database_name","reason":"bad name"}\n
> GET /d/_changes/
HTTP/1.1 404 Not Found, JSON of 41:
{"error":"not_found","reason":"missing"}\n
> POST /d/_revs_diff {"a":["1-x"]}
HTTP/1.1 200 OK, JSON of 26:
{"a":{"missing":["1-x"]}}\n
> POST /d/_revs_diff
HTTP/1.1 411 Length Required, JSON of 57:
{"error":"length_required","reason":"no Content-Length"}\n
> POST /%ff/_revs_diff
HTTP/1.1 400 Bad Request, JSON of 54:
{"error":"illegal_database_name","reason":"bad name"}\n
> GET /d/_revs_diff
HTTP/1.1 405 Method Not Allowed, JSON of 61:
{"error":"method_not_allowed","reason":"method not allowed"}\n
> GET /d/_revs_diff/
HTTP/1.1 404 Not Found, JSON of 41:
{"error":"not_found","reason":"missing"}\n
> POST /d/_ensure_full_commit -
HTTP/1.1 201 Created, JSON of 38:
{"instance_start_time":"0","ok":true}\n
> POST /d/_ensure_full_commit
HTTP/1.1 201 Created, JSON of 38:
{"instance_start_time":"0","ok":true}\n
> POST /%ff/_ensure_full_commit
HTTP/1.1 400 Bad Request, JSON of 54:
{"error":"illegal_database_name","reason":"bad name"}\n
> GET /d/_ensure_full_commit
HTTP/1.1 405 Method Not Allowed, JSON of 61:
{"error":"method_not_allowed","reason":"method not allowed"}\n
"#;

/// The table of routes. A command is a method and a target, in which `\` is the byte 255. The answer is the
/// call, the name of the database, the id of the document and the query, or the fault. A `*` after `db` or
/// `id` says that its text is not lent from the request.
#[derive(Drop)]
struct Table {
    alloc: Global,
    routes: Routes,
}

/// The request of a command. It has a length, and its body is empty.
fn request_of(alloc: Global, command: &str) -> Result<Request, AllocError> {
    let mut words = Words::of(command);
    let method = MethodName::new(alloc, words.word().as_bytes())?;
    let mut target = Vec::from_slice(alloc, words.word().as_bytes())?;
    for byte in &mut target {
        if *byte == b'\\' {
            *byte = 0xff;
        }
    }
    Ok(Request {
        method,
        target,
        has_length: true,
        close: false,
        body: Vec::new(alloc),
    })
}

/// A star for a text that is not lent.
fn mark(text: &CowStr<'_>) -> &'static str {
    match text {
        CowStr::Owned(_) => "*",
        CowStr::Borrowed(_) => "",
    }
}

/// Writes a route.
fn put(route: &Route<'_>, answer: &mut Answer) -> Result<(), AllocError> {
    let query = str::from_utf8(route.query).unwrap_or("no text");
    let (db, id) = (&route.db, &route.id);
    let (own_db, own_id) = (mark(db), mark(id));
    answer.line(format_args!(
        "{:?} db{own_db}={db} id{own_id}={id} query={query}",
        route.call
    ))
}

impl<R> Subject<R> for Table {
    fn begin(_: &R, alloc: Global, _: &str) -> Result<Table, AllocError> {
        let routes = Routes::new(alloc)?;
        Ok(Table { alloc, routes })
    }

    fn answer(&mut self, _: &R, command: &str, answer: &mut Answer) -> Result<(), AllocError> {
        let request = request_of(self.alloc, command)?;
        match self.routes.route(self.alloc, &request) {
            Ok(route) => put(&route, answer),
            Err(Refusal::NoMemory) => Err(AllocError),
            Err(refusal) => answer.line(format_args!("{refusal:?}")),
        }
    }
}

const LENT: &str = r#"
# what a client can't send: a path that begins with no slash, and bytes that are no text
> GET *
Missing
> GET
Missing
> BREW *
Missing
> PUT /\
BadName
> PUT /d/a\
BadId
# a text without an escape is lent
> GET /_db_updates?since=%30
DbUpdates db=_db_updates id= query=since=%30
> PUT /d
PutDatabase db=d id= query=
> DELETE /d?x=%ff
DeleteDatabase db=d id= query=x=%ff
> HEAD /d/
Info db=d id= query=
> POST /d/_bulk_docs
BulkDocs db=d id= query=
> GET /d/_changes?since=%30
Changes db=d id= query=since=%30
> GET /d/a?rev=1-a
GetDocument db=d id=a query=rev=1-a
> PUT /d/_design/a
PutDocument db=d id=_design/a query=
> PUT /d/_design/a+b
PutDocument db=d id=_design/a+b query=
> DELETE /d/a
DeleteDocument db=d id=a query=
> GET /d/_local/a
GetLocal db=d id=_local/a query=
> PUT /d/_local/a?x=%20
PutLocal db=d id=_local/a query=x=%20
> PUT /é
PutDatabase db=é id= query=
> GET /d/%?x
GetDocument db=d id=% query=x
# a text with an escape is one of its own
> PUT /%64
PutDatabase db*=d id= query=
> DELETE /a%2Fb
DeleteDatabase db*=a/b id= query=
> GET /a%2fb/_changes
Changes db*=a/b id= query=
> GET /%64/a
GetDocument db*=d id=a query=
> GET /d/%61
GetDocument db=d id*=a query=
> DELETE /d/_design%2Fa
DeleteDocument db=d id*=_design/a query=
> PUT /d/_local/%61
PutLocal db=d id*=_local/a query=
> GET /%64/_local%2Fa
GetLocal db*=d id*=_local/a query=
"#;

/// The texts that a request lends to its route, and targets that no client can send.
#[test]
fn what_a_request_lends(rt: HostRuntime) -> Result<(), Fail> {
    replay::<Table, _>(&rt, rt.alloc(), LENT)
}
