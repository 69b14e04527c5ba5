//! Where requests for documents go: ids with escapes, design documents, local ones, and unknown ids.

/// Documents and design documents. Each path names an existing document, or none.
pub(crate) const DOCUMENTS: &str = r#"
# of documents, which are there
> PUT /d
HTTP/1.1 201 Created, JSON of 12:
{"ok":true}\n
> PUT /a%2Fb
HTTP/1.1 201 Created, JSON of 12:
{"ok":true}\n
> POST /d/_bulk_docs {"docs":[{"_id":"a","_rev":"1-a"},{"_id":"a+b c","_rev":"1-a"},{"_id":"%","_rev":"1-a"},{"_id":"a?b","_rev":"1-a"},{"_id":"a_","_rev":"1-a"},{"_id":"changes","_rev":"1-a"},{"_id":"a/","_rev":"1-a"},{"_id":"a/b","_rev":"1-a"}],"new_edits":false}
HTTP/1.1 201 Created, JSON of 3:
[]\n
> POST /a%2Fb/_bulk_docs {"docs":[{"_id":"c/d","_rev":"1-a"}],"new_edits":false}
HTTP/1.1 201 Created, JSON of 3:
[]\n
> GET /d/a
HTTP/1.1 200 OK, JSON of 25:
{"_id":"a","_rev":"1-a"}\n
> GET /d/a?revs=true&x=%20
HTTP/1.1 200 OK, JSON of 62:
{"_id":"a","_rev":"1-a","_revisions":{"start":1,"ids":["a"]}}\n
> PUT /d/c {}
HTTP/1.1 201 Created, JSON of 64:
{"ok":true,"id":"c","rev":"1-fb9ac373006d562c3ba1cd99e8474820"}\n
> PUT /d/a?new_edits=false {"_rev":"1-a"}
HTTP/1.1 400 Bad Request, JSON of 46:
{"error":"bad_request","reason":"bad member"}\n
> DELETE /d/a?rev=1-a
HTTP/1.1 200 OK, JSON of 64:
{"ok":true,"id":"a","rev":"2-5bffa76456a463a52635906fedc1dd54"}\n
> GET /a%2Fb/c%2fd
HTTP/1.1 200 OK, JSON of 27:
{"_id":"c/d","_rev":"1-a"}\n
> GET /d/a+b%20c
HTTP/1.1 200 OK, JSON of 29:
{"_id":"a+b c","_rev":"1-a"}\n
> PUT /d/é {}
HTTP/1.1 201 Created, JSON of 65:
{"ok":true,"id":"é","rev":"1-943c4a822687d89de97ac3734e11924f"}\n
> GET /d/%
HTTP/1.1 200 OK, JSON of 25:
{"_id":"%","_rev":"1-a"}\n
> GET /d/a%3fb
HTTP/1.1 200 OK, JSON of 27:
{"_id":"a?b","_rev":"1-a"}\n
> GET /d/a_
HTTP/1.1 200 OK, JSON of 26:
{"_id":"a_","_rev":"1-a"}\n
> GET /d/changes
HTTP/1.1 200 OK, JSON of 31:
{"_id":"changes","_rev":"1-a"}\n
> HEAD /d/a
HTTP/1.1 405 Method Not Allowed, JSON of 61:
> POST /d/a -
HTTP/1.1 405 Method Not Allowed, JSON of 61:
{"error":"method_not_allowed","reason":"method not allowed"}\n
> COPY /d/a
HTTP/1.1 405 Method Not Allowed, JSON of 61:
{"error":"method_not_allowed","reason":"method not allowed"}\n
> send delete /d/a
HTTP/1.1 405 Method Not Allowed, JSON of 61:
{"error":"method_not_allowed","reason":"method not allowed"}\n
> GET /d/a/
HTTP/1.1 404 Not Found, JSON of 41:
{"error":"not_found","reason":"missing"}\n
> GET /d/a/b
HTTP/1.1 404 Not Found, JSON of 41:
{"error":"not_found","reason":"missing"}\n
> PUT //a
HTTP/1.1 404 Not Found, JSON of 41:
{"error":"not_found","reason":"missing"}\n
# of design documents, which are there
> PUT /d
HTTP/1.1 201 Created, JSON of 12:
{"ok":true}\n
> POST /d/_bulk_docs {"docs":[{"_id":"_design/a","_rev":"1-a"},{"_id":"_design/_a","_rev":"1-a"},{"_id":"_design//","_rev":"1-a"}],"new_edits":false}
HTTP/1.1 201 Created, JSON of 3:
[]\n
> GET /d/_design/a
HTTP/1.1 200 OK, JSON of 33:
{"_id":"_design/a","_rev":"1-a"}\n
> GET /d/_design%2Fa
HTTP/1.1 200 OK, JSON of 33:
{"_id":"_design/a","_rev":"1-a"}\n
> PUT /d/_design/a%2Fb?x {}
HTTP/1.1 201 Created, JSON of 74:
{"ok":true,"id":"_design/a/b","rev":"1-5ef7f6c14028a58661427b2000f5c315"}\n
> GET /d/_design/_a
HTTP/1.1 200 OK, JSON of 34:
{"_id":"_design/_a","_rev":"1-a"}\n
> GET /d/_design/%2F
HTTP/1.1 200 OK, JSON of 33:
{"_id":"_design//","_rev":"1-a"}\n
> DELETE /d/_design/a?rev=1-a
HTTP/1.1 200 OK, JSON of 72:
{"ok":true,"id":"_design/a","rev":"2-a5be489f5465b7edcc7984812aeace1a"}\n
> DELETE /d/%5fdesign%2fa
HTTP/1.1 404 Not Found, JSON of 41:
{"error":"not_found","reason":"deleted"}\n
> HEAD /d/_design/a
HTTP/1.1 405 Method Not Allowed, JSON of 61:
> POST /d/_design%2Fa -
HTTP/1.1 405 Method Not Allowed, JSON of 61:
{"error":"method_not_allowed","reason":"method not allowed"}\n
> GET /d/_design/
HTTP/1.1 404 Not Found, JSON of 41:
{"error":"not_found","reason":"missing"}\n
> GET /d/_design/a/b
HTTP/1.1 404 Not Found, JSON of 41:
{"error":"not_found","reason":"missing"}\n
"#;

/// Local documents.
pub(crate) const LOCALS: &str = r#"
# of local documents, which are there
> PUT /d
HTTP/1.1 201 Created, JSON of 12:
{"ok":true}\n
> PUT /d/_local/a {}
HTTP/1.1 201 Created, JSON of 40:
{"ok":true,"id":"_local/a","rev":"0-1"}\n
> PUT /d/%5Flocal%2Fa {}
HTTP/1.1 201 Created, JSON of 40:
{"ok":true,"id":"_local/a","rev":"0-2"}\n
> PUT /d/_local/a%2Fb {}
HTTP/1.1 201 Created, JSON of 42:
{"ok":true,"id":"_local/a/b","rev":"0-1"}\n
> GET /d/_local/a
HTTP/1.1 200 OK, JSON of 32:
{"_id":"_local/a","_rev":"0-2"}\n
> GET /d/_local/a%2fb?x
HTTP/1.1 200 OK, JSON of 34:
{"_id":"_local/a/b","_rev":"0-1"}\n
> GET /d/_local%2Fa
HTTP/1.1 200 OK, JSON of 32:
{"_id":"_local/a","_rev":"0-2"}\n
> DELETE /d/_local/a
HTTP/1.1 405 Method Not Allowed, JSON of 61:
{"error":"method_not_allowed","reason":"method not allowed"}\n
> DELETE /d/_local%2Fa
HTTP/1.1 405 Method Not Allowed, JSON of 61:
{"error":"method_not_allowed","reason":"method not allowed"}\n
> HEAD /d/_local/a
HTTP/1.1 405 Method Not Allowed, JSON of 61:
> POST /d/_local%2Fa -
HTTP/1.1 405 Method Not Allowed, JSON of 61:
{"error":"method_not_allowed","reason":"method not allowed"}\n
> DELETE /d/_local%2F%ff
HTTP/1.1 405 Method Not Allowed, JSON of 61:
{"error":"method_not_allowed","reason":"method not allowed"}\n
> GET /d/_local/
HTTP/1.1 404 Not Found, JSON of 41:
{"error":"not_found","reason":"missing"}\n
> GET /d/_local/a/b
HTTP/1.1 404 Not Found, JSON of 41:
{"error":"not_found","reason":"missing"}\n
"#;

/// Refused ids and names, and the refusals that come before theirs.
pub(crate) const IDS: &str = r#"
# of ids
> PUT /d
HTTP/1.1 201 Created, JSON of 12:
{"ok":true}\n
> GET /d/_a
HTTP/1.1 400 Bad Request, JSON of 42:
{"error":"bad_request","reason":"bad id"}\n
> PUT /d/_
HTTP/1.1 400 Bad Request, JSON of 42:
{"error":"bad_request","reason":"bad id"}\n
> DELETE /d/_design
HTTP/1.1 400 Bad Request, JSON of 42:
{"error":"bad_request","reason":"bad id"}\n
> GET /d/_design%2F
HTTP/1.1 400 Bad Request, JSON of 42:
{"error":"bad_request","reason":"bad id"}\n
> GET /d/_designs%2Fa
HTTP/1.1 400 Bad Request, JSON of 42:
{"error":"bad_request","reason":"bad id"}\n
> GET /d/_Design%2Fa
HTTP/1.1 400 Bad Request, JSON of 42:
{"error":"bad_request","reason":"bad id"}\n
> GET /d/_local
HTTP/1.1 400 Bad Request, JSON of 42:
{"error":"bad_request","reason":"bad id"}\n
> DELETE /d/_local%2F
HTTP/1.1 400 Bad Request, JSON of 42:
{"error":"bad_request","reason":"bad id"}\n
> GET /d/_localx
HTTP/1.1 400 Bad Request, JSON of 42:
{"error":"bad_request","reason":"bad id"}\n
> GET /d/%5Fchanges
HTTP/1.1 400 Bad Request, JSON of 42:
{"error":"bad_request","reason":"bad id"}\n
> POST /d/%5Fbulk_docs -
HTTP/1.1 405 Method Not Allowed, JSON of 61:
{"error":"method_not_allowed","reason":"method not allowed"}\n
> GET /d/_all_docs
HTTP/1.1 400 Bad Request, JSON of 42:
{"error":"bad_request","reason":"bad id"}\n
> GET /d/%ff
HTTP/1.1 400 Bad Request, JSON of 42:
{"error":"bad_request","reason":"bad id"}\n
> GET /d/_design/%ff
HTTP/1.1 400 Bad Request, JSON of 42:
{"error":"bad_request","reason":"bad id"}\n
> PUT /d/_local/%ff
HTTP/1.1 400 Bad Request, JSON of 42:
{"error":"bad_request","reason":"bad id"}\n
> GET /d/_local%2F%ff
HTTP/1.1 400 Bad Request, JSON of 42:
{"error":"bad_request","reason":"bad id"}\n
> GET /%ff/%ff
HTTP/1.1 400 Bad Request, JSON of 54:
{"error":"illegal_database_name","reason":"bad name"}\n
> GET /%ff/_a
HTTP/1.1 400 Bad Request, JSON of 54:
{"error":"illegal_database_name","reason":"bad name"}\n
> PUT /%ff/_local/%ff
HTTP/1.1 400 Bad Request, JSON of 54:
{"error":"illegal_database_name","reason":"bad name"}\n
> POST /%ff/%ff
HTTP/1.1 405 Method Not Allowed, JSON of 61:
{"error":"method_not_allowed","reason":"method not allowed"}\n
> POST /d/%ff
HTTP/1.1 405 Method Not Allowed, JSON of 61:
{"error":"method_not_allowed","reason":"method not allowed"}\n
> GET /%ff/a/b
HTTP/1.1 404 Not Found, JSON of 41:
{"error":"not_found","reason":"missing"}\n
"#;
