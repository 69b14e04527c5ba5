//! Local documents over bytes: how they are shown, and which are refused.

/// Local documents as they are shown, and the first fault of each.
pub(crate) const LOCALS: &str = r#"
# what is shown of local documents
> PUT /d
HTTP/1.1 201 Created, JSON of 12:
{"ok":true}\n
> PUT /d/_local/b1 {}
HTTP/1.1 201 Created, JSON of 41:
{"ok":true,"id":"_local/b1","rev":"0-1"}\n
> GET /d/_local/b1
HTTP/1.1 200 OK, JSON of 33:
{"_id":"_local/b1","_rev":"0-1"}\n
> PUT /d/_local/b2 {"_id":"_local/b2","b":1,"a":[]}
HTTP/1.1 201 Created, JSON of 41:
{"ok":true,"id":"_local/b2","rev":"0-1"}\n
> GET /d/_local/b2
HTTP/1.1 200 OK, JSON of 46:
{"_id":"_local/b2","_rev":"0-1","a":[],"b":1}\n
> PUT /d/_local/b3 {"_rev":"0-7","v":1}
HTTP/1.1 201 Created, JSON of 41:
{"ok":true,"id":"_local/b3","rev":"0-1"}\n
> GET /d/_local/b3
HTTP/1.1 200 OK, JSON of 39:
{"_id":"_local/b3","_rev":"0-1","v":1}\n
> PUT /d/_local/b4 {"_rev":7}
HTTP/1.1 201 Created, JSON of 41:
{"ok":true,"id":"_local/b4","rev":"0-1"}\n
> GET /d/_local/b4
HTTP/1.1 200 OK, JSON of 33:
{"_id":"_local/b4","_rev":"0-1"}\n
> PUT /d/_local/b5 {"_rev":null}
HTTP/1.1 201 Created, JSON of 41:
{"ok":true,"id":"_local/b5","rev":"0-1"}\n
> GET /d/_local/b5
HTTP/1.1 200 OK, JSON of 33:
{"_id":"_local/b5","_rev":"0-1"}\n
> PUT /d/_local/b6 {"_deleted":false}
HTTP/1.1 201 Created, JSON of 41:
{"ok":true,"id":"_local/b6","rev":"0-1"}\n
> GET /d/_local/b6
HTTP/1.1 200 OK, JSON of 33:
{"_id":"_local/b6","_rev":"0-1"}\n
> PUT /d/_local/b7 {"_revisions":1,"_attachments":{}}
HTTP/1.1 201 Created, JSON of 41:
{"ok":true,"id":"_local/b7","rev":"0-1"}\n
> GET /d/_local/b7
HTTP/1.1 200 OK, JSON of 33:
{"_id":"_local/b7","_rev":"0-1"}\n
> PUT /d/_local/q%22 {"v":{"w":7},"b":""}
HTTP/1.1 201 Created, JSON of 42:
{"ok":true,"id":"_local/q\"","rev":"0-1"}\n
> GET /d/_local/q%22
HTTP/1.1 200 OK, JSON of 53:
{"_id":"_local/q\"","_rev":"0-1","b":"","v":{"w":7}}\n
> PUT /d/_local/b2 {"c":2}
HTTP/1.1 201 Created, JSON of 41:
{"ok":true,"id":"_local/b2","rev":"0-2"}\n
> GET /d/_local/b2
HTTP/1.1 200 OK, JSON of 39:
{"_id":"_local/b2","_rev":"0-2","c":2}\n
> PUT /d/_local/iiiiiiiiiiiiiiiiiiiiiiiiiiiiiiiiiiiiiiiiiiiiiiiiiiiiiiiiiiiiiiiiiiiiiiiiiiiiiiiiiiiiiiiiiiiiiiiiiiiiiiiiiiiiiiiiiiiiiiiiiiiiiiiiiiiiiiiiiiiiiiiiiiiiiiiiiiiiiiiiiiiiiiiiiiiiiiiiiiiiiiiiiiiiiiiiiiiiiiiiiiiiiiiiiiiiiiiiiiiiiiiiiiiiiiiiiiiiiiiiiiiiiiiiiiiiiiiiiiiiiiiiiiiiiiiiiiiiiiiiiiiiiiiiiiiiiiiiiiiiiiiiiiiiiiiiiiiiiiiiiiiiiiiiiiiiiiiiiiiiiiiiiiiiiiiiiiiiiiiiiiiiiiiiiiiiiiiiiiiiiiiiiiiiiiiiiiiiiiiiiiiiiiiiiiiiiiiiiiiiiiiiiiiiiiiiiiiiiiiiiiiiiiiiiiiiiiiiiiiiiiiiiiiiiiiiiiiiiiiiiiiiiiiiiiiiiiiiiiiiiiiii {}
HTTP/1.1 201 Created, JSON of 544:
{"ok":true,"id":"_local/iiiiiiiiiiiiiiiiiiiiiiiiiiiiiiiiiiiiiiiiiiiiiiiiiiiiiiiiiiiiiiiiiiiiiiiiiiiiiiiiiiiiiiiiiiiiiiiiiiiiiiiiiiiiiiiiiiiiiiiiiiiiiiiiiiiiiiiiiiiiiiiiiiiiiiiiiiiiiiiiiiiiiiiiiiiiiiiiiiiiiiiiiiiiiiiiiiiiiiiiiiiiiiiiiiiiiiiiiiiiiiiiiiiiiiiiiiiiiiiiiiiiiiiiiiiiiiiiiiiiiiiiiiiiiiiiiiiiiiiiiiiiiiiiiiiiiiiiiiiiiiiiiiiiiiiiiiiiiiiiiiiiiiiiiiiiiiiiiiiiiiiiiiiiiiiiiiiiiiiiiiiiiiiiiiiiiiiiiiiiiiiiiiiiiiiiiiiiiiiiiiiiiiiiiiiiiiiiiiiiiiiiiiiiiiiiiiiiiiiiiiiiiiiiiiiiiiiiiiiiiiiiiiiiiiiiiiiiiiiiiiiiiiiiiiiiiiiiiiiiiiiii","rev":"0-1"}\n
> GET /d/_local/iiiiiiiiiiiiiiiiiiiiiiiiiiiiiiiiiiiiiiiiiiiiiiiiiiiiiiiiiiiiiiiiiiiiiiiiiiiiiiiiiiiiiiiiiiiiiiiiiiiiiiiiiiiiiiiiiiiiiiiiiiiiiiiiiiiiiiiiiiiiiiiiiiiiiiiiiiiiiiiiiiiiiiiiiiiiiiiiiiiiiiiiiiiiiiiiiiiiiiiiiiiiiiiiiiiiiiiiiiiiiiiiiiiiiiiiiiiiiiiiiiiiiiiiiiiiiiiiiiiiiiiiiiiiiiiiiiiiiiiiiiiiiiiiiiiiiiiiiiiiiiiiiiiiiiiiiiiiiiiiiiiiiiiiiiiiiiiiiiiiiiiiiiiiiiiiiiiiiiiiiiiiiiiiiiiiiiiiiiiiiiiiiiiiiiiiiiiiiiiiiiiiiiiiiiiiiiiiiiiiiiiiiiiiiiiiiiiiiiiiiiiiiiiiiiiiiiiiiiiiiiiiiiiiiiiiiiiiiiiiiiiiiiiiiiiiiiiiiiiiiiiii
HTTP/1.1 200 OK, JSON of 536:
{"_id":"_local/iiiiiiiiiiiiiiiiiiiiiiiiiiiiiiiiiiiiiiiiiiiiiiiiiiiiiiiiiiiiiiiiiiiiiiiiiiiiiiiiiiiiiiiiiiiiiiiiiiiiiiiiiiiiiiiiiiiiiiiiiiiiiiiiiiiiiiiiiiiiiiiiiiiiiiiiiiiiiiiiiiiiiiiiiiiiiiiiiiiiiiiiiiiiiiiiiiiiiiiiiiiiiiiiiiiiiiiiiiiiiiiiiiiiiiiiiiiiiiiiiiiiiiiiiiiiiiiiiiiiiiiiiiiiiiiiiiiiiiiiiiiiiiiiiiiiiiiiiiiiiiiiiiiiiiiiiiiiiiiiiiiiiiiiiiiiiiiiiiiiiiiiiiiiiiiiiiiiiiiiiiiiiiiiiiiiiiiiiiiiiiiiiiiiiiiiiiiiiiiiiiiiiiiiiiiiiiiiiiiiiiiiiiiiiiiiiiiiiiiiiiiiiiiiiiiiiiiiiiiiiiiiiiiiiiiiiiiiiiiiiiiiiiiiiiiiiiiiiiiiiiiii","_rev":"0-1"}\n
# the first fault of a local document
> PUT /d
HTTP/1.1 201 Created, JSON of 12:
{"ok":true}\n
> PUT /d/_local/x {
HTTP/1.1 400 Bad Request, JSON of 44:
{"error":"bad_request","reason":"not JSON"}\n
> PUT /d/_local/x []
HTTP/1.1 400 Bad Request, JSON of 49:
{"error":"bad_request","reason":"not an object"}\n
> PUT /d/_local/x [1.5]
HTTP/1.1 400 Bad Request, JSON of 49:
{"error":"bad_request","reason":"not an object"}\n
> PUT /d/_local/x {"v":1.5}
HTTP/1.1 400 Bad Request, JSON of 57:
{"error":"bad_request","reason":"number out of profile"}\n
> PUT /d/_local/x {"v":1.5,"_deleted":true}
HTTP/1.1 400 Bad Request, JSON of 57:
{"error":"bad_request","reason":"number out of profile"}\n
> PUT /d/_local/x {"_id":"_local/y"}
HTTP/1.1 400 Bad Request, JSON of 42:
{"error":"bad_request","reason":"bad id"}\n
> PUT /d/_local/x {"_id":"x"}
HTTP/1.1 400 Bad Request, JSON of 42:
{"error":"bad_request","reason":"bad id"}\n
> PUT /d/_local/x {"_id":7}
HTTP/1.1 400 Bad Request, JSON of 42:
{"error":"bad_request","reason":"bad id"}\n
> PUT /d/_local/x {"_id":"x","_deleted":true}
HTTP/1.1 400 Bad Request, JSON of 42:
{"error":"bad_request","reason":"bad id"}\n
> PUT /d/_local/x {"_deleted":true}
HTTP/1.1 400 Bad Request, JSON of 46:
{"error":"bad_request","reason":"bad member"}\n
> PUT /d/_local/x {"_deleted":1}
HTTP/1.1 400 Bad Request, JSON of 46:
{"error":"bad_request","reason":"bad member"}\n
> PUT /d/_local/x {"_x":1}
HTTP/1.1 400 Bad Request, JSON of 46:
{"error":"bad_request","reason":"bad member"}\n
> PUT /d/_local/iiiiiiiiiiiiiiiiiiiiiiiiiiiiiiiiiiiiiiiiiiiiiiiiiiiiiiiiiiiiiiiiiiiiiiiiiiiiiiiiiiiiiiiiiiiiiiiiiiiiiiiiiiiiiiiiiiiiiiiiiiiiiiiiiiiiiiiiiiiiiiiiiiiiiiiiiiiiiiiiiiiiiiiiiiiiiiiiiiiiiiiiiiiiiiiiiiiiiiiiiiiiiiiiiiiiiiiiiiiiiiiiiiiiiiiiiiiiiiiiiiiiiiiiiiiiiiiiiiiiiiiiiiiiiiiiiiiiiiiiiiiiiiiiiiiiiiiiiiiiiiiiiiiiiiiiiiiiiiiiiiiiiiiiiiiiiiiiiiiiiiiiiiiiiiiiiiiiiiiiiiiiiiiiiiiiiiiiiiiiiiiiiiiiiiiiiiiiiiiiiiiiiiiiiiiiiiiiiiiiiiiiiiiiiiiiiiiiiiiiiiiiiiiiiiiiiiiiiiiiiiiiiiiiiiiiiiiiiiiiiiiiiiiiiiiiiiiiiiiiiiiiii {}
HTTP/1.1 400 Bad Request, JSON of 47:
{"error":"bad_request","reason":"id too long"}\n
> PUT /d/_local/iiiiiiiiiiiiiiiiiiiiiiiiiiiiiiiiiiiiiiiiiiiiiiiiiiiiiiiiiiiiiiiiiiiiiiiiiiiiiiiiiiiiiiiiiiiiiiiiiiiiiiiiiiiiiiiiiiiiiiiiiiiiiiiiiiiiiiiiiiiiiiiiiiiiiiiiiiiiiiiiiiiiiiiiiiiiiiiiiiiiiiiiiiiiiiiiiiiiiiiiiiiiiiiiiiiiiiiiiiiiiiiiiiiiiiiiiiiiiiiiiiiiiiiiiiiiiiiiiiiiiiiiiiiiiiiiiiiiiiiiiiiiiiiiiiiiiiiiiiiiiiiiiiiiiiiiiiiiiiiiiiiiiiiiiiiiiiiiiiiiiiiiiiiiiiiiiiiiiiiiiiiiiiiiiiiiiiiiiiiiiiiiiiiiiiiiiiiiiiiiiiiiiiiiiiiiiiiiiiiiiiiiiiiiiiiiiiiiiiiiiiiiiiiiiiiiiiiiiiiiiiiiiiiiiiiiiiiiiiiiiiiiiiiiiiiiiiiiiiiiiiiiii {"_deleted":true}
HTTP/1.1 400 Bad Request, JSON of 46:
{"error":"bad_request","reason":"bad member"}\n
> PUT /d/_local/iiiiiiiiiiiiiiiiiiiiiiiiiiiiiiiiiiiiiiiiiiiiiiiiiiiiiiiiiiiiiiiiiiiiiiiiiiiiiiiiiiiiiiiiiiiiiiiiiiiiiiiiiiiiiiiiiiiiiiiiiiiiiiiiiiiiiiiiiiiiiiiiiiiiiiiiiiiiiiiiiiiiiiiiiiiiiiiiiiiiiiiiiiiiiiiiiiiiiiiiiiiiiiiiiiiiiiiiiiiiiiiiiiiiiiiiiiiiiiiiiiiiiiiiiiiiiiiiiiiiiiiiiiiiiiiiiiiiiiiiiiiiiiiiiiiiiiiiiiiiiiiiiiiiiiiiiiiiiiiiiiiiiiiiiiiiiiiiiiiiiiiiiiiiiiiiiiiiiiiiiiiiiiiiiiiiiiiiiiiiiiiiiiiiiiiiiiiiiiiiiiiiiiiiiiiiiiiiiiiiiiiiiiiiiiiiiiiiiiiiiiiiiiiiiiiiiiiiiiiiiiiiiiiiiiiiiiiiiiiiiiiiiiiiiiiiiiiiiiiiiiiiii {"_id":"x"}
HTTP/1.1 400 Bad Request, JSON of 42:
{"error":"bad_request","reason":"bad id"}\n
> GET /d/_local/x
HTTP/1.1 404 Not Found, JSON of 41:
{"error":"not_found","reason":"missing"}\n
> PUT /d/_local {}
HTTP/1.1 400 Bad Request, JSON of 42:
{"error":"bad_request","reason":"bad id"}\n
> PUT /d/_local%2F {}
HTTP/1.1 400 Bad Request, JSON of 42:
{"error":"bad_request","reason":"bad id"}\n
> PUT /d/_local_%2Fx {}
HTTP/1.1 400 Bad Request, JSON of 42:
{"error":"bad_request","reason":"bad id"}\n
"#;
