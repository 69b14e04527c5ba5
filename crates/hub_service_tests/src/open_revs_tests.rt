//! Documents and their revisions over bytes.

/// Documents as they are shown: the winner, all leaves, and listed revisions.
pub(crate) const SHOWN: &str = r#"
# the winner of two leaves and a deleted one above them, a document whose winner is deleted, and one that is unknown
> PUT /d
HTTP/1.1 201 Created, JSON of 12:
{"ok":true}\n
> POST /d/_bulk_docs {"docs":[{"_id":"a","_rev":"1-a","v":1},{"_id":"a","_revisions":{"start":2,"ids":["c","a"]},"v":2},{"_id":"a","_revisions":{"start":3,"ids":["f","e","a"]},"_deleted":true},{"_id":"a","_revisions":{"start":2,"ids":["d","a"]},"v":4},{"_id":"b","_rev":"1-b","_deleted":true}],"new_edits":false}
HTTP/1.1 201 Created, JSON of 3:
[]\n
> GET /d/a
HTTP/1.1 200 OK, JSON of 31:
{"_id":"a","_rev":"2-d","v":4}\n
> GET /d/a?revs=true
HTTP/1.1 200 OK, JSON of 72:
{"_id":"a","_rev":"2-d","_revisions":{"start":2,"ids":["d","a"]},"v":4}\n
> GET /d/b
HTTP/1.1 404 Not Found, JSON of 41:
{"error":"not_found","reason":"deleted"}\n
> GET /d/b?revs=true
HTTP/1.1 404 Not Found, JSON of 41:
{"error":"not_found","reason":"deleted"}\n
> GET /d/z
HTTP/1.1 404 Not Found, JSON of 41:
{"error":"not_found","reason":"missing"}\n
> GET /d/z?revs=true
HTTP/1.1 404 Not Found, JSON of 41:
{"error":"not_found","reason":"missing"}\n
> GET /d
HTTP/1.1 200 OK, JSON of 93:
{"db_name":"d","doc_count":1,"doc_del_count":1,"update_seq":"5-1","instance_start_time":"0"}\n
# all leaves, best first
> PUT /d
HTTP/1.1 201 Created, JSON of 12:
{"ok":true}\n
> POST /d/_bulk_docs {"docs":[{"_id":"a","_rev":"1-a","v":1},{"_id":"a","_revisions":{"start":2,"ids":["c","a"]},"v":2},{"_id":"a","_revisions":{"start":3,"ids":["f","e","a"]},"_deleted":true},{"_id":"a","_revisions":{"start":2,"ids":["d","a"]},"v":4},{"_id":"b","_rev":"1-b","_deleted":true}],"new_edits":false}
HTTP/1.1 201 Created, JSON of 3:
[]\n
> GET /d/a?open_revs=all
HTTP/1.1 200 OK, JSON of 126:
[{"ok":{"_id":"a","_rev":"2-d","v":4}},{"ok":{"_id":"a","_rev":"2-c","v":2}},{"ok":{"_id":"a","_rev":"3-f","_deleted":true}}]\n
> GET /d/b?open_revs=all&revs=true
HTTP/1.1 200 OK, JSON of 87:
[{"ok":{"_id":"b","_rev":"1-b","_deleted":true,"_revisions":{"start":1,"ids":["b"]}}}]\n
> GET /d/z?open_revs=all&revs=true
HTTP/1.1 404 Not Found, JSON of 41:
{"error":"not_found","reason":"missing"}\n
> GET /d/z?open_revs=all
HTTP/1.1 404 Not Found, JSON of 41:
{"error":"not_found","reason":"missing"}\n
# an ancestor without members: the middle of the deleted leaf's history
> PUT /d
HTTP/1.1 201 Created, JSON of 12:
{"ok":true}\n
> POST /d/_bulk_docs {"docs":[{"_id":"a","_rev":"1-a","v":1},{"_id":"a","_revisions":{"start":2,"ids":["c","a"]},"v":2},{"_id":"a","_revisions":{"start":3,"ids":["f","e","a"]},"_deleted":true},{"_id":"a","_revisions":{"start":2,"ids":["d","a"]},"v":4},{"_id":"b","_rev":"1-b","_deleted":true}],"new_edits":false}
HTTP/1.1 201 Created, JSON of 3:
[]\n
> GET /d/a?open_revs=["3-f","2-e","1-a"]&revs=true
HTTP/1.1 200 OK, JSON of 188:
[{"ok":{"_id":"a","_rev":"3-f","_deleted":true,"_revisions":{"start":3,"ids":["f","e","a"]}}},{"missing":"2-e"},{"ok":{"_id":"a","_rev":"1-a","_revisions":{"start":1,"ids":["a"]},"v":1}}]\n
# listed revisions, of which one is unknown, and one stands twice: of a document that has some, of another one, and of none
> PUT /d
HTTP/1.1 201 Created, JSON of 12:
{"ok":true}\n
> POST /d/_bulk_docs {"docs":[{"_id":"a","_rev":"1-a","v":1},{"_id":"b","_rev":"1-b","v":2},{"_id":"a","_revisions":{"start":2,"ids":["c","a"]},"v":3}],"new_edits":false}
HTTP/1.1 201 Created, JSON of 3:
[]\n
> GET /d/a?open_revs=["1-a","2-c","9-z","2-c"]&revs=true
HTTP/1.1 200 OK, JSON of 253:
[{"ok":{"_id":"a","_rev":"1-a","_revisions":{"start":1,"ids":["a"]},"v":1}},{"ok":{"_id":"a","_rev":"2-c","_revisions":{"start":2,"ids":["c","a"]},"v":3}},{"missing":"9-z"},{"ok":{"_id":"a","_rev":"2-c","_revisions":{"start":2,"ids":["c","a"]},"v":3}}]\n
> GET /d/a?open_revs=["1-a","2-c","9-z","2-c"]
HTTP/1.1 200 OK, JSON of 134:
[{"ok":{"_id":"a","_rev":"1-a","v":1}},{"ok":{"_id":"a","_rev":"2-c","v":3}},{"missing":"9-z"},{"ok":{"_id":"a","_rev":"2-c","v":3}}]\n
> GET /d/b?open_revs=["1-a","2-c","9-z","2-c"]&revs=true
HTTP/1.1 200 OK, JSON of 74:
[{"missing":"1-a"},{"missing":"2-c"},{"missing":"9-z"},{"missing":"2-c"}]\n
> GET /d/z?open_revs=["1-a","2-c","9-z","2-c"]&revs=true
HTTP/1.1 200 OK, JSON of 74:
[{"missing":"1-a"},{"missing":"2-c"},{"missing":"9-z"},{"missing":"2-c"}]\n
> GET /d/a?open_revs=%5B%221-a%22%2C%222-c%22%5D
HTTP/1.1 200 OK, JSON of 78:
[{"ok":{"_id":"a","_rev":"1-a","v":1}},{"ok":{"_id":"a","_rev":"2-c","v":3}}]\n
"#;

/// Documents whose histories come in parts and in any order, as they are shown.
pub(crate) const PARTS: &str = r#"
# a revision is shown with all that stands behind it by now, and a history that contradicts stores nothing
> PUT /d
HTTP/1.1 201 Created, JSON of 12:
{"ok":true}\n
> POST /d/_bulk_docs {"docs":[{"_id":"a","_rev":"5-e"}],"new_edits":false}
HTTP/1.1 201 Created, JSON of 3:
[]\n
> POST /d/_bulk_docs {"docs":[{"_id":"a","_revisions":{"start":6,"ids":["f","e","d"]}}],"new_edits":false}
HTTP/1.1 201 Created, JSON of 3:
[]\n
> GET /d/a?open_revs=["5-e","4-d"]&revs=true
HTTP/1.1 200 OK, JSON of 93:
[{"ok":{"_id":"a","_rev":"5-e","_revisions":{"start":5,"ids":["e","d"]}}},{"missing":"4-d"}]\n
> POST /d/_bulk_docs {"docs":[{"_id":"a","_revisions":{"start":6,"ids":["h","e","q"]}}],"new_edits":false}
HTTP/1.1 201 Created, JSON of 68:
[{"id":"a","error":"bad_request","reason":"contradicting history"}]\n
> GET /d
HTTP/1.1 200 OK, JSON of 93:
{"db_name":"d","doc_count":1,"doc_del_count":0,"update_seq":"2-1","instance_start_time":"0"}\n
# a parent that comes later: nobody says that one revision is the other's parent, until an edit does
> PUT /d
HTTP/1.1 201 Created, JSON of 12:
{"ok":true}\n
> POST /d/_bulk_docs {"docs":[{"_id":"x","_rev":"2-b"},{"_id":"x","_rev":"3-c"}],"new_edits":false}
HTTP/1.1 201 Created, JSON of 3:
[]\n
> POST /d/_bulk_docs {"docs":[{"_id":"x","_revisions":{"start":3,"ids":["c","b"]}}],"new_edits":false}
HTTP/1.1 201 Created, JSON of 3:
[]\n
> GET /d
HTTP/1.1 200 OK, JSON of 93:
{"db_name":"d","doc_count":1,"doc_del_count":0,"update_seq":"2-1","instance_start_time":"0"}\n
> GET /d/x?open_revs=all&revs=true
HTTP/1.1 200 OK, JSON of 140:
[{"ok":{"_id":"x","_rev":"3-c","_revisions":{"start":3,"ids":["c"]}}},{"ok":{"_id":"x","_rev":"2-b","_revisions":{"start":2,"ids":["b"]}}}]\n
> POST /d/_revs_diff {"x":["4-d","3-c","2-b","1-a"]}
HTTP/1.1 200 OK, JSON of 67:
{"x":{"missing":["4-d","1-a"],"possible_ancestors":["3-c","2-b"]}}\n
> POST /d/_bulk_docs {"docs":[{"_id":"x","_revisions":{"start":4,"ids":["d","c","b"]}}],"new_edits":false}
HTTP/1.1 201 Created, JSON of 3:
[]\n
> GET /d/x?open_revs=all&revs=true
HTTP/1.1 200 OK, JSON of 79:
[{"ok":{"_id":"x","_rev":"4-d","_revisions":{"start":4,"ids":["d","c","b"]}}}]\n
> GET /d/x?open_revs=["3-c","2-b"]&revs=true
HTTP/1.1 200 OK, JSON of 144:
[{"ok":{"_id":"x","_rev":"3-c","_revisions":{"start":3,"ids":["c","b"]}}},{"ok":{"_id":"x","_rev":"2-b","_revisions":{"start":2,"ids":["b"]}}}]\n
> POST /d/_bulk_docs {"docs":[{"_id":"x","_revisions":{"start":4,"ids":["e","c","q"]}}],"new_edits":false}
HTTP/1.1 201 Created, JSON of 68:
[{"id":"x","error":"bad_request","reason":"contradicting history"}]\n
> GET /d
HTTP/1.1 200 OK, JSON of 93:
{"db_name":"d","doc_count":1,"doc_del_count":0,"update_seq":"3-1","instance_start_time":"0"}\n
# a deleted revision is extended, and gets its parent then: behind the edit that was made stand three revisions by now
> PUT /d
HTTP/1.1 201 Created, JSON of 12:
{"ok":true}\n
> POST /d/_bulk_docs {"docs":[{"_id":"a","_deleted":true,"_rev":"3-c"}],"new_edits":false}
HTTP/1.1 201 Created, JSON of 3:
[]\n
> GET /d
HTTP/1.1 200 OK, JSON of 93:
{"db_name":"d","doc_count":0,"doc_del_count":1,"update_seq":"1-1","instance_start_time":"0"}\n
> PUT /d/a {}
HTTP/1.1 201 Created, JSON of 64:
{"ok":true,"id":"a","rev":"4-e4e0d18c32e6aa308b581d5741ad8080"}\n
> GET /d
HTTP/1.1 200 OK, JSON of 93:
{"db_name":"d","doc_count":1,"doc_del_count":0,"update_seq":"2-1","instance_start_time":"0"}\n
> POST /d/_bulk_docs {"docs":[{"_id":"a","_revisions":{"start":4,"ids":["d","c","b"]},"_deleted":true}],"new_edits":false}
HTTP/1.1 201 Created, JSON of 3:
[]\n
> GET /d
HTTP/1.1 200 OK, JSON of 93:
{"db_name":"d","doc_count":1,"doc_del_count":0,"update_seq":"3-1","instance_start_time":"0"}\n
> GET /d/a
HTTP/1.1 200 OK, JSON of 56:
{"_id":"a","_rev":"4-e4e0d18c32e6aa308b581d5741ad8080"}\n
> GET /d/a?open_revs=all&revs=true
HTTP/1.1 200 OK, JSON of 234:
[{"ok":{"_id":"a","_rev":"4-e4e0d18c32e6aa308b581d5741ad8080","_revisions":{"start":4,"ids":["e4e0d18c32e6aa308b581d5741ad8080","c","b"]}}},{"ok":{"_id":"a","_rev":"4-d","_deleted":true,"_revisions":{"start":4,"ids":["d","c","b"]}}}]\n
"#;
