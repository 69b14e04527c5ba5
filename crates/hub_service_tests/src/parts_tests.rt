//! Parts of histories over bytes: roots that get parents, and lines that are joined.
//!
//! Four revisions come alone. Three edits beside them each bring the revisions between two of these.
//! Together they make a line with three joins. The edits come in three orders.

/// Revisions that come before their parents. Later edits bring the parents.
pub(crate) const PARTS: &str = r#"
# a revision alone, its parent that comes with a later edit, and the last generation beside them
> PUT /d
HTTP/1.1 201 Created, JSON of 12:
{"ok":true}\n
> POST /d/_bulk_docs {"docs":[{"_id":"a","_rev":"5-e"}],"new_edits":false}
HTTP/1.1 201 Created, JSON of 3:
[]\n
> GET /d/a?revs=true&open_revs=["5-e"]
HTTP/1.1 200 OK, JSON of 71:
[{"ok":{"_id":"a","_rev":"5-e","_revisions":{"start":5,"ids":["e"]}}}]\n
> POST /d/_bulk_docs {"docs":[{"_id":"a","_revisions":{"start":5,"ids":["e","d"]}}],"new_edits":false}
HTTP/1.1 201 Created, JSON of 3:
[]\n
> GET /d/a?revs=true&open_revs=["5-e"]
HTTP/1.1 200 OK, JSON of 71:
[{"ok":{"_id":"a","_rev":"5-e","_revisions":{"start":5,"ids":["e"]}}}]\n
> POST /d/_revs_diff {"a":["4-d"]}
HTTP/1.1 200 OK, JSON of 26:
{"a":{"missing":["4-d"]}}\n
> POST /d/_bulk_docs {"docs":[{"_id":"a","_revisions":{"start":6,"ids":["f","e","d"]}}],"new_edits":false}
HTTP/1.1 201 Created, JSON of 3:
[]\n
> GET /d/a?revs=true&open_revs=["6-f","5-e"]
HTTP/1.1 200 OK, JSON of 152:
[{"ok":{"_id":"a","_rev":"6-f","_revisions":{"start":6,"ids":["f","e","d"]}}},{"ok":{"_id":"a","_rev":"5-e","_revisions":{"start":5,"ids":["e","d"]}}}]\n
> GET /d/_changes?style=all_docs&include_docs=true
HTTP/1.1 200 OK, JSON in chunks:
d
{"results":[\n
4f
{"seq":"2-1","id":"a","changes":[{"rev":"6-f"}],"doc":{"_id":"a","_rev":"6-f"}}
22
\n],\n"last_seq":"2-1","pending":0}\n
last chunk
> POST /d/_bulk_docs {"docs":[{"_id":"a","_revisions":{"start":6,"ids":["h","e","q"]}}],"new_edits":false}
HTTP/1.1 201 Created, JSON of 68:
[{"id":"a","error":"bad_request","reason":"contradicting history"}]\n
> POST /d/_bulk_docs {"docs":[{"_id":"a","_rev":"65535-a"}],"new_edits":false}
HTTP/1.1 201 Created, JSON of 3:
[]\n
> PUT /d/a?rev=65535-a {}
HTTP/1.1 400 Bad Request, JSON of 52:
{"error":"bad_request","reason":"generation limit"}\n
> GET /d/_changes?style=all_docs&include_docs=true
HTTP/1.1 200 OK, JSON in chunks:
d
{"results":[\n
65
{"seq":"3-1","id":"a","changes":[{"rev":"65535-a"},{"rev":"6-f"}],"doc":{"_id":"a","_rev":"65535-a"}}
22
\n],\n"last_seq":"3-1","pending":0}\n
last chunk
# a revision gets a parent later, and its parent another one
> PUT /d
HTTP/1.1 201 Created, JSON of 12:
{"ok":true}\n
> POST /d/_bulk_docs {"docs":[{"_id":"a","_rev":"2-b"},{"_id":"a","_rev":"3-c"}],"new_edits":false}
HTTP/1.1 201 Created, JSON of 3:
[]\n
> POST /d/_bulk_docs {"docs":[{"_id":"a","_revisions":{"start":3,"ids":["c","b"]}}],"new_edits":false}
HTTP/1.1 201 Created, JSON of 3:
[]\n
> GET /d/_changes?style=all_docs&include_docs=true
HTTP/1.1 200 OK, JSON in chunks:
d
{"results":[\n
5d
{"seq":"2-1","id":"a","changes":[{"rev":"3-c"},{"rev":"2-b"}],"doc":{"_id":"a","_rev":"3-c"}}
22
\n],\n"last_seq":"2-1","pending":0}\n
last chunk
> POST /d/_bulk_docs {"docs":[{"_id":"a","_revisions":{"start":4,"ids":["d","c","b"]}}],"new_edits":false}
HTTP/1.1 201 Created, JSON of 3:
[]\n
> GET /d/_changes?style=all_docs&include_docs=true
HTTP/1.1 200 OK, JSON in chunks:
d
{"results":[\n
4f
{"seq":"3-1","id":"a","changes":[{"rev":"4-d"}],"doc":{"_id":"a","_rev":"4-d"}}
22
\n],\n"last_seq":"3-1","pending":0}\n
last chunk
> GET /d/a?revs=true&open_revs=["4-d","3-c","2-b"]
HTTP/1.1 200 OK, JSON of 221:
[{"ok":{"_id":"a","_rev":"4-d","_revisions":{"start":4,"ids":["d","c","b"]}}},{"ok":{"_id":"a","_rev":"3-c","_revisions":{"start":3,"ids":["c","b"]}}},{"ok":{"_id":"a","_rev":"2-b","_revisions":{"start":2,"ids":["b"]}}}]\n
> POST /d/_bulk_docs {"docs":[{"_id":"a","_revisions":{"start":4,"ids":["e","c","q"]}}],"new_edits":false}
HTTP/1.1 201 Created, JSON of 68:
[{"id":"a","error":"bad_request","reason":"contradicting history"}]\n
> POST /d/_bulk_docs {"docs":[{"_id":"a","_revisions":{"start":4,"ids":["e","c","b","a"]}}],"new_edits":false}
HTTP/1.1 201 Created, JSON of 3:
[]\n
> GET /d/a?revs=true&open_revs=["4-d"]
HTTP/1.1 200 OK, JSON of 83:
[{"ok":{"_id":"a","_rev":"4-d","_revisions":{"start":4,"ids":["d","c","b","a"]}}}]\n
> GET /d/_changes?style=all_docs&include_docs=true
HTTP/1.1 200 OK, JSON in chunks:
d
{"results":[\n
5d
{"seq":"4-1","id":"a","changes":[{"rev":"4-e"},{"rev":"4-d"}],"doc":{"_id":"a","_rev":"4-e"}}
22
\n],\n"last_seq":"4-1","pending":0}\n
last chunk
# several roots are joined by one history
> PUT /d
HTTP/1.1 201 Created, JSON of 12:
{"ok":true}\n
> POST /d/_bulk_docs {"docs":[{"_id":"a","_rev":"7-g"},{"_id":"a","_revisions":{"start":5,"ids":["e","d"]}},{"_id":"a","_rev":"2-b"}],"new_edits":false}
HTTP/1.1 201 Created, JSON of 3:
[]\n
> GET /d/_changes?style=all_docs&include_docs=true
HTTP/1.1 200 OK, JSON in chunks:
d
{"results":[\n
6b
{"seq":"3-1","id":"a","changes":[{"rev":"7-g"},{"rev":"5-e"},{"rev":"2-b"}],"doc":{"_id":"a","_rev":"7-g"}}
22
\n],\n"last_seq":"3-1","pending":0}\n
last chunk
> POST /d/_revs_diff {"a":["6-f","5-e","3-c"]}
HTTP/1.1 200 OK, JSON of 67:
{"a":{"missing":["6-f","3-c"],"possible_ancestors":["5-e","2-b"]}}\n
> POST /d/_bulk_docs {"docs":[{"_id":"a","_revisions":{"start":8,"ids":["h","g","f","e","d","c","b","a"]}}],"new_edits":false}
HTTP/1.1 201 Created, JSON of 3:
[]\n
> GET /d/_changes?style=all_docs&include_docs=true
HTTP/1.1 200 OK, JSON in chunks:
d
{"results":[\n
4f
{"seq":"4-1","id":"a","changes":[{"rev":"8-h"}],"doc":{"_id":"a","_rev":"8-h"}}
22
\n],\n"last_seq":"4-1","pending":0}\n
last chunk
> GET /d/a?revs=true&open_revs=["7-g","2-b"]
HTTP/1.1 200 OK, JSON of 168:
[{"ok":{"_id":"a","_rev":"7-g","_revisions":{"start":7,"ids":["g","f","e","d","c","b","a"]}}},{"ok":{"_id":"a","_rev":"2-b","_revisions":{"start":2,"ids":["b","a"]}}}]\n
> POST /d/_bulk_docs {"docs":[{"_id":"a","_revisions":{"start":8,"ids":["i","g","f","e"]}}],"new_edits":false}
HTTP/1.1 201 Created, JSON of 3:
[]\n
> GET /d/a?revs=true&open_revs=["8-i"]
HTTP/1.1 200 OK, JSON of 99:
[{"ok":{"_id":"a","_rev":"8-i","_revisions":{"start":8,"ids":["i","g","f","e","d","c","b","a"]}}}]\n
> POST /d/_bulk_docs {"docs":[{"_id":"a","_revisions":{"start":8,"ids":["j","g","f","z"]}}],"new_edits":false}
HTTP/1.1 201 Created, JSON of 68:
[{"id":"a","error":"bad_request","reason":"contradicting history"}]\n
> GET /d/_changes?style=all_docs&include_docs=true
HTTP/1.1 200 OK, JSON in chunks:
d
{"results":[\n
5d
{"seq":"5-1","id":"a","changes":[{"rev":"8-i"},{"rev":"8-h"}],"doc":{"_id":"a","_rev":"8-i"}}
22
\n],\n"last_seq":"5-1","pending":0}\n
last chunk
# a deleted revision gets a parent
> PUT /d
HTTP/1.1 201 Created, JSON of 12:
{"ok":true}\n
> POST /d/_bulk_docs {"docs":[{"_id":"a","_deleted":true,"_rev":"3-c"}],"new_edits":false}
HTTP/1.1 201 Created, JSON of 3:
[]\n
> GET /d/_changes?style=all_docs&include_docs=true
HTTP/1.1 200 OK, JSON in chunks:
d
{"results":[\n
6e
{"seq":"1-1","id":"a","changes":[{"rev":"3-c"}],"deleted":true,"doc":{"_id":"a","_rev":"3-c","_deleted":true}}
22
\n],\n"last_seq":"1-1","pending":0}\n
last chunk
> POST /d/_bulk_docs {"docs":[{"_id":"a","_rev":"2-b"}],"new_edits":false}
HTTP/1.1 201 Created, JSON of 3:
[]\n
> GET /d/_changes?style=all_docs&include_docs=true
HTTP/1.1 200 OK, JSON in chunks:
d
{"results":[\n
5d
{"seq":"2-1","id":"a","changes":[{"rev":"2-b"},{"rev":"3-c"}],"doc":{"_id":"a","_rev":"2-b"}}
22
\n],\n"last_seq":"2-1","pending":0}\n
last chunk
> PUT /d/a?rev=3-c {}
HTTP/1.1 201 Created, JSON of 64:
{"ok":true,"id":"a","rev":"4-e4e0d18c32e6aa308b581d5741ad8080"}\n
> GET /d/a?revs=true&open_revs=["4-e4e0d18c32e6aa308b581d5741ad8080"]
HTTP/1.1 200 OK, JSON of 137:
[{"ok":{"_id":"a","_rev":"4-e4e0d18c32e6aa308b581d5741ad8080","_revisions":{"start":4,"ids":["e4e0d18c32e6aa308b581d5741ad8080","c"]}}}]\n
> POST /d/_bulk_docs {"docs":[{"_id":"a","_deleted":true,"_revisions":{"start":4,"ids":["d","c","b"]}}],"new_edits":false}
HTTP/1.1 201 Created, JSON of 3:
[]\n
> GET /d/_changes?style=all_docs&include_docs=true
HTTP/1.1 200 OK, JSON in chunks:
d
{"results":[\n
9b
{"seq":"4-1","id":"a","changes":[{"rev":"4-e4e0d18c32e6aa308b581d5741ad8080"},{"rev":"4-d"}],"doc":{"_id":"a","_rev":"4-e4e0d18c32e6aa308b581d5741ad8080"}}
22
\n],\n"last_seq":"4-1","pending":0}\n
last chunk
> GET /d/a?revs=true&open_revs=["4-e4e0d18c32e6aa308b581d5741ad8080","4-d","3-c","2-b"]
HTTP/1.1 200 OK, JSON of 392:
[{"ok":{"_id":"a","_rev":"4-e4e0d18c32e6aa308b581d5741ad8080","_revisions":{"start":4,"ids":["e4e0d18c32e6aa308b581d5741ad8080","c","b"]}}},{"ok":{"_id":"a","_rev":"4-d","_deleted":true,"_revisions":{"start":4,"ids":["d","c","b"]}}},{"ok":{"_id":"a","_rev":"3-c","_deleted":true,"_revisions":{"start":3,"ids":["c","b"]}}},{"ok":{"_id":"a","_rev":"2-b","_revisions":{"start":2,"ids":["b"]}}}]\n
> PUT /d/a?rev=2-b {}
HTTP/1.1 409 Conflict, JSON of 58:
{"error":"conflict","reason":"Document update conflict."}\n
> DELETE /d/a?rev=3-c
HTTP/1.1 409 Conflict, JSON of 58:
{"error":"conflict","reason":"Document update conflict."}\n
> GET /d/_changes?style=all_docs&include_docs=true
HTTP/1.1 200 OK, JSON in chunks:
d
{"results":[\n
9b
{"seq":"4-1","id":"a","changes":[{"rev":"4-e4e0d18c32e6aa308b581d5741ad8080"},{"rev":"4-d"}],"doc":{"_id":"a","_rev":"4-e4e0d18c32e6aa308b581d5741ad8080"}}
22
\n],\n"last_seq":"4-1","pending":0}\n
last chunk
# a made revision that came alone is a conflict
> PUT /d
HTTP/1.1 201 Created, JSON of 12:
{"ok":true}\n
> POST /d/_bulk_docs {"docs":[{"_id":"a","_rev":"5-e"},{"_id":"a","_rev":"6-d0414affc1bc5f081aa5dd402947fae4"}],"new_edits":false}
HTTP/1.1 201 Created, JSON of 3:
[]\n
> PUT /d/a?rev=5-e {}
HTTP/1.1 409 Conflict, JSON of 58:
{"error":"conflict","reason":"Document update conflict."}\n
> GET /d/_changes?style=all_docs&include_docs=true
HTTP/1.1 200 OK, JSON in chunks:
d
{"results":[\n
9b
{"seq":"2-1","id":"a","changes":[{"rev":"6-d0414affc1bc5f081aa5dd402947fae4"},{"rev":"5-e"}],"doc":{"_id":"a","_rev":"6-d0414affc1bc5f081aa5dd402947fae4"}}
22
\n],\n"last_seq":"2-1","pending":0}\n
last chunk
> POST /d/_bulk_docs {"docs":[{"_id":"a","_revisions":{"start":7,"ids":["g","d0414affc1bc5f081aa5dd402947fae4","e"]}}],"new_edits":false}
HTTP/1.1 201 Created, JSON of 3:
[]\n
> GET /d/_changes?style=all_docs&include_docs=true
HTTP/1.1 200 OK, JSON in chunks:
d
{"results":[\n
4f
{"seq":"3-1","id":"a","changes":[{"rev":"7-g"}],"doc":{"_id":"a","_rev":"7-g"}}
22
\n],\n"last_seq":"3-1","pending":0}\n
last chunk
> GET /d/a?revs=true&open_revs=["6-d0414affc1bc5f081aa5dd402947fae4"]
HTTP/1.1 200 OK, JSON of 137:
[{"ok":{"_id":"a","_rev":"6-d0414affc1bc5f081aa5dd402947fae4","_revisions":{"start":6,"ids":["d0414affc1bc5f081aa5dd402947fae4","e"]}}}]\n
# a line with three joins, the lowest first
> PUT /d
HTTP/1.1 201 Created, JSON of 12:
{"ok":true}\n
> POST /d/_bulk_docs {"docs":[{"_id":"a","_rev":"2-b"},{"_id":"a","_rev":"4-d"},{"_id":"a","_rev":"6-f"},{"_id":"a","_rev":"8-h"},{"_id":"a","_revisions":{"start":5,"ids":["x","d","c","b"]}},{"_id":"a","_revisions":{"start":7,"ids":["y","f","e","d"]}},{"_id":"a","_revisions":{"start":9,"ids":["z","h","g","f"]}}],"new_edits":false}
HTTP/1.1 201 Created, JSON of 3:
[]\n
> GET /d/_changes?style=all_docs&include_docs=true
HTTP/1.1 200 OK, JSON in chunks:
d
{"results":[\n
6b
{"seq":"7-1","id":"a","changes":[{"rev":"9-z"},{"rev":"7-y"},{"rev":"5-x"}],"doc":{"_id":"a","_rev":"9-z"}}
22
\n],\n"last_seq":"7-1","pending":0}\n
last chunk
> GET /d/a?revs=true&open_revs=["9-z","8-h","7-y","7-g","5-x","3-c"]
HTTP/1.1 200 OK, JSON of 398:
[{"ok":{"_id":"a","_rev":"9-z","_revisions":{"start":9,"ids":["z","h","g","f","e","d","c","b"]}}},{"ok":{"_id":"a","_rev":"8-h","_revisions":{"start":8,"ids":["h","g","f","e","d","c","b"]}}},{"ok":{"_id":"a","_rev":"7-y","_revisions":{"start":7,"ids":["y","f","e","d","c","b"]}}},{"missing":"7-g"},{"ok":{"_id":"a","_rev":"5-x","_revisions":{"start":5,"ids":["x","d","c","b"]}}},{"missing":"3-c"}]\n
> POST /d/_revs_diff {"a":["7-g","5-e","1-a","3-c"]}
HTTP/1.1 200 OK, JSON of 26:
{"a":{"missing":["1-a"]}}\n
> POST /d/_revs_diff {"a":["8-a"]}
HTTP/1.1 200 OK, JSON of 61:
{"a":{"missing":["8-a"],"possible_ancestors":["7-y","5-x"]}}\n
> POST /d/_bulk_docs {"docs":[{"_id":"a","_revisions":{"start":10,"ids":["q","z","h","g","f","e","d","k"]}}],"new_edits":false}
HTTP/1.1 201 Created, JSON of 68:
[{"id":"a","error":"bad_request","reason":"contradicting history"}]\n
> POST /d/_bulk_docs {"docs":[{"_id":"a","_revisions":{"start":4,"ids":["w","k","b"]}},{"_id":"a","_revisions":{"start":10,"ids":["q","z","h","g","f","e","d","c","b","a"]}}],"new_edits":false}
HTTP/1.1 201 Created, JSON of 3:
[]\n
> GET /d/_changes?style=all_docs&include_docs=true
HTTP/1.1 200 OK, JSON in chunks:
d
{"results":[\n
7b
{"seq":"9-1","id":"a","changes":[{"rev":"10-q"},{"rev":"7-y"},{"rev":"5-x"},{"rev":"4-w"}],"doc":{"_id":"a","_rev":"10-q"}}
22
\n],\n"last_seq":"9-1","pending":0}\n
last chunk
> GET /d/a?revs=true&open_revs=["10-q","8-h","4-w","2-b"]
HTTP/1.1 200 OK, JSON of 360:
[{"ok":{"_id":"a","_rev":"10-q","_revisions":{"start":10,"ids":["q","z","h","g","f","e","d","c","b","a"]}}},{"ok":{"_id":"a","_rev":"8-h","_revisions":{"start":8,"ids":["h","g","f","e","d","c","b","a"]}}},{"ok":{"_id":"a","_rev":"4-w","_revisions":{"start":4,"ids":["w","k","b","a"]}}},{"ok":{"_id":"a","_rev":"2-b","_revisions":{"start":2,"ids":["b","a"]}}}]\n
> POST /d/_bulk_docs {"docs":[{"_id":"a","_revisions":{"start":3,"ids":["m","b","q"]}}],"new_edits":false}
HTTP/1.1 201 Created, JSON of 68:
[{"id":"a","error":"bad_request","reason":"contradicting history"}]\n
> GET /d/_changes?style=all_docs&include_docs=true
HTTP/1.1 200 OK, JSON in chunks:
d
{"results":[\n
7b
{"seq":"9-1","id":"a","changes":[{"rev":"10-q"},{"rev":"7-y"},{"rev":"5-x"},{"rev":"4-w"}],"doc":{"_id":"a","_rev":"10-q"}}
22
\n],\n"last_seq":"9-1","pending":0}\n
last chunk
# a line with three joins, the highest first
> PUT /d
HTTP/1.1 201 Created, JSON of 12:
{"ok":true}\n
> POST /d/_bulk_docs {"docs":[{"_id":"a","_rev":"2-b"},{"_id":"a","_rev":"4-d"},{"_id":"a","_rev":"6-f"},{"_id":"a","_rev":"8-h"},{"_id":"a","_revisions":{"start":9,"ids":["z","h","g","f"]}},{"_id":"a","_revisions":{"start":7,"ids":["y","f","e","d"]}},{"_id":"a","_revisions":{"start":5,"ids":["x","d","c","b"]}}],"new_edits":false}
HTTP/1.1 201 Created, JSON of 3:
[]\n
> GET /d/_changes?style=all_docs&include_docs=true
HTTP/1.1 200 OK, JSON in chunks:
d
{"results":[\n
6b
{"seq":"7-1","id":"a","changes":[{"rev":"9-z"},{"rev":"7-y"},{"rev":"5-x"}],"doc":{"_id":"a","_rev":"9-z"}}
22
\n],\n"last_seq":"7-1","pending":0}\n
last chunk
> GET /d/a?revs=true&open_revs=["9-z","8-h","7-y","7-g","5-x","3-c"]
HTTP/1.1 200 OK, JSON of 398:
[{"ok":{"_id":"a","_rev":"9-z","_revisions":{"start":9,"ids":["z","h","g","f","e","d","c","b"]}}},{"ok":{"_id":"a","_rev":"8-h","_revisions":{"start":8,"ids":["h","g","f","e","d","c","b"]}}},{"ok":{"_id":"a","_rev":"7-y","_revisions":{"start":7,"ids":["y","f","e","d","c","b"]}}},{"missing":"7-g"},{"ok":{"_id":"a","_rev":"5-x","_revisions":{"start":5,"ids":["x","d","c","b"]}}},{"missing":"3-c"}]\n
> POST /d/_revs_diff {"a":["7-g","5-e","1-a","3-c"]}
HTTP/1.1 200 OK, JSON of 26:
{"a":{"missing":["1-a"]}}\n
> POST /d/_revs_diff {"a":["8-a"]}
HTTP/1.1 200 OK, JSON of 61:
{"a":{"missing":["8-a"],"possible_ancestors":["7-y","5-x"]}}\n
> POST /d/_bulk_docs {"docs":[{"_id":"a","_revisions":{"start":10,"ids":["q","z","h","g","f","e","d","k"]}}],"new_edits":false}
HTTP/1.1 201 Created, JSON of 68:
[{"id":"a","error":"bad_request","reason":"contradicting history"}]\n
> POST /d/_bulk_docs {"docs":[{"_id":"a","_revisions":{"start":4,"ids":["w","k","b"]}},{"_id":"a","_revisions":{"start":10,"ids":["q","z","h","g","f","e","d","c","b","a"]}}],"new_edits":false}
HTTP/1.1 201 Created, JSON of 3:
[]\n
> GET /d/_changes?style=all_docs&include_docs=true
HTTP/1.1 200 OK, JSON in chunks:
d
{"results":[\n
7b
{"seq":"9-1","id":"a","changes":[{"rev":"10-q"},{"rev":"7-y"},{"rev":"5-x"},{"rev":"4-w"}],"doc":{"_id":"a","_rev":"10-q"}}
22
\n],\n"last_seq":"9-1","pending":0}\n
last chunk
> GET /d/a?revs=true&open_revs=["10-q","8-h","4-w","2-b"]
HTTP/1.1 200 OK, JSON of 360:
[{"ok":{"_id":"a","_rev":"10-q","_revisions":{"start":10,"ids":["q","z","h","g","f","e","d","c","b","a"]}}},{"ok":{"_id":"a","_rev":"8-h","_revisions":{"start":8,"ids":["h","g","f","e","d","c","b","a"]}}},{"ok":{"_id":"a","_rev":"4-w","_revisions":{"start":4,"ids":["w","k","b","a"]}}},{"ok":{"_id":"a","_rev":"2-b","_revisions":{"start":2,"ids":["b","a"]}}}]\n
> POST /d/_bulk_docs {"docs":[{"_id":"a","_revisions":{"start":3,"ids":["m","b","q"]}}],"new_edits":false}
HTTP/1.1 201 Created, JSON of 68:
[{"id":"a","error":"bad_request","reason":"contradicting history"}]\n
> GET /d/_changes?style=all_docs&include_docs=true
HTTP/1.1 200 OK, JSON in chunks:
d
{"results":[\n
7b
{"seq":"9-1","id":"a","changes":[{"rev":"10-q"},{"rev":"7-y"},{"rev":"5-x"},{"rev":"4-w"}],"doc":{"_id":"a","_rev":"10-q"}}
22
\n],\n"last_seq":"9-1","pending":0}\n
last chunk
# a line with three joins, the one between first
> PUT /d
HTTP/1.1 201 Created, JSON of 12:
{"ok":true}\n
> POST /d/_bulk_docs {"docs":[{"_id":"a","_rev":"2-b"},{"_id":"a","_rev":"4-d"},{"_id":"a","_rev":"6-f"},{"_id":"a","_rev":"8-h"},{"_id":"a","_revisions":{"start":7,"ids":["y","f","e","d"]}},{"_id":"a","_revisions":{"start":9,"ids":["z","h","g","f"]}},{"_id":"a","_revisions":{"start":5,"ids":["x","d","c","b"]}}],"new_edits":false}
HTTP/1.1 201 Created, JSON of 3:
[]\n
> GET /d/_changes?style=all_docs&include_docs=true
HTTP/1.1 200 OK, JSON in chunks:
d
{"results":[\n
6b
{"seq":"7-1","id":"a","changes":[{"rev":"9-z"},{"rev":"7-y"},{"rev":"5-x"}],"doc":{"_id":"a","_rev":"9-z"}}
22
\n],\n"last_seq":"7-1","pending":0}\n
last chunk
> GET /d/a?revs=true&open_revs=["9-z","8-h","7-y","7-g","5-x","3-c"]
HTTP/1.1 200 OK, JSON of 398:
[{"ok":{"_id":"a","_rev":"9-z","_revisions":{"start":9,"ids":["z","h","g","f","e","d","c","b"]}}},{"ok":{"_id":"a","_rev":"8-h","_revisions":{"start":8,"ids":["h","g","f","e","d","c","b"]}}},{"ok":{"_id":"a","_rev":"7-y","_revisions":{"start":7,"ids":["y","f","e","d","c","b"]}}},{"missing":"7-g"},{"ok":{"_id":"a","_rev":"5-x","_revisions":{"start":5,"ids":["x","d","c","b"]}}},{"missing":"3-c"}]\n
> POST /d/_revs_diff {"a":["7-g","5-e","1-a","3-c"]}
HTTP/1.1 200 OK, JSON of 26:
{"a":{"missing":["1-a"]}}\n
> POST /d/_revs_diff {"a":["8-a"]}
HTTP/1.1 200 OK, JSON of 61:
{"a":{"missing":["8-a"],"possible_ancestors":["7-y","5-x"]}}\n
> POST /d/_bulk_docs {"docs":[{"_id":"a","_revisions":{"start":10,"ids":["q","z","h","g","f","e","d","k"]}}],"new_edits":false}
HTTP/1.1 201 Created, JSON of 68:
[{"id":"a","error":"bad_request","reason":"contradicting history"}]\n
> POST /d/_bulk_docs {"docs":[{"_id":"a","_revisions":{"start":4,"ids":["w","k","b"]}},{"_id":"a","_revisions":{"start":10,"ids":["q","z","h","g","f","e","d","c","b","a"]}}],"new_edits":false}
HTTP/1.1 201 Created, JSON of 3:
[]\n
> GET /d/_changes?style=all_docs&include_docs=true
HTTP/1.1 200 OK, JSON in chunks:
d
{"results":[\n
7b
{"seq":"9-1","id":"a","changes":[{"rev":"10-q"},{"rev":"7-y"},{"rev":"5-x"},{"rev":"4-w"}],"doc":{"_id":"a","_rev":"10-q"}}
22
\n],\n"last_seq":"9-1","pending":0}\n
last chunk
> GET /d/a?revs=true&open_revs=["10-q","8-h","4-w","2-b"]
HTTP/1.1 200 OK, JSON of 360:
[{"ok":{"_id":"a","_rev":"10-q","_revisions":{"start":10,"ids":["q","z","h","g","f","e","d","c","b","a"]}}},{"ok":{"_id":"a","_rev":"8-h","_revisions":{"start":8,"ids":["h","g","f","e","d","c","b","a"]}}},{"ok":{"_id":"a","_rev":"4-w","_revisions":{"start":4,"ids":["w","k","b","a"]}}},{"ok":{"_id":"a","_rev":"2-b","_revisions":{"start":2,"ids":["b","a"]}}}]\n
> POST /d/_bulk_docs {"docs":[{"_id":"a","_revisions":{"start":3,"ids":["m","b","q"]}}],"new_edits":false}
HTTP/1.1 201 Created, JSON of 68:
[{"id":"a","error":"bad_request","reason":"contradicting history"}]\n
> GET /d/_changes?style=all_docs&include_docs=true
HTTP/1.1 200 OK, JSON in chunks:
d
{"results":[\n
7b
{"seq":"9-1","id":"a","changes":[{"rev":"10-q"},{"rev":"7-y"},{"rev":"5-x"},{"rev":"4-w"}],"doc":{"_id":"a","_rev":"10-q"}}
22
\n],\n"last_seq":"9-1","pending":0}\n
last chunk
"#;
