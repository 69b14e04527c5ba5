//! Trees of revisions over bytes: their revisions, and which leaf wins.

/// Winners, leaves, missing revisions and paths of small trees.
pub(crate) const TREES: &str = r#"
# what is known already changes nothing
> PUT /d
HTTP/1.1 201 Created, JSON of 12:
{"ok":true}\n
> POST /d/_bulk_docs {"docs":[{"_id":"d","_revisions":{"start":2,"ids":["y","x"]}}],"new_edits":false}
HTTP/1.1 201 Created, JSON of 3:
[]\n
> POST /d/_bulk_docs {"docs":[{"_id":"d","_revisions":{"start":2,"ids":["y","x"]}}],"new_edits":false}
HTTP/1.1 201 Created, JSON of 3:
[]\n
> POST /d/_bulk_docs {"docs":[{"_id":"d","_revisions":{"start":2,"ids":["y","q"]}}],"new_edits":false}
HTTP/1.1 201 Created, JSON of 3:
[]\n
> POST /d/_bulk_docs {"docs":[{"_id":"d","_rev":"1-x"}],"new_edits":false}
HTTP/1.1 201 Created, JSON of 3:
[]\n
> GET /d/_changes?style=all_docs&include_docs=true
HTTP/1.1 200 OK, JSON in chunks:
d
{"results":[\n
4f
{"seq":"1-1","id":"d","changes":[{"rev":"2-y"}],"doc":{"_id":"d","_rev":"2-y"}}
22
\n],\n"last_seq":"1-1","pending":0}\n
last chunk
# branches are merged on what is known
> PUT /d
HTTP/1.1 201 Created, JSON of 12:
{"ok":true}\n
> POST /d/_bulk_docs {"docs":[{"_id":"d","_revisions":{"start":3,"ids":["c","b","a"]}}],"new_edits":false}
HTTP/1.1 201 Created, JSON of 3:
[]\n
> POST /d/_bulk_docs {"docs":[{"_id":"d","_revisions":{"start":3,"ids":["d","b","a"]}}],"new_edits":false}
HTTP/1.1 201 Created, JSON of 3:
[]\n
> GET /d/_changes?style=all_docs&include_docs=true
HTTP/1.1 200 OK, JSON in chunks:
d
{"results":[\n
5d
{"seq":"2-1","id":"d","changes":[{"rev":"3-d"},{"rev":"3-c"}],"doc":{"_id":"d","_rev":"3-d"}}
22
\n],\n"last_seq":"2-1","pending":0}\n
last chunk
> GET /d/d?revs=true&open_revs=["3-d","3-c","2-b"]
HTTP/1.1 200 OK, JSON of 174:
[{"ok":{"_id":"d","_rev":"3-d","_revisions":{"start":3,"ids":["d","b","a"]}}},{"ok":{"_id":"d","_rev":"3-c","_revisions":{"start":3,"ids":["c","b","a"]}}},{"missing":"2-b"}]\n
> POST /d/_bulk_docs {"docs":[{"_id":"d","_revisions":{"start":2,"ids":["b","a"]}}],"new_edits":false}
HTTP/1.1 201 Created, JSON of 3:
[]\n
> POST /d/_revs_diff {"d":["2-b","3-d"]}
HTTP/1.1 200 OK, JSON of 3:
{}\n
> GET /d/_changes?style=all_docs&include_docs=true
HTTP/1.1 200 OK, JSON in chunks:
d
{"results":[\n
5d
{"seq":"2-1","id":"d","changes":[{"rev":"3-d"},{"rev":"3-c"}],"doc":{"_id":"d","_rev":"3-d"}}
22
\n],\n"last_seq":"2-1","pending":0}\n
last chunk
# common histories: each revision has all that stands behind it
> PUT /d
HTTP/1.1 201 Created, JSON of 12:
{"ok":true}\n
> POST /d/_bulk_docs {"docs":[{"_id":"d","_revisions":{"start":3,"ids":["c","b","a"]}},{"_id":"d","_revisions":{"start":4,"ids":["d","c","b","a"]}},{"_id":"d","_revisions":{"start":5,"ids":["f","e","c","b","a"]}},{"_id":"d","_revisions":{"start":2,"ids":["g","a"]}}],"new_edits":false}
HTTP/1.1 201 Created, JSON of 3:
[]\n
> GET /d/_changes?style=all_docs&include_docs=true
HTTP/1.1 200 OK, JSON in chunks:
d
{"results":[\n
6b
{"seq":"4-1","id":"d","changes":[{"rev":"5-f"},{"rev":"4-d"},{"rev":"2-g"}],"doc":{"_id":"d","_rev":"5-f"}}
22
\n],\n"last_seq":"4-1","pending":0}\n
last chunk
> GET /d/d?revs=true&open_revs=["4-d","5-f","4-e","2-g"]
HTTP/1.1 200 OK, JSON of 259:
[{"ok":{"_id":"d","_rev":"4-d","_revisions":{"start":4,"ids":["d","c","b","a"]}}},{"ok":{"_id":"d","_rev":"5-f","_revisions":{"start":5,"ids":["f","e","c","b","a"]}}},{"missing":"4-e"},{"ok":{"_id":"d","_rev":"2-g","_revisions":{"start":2,"ids":["g","a"]}}}]\n
> POST /d/_revs_diff {"d":["4-e","1-a","3-b"]}
HTTP/1.1 200 OK, JSON of 55:
{"d":{"missing":["3-b"],"possible_ancestors":["2-g"]}}\n
# contradictions change nothing
> PUT /d
HTTP/1.1 201 Created, JSON of 12:
{"ok":true}\n
> POST /d/_bulk_docs {"docs":[{"_id":"d","_revisions":{"start":2,"ids":["y","x"]}}],"new_edits":false}
HTTP/1.1 201 Created, JSON of 3:
[]\n
> POST /d/_bulk_docs {"docs":[{"_id":"d","_revisions":{"start":3,"ids":["w","y","q"]}}],"new_edits":false}
HTTP/1.1 201 Created, JSON of 68:
[{"id":"d","error":"bad_request","reason":"contradicting history"}]\n
> POST /d/_bulk_docs {"docs":[{"_id":"d","_revisions":{"start":4,"ids":["v","w","y","q"]}}],"new_edits":false}
HTTP/1.1 201 Created, JSON of 68:
[{"id":"d","error":"bad_request","reason":"contradicting history"}]\n
> GET /d/_changes?style=all_docs&include_docs=true
HTTP/1.1 200 OK, JSON in chunks:
d
{"results":[\n
4f
{"seq":"1-1","id":"d","changes":[{"rev":"2-y"}],"doc":{"_id":"d","_rev":"2-y"}}
22
\n],\n"last_seq":"1-1","pending":0}\n
last chunk
> POST /d/_revs_diff {"d":["3-w"]}
HTTP/1.1 200 OK, JSON of 55:
{"d":{"missing":["3-w"],"possible_ancestors":["2-y"]}}\n
> DELETE /d/d?rev=2-y
HTTP/1.1 200 OK, JSON of 64:
{"ok":true,"id":"d","rev":"3-de52d295c3005253619b60ed75c2c0ee"}\n
> GET /d/_changes?style=all_docs&include_docs=true
HTTP/1.1 200 OK, JSON in chunks:
d
{"results":[\n
ac
{"seq":"2-1","id":"d","changes":[{"rev":"3-de52d295c3005253619b60ed75c2c0ee"}],"deleted":true,"doc":{"_id":"d","_rev":"3-de52d295c3005253619b60ed75c2c0ee","_deleted":true}}
22
\n],\n"last_seq":"2-1","pending":0}\n
last chunk
> GET /d/d?revs=true&open_revs=["3-de52d295c3005253619b60ed75c2c0ee"]
HTTP/1.1 200 OK, JSON of 157:
[{"ok":{"_id":"d","_rev":"3-de52d295c3005253619b60ed75c2c0ee","_deleted":true,"_revisions":{"start":3,"ids":["de52d295c3005253619b60ed75c2c0ee","y","x"]}}}]\n
# leaves stand best first
> PUT /d
HTTP/1.1 201 Created, JSON of 12:
{"ok":true}\n
> POST /d/_bulk_docs {"docs":[{"_id":"d","_rev":"1-q"},{"_id":"d","_deleted":true,"_revisions":{"start":2,"ids":["b","q"]}},{"_id":"d","_rev":"1-z"},{"_id":"d","_revisions":{"start":2,"ids":["a","q"]}}],"new_edits":false}
HTTP/1.1 201 Created, JSON of 3:
[]\n
> GET /d/_changes?style=all_docs&include_docs=true
HTTP/1.1 200 OK, JSON in chunks:
d
{"results":[\n
6b
{"seq":"4-1","id":"d","changes":[{"rev":"2-a"},{"rev":"1-z"},{"rev":"2-b"}],"doc":{"_id":"d","_rev":"2-a"}}
22
\n],\n"last_seq":"4-1","pending":0}\n
last chunk
# missing revisions, and possible ancestors, which are lower leaves
> PUT /d
HTTP/1.1 201 Created, JSON of 12:
{"ok":true}\n
> POST /d/_revs_diff {"a":["1-a"]}
HTTP/1.1 200 OK, JSON of 26:
{"a":{"missing":["1-a"]}}\n
> POST /d/_bulk_docs {"docs":[{"_id":"a","_rev":"1-a","v":1},{"_id":"a","_revisions":{"start":2,"ids":["c","a"]},"v":2}],"new_edits":false}
HTTP/1.1 201 Created, JSON of 3:
[]\n
> POST /d/_revs_diff {"a":["1-a","2-d","3-e"]}
HTTP/1.1 200 OK, JSON of 61:
{"a":{"missing":["2-d","3-e"],"possible_ancestors":["2-c"]}}\n
> POST /d/_revs_diff {"a":["2-d","1-a","2-d"]}
HTTP/1.1 200 OK, JSON of 32:
{"a":{"missing":["2-d","2-d"]}}\n
> POST /d/_revs_diff {"a":["1-a"]}
HTTP/1.1 200 OK, JSON of 3:
{}\n
> POST /d/_revs_diff {"a":["3-e","2-d"]}
HTTP/1.1 200 OK, JSON of 61:
{"a":{"missing":["3-e","2-d"],"possible_ancestors":["2-c"]}}\n
> POST /d/_revs_diff {"a":["2-d"]}
HTTP/1.1 200 OK, JSON of 26:
{"a":{"missing":["2-d"]}}\n
> POST /d/_bulk_docs {"docs":[{"_id":"a","_rev":"1-z"}],"new_edits":false}
HTTP/1.1 201 Created, JSON of 3:
[]\n
> POST /d/_revs_diff {"a":["2-d","3-e"]}
HTTP/1.1 200 OK, JSON of 67:
{"a":{"missing":["2-d","3-e"],"possible_ancestors":["2-c","1-z"]}}\n
> POST /d/_revs_diff {"a":["2-d"]}
HTTP/1.1 200 OK, JSON of 55:
{"a":{"missing":["2-d"],"possible_ancestors":["1-z"]}}\n
> POST /d/_revs_diff {"a":["1-b"]}
HTTP/1.1 200 OK, JSON of 26:
{"a":{"missing":["1-b"]}}\n
> POST /d/_revs_diff {"a":["1-z"]}
HTTP/1.1 200 OK, JSON of 3:
{}\n
> POST /d/_revs_diff {"a":[]}
HTTP/1.1 200 OK, JSON of 3:
{}\n
# paths of known revisions, and bodies; an ancestor inside a history has none
> PUT /d
HTTP/1.1 201 Created, JSON of 12:
{"ok":true}\n
> POST /d/_bulk_docs {"docs":[{"_id":"a","_revisions":{"start":2,"ids":["c","a"]}}],"new_edits":false}
HTTP/1.1 201 Created, JSON of 3:
[]\n
> GET /d/a?revs=true&open_revs=["1-a"]
HTTP/1.1 200 OK, JSON of 20:
[{"missing":"1-a"}]\n
> POST /d/_revs_diff {"a":["1-a"]}
HTTP/1.1 200 OK, JSON of 3:
{}\n
> POST /d/_bulk_docs {"docs":[{"_id":"b","_rev":"1-a","v":1},{"_id":"b","_revisions":{"start":2,"ids":["c","a"]},"v":2},{"_id":"b","_revisions":{"start":4,"ids":["e","d","c","a"]}}],"new_edits":false}
HTTP/1.1 201 Created, JSON of 3:
[]\n
> GET /d/b?revs=true&open_revs=["1-a","2-c","3-d","4-e","9-z"]
HTTP/1.1 200 OK, JSON of 273:
[{"ok":{"_id":"b","_rev":"1-a","_revisions":{"start":1,"ids":["a"]},"v":1}},{"ok":{"_id":"b","_rev":"2-c","_revisions":{"start":2,"ids":["c","a"]},"v":2}},{"missing":"3-d"},{"ok":{"_id":"b","_rev":"4-e","_revisions":{"start":4,"ids":["e","d","c","a"]}}},{"missing":"9-z"}]\n
> POST /d/_revs_diff {"b":["3-d","9-z"]}
HTTP/1.1 200 OK, JSON of 55:
{"b":{"missing":["9-z"],"possible_ancestors":["4-e"]}}\n
# the winner of a line with a conflict beside it
> PUT /d
HTTP/1.1 201 Created, JSON of 12:
{"ok":true}\n
> POST /d/_bulk_docs {"docs":[{"_id":"a","_rev":"1-a"}],"new_edits":false}
HTTP/1.1 201 Created, JSON of 3:
[]\n
> GET /d/_changes?include_docs=true
HTTP/1.1 200 OK, JSON in chunks:
d
{"results":[\n
4f
{"seq":"1-1","id":"a","changes":[{"rev":"1-a"}],"doc":{"_id":"a","_rev":"1-a"}}
22
\n],\n"last_seq":"1-1","pending":0}\n
last chunk
> POST /d/_bulk_docs {"docs":[{"_id":"a","_revisions":{"start":2,"ids":["b","a"]}}],"new_edits":false}
HTTP/1.1 201 Created, JSON of 3:
[]\n
> GET /d/_changes?include_docs=true
HTTP/1.1 200 OK, JSON in chunks:
d
{"results":[\n
4f
{"seq":"2-1","id":"a","changes":[{"rev":"2-b"}],"doc":{"_id":"a","_rev":"2-b"}}
22
\n],\n"last_seq":"2-1","pending":0}\n
last chunk
> POST /d/_bulk_docs {"docs":[{"_id":"a","_revisions":{"start":2,"ids":["a","a"]}}],"new_edits":false}
HTTP/1.1 201 Created, JSON of 3:
[]\n
> GET /d/_changes?include_docs=true
HTTP/1.1 200 OK, JSON in chunks:
d
{"results":[\n
4f
{"seq":"3-1","id":"a","changes":[{"rev":"2-b"}],"doc":{"_id":"a","_rev":"2-b"}}
22
\n],\n"last_seq":"3-1","pending":0}\n
last chunk
> POST /d/_bulk_docs {"docs":[{"_id":"a","_revisions":{"start":3,"ids":["c","b","a"]}}],"new_edits":false}
HTTP/1.1 201 Created, JSON of 3:
[]\n
> GET /d/_changes?include_docs=true
HTTP/1.1 200 OK, JSON in chunks:
d
{"results":[\n
4f
{"seq":"4-1","id":"a","changes":[{"rev":"3-c"}],"doc":{"_id":"a","_rev":"3-c"}}
22
\n],\n"last_seq":"4-1","pending":0}\n
last chunk
> POST /d/_bulk_docs {"docs":[{"_id":"a","_deleted":true,"_revisions":{"start":4,"ids":["d","c","b","a"]}}],"new_edits":false}
HTTP/1.1 201 Created, JSON of 3:
[]\n
> GET /d/_changes?include_docs=true
HTTP/1.1 200 OK, JSON in chunks:
d
{"results":[\n
4f
{"seq":"5-1","id":"a","changes":[{"rev":"2-a"}],"doc":{"_id":"a","_rev":"2-a"}}
22
\n],\n"last_seq":"5-1","pending":0}\n
last chunk
> POST /d/_bulk_docs {"docs":[{"_id":"a","_revisions":{"start":3,"ids":["e","a","a"]}}],"new_edits":false}
HTTP/1.1 201 Created, JSON of 3:
[]\n
> GET /d/_changes?include_docs=true
HTTP/1.1 200 OK, JSON in chunks:
d
{"results":[\n
4f
{"seq":"6-1","id":"a","changes":[{"rev":"3-e"}],"doc":{"_id":"a","_rev":"3-e"}}
22
\n],\n"last_seq":"6-1","pending":0}\n
last chunk
> POST /d/_bulk_docs {"docs":[{"_id":"a","_deleted":true,"_revisions":{"start":4,"ids":["f","e","a","a"]}}],"new_edits":false}
HTTP/1.1 201 Created, JSON of 3:
[]\n
> GET /d/_changes?include_docs=true
HTTP/1.1 200 OK, JSON in chunks:
d
{"results":[\n
6e
{"seq":"7-1","id":"a","changes":[{"rev":"4-f"}],"deleted":true,"doc":{"_id":"a","_rev":"4-f","_deleted":true}}
22
\n],\n"last_seq":"7-1","pending":0}\n
last chunk
> POST /d/_bulk_docs {"docs":[{"_id":"a","_revisions":{"start":5,"ids":["g","d","c","b","a"]}}],"new_edits":false}
HTTP/1.1 201 Created, JSON of 3:
[]\n
> GET /d/_changes?include_docs=true
HTTP/1.1 200 OK, JSON in chunks:
d
{"results":[\n
4f
{"seq":"8-1","id":"a","changes":[{"rev":"5-g"}],"doc":{"_id":"a","_rev":"5-g"}}
22
\n],\n"last_seq":"8-1","pending":0}\n
last chunk
> POST /d/_bulk_docs {"docs":[{"_id":"a","_deleted":true,"_revisions":{"start":7,"ids":["k","j","g","d","c","b","a"]}}],"new_edits":false}
HTTP/1.1 201 Created, JSON of 3:
[]\n
> GET /d/_changes?include_docs=true
HTTP/1.1 200 OK, JSON in chunks:
d
{"results":[\n
6e
{"seq":"9-1","id":"a","changes":[{"rev":"7-k"}],"deleted":true,"doc":{"_id":"a","_rev":"7-k","_deleted":true}}
22
\n],\n"last_seq":"9-1","pending":0}\n
last chunk
> POST /d/_bulk_docs {"docs":[{"_id":"a","_revisions":{"start":2,"ids":["m","a"]}}],"new_edits":false}
HTTP/1.1 201 Created, JSON of 3:
[]\n
> GET /d/_changes?include_docs=true
HTTP/1.1 200 OK, JSON in chunks:
d
{"results":[\n
50
{"seq":"10-1","id":"a","changes":[{"rev":"2-m"}],"doc":{"_id":"a","_rev":"2-m"}}
23
\n],\n"last_seq":"10-1","pending":0}\n
last chunk
> GET /d/_changes?style=all_docs&include_docs=true
HTTP/1.1 200 OK, JSON in chunks:
d
{"results":[\n
6c
{"seq":"10-1","id":"a","changes":[{"rev":"2-m"},{"rev":"7-k"},{"rev":"4-f"}],"doc":{"_id":"a","_rev":"2-m"}}
23
\n],\n"last_seq":"10-1","pending":0}\n
last chunk
# winners and edits with their members
> PUT /d
HTTP/1.1 201 Created, JSON of 12:
{"ok":true}\n
> POST /d/_bulk_docs {"docs":[{"_id":"a","_rev":"1-a","v":1}],"new_edits":false}
HTTP/1.1 201 Created, JSON of 3:
[]\n
> GET /d/_changes?style=all_docs&include_docs=true
HTTP/1.1 200 OK, JSON in chunks:
d
{"results":[\n
55
{"seq":"1-1","id":"a","changes":[{"rev":"1-a"}],"doc":{"_id":"a","_rev":"1-a","v":1}}
22
\n],\n"last_seq":"1-1","pending":0}\n
last chunk
> POST /d/_bulk_docs {"docs":[{"_id":"a","_revisions":{"start":2,"ids":["d41d8cd98f00b204e9800998ecf8427e","a"]},"v":2}],"new_edits":false}
HTTP/1.1 201 Created, JSON of 3:
[]\n
> GET /d/_changes?style=all_docs&include_docs=true
HTTP/1.1 200 OK, JSON in chunks:
d
{"results":[\n
93
{"seq":"2-1","id":"a","changes":[{"rev":"2-d41d8cd98f00b204e9800998ecf8427e"}],"doc":{"_id":"a","_rev":"2-d41d8cd98f00b204e9800998ecf8427e","v":2}}
22
\n],\n"last_seq":"2-1","pending":0}\n
last chunk
> POST /d/_bulk_docs {"docs":[{"_id":"a","_deleted":true,"_revisions":{"start":3,"ids":["c","d41d8cd98f00b204e9800998ecf8427e"]}}],"new_edits":false}
HTTP/1.1 201 Created, JSON of 3:
[]\n
> GET /d/_changes?style=all_docs&include_docs=true
HTTP/1.1 200 OK, JSON in chunks:
d
{"results":[\n
6e
{"seq":"3-1","id":"a","changes":[{"rev":"3-c"}],"deleted":true,"doc":{"_id":"a","_rev":"3-c","_deleted":true}}
22
\n],\n"last_seq":"3-1","pending":0}\n
last chunk
> POST /d/_bulk_docs {"docs":[{"_id":"a","_revisions":{"start":2,"ids":["y","x"]},"v":3}],"new_edits":false}
HTTP/1.1 201 Created, JSON of 3:
[]\n
> GET /d/_changes?style=all_docs&include_docs=true
HTTP/1.1 200 OK, JSON in chunks:
d
{"results":[\n
63
{"seq":"4-1","id":"a","changes":[{"rev":"2-y"},{"rev":"3-c"}],"doc":{"_id":"a","_rev":"2-y","v":3}}
22
\n],\n"last_seq":"4-1","pending":0}\n
last chunk
> POST /d/_bulk_docs {"docs":[{"_id":"a","_deleted":true,"_revisions":{"start":3,"ids":["z","y"]}}],"new_edits":false}
HTTP/1.1 201 Created, JSON of 3:
[]\n
> GET /d/_changes?style=all_docs&include_docs=true
HTTP/1.1 200 OK, JSON in chunks:
d
{"results":[\n
7c
{"seq":"5-1","id":"a","changes":[{"rev":"3-z"},{"rev":"3-c"}],"deleted":true,"doc":{"_id":"a","_rev":"3-z","_deleted":true}}
22
\n],\n"last_seq":"5-1","pending":0}\n
last chunk
> GET /d/a?revs=true&open_revs=["1-a","2-d41d8cd98f00b204e9800998ecf8427e","3-c","2-y","3-z","1-x","9-z"]
HTTP/1.1 200 OK, JSON of 550:
[{"ok":{"_id":"a","_rev":"1-a","_revisions":{"start":1,"ids":["a"]},"v":1}},{"ok":{"_id":"a","_rev":"2-d41d8cd98f00b204e9800998ecf8427e","_revisions":{"start":2,"ids":["d41d8cd98f00b204e9800998ecf8427e","a"]},"v":2}},{"ok":{"_id":"a","_rev":"3-c","_deleted":true,"_revisions":{"start":3,"ids":["c","d41d8cd98f00b204e9800998ecf8427e","a"]}}},{"ok":{"_id":"a","_rev":"2-y","_revisions":{"start":2,"ids":["y","x"]},"v":3}},{"ok":{"_id":"a","_rev":"3-z","_deleted":true,"_revisions":{"start":3,"ids":["z","y","x"]}}},{"missing":"1-x"},{"missing":"9-z"}]\n
"#;
