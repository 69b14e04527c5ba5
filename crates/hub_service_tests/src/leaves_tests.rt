//! Edits over bytes: on leaves and on other revisions, and trees of digests.
//!
//! The hash of a revision that is made here is the MD5 of `[deleted,parent,id,body]`.

/// Edits on leaves, and on revisions that are no leaf.
pub(crate) const EDITS: &str = r#"
# edits on what is above the highest generation, on no leaf, and on the leaf
> PUT /d
HTTP/1.1 201 Created, JSON of 12:
{"ok":true}\n
> POST /d/_bulk_docs {"docs":[{"_id":"a","_revisions":{"start":3,"ids":["c","b","a"]}}],"new_edits":false}
HTTP/1.1 201 Created, JSON of 3:
[]\n
> POST /d/_revs_diff {"a":["4-d","3-c","3-d","2-b","65535-a"]}
HTTP/1.1 200 OK, JSON of 71:
{"a":{"missing":["4-d","3-d","65535-a"],"possible_ancestors":["3-c"]}}\n
> POST /d/_revs_diff {"a":["4-d"]}
HTTP/1.1 200 OK, JSON of 55:
{"a":{"missing":["4-d"],"possible_ancestors":["3-c"]}}\n
> PUT /d/a?rev=4-d {}
HTTP/1.1 409 Conflict, JSON of 58:
{"error":"conflict","reason":"Document update conflict."}\n
> PUT /d/a?rev=3-d {}
HTTP/1.1 409 Conflict, JSON of 58:
{"error":"conflict","reason":"Document update conflict."}\n
> PUT /d/a?rev=2-b {}
HTTP/1.1 409 Conflict, JSON of 58:
{"error":"conflict","reason":"Document update conflict."}\n
> PUT /d/a?rev=3-c {}
HTTP/1.1 201 Created, JSON of 64:
{"ok":true,"id":"a","rev":"4-e4e0d18c32e6aa308b581d5741ad8080"}\n
> GET /d/a?revs=true&open_revs=["4-e4e0d18c32e6aa308b581d5741ad8080"]
HTTP/1.1 200 OK, JSON of 145:
[{"ok":{"_id":"a","_rev":"4-e4e0d18c32e6aa308b581d5741ad8080","_revisions":{"start":4,"ids":["e4e0d18c32e6aa308b581d5741ad8080","c","b","a"]}}}]\n
> POST /d/_revs_diff {"a":["5-d","4-e4e0d18c32e6aa308b581d5741ad8080"]}
HTTP/1.1 200 OK, JSON of 86:
{"a":{"missing":["5-d"],"possible_ancestors":["4-e4e0d18c32e6aa308b581d5741ad8080"]}}\n
> PUT /d/a?rev=3-c {}
HTTP/1.1 409 Conflict, JSON of 58:
{"error":"conflict","reason":"Document update conflict."}\n
> GET /d/_changes?style=all_docs&include_docs=true
HTTP/1.1 200 OK, JSON in chunks:
d
{"results":[\n
8d
{"seq":"2-1","id":"a","changes":[{"rev":"4-e4e0d18c32e6aa308b581d5741ad8080"}],"doc":{"_id":"a","_rev":"4-e4e0d18c32e6aa308b581d5741ad8080"}}
22
\n],\n"last_seq":"2-1","pending":0}\n
last chunk
# edits follow one another
> PUT /d
HTTP/1.1 201 Created, JSON of 12:
{"ok":true}\n
> PUT /d/a {}
HTTP/1.1 201 Created, JSON of 64:
{"ok":true,"id":"a","rev":"1-dfddbf319adb018d1e5ac3465b83542c"}\n
> PUT /d/a {}
HTTP/1.1 409 Conflict, JSON of 58:
{"error":"conflict","reason":"Document update conflict."}\n
> GET /d/_changes?style=all_docs&include_docs=true
HTTP/1.1 200 OK, JSON in chunks:
d
{"results":[\n
8d
{"seq":"1-1","id":"a","changes":[{"rev":"1-dfddbf319adb018d1e5ac3465b83542c"}],"doc":{"_id":"a","_rev":"1-dfddbf319adb018d1e5ac3465b83542c"}}
22
\n],\n"last_seq":"1-1","pending":0}\n
last chunk
> send PUT /d/a {"_rev":"1-dfddbf319adb018d1e5ac3465b83542c","_deleted":true}
HTTP/1.1 201 Created, JSON of 64:
{"ok":true,"id":"a","rev":"2-870d76c302165a079d4197c8440353e5"}\n
> DELETE /d/a?rev=1-dfddbf319adb018d1e5ac3465b83542c
HTTP/1.1 200 OK, JSON of 64:
{"ok":true,"id":"a","rev":"2-870d76c302165a079d4197c8440353e5"}\n
> GET /d/a?revs=true&open_revs=["2-870d76c302165a079d4197c8440353e5"]
HTTP/1.1 200 OK, JSON of 184:
[{"ok":{"_id":"a","_rev":"2-870d76c302165a079d4197c8440353e5","_deleted":true,"_revisions":{"start":2,"ids":["870d76c302165a079d4197c8440353e5","dfddbf319adb018d1e5ac3465b83542c"]}}}]\n
> send PUT /d/a?rev=2-870d76c302165a079d4197c8440353e5 {}
HTTP/1.1 201 Created, JSON of 64:
{"ok":true,"id":"a","rev":"3-4c5ef0d207f3957b7fd603081c6ea42d"}\n
> PUT /d/a {}
HTTP/1.1 201 Created, JSON of 64:
{"ok":true,"id":"a","rev":"3-4c5ef0d207f3957b7fd603081c6ea42d"}\n
> GET /d/_changes?style=all_docs&include_docs=true
HTTP/1.1 200 OK, JSON in chunks:
d
{"results":[\n
8d
{"seq":"3-1","id":"a","changes":[{"rev":"3-4c5ef0d207f3957b7fd603081c6ea42d"}],"doc":{"_id":"a","_rev":"3-4c5ef0d207f3957b7fd603081c6ea42d"}}
22
\n],\n"last_seq":"3-1","pending":0}\n
last chunk
> GET /d/a?revs=true&open_revs=["3-4c5ef0d207f3957b7fd603081c6ea42d"]
HTTP/1.1 200 OK, JSON of 203:
[{"ok":{"_id":"a","_rev":"3-4c5ef0d207f3957b7fd603081c6ea42d","_revisions":{"start":3,"ids":["4c5ef0d207f3957b7fd603081c6ea42d","870d76c302165a079d4197c8440353e5","dfddbf319adb018d1e5ac3465b83542c"]}}}]\n
# only leaves are extended
> PUT /d
HTTP/1.1 201 Created, JSON of 12:
{"ok":true}\n
> POST /d/_bulk_docs {"docs":[{"_id":"a","_rev":"1-a"},{"_id":"a","_revisions":{"start":2,"ids":["c","b"]}}],"new_edits":false}
HTTP/1.1 201 Created, JSON of 3:
[]\n
> PUT /d/a?rev=1-b {}
HTTP/1.1 409 Conflict, JSON of 58:
{"error":"conflict","reason":"Document update conflict."}\n
> PUT /d/a?rev=9-z {}
HTTP/1.1 409 Conflict, JSON of 58:
{"error":"conflict","reason":"Document update conflict."}\n
> PUT /d/a?rev=2-a {}
HTTP/1.1 409 Conflict, JSON of 58:
{"error":"conflict","reason":"Document update conflict."}\n
> GET /d/_changes?style=all_docs&include_docs=true
HTTP/1.1 200 OK, JSON in chunks:
d
{"results":[\n
5d
{"seq":"2-1","id":"a","changes":[{"rev":"2-c"},{"rev":"1-a"}],"doc":{"_id":"a","_rev":"2-c"}}
22
\n],\n"last_seq":"2-1","pending":0}\n
last chunk
# conflicting leaves are extended
> PUT /d
HTTP/1.1 201 Created, JSON of 12:
{"ok":true}\n
> POST /d/_bulk_docs {"docs":[{"_id":"a","_rev":"1-a"},{"_id":"a","_rev":"1-b"}],"new_edits":false}
HTTP/1.1 201 Created, JSON of 3:
[]\n
> PUT /d/a?rev=1-a {}
HTTP/1.1 201 Created, JSON of 64:
{"ok":true,"id":"a","rev":"2-5b422ec71a54e904129dfa7cff6017b4"}\n
> GET /d/_changes?style=all_docs&include_docs=true
HTTP/1.1 200 OK, JSON in chunks:
d
{"results":[\n
9b
{"seq":"3-1","id":"a","changes":[{"rev":"2-5b422ec71a54e904129dfa7cff6017b4"},{"rev":"1-b"}],"doc":{"_id":"a","_rev":"2-5b422ec71a54e904129dfa7cff6017b4"}}
22
\n],\n"last_seq":"3-1","pending":0}\n
last chunk
# a made revision that is known is a conflict
> PUT /d
HTTP/1.1 201 Created, JSON of 12:
{"ok":true}\n
> POST /d/_bulk_docs {"docs":[{"_id":"a","_rev":"1-a"},{"_id":"a","_revisions":{"start":2,"ids":["5b422ec71a54e904129dfa7cff6017b4","q"]}}],"new_edits":false}
HTTP/1.1 201 Created, JSON of 3:
[]\n
> PUT /d/a?rev=1-a {}
HTTP/1.1 409 Conflict, JSON of 58:
{"error":"conflict","reason":"Document update conflict."}\n
> GET /d/_changes?style=all_docs&include_docs=true
HTTP/1.1 200 OK, JSON in chunks:
d
{"results":[\n
9b
{"seq":"2-1","id":"a","changes":[{"rev":"2-5b422ec71a54e904129dfa7cff6017b4"},{"rev":"1-a"}],"doc":{"_id":"a","_rev":"2-5b422ec71a54e904129dfa7cff6017b4"}}
22
\n],\n"last_seq":"2-1","pending":0}\n
last chunk
> DELETE /d/a?rev=1-a
HTTP/1.1 200 OK, JSON of 64:
{"ok":true,"id":"a","rev":"2-5bffa76456a463a52635906fedc1dd54"}\n
> GET /d/_changes?style=all_docs&include_docs=true
HTTP/1.1 200 OK, JSON in chunks:
d
{"results":[\n
ba
{"seq":"3-1","id":"a","changes":[{"rev":"2-5b422ec71a54e904129dfa7cff6017b4"},{"rev":"2-5bffa76456a463a52635906fedc1dd54"}],"doc":{"_id":"a","_rev":"2-5b422ec71a54e904129dfa7cff6017b4"}}
22
\n],\n"last_seq":"3-1","pending":0}\n
last chunk
# the last generation is made, and is not extended
> PUT /d
HTTP/1.1 201 Created, JSON of 12:
{"ok":true}\n
> history 65534
HTTP/1.1 201 Created, JSON of 3:
[]\n
> PUT /d/x?rev=65534-a {}
HTTP/1.1 201 Created, JSON of 68:
{"ok":true,"id":"x","rev":"65535-0a63087995f65fc5307b46e901b4e45b"}\n
> PUT /d/x?rev=65535-0a63087995f65fc5307b46e901b4e45b {}
HTTP/1.1 400 Bad Request, JSON of 52:
{"error":"bad_request","reason":"generation limit"}\n
> GET /d/_changes?style=all_docs&include_docs=true
HTTP/1.1 200 OK, JSON in chunks:
d
{"results":[\n
95
{"seq":"2-1","id":"x","changes":[{"rev":"65535-0a63087995f65fc5307b46e901b4e45b"}],"doc":{"_id":"x","_rev":"65535-0a63087995f65fc5307b46e901b4e45b"}}
22
\n],\n"last_seq":"2-1","pending":0}\n
last chunk
"#;

/// Revisions whose hashes are texts of digests, and others beside them.
pub(crate) const DIGESTS: &str = r#"
# a revision whose hash is a digest, and others that are nearly the same
> PUT /d
HTTP/1.1 201 Created, JSON of 12:
{"ok":true}\n
> POST /d/_bulk_docs {"docs":[{"_id":"d","_rev":"1-0123456789abcdef0123456789abcdef"}],"new_edits":false}
HTTP/1.1 201 Created, JSON of 3:
[]\n
> GET /d/_changes?style=all_docs&include_docs=true
HTTP/1.1 200 OK, JSON in chunks:
d
{"results":[\n
8d
{"seq":"1-1","id":"d","changes":[{"rev":"1-0123456789abcdef0123456789abcdef"}],"doc":{"_id":"d","_rev":"1-0123456789abcdef0123456789abcdef"}}
22
\n],\n"last_seq":"1-1","pending":0}\n
last chunk
> POST /d/_revs_diff {"d":["1-0123456789abcdef0123456789abcdef","2-0123456789abcdef0123456789abcdef","1-fedcba9876543210fedcba9876543210","1-0123456789ABCDEF0123456789ABCDEF","1-0123456789abcdef0123456789abcde","1-0123456789abcdef0123456789abcdef0"]}
HTTP/1.1 200 OK, JSON of 265:
{"d":{"missing":["2-0123456789abcdef0123456789abcdef","1-fedcba9876543210fedcba9876543210","1-0123456789ABCDEF0123456789ABCDEF","1-0123456789abcdef0123456789abcde","1-0123456789abcdef0123456789abcdef0"],"possible_ancestors":["1-0123456789abcdef0123456789abcdef"]}}\n
> POST /d/_revs_diff {"d":["1-0123456789abcdef0123456789abcdef","2-0123456789abcdef0123456789abcdef"]}
HTTP/1.1 200 OK, JSON of 117:
{"d":{"missing":["2-0123456789abcdef0123456789abcdef"],"possible_ancestors":["1-0123456789abcdef0123456789abcdef"]}}\n
> POST /d/_revs_diff {"d":["1-0123456789abcdef0123456789abcdef","1-fedcba9876543210fedcba9876543210"]}
HTTP/1.1 200 OK, JSON of 57:
{"d":{"missing":["1-fedcba9876543210fedcba9876543210"]}}\n
> POST /d/_revs_diff {"d":["1-0123456789abcdef0123456789abcdef","1-0123456789ABCDEF0123456789ABCDEF"]}
HTTP/1.1 200 OK, JSON of 57:
{"d":{"missing":["1-0123456789ABCDEF0123456789ABCDEF"]}}\n
> POST /d/_revs_diff {"d":["1-0123456789abcdef0123456789abcdef","1-0123456789abcdef0123456789abcde"]}
HTTP/1.1 200 OK, JSON of 56:
{"d":{"missing":["1-0123456789abcdef0123456789abcde"]}}\n
> POST /d/_revs_diff {"d":["1-0123456789abcdef0123456789abcdef","1-0123456789abcdef0123456789abcdef0"]}
HTTP/1.1 200 OK, JSON of 58:
{"d":{"missing":["1-0123456789abcdef0123456789abcdef0"]}}\n
> POST /d/_bulk_docs {"docs":[{"_id":"d","_rev":"1-0123456789abcdef0123456789abcdef"}],"new_edits":false}
HTTP/1.1 201 Created, JSON of 3:
[]\n
> POST /d/_bulk_docs {"docs":[{"_id":"d","_rev":"1-0123456789ABCDEF0123456789ABCDEF"}],"new_edits":false}
HTTP/1.1 201 Created, JSON of 3:
[]\n
> POST /d/_bulk_docs {"docs":[{"_id":"d","_rev":"1-0123456789abcdef0123456789abcdef0"}],"new_edits":false}
HTTP/1.1 201 Created, JSON of 3:
[]\n
> GET /d/_changes?style=all_docs&include_docs=true
HTTP/1.1 200 OK, JSON in chunks:
d
{"results":[\n
e9
{"seq":"3-1","id":"d","changes":[{"rev":"1-0123456789abcdef0123456789abcdef0"},{"rev":"1-0123456789abcdef0123456789abcdef"},{"rev":"1-0123456789ABCDEF0123456789ABCDEF"}],"doc":{"_id":"d","_rev":"1-0123456789abcdef0123456789abcdef0"}}
22
\n],\n"last_seq":"3-1","pending":0}\n
last chunk
> POST /d/_revs_diff {"d":["1-0123456789abcdef0123456789abcdef","1-0123456789ABCDEF0123456789ABCDEF","1-0123456789abcdef0123456789abcde"]}
HTTP/1.1 200 OK, JSON of 56:
{"d":{"missing":["1-0123456789abcdef0123456789abcde"]}}\n
# histories of digests
> PUT /d
HTTP/1.1 201 Created, JSON of 12:
{"ok":true}\n
> POST /d/_bulk_docs {"docs":[{"_id":"d","_revisions":{"start":3,"ids":["00000000000000000000000000000000","fedcba9876543210fedcba9876543210","0123456789abcdef0123456789abcdef"]}}],"new_edits":false}
HTTP/1.1 201 Created, JSON of 3:
[]\n
> GET /d/d?revs=true&open_revs=["3-00000000000000000000000000000000","2-fedcba9876543210fedcba9876543210","1-0123456789abcdef0123456789abcdef"]
HTTP/1.1 200 OK, JSON of 301:
[{"ok":{"_id":"d","_rev":"3-00000000000000000000000000000000","_revisions":{"start":3,"ids":["00000000000000000000000000000000","fedcba9876543210fedcba9876543210","0123456789abcdef0123456789abcdef"]}}},{"missing":"2-fedcba9876543210fedcba9876543210"},{"missing":"1-0123456789abcdef0123456789abcdef"}]\n
> POST /d/_bulk_docs {"docs":[{"_id":"d","_revisions":{"start":3,"ids":["ffffffffffffffffffffffffffffffff","fedcba9876543210fedcba9876543210","0123456789abcdef0123456789abcdef"]}}],"new_edits":false}
HTTP/1.1 201 Created, JSON of 3:
[]\n
> POST /d/_bulk_docs {"docs":[{"_id":"d","_revisions":{"start":4,"ids":["x","ffffffffffffffffffffffffffffffff","fedcba9876543210fedcba9876543210","0123456789abcdef0123456789abcdef"]}}],"new_edits":false}
HTTP/1.1 201 Created, JSON of 3:
[]\n
> POST /d/_bulk_docs {"docs":[{"_id":"d","_revisions":{"start":3,"ids":["0123456789abcdef0123456789abcdef","00000000000000000000000000000000","0123456789abcdef0123456789abcdef"]}}],"new_edits":false}
HTTP/1.1 201 Created, JSON of 3:
[]\n
> GET /d/_changes?style=all_docs
HTTP/1.1 200 OK, JSON in chunks:
d
{"results":[\n
8a
{"seq":"4-1","id":"d","changes":[{"rev":"4-x"},{"rev":"3-0123456789abcdef0123456789abcdef"},{"rev":"3-00000000000000000000000000000000"}]}
22
\n],\n"last_seq":"4-1","pending":0}\n
last chunk
> POST /d/_bulk_docs {"docs":[{"_id":"d","_revisions":{"start":3,"ids":["ffffffffffffffffffffffffffffffff","00000000000000000000000000000000","0123456789abcdef0123456789abcdef"]}}],"new_edits":false}
HTTP/1.1 201 Created, JSON of 3:
[]\n
> POST /d/_bulk_docs {"docs":[{"_id":"d","_revisions":{"start":4,"ids":["y","ffffffffffffffffffffffffffffffff","00000000000000000000000000000000","0123456789abcdef0123456789abcdef"]}}],"new_edits":false}
HTTP/1.1 201 Created, JSON of 68:
[{"id":"d","error":"bad_request","reason":"contradicting history"}]\n
> POST /d/_bulk_docs {"docs":[{"_id":"d","_revisions":{"start":5,"ids":["0123456789abcdef0123456789abcdef","fedcba9876543210fedcba9876543210","00000000000000000000000000000000","fedcba9876543210fedcba9876543210","0123456789abcdef0123456789abcdef"]}}],"new_edits":false}
HTTP/1.1 201 Created, JSON of 3:
[]\n
> GET /d/_changes?style=all_docs&include_docs=true
HTTP/1.1 200 OK, JSON in chunks:
d
{"results":[\n
c8
{"seq":"5-1","id":"d","changes":[{"rev":"5-0123456789abcdef0123456789abcdef"},{"rev":"4-x"},{"rev":"3-0123456789abcdef0123456789abcdef"}],"doc":{"_id":"d","_rev":"5-0123456789abcdef0123456789abcdef"}}
22
\n],\n"last_seq":"5-1","pending":0}\n
last chunk
> GET /d/d?revs=true&open_revs=["5-0123456789abcdef0123456789abcdef","4-x","3-0123456789abcdef0123456789abcdef"]
HTTP/1.1 200 OK, JSON of 648:
[{"ok":{"_id":"d","_rev":"5-0123456789abcdef0123456789abcdef","_revisions":{"start":5,"ids":["0123456789abcdef0123456789abcdef","fedcba9876543210fedcba9876543210","00000000000000000000000000000000","fedcba9876543210fedcba9876543210","0123456789abcdef0123456789abcdef"]}}},{"ok":{"_id":"d","_rev":"4-x","_revisions":{"start":4,"ids":["x","ffffffffffffffffffffffffffffffff","fedcba9876543210fedcba9876543210","0123456789abcdef0123456789abcdef"]}}},{"ok":{"_id":"d","_rev":"3-0123456789abcdef0123456789abcdef","_revisions":{"start":3,"ids":["0123456789abcdef0123456789abcdef","00000000000000000000000000000000","0123456789abcdef0123456789abcdef"]}}}]\n
> POST /d/_revs_diff {"d":["3-fedcba9876543210fedcba9876543210","2-0123456789abcdef0123456789abcdef","2-00000000000000000000000000000000","4-fedcba9876543210fedcba9876543210"]}
HTTP/1.1 200 OK, JSON of 94:
{"d":{"missing":["3-fedcba9876543210fedcba9876543210","2-0123456789abcdef0123456789abcdef"]}}\n
# histories of digests and other hashes
> PUT /d
HTTP/1.1 201 Created, JSON of 12:
{"ok":true}\n
> POST /d/_bulk_docs {"docs":[{"_id":"d","_revisions":{"start":4,"ids":["0123456789abcdef0123456789abcdef","b","0123456789ABCDEF0123456789ABCDEF","fedcba9876543210fedcba9876543210"]}}],"new_edits":false}
HTTP/1.1 201 Created, JSON of 3:
[]\n
> GET /d/d?revs=true&open_revs=["4-0123456789abcdef0123456789abcdef","2-0123456789ABCDEF0123456789ABCDEF"]
HTTP/1.1 200 OK, JSON of 256:
[{"ok":{"_id":"d","_rev":"4-0123456789abcdef0123456789abcdef","_revisions":{"start":4,"ids":["0123456789abcdef0123456789abcdef","b","0123456789ABCDEF0123456789ABCDEF","fedcba9876543210fedcba9876543210"]}}},{"missing":"2-0123456789ABCDEF0123456789ABCDEF"}]\n
> POST /d/_bulk_docs {"docs":[{"_id":"d","_revisions":{"start":4,"ids":["00000000000000000000000000000000","b","0123456789ABCDEF0123456789ABCDEF","fedcba9876543210fedcba9876543210"]}},{"_id":"d","_revisions":{"start":2,"ids":["0123456789abcdef0123456789abcdef","fedcba9876543210fedcba9876543210"]}}],"new_edits":false}
HTTP/1.1 201 Created, JSON of 3:
[]\n
> GET /d/_changes?style=all_docs&include_docs=true
HTTP/1.1 200 OK, JSON in chunks:
d
{"results":[\n
e7
{"seq":"3-1","id":"d","changes":[{"rev":"4-0123456789abcdef0123456789abcdef"},{"rev":"4-00000000000000000000000000000000"},{"rev":"2-0123456789abcdef0123456789abcdef"}],"doc":{"_id":"d","_rev":"4-0123456789abcdef0123456789abcdef"}}
22
\n],\n"last_seq":"3-1","pending":0}\n
last chunk
> GET /d/d?revs=true&open_revs=["4-00000000000000000000000000000000","2-0123456789abcdef0123456789abcdef"]
HTTP/1.1 200 OK, JSON of 373:
[{"ok":{"_id":"d","_rev":"4-00000000000000000000000000000000","_revisions":{"start":4,"ids":["00000000000000000000000000000000","b","0123456789ABCDEF0123456789ABCDEF","fedcba9876543210fedcba9876543210"]}}},{"ok":{"_id":"d","_rev":"2-0123456789abcdef0123456789abcdef","_revisions":{"start":2,"ids":["0123456789abcdef0123456789abcdef","fedcba9876543210fedcba9876543210"]}}}]\n
> POST /d/_bulk_docs {"docs":[{"_id":"d","_revisions":{"start":3,"ids":["b","0123456789abcdef0123456789abcdef","fedcba9876543210fedcba9876543210"]}}],"new_edits":false}
HTTP/1.1 201 Created, JSON of 3:
[]\n
> POST /d/_bulk_docs {"docs":[{"_id":"d","_revisions":{"start":4,"ids":["q","b","0123456789abcdef0123456789abcdef","fedcba9876543210fedcba9876543210"]}}],"new_edits":false}
HTTP/1.1 201 Created, JSON of 68:
[{"id":"d","error":"bad_request","reason":"contradicting history"}]\n
> GET /d/_changes?style=all_docs&include_docs=true
HTTP/1.1 200 OK, JSON in chunks:
d
{"results":[\n
e7
{"seq":"3-1","id":"d","changes":[{"rev":"4-0123456789abcdef0123456789abcdef"},{"rev":"4-00000000000000000000000000000000"},{"rev":"2-0123456789abcdef0123456789abcdef"}],"doc":{"_id":"d","_rev":"4-0123456789abcdef0123456789abcdef"}}
22
\n],\n"last_seq":"3-1","pending":0}\n
last chunk
"#;
