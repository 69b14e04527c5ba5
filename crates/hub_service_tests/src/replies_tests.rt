//! Bodies of answers, byte for byte.

/// Each body that a call answers.
pub(crate) const BODIES: &str = r#"
# bodies that are always the same
> GET /
HTTP/1.1 200 OK, JSON of 40:
{"couchdb":"Welcome","version":"3.0.0"}\n
> PUT /d
HTTP/1.1 201 Created, JSON of 12:
{"ok":true}\n
> POST /d/_ensure_full_commit -
HTTP/1.1 201 Created, JSON of 38:
{"instance_start_time":"0","ok":true}\n
> DELETE /d
HTTP/1.1 200 OK, JSON of 12:
{"ok":true}\n
# names of databases
> GET /_all_dbs
HTTP/1.1 200 OK, JSON of 3:
[]\n
> PUT /b%2Fc
HTTP/1.1 201 Created, JSON of 12:
{"ok":true}\n
> GET /_all_dbs
HTTP/1.1 200 OK, JSON of 8:
["b/c"]\n
> PUT /a
HTTP/1.1 201 Created, JSON of 12:
{"ok":true}\n
> GET /_all_dbs
HTTP/1.1 200 OK, JSON of 12:
["a","b/c"]\n
# what a database says of itself
> PUT /d
HTTP/1.1 201 Created, JSON of 12:
{"ok":true}\n
> POST /d/_bulk_docs {"docs":[{"_id":"a","_rev":"1-a"},{"_id":"b","_rev":"1-b"},{"_id":"a","_rev":"2-a"}],"new_edits":false}
HTTP/1.1 201 Created, JSON of 3:
[]\n
> GET /d
HTTP/1.1 200 OK, JSON of 93:
{"db_name":"d","doc_count":2,"doc_del_count":0,"update_seq":"3-1","instance_start_time":"0"}\n
# answers to edits: an id whose bytes need an escape, and the last generation
> PUT /d
HTTP/1.1 201 Created, JSON of 12:
{"ok":true}\n
> PUT /d/a {}
HTTP/1.1 201 Created, JSON of 64:
{"ok":true,"id":"a","rev":"1-dfddbf319adb018d1e5ac3465b83542c"}\n
> POST /d/_bulk_docs {"docs":[{"_id":"\"\\\n\u0001é😀","_rev":"65534-0Zz9"}],"new_edits":false}
HTTP/1.1 201 Created, JSON of 3:
[]\n
> PUT /d/%22%5C%0A%01%C3%A9%F0%9F%98%80?rev=65534-0Zz9 {}
HTTP/1.1 201 Created, JSON of 85:
{"ok":true,"id":"\"\\\n\u0001é😀","rev":"65535-9f8427f3e7b6bbab1425e0a21cfb4e4a"}\n
> PUT /d/_local/k {}
HTTP/1.1 201 Created, JSON of 40:
{"ok":true,"id":"_local/k","rev":"0-1"}\n
> PUT /d/_local/k {}
HTTP/1.1 201 Created, JSON of 40:
{"ok":true,"id":"_local/k","rev":"0-2"}\n
> PUT /d/_local/%22%5C%0A%01%C3%A9%F0%9F%98%80 {}
HTTP/1.1 201 Created, JSON of 57:
{"ok":true,"id":"_local/\"\\\n\u0001é😀","rev":"0-1"}\n
# documents
> PUT /d
HTTP/1.1 201 Created, JSON of 12:
{"ok":true}\n
> POST /d/_bulk_docs {"docs":[{"_id":"d","_revisions":{"start":2,"ids":["b","a"]},"k":"\u0001é"},{"_id":"\"\\\n\u0001é😀","_rev":"65535-0Zz9"}],"new_edits":false}
HTTP/1.1 201 Created, JSON of 3:
[]\n
> GET /d/d?revs=true
HTTP/1.1 200 OK, JSON of 81:
{"_id":"d","_rev":"2-b","_revisions":{"start":2,"ids":["b","a"]},"k":"\u0001é"}\n
> GET /d/%22%5C%0A%01%C3%A9%F0%9F%98%80
HTTP/1.1 200 OK, JSON of 49:
{"_id":"\"\\\n\u0001é😀","_rev":"65535-0Zz9"}\n
> PUT /d/_local/k {"k":[1,null]}
HTTP/1.1 201 Created, JSON of 40:
{"ok":true,"id":"_local/k","rev":"0-1"}\n
> PUT /d/_local/k {"k":[1,null]}
HTTP/1.1 201 Created, JSON of 40:
{"ok":true,"id":"_local/k","rev":"0-2"}\n
> PUT /d/_local/k {"k":[1,null]}
HTTP/1.1 201 Created, JSON of 40:
{"ok":true,"id":"_local/k","rev":"0-3"}\n
> PUT /d/_local/k {"k":[1,null]}
HTTP/1.1 201 Created, JSON of 40:
{"ok":true,"id":"_local/k","rev":"0-4"}\n
> PUT /d/_local/k {"k":[1,null]}
HTTP/1.1 201 Created, JSON of 40:
{"ok":true,"id":"_local/k","rev":"0-5"}\n
> PUT /d/_local/k {"k":[1,null]}
HTTP/1.1 201 Created, JSON of 40:
{"ok":true,"id":"_local/k","rev":"0-6"}\n
> PUT /d/_local/k {"k":[1,null]}
HTTP/1.1 201 Created, JSON of 40:
{"ok":true,"id":"_local/k","rev":"0-7"}\n
> PUT /d/_local/k {"k":[1,null]}
HTTP/1.1 201 Created, JSON of 40:
{"ok":true,"id":"_local/k","rev":"0-8"}\n
> PUT /d/_local/k {"k":[1,null]}
HTTP/1.1 201 Created, JSON of 40:
{"ok":true,"id":"_local/k","rev":"0-9"}\n
> PUT /d/_local/k {"k":[1,null]}
HTTP/1.1 201 Created, JSON of 41:
{"ok":true,"id":"_local/k","rev":"0-10"}\n
> PUT /d/_local/k {"k":[1,null]}
HTTP/1.1 201 Created, JSON of 41:
{"ok":true,"id":"_local/k","rev":"0-11"}\n
> PUT /d/_local/k {"k":[1,null]}
HTTP/1.1 201 Created, JSON of 41:
{"ok":true,"id":"_local/k","rev":"0-12"}\n
> GET /d/_local/k
HTTP/1.1 200 OK, JSON of 46:
{"_id":"_local/k","_rev":"0-12","k":[1,null]}\n
> PUT /d/_local/%22%5C%0A%01%C3%A9%F0%9F%98%80 {"k":[1,null]}
HTTP/1.1 201 Created, JSON of 57:
{"ok":true,"id":"_local/\"\\\n\u0001é😀","rev":"0-1"}\n
> GET /d/_local/%22%5C%0A%01%C3%A9%F0%9F%98%80
HTTP/1.1 200 OK, JSON of 62:
{"_id":"_local/\"\\\n\u0001é😀","_rev":"0-1","k":[1,null]}\n
# revisions that are asked for
> PUT /d
HTTP/1.1 201 Created, JSON of 12:
{"ok":true}\n
> POST /d/_bulk_docs {"docs":[{"_id":"d","_rev":"1-a","_deleted":true,"k":1}],"new_edits":false}
HTTP/1.1 201 Created, JSON of 3:
[]\n
> GET /d/d?open_revs=[]
HTTP/1.1 200 OK, JSON of 3:
[]\n
> GET /d/d?open_revs=%5B%229-z%22%5D
HTTP/1.1 200 OK, JSON of 20:
[{"missing":"9-z"}]\n
> GET /d/d?open_revs=%5B%229-z%22,%221-a%22,%228-y%22%5D&revs=true
HTTP/1.1 200 OK, JSON of 129:
[{"missing":"9-z"},{"ok":{"_id":"d","_rev":"1-a","_deleted":true,"_revisions":{"start":1,"ids":["a"]},"k":1}},{"missing":"8-y"}]\n
> GET /d/d?open_revs=%5B%229-z%22,%221-a%22,%229-z%22%5D
HTTP/1.1 200 OK, JSON of 92:
[{"missing":"9-z"},{"ok":{"_id":"d","_rev":"1-a","_deleted":true,"k":1}},{"missing":"9-z"}]\n
# missing revisions and possible ancestors
> PUT /d
HTTP/1.1 201 Created, JSON of 12:
{"ok":true}\n
> POST /d/_revs_diff {}
HTTP/1.1 200 OK, JSON of 3:
{}\n
> POST /d/_bulk_docs {"docs":[{"_id":"a","_rev":"2-c"},{"_id":"\"\\\n\u0001é😀","_rev":"3-y"},{"_id":"\"\\\n\u0001é😀","_rev":"3-x"}],"new_edits":false}
HTTP/1.1 201 Created, JSON of 3:
[]\n
> POST /d/_revs_diff {"a":["2-d","3-e"]}
HTTP/1.1 200 OK, JSON of 61:
{"a":{"missing":["2-d","3-e"],"possible_ancestors":["2-c"]}}\n
> POST /d/_revs_diff {"\"\\\n\u0001é😀":["4-w"],"a":["2-d","3-e"],"z":["1-q"]}
HTTP/1.1 200 OK, JSON of 161:
{"\"\\\n\u0001é😀":{"missing":["4-w"],"possible_ancestors":["3-y","3-x"]},"a":{"missing":["2-d","3-e"],"possible_ancestors":["2-c"]},"z":{"missing":["1-q"]}}\n
# a batch of known documents, of others, and of elements that are none; a known document has no reply of its own
> PUT /d
HTTP/1.1 201 Created, JSON of 12:
{"ok":true}\n
> POST /d/_bulk_docs {"docs":[]}
HTTP/1.1 201 Created, JSON of 3:
[]\n
> POST /d/_bulk_docs {"docs":[{"_id":"known","_rev":"1-k"}],"new_edits":false}
HTTP/1.1 201 Created, JSON of 3:
[]\n
> POST /d/_bulk_docs {"docs":[{"_id":"known","_rev":"1-k"},{"_id":"a","_rev":"1-a"},7,{"_id":"known","_rev":"1-k"}],"new_edits":false}
HTTP/1.1 201 Created, JSON of 61:
[{"id":null,"error":"bad_request","reason":"not an object"}]\n
> POST /d/_bulk_docs {"docs":[{"_id":"known","_rev":"1-k"},{"_id":"b"},7,{"_id":5,"_rev":"1-a"},{"_id":"\"\\\n\u0001é😀","_rev":"2-b"},{"_id":"known","_rev":"1-k"}],"new_edits":false}
HTTP/1.1 201 Created, JSON of 165:
[{"id":"b","error":"bad_request","reason":"bad rev"},{"id":null,"error":"bad_request","reason":"not an object"},{"id":null,"error":"bad_request","reason":"bad id"}]\n
> POST /d/_bulk_docs {"docs":[{"_id":"c"},7,{"_id":"\"\\\n\u0001é😀","_rev":"2-b"},{"_id":5},{"_id":"c"}]}
HTTP/1.1 201 Created, JSON of 325:
[{"ok":true,"id":"c","rev":"1-fb9ac373006d562c3ba1cd99e8474820"},{"id":null,"error":"bad_request","reason":"not an object"},{"ok":true,"id":"\"\\\n\u0001é😀","rev":"3-91e1f250cabaa0acc276d26d3fff513f"},{"id":null,"error":"bad_request","reason":"bad id"},{"id":"c","error":"conflict","reason":"Document update conflict."}]\n
> POST /d/_bulk_docs {"docs":[{"_id":"known","_rev":"1-k"},{"_id":"a","_rev":"1-a"},{"_id":"\"\\\n\u0001é😀","_rev":"2-b"}],"new_edits":false}
HTTP/1.1 201 Created, JSON of 3:
[]\n
"#;
