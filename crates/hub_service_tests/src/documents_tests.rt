//! Documents over bytes: refused ones, documents that are put, and documents as they are shown.
//!
//! The hash of a revision that is made here is the MD5 of `[deleted,parent,id,body]`.

/// The first fault of each document, and members that are ignored.
pub(crate) const REFUSED: &str = r#"
# edits that are made here: bodies that are no JSON, and the first fault of each document
> PUT /d
HTTP/1.1 201 Created, JSON of 12:
{"ok":true}\n
> POST /d/_bulk_docs -
HTTP/1.1 400 Bad Request, JSON of 44:
{"error":"bad_request","reason":"not JSON"}\n
> POST /d/_bulk_docs {
HTTP/1.1 400 Bad Request, JSON of 44:
{"error":"bad_request","reason":"not JSON"}\n
> POST /d/_bulk_docs {"docs":[{"_id":"a"}]} x
HTTP/1.1 400 Bad Request, JSON of 44:
{"error":"bad_request","reason":"not JSON"}\n
> POST /d/_bulk_docs {"docs":[{"_id":"a","n":1e400}]}
HTTP/1.1 400 Bad Request, JSON of 44:
{"error":"bad_request","reason":"not JSON"}\n
> send POST /d/_bulk_docs {"docs":[[],null,{"_id":"a","n":1.5},{"_id":"a","n":-0},{"_id":"a","n":1e3},{"_id":"a","n":[{"m":[1,0.0]}]},{"_id":"a","_local_seq":1.5},{"_id":"a","n":18446744073709551616},{"_id":"a","n":-9223372036854775809},{"_id":"a","n":18446744073709551615},{"_id":"b","n":-9223372036854775808}]}
HTTP/1.1 201 Created, JSON of 710:
[{"id":null,"error":"bad_request","reason":"not an object"},{"id":null,"error":"bad_request","reason":"not an object"},{"id":"a","error":"bad_request","reason":"number out of profile"},{"id":"a","error":"bad_request","reason":"number out of profile"},{"id":"a","error":"bad_request","reason":"number out of profile"},{"id":"a","error":"bad_request","reason":"number out of profile"},{"id":"a","error":"bad_request","reason":"number out of profile"},{"id":"a","error":"bad_request","reason":"number out of profile"},{"id":"a","error":"bad_request","reason":"number out of profile"},{"ok":true,"id":"a","rev":"1-65847de43ef3aa0300f9885e8f843558"},{"ok":true,"id":"b","rev":"1-a91ddc571e47da6fe71a577325618399"}]\n
> send POST /d/_bulk_docs {"docs":[{},{"_id":1},{"_id":""},{"_id":"_"},{"_id":"_x"},{"_id":"_local/a"},{"_id":"_design"},{"_id":"_design/"},{"_id":"a","_id":""},{"_id":"","_id":"a"},{"_id":"_design/a"},{"_id":"a_"}]}
HTTP/1.1 201 Created, JSON of 683:
[{"id":null,"error":"bad_request","reason":"bad id"},{"id":null,"error":"bad_request","reason":"bad id"},{"id":"","error":"bad_request","reason":"bad id"},{"id":"_","error":"bad_request","reason":"bad id"},{"id":"_x","error":"bad_request","reason":"bad id"},{"id":"_local/a","error":"bad_request","reason":"bad id"},{"id":"_design","error":"bad_request","reason":"bad id"},{"id":"_design/","error":"bad_request","reason":"bad id"},{"id":"","error":"bad_request","reason":"bad id"},{"ok":true,"id":"a","rev":"1-dfddbf319adb018d1e5ac3465b83542c"},{"ok":true,"id":"_design/a","rev":"1-f19c8fd4eb9ba4cc51e0d798a63bf0b7"},{"ok":true,"id":"a_","rev":"1-9f811f1f912c637c9ce9d0f0a7812a77"}]\n
> POST /d/_bulk_docs {"docs":[{"_id":"g","_rev":"65535-a"},{"_id":"h","_rev":"1-a"}],"new_edits":false}
HTTP/1.1 201 Created, JSON of 3:
[]\n
> send POST /d/_bulk_docs {"docs":[{"_id":"a","_rev":null},{"_id":"a","_rev":1},{"_id":"a","_rev":"0-a"},{"_id":"a","_rev":"65536-a"},{"_id":"a","_rev":"65535-a"},{"_id":"g","_rev":"65535-a"},{"_id":"h","_rev":"1-a","_revisions":7},{"_id":"a","_revisions":{"start":2,"ids":[]}}]}
HTTP/1.1 201 Created, JSON of 466:
[{"id":"a","error":"bad_request","reason":"bad rev"},{"id":"a","error":"bad_request","reason":"bad rev"},{"id":"a","error":"bad_request","reason":"bad rev"},{"id":"a","error":"bad_request","reason":"bad rev"},{"id":"a","error":"conflict","reason":"Document update conflict."},{"id":"g","error":"bad_request","reason":"generation limit"},{"ok":true,"id":"h","rev":"2-be0980404e16aba34ce797e6824060be"},{"ok":true,"id":"a","rev":"1-dfddbf319adb018d1e5ac3465b83542c"}]\n
> send POST /d/_bulk_docs {"docs":[{"_id":"a","_x":1},{"_id":"a","_":1},{"_id":"a","_deleted":1},{"_id":"a","_deleted":null},{"_id":"a","_attachments":{"f":{}}},{"_id":"a","_attachments":[]},{"_id":"a","m":{"_x":1}},{"_id":"b","_deleted":false},{"_id":"c","_attachments":{}},{"_id":"d","_conflicts":1,"_revs_info":[]},{"_id":"e","_deleted_conflicts":{},"_local_seq":"x"}]}
HTTP/1.1 201 Created, JSON of 652:
[{"id":"a","error":"bad_request","reason":"bad member"},{"id":"a","error":"bad_request","reason":"bad member"},{"id":"a","error":"bad_request","reason":"bad member"},{"id":"a","error":"bad_request","reason":"bad member"},{"id":"a","error":"bad_request","reason":"bad member"},{"id":"a","error":"bad_request","reason":"bad member"},{"ok":true,"id":"a","rev":"1-da2941fe736ca1f570cb1c87742e8c82"},{"ok":true,"id":"b","rev":"1-0c80c32cd7709ec4939abd63894262cc"},{"ok":true,"id":"c","rev":"1-fb9ac373006d562c3ba1cd99e8474820"},{"ok":true,"id":"d","rev":"1-c17cadab328de706d47ac7999e77b46e"},{"ok":true,"id":"e","rev":"1-bba2fdad26f56c8cd58d12bade342c13"}]\n
# edits that came: the first fault of each document
> PUT /d
HTTP/1.1 201 Created, JSON of 12:
{"ok":true}\n
> POST /d/_bulk_docs {"docs":[{"_id":"a"},{"_id":"a","_rev":null},{"_id":"a","_revisions":null},{"_id":"a","_rev":"2-b","_revisions":{"start":2,"ids":["a","b"]}},{"_id":"a","_rev":"1-b","_revisions":{"start":2,"ids":["a","b"]}},{"_id":"a","_rev":"2-b","_revisions":{"start":3,"ids":["c","b"]}},{"_id":"a","_rev":"2-c","_revisions":{"start":3,"ids":["c","b"]}},{"_id":"a","_revisions":{"start":2,"ids":[]}},{"_id":"a","_revisions":{"start":1,"ids":["a","b"]}},{"_id":"a","_revisions":{"start":2,"ids":["a","b","c"]}},{"_id":"a","_revisions":{"start":0,"ids":[]}},{"_id":"a","_revisions":{"start":65536,"ids":["a"]}},{"_id":"a","_revisions":{"start":"1","ids":["a"]}},{"_id":"a","_revisions":{"start":1,"ids":"a"}},{"_id":"a","_revisions":{"start":1,"ids":["a!"]}},{"_id":"a","_revisions":{"start":1,"ids":[1]}},{"_id":"a","_revisions":{"start":1}},{"_id":"a","_revisions":{"start":1,"ids":["hhhhhhhhhhhhhhhhhhhhhhhhhhhhhhhhhhhhhhhhhhhhhhhhhhhhhhhhhhhhhhhhh"]}}],"new_edits":false}
HTTP/1.1 201 Created, JSON of 1050:
[{"id":"a","error":"bad_request","reason":"bad rev"},{"id":"a","error":"bad_request","reason":"bad rev"},{"id":"a","error":"bad_request","reason":"bad _revisions"},{"id":"a","error":"bad_request","reason":"bad _revisions"},{"id":"a","error":"bad_request","reason":"bad _revisions"},{"id":"a","error":"bad_request","reason":"bad _revisions"},{"id":"a","error":"bad_request","reason":"bad _revisions"},{"id":"a","error":"bad_request","reason":"bad _revisions"},{"id":"a","error":"bad_request","reason":"bad _revisions"},{"id":"a","error":"bad_request","reason":"bad _revisions"},{"id":"a","error":"bad_request","reason":"bad _revisions"},{"id":"a","error":"bad_request","reason":"bad _revisions"},{"id":"a","error":"bad_request","reason":"bad _revisions"},{"id":"a","error":"bad_request","reason":"bad _revisions"},{"id":"a","error":"bad_request","reason":"bad _revisions"},{"id":"a","error":"bad_request","reason":"bad _revisions"},{"id":"a","error":"bad_request","reason":"bad _revisions"},{"id":"a","error":"bad_request","reason":"bad _revisions"}]\n
# of two faults the first is told
> PUT /d
HTTP/1.1 201 Created, JSON of 12:
{"ok":true}\n
> POST /d/_bulk_docs {"docs":[[1.5
HTTP/1.1 400 Bad Request, JSON of 44:
{"error":"bad_request","reason":"not JSON"}\n
> POST /d/_bulk_docs {"docs":[[1.5],{"_id":1.5},{"_id":"_a","_rev":"x"},{"_id":"a","_rev":"x","_revisions":1},{"_id":"a","_rev":"2-a","_revisions":[],"_x":1}],"new_edits":false}
HTTP/1.1 201 Created, JSON of 291:
[{"id":null,"error":"bad_request","reason":"not an object"},{"id":null,"error":"bad_request","reason":"number out of profile"},{"id":"_a","error":"bad_request","reason":"bad id"},{"id":"a","error":"bad_request","reason":"bad rev"},{"id":"a","error":"bad_request","reason":"bad _revisions"}]\n
# values that are refused
> PUT /d
HTTP/1.1 201 Created, JSON of 12:
{"ok":true}\n
> PUT /d/a {"s":"\ud83d"}
HTTP/1.1 400 Bad Request, JSON of 44:
{"error":"bad_request","reason":"not JSON"}\n
> PUT /d/a {"s":"\ude00\ud83d"}
HTTP/1.1 400 Bad Request, JSON of 44:
{"error":"bad_request","reason":"not JSON"}\n
> PUT /d/a {"s":"\x"}
HTTP/1.1 400 Bad Request, JSON of 44:
{"error":"bad_request","reason":"not JSON"}\n
> PUT /d/a {"v":01}
HTTP/1.1 400 Bad Request, JSON of 44:
{"error":"bad_request","reason":"not JSON"}\n
> PUT /d/a {"v":1,}
HTTP/1.1 400 Bad Request, JSON of 44:
{"error":"bad_request","reason":"not JSON"}\n
> PUT /d/a {"v":1e400}
HTTP/1.1 400 Bad Request, JSON of 44:
{"error":"bad_request","reason":"not JSON"}\n
> PUT /d/a {"v":18446744073709551616}
HTTP/1.1 400 Bad Request, JSON of 57:
{"error":"bad_request","reason":"number out of profile"}\n
> PUT /d/a {"v":-9223372036854775809}
HTTP/1.1 400 Bad Request, JSON of 57:
{"error":"bad_request","reason":"number out of profile"}\n
> PUT /d/a {"v":1e2}
HTTP/1.1 400 Bad Request, JSON of 57:
{"error":"bad_request","reason":"number out of profile"}\n
> PUT /d/a {"v":1.0}
HTTP/1.1 400 Bad Request, JSON of 57:
{"error":"bad_request","reason":"number out of profile"}\n
> PUT /d/a {"v":-0}
HTTP/1.1 400 Bad Request, JSON of 57:
{"error":"bad_request","reason":"number out of profile"}\n
"#;

/// Documents that are put under an id, and the first fault of each.
pub(crate) const PUTS: &str = r#"
# a document that is put: its id, its revision and its members
> PUT /d
HTTP/1.1 201 Created, JSON of 12:
{"ok":true}\n
> POST /d/_bulk_docs {"docs":[{"_id":"a","_rev":"1-a"},{"_id":"g","_rev":"65535-a"}],"new_edits":false}
HTTP/1.1 201 Created, JSON of 3:
[]\n
> send PUT /d/b {}
HTTP/1.1 201 Created, JSON of 64:
{"ok":true,"id":"b","rev":"1-0c80c32cd7709ec4939abd63894262cc"}\n
> send PUT /d/b {"_id":"b","v":7}
HTTP/1.1 201 Created, JSON of 64:
{"ok":true,"id":"b","rev":"1-4cf7bd2a28c6ef30c11f5b892af0c72f"}\n
> send PUT /d/a?rev=1-a {}
HTTP/1.1 201 Created, JSON of 64:
{"ok":true,"id":"a","rev":"2-5b422ec71a54e904129dfa7cff6017b4"}\n
> send PUT /d/a {"_rev":"1-a"}
HTTP/1.1 201 Created, JSON of 64:
{"ok":true,"id":"a","rev":"2-5b422ec71a54e904129dfa7cff6017b4"}\n
> send PUT /d/a?rev=1-a {"_rev":"1-a"}
HTTP/1.1 201 Created, JSON of 64:
{"ok":true,"id":"a","rev":"2-5b422ec71a54e904129dfa7cff6017b4"}\n
> PUT /d/g?rev=65535-a {}
HTTP/1.1 400 Bad Request, JSON of 52:
{"error":"bad_request","reason":"generation limit"}\n
> send PUT /d/b {"_deleted":true}
HTTP/1.1 201 Created, JSON of 64:
{"ok":true,"id":"b","rev":"1-9b4d25740aa50016f0677c33ee8b5388"}\n
> send PUT /d/b {"_revisions":7}
HTTP/1.1 201 Created, JSON of 64:
{"ok":true,"id":"b","rev":"1-0c80c32cd7709ec4939abd63894262cc"}\n
# the first fault of a document that is put
> PUT /d
HTTP/1.1 201 Created, JSON of 12:
{"ok":true}\n
> PUT /d/a -
HTTP/1.1 400 Bad Request, JSON of 44:
{"error":"bad_request","reason":"not JSON"}\n
> PUT /d/a []
HTTP/1.1 400 Bad Request, JSON of 49:
{"error":"bad_request","reason":"not an object"}\n
> PUT /d/a {"v":1.5}
HTTP/1.1 400 Bad Request, JSON of 57:
{"error":"bad_request","reason":"number out of profile"}\n
> PUT /d/_x {}
HTTP/1.1 400 Bad Request, JSON of 42:
{"error":"bad_request","reason":"bad id"}\n
> PUT /d/a {"_id":"b"}
HTTP/1.1 400 Bad Request, JSON of 42:
{"error":"bad_request","reason":"bad id"}\n
> PUT /d/a {"_id":null}
HTTP/1.1 400 Bad Request, JSON of 42:
{"error":"bad_request","reason":"bad id"}\n
> PUT /d/a?rev= {}
HTTP/1.1 400 Bad Request, JSON of 43:
{"error":"bad_request","reason":"bad rev"}\n
> PUT /d/a?rev=0-a {}
HTTP/1.1 400 Bad Request, JSON of 43:
{"error":"bad_request","reason":"bad rev"}\n
> PUT /d/a?rev=65536-a {}
HTTP/1.1 400 Bad Request, JSON of 43:
{"error":"bad_request","reason":"bad rev"}\n
> PUT /d/a {"_rev":"x"}
HTTP/1.1 400 Bad Request, JSON of 43:
{"error":"bad_request","reason":"bad rev"}\n
> PUT /d/a?rev=1-a {"_rev":"1-b"}
HTTP/1.1 400 Bad Request, JSON of 43:
{"error":"bad_request","reason":"bad rev"}\n
> PUT /d/a?rev=1-a {"_rev":null}
HTTP/1.1 400 Bad Request, JSON of 43:
{"error":"bad_request","reason":"bad rev"}\n
> PUT /d/a?rev=x {"_rev":"1-b"}
HTTP/1.1 400 Bad Request, JSON of 43:
{"error":"bad_request","reason":"bad rev"}\n
> PUT /d/a {"_x":1}
HTTP/1.1 400 Bad Request, JSON of 46:
{"error":"bad_request","reason":"bad member"}\n
> PUT /d/a?new_edits=false {}
HTTP/1.1 400 Bad Request, JSON of 46:
{"error":"bad_request","reason":"bad member"}\n
> PUT /d/a?rev=1-a&new_edits=false {"_rev":"1-a"}
HTTP/1.1 400 Bad Request, JSON of 46:
{"error":"bad_request","reason":"bad member"}\n
> PUT /d/a?rev=x&new_edits=false [
HTTP/1.1 400 Bad Request, JSON of 44:
{"error":"bad_request","reason":"not JSON"}\n
> PUT /d/a?rev=x&new_edits=false [1.5]
HTTP/1.1 400 Bad Request, JSON of 49:
{"error":"bad_request","reason":"not an object"}\n
> PUT /d/a?rev=x&new_edits=false {"v":1.5}
HTTP/1.1 400 Bad Request, JSON of 57:
{"error":"bad_request","reason":"number out of profile"}\n
> PUT /d/a?rev=x&new_edits=false {"_id":"b"}
HTTP/1.1 400 Bad Request, JSON of 42:
{"error":"bad_request","reason":"bad id"}\n
> PUT /d/a?rev=x&new_edits=false {"_x":1}
HTTP/1.1 400 Bad Request, JSON of 43:
{"error":"bad_request","reason":"bad rev"}\n
> PUT /d/iiiiiiiiiiiiiiiiiiiiiiiiiiiiiiiiiiiiiiiiiiiiiiiiiiiiiiiiiiiiiiiiiiiiiiiiiiiiiiiiiiiiiiiiiiiiiiiiiiiiiiiiiiiiiiiiiiiiiiiiiiiiiiiiiiiiiiiiiiiiiiiiiiiiiiiiiiiiiiiiiiiiiiiiiiiiiiiiiiiiiiiiiiiiiiiiiiiiiiiiiiiiiiiiiiiiiiiiiiiiiiiiiiiiiiiiiiiiiiiiiiiiiiiiiiiiiiiiiiiiiiiiiiiiiiiiiiiiiiiiiiiiiiiiiiiiiiiiiiiiiiiiiiiiiiiiiiiiiiiiiiiiiiiiiiiiiiiiiiiiiiiiiiiiiiiiiiiiiiiiiiiiiiiiiiiiiiiiiiiiiiiiiiiiiiiiiiiiiiiiiiiiiiiiiiiiiiiiiiiiiiiiiiiiiiiiiiiiiiiiiiiiiiiiiiiiiiiiiiiiiiiiiiiiiiiiiiiiiiiiiiiiiiiiiiiiiiiiiiiiiiiiiiiiiiiii {}
HTTP/1.1 400 Bad Request, JSON of 47:
{"error":"bad_request","reason":"id too long"}\n
> PUT /d/iiiiiiiiiiiiiiiiiiiiiiiiiiiiiiiiiiiiiiiiiiiiiiiiiiiiiiiiiiiiiiiiiiiiiiiiiiiiiiiiiiiiiiiiiiiiiiiiiiiiiiiiiiiiiiiiiiiiiiiiiiiiiiiiiiiiiiiiiiiiiiiiiiiiiiiiiiiiiiiiiiiiiiiiiiiiiiiiiiiiiiiiiiiiiiiiiiiiiiiiiiiiiiiiiiiiiiiiiiiiiiiiiiiiiiiiiiiiiiiiiiiiiiiiiiiiiiiiiiiiiiiiiiiiiiiiiiiiiiiiiiiiiiiiiiiiiiiiiiiiiiiiiiiiiiiiiiiiiiiiiiiiiiiiiiiiiiiiiiiiiiiiiiiiiiiiiiiiiiiiiiiiiiiiiiiiiiiiiiiiiiiiiiiiiiiiiiiiiiiiiiiiiiiiiiiiiiiiiiiiiiiiiiiiiiiiiiiiiiiiiiiiiiiiiiiiiiiiiiiiiiiiiiiiiiiiiiiiiiiiiiiiiiiiiiiiiiiiiiiiiiiiiiiiiiiii?new_edits=false {}
HTTP/1.1 400 Bad Request, JSON of 46:
{"error":"bad_request","reason":"bad member"}\n
> PUT /d/iiiiiiiiiiiiiiiiiiiiiiiiiiiiiiiiiiiiiiiiiiiiiiiiiiiiiiiiiiiiiiiiiiiiiiiiiiiiiiiiiiiiiiiiiiiiiiiiiiiiiiiiiiiiiiiiiiiiiiiiiiiiiiiiiiiiiiiiiiiiiiiiiiiiiiiiiiiiiiiiiiiiiiiiiiiiiiiiiiiiiiiiiiiiiiiiiiiiiiiiiiiiiiiiiiiiiiiiiiiiiiiiiiiiiiiiiiiiiiiiiiiiiiiiiiiiiiiiiiiiiiiiiiiiiiiiiiiiiiiiiiiiiiiiiiiiiiiiiiiiiiiiiiiiiiiiiiiiiiiiiiiiiiiiiiiiiiiiiiiiiiiiiiiiiiiiiiiiiiiiiiiiiiiiiiiiiiiiiiiiiiiiiiiiiiiiiiiiiiiiiiiiiiiiiiiiiiiiiiiiiiiiiiiiiiiiiiiiiiiiiiiiiiiiiiiiiiiiiiiiiiiiiiiiiiiiiiiiiiiiiiiiiiiiiiiiiiiiiiiiiiiiiiiiiiiii?rev=x {}
HTTP/1.1 400 Bad Request, JSON of 43:
{"error":"bad_request","reason":"bad rev"}\n
# lists nest 126 deep within a document that is put, an id has 512 bytes, and the hash is of the members in the order of their keys
> PUT /d
HTTP/1.1 201 Created, JSON of 12:
{"ok":true}\n
> send PUT /d/a {"m":[[[[[[[[[[[[[[[[[[[[[[[[[[[[[[[[[[[[[[[[[[[[[[[[[[[[[[[[[[[[[[[[[[[[[[[[[[[[[[[[[[[[[[[[[[[[[[[[[[[[[[[[[[[[[[[[[[[[[[[[[[[[[[]]]]]]]]]]]]]]]]]]]]]]]]]]]]]]]]]]]]]]]]]]]]]]]]]]]]]]]]]]]]]]]]]]]]]]]]]]]]]]]]]]]]]]]]]]]]]]]]]]]]]]]]]]]]]]]]]]]]]]]]]]]]]]}
HTTP/1.1 201 Created, JSON of 64:
{"ok":true,"id":"a","rev":"1-8ddbedc73a99287a56410ec9177706e1"}\n
> PUT /d/a {"m":[[[[[[[[[[[[[[[[[[[[[[[[[[[[[[[[[[[[[[[[[[[[[[[[[[[[[[[[[[[[[[[[[[[[[[[[[[[[[[[[[[[[[[[[[[[[[[[[[[[[[[[[[[[[[[[[[[[[[[[[[[[[[[[]]]]]]]]]]]]]]]]]]]]]]]]]]]]]]]]]]]]]]]]]]]]]]]]]]]]]]]]]]]]]]]]]]]]]]]]]]]]]]]]]]]]]]]]]]]]]]]]]]]]]]]]]]]]]]]]]]]]]]]]]]]]]]]}
HTTP/1.1 400 Bad Request, JSON of 44:
{"error":"bad_request","reason":"not JSON"}\n
> send PUT /d/iiiiiiiiiiiiiiiiiiiiiiiiiiiiiiiiiiiiiiiiiiiiiiiiiiiiiiiiiiiiiiiiiiiiiiiiiiiiiiiiiiiiiiiiiiiiiiiiiiiiiiiiiiiiiiiiiiiiiiiiiiiiiiiiiiiiiiiiiiiiiiiiiiiiiiiiiiiiiiiiiiiiiiiiiiiiiiiiiiiiiiiiiiiiiiiiiiiiiiiiiiiiiiiiiiiiiiiiiiiiiiiiiiiiiiiiiiiiiiiiiiiiiiiiiiiiiiiiiiiiiiiiiiiiiiiiiiiiiiiiiiiiiiiiiiiiiiiiiiiiiiiiiiiiiiiiiiiiiiiiiiiiiiiiiiiiiiiiiiiiiiiiiiiiiiiiiiiiiiiiiiiiiiiiiiiiiiiiiiiiiiiiiiiiiiiiiiiiiiiiiiiiiiiiiiiiiiiiiiiiiiiiiiiiiiiiiiiiiiiiiiiiiiiiiiiiiiiiiiiiiiiiiiiiiiiiiiiiiiiiiiiiiiiiiiiiiiiiiiiiiiiiiiiiiiii {}
HTTP/1.1 201 Created, JSON of 575:
{"ok":true,"id":"iiiiiiiiiiiiiiiiiiiiiiiiiiiiiiiiiiiiiiiiiiiiiiiiiiiiiiiiiiiiiiiiiiiiiiiiiiiiiiiiiiiiiiiiiiiiiiiiiiiiiiiiiiiiiiiiiiiiiiiiiiiiiiiiiiiiiiiiiiiiiiiiiiiiiiiiiiiiiiiiiiiiiiiiiiiiiiiiiiiiiiiiiiiiiiiiiiiiiiiiiiiiiiiiiiiiiiiiiiiiiiiiiiiiiiiiiiiiiiiiiiiiiiiiiiiiiiiiiiiiiiiiiiiiiiiiiiiiiiiiiiiiiiiiiiiiiiiiiiiiiiiiiiiiiiiiiiiiiiiiiiiiiiiiiiiiiiiiiiiiiiiiiiiiiiiiiiiiiiiiiiiiiiiiiiiiiiiiiiiiiiiiiiiiiiiiiiiiiiiiiiiiiiiiiiiiiiiiiiiiiiiiiiiiiiiiiiiiiiiiiiiiiiiiiiiiiiiiiiiiiiiiiiiiiiiiiiiiiiiiiiiiiiiiiiiiiiiiiiiiiiiiiiiiiiii","rev":"1-da2225130538e10d50ca28bf9f3625b6"}\n
> send PUT /d/z {"b":1,"_id":"z","a":{"d":2,"c":3},"B":"\u00e9\n"}
HTTP/1.1 201 Created, JSON of 64:
{"ok":true,"id":"z","rev":"1-76761c3c3bcfe46d83fcc5006a8ab15b"}\n
"#;

/// Documents that came, and values of each kind, as they are shown.
pub(crate) const SHOWN: &str = r#"
# what is shown of edits that came
> PUT /d
HTTP/1.1 201 Created, JSON of 12:
{"ok":true}\n
> POST /d/_bulk_docs {"docs":[{"_id":"b0","_rev":"1-a"},{"_id":"b1","_rev":"2-a"},{"_id":"b2","_rev":"65535-a"},{"_id":"b3","_revisions":{"start":1,"ids":["a"]}},{"_id":"b4","_revisions":{"start":1,"ids":["a"],"x":[]}},{"_id":"b5","_rev":"2-a","_revisions":{"start":2,"ids":["a","b"]}},{"_id":"b6","_revisions":{"start":2,"ids":["a"]}},{"_id":"b7","_revisions":{"start":3,"ids":["c","b"]}},{"_id":"b8","_revisions":{"start":65535,"ids":["a"]}},{"_id":"b9","_rev":"3-c","_revisions":{"start":3,"ids":["c","b"]}},{"_id":"b10","_revisions":{"start":6,"ids":["f","e","d"]}},{"_id":"b11","_rev":"3-c","_revisions":{"start":3,"ids":["c","b","a"]}}],"new_edits":false}
HTTP/1.1 201 Created, JSON of 3:
[]\n
> GET /d/b0?revs=true
HTTP/1.1 200 OK, JSON of 63:
{"_id":"b0","_rev":"1-a","_revisions":{"start":1,"ids":["a"]}}\n
> GET /d/b1?revs=true
HTTP/1.1 200 OK, JSON of 63:
{"_id":"b1","_rev":"2-a","_revisions":{"start":2,"ids":["a"]}}\n
> GET /d/b2?revs=true
HTTP/1.1 200 OK, JSON of 71:
{"_id":"b2","_rev":"65535-a","_revisions":{"start":65535,"ids":["a"]}}\n
> GET /d/b3?revs=true
HTTP/1.1 200 OK, JSON of 63:
{"_id":"b3","_rev":"1-a","_revisions":{"start":1,"ids":["a"]}}\n
> GET /d/b4?revs=true
HTTP/1.1 200 OK, JSON of 63:
{"_id":"b4","_rev":"1-a","_revisions":{"start":1,"ids":["a"]}}\n
> GET /d/b5?revs=true
HTTP/1.1 200 OK, JSON of 67:
{"_id":"b5","_rev":"2-a","_revisions":{"start":2,"ids":["a","b"]}}\n
> GET /d/b6?revs=true
HTTP/1.1 200 OK, JSON of 63:
{"_id":"b6","_rev":"2-a","_revisions":{"start":2,"ids":["a"]}}\n
> GET /d/b7?revs=true
HTTP/1.1 200 OK, JSON of 67:
{"_id":"b7","_rev":"3-c","_revisions":{"start":3,"ids":["c","b"]}}\n
> GET /d/b8?revs=true
HTTP/1.1 200 OK, JSON of 71:
{"_id":"b8","_rev":"65535-a","_revisions":{"start":65535,"ids":["a"]}}\n
> GET /d/b9?revs=true
HTTP/1.1 200 OK, JSON of 67:
{"_id":"b9","_rev":"3-c","_revisions":{"start":3,"ids":["c","b"]}}\n
> GET /d/b10?revs=true
HTTP/1.1 200 OK, JSON of 72:
{"_id":"b10","_rev":"6-f","_revisions":{"start":6,"ids":["f","e","d"]}}\n
> GET /d/b11?revs=true
HTTP/1.1 200 OK, JSON of 72:
{"_id":"b11","_rev":"3-c","_revisions":{"start":3,"ids":["c","b","a"]}}\n
> POST /d/_bulk_docs {"docs":[{"_id":"c","_revisions":{"start":1,"ids":["hhhhhhhhhhhhhhhhhhhhhhhhhhhhhhhhhhhhhhhhhhhhhhhhhhhhhhhhhhhhhhhh"]}}],"new_edits":false}
HTTP/1.1 201 Created, JSON of 3:
[]\n
> GET /d/c?revs=true
HTTP/1.1 200 OK, JSON of 188:
{"_id":"c","_rev":"1-hhhhhhhhhhhhhhhhhhhhhhhhhhhhhhhhhhhhhhhhhhhhhhhhhhhhhhhhhhhhhhhh","_revisions":{"start":1,"ids":["hhhhhhhhhhhhhhhhhhhhhhhhhhhhhhhhhhhhhhhhhhhhhhhhhhhhhhhhhhhhhhhh"]}}\n
> POST /d/_bulk_docs {"docs":[{"_id":"e","_rev":"1-c","v":[]},{"_id":"f","_revisions":{"start":6,"ids":["f","e","d"]},"v":1},{"_id":"g","_deleted":true,"v":1,"_revisions":{"ids":["c","b","a"],"start":3}},{"b":[1,{"d":-2,"c":"\u00e9\n"}],"_id":"x","_rev":"2-c","_revisions":{"start":2,"ids":["c","a"]},"_deleted":true,"a":null,"_conflicts":[],"":true}],"new_edits":false}
HTTP/1.1 201 Created, JSON of 3:
[]\n
> GET /d/e?open_revs=all&revs=true
HTTP/1.1 200 OK, JSON of 78:
[{"ok":{"_id":"e","_rev":"1-c","_revisions":{"start":1,"ids":["c"]},"v":[]}}]\n
> GET /d/f?open_revs=all&revs=true
HTTP/1.1 200 OK, JSON of 85:
[{"ok":{"_id":"f","_rev":"6-f","_revisions":{"start":6,"ids":["f","e","d"]},"v":1}}]\n
> GET /d/g?open_revs=all&revs=true
HTTP/1.1 200 OK, JSON of 101:
[{"ok":{"_id":"g","_rev":"3-c","_deleted":true,"_revisions":{"start":3,"ids":["c","b","a"]},"v":1}}]\n
> GET /d/x?open_revs=all&revs=true
HTTP/1.1 200 OK, JSON of 136:
[{"ok":{"_id":"x","_rev":"2-c","_deleted":true,"_revisions":{"start":2,"ids":["c","a"]},"":true,"a":null,"b":[1,{"c":"é\n","d":-2}]}}]\n
> GET /d/x
HTTP/1.1 404 Not Found, JSON of 41:
{"error":"not_found","reason":"deleted"}\n
> GET /d/f
HTTP/1.1 200 OK, JSON of 31:
{"_id":"f","_rev":"6-f","v":1}\n
# an edit that is made here on one that came: its history is not looked at
> PUT /d
HTTP/1.1 201 Created, JSON of 12:
{"ok":true}\n
> POST /d/_bulk_docs {"docs":[{"_id":"x","_rev":"2-c"}],"new_edits":false}
HTTP/1.1 201 Created, JSON of 3:
[]\n
> PUT /d/x {"b":[1,{"d":-2,"c":"\u00e9\n"}],"_id":"x","_rev":"2-c","_revisions":{"start":2,"ids":["c","a"]},"_deleted":true,"a":null,"_conflicts":[],"":true}
HTTP/1.1 201 Created, JSON of 64:
{"ok":true,"id":"x","rev":"3-b575a67d325e66baac6f4ed773e22772"}\n
> GET /d/x?open_revs=all&revs=true
HTTP/1.1 200 OK, JSON of 198:
[{"ok":{"_id":"x","_rev":"3-b575a67d325e66baac6f4ed773e22772","_deleted":true,"_revisions":{"start":3,"ids":["b575a67d325e66baac6f4ed773e22772","c"]},"":true,"a":null,"b":[1,{"c":"é\n","d":-2}]}}]\n
> PUT /d/_design/x {}
HTTP/1.1 201 Created, JSON of 72:
{"ok":true,"id":"_design/x","rev":"1-d1db91cb4e902de6c11be06a2d93219b"}\n
# one connection reads one body after another: values of each kind, faults, and the values again
> PUT /d
HTTP/1.1 201 Created, JSON of 12:
{"ok":true}\n
> POST /d/_bulk_docs {"docs":[{"_id":"a0","_rev":"1-a","s":"\u00e9"},{"_id":"a1","_rev":"1-a","s":"\ud83d\ude00"},{"_id":"a2","_rev":"1-a","s":"\/\b\f"},{"_id":"a3","_rev":"1-a","v":1,"v":2},{"_id":"a4","_rev":"1-a","v":{"w":1,"w":[]}},{"_id":"a5","_rev":"1-a","v":-9223372036854775808},{"_id":"a6","_rev":"1-a","v":18446744073709551615},{"_id":"a7","_rev":"1-a", "b" : 1 , "B":2}],"new_edits":false}
HTTP/1.1 201 Created, JSON of 3:
[]\n
> POST /d/_bulk_docs {"docs":[{"_id":"a","s":"\ud83d"}]}
HTTP/1.1 400 Bad Request, JSON of 44:
{"error":"bad_request","reason":"not JSON"}\n
> POST /d/_bulk_docs {"docs":[{"_id":"a","s":"\ude00\ud83d"}]}
HTTP/1.1 400 Bad Request, JSON of 44:
{"error":"bad_request","reason":"not JSON"}\n
> POST /d/_bulk_docs {"docs":[{"_id":"a","s":"\x"}]}
HTTP/1.1 400 Bad Request, JSON of 44:
{"error":"bad_request","reason":"not JSON"}\n
> POST /d/_bulk_docs {"docs":[{"_id":"a","v":01}]}
HTTP/1.1 400 Bad Request, JSON of 44:
{"error":"bad_request","reason":"not JSON"}\n
> POST /d/_bulk_docs {"docs":[{"_id":"a","v":1,}]}
HTTP/1.1 400 Bad Request, JSON of 44:
{"error":"bad_request","reason":"not JSON"}\n
> POST /d/_bulk_docs {"docs":[{"_id":"a","v":1e400}]}
HTTP/1.1 400 Bad Request, JSON of 44:
{"error":"bad_request","reason":"not JSON"}\n
> POST /d/_bulk_docs {"docs":[{"_id":"a","_rev":"1-a","v":18446744073709551616},{"_id":"a","_rev":"1-a","v":-9223372036854775809},{"_id":"a","_rev":"1-a","v":1e2},{"_id":"a","_rev":"1-a","v":1.0},{"_id":"a","_rev":"1-a","v":-0}],"new_edits":false}
HTTP/1.1 201 Created, JSON of 332:
[{"id":"a","error":"bad_request","reason":"number out of profile"},{"id":"a","error":"bad_request","reason":"number out of profile"},{"id":"a","error":"bad_request","reason":"number out of profile"},{"id":"a","error":"bad_request","reason":"number out of profile"},{"id":"a","error":"bad_request","reason":"number out of profile"}]\n
> POST /d/_bulk_docs {"docs":[{"_id":"b0","_rev":"1-a","s":"\u00e9"},{"_id":"b1","_rev":"1-a","s":"\ud83d\ude00"},{"_id":"b2","_rev":"1-a","s":"\/\b\f"},{"_id":"b3","_rev":"1-a","v":1,"v":2},{"_id":"b4","_rev":"1-a","v":{"w":1,"w":[]}},{"_id":"b5","_rev":"1-a","v":-9223372036854775808},{"_id":"b6","_rev":"1-a","v":18446744073709551615},{"_id":"b7","_rev":"1-a", "b" : 1 , "B":2}],"new_edits":false}
HTTP/1.1 201 Created, JSON of 3:
[]\n
> POST /d/_bulk_docs -
HTTP/1.1 400 Bad Request, JSON of 44:
{"error":"bad_request","reason":"not JSON"}\n
> POST /d/_bulk_docs {} {}
HTTP/1.1 400 Bad Request, JSON of 44:
{"error":"bad_request","reason":"not JSON"}\n
> POST /d/_bulk_docs {}
HTTP/1.1 400 Bad Request, JSON of 49:
{"error":"bad_request","reason":"not an object"}\n
> POST /d/_bulk_docs {"docs":[{"_id":"c","_rev":"1-a","v":7                                                                                                                                                                                                                                                                                                                                                                                                                                                                                                                                                                                                                                                                                                                                                                                                                                                                                                                                                                                                                                                                                                                                                                                                                                                                                                                                                                                                                                                                                                                                                                                                                                                                                                                                                                                                                                                                                                                                                                                                                                                                                                                                                                                                                                                                                                                                                                                                                                                                                                                                                                                                                                                                                                                                                                                                                                                                                                                                                                                                                                                                                                                                                                                                                                                                                                                                                                                                                                                                                                                                                                                                                                                                                                                                                                                                                                                                                                                                                                                                                                                                                                                                                                                                                                                                                                                                                                                                                                                                                                                                                                                                                                                                                                                                                                                                                                                                                                                                                                                                                                                                                                                                                                                                        }],"new_edits":false}
HTTP/1.1 201 Created, JSON of 3:
[]\n
> GET /d/_changes?include_docs=true
HTTP/1.1 200 OK, JSON in chunks:
d
{"results":[\n
5a
{"seq":"1-1","id":"a0","changes":[{"rev":"1-a"}],"doc":{"_id":"a0","_rev":"1-a","s":"é"}}
5e
,\n{"seq":"2-1","id":"a1","changes":[{"rev":"1-a"}],"doc":{"_id":"a1","_rev":"1-a","s":"😀"}}
5f
,\n{"seq":"3-1","id":"a2","changes":[{"rev":"1-a"}],"doc":{"_id":"a2","_rev":"1-a","s":"/\b\f"}}
59
,\n{"seq":"4-1","id":"a3","changes":[{"rev":"1-a"}],"doc":{"_id":"a3","_rev":"1-a","v":2}}
60
,\n{"seq":"5-1","id":"a4","changes":[{"rev":"1-a"}],"doc":{"_id":"a4","_rev":"1-a","v":{"w":[]}}}
6c
,\n{"seq":"6-1","id":"a5","changes":[{"rev":"1-a"}],"doc":{"_id":"a5","_rev":"1-a","v":-9223372036854775808}}
6c
,\n{"seq":"7-1","id":"a6","changes":[{"rev":"1-a"}],"doc":{"_id":"a6","_rev":"1-a","v":18446744073709551615}}
5f
,\n{"seq":"8-1","id":"a7","changes":[{"rev":"1-a"}],"doc":{"_id":"a7","_rev":"1-a","B":2,"b":1}}
5c
,\n{"seq":"9-1","id":"b0","changes":[{"rev":"1-a"}],"doc":{"_id":"b0","_rev":"1-a","s":"é"}}
5f
,\n{"seq":"10-1","id":"b1","changes":[{"rev":"1-a"}],"doc":{"_id":"b1","_rev":"1-a","s":"😀"}}
60
,\n{"seq":"11-1","id":"b2","changes":[{"rev":"1-a"}],"doc":{"_id":"b2","_rev":"1-a","s":"/\b\f"}}
5a
,\n{"seq":"12-1","id":"b3","changes":[{"rev":"1-a"}],"doc":{"_id":"b3","_rev":"1-a","v":2}}
61
,\n{"seq":"13-1","id":"b4","changes":[{"rev":"1-a"}],"doc":{"_id":"b4","_rev":"1-a","v":{"w":[]}}}
6d
,\n{"seq":"14-1","id":"b5","changes":[{"rev":"1-a"}],"doc":{"_id":"b5","_rev":"1-a","v":-9223372036854775808}}
6d
,\n{"seq":"15-1","id":"b6","changes":[{"rev":"1-a"}],"doc":{"_id":"b6","_rev":"1-a","v":18446744073709551615}}
60
,\n{"seq":"16-1","id":"b7","changes":[{"rev":"1-a"}],"doc":{"_id":"b7","_rev":"1-a","B":2,"b":1}}
58
,\n{"seq":"17-1","id":"c","changes":[{"rev":"1-a"}],"doc":{"_id":"c","_rev":"1-a","v":7}}
23
\n],\n"last_seq":"17-1","pending":0}\n
last chunk
> send POST /d/_bulk_docs {"docs":[{"_id":"z","s":"\u007f\u001f"}]}
HTTP/1.1 201 Created, JSON of 66:
[{"ok":true,"id":"z","rev":"1-dcba29529287bc6bb61f8e8049947193"}]\n
"#;
