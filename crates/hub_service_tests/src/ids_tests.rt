//! Names over bytes: ids, and the revisions that are asked for.

/// Ids of many forms, in quotes and in the hash of a revision.
pub(crate) const IDS: &str = concat!(
    r#"
# ids of each length round those that take another form, and in quotes as in the log of a feed
> PUT /d
HTTP/1.1 201 Created, JSON of 12:
{"ok":true}\n
> POST /d/_bulk_docs {"docs":[{"_id":"a","_rev":"1-a"},{"_id":"a_","_rev":"1-a"},{"_id":"_design/x","_rev":"1-a"},{"_id":"é","_rev":"1-a"},{"_id":"a/b","_rev":"1-a"},{"_id":"\n","_rev":"1-a"},{"_id":"é/漢","_rev":"1-a"},{"_id":"iiiiiiiiiiiiiiii","_rev":"1-a"},{"_id":"iiiiiiiiiiiiiiiii","_rev":"1-a"},{"_id":"iiiiiiiiiiiiiiiiiiiiiiiiiiiiiiii","_rev":"1-a"},{"_id":"iiiiiiiiiiiiiiiiiiiiiiiiiiiiiiiii","_rev":"1-a"},{"_id":"iiiiiiiiiiiiiiiiiiiiiiiiiiiiiiiiiiiiiiiiiiiiiiiiiiiiiiiiiiiiiiiiiiiiiiiiiiiiiiiiiiiiiiiiiiiiiiiiiiiiiiiiiiiiiiiiiiiiiiiiiiiiiiiiiiiiiiiiiiiiiiiiiiiiiiiiiiiiiiiiiiiiiiiiiiiiiiiiiiiiiiiiiiiiiiiiiiiiiiiiiiiiiiiiiiiiiiiiiiiiiiiiiiiiiiiiiiiiiiiiiiiiiiiiiiiiiiiiiiiiiiiiiiiiiiiiiiiiiiiiiiiiiiiiiiiiiiiiiiiiiiiiiiiiiiiiiiiiiiiiiiiiiiiiiiiiiiiiiiiiiiiiiiiiiiiiiiiiiiiiiiiiiiiiiiiiiiiiiiiiiiiiiiiiiiiiiiiiiiiiiiiiiiiiiiiiiiiiiiiiiiiiiiiiiiiiiiiiiiiiiiiiiiiiiiiiiiiiiiiiiiiiiiiiiiiiiiiiiiiiiiiiiiiiiiiiiiiiiiiiiiiiiiiiiiii","_rev":"1-a"},{"_id":"q\"\\\n\u0001","_rev":"1-a"},{"_id":"abcdefg","_rev":"1-a"},{"_id":"abcdefgh","_rev":"1-a"},{"_id":"abcdefghijklmnop","_rev":"1-a"},{"_id":"abcdefghijklmnopq","_rev":"1-a"},{"_id":"\"","_rev":"1-a"},{"_id":"\\","_rev":"1-a"},{"_id":"\u001f","_rev":"1-a"},{"_id":"abcdefg\"","_rev":"1-a"},{"_id":"\u0000bcdefghijklmnop","_rev":"1-a"},{"_id":"abcdefghijklmno\\","_rev":"1-a"},{"_id":"abcdefghijklmnop\n","_rev":"1-a"},{"_id":"abcdefghijklmnopq\"stuvwxyzabcdefghi","_rev":"1-a"},{"_id":"é漢😀\u007f","_rev":"1-a"}],"new_edits":false}
HTTP/1.1 201 Created, JSON of 3:
[]\n
> GET /d/_changes
HTTP/1.1 200 OK, JSON in chunks:
d
{"results":[\n
30
{"seq":"1-1","id":"a","changes":[{"rev":"1-a"}]}
33
,\n{"seq":"2-1","id":"a_","changes":[{"rev":"1-a"}]}
3a
,\n{"seq":"3-1","id":"_design/x","changes":[{"rev":"1-a"}]}
33
,\n{"seq":"4-1","id":"é","changes":[{"rev":"1-a"}]}
34
,\n{"seq":"5-1","id":"a/b","changes":[{"rev":"1-a"}]}
33
,\n{"seq":"6-1","id":"\n","changes":[{"rev":"1-a"}]}
37
,\n{"seq":"7-1","id":"é/漢","changes":[{"rev":"1-a"}]}
41
,\n{"seq":"8-1","id":"iiiiiiiiiiiiiiii","changes":[{"rev":"1-a"}]}
42
,\n{"seq":"9-1","id":"iiiiiiiiiiiiiiiii","changes":[{"rev":"1-a"}]}
52
,\n{"seq":"10-1","id":"iiiiiiiiiiiiiiiiiiiiiiiiiiiiiiii","changes":[{"rev":"1-a"}]}
53
,\n{"seq":"11-1","id":"iiiiiiiiiiiiiiiiiiiiiiiiiiiiiiiii","changes":[{"rev":"1-a"}]}
232
,\n{"seq":"12-1","id":"iiiiiiiiiiiiiiiiiiiiiiiiiiiiiiiiiiiiiiiiiiiiiiiiiiiiiiiiiiiiiiiiiiiiiiiiiiiiiiiiiiiiiiiiiiiiiiiiiiiiiiiiiiiiiiiiiiiiiiiiiiiiiiiiiiiiiiiiiiiiiiiiiiiiiiiiiiiiiiiiiiiiiiiiiiiiiiiiiiiiiiiiiiiiiiiiiiiiiiiiiiiiiiiiiiiiiiiiiiiiiiiiiiiiiiiiiiiiiiiiiiiiiiiiiiiiiiiiiiiiiiiiiiiiiiiiiiiiiiiiiiiiiiiiiiiiiiiiiiiiiiiiiiiiiiiiiiiiiiiiiiiiiiiiiiiiiiiiiiiiiiiiiiiiiiiiiiiiiiiiiiiiiiiiiiiiiiiiiiiiiiiiiiiiiiiiiiiiiiiiiiiiiiiiiiiiiiiiiiiiiiiiiiiiiiiiiiiiiiiiiiiiiiiiiiiiiiiiiiiiiiiiiiiiiiiiiiiiiiiiiiiiiiiiiiiiiiiiiiiiiiiiiiiiiiii","changes":[{"rev":"1-a"}]}
3f
,\n{"seq":"13-1","id":"q\"\\\n\u0001","changes":[{"rev":"1-a"}]}
39
,\n{"seq":"14-1","id":"abcdefg","changes":[{"rev":"1-a"}]}
3a
,\n{"seq":"15-1","id":"abcdefgh","changes":[{"rev":"1-a"}]}
42
,\n{"seq":"16-1","id":"abcdefghijklmnop","changes":[{"rev":"1-a"}]}
43
,\n{"seq":"17-1","id":"abcdefghijklmnopq","changes":[{"rev":"1-a"}]}
34
,\n{"seq":"18-1","id":"\"","changes":[{"rev":"1-a"}]}
34
,\n{"seq":"19-1","id":"\\","changes":[{"rev":"1-a"}]}
38
,\n{"seq":"20-1","id":"\u001f","changes":[{"rev":"1-a"}]}
3b
,\n{"seq":"21-1","id":"abcdefg\"","changes":[{"rev":"1-a"}]}
47
,\n{"seq":"22-1","id":"\u0000bcdefghijklmnop","changes":[{"rev":"1-a"}]}
43
,\n{"seq":"23-1","id":"abcdefghijklmno\\","changes":[{"rev":"1-a"}]}
44
,\n{"seq":"24-1","id":"abcdefghijklmnop\n","changes":[{"rev":"1-a"}]}
56
,\n{"seq":"25-1","id":"abcdefghijklmnopq\"stuvwxyzabcdefghi","changes":[{"rev":"1-a"}]}
3c
,\n{"seq":"26-1","id":"é漢😀"#,
    "\u{7f}",
    r#"","changes":[{"rev":"1-a"}]}
23
\n],\n"last_seq":"26-1","pending":0}\n
last chunk
> POST /d/_bulk_docs {"docs":[{"_id":"iiiiiiiiiiiiiiiiiiiiiiiiiiiiiiiiiiiiiiiiiiiiiiiiiiiiiiiiiiiiiiiiiiiiiiiiiiiiiiiiiiiiiiiiiiiiiiiiiiiiiiiiiiiiiiiiiiiiiiiiiiiiiiiiiiiiiiiiiiiiiiiiiiiiiiiiiiiiiiiiiiiiiiiiiiiiiiiiiiiiiiiiiiiiiiiiiiiiiiiiiiiiiiiiiiiiiiiiiiiiiiiiiiiiiiiiiiiiiiiiiiiiiiiiiiiiiiiiiiiiiiiiiiiiiiiiiiiiiiiiiiiiiiiiiiiiiiiiiiiiiiiiiiiiiiiiiiiiiiiiiiiiiiiiiiiiiiiiiiiiiiiiiiiiiiiiiiiiiiiiiiiiiiiiiiiiiiiiiiiiiiiiiiiiiiiiiiiiiiiiiiiiiiiiiiiiiiiiiiiiiiiiiiiiiiiiiiiiiiiiiiiiiiiiiiiiiiiiiiiiiiiiiiiiiiiiiiiiiiiiiiiiiiiiiiiiiiiiiiiiiiiiiiiiiiiii","_rev":"1-a","_attachments":{}},{"_id":"iiiiiiiiiiiiiiiiiiiiiiiiiiiiiiiiiiiiiiiiiiiiiiiiiiiiiiiiiiiiiiiiiiiiiiiiiiiiiiiiiiiiiiiiiiiiiiiiiiiiiiiiiiiiiiiiiiiiiiiiiiiiiiiiiiiiiiiiiiiiiiiiiiiiiiiiiiiiiiiiiiiiiiiiiiiiiiiiiiiiiiiiiiiiiiiiiiiiiiiiiiiiiiiiiiiiiiiiiiiiiiiiiiiiiiiiiiiiiiiiiiiiiiiiiiiiiiiiiiiiiiiiiiiiiiiiiiiiiiiiiiiiiiiiiiiiiiiiiiiiiiiiiiiiiiiiiiiiiiiiiiiiiiiiiiiiiiiiiiiiiiiiiiiiiiiiiiiiiiiiiiiiiiiiiiiiiiiiiiiiiiiiiiiiiiiiiiiiiiiiiiiiiiiiiiiiiiiiiiiiiiiiiiiiiiiiiiiiiiiiiiiiiiiiiiiiiiiiiiiiiiiiiiiiiiiiiiiiiiiiiiiiiiiiiiiiiiiiiiiiiiiiiiiiiiiii","_rev":"1-a","_attachments":1}],"new_edits":false}
HTTP/1.1 201 Created, JSON of 1137:
[{"id":"iiiiiiiiiiiiiiiiiiiiiiiiiiiiiiiiiiiiiiiiiiiiiiiiiiiiiiiiiiiiiiiiiiiiiiiiiiiiiiiiiiiiiiiiiiiiiiiiiiiiiiiiiiiiiiiiiiiiiiiiiiiiiiiiiiiiiiiiiiiiiiiiiiiiiiiiiiiiiiiiiiiiiiiiiiiiiiiiiiiiiiiiiiiiiiiiiiiiiiiiiiiiiiiiiiiiiiiiiiiiiiiiiiiiiiiiiiiiiiiiiiiiiiiiiiiiiiiiiiiiiiiiiiiiiiiiiiiiiiiiiiiiiiiiiiiiiiiiiiiiiiiiiiiiiiiiiiiiiiiiiiiiiiiiiiiiiiiiiiiiiiiiiiiiiiiiiiiiiiiiiiiiiiiiiiiiiiiiiiiiiiiiiiiiiiiiiiiiiiiiiiiiiiiiiiiiiiiiiiiiiiiiiiiiiiiiiiiiiiiiiiiiiiiiiiiiiiiiiiiiiiiiiiiiiiiiiiiiiiiiiiiiiiiiiiiiiiiiiiiiiiiiiiiiiiiii","error":"bad_request","reason":"id too long"},{"id":"iiiiiiiiiiiiiiiiiiiiiiiiiiiiiiiiiiiiiiiiiiiiiiiiiiiiiiiiiiiiiiiiiiiiiiiiiiiiiiiiiiiiiiiiiiiiiiiiiiiiiiiiiiiiiiiiiiiiiiiiiiiiiiiiiiiiiiiiiiiiiiiiiiiiiiiiiiiiiiiiiiiiiiiiiiiiiiiiiiiiiiiiiiiiiiiiiiiiiiiiiiiiiiiiiiiiiiiiiiiiiiiiiiiiiiiiiiiiiiiiiiiiiiiiiiiiiiiiiiiiiiiiiiiiiiiiiiiiiiiiiiiiiiiiiiiiiiiiiiiiiiiiiiiiiiiiiiiiiiiiiiiiiiiiiiiiiiiiiiiiiiiiiiiiiiiiiiiiiiiiiiiiiiiiiiiiiiiiiiiiiiiiiiiiiiiiiiiiiiiiiiiiiiiiiiiiiiiiiiiiiiiiiiiiiiiiiiiiiiiiiiiiiiiiiiiiiiiiiiiiiiiiiiiiiiiiiiiiiiiiiiiiiiiiiiiiiiiiiiiiiiiiiiiiiiiii","error":"bad_request","reason":"bad member"}]\n
# ids in quotes in an answer, and in the hash of a revision
> PUT /d
HTTP/1.1 201 Created, JSON of 12:
{"ok":true}\n
> send POST /d/_bulk_docs {"docs":[{"_id":"\u00e9漢\ud83d\ude00"},{"_id":"q\"b\\n\nc\u0001"},{"_id":"q\"\\\n\u0001\u00e9\/"},{"_id":"abcdefghijklmno\\"}]}
HTTP/1.1 201 Created, JSON of 312:
[{"ok":true,"id":"é漢😀","rev":"1-93c3491e9f794cc319bc4bb5a0dcac3f"},{"ok":true,"id":"q\"b\\n\nc\u0001","rev":"1-a52c78843912a8fa145eabe100ce1922"},{"ok":true,"id":"q\"\\\n\u0001é/","rev":"1-5f4ec14dae29a8bbf32947ff4984efde"},{"ok":true,"id":"abcdefghijklmno\\","rev":"1-074c40c9d6a483292a2c955b35019499"}]\n
> POST /d/_bulk_docs {"docs":[{"_id":"q\"b\\n\nc\u0001","_rev":"1-a"}],"new_edits":false}
HTTP/1.1 201 Created, JSON of 3:
[]\n
> GET /d/q%22b%5Cn%0Ac%01?revs=true
HTTP/1.1 200 OK, JSON of 77:
{"_id":"q\"b\\n\nc\u0001","_rev":"1-a","_revisions":{"start":1,"ids":["a"]}}\n
> POST /d/_revs_diff {"":["1-a"]}
HTTP/1.1 200 OK, JSON of 25:
{"":{"missing":["1-a"]}}\n
"#
);

/// Texts of revisions, and which revisions are asked for.
pub(crate) const ASKED: &str = r#"
# texts of revisions, and texts that are none
> PUT /d
HTTP/1.1 201 Created, JSON of 12:
{"ok":true}\n
> POST /d/_revs_diff {"a":["1-a","10-0aZ","65535-9","2-0123456789012345678901234567890123456789012345678901234567890123"]}
HTTP/1.1 200 OK, JSON of 114:
{"a":{"missing":["1-a","10-0aZ","65535-9","2-0123456789012345678901234567890123456789012345678901234567890123"]}}\n
> POST /d/_revs_diff {"a":[""]}
HTTP/1.1 400 Bad Request, JSON of 43:
{"error":"bad_request","reason":"bad rev"}\n
> POST /d/_revs_diff {"a":["1"]}
HTTP/1.1 400 Bad Request, JSON of 43:
{"error":"bad_request","reason":"bad rev"}\n
> POST /d/_revs_diff {"a":["a"]}
HTTP/1.1 400 Bad Request, JSON of 43:
{"error":"bad_request","reason":"bad rev"}\n
> POST /d/_revs_diff {"a":["-a"]}
HTTP/1.1 400 Bad Request, JSON of 43:
{"error":"bad_request","reason":"bad rev"}\n
> POST /d/_revs_diff {"a":["1-"]}
HTTP/1.1 400 Bad Request, JSON of 43:
{"error":"bad_request","reason":"bad rev"}\n
> POST /d/_revs_diff {"a":["0-a"]}
HTTP/1.1 400 Bad Request, JSON of 43:
{"error":"bad_request","reason":"bad rev"}\n
> POST /d/_revs_diff {"a":["01-a"]}
HTTP/1.1 400 Bad Request, JSON of 43:
{"error":"bad_request","reason":"bad rev"}\n
> POST /d/_revs_diff {"a":["+1-a"]}
HTTP/1.1 400 Bad Request, JSON of 43:
{"error":"bad_request","reason":"bad rev"}\n
> POST /d/_revs_diff {"a":[" 1-a"]}
HTTP/1.1 400 Bad Request, JSON of 43:
{"error":"bad_request","reason":"bad rev"}\n
> POST /d/_revs_diff {"a":["1-a "]}
HTTP/1.1 400 Bad Request, JSON of 43:
{"error":"bad_request","reason":"bad rev"}\n
> POST /d/_revs_diff {"a":["1-a-b"]}
HTTP/1.1 400 Bad Request, JSON of 43:
{"error":"bad_request","reason":"bad rev"}\n
> POST /d/_revs_diff {"a":["1-é"]}
HTTP/1.1 400 Bad Request, JSON of 43:
{"error":"bad_request","reason":"bad rev"}\n
> POST /d/_revs_diff {"a":["65536-a"]}
HTTP/1.1 400 Bad Request, JSON of 43:
{"error":"bad_request","reason":"bad rev"}\n
> POST /d/_revs_diff {"a":["18446744073709551617-a"]}
HTTP/1.1 400 Bad Request, JSON of 43:
{"error":"bad_request","reason":"bad rev"}\n
> POST /d/_revs_diff {"a":["2-01234567890123456789012345678901234567890123456789012345678901234"]}
HTTP/1.1 400 Bad Request, JSON of 43:
{"error":"bad_request","reason":"bad rev"}\n
# which revisions of several documents are missing
> PUT /d
HTTP/1.1 201 Created, JSON of 12:
{"ok":true}\n
> POST /d/_revs_diff {}
HTTP/1.1 200 OK, JSON of 3:
{}\n
> POST /d/_revs_diff {"a":["1-a","2-d"],"b":[]}
HTTP/1.1 200 OK, JSON of 32:
{"a":{"missing":["1-a","2-d"]}}\n
> POST /d/_revs_diff {"b":["1-b"],"":[],"a":["1-a"]}
HTTP/1.1 200 OK, JSON of 50:
{"a":{"missing":["1-a"]},"b":{"missing":["1-b"]}}\n
> POST /d/_revs_diff {"a":["1-a"],"b":[],"a":["2-c"]}
HTTP/1.1 200 OK, JSON of 26:
{"a":{"missing":["2-c"]}}\n
> POST /d/_revs_diff {"_local/x":["1-a"],"_y":[]}
HTTP/1.1 200 OK, JSON of 33:
{"_local/x":{"missing":["1-a"]}}\n
> POST /d/_revs_diff {"a":["2-c","1-a","2-c"]}
HTTP/1.1 200 OK, JSON of 38:
{"a":{"missing":["2-c","1-a","2-c"]}}\n
> POST /d/_revs_diff []
HTTP/1.1 400 Bad Request, JSON of 49:
{"error":"bad_request","reason":"not an object"}\n
> POST /d/_revs_diff null
HTTP/1.1 400 Bad Request, JSON of 49:
{"error":"bad_request","reason":"not an object"}\n
> POST /d/_revs_diff {"a":1}
HTTP/1.1 400 Bad Request, JSON of 49:
{"error":"bad_request","reason":"not an object"}\n
> POST /d/_revs_diff {"a":"1-a"}
HTTP/1.1 400 Bad Request, JSON of 49:
{"error":"bad_request","reason":"not an object"}\n
> POST /d/_revs_diff {"a":{}}
HTTP/1.1 400 Bad Request, JSON of 49:
{"error":"bad_request","reason":"not an object"}\n
> POST /d/_revs_diff {"a":["1-a",2]}
HTTP/1.1 400 Bad Request, JSON of 49:
{"error":"bad_request","reason":"not an object"}\n
> POST /d/_revs_diff {"a":["x"],"b":1}
HTTP/1.1 400 Bad Request, JSON of 49:
{"error":"bad_request","reason":"not an object"}\n
> POST /d/_revs_diff {"a":["x",1]}
HTTP/1.1 400 Bad Request, JSON of 49:
{"error":"bad_request","reason":"not an object"}\n
> POST /d/_revs_diff {"a":["1-a"],"b":["x"],"c":[null]}
HTTP/1.1 400 Bad Request, JSON of 49:
{"error":"bad_request","reason":"not an object"}\n
> POST /d/_revs_diff {"a":["x"]}
HTTP/1.1 400 Bad Request, JSON of 43:
{"error":"bad_request","reason":"bad rev"}\n
> POST /d/_revs_diff {"a":["1-a","0-a"],"b":[]}
HTTP/1.1 400 Bad Request, JSON of 43:
{"error":"bad_request","reason":"bad rev"}\n
> POST /d/_revs_diff {"a":["x"],"b":["1-a"]}
HTTP/1.1 400 Bad Request, JSON of 43:
{"error":"bad_request","reason":"bad rev"}\n
# which revisions of one document are opened
> PUT /d
HTTP/1.1 201 Created, JSON of 12:
{"ok":true}\n
> POST /d/_bulk_docs {"docs":[{"_id":"a","_rev":"1-a"},{"_id":"a","_revisions":{"start":2,"ids":["c","a"]}}],"new_edits":false}
HTTP/1.1 201 Created, JSON of 3:
[]\n
> GET /d/a?open_revs=all
HTTP/1.1 200 OK, JSON of 34:
[{"ok":{"_id":"a","_rev":"2-c"}}]\n
> GET /d/a?open_revs=["1-a","2-c","9-z"]
HTTP/1.1 200 OK, JSON of 84:
[{"ok":{"_id":"a","_rev":"1-a"}},{"ok":{"_id":"a","_rev":"2-c"}},{"missing":"9-z"}]\n
> GET /d/a?open_revs=["2-a","2-a"]
HTTP/1.1 200 OK, JSON of 38:
[{"missing":"2-a"},{"missing":"2-a"}]\n
> GET /d/a?open_revs=+[+"1-%5Cu0061"+]+
HTTP/1.1 200 OK, JSON of 34:
[{"ok":{"_id":"a","_rev":"1-a"}}]\n
> GET /d/a?open_revs=[]
HTTP/1.1 200 OK, JSON of 3:
[]\n
> GET /d/a?open_revs=
HTTP/1.1 400 Bad Request, JSON of 43:
{"error":"bad_request","reason":"bad rev"}\n
> GET /d/a?open_revs=[
HTTP/1.1 400 Bad Request, JSON of 43:
{"error":"bad_request","reason":"bad rev"}\n
> GET /d/a?open_revs=All
HTTP/1.1 400 Bad Request, JSON of 43:
{"error":"bad_request","reason":"bad rev"}\n
> GET /d/a?open_revs="all"
HTTP/1.1 400 Bad Request, JSON of 43:
{"error":"bad_request","reason":"bad rev"}\n
> GET /d/a?open_revs={}
HTTP/1.1 400 Bad Request, JSON of 43:
{"error":"bad_request","reason":"bad rev"}\n
> GET /d/a?open_revs=["all"]
HTTP/1.1 400 Bad Request, JSON of 43:
{"error":"bad_request","reason":"bad rev"}\n
> GET /d/a?open_revs=["1-a",2]
HTTP/1.1 400 Bad Request, JSON of 43:
{"error":"bad_request","reason":"bad rev"}\n
> GET /d/a?open_revs=["1-a",["2-b"]]
HTTP/1.1 400 Bad Request, JSON of 43:
{"error":"bad_request","reason":"bad rev"}\n
> GET /d/a?open_revs=["1-a","0-b"]
HTTP/1.1 400 Bad Request, JSON of 43:
{"error":"bad_request","reason":"bad rev"}\n
> GET /d/a?open_revs=["x","1-a"]
HTTP/1.1 400 Bad Request, JSON of 43:
{"error":"bad_request","reason":"bad rev"}\n
"#;
