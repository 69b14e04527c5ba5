//! The missing revisions of documents, over bytes.

/// Questions about several documents, some of which miss nothing, and about no document.
pub(crate) const DIFFS: &str = r#"
# what documents miss of revisions, and the leaves that may stand behind these
> PUT /d
HTTP/1.1 201 Created, JSON of 12:
{"ok":true}\n
> POST /d/_bulk_docs {"docs":[{"_id":"a","_rev":"1-a","v":1},{"_id":"b","_rev":"1-b","v":2},{"_id":"a","_revisions":{"start":2,"ids":["c","a"]},"v":3}],"new_edits":false}
HTTP/1.1 201 Created, JSON of 3:
[]\n
> POST /d/_revs_diff {"a":["1-a","2-d","3-e"],"b":["1-b"],"y":[],"z":["1-q"]}
HTTP/1.1 200 OK, JSON of 85:
{"a":{"missing":["2-d","3-e"],"possible_ancestors":["2-c"]},"z":{"missing":["1-q"]}}\n
> POST /d/_revs_diff {}
HTTP/1.1 200 OK, JSON of 3:
{}\n
"#;
