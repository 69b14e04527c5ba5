//! Edits by their sequences, as they came, and winners.

/// Edits are shown as they came.
///
/// The hash of the revision that is made here is the MD5 of `[false,"3-c","a",{}]`.
pub(crate) const ENTRIES: &str = r#"
# winners: of two leaves and a deleted one above them, of a deleted document, and of none
> merge {"_id":"a","_rev":"1-a","v":1}
seq 1
> merge {"_id":"a","_revisions":{"start":2,"ids":["c","a"]},"v":2}
seq 2
> merge {"_id":"a","_deleted":true,"_revisions":{"start":3,"ids":["f","e","a"]}}
seq 3
> merge {"_id":"a","_revisions":{"start":2,"ids":["d","a"]},"v":4}
seq 4
> merge {"_id":"b","_deleted":true,"_rev":"1-b"}
seq 5
> winner a
stands 2-d
> winner b
deleted 1-b
> winner z
none
> winner
none

# entries, and none before the first and behind the last
> merge {"_id":"a","_rev":"1-a","v":1}
seq 1
> merge {"_id":"b","_rev":"1-b","v":2}
seq 2
> merge {"_id":"a","_revisions":{"start":2,"ids":["c","a"]},"v":3}
seq 3
> entry 0
none
none
> entry 1
a 1-a
{"_id":"a","_rev":"1-a","_revisions":{"start":1,"ids":["a"]},"v":1}
> entry 2
b 1-b
{"_id":"b","_rev":"1-b","_revisions":{"start":1,"ids":["b"]},"v":2}
> entry 3
a 2-c
{"_id":"a","_rev":"2-c","_revisions":{"start":2,"ids":["c","a"]},"v":3}
> entry 4
none
none
> entry 18446744073709551615
none
none

# the first edit keeps the history that it came with, whatever stands behind its revision by now
> merge {"_id":"a","_rev":"5-e"}
seq 1
> merge {"_id":"a","_revisions":{"start":5,"ids":["e","d"]}}
seq 1
> entry 1
a 5-e
{"_id":"a","_rev":"5-e","_revisions":{"start":5,"ids":["e"]}}
> merge {"_id":"a","_revisions":{"start":6,"ids":["f","e","d"]}}
seq 2
> entry 1
a 5-e
{"_id":"a","_rev":"5-e","_revisions":{"start":5,"ids":["e"]}}
> merge {"_id":"a","_revisions":{"start":6,"ids":["h","e","q"]}}
seq 2

# edits keep their histories also where a later one tells that one is the other's parent
> merge {"_id":"x","_rev":"2-b"}
seq 1
> merge {"_id":"x","_rev":"3-c"}
seq 2
> merge {"_id":"x","_revisions":{"start":3,"ids":["c","b"]}}
seq 2
> merge {"_id":"x","_revisions":{"start":4,"ids":["d","c","b"]}}
seq 3
> entry 1
x 2-b
{"_id":"x","_rev":"2-b","_revisions":{"start":2,"ids":["b"]}}
> entry 2
x 3-c
{"_id":"x","_rev":"3-c","_revisions":{"start":3,"ids":["c"]}}
> merge {"_id":"x","_revisions":{"start":4,"ids":["e","c","q"]}}
seq 3

# an edit that is made on a deleted revision keeps its history of two revisions, also where three stand behind it by now
> merge {"_id":"a","_deleted":true,"_rev":"3-c"}
seq 1
> bulk {"_id":"a"}
seq 2
> merge {"_id":"a","_deleted":true,"_revisions":{"start":4,"ids":["d","c","b"]}}
seq 3
> entry 2
a 4-e4e0d18c32e6aa308b581d5741ad8080
{"_id":"a","_rev":"4-e4e0d18c32e6aa308b581d5741ad8080","_revisions":{"start":4,"ids":["e4e0d18c32e6aa308b581d5741ad8080","c"]}}
"#;
