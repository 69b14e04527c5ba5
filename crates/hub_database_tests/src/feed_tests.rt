//! Feeds of a database, step by step.

/// Feeds hand rows and ends, also where edits come between.
pub(crate) const FEEDS: &str = r#"
# one feed: feeds are limited
> open
feed 0
> open
refused TooManyFeeds
> finish 0
> open
feed 1

# a normal feed hands rows and an end
> merge {"_id":"a","_rev":"1-a","v":1}
seq 1
> merge {"_id":"b","_rev":"1-b"}
seq 2
> merge {"_id":"a","_revisions":{"start":2,"ids":["b","a"]},"v":2}
seq 3
> open include_docs=true
feed 0
> take 0 times 4
Row 2/3 b 1-b {}
Row 3/3 a 2-b {"v":2}
End 3, 0 pending
Gone
> finish 0
> take 0
Gone

# rows leave the reach of a normal feed: one in front of its place and one behind it get new sequences
> next times 8
> state
seq 8, length 8, life 6, stands
> open
feed 0
> take 0 times 3
Row 1/8 1 1-a
Row 2/8 2 1-a
Row 3/8 3 1-a
> merge {"_id":"3","_rev":"1-b"}
seq 9
> merge {"_id":"5","_rev":"1-b"}
seq 10
> take 0 times 6
Row 4/10 4 1-a
Row 6/10 6 1-a
Row 7/10 7 1-a
Row 8/10 8 1-a
End 8, 2 pending
Gone

# listed documents are found far behind others, of an edited one no row by a feed that was opened before
> next times 8
> state
seq 8, length 8, life 6, stands
> open filter=_doc_ids&doc_ids=%5B%228%22,%228%22,%221%22,%22x%22%5D
feed 0
> open filter=_doc_ids&doc_ids=%5B%228%22%5D
feed 1
> take 0 times 4
Row 1/8 1 1-a
Row 8/8 8 1-a
End 8, 0 pending
Gone
> merge {"_id":"8","_rev":"1-b"}
seq 9
> take 1 times 2
End 8, 1 pending
Gone
"#;
