//! The life of a database: its number, and where feeds begin that ask for a sequence of this or another life.

/// Feeds that wait begin in the life of their database, and a database tells its life.
///
/// Each database is of life 6. Its three documents came in four edits: their rows are 2, 3 and 4.
pub(crate) const LIVES: &str = r#"
# feeds that wait, as those of any host, begin in their life, and a write comes while they do
> merge {"_id":"a","_rev":"1-a"}
seq 1
> merge {"_id":"b","_rev":"1-b"}
seq 2
> merge {"_id":"c","_rev":"1-c"}
seq 3
> merge {"_id":"a","_revisions":{"start":2,"ids":["b","a"]}}
seq 4
> open feed=longpoll&since=4-6
feed 0
> hand 0
Nothing
> open feed=longpoll&since=4-7
feed 1
> hand 1 times 5
Row 2/4 b 1-b
Row 3/4 c 1-c
Row 4/4 a 2-b
End 4, 0 pending
Gone
> open feed=continuous&since=3-6
feed 2
> hand 2 times 2
Row 4/4 a 2-b
Nothing
> open feed=continuous&since=3-7
feed 3
> hand 3 times 4
Row 2/4 b 1-b
Row 3/4 c 1-c
Row 4/4 a 2-b
Nothing
> merge {"_id":"d","_rev":"1-d"}
seq 5
> hand 0 times 3
Row 5/5 d 1-d
End 5, 0 pending
Gone
> hand 2 times 2
Row 5/5 d 1-d
Nothing
> hand 3 times 2
Row 5/5 d 1-d
Nothing

# a database tells its life
> state
seq 0, length 0, life 6, stands
> merge {"_id":"a","_rev":"1-a"}
seq 1
> merge {"_id":"b","_rev":"1-b"}
seq 2
> merge {"_id":"c","_rev":"1-c"}
seq 3
> merge {"_id":"a","_revisions":{"start":2,"ids":["b","a"]}}
seq 4
> state
seq 4, length 4, life 6, stands
> delete
> state
seq 4, length 4, life 6, deleted
"#;
