//! A database that is deleted: its feeds come to their ends, and it takes nothing.

/// A deleted database takes nothing, and its feeds come to their ends.
pub(crate) const DELETED: &str = r#"
# a database is deleted once, and takes nothing then
> merge {"_id":"a","_rev":"1-a","v":1}
seq 1
> merge {"_id":"b","_rev":"1-b"}
seq 2
> merge {"_id":"c","_rev":"1-c"}
seq 3
> state
seq 3, length 3, life 6, stands
> delete
> state
seq 3, length 3, life 6, deleted
> delete
refused Deleted
> state
seq 3, length 3, life 6, deleted
> merge {"_id":"a","_revisions":{"start":2,"ids":["b","a"]}}
seq 3
> bulk {"_id":"e"}
seq 3
> open
refused Deleted
> state
seq 3, length 3, life 6, deleted
> entry 4
none
none

# deletion ends feeds at their places: feed 3 is over before it, and feed 4 is finished after it
> merge {"_id":"a","_rev":"1-a","v":1}
seq 1
> merge {"_id":"b","_rev":"1-b"}
seq 2
> merge {"_id":"c","_rev":"1-c"}
seq 3
> open feed=continuous
feed 0
> take 0
Row 1/3 a 1-a
> open feed=longpoll&since=2
feed 1
> open
feed 2
> open since=now
feed 3
> take 3 times 2
End 3, 0 pending
Gone
> open feed=continuous
feed 4
> delete
> take 0 times 2
End 1, 2 pending
Gone
> take 1 times 2
End 2, 1 pending
Gone
> take 2 times 2
End 0, 3 pending
Gone
> take 3
Gone
> take 4 times 2
End 0, 3 pending
Gone
> finish 4
> take 4
Gone

# a feed that began at 0 and has handed the one row that there is ends behind it
> merge {"_id":"a","_rev":"1-a","v":1}
seq 1
> open feed=continuous&since=0&include_docs=true
feed 0
> take 0 times 2
Row 1/1 a 1-a {"v":1}
Nothing
> delete
> take 0 times 3
End 1, 0 pending
Gone
Gone
"#;
