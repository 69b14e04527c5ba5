//! A database whose feeds are driven as those of any host.

/// A host hands items into lists, of which some are full.
pub(crate) const HOSTED: &str = r#"
# a host drives the feeds of a database
> merge {"_id":"a","_rev":"1-a"}
seq 1
> merge {"_id":"b","_rev":"1-b"}
seq 2
> open
feed 0
> hand 0 times 3
Row 1/2 a 1-a
Row 2/2 b 1-b
End 2, 0 pending
> beat-due 0
false
> expire 0
> hand 0
Gone
> finish 0
> hand 0
Gone
> open feed=continuous&heartbeat=1000
feed 1
> hand 1 times 3
Row 1/2 a 1-a
Row 2/2 b 1-b
Nothing
> beat-due 1
true
> expire 1
> hand 1
End 2, 0 pending
> finish 1
> hand 1
Gone
> state
seq 2, length 2, life 6, stands
> delete
> open
refused Deleted

# a feed goes on where its host left it
> merge {"_id":"a","_rev":"1-a"}
seq 1
> merge {"_id":"b","_rev":"1-b"}
seq 2
> open
feed 0
> hand 0
Row 1/2 a 1-a
> take 0
Row 2/2 b 1-b
> hand 0
End 2, 0 pending
> take 0
Gone

# a list has the row that it took
> merge {"_id":"a","_rev":"1-a","v":1}
seq 1
> open include_docs=true
feed 0
> hand 0 times 3
Row 1/1 a 1-a {"v":1}
End 1, 0 pending
Gone

# a full list leaves a feed as it was
> merge {"_id":"a","_rev":"1-a"}
seq 1
> merge {"_id":"b","_rev":"1-b"}
seq 2
> open feed=continuous&heartbeat=1000
feed 0
> full 0 times 2
Full
Full
> hand 0
Row 1/2 a 1-a
> full 0
Full
> take 0
Row 2/2 b 1-b
> hand 0
Nothing
> expire 0
> full 0
Full
> hand 0 times 2
End 2, 0 pending
Gone

# a hand to no feed is gone
> merge {"_id":"a","_rev":"1-a"}
seq 1
> merge {"_id":"b","_rev":"1-b"}
seq 2
> hand 0
Gone
> open
feed 0
> hand 1
Gone
> hand 0
Row 1/2 a 1-a
"#;

/// A host hands several items at once, as many as single hands would: up to a number, up to the end, until
/// nothing is due, and until a list is full.
pub(crate) const SEVERAL: &str = r#"
# a normal feed hands two items at a time, to its end
> merge {"_id":"a","_rev":"1-a"}
seq 1
> merge {"_id":"b","_rev":"1-b"}
seq 2
> merge {"_id":"c","_rev":"1-c"}
seq 3
> open
feed 0
> items 0 0
Row 0
> items 0 2
Row 2
Row 1/3 a 1-a
Row 2/3 b 1-b
> items 0 2
End 2
Row 3/3 c 1-c
End 3, 0 pending
> items 0 2
Gone 0
> finish 0
> items 0 2
Gone 0
> items 1 2
Gone 0

# a continuous feed hands what is due, and nothing behind it
> merge {"_id":"a","_rev":"1-a"}
seq 1
> merge {"_id":"b","_rev":"1-b"}
seq 2
> open feed=continuous&heartbeat=1000
feed 0
> items 0 2
Row 2
Row 1/2 a 1-a
Row 2/2 b 1-b
> items 0 2
Nothing 0
> merge {"_id":"a","_revisions":{"start":2,"ids":["b","a"]}}
seq 3
> merge {"_id":"c","_rev":"1-c"}
seq 4
> items 0 9
Nothing 2
Row 3/4 a 2-b
Row 4/4 c 1-c
> beat-due 0
true
> merge {"_id":"d","_rev":"1-d"}
seq 5
> expire 0
> items 0 9
End 1
End 4, 1 pending
> items 0 9
Gone 0

# a feed goes on after a list that was full, by several items and by single ones
> merge {"_id":"a","_rev":"1-a"}
seq 1
> merge {"_id":"b","_rev":"1-b"}
seq 2
> merge {"_id":"c","_rev":"1-c"}
seq 3
> open
feed 0
> items-full 0 1
Full 0
> items-full 0 3
Full 2
Row 1/3 a 1-a
Row 2/3 b 1-b
> hand 0
Row 3/3 c 1-c
> items-full 0 1
Full 0
> items 0 1
End 1
End 3, 0 pending
> open
feed 1
> items-full 1 4
Full 3
Row 1/3 a 1-a
Row 2/3 b 1-b
Row 3/3 c 1-c
> take 1
End 3, 0 pending
> items-full 1 4
Gone 0

# feeds of other numbers go on where they were
> merge {"_id":"a","_rev":"1-a"}
seq 1
> merge {"_id":"b","_rev":"1-b"}
seq 2
> open
feed 0
> open limit=1
feed 1
> open
feed 2
> items 1 9
End 2
Row 1/2 a 1-a
End 1, 1 pending
> items 2 1
Row 1
Row 1/2 a 1-a
> items 0 9
End 3
Row 1/2 a 1-a
Row 2/2 b 1-b
End 2, 0 pending
> finish 0
> items 2 9
End 2
Row 2/2 b 1-b
End 2, 0 pending
"#;

/// Rows with documents are made over spare rows, whose members are longer, shorter or as long, and are as
/// rows without spare ones.
///
/// The members have 20, 13, 13 and 7 bytes.
pub(crate) const OVER: &str = r#"
# rows are made over rows of shorter, equal and longer members
> merge {"_id":"a","_rev":"1-a","v":"a longer text"}
seq 1
> merge {"_id":"b","_rev":"1-b","w":"equal"}
seq 2
> merge {"_id":"c","_rev":"1-c","x":"texts"}
seq 3
> merge {"_id":"d","_rev":"1-d","y":1}
seq 4
> open feed=continuous&include_docs=true
feed 0
> items 0 4
Row 4
Row 1/4 a 1-a {"v":"a longer text"}
Row 2/4 b 1-b {"w":"equal"}
Row 3/4 c 1-c {"x":"texts"}
Row 4/4 d 1-d {"y":1}
> open include_docs=true
feed 1
> items-over 1 4
Row 4
Row 1/4 a 1-a {"v":"a longer text"}
Row 2/4 b 1-b {"w":"equal"}
Row 3/4 c 1-c {"x":"texts"}
Row 4/4 d 1-d {"y":1}
> items-over 1 4
End 1
End 4, 0 pending
> open include_docs=true
feed 2
> items-over 2 1
Row 1
Row 1/4 a 1-a {"v":"a longer text"}
> items-over 2 1
Row 1
Row 2/4 b 1-b {"w":"equal"}
> items-over 2 9
End 3
Row 3/4 c 1-c {"x":"texts"}
Row 4/4 d 1-d {"y":1}
End 4, 0 pending

# an edit between is shown over the row before it, and a deleted document over another one
> merge {"_id":"a","_rev":"1-a","v":1}
seq 1
> merge {"_id":"b","_rev":"1-b","w":"equal"}
seq 2
> open feed=continuous&include_docs=true
feed 0
> items 0 9
Nothing 2
Row 1/2 a 1-a {"v":1}
Row 2/2 b 1-b {"w":"equal"}
> merge {"_id":"b","_revisions":{"start":2,"ids":["c","b"]}}
seq 3
> merge {"_id":"a","_revisions":{"start":2,"ids":["b","a"]},"v":"a longer text"}
seq 4
> items-over 0 9
Nothing 2
Row 3/4 b 2-c {}
Row 4/4 a 2-b {"v":"a longer text"}
> merge {"_id":"a","_revisions":{"start":3,"ids":["c","b","a"]},"_deleted":true,"w":"equal"}
seq 5
> items-over 0 9
Nothing 1
Row 5/5 a 3-c deleted {"w":"equal"}

# rows without documents are made over rows with them, and the other way round
> merge {"_id":"a","_rev":"1-a","v":1}
seq 1
> merge {"_id":"b","_rev":"1-b","w":"equal"}
seq 2
> open include_docs=true
feed 0
> open
feed 1
> open include_docs=true
feed 2
> items 0 2
Row 2
Row 1/2 a 1-a {"v":1}
Row 2/2 b 1-b {"w":"equal"}
> items-over 1 2
Row 2
Row 1/2 a 1-a
Row 2/2 b 1-b
> items-over 2 2
Row 2
Row 1/2 a 1-a {"v":1}
Row 2/2 b 1-b {"w":"equal"}
"#;
