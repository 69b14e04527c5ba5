//! Feeds that wait: their heartbeats, and their ends once their time is over.

/// Feeds that wait beat where a heartbeat was asked for, and end once their time is over.
///
/// No feed 99 is ever opened.
pub(crate) const WAITING: &str = r#"
# beats are due where they were asked for
> merge {"_id":"a","_rev":"1-a"}
seq 1
> merge {"_id":"b","_rev":"1-b"}
seq 2
> open feed=continuous&heartbeat=1000
feed 0
> beat-due 0
true
> finish 0
> beat-due 0
false
> open feed=longpoll&heartbeat=1000
feed 1
> beat-due 1
true
> finish 1
> beat-due 1
false
> open feed=continuous
feed 2
> beat-due 2
false
> finish 2
> beat-due 2
false
> open heartbeat=1000
feed 3
> beat-due 3
false
> finish 3
> beat-due 3
false
> beat-due 99
false

# no beat is due to a feed that is ending
> merge {"_id":"a","_rev":"1-a"}
seq 1
> merge {"_id":"b","_rev":"1-b"}
seq 2
> open feed=continuous&heartbeat=1000
feed 0
> open feed=continuous&heartbeat=1000
feed 1
> expire 0
> beat-due 0
false
> beat-due 1
true
> take 0
End 0, 2 pending
> beat-due 0
false
> beat-due 1
true
> delete
> beat-due 1
false

# feeds that wait end once their time is over
> merge {"_id":"a","_rev":"1-a"}
seq 1
> merge {"_id":"b","_rev":"1-b"}
seq 2
> open feed=longpoll
feed 0
> take 0
Row 1/2 a 1-a
> open feed=longpoll&since=now
feed 1
> expire 0
> expire 1
> take 0 times 2
End 1, 1 pending
Gone
> take 1 times 2
End 2, 0 pending
Gone
> expire 0
> take 0
Gone
> expire 1
> take 1
Gone
> open feed=longpoll&since=now
feed 2
> take 2
Nothing
> expire 99
> take 2
Nothing
> expire 2
> take 2 times 2
End 2, 0 pending
Gone

# a normal feed hands its rest once its time is over
> merge {"_id":"a","_rev":"1-a"}
seq 1
> merge {"_id":"b","_rev":"1-b"}
seq 2
> open
feed 0
> take 0
Row 1/2 a 1-a
> expire 0
> take 0 times 3
Row 2/2 b 1-b
End 2, 0 pending
Gone
> expire 0
> take 0
Gone

# a continuous feed outlives others
> merge {"_id":"a","_rev":"1-a"}
seq 1
> merge {"_id":"b","_rev":"1-b"}
seq 2
> open feed=longpoll
feed 0
> take 0
Row 1/2 a 1-a
> open feed=longpoll&since=now
feed 1
> open feed=continuous
feed 2
> take 2
Row 1/2 a 1-a
> expire 0
> expire 1
> expire 99
> take 2 times 2
Row 2/2 b 1-b
Nothing
"#;
