//! The items that one holding of the lock hands.

use crate::tests::shared::Shared;
use hub_transcript::replay;
use std::test::Fail;

const HOLDING: &str = r#"
# a holding hands as many items as it may
> limits 64 2 1024 4294967295
> load {"_id":"a","_rev":"1-a"} {"_id":"b","_rev":"1-b"} {"_id":"c","_rev":"1-c"}
1 a 1-a
2 b 1-b
3 c 1-c
> open
since 0 of life 6
> hand 1
Row
> take 1
row 1 a 1-a
> take 1
row 2 b 1-b
> take 1
none
> hand 1
End
> take 1
row 3 c 1-c
> take 1
end 3 pending 0
> take 1
none

# a feed that handed its end is gone
> limits 64 2 1024 4294967295
> open
since 0 of life 6
> hand 1
End
> hand 1
Gone

# a full lane keeps its rows: once the feed is finished it still has two, and is gone
> limits 2 64 1024 4294967295
> load {"_id":"a","_rev":"1-a"} {"_id":"b","_rev":"1-b"} {"_id":"c","_rev":"1-c"} {"_id":"d","_rev":"1-d"} {"_id":"e","_rev":"1-e"}
1 a 1-a
2 b 1-b
3 c 1-c
4 d 1-d
5 e 1-e
> open
since 0 of life 6
> hand 1
Full
> hand 1
Full
> finish 1
row 1 a 1-a
row 2 b 1-b
> hold 1
Gone

# a lane with room is handed on: it has room as soon as the first item of its block is taken
> limits 2 64 1024 4294967295
> load {"_id":"a","_rev":"1-a"} {"_id":"b","_rev":"1-b"} {"_id":"c","_rev":"1-c"}
1 a 1-a
2 b 1-b
3 c 1-c
> open
since 0 of life 6
> hand 1
Full
> take 1
row 1 a 1-a
> hand 1
End
> take 1
row 2 b 1-b
> take 1
row 3 c 1-c
> take 1
end 3 pending 0
> take 1
none

# one turn is one step: the first heartbeat lies in the lane, and the second one waits
> limits 1 64 1024 4294967295
> open feed=continuous&heartbeat=1000
since 0 of life 6
> hold 1
Nothing
> beat 1
Nothing
> beat 1
Nothing
> beat 1
Full
> expire 1
Nothing
> hold 1
Full
"#;

#[test]
fn one_holding_hands_as_many_items_as_it_may(rt: HostRuntime) -> Result<(), Fail> {
    replay::<Shared, _>(&rt, rt.alloc(), HOLDING)
}

const NOT_READ: &str = r#"
# two rows lie in the lane, and two wait: the third holding hands none
> limits 2 64 1024 4294967295
> load {"_id":"a","_rev":"1-a"} {"_id":"b","_rev":"1-b"} {"_id":"c","_rev":"1-c"} {"_id":"d","_rev":"1-d"} {"_id":"e","_rev":"1-e"}
1 a 1-a
2 b 1-b
3 c 1-c
4 d 1-d
5 e 1-e
> open
since 0 of life 6
> hand 1
Full
> hand 1
Full
> hand 1
Full
> take 1
row 1 a 1-a
> take 1
row 2 b 1-b
> take 1
none
> hand 1
Full
> take 1
row 3 c 1-c
> take 1
row 4 d 1-d
> take 1
none
> hand 1
Gone
> take 1
row 5 e 1-e
> take 1
end 5 pending 0
> take 1
none

# items wait one by one: behind a full lane, room for one item more is handed one item more
> limits 2 1 1024 4294967295
> load {"_id":"a","_rev":"1-a"} {"_id":"b","_rev":"1-b"} {"_id":"c","_rev":"1-c"}
1 a 1-a
2 b 1-b
3 c 1-c
> open
since 0 of life 6
> hand 1
Row
> hand 1
Full
> hand 1
Full
> hand 1
Full
> take 1
row 1 a 1-a
> take 1
none
> hand 1
Full
> take 1
row 2 b 1-b
> take 1
row 3 c 1-c
> take 1
none
> hand 1
Gone
> take 1
end 3 pending 0
> take 1
none
"#;

#[test]
fn a_feed_that_is_not_read_stops_and_goes_on(rt: HostRuntime) -> Result<(), Fail> {
    replay::<Shared, _>(&rt, rt.alloc(), NOT_READ)
}

const WRITTEN: &str = r#"
# a row shows its document as it was written
> store {"_id":"a","v":7}
1-91e3da135d1d0593e6703385cf55957a
> open include_docs=true
since 0 of life 6
> hand 1
End
> take 1
row 1 a 1-91e3da135d1d0593e6703385cf55957a
{"_id":"a","_rev":"1-91e3da135d1d0593e6703385cf55957a","v":7}
"#;

#[test]
fn a_row_shows_its_document_as_it_was_written(rt: HostRuntime) -> Result<(), Fail> {
    replay::<Shared, _>(&rt, rt.alloc(), WRITTEN)
}

const FULL: &str = r#"
# a feed waits for room in its lane: one row lies there, and two wait
> limits 2 1 1024 4294967295
> load {"_id":"a","_rev":"1-a"} {"_id":"b","_rev":"1-b"} {"_id":"c","_rev":"1-c"}
1 a 1-a
2 b 1-b
3 c 1-c
> open feed=continuous
since 0 of life 6
> hand 1
Row
> hand 1
Full
> hand 1
Full
> over 1
false
> take 1
row 1 a 1-a
> take 1
none
> hand 1
Nothing
> take 1
row 2 b 1-b
> take 1
row 3 c 1-c
> take 1
none
> hand 1
Nothing
> load {"_id":"d","_rev":"1-d"}
4 d 1-d
> hand 1
Row
> take 1
row 4 d 1-d
"#;

#[test]
fn a_feed_waits_for_room_in_its_lane(rt: HostRuntime) -> Result<(), Fail> {
    replay::<Shared, _>(&rt, rt.alloc(), FULL)
}

const ENDS: &str = "
# a feed's time is over, and it comes to its end
> open feed=continuous
since 0 of life 6
> hand 1
Nothing
> expire 1
Nothing
> hand 1
End
> hand 1
Gone
> take 1
end 0 pending 0
> finish 1
> finish 1
finished
> hold 1
Gone
";

#[test]
fn a_feed_comes_to_its_end(rt: HostRuntime) -> Result<(), Fail> {
    replay::<Shared, _>(&rt, rt.alloc(), ENDS)
}

const BEATS: &str = "
# heartbeats come where they are asked for, until the lane is full: one lies there, and two wait
> limits 2 1 1024 4294967295
> open feed=continuous&heartbeat=1000
since 0 of life 6
> beat 1
Nothing
> beat 1
Nothing
> beat 1
Nothing
> beat 1
Full
> finish 1
beat
> beat 1
Nothing
";

#[test]
fn heartbeats_fill_a_lane(rt: HostRuntime) -> Result<(), Fail> {
    replay::<Shared, _>(&rt, rt.alloc(), BEATS)
}
