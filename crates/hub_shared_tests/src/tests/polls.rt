//! Feeds that are polled: the items of polls, when a feed is due, and the news of its watch.

use crate::tests::shared::Shared;
use hub_transcript::replay;
use std::test::Fail;

const NORMAL: &str = r#"
# a normal feed is handed to its end
> load {"_id":"a","_rev":"1-a"} {"_id":"b","_rev":"1-b"} {"_id":"c","_rev":"1-c"} {"_id":"d","_rev":"1-d"} {"_id":"e","_rev":"1-e"}
1 a 1-a
2 b 1-b
3 c 1-c
4 d 1-d
5 e 1-e
> open limit=2
since 0 of life 6
> over 1
false
> poll 1
row 1 a 1-a
> poll 1
row 2 b 1-b
> poll 1
end 2 pending 3
> over 1
false
> poll 1
none
> over 1
true
> poll 1
none

# a full lane of two is handed on by polls: five rows take three holdings, and none is needed to wait
> limits 2 64 1024 4294967295
> load {"_id":"a","_rev":"1-a"} {"_id":"b","_rev":"1-b"} {"_id":"c","_rev":"1-c"} {"_id":"d","_rev":"1-d"} {"_id":"e","_rev":"1-e"}
1 a 1-a
2 b 1-b
3 c 1-c
4 d 1-d
5 e 1-e
> open feed=continuous
since 0 of life 6
> poll 1
row 1 a 1-a
> poll 1
row 2 b 1-b
> held 1
1
> poll 1
row 3 c 1-c
> poll 1
row 4 d 1-d
> held 1
2
> poll 1
row 5 e 1-e
> held 1
3
> poll 1
none
> held 1
3
> over 1
false

# a long feed is handed by many holdings, which hand two items each
> limits 64 2 1024 4294967295
> load {"_id":"a","_rev":"1-a"} {"_id":"b","_rev":"1-b"} {"_id":"c","_rev":"1-c"} {"_id":"d","_rev":"1-d"} {"_id":"e","_rev":"1-e"}
1 a 1-a
2 b 1-b
3 c 1-c
4 d 1-d
5 e 1-e
> open
since 0 of life 6
> poll 1
row 1 a 1-a
> poll 1
row 2 b 1-b
> held 1
1
> poll 1
row 3 c 1-c
> poll 1
row 4 d 1-d
> held 1
2
> poll 1
row 5 e 1-e
> poll 1
end 5 pending 0
> held 1
3
> poll 1
none
> over 1
true
"#;

#[test]
fn polls_hand_a_normal_feed_to_its_end(rt: HostRuntime) -> Result<(), Fail> {
    replay::<Shared, _>(&rt, rt.alloc(), NORMAL)
}

const WAITING: &str = r#"
# a feed that waits goes on waiting, however often it is polled, and a poll behind a write gives its row
> open feed=continuous
since 0 of life 6
> poll 1
none
> poll 1
none
> over 1
false
> load {"_id":"a","_rev":"1-a"}
1 a 1-a
> poll 1
row 1 a 1-a
> poll 1
none
> load {"_id":"b","_rev":"1-b"}
2 b 1-b
> load {"_id":"c","_rev":"1-c"}
3 c 1-c
> poll 1
row 2 b 1-b
> poll 1
row 3 c 1-c
> poll 1
none
> poll 1
none
> finish 1
> open feed=longpoll&since=3
since 3 of life 6
> poll 2
none
> poll 2
none
> load {"_id":"d","_rev":"1-d"}
4 d 1-d
> poll 2
row 4 d 1-d
> poll 2
end 4 pending 0
> poll 2
none
> over 2
true
"#;

#[test]
fn a_feed_that_waits_gets_what_is_written(rt: HostRuntime) -> Result<(), Fail> {
    replay::<Shared, _>(&rt, rt.alloc(), WAITING)
}

const TIMES: &str = r#"
# heartbeats come by the clock
> open feed=continuous&heartbeat=3000 1000
since 0 of life 6
> poll 1
none
> due 1
3000
> poll 1
none
> due 1
3000
> poll 1
none
> poll 1
beat
> poll 1
none
> due 1
6000
> poll 1
none
> poll 1
beat
> poll 1
none
> due 1
9000
> finish 1

# the time without an item is counted from the first poll behind the row on, at 1,000
> open feed=continuous&heartbeat=3000 1000
since 0 of life 6
> poll 1
none
> due 1
3000
> load {"_id":"a","_rev":"1-a"}
1 a 1-a
> poll 1
row 1 a 1-a
> poll 1
none
> due 1
4000
> poll 1
none
> poll 1
none
> poll 1
beat

# heartbeats hold up no row: a row comes before a heartbeat that is due as well
> open feed=continuous&heartbeat=1 1000
since 0 of life 6
> poll 1
none
> poll 1
beat
> load {"_id":"a","_rev":"1-a"}
1 a 1-a
> poll 1
row 1 a 1-a

# feeds end by the clock
> open feed=continuous&timeout=3000 1000
since 0 of life 6
> poll 1
none
> due 1
3000
> load {"_id":"a","_rev":"1-a"}
1 a 1-a
> poll 1
row 1 a 1-a
> poll 1
none
> due 1
4000
> poll 1
none
> poll 1
none
> poll 1
end 1 pending 0
> poll 1
none
> over 1
true
> finish 1
> open feed=longpoll&timeout=1000&since=1 1000
since 1 of life 6
> poll 2
none
> poll 2
end 1 pending 0
> poll 2
none
> over 2
true

# a pump of a normal feed hands the row above its since, and ends behind the feed's end
> load {"_id":"a","_rev":"1-a"} {"_id":"b","_rev":"1-b"}
1 a 1-a
2 b 1-b
> open since=1
since 1 of life 6
> pump 1
> over 1
true
> take 1
row 2 b 1-b
> take 1
end 2 pending 0
> finish 1

# a pump of a feed without news hands its end, once its time has passed
> open feed=continuous&timeout=1000 1000
since 0 of life 6
> pump 1
> over 1
true
> take 1
end 0 pending 0
> take 1
none
"#;

#[test]
fn heartbeats_and_ends_come_by_the_clock(rt: HostRuntime) -> Result<(), Fail> {
    replay::<Shared, _>(&rt, rt.alloc(), TIMES)
}

const TOLD: &str = r#"
# a write tells the watch of a feed, which gets a row and waits then for a minute
> open feed=continuous
since 0 of life 6
> watch 1 1
> poll 1
none
> due 1
60000
> news 1
> load {"_id":"a","_rev":"1-a"}
1 a 1-a
> news 1
rung
bell
watch
> news 1
> poll 1
row 1 a 1-a
> poll 1
none
> due 1
60000
"#;

#[test]
fn a_feed_is_told_of_changes(rt: HostRuntime) -> Result<(), Fail> {
    replay::<Shared, _>(&rt, rt.alloc(), TOLD)
}

// A feed that found no memory for a row is over, and handed the rows before it. Another feed goes on after
// these rows.
const BEHIND: &str = r#"
# three rows come in order, whichever one finds no memory
> load {"_id":"a","_rev":"1-a"} {"_id":"b","_rev":"1-b"} {"_id":"c","_rev":"1-c"}
1 a 1-a
2 b 1-b
3 c 1-c
> rows
row 1 a 1-a
row 2 b 1-b
row 3 c 1-c
it waits
"#;

#[test]
fn rows_go_on_behind_a_feed_without_memory(rt: HostRuntime) -> Result<(), Fail> {
    replay::<Shared, _>(&rt, rt.alloc(), BEHIND)
}
