//! Runs of small databases.
//!
//! With ample memory each event has its reply at once. Where a growth is refused the event is an error. Made
//! again it has the same reply, and later replies show the state that it left. So these tests hold whichever
//! one growth is refused. The growths of the tests themselves are among them, as that of a document's text.

use crate::shell::Shell;
use hub_transcript::replay;
use std::test::Fail;

const RUNS: &str = r#"
# a since above the end is the end
> write {"_id":"a","_rev":"1-a"} {"_id":"b","_rev":"1-b"} {"_id":"c","_rev":"1-c"}
wrote 1-a 1-b 1-c
> begin since=99
opened 0
> hand 0
pushed
> take 0
took end 3 pending 0
> hand 0
gone
> begin feed=continuous&since=99
opened 1
> hand 1
nothing
> write {"_id":"d","_rev":"1-d"}
wrote 1-d
> hand 1
pushed
> take 1
took row 4 d 1-d
> run
wrote 1-a 1-b 1-c
opened 0
pushed
took end 3 pending 0
gone
opened 1
nothing
wrote 1-d
pushed
took row 4 d 1-d

# a since of another life is the beginning
> write {"_id":"a","_rev":"1-a"} {"_id":"b","_rev":"1-b"} {"_id":"c","_rev":"1-c"}
wrote 1-a 1-b 1-c
> begin since=2-1
opened 0
> hand 0
pushed
> take 0
took row 3 c 1-c
> hand 0
pushed
> take 0
took end 3 pending 0
> begin since=2-7
opened 1
> hand 1
pushed
> take 1
took row 1 a 1-a
> begin since=%2299-1%22
opened 2
> hand 2
pushed
> take 2
took end 3 pending 0
> run
wrote 1-a 1-b 1-c
opened 0
pushed
took row 3 c 1-c
pushed
took end 3 pending 0
opened 1
pushed
took row 1 a 1-a
opened 2
pushed
took end 3 pending 0

# rows beyond the bound are left for later
> write {"_id":"1","_rev":"1-a"} {"_id":"2","_rev":"1-a"} {"_id":"3","_rev":"1-a"} {"_id":"4","_rev":"1-a"} {"_id":"5","_rev":"1-a"} {"_id":"6","_rev":"1-a"} {"_id":"7","_rev":"1-a"} {"_id":"8","_rev":"1-a"}
wrote 1-a 1-a 1-a 1-a 1-a 1-a 1-a 1-a
> begin
opened 0
> hand 0
pushed
> take 0
took row 1 1 1-a
> hand 0
pushed
> take 0
took row 2 2 1-a
> hand 0
pushed
> take 0
took row 3 3 1-a
> write {"_id":"3","_rev":"2-b","_revisions":{"start":2,"ids":["b","a"]}} {"_id":"5","_rev":"2-b","_revisions":{"start":2,"ids":["b","a"]}}
wrote 2-b 2-b
> hand 0
pushed
> take 0
took row 4 4 1-a
> hand 0
pushed
> take 0
took row 6 6 1-a
> hand 0
pushed
> take 0
took row 7 7 1-a
> hand 0
pushed
> take 0
took row 8 8 1-a
> hand 0
pushed
> take 0
took end 8 pending 2
> hand 0
gone
> run
wrote 1-a 1-a 1-a 1-a 1-a 1-a 1-a 1-a
opened 0
pushed
took row 1 1 1-a
pushed
took row 2 2 1-a
pushed
took row 3 3 1-a
wrote 2-b 2-b
pushed
took row 4 4 1-a
pushed
took row 6 6 1-a
pushed
took row 7 7 1-a
pushed
took row 8 8 1-a
pushed
took end 8 pending 2
gone

# a full lane keeps the row for later
> room 1 2 4294967295
> write {"_id":"a","_rev":"1-a"} {"_id":"b","_rev":"1-b"} {"_id":"c","_rev":"1-c"}
wrote 1-a 1-b 1-c
> begin feed=continuous
opened 0
> hand 0
pushed
> hand 0
pushed
> hand 0
full
> take 0
took row 1 a 1-a
> hand 0
pushed
> take 0
took row 2 b 1-b
> take 0
took row 3 c 1-c
> take 0
took none
> hand 0
nothing
> run
wrote 1-a 1-b 1-c
opened 0
pushed
pushed
full
took row 1 a 1-a
pushed
took row 2 b 1-b
took row 3 c 1-c
took none
nothing

# a longpoll feed waits for a row that passes
> write {"_id":"a","_rev":"1-a"} {"_id":"b","_rev":"1-b"} {"_id":"c","_rev":"1-c"} {"_id":"d","_rev":"1-d"} {"_id":"e","_rev":"1-e"}
wrote 1-a 1-b 1-c 1-d 1-e
> begin feed=longpoll&filter=_design
opened 0
> hand 0
nothing
> write {"_id":"_design/x","_rev":"1-x"}
wrote 1-x
> hand 0
pushed
> take 0
took row 6 _design/x 1-x
> hand 0
pushed
> take 0
took end 6 pending 0
> hand 0
gone
> run
wrote 1-a 1-b 1-c 1-d 1-e
opened 0
nothing
wrote 1-x
pushed
took row 6 _design/x 1-x
pushed
took end 6 pending 0
gone

# a longpoll feed ends without a row once its time is over
> write {"_id":"a","_rev":"1-a"} {"_id":"b","_rev":"1-b"} {"_id":"c","_rev":"1-c"} {"_id":"d","_rev":"1-d"} {"_id":"e","_rev":"1-e"}
wrote 1-a 1-b 1-c 1-d 1-e
> begin feed=longpoll&filter=_design
opened 0
> hand 0
nothing
> expire 0
nothing
> hand 0
pushed
> take 0
took end 5 pending 0
> hand 0
gone
> run
wrote 1-a 1-b 1-c 1-d 1-e
opened 0
nothing
nothing
pushed
took end 5 pending 0
gone

# a longpoll feed is bound at its first row
> begin feed=longpoll
opened 0
> write {"_id":"a","_rev":"1-a"} {"_id":"b","_rev":"1-b"}
wrote 1-a 1-b
> hand 0
pushed
> take 0
took row 1 a 1-a
> write {"_id":"c","_rev":"1-c"}
wrote 1-c
> hand 0
pushed
> take 0
took row 2 b 1-b
> hand 0
pushed
> take 0
took end 2 pending 1
> hand 0
gone
> run
opened 0
wrote 1-a 1-b
pushed
took row 1 a 1-a
wrote 1-c
pushed
took row 2 b 1-b
pushed
took end 2 pending 1
gone

# heartbeats are handed where they are asked for
> room 4 2 4294967295
> write {"_id":"a","_rev":"1-a"}
wrote 1-a
> begin heartbeat=true
opened 0
> begin feed=continuous
opened 1
> begin feed=continuous&heartbeat=1000
opened 2
> begin feed=longpoll&heartbeat=1000
opened 3
> beat 0
nothing
> beat 1
nothing
> beat 2
pushed
> beat 3
pushed
> beat 4
nothing
> hand 2
pushed
> beat 2
full
> take 2
took beat
> beat 2
pushed
> take 2
took row 1 a 1-a
> take 2
took beat
> take 3
took beat
> expire 3
nothing
> beat 3
nothing
> run
wrote 1-a
opened 0
opened 1
opened 2
opened 3
nothing
nothing
pushed
pushed
nothing
pushed
full
took beat
pushed
took row 1 a 1-a
took beat
took beat
nothing
nothing

# deletion ends feeds and refuses the rest
> write {"_id":"a","_rev":"1-a"} {"_id":"b","_rev":"1-b"}
wrote 1-a 1-b
> begin feed=continuous
opened 0
> hand 0
pushed
> take 0
took row 1 a 1-a
> delete
nothing
> hand 0
pushed
> take 0
took end 1 pending 1
> hand 0
gone
> delete
database deleted
> make {"_id":"c"} {"_id":"d"}
wrote Refused(Deleted) Refused(Deleted)
> write {"_id":"c","_rev":"1-c"}
wrote Refused(Deleted)
> write
wrote
> begin
database deleted
> run
wrote 1-a 1-b
opened 0
pushed
took row 1 a 1-a
nothing
pushed
took end 1 pending 1
gone
database deleted
wrote Refused(Deleted) Refused(Deleted)
wrote Refused(Deleted)
wrote
database deleted

# a finished feed makes room for another
> room 1 64 4294967295
> write {"_id":"a","_rev":"1-a"} {"_id":"b","_rev":"1-b"}
wrote 1-a 1-b
> begin style=all_docs&include_docs=true
opened 0
> begin
too many feeds
> hand 0
pushed
> hand 0
pushed
> take 0
took row 1 a 1-a with its document
> finish 0
left 1, row 2 b 1-b with its document
> take 0
took none
> hand 0
gone
> finish 0
left 0
> begin since=now
opened 1
> hand 1
pushed
> take 1
took end 2 pending 0
> run
wrote 1-a 1-b
opened 0
too many feeds
pushed
pushed
took row 1 a 1-a with its document
left 1, row 2 b 1-b with its document
took none
gone
left 0
opened 1
pushed
took end 2 pending 0

# writes answer for each document
> write {"_id":"a","_rev":"1-a"} {"_id":"a","_rev":"1-a"}
wrote 1-a Known
> write {"_id":"a","_rev":"3-c","_revisions":{"start":3,"ids":["c","b","q"]}}
wrote 3-c
> make {"_id":"a"} {"_id":"a","_rev":"1-q"}
wrote Refused(Conflict) Refused(Conflict)
> write {"_id":"a","_rev":"4-d","_revisions":{"start":4,"ids":["d","c","b","a"]},"_deleted":true}
wrote Refused(Contradicts)
> begin style=all_docs
opened 0
> hand 0
pushed
> take 0
took row 2 a 3-c 1-a
> hand 0
pushed
> take 0
took end 2 pending 0
> run
wrote 1-a Known
wrote 3-c
wrote Refused(Conflict) Refused(Conflict)
wrote Refused(Contradicts)
opened 0
pushed
took row 2 a 3-c 1-a
pushed
took end 2 pending 0
"#;

#[test]
fn each_event_has_its_reply(rt: HostRuntime) -> Result<(), Fail> {
    replay::<Shell, _>(&rt, rt.alloc(), RUNS)
}
