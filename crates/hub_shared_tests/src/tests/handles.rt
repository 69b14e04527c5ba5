//! The answers to the calls of a handle.

use crate::tests::shared::Shared;
use hub_transcript::replay;
use std::test::Fail;

const ANSWERS: &str = r#"
# questions are answered of a document with two leaves and a deleted one above them, and of a deleted document
> load {"_id":"a","_rev":"1-a","v":1} {"_id":"a","_revisions":{"start":2,"ids":["c","a"]},"v":2} {"_id":"a","_deleted":true,"_revisions":{"start":3,"ids":["f","e","a"]}} {"_id":"a","_revisions":{"start":2,"ids":["d","a"]},"v":[4,"x",null]} {"_id":"b","_deleted":true,"_rev":"1-b"}
1 a 1-a
2 a 2-c
3 a 3-f
4 a 2-d
5 b 1-b
> ask info
Ok(Info(Info { doc_count: 1, doc_del_count: 1, update_seq: 5, life: 6 }))
> ask get a
{"_id":"a","_rev":"2-d","v":[4,"x",null]}
> ask history a
{"_id":"a","_rev":"2-d","_revisions":{"start":2,"ids":["d","a"]},"v":[4,"x",null]}
> ask get b
Ok(Get(Deleted))
> ask history b
Ok(Get(Deleted))
> ask history z
Ok(Get(Unknown))
> ask winner a
2-d deleted false
> ask winner b
1-b deleted true
> ask winner z
Ok(Winner(None))
> ask leaves z
> ask leaves a
{"_id":"a","_rev":"2-d","_revisions":{"start":2,"ids":["d","a"]},"v":[4,"x",null]}
{"_id":"a","_rev":"2-c","_revisions":{"start":2,"ids":["c","a"]},"v":2}
{"_id":"a","_rev":"3-f","_deleted":true,"_revisions":{"start":3,"ids":["f","e","a"]}}
> ask missing a 3-x
a
missing 3-x
behind 2-d
behind 2-c
> ask missing a 2-c
> ask falling
row 5 b 1-b
row 4 a 2-d
last 4 pending 0 life 6
> ask falling limit=1
row 5 b 1-b
last 5 pending 1 life 6
> ask falling since=4
row 5 b 1-b
last 5 pending 0 life 6
> ask falling since=4-7
row 5 b 1-b
row 4 a 2-d
last 4 pending 0 life 6
> ask falling since=now
last 5 pending 0 life 6
> ask local
Ok(Local(None))

# a batch is told what became of it
> write {"_id":"a","_rev":"1-a","v":1} {"_id":"a","_rev":"1-a","v":1} {"_id":"a","_revisions":{"start":2,"ids":["c","a"]},"v":2} {"_id":"a","_revisions":{"start":3,"ids":["e","c","q"]}}
1-a
Known
2-c
Refused(Contradicts)
1 a 1-a
2 a 2-c

# an edit is refused as the database says
> limits 64 64 1024 1
> edit {"_id":"a"}
1-dfddbf319adb018d1e5ac3465b83542c
> edit {"_id":"a"}
Refused(Conflict)
> edit {"_id":"b"}
Refused(SequenceFull)
> delete
Ok(())
> edit {"_id":"a"}
Refused(Deleted)

# a batch without receipts has a reply for each
> store {"_id":"a"} {"_id":"b"} {"_id":"a"}
1-dfddbf319adb018d1e5ac3465b83542c
1-0c80c32cd7709ec4939abd63894262cc
Refused(Conflict)

# a look tells of the database as it is
> look a
Ok((0, false, 0))
> load {"_id":"a","_rev":"1-a"}
1 a 1-a
> look a
Ok((1, true, 0))
> look b
Ok((1, false, 0))

# local documents are counted, and are no edits
> ask local
Ok(Local(None))
> local {"v":{"w":[1,2]},"x":"y"}
Ok(1)
> local {"v":{"w":[1,2]},"x":"y"}
Ok(2)
> look p
Ok((0, false, 2))
> ask info
Ok(Info(Info { doc_count: 0, doc_del_count: 0, update_seq: 0, life: 6 }))

# a look passes on what was refused
> look
Err(NoMemory)
> delete
Ok(())
> look a
Err(Refused(Deleted))
"#;

#[test]
fn batches_edits_questions_and_looks_are_answered(rt: HostRuntime) -> Result<(), Fail> {
    replay::<Shared, _>(&rt, rt.alloc(), ANSWERS)
}

const DELETED: &str = r#"
# a deleted database answers nothing
> load {"_id":"a","_rev":"1-a","v":1} {"_id":"a","_revisions":{"start":2,"ids":["c","a"]},"v":2} {"_id":"a","_deleted":true,"_revisions":{"start":3,"ids":["f","e","a"]}} {"_id":"a","_revisions":{"start":2,"ids":["d","a"]},"v":[4,"x",null]} {"_id":"b","_deleted":true,"_rev":"1-b"}
1 a 1-a
2 a 2-c
3 a 3-f
4 a 2-d
5 b 1-b
> delete
Ok(())
> ask info
Err(Refused(Deleted))
> ask get a
Err(Refused(Deleted))
> ask history a
Err(Refused(Deleted))
> ask get b
Err(Refused(Deleted))
> ask history b
Err(Refused(Deleted))
> ask history z
Err(Refused(Deleted))
> ask winner a
Err(Refused(Deleted))
> ask winner b
Err(Refused(Deleted))
> ask winner z
Err(Refused(Deleted))
> ask leaves a
Err(Refused(Deleted))
> ask missing a 3-x
Err(Refused(Deleted))
> ask falling
Err(Refused(Deleted))
> ask leaves z
Err(Refused(Deleted))
> ask local
Err(Refused(Deleted))
> delete
Err(Refused(Deleted))

# and takes nothing
> load {"_id":"a","_rev":"1-a","v":1} {"_id":"a","_revisions":{"start":2,"ids":["c","a"]},"v":2} {"_id":"a","_deleted":true,"_revisions":{"start":3,"ids":["f","e","a"]}} {"_id":"a","_revisions":{"start":2,"ids":["d","a"]},"v":[4,"x",null]} {"_id":"b","_deleted":true,"_rev":"1-b"}
1 a 1-a
2 a 2-c
3 a 3-f
4 a 2-d
5 b 1-b
> delete
Ok(())
> local {}
Err(Refused(Deleted))
> open
Deleted
> write {"_id":"a","_rev":"1-a","v":1}
Refused(Deleted)
"#;

#[test]
fn a_deleted_database_answers_and_takes_nothing(rt: HostRuntime) -> Result<(), Fail> {
    replay::<Shared, _>(&rt, rt.alloc(), DELETED)
}

const LIMITS: &str = r#"
# a second feed is opened once the first is finished
> limits 64 64 1 1
> open
since 0 of life 6
> open
TooManyFeeds
> finish 1
> open
since 0 of life 6

# a database stores as many edits as its limits say
> limits 64 64 1 1
> write {"_id":"a","_rev":"1-a"} {"_id":"b","_rev":"1-b"}
1-a
Refused(SequenceFull)
1 a 1-a
"#;

#[test]
fn a_database_has_as_many_feeds_as_its_limits_say(rt: HostRuntime) -> Result<(), Fail> {
    replay::<Shared, _>(&rt, rt.alloc(), LIMITS)
}

const LIVES: &str = r#"
# feeds begin in the life of their database: a sequence of another life is none
> load {"_id":"a","_rev":"1-a"} {"_id":"b","_rev":"1-b"} {"_id":"c","_rev":"1-c"} {"_id":"d","_rev":"1-d"} {"_id":"e","_rev":"1-e"}
1 a 1-a
2 b 1-b
3 c 1-c
4 d 1-d
5 e 1-e
> open
since 0 of life 6
> open since=3
since 3 of life 6
> open since=9
since 5 of life 6
> open since=3-6
since 3 of life 6
> open since=9-6
since 5 of life 6
> open since=3-7
since 0 of life 6
> open since=9-0
since 0 of life 6
> open since=%223-5%22
since 0 of life 6
> open since=now
since 5 of life 6

# and where it has no documents
> open
since 0 of life 6
> open since=2
since 0 of life 6
> open since=9-6
since 0 of life 6
> open since=2-7
since 0 of life 6
> open since=now
since 0 of life 6
"#;

#[test]
fn feeds_begin_in_the_life_of_their_database(rt: HostRuntime) -> Result<(), Fail> {
    replay::<Shared, _>(&rt, rt.alloc(), LIVES)
}
