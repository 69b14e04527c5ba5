//! Watches and bells: which of them have news of a write. Two senders send three feeds of a database.

use crate::tests::shared::Shared;
use hub_transcript::replay;
use std::test::Fail;

const WATCHES: &str = r#"
# each bell is rung once by a write, also where two feeds share a watch, and news that was taken is gone
> open feed=continuous
since 0 of life 6
> open feed=continuous
since 0 of life 6
> open feed=continuous
since 0 of life 6
> watch 1 1
> watch 2 1
> watch 3 2
> news 1
> load {"_id":"a","_rev":"1-a"}
1 a 1-a
> news 1
rung
bell
watch
> news 1
> news 2
rung
bell
watch
> news 2

# writes before news is taken are one news, and a write behind it is news again
> open feed=continuous
since 0 of life 6
> open feed=continuous
since 0 of life 6
> open feed=continuous
since 0 of life 6
> watch 1 1
> load {"_id":"a","_rev":"1-a"}
1 a 1-a
> load {"_id":"b","_rev":"1-b"}
2 b 1-b
> news 1
rung
bell
watch
> news 1
> load {"_id":"c","_rev":"1-c"}
3 c 1-c
> news 1
rung
bell
watch
> poll 1
row 1 a 1-a
> poll 1
row 2 b 1-b
> poll 1
row 3 c 1-c
> poll 1
none
> news 1

# a write before a feed is watched gives no news, but the poll behind the watch gives its row
> open feed=continuous
since 0 of life 6
> open feed=continuous
since 0 of life 6
> open feed=continuous
since 0 of life 6
> poll 1
none
> load {"_id":"a","_rev":"1-a"}
1 a 1-a
> news 1
> watch 1 1
> news 1
> poll 1
row 1 a 1-a
> poll 1
none
> news 2
> load {"_id":"b","_rev":"1-b"}
2 b 1-b
> news 1
rung
bell
watch
> news 2
> poll 1
row 2 b 1-b

# the end of a feed rings no bell, and a watch has news while one of its feeds is there
> open feed=continuous
since 0 of life 6
> open feed=continuous
since 0 of life 6
> open feed=continuous
since 0 of life 6
> watch 1 1
> watch 2 1
> watch 3 2
> finish 1
> news 1
> news 2
> load {"_id":"a","_rev":"1-a"}
1 a 1-a
> news 1
rung
bell
watch
> news 2
rung
bell
watch
> finish 2
> news 1
> news 2
> load {"_id":"b","_rev":"1-b"}
2 b 1-b
> news 1
> news 2
rung
bell
watch
> poll 3
row 1 a 1-a
> poll 3
row 2 b 1-b

# a deletion rings, and the feeds come to their ends
> open feed=continuous
since 0 of life 6
> open feed=continuous
since 0 of life 6
> open feed=continuous
since 0 of life 6
> watch 1 1
> watch 3 2
> poll 1
none
> delete
Ok(())
> news 1
rung
bell
watch
> news 2
rung
bell
watch
> poll 1
end 0 pending 0
> poll 3
end 0 pending 0
> poll 1
none
"#;

#[test]
fn writes_and_deletions_are_told(rt: HostRuntime) -> Result<(), Fail> {
    replay::<Shared, _>(&rt, rt.alloc(), WATCHES)
}
