//! The questions to modes and to beginnings of feeds, and texts of sequences with lives, as users ask them.

use crate::tests::asked::Asked;
use hub_transcript::replay;
use std::test::Fail;

const WORDS: &str = r#"
# modes that wait
> waits feed=normal
false
> waits feed=longpoll
true
> waits feed=continuous
true

# where feeds begin of which there are 9 edits, in the life 3
> begins since=now
9
> begins since=0
0
> begins since=4
4
> begins since=10
9
> begins since=4-3
4
> begins since=10-3
9
> begins since=4-2
0
> begins since=10-0
0

# the sequence and the life of a text, of which no quotes are dropped
> tagged 12-3
Some((12, 3))
> tagged 0-0
Some((0, 0))
> tagged 012-03
Some((12, 3))
> tagged 18446744073709551615-18446744073709551615
Some((18446744073709551615, 18446744073709551615))
> tagged 18446744073709551616-3
None
> tagged 12-18446744073709551616
None
> tagged 12
None
> tagged
None
> tagged 12-3-4
None
> tagged "12-3"
None

# listed ids in order
> ids filter=_doc_ids&doc_ids=["b","_design/x","a","b"]
_design/x
a
b
b
"#;

#[test]
fn words_have_their_meaning(rt: HostRuntime) -> Result<(), Fail> {
    replay::<Asked, _>(&rt, rt.alloc(), WORDS)
}
