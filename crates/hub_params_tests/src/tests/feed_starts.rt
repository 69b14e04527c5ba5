//! Where feeds begin (`since`). The outcomes are worked out from the rules by hand.

use crate::tests::asked::Asked;
use hub_transcript::replay;
use std::test::Fail;

const STARTS: &str = r#"
# a query that names no parameter
> whole
FeedParams { mode: Normal, since: Plain(0), limit: None, descending: false, style: MainOnly, include_docs: false, filter: All, heartbeat: None, timeout: 60000 }

# numbers alone, and where nothing is said
> read
> read &&
> read x=since
> read Since=5
> read since=0
> read since=3
since: Plain(3)
> read since=0003
since: Plain(3)
> read since=00000000000000000000000000000000000012
since: Plain(12)
> read since=18446744073709551615
since: Plain(18446744073709551615)
> read since=000018446744073709551615
since: Plain(18446744073709551615)
> read since=%31
since: Plain(1)
> read %73ince=7
since: Plain(7)
> read since=1&since=2
since: Plain(2)
> read since=x&since=2
since: Plain(2)
> read since=2&%73ince=9
since: Plain(9)
> read since="2"
since: Plain(2)
> read since=2-1&since=3
since: Plain(3)

# numbers with the numbers of their lives, and now
> read since=2-1
since: Tagged(2
1)
> read since=%222-1%22
since: Tagged(2
1)
> read since="2-1"
since: Tagged(2
1)
> read since=2%2D1
since: Tagged(2
1)
> read since=2-7
since: Tagged(2
7)
> read since=0-0
since: Tagged(0
> read since=002-0001
since: Tagged(2
1)
> read since=18446744073709551615-1
since: Tagged(18446744073709551615
1)
> read since=1-18446744073709551615
since: Tagged(1
18446744073709551615)
> read since=18446744073709551615-18446744073709551615
since: Tagged(18446744073709551615
18446744073709551615)
> read since=x&since=2-1
since: Tagged(2
1)
> read since=now
since: Now
> read since=n%6fw
since: Now
> read since=%22now%22
since: Now
> read since="now"
since: Now
> read since=2&x=3&since=now
since: Now

# what is no number, or a greater one
> read since
bad since
> read since=
bad since
> read since=x
bad since
> read since=+1
bad since
> read since=%2B1
bad since
> read since=-1
bad since
> read since=1+
bad since
> read since=1%20
bad since
> read since=1.0
bad since
> read since=1e3
bad since
> read since=0x1
bad since
> read since=Now
bad since
> read since=now+
bad since
> read since==1
bad since
> read since=%FF
bad since
> read since=18446744073709551616
bad since
> read since=00018446744073709551616
bad since
> read since=99999999999999999999999999
bad since
> read since=1&since=
bad since
> read since=1&since
bad since
> read since=x&limit=x
bad since

# a life that is none, or no life in front of the line
> read since=2-
bad since
> read since=-
bad since
> read since=2-x
bad since
> read since=x-1
bad since
> read since=2--1
bad since
> read since=2-1-1
bad since
> read since=2-now
bad since
> read since=now-1
bad since
> read since=2- 1
bad since
> read since=2-%2B1
bad since
> read since=18446744073709551616-1
bad since
> read since=1-18446744073709551616
bad since

# no pair of quotes, more than one, or none round the whole
> read since="
bad since
> read since=""
bad since
> read since="2
bad since
> read since=2"
bad since
> read since="2-1
bad since
> read since=2-1"
bad since
> read since=""2""
bad since
> read since=""now""
bad since
> read since="2"-"1"
bad since
> read since=%22%222-1%22%22
bad since
> read since='2'
bad since
"#;

#[test]
fn starts_of_feeds(rt: HostRuntime) -> Result<(), Fail> {
    replay::<Asked, _>(&rt, rt.alloc(), STARTS)
}
