//! The best leaf of a tree with so many edits that it has an index, as its leaves are taken one by one.
//!
//! The leaves have the numbers from 0 on. So the best of 307 leaves has the number 306. Once 20 leaves are
//! gone from above, from below or from both ends by turns, the best has the number 286, 306 or 296. An edit
//! that extends a leaf and is not deleted has the second generation, above the leaves of the first. In the
//! last case one leaf is left after 256 steps, and after 257 steps each leaf is deleted.

use crate::tests::session::Session;
use hub_transcript::replay;
use std::test::Fail;

const BEST: &str = r#"
# the best are deleted
> scattered 307 merge {"_id":"a","_rev":"1-%0;"}
added
> times 20 best delete
made
> winner
winner 1-0000000000000000000000000000011e {} alone 1-0000000000000000000000000000011e best 1-0000000000000000000000000000011e
# the worst are deleted
> scattered 307 merge {"_id":"a","_rev":"1-%0;"}
added
> times 20 worst delete
made
> winner
winner 1-00000000000000000000000000000132 {} alone 1-00000000000000000000000000000132 best 1-00000000000000000000000000000132
# the best and the worst are deleted by turns
> scattered 307 merge {"_id":"a","_rev":"1-%0;"}
added
> times 10 best delete & worst delete
made
made
> winner
winner 1-00000000000000000000000000000128 {} alone 1-00000000000000000000000000000128 best 1-00000000000000000000000000000128
# the best are extended and deleted by turns
> scattered 307 merge {"_id":"a","_rev":"1-%0;"}
added
> times 10 best edit & best delete
made
made
> winner
winner 1-00000000000000000000000000000128 {} alone 1-00000000000000000000000000000128 best 1-00000000000000000000000000000128
# the worst are extended and the best deleted by turns
> scattered 307 merge {"_id":"a","_rev":"1-%0;"}
added
> times 10 worst edit & best delete
made
made
> winner
winner 1-00000000000000000000000000000132 {} alone 1-00000000000000000000000000000132 best 1-00000000000000000000000000000132
# the best of texts are deleted
> scattered 307 merge {"_id":"a","_rev":"1-x%3;"}
added
> times 20 best delete
made
> winner
winner 1-x286 {} alone 1-x286 best 1-x286
# the worst of texts are extended and the best deleted by turns
> scattered 307 merge {"_id":"a","_rev":"1-x%3;"}
added
> times 10 worst edit & best delete
made
made
> winner
winner 1-x306 {} alone 1-x306 best 1-x306
# all are deleted
> scattered 257 merge {"_id":"a","_rev":"1-%0;"}
added
> times 256 best delete
made
> winner
winner 1-00000000000000000000000000000000 {} alone 1-00000000000000000000000000000000 best 1-00000000000000000000000000000000
> best delete
made
> winner
winner 2-fdc19484ef969a3c66649941524cce3d deleted {} alone 2-fdc19484ef969a3c66649941524cce3d best 2-fdc19484ef969a3c66649941524cce3d"#;

#[test]
fn best_leaf_follows_the_best(rt: HostRuntime) -> Result<(), Fail> {
    replay::<Session, _>(&rt, rt.alloc(), BEST)
}
