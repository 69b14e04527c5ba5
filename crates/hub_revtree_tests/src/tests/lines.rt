//! Lines of many edits. A line is kept once, and lines share the revisions that they have in common.

use crate::tests::session::Session;
use hub_transcript::replay;
use std::test::Fail;

const LINES: &str = r#"
# common paths are kept once
> sizes
0 edits 0 revisions 0 leaves
> merge {"_id":"d","_revisions":{"start":3,"ids":["c","b","a"]}}
added
> sizes
1 edits 3 revisions 1 leaves
> merge {"_id":"d","_revisions":{"start":4,"ids":["d","c","b","a"]}}
added
> merge {"_id":"d","_revisions":{"start":5,"ids":["f","e","c","b","a"]}}
added
> sizes
3 edits 6 revisions 2 leaves
> merge {"_id":"d","_revisions":{"start":2,"ids":["g","a"]}}
added
> sizes
4 edits 7 revisions 3 leaves
> rev 4-d
known live {} path 4-d 3-c 2-b 1-a
> rev 5-f
known live {} path 5-f 4-e 3-c 2-b 1-a
> rev 4-e
known path 4-e 3-c 2-b 1-a
> rev 2-g
known live {} path 2-g 1-a
# refused edits are not kept
> merge {"_id":"a","_revisions":{"start":2,"ids":["y","x"]}}
added
> merge {"_id":"a","_revisions":{"start":2,"ids":["y","x"]}}
known
> merge {"_id":"a","_revisions":{"start":4,"ids":["v","w","y","q"]}}
contradicts
> sizes
1 edits 2 revisions 1 leaves
> delete 2-y
made
> sizes
2 edits 3 revisions 1 leaves
# line of edits is kept once
> make
made
> times 4999 best edit
made
> sizes
5000 edits 5000 revisions 1 leaves
> winner
winner 5000-5790fc468f5a00fdca44b53dd6e39e0d {} alone 5000-5790fc468f5a00fdca44b53dd6e39e0d best 5000-5790fc468f5a00fdca44b53dd6e39e0d
> leaves
leaves 5000-5790fc468f5a00fdca44b53dd6e39e0d
> path 5000-5790fc468f5a00fdca44b53dd6e39e0d
5000 revisions, sum 2817582114044708176, room 5000
# longest path is kept whole
> long 65535
added
> winner
winner 65535-a {} alone 65535-a best 65535-a
> sizes
1 edits 65535 revisions 1 leaves
> path 65535-a
65535 revisions, sum 4846910180744581607, room 65535
# two lines of many edits
> times 300 extend live
made
> merge {"_id":"a","_deleted":true,"_rev":"1-00000000000000000000000000000000"}
added
> times 50 extend dead
made
> times 5 extend live & extend dead
made
made
> times 50 extend live
made
> sizes
411 edits 411 revisions 2 leaves
> leaves
leaves 355-d1de5ff2b936d18793055543f1117adf 56-fb6eeecbea210c393eecc4462d323db4
> path 355-d1de5ff2b936d18793055543f1117adf
355 revisions, sum 7217600721867396724, room 355
> path 56-fb6eeecbea210c393eecc4462d323db4
56 revisions, sum 2913429427499840058, room 56
# line is shared with an edit that is not taken
> times 300 extend live
made
> second
made
> path 301-83ead5079bdab9ce1433d57342abd53c
301 revisions, sum 8221523564864140281, room 301
> times 20 extend live
made
> sizes
321 edits 321 revisions 1 leaves
> path 321-6946003014e1d6f5f0905920157db7b2
321 revisions, sum 13069605538286300981, room 321
# line that gets older revisions
> merge {"_id":"a","_rev":"5-00000000000000000000000000000005"}
added
> times 300 extend live
made
> merge {"_id":"a","_deleted":true,"_revisions":{"start":6,"ids":["00000000000000000000000000000066","00000000000000000000000000000005","00000000000000000000000000000004","00000000000000000000000000000003"]}}
added
> path 305-ffe3eead1f1413815de303bb54307473
303 revisions, sum 14713004260167773308, room 303
> times 20 extend live
made
> merge {"_id":"a","_deleted":true,"_revisions":{"start":4,"ids":["00000000000000000000000000000044","00000000000000000000000000000003","00000000000000000000000000000002","00000000000000000000000000000001"]}}
added
> path 325-3da14741882dcf2a99cf9e3c79aeecab
325 revisions, sum 18029771574917945361, room 325
> path 25-7dad071783d087c23e5fba5b7200881c
25 revisions, sum 5739493802251211995, room 25
> times 20 extend live
made
> sizes
343 edits 347 revisions 3 leaves
> path 345-14f9b2058139a6ab1cd988a09b9a7923
345 revisions, sum 9523564039981955638, room 345"#;

#[test]
fn lines_are_kept_once(rt: HostRuntime) -> Result<(), Fail> {
    replay::<Session, _>(&rt, rt.alloc(), LINES)
}
