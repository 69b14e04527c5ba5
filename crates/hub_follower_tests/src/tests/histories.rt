//! Documents with several leaves.

use crate::tests::copier::Copier;
use hub_transcript::replay;
use std::test::Fail;

// A known revision with another parent changes nothing, and takes no sequence. A later revision takes its
// parent's place among the leaves. The unknown parent of a revision may come later, under a new head. A known
// head with more ancestors changes nothing. A deleted leaf stays a leaf, and may be the document's only leaf.
// The copy has the source's leaves.
const HISTORIES: &str = r#"
# a leaf that goes on is copied
> put {"_id":"x","_revisions":{"start":2,"ids":["b","a"]}} {"_id":"x","_revisions":{"start":3,"ids":["c","p","a"]}}
source 2
> session S2
at 0
> copy
idle at 2-1
> count
target 2
> leaves x
source {"_id":"x","_rev":"3-c","_revisions":{"start":3,"ids":["c","p","a"]}} {"_id":"x","_rev":"2-b","_revisions":{"start":2,"ids":["b","a"]}}
target {"_id":"x","_rev":"3-c","_revisions":{"start":3,"ids":["c","p","a"]}} {"_id":"x","_rev":"2-b","_revisions":{"start":2,"ids":["b","a"]}}
> put {"_id":"x","_revisions":{"start":3,"ids":["c","b","a"]}} {"_id":"x","_revisions":{"start":3,"ids":["c","b","a"]}}
source 2
> session S2
at 0
> copy
idle at 2-1
> count
target 2
> leaves x
source {"_id":"x","_rev":"3-c","_revisions":{"start":3,"ids":["c","p","a"]}} {"_id":"x","_rev":"2-b","_revisions":{"start":2,"ids":["b","a"]}}
target {"_id":"x","_rev":"3-c","_revisions":{"start":3,"ids":["c","p","a"]}} {"_id":"x","_rev":"2-b","_revisions":{"start":2,"ids":["b","a"]}}
> put {"_id":"x","_revisions":{"start":4,"ids":["d","c","p","a"]}} {"_id":"x","_revisions":{"start":4,"ids":["d","c","p","a"]}}
source 3
> session S3
at 0
> copy
idle at 3-1
> count
target 3
> leaves x
source {"_id":"x","_rev":"4-d","_revisions":{"start":4,"ids":["d","c","p","a"]}} {"_id":"x","_rev":"2-b","_revisions":{"start":2,"ids":["b","a"]}}
target {"_id":"x","_rev":"4-d","_revisions":{"start":4,"ids":["d","c","p","a"]}} {"_id":"x","_rev":"2-b","_revisions":{"start":2,"ids":["b","a"]}}
# a parent that comes later is copied
> put {"_id":"x","_rev":"2-b"} {"_id":"x","_rev":"3-c"}
source 2
> session S2
at 0
> copy
idle at 2-1
> count
target 2
> leaves x
source {"_id":"x","_rev":"3-c","_revisions":{"start":3,"ids":["c"]}} {"_id":"x","_rev":"2-b","_revisions":{"start":2,"ids":["b"]}}
target {"_id":"x","_rev":"3-c","_revisions":{"start":3,"ids":["c"]}} {"_id":"x","_rev":"2-b","_revisions":{"start":2,"ids":["b"]}}
> session S
at 0
> copy
idle at 2-1
> count
target 2
> put {"_id":"x","_revisions":{"start":3,"ids":["c","b"]}}
source 2
> round
idle at 2-1
> count
target 2
> leaves x
source {"_id":"x","_rev":"3-c","_revisions":{"start":3,"ids":["c"]}} {"_id":"x","_rev":"2-b","_revisions":{"start":2,"ids":["b"]}}
target {"_id":"x","_rev":"3-c","_revisions":{"start":3,"ids":["c"]}} {"_id":"x","_rev":"2-b","_revisions":{"start":2,"ids":["b"]}}
> put {"_id":"x","_revisions":{"start":4,"ids":["d","c","b"]}}
source 3
> round
moved at 3-1
> count
target 3
> leaves x
source {"_id":"x","_rev":"4-d","_revisions":{"start":4,"ids":["d","c","b"]}}
target {"_id":"x","_rev":"4-d","_revisions":{"start":4,"ids":["d","c","b"]}}
# a deleted leaf is copied
> put {"_id":"x","_rev":"1-a"}
source 1
> session S1
at 0
> copy
idle at 1-1
> count
target 1
> leaves x
source {"_id":"x","_rev":"1-a","_revisions":{"start":1,"ids":["a"]}}
target {"_id":"x","_rev":"1-a","_revisions":{"start":1,"ids":["a"]}}
> put {"_id":"x","_revisions":{"start":2,"ids":["b","a"]},"_deleted":true}
source 2
> session S2
at 0
> copy
idle at 2-1
> count
target 2
> leaves x
source {"_id":"x","_rev":"2-b","_deleted":true,"_revisions":{"start":2,"ids":["b","a"]}}
target {"_id":"x","_rev":"2-b","_deleted":true,"_revisions":{"start":2,"ids":["b","a"]}}
"#;

#[test]
fn documents_with_several_leaves_are_copied(rt: HostRuntime) -> Result<(), Fail> {
    let handle = &rt;
    replay::<Copier<'_, HostRuntime>, _>(&handle, rt.alloc(), HISTORIES)
}
