//! Small trees: how many edits, revisions and leaves they have, and facts that no answer over HTTP shows.
//!
//! `hub_service_tests` has most of these cases too, with their winners, leaves, paths and bodies.

use crate::tests::session::Session;
use hub_transcript::replay;
use std::test::Fail;

const COUNTS: &str = r#"
# best leaf wins
> winner
empty
> merge {"_id":"d","_rev":"1-q"}
added
> merge {"_id":"d","_deleted":true,"_revisions":{"start":2,"ids":["b","q"]}}
added
> merge {"_id":"d","_rev":"1-z"}
added
> merge {"_id":"d","_revisions":{"start":2,"ids":["a","q"]}}
added
> winner
winner 2-a {} alone 2-a best 2-a
> sizes
4 edits 4 revisions 3 leaves
# known heads change nothing
> merge {"_id":"d","_revisions":{"start":2,"ids":["y","x"]}}
added
> merge {"_id":"d","_revisions":{"start":2,"ids":["y","x"]}}
known
> merge {"_id":"d","_revisions":{"start":2,"ids":["y","q"]}}
known
> merge {"_id":"d","_rev":"1-x"}
known
> sizes
1 edits 2 revisions 1 leaves
# branches are merged on what is known
> merge {"_id":"d","_revisions":{"start":3,"ids":["c","b","a"]}}
added
> sizes
1 edits 3 revisions 1 leaves
> merge {"_id":"d","_revisions":{"start":3,"ids":["d","b","a"]}}
added
> sizes
2 edits 4 revisions 2 leaves
> merge {"_id":"d","_revisions":{"start":2,"ids":["b","a"]}}
known
> sizes
2 edits 4 revisions 2 leaves
# contradictions change nothing
> merge {"_id":"d","_revisions":{"start":2,"ids":["y","x"]}}
added
> merge {"_id":"d","_revisions":{"start":3,"ids":["w","y","q"]}}
contradicts
> sizes
1 edits 2 revisions 1 leaves
# paths of known revisions
> merge {"_id":"a","_rev":"1-a","v":1}
added
> merge {"_id":"a","_revisions":{"start":2,"ids":["c","a"]},"v":2}
added
> merge {"_id":"a","_revisions":{"start":4,"ids":["e","d","c","a"]}}
added
> rev 3-d
known path 3-d 2-c 1-a
# bodies of heads
> merge {"_id":"a","_rev":"1-a","v":1}
added
> merge {"_id":"a","_revisions":{"start":2,"ids":["c","a"]},"v":2}
added
> rev 1-a
known live {"v":1} path 1-a
> rev 2-c
known live {"v":2} path 2-c 1-a
# an ancestor inside a history has no body
> merge {"_id":"a","_revisions":{"start":2,"ids":["c","a"]}}
added
> rev 1-a
known path 1-a
# looks above the highest generation
> merge {"_id":"a","_revisions":{"start":3,"ids":["c","b","a"]}}
added
> make 4-d
conflict
> make 3-d
conflict
> make 2-b
conflict
> make 3-c
made
> make 3-c
conflict
> sizes
2 edits 4 revisions 1 leaves
# winner of a line with a conflict beside it
> merge {"_id":"a","_rev":"1-a"}
added
> merge {"_id":"a","_revisions":{"start":2,"ids":["b","a"]}}
added
> merge {"_id":"a","_revisions":{"start":2,"ids":["a","a"]}}
added
> merge {"_id":"a","_revisions":{"start":3,"ids":["c","b","a"]}}
added
> merge {"_id":"a","_deleted":true,"_revisions":{"start":4,"ids":["d","c","b","a"]}}
added
> merge {"_id":"a","_revisions":{"start":3,"ids":["e","a","a"]}}
added
> merge {"_id":"a","_deleted":true,"_revisions":{"start":4,"ids":["f","e","a","a"]}}
added
> merge {"_id":"a","_revisions":{"start":5,"ids":["g","d","c","b","a"]}}
added
> merge {"_id":"a","_deleted":true,"_revisions":{"start":7,"ids":["k","j","g","d","c","b","a"]}}
added
> merge {"_id":"a","_revisions":{"start":2,"ids":["m","a"]}}
added
> sizes
10 edits 11 revisions 3 leaves
# only leaves are extended
> merge {"_id":"a","_rev":"1-a"}
added
> merge {"_id":"a","_revisions":{"start":2,"ids":["c","b"]}}
added
> make 1-b
conflict
> make 9-z
conflict
> make 2-a
conflict
> sizes
2 edits 3 revisions 2 leaves
# edits follow one another
> make
made
> make
conflict
> sizes
1 edits 1 revisions 1 leaves
> delete 1-dfddbf319adb018d1e5ac3465b83542c
made
> make
made
# made revisions that are known conflict
> merge {"_id":"a","_rev":"1-a"}
added
> merge {"_id":"a","_revisions":{"start":2,"ids":["5b422ec71a54e904129dfa7cff6017b4","q"]}}
added
> make 1-a
conflict
> sizes
2 edits 3 revisions 2 leaves
> delete 1-a
made
> sizes
3 edits 4 revisions 2 leaves
# last generation is not extended
> long 65534
added
> make 65534-a
made
> make 65535-ac736bf6e3fe01959474ab89a4af1388
generation limit
> sizes
2 edits 65535 revisions 1 leaves
# one digest is kept
> merge {"_id":"d","_revisions":{"start":1,"ids":["0123456789abcdef0123456789abcdef"]}}
added
> sizes
1 edits 1 revisions 1 leaves
> merge {"_id":"d","_revisions":{"start":1,"ids":["0123456789abcdef0123456789abcdef"]}}
known
> merge {"_id":"d","_revisions":{"start":1,"ids":["0123456789ABCDEF0123456789ABCDEF"]}}
added
> merge {"_id":"d","_revisions":{"start":1,"ids":["0123456789abcdef0123456789abcdef0"]}}
added
> sizes
3 edits 3 revisions 3 leaves
# histories of digests are kept
> merge {"_id":"d","_revisions":{"start":3,"ids":["00000000000000000000000000000000","fedcba9876543210fedcba9876543210","0123456789abcdef0123456789abcdef"]}}
added
> sizes
1 edits 3 revisions 1 leaves
> rev 2-fedcba9876543210fedcba9876543210
known path 2-fedcba9876543210fedcba9876543210 1-0123456789abcdef0123456789abcdef
> rev 1-0123456789abcdef0123456789abcdef
known path 1-0123456789abcdef0123456789abcdef
> merge {"_id":"d","_revisions":{"start":3,"ids":["ffffffffffffffffffffffffffffffff","fedcba9876543210fedcba9876543210","0123456789abcdef0123456789abcdef"]}}
added
> sizes
2 edits 4 revisions 2 leaves
> merge {"_id":"d","_revisions":{"start":4,"ids":["x","ffffffffffffffffffffffffffffffff","fedcba9876543210fedcba9876543210","0123456789abcdef0123456789abcdef"]}}
added
> sizes
3 edits 5 revisions 2 leaves
> merge {"_id":"d","_revisions":{"start":3,"ids":["0123456789abcdef0123456789abcdef","00000000000000000000000000000000","0123456789abcdef0123456789abcdef"]}}
added
> sizes
4 edits 7 revisions 3 leaves
> merge {"_id":"d","_revisions":{"start":3,"ids":["ffffffffffffffffffffffffffffffff","00000000000000000000000000000000","0123456789abcdef0123456789abcdef"]}}
known
> merge {"_id":"d","_revisions":{"start":4,"ids":["y","ffffffffffffffffffffffffffffffff","00000000000000000000000000000000","0123456789abcdef0123456789abcdef"]}}
contradicts
> merge {"_id":"d","_revisions":{"start":5,"ids":["0123456789abcdef0123456789abcdef","fedcba9876543210fedcba9876543210","00000000000000000000000000000000","fedcba9876543210fedcba9876543210","0123456789abcdef0123456789abcdef"]}}
added
> sizes
5 edits 9 revisions 3 leaves
# mixed histories are kept
> merge {"_id":"d","_revisions":{"start":4,"ids":["0123456789abcdef0123456789abcdef","b","0123456789ABCDEF0123456789ABCDEF","fedcba9876543210fedcba9876543210"]}}
added
> sizes
1 edits 4 revisions 1 leaves
> rev 2-0123456789ABCDEF0123456789ABCDEF
known path 2-0123456789ABCDEF0123456789ABCDEF 1-fedcba9876543210fedcba9876543210
> merge {"_id":"d","_revisions":{"start":4,"ids":["00000000000000000000000000000000","b","0123456789ABCDEF0123456789ABCDEF","fedcba9876543210fedcba9876543210"]}}
added
> merge {"_id":"d","_revisions":{"start":2,"ids":["0123456789abcdef0123456789abcdef","fedcba9876543210fedcba9876543210"]}}
added
> sizes
3 edits 6 revisions 3 leaves
> merge {"_id":"d","_revisions":{"start":3,"ids":["b","0123456789abcdef0123456789abcdef","fedcba9876543210fedcba9876543210"]}}
known
> merge {"_id":"d","_revisions":{"start":4,"ids":["q","b","0123456789abcdef0123456789abcdef","fedcba9876543210fedcba9876543210"]}}
contradicts
# looks change nothing
> look {"_id":"a","_revisions":{"start":2,"ids":["y","x"]}}
new 2-y
> sizes
0 edits 0 revisions 0 leaves
> take {"_id":"a","_revisions":{"start":2,"ids":["y","x"]}}
new 2-y
> sizes
1 edits 2 revisions 1 leaves
> take {"_id":"a","_revisions":{"start":2,"ids":["y","x"]}}
known
> sizes
1 edits 2 revisions 1 leaves
> take {"_id":"a","_rev":"1-x"}
known
> sizes
1 edits 2 revisions 1 leaves
> take {"_id":"a","_revisions":{"start":3,"ids":["w","y","q"]}}
contradicts
> sizes
1 edits 2 revisions 1 leaves
> take {"_id":"a","_rev":"3-z"}
new 3-z
> sizes
2 edits 3 revisions 2 leaves
# winners and edits with their members
> winner
empty
> merge {"_id":"a","_rev":"1-a","v":1}
added
> winner
winner 1-a {"v":1} alone 1-a best 1-a
> merge {"_id":"a","v":2,"_revisions":{"start":2,"ids":["d41d8cd98f00b204e9800998ecf8427e","a"]}}
added
> winner
winner 2-d41d8cd98f00b204e9800998ecf8427e {"v":2} alone 2-d41d8cd98f00b204e9800998ecf8427e best 2-d41d8cd98f00b204e9800998ecf8427e
> merge {"_id":"a","_deleted":true,"_revisions":{"start":3,"ids":["c","d41d8cd98f00b204e9800998ecf8427e"]}}
added
> winner
winner 3-c deleted {} alone 3-c best 3-c
> merge {"_id":"a","_revisions":{"start":2,"ids":["y","x"]},"v":3}
added
> winner
winner 2-y {"v":3} alone 2-y best 2-y
> merge {"_id":"a","_revisions":{"start":3,"ids":["z","y"]},"_deleted":true}
added
> winner
winner 3-z deleted {} alone 3-z best 3-z
> edit 0
deleted false of 1 {"v":1} 1-a
> edit 1
deleted false of 2 {"v":2} 2-d41d8cd98f00b204e9800998ecf8427e
> edit 2
deleted true of 2 {} 3-c
> edit 3
deleted false of 2 {"v":3} 2-y
> edit 4
deleted true of 2 {} 3-z
> edit 5
none
# a history may end above the first generation
> merge {"_id":"a","_rev":"5-e"}
added
> merge {"_id":"a","_revisions":{"start":5,"ids":["e","d"]}}
known
> merge {"_id":"a","_revisions":{"start":6,"ids":["f","e","d"]}}
added
> sizes
2 edits 3 revisions 1 leaves
> merge {"_id":"a","_revisions":{"start":6,"ids":["h","e","q"]}}
contradicts
> merge {"_id":"a","_rev":"65535-a"}
added
> make 65535-a
generation limit
> sizes
3 edits 4 revisions 2 leaves
# a revision may get a parent later
> merge {"_id":"a","_rev":"2-b"}
added
> merge {"_id":"a","_rev":"3-c"}
added
> merge {"_id":"a","_revisions":{"start":3,"ids":["c","b"]}}
known
> merge {"_id":"a","_revisions":{"start":4,"ids":["d","c","b"]}}
added
> sizes
3 edits 3 revisions 1 leaves
> merge {"_id":"a","_revisions":{"start":4,"ids":["e","c","q"]}}
contradicts
> merge {"_id":"a","_revisions":{"start":4,"ids":["e","c","b","a"]}}
added
> sizes
4 edits 5 revisions 2 leaves
# several roots are joined by one path
> merge {"_id":"a","_rev":"7-g"}
added
> merge {"_id":"a","_revisions":{"start":5,"ids":["e","d"]}}
added
> merge {"_id":"a","_rev":"2-b"}
added
> merge {"_id":"a","_revisions":{"start":8,"ids":["h","g","f","e","d","c","b","a"]}}
added
> sizes
4 edits 8 revisions 1 leaves
> merge {"_id":"a","_revisions":{"start":8,"ids":["i","g","f","e"]}}
added
> merge {"_id":"a","_revisions":{"start":8,"ids":["j","g","f","z"]}}
contradicts
> sizes
5 edits 9 revisions 2 leaves
# a deleted revision gets a parent
> merge {"_id":"a","_deleted":true,"_rev":"3-c"}
added
> merge {"_id":"a","_rev":"2-b"}
added
> make 3-c
made
> merge {"_id":"a","_deleted":true,"_revisions":{"start":4,"ids":["d","c","b"]}}
added
> make 2-b
conflict
> delete 3-c
conflict
> sizes
4 edits 4 revisions 2 leaves
# path has room for its revisions alone
> merge {"_id":"a","_rev":"65535-a"}
added
> path 65535-a
1 revisions, sum 65535196702, room 1
# a made revision that came alone is a conflict
> merge {"_id":"a","_rev":"5-e"}
added
> merge {"_id":"a","_rev":"6-d0414affc1bc5f081aa5dd402947fae4"}
added
> make 5-e
conflict
> merge {"_id":"a","_revisions":{"start":7,"ids":["g","d0414affc1bc5f081aa5dd402947fae4","e"]}}
added
# many revisions get parents
> same 1700
> times 400 merge {"_id":"a","_rev":"3-%0;"}
added
> times 400 merge {"_id":"a","_revisions":{"start":4,"ids":["%1000;","%0;","%2000;"]}}
added
> sizes
800 edits 1200 revisions 400 leaves
> times 400 merge {"_id":"a","_revisions":{"start":4,"ids":["%3000;","%0;","%2001;"]}}
contradicts
> times 400 merge {"_id":"a","_revisions":{"start":4,"ids":["%3000;","%0;","%2000;"]}}
added
> sizes
1200 edits 1600 revisions 800 leaves
# a line with three joins, the lowest first
> merge {"_id":"a","_rev":"2-b"}
added
> merge {"_id":"a","_rev":"4-d"}
added
> merge {"_id":"a","_rev":"6-f"}
added
> merge {"_id":"a","_rev":"8-h"}
added
> merge {"_id":"a","_revisions":{"start":5,"ids":["x","d","c","b"]}}
added
> merge {"_id":"a","_revisions":{"start":7,"ids":["y","f","e","d"]}}
added
> merge {"_id":"a","_revisions":{"start":9,"ids":["z","h","g","f"]}}
added
> sizes
7 edits 10 revisions 3 leaves
> rev 7-g
known path 7-g 6-f 5-e 4-d 3-c 2-b
> rev 3-c
known path 3-c 2-b
> merge {"_id":"a","_revisions":{"start":10,"ids":["q","z","h","g","f","e","d","k"]}}
contradicts
> merge {"_id":"a","_revisions":{"start":4,"ids":["w","k","b"]}}
added
> merge {"_id":"a","_revisions":{"start":10,"ids":["q","z","h","g","f","e","d","c","b","a"]}}
added
> sizes
9 edits 14 revisions 4 leaves
> merge {"_id":"a","_revisions":{"start":3,"ids":["m","b","q"]}}
contradicts
> sizes
9 edits 14 revisions 4 leaves
# a line with three joins, the highest first
> merge {"_id":"a","_rev":"2-b"}
added
> merge {"_id":"a","_rev":"4-d"}
added
> merge {"_id":"a","_rev":"6-f"}
added
> merge {"_id":"a","_rev":"8-h"}
added
> merge {"_id":"a","_revisions":{"start":9,"ids":["z","h","g","f"]}}
added
> merge {"_id":"a","_revisions":{"start":7,"ids":["y","f","e","d"]}}
added
> merge {"_id":"a","_revisions":{"start":5,"ids":["x","d","c","b"]}}
added
> sizes
7 edits 10 revisions 3 leaves
> rev 7-g
known path 7-g 6-f 5-e 4-d 3-c 2-b
> rev 3-c
known path 3-c 2-b
> merge {"_id":"a","_revisions":{"start":10,"ids":["q","z","h","g","f","e","d","k"]}}
contradicts
> merge {"_id":"a","_revisions":{"start":4,"ids":["w","k","b"]}}
added
> merge {"_id":"a","_revisions":{"start":10,"ids":["q","z","h","g","f","e","d","c","b","a"]}}
added
> sizes
9 edits 14 revisions 4 leaves
> merge {"_id":"a","_revisions":{"start":3,"ids":["m","b","q"]}}
contradicts
> sizes
9 edits 14 revisions 4 leaves
# a line with three joins, the one between first
> merge {"_id":"a","_rev":"2-b"}
added
> merge {"_id":"a","_rev":"4-d"}
added
> merge {"_id":"a","_rev":"6-f"}
added
> merge {"_id":"a","_rev":"8-h"}
added
> merge {"_id":"a","_revisions":{"start":7,"ids":["y","f","e","d"]}}
added
> merge {"_id":"a","_revisions":{"start":9,"ids":["z","h","g","f"]}}
added
> merge {"_id":"a","_revisions":{"start":5,"ids":["x","d","c","b"]}}
added
> sizes
7 edits 10 revisions 3 leaves
> rev 7-g
known path 7-g 6-f 5-e 4-d 3-c 2-b
> rev 3-c
known path 3-c 2-b
> merge {"_id":"a","_revisions":{"start":10,"ids":["q","z","h","g","f","e","d","k"]}}
contradicts
> merge {"_id":"a","_revisions":{"start":4,"ids":["w","k","b"]}}
added
> merge {"_id":"a","_revisions":{"start":10,"ids":["q","z","h","g","f","e","d","c","b","a"]}}
added
> sizes
9 edits 14 revisions 4 leaves
> merge {"_id":"a","_revisions":{"start":3,"ids":["m","b","q"]}}
contradicts
> sizes
9 edits 14 revisions 4 leaves"#;

#[test]
fn edits_and_revisions_are_counted(rt: HostRuntime) -> Result<(), Fail> {
    replay::<Session, _>(&rt, rt.alloc(), COUNTS)
}
