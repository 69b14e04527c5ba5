//! Revisions, the rows that list them, and texts in quotes.

use super::session::Session;
use hub_transcript::replay;
use std::test::Fail;

const REVISIONS: &str = r#"
# texts of revisions
> rev 1-a
hash a parts 1-a generation 1
> rev 10-0aZ
hash 0aZ parts 10-0aZ generation 10
> rev 65535-9
hash 9 parts 65535-9 generation 65535
> rev 2-0123456789012345678901234567890123456789012345678901234567890123
hash 0123456789012345678901234567890123456789012345678901234567890123 parts 2-0123456789012345678901234567890123456789012345678901234567890123 generation 2
> rev
none
> rev 1-
none
> rev 65536-a
none
> rev 2-01234567890123456789012345678901234567890123456789012345678901234
none
# a revision whose hash is the text of a digest, and others that are not
> one 3-d41d8cd98f00b204e9800998ecf8427e
same has it digest 3-d41d8cd98f00b204e9800998ecf8427e one 3-d41d8cd98f00b204e9800998ecf8427e at 3-d41d8cd98f00b204e9800998ecf8427e none none list 3-d41d8cd98f00b204e9800998ecf8427e len 1
> one 3-D41D8CD98F00B204E9800998ECF8427E
many 3-D41D8CD98F00B204E9800998ECF8427E at 3-D41D8CD98F00B204E9800998ECF8427E none none list 3-D41D8CD98F00B204E9800998ECF8427E len 1
> one 3-d41d8cd98f00b204e9800998ecf8427
many 3-d41d8cd98f00b204e9800998ecf8427 at 3-d41d8cd98f00b204e9800998ecf8427 none none list 3-d41d8cd98f00b204e9800998ecf8427 len 1
> one 3-a
many 3-a at 3-a none none list 3-a len 1
# revisions in little memory
> digest 3
rev 3-d41d8cd98f00b204e9800998ecf8427e digest 3-d41d8cd98f00b204e9800998ecf8427e quoted "3-d41d8cd98f00b204e9800998ecf8427e" "3-d41d8cd98f00b204e9800998ecf8427e" "3-d41d8cd98f00b204e9800998ecf8427e" one 3-d41d8cd98f00b204e9800998ecf8427e at 3-d41d8cd98f00b204e9800998ecf8427e none none list 3-d41d8cd98f00b204e9800998ecf8427e len 1
> digest 65535
rev 65535-d41d8cd98f00b204e9800998ecf8427e digest 65535-d41d8cd98f00b204e9800998ecf8427e quoted "65535-d41d8cd98f00b204e9800998ecf8427e" "65535-d41d8cd98f00b204e9800998ecf8427e" one 65535-d41d8cd98f00b204e9800998ecf8427e at 65535-d41d8cd98f00b204e9800998ecf8427e none none list 65535-d41d8cd98f00b204e9800998ecf8427e len 1
# no revisions, and several
> changes
many at none none none list len 0
> changes 1-x 1-b
many 1-x 1-b at 1-x 1-b none list 1-x 1-b len 2
# rows of changes and what is written of them
> row deleted {"_id":"a","v":7}
a seq 3 deleted true seen 4 many at none none none list len 0
members {"v":7} text {"_id":"a","_deleted":true,"v":7}
> row deleted {"_id":"a"}
a seq 3 deleted true seen 4 many at none none none list len 0
members {} text {"_id":"a","_deleted":true}
> row live {"_id":"a","v":7} 1-x 1-b
a seq 3 deleted false seen 4 many 1-x 1-b at 1-x 1-b none list 1-x 1-b len 2
members {"v":7} text {"_id":"a","_rev":"1-x","v":7}
> row live {"_id":"a"} 1-x 1-b
a seq 3 deleted false seen 4 many 1-x 1-b at 1-x 1-b none list 1-x 1-b len 2
members {} text {"_id":"a","_rev":"1-x"}
> row deleted {"_id":"a","v":7} 1-x 1-b
a seq 3 deleted true seen 4 many 1-x 1-b at 1-x 1-b none list 1-x 1-b len 2
members {"v":7} text {"_id":"a","_rev":"1-x","_deleted":true,"v":7}
> row deleted {"_id":"a"} 1-x 1-b
a seq 3 deleted true seen 4 many 1-x 1-b at 1-x 1-b none list 1-x 1-b len 2
members {} text {"_id":"a","_rev":"1-x","_deleted":true}
# rows of updates
> update created 1 1
UpdateRow { db_name: "", kind: Created, seq: 1, seen: 1 }
> update updated 3 4 d
UpdateRow { db_name: "d", kind: Updated, seq: 3, seen: 4 }
> update deleted 18446744073709551615 18446744073709551615 team/mail-1
UpdateRow { db_name: "team/mail-1", kind: Deleted, seq: 18446744073709551615, seen: 18446744073709551615 }
# limits of a hub that serves
> limits
Limits { body: 8388608, head: 16384, headers: 64, databases: 256, feeds: 1024, lane: 64, hold: 64, journal: 4294967295, history: 50 }
# the reason where there is no memory
> no-memory
out of memory
# sequences in quotes
> sequence 0 0
"0-0"
> sequence 18446744073709551615 12
"18446744073709551615-12"
# texts that need no escape, and texts that do, of each length round those that are looked at in one step
> plain
true
> plain é/漢
true
> plain é漢😀
true
> plain abcdefg
true
> plain abcdefgh
true
> plain abcdefghijklmnop
true
> plain abcdefghijklmnopq
true
> plain "
false
> plain \
false
> plain abcdefg"
false
> plain abcdefghijklmno\
false
> plain abcdefghijklmnopq"stuvwxyzabcdefghi
false"#;

#[test]
fn revisions_and_rows(rt: HostRuntime) -> Result<(), Fail> {
    replay::<Session, _>(&rt, rt.alloc(), REVISIONS)
}
