//! Texts of documents and local documents, as no answer over HTTP shows them.

use super::session::Session;
use hub_transcript::replay;
use std::test::Fail;

const DOCUMENTS: &str = concat!(
    r#"
# edits that are made here
> new {"_id":"a"}
a {}
{"_id":"a"}
{"_id":"a"}
{}
> new {"v":7,"_id":"a"}
a {"v":7}
{"_id":"a","v":7}
{"_id":"a","v":7}
{"v":7}
> new {"b":1,"_id":"z","a":{"d":2,"c":3},"B":"é\n"}
z {"B":"é\n","a":{"c":3,"d":2},"b":1}
{"_id":"z","B":"é\n","a":{"c":3,"d":2},"b":1}
{"_id":"z","B":"é\n","a":{"c":3,"d":2},"b":1}
{"B":"é\n","a":{"c":3,"d":2},"b":1}
> new {"_deleted":true,"_rev":"1-x","_id":"a"}
a rev 1-x deleted {}
{"_id":"a","_rev":"1-x","_deleted":true}
{"_id":"a","_rev":"1-x","_deleted":true}
{}
> new {"_deleted":false,"_id":"a","_conflicts":[]}
a {}
{"_id":"a"}
{"_id":"a"}
{}
> new {"_id":"q\"\\\n\u0001\u00e9\/"}
q"\
"#,
    "\u{1}",
    r#"é/ {}
{"_id":"q\"\\\n\u0001é/"}
{"_id":"q\"\\\n\u0001é/"}
{}
> new {"_id":"_design/x","_revisions":{"start":2,"ids":[]}}
_design/x {}
{"_id":"_design/x"}
{"_id":"_design/x"}
{}
# edits that came
> came {"_id":"a","_rev":"2-c","_revisions":{"start":2,"ids":["c","a"]}}
a rev 2-c path 2-c 1-a {}
{"_id":"a","_rev":"2-c","_revisions":{"start":2,"ids":["c","a"]}}
{"_id":"a","_rev":"2-c","_revisions":{"start":2,"ids":["c","a"]}}
{}
head 2-c front 2-c 1-a list 2-c 1-a
> came {"_id":"a","_rev":"1-c","v":[]}
a rev 1-c path 1-c {"v":[]}
{"_id":"a","_rev":"1-c","_revisions":{"start":1,"ids":["c"]},"v":[]}
{"_id":"a","_rev":"1-c","_revisions":{"start":1,"ids":["c"]},"v":[]}
{"v":[]}
head 1-c front 1-c list 1-c
> came {"_id":"a","_rev":"5-e"}
a rev 5-e path 5-e {}
{"_id":"a","_rev":"5-e","_revisions":{"start":5,"ids":["e"]}}
{"_id":"a","_rev":"5-e","_revisions":{"start":5,"ids":["e"]}}
{}
head 5-e front 5-e list 5-e
> came {"_id":"a","_revisions":{"start":5,"ids":["e"]}}
a rev 5-e path 5-e {}
{"_id":"a","_rev":"5-e","_revisions":{"start":5,"ids":["e"]}}
{"_id":"a","_rev":"5-e","_revisions":{"start":5,"ids":["e"]}}
{}
head 5-e front 5-e list 5-e
> came {"_id":"a","_revisions":{"start":6,"ids":["f","e","d"]},"v":1}
a rev 6-f path 6-f 5-e 4-d {"v":1}
{"_id":"a","_rev":"6-f","_revisions":{"start":6,"ids":["f","e","d"]},"v":1}
{"_id":"a","_rev":"6-f","_revisions":{"start":6,"ids":["f","e","d"]},"v":1}
{"v":1}
head 6-f front 6-f 5-e list 6-f 5-e 4-d
> came {"_id":"a","_rev":"3-c","_revisions":{"start":3,"ids":["c","b","a"]}}
a rev 3-c path 3-c 2-b 1-a {}
{"_id":"a","_rev":"3-c","_revisions":{"start":3,"ids":["c","b","a"]}}
{"_id":"a","_rev":"3-c","_revisions":{"start":3,"ids":["c","b","a"]}}
{}
head 3-c front 3-c 2-b list 3-c 2-b 1-a
> came {"_id":"a","_deleted":true,"v":1,"_revisions":{"ids":["c","b","a"],"start":3}}
a rev 3-c deleted path 3-c 2-b 1-a {"v":1}
{"_id":"a","_rev":"3-c","_deleted":true,"_revisions":{"start":3,"ids":["c","b","a"]},"v":1}
{"_id":"a","_rev":"3-c","_deleted":true,"_revisions":{"start":3,"ids":["c","b","a"]},"v":1}
{"v":1}
head 3-c front 3-c 2-b list 3-c 2-b 1-a
> came {"b":[1,{"d":-2,"c":"\u00e9\n"}],"_id":"x","_rev":"2-c","_revisions":{"start":2,"ids":["c","a"]},"_deleted":true,"a":null,"_conflicts":[],"":true}
x rev 2-c deleted path 2-c 1-a {"":true,"a":null,"b":[1,{"c":"é\n","d":-2}]}
{"_id":"x","_rev":"2-c","_deleted":true,"_revisions":{"start":2,"ids":["c","a"]},"":true,"a":null,"b":[1,{"c":"é\n","d":-2}]}
{"_id":"x","_rev":"2-c","_deleted":true,"_revisions":{"start":2,"ids":["c","a"]},"":true,"a":null,"b":[1,{"c":"é\n","d":-2}]}
{"":true,"a":null,"b":[1,{"c":"é\n","d":-2}]}
head 2-c front 2-c 1-a list 2-c 1-a
# a fault of a text
> new
not JSON
> new {"_id":"a"} x
not JSON
> came [1.5
not JSON
> came [1.5]
not an object
> new {"_id":"a","n":[{"m":[1,0.0]}]}
number out of profile
> came {"_id":"a"}
bad rev
> came {"_id":"a","_rev":"2-a","_revisions":[],"_x":1}
bad _revisions
> new {"_id":"a","_x":1}
bad member
# ids under which no route puts a document
> put  | {}
bad id
> put _x | {}
bad id
> put _local/a | {}
bad id
> put-came , x | [
not JSON
> put-came , x | [1.5]
not an object
> put-came , x | {"v":1.5}
number out of profile
> put-came , x | {}
bad id
> put a, 1-a | {"_rev":"1-a","v":7}
a rev 1-a {"v":7}
{"_id":"a","_rev":"1-a","v":7}
{"_id":"a","_rev":"1-a","v":7}
{"v":7}
# a line feed, a control character, a tab, and a byte that is no text, within a string
> byte 10 {"_id":"a","s":"$"}
not JSON
> room 10 {"_id":"a","s":"$"}
not JSON
> byte 1 {"_id":"a","s":"$"}
not JSON
> room 1 {"_id":"a","s":"$"}
not JSON
> byte 9 {"_id":"a","s":"$"}
not JSON
> room 9 {"_id":"a","s":"$"}
not JSON
> byte 255 {"_id":"a","s":"$"}
not JSON
> room 255 {"_id":"a","s":"$"}
not JSON
> byte 255 {"_id":"$"}
not JSON
> byte 98 {"_id":"a","s":"$"}
a {"s":"b"}
{"_id":"a","s":"b"}
{"_id":"a","s":"b"}
{"s":"b"}
> room 98 {"_id":"a","s":"$"}
a {"s":"b"}
{"_id":"a","s":"b"}
{"_id":"a","s":"b"}
{"s":"b"}
# copies in the memory of spare members: of the same length, longer, shorter, and more than twice as long
> over {"_id":"a","v":"spare"} | {"_id":"b","w":"equal"}
{"w":"equal"}
> over {"_id":"a","v":"longer"} | {"_id":"b","w":"equal"}
{"w":"equal"}
> over {"_id":"a","v":1} | {"_id":"b","w":"longer","x":[1,2]}
{"w":"longer","x":[1,2]}
> over {"_id":"a","v":"spare that is more than twice as long"} | {"_id":"b","w":"equal"}
{"w":"equal"}
# the members without a member are copied over others, and others over them
> over {"_id":"a","v":1} | {"_id":"b"}
{}
> over {"_id":"a"} | {"_id":"b","w":"\u00e9"}
{"w":"é"}
# a copy's memory serves the next copy: of 20, 13, 13, 8, 7, 25, 13 and 12 bytes
> over {"_id":"a","v":"a spare body"} | {"_id":"b","w":"equal"} | {"_id":"c","x":"fully"} | {"_id":"d","y":12} | {"_id":"e","z":3} | {"_id":"f","a":"0123456789abcdefg"} | {"_id":"g","b":"01234"} | {"_id":"h","c":"0123"}
{"w":"equal"}
{"x":"fully"}
{"y":12}
{"z":3}
{"a":"0123456789abcdefg"}
{"b":"01234"}
{"c":"0123"}
# local documents: the greatest count, ids under which no route puts one, and of several faults the first
> local 18446744073709551615 _local/q" | {"v":{"w":7},"b":""}
{"_id":"_local/q\"","_rev":"0-18446744073709551615","b":"","v":{"w":7}} body {"b":"","v":{"w":7}} id _local/q"
> local 1 _local/x | {}
{"_id":"_local/x","_rev":"0-1"} body {} id _local/x
> local 1 x | {}
bad id
> local 1  | {}
bad id
> local 1 _local | {}
bad id
> local 1 _local/ | {}
bad id
> local 1 _design/x | {}
bad id
> local 1 x | {
not JSON
> local 1 x | [1.5]
not an object
> local 1 x | {"v":1.5}
number out of profile
> local 1 x | {"_deleted":true}
bad id
# ids of local documents, of 8 and 512 bytes, and texts that are none, of 7 and 513 bytes
> local-id x
no id
> local-id _local
no id
> local-id _design/x
no id
> local-id _local_/x
no id
> local-id /_local/x
no id
> local-id _local/
no id
> local-id
no id
> local-id _local/i
id
> local-id _local/iiiiiiiiiiiiiiiiiiiiiiiiiiiiiiiiiiiiiiiiiiiiiiiiiiiiiiiiiiiiiiiiiiiiiiiiiiiiiiiiiiiiiiiiiiiiiiiiiiiiiiiiiiiiiiiiiiiiiiiiiiiiiiiiiiiiiiiiiiiiiiiiiiiiiiiiiiiiiiiiiiiiiiiiiiiiiiiiiiiiiiiiiiiiiiiiiiiiiiiiiiiiiiiiiiiiiiiiiiiiiiiiiiiiiiiiiiiiiiiiiiiiiiiiiiiiiiiiiiiiiiiiiiiiiiiiiiiiiiiiiiiiiiiiiiiiiiiiiiiiiiiiiiiiiiiiiiiiiiiiiiiiiiiiiiiiiiiiiiiiiiiiiiiiiiiiiiiiiiiiiiiiiiiiiiiiiiiiiiiiiiiiiiiiiiiiiiiiiiiiiiiiiiiiiiiiiiiiiiiiiiiiiiiiiiiiiiiiiiiiiiiiiiiiiiiiiiiiiiiiiiiiiiiiiiiiiiiiiiiiiiiiiiiiiiiiiiiiiiiiiiiii
id
> local-id _local/iiiiiiiiiiiiiiiiiiiiiiiiiiiiiiiiiiiiiiiiiiiiiiiiiiiiiiiiiiiiiiiiiiiiiiiiiiiiiiiiiiiiiiiiiiiiiiiiiiiiiiiiiiiiiiiiiiiiiiiiiiiiiiiiiiiiiiiiiiiiiiiiiiiiiiiiiiiiiiiiiiiiiiiiiiiiiiiiiiiiiiiiiiiiiiiiiiiiiiiiiiiiiiiiiiiiiiiiiiiiiiiiiiiiiiiiiiiiiiiiiiiiiiiiiiiiiiiiiiiiiiiiiiiiiiiiiiiiiiiiiiiiiiiiiiiiiiiiiiiiiiiiiiiiiiiiiiiiiiiiiiiiiiiiiiiiiiiiiiiiiiiiiiiiiiiiiiiiiiiiiiiiiiiiiiiiiiiiiiiiiiiiiiiiiiiiiiiiiiiiiiiiiiiiiiiiiiiiiiiiiiiiiiiiiiiiiiiiiiiiiiiiiiiiiiiiiiiiiiiiiiiiiiiiiiiiiiiiiiiiiiiiiiiiiiiiiiiiiiiiiiiiii
no id"#
);

#[test]
fn texts_that_are_read(rt: HostRuntime) -> Result<(), Fail> {
    replay::<Session, _>(&rt, rt.alloc(), DOCUMENTS)
}
