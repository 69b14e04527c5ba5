//! Receipts of stored edits, and their audit.

use crate::tests::shared::Shared;
use hub_transcript::replay;
use std::test::Fail;

const RECEIPTS: &str = r#"
# receipts are of what was stored, go on from the journal, and pass an audit
> audit
Ok(())
> store {"_id":"z"}
1-1bbc04ad09fae01cb66fd53845ad8aa3
> audit
Ok(())
> write {"_id":"a","_rev":"1-a"} {"_id":"b","_rev":"1-b"}
1-a
1-b
2 a 1-a
3 b 1-b
> audit
Ok(())
> write {"_id":"a","_rev":"1-a"} {"_id":"b","_rev":"1-b"} {"_id":"c","_rev":"1-c"} {"_id":"d","_rev":"1-d"} {"_id":"e","_rev":"1-e"}
Known
Known
1-c
1-d
1-e
4 c 1-c
5 d 1-d
6 e 1-e
> audit
Ok(())
> load {"_id":"a","_rev":"1-a"} {"_id":"b","_rev":"1-b"} {"_id":"c","_rev":"1-c"} {"_id":"d","_rev":"1-d"} {"_id":"e","_rev":"1-e"}
> audit
Ok(())

# an audit tells the place of a wrong receipt: it has the number before, none, one above all, another document, another generation, or another hash
> load {"_id":"a","_rev":"1-a"} {"_id":"b","_rev":"1-b"} {"_id":"c","_rev":"1-c"}
1 a 1-a
2 b 1-b
3 c 1-c
> audit 1 1 b 1-b
Err(WrongReceipt { at: 1 })
> audit 1 0 b 1-b
Err(WrongReceipt { at: 1 })
> audit 1 4 b 1-b
Err(WrongReceipt { at: 1 })
> audit 1 2 c 1-b
Err(WrongReceipt { at: 1 })
> audit 1 2 b 2-b
Err(WrongReceipt { at: 1 })
> audit 1 2 b 1-c
Err(WrongReceipt { at: 1 })
> audit 1 2 b 1-b
Ok(())

# and of a receipt at any place: no edit has the sequence of another, the sequence 0, or one behind the last
> load {"_id":"a","_rev":"1-a"} {"_id":"b","_rev":"1-b"} {"_id":"c","_rev":"1-c"} {"_id":"d","_rev":"1-d"} {"_id":"e","_rev":"1-e"}
1 a 1-a
2 b 1-b
3 c 1-c
4 d 1-d
5 e 1-e
> audit 2 2 c 1-c
Err(WrongReceipt { at: 2 })
> audit 2 3 c 1-c
Ok(())
> audit 0 0 a 1-a
Err(WrongReceipt { at: 0 })
> audit 0 1 a 1-a
Ok(())
> audit 4 6 e 1-e
Err(WrongReceipt { at: 4 })
"#;

#[test]
fn receipts_pass_an_audit_and_wrong_ones_are_told(rt: HostRuntime) -> Result<(), Fail> {
    replay::<Shared, _>(&rt, rt.alloc(), RECEIPTS)
}
