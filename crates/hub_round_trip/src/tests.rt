//! Documents that are written and read back.

use hub_document::Doc;
use std::alloc::Global;
use std::test::Fail;

// The text that is written for the document of a text.
fn written(alloc: Global, text: &[u8], new_edits: bool) -> Result<Vec<u8>, Fail> {
    let doc = Doc::read(alloc, text, new_edits)?;
    let mut out = Vec::new(alloc);
    doc.write(&mut out)?;
    Ok(out)
}

#[test]
fn written_and_read_back(rt: HostRuntime) -> Result<(), Fail> {
    let alloc = rt.alloc();
    let cases = [
        (
            true,
            r#"{"b":[1,{"d":-2,"c":"\u00e9\n"}],"_id":"x"}"#,
            r#"{"_id":"x","b":[1,{"c":"é\n","d":-2}]}"#,
        ),
        (
            true,
            r#" {"_deleted":true, "_rev":"3-c", "_id":"_design/a"} "#,
            r#"{"_id":"_design/a","_rev":"3-c","_deleted":true}"#,
        ),
        (
            false,
            concat!(
                r#"{"A":null,"_id":"\"","_revisions":{"ids":["c","a"],"start":2},"#,
                r#""a":18446744073709551615,"_deleted":false,"":-9223372036854775808}"#
            ),
            concat!(
                r#"{"_id":"\"","_rev":"2-c","_revisions":{"start":2,"ids":["c","a"]},"#,
                r#""":-9223372036854775808,"A":null,"a":18446744073709551615}"#
            ),
        ),
        (
            false,
            r#"{"_id":"a","_rev":"1-a"}"#,
            r#"{"_id":"a","_rev":"1-a","_revisions":{"start":1,"ids":["a"]}}"#,
        ),
    ];
    for (new_edits, text, expected) in cases {
        let first = written(alloc, text.as_bytes(), new_edits)?;
        assert_eq!(rt; first.as_slice(), expected.as_bytes(), "{text}");
        let again = written(alloc, first.as_slice(), new_edits)?;
        assert_eq!(rt; again.as_slice(), expected.as_bytes(), "{text}");
    }
    Ok(())
}
