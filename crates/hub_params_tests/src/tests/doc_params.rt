//! Parameters of documents.

use crate::tests::asked::Asked;
use hub_transcript::replay;
use std::test::Fail;

const DOCUMENTS: &str = r#"
# revisions
> doc
DocParams { rev: None, open_revs: None, revs: false, new_edits: true }
> doc rev=1-a
DocParams { rev: Some("1-a"), open_revs: None, revs: false, new_edits: true }
> doc rev=
DocParams { rev: Some(""), open_revs: None, revs: false, new_edits: true }
> doc rev
DocParams { rev: Some(""), open_revs: None, revs: false, new_edits: true }
> doc rev=1-a&rev=2-b
DocParams { rev: Some("2-b"), open_revs: None, revs: false, new_edits: true }
> doc rev=1-a&&rev=2%2Db&
DocParams { rev: Some("2-b"), open_revs: None, revs: false, new_edits: true }
> doc %72ev=1-a
DocParams { rev: Some("1-a"), open_revs: None, revs: false, new_edits: true }
> doc Rev=1-a
DocParams { rev: None, open_revs: None, revs: false, new_edits: true }
> doc rev=a=b
DocParams { rev: Some("a=b"), open_revs: None, revs: false, new_edits: true }
> doc rev=a+b
DocParams { rev: Some("a b"), open_revs: None, revs: false, new_edits: true }
> doc rev=%ff
DocParams { rev: Some("�"), open_revs: None, revs: false, new_edits: true }

# open revisions
> doc open_revs=all
DocParams { rev: None, open_revs: Some("all"), revs: false, new_edits: true }
> doc open_revs=%5B%221-a%22%5D
DocParams { rev: None, open_revs: Some("[\"1-a\"]"), revs: false, new_edits: true }

# histories
> doc revs=true
DocParams { rev: None, open_revs: None, revs: true, new_edits: true }
> doc revs=tru%65
DocParams { rev: None, open_revs: None, revs: true, new_edits: true }
> doc revs=false
DocParams { rev: None, open_revs: None, revs: false, new_edits: true }
> doc revs=True
DocParams { rev: None, open_revs: None, revs: false, new_edits: true }
> doc revs=
DocParams { rev: None, open_revs: None, revs: false, new_edits: true }
> doc revs=true&revs=false
DocParams { rev: None, open_revs: None, revs: false, new_edits: true }
> doc revs=x&revs=true
DocParams { rev: None, open_revs: None, revs: true, new_edits: true }

# whether edits are new
> doc new_edits=false
DocParams { rev: None, open_revs: None, revs: false, new_edits: false }
> doc new_edits=true
DocParams { rev: None, open_revs: None, revs: false, new_edits: true }
> doc new_edits=False
DocParams { rev: None, open_revs: None, revs: false, new_edits: true }
> doc new_edits=
DocParams { rev: None, open_revs: None, revs: false, new_edits: true }
> doc new_edits=false&new_edits=x
DocParams { rev: None, open_revs: None, revs: false, new_edits: true }
> doc x=1&new_edits=false&y
DocParams { rev: None, open_revs: None, revs: false, new_edits: false }

# all of them
> doc rev=3-c&open_revs=all&revs=true&new_edits=false
DocParams { rev: Some("3-c"), open_revs: Some("all"), revs: true, new_edits: false }
> doc new_edits=false&revs=true&open_revs=all&rev=3-c
DocParams { rev: Some("3-c"), open_revs: Some("all"), revs: true, new_edits: false }
"#;

#[test]
fn parameters_of_documents(rt: HostRuntime) -> Result<(), Fail> {
    replay::<Asked, _>(&rt, rt.alloc(), DOCUMENTS)
}
