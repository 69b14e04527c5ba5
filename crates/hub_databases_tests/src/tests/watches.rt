//! The feeds that learn of a change of a hub: feeds of the changed database, and feeds of the log of updates.
//! And the answers to handles of a removed database.

use crate::tests::shell::Shell;
use hub_transcript::replay;
use std::test::Fail;

// A write to the database and its removal give news to both feeds. Another name gives news to the log alone.
const CHANGES: &str = r#"
# changes of a hub are told
> create d
Ok(())
> find d
d
> follow
> follow-log
> news
> write
stored
> news
bell
database
log
> news
> create e
Ok(())
> news
bell
log
> create e
Err(Exists)
> news
> remove e
Ok(())
> news
bell
log
> remove d
Ok(())
> news
bell
database
log
> finish
> create e
Ok(())
> news
"#;

/// A write and a removal give news to both feeds, and a call on another name to the log's feed alone.
#[test]
fn changes_of_a_hub_are_told(rt: HostRuntime) -> Result<(), Fail> {
    replay::<Shell, _>(&rt, rt.alloc(), CHANGES)
}

const HELD: &str = r#"
# a removed database refuses writes, and a new one of its name is another
> create a
Ok(())
> find a
a
> remove a
Ok(())
> create a
Ok(())
> write
[Refused(Deleted)]
> find a
a
> write
stored
# a text without a byte, which no path names, is no name
> create
Err(BadName)
> find
Err(BadName)
> remove
Err(BadName)
"#;

/// A handle of a removed database is refused, also where a new database has its name.
#[test]
fn a_removed_database_refuses_writes(rt: HostRuntime) -> Result<(), Fail> {
    replay::<Shell, _>(&rt, rt.alloc(), HELD)
}

const REMOVED: &str = r#"
# a feed that follows a database ends where the database did
> create d
Ok(())
> find d
d
> write
stored
> follow
> hand
Nothing
> remove d
Ok(())
> hand
End
> take
the end at the last document, pending 0
> take
None
"#;

/// A feed that waits comes to its end where its database is removed.
#[test]
fn a_feed_of_a_removed_database_ends(rt: HostRuntime) -> Result<(), Fail> {
    replay::<Shell, _>(&rt, rt.alloc(), REMOVED)
}
