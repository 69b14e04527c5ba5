//! A database as it was when it had fewer edits.

ghost use Rattle.std.specs.Prelude.{◌≡◌, ◌≤◌, ◌<◌, ◌+◌, List, [], length, IfOk, OnErr};
ghost use Rattle.hub_model.specs.Journal.{Edit, IsLegal};
ghost use Rattle.hub_follower.specs.Listing.{all_above, IsListable};
ghost use Rattle.hub_follower.specs.Rebuilt.{IsRebuildable, IsRebuilt, IsRebuiltTo};

use crate::serving;
use hub_database::DbState;
use hub_document::{ChangeRow, Limits};
use std::alloc::{AllocError, Global};

// Stores the edit of this sequence in a copy that has the edits before it.
fn add_edit(alloc: Global, db: &DbState, copy: &mut DbState, seq: u64) -> Result<(), AllocError>
    requires copy { IsRebuildable seq db.now.journal copy.old }
    requires next { length copy.old.journal + 1 ≡ seq }
    ensures { IsRebuiltTo seq db.now.journal result copy.new }
{
    let Some(doc) = db.entry_doc(seq)? else {
        return Ok(());
    };
    let mut docs = Vec::new(alloc);
    docs.push(doc)?;
    drop(serving::merged(alloc, copy, docs.as_slice())?);
    Ok(())
}

/// A copy without edits, of any legal journal that a hub's limit allows. It takes no memory.
pub(crate) fn no_edits(alloc: Global) -> DbState
    ensures copy { (J : List Edit) → IsLegal J → length J ≤ 4294967295 → IsRebuilt J result }
    ensures journal { result.journal ≡ [] }
{
    DbState::new(alloc, Limits::full(), 1)
}

/// Makes a copy the database as it was when it had `edits` edits. The cost is the storing of the edits that
/// the copy lacks, and of all of them where the copy has more.
pub(crate) fn rebuild(
    alloc: Global,
    db: &DbState,
    copy: &mut DbState,
    edits: u64,
) -> Result<(), AllocError>
    requires { IsRebuildable edits db.now.journal copy.old }
    ensures { IsRebuiltTo edits db.now.journal result copy.new }
{
    if edits < copy.update_seq() {
        *copy = no_edits(alloc);
    }
    for count in copy.update_seq()..edits {
        add_edit(alloc, db, copy, count + 1)?;
    }
    Ok(())
}

/// All current rows above a sequence, with every leaf, rising. The cost is that of making these rows.
pub(crate) fn rows_above(db: &DbState, since: u64) -> Result<Vec<ChangeRow>, AllocError>
    requires { IsListable db.now since }
    ensures ok { IfOk result (λ rows. rows.items ≡ all_above db.now.journal since) }
    ensures memory { OnErr result (0 < length db.now.journal) }
{
    match db.changes_descending(&serving::listing_after(since)) {
        Ok(answer) => {
            let mut rows = answer.rows;
            rows.reverse();
            Ok(rows)
        }
        Err(_) => Err(AllocError),
    }
}
