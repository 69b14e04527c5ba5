//! Writes to a database that lies under a lock.

ghost use Rattle.std.specs.Prelude.{◌≡◌, ◌+◌, ◌<◌, ◌^◌, true, Ok, Err, IfOk, IfErr, OnErr, OnOk};
ghost use Rattle.hub_model.specs.Journal.{IsLegal};
ghost use Rattle.hub_database.specs.Receipts.{receipts_from};
ghost use Rattle.hub_shared.specs.Handles.{HasRisen, IsEditedBy, IsStoredBy, handle_of};
ghost use Rattle.hub_shared.specs.Stored.{Adds, IsOutOfMemoryFor, StoresBatch, batch_of, stored_count};
ghost use Rattle.hub_shared.specs.Writes.{Stores};

use crate::count::{Count, NoCount};
use crate::locked::Locked;
use crate::outbox::Outbox;
use hub_database::{Batch, DbFault, DbState, Receipt, ReceiptRoom, Replies};
use hub_document::{Doc, RevId};

/// The result of a write.
#[derive(Debug, Drop)]
pub struct Accepted {
    /// The reply to each document, in order. Where the write stopped: to each document before the stop.
    pub replies: Replies,
    /// Whether memory ran out at the document after those.
    pub stopped: bool,
    /// The receipts of the documents that were stored, in order.
    pub receipts: Vec<Receipt>,
}

impl Accepted {
    /// The result of a batch that was stored after so many edits. Its receipts fill the room that was made
    /// for them. It takes no memory. The cost is a step for each document.
    pub(crate) fn new(batch: Batch, edits: u64, room: ReceiptRoom) -> Accepted
        requires edits { edits < 2 ^ 32 }
        ensures batch { batch_of result ≡ batch }
        ensures receipts { result.receipts.items ≡ receipts_from edits room batch.replies }
    {
        let receipts = room.fill(edits, batch.replies.as_slice());
        Accepted {
            replies: batch.replies,
            stopped: batch.stopped,
            receipts,
        }
    }
}

impl Locked<DbState> {
    /// Stores documents one after the other, as `store`, and gives a receipt of each stored document. The
    /// memory for the receipts is taken before any edit. The call fails only where there is no memory for the
    /// receipts or the list of replies, and then nothing changes. The cost is that of `store`, and copies of
    /// the documents' ids.
    pub fn write(&mut self, docs: Vec<Doc>, new_edits: bool) -> Result<Accepted, DbFault>
        ensures ok { IfOk result (λ a. Stores new_edits docs.items self.old.state a self.new.state) }
        ensures legal { IsLegal self.new.state.journal }
        ensures rest { self.new ≡ record self.old { state = self.new.state } }
        ensures err { IfErr result (λ e. IsOutOfMemoryFor docs.items e × (self.new ≡ self.old)) }
    {
        let edits = self.feeds_are_right();
        let room = ReceiptRoom::of(self.alloc, docs.as_slice())?;
        let (batch, _) = self.store(&mut NoCount, docs, new_edits)?;
        Ok(Accepted::new(batch, edits, room))
    }
}

impl<C: Count, K: Outbox<DbState>> Locked<DbState, C, K> {
    /// Stores one edit whose revision is made here, counts it, and tells the feeds that wait. The revision
    /// comes with the rise of the share's amount. It takes no memory beside that of `DbState::write_one`.
    pub(crate) fn write_one(
        &mut self,
        share: &mut C::Share,
        doc: Doc,
    ) -> Result<(RevId, u64), DbFault>
        requires part { C.counts ≡ true → 0 < C.parts share.old }
        ensures edited { IfOk result (λ w. IsEditedBy C.counts C.all_parts
            (handle_of C.parts C.amount share.old) doc (Ok w.0)) }
        ensures refused { IfErr result (λ e. IsEditedBy C.counts C.all_parts
            (handle_of C.parts C.amount share.old) doc (Err e)) }
        ensures adds { OnOk result (Adds 1 self.old.state self.new.state
            × (self.new ≡ record self.old { state = self.new.state })) }
        ensures risen { IfOk result (λ w. HasRisen C.counts 1 w.1
            (handle_of C.parts C.amount share.old) (handle_of C.parts C.amount share.new)) }
        ensures err { OnErr result ((self.new ≡ self.old) × (C.amount share.new ≡ C.amount share.old)
            × (C.parts share.new ≡ C.parts share.old)) }
    {
        let before = self.audit_share(share);
        let rev = self.state.write_one(doc)?;
        let edits = self.state.update_seq() - before;
        let rise = C::add(&mut self.book, share, edits);
        self.tell();
        Ok((rev, rise))
    }

    /// Stores documents, as `DbState::write_edits`, counts the stored ones, and tells the feeds that wait.
    /// The batch comes with the rise of the share's amount. The cost is that of `write_edits` and a look at
    /// each feed.
    pub fn store(
        &mut self,
        share: &mut C::Share,
        docs: Vec<Doc>,
        new_edits: bool,
    ) -> Result<(Batch, u64), DbFault>
        requires part { C.counts ≡ true → 0 < C.parts share.old }
        ensures batch { IfOk result (λ w.
            StoresBatch new_edits docs.items self.old.state w.0 self.new.state) }
        ensures stored { IfOk result (λ w. IsStoredBy C.counts C.all_parts
            (handle_of C.parts C.amount share.old) new_edits docs.items w.0) }
        ensures adds { IfOk result (λ w. Adds (stored_count w.0.replies) self.old.state self.new.state
            × (self.new ≡ record self.old { state = self.new.state })) }
        ensures risen { IfOk result (λ w. HasRisen C.counts (stored_count w.0.replies) w.1
            (handle_of C.parts C.amount share.old) (handle_of C.parts C.amount share.new)) }
        ensures err { IfErr result (λ e. IsOutOfMemoryFor docs.items e × (self.new ≡ self.old)
            × (C.amount share.new ≡ C.amount share.old) × (C.parts share.new ≡ C.parts share.old)) }
    {
        let before = self.audit_share(share);
        let batch = self.state.write_edits(docs, new_edits)?;
        let edits = self.state.update_seq() - before;
        let rise = C::add(&mut self.book, share, edits);
        self.tell();
        Ok((batch, rise))
    }
}
