//! A database that lies under a lock.

ghost use Rattle.std.specs.Prelude.{◌≡◌, ◌<◌, ◌^◌, true, false, ℕ, length, Some, IfErr, OnOk};
ghost use Rattle.hub_database.specs.Feeds.{deleted_database};
ghost use Rattle.hub_model.specs.Entries.{entry_in};
ghost use Rattle.hub_model.specs.Feed.{Feed};
ghost use Rattle.hub_model.specs.Journal.{IsLegal};
ghost use Rattle.hub_model.specs.RightlyHanded.{RightlyHanded};
ghost use Rattle.hub_model.specs.RowKind.{change_rows};
ghost use Rattle.hub_model.specs.declared.outcomes.Fault.TheVariants.{Deleted};
ghost use Rattle.hub_params.specs.FeedModel.{params_in};
ghost use Rattle.hub_shared.specs.Handles.{IsFoundBy, handle_of};

use crate::count::Count;
use crate::locked::Locked;
use crate::outbox::Outbox;
use hub_database::{DbFault, DbState};

impl<C: Count, K: Outbox<DbState>> Locked<DbState, C, K> {
    /// The number of edits. Whenever a lock gives a database, its journal is legal. The items sent for each
    /// feed that is not finished are rightly handed for that journal, under the feed's own parameters and
    /// since. Constant time.
    pub fn feeds_are_right(&self) -> u64
        ensures edits { (result ≡ length self.now.state.journal) × (result < 2 ^ 32) }
        ensures legal { IsLegal self.now.state.journal }
        ensures asks { (number : ℕ) (f : Feed) (s : K)
            → entry_in number self.now.state.feeds ≡ Some f → entry_in number self.now.senders ≡ Some s
            → (params_in (K.label s).asked ≡ f.params) × ((K.label s).since ≡ f.since) }
        ensures right { (number : ℕ) (f : Feed) (s : K)
            → entry_in number self.now.state.feeds ≡ Some f → entry_in number self.now.senders ≡ Some s
            → RightlyHanded change_rows self.now.state.journal f (K.items s) }
        ensures served { (number : ℕ) (f : Feed) → entry_in number self.now.state.feeds ≡ Some f
            → (s : K) × (entry_in number self.now.senders ≡ Some s) }
    {
        self.state.update_seq()
    }

    /// The number of edits, by a call that shows how a share stands to them. Nothing changes.
    pub(crate) fn audit_share(&mut self, share: &mut C::Share) -> u64
        ensures edits { (result ≡ length self.old.state.journal) × (result < 2 ^ 32) }
        ensures found { IsFoundBy C.counts C.all_parts (handle_of C.parts C.amount share.old) self.old.state }
        ensures within { C.amount share.old < 2 ^ 32 }
        ensures same { (self.new ≡ self.old) × (C.amount share.new ≡ C.amount share.old)
            × (C.parts share.new ≡ C.parts share.old) }
    {
        C::audit(&mut self.book, share);
        self.feeds_are_right()
    }

    /// Deletes the database, ends its open feeds, and tells the feeds that wait. An open feed has only its
    /// End left to hand. It takes no memory. The cost is a step for each feed.
    pub fn delete(&mut self) -> Result<(), DbFault>
        ensures ok { OnOk result ((self.old.state.deleted ≡ false)
            × (self.new ≡ record self.old { state = deleted_database self.old.state })) }
        ensures err { IfErr result (λ e. (self.old.state.deleted ≡ true)
            × (e ≡ DbFault.Refused Deleted) × (self.new ≡ self.old)) }
    {
        self.tell();
        self.state.delete()
    }
}
