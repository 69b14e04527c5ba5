//! The outboxes of feeds, by the numbers of the feeds.

ghost use Rattle.std.specs.Prelude.{◌≡◌, Some, None, IfNone, IfSome};
ghost use Rattle.hub_model.specs.Entries.{entry_in, without, AreRising};

use hub_model::place_of;

/// Takes the outbox of the feed of this number out, if there is one. The cost is a binary search, and a move
/// of the outboxes behind it.
pub(crate) fn remove<K>(outboxes: &mut Vec<(u64, K)>, feed: u64) -> Option<K>
    requires rising { AreRising outboxes.old.items }
    ensures outbox { result ≡ entry_in feed outboxes.old.items }
    ensures others { outboxes.new.items ≡ without feed outboxes.old.items }
{
    let at = place_of(outboxes.as_slice(), feed)?;
    let (_, outbox) = outboxes.remove(at);
    Some(outbox)
}

/// The outbox of the feed of this number, if there is one. The cost is a binary search.
pub(crate) fn outbox_of<K>(outboxes: &[(u64, K)], feed: u64) -> Option<&K>
    requires rising { AreRising outboxes.now }
    ensures found { IfSome result (λ k. entry_in feed outboxes.now ≡ Some k.now) }
    ensures none { IfNone result (entry_in feed outboxes.now ≡ None) }
{
    let at = place_of(outboxes, feed)?;
    let entry = &outboxes[at];
    Some(&entry.1)
}
