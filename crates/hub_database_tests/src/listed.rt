//! A list that takes the items of feeds.

ghost use Rattle.std.specs.Prelude.{◌≡◌, [], IfOk};

use hub_feed::{Pushes, Sink};
use std::alloc::{AllocError, Global};
use std::marker::Model;

/// A list with a limit of items, and with the room for all of them from the first.
#[derive(Drop)]
pub(crate) struct Listed<I> {
    items: Vec<I>,
    limit: usize,
    /// Items whose memory may serve the next items.
    spare: Vec<I>,
}

impl<I> Model for Listed<I> {
    ghost use Rattle.std.specs.Prelude.{List, ℕ, ◌≤◌};
    ghost use Rattle.std.specs.Vec.{vec_capacity};

    ghost Value = { List I × ℕ };

    ghost view = { λ a. (a.items.items, a.limit) };

    ghost invariant = { λ a. a.limit ≤ vec_capacity a.items };
}

impl<I> Listed<I> {
    /// A list with no item yet.
    pub(crate) fn new(alloc: Global, limit: usize) -> Result<Listed<I>, AllocError>
        ensures { IfOk result (λ list. list ≡ ([], limit)) }
    {
        Ok(Listed {
            items: Vec::with_capacity(alloc, limit)?,
            limit,
            spare: Vec::new(alloc),
        })
    }

    /// The list with these spare items. It gives up the last one first.
    pub(crate) fn with_spare(self, spare: Vec<I>) -> Listed<I>
    where
        I: Drop,
        ensures { result ≡ self }
    {
        Listed { spare, ..self }
    }

    /// The items that it took, the first item first.
    pub(crate) fn items(&self) -> &[I]
        ensures { result.now ≡ self.now.0 }
    {
        self.items.as_slice()
    }

    /// The items that it took, without the list.
    pub(crate) fn into_items(self) -> Vec<I>
    where
        I: Drop,
        ensures { result.items ≡ self.0 }
    {
        self.items
    }
}

impl<I> Sink<I> for Listed<I> {
    ghost use Rattle.std.specs.Prelude.{⊤, ◌++◌, ◌∷◌, []};

    ghost allows = { λ list items. ⊤ };

    ghost sent = { λ list. list.0 };

    ghost behind = { λ list item. (list.0 ++ item ∷ [], list.1) };

    fn spare(&mut self) -> Option<I> {
        self.spare.pop()
    }
}

/// The handle by which a list gets its items. It has nothing in it.
#[derive(Drop)]
pub(crate) struct NoHandle;

/// An item is refused just where the list holds its limit.
impl<I> Pushes<Listed<I>, I> for NoHandle {
    ghost use Rattle.std.specs.Prelude.{◌≤◌, length};
    ghost use Rattle.std.proofs.Common.{refl};

    ghost refuses = { λ handle list item. list.1 ≤ length list.0 };

    ghost sends = { λ list item. refl };

    ghost keeps = { λ list item items allowed. allowed };

    fn push(&self, sink: &mut Listed<I>, item: I) -> Result<(), I> {
        if sink.limit <= sink.items.len() {
            return Err(item);
        }
        sink.items.push_reserved(item);
        Ok(())
    }
}
