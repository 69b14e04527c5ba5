//! Ids by number.

ghost use Rattle.std.specs.Prelude.{map, string_bytes};

use hub_index::Named;
use std::cell::Cell;

/// Ids by number.
#[derive(Drop)]
pub(crate) struct Ids {
    pub(crate) list: Vec<String>,
}

impl Named for Ids {
    ghost ids = { λ s. map string_bytes s.list.items };

    fn id(&self, number: u32) -> &str {
        match self.list.get(number as usize) {
            Some(id) => id.as_str(),
            None => "",
        }
    }
}

/// Ids by number, with a count of the ids that were looked at.
#[derive(Drop)]
pub(crate) struct Looked<'a> {
    pub(crate) ids: &'a Ids,
    pub(crate) count: Cell<u64>,
}

impl<'a> Named for Looked<'a> {
    ghost ids = { λ s. map string_bytes s.ids.now.list.items };

    fn id(&self, number: u32) -> &str {
        self.count.set(self.count.get().wrapping_add(1));
        self.ids.id(number)
    }
}
