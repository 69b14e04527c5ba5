//! The ids of documents by number.

ghost use Rattle.std.specs.Prelude.{◌≡◌};
ghost use Rattle.hub_index.specs.Order.{IsOrder, number_in};
ghost use Rattle.hub_database.specs.Documents.{files};
ghost use Rattle.hub_database.specs.Filed.{HasNumbers, ids_of};

use crate::document::Document;
use hub_index::{IdHints, IdOrder, Named};

/// The documents of a database, each with its id.
#[derive(Drop)]
pub(crate) struct Ids<'a> {
    pub(crate) documents: &'a [Document],
}

impl<'a> Named for Ids<'a> {
    ghost ids = { λ s. ids_of (files s.documents.now) };

    fn id(&self, number: u32) -> &str {
        match self.documents.get(number as usize) {
            Some(document) => document.id.as_str(),
            None => "",
        }
    }
}

impl Ids<'_> {
    /// The number of the document with this id. Where the number is remembered, the call mostly compares
    /// one id. Else it compares logarithmically many.
    pub(crate) fn number_of(&self, numbers: &IdOrder, hints: &IdHints, id: &str) -> Option<u32>
        requires order { IsOrder (ids_of (files self.now.documents.now)) numbers.now }
        requires own { HasNumbers (files self.now.documents.now) numbers.now }
        ensures { result ≡ number_in (ids_of (files self.now.documents.now)) numbers.now id.now }
    {
        match hints.find(self, id) {
            Some(number) => Some(number),
            None => numbers.find(self, id),
        }
    }
}
