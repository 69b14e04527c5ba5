//! The documents of a write.

use hub_document::Doc;
use std::marker::Model;

/// The documents of one event, in order. Contracts see their list.
#[derive(Debug, Drop)]
pub struct Docs {
    pub list: Vec<Doc>,
}

impl Model for Docs {
    ghost use Rattle.std.specs.Prelude.{List};
    ghost use Rattle.hub_document.specs.declared.doc.Doc.{Doc};

    ghost Value = { List Doc };

    ghost view = { λ a. a.list.items };
}
