//! The names of the databases.

ghost use Rattle.std.specs.Prelude.{◌≡◌, map, IfOk, string_bytes};
ghost use Rattle.json.specs.Print.{quoted};
ghost use Rattle.hub_replies.specs.Bodies.{names_body};

use crate::texts::{Member, list_body};
use hub_document::put_quoted;
use std::alloc::{AllocError, Global};

impl Member for String {
    ghost text = { λ name. quoted (string_bytes name) };

    fn put(&self, out: &mut Vec<u8>) -> Result<(), AllocError> {
        put_quoted(out, self.as_str())
    }
}

/// The names of the databases, in the order given (CouchDB API reference, `GET /_all_dbs`). It costs
/// the text's length.
pub fn names_body(alloc: Global, names: &[String]) -> Result<Vec<u8>, AllocError>
    ensures { IfOk result (λ t. t.items ≡ names_body (map string_bytes names.now)) }
{
    list_body(alloc, names)
}
