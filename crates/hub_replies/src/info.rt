//! The body with the counts of a database.

ghost use Rattle.std.specs.Prelude.{◌≡◌, IfOk};
ghost use Rattle.hub_replies.specs.Bodies.{info_body};

use hub_database::Info;
use hub_document::{put_quoted, put_sequence};
use itoa::Buffer;
use std::alloc::{AllocError, Global};

/// The name of a database, its counts and its latest sequence (CouchDB API reference, `GET /{db}`). It costs
/// the text's length.
pub fn info_body(alloc: Global, name: &str, info: &Info) -> Result<Vec<u8>, AllocError>
    ensures { IfOk result (λ t. t.items ≡ info_body name.now info.now) }
{
    let mut number = Buffer::new();
    let mut text = Vec::from_slice(alloc, b"{\"db_name\":")?;
    put_quoted(&mut text, name)?;
    text.extend_from_slice(b",\"doc_count\":")?;
    text.extend_from_slice(number.format(info.doc_count).as_bytes())?;
    text.extend_from_slice(b",\"doc_del_count\":")?;
    text.extend_from_slice(number.format(info.doc_del_count).as_bytes())?;
    text.extend_from_slice(b",\"update_seq\":")?;
    put_sequence(&mut text, info.update_seq, info.life)?;
    text.extend_from_slice(b",\"instance_start_time\":\"0\"}\n")?;
    Ok(text)
}
