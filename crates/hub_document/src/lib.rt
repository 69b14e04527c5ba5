//! Documents and their revisions, as JSON texts bring them (CouchDB API reference, documents).
#![tactic(auto)]

mod asked;
mod body;
mod change_row;
mod changes;
mod doc;
mod doc_id;
mod history;
mod limits;
mod local_doc;
mod made;
mod members;
mod numbers;
mod open_revs;
mod path;
mod plain;
mod put;
mod read;
mod revision;
mod revisions;
mod sequence;
mod text;
mod update_row;
mod value;
mod write;

pub use asked::{Asked, read_asked};
pub use body::Body;
pub use change_row::ChangeRow;
pub use changes::{Changes, LentChanges};
pub use doc::{Doc, DocFault};
pub use doc_id::DocId;
pub use hub_model::{Item, Mode};
pub use limits::Limits;
pub use local_doc::{LocalDoc, LocalId, write_local};
pub use made::rev_of_edit;
pub use open_revs::OpenRevs;
pub use path::Path;
pub use plain::is_plain;
pub use put::put_doc;
pub use read::{read_doc, read_value};
pub use revision::{DigestRev, RevId, revision_texts};
pub use revisions::Revisions;
pub use sequence::put_sequence;
pub use text::put_quoted;
pub use update_row::UpdateRow;
pub use value::JsonRoom;
