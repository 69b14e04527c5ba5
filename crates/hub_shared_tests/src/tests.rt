//! Databases under locks: the answers to threads that share them, as transcripts.
//!
//! Where a growth is refused the call is an error, and the database shows the same as before. The same call
//! then answers as with ample memory. So these tests hold whichever one growth is refused. The growths of the
//! tests themselves are among them, as that of a document's text.

mod followed;
mod handles;
mod holding;
mod polls;
mod receipts;
mod shared;
mod shows;
mod told;
mod watches;
