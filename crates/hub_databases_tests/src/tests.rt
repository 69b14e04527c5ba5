//! Parts of a hub's databases that no request shows: the news of changes, handles of removed databases, and
//! threads. `hub_service_tests` shows the rest.
//!
//! The transcripts hold whichever one of their growths is refused, since the command is given once more. The
//! test of threads that wait for one another does not hold then (`locks`).

mod locks;
mod shell;
mod watches;
