//! Parameters as transcripts read them.

mod asked;
mod doc_params;
mod feed_params;
mod feed_starts;
mod surface;
