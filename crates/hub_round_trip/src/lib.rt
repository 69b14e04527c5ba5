//! Documents are read back as they were written. The crate stands at the side, so that `hub_follower` alone
//! waits for its proofs.
#![tactic(auto)]

ghost use Rattle.hub_round_trip.specs.RoundTrip.{ReadsAreDocs, DocsRead, DocsReadBack};

#[cfg(test)]
mod tests;

/// The text that `Doc::write` writes reads as the same document. This holds of each document that `Doc::read`
/// gives, and of any other document of that form (`IsDoc`).
pub fn documents_read_back()
    ensures docs { ReadsAreDocs }
    ensures read { DocsRead }
    ensures back { DocsReadBack }
{}
