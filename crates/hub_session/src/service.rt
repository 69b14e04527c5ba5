//! The service of a session: it answers requests.
ghost use Rattle.hub_http.specs.Stream.{asked_by};
ghost use Rattle.hub_session.specs.Feeds.{SendsNext};
ghost use Rattle.hub_session.specs.Rules.{Rules};

use crate::item::{Sending, SentItem};
use hub_http::{ChunkWriter, Output, Reply, Request};
use hub_model::Mode;

/// The answer of a service to a request.
#[derive(Debug, Drop)]
pub enum Answer {
    /// One text.
    Whole(Reply),
    /// A feed of changes or of updates, with its mode and the number of the life of its sequences. Its items
    /// are sent one by one, by `send_next`.
    Stream(Mode, u64),
}

/// A service answers requests, and sends the items of the stream that it answered last.
pub trait Service {
    /// Its rules: the answers to requests, the items of its stream, and how a stream is dropped.
    ghost rules: { Rules Self };

    /// The answer to a request. Out of memory is an answer too.
    fn answer(&mut self, request: &Request) -> Answer
        ensures { rules.answers self.old (asked_by request.now) result self.new };

    /// Whether `send_next` would send an item at once. The answer decides when a stream is flushed, and no byte
    /// of it. Before an item that is said to be ready, written bytes may lie unseen until the item comes. After
    /// an End it is not called.
    fn is_ready(&self) -> bool;

    /// Sends the next item of the stream: `sending.send` writes its text. `None` says that there is no next
    /// item, as out of memory. The call may wait for an item. After an End it is not made.
    fn send_next<W: Output>(
        &mut self,
        sending: Sending,
        chunks: &mut ChunkWriter,
        writer: &mut W,
    ) -> Option<SentItem>
        ensures { SendsNext rules.gives W.written W.fault_count W.failure_count sending result
            self.old self.new writer.old writer.new };

    /// Whether a stream that had no next item waits, and may have one later. Else the stream stops. A service
    /// that waits for items in `send_next` has no stream that waits, as this body says.
    fn waits(&self) -> bool {
        false
    }

    /// Drops the stream that was answered last: it is not sent on, and the service gives back all that the
    /// stream holds. After the End of a stream this is not called.
    fn drop_stream(&mut self)
        ensures { rules.drops self.old self.new };
}
