//! Sessions that are stepped.
ghost use Rattle.std.specs.Prelude.{◌≡◌, ◌<◌, ◌⊎◌, [], false, length, IsSome, OnOk, OnErr};
ghost use Rattle.hub_http.specs.Boxes.{Transfers, arrived_bytes, faults_in, transferred_bytes, is_over, pending_in};
ghost use Rattle.hub_http.specs.Counts.{HasGrown};
ghost use Rattle.hub_session.specs.Runs.{HasRun, IsGivenUp, IsStepFrom, IsStepped};
ghost use Rattle.hub_session.specs.Runs.{RunsOn, TellsNoMemory, closing_at, new_run, offered_to};
ghost use Rattle.hub_session.specs.Runs.{place_behind, run_offered, session_view, step_behind, with_gone, with_offered};

use crate::answering::{Begun, after_stream, answer_fault, begin_answer};
use crate::closing::{Closing, StreamEnd};
use crate::feed::after_item;
use crate::item::Sending;
use crate::service::Service;
use hub_http::{ChunkWriter, HttpFault, Inbox, Next, Outbox, Transfer};
use std::alloc::{AllocError, Global};
use std::io::Write;

/// A stream waits for room once so many bytes are in the outbox.
const FULL: usize = 65_536;

/// The result of a step.
#[derive(Clone, Copy, Debug, PartialEq, Eq)]
pub enum Step {
    /// An answer, the head of a stream or an item was put into the outbox: step again.
    Served,
    /// The bytes that came are no whole request: offer more, or say that no more come.
    WantsInput,
    /// The outbox has to go first: all of it before a request, down to less than 64 KiB before an item.
    WantsRoom,
    /// The stream has no item yet: step again when it may have one.
    WantsNews,
    /// The session closed. The bytes in the outbox still have to go.
    Ended(Closing),
}

/// The place of a session.
#[derive(Clone, Copy)]
pub(crate) enum Place {
    /// Between two requests.
    Between,
    /// Within the answer to a request. The flag says whether that request asked to close.
    Within(Sending, bool),
    /// The session closed for this reason.
    Closed(Closing),
}

/// A session over bytes that are offered, whoever runs it. Only its service and the writer of `send_to` may
/// wait or call the system. The texts that a session writes lie in its outbox until they went.
#[derive(Drop)]
pub struct Session<S> {
    alloc: Global,
    inbox: Inbox,
    outbox: Outbox,
    /// The writer of chunks for the items of a stream.
    chunks: ChunkWriter,
    service: S,
    place: Place,
    /// Whether the stream sent an item since it had none to send.
    is_sending: bool,
}

impl<S: Service> Session<S> {
    /// A session to which nothing was offered, with an empty outbox.
    pub fn new(alloc: Global, outbox: Outbox, service: S) -> Session<S>
        requires { pending_in outbox ≡ [] }
        ensures run { HasRun S.rules (new_run service) (session_view result) }
        ensures open { (session_view result).over ≡ false }
    {
        Session {
            alloc,
            inbox: Inbox::new(alloc),
            outbox,
            chunks: ChunkWriter::new(alloc),
            service,
            place: Place::Between,
            is_sending: false,
        }
    }

    /// Sets the place after an answer: closed for a reason, or between two requests.
    fn go_behind(&mut self, next: Option<Closing>) -> Step
        ensures step { result ≡ step_behind next }
        ensures shown { session_view self.new ≡ record (session_view self.old) { place = place_behind next } }
        ensures outbox { self.new.outbox ≡ self.old.outbox }
    {
        match next {
            None => {
                self.place = Place::Between;
                Step::Served
            }
            Some(closing) => {
                self.place = Place::Closed(closing);
                Step::Ended(closing)
            }
        }
    }

    /// Answers the next request, where the outbox is empty and the request came whole.
    fn take_request(&mut self) -> Step
        ensures { IsStepFrom Place.Between S.rules self.old result self.new }
    {
        if !self.outbox.is_empty() {
            return Step::WantsRoom;
        }
        match self.inbox.next() {
            Ok(Next::Whole(request)) => {
                match begin_answer(self.alloc, &mut self.outbox, &mut self.service, &request) {
                    Begun::Answered(next) => self.go_behind(next),
                    Begun::Streaming(sending) => {
                        self.place = Place::Within(sending, request.close);
                        Step::Served
                    }
                }
            }
            Ok(Next::NotYet) => Step::WantsInput,
            Ok(Next::End) => self.go_behind(Some(Closing::Finished)),
            Err(HttpFault::Ended) => self.go_behind(Some(Closing::Fault(HttpFault::Ended))),
            Err(fault) => {
                let closing = answer_fault(self.alloc, &mut self.outbox, fault);
                self.go_behind(Some(closing))
            }
        }
    }

    /// Sends the next item of a stream, where the outbox has room and the stream has an item.
    fn send_item(&mut self, sending: Sending, close: bool) -> Step
        ensures { IsStepFrom (Place.Within sending close) S.rules self.old result self.new }
    {
        if self.outbox.holds(FULL) {
            return Step::WantsRoom;
        }
        if sending.rows == u64::MAX {
            self.service.drop_stream();
            return self.go_behind(after_stream(close, StreamEnd::Exhausted));
        }
        let sent = self
            .service
            .send_next(sending, &mut self.chunks, &mut self.outbox);
        if sent.is_none() && self.service.waits() {
            self.chunks = ChunkWriter::new(self.alloc);
            self.is_sending = false;
            return Step::WantsNews;
        }
        self.is_sending = true;
        match after_item(&mut self.outbox, &mut self.service, sending, sent) {
            Ok(rows) => {
                self.place = Place::Within(Sending { rows, ..sending }, close);
                Step::Served
            }
            Err(end) => self.go_behind(after_stream(close, end)),
        }
    }

    /// Goes on by one exchange, by the head of a stream, or by one item of it. A request is answered only
    /// where the outbox is empty: then only the items of a stream take memory of the outbox. Where the
    /// outbox finds no memory all the same, the session closes as `Broken`, with a front of the last text.
    pub fn step(&mut self) -> Step
        ensures told { IsStepped S.rules (session_view self.old) result (session_view self.new) }
        ensures run { RunsOn S.rules (λ run. run) (session_view self.old) (session_view self.new) }
        ensures broken { result ≡ Step.Ended Closing.Broken
            → ((session_view self.old).place ≡ Place.Closed Closing.Broken)
            ⊎ HasGrown (faults_in self.old.outbox) (faults_in self.new.outbox) }
    {
        match self.place {
            Place::Between => self.take_request(),
            Place::Within(sending, close) => self.send_item(sending, close),
            Place::Closed(closing) => Step::Ended(closing),
        }
    }

    /// Offers bytes that came, after those that were offered before. An empty slice says that no more come.
    /// Bytes after that are dropped, since they would be no part of the session. An error changes nothing:
    /// the bytes may be offered again.
    pub fn offer(&mut self, bytes: &[u8]) -> Result<(), AllocError>
        ensures ok { OnOk result (session_view self.new
            ≡ offered_to (session_view self.old).over bytes.now (session_view self.old)) }
        ensures run { OnOk result (RunsOn S.rules (run_offered (session_view self.old).over bytes.now)
            (session_view self.old) (session_view self.new)) }
        ensures err { OnErr result ((session_view self.new ≡ session_view self.old) × ((session_view self.new).over ≡ false)) }
    {
        if self.inbox.is_over() {
            return Ok(());
        }
        if bytes.is_empty() {
            self.inbox.end();
            return Ok(());
        }
        self.inbox.offer(bytes)
    }

    /// Bytes came that found no memory, and they are lost. Between two requests the session answers them as
    /// out of memory, and closes. An empty outbox has room for that answer. At another place, and where
    /// there are no bytes, the session is given up.
    pub fn close_out_of_memory(&mut self, bytes: &[u8])
        requires { (session_view self.old).over ≡ false }
        ensures told { (session_view self.old).place ≡ Place.Between → 0 < length bytes.now
            → TellsNoMemory (session_view self.old) (session_view self.new) }
        ensures elsewhere { ((session_view self.old).place ≡ Place.Between → bytes.now ≡ [])
            → IsGivenUp S.rules (session_view self.old) (session_view self.new) }
        ensures closed { IsSome (closing_at (session_view self.new).place) }
        ensures broken { (session_view self.old).place ≡ Place.Between → 0 < length bytes.now
            → (session_view self.new).place ≡ Place.Closed Closing.Broken
            → HasGrown (faults_in self.old.outbox) (faults_in self.new.outbox) }
        ensures run { RunsOn S.rules (λ run. with_offered run bytes.now) (session_view self.old) (session_view self.new) }
    {
        if bytes.is_empty() {
            return self.give_up();
        }
        match self.place {
            Place::Between => {
                let closing = answer_fault(self.alloc, &mut self.outbox, HttpFault::NoMemory);
                self.go_behind(Some(closing));
            }
            Place::Within(..) | Place::Closed(_) => self.give_up(),
        }
    }

    /// Hands a front of the outbox to a writer, by one write. The bytes that were not taken stay in it.
    pub fn send_to<W: Write>(&mut self, writer: &mut W) -> Transfer
        ensures handed { Transfers result (session_view self.old).pending (session_view self.new).pending
            (W.contents writer.old) (W.contents writer.new) }
        ensures shown { session_view self.new
            ≡ record (session_view self.old) { pending = (session_view self.new).pending } }
        ensures run { RunsOn S.rules (λ run. with_gone run (transferred_bytes result (session_view self.old).pending))
            (session_view self.old) (session_view self.new) }
    {
        let handed = self.outbox.send_to(writer);
        // A stream that sent items since its last wait has more to send: the outbox keeps its room.
        if !matches!(self.place, Place::Within(..)) || !self.is_sending {
            self.outbox.release();
        }
        handed
    }

    /// Gives up a session whose other side is gone. It closes as `Broken`, and its service drops its stream.
    /// A session that closed before stays as it is.
    pub fn give_up(&mut self)
        ensures { IsGivenUp S.rules (session_view self.old) (session_view self.new) }
    {
        match self.place {
            Place::Between => self.place = Place::Closed(Closing::Broken),
            Place::Within(..) => {
                self.service.drop_stream();
                self.place = Place::Closed(Closing::Broken);
            }
            Place::Closed(_) => {}
        }
    }

    /// Why the session closed, if it did.
    pub fn closing(&self) -> Option<Closing>
        ensures { result ≡ closing_at (session_view self.now).place }
    {
        match self.place {
            Place::Between | Place::Within(..) => None,
            Place::Closed(closing) => Some(closing),
        }
    }

    /// The bytes of its input that came and that no request took.
    pub fn inbox(&self) -> &Inbox
        ensures bytes { arrived_bytes result.now ≡ (session_view self.now).bytes }
        ensures over { is_over result.now ≡ (session_view self.now).over }
    {
        &self.inbox
    }

    /// The service that answers its requests.
    pub fn service(&self) -> &S
        ensures { result.now ≡ (session_view self.now).service }
    {
        &self.service
    }
}
