//! The requests that a reader's bytes spell.
ghost use Rattle.std.specs.Prelude.{◌≡◌, ◌<◌, ◌≤◌, ◌⊎◌, ℕ, List, ◌++◌, length};
ghost use Rattle.std.specs.Prelude.{Err, IfOk, IfErr, IfSome, OnOk, IsErrOf, IsTrue, IsFalse};
ghost use Rattle.std.specs.Io.KnownBytes.{Keeps, IsAtEnd};
ghost use Rattle.hub_http.specs.Counts.{CallCounts};
ghost use Rattle.hub_http.specs.Stream.{PlainRequest, Leaves, Spells, to_read};
ghost use Rattle.hub_http.specs.Exclusions.{SpelledHasNoFault, NothingSpellsNothing};
ghost use Rattle.hub_http.specs.Exclusions.{NothingHasNoFault, HeadHasOneFault, HeadFaultIsNamed};
ghost use Rattle.hub_http.specs.Exclusions.{WholeHeadHasOneFault, OtherFaultsAreOpen};
ghost use Rattle.hub_http.specs.Heads.{HasHeadFault};
ghost use Rattle.hub_http.specs.Offers.{SpellsAll};

use crate::block::Block;
use crate::fault::HttpFault;
use crate::head::{HEAD_LIMIT, Head, look};
use crate::input::Input;
use crate::pending::Pending;
use crate::request::Request;
use std::alloc::Global;

/// The requests of a reader, one after the other, as on a persistent connection (RFC 9112,
/// section 9.3.2: requests may come before earlier ones are answered).
#[derive(Drop)]
pub struct Requests<R> {
    reader: R,
    alloc: Global,
    /// The bytes that came and are not held yet.
    block: Block,
    /// The bytes that are held and that no request took yet, in order.
    held: Pending,
    ended: bool,
}

impl<R: Input> Requests<R> {
    ghost use Rattle.hub_http.specs.Words.{to_come, IsOpen, HasEnded, faults_of, failures_of, reader_of};
    ghost use Rattle.hub_http.specs.Readings.{RequestReading, HeadReading, Filling};

    /// The requests of a reader from which nothing was read yet.
    pub fn new(alloc: Global, reader: R) -> Requests<R>
        ensures bytes { to_come R.left result ≡ R.left reader }
        ensures open { IsOpen result }
        ensures faults { faults_of R.fault_count result ≡ R.fault_count reader }
        ensures failures { failures_of R.failure_count result ≡ R.failure_count reader }
    {
        Requests {
            reader,
            alloc,
            block: Block::new(),
            held: Pending::new(Vec::new(alloc)),
            ended: false,
        }
    }

    /// The reader of the requests, with its counts.
    pub fn reader(&self) -> &R
        ensures { result.now ≡ reader_of self.now }
    {
        &self.reader
    }

    /// The next request, `None` at the end of the input. After a fault other than out of memory, each call
    /// answers `Ended` and reads nothing. After out of memory, the same call reads on. Only bytes that came
    /// take memory. So an end of the input between two requests is `None`, even out of memory.
    ///
    /// A read that is interrupted is made again. After 1,000,000 such reads in a row the call answers
    /// `IoFault`.
    ///
    /// Cost: bytes are read in blocks of at most 4,096. They are copied into the held bytes, and from there
    /// into the request. A body of more than 4,096 bytes is moved once and not copied again. A head that
    /// comes in k reads is parsed k times, each time from its front, over at most 16,384 bytes. The reads of
    /// a body parse nothing. Room for a body is made as its bytes come, whatever `Content-Length` says. At
    /// first it is made for 65,536 bytes, then for as many again as are held, and never for more than the
    /// request has. So a shorter body costs one reservation. A longer body is copied where its room grows, in
    /// all less than twice its length. The bytes that were read behind a request stay in place. Before a read
    /// they are moved to the front, where the taken bytes are at least as many. So in all no more bytes are
    /// moved than were taken.
    pub fn next(&mut self) -> Result<Option<Request>, HttpFault>
        ensures told { IsOpen self.old → IfSome (to_come R.left self.old)
            (λ bytes. Leaves bytes result (to_come R.left self.new)) }

        ensures open { IsOpen self.old → OnOk result (IsOpen self.new) }
        ensures again { IsOpen self.old → result ≡ Err HttpFault.NoMemory → IsOpen self.new }
        ensures closed { IfErr result (λ e. ¬ (e ≡ HttpFault.NoMemory) → HasEnded self.new) }
        ensures ended { HasEnded self.old → (result ≡ Err HttpFault.Ended) × (self.new ≡ self.old) }

        ensures counts { CallCounts (IsErrOf result HttpFault.IoFault) (faults_of R.fault_count)
            (failures_of R.failure_count) self.old self.new }
    {
        if self.ended {
            return Err(HttpFault::Ended);
        }
        match self.read_request() {
            Ok(request) => Ok(request),
            Err(HttpFault::NoMemory) => Err(HttpFault::NoMemory),
            Err(e) => {
                self.ended = true;
                Err(e)
            }
        }
    }

    /// Reads the next request, `None` at the end of the input.
    fn read_request(&mut self) -> Result<Option<Request>, HttpFault>
        ensures { RequestReading R.left R.fault_count R.failure_count result self.old self.new }
    {
        let Some(head) = self.find_head()? else {
            return Ok(None);
        };
        let body_len = head.length.unwrap_or(0) as usize;
        if !self.fill(head.len + body_len)? {
            return Err(HttpFault::Ended);
        }
        let body = self.held.take_body(self.alloc, head.len, body_len)?;
        Ok(Some(head.with_body(body)))
    }

    /// Reads until a whole head is held, and answers `None` where the input ends before any byte of one.
    fn find_head(&mut self) -> Result<Option<Head>, HttpFault>
        ensures { HeadReading R.left R.fault_count R.failure_count result self.old self.new }
    {
        loop {
            if let Some(head) = look(self.alloc, self.held.as_slice())? {
                return Ok(Some(head));
            }
            if self.held.len() >= HEAD_LIMIT {
                return Err(HttpFault::HeadTooLong);
            }
            if self.read_more(HEAD_LIMIT)? {
                continue;
            }
            if self.held.is_empty() {
                return Ok(None);
            }
            return Err(HttpFault::Ended);
        }
    }

    /// Reads until `wanted` bytes are held, and answers whether they came. Their room grows as they come.
    fn fill(&mut self, wanted: usize) -> Result<bool, HttpFault>
        ensures { Filling R.left R.fault_count R.failure_count wanted result self.old self.new }
    {
        let mut room = 0;
        while self.held.len() < wanted {
            if self.held.len() >= room {
                room = self.held.make_room(wanted)?;
            }
            if !self.read_more(room)? {
                return Ok(false);
            }
        }
        Ok(true)
    }

    /// Reads bytes behind the held ones, up to `most` held bytes, and answers whether any came. None come
    /// only at the end of the input. Bytes that find no memory stay in the block, and the same call made
    /// again takes them from there. Cost: one read of at most 4,096 bytes, and a copy of its bytes. Where
    /// there is room for `most` bytes, no memory is taken.
    fn read_more(&mut self, most: usize) -> Result<bool, HttpFault>
        requires { length self.old.held < most }
        ensures kept { Keeps (to_come R.left self.old) (to_come R.left self.new) }
        ensures grown { (more : List ℕ) × (self.new.held ≡ self.old.held ++ more) }
        ensures most { length self.new.held ≤ most }
        ensures some { IfOk result (λ some. IsTrue some → length self.old.held < length self.new.held) }
        ensures end { IfOk result (λ some. IsFalse some → (self.new.held ≡ self.old.held)
            × IsAtEnd (to_read self.new.block (R.left self.new.reader))) }
        ensures err { IfErr result (λ e. ((e ≡ HttpFault.NoMemory) ⊎ (e ≡ HttpFault.IoFault))
            × (self.new.held ≡ self.old.held)) }
        ensures memory { result ≡ Err HttpFault.NoMemory → 0 < length self.new.block }
        ensures ended { self.new.ended ≡ self.old.ended }
        ensures counts { CallCounts (IsErrOf result HttpFault.IoFault) R.fault_count R.failure_count
            self.old.reader self.new.reader }
    {
        let most = most - self.held.len();
        self.block.refill(&mut self.reader, most)?;
        let n = self.block.give(&mut self.held, most)?;
        Ok(n > 0)
    }
}

/// Bytes spell at most one request at their front.
pub fn one_reading()
    ensures { (bytes : List ℕ) (a b : PlainRequest) (r q : List ℕ) → Spells bytes a r → Spells bytes b q
        → (a ≡ b) × (r ≡ q) }
{}

/// Bytes that spell a request have no fault of their own, and neither has the empty text. Bytes that begin
/// with a whole head have at most one fault. Only bytes without a whole head may have several: a bad head, a
/// head too long, and an end in the middle.
pub fn one_verdict()
    ensures spelled { SpelledHasNoFault }
    ensures nothing_spelled { NothingSpellsNothing }
    ensures nothing_faulty { NothingHasNoFault }
    ensures head { HeadHasOneFault }
    ensures named { HeadFaultIsNamed }
    ensures whole { WholeHeadHasOneFault }
    ensures open { OtherFaultsAreOpen }
{}

/// More bytes behind a request do not change it: they come behind the bytes that are left. The same is true
/// of several requests, and of a head's fault.
pub fn more_behind()
    ensures spelled { (bytes : List ℕ) (a : PlainRequest) (rest more : List ℕ)
        → Spells bytes a rest → Spells (bytes ++ more) a (rest ++ more) }
    ensures all { (all : List PlainRequest) (bytes rest more : List ℕ)
        → SpellsAll bytes all rest → SpellsAll (bytes ++ more) all (rest ++ more) }
    ensures faulty { (bytes more : List ℕ) (e : HttpFault)
        → HasHeadFault bytes e → HasHeadFault (bytes ++ more) e }
{}
