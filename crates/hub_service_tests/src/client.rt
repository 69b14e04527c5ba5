//! A client of a hub. Transcripts give its requests.

use crate::calls::{delete, open, show_item};
use crate::texts::{asked, show};
use crate::told::Told;
use crate::wire::{Failing, serve_torn, session};
use hub_databases::Hub;
use hub_document::Limits;
use hub_routes::Routes;
use hub_service::{ByTurns, Connection, JsonRooms};
use hub_session::{Closing, Service};
use hub_transcript::{Answer, Subject, Words};
use std::alloc::{AllocError, Global};
use std::io::Read;
use std::sync::Wait;

/// A client of a hub, and its requests so far.
///
/// A request is `METHOD TARGET [BODY]`, where `-` is an empty body, and a request without a body has no
/// header field. Other requests are `history N`, a batch of one document `x` whose history has N revisions,
/// and `bytes TEXT`, in which `\r\n` ends a line. Answers are shown as lines. `\n` stands for a line feed
/// in a body or a chunk, `JSON of N` and `JSON in chunks` for the fields that each answer has. `:` stands
/// for the end of a head, and `last chunk` for that chunk. Then comes why the session closed, unless its
/// input just ended.
///
/// - `REQUEST`: the hub is asked over a connection of its own. A new hub is asked all requests so far over
///   one connection, whose writer takes a byte a call. Both have to answer the same, which is shown.
/// - `send REQUEST`: a new hub alone is asked, after all requests so far, as in the next three commands.
/// - `cut REQUEST`: the input ends after 0, 1, .. bytes of the request, but not after all. The reasons why
///   the session closes are shown, each with its first count. The request gets no answer.
/// - `fail REQUEST`: the reader fails there. It gives one byte a call, and is interrupted before each.
/// - `break REQUEST`: the writer breaks after 0, 1, .. bytes of the answer, but not after all.
/// - `own REQUEST`: the hub alone is asked, over a connection of its own.
/// - `tear REQUEST`: the same again and again, where the writer breaks after 0, 1, .. bytes of the answer,
///   and at last takes the whole answer.
/// - `remove REQUEST`: one connection opens a feed and hands an item, another connection removes the
///   database `d`, and then the first hands its next item.
/// - `delete NAME`: a database is deleted under its lock, and its name stays.
/// - `allow LIMIT`: a new hub, within one more limit: `one feed`, `one database`, `two databases`,
///   `one edit` or `two edits`.
#[derive(Drop)]
pub(crate) struct Client {
    alloc: Global,
    limits: Limits,
    hub: Hub,
    routes: Routes,
    /// The bytes of the requests so far.
    asked: String,
    /// The bytes of their answers.
    answered: String,
}

/// The requests for a hub's names, for its database `d` with the rows, and for its log of updates.
const SHOWN: &str = concat!(
    "GET /_all_dbs HTTP/1.1\r\n\r\n",
    "GET /d HTTP/1.1\r\n\r\n",
    "GET /d/_changes?style=all_docs&include_docs=true HTTP/1.1\r\n\r\n",
    "GET /_db_updates HTTP/1.1\r\n\r\n"
);

/// The commands with a request that is not asked of both hubs.
const VERBS: &str = "send cut fail break tear own remove";

/// The request that removes the database `d`.
const REMOVAL: &str = "DELETE /d HTTP/1.1\r\n\r\n";

/// The answer to a batch whose edits are stored already.
const STORED: &str = concat!(
    "HTTP/1.1 201 Created\r\nContent-Type: application/json\r\nContent-Length: 3\r\n\r\n",
    "[]\n"
);

/// The answer to an edit of a document that is stored already.
const CONFLICT: &str = concat!(
    "HTTP/1.1 409 Conflict\r\nContent-Type: application/json\r\nContent-Length: 58\r\n\r\n",
    r#"{"error":"conflict","reason":"Document update conflict."}"#,
    "\n"
);

impl Client {
    /// A client of a new hub within these limits, before its first request.
    fn new(alloc: Global, limits: Limits) -> Result<Client, AllocError> {
        Ok(Client {
            alloc,
            limits,
            hub: Hub::new(alloc, limits)?,
            routes: Routes::new(alloc)?,
            asked: String::new(alloc),
            answered: String::new(alloc),
        })
    }

    /// Begins with a new hub within one more limit.
    fn allow(&mut self, mut words: Words, answer: &mut Answer) -> Result<(), AllocError> {
        let mut limits = self.limits;
        let (count, what) = (
            words.verb("one two"),
            words.verb("feed database databases edit edits"),
        );
        match (count, what) {
            (0, 0) => limits.feeds = 1,
            (0, 1) => limits.databases = 1,
            (1, 2) => limits.databases = 2,
            (0, 3) => limits.journal = 1,
            (1, 4) => limits.journal = 2,
            _ => return answer.line("?"),
        }
        *self = Client::new(self.alloc, limits)?;
        Ok(())
    }

    /// The output of the hub over a connection of its own. Before it, there is one session for each byte of
    /// the answer `torn`, whose writer breaks before that byte.
    fn own<N: Wait>(&self, rt: &N, bytes: &str, torn: &str) -> Result<Told, AllocError> {
        let rooms = JsonRooms::new(self.alloc);
        let pumping = ByTurns::new(rt);
        let mut connection = Connection::new(
            rt,
            self.alloc,
            &self.hub,
            &self.routes,
            &rooms,
            pumping,
        );
        serve_torn(self.alloc, &mut connection, bytes, torn)
    }

    /// Shows the output of the hub over a connection of its own. An error says that memory was missing.
    fn look<N: Wait>(
        &self,
        rt: &N,
        bytes: &str,
        torn: &str,
        answer: &mut Answer,
    ) -> Result<(), AllocError> {
        let told = self.own(rt, bytes, torn)?;
        if told.is_doubtful() {
            return Err(AllocError);
        }
        // Out of memory, nothing is written: the answer has its room, and copies come before it.
        match show(self.alloc, answer, told.output.as_str(), told.closing) {
            Err(AllocError) => show(self.alloc, answer, told.output.as_str(), told.closing),
            shown => shown,
        }
    }

    /// A service opens a feed and sends an item. Then a connection removes the database, and the service
    /// sends its next item.
    fn remove_during<N: Wait, S: Service>(
        &self,
        rt: &N,
        service: &mut S,
        feed: &str,
        answer: &mut Answer,
    ) -> Result<(), AllocError> {
        open(self.alloc, service, feed)?;
        show_item(self.alloc, service, answer)?;
        self.look(rt, REMOVAL, "", answer)?;
        show_item(self.alloc, service, answer)
    }

    /// The same with a connection as the service.
    fn remove<N: Wait>(&self, rt: &N, feed: &str, answer: &mut Answer) -> Result<(), AllocError> {
        let rooms = JsonRooms::new(self.alloc);
        let pumping = ByTurns::new(rt);
        let mut connection = Connection::new(
            rt,
            self.alloc,
            &self.hub,
            &self.routes,
            &rooms,
            pumping,
        );
        self.remove_during(rt, &mut connection, feed, answer)
    }

    /// Whether the hub writes the wanted answer over a connection of its own. Where a growth is refused,
    /// the hub shows the same as before, and the error says that the request is to be made again. But an
    /// edit of documents may be stored in spite of the refusal. Made again it changes nothing, and later
    /// requests show that it is stored.
    fn is_held<N: Wait>(&self, rt: &N, bytes: &str, wanted: &str) -> Result<bool, AllocError> {
        let before = self.own(rt, SHOWN, "")?;
        let told = self.own(rt, bytes, "")?;
        if let Ok(is_right) = told.is(wanted, Closing::Finished) {
            return Ok(is_right);
        }
        let behind = self.own(rt, SHOWN, "")?;
        if behind.output == before.output {
            return Err(AllocError);
        }
        self.is_standing(rt, bytes)
    }

    /// Whether the hub answers an edit of documents as one that is stored already.
    fn is_standing<N: Wait>(&self, rt: &N, bytes: &str) -> Result<bool, AllocError> {
        let standing = if bytes.starts_with("POST ") {
            STORED
        } else {
            CONFLICT
        };
        if self.own(rt, bytes, "")?.is(standing, Closing::Finished)? {
            return Ok(true);
        }
        // The note of a front of the batch may have filled the log: the rest was refused, but stored.
        self.own(rt, bytes, "")?.is(standing, Closing::Finished)
    }

    /// The output of a new hub with ample memory.
    fn ample<N: Wait, R: Copy + Drop + Read>(&self, rt: &N, reader: R) -> Result<Told, AllocError> {
        let told = session(rt, self.alloc, self.limits, reader, usize::MAX)?;
        if !told.is_doubtful() {
            return Ok(told);
        }
        let again = session(rt, self.alloc, self.limits, reader, usize::MAX)?;
        match told.is(again.output.as_str(), again.closing) {
            Ok(false) => Ok(told),
            _ => Ok(again),
        }
    }

    /// The bytes of all requests so far, and then these bytes.
    fn behind(&self, bytes: &str) -> Result<String, AllocError> {
        format!(in self.alloc; "{}{bytes}", self.asked)
    }

    /// The output after the answers so far.
    fn given<'t>(&self, told: &'t Told) -> &'t str {
        told.output
            .strip_prefix(self.answered.as_str())
            .unwrap_or("other answers before")
    }

    /// Shows the answer of a new hub to these bytes, after all requests so far.
    fn send<N: Wait>(&self, rt: &N, bytes: &str, answer: &mut Answer) -> Result<(), AllocError> {
        let all = self.behind(bytes)?;
        let told = self.ample(rt, all.as_bytes())?;
        show(self.alloc, answer, self.given(&told), told.closing)
    }

    /// Asks both hubs with a request.
    fn ask<N: Wait>(&mut self, rt: &N, bytes: &str, answer: &mut Answer) -> Result<(), AllocError> {
        let all = self.behind(bytes)?;
        let told = self.ample(rt, all.as_bytes())?;
        let given = self.given(&told);
        show(self.alloc, answer, given, told.closing)?;
        if !self.is_held(rt, bytes, given)? {
            answer.line("another answer over a connection of its own")?;
        }
        self.asked = all;
        self.answered = told.output;
        Ok(())
    }

    /// The output of a new hub whose input ends, or fails, after `left` bytes.
    fn ended<N: Wait>(
        &self,
        rt: &N,
        text: &[u8],
        left: usize,
        fails: bool,
    ) -> Result<Told, AllocError> {
        if !fails {
            return self.ample(rt, text.get(..left).unwrap_or(text));
        }
        let is_interrupted = false;
        self.ample(
            rt,
            Failing {
                text,
                left,
                is_interrupted,
            },
        )
    }

    /// Shows why sessions close whose input ends, or fails, after 0, 1, .. bytes of a request, but not all.
    fn end<N: Wait>(
        &self,
        rt: &N,
        bytes: &str,
        fails: bool,
        answer: &mut Answer,
    ) -> Result<(), AllocError> {
        let all = self.behind(bytes)?;
        let mut last = None;
        for count in 0..bytes.len() {
            let left = self.asked.len().saturating_add(count);
            let told = self.ended(rt, all.as_bytes(), left, fails)?;
            if told.output != self.answered {
                return answer.line("another answer");
            }
            if last != Some(told.closing) {
                answer.line(format_args!("{count}: {}", told.closing))?;
                last = Some(told.closing);
            }
        }
        Ok(())
    }

    /// Breaks a writer after 0, 1, .. bytes of an answer. Shows the first output that is no front, if any.
    fn break_behind<N: Wait>(
        &self,
        rt: &N,
        bytes: &str,
        answer: &mut Answer,
    ) -> Result<(), AllocError> {
        let all = self.behind(bytes)?;
        let ample = self.ample(rt, all.as_bytes())?;
        for room in self.answered.len()..ample.output.len() {
            let told = session(rt, self.alloc, self.limits, all.as_bytes(), room)?;
            let front = ample.output.get(..room).unwrap_or("");
            if !told.is(front, Closing::Broken)? {
                return show(self.alloc, answer, told.output.as_str(), told.closing);
            }
        }
        answer.line("a front of it, wherever the writer breaks")
    }

    /// Shows the output of the hub over a connection of its own, after sessions whose writers break before
    /// each byte of the answer.
    fn tear<N: Wait>(&self, rt: &N, bytes: &str, answer: &mut Answer) -> Result<(), AllocError> {
        let all = self.behind(bytes)?;
        let ample = self.ample(rt, all.as_bytes())?;
        self.look(rt, bytes, self.given(&ample), answer)
    }

    /// Carries out the command at this place of `VERBS` with the bytes of its request.
    fn carry_out<N: Wait>(
        &self,
        rt: &N,
        verb: usize,
        bytes: &str,
        answer: &mut Answer,
    ) -> Result<(), AllocError> {
        match verb {
            0 => self.send(rt, bytes, answer),
            1 | 2 => self.end(rt, bytes, verb == 2, answer),
            3 => self.break_behind(rt, bytes, answer),
            4 => self.tear(rt, bytes, answer),
            5 => self.look(rt, bytes, "", answer),
            _ => self.remove(rt, bytes, answer),
        }
    }

    /// Carries out a command that has a request.
    fn request<N: Wait>(
        &mut self,
        rt: &N,
        command: &str,
        answer: &mut Answer,
    ) -> Result<(), AllocError> {
        let mut words = Words::of(command);
        let verb = words.verb(VERBS);
        if verb == usize::MAX {
            let bytes = asked(self.alloc, command)?;
            return self.ask(rt, bytes.as_str(), answer);
        }
        let bytes = asked(self.alloc, words.rest())?;
        self.carry_out(rt, verb, bytes.as_str(), answer)
    }
}

impl<N: Wait> Subject<N> for Client {
    fn begin(_: &N, alloc: Global, _: &str) -> Result<Client, AllocError> {
        Client::new(alloc, Limits::full())
    }

    fn answer(&mut self, rt: &N, command: &str, answer: &mut Answer) -> Result<(), AllocError> {
        let mut words = Words::of(command);
        match words.verb("allow delete") {
            0 => self.allow(words, answer),
            1 => delete(&self.hub, rt, words.rest(), answer),
            _ => self.request(rt, command, answer),
        }
    }
}
