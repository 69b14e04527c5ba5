//! Clients.

use crate::tests::running::Host;
use crate::tests::texts::{say, show};
use hub_transcript::Words;
use std::alloc::Global;
use std::io::{self, BufRead, BufReader, Read, Write};
use std::net::{Shutdown, TcpStream};
use std::time::Duration;

/// How long a read or a write of a client may wait for the server, in seconds, before the test fails.
const PATIENCE: u64 = 50;

/// How often a feed is asked for before the test fails.
const LOOKS: u64 = 500;

/// A connection to a server.
///
/// - `GET TARGET`, and so PUT, POST and DELETE, with a body after the target or none: sends a request, and
///   shows the status and the body of the answer.
/// - `gets REQUEST`: sends a request, and shows the status of the answer alone.
/// - `asks REQUEST`: sends a request.
/// - `sends TEXT`: sends a text as it stands.
/// - `repeats COUNT TEXT`: sends a text COUNT times in one piece, with a number for `#`, from 1 on.
/// - `types PLACE TEXT`: sends the byte at this place of a text, from 1 on, if there is such a byte.
/// - `half-closes`: ends the sending; the client still reads.
/// - `answer`: shows the status and the body of the next answer.
/// - `status`: reads the next answer, and shows its status.
/// - `counts TEXT`: reads the next answer, and shows its status and how often its body has the text.
/// - `begins REQUEST`: asks for a feed, again while there are too many. Reads the first line of the
///   answer's head, and shows its status.
/// - `barely REQUEST`: the same, but takes no more than twelve bytes of the answer from the socket. It is
///   for a client that read nothing but whole answers before.
/// - `follows REQUEST`: the same as `begins`, but reads the whole head. Shows whether chunks follow it.
/// - `chunk`: shows the next chunk, or `the last` where it is empty.
/// - `chunk TEXT`: the same, but says `yes` where the chunk is this text.
/// - `row`, `row TEXT`: the same of the next chunk that is no heartbeat.
/// - `chunks`, `chunks TEXT`: the same of all chunks that are left, in one.
/// - `takes COUNT`: shows the next COUNT bytes.
/// - `skips COUNT`: reads the next COUNT bytes.
/// - `byte`: reads the next byte, and takes no other from the socket. It is for a client that read nothing
///   but bytes and whole answers before.
/// - `rest`: waits for the end, and shows the bytes until then, with those that `byte` read.
#[derive(Drop)]
pub(crate) struct Client {
    alloc: Global,
    pub(crate) name: String,
    reader: BufReader<TcpStream>,
    /// The bytes that `byte` and `rest` read.
    bytes: String,
}

fn bad(why: &str) -> io::Error {
    io::Error::other(why)
}

/// Whether a word is a method.
fn is_method(word: &str) -> bool {
    Words::of(word).verb("GET PUT POST DELETE") < 4
}

/// Has a connection wait `PATIENCE` seconds for its server, and send without delay.
fn prepare(stream: &TcpStream) -> io::Result<()> {
    stream.set_read_timeout(Some(Duration::from_secs(PATIENCE)))?;
    stream.set_write_timeout(Some(Duration::from_secs(PATIENCE)))?;
    stream.set_nodelay(true)
}

impl Client {
    /// A client of this name.
    pub(crate) fn new(alloc: Global, name: &str, stream: TcpStream) -> io::Result<Client> {
        prepare(&stream)?;
        let name = String::from_str(alloc, name)?;
        Ok(Client {
            alloc,
            name,
            reader: BufReader::new(alloc, stream)?,
            bytes: String::new(alloc),
        })
    }

    /// Carries out a command. Its text is all that stands after the client's name.
    pub(crate) fn act(
        &mut self,
        rt: &impl Host,
        command: &str,
        answer: &mut String,
    ) -> io::Result<()> {
        let (verb, text) = command.split_once(' ').unwrap_or((command, ""));
        if is_method(verb) {
            self.ask(command)?;
            return self.answer(answer);
        }
        match Words::of(verb).verb("begins barely follows") {
            0 => self.begin(rt, text, answer),
            1 => self.begin_barely(rt, text, answer),
            2 => {
                self.begin(rt, text, answer)?;
                self.head(answer)
            }
            _ => self.exchange(verb, text, answer),
        }
    }

    /// Carries out a command that sends or reads.
    fn exchange(&mut self, verb: &str, text: &str, answer: &mut String) -> io::Result<()> {
        if self.write(verb, text)? {
            return Ok(());
        }
        self.read(verb, text, answer)
    }

    /// Carries out a command that sends. False where the command is no such command.
    fn write(&mut self, verb: &str, text: &str) -> io::Result<bool> {
        match Words::of(verb).verb("asks sends repeats types half-closes") {
            0 => self.ask(text)?,
            1 => self.send(text)?,
            2 => self.repeat(Words::of(text))?,
            3 => self.type_one(Words::of(text))?,
            4 => self.reader.get_ref().shutdown(Shutdown::Write)?,
            _ => return Ok(false),
        }
        Ok(true)
    }

    /// Carries out a command that reads.
    fn read(&mut self, verb: &str, text: &str, answer: &mut String) -> io::Result<()> {
        match Words::of(verb).verb("answer gets status counts byte rest") {
            0 => self.answer(answer),
            1 => {
                self.ask(text)?;
                self.say_status(answer)
            }
            2 => self.say_status(answer),
            3 => self.count(text, answer),
            4 => self.byte(),
            5 => self.rest(answer),
            _ => self.read_some(verb, text, answer),
        }
    }

    /// Carries out a command that reads a part of an answer.
    fn read_some(&mut self, verb: &str, text: &str, answer: &mut String) -> io::Result<()> {
        let part = match Words::of(verb).verb("chunk row chunks") {
            0 => self.chunk()?,
            1 => self.row()?,
            2 => self.chunks()?,
            _ => return self.read_text(verb, text, answer),
        };
        self.compare(part.as_str(), text, answer)
    }

    /// Carries out a command that reads a count of bytes. Any other command is answered `?`.
    fn read_text(&mut self, verb: &str, count: &str, answer: &mut String) -> io::Result<()> {
        let place = Words::of(verb).verb("takes skips");
        match count.parse() {
            Ok(count) if place < 2 => {
                let taken = self.text(count)?;
                if place == 0 {
                    show(self.alloc, answer, taken.as_str())?;
                }
                Ok(())
            }
            _ => Ok(say(answer, "?")?),
        }
    }

    /// Sends these bytes.
    fn send(&self, text: &str) -> io::Result<()> {
        let mut stream = self.reader.get_ref();
        stream.write_all(text.as_bytes())
    }

    /// Sends a request.
    fn ask(&self, request: &str) -> io::Result<()> {
        let mut words = Words::of(request);
        let method = words.word();
        let target = words.word();
        let body = words.rest();
        let mut text = format!(in self.alloc; "{method} {target} HTTP/1.1\r\nHost: h\r\n")?;
        if !body.is_empty() {
            write!(text, "Content-Length: {}\r\n", body.len())?;
        }
        text.push_str("\r\n")?;
        text.push_str(body)?;
        self.send(text.as_str())
    }

    /// Sends a text in one piece, as often as its first word says.
    fn repeat(&self, mut words: Words) -> io::Result<()> {
        let count = words.number();
        let mut all = String::new(self.alloc);
        for number in 1..=count {
            let number = format!(in self.alloc; "{number}")?;
            let text = words.rest().replace(self.alloc, "#", number.as_str())?;
            all.push_str(text.as_str())?;
        }
        self.send(all.as_str())
    }

    /// Sends the byte at a place of a text, of which 1 is the first.
    fn type_one(&self, mut words: Words) -> io::Result<()> {
        let place = words.number();
        let mut at = 0u64;
        for byte in words.rest().bytes() {
            at = at.saturating_add(1);
            if at == place {
                let mut stream = self.reader.get_ref();
                return stream.write_all(&[byte]);
            }
        }
        Ok(())
    }

    /// The next line, without its end.
    fn line(&mut self) -> io::Result<String> {
        let mut line = String::new(self.alloc);
        self.reader.read_line(&mut line)?;
        match line.as_str().strip_suffix("\r\n") {
            Some(text) => Ok(text.to_string(self.alloc)?),
            None => Err(bad("no whole line")),
        }
    }

    /// The next `length` bytes, which are a text.
    fn text(&mut self, length: usize) -> io::Result<String> {
        let mut bytes = vec![in self.alloc; 0u8; length]?;
        self.reader.read_exact(bytes.as_mut_slice())?;
        match String::from_utf8(bytes) {
            Ok(text) => Ok(text),
            Err(_) => Err(bad("no text")),
        }
    }

    /// The status of the next answer. Only the first line of its head is read.
    fn status(&mut self) -> io::Result<String> {
        let line = self.line()?;
        match line.as_str().strip_prefix("HTTP/1.1 ") {
            Some(status) => Ok(status.to_string(self.alloc)?),
            None => Err(bad("no answer")),
        }
    }

    /// Reads the rest of a head. The length of the body is None where the body comes in chunks.
    fn fields(&mut self) -> io::Result<Option<usize>> {
        let mut length = None;
        for _ in 0..u64::MAX {
            let line = self.line()?;
            if line.is_empty() {
                break;
            }
            if let Some(value) = line.as_str().strip_prefix("Content-Length: ") {
                length = value.parse::<usize>().ok();
            }
        }
        Ok(length)
    }

    /// The body of an answer. Of its head only the first line was read.
    fn body(&mut self) -> io::Result<String> {
        match self.fields()? {
            Some(length) => self.text(length),
            None => self.chunks(),
        }
    }

    /// The next chunk. After the last chunk it is empty.
    fn chunk(&mut self) -> io::Result<String> {
        let line = self.line()?;
        let Ok(length) = usize::from_str_radix(line.as_str(), 16) else {
            return Err(bad("no chunk"));
        };
        let text = self.text(length)?;
        if !self.line()?.is_empty() {
            return Err(bad("a chunk that goes on"));
        }
        Ok(text)
    }

    /// The next chunk that is no heartbeat.
    fn row(&mut self) -> io::Result<String> {
        for _ in 0..u64::MAX {
            let chunk = self.chunk()?;
            if chunk.as_str() != "\n" {
                return Ok(chunk);
            }
        }
        Err(bad("only heartbeats"))
    }

    /// The chunks that are left, in one.
    fn chunks(&mut self) -> io::Result<String> {
        let mut body = String::new(self.alloc);
        for _ in 0..u64::MAX {
            let chunk = self.chunk()?;
            if chunk.is_empty() {
                break;
            }
            body.push_str(chunk.as_str())?;
        }
        Ok(body)
    }

    /// The next `count` rows of a continuous feed, in one.
    pub(crate) fn rows(&mut self, count: u64) -> io::Result<String> {
        let mut rows = String::new(self.alloc);
        for _ in 0..count {
            rows.push_str(self.row()?.as_str())?;
        }
        Ok(rows)
    }

    /// Asks for a normal feed. Its rows are as a continuous feed has them: each on a line.
    pub(crate) fn lines(&mut self, request: &str) -> io::Result<String> {
        self.ask(request)?;
        self.status()?;
        let body = self.body()?;
        let (_, rows) = body.as_str().split_once("[\n").unwrap_or(("", ""));
        let (rows, _) = rows.split_once("\n],\n").unwrap_or(("", ""));
        let mut lines = rows.replace(self.alloc, ",\n", "\n")?;
        lines.push_str("\n")?;
        Ok(lines)
    }

    /// Shows the next answer.
    fn answer(&mut self, answer: &mut String) -> io::Result<()> {
        say(answer, self.status()?.as_str())?;
        let body = self.body()?;
        Ok(show(self.alloc, answer, body.as_str())?)
    }

    /// Shows the status of the next answer.
    fn say_status(&mut self, answer: &mut String) -> io::Result<()> {
        say(answer, self.status()?.as_str())?;
        let _body = self.body()?;
        Ok(())
    }

    /// Shows the status of the next answer, and how often its body has a text.
    fn count(&mut self, text: &str, answer: &mut String) -> io::Result<()> {
        say(answer, self.status()?.as_str())?;
        let body = self.body()?;
        let count = body.as_str().matches(text).count();
        Ok(writeln!(answer, "{count} of {text}")?)
    }

    /// Shows the found text: `yes` where it is the wanted one, if any, and `the last` where it is empty.
    fn compare(&self, found: &str, wanted: &str, answer: &mut String) -> io::Result<()> {
        if !wanted.is_empty() && found == wanted {
            return Ok(say(answer, "yes")?);
        }
        if found.is_empty() {
            return Ok(say(answer, "the last")?);
        }
        Ok(show(self.alloc, answer, found)?)
    }

    /// Asks for a feed, again after 10 milliseconds while the status is 503.
    fn begin(&mut self, rt: &impl Host, request: &str, answer: &mut String) -> io::Result<()> {
        for _ in 0..LOOKS {
            self.ask(request)?;
            let status = self.status()?;
            if !status.as_str().starts_with("503") {
                return Ok(say(answer, status.as_str())?);
            }
            self.body()?;
            rt.pause(10);
        }
        Err(bad("no feed"))
    }

    /// The same, with twelve bytes of an answer of status 200. Any other answer is read whole.
    fn begin_barely(
        &mut self,
        rt: &impl Host,
        request: &str,
        answer: &mut String,
    ) -> io::Result<()> {
        for _ in 0..LOOKS {
            self.ask(request)?;
            let mut bytes = [0u8; 12];
            let mut stream = self.reader.get_ref();
            stream.read_exact(&mut bytes)?;
            if bytes.ends_with(b"200") {
                return Ok(say(answer, "200")?);
            }
            self.line()?;
            self.body()?;
            rt.pause(10);
        }
        Err(bad("no feed"))
    }

    /// Reads the rest of a head. Shows the length of the body, or `chunks`.
    fn head(&mut self, answer: &mut String) -> io::Result<()> {
        match self.fields()? {
            Some(length) => Ok(writeln!(answer, "{length} bytes")?),
            None => Ok(say(answer, "chunks")?),
        }
    }

    /// Reads the next byte.
    fn byte(&mut self) -> io::Result<()> {
        let mut byte = [0u8; 1];
        let mut stream = self.reader.get_ref();
        stream.read_exact(&mut byte)?;
        Ok(self.bytes.push(char::from(byte[0]))?)
    }

    /// Shows the bytes that come until the server closes, after those that `byte` read.
    fn rest(&mut self, answer: &mut String) -> io::Result<()> {
        self.reader.read_to_string(&mut self.bytes)?;
        if !self.bytes.is_empty() {
            show(self.alloc, answer, self.bytes.as_str())?;
        }
        Ok(say(answer, "the end")?)
    }
}
