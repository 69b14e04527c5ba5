//! The texts of whole answers, of the heads of streams, and of chunks.

use crate::texts::{Shown, undone};
use hub_document::DocFault;
use hub_http::{
    ChunkWriter, Refusal, Reply, StatusCode, Tally, Text, reply_bytes, stream_head_text,
};
use hub_model::Fault;
use hub_transcript::{Answer, Subject, Words, replay};
use std::alloc::{AllocError, Global};
use std::test::Fail;

/// The refusals.
const REFUSALS: &[Refusal] = &[
    Refusal::NoMemory,
    Refusal::NotJson,
    Refusal::NotObject,
    Refusal::BadNumber,
    Refusal::BadId,
    Refusal::BadRev,
    Refusal::BadRevisions,
    Refusal::BadMember,
    Refusal::TooLong,
    Refusal::Contradicts,
    Refusal::GenerationLimit,
    Refusal::Conflict,
    Refusal::BadSince,
    Refusal::BadLimit,
    Refusal::BadStyle,
    Refusal::BadFeed,
    Refusal::BadFilter,
    Refusal::BadDocIds,
    Refusal::BadHeartbeat,
    Refusal::DescendingMode,
    Refusal::BadFlag,
    Refusal::TooManyFeeds,
    Refusal::SequenceFull,
    Refusal::Deleted,
    Refusal::BadName,
    Refusal::Exists,
    Refusal::Absent,
    Refusal::TooMany,
    Refusal::BadHead,
    Refusal::HeadTooLong,
    Refusal::BodyTooLong,
    Refusal::Version,
    Refusal::Coding,
    Refusal::LengthMissing,
    Refusal::Missing,
    Refusal::DocDeleted,
    Refusal::MethodNotAllowed,
];

/// Answers. In each command the word `head` asks for a head alone, and any other word for a whole answer.
/// The word `close` after it makes the last answer of a connection. Bytes are shown as they are written.
///
/// - `made HEAD CLOSE`: the answer that a database was made. `refuse NAME HEAD CLOSE`: a refusal.
/// - `stream CLOSE`: the head of a stream.
/// - `from FAULT`: the refusal of a fault.
/// - `tell NAME`: the status of a refusal, its error and its reason.
/// - `chunk TEXT`: writes a text as the next chunk. `greet NAME`: writes a greeting as one.
#[derive(Drop)]
struct Answers {
    alloc: Global,
    chunks: ChunkWriter,
}

/// A greeting, which is made in the buffer that it is sent from.
#[derive(Drop)]
struct Greeting<'a> {
    name: &'a [u8],
}

impl Text for Greeting<'_> {
    ghost use Rattle.std.specs.Prelude.{◌++◌, codes};

    ghost bytes = { λ g. codes "Hello " ++ g.name.now };

    fn append(&self, buffer: &mut Vec<u8>) -> Result<(), AllocError> {
        buffer.extend_from_slice(b"Hello ")?;
        buffer.extend_from_slice(self.name)
    }
}

// The refusal of this name.
fn refusal_of(alloc: Global, name: &str) -> Result<Option<Refusal>, AllocError> {
    for refusal in REFUSALS {
        let other = format!(in alloc; "{refusal:?}")?;
        if other.as_str() == name {
            return Ok(Some(*refusal));
        }
    }
    Ok(None)
}

fn tell(alloc: Global, name: &str, answer: &mut Answer) -> Result<(), AllocError> {
    let Some(refusal) = refusal_of(alloc, name)? else {
        return answer.text("no refusal\n");
    };
    answer.line(refusal.status().as_u16())?;
    answer.line(refusal.error())?;
    answer.line(refusal.reason())
}

// The refusal of a fault.
fn refusal_of_fault(fault: &str) -> Option<Refusal> {
    if fault == "DocFault::TooLong" {
        return Some(Refusal::from(DocFault::TooLong));
    }
    if fault == "Fault::Contradicts" {
        return Some(Refusal::from(Fault::Contradicts));
    }
    None
}

// The head of a stream.
fn tell_stream(command: &str, answer: &mut Answer) -> Result<(), AllocError> {
    let head = stream_head_text(command == "close");
    answer.line(Shown(head.as_bytes()))
}

fn tell_refusal(fault: &str, answer: &mut Answer) -> Result<(), AllocError> {
    answer.line(format_args!("{:?}", refusal_of_fault(fault)))
}

impl Answers {
    fn reply(&self, reply: &Reply, command: &str, answer: &mut Answer) -> Result<(), AllocError> {
        let mut words = Words::of(command);
        let head_only = words.word() == "head";
        let close = words.word() == "close";
        let bytes = reply_bytes(self.alloc, reply, head_only, close)?;
        answer.line(Shown(bytes.as_slice()))
    }

    // The answer that a database was made.
    fn make(&self, command: &str, answer: &mut Answer) -> Result<(), AllocError> {
        let reply = Reply::Done {
            status: StatusCode::CREATED,
            body: Vec::from_slice(self.alloc, b"{\"ok\":true}\n")?,
        };
        self.reply(&reply, command, answer)
    }

    fn refuse(&self, command: &str, answer: &mut Answer) -> Result<(), AllocError> {
        let mut words = Words::of(command);
        match refusal_of(self.alloc, words.word())? {
            Some(refusal) => self.reply(&Reply::Refused(refusal), words.rest(), answer),
            None => answer.text("no refusal\n"),
        }
    }

    fn chunk_of_text(&mut self, text: &str, answer: &mut Answer) -> Result<(), AllocError> {
        let text = undone(self.alloc, text)?;
        self.chunk(&text.as_slice(), answer)
    }

    fn greet(&mut self, name: &str, answer: &mut Answer) -> Result<(), AllocError> {
        let name = name.as_bytes();
        self.chunk(&Greeting { name }, answer)
    }

    // Out of memory, in the writer or in the chunks, the command is given again.
    fn chunk<T: Text>(&mut self, text: &T, answer: &mut Answer) -> Result<(), AllocError> {
        let mut writer = Tally::new(Vec::new(self.alloc));
        if self.chunks.write(&mut writer, text).is_err() {
            return Err(AllocError);
        }
        answer.line(Shown(writer.into_inner().as_slice()))
    }
}

impl<R> Subject<R> for Answers {
    fn begin(_: &R, alloc: Global, _: &str) -> Result<Answers, AllocError> {
        Ok(Answers {
            alloc,
            chunks: ChunkWriter::new(alloc),
        })
    }

    fn answer(&mut self, _: &R, command: &str, answer: &mut Answer) -> Result<(), AllocError> {
        let mut words = Words::of(command);
        let place = words.verb("made refuse stream from tell chunk greet");
        let rest = words.rest();
        match place {
            0 => self.make(rest, answer),
            1 => self.refuse(rest, answer),
            2 => tell_stream(rest, answer),
            3 => tell_refusal(rest, answer),
            4 => tell(self.alloc, rest, answer),
            5 => self.chunk_of_text(rest, answer),
            6 => self.greet(rest, answer),
            _ => answer.text("?\n"),
        }
    }
}

const REPLIES: &str = r#"
# whole answers and heads, of connections that go on and that close
> made
HTTP/1.1 201 Created\r\nContent-Type: application/json\r\nContent-Length: 12\r\n\r\n{"ok":true}\n
> made head close
HTTP/1.1 201 Created\r\nContent-Type: application/json\r\nContent-Length: 12\r\nConnection: close\r\n\r\n
> refuse BadHead whole close
HTTP/1.1 400 Bad Request\r\nContent-Type: application/json\r\nContent-Length: 44\r\nConnection: close\r\n\r\n{"error":"bad_request","reason":"bad head"}\n

# each refusal has its status and its body
> refuse NoMemory
HTTP/1.1 503 Service Unavailable\r\nContent-Type: application/json\r\nContent-Length: 51\r\n\r\n{"error":"out_of_memory","reason":"out of memory"}\n
> refuse NotJson
HTTP/1.1 400 Bad Request\r\nContent-Type: application/json\r\nContent-Length: 44\r\n\r\n{"error":"bad_request","reason":"not JSON"}\n
> refuse NotObject
HTTP/1.1 400 Bad Request\r\nContent-Type: application/json\r\nContent-Length: 49\r\n\r\n{"error":"bad_request","reason":"not an object"}\n
> refuse BadNumber
HTTP/1.1 400 Bad Request\r\nContent-Type: application/json\r\nContent-Length: 57\r\n\r\n{"error":"bad_request","reason":"number out of profile"}\n
> refuse BadId
HTTP/1.1 400 Bad Request\r\nContent-Type: application/json\r\nContent-Length: 42\r\n\r\n{"error":"bad_request","reason":"bad id"}\n
> refuse BadRev
HTTP/1.1 400 Bad Request\r\nContent-Type: application/json\r\nContent-Length: 43\r\n\r\n{"error":"bad_request","reason":"bad rev"}\n
> refuse BadRevisions
HTTP/1.1 400 Bad Request\r\nContent-Type: application/json\r\nContent-Length: 50\r\n\r\n{"error":"bad_request","reason":"bad _revisions"}\n
> refuse BadMember
HTTP/1.1 400 Bad Request\r\nContent-Type: application/json\r\nContent-Length: 46\r\n\r\n{"error":"bad_request","reason":"bad member"}\n
> refuse TooLong
HTTP/1.1 400 Bad Request\r\nContent-Type: application/json\r\nContent-Length: 47\r\n\r\n{"error":"bad_request","reason":"id too long"}\n
> refuse Contradicts
HTTP/1.1 400 Bad Request\r\nContent-Type: application/json\r\nContent-Length: 57\r\n\r\n{"error":"bad_request","reason":"contradicting history"}\n
> refuse GenerationLimit
HTTP/1.1 400 Bad Request\r\nContent-Type: application/json\r\nContent-Length: 52\r\n\r\n{"error":"bad_request","reason":"generation limit"}\n
> refuse Conflict
HTTP/1.1 409 Conflict\r\nContent-Type: application/json\r\nContent-Length: 58\r\n\r\n{"error":"conflict","reason":"Document update conflict."}\n
> refuse BadSince
HTTP/1.1 400 Bad Request\r\nContent-Type: application/json\r\nContent-Length: 45\r\n\r\n{"error":"bad_request","reason":"bad since"}\n
> refuse BadLimit
HTTP/1.1 400 Bad Request\r\nContent-Type: application/json\r\nContent-Length: 45\r\n\r\n{"error":"bad_request","reason":"bad limit"}\n
> refuse BadStyle
HTTP/1.1 400 Bad Request\r\nContent-Type: application/json\r\nContent-Length: 45\r\n\r\n{"error":"bad_request","reason":"bad style"}\n
> refuse BadFeed
HTTP/1.1 400 Bad Request\r\nContent-Type: application/json\r\nContent-Length: 44\r\n\r\n{"error":"bad_request","reason":"bad feed"}\n
> refuse BadFilter
HTTP/1.1 400 Bad Request\r\nContent-Type: application/json\r\nContent-Length: 46\r\n\r\n{"error":"bad_request","reason":"bad filter"}\n
> refuse BadDocIds
HTTP/1.1 400 Bad Request\r\nContent-Type: application/json\r\nContent-Length: 47\r\n\r\n{"error":"bad_request","reason":"bad doc_ids"}\n
> refuse BadHeartbeat
HTTP/1.1 400 Bad Request\r\nContent-Type: application/json\r\nContent-Length: 49\r\n\r\n{"error":"bad_request","reason":"bad heartbeat"}\n
> refuse DescendingMode
HTTP/1.1 400 Bad Request\r\nContent-Type: application/json\r\nContent-Length: 64\r\n\r\n{"error":"bad_request","reason":"descending needs feed=normal"}\n
> refuse BadFlag
HTTP/1.1 400 Bad Request\r\nContent-Type: application/json\r\nContent-Length: 44\r\n\r\n{"error":"bad_request","reason":"bad flag"}\n
> refuse TooManyFeeds
HTTP/1.1 503 Service Unavailable\r\nContent-Type: application/json\r\nContent-Length: 53\r\n\r\n{"error":"too_many_feeds","reason":"too many feeds"}\n
> refuse SequenceFull
HTTP/1.1 503 Service Unavailable\r\nContent-Type: application/json\r\nContent-Length: 51\r\n\r\n{"error":"sequence_full","reason":"sequence full"}\n
> refuse Deleted
HTTP/1.1 404 Not Found\r\nContent-Type: application/json\r\nContent-Length: 58\r\n\r\n{"error":"not_found","reason":"Database does not exist."}\n
> refuse BadName
HTTP/1.1 400 Bad Request\r\nContent-Type: application/json\r\nContent-Length: 54\r\n\r\n{"error":"illegal_database_name","reason":"bad name"}\n
> refuse Exists
HTTP/1.1 412 Precondition Failed\r\nContent-Type: application/json\r\nContent-Length: 95\r\n\r\n{"error":"file_exists","reason":"The database could not be created, the file already exists."}\n
> refuse Absent
HTTP/1.1 404 Not Found\r\nContent-Type: application/json\r\nContent-Length: 58\r\n\r\n{"error":"not_found","reason":"Database does not exist."}\n
> refuse TooMany
HTTP/1.1 503 Service Unavailable\r\nContent-Type: application/json\r\nContent-Length: 61\r\n\r\n{"error":"too_many_databases","reason":"too many databases"}\n
> refuse BadHead
HTTP/1.1 400 Bad Request\r\nContent-Type: application/json\r\nContent-Length: 44\r\n\r\n{"error":"bad_request","reason":"bad head"}\n
> refuse HeadTooLong
HTTP/1.1 431 Request Header Fields Too Large\r\nContent-Type: application/json\r\nContent-Length: 51\r\n\r\n{"error":"head_too_long","reason":"head too long"}\n
> refuse BodyTooLong
HTTP/1.1 413 Payload Too Large\r\nContent-Type: application/json\r\nContent-Length: 47\r\n\r\n{"error":"too_large","reason":"body too long"}\n
> refuse Version
HTTP/1.1 505 HTTP Version Not Supported\r\nContent-Type: application/json\r\nContent-Length: 50\r\n\r\n{"error":"http_version","reason":"HTTP/1.1 only"}\n
> refuse Coding
HTTP/1.1 501 Not Implemented\r\nContent-Type: application/json\r\nContent-Length: 58\r\n\r\n{"error":"not_implemented","reason":"no transfer coding"}\n
> refuse LengthMissing
HTTP/1.1 411 Length Required\r\nContent-Type: application/json\r\nContent-Length: 57\r\n\r\n{"error":"length_required","reason":"no Content-Length"}\n
> refuse Missing
HTTP/1.1 404 Not Found\r\nContent-Type: application/json\r\nContent-Length: 41\r\n\r\n{"error":"not_found","reason":"missing"}\n
> refuse DocDeleted
HTTP/1.1 404 Not Found\r\nContent-Type: application/json\r\nContent-Length: 41\r\n\r\n{"error":"not_found","reason":"deleted"}\n
> refuse MethodNotAllowed
HTTP/1.1 405 Method Not Allowed\r\nContent-Type: application/json\r\nContent-Length: 61\r\n\r\n{"error":"method_not_allowed","reason":"method not allowed"}\n

# heads of streams
> stream
HTTP/1.1 200 OK\r\nContent-Type: application/json\r\nTransfer-Encoding: chunked\r\n\r\n
> stream close
HTTP/1.1 200 OK\r\nContent-Type: application/json\r\nTransfer-Encoding: chunked\r\nConnection: close\r\n\r\n

# refusals of faults
> from DocFault::TooLong
Some(TooLong)
> from Fault::Contradicts
Some(Contradicts)

# a feed of two rows in chunks, with an empty text between
> chunk {"results":[\n
d\r\n{"results":[\n\r\n
> chunk {"seq":"1-1","id":"a","changes":[{"rev":"1-a"}]}
30\r\n{"seq":"1-1","id":"a","changes":[{"rev":"1-a"}]}\r\n
> chunk ,\n{"seq":"2-1","id":"b","changes":[{"rev":"1-b"}]}
32\r\n,\n{"seq":"2-1","id":"b","changes":[{"rev":"1-b"}]}\r\n
> chunk
> chunk \n],\n"last_seq":"2-1","pending":0}\n
22\r\n\n],\n"last_seq":"2-1","pending":0}\n\r\n

# a text of a user's own in a chunk
> greet a client
e\r\nHello a client\r\n
> chunk Bye\n
4\r\nBye\n\r\n

# a refusal tells its status, its error and its reason
> tell NotJson
400
bad_request
not JSON
> tell Conflict
409
conflict
Document update conflict.
> tell BadName
400
illegal_database_name
bad name
> tell HeadTooLong
431
head_too_long
head too long

# chunks of one digit and of three
> chunk abc
3\r\nabc\r\n
> chunk xxxxxxxxxxxxxxxxxxxxxxxxxxxxxxxxxxxxxxxxxxxxxxxxxxxxxxxxxxxxxxxxxxxxxxxxxxxxxxxxxxxxxxxxxxxxxxxxxxxxxxxxxxxxxxxxxxxxxxxxxxxxxxxxxxxxxxxxxxxxxxxxxxxxxxxxxxxxxxxxxxxxxxxxxxxxxxxxxxxxxxxxxxxxxxxxxxxxxxxxxxxxxxxxxxxxxxxxxxxxxxxxxxxxxxxxxxxxxxxxxxxxxxxxxxxxxxxxxxxxxxxxxxxxxxxxxxxxxxxxxxxxxxxxxxxxxxxxxxxx
12c\r\nxxxxxxxxxxxxxxxxxxxxxxxxxxxxxxxxxxxxxxxxxxxxxxxxxxxxxxxxxxxxxxxxxxxxxxxxxxxxxxxxxxxxxxxxxxxxxxxxxxxxxxxxxxxxxxxxxxxxxxxxxxxxxxxxxxxxxxxxxxxxxxxxxxxxxxxxxxxxxxxxxxxxxxxxxxxxxxxxxxxxxxxxxxxxxxxxxxxxxxxxxxxxxxxxxxxxxxxxxxxxxxxxxxxxxxxxxxxxxxxxxxxxxxxxxxxxxxxxxxxxxxxxxxxxxxxxxxxxxxxxxxxxxxxxxxxxxxxxxxxx\r\n
"#;

#[test]
fn replies(rt: HostRuntime) -> Result<(), Fail> {
    replay::<Answers, _>(&rt, rt.alloc(), REPLIES)
}
