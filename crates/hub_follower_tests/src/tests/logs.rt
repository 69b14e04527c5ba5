//! Replication logs.

use crate::tests::values::Values;
use crate::tests::{Told, number, seq_of, text_of};
use hub_follower::{HistoryEntry, Log, Seq, common_sequence};
use hub_transcript::{Answer, Words, replay};
use std::alloc::{AllocError, Global};
use std::test::Fail;

// The entry of a history, or the last session, that a word `ID:SEQ` writes; an error out of memory, and each
// time where the word has no sequence.
fn entry_of(alloc: Global, word: &str) -> Result<HistoryEntry, AllocError> {
    let (session_id, seq) = word.split_once(':').unwrap_or((word, ""));
    let seq = seq_of(seq)?;
    Ok(HistoryEntry {
        session_id: String::from_str(alloc, session_id)?,
        start_last_seq: Seq::beginning(),
        end_last_seq: seq,
        recorded_seq: seq,
    })
}

/// The log that a word writes, as `Values` says.
pub(crate) fn log_of(alloc: Global, word: &str) -> Result<Log, AllocError> {
    let (last, entries) = word.split_once('/').unwrap_or((word, ""));
    let mut history = Vec::new(alloc);
    for entry in entries.split(',') {
        history.push(entry_of(alloc, entry)?)?;
    }
    let last = entry_of(alloc, last)?;
    Ok(Log {
        session_id: last.session_id,
        source_last_seq: last.recorded_seq,
        history,
    })
}

// The log of a word, written as a text and read back. The word `none` is no log.
fn read_back(alloc: Global, word: &str) -> Result<Option<Log>, AllocError> {
    if word == "none" {
        return Ok(None);
    }
    let text = log_of(alloc, word)?.text(alloc)?;
    match Log::read(alloc, text.as_slice())? {
        Some(log) => Ok(Some(log)),
        None => Err(AllocError),
    }
}

/// Tells a log: its last session with its sequence, and the sessions of its history, each with the sequences
/// of its beginning, of its end and of its record.
pub(crate) fn tell_log(log: &Log, answer: &mut Answer) -> Result<(), AllocError> {
    let last = Told(Some(log.source_last_seq));
    answer.line(format_args!("{} {last}", log.session_id.as_str()))?;
    for entry in &log.history {
        let start = Told(Some(entry.start_last_seq));
        let end = Told(Some(entry.end_last_seq));
        let recorded = Told(Some(entry.recorded_seq));
        answer.line(format_args!("{} {start} {end} {recorded}", entry.session_id.as_str()))?;
    }
    Ok(())
}

// Tells the text of a log.
fn write(alloc: Global, word: &str, answer: &mut Answer) -> Result<(), AllocError> {
    let text = log_of(alloc, word)?.text(alloc)?;
    answer.line(text_of(text.as_slice())?)
}

// Reads a log from its text, and tells it.
fn read(alloc: Global, text: &str, answer: &mut Answer) -> Result<(), AllocError> {
    match Log::read(alloc, text.as_bytes())? {
        Some(log) => tell_log(&log, answer),
        None => answer.line("none"),
    }
}

// Tells up to which sequence two logs agree.
fn agree(alloc: Global, words: &mut Words<'_>, answer: &mut Answer) -> Result<(), AllocError> {
    let source = read_back(alloc, words.word())?;
    let target = read_back(alloc, words.word())?;
    let common = Told(Some(common_sequence(source.as_ref(), target.as_ref())));
    answer.line(format_args!("up to {common}"))
}

// Tells how many entries are read of a log whose history has `count`.
fn history(alloc: Global, count: u64, answer: &mut Answer) -> Result<(), AllocError> {
    let mut log = log_of(alloc, "S:1/S:1")?;
    for _ in 1..count {
        log.history.push(entry_of(alloc, "S:1")?)?;
    }
    let text = log.text(alloc)?;
    match Log::read(alloc, text.as_slice())? {
        Some(log) => answer.line(format_args!("{} entries", log.history.len())),
        None => answer.line("none"),
    }
}

/// Carries out a command on logs.
pub(crate) fn answer_of_logs(
    alloc: Global,
    words: &mut Words<'_>,
    answer: &mut Answer,
) -> Result<(), AllocError> {
    match words.verb("write read agree history") {
        0 => write(alloc, words.rest(), answer),
        1 => read(alloc, words.rest(), answer),
        2 => agree(alloc, words, answer),
        3 => history(alloc, number(words.rest())?, answer),
        _ => answer.line("?"),
    }
}

const AGREED: &str = "
# sequences up to which logs agree
> log agree S3:9/S3:9,S1:4 S2:7/S2:7,S1:4
up to 4
> log agree S3:9/S3:9,S1:4 S3:7/S3:7,S1:4
up to 7
> log agree S3:9/S3:9,S1:4 none
up to 0
> log agree none S3:9/S3:9,S1:4
up to 0
> log agree S3:7/S3:7,S1:4 none
up to 0
> log agree none S3:7/S3:7,S1:4
up to 0
# the session is the last one of both logs
> log agree S3:9/S3:9 S3:7/S3:7
up to 7
> log agree S3:9-1/S3:9-1 S3:7-1/S3:7-1
up to 7-1
> log agree S3:7-1/S3:7-1 S3:9-1/S3:9-1
up to 7-1
> log agree S3:9-2/S3:9-2 S3:7-1/S3:7-1
up to 0
> log agree S3:7-0/S3:7-0 S3:7-1/S3:7-1
up to 0
> log agree S3:9/S3:9 S3:7-1/S3:7-1
up to 7-1
> log agree S3:9-2/S3:9-2 S3:7/S3:7
up to 7-2
> log agree S3:3-2/S3:3-2 S3:7-2/S3:7-2
up to 3-2
# the session is the last one of the source's log
> log agree S3:9/S3:9 S4:7/S3:7
up to 7
> log agree S3:9-1/S3:9-1 S4:7-1/S3:7-1
up to 7-1
> log agree S3:7-1/S3:7-1 S4:9-1/S3:9-1
up to 7-1
> log agree S3:9-2/S3:9-2 S4:7-1/S3:7-1
up to 0
> log agree S3:7-0/S3:7-0 S4:7-1/S3:7-1
up to 0
> log agree S3:9/S3:9 S4:7-1/S3:7-1
up to 7-1
> log agree S3:9-2/S3:9-2 S4:7/S3:7
up to 7-2
> log agree S3:3-2/S3:3-2 S4:7-2/S3:7-2
up to 3-2
# the session stands in the histories
> log agree S5:9/S3:9 S4:7/S3:7
up to 7
> log agree S5:9-1/S3:9-1 S4:7-1/S3:7-1
up to 7-1
> log agree S5:7-1/S3:7-1 S4:9-1/S3:9-1
up to 7-1
> log agree S5:9-2/S3:9-2 S4:7-1/S3:7-1
up to 0
> log agree S5:7-0/S3:7-0 S4:7-1/S3:7-1
up to 0
> log agree S5:9/S3:9 S4:7-1/S3:7-1
up to 7-1
> log agree S5:9-2/S3:9-2 S4:7/S3:7
up to 7-2
> log agree S5:3-2/S3:3-2 S4:7-2/S3:7-2
up to 3-2
";

#[test]
fn sequences_up_to_which_logs_agree(rt: HostRuntime) -> Result<(), Fail> {
    replay::<Values, _>(&rt, rt.alloc(), AGREED)
}

// Each sequence of a log may be a whole number or a text, whatever its other sequences are.
const TEXTS: &str = r#"
# a log is read as it was written
> log write S"2:7-1/S"2:7-1,S1:4
{"history":[{"end_last_seq":"7-1","recorded_seq":"7-1","session_id":"S\"2","start_last_seq":0},{"end_last_seq":4,"recorded_seq":4,"session_id":"S1","start_last_seq":0}],"replication_id_version":3,"session_id":"S\"2","source_last_seq":"7-1"}
> log read {"history":[{"end_last_seq":"7-1","recorded_seq":"7-1","session_id":"S\"2","start_last_seq":0},{"end_last_seq":4,"recorded_seq":4,"session_id":"S1","start_last_seq":0}],"replication_id_version":3,"session_id":"S\"2","source_last_seq":"7-1"}
S"2 7-1
S"2 0 7-1 7-1
S1 0 4 4
# a log of numbers and texts is read
> log read {"history":[{"end_last_seq":2,"recorded_seq":"03-1","session_id":"S","start_last_seq":"1-7"}],"replication_id_version":3,"session_id":"S","source_last_seq":18446744073709551615}
S 18446744073709551615
S 1-7 2 3-1
# sequences that are written
> log read {"history":[],"replication_id_version":3,"session_id":"S","source_last_seq":1}
S 1
> log read {"history":[],"replication_id_version":3,"session_id":"S","source_last_seq":"1-1"}
S 1-1
> log read {"history":[],"replication_id_version":3,"session_id":"S","source_last_seq":"18446744073709551615-18446744073709551615"}
S 18446744073709551615-18446744073709551615
> log read {"history":[],"replication_id_version":3,"session_id":"S","source_last_seq":"1"}
none
> log read {"history":[],"replication_id_version":3,"session_id":"S","source_last_seq":"1-"}
none
> log read {"history":[],"replication_id_version":3,"session_id":"S","source_last_seq":"-1"}
none
> log read {"history":[],"replication_id_version":3,"session_id":"S","source_last_seq":"1-x"}
none
> log read {"history":[],"replication_id_version":3,"session_id":"S","source_last_seq":"1-1-1"}
none
> log read {"history":[],"replication_id_version":3,"session_id":"S","source_last_seq":"\"1-1\""}
none
> log read {"history":[],"replication_id_version":3,"session_id":"S","source_last_seq":"18446744073709551616-1"}
none
> log read {"history":[],"replication_id_version":3,"session_id":"S","source_last_seq":1.5}
none
> log read {"history":[],"replication_id_version":3,"session_id":"S","source_last_seq":-1}
none
# logs that are absent: a member is absent or of another kind, or the version is another
> log read []
none
> log read {
none
> log read {"history":[],"replication_id_version":3,"session_id":"S"}
none
> log read {"history":[],"replication_id_version":2,"session_id":"S","source_last_seq":1}
none
> log read {"history":[],"replication_id_version":"3","session_id":"S","source_last_seq":"1-1"}
none
> log read {"history":[{}],"replication_id_version":3,"session_id":"S","source_last_seq":1}
none
# a history that is too long
> log history 50
50 entries
> log history 51
none
"#;

#[test]
fn texts_of_logs(rt: HostRuntime) -> Result<(), Fail> {
    replay::<Values, _>(&rt, rt.alloc(), TEXTS)
}
