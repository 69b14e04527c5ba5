//! Replication logs as the members of local documents.

ghost use Rattle.std.specs.Prelude.{◌≡◌, ◌⊎◌, ◌++◌, ◌≤◌, length, Some, None, option_map, decimal, IfOk, OnOk};
ghost use Rattle.serde_json.specs.View.{view, items_view};
ghost use Rattle.hub_follower.specs.LogText.{entry_in, entries_in, history_in, log_of};
ghost use Rattle.hub_follower.specs.LogText.{log_in, seq_at, seq_text, seq_value};
ghost use Rattle.hub_follower.specs.LogText.{entry_text, later_entries_text, entries_text, log_text};

use crate::log::{HistoryEntry, Log};
use hub_document::{DocFault, put_quoted, put_sequence, read_value};
use hub_follow_model::Seq;
use hub_params::read_tagged;
use itoa::Buffer;
use serde_json::Value;
use std::alloc::{AllocError, Global};

// The version of replication logs that is known.
const VERSION: u64 = 3;

// The greatest number of entries in a log's history.
const ENTRIES: usize = 50;

// The sequence that a value writes: as "12-3", or as a number alone, whose life is not known.
fn seq_of(value: &Value) -> Option<Seq>
    ensures { result ≡ seq_value (view value.now) }
{
    if let Some(text) = value.as_str() {
        let (n, life) = read_tagged(text)?;
        return Some(Seq::of_life(n, life));
    }
    let n = value.as_u64()?;
    Some(Seq { n, life: None })
}

// The sequence that a member of a value writes.
fn seq_at(value: &Value, name: &str) -> Option<Seq>
    ensures { result ≡ seq_at name.now (view value.now) }
{
    seq_of(value.get(name)?)
}

// The entry that a value writes.
fn entry_of(alloc: Global, value: &Value) -> Result<Option<HistoryEntry>, AllocError>
    ensures { IfOk result (λ o. o ≡ entry_in (view value.now)) }
{
    let (Some(session), Some(start_last_seq), Some(end_last_seq), Some(recorded_seq)) = (
        value.get("session_id").and_then(Value::as_str),
        seq_at(value, "start_last_seq"),
        seq_at(value, "end_last_seq"),
        seq_at(value, "recorded_seq"),
    ) else {
        return Ok(None);
    };
    let session_id = String::from_str(alloc, session)?;
    Ok(Some(HistoryEntry {
        session_id,
        start_last_seq,
        end_last_seq,
        recorded_seq,
    }))
}

// The entries that an array's items write.
fn entries_of(alloc: Global, items: &Vec<Value>) -> Result<Option<Vec<HistoryEntry>>, AllocError>
    ensures { IfOk result (λ o. option_map (λ v. v.items) o ≡ entries_in (items_view items.now.items)) }
{
    let mut history = Vec::new(alloc);
    for item in items {
        let Some(entry) = entry_of(alloc, item)? else {
            return Ok(None);
        };
        history.push(entry)?;
    }
    Ok(Some(history))
}

// The history that a value writes.
fn history_of(alloc: Global, value: &Value) -> Result<Option<Vec<HistoryEntry>>, AllocError>
    ensures { IfOk result (λ o. option_map (λ v. v.items) o ≡ history_in (view value.now)) }
{
    let Some(items) = value.get("history").and_then(Value::as_array) else {
        return Ok(None);
    };
    let Some(history) = entries_of(alloc, items)? else {
        return Ok(None);
    };
    if history.len() <= ENTRIES {
        Ok(Some(history))
    } else {
        Ok(None)
    }
}

// The log that a value writes.
fn log_of_value(alloc: Global, value: &Value) -> Result<Option<Log>, AllocError>
    ensures { IfOk result (λ o. o ≡ log_of (view value.now)) }
{
    let Some(version) = value.get("replication_id_version").and_then(Value::as_u64) else {
        return Ok(None);
    };
    if version != VERSION {
        return Ok(None);
    }
    let Some(session) = value.get("session_id").and_then(Value::as_str) else {
        return Ok(None);
    };
    let Some(source_last_seq) = seq_at(value, "source_last_seq") else {
        return Ok(None);
    };
    let Some(history) = history_of(alloc, value)? else {
        return Ok(None);
    };
    let session_id = String::from_str(alloc, session)?;
    Ok(Some(Log {
        session_id,
        source_last_seq,
        history,
    }))
}

// Appends the digits of a whole number.
fn put_number(out: &mut Vec<u8>, number: u64) -> Result<(), AllocError>
    ensures { OnOk result (out.new.items ≡ out.old.items ++ decimal number) }
{
    let mut digits = Buffer::new();
    out.extend_from_slice(digits.format(number).as_bytes())
}

// Appends the bytes in front of a sequence, and the sequence's text: a JSON string, or a number alone where
// its life is not known.
fn put_seq(out: &mut Vec<u8>, front: &[u8], seq: Seq) -> Result<(), AllocError>
    ensures { OnOk result (out.new.items ≡ out.old.items ++ (front.now ++ seq_text seq)) }
{
    out.extend_from_slice(front)?;
    match seq.life {
        None => put_number(out, seq.n),
        Some(life) => put_sequence(out, seq.n, life),
    }
}

// Appends the text of an entry.
fn put_entry(out: &mut Vec<u8>, entry: &HistoryEntry) -> Result<(), AllocError>
    ensures { OnOk result (out.new.items ≡ out.old.items ++ entry_text entry.now) }
{
    put_seq(out, b"{\"end_last_seq\":", entry.end_last_seq)?;
    put_seq(out, b",\"recorded_seq\":", entry.recorded_seq)?;
    out.extend_from_slice(b",\"session_id\":")?;
    put_quoted(out, entry.session_id.as_str())?;
    put_seq(out, b",\"start_last_seq\":", entry.start_last_seq)?;
    out.extend_from_slice(b"}")?;
    Ok(())
}

// Appends the texts of entries, each with a comma in front.
fn put_later_entries(out: &mut Vec<u8>, entries: &[HistoryEntry]) -> Result<(), AllocError>
    ensures { OnOk result (out.new.items ≡ out.old.items ++ later_entries_text entries.now) }
{
    for entry in entries {
        out.extend_from_slice(b",")?;
        put_entry(out, entry)?;
    }
    Ok(())
}

// Appends the texts of entries, with commas between them.
fn put_entries(out: &mut Vec<u8>, entries: &[HistoryEntry]) -> Result<(), AllocError>
    ensures { OnOk result (out.new.items ≡ out.old.items ++ entries_text entries.now) }
{
    let Some((first, later)) = entries.split_first() else {
        return Ok(());
    };
    put_entry(out, first)?;
    put_later_entries(out, later)?;
    Ok(())
}

// Appends the text of a log.
fn put_log(out: &mut Vec<u8>, log: &Log) -> Result<(), AllocError>
    ensures { OnOk result (out.new.items ≡ out.old.items ++ log_text log.now) }
{
    out.extend_from_slice(b"{\"history\":[")?;
    put_entries(out, log.history.as_slice())?;
    out.extend_from_slice(b"],\"replication_id_version\":")?;
    put_number(out, VERSION)?;
    out.extend_from_slice(b",\"session_id\":")?;
    put_quoted(out, log.session_id.as_str())?;
    put_seq(out, b",\"source_last_seq\":", log.source_last_seq)?;
    out.extend_from_slice(b"}")?;
    Ok(())
}

impl Log {
    /// The log in the members of a local document. None where the text is no JSON, a member is absent or of
    /// another kind, the version is not 3, or the history has more than 50 entries. A sequence is a JSON
    /// string, as `"12-3"`, or a whole number, which has no life. The cost is the text's length.
    pub fn read(alloc: Global, members: &[u8]) -> Result<Option<Log>, AllocError>
        ensures { IfOk result (λ o. o ≡ log_in members.now) }
    {
        match read_value(alloc, members) {
            Ok(value) => log_of_value(alloc, &value),
            Err(DocFault::NotJson) => Ok(None),
            Err(_) => Err(AllocError),
        }
    }

    /// The members of the log's local document, in the byte order of the keys. A sequence without a life is a
    /// whole number. The cost is the text's length.
    pub fn text(&self, alloc: Global) -> Result<Vec<u8>, AllocError>
        ensures { IfOk result (λ text. text.items ≡ log_text self.now) }
    {
        let mut out = Vec::new(alloc);
        put_log(&mut out, self)?;
        Ok(out)
    }
}
