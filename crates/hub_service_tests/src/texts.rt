//! The bytes of requests, and the bytes of answers as lines.

use hub_session::Closing;
use hub_transcript::{Answer, Words};
use std::alloc::{AllocError, Global};

/// The bytes of a request without a field.
fn bare(alloc: Global, method: &str, target: &str) -> Result<String, AllocError> {
    format!(in alloc; "{method} {target} HTTP/1.1\r\n\r\n")
}

/// The bytes of a request with a body.
fn full(alloc: Global, method: &str, target: &str, body: &str) -> Result<String, AllocError> {
    let len = body.len();
    format!(in alloc;
        "{method} {target} HTTP/1.1\r\nHost: h\r\nContent-Length: {len}\r\n\r\n{body}"
    )
}

/// The bytes of a batch of one document `x`, whose history has `count` revisions.
fn history(alloc: Global, count: u64) -> Result<String, AllocError> {
    let ids = r#""a","#.repeat(alloc, count.saturating_sub(1) as usize)?;
    let body = format!(in alloc;
        r#"{{"docs":[{{"_id":"x","_revisions":{{"start":{count},"ids":[{ids}"a"]}}}}],"new_edits":false}}"#
    )?;
    full(alloc, "POST", "/d/_bulk_docs", body.as_str())
}

/// The bytes of a request, whose forms stand at `Client`.
pub(crate) fn asked(alloc: Global, request: &str) -> Result<String, AllocError> {
    let mut words = Words::of(request);
    let method = words.word();
    if method == "bytes" {
        return words.rest().replace(alloc, r"\r\n", "\r\n");
    }
    if method == "history" {
        return history(alloc, words.number());
    }
    let target = words.word();
    let body = words.rest();
    if body.is_empty() {
        return bare(alloc, method, target);
    }
    full(alloc, method, target, if body == "-" { "" } else { body })
}

/// Texts of answers, each with the text that is shown in its place. They are a line feed, the end of a line
/// of a head or a chunk, the fields of each answer, the last chunk, and the end of a head.
const SHOWN: &[(&str, &str)] = &[
    ("\n", r"\n"),
    ("\r\\n", "\n"),
    (
        "\nContent-Type: application/json\nContent-Length: ",
        ", JSON of ",
    ),
    (
        "\nContent-Type: application/json\nTransfer-Encoding: chunked",
        ", JSON in chunks",
    ),
    ("\n0\n\n", "\nlast chunk"),
    ("\n\n", ":\n"),
];

/// Shows the output of a session as lines, and why it closed unless the closing is `Finished`.
pub(crate) fn show(
    alloc: Global,
    answer: &mut Answer,
    written: &str,
    closing: Closing,
) -> Result<(), AllocError> {
    let mut text = String::from_str(alloc, written)?;
    for (from, to) in SHOWN {
        text = text.replace(alloc, *from, to)?;
    }
    answer.line(text)?;
    if closing == Closing::Finished {
        return Ok(());
    }
    answer.text("closed: ")?;
    answer.line(closing)
}
