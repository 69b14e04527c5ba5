//! Calls on a hub beside the sessions of its clients.

use hub_databases::Hub;
use hub_http::{ChunkWriter, Request, Requests, Tally};
use hub_model::Mode;
use hub_session::{Sending, Service};
use hub_transcript::Answer;
use std::alloc::{AllocError, Global};
use std::sync::Wait;

/// The request of a text. It is an error out of memory, and each time where the text is no request.
fn request(alloc: Global, text: &str) -> Result<Request, AllocError> {
    let mut requests = Requests::new(alloc, Tally::new(text.as_bytes()));
    match requests.next() {
        Ok(Some(request)) => Ok(request),
        _ => Err(AllocError),
    }
}

/// Has a service answer the request of a text, and drops the answer.
pub(crate) fn open<S: Service>(
    alloc: Global,
    service: &mut S,
    text: &str,
) -> Result<(), AllocError> {
    let request = request(alloc, text)?;
    let _opened = service.answer(&request);
    Ok(())
}

/// Shows the chunk of a feed's next item, as of a continuous feed. `|` stands for the end of a line of the
/// chunk, and `\n` for a line feed. Where no item came, as out of memory, the service is asked once more.
pub(crate) fn show_item<S: Service>(
    alloc: Global,
    service: &mut S,
    answer: &mut Answer,
) -> Result<(), AllocError> {
    let mut chunks = ChunkWriter::new(alloc);
    let mut writer = Tally::new(Vec::new(alloc));
    let sending = Sending::new(Mode::Continuous, 0);
    let mut sent = service.send_next(sending, &mut chunks, &mut writer);
    if sent.is_none() {
        sent = service.send_next(sending, &mut chunks, &mut writer);
    }
    let Some(item) = sent else {
        return answer.line("no item");
    };
    let Ok(text) = String::from_utf8(writer.into_inner()) else {
        return answer.line("no text");
    };
    if item.written.is_err() {
        return Err(AllocError);
    }
    let shown = text.replace(alloc, "\r\n", "|")?;
    answer.line(shown.replace(alloc, "\n", r"\n")?)
}

/// Deletes a database under its lock, and leaves its name.
pub(crate) fn delete<N: Wait>(
    hub: &Hub,
    rt: &N,
    name: &str,
    answer: &mut Answer,
) -> Result<(), AllocError> {
    let Ok(db) = hub.find(rt, name) else {
        return Err(AllocError);
    };
    let handle = db.handle()?;
    answer.line(if handle.delete(rt).is_ok() {
        "deleted"
    } else {
        "deleted before"
    })
}
