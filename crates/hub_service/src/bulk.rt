//! Batches of documents (CouchDB API reference, `POST /{db}/_bulk_docs`).

ghost use Rattle.std.specs.Prelude.{◌≡◌, Ok, Err, IfOk, IfErr, codes};
ghost use Rattle.serde_json.specs.Find.{get};
ghost use Rattle.serde_json.specs.View.{view, items_view};
ghost use Rattle.hub_replies.specs.Bulk.{batch_body};
ghost use Rattle.hub_service.specs.Bulk.{batch_in, batch_of, faults_of, flag_of};
ghost use Rattle.hub_service.specs.Bulk.{read_docs, readings, replies_of, reply_to};
ghost use Rattle.hub_service.specs.Calls.{says_batch, says_noted, batch_reply};
ghost use Rattle.hub_service.specs.Moments.{IsWritten};
ghost use Rattle.hub_service.specs.Said.{IsSaid};

use crate::context::Context;
use crate::refusal::{unnoted, with_refusal};
use crate::response::{Response, answer};
use hub_databases::{HubDb, Written};
use hub_document::{Doc, DocFault, RevId, read_doc};
use hub_http::{Refusal, StatusCode};
use hub_model::Outcome;
use hub_replies::{BatchReply, batch_body};
use serde_json::Value;
use std::alloc::{AllocError, Global};
use std::sync::Wait;

// Whether the revisions of a batch are made here: yes, where the request has no `new_edits`.
fn new_edits_of(request: &Value) -> Option<bool>
    ensures { result ≡ flag_of (get (codes "new_edits") (view request.now)) }
{
    match request.get("new_edits") {
        Some(flag) => flag.as_bool(),
        None => Some(true),
    }
}

// The elements of a batch, and whether their revisions are made here.
fn batch_of(request: &Value) -> Result<(&Vec<Value>, bool), Refusal>
    ensures ok { IfOk result
        (λ b.
        batch_of (view request.now) ≡ Ok (record { docs = items_view b.0.now.items; new_edits = b.1 })) }
    ensures err { IfErr result (λ e. batch_of (view request.now) ≡ Err e) }
{
    let Some(docs) = request.get("docs").and_then(Value::as_array) else {
        return Err(Refusal::NotObject);
    };
    match new_edits_of(request) {
        Some(new_edits) => Ok((docs, new_edits)),
        None => Err(Refusal::NotObject),
    }
}

/// The elements of a batch, as they were read.
#[derive(Drop)]
struct Readings {
    /// The elements that are documents, in order.
    docs: Vec<Doc>,
    /// For each element its fault, if it is no document.
    faults: Vec<Option<DocFault>>,
}

// Reads each element by itself. The cost is the length of the elements.
fn read_elements(alloc: Global, elements: &[Value], new_edits: bool) -> Result<Readings, AllocError>
    ensures docs { IfOk result
        (λ r. r.docs.items ≡ read_docs (readings new_edits (items_view elements.now))) }
    ensures faults { IfOk result
        (λ r. r.faults.items ≡ faults_of (readings new_edits (items_view elements.now))) }
{
    let mut docs = Vec::with_capacity(alloc, elements.len())?;
    let mut faults = Vec::with_capacity(alloc, elements.len())?;
    for element in elements {
        match read_doc(alloc, element, new_edits) {
            Ok(doc) => {
                docs.push(doc)?;
                faults.push(None)?;
            }
            Err(DocFault::NoMemory) => return Err(AllocError),
            Err(fault) => faults.push(Some(fault))?,
        }
    }
    Ok(Readings { docs, faults })
}

// The reply to a document, if it has one.
fn reply_to(new_edits: bool, outcome: &Outcome<RevId>) -> Option<BatchReply>
    ensures { result ≡ reply_to new_edits outcome.now }
{
    match outcome {
        Outcome::Stored(rev) => new_edits.then_some(BatchReply::Stored(*rev)),
        Outcome::Known => None,
        Outcome::Refused(fault) => Some(BatchReply::Refused(Refusal::from(*fault))),
    }
}

// The reply to each element, if it has one.
fn replies_of(
    alloc: Global,
    new_edits: bool,
    faults: &[Option<DocFault>],
    outcomes: &[Outcome<RevId>],
) -> Result<Vec<Option<BatchReply>>, AllocError>
    ensures { IfOk result (λ rs. rs.items ≡ replies_of new_edits faults.now outcomes.now) }
{
    let mut list = Vec::with_capacity(alloc, faults.len())?;
    let mut left = outcomes;
    for fault in faults {
        match fault {
            Some(fault) => list.push(Some(BatchReply::Refused(Refusal::from(*fault))))?,
            None => match left {
                [first, rest @ ..] => {
                    list.push(reply_to(new_edits, first))?;
                    left = rest;
                }
                [] => list.push(None)?,
            },
        }
    }
    Ok(list)
}

// The answer to a batch of these elements, with their faults, and with the result of the write.
fn say_batch(
    alloc: Global,
    elements: &[Value],
    new_edits: bool,
    faults: &[Option<DocFault>],
    written: &Written,
) -> Result<Response, Refusal>
    ensures { let w = written.now in IsSaid (says_noted w.lapsed (says_batch
        (record { docs = items_view elements.now; new_edits = new_edits })
        faults.now w.batch.stopped w.batch.replies)) result }
{
    if let Some(fault) = written.lapsed {
        return Err(unnoted(fault));
    }
    if written.batch.stopped {
        return Err(Refusal::NoMemory);
    }
    let replies = replies_of(alloc, new_edits, faults, written.batch.replies.as_slice())?;
    answer(
        StatusCode::CREATED,
        batch_body(alloc, elements, replies.as_slice()),
    )
}

impl<N: Wait> Context<'_, N> {
    // Stores the batch of these elements.
    fn store_elements(
        &self,
        db: &HubDb,
        elements: &[Value],
        new_edits: bool,
    ) -> Result<Response, Refusal>
        ensures { IsWritten (λ db. batch_reply db
            (Ok (record { docs = items_view elements.now; new_edits = new_edits }))) result }
    {
        let Readings { docs, faults } = read_elements(self.alloc, elements, new_edits)?;
        let written = with_refusal(self.hub.write(self.rt, db, docs, new_edits))?;
        say_batch(self.alloc, elements, new_edits, faults.as_slice(), &written)
    }

    /// Stores the batch of documents in a body. The cost is the body's length, and the cost of `Hub::write`.
    /// Out of memory, the first documents of the batch may stay stored.
    pub(crate) fn store_batch(&self, db: &HubDb, body: &[u8]) -> Result<Response, Refusal>
        ensures { IsWritten (λ db. batch_reply db (batch_in body.now)) result }
    {
        let request = self.rooms.read(self.rt, body)?;
        let (docs, new_edits) = batch_of(&request)?;
        self.store_elements(db, docs.as_slice(), new_edits)
    }
}
