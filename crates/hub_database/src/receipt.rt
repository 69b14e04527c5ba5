//! Receipts of accepted edits.

ghost use Rattle.std.specs.Prelude.{◌≡◌, ◌<◌, ◌^◌, length, IfOk, OnErr};
ghost use Rattle.hub_database.specs.Receipts.{IsAudit, has_edit, ids_of, receipts_from};

use crate::database::DbState;
use hub_document::{Doc, DocId, RevId};
use hub_model::Outcome;
use std::alloc::{AllocError, Global};
use std::marker::Model;
use thiserror::Error;

/// The record of an accepted edit: its sequence, its document, and its revision.
#[derive(Debug, Drop)]
pub struct Receipt {
    /// The edit's sequence: the first edit has 1.
    pub seq: u64,
    /// The document's id.
    pub id: DocId,
    /// The revision that the edit gave the document.
    pub rev: RevId,
}

/// The room for the receipts of a write, with the ids of its documents. Contracts see the ids.
#[derive(Debug, Drop)]
pub struct ReceiptRoom {
    ids: Vec<DocId>,
    /// Empty, with room for as many receipts as there are ids.
    receipts: Vec<Receipt>,
}

impl Model for ReceiptRoom {
    ghost use Rattle.std.specs.Prelude.{◌≡◌, ◌≤◌, [], ℕ, List, vec_capacity, vec_len};

    ghost Value = { List (List ℕ) };

    ghost view = { λ a. a.ids.items };

    ghost invariant = { λ a. (a.receipts.items ≡ []) × (vec_len a.ids ≤ vec_capacity a.receipts) };
}

impl ReceiptRoom {
    /// The room for the receipts of these documents. The cost is copies of their ids.
    pub fn of(alloc: Global, docs: &[Doc]) -> Result<ReceiptRoom, AllocError>
        ensures ok { IfOk result (λ room. room ≡ ids_of docs.now) }
        ensures memory { OnErr result (0 < length docs.now) }
    {
        let mut ids = Vec::new(alloc);
        for doc in docs {
            ids.push(doc.id.copy()?)?;
        }
        let mut receipts = Vec::new(alloc);
        receipts.try_reserve(ids.len())?;
        Ok(ReceiptRoom { ids, receipts })
    }

    /// The receipts of the documents, which got these replies where there were `before` edits. The call
    /// takes no memory. The cost is a step for each document.
    pub fn fill(self, before: u64, replies: &[Outcome<RevId>]) -> Vec<Receipt>
        requires fits { before < 2 ^ 32 }
        ensures { result.items ≡ receipts_from before self replies.now }
    {
        let ReceiptRoom { ids, mut receipts } = self;
        let mut next = before;
        let mut at = 0;
        for id in ids {
            if at >= replies.len() {
                break;
            }
            if let Outcome::Stored(rev) = replies[at] {
                next += 1;
                receipts.push_reserved(Receipt { seq: next, id, rev });
            }
            at += 1;
        }
        receipts
    }
}

/// The fault where receipts are not all of a journal.
#[derive(Clone, Copy, Debug, PartialEq, Eq, Error)]
pub enum AuditFault {
    /// The first receipt whose edit is not in the journal at its sequence.
    #[error("the journal has no such edit as receipt {at} tells of")]
    WrongReceipt {
        /// The receipt's place among the receipts, from 0 on.
        at: usize,
    },
}

// Whether the journal has the receipt's edit at its sequence.
fn has_edit(state: &DbState, receipt: &Receipt) -> bool
    ensures { result ≡ has_edit state.now.journal receipt.now }
{
    match state.entry(receipt.seq) {
        Some((id, rev)) => id == receipt.id.as_str() && rev.is_same(&receipt.rev),
        None => false,
    }
}

/// Compares receipts with the journal of a database. The edit of each receipt has to be there at its
/// sequence, with its document and its revision. The fault names the first receipt whose edit is not there.
/// The call takes no memory. The cost is a look in the journal for each receipt.
pub fn audit_of(state: &DbState, receipts: &[Receipt]) -> Result<(), AuditFault>
    ensures { IsAudit state.now.journal receipts.now result }
{
    for at in 0..receipts.len() {
        if !has_edit(state, &receipts[at]) {
            return Err(AuditFault::WrongReceipt { at });
        }
    }
    Ok(())
}
