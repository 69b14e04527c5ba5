//! Revisions of several documents that are asked for.

ghost use Rattle.std.specs.Prelude.{◌≡◌, ◌⊎◌, ◌<◌, length, is_some, IfOk};
ghost use Rattle.std.specs.Prelude.{IfErr, IsOkAnd, Ok, Err, option_map};
ghost use Rattle.serde_json.specs.View.{view, items_view, members_view};
ghost use Rattle.serde_json.specs.Find.{as_array};
ghost use Rattle.hub_document.specs.Asking.{asked_in, asked_of as asked_of_members};
ghost use Rattle.hub_document.specs.Asking.{are_lists as are_lists_of, are_texts as are_texts_of};

use crate::doc::DocFault;
use crate::open_revs::{are_revs, revs_in};
use crate::revisions::Revisions;
use serde_json::{Map, Value};
use std::alloc::{AllocError, Global};
use std::marker::Model;

/// Some revisions of a document (CouchDB API reference, `_revs_diff`).
#[derive(Debug, Drop)]
pub struct Asked {
    /// The document's id. Any text may stand here, even one that no document can have as its id.
    pub id: String,
    /// The revisions that are asked for.
    pub revs: Revisions,
}

impl Model for Asked {
    ghost use Rattle.std.specs.Prelude.{string_bytes};
    ghost use Rattle.hub_model.specs.Missing.{RevisionsOfDoc as Asking};

    ghost Value = { Asking };

    ghost view = { λ a. record { id = string_bytes a.id; revs = a.revs } };
}

impl Asked {
    /// A copy. The cost is the length of the id and of the list of revisions.
    pub fn copy(&self, alloc: Global) -> Result<Asked, AllocError>
        ensures { IfOk result (λ copy. copy ≡ self.now) }
    {
        let id = String::from_str(alloc, self.id.as_str())?;
        let revs = self.revs.copy(alloc)?;
        Ok(Asked { id, revs })
    }
}

fn are_texts(items: &Vec<Value>) -> bool
    ensures { result ≡ are_texts_of (items_view items.now.items) }
{
    for item in items {
        if !item.is_string() {
            return false;
        }
    }
    true
}

// Whether each member is an array of texts.
fn are_lists(members: &Map<String, Value>) -> bool
    ensures { result ≡ are_lists_of (members_view members.now.entries) }
{
    for (_, member) in members.iter() {
        let Some(items) = member.as_array() else {
            return false;
        };
        if !are_texts(items) {
            return false;
        }
    }
    true
}

// Whether each member is an array of revisions.
fn list_revs(members: &Map<String, Value>) -> bool
    ensures { result ≡ is_some (asked_of_members (members_view members.now.entries)) }
{
    for (_, member) in members.iter() {
        if !are_revs(member) {
            return false;
        }
    }
    true
}

// Each member's key as an id, with its revisions; None where a member is no array of revisions.
fn asked_of(alloc: Global, members: &Map<String, Value>) -> Result<Option<Vec<Asked>>, AllocError>
    ensures value { IfOk result (λ o. option_map (λ v. v.items) o
        ≡ asked_of_members (members_view members.now.entries)) }
    ensures memory { IfErr result (λ _. 0 < length members.now.entries) }
{
    let mut asked = Vec::new(alloc);
    for (key, member) in members.iter() {
        let Some(revs) = revs_in(alloc, member)? else {
            return Ok(None);
        };
        let id = String::from_str(alloc, key.as_str())?;
        asked.push(Asked { id, revs })?;
    }
    Ok(Some(asked))
}

/// The revisions that a JSON value asks for: an object whose keys are ids, and whose members are arrays of
/// revisions. The list is in the byte order of the ids. A value of another shape is `NotObject`, else a text
/// that is no revision is `BadRev`. The cost is the value's size. `NoMemory` comes only for a value that has
/// no fault and at least one member. Like `read_doc` the function is no method.
#[tactic(auto, using(crate::proofs::AskedLemmas::asks_some))]
pub fn read_asked(alloc: Global, value: &Value) -> Result<Vec<Asked>, DocFault>
    ensures ok { IfOk result (λ v. asked_in (view value.now) ≡ Ok v.items) }
    ensures err { IfErr result (λ e. (e ≡ DocFault.NoMemory) ⊎ (asked_in (view value.now) ≡ Err e)) }
    ensures memory { IfErr result (λ e. e ≡ DocFault.NoMemory
        → IsOkAnd (asked_in (view value.now)) (λ asked. 0 < length asked)) }
{
    let Some(members) = value.as_object() else {
        return Err(DocFault::NotObject);
    };
    if !are_lists(members) {
        return Err(DocFault::NotObject);
    }
    match asked_of(alloc, members) {
        Ok(Some(asked)) => Ok(asked),
        Err(_) if list_revs(members) => Err(DocFault::NoMemory),
        _ => Err(DocFault::BadRev),
    }
}
