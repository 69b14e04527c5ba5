//! JSON values, read with room that is used for one text after the other.
//!
//! `serde_json` clears 16 kB for each text that it reads. The kit's `json` reads into a tree that borrows
//! from its text, with the caller's room. The tree is then made into a value of `serde_json`.

ghost use Rattle.std.specs.Prelude.{◌≡◌, ◌⊎◌, None, Some, IfErr, IfOk, option_map};
ghost use Rattle.json.specs.Value.{value_view, items_view as trees_view, members_view as tree_members_view};
ghost use Rattle.serde_json.specs.Data.{no_members};
ghost use Rattle.serde_json.specs.Read.{number_of, of_json, of_items, of_members};
ghost use Rattle.serde_json.specs.View.{view, number_view, items_view, members_view};
ghost use Rattle.hub_document.specs.Reading.{ReadsJson};

use crate::doc::DocFault;
use crate::read::read_value;
use fast_float::Numeral;
use json::{Error, Reader, Scratch, Value as Tree};
use serde_json::{Map, Number, Value};
use std::alloc::Global;

/// How many levels deep arrays and objects may nest, as in `serde_json`.
const MAX_DEPTH: usize = 127;

/// The bytes of the longest text that is read with the caller's room. For a longer text, the clearing of 16
/// kB costs little, and less than a tree.
const SHORT: usize = 4_096;

/// The number of a JSON token; None where it is too large for a float. `-0` is a float.
fn number_of(text: &str) -> Option<Number>
    ensures { option_map number_view result ≡ number_of text.now }
{
    match text.as_bytes() {
        [b'-', digits @ ..] => {
            let numeral = Numeral::scan(digits);
            match numeral.to_i64(true) {
                Some(n) if n < 0 => Some(Number::from(n)),
                _ => Number::from_f64(numeral.to_float::<f64>(true)),
            }
        }
        digits => {
            let numeral = Numeral::scan(digits);
            match numeral.to_u64() {
                Some(n) => Some(Number::from(n)),
                None => Number::from_f64(numeral.to_float::<f64>(false)),
            }
        }
    }
}

/// The value of a tree; `NotJson` where a number of the tree is too large for a float.
#[cycle(value)]
fn value_of(alloc: Global, tree: &Tree<'_>) -> Result<Value, DocFault>
    ensures ok { IfOk result (λ v. of_json (value_view tree.now) ≡ Some (view v)) }
    ensures err { IfErr result (λ e. (e ≡ DocFault.NoMemory)
        ⊎ ((e ≡ DocFault.NotJson) × (of_json (value_view tree.now) ≡ None))) }
{
    match tree {
        Tree::Null => Ok(Value::Null),
        Tree::Bool(b) => Ok(Value::Bool(*b)),
        Tree::Number(text) => match number_of(text) {
            Some(number) => Ok(Value::Number(number)),
            None => Err(DocFault::NotJson),
        },
        Tree::String(text) => Ok(Value::String(String::from_str(alloc, text)?)),
        Tree::Array(trees) => Ok(Value::Array(items_of(alloc, trees)?)),
        Tree::Object(trees) => Ok(Value::Object(members_of(alloc, trees)?)),
    }
}

#[cycle(value)]
fn items_of(alloc: Global, trees: &Vec<Tree<'_>>) -> Result<Vec<Value>, DocFault>
    ensures ok { IfOk result (λ v. of_items (trees_view trees.now.items) ≡ Some (items_view v.items)) }
    ensures err { IfErr result (λ e. (e ≡ DocFault.NoMemory)
        ⊎ ((e ≡ DocFault.NotJson) × (of_items (trees_view trees.now.items) ≡ None))) }
{
    let mut items = Vec::with_capacity(alloc, trees.len())?;
    for tree in trees {
        let item = value_of(alloc, tree)?;
        match items.push(item) {
            Ok(()) => {}
            Err(_) => return Err(DocFault::NoMemory),
        }
    }
    Ok(items)
}

/// The members of an object: of several members with one name, the last.
#[cycle(value)]
fn members_of(alloc: Global, trees: &Vec<(&str, Tree<'_>)>) -> Result<Map<String, Value>, DocFault>
    ensures ok { IfOk result (λ m. of_members (tree_members_view trees.now.items) no_members
        ≡ Some (members_view m.entries)) }
    ensures err { IfErr result (λ e. (e ≡ DocFault.NoMemory) ⊎ ((e ≡ DocFault.NotJson)
        × (of_members (tree_members_view trees.now.items) no_members ≡ None))) }
{
    let mut members = Map::new(alloc);
    for tree in trees {
        let name = String::from_str(alloc, tree.0)?;
        let member = value_of(alloc, &tree.1)?;
        match members.insert(name, member) {
            Ok(_) => {}
            Err(_) => return Err(DocFault::NoMemory),
        }
    }
    Ok(members)
}

/// Room for reading short JSON texts: some 16 kB, and as many bytes as the longest of these texts.
#[derive(Drop)]
pub struct JsonRoom {
    scratch: Scratch,
}

impl JsonRoom {
    /// Room that was not used yet. The call takes no memory beside the value's own 16 kB.
    pub fn new(alloc: Global) -> JsonRoom {
        JsonRoom {
            scratch: Scratch::new(alloc),
        }
    }

    /// The JSON value of a text, as `read_value` gives it. The cost is the text's length. A text of at most 4
    /// KiB is read with this room, and no other room is cleared.
    pub fn read(&mut self, alloc: Global, bytes: &[u8]) -> Result<Value, DocFault>
        ensures { ReadsJson bytes.now result }
    {
        if bytes.len() > SHORT {
            return read_value(alloc, bytes);
        }
        let Ok(text) = simdutf8::compat::from_utf8(bytes) else {
            return Err(DocFault::NotJson);
        };
        let Ok(mut reader) = Reader::new(text, &mut self.scratch) else {
            return Err(DocFault::NoMemory);
        };
        let tree = match Tree::read(alloc, &mut reader, MAX_DEPTH) {
            Ok(tree) => tree,
            Err(Error::OutOfMemory) => return Err(DocFault::NoMemory),
            Err(_) => return Err(DocFault::NotJson),
        };
        if reader.next().is_some() {
            return Err(DocFault::NotJson);
        }
        value_of(alloc, &tree)
    }
}
