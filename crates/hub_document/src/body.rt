//! The members of a document that are its own: their names do not begin with `_`.

ghost use Rattle.std.specs.Prelude.{◌≡◌, codes, false, IfOk};
ghost use Rattle.serde_json.specs.View.{members_view};
ghost use Rattle.serde_json.specs.Written.{members_have_float};
ghost use Rattle.hub_document.specs.Appends.{Appends};
ghost use Rattle.hub_document.specs.BodyText.{body_text};
ghost use Rattle.hub_document.specs.Joined.{rest_text};

use crate::members::is_hidden;
use crate::write::write_value;
use json::Writer;
use serde_json::{Map, Value};
use std::alloc::{AllocError, Global};
use std::marker::Model;

// The bytes of room that a body is first written into: most bodies fit.
const FIRST_ROOM: usize = 256;

/// A document's members whose names do not begin with `_`, seen as their compact JSON text: an object whose
/// keys are in byte order.
#[derive(Debug, Drop)]
pub struct Body {
    text: Vec<u8>,
}

impl Model for Body {
    ghost use Rattle.std.specs.Prelude.{List, ℕ};

    ghost Value = { List ℕ };

    ghost view = { λ a. a.text.items };

    ghost use Rattle.hub_document.specs.Braced.{IsBraced};

    ghost invariant = { λ a. IsBraced a.text.items };
}

impl Body {
    /// The text: one object, without blanks, its keys in byte order. Constant time.
    pub fn as_bytes(&self) -> &[u8]
        ensures { result.now ≡ self.now }
    {
        self.text.as_slice()
    }

    /// Appends a comma and the members, where there are any, and then the closing brace. The text is copied
    /// as it is, and the comma is written over its opening brace.
    #[inline(always)]
    pub(crate) fn put_rest(&self, out: &mut Vec<u8>) -> Result<(), AllocError>
        ensures { Appends (rest_text self.now) result out.old.items out.new.items }
    {
        if self.text.len() == 2 {
            return out.extend_from_slice(&self.text[1..]);
        }
        let start = out.len();
        out.extend_from_slice(self.text.as_slice())?;
        out.as_mut_slice()[start] = b',';
        Ok(())
    }

    /// The body without members, `{}`.
    pub fn empty(alloc: Global) -> Result<Body, AllocError>
        ensures { IfOk result (λ b. b ≡ codes "{}") }
    {
        let text = Vec::from_slice(alloc, b"{}")?;
        Ok(Body { text })
    }

    /// A copy. The cost is the text's length.
    pub fn copy(&self, alloc: Global) -> Result<Body, AllocError>
        ensures { IfOk result (λ b. b ≡ self.now) }
    {
        let text = Vec::from_slice(alloc, self.text.as_slice())?;
        Ok(Body { text })
    }

    /// A copy in the memory of a spare body. Other memory is taken where the spare body's is too small, and
    /// where more than half of it would lie unused. The cost is the text's length.
    pub fn copy_over(&self, spare: Body) -> Result<Body, AllocError>
        ensures { IfOk result (λ b. b ≡ self.now) }
    {
        let Body { mut text } = spare;
        if text.capacity() / 2 > self.text.len() {
            return self.copy(*text.allocator());
        }
        text.clear();
        text.extend_from_slice(self.text.as_slice())?;
        Ok(Body { text })
    }
}

/// The body of an object's own members. Each member is written into the one text, so the cost is the text's
/// length. The text is kept without room to grow.
pub(crate) fn body_of(alloc: Global, members: &Map<String, Value>) -> Result<Body, AllocError>
    requires { members_have_float (members_view members.now.entries) ≡ false }
    ensures { IfOk result (λ b. b ≡ body_text (members_view members.now.entries)) }
{
    let mut out = Writer::new(Vec::with_capacity(alloc, FIRST_ROOM)?);
    out.begin_object()?;
    for (key, member) in members.iter() {
        if !is_hidden(key.as_str()) {
            out.key(key.as_str())?;
            write_value(member, &mut out)?;
        }
    }
    out.end_object()?;
    let mut text = out.into_inner();
    text.shrink_to_fit();
    Ok(Body { text })
}
