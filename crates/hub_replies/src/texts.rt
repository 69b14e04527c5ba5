//! Lists of members, written behind the bytes of a vector.

ghost use Rattle.std.specs.Prelude.{◌≡◌, ◌++◌, ℕ, List, codes, map, IfOk, OnOk};
ghost use Rattle.std.specs.List.{join_with_byte};
ghost use Rattle.serde_json.specs.Written.{comma_if};
ghost use Rattle.hub_replies.specs.Bodies.{list_text};

use std::alloc::{AllocError, Global};

/// A member of a list, which is written as JSON.
pub(crate) trait Member {
    /// The text of the member.
    ghost text: { Self → List ℕ };

    /// Appends the text.
    fn put(&self, out: &mut Vec<u8>) -> Result<(), AllocError>
        ensures { OnOk result (out.new.items ≡ out.old.items ++ text self.now) };
}

/// Appends a comma where `later` says that the next member of a list is not its first.
pub(crate) fn put_comma(out: &mut Vec<u8>, later: bool) -> Result<(), AllocError>
    ensures { OnOk result (out.new.items ≡ out.old.items ++ comma_if later) }
{
    if later {
        out.push(b',')?;
    }
    Ok(())
}

/// Appends members, with commas between them.
pub(crate) fn put_members<M: Member>(out: &mut Vec<u8>, members: &[M]) -> Result<(), AllocError>
    ensures { OnOk result (out.new.items ≡ out.old.items ++ join_with_byte 44 (map M.text members.now)) }
{
    let mut later = false;
    for member in members {
        put_comma(out, later)?;
        member.put(out)?;
        later = true;
    }
    Ok(())
}

/// Appends the JSON list of members.
#[tactic(auto, unfolding(crate::specs::Bodies::list_text))]
pub(crate) fn put_list<M: Member>(out: &mut Vec<u8>, members: &[M]) -> Result<(), AllocError>
    ensures { OnOk result (out.new.items ≡ out.old.items ++ list_text (map M.text members.now)) }
{
    out.push(b'[')?;
    put_members(out, members)?;
    Ok(out.push(b']')?)
}

/// The body with the JSON list of members.
pub(crate) fn list_body<M: Member>(alloc: Global, members: &[M]) -> Result<Vec<u8>, AllocError>
    ensures { IfOk result (λ t. t.items ≡ list_text (map M.text members.now) ++ codes "\n") }
{
    let mut text = Vec::new(alloc);
    put_list(&mut text, members)?;
    text.push(b'\n')?;
    Ok(text)
}
