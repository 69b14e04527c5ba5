//! The texts of rows of the log of updates.

ghost use Rattle.std.specs.Prelude.{◌≡◌};
ghost use Rattle.hub_http.specs.UpdateTexts.{kind_text, update_row_text, update_end_text};

use crate::row_text::RowText;
use hub_document::{UpdateRow, put_quoted, put_sequence};
use hub_model::UpdateKind;
use std::alloc::AllocError;

#[tactic(auto, unfolding(crate::specs::UpdateTexts::kind_text))]
fn kind_text(kind: UpdateKind) -> &'static str
    ensures { result.now ≡ kind_text kind }
{
    match kind {
        UpdateKind::Created => "\"created\"",
        UpdateKind::Updated => "\"updated\"",
        UpdateKind::Deleted => "\"deleted\"",
    }
}

impl RowText for UpdateRow {
    ghost row_text = { update_row_text };

    ghost end_text = { update_end_text };

    fn put_row(&self, out: &mut Vec<u8>, life: u64) -> Result<(), AllocError> {
        out.extend_from_slice(b"{\"db_name\":")?;
        put_quoted(out, self.db_name.as_str())?;
        out.extend_from_slice(b",\"type\":")?;
        out.extend_from_slice(kind_text(self.kind).as_bytes())?;
        out.extend_from_slice(b",\"seq\":")?;
        put_sequence(out, self.seq, life)?;
        out.extend_from_slice(b"}")?;
        Ok(())
    }

    #[tactic(auto, unfolding(crate::specs::UpdateTexts::update_end_text))]
    fn put_end(
        out: &mut Vec<u8>,
        life: u64,
        last_seq: u64,
        _pending: u64,
    ) -> Result<(), AllocError> {
        out.extend_from_slice(b"\"last_seq\":")?;
        put_sequence(out, last_seq, life)?;
        out.extend_from_slice(b"}\n")?;
        Ok(())
    }
}
