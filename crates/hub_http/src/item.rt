//! The texts of a feed's items.

ghost use Rattle.std.specs.Prelude.{◌≡◌};
ghost use Rattle.hub_document.specs.Appends.{Appends};
ghost use Rattle.hub_http.specs.Items.{separator, before_row, after_row, before_end, item_text};

use crate::row_text::RowText;
use hub_model::{Item, Mode, by_mode};
use std::alloc::AllocError;

#[tactic(auto, unfolding(crate::specs::Items::separator))]
fn put_separator(out: &mut Vec<u8>, rows_before: u64) -> Result<(), AllocError>
    ensures { Appends (separator rows_before) result out.old.items out.new.items }
{
    if rows_before == 0 {
        Ok(())
    } else {
        out.extend_from_slice(b",\n")
    }
}

#[tactic(auto, unfolding(crate::specs::Items::before_row))]
#[inline(always)]
fn put_before_row(out: &mut Vec<u8>, mode: Mode, rows_before: u64) -> Result<(), AllocError>
    ensures { Appends (before_row mode rows_before) result out.old.items out.new.items }
{
    by_mode!(
        mode,
        normal: put_separator(out, rows_before),
        longpoll: put_separator(out, rows_before),
        continuous: Ok(()),
    )
}

#[tactic(auto, unfolding(crate::specs::Items::after_row))]
fn put_after_row(out: &mut Vec<u8>, mode: Mode) -> Result<(), AllocError>
    ensures { Appends (after_row mode) result out.old.items out.new.items }
{
    by_mode!(
        mode,
        normal: Ok(()),
        longpoll: Ok(()),
        continuous: out.extend_from_slice(b"\n"),
    )
}

#[tactic(auto, unfolding(crate::specs::Items::before_end))]
fn before_end(mode: Mode) -> &'static str
    ensures { result.now ≡ before_end mode }
{
    by_mode!(
        mode,
        normal: "\n],\n",
        longpoll: "\n],\n",
        continuous: "{",
    )
}

/// Appends the text of an item of a feed in the life of this number, where the feed wrote `rows_before` rows
/// before. After an error the vector keeps its old bytes, and a part of the text may follow them. The cost is
/// the text's length, and up to 16 KiB of the old bytes again. So hand it a short buffer, and use that again.
pub fn item_text<R: RowText>(
    out: &mut Vec<u8>,
    mode: Mode,
    rows_before: u64,
    life: u64,
    item: &Item<R>,
) -> Result<(), AllocError>
    ensures { Appends (item_text R.row_text R.end_text mode rows_before life item.now) result out.old.items
        out.new.items }
{
    match item {
        Item::Row(row) => {
            put_before_row(out, mode, rows_before)?;
            row.put_row(out, life)?;
            put_after_row(out, mode)?;
            Ok(())
        }
        Item::Beat => out.extend_from_slice(b"\n"),
        Item::End { last_seq, pending } => {
            out.extend_from_slice(before_end(mode).as_bytes())?;
            R::put_end(out, life, *last_seq, *pending)?;
            Ok(())
        }
    }
}
