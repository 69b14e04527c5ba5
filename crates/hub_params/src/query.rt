//! The values that a query gives its names.

ghost use Rattle.std.specs.Prelude.{◌≡◌, ◌≢◌, ◌⊎◌, ◌<◌, ℕ, List, IfOk, IfErr, OnErr, Some, None, option_map};
ghost use Rattle.std.specs.Prelude.{if◌then◌else◌, length, replicate, slice_index_or};
ghost use Rattle.std.specs.Borrow.{Bor};
ghost use Rattle.std.specs.Cow.{cow_str_bytes};
ghost use Rattle.std.specs.Option.{option_copied, option_or};
ghost use Rattle.std.specs.Str.{bytes_eq};
ghost use Rattle.form_urlencoded.specs.Form.{IsPlainText};
ghost use Rattle.hub_params.specs.Encoded.{decoded_text};
ghost use Rattle.hub_params.specs.Query.{HasValues, IsReadAs, ValuesAreParsed};
ghost use Rattle.hub_params.specs.Room.{HasEscapedName, IsEscaped};

use crate::feed_fault::ParamFault;
use form_urlencoded::{decode, raw_pairs};
use std::alloc::{AllocError, Global};
use std::borrow::CowStr;

// Keeps the value at each place whose name is this one, decoded.
fn keep<'q>(
    alloc: Global,
    name: &[u8],
    value: &'q [u8],
    names: &[&str],
    kept: &mut [Option<&'q [u8]>],
) -> Result<(), AllocError>
    requires { length names.now ≡ length kept.old }
    ensures kept { IfOk result (λ _. (place : ℕ) (any : Bor (List ℕ)) → place < length names.now
        → option_copied (slice_index_or kept.new place None)
        ≡ option_or (if bytes_eq (decoded_text name.now) (slice_index_or names.now place any).now
        then Some value.now else None) (option_copied (slice_index_or kept.old place None))) }
    ensures memory { OnErr result (¬ IsPlainText name.now) }
{
    let decoded = decode(alloc, name)?;
    let text = decoded.as_str();
    for place in 0..names.len() {
        if text == names[place] {
            kept[place] = Some(value);
        }
    }
    Ok(())
}

/// Keeps the last value of each of these names, not decoded yet, at the place of the name. The cost is the
/// query's length, and for each of its pairs a comparison with each name. Memory is taken for escaped names.
pub(crate) fn read_written<'q>(
    alloc: Global,
    query: &'q [u8],
    names: &[&str],
    kept: &mut [Option<&'q [u8]>],
) -> Result<(), AllocError>
    requires { kept.old ≡ replicate (length names.now) None }
    ensures values { IfOk result (λ _. HasValues kept.new names.now query.now 0) }
    ensures memory { OnErr result (HasEscapedName query.now) }
{
    for (name, value) in raw_pairs(query) {
        keep(alloc, name, value, names, kept)?;
    }
    Ok(())
}

/// A written value, decoded. The text borrows the value where nothing has to be decoded. The cost is the
/// value's length. Memory is taken for an escaped value.
pub(crate) fn value_of<'q>(
    alloc: Global,
    written: Option<&'q [u8]>,
) -> Result<Option<CowStr<'q>>, AllocError>
    ensures text { IfOk result
        (λ text. option_map cow_str_bytes text ≡ option_map decoded_text (option_copied written.entry)) }
    ensures memory { OnErr result (IsEscaped (option_copied written.entry)) }
{
    match written {
        None => Ok(None),
        Some(encoded) => Ok(Some(decode(alloc, encoded)?)),
    }
}

/// The text, borrowed, where there is one.
pub(crate) fn lent<'t>(text: &'t Option<CowStr<'_>>) -> Option<&'t str>
    ensures { option_map (λ s. s.now) result ≡ option_map cow_str_bytes text.now }
{
    match text {
        Some(found) => Some(found.as_str()),
        None => None,
    }
}

/// A written value, as `parse` reads its decoded text; `fault` where `parse` reads none. The cost is that of
/// `value_of` and of `parse`.
pub(crate) fn parsed<T, F: FnOnce(Option<&str>) -> Option<T>>(
    alloc: Global,
    written: Option<&[u8]>,
    fault: ParamFault,
    parse: F,
) -> Result<T, ParamFault>
    requires call { F.IsAlwaysCallable parse }
    requires fault { fault ≢ ParamFault.NoMemory }
    ensures ok { IfOk result (λ v.
        IsReadAs (F.post parse) (option_map decoded_text (option_copied written.entry)) (Some v)) }
    ensures err { IfErr result (λ e. (e ≡ ParamFault.NoMemory) ⊎ ((e ≡ fault)
        × IsReadAs (F.post parse) (option_map decoded_text (option_copied written.entry)) None)) }
    ensures memory { IfErr result
        (λ e. e ≡ ParamFault.NoMemory → IsEscaped (option_copied written.entry)) }
{
    let text = value_of(alloc, written)?;
    parse(lent(&text)).ok_or(fault)
}

/// Decoding the names and values of a query one by one gives the values of the standard's parser. The value
/// of a name is the value of the last pair with this name (URL Standard, section 5, the
/// application/x-www-form-urlencoded parser).
pub fn values_are_parsed()
    ensures { ValuesAreParsed }
{}
