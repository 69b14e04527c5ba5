//! The length of a body that a head names.
ghost use Rattle.std.specs.Prelude.{◌≡◌, ℕ, List, ◌∷◌, [], codes, Err, MatchResult, option_copied};
ghost use Rattle.hub_http.specs.Heads.{values_named, length_of};
ghost use Rattle.hub_http.specs.Looking.{SoFar, length_in};

use crate::fault::HttpFault;
use crate::fields::Fields;
use crate::head::same_word;

/// The greatest length of a body, in bytes.
const BODY_LIMIT: u64 = 8_388_608;

/// The one value of the fields so far, with one more value. A value that differs is `BadHead`.
fn and_value<'b>(seen: Option<&'b [u8]>, value: &'b [u8]) -> Result<Option<&'b [u8]>, HttpFault>
    ensures { (all rest : List (List ℕ)) → SoFar (option_copied seen.entry) all (value.now ∷ rest)
        → MatchResult result (λ both. SoFar (option_copied both) all rest) (λ e. length_of all ≡ Err e) }
{
    match seen {
        None => Ok(Some(value)),
        Some(first) => {
            if value == first {
                Ok(Some(first))
            } else {
                Err(HttpFault::BadHead)
            }
        }
    }
}

/// The one value that all `Content-Length` fields have, if there is such a field.
fn one_value<'b>(fields: &Fields<'b>) -> Result<Option<&'b [u8]>, HttpFault>
    ensures { let values = values_named (codes "content-length") fields.now in
        MatchResult result (λ seen. SoFar (option_copied seen) values []) (λ e. length_of values ≡ Err e) }
{
    let mut seen: Option<&'b [u8]> = None;
    for header in fields.headers {
        if !same_word(header.name.of(fields.buf), b"content-length") {
            continue;
        }
        seen = and_value(seen, header.value.of(fields.buf))?;
    }
    Ok(seen)
}

/// The length of a body that the digits write in decimal.
fn length_in(digits: &[u8]) -> Result<u64, HttpFault>
    ensures { result ≡ length_in digits.now }
{
    if digits.is_empty() {
        return Err(HttpFault::BadHead);
    }
    let mut n: u64 = 0;
    for b in digits {
        if !b.is_ascii_digit() {
            return Err(HttpFault::BadHead);
        }
        n = (n * 10 + u64::from(*b - b'0')).min(BODY_LIMIT + 1);
    }
    if n > BODY_LIMIT {
        Err(HttpFault::BodyTooLong)
    } else {
        Ok(n)
    }
}

/// The length of the body that the fields give, `None` without a `Content-Length`.
pub(crate) fn length_of(fields: &Fields) -> Result<Option<u64>, HttpFault>
    ensures { result ≡ length_of (values_named (codes "content-length") fields.now) }
{
    match one_value(fields)? {
        None => Ok(None),
        Some(value) => Ok(Some(length_in(value)?)),
    }
}
