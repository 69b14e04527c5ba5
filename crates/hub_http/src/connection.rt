//! Whether a head asks to close the connection.
ghost use Rattle.std.specs.Prelude.{◌≡◌};
ghost use Rattle.std.specs.List.{list_any};
ghost use Rattle.httparse.specs.Grammar.{skip_ows, trim_ows};
ghost use Rattle.hub_http.specs.Heads.{asks_close, lists_close};

use crate::fields::Fields;
use crate::head::same_word;

/// The bytes without the spaces and tabs at their front.
fn trimmed_start(bytes: &[u8]) -> &[u8]
    ensures { result.now ≡ skip_ows bytes.now }
{
    let mut rest = bytes;
    while let [b' ' | b'\t', tail @ ..] = rest {
        rest = tail;
    }
    rest
}

/// The bytes without the spaces and tabs around them.
fn trimmed(bytes: &[u8]) -> &[u8]
    ensures { result.now ≡ trim_ows bytes.now }
{
    let mut rest = trimmed_start(bytes);
    while let [front @ .., b' ' | b'\t'] = rest {
        rest = front;
    }
    rest
}

/// Whether `close` is among the options that the value lists.
fn lists_close(value: &[u8]) -> bool
    ensures { result ≡ lists_close value.now }
{
    value
        .split(|b| *b == b',')
        .any(|option| same_word(trimmed(option), b"close"))
}

/// Whether a `Connection` field lists `close`.
pub(crate) fn has_close(fields: &Fields) -> bool
    ensures { result ≡ list_any asks_close fields.now }
{
    for header in fields.headers {
        let name = header.name.of(fields.buf);
        if same_word(name, b"connection") && lists_close(header.value.of(fields.buf)) {
            return true;
        }
    }
    false
}
