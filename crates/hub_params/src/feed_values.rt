//! The values of the parameters of a feed, each by itself. None is a fault.

ghost use Rattle.std.specs.Prelude.{◌≡◌, option_map, unwrap_or};
ghost use Rattle.std.specs.List.{list_all};
ghost use Rattle.hub_params.specs.FeedValues.{is_digit as is_digit_byte, is_numeral as is_numeral_text};
ghost use Rattle.hub_params.specs.FeedValues.{number_in, since_in, tagged_in, within_quotes, limit_in};
ghost use Rattle.hub_params.specs.FeedValues.{style_in, mode_in, heartbeat_in, timeout_in, flag_in};

use hub_model::{Mode, Since, Style};

// The milliseconds between heartbeats of `heartbeat=true`, and the longest wait of a feed.
const MINUTE: u64 = 60_000;

fn are_digits(bytes: &[u8]) -> bool
    ensures { result ≡ list_all is_digit_byte bytes.now }
{
    bytes.iter().all(|b| *b >= b'0' && *b <= b'9')
}

fn is_numeral(text: &str) -> bool
    ensures { result ≡ is_numeral_text text.now }
{
    !text.is_empty() && are_digits(text.as_bytes())
}

// The number of a text of digits, with any zeros in front; None past 2^64 - 1, and of any other text.
fn number(text: &str) -> Option<u64>
    ensures { result ≡ number_in text.now }
{
    if !is_numeral(text) {
        return None;
    }
    match text.parse::<u64>() {
        Ok(n) => Some(n),
        Err(_) => None,
    }
}

// The text without its double quotes, where it has one in front and one at its end.
fn unquoted(text: &str) -> &str
    ensures { result.now ≡ unwrap_or (within_quotes text.now) text.now }
{
    let Some(rest) = text.strip_prefix('"') else {
        return text;
    };
    match rest.strip_suffix('"') {
        Some(inner) => inner,
        None => text,
    }
}

/// The sequence and the number of its life in a text `N-L`, each in decimal digits, with any zeros in front.
/// None of any other text, and where one of the numbers is past 2^64 - 1.
pub fn read_tagged(text: &str) -> Option<(u64, u64)>
    ensures { result ≡ tagged_in text.now }
{
    let (seq, life) = text.split_once('-')?;
    Some((number(seq)?, number(life)?))
}

/// Where a feed begins (`since`); after 0 where `since` is absent.
pub(crate) fn since_of(value: Option<&str>) -> Option<Since>
    ensures { result ≡ since_in (option_map (λ s. s.now) value.entry) }
{
    let Some(text) = value else {
        return Some(Since::Plain(0));
    };
    let text = unquoted(text);
    if text == "now" {
        return Some(Since::Now);
    }
    if let Some(seq) = number(text) {
        return Some(Since::Plain(seq));
    }
    let (seq, life) = read_tagged(text)?;
    Some(Since::Tagged(seq, life))
}

/// The greatest number of rows (`limit`), at least 1; `Some(None)` where `limit` is absent.
pub(crate) fn limit_of(value: Option<&str>) -> Option<Option<u64>>
    ensures { result ≡ limit_in (option_map (λ s. s.now) value.entry) }
{
    match value {
        None => Some(None),
        Some(text) => Some(Some(number(text)?.max(1))),
    }
}

/// Which revisions a row lists (`style`).
pub(crate) fn style_of(value: Option<&str>) -> Option<Style>
    ensures { result ≡ style_in (option_map (λ s. s.now) value.entry) }
{
    match value.unwrap_or("main_only") {
        text if text == "main_only" => Some(Style::MainOnly),
        text if text == "all_docs" => Some(Style::AllDocs),
        _ => None,
    }
}

/// How long a feed lasts (`feed`).
pub(crate) fn mode_of(value: Option<&str>) -> Option<Mode>
    ensures { result ≡ mode_in (option_map (λ s. s.now) value.entry) }
{
    match value.unwrap_or("normal") {
        text if text == "normal" => Some(Mode::Normal),
        text if text == "longpoll" => Some(Mode::Longpoll),
        text if text == "continuous" => Some(Mode::Continuous),
        _ => None,
    }
}

/// The milliseconds between heartbeats (`heartbeat`); `Some(None)` for no heartbeats.
pub(crate) fn heartbeat_of(value: Option<&str>) -> Option<Option<u64>>
    ensures { result ≡ heartbeat_in (option_map (λ s. s.now) value.entry) }
{
    match value {
        None => Some(None),
        Some(text) if text == "true" => Some(Some(MINUTE)),
        Some(text) if text == "false" => Some(None),
        Some(text) => match number(text)? {
            0 => None,
            n => Some(Some(n)),
        },
    }
}

/// The milliseconds that a feed waits (`timeout`): a minute at most, and where `timeout` is absent.
pub(crate) fn timeout_of(value: Option<&str>) -> Option<u64>
    ensures { result ≡ timeout_in (option_map (λ s. s.now) value.entry) }
{
    match value {
        None => Some(MINUTE),
        Some(text) => Some(number(text)?.min(MINUTE)),
    }
}

/// A flag, which is false where it is absent.
pub(crate) fn flag_of(value: Option<&str>) -> Option<bool>
    ensures { result ≡ flag_in (option_map (λ s. s.now) value.entry) }
{
    match value.unwrap_or("false") {
        text if text == "true" => Some(true),
        text if text == "false" => Some(false),
        _ => None,
    }
}
