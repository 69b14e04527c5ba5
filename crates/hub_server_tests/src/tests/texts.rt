//! Texts as transcripts have them.

use std::alloc::{AllocError, Global};

/// A text of `count` digits, rounded down to a multiple of ten.
fn digits(alloc: Global, count: usize) -> Result<String, AllocError> {
    let mut text = String::new(alloc);
    for _ in 0..count / 10 {
        text.push_str("0123456789")?;
    }
    Ok(text)
}

/// The long text of a case, which its transcript writes as `<N>`: N digits.
#[derive(Drop)]
pub(crate) struct Long {
    alloc: Global,
    text: String,
}

impl Long {
    /// There is no long text yet.
    pub(crate) fn new(alloc: Global) -> Long {
        Long {
            alloc,
            text: String::new(alloc),
        }
    }

    /// The meaning of a command's text: `\r` and `\n` end lines, and the first `<N>` is N digits. They are
    /// the long text from then on.
    pub(crate) fn meant(&mut self, text: &str) -> Result<String, AllocError> {
        let text = text.replace(self.alloc, "\\r", "\r")?;
        let text = text.as_str().replace(self.alloc, "\\n", "\n")?;
        let Some((before, rest)) = text.as_str().split_once('<') else {
            return Ok(text);
        };
        let (count, behind) = rest.split_once('>').unwrap_or((rest, ""));
        let count = count.parse::<usize>().unwrap_or(0);
        if self.text.len() != count {
            self.text = digits(self.alloc, count)?;
        }
        let long = self.text.as_str();
        format!(in self.alloc; "{before}{long}{behind}")
    }

    /// Appends an answer, with the long text as `<N>`.
    pub(crate) fn append(&self, said: &str, answer: &mut String) -> Result<(), AllocError> {
        if self.text.is_empty() {
            return answer.push_str(said);
        }
        let sign = format!(in self.alloc; "<{}>", self.text.len())?;
        let said = said.replace(self.alloc, self.text.as_str(), sign.as_str())?;
        answer.push_str(said.as_str())
    }
}

/// Appends a line.
pub(crate) fn say(answer: &mut String, line: &str) -> Result<(), AllocError> {
    answer.push_str(line)?;
    answer.push_str("\n")
}

/// Appends a text that came. Its CR and LF are shown as `\r` and `\n`, and a line ends after each LF.
pub(crate) fn show(alloc: Global, answer: &mut String, text: &str) -> Result<(), AllocError> {
    let text = text.replace(alloc, "\r", "\\r")?;
    let text = text.as_str().replace(alloc, "\n", "\\n\n")?;
    answer.push_str(text.as_str())?;
    if text.as_str().ends_with('\n') {
        return Ok(());
    }
    answer.push_str("\n")
}
