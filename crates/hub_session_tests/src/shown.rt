//! Bytes as transcripts write them.

use std::alloc::{AllocError, Global};
use std::fmt::{Display, Formatter};
use std::{ascii, fmt};

/// The bytes of a text in which `\r` and `\n` stand for CR and LF.
pub(crate) fn undone(alloc: Global, text: &str) -> Result<Vec<u8>, AllocError> {
    let mut bytes = Vec::new(alloc);
    let mut is_escape = false;
    for byte in text.as_bytes() {
        if *byte == b'\\' {
            is_escape = true;
            continue;
        }
        bytes.push(if !is_escape {
            *byte
        } else if *byte == b'r' {
            b'\r'
        } else {
            b'\n'
        })?;
        is_escape = false;
    }
    Ok(bytes)
}

/// Bytes as they are shown: printing bytes as they stand, the others by escapes. A line begins after each
/// line feed.
#[derive(Drop)]
pub(crate) struct Shown<'a>(pub(crate) &'a [u8]);

impl Display for Shown<'_> {
    fn fmt<W: fmt::Write>(&self, f: &mut Formatter<W>) -> fmt::Result {
        for byte in self.0 {
            if *byte == b'"' || *byte == b'\'' {
                f.write_char(char::from(*byte))?;
            } else {
                write!(f, "{}", ascii::escape_default(*byte))?;
            }
            if *byte == b'\n' {
                f.write_char('\n')?;
            }
        }
        Ok(())
    }
}
