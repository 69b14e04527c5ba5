//! The commands of command lines.

ghost use Rattle.std.specs.Prelude.{◌≡◌, map, option_map, string_bytes};
ghost use Rattle.std.specs.Vec.Iter.{into_iter_items};
ghost use Rattle.changes_hub.specs.Commands.{asked_by, asked_of, count_in, serve_with, stdin_with};

use std::vec::IntoIter;

/// The command of the program.
#[derive(Drop)]
pub(crate) enum Command {
    /// Answers the requests on standard input on standard output.
    Stdin,
    /// Serves so many connections at an address.
    Serve { address: String, count: u64 },
}

// The number of connections that a word writes. A sign is no digit of it.
fn count_of(word: &str) -> Option<u64>
    ensures { result ≡ count_in word.now }
{
    if word.starts_with('+') {
        return None;
    }
    match word.parse::<u32>() {
        Ok(count) => Some(u64::from(count)),
        Err(_) => None,
    }
}

// The command of the words behind `stdin`.
fn read_stdin(mut words: IntoIter<String>) -> Option<Command>
    ensures { option_map asked_of result ≡ stdin_with (map string_bytes (into_iter_items words)) }
{
    match words.next() {
        None => Some(Command::Stdin),
        Some(_) => None,
    }
}

// The command of the words behind `serve`.
fn read_serve(mut words: IntoIter<String>) -> Option<Command>
    ensures { option_map asked_of result ≡ serve_with (map string_bytes (into_iter_items words)) }
{
    let address = words.next()?;
    let count = count_of(words.next()?.as_str())?;
    match words.next() {
        None => Some(Command::Serve { address, count }),
        Some(_) => None,
    }
}

impl Command {
    /// The command that words spell, without the program's own name. None says that they spell no command:
    /// the usage is to be told then. It takes no memory.
    pub(crate) fn read(words: Vec<String>) -> Option<Command>
        ensures { option_map asked_of result ≡ asked_by (map string_bytes words.items) }
    {
        let mut words = words.into_iter();
        match words.next()?.as_str() {
            "stdin" => read_stdin(words),
            "serve" => read_serve(words),
            _ => None,
        }
    }
}
