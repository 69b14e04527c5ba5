//! Command lines, and the statuses of sessions.

use crate::answering::answer;
use crate::command::Command;
use hub_http::{Requests, Tally};
use std::alloc::{AllocError, Global};
use std::io;
use std::process::ExitCode;
use std::sync::Wait;
use std::test::Fail;

/// The commands of command lines, as the tests expect them.
#[derive(Clone, Copy)]
enum Wanted {
    Stdin,
    /// To serve so many connections at the address 127.0.0.1:5984.
    Serve(u64),
    Usage,
}

/// Command lines, and their commands.
const LINES: &[(&[&str], Wanted)] = &[
    (&[], Wanted::Usage),
    (&["stdin"], Wanted::Stdin),
    (&["stdin", "3"], Wanted::Usage),
    (&["Stdin"], Wanted::Usage),
    (&["serve"], Wanted::Usage),
    (&["serve", "127.0.0.1:5984"], Wanted::Usage),
    (&["serve", "127.0.0.1:5984", "3"], Wanted::Serve(3)),
    (&["serve", "127.0.0.1:5984", "3", "x"], Wanted::Usage),
    (&["serve", "127.0.0.1:5984", "0"], Wanted::Serve(0)),
    (&["serve", "127.0.0.1:5984", "003"], Wanted::Serve(3)),
    (
        &["serve", "127.0.0.1:5984", "4294967295"],
        Wanted::Serve(4_294_967_295),
    ),
    (&["serve", "127.0.0.1:5984", "4294967296"], Wanted::Usage),
    (
        &["serve", "127.0.0.1:5984", "18446744073709551617"],
        Wanted::Usage,
    ),
    (&["serve", "127.0.0.1:5984", ""], Wanted::Usage),
    (&["serve", "127.0.0.1:5984", "+3"], Wanted::Usage),
    (&["serve", "127.0.0.1:5984", "-3"], Wanted::Usage),
    (&["serve", "127.0.0.1:5984", "3x"], Wanted::Usage),
];

/// Owned copies of words.
fn owned(alloc: Global, words: &[&str]) -> Result<Vec<String>, AllocError> {
    let mut list = Vec::new(alloc);
    for word in words {
        list.push(String::from_str(alloc, word)?)?;
    }
    Ok(list)
}

/// Whether an address and a count are those of the wanted command.
fn is_served(address: &str, count: u64, wanted: Wanted) -> bool {
    match wanted {
        Wanted::Serve(most) => address == "127.0.0.1:5984" && count == most,
        Wanted::Stdin | Wanted::Usage => false,
    }
}

/// Whether a command line is read as the wanted command.
fn is_read(command: &Option<Command>, wanted: Wanted) -> bool {
    match command {
        None => matches!(wanted, Wanted::Usage),
        Some(Command::Stdin) => matches!(wanted, Wanted::Stdin),
        Some(Command::Serve { address, count }) => is_served(address.as_str(), *count, wanted),
    }
}

/// How many of these command lines are read as they should be, before the first one that is not.
fn read_count(alloc: Global, lines: &[(&[&str], Wanted)]) -> Result<usize, AllocError> {
    for (number, (words, wanted)) in lines.iter().enumerate() {
        if !is_read(&Command::read(owned(alloc, words)?), *wanted) {
            return Ok(number);
        }
    }
    Ok(lines.len())
}

/// A command line is read as its words say, and a COUNT is decimal digits up to 4,294,967,295.
#[test]
fn command_lines(rt: HostRuntime) -> Result<(), Fail> {
    assert_eq!(rt; read_count(rt.alloc(), LINES)?, LINES.len());
    Ok(())
}

/// The bytes that a client sends, and whether the session ends as the client asked.
const SESSIONS: &[(&str, bool)] = &[
    ("", true),
    ("PUT /d HTTP/1.1\r\n\r\n", true),
    ("PUT /D HTTP/1.1\r\n\r\n", true),
    ("PUT /d HTTP/1.1\r\nConnection: close\r\n\r\nx", true),
    ("PUT /d HTTP/1.1\r\n", false),
    ("PUT /d HTTP/1.1\r\n\r\nx", false),
    ("GET / HTTP/1.0\r\n\r\n", false),
    ("GET / HTTP/1.1\r\nContent-Length: 8388609\r\n\r\n", false),
];

/// The status of a session over these bytes.
fn status<N: Wait>(rt: &N, alloc: Global, input: &str) -> io::Result<ExitCode> {
    let mut requests = Requests::new(alloc, Tally::new(input.as_bytes()));
    answer(rt, alloc, &mut requests, &mut Tally::new(Vec::new(alloc)))
}

/// Whether a session over these bytes has the status that is wanted.
fn has_status<N: Wait>(rt: &N, alloc: Global, input: &str, success: bool) -> bool {
    let wanted = if success {
        ExitCode::SUCCESS
    } else {
        ExitCode::FAILURE
    };
    match status(rt, alloc, input) {
        Ok(code) => code == wanted,
        Err(_) => false,
    }
}

/// How many of these sessions have their status, before the first one that has not.
fn status_count<N: Wait>(rt: &N, alloc: Global, sessions: &[(&str, bool)]) -> usize {
    for (number, (input, success)) in sessions.iter().enumerate() {
        if !has_status(rt, alloc, input, *success) {
            return number;
        }
    }
    sessions.len()
}

/// A session that its client ends has the status 0, also where a request is refused; any other has 1.
#[test]
fn statuses(rt: HostRuntime) -> Result<(), Fail> {
    assert_eq!(rt; status_count(&rt, rt.alloc(), SESSIONS), SESSIONS.len());
    Ok(())
}
