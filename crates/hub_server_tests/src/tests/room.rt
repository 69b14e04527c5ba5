//! The clients of a server, as transcripts have them.

use crate::tests::client::Client;
use crate::tests::running::Host;
use crate::tests::texts::{Long, say};
use hub_transcript::{Answer, Subject, Words};
use std::alloc::{AllocError, Global};
use std::fmt::Write;
use std::io;

/// The clients of a case, each with a name.
///
/// - `server COUNT`: a server for COUNT connections, within the limits of a hub that serves. It is the
///   first command of a transcript, and the server runs before it.
/// - `server COUNT feeds NUMBER`: the same, but a database has at most NUMBER feeds.
/// - `server COUNT lane NUMBER`: the same, but at most NUMBER items of a feed wait for its client.
/// - `server COUNT request NUMBER`: the same, but the gate holds the requests of the connection of this
///   number.
/// - `server COUNT pump`: the same, but the gate holds a feed inside the lock of its database.
/// - `gate holds`: waits until a thread stands before the gate, and says whether one came.
/// - `gate opens`: opens the gate, and says whether it held until now.
/// - `pause COUNT`: waits for COUNT milliseconds.
/// - `NAME connects`: a client of this name connects.
/// - `NAME closes`: the client closes.
/// - `NAME rows COUNT`: reads COUNT rows of a continuous feed, to compare them with the case's first.
/// - `NAME lines REQUEST`: asks for a normal feed, to compare its rows with the case's first.
/// - `NAME ..`: the client carries out a command of `Client`.
/// - `each COUNT: COMMAND; COMMAND`: does the commands COUNT times, with the number for `#`. Successive
///   answers that are the same are shown once, after their count.
/// - `each COUNT COUNT: COMMAND; COMMAND`: does so for each number of the second count, in place of `@`.
///
/// In a client's text `\r` and `\n` end lines, and `<N>` is N digits. An answer shows them so too.
#[derive(Drop)]
pub(crate) struct Room {
    alloc: Global,
    clients: Vec<Client>,
    /// The first rows of the case, with which others are compared.
    rows: String,
    long: Long,
}

impl<R: Host> Subject<R> for Room {
    fn begin(_: &R, alloc: Global, _case: &str) -> Result<Room, AllocError> {
        Ok(Room {
            alloc,
            clients: Vec::new(alloc),
            rows: String::new(alloc),
            long: Long::new(alloc),
        })
    }

    fn answer(&mut self, rt: &R, command: &str, answer: &mut Answer) -> Result<(), AllocError> {
        let mut said = String::new(self.alloc);
        if let Err(error) = self.done(rt, command, &mut said) {
            writeln!(said, "{error}")?;
        }
        answer.text(said.as_str())
    }
}

/// Says `yes` or `no`.
fn decide(answer: &mut String, is_so: bool) -> io::Result<()> {
    Ok(say(answer, if is_so { "yes" } else { "no" })?)
}

/// Carries out a command of the gate.
fn gate(rt: &impl Host, verb: &str, answer: &mut String) -> io::Result<()> {
    match Words::of(verb).verb("holds opens") {
        0 => decide(answer, rt.scene().is_held(rt)),
        1 => decide(answer, rt.scene().opens()),
        _ => Ok(say(answer, "?")?),
    }
}

/// Waits for `count` milliseconds.
fn pause(rt: &impl Host, count: &str, answer: &mut String) -> io::Result<()> {
    match count.parse() {
        Ok(count) => rt.pause(count),
        Err(_) => say(answer, "?")?,
    }
    Ok(())
}

impl Room {
    /// Carries out a command, once or for each number.
    fn done(&mut self, rt: &impl Host, command: &str, answer: &mut String) -> io::Result<()> {
        match command.strip_prefix("each ") {
            Some(each) => self.each(rt, each, answer),
            None => self.once(rt, command, answer),
        }
    }

    /// Carries out one command.
    fn once(&mut self, rt: &impl Host, command: &str, answer: &mut String) -> io::Result<()> {
        let mut words = Words::of(command);
        match words.verb("server gate pause") {
            0 => Ok(()),
            1 => gate(rt, words.word(), answer),
            2 => pause(rt, words.word(), answer),
            _ => self.have(rt, command, answer),
        }
    }

    /// Has a client carry out one command, which begins with the client's name.
    fn have(&mut self, rt: &impl Host, command: &str, answer: &mut String) -> io::Result<()> {
        let mut words = Words::of(command);
        let name = words.word();
        let rest = words.rest();
        let verb = words.verb("connects closes rows lines");
        if verb == 0 {
            return self.connect(rt, name);
        }
        let Some(place) = self.place(name) else {
            return Ok(say(answer, "no such client")?);
        };
        match verb {
            1 => {
                self.close(place);
                Ok(())
            }
            2 | 3 => self.rows(place, verb == 2, words.rest(), answer),
            _ => self.act(rt, place, rest, answer),
        }
    }

    /// A new client.
    fn connect(&mut self, rt: &impl Host, name: &str) -> io::Result<()> {
        let client = Client::new(self.alloc, name, rt.connect()?)?;
        self.clients.push(client)?;
        Ok(())
    }

    /// The place of the client of this name.
    fn place(&self, name: &str) -> Option<usize> {
        for (place, client) in self.clients.iter().enumerate() {
            if client.name.as_str() == name {
                return Some(place);
            }
        }
        None
    }

    /// Has a client close.
    fn close(&mut self, place: usize) {
        if place < self.clients.len() {
            drop(self.clients.remove(place));
        }
    }

    /// Has a client carry out a command.
    fn act(
        &mut self,
        rt: &impl Host,
        place: usize,
        command: &str,
        answer: &mut String,
    ) -> io::Result<()> {
        let command = self.long.meant(command)?;
        let mut said = String::new(self.alloc);
        if let Some(client) = self.clients.get_mut(place) {
            client.act(rt, command.as_str(), &mut said)?;
        }
        self.long.append(said.as_str(), answer)?;
        Ok(())
    }

    /// Compares the rows that a client reads with the first rows of the case.
    fn rows(
        &mut self,
        place: usize,
        are_counted: bool,
        text: &str,
        answer: &mut String,
    ) -> io::Result<()> {
        let Some(client) = self.clients.get_mut(place) else {
            return Ok(());
        };
        let rows = if are_counted {
            client.rows(text.parse().unwrap_or(0))?
        } else {
            client.lines(text)?
        };
        let count = rows.as_str().lines().count();
        if self.rows.is_empty() {
            self.rows = rows;
            return Ok(writeln!(answer, "{count} rows")?);
        }
        let is_same = rows.as_str() == self.rows.as_str();
        let rows = if is_same { "the same" } else { "other" };
        Ok(writeln!(answer, "{rows} {count} rows")?)
    }

    /// Carries out commands for each number.
    fn each(&mut self, rt: &impl Host, command: &str, answer: &mut String) -> io::Result<()> {
        let (head, commands) = command.split_once(": ").unwrap_or(("", ""));
        let mut words = Words::of(head);
        let inner = words.number();
        let outer = words.number().max(1);
        let mut runs = Runs::new(self.alloc);
        for at in 1..=outer {
            self.rounds(rt, commands, inner, at, &mut runs, answer)?;
        }
        runs.end(answer)
    }

    /// Carries out commands for each number, at one number of the outer count.
    fn rounds(
        &mut self,
        rt: &impl Host,
        commands: &str,
        inner: u64,
        at: u64,
        runs: &mut Runs,
        answer: &mut String,
    ) -> io::Result<()> {
        for number in 1..=inner {
            let commands = self.numbered(commands, number, at)?;
            let mut said = String::new(self.alloc);
            self.round(rt, commands.as_str(), &mut said)?;
            runs.add(said, answer)?;
        }
        Ok(())
    }

    /// A text with a number in place of a sign.
    fn replaced(&self, text: &str, sign: &str, number: u64) -> io::Result<String> {
        let number = format!(in self.alloc; "{number}")?;
        Ok(text.replace(self.alloc, sign, number.as_str())?)
    }

    /// Commands for one number.
    fn numbered(&self, commands: &str, number: u64, at: u64) -> io::Result<String> {
        let commands = self.replaced(commands, "#", number)?;
        self.replaced(commands.as_str(), "@", at)
    }

    /// Carries out commands one after another.
    fn round(&mut self, rt: &impl Host, commands: &str, said: &mut String) -> io::Result<()> {
        for command in commands.split("; ") {
            self.once(rt, command, said)?;
        }
        Ok(())
    }
}

/// Successive answers, of which those that are the same are shown once.
#[derive(Drop)]
struct Runs {
    said: String,
    count: u64,
}

impl Runs {
    /// No answer yet.
    fn new(alloc: Global) -> Runs {
        Runs {
            said: String::new(alloc),
            count: 0,
        }
    }

    /// One more answer.
    fn add(&mut self, said: String, answer: &mut String) -> io::Result<()> {
        if said.as_str() != self.said.as_str() {
            self.end(answer)?;
            self.said = said;
            self.count = 0;
        }
        self.count = self.count.saturating_add(1);
        Ok(())
    }

    /// Shows the last answers, once and after their count.
    fn end(&self, answer: &mut String) -> io::Result<()> {
        if self.count > 0 {
            writeln!(answer, "{} times", self.count)?;
            answer.push_str(self.said.as_str())?;
        }
        Ok(())
    }
}
