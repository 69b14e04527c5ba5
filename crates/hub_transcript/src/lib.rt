//! Tests as texts: a transcript has the commands that a subject is given, and the subject's answers.
//!
//! ```text
//! # a document is found
//! > put d 1
//! stored d 1
//! > get d
//! d 1
//! > get e
//! ```
//!
//! A line that begins with `# ` names a case, and each case has a subject of its own. A line that begins with
//! `> ` is a command. The lines behind a command are its answer, word for word: `get e` has an empty answer.
//! Empty lines at the end of an answer do not count. A line feed stands before each case, the first too.
#![tactic(auto)]

use std::alloc::{AllocError, Global};
use std::fmt::{Display, Write};
use std::test::Fail;

/// The subject of a case carries out the commands of the case. `R` is the runtime of the test.
pub trait Subject<R>: Drop {
    /// A subject before the first command of its case. It may look at the name of the case.
    fn begin(rt: &R, alloc: Global, case: &str) -> Result<Self, AllocError>;

    /// Carries out one command, and writes its answer. Any one growth may be refused: a command that finds no
    /// memory leaves its subject as it was, answers the error, and is given once more.
    fn answer(&mut self, rt: &R, command: &str, answer: &mut Answer) -> Result<(), AllocError>;
}

/// The answer to a command, as lines. It has room for `ROOM` bytes before the command is carried out, so a
/// call that was made does not fail for its answer.
#[derive(Drop)]
pub struct Answer {
    text: String,
}

const ROOM: usize = 65_536;

impl Answer {
    // An empty answer, with its room. Where the room is refused, it is asked for once more.
    fn new(alloc: Global) -> Result<Answer, AllocError> {
        let text = match String::with_capacity(alloc, ROOM) {
            Err(AllocError) => String::with_capacity(alloc, ROOM)?,
            Ok(text) => text,
        };
        Ok(Answer { text })
    }

    /// Writes a line.
    pub fn line<D: Display + Drop>(&mut self, line: D) -> Result<(), AllocError> {
        match writeln!(self.text, "{line}") {
            Ok(()) => Ok(()),
            Err(_) => Err(AllocError),
        }
    }

    /// Writes a text as it is: some lines, or a part of a line.
    pub fn text(&mut self, text: &str) -> Result<(), AllocError> {
        self.text.push_str(text)
    }
}

/// Replays a transcript, and fails at the first command whose answer is not the text behind the command. The
/// message names the case and the command. A text that does not begin with a case fails. So does a case with
/// no command, since it would test nothing.
pub fn replay<S: Subject<R>, R>(rt: &R, alloc: Global, transcript: &str) -> Result<(), Fail> {
    let Some(cases) = transcript.strip_prefix("\n# ") else {
        return Err(Fail::new("no case is first"));
    };
    let mut answer = Answer::new(alloc)?;
    replay_cases::<S, R>(rt, alloc, cases, &mut answer)
}

// Replays the cases of a transcript, behind the mark of the first.
fn replay_cases<S: Subject<R>, R>(
    rt: &R,
    alloc: Global,
    cases: &str,
    answer: &mut Answer,
) -> Result<(), Fail> {
    for case in cases.split("\n# ") {
        replay_case::<S, R>(rt, alloc, case, answer)?;
    }
    Ok(())
}

// Replays a case, which begins with its name.
fn replay_case<S: Subject<R>, R>(
    rt: &R,
    alloc: Global,
    case: &str,
    answer: &mut Answer,
) -> Result<(), Fail> {
    let (name, _) = case.split_once('\n').unwrap_or((case, ""));
    let Some((_, commands)) = case.split_once("\n> ") else {
        return Err(Fail::new(format_args!("{name}: no command")));
    };
    let mut subject: S = begun(rt, alloc, name)?;
    replay_commands(rt, &mut subject, name, commands, answer)
}

// Replays the commands of a case.
fn replay_commands<S: Subject<R>, R>(
    rt: &R,
    subject: &mut S,
    name: &str,
    commands: &str,
    answer: &mut Answer,
) -> Result<(), Fail> {
    for step in commands.split("\n> ") {
        let (command, wanted) = step.split_once('\n').unwrap_or((step, ""));
        put_to(subject, rt, command, answer)?;
        compare(name, command, answer.text.as_str(), wanted)?;
    }
    Ok(())
}

// The subject of a case, begun again where it finds no memory.
fn begun<S: Subject<R>, R>(rt: &R, alloc: Global, case: &str) -> Result<S, AllocError> {
    match S::begin(rt, alloc, case) {
        Err(AllocError) => S::begin(rt, alloc, case),
        begun => begun,
    }
}

// Puts a command to a subject, and once more where it finds no memory.
fn put_to<S: Subject<R>, R>(
    subject: &mut S,
    rt: &R,
    command: &str,
    answer: &mut Answer,
) -> Result<(), AllocError> {
    answer.text.clear();
    match subject.answer(rt, command, answer) {
        Err(AllocError) => {
            answer.text.clear();
            subject.answer(rt, command, answer)
        }
        made => made,
    }
}

/// The words of a command, which stand behind one another with a blank between them.
#[derive(Drop)]
pub struct Words<'a> {
    rest: &'a str,
}

impl<'a> Words<'a> {
    /// All words of a command.
    pub fn of(command: &'a str) -> Words<'a> {
        Words { rest: command }
    }

    /// The next word, or an empty word where none is left.
    pub fn word(&mut self) -> &'a str {
        let (word, rest) = self.rest.split_once(' ').unwrap_or((self.rest, ""));
        self.rest = rest;
        word
    }

    /// The next word as a number, or 0 where the word is no number.
    pub fn number(&mut self) -> u64 {
        self.word().parse().unwrap_or(0)
    }

    /// The place of the next word among these verbs, which stand behind one another with a blank between
    /// them. A word that is no such verb has the place `usize::MAX`. A `match` on a place is proved more
    /// cheaply than comparisons with texts.
    pub fn verb(&mut self, verbs: &str) -> usize {
        let word = self.word();
        verbs
            .split(' ')
            .position(|verb| verb == word)
            .unwrap_or(usize::MAX)
    }

    /// The words that are left, as they stand in the command.
    pub fn rest(&self) -> &'a str {
        self.rest
    }
}

// Whether an answer is the wanted answer, but for white space at the end of both.
fn is_answer(answer: &str, wanted: &str) -> bool {
    answer.trim_end() == wanted.trim_end()
}

// Fails where a command has another answer than the text behind the command.
fn compare(case: &str, command: &str, answer: &str, wanted: &str) -> Result<(), Fail> {
    if is_answer(answer, wanted) {
        return Ok(());
    }
    Err(Fail::new(format_args!("{case}: {command}: {answer:?}, and not {wanted:?}")))
}

#[cfg(test)]
mod tests {
    use super::*;
    use std::io::Eprint;
    use std::process::{ExitCode, Termination};

    /// A counter of commands, which begins with the length of the case's name in bytes. Each command finds no
    /// memory the first time that it is given.
    ///
    /// - `nothing`: has an empty answer.
    /// - `lines`: has the answer of two lines, `a` and `b`.
    /// - `number WORD`, `word WORD`, `rest WORD ..`: shows a number, a word, and the words that are left.
    /// - `verb WORD`: shows the place of a word among `x z y`.
    /// - any other command: shows the counter.
    #[derive(Drop)]
    struct Echo {
        commands: u64,
        refused: bool,
    }

    impl<R> Subject<R> for Echo {
        fn begin(_: &R, _: Global, case: &str) -> Result<Echo, AllocError> {
            Ok(Echo {
                commands: case.len() as u64,
                refused: false,
            })
        }

        fn answer(&mut self, _: &R, command: &str, answer: &mut Answer) -> Result<(), AllocError> {
            self.refused = !self.refused;
            if self.refused {
                let _part = answer.text("a part");
                return Err(AllocError);
            }
            self.commands = self.commands.saturating_add(1);
            show(self.commands, Words::of(command), answer)
        }
    }

    // Answers as `Echo` says.
    fn show(commands: u64, mut words: Words, answer: &mut Answer) -> Result<(), AllocError> {
        match words.verb("nothing lines number word rest verb") {
            0 => Ok(()),
            1 => answer.text("a\nb\n"),
            2 => answer.line(words.number()),
            3 => answer.line(words.word()),
            4 => answer.line(words.rest()),
            5 => answer.line(words.verb("x z y")),
            _ => answer.line(commands),
        }
    }

    /// A transcript that is replayed to its end.
    const RIGHT: &str = "
# one
> b
4
> lines
a
b

> nothing
> c
7
# three
> d
6
# words, numbers, what is left and places of verbs
> word 17 b
17
> word
> number 17 b
17
> number b
0
> rest a b  c
a b  c
> rest
> verb z y
1
> verb zz
18446744073709551615
> verb
18446744073709551615";

    /// Transcripts, and whether each is replayed to its end.
    const TEXTS: &[(&str, bool)] = &[
        (RIGHT, true),
        ("\n# one\n> b\n4", true),
        ("\n# one\n> lines\na\nb\n\n", true),
        // Another answer.
        ("\n# one\n> b\n5", false),
        ("\n# one\n> lines\na\nc", false),
        ("\n# one\n> lines\na", false),
        ("\n# one\n> b\n4\n> c", false),
        ("\n# one\n> nothing\n5", false),
        ("\n# one\n> nothing\n# one\n> b", false),
        // No case first, and cases with no command.
        ("", false),
        ("# one\n> b\n4", false),
        ("\n# one\n4", false),
        ("\n# one\n> b\n4\n# two\n", false),
    ];

    // Whether a transcript is replayed to its end.
    fn is_replayed<R: Eprint>(rt: &R, alloc: Global, transcript: &str) -> bool {
        replay::<Echo, R>(rt, alloc, transcript).report(rt) == ExitCode::SUCCESS
    }

    #[test]
    fn transcripts(rt: HostRuntime) {
        for (text, is_right) in TEXTS {
            assert!(rt; is_replayed(&rt, rt.alloc(), text) == *is_right, "{text}");
        }
    }
}
