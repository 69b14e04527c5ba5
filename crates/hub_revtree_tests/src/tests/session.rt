//! The interpreter of transcripts, and its commands that change a tree.

use hub_document::{Body, Doc, DocId, Path, RevId};
use hub_revtree::{EditFault, MergeFault, Merged, Ready, RevTree};
use hub_transcript::{Answer, Subject, Words};
use std::alloc::{AllocError, Global};
use std::fmt::Write;
use std::str;

/// A tree, at first without edits. A command out of memory has to leave the number of edits and the best
/// leaf, which cost constant time and no memory, or it answers `changed`. Else it is given once more. So
/// these tests hold whichever one growth is refused.
///
/// These commands merge the edit of a document, and answer `added`, `known` or `contradicts`:
/// - `merge TEXT` merges it;
/// - `look TEXT` looks at it, and answers `new REV` where it is new;
/// - `take TEXT` looks at it, and takes it where it is new;
/// - `long GENERATION` merges a path down to the first generation, of revisions with the hash `a`.
///
/// These commands make an edit of the document `a` without members, and answer `made`, `conflict` or
/// `generation limit`:
/// - `make REV` and `make` make an edit on a revision or on none, and `delete REV` and `delete` a deletion;
/// - `best edit` and `best delete` make one on the best leaf, where it is the winner;
/// - `worst edit` and `worst delete` make one on the worst leaf that is not deleted;
/// - `extend live` makes an edit on the best leaf, and `extend dead` a deletion on the worst leaf of all.
///   They answer `another path` unless the path of the new edit is the edit and then the path of this leaf;
/// - `second` makes two edits ready on the winner, first a deletion and then another edit, and takes the
///   second while the first shares the winner's path.
///
/// These repeat commands, which stand with ` & ` between them. They answer the answers of the first time, and
/// then each answer of a later time that differs. The times have the numbers from 0 on. In the commands `%n;`
/// is the number, `%3;` the number in three digits, and `%MORE;` the digest of the number plus MORE:
/// - `times COUNT COMMAND & ..` repeats them so often;
/// - `scattered COUNT COMMAND & ..` does too, with the numbers 0, 150, 300 and so on, modulo COUNT;
/// - `same COUNT` gives two numbers that differ by COUNT the same first eight bytes of their digests.
///
/// The other commands are the questions of `ask`.
#[derive(Drop)]
pub(super) struct Session {
    pub(super) alloc: Global,
    pub(super) tree: RevTree,
    /// The answer to the command.
    pub(super) out: Vec<u8>,
    /// The id of the documents that are made.
    id: DocId,
    /// The number of the time.
    number: u64,
    /// Two numbers that differ by so many have digests with the same first eight bytes.
    same: u64,
}

// The bytes that an answer has room for. So a call that was made does not fail for its answer.
const ROOM: usize = 65_536;

impl<R> Subject<R> for Session {
    fn begin(_: &R, alloc: Global, _: &str) -> Result<Session, AllocError> {
        let Some(id) = DocId::read(alloc, "a")? else {
            return Err(AllocError);
        };
        let out = Vec::with_capacity(alloc, ROOM)?;
        Ok(Session {
            alloc,
            tree: RevTree::new(alloc),
            out,
            id,
            number: 0,
            same: 1,
        })
    }

    fn answer(&mut self, _: &R, command: &str, answer: &mut Answer) -> Result<(), AllocError> {
        self.out.clear();
        let mut words = Words::of(command);
        match words.verb("times scattered") {
            0 => self.times(1, &mut words)?,
            1 => self.times(150, &mut words)?,
            _ => self.again(command)?,
        }
        answer.text(str::from_utf8(self.out.as_slice()).unwrap_or("no text"))
    }
}

impl Session {
    /// Writes a word, and each revision after a blank. Text that finds no room is left out.
    pub(super) fn put(&mut self, word: &str, revs: &[RevId]) {
        let _ = self.out.extend_from_slice(word.as_bytes());
        for rev in revs {
            let _ = self.out.push(b' ');
            let _ = rev.print(&mut self.out);
        }
    }

    /// Writes a line of the answer: a word, and each revision after a blank.
    pub(super) fn say(&mut self, word: &str, revs: &[RevId]) -> Result<(), AllocError> {
        self.put(word, revs);
        let _ = self.out.push(b'\n');
        Ok(())
    }

    // Writes the digits of this kind for the number of the time.
    fn put_digits(&self, kind: &str, text: &mut String) {
        let number = self.number;
        let _ = match kind {
            "" => Ok(()),
            "n" => write!(text, "{number}"),
            "3" => write!(text, "{number:03}"),
            _ => {
                let number = number.saturating_add(kind.parse().unwrap_or(0));
                let first = number.checked_rem(self.same).unwrap_or(0);
                write!(text, "{first:016x}{number:016x}")
            }
        };
    }

    // A command, with the number of the time filled in.
    fn filled(&self, command: &str) -> Result<String, AllocError> {
        let mut text = String::with_capacity(self.alloc, command.len().saturating_add(512))?;
        for piece in command.split("%") {
            let (kind, rest) = piece.split_once(';').unwrap_or(("", piece));
            self.put_digits(kind, &mut text);
            let _ = text.push_str(rest);
        }
        Ok(text)
    }

    // Carries out a command, and once more where it finds no memory and has changed nothing.
    fn again(&mut self, command: &str) -> Result<(), AllocError> {
        let (len, best) = (self.tree.len(), self.tree.best());
        let held = self.out.len();
        match self.made(command) {
            Err(AllocError) => {
                self.out.truncate(held);
                if self.tree.len() != len || self.tree.best() != best {
                    return self.say("changed", &[]);
                }
                self.made(command)
            }
            made => made,
        }
    }

    // Repeats commands. A time with the answer of the first time writes nothing.
    fn times(&mut self, stride: u64, words: &mut Words<'_>) -> Result<(), AllocError> {
        let count = words.number();
        let mut first = 0;
        for at in 0..count {
            self.number = at.saturating_mul(stride) % count;
            let held = self.out.len();
            for command in words.rest().split(" & ") {
                self.again(command)?;
            }
            if at == 0 {
                first = self.out.len();
            } else if self.out.get(held..) == self.out.get(..first) {
                self.out.truncate(held);
            }
        }
        Ok(())
    }

    // Merges the edit of a document, or looks at it, or looks at it and takes it; an error also where the
    // text is no document with a path.
    fn bring(&mut self, verb: usize, text: &[u8]) -> Result<(), AllocError> {
        let Ok(doc) = Doc::read(self.alloc, text, false) else {
            return Err(AllocError);
        };
        let Doc {
            id: _,
            rev: _,
            path,
            deleted,
            body,
        } = doc;
        match path {
            None => Err(AllocError),
            Some(path) if verb == 0 => self.merge(path, deleted, body),
            Some(path) => self.look(path, deleted, body, verb == 2),
        }
    }

    // Merges an edit.
    fn merge(&mut self, path: Path, deleted: bool, body: Body) -> Result<(), AllocError> {
        match self.tree.merge(path, deleted, body) {
            Ok(Merged::Added) => self.say("added", &[]),
            Ok(Merged::Known) => self.say("known", &[]),
            Err(fault) => self.say_fault(fault),
        }
    }

    // Looks at an edit, and takes a new one where `takes` says so.
    fn look(
        &mut self,
        path: Path,
        deleted: bool,
        body: Body,
        takes: bool,
    ) -> Result<(), AllocError> {
        match self.tree.look_merge(path, deleted, body) {
            Ok(Some(ready)) => {
                let rev = ready.rev();
                if takes {
                    self.tree.adopt(ready);
                }
                self.say("new", &[rev])
            }
            Ok(None) => self.say("known", &[]),
            Err(fault) => self.say_fault(fault),
        }
    }

    // Says why an edit is not merged.
    fn say_fault(&mut self, fault: MergeFault) -> Result<(), AllocError> {
        match fault {
            MergeFault::Contradicts => self.say("contradicts", &[]),
            MergeFault::NoMemory => Err(AllocError),
        }
    }

    // Merges a path from this generation down to the first, of revisions with the hash `a`.
    fn long(&mut self, start: &str) -> Result<(), AllocError> {
        let count = Words::of(start).number().saturating_sub(1);
        let ids = r#""a","#.repeat(self.alloc, count as usize)?;
        let text = format!(in self.alloc;
            r#"{{"_id":"a","_revisions":{{"start":{start},"ids":[{ids}"a"]}}}}"#
        )?;
        self.bring(0, text.as_bytes())
    }

    // Makes an edit without members, and says its outcome.
    fn edit(&mut self, on: Option<RevId>, deleted: bool) -> Result<Option<RevId>, AllocError> {
        let body = Body::empty(self.alloc)?;
        let made = self.tree.extend(&self.id, on, deleted, body);
        self.say(
            match made {
                Ok(_) => "made",
                Err(EditFault::Conflict) => "conflict",
                Err(EditFault::GenerationLimit) => "generation limit",
                Err(EditFault::NoMemory) => return Err(AllocError),
            },
            &[],
        )?;
        Ok(made.ok())
    }

    // Makes an edit without members.
    fn make(&mut self, on: Option<RevId>, deleted: bool) -> Result<(), AllocError> {
        self.edit(on, deleted)?;
        Ok(())
    }

    // The best leaf, where it is the winner.
    fn best_leaf(&self) -> Result<Option<RevId>, AllocError> {
        let leaves = self.tree.leaves(self.alloc)?;
        let (winner, best) = (self.tree.winner(), leaves.as_slice().first().copied());
        Ok(if winner == best { winner } else { None })
    }

    // The worst leaf that is not deleted. The leaves stand best first.
    fn worst_leaf(&self) -> Result<Option<RevId>, AllocError> {
        let leaves = self.tree.leaves(self.alloc)?;
        for leaf in leaves.as_slice().iter().rev() {
            if let Some(false) = self.tree.deleted(leaf) {
                return Ok(Some(*leaf));
            }
        }
        Ok(None)
    }

    // Makes an edit on a leaf, where there is one.
    fn turn(&mut self, leaf: Option<RevId>, deleted: bool) -> Result<(), AllocError> {
        if leaf.is_none() {
            return self.say("no leaf", &[]);
        }
        self.make(leaf, deleted)
    }

    // The path of a revision; empty for no revision and for an unknown one.
    fn path_of(&self, rev: &Option<RevId>) -> Result<Vec<RevId>, AllocError> {
        if let Some(rev) = rev
            && let Some(path) = self.tree.path(self.alloc, rev)?
        {
            return Ok(path.into_revisions());
        }
        Ok(Vec::new(self.alloc))
    }

    // The best leaf, or the worst of all.
    fn end_leaf(&self, worst: bool) -> Result<Option<RevId>, AllocError> {
        let leaves = self.tree.leaves(self.alloc)?;
        let leaf = if worst {
            leaves.as_slice().last()
        } else {
            leaves.as_slice().first()
        };
        Ok(leaf.copied())
    }

    // Makes an edit on the best leaf, or a deletion on the worst of all, and looks at its path.
    fn extend(&mut self, dead: bool) -> Result<(), AllocError> {
        let leaf = self.end_leaf(dead)?;
        let behind = self.path_of(&leaf)?;
        let made = self.edit(leaf, dead)?;
        self.look_behind(&made, behind.as_slice())
    }

    // Says `another path` unless the path of an edit is the edit and then `behind`. The path is asked for
    // again where it finds no memory.
    fn look_behind(&mut self, made: &Option<RevId>, behind: &[RevId]) -> Result<(), AllocError> {
        let path = match self.path_of(made) {
            Err(AllocError) => self.path_of(made)?,
            Ok(path) => path,
        };
        if path.first() == made.as_ref() && path.get(1..) == Some(behind) {
            return Ok(());
        }
        self.say("another path", &[])
    }

    // Makes a deletion of the winner ready.
    fn ready_deletion(&mut self) -> Result<Ready, AllocError> {
        let winner = self.tree.winner();
        let body = Body::empty(self.alloc)?;
        match self.tree.look_extend(&self.id, winner, true, body) {
            Ok(ready) => Ok(ready),
            Err(_) => Err(AllocError),
        }
    }

    // Takes an edit on the winner that does not delete, and gives its revision.
    fn take_extended(&mut self) -> Result<RevId, AllocError> {
        let winner = self.tree.winner();
        let body = Body::empty(self.alloc)?;
        match self.tree.look_extend(&self.id, winner, false, body) {
            Ok(ready) => {
                let rev = ready.rev();
                self.tree.adopt(ready);
                Ok(rev)
            }
            Err(_) => Err(AllocError),
        }
    }

    // Makes two edits ready on the winner, and takes the second.
    fn second(&mut self) -> Result<(), AllocError> {
        let first = self.ready_deletion()?;
        let rev = self.take_extended()?;
        let is_same = rev.is_same(&first.rev());
        self.say(if is_same { "the same" } else { "made" }, &[])
    }

    // Carries out a command, with the number of the time filled in.
    fn made(&mut self, command: &str) -> Result<(), AllocError> {
        let command = self.filled(command)?;
        self.carry_out(command.as_str())
    }

    // Carries out a command that merges.
    fn carry_out(&mut self, command: &str) -> Result<(), AllocError> {
        let mut words = Words::of(command);
        let verb = words.verb("merge look take long");
        match verb {
            0..=2 => self.bring(verb, words.rest().as_bytes()),
            3 => self.long(words.rest()),
            _ => self.carry_on(command),
        }
    }

    // Carries out a command that makes edits, or asks.
    fn carry_on(&mut self, command: &str) -> Result<(), AllocError> {
        let mut words = Words::of(command);
        let verb = words.verb("make delete best worst extend second same");
        let rest = words.rest();
        match verb {
            0..=1 => self.make(RevId::read(rest), verb == 1),
            2 => {
                let leaf = self.best_leaf()?;
                self.turn(leaf, rest == "delete")
            }
            3 => {
                let leaf = self.worst_leaf()?;
                self.turn(leaf, rest == "delete")
            }
            4 => self.extend(rest == "dead"),
            5 => self.second(),
            6 => {
                self.same = words.number();
                Ok(())
            }
            _ => self.ask(Words::of(command)),
        }
    }
}
