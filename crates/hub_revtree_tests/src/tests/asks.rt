//! The questions to a tree.

use super::session::Session;
use hub_document::RevId;
use hub_transcript::Words;
use std::alloc::AllocError;
use std::str;

// The word for a revision that is known, or is not.
fn known(is_known: bool) -> &'static str {
    if is_known { "known" } else { "unknown" }
}

// A sum over the revisions so far and one more: over its generation, and each byte of its hash.
fn summed(sum: u64, rev: &RevId) -> u64 {
    let mut sum = sum
        .wrapping_mul(1_000_003)
        .wrapping_add(u64::from(rev.generation()));
    for byte in rev.hash() {
        sum = sum.wrapping_mul(1_000_003).wrapping_add(u64::from(*byte));
    }
    sum
}

impl Session {
    // The numbers of edits, of revisions and of leaves.
    fn sizes(&mut self) -> Result<(), AllocError> {
        let leaves = self.tree.leaves(self.alloc)?;
        let (edits, revisions) = (self.tree.len(), self.tree.nodes());
        let text = format!(in self.alloc;
            "{edits} edits {revisions} revisions {} leaves",
            leaves.as_slice().len()
        )?;
        self.say(text.as_str(), &[])
    }

    // The winner, as a tree shows it, and the best of its leaves.
    fn winner(&mut self) -> Result<(), AllocError> {
        if self.tree.is_empty() {
            return self.say("empty", &[]);
        }
        if let Some(rev) = self.tree.winner() {
            self.put("winner", &[rev]);
        }
        if self.tree.is_deleted() {
            self.put(" deleted", &[]);
        }
        self.put_alone()?;
        let leaves = self.tree.leaves(self.alloc)?;
        self.say(" best", leaves.as_slice().get(..1).unwrap_or(&[]))
    }

    // The members of the winner, and the revision of a row that lists it alone.
    fn put_alone(&mut self) -> Result<(), AllocError> {
        if let Some(body) = self.tree.winner_body() {
            let _ = self.out.push(b' ');
            let _ = self.out.extend_from_slice(body.as_bytes());
        }
        let alone = self.tree.winner_alone(self.alloc)?;
        if let Some(rev) = alone.get(0) {
            self.put(" alone", &[rev]);
        }
        if alone.len() > 1 {
            self.put(" and more", &[]);
        }
        Ok(())
    }

    // Whether a revision is known, its edit, and its path.
    fn rev(&mut self, rev: &RevId) -> Result<(), AllocError> {
        let is_known = self.tree.knows(rev);
        self.put(known(is_known), &[]);
        self.put_edit(rev);
        match self.tree.path(self.alloc, rev)? {
            Some(path) => self.say(" path", path.revisions()),
            None => self.say("", &[]),
        }
    }

    // Whether the edit of a revision deletes the document, and the edit's members, where there is an edit.
    fn put_edit(&mut self, rev: &RevId) {
        match self.tree.deleted(rev) {
            Some(true) => self.put(" deleted", &[]),
            Some(false) => self.put(" live", &[]),
            None => {}
        }
        if let Some(body) = self.tree.body(rev) {
            let _ = self.out.push(b' ');
            let _ = self.out.extend_from_slice(body.as_bytes());
        }
    }

    // How many revisions the path of a revision has, their sum, and how many the path has room for.
    fn path(&mut self, rev: &RevId) -> Result<(), AllocError> {
        let Some(path) = self.tree.path(self.alloc, rev)? else {
            return self.say("no path", &[]);
        };
        let revs = path.into_revisions();
        let mut sum = 0;
        for each in &revs {
            sum = summed(sum, each);
        }
        let (count, room) = (revs.len(), revs.capacity());
        let text = format!(in self.alloc; "{count} revisions, sum {sum}, room {room}")?;
        self.say(text.as_str(), &[])
    }

    // Which of these revisions are missing.
    fn missing(&mut self, words: &str) -> Result<(), AllocError> {
        let mut revs = Vec::new(self.alloc);
        for word in words.split(" ") {
            if let Some(rev) = RevId::read(word) {
                revs.push(rev)?;
            }
        }
        let found = self.tree.missing(self.alloc, revs.as_slice())?;
        self.say("missing", found.as_slice())
    }

    // The edit of this number.
    fn edit_at(&mut self, at: usize) -> Result<(), AllocError> {
        let Some(edit) = self.tree.edit(at) else {
            return self.say("none", &[]);
        };
        let body = str::from_utf8(edit.body.as_bytes()).unwrap_or("no text");
        let text = format!(in self.alloc; "deleted {} of {} {body}", edit.deleted, edit.count)?;
        let rev = edit.rev;
        self.say(text.as_str(), &[rev])
    }

    /// Asks the tree, or answers `?`:
    /// - `sizes`: how many edits, revisions and leaves there are;
    /// - `winner`: the winner, `deleted`, its members, the revision of a row that lists it `alone`, and the
    ///   best leaf;
    /// - `leaves` and `missing REV ..`: lists of revisions;
    /// - `edit NUMBER`: the edit of this number;
    /// - `rev REV`: whether it is known, whether its edit deletes the document, its members, and its path;
    /// - `path REV`: how many revisions its path has, a sum of them in their order, and how many the path has
    ///   room for;
    /// - `knows REV`: whether the revision is known.
    pub(super) fn ask(&mut self, mut words: Words) -> Result<(), AllocError> {
        match words.verb("sizes winner leaves missing edit rev path knows") {
            0 => self.sizes(),
            1 => self.winner(),
            2 => self.leaves(),
            3 => self.missing(words.rest()),
            4 => self.edit_at(words.number() as usize),
            verb => self.ask_of(verb, words.rest()),
        }
    }

    // Asks the tree of a revision.
    fn ask_of(&mut self, verb: usize, rev: &str) -> Result<(), AllocError> {
        let Some(rev) = RevId::read(rev) else {
            return self.say("?", &[]);
        };
        match verb {
            5 => self.rev(&rev),
            6 => self.path(&rev),
            7 => {
                let is_known = self.tree.knows(&rev);
                self.say(known(is_known), &[])
            }
            _ => self.say("?", &[]),
        }
    }

    // The leaves.
    fn leaves(&mut self) -> Result<(), AllocError> {
        let leaves = self.tree.leaves(self.alloc)?;
        self.say("leaves", leaves.as_slice())
    }
}
