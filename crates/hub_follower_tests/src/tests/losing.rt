//! Sessions that lose a call, and the sessions after them.

use crate::tests::Told;
use crate::tests::desk::{Desk, Lost};
use crate::tests::following::copy_all;
use crate::tests::telling::{agree, count, put, recorded};
use hub_follower::{FollowFault, Follower, Peer, Seq};
use std::alloc::AllocError;

// How a session ended, in words.
fn end_of(done: &Result<Option<Seq>, FollowFault>) -> &'static str {
    match done {
        Ok(_) => "copied",
        Err(FollowFault::Peer) => "a peer failed",
        Err(FollowFault::NoMemory) => "out of memory",
        Err(_) => "another fault",
    }
}

// Copies all and records the place, up to the first call that fails. Answers the place of the beginning.
fn copy_and_record<S: Peer + Drop, T: Peer + Drop>(
    follower: &mut Follower<S, T>,
) -> Result<Option<Seq>, FollowFault> {
    let place = follower.core().place();
    copy_all(follower)?;
    follower.checkpoint()?;
    Ok(place)
}

impl<P: Peer + Drop> Desk<P> {
    // A session up to its checkpoint, or up to the call that fails. Answers the place at which it began.
    fn whole_session(&mut self, session_id: &str, lost: Lost) -> Result<Option<Seq>, FollowFault> {
        if let Some(failed) = self.begin(session_id, true, lost)? {
            return Err(failed.fault);
        }
        match &mut self.follower {
            Some(follower) => copy_and_record(follower),
            None => Err(FollowFault::Peer),
        }
    }

    // A session that loses no call. Answers the place at which it began.
    fn faultless_session(&mut self, session_id: &str) -> Result<Option<Seq>, AllocError> {
        match self.whole_session(session_id, Lost::nothing()) {
            Ok(place) => Ok(place),
            Err(_) => Err(AllocError),
        }
    }

    // Stores the documents of `first` at the source, which a session copies, and then those of `then`.
    fn write_all(&mut self) -> Result<(), AllocError> {
        if !self.first.is_empty() {
            put(self.alloc, &mut self.source, self.first.as_str())?;
            self.faultless_session("S1")?;
        }
        put(self.alloc, &mut self.source, self.then.as_str())
    }

    // How many edits the target has; None unless the source's leaves and edits are there and recorded.
    fn whole_count(&mut self) -> Result<Option<u64>, AllocError> {
        let stored = count(&mut self.source)?;
        let place = Some(Seq::of_life(stored, 1));
        let is_whole = count(&mut self.target)? == stored
            && recorded(&mut self.source)? == place
            && recorded(&mut self.target)? == place
            && agree(
                self.alloc,
                &mut self.source,
                &mut self.target,
                self.ids.as_str(),
            )?;
        Ok(if is_whole { Some(stored) } else { None })
    }

    /// Runs all sessions between two new databases. Tells how the session that loses a call ended, how many
    /// edits the target had then, where the next session began, and how many edits are copied and recorded.
    pub(crate) fn run(&mut self, lost: Lost) -> Result<String, AllocError> {
        self.write_all()?;
        let end = end_of(&self.whole_session("S2", lost));
        let stored = count(&mut self.target)?;
        let next = Told(self.faultless_session("S3")?);
        match self.whole_count()? {
            Some(whole) => {
                format!(in self.alloc; "{end}, target {stored}; then from {next} to {whole}")
            }
            None => String::from_str(self.alloc, "not all is copied and recorded"),
        }
    }
}
