//! Paths that several edits share.

ghost use Rattle.std.specs.Prelude.{◌≡◌, ◌<◌, ◌∷◌, Some, length, slice_get, IfOk, IfSome};

use std::alloc::{AllocError, Global};
use std::marker::Model;
use std::sync::Arc;

/// The digests of a path's revisions, newest first, which several edits may share.
#[derive(Debug, Drop)]
pub(crate) struct Line {
    /// Oldest first, so that a newer digest is appended.
    digests: Arc<Vec<[u8; 16]>>,
}

impl Model for Line {
    ghost use Rattle.std.specs.Prelude.{ℕ, List, reverse};

    ghost Value = { List (List ℕ) };

    ghost view = { λ a. reverse a.digests.value.items };
}

impl Line {
    /// The line of these digests, newest first. The cost is their number.
    pub(crate) fn new(alloc: Global, mut digests: Vec<[u8; 16]>) -> Result<Line, AllocError>
        ensures { IfOk result (λ line. line ≡ digests.items) }
    {
        digests.reverse();
        Ok(Line {
            digests: Arc::new(alloc, digests)?,
        })
    }

    /// How many digests the line has. Constant time.
    pub(crate) fn len(&self) -> usize
        ensures { result ≡ length self.now }
    {
        self.digests.len()
    }

    /// The digest at this place, counted from 0 for the newest. Constant time.
    pub(crate) fn at(&self, place: usize) -> &[u8; 16]
        requires { place < length self.now }
        ensures { slice_get self.now place ≡ Some result.now }
    {
        &self.digests[self.digests.len() - 1 - place]
    }

    /// A second value of the same line, which shares its memory. Constant time; it takes no memory.
    pub(crate) fn share(&self) -> Result<Line, AllocError>
        ensures { IfOk result (λ line. line ≡ self.now) }
    {
        Ok(Line {
            digests: Arc::try_clone(&self.digests)?,
        })
    }

    /// The line with a newer digest in front, in its own memory; None where another value shares that memory,
    /// and out of memory. Constant time, but that the memory grows by doubling.
    pub(crate) fn with_newer(mut self, digest: [u8; 16]) -> Option<Line>
        ensures { IfSome result (λ line. line ≡ digest ∷ self) }
    {
        let digests = Arc::get_mut(&mut self.digests)?;
        digests.push(digest).ok()?;
        Some(self)
    }
}
