//! Texts that are made in a buffer.

ghost use Rattle.std.specs.Prelude.{ℕ, List};
ghost use Rattle.hub_document.specs.Appends.{Appends};

use std::alloc::AllocError;

/// A text that is made in the buffer from which it is sent.
pub trait Text {
    /// The bytes of the text.
    ghost bytes: { Self → List ℕ };

    /// Appends the bytes. Out of memory, the buffer keeps its old bytes, and a part of the text may follow
    /// them. It costs the text's length.
    fn append(&self, buffer: &mut Vec<u8>) -> Result<(), AllocError>
        ensures { Appends (bytes self.now) result buffer.old.items buffer.new.items };
}

impl Text for &[u8] {
    ghost bytes = { λ s. s.now };

    fn append(&self, buffer: &mut Vec<u8>) -> Result<(), AllocError> {
        buffer.extend_from_slice(*self)
    }
}
