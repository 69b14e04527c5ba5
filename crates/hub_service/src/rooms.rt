//! Room for reading JSON, which requests use by turns.

ghost use Rattle.std.specs.Prelude.{◌≡◌, ◌⊎◌, IfErr, IfOk, None, Some};
ghost use Rattle.serde_json.specs.View.{view};
ghost use Rattle.hub_document.specs.Read.{json_of};

use hub_document::{DocFault, JsonRoom};
use serde_json::Value;
use std::alloc::{AllocError, Global};
use std::sync::{Mutex, Wait};

/// Room for reading the bodies of requests. There are as many rooms as requests were read at one time, each
/// of some 16 kB, and 4 KiB more at most.
pub struct JsonRooms {
    alloc: Global,
    /// The rooms that no request uses.
    idle: Mutex<Vec<Box<JsonRoom>>>,
}

impl Drop for JsonRooms {
    fn drop(self) {
        let Self { alloc, idle } = self;
    }
}

impl JsonRooms {
    /// No room yet.
    pub fn new(alloc: Global) -> JsonRooms {
        JsonRooms {
            alloc,
            idle: Mutex::new(Vec::new(alloc)),
        }
    }

    // A room that no other request uses.
    fn take<N: Wait>(&self, rt: &N) -> Result<Box<JsonRoom>, AllocError> {
        let idle = self.idle.lock(rt).pop();
        match idle {
            Some(room) => Ok(room),
            None => Ok(Box::new(self.alloc, JsonRoom::new(self.alloc))?),
        }
    }

    /// The JSON value of a text. The cost is the text's length, and two waits for a lock that is held for a
    /// step.
    pub(crate) fn read<N: Wait>(&self, rt: &N, bytes: &[u8]) -> Result<Value, DocFault>
        ensures ok { IfOk result (λ v. json_of bytes.now ≡ Some (view v)) }
        ensures err { IfErr result (λ e. (e ≡ DocFault.NoMemory)
            ⊎ ((e ≡ DocFault.NotJson) × (json_of bytes.now ≡ None))) }
    {
        let Ok(mut room) = self.take(rt) else {
            return Err(DocFault::NoMemory);
        };
        let read = room.read(self.alloc, bytes);
        // Out of memory for the push, the room is freed.
        let _ = self.idle.lock(rt).push(room);
        read
    }
}
