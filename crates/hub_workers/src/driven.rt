//! Sessions as a worker drives them.

ghost use Rattle.hub_session.specs.Runs.{HasRun, Run, session_view};

use hub_http::{Outbox, Transfer};
use hub_session::{Service, Session};
use mio::net::TcpStream;
use std::alloc::{AllocError, Global};

/// The session of a connection. However a worker drives it, the session had a run. The bytes that left its
/// outbox, and then the bytes in the outbox, are the texts of a session over all offered bytes.
#[derive(Drop)]
pub(crate) struct Driven<S: Service> {
    pub(crate) session: Session<S>,
    ghost has_run: { ∥ ((run : Run S) × HasRun S.rules run (session_view session)) ∥₁ },
}

impl<S: Service> Driven<S> {
    /// A session to which no bytes were offered. An error says that there was no memory for its outbox.
    pub(crate) fn new(alloc: Global, service: S) -> Result<Driven<S>, AllocError>
    where
        S: Drop,
    {
        let outbox = Outbox::new(alloc)?;
        Ok(Driven {
            session: Session::new(alloc, outbox, service),
        })
    }

    /// Offers the session bytes that came; no bytes say that no more come. Out of memory for them, the
    /// session closes (`Session::close_out_of_memory`).
    pub(crate) fn take_in(&mut self, bytes: &[u8]) {
        match self.session.offer(bytes) {
            Ok(()) => {}
            Err(AllocError) => self.session.close_out_of_memory(bytes),
        }
    }

    /// Hands a front of the outbox to a socket, by one write. A write that answers `Again` may have been
    /// interrupted, and is made once more: a second `Again` says that there is no room.
    pub(crate) fn hand(&mut self, stream: &mut TcpStream) -> Transfer {
        match self.session.send_to(stream) {
            Transfer::Again => self.session.send_to(stream),
            handed => handed,
        }
    }
}
