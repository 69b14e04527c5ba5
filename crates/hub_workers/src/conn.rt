//! Connections as values.

use crate::awaits::Awaits;
use crate::driven::Driven;
use crate::readiness::Readiness;
use hub_session::Service;
use hub_shared::{Watch, Watchable};
use mio::net::TcpStream;
use mio::{Interest, Registry, Token};
use std::alloc::{AllocError, Global};
use std::io;
use std::sync::Arc;

/// A connection: its socket, which never waits, and its session. One runner at a time has the connection, and
/// goes on with it by turns.
#[derive(Drop)]
pub(crate) struct Conn<S: Service> {
    pub(crate) stream: TcpStream,
    pub(crate) driven: Driven<S>,
    /// The readiness of the socket, as far as it is known.
    pub(crate) readiness: Readiness,
    /// A watch that is to be set for its stream.
    watch: Option<Arc<Watch, Global>>,
    /// Whether a watch is set for its stream.
    pub(crate) is_watched: bool,
    /// The life under which its worker's `Watches` keep it, until they forget it.
    pub(crate) life: Option<u64>,
    /// Whether its time begins anew: since this was last asked, a byte went, or a byte came after the end of
    /// its session.
    pub(crate) is_renewed: bool,
    /// How many bytes were read after the end of its session, `None` before that.
    pub(crate) unread: Option<usize>,
}

impl<S: Service + Watchable + Drop> Conn<S> {
    /// A connection over a socket that does not wait. An error says that there was no memory.
    pub(crate) fn new(alloc: Global, stream: TcpStream, service: S) -> Result<Conn<S>, AllocError> {
        Ok(Conn {
            stream,
            driven: Driven::new(alloc, service)?,
            readiness: Readiness::NONE,
            watch: None,
            is_watched: false,
            life: None,
            is_renewed: false,
            unread: None,
        })
    }

    /// Has a poll tell of its socket under this token.
    pub(crate) fn register(&mut self, registry: &Registry, token: usize) -> io::Result<()> {
        let both = Interest::READABLE | Interest::WRITABLE;
        registry.register(&mut self.stream, Token(token), both)
    }

    /// Takes a watch of this life, which its next turn sets.
    pub(crate) fn take_watch(&mut self, life: u64, watch: Arc<Watch, Global>) {
        self.life = Some(life);
        self.watch = Some(watch);
    }

    /// Sets the watch that it took, if it took one.
    pub(crate) fn set_watch(&mut self) {
        if let Some(watch) = self.watch.take() {
            self.driven.session.service().watch(watch);
            self.is_watched = true;
        }
    }

    /// Where its stream has ended, notes that the watch of the stream has ended too.
    pub(crate) fn note_stream(&mut self) {
        if self.is_watched && self.driven.session.service().life().is_none() {
            self.is_watched = false;
        }
    }

    /// The event for which the connection waits while its stream has no item: a watch, if none is set yet,
    /// and else news. A client that can be reached no more is given up.
    pub(crate) fn await_news(&mut self) -> Awaits {
        match self.driven.session.service().life() {
            _ if self.readiness.hang_up => self.give_up(),
            Some(life) if !self.is_watched => Awaits::Watch(life),
            _ => Awaits::News,
        }
    }

    /// Gives the session up: the client is gone, or was waited for too long.
    pub(crate) fn give_up(&mut self) -> Awaits {
        self.driven.session.give_up();
        Awaits::Nothing
    }
}
