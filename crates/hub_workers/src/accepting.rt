//! How connections are accepted.

ghost use Rattle.std.specs.Prelude.{◌↔◌, IsTrue};
ghost use Rattle.std.specs.IoError.{error_kind};
ghost use Rattle.hub_workers.specs.Sockets.{HasNoPassingFault, IsPassing};

use crate::alive::Alive;
use crate::conn::Conn;
use crate::services::MakeService;
use crate::team::Team;
use hub_session::Service;
use hub_shared::{Clock, Watchable};
use std::alloc::Global;
use std::io::{self, ErrorKind};
use std::net::{TcpListener, TcpStream};
use std::sync::Wait;

/// Whether the next connection may be accepted in spite of this error: the call was interrupted, or the
/// client had gone before it was accepted.
fn is_passing(error: &io::Error) -> bool
    ensures { IsTrue result ↔ IsPassing (error_kind error.now) }
{
    matches!(
        error.kind(),
        ErrorKind::Interrupted | ErrorKind::ConnectionAborted
    )
}

/// The next connection. Where none can be accepted while others are open, as without a free descriptor, it
/// sleeps until one of these has ended, and tries again. An error comes only where no connection is open, and
/// is no passing one (`is_passing`).
fn accept_next<R: Wait>(rt: &R, alive: &Alive, listener: &TcpListener) -> io::Result<TcpStream>
    ensures { HasNoPassingFault result }
{
    let mut ended = alive.ended(rt);
    for stream in listener.incoming() {
        match stream {
            Err(error) if is_passing(&error) => {}
            Err(error) if !alive.wait_for_end(rt, ended) => return Err(error),
            Err(_) => ended = alive.ended(rt),
            accepted => return accepted,
        }
    }
    Err(io::Error::from(ErrorKind::Other))
}

/// The connection of a socket, which sends at once, and never waits.
fn open<S: Service + Watchable + Drop>(
    alloc: Global,
    stream: TcpStream,
    service: S,
) -> io::Result<Box<Conn<S>>> {
    stream.set_nodelay(true)?;
    stream.set_nonblocking(true)?;
    let conn = Conn::new(alloc, mio::net::TcpStream::from_std(stream), service)?;
    Ok(Box::new(alloc, conn)?)
}

/// The connections that a server accepts.
#[derive(Drop)]
pub(crate) struct Accepted<'a, M> {
    pub(crate) listener: &'a TcpListener,
    /// How many connections there are.
    pub(crate) count: u64,
    /// The maker of their services.
    pub(crate) services: &'a M,
}

impl<R: Wait, S: Service + Watchable + Drop, K: Clock> Team<'_, R, S, K> {
    // Accepts all connections and gives them to workers.
    fn give_all<M: MakeService<S>>(&self, accepted: &Accepted<'_, M>) -> io::Result<()> {
        for before in 0..accepted.count {
            let stream = accept_next(self.rt, &self.alive, accepted.listener)?;
            let number = before + 1;
            if let Ok(conn) = open(self.alloc, stream, accepted.services.make(number)) {
                self.give(number, conn);
            }
        }
        Ok(())
    }

    /// Accepts all connections and gives them to workers, waits until none is served, and closes the team. A
    /// connection for which there is no memory is closed unanswered. An error says that no connection could
    /// be accepted while none was open.
    pub(crate) fn accept<M: MakeService<S>>(&self, accepted: &Accepted<'_, M>) -> io::Result<()> {
        let given = self.give_all(accepted);
        self.alive.wait(self.rt);
        self.close();
        given
    }
}
