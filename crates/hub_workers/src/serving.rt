//! Servers of connections.

use crate::accepting::Accepted;
use crate::services::MakeService;
use crate::team::Team;
use hub_session::Service;
use hub_shared::{Clock, Watchable};
use std::alloc::{AllocError, Global};
use std::io;
use std::net::{Net, TcpListener};
use std::sync::Wait;
use std::thread::{self, JoinHandle, Scope, Threads};

impl<'e, R, S, K> Team<'e, R, S, K>
where
    R: Wait + Sync,
    S: Service + Watchable + Send + Drop,
    K: Clock + Sync,
{
    // Starts a thread for each worker, and a thread that accepts. An error says that there was no memory, or
    // that a thread could not be made.
    fn start<'s, M: MakeService<S> + Sync>(
        &'e self,
        scope: &'s Scope<'s, &'e ()>,
        accepted: &'e Accepted<'e, M>,
    ) -> Result<JoinHandle<io::Result<()>>, AllocError> {
        for seat in &self.seats {
            let room = self.make_room()?;
            scope.spawn(move || self.run(seat, room))?;
        }
        Ok(scope.spawn(move || self.accept(accepted))?)
    }

    // Serves these connections. Meanwhile this thread looks for runners that are held.
    fn serve<M: MakeService<S> + Sync>(&'e self, accepted: &'e Accepted<'e, M>) -> io::Result<()>
    where
        R: Threads,
    {
        thread::scope(thread::scope_env(), self.rt, |scope| {
            match self.start(scope, accepted) {
                Ok(accepting) => {
                    self.watch_over(scope);
                    accepting.join(self.rt)
                }
                Err(error) => {
                    self.close();
                    Err(io::Error::from(error))
                }
            }
        })
    }
}

/// Serves so many connections, by a worker a processor and at least two, and comes back once all have ended.
/// Connections are numbered from 1 as they are accepted, and each has the service that is made for its
/// number. Workers get connections in turn, and a connection has no thread of its own. A connection may hold
/// its worker's thread at a lock or by a long request: after some milliseconds another thread goes on with
/// the worker's others. A connection for which there is no memory is closed unanswered. A connection is
/// closed too whose next request is not whole within ten minutes after the last answer, or whose client takes
/// no byte of an answer for ten minutes. An error says that there was no memory, thread or descriptor to
/// begin with, or that no connection could be accepted while none was open. Where no connection can be
/// accepted beside the open ones, the next connection waits until one of these has ended.
pub fn serve_all<R, S, K, M>(
    rt: &R,
    alloc: Global,
    listener: &TcpListener,
    count: u64,
    clock: &K,
    services: &M,
) -> io::Result<()>
where
    R: Threads + Wait + Net + Sync,
    S: Service + Watchable + Send + Drop,
    K: Clock + Sync,
    M: MakeService<S> + Sync,
{
    let team = Team::new(rt, alloc, clock)?;
    let accepted = Accepted {
        listener,
        count,
        services,
    };
    team.serve(&accepted)
}
