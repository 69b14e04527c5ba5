//! The watches of streams that wait for news.

use crate::table::Table;
use hub_session::Service;
use hub_shared::{Bell, Watch, Watchable};
use std::alloc::{AllocError, Global};
use std::sync::Arc;

/// The connections whose streams are of one life, and the watch of these streams.
#[derive(Drop)]
struct Watched {
    life: u64,
    watch: Arc<Watch, Global>,
    /// The tokens of the connections.
    tokens: Vec<usize>,
}

/// The connections of a worker whose streams are watched, by the lives of the streams.
#[derive(Drop)]
pub(crate) struct Watches {
    alloc: Global,
    /// Rung with each news of a watch.
    bell: Arc<Bell, Global>,
    watched: Vec<Watched>,
}

impl Watches {
    /// No stream is watched yet.
    pub(crate) fn new(alloc: Global, bell: Arc<Bell, Global>) -> Watches {
        Watches {
            alloc,
            bell,
            watched: Vec::new(alloc),
        }
    }

    // The place of a life, which is made where there is none.
    fn place_of(&mut self, life: u64) -> Result<usize, AllocError> {
        if let Some(place) = self.watched.iter().position(|watched| watched.life == life) {
            return Ok(place);
        }
        let place = self.watched.len();
        let bell = Arc::try_clone(&self.bell)?;
        self.watched.push(Watched {
            life,
            watch: Arc::new(self.alloc, Watch::new(bell))?,
            tokens: Vec::new(self.alloc),
        })?;
        Ok(place)
    }

    /// Notes a connection whose stream is of this life, and gives the watch that is to be set for the stream.
    /// The cost is a look at each life. An error says that there was no memory.
    pub(crate) fn add(
        &mut self,
        life: u64,
        token: usize,
    ) -> Result<Arc<Watch, Global>, AllocError> {
        let place = self.place_of(life)?;
        let Some(watched) = self.watched.get_mut(place) else {
            return Err(AllocError);
        };
        let watch = Arc::try_clone(&watched.watch)?;
        watched.tokens.push(token)?;
        Ok(watch)
    }

    /// Forgets a connection whose stream was of this life. The cost is a look at each life, and at each
    /// connection of this life.
    pub(crate) fn remove(&mut self, life: u64, token: usize) {
        for watched in &mut self.watched {
            if watched.life == life {
                watched.tokens.retain(|other| *other != token);
            }
        }
        self.watched.retain(|watched| !watched.tokens.is_empty());
    }

    /// Whether the bell was rung; from here on it is not. The caller looks at the watches afterwards.
    pub(crate) fn take_bell(&self) -> bool {
        self.bell.take()
    }

    /// Takes the news of each watch, and tells the table of it.
    pub(crate) fn take_news<S: Service + Watchable + Drop>(&self, table: &mut Table<S>) {
        for watched in &self.watched {
            if watched.watch.take() {
                table.tell_news(watched.tokens.as_slice());
            }
        }
    }
}
