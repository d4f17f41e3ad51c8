//! The readers of a node, each in a thread of its own.

use crate::thread_inlet::ThreadInlet;
use link_reader::LinkReader;
use outer_io::Spawner;
use socket_link::{ThreadJob, ThreadSpawner};
use std::alloc::Global;
use std::thread::Threads;

/// Starts a thread for each reader.
#[derive(Drop)]
pub struct ReaderThreads<'r, R> {
    threads: ThreadSpawner<'r, R>,
}

impl<'r, R: Threads> ReaderThreads<'r, R> {
    /// Starts the threads of this runtime.
    pub fn new(rt: &'r R, alloc: Global) -> Self {
        ReaderThreads {
            threads: ThreadSpawner::new(rt, alloc),
        }
    }
}

impl<R: Threads> Spawner<LinkReader<ThreadInlet>> for ReaderThreads<'_, R> {
    ghost use Rattle.socket_link.specs.Spawners.{thread_reading};
    ghost use Rattle.link_reader.specs.ReadWords.{Works};

    type Started = ThreadJob<LinkReader<ThreadInlet>>;

    ghost reading = { λ s. thread_reading s.threads };

    ghost may_end = { Works };

    fn start(
        &mut self,
        job: LinkReader<ThreadInlet>,
    ) -> Result<ThreadJob<LinkReader<ThreadInlet>>, LinkReader<ThreadInlet>> {
        self.threads.start(job)
    }

    fn finish(&mut self, started: ThreadJob<LinkReader<ThreadInlet>>) -> LinkReader<ThreadInlet> {
        self.threads.finish(started)
    }
}
