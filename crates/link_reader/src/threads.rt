//! Readers of connections, each in a thread of its own.
use crate::reader::LinkReader;
use outer_io::Spawner;
use socket_link::{TcpInlet, ThreadJob, ThreadSpawner};
use std::thread::Threads;

// This stands for one kind of inlet, since no method of a trait can send a value of a type parameter to a thread.
impl<R: Threads> Spawner<LinkReader<TcpInlet>> for ThreadSpawner<'_, R> {
    ghost use Rattle.socket_link.specs.Spawners.{thread_reading};
    ghost use Rattle.link_reader.specs.ReadWords.{Works};

    type Started = ThreadJob<LinkReader<TcpInlet>>;

    ghost reading = { thread_reading };

    ghost may_end = { Works };

    fn start(
        &mut self,
        job: LinkReader<TcpInlet>,
    ) -> Result<ThreadJob<LinkReader<TcpInlet>>, LinkReader<TcpInlet>> {
        ThreadSpawner::start(self, job)
    }

    fn finish(&mut self, started: ThreadJob<LinkReader<TcpInlet>>) -> LinkReader<TcpInlet> {
        ThreadSpawner::finish(self, started)
    }
}
