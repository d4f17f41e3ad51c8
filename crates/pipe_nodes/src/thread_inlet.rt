//! An inlet from another thread.
ghost use Rattle.std.specs.Prelude.{◌≡◌};

use crate::pipe::Receiver;
use outer_io::{Failed, Got, Inlet};

/// An inlet over a pipe from another thread, which gives one byte at a read. What comes over it is not told.
#[derive(Drop)]
pub struct ThreadInlet {
    // None once it is closed.
    receiver: Option<Receiver>,
    faults: u64,
    ended: bool,
}

impl ThreadInlet {
    ghost use Rattle.socket_link.specs.Sockets.{unread};
    ghost use Rattle.pipe_nodes.specs.ThreadLinks.{inlet_reading};

    /// An inlet over this end of a pipe, from which nothing was read.
    pub fn over(receiver: Receiver) -> ThreadInlet
        ensures { inlet_reading result ≡ unread }
    {
        ThreadInlet {
            receiver: Some(receiver),
            faults: 0,
            ended: false,
        }
    }
}

impl Inlet for ThreadInlet {
    ghost use Rattle.pipe_nodes.specs.ThreadLinks.{inlet_reading};

    ghost reading = { inlet_reading };

    fn read(&mut self, into: &mut [u8]) -> Got {
        let answer = match &mut self.receiver {
            Some(receiver) => receiver.next(),
            None => Err(Failed),
        };
        match answer {
            Ok(Some(byte)) => {
                into[0] = byte;
                Got::Bytes(1)
            }
            Ok(None) => {
                self.ended = true;
                Got::End
            }
            Err(Failed) => {
                self.faults = self.faults.saturating_add(1);
                Got::Failed
            }
        }
    }

    fn close(&mut self) {
        self.receiver = None;
    }
}
