//! An outlet to another thread.
ghost use Rattle.std.specs.Prelude.{◌≡◌};

use crate::pipe::Sender;
use outer_io::{Failed, Outlet};

/// An outlet over a pipe to another thread. It waits where the pipe is full. What was sent over it is not told.
#[derive(Drop)]
pub struct ThreadOutlet {
    // None once it is closed.
    sender: Option<Sender>,
    faults: u64,
}

impl ThreadOutlet {
    ghost use Rattle.socket_link.specs.Sockets.{unsent};
    ghost use Rattle.pipe_nodes.specs.ThreadLinks.{outlet_reading};

    /// An outlet over this end of a pipe, over which nothing was sent.
    pub fn over(sender: Sender) -> ThreadOutlet
        ensures { outlet_reading result ≡ unsent }
    {
        ThreadOutlet {
            sender: Some(sender),
            faults: 0,
        }
    }
}

impl Outlet for ThreadOutlet {
    ghost use Rattle.pipe_nodes.specs.ThreadLinks.{outlet_reading};

    ghost reading = { outlet_reading };

    fn send(&mut self, piece: &[u8]) -> Result<(), Failed> {
        let answer = match &mut self.sender {
            Some(sender) => send_all(sender, piece),
            None => Err(Failed),
        };
        if answer.is_err() {
            self.faults = self.faults.saturating_add(1);
        }
        answer
    }

    // Nothing waits here: a byte that is sent is in the pipe.
    fn flush(&mut self) -> Result<(), Failed> {
        self.send(&[])
    }

    fn close(&mut self) {
        self.sender = None;
    }
}

// Sends one byte after another.
fn send_all(sender: &mut Sender, piece: &[u8]) -> Result<(), Failed> {
    for byte in piece {
        sender.send(*byte)?;
    }
    Ok(())
}
