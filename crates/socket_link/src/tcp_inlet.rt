// The receiving end of a pipe.
ghost use Rattle.std.specs.Prelude.{◌≡◌, IfOk, None, false};

use outer_io::{Got, Inlet};
use std::alloc::{AllocError, Global};
use std::io::{BufReader, Read};
use std::net::TcpStream;

/// The receiving end of a TCP connection, which takes what is there in one read. What comes over it is not told.
#[derive(Drop)]
pub struct TcpInlet {
    // None once it is closed.
    reader: Option<BufReader<TcpStream>>,
    faults: u64,
    ended: bool,
}

impl TcpInlet {
    ghost use Rattle.std.specs.Prelude.{◌≡◌, IfOk};
    ghost use Rattle.socket_link.specs.Sockets.{inlet_reading, unread};

    /// An inlet over this connection, from which nothing was read.
    pub fn over(alloc: Global, stream: TcpStream) -> Result<TcpInlet, AllocError>
        ensures { IfOk result (λ inlet. inlet_reading inlet ≡ unread) }
    {
        let Ok(reader) = BufReader::new(alloc, stream) else {
            return Err(AllocError);
        };
        Ok(TcpInlet {
            reader: Some(reader),
            faults: 0,
            ended: false,
        })
    }
}

impl Inlet for TcpInlet {
    ghost use Rattle.socket_link.specs.Sockets.{inlet_reading};

    ghost reading = { inlet_reading };

    fn read(&mut self, into: &mut [u8]) -> Got {
        let answer = match &mut self.reader {
            Some(reader) => reader.read(into).ok(),
            None => None,
        };
        match answer {
            Some(0) => {
                self.ended = true;
                Got::End
            }
            Some(count) => Got::Bytes(count),
            None => {
                self.faults = self.faults.saturating_add(1);
                Got::Failed
            }
        }
    }

    fn close(&mut self) {
        self.reader = None;
    }
}
