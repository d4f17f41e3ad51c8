// The sending end of a pipe.
ghost use Rattle.std.specs.Prelude.{◌≡◌, IfOk, IsTrue, None};

use outer_io::{Failed, Outlet};
use std::alloc::{AllocError, Global};
use std::io::{BufWriter, Write};
use std::net::TcpStream;

/// The sending end of a TCP connection, which gathers what it is given. What was sent over it is not told.
#[derive(Drop)]
pub struct TcpOutlet {
    // None once it is closed or has failed.
    writer: Option<BufWriter<TcpStream>>,
    // What still waited then.
    left: Vec<u8>,
    closed: bool,
    faults: u64,
    ghost shut: { IsTrue closed → writer ≡ None },
}

impl TcpOutlet {
    ghost use Rattle.std.specs.Prelude.{◌≡◌, ◌≤◌, IfOk, None};
    ghost use Rattle.outer_io.specs.Count.{Rose};
    ghost use Rattle.socket_link.specs.Sockets.{outlet_reading, unsent, untold};

    /// An outlet over this connection.
    pub fn over(alloc: Global, stream: TcpStream) -> Result<TcpOutlet, AllocError>
        ensures { IfOk result (λ outlet. outlet_reading outlet ≡ unsent) }
    {
        let Ok(writer) = BufWriter::new(alloc, stream) else {
            return Err(AllocError);
        };
        Ok(TcpOutlet {
            writer: Some(writer),
            left: Vec::new(alloc),
            closed: false,
            faults: 0,
        })
    }

    // Lets the connection go. What waits stays here.
    fn give_up(&mut self)
        ensures same { outlet_reading self.new ≡ outlet_reading self.old }
        ensures gone { self.new.writer ≡ None }
    {
        if let Some(writer) = self.writer.take() {
            self.left = writer.into_parts().1;
        }
    }

    // Counts a fault, after which nothing more is sent.
    fn fail(&mut self) -> Failed
        ensures rest { outlet_reading self.new
            ≡ record (outlet_reading self.old) { sink = untold self.new.faults } }
        ensures gone { self.new.writer ≡ None }
        ensures rose { Rose self.old.faults self.new.faults }
        ensures grow { self.old.faults ≤ self.new.faults }
    {
        self.give_up();
        self.faults = self.faults.saturating_add(1);
        Failed
    }
}

impl Outlet for TcpOutlet {
    ghost use Rattle.socket_link.specs.Sockets.{outlet_reading};

    ghost reading = { outlet_reading };

    fn send(&mut self, piece: &[u8]) -> Result<(), Failed> {
        if let Some(writer) = &mut self.writer {
            if writer.write_all(piece).is_ok() {
                return Ok(());
            }
        }
        Err(self.fail())
    }

    fn flush(&mut self) -> Result<(), Failed> {
        if let Some(writer) = &mut self.writer {
            if writer.flush().is_ok() {
                return Ok(());
            }
        }
        Err(self.fail())
    }

    fn close(&mut self) {
        self.give_up();
        self.closed = true;
    }
}
