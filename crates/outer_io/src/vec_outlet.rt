// An outlet in memory.
ghost use Rattle.std.specs.Prelude.{◌≡◌, ◌-◌, ◌≤◌, Some, false, vec_len};
ghost use Rattle.std.specs.Vec.{vec_capacity};

use crate::{Failed, Outlet, Sink, VecSink};

/// An outlet in memory, which takes what a sink in memory does. It gathers nothing.
#[derive(Drop)]
pub struct VecOutlet {
    sink: VecSink,
    closed: bool,
}

impl VecOutlet {
    ghost use Rattle.outer_io.specs.Memory.{outlet_reading, outlet_bytes, over_sink, all_past};

    /// An outlet that has these bytes, and takes more until it has `limit`. The calls of these numbers fail, sends and
    /// flushes, counted from 0.
    pub fn new(bytes: Vec<u8>, limit: usize, failing: Vec<u64>) -> Self
        requires { limit ≤ vec_capacity bytes }
        ensures { outlet_reading result ≡ over_sink false (record {
          told = Some bytes.items;
          faults = 0;
          steady = all_past failing.items 0;
          room = limit - vec_len bytes;
        }) }
    {
        VecOutlet {
            sink: VecSink::new(bytes, limit, failing),
            closed: false,
        }
    }

    /// The bytes so far.
    pub fn bytes(&self) -> &[u8]
        ensures { result.now ≡ outlet_bytes self.now }
    {
        self.sink.bytes()
    }
}

impl Outlet for VecOutlet {
    ghost use Rattle.outer_io.specs.Memory.{outlet_reading};

    ghost reading = { outlet_reading };

    fn send(&mut self, piece: &[u8]) -> Result<(), Failed> {
        if self.closed {
            return Err(self.sink.refuse());
        }
        self.sink.write(piece)
    }

    fn flush(&mut self) -> Result<(), Failed> {
        self.send(&[])
    }

    fn close(&mut self) {
        self.closed = true;
    }
}
