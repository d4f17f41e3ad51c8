// An inlet in memory.
ghost use Rattle.std.specs.Prelude.{◌≡◌, ◌-◌, ◌≤◌, Some, false, vec_len};

use crate::{Got, Inlet};

/// An inlet in memory: bytes, which come in pieces of listed lengths, with a list of the calls that are to fail.
#[derive(Drop)]
pub struct ListInlet {
    bytes: Vec<u8>,
    pieces: Vec<usize>,
    failing: Vec<u64>,
    taken: usize,
    calls: u64,
    faults: u64,
    ended: bool,
    closed: bool,
    ghost within: { taken ≤ vec_len bytes },
}

impl ListInlet {
    ghost use Rattle.outer_io.specs.Memory.{inlet_reading, all_past};

    /// An inlet that gives these bytes. Call k gives at most `pieces[k]` of them, and at least one, and the calls past
    /// that list give all that fit. The calls of the numbers in `failing` fail, counted from 0.
    pub fn new(bytes: Vec<u8>, pieces: Vec<usize>, failing: Vec<u64>) -> Self
        ensures { inlet_reading result ≡ record {
          told = Some bytes.items;
          faults = 0;
          ended = false;
          steady = all_past failing.items 0;
          closed = false;
        } }
    {
        ListInlet {
            bytes,
            pieces,
            failing,
            taken: 0,
            calls: 0,
            faults: 0,
            ended: false,
            closed: false,
        }
    }

    // How many bytes the call of this number gives at most.
    fn piece(&self, call: u64) -> usize
        ensures { 1 ≤ result }
    {
        match self.pieces.get(call as usize) {
            Some(length) => (*length).max(1),
            None => usize::MAX,
        }
    }
}

impl Inlet for ListInlet {
    ghost use Rattle.outer_io.specs.Memory.{inlet_reading};

    ghost reading = { inlet_reading };

    fn read(&mut self, into: &mut [u8]) -> Got {
        if self.closed {
            self.faults = self.faults.saturating_add(1);
            return Got::Failed;
        }
        let call = self.calls;
        self.calls = call.saturating_add(1);
        if self.failing.contains(&call) {
            self.faults = self.faults.saturating_add(1);
            return Got::Failed;
        }
        let left = self.bytes.len() - self.taken;
        if left == 0 {
            self.ended = true;
            return Got::End;
        }
        let count = left.min(into.len()).min(self.piece(call));
        into[..count].copy_from_slice(&self.bytes[self.taken..self.taken + count]);
        self.taken += count;
        Got::Bytes(count)
    }

    fn close(&mut self) {
        self.closed = true;
    }
}
