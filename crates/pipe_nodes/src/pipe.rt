//! A pipe for bytes between two threads.
use crate::asked::Flaw;
use outer_io::Failed;
use rtrb::{Consumer, Producer, RingBuffer};
use std::alloc::{AllocError, Global};
use std::sync::Arc;
use std::sync::atomic::{AtomicBool, AtomicU64, Ordering};
use std::thread;

/// How often an end looks whether the other one has done its part, before it gives up.
const LOOKS: u64 = 10_000_000;

/// How often an end looks whether a gate is open, before it gives up.
const LOOKS_AT_GATE: u64 = 100_000_000;

/// How often an end of a pipe gave up.
pub type InVain = Arc<AtomicU64, Global>;

/// A gate between two pipes, true once it is open.
pub type PipeGate = Arc<AtomicBool, Global>;

/// What the end of a pipe that receives has to do with a gate.
#[derive(Drop)]
enum AtGate {
    /// Nothing.
    Free,
    /// It waits at the gate before it receives.
    Behind(PipeGate),
    /// It opens the gate once it has received `bytes` bytes more.
    Opens { gate: PipeGate, bytes: u64 },
}

/// The end of a pipe that sends. To drop it is to close it.
#[derive(Drop)]
pub struct Sender {
    producer: Producer<u8>,
    flaw: Flaw,
    sent: u64,
    in_vain: InVain,
}

/// The end of a pipe that receives. To drop it is to close it.
#[derive(Drop)]
pub struct Receiver {
    consumer: Consumer<u8>,
    at_gate: AtGate,
    in_vain: InVain,
}

/// Both ends of a pipe that has room for `room` bytes, with this flaw.
pub fn make_pipe(
    alloc: Global,
    room: usize,
    flaw: Flaw,
    in_vain: &InVain,
) -> Result<(Sender, Receiver), AllocError> {
    let (producer, consumer) = RingBuffer::new(alloc, room)?;
    let sender = Sender {
        producer,
        flaw,
        sent: 0,
        in_vain: Arc::try_clone(in_vain)?,
    };
    let receiver = Receiver {
        consumer,
        at_gate: AtGate::Free,
        in_vain: Arc::try_clone(in_vain)?,
    };
    Ok((sender, receiver))
}

// A byte as the pipe takes it after `sent` others.
fn flawed(flaw: Flaw, sent: u64, byte: u8) -> Result<u8, Failed> {
    match flaw {
        Flaw::FailsAfter { bytes } if sent >= bytes => Err(Failed),
        Flaw::ChangesByte { bytes } if sent == bytes => Ok(byte ^ 2),
        _ => Ok(byte),
    }
}

impl Sender {
    /// Sends a byte once there is room. It fails where the receiver was dropped.
    pub fn send(&mut self, byte: u8) -> Result<(), Failed> {
        let byte = flawed(self.flaw, self.sent, byte)?;
        self.sent = self.sent.saturating_add(1);
        for _ in 0..LOOKS {
            if self.producer.is_abandoned() {
                return Err(Failed);
            }
            if self.producer.push(byte).is_ok() {
                return Ok(());
            }
            thread::yield_now();
        }
        self.in_vain.fetch_add(1, Ordering::SeqCst);
        Err(Failed)
    }
}

// Waits until the gate is open.
fn wait_at(gate: &PipeGate, in_vain: &InVain) -> Result<(), Failed> {
    for _ in 0..LOOKS_AT_GATE {
        if gate.load(Ordering::SeqCst) {
            return Ok(());
        }
        thread::yield_now();
    }
    in_vain.fetch_add(1, Ordering::SeqCst);
    Err(Failed)
}

// What is left to do with a gate once a byte more is received.
fn after_a_byte(at_gate: AtGate) -> AtGate {
    match at_gate {
        AtGate::Opens { gate, bytes } if bytes <= 1 => {
            gate.store(true, Ordering::SeqCst);
            AtGate::Free
        }
        AtGate::Opens { gate, bytes } => AtGate::Opens {
            gate,
            bytes: bytes - 1,
        },
        other => other,
    }
}

impl Receiver {
    /// Receives nothing until this gate is open.
    pub fn wait_behind(&mut self, gate: PipeGate) {
        self.at_gate = AtGate::Behind(gate);
    }

    /// Opens this gate once `bytes` bytes more are received.
    pub fn open_after(&mut self, bytes: u64, gate: PipeGate) {
        self.at_gate = AtGate::Opens { gate, bytes };
    }

    /// The next byte once it is there, or None where the sender was dropped and no byte is left.
    pub fn next(&mut self) -> Result<Option<u8>, Failed> {
        if let AtGate::Behind(gate) = &self.at_gate {
            wait_at(gate, &self.in_vain)?;
        }
        let next = self.receive()?;
        if next.is_some() {
            let at_gate = std::mem::replace(&mut self.at_gate, AtGate::Free);
            self.at_gate = after_a_byte(at_gate);
        }
        Ok(next)
    }

    // The same, whatever the gate.
    fn receive(&mut self) -> Result<Option<u8>, Failed> {
        for _ in 0..LOOKS {
            let no_more_comes = self.consumer.is_abandoned();
            match self.consumer.pop() {
                Ok(byte) => return Ok(Some(byte)),
                Err(_) if no_more_comes => return Ok(None),
                Err(_) => thread::yield_now(),
            }
        }
        self.in_vain.fetch_add(1, Ordering::SeqCst);
        Err(Failed)
    }
}
