//! The batches of a session, found slot by slot.
ghost use Rattle.std.specs.Prelude.{◌≡◌, ◌-◌, [], IfOk, OnOk, false};
ghost use Rattle.session_slots.specs.Sessions.{session_slots};
ghost use Rattle.job_session.specs.Batches.{AreBatchEnds};
ghost use Rattle.job_session.specs.BatchScans.{IsBatchScan};
ghost use Rattle.session_slots.specs.Wirings.{IsWiring, session_in};

use circuit_model::Gate;
use session_slots::{SlotKind, Wiring, completed, read_wires};
use std::alloc::{AllocError, Global};

/// The batches so far: for each wire one more than the first slot of the batch in which it was last completed, for each
/// slot of the batches that have ended the one behind its batch, the first slot of the batch that is begun, and whether
/// a slot of that joins words.
#[derive(Drop)]
pub(crate) struct BatchScan {
    stamps: Vec<u32>,
    ends: Vec<u32>,
    first: u32,
    joins: bool,
}

impl BatchScan {
    ghost use Rattle.std.specs.Prelude.{◌≡◌, ℕ, ◌+◌, ◌-◌, ◌<◌, ◌≤◌, true, false, ◌&&◌, ◌||◌, ◌++◌, IfOk, OnOk, Some, length, replicate};
    ghost use Rattle.session_slots.specs.Sessions.{Session, row_names, session_slot, session_slots};
    ghost use Rattle.session_slots.specs.SoundSessions.{slot_of_kind, Inside};
    ghost use Rattle.job_session.specs.Batches.{AreBatchEnds};
    ghost use Rattle.session_slots.specs.EarlyWires.{is_join, sets_early};
    ghost use Rattle.job_session.specs.BatchScans.{AreEarlyReads, IsBatchScan, IsCompleted, IsGateSlot, has_stamp};
    ghost use Rattle.session_slots.specs.Wirings.{IsWiring, is_named, session_in};

    // Before the first slot, over `wires` wires, with room for the ends of `slots` slots.
    fn start(alloc: Global, wires: usize, slots: usize) -> Result<BatchScan, AllocError>
        ensures { IfOk result (λ scan. (s : Session) → row_names s ≡ wires → IsBatchScan s 0 0 scan) }
    {
        Ok(BatchScan {
            stamps: vec![in alloc; 0; wires]?,
            ends: Vec::with_capacity(alloc, slots)?,
            first: 0,
            joins: false,
        })
    }

    // Slot `k` of a direct session, which reads these wires and completes this one.
    #[inline(always)]
    fn step(
        &mut self,
        k: u32,
        reads: (Option<u32>, Option<u32>),
        completes: Option<u32>,
        wiring: &Wiring,
    ) -> Result<(), AllocError>
        requires wiring { IsWiring wiring.now }
        requires direct { wiring.now.prepared ≡ false }
        requires slot { k < session_slots (session_in wiring.now) }
        requires reads { AreEarlyReads (session_in wiring.now) k reads.0 reads.1 }
        requires completes { IsCompleted (session_in wiring.now) k completes }
        requires scan { IsBatchScan (session_in wiring.now) (k - 1) k self.old }
        ensures { OnOk result (IsBatchScan (session_in wiring.now) k (k + 1) self.new) }
    {
        self.begin(k, reads, false, wiring)?;
        self.complete(completes, false);
        Ok(())
    }

    // Slot `k`, which is of this kind.
    #[inline(always)]
    fn step_kind(&mut self, k: u32, kind: SlotKind, wiring: &Wiring) -> Result<(), AllocError>
        requires wiring { IsWiring wiring.now }
        requires slot { k < session_slots (session_in wiring.now) }
        requires kind { slot_of_kind kind ≡ session_slot (session_in wiring.now) k }
        requires inside { Inside (session_in wiring.now) (slot_of_kind kind) }
        requires scan { IsBatchScan (session_in wiring.now) (k - 1) k self.old }
        ensures { OnOk result (IsBatchScan (session_in wiring.now) k (k + 1) self.new) }
    {
        let late = self.joins && wiring.sets_early(kind);
        self.begin(k, wiring.early_reads(kind), late, wiring)?;
        self.complete(wiring.completes(kind), wiring.is_join(kind));
        Ok(())
    }

    // Slot `k` of a direct session, of this gate.
    #[inline(always)]
    fn step_gate(&mut self, k: u32, gate: Gate, wiring: &Wiring) -> Result<(), AllocError>
        requires wiring { IsWiring wiring.now }
        requires direct { wiring.now.prepared ≡ false }
        requires slot { k < session_slots (session_in wiring.now) }
        requires gate { IsGateSlot (session_in wiring.now) k gate }
        requires scan { IsBatchScan (session_in wiring.now) (k - 1) k self.old }
        ensures { OnOk result (IsBatchScan (session_in wiring.now) k (k + 1) self.new) }
    {
        self.begin_gate(k, gate, wiring)?;
        self.complete(completed(gate), false);
        Ok(())
    }

    // The same as `begin`. Its operation tells which wires a gate reads, and is looked at only where one of those in
    // its fields has the stamp of the batch.
    #[inline(always)]
    fn begin_gate(&mut self, k: u32, gate: Gate, wiring: &Wiring) -> Result<(), AllocError>
        requires wiring { IsWiring wiring.now }
        requires direct { wiring.now.prepared ≡ false }
        requires slot { k < session_slots (session_in wiring.now) }
        requires gate { IsGateSlot (session_in wiring.now) k gate }
        requires scan { IsBatchScan (session_in wiring.now) (k - 1) k self.old }
        ensures { OnOk result (IsBatchScan (session_in wiring.now) k k self.new) }
    {
        if self.names_stamped(gate) {
            return self.begin(k, read_wires(gate), false, wiring);
        }
        Ok(())
    }

    // Slot `k` is of the batch that is begun, unless it reads a wire that a slot of it completes, or sets one before
    // a slot of it has joined its words: then it begins another.
    #[inline(always)]
    fn begin(
        &mut self,
        k: u32,
        reads: (Option<u32>, Option<u32>),
        before_join: bool,
        wiring: &Wiring,
    ) -> Result<(), AllocError>
        requires wiring { IsWiring wiring.now }
        requires slot { k < session_slots (session_in wiring.now) }
        requires reads { AreEarlyReads (session_in wiring.now) k reads.0 reads.1 }
        requires before_join { before_join
            ≡ (self.old.joins && sets_early (session_in wiring.now) (session_slot (session_in wiring.now) k)) }
        requires scan { IsBatchScan (session_in wiring.now) (k - 1) k self.old }
        ensures { OnOk result (IsBatchScan (session_in wiring.now) k k self.new) }
    {
        let _ = wiring;
        if self.waits(reads) || before_join {
            self.begin_batch(k)?;
        }
        Ok(())
    }

    // Slot `k` is the first of a batch. It is out of line, since few slots are.
    #[inline(never)]
    fn begin_batch(&mut self, k: u32) -> Result<(), AllocError>
        requires { length self.old.ends.items ≤ k }
        ensures ends { OnOk result (self.new.ends.items
            ≡ self.old.ends.items ++ replicate (k - length self.old.ends.items) k) }
        ensures stamps { OnOk result (self.new.stamps ≡ self.old.stamps) }
        ensures first { OnOk result (self.new.first ≡ k) }
        ensures joins { OnOk result (self.new.joins ≡ false) }
    {
        self.end_batch(k)?;
        self.first = k;
        self.joins = false;
        Ok(())
    }

    // The ends of all slots, once all are scanned.
    fn into_ends(mut self, wiring: &Wiring) -> Result<Vec<u32>, AllocError>
        requires wiring { IsWiring wiring.now }
        requires scan { IsBatchScan (session_in wiring.now) (session_slots (session_in wiring.now) - 1)
            (session_slots (session_in wiring.now)) self }
        ensures { IfOk result (λ ends. AreBatchEnds (session_in wiring.now) ends.items) }
    {
        self.end_batch(wiring.slots())?;
        Ok(self.ends)
    }

    // Whether one of these wires has the stamp of the batch that is begun.
    #[inline(always)]
    fn waits(&self, reads: (Option<u32>, Option<u32>)) -> bool
        requires first { (w : ℕ) → is_named reads.0 w ≡ true → w < length self.now.stamps.items }
        requires second { (w : ℕ) → is_named reads.1 w ≡ true → w < length self.now.stamps.items }
        requires few { self.now.first < 4294967295 }
        ensures { result ≡ (has_stamp reads.0 self.now.stamps.items (self.now.first + 1)
            || has_stamp reads.1 self.now.stamps.items (self.now.first + 1)) }
    {
        let (first, second) = reads;
        self.is_stamped(first) || self.is_stamped(second)
    }

    // Whether a wire in the fields of the gate has the stamp of the batch that is begun.
    #[inline(always)]
    fn names_stamped(&self, gate: Gate) -> bool
        requires first { gate.first < length self.now.stamps.items }
        requires second { gate.second < length self.now.stamps.items }
        requires few { self.now.first < 4294967295 }
        ensures { result ≡ (has_stamp (Some gate.first) self.now.stamps.items (self.now.first + 1)
            || has_stamp (Some gate.second) self.now.stamps.items (self.now.first + 1)) }
    {
        let stamp = self.first + 1;
        self.stamps[gate.first as usize] == stamp || self.stamps[gate.second as usize] == stamp
    }

    // Whether the wire, if there is one, has the stamp of the batch that is begun.
    #[inline(always)]
    fn is_stamped(&self, wire: Option<u32>) -> bool
        requires within { (w : ℕ) → is_named wire w ≡ true → w < length self.now.stamps.items }
        requires few { self.now.first < 4294967295 }
        ensures { result ≡ has_stamp wire self.now.stamps.items (self.now.first + 1) }
    {
        match wire {
            Some(found) => self.stamps[found as usize] == self.first + 1,
            None => false,
        }
    }

    // The batch that is begun ends before slot `k`.
    fn end_batch(&mut self, k: u32) -> Result<(), AllocError>
        requires { length self.old.ends.items ≤ k }
        ensures ends { OnOk result (self.new.ends.items
            ≡ self.old.ends.items ++ replicate (k - length self.old.ends.items) k) }
        ensures stamps { self.new.stamps ≡ self.old.stamps }
        ensures first { self.new.first ≡ self.old.first }
    {
        self.ends.resize(k as usize, k)
    }

    // Gives the wire, if there is one, the stamp of the batch that is begun, in which a slot joins words from now on,
    // if this one does.
    #[inline(always)]
    fn complete(&mut self, wire: Option<u32>, join: bool)
        requires within { (w : ℕ) → is_named wire w ≡ true → w < length self.old.stamps.items }
        requires few { self.old.first < 4294967295 }
        ensures { (s : Session) (k : ℕ) → IsCompleted s k wire → join ≡ is_join s (session_slot s k)
            → IsBatchScan s k k self.old → IsBatchScan s k (k + 1) self.new }
    {
        if let Some(found) = wire {
            self.stamps[found as usize] = self.first + 1;
        }
        self.joins |= join;
    }
}

/// For each slot the one behind the last of its batch.
pub(crate) fn batch_ends(alloc: Global, wiring: &Wiring) -> Result<Vec<u32>, AllocError>
    requires { IsWiring wiring.now }
    ensures { IfOk result (λ ends. AreBatchEnds (session_in wiring.now) ends.items) }
{
    let names = wiring.row_names() as usize;
    let mut scan = BatchScan::start(alloc, names, wiring.slots() as usize)?;
    if wiring.is_bare() {
        scan_direct(wiring, &mut scan)?;
    } else {
        scan_kinds(wiring, &mut scan)?;
    }
    scan.into_ends(wiring)
}

// All slots of a direct session that keeps nothing.
#[inline(always)]
fn scan_direct(wiring: &Wiring, scan: &mut BatchScan) -> Result<(), AllocError>
    requires wiring { IsWiring wiring.now }
    requires direct { wiring.now.prepared ≡ false }
    requires bare { wiring.now.kept.items ≡ [] }
    requires scan { IsBatchScan (session_in wiring.now) 0 0 scan.old }
    ensures { OnOk result (IsBatchScan (session_in wiring.now) (session_slots (session_in wiring.now) - 1)
        (session_slots (session_in wiring.now)) scan.new) }
{
    let inputs = wiring.owners.len() as u32;
    let gates = wiring.gates.len() as u32;
    for v in 0..inputs {
        scan.step(v, (None, None), Some(v), wiring)?;
    }
    for t in 0..gates {
        let gate = wiring.gates[t as usize];
        scan.step_gate(inputs + t, gate, wiring)?;
    }
    for o in 0..wiring.readers.len() as u32 {
        let read = (Some(wiring.output_wire(o)), None);
        scan.step(inputs + gates + o, read, None, wiring)?;
    }
    Ok(())
}

// All slots of a session, by their kinds.
fn scan_kinds(wiring: &Wiring, scan: &mut BatchScan) -> Result<(), AllocError>
    requires wiring { IsWiring wiring.now }
    requires scan { IsBatchScan (session_in wiring.now) 0 0 scan.old }
    ensures { OnOk result (IsBatchScan (session_in wiring.now) (session_slots (session_in wiring.now) - 1)
        (session_slots (session_in wiring.now)) scan.new) }
{
    for k in 0..wiring.slots() {
        scan.step_kind(k, wiring.slot_kind(k), wiring)?;
    }
    Ok(())
}
