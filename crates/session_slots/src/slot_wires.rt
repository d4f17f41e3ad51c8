//! The wires of a slot of each kind, and the rows of which its messages are made.

use crate::side::{Side, operand};
use crate::slot_content::SlotContent;
use crate::slot_kind::SlotKind;
use crate::touched::{Reads, Touched, completed, read_wires, touched_of};
use crate::wiring::Wiring;
use circuit_model::{Gate, Operation};

impl Wiring {
    ghost use Rattle.std.specs.Prelude.{◌≡◌, ℕ, ◌<◌, nat_eq, length, ◌||◌};
    ghost use Rattle.std.specs.List.{list_any};
    ghost use Rattle.session_slots.specs.Sessions.{content, gate, is_prepared, mask_wire, operand, product_in, product_wire, row_names, session_slots};
    ghost use Rattle.session_slots.specs.Sessions.Slot.{At_gate, Mask_product};
    ghost use Rattle.session_slots.specs.SoundSessions.{slot_of_kind, AreNamed, Inside};
    ghost use Rattle.session_slots.specs.KeptWires.{sets_in};
    ghost use Rattle.session_slots.specs.EarlyWires.{completes, is_join, reads_early, sets_early};
    ghost use Rattle.session_slots.specs.Wirings.{AreReads, IsTouched, IsWiring, is_named, session_in};

    /// Whether gate `t` is a product that is prepared.
    #[inline(always)]
    pub fn is_prepared(&self, t: u32) -> bool
        requires { t < length self.now.gates.items }
        ensures { result ≡ is_prepared (session_in self.now) t }
    {
        self.prepared && self.gates[t as usize].operation.is_product()
    }

    /// How many names of rows there are.
    pub fn row_names(&self) -> u32
        requires { IsWiring self.now }
        ensures { result ≡ row_names (session_in self.now) }
    {
        if self.prepared {
            self.wires + 3 * self.gates.len() as u32
        } else {
            self.wires
        }
    }

    /// The row's name of the mask of the wire that gate `t` reads on this side.
    #[inline(always)]
    pub fn mask_wire(&self, t: u32, side: Side) -> u32
        requires wiring { IsWiring self.now }
        requires within { t < length self.now.gates.items }
        ensures { result ≡ mask_wire (session_in self.now) t side }
    {
        let masks = self.wires + 3 * t;
        match side {
            Side::First => masks,
            Side::Second => masks + 1,
        }
    }

    /// The row's name of the product of both masks of gate `t`.
    #[inline(always)]
    pub fn product_wire(&self, t: u32) -> u32
        requires wiring { IsWiring self.now }
        requires within { t < length self.now.gates.items }
        ensures { result ≡ product_wire (session_in self.now) t }
    {
        self.wires + 3 * t + 2
    }

    // The wire that gate `t` reads on this side.
    #[inline(always)]
    fn operand(&self, t: u32, side: Side) -> u32
        requires { t < length self.now.gates.items }
        ensures { result ≡ operand (gate (session_in self.now) t) side }
    {
        operand(self.gates[t as usize], side)
    }

    /// Of which rows the messages of a slot are made.
    #[inline(always)]
    pub fn content(&self, kind: SlotKind) -> SlotContent
        requires wiring { IsWiring self.now }
        requires inside { Inside (session_in self.now) (slot_of_kind kind) }
        ensures is { result ≡ content (session_in self.now) (slot_of_kind kind) }
        ensures named { AreNamed (row_names (session_in self.now)) result }
    {
        match kind {
            SlotKind::Input(v) => SlotContent::Row(v),
            SlotKind::Gate(t) => SlotContent::Product(self.gates[t as usize]),
            SlotKind::Output(o) => SlotContent::Row(self.output_wire(o)),
            SlotKind::Mask(t, side) => SlotContent::Row(self.mask_wire(t, side)),
            SlotKind::MaskProduct(t) => SlotContent::Product(self.product_of_masks(t)),
            SlotKind::Masked(t, side) => SlotContent::Excess {
                wire: self.operand(t, side),
                mask: self.mask_wire(t, side),
                side,
            },
            SlotKind::Kept(j) => SlotContent::Row(self.kept_wire(j)),
        }
    }

    /// The product of both masks of gate `t`, as a gate over their rows.
    #[inline(always)]
    pub fn product_of_masks(&self, t: u32) -> Gate
        requires wiring { IsWiring self.now }
        requires within { t < length self.now.gates.items }
        ensures { result ≡ product_in (session_in self.now) (Mask_product t) }
    {
        Gate {
            operation: Operation::Mul,
            first: self.mask_wire(t, Side::First),
            second: self.mask_wire(t, Side::Second),
            output: self.product_wire(t),
            constant: 0,
        }
    }

    /// The wires that a slot reads before it takes anything.
    #[inline(always)]
    pub fn early_reads(&self, kind: SlotKind) -> (Option<u32>, Option<u32>)
        requires wiring { IsWiring self.now }
        requires inside { Inside (session_in self.now) (slot_of_kind kind) }
        ensures { (w : ℕ) → list_any (nat_eq w) (reads_early (session_in self.now) (slot_of_kind kind))
            ≡ (is_named result.0 w || is_named result.1 w) }
    {
        match kind {
            SlotKind::Input(_) | SlotKind::Mask(..) => (None, None),
            SlotKind::Gate(t) => self.early_gate_reads(t),
            SlotKind::Output(o) => (Some(self.output_wire(o)), None),
            SlotKind::Kept(j) => (Some(self.kept_wire(j)), None),
            SlotKind::MaskProduct(t) => {
                let first = self.mask_wire(t, Side::First);
                (Some(first), Some(self.mask_wire(t, Side::Second)))
            }
            SlotKind::Masked(t, side) => {
                let wire = self.operand(t, side);
                (Some(wire), Some(self.mask_wire(t, side)))
            }
        }
    }

    // The same in the slot of gate `t`.
    #[inline(always)]
    fn early_gate_reads(&self, t: u32) -> (Option<u32>, Option<u32>)
        requires wiring { IsWiring self.now }
        requires within { t < length self.now.gates.items }
        ensures { (w : ℕ) → list_any (nat_eq w) (reads_early (session_in self.now) (At_gate t))
            ≡ (is_named result.0 w || is_named result.1 w) }
    {
        if self.is_prepared(t) {
            (None, None)
        } else {
            read_wires(self.gates[t as usize])
        }
    }

    /// The wires that a slot reads.
    #[inline(always)]
    pub fn reads(&self, kind: SlotKind) -> Reads
        requires wiring { IsWiring self.now }
        requires inside { Inside (session_in self.now) (slot_of_kind kind) }
        ensures { AreReads (session_in self.now) (slot_of_kind kind) result.0 result.1 result.2 }
    {
        match kind {
            SlotKind::Gate(t) => self.gate_reads(t),
            other => {
                let (first, second) = self.early_reads(other);
                (first, second, None)
            }
        }
    }

    // The same in the slot of gate `t`.
    #[inline(always)]
    fn gate_reads(&self, t: u32) -> Reads
        requires wiring { IsWiring self.now }
        requires within { t < length self.now.gates.items }
        ensures { AreReads (session_in self.now) (At_gate t) result.0 result.1 result.2 }
    {
        if self.is_prepared(t) {
            let first = self.mask_wire(t, Side::First);
            let second = self.mask_wire(t, Side::Second);
            return (Some(first), Some(second), Some(self.product_wire(t)));
        }
        let (first, second) = read_wires(self.gates[t as usize]);
        (first, second, None)
    }

    /// The wire that a slot sets.
    #[inline(always)]
    pub fn sets(&self, kind: SlotKind) -> Option<u32>
        requires wiring { IsWiring self.now }
        requires inside { Inside (session_in self.now) (slot_of_kind kind) }
        ensures { (w : ℕ) → list_any (nat_eq w) (sets_in (session_in self.now) (slot_of_kind kind))
            ≡ is_named result w }
    {
        match kind {
            SlotKind::Input(v) => Some(v),
            SlotKind::Gate(t) => Some(self.gates[t as usize].output),
            SlotKind::Mask(t, side) => Some(self.mask_wire(t, side)),
            SlotKind::MaskProduct(t) => Some(self.product_wire(t)),
            SlotKind::Output(_) | SlotKind::Masked(..) | SlotKind::Kept(..) => None,
        }
    }

    /// The wire that a slot completes once what others post of it was taken.
    #[inline(always)]
    pub fn completes(&self, kind: SlotKind) -> Option<u32>
        requires wiring { IsWiring self.now }
        requires inside { Inside (session_in self.now) (slot_of_kind kind) }
        ensures { (w : ℕ) → list_any (nat_eq w) (completes (session_in self.now) (slot_of_kind kind))
            ≡ is_named result w }
    {
        match kind {
            SlotKind::Gate(t) => completed(self.gates[t as usize]),
            other => self.sets(other),
        }
    }

    /// Whether a slot joins words only when what others post was taken.
    #[inline(always)]
    pub fn is_join(&self, kind: SlotKind) -> bool
        requires { Inside (session_in self.now) (slot_of_kind kind) }
        ensures { result ≡ is_join (session_in self.now) (slot_of_kind kind) }
    {
        match kind {
            SlotKind::Gate(t) => self.is_prepared(t),
            _ => false,
        }
    }

    /// Whether a slot may set a wire before it takes anything.
    #[inline(always)]
    pub fn sets_early(&self, kind: SlotKind) -> bool
        requires wiring { IsWiring self.now }
        requires inside { Inside (session_in self.now) (slot_of_kind kind) }
        ensures { result ≡ sets_early (session_in self.now) (slot_of_kind kind) }
    {
        !self.is_join(kind) && self.sets(kind).is_some()
    }

    /// The wires of slot `k`.
    #[inline(always)]
    pub fn touched(&self, k: u32) -> Touched
        requires wiring { IsWiring self.now }
        requires within { k < session_slots (session_in self.now) }
        ensures { IsTouched (session_in self.now) k result }
    {
        let kind = self.slot_kind(k);
        touched_of(self.sets(kind), self.reads(kind))
    }
}
