//! What a plan is made of.

use job_limits::MOST_SESSIONS;
use job_session::{SessionPart, SlotKind, keep_carried};
use mpc_ring::Ring;
use plan_model::Pattern;
use product_duty::Duty;
use share_layout::Layout;
use std::alloc::{AllocError, Global};
use std::marker::Model;

/// A ring, a structure of parties and the sessions. Contracts see a plan of the definitions.
#[derive(Drop)]
pub(crate) struct Outline {
    ring: Ring,
    layout: Layout,
    duty: Duty,
    parts: Vec<SessionPart>,
}

impl Model for Outline {
    ghost use Rattle.std.specs.Prelude.{◌≡◌};
    ghost use Rattle.plan_model.specs.Plans.{Plan, plan_of};
    ghost use Rattle.plan_model.specs.Sound.{IsOutline};

    ghost Value = { Plan };

    ghost view = { λ o. plan_of o.ring o.layout o.parts.items };

    ghost invariant = { λ o. (o.duty ≡ o.layout) × IsOutline (plan_of o.ring o.layout o.parts.items) };
}

impl Outline {
    ghost use Rattle.std.specs.Prelude.{◌≡◌, ◌<◌, ◌≤◌, All, IfOk, length};
    ghost use Rattle.secret_sharing.specs.Schemes.{has_pair};
    ghost use Rattle.plan_model.specs.Plans.{structure, scheme, session, slot, slots, plan_of, is_holder, holder_of};
    ghost use Rattle.plan_model.specs.Numbers.{is_mask};
    ghost use Rattle.session_slots.specs.Sessions.Slot.{At_gate};
    ghost use Rattle.plan_model.specs.Patterns.{pattern, pattern_at, Occurs};
    ghost use Rattle.session_slots.specs.SoundSessions.{IsSoundSession};
    ghost use Rattle.plan_model.specs.Plans.{keeping_plan};
    ghost use Rattle.session_slots.specs.Carries.{AllFit};
    ghost use Rattle.plan_model.specs.Sound.{IsOutline};

    pub(crate) fn of(ring: Ring, layout: Layout, duty: Duty, parts: Vec<SessionPart>) -> Outline
        requires structure { duty ≡ layout }
        requires few { length parts.items ≤ MOST_SESSIONS }
        requires sound { All (IsSoundSession layout.parties) parts.items }
        requires fit { AllFit parts.items }
        ensures { result ≡ plan_of ring layout parts.items }
    {
        let _ = (
            ring.bits(),
            layout.parties(),
            layout.shares(),
            duty.shares(),
        );
        Outline {
            ring,
            layout,
            duty,
            parts,
        }
    }

    /// The same with sessions that keep what later ones carry, in the place of what they kept.
    pub(crate) fn keep(self, alloc: Global) -> Result<Outline, AllocError>
        ensures { IfOk result (λ outline. outline ≡ keeping_plan self) }
    {
        let Outline {
            ring,
            layout,
            duty,
            parts,
        } = self;
        let parts = keep_carried(alloc, parts)?;
        Ok(Outline::of(ring, layout, duty, parts))
    }

    pub(crate) fn ring(&self) -> Ring
        ensures is { result ≡ self.now.bits }
        ensures outline { IsOutline self.now }
    {
        self.ring
    }

    pub(crate) fn layout(&self) -> &Layout
        ensures { result.now ≡ structure self.now }
    {
        &self.layout
    }

    pub(crate) fn duty(&self) -> &Duty
        ensures { result.now ≡ structure self.now }
    {
        &self.duty
    }

    pub(crate) fn parties(&self) -> u32
        ensures is { result ≡ self.now.parties }
        ensures outline { IsOutline self.now }
    {
        self.layout.parties()
    }

    pub(crate) fn shares(&self) -> u32
        ensures is { result ≡ length self.now.groups }
        ensures outline { IsOutline self.now }
    {
        self.layout.shares()
    }

    pub(crate) fn sessions(&self) -> u32
        ensures is { result ≡ length self.now.sessions }
        ensures outline { IsOutline self.now }
    {
        self.parts.len() as u32
    }

    pub(crate) fn part(&self, s: u32) -> &SessionPart
        requires { s < length self.now.sessions }
        ensures is { result.now ≡ session self.now s }
        ensures sound { IsSoundSession self.now.parties (session self.now s) }
    {
        &self.parts[s as usize]
    }

    /// Whether the products of session `s` are prepared.
    pub(crate) fn prepared(&self, s: u32) -> bool
        requires { s < length self.now.sessions }
        ensures { result ≡ (session self.now s).prepared }
    {
        self.part(s).is_prepared()
    }

    /// Whether party `p` deals at a product.
    pub(crate) fn multiplies(&self, p: u32) -> bool
        requires { p < self.now.parties }
        ensures { result ≡ has_pair (scheme self.now) p }
    {
        self.duty.deals(p)
    }

    /// Whether party `p` holds summand `i`.
    pub(crate) fn holds(&self, p: u32, i: u32) -> bool
        requires party { p < self.now.parties }
        requires summand { i < length self.now.groups }
        ensures { result ≡ is_holder self.now p i }
    {
        self.layout.holds(p, i)
    }

    /// The least party that holds summand `i`.
    pub(crate) fn least_holder(&self, i: u32) -> u32
        requires { i < length self.now.groups }
        ensures is { result ≡ holder_of self.now i }
        ensures party { result < self.now.parties }
    {
        self.layout.least_holder(i)
    }

    /// Whether slot `k` of session `s` is of a mask.
    pub(crate) fn is_mask(&self, s: u32, k: u32) -> bool
        requires session { s < length self.now.sessions }
        requires slot { k < slots self.now s }
        ensures { result ≡ is_mask (slot self.now s k) }
    {
        matches!(self.part(s).slot_kind(k), SlotKind::Mask(_, _))
    }

    /// How the messages of slot `k` of session `s` go.
    pub(crate) fn pattern(&self, s: u32, k: u32) -> Pattern
        requires session { s < length self.now.sessions }
        requires slot { k < slots self.now s }
        ensures is { result ≡ pattern_at self.now s k }
        ensures occurs { Occurs self.now result }
    {
        let part = self.part(s);
        match part.slot_kind(k) {
            SlotKind::Input(v) => Pattern::of_input(part.source(v)),
            SlotKind::Gate(t) => self.gate_pattern(s, t),
            SlotKind::Output(o) => Pattern::Opened(part.wire_readers(o)),
            SlotKind::Mask(_, _) => Pattern::HandedOut,
            SlotKind::MaskProduct(_) => Pattern::Multiplied,
            SlotKind::Masked(_, _) => Pattern::OpenedToAll,
            SlotKind::Kept(_) => Pattern::Held,
        }
    }

    // How the messages of gate t of session s go.
    fn gate_pattern(&self, s: u32, t: u32) -> Pattern
        requires session { s < length self.now.sessions }
        requires gate { t < length (session self.now s).gates }
        ensures { result ≡ pattern self.now s (At_gate t) }
    {
        if !self.part(s).gate(t).operation.is_product() {
            Pattern::Silent
        } else if self.prepared(s) {
            Pattern::Joined
        } else {
            Pattern::Multiplied
        }
    }
}
