//! Who deals in a slot, who sends there, and how many words are drawn.
ghost use Rattle.std.specs.Prelude.{◌≡◌, ◌<◌, length};
ghost use Rattle.plan_model.specs.Plans.{deals_in, words_in, session};
ghost use Rattle.session_slots.specs.SoundSessions.{Inside, slot_of_kind};
ghost use Rattle.wire_tables.specs.SlotRows.{may_send};

use job_plan::{Plan, SlotKind};

/// Whether party `p` deals in a slot of session `s` that is of this kind: an input of its own, or its part of a
/// product, which of a prepared one is the product of its masks.
pub fn deals_in(plan: &Plan, s: u32, p: u32, kind: SlotKind) -> bool
    requires session { s < length plan.now.sessions }
    requires party { p < plan.now.parties }
    requires inside { Inside (session plan.now s) (slot_of_kind kind) }
    ensures { result ≡ deals_in plan.now s p (slot_of_kind kind) }
{
    let part = plan.part(s);
    match kind {
        SlotKind::Input(v) => part.source(v).is_given_by(p),
        SlotKind::Gate(t) => {
            !part.is_prepared() && part.gate(t).operation.is_product() && plan.multiplies(p)
        }
        SlotKind::MaskProduct(_) => plan.multiplies(p),
        SlotKind::Output(_) | SlotKind::Mask(_, _) | SlotKind::Masked(_, _) | SlotKind::Kept(_) =>
            false,
    }
}

/// Whether party `p` may send in a slot of session `s` that is of this kind.
pub(crate) fn may_send(plan: &Plan, s: u32, p: u32, kind: SlotKind) -> bool
    requires session { s < length plan.now.sessions }
    requires party { p < plan.now.parties }
    requires inside { Inside (session plan.now s) (slot_of_kind kind) }
    ensures { result ≡ may_send plan.now s p (slot_of_kind kind) }
{
    match kind {
        SlotKind::Output(_) | SlotKind::Mask(_, _) | SlotKind::Masked(_, _) | SlotKind::Kept(_) =>
            true,
        _ => deals_in(plan, s, p, kind),
    }
}

/// How many tape words party `p` draws in a slot of session `s` that is of this kind: of a mask one for each summand
/// of which it is the least holder, and for a deal one less than there are summands.
pub fn words_in(plan: &Plan, s: u32, p: u32, kind: SlotKind) -> u32
    requires session { s < length plan.now.sessions }
    requires party { p < plan.now.parties }
    requires inside { Inside (session plan.now s) (slot_of_kind kind) }
    ensures { result ≡ words_in plan.now s p (slot_of_kind kind) }
{
    if let SlotKind::Mask(_, _) = kind {
        return plan.least_held(p, plan.shares());
    }
    if deals_in(plan, s, p, kind) {
        plan.shares() - 1
    } else {
        0
    }
}
