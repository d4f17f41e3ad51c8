//! How many messages and tape words a plan has, found without making a list of them.
ghost use Rattle.std.specs.Prelude.{◌≡◌, ℕ, ◌+◌, ◌-◌, ◌*◌, ◌^◌, ◌<◌, ◌≤◌, ◌&&◌, nat_eq, not, length};
ghost use Rattle.list_laws.specs.Lists.{total, joined};
ghost use Rattle.plan_model.specs.Plans.{is_holder, session, least_held, words, keeping_plan};
ghost use Rattle.session_slots.specs.Carries.{carried_count};
ghost use Rattle.plan_model.specs.Messages.{deal_message, deal_messages, kept_message, kept_messages, mask_messages, messages, open_messages};
ghost use Rattle.plan_model.specs.Numbers.{deals};
ghost use Rattle.session_slots.specs.Counts.{prepared_products};
ghost use Rattle.plan_model.specs.Tallies.{keeping_messages, openings, party_messages, masks_messages, tape_length};

use crate::outline::Outline;
use job_limits::{MOST_GATES, MOST_SESSIONS, MOST_WIRES};
use party_set::{MOST_GROUPS, MOST_PARTIES};

/// Whether party `p` sends summand `i` of a deal to `q`: another party that holds it.
pub(crate) fn sends(outline: &Outline, p: u32, q: u32, i: u32) -> bool
    requires party { q < outline.now.parties }
    requires summand { i < length outline.now.groups }
    ensures { result ≡ (not (nat_eq q p) && is_holder outline.now q i) }
{
    q != p && outline.holds(q, i)
}

// To how many parties p sends summand i of a deal.
fn receivers(outline: &Outline, p: u32, i: u32) -> u32
    requires { i < length outline.now.groups }
    ensures is { (s k : ℕ) → result ≡ length (joined outline.now.parties (deal_message outline.now s k p i)) }
    ensures few { result ≤ MOST_PARTIES }
{
    let mut count = 0;
    for q in 0..outline.parties() {
        count += u32::from(sends(outline, p, q, i));
    }
    count
}

// How many messages a deal of p has.
fn deal_size(outline: &Outline, p: u32) -> u32
    ensures is { (s k : ℕ) → result ≡ length (deal_messages outline.now s k p) }
    ensures few { result ≤ MOST_PARTIES * MOST_GROUPS }
{
    let mut count = 0;
    for i in 0..outline.shares() {
        count += receivers(outline, p, i);
    }
    count
}

// How many messages an opening to r has.
fn opening_size(outline: &Outline, r: u32) -> u32
    requires { r < outline.now.parties }
    ensures is { (s k : ℕ) → result ≡ length (open_messages outline.now s k r) }
    ensures few { result ≤ MOST_GROUPS }
{
    let mut count = 0;
    for i in 0..outline.shares() {
        count += u32::from(!outline.holds(r, i));
    }
    count
}

// How many messages a mask has.
fn mask_size(outline: &Outline) -> u32
    ensures is { (s k : ℕ) → result ≡ length (mask_messages outline.now s k) }
    ensures few { result ≤ MOST_PARTIES * MOST_GROUPS }
{
    let mut count = 0;
    for i in 0..outline.shares() {
        count += receivers(outline, outline.least_holder(i), i);
    }
    count
}

// How many parties hold summand i.
fn holders(outline: &Outline, i: u32) -> u32
    requires { i < length outline.now.groups }
    ensures is { (s k : ℕ) → result ≡ length (joined outline.now.parties (kept_message outline.now s k i)) }
    ensures few { result ≤ MOST_PARTIES }
{
    let mut count = 0;
    for p in 0..outline.parties() {
        count += u32::from(outline.holds(p, i));
    }
    count
}

// How many messages a kept wire has.
fn kept_size(outline: &Outline) -> u32
    ensures is { (s k : ℕ) → result ≡ length (kept_messages outline.now s k) }
    ensures few { result ≤ MOST_PARTIES * MOST_GROUPS }
{
    let mut count = 0;
    for i in 0..outline.shares() {
        count += holders(outline, i);
    }
    count
}

/// Of how many of the first `end` summands party `p` is the least holder.
pub(crate) fn least_held(outline: &Outline, p: u32, end: u32) -> u32
    requires { end ≤ length outline.now.groups }
    ensures is { result ≡ least_held outline.now p end }
    ensures few { result ≤ end }
{
    let mut count = 0;
    for i in 0..end {
        count += u32::from(outline.least_holder(i) == p);
    }
    count
}

/// How many prepared products session `s` has.
pub(crate) fn prepared_products(outline: &Outline, s: u32) -> u32
    requires { s < length outline.now.sessions }
    ensures is { result ≡ prepared_products (session outline.now s) }
    ensures few { result ≤ MOST_GATES }
{
    if outline.prepared(s) {
        outline.part(s).products() as u32
    } else {
        0
    }
}

/// How many deals party `p` makes in session `s`.
pub(crate) fn deal_count(outline: &Outline, p: u32, s: u32) -> u32
    requires party { p < outline.now.parties }
    requires session { s < length outline.now.sessions }
    ensures is { result ≡ deals outline.now p s }
    ensures few { result ≤ MOST_WIRES + MOST_GATES }
{
    let part = outline.part(s);
    let products = if outline.multiplies(p) {
        part.products()
    } else {
        0
    };
    (part.owned(p) + products) as u32
}

/// How many tape words party `p` draws in session `s`.
pub(crate) fn session_words(outline: &Outline, p: u32, s: u32) -> u32
    requires party { p < outline.now.parties }
    requires session { s < length outline.now.sessions }
    ensures is { result ≡ words outline.now p s }
    ensures few { result ≤ (MOST_GROUPS - 1) * (MOST_WIRES + MOST_GATES) + MOST_GROUPS * (2 * MOST_GATES) }
{
    let for_deals = (outline.shares() - 1) * deal_count(outline, p, s);
    let held = least_held(outline, p, outline.shares());
    for_deals + held * (2 * prepared_products(outline, s))
}

// How many deals p makes in all sessions.
fn all_deals(outline: &Outline, p: u32) -> u64
    requires { p < outline.now.parties }
    ensures is { result ≡ total (length outline.now.sessions) (deals outline.now p) }
    ensures few { result ≤ MOST_SESSIONS * (MOST_WIRES + MOST_GATES) }
{
    let mut count = 0;
    for s in 0..outline.sessions() {
        count += u64::from(deal_count(outline, p, s));
    }
    count
}

// How many openings there are to r in session s.
fn opening_count(outline: &Outline, r: u32, s: u32) -> u32
    requires party { r < outline.now.parties }
    requires session { s < length outline.now.sessions }
    ensures is { result ≡ openings outline.now r s }
    ensures few { result ≤ MOST_WIRES + 2 * MOST_GATES }
{
    let _parties = outline.parties();
    outline.part(s).outputs_read(r) as u32 + 2 * prepared_products(outline, s)
}

// How many openings there are to r in all sessions.
fn all_openings(outline: &Outline, r: u32) -> u64
    requires { r < outline.now.parties }
    ensures is { result ≡ total (length outline.now.sessions) (openings outline.now r) }
    ensures few { result ≤ MOST_SESSIONS * (MOST_WIRES + 2 * MOST_GATES) }
{
    let mut count = 0;
    for s in 0..outline.sessions() {
        count += u64::from(opening_count(outline, r, s));
    }
    count
}

// How many masks there are in all sessions.
fn all_masks(outline: &Outline) -> u64
    ensures is { result ≡ total (length outline.now.sessions)
        (λ s. 2 * prepared_products (session outline.now s)) }
    ensures few { result ≤ MOST_SESSIONS * (2 * MOST_GATES) }
{
    let mut count = 0;
    for s in 0..outline.sessions() {
        count += u64::from(2 * prepared_products(outline, s));
    }
    count
}

// How many input wires session s carries.
fn carried_count(outline: &Outline, s: u32) -> u32
    requires { s < length outline.now.sessions }
    ensures is { result ≡ carried_count (session outline.now s) }
    ensures few { result ≤ MOST_WIRES }
{
    let part = outline.part(s);
    let mut count = 0;
    for v in 0..part.input_wires() as u32 {
        count += u32::from(part.source(v).is_carried());
    }
    count
}

// How many input wires all sessions carry.
fn all_carried(outline: &Outline) -> u64
    ensures is { result ≡ total (length outline.now.sessions) (λ s. carried_count (session outline.now s)) }
    ensures few { result ≤ MOST_SESSIONS * MOST_WIRES }
{
    let mut count = 0;
    for s in 0..outline.sessions() {
        count += u64::from(carried_count(outline, s));
    }
    count
}

// How many messages p deals and is opened in all sessions.
fn party_message_count(outline: &Outline, p: u32) -> u64
    requires { p < outline.now.parties }
    ensures is { result ≡ party_messages outline.now p }
    ensures few { result < 2 ^ 32 }
{
    u64::from(deal_size(outline, p)) * all_deals(outline, p)
        + u64::from(opening_size(outline, p)) * all_openings(outline, p)
}

// How many messages the masks have in all sessions.
fn mask_message_count(outline: &Outline) -> u64
    ensures is { result ≡ masks_messages outline.now }
    ensures few { result < 2 ^ 32 }
{
    u64::from(mask_size(outline)) * all_masks(outline)
}

// How many messages the kept wires have in all sessions, where these keep what later ones carry.
fn kept_message_count(outline: &Outline) -> u64
    ensures is { result ≡ keeping_messages (keeping_plan outline.now) }
    ensures few { result < 2 ^ 32 }
{
    let _ = outline.parties();
    u64::from(kept_size(outline)) * all_carried(outline)
}

/// How many messages there are in all sessions, where these keep what later ones carry.
pub(crate) fn message_count(outline: &Outline) -> u64
    ensures { result ≡ length (messages (keeping_plan outline.now)) }
{
    let mut count = 0;
    for p in 0..outline.parties() {
        count += party_message_count(outline, p);
    }
    count + mask_message_count(outline) + kept_message_count(outline)
}

/// How many tape words party `p` draws in all sessions.
pub(crate) fn word_count(outline: &Outline, p: u32) -> u64
    requires { p < outline.now.parties }
    ensures { result ≡ tape_length outline.now p }
{
    let mut count = 0;
    for s in 0..outline.sessions() {
        count += u64::from(session_words(outline, p, s));
    }
    count
}
