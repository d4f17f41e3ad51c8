//! Plans, with the tables that number their messages.
ghost use Rattle.std.specs.Prelude.{◌≡◌, ◌≤◌, IfOk, MatchResult, length};
ghost use Rattle.plan_model.specs.Plans.{KeepsCarried, keeping_plan};
ghost use Rattle.plan_model.specs.Messages.{messages};
ghost use Rattle.job_plan.specs.Tables.{IsLaid};
ghost use Rattle.job_plan.specs.Limits.{IsPlanWithin, IsPlanRefusal};

use crate::counts::{deal_count, least_held, message_count, prepared_products, word_count};
use crate::lists::{list_starts, list_words};
use crate::outline::Outline;
use crate::patterns::Patterns;
use crate::readers::add_readers;
use job_limits::{MOST_MESSAGES, MOST_SESSIONS, MOST_WORDS};
use job_session::{RowTable, SessionPart};
use mask_list::MaskList;
use mpc_ring::Ring;
use party_set::MOST_GROUPS;
use plan_faults::PlanFault;
use plan_model::{Key, Pattern, Starts, Transfer, search};
use product_duty::Duty;
use share_layout::Layout;
use std::alloc::{AllocError, Global};
use std::marker::Model;
use std::sync::Arc;

/// A ring, a structure of parties and the sessions, with the transfers of each pattern that occurs and tables of where
/// each slot and each session begins. A message and its number are found by a binary search, all else in constant time.
/// Contracts see a plan of the definitions.
#[derive(Drop)]
pub struct Plan {
    outline: Outline,
    count: u32,
    patterns: Patterns,
    starts: Vec<Starts>,
    words: Vec<Starts>,
}

impl Model for Plan {
    ghost use Rattle.plan_model.specs.Plans as plans;
    ghost use Rattle.job_plan.specs.Tables.{IsLaid};

    ghost Value = { plans.Plan };

    ghost view = { λ p. p.outline };

    ghost invariant = { λ p. IsLaid p.outline p.count p.patterns p.starts.items p.words.items };
}

impl Plan {
    ghost use Rattle.std.specs.Prelude.{◌≡◌, ℕ, ◌+◌, ◌-◌, ◌*◌, ◌<◌, ◌≤◌, true, if◌then◌else◌, map, length};
    ghost use Rattle.std.specs.Prelude.{All, IfOk, IfErr, OnOk, SomeIff};
    ghost use Rattle.std.specs.Arc.{arc_value};
    ghost use Rattle.mask_list.specs.Masks.{AreMasksOf};
    ghost use Rattle.job_session.specs.Rows.{IsRows};
    ghost use Rattle.session_slots.specs.KeptWires.{live};
    ghost use Rattle.session_slots.specs.Sessions.{readers};
    ghost use Rattle.plan_model.specs.Plans.{plan_of, structure, scheme, session, slot, slots, deals_in};
    ghost use Rattle.plan_model.specs.Plans.{words, place, random_place, least_held};
    ghost use Rattle.secret_sharing.specs.Schemes.{has_pair};
    ghost use Rattle.plan_model.specs.Messages.{messages, slot_messages};
    ghost use Rattle.plan_model.specs.Patterns.{named, transfers, pattern_at, Occurs};
    ghost use Rattle.plan_model.specs.Numbers.{message, number, deals, deals_before, deal_place, deal_slot, is_mask, masks_before, DrawsSummand};
    ghost use Rattle.session_slots.specs.SoundSessions.{IsSoundSession};
    ghost use Rattle.session_slots.specs.Carries.{AllFit, keeping};
    ghost use Rattle.plan_model.specs.Sound.{IsSound};
    ghost use Rattle.plan_model.specs.Firsts.{first};
    ghost use Rattle.job_plan.specs.Limits.{IsPlanWithin, IsPlanRefusal};

    /// The plan of these sessions, each of which keeps what those behind it carry from it. It is refused where it has
    /// more than 1,048,576 messages, or a party would draw more tape words than that. Both are counted before any table
    /// is made.
    pub fn make(
        alloc: Global,
        ring: Ring,
        layout: Layout,
        duty: Duty,
        parts: Vec<SessionPart>,
    ) -> Result<Plan, PlanFault>
        requires structure { duty ≡ layout }
        requires few { length parts.items ≤ MOST_SESSIONS }
        requires sound { All (IsSoundSession layout.parties) parts.items }
        requires fit { AllFit parts.items }
        ensures made { IfOk result (λ plan. plan ≡ plan_of ring layout (keeping parts.items)) }
        ensures within { OnOk result (IsPlanWithin (plan_of ring layout (keeping parts.items))) }
        ensures refusal { IfErr result (IsPlanRefusal (plan_of ring layout (keeping parts.items))) }
    {
        let outline = Outline::of(ring, layout, duty, parts);
        let count = check_limits(&outline)?;
        let outline = outline.keep(alloc)?;
        let tables = tables_of(alloc, &outline, count)?;
        let Tables {
            patterns,
            starts,
            words,
        } = tables;
        Ok(Plan {
            outline,
            count,
            patterns,
            starts,
            words,
        })
    }

    /// The ring of all values.
    pub fn ring(&self) -> Ring
        ensures is { result ≡ self.now.bits }
        ensures sound { IsSound self.now }
    {
        self.outline.ring()
    }

    /// How many parties there are, 1 to 12.
    pub fn parties(&self) -> u32
        ensures is { result ≡ self.now.parties }
        ensures sound { IsSound self.now }
    {
        self.outline.parties()
    }

    /// Brings into the proof of the function that calls it that the plan is within the limits. It computes nothing.
    #[inline(always)]
    pub fn recall(&self)
        ensures { IsSound self.now }
    {
        let _ = self.parties();
    }

    /// How many summands a value has.
    pub fn shares(&self) -> u32
        ensures is { result ≡ length self.now.groups }
        ensures sound { IsSound self.now }
    {
        self.outline.shares()
    }

    /// How many sessions there are, at most 16.
    pub fn sessions(&self) -> u32
        ensures { result ≡ length self.now.sessions }
    {
        self.outline.sessions()
    }

    /// Session s.
    pub fn part(&self, s: u32) -> &SessionPart
        requires { s < length self.now.sessions }
        ensures { result.now ≡ session self.now s }
    {
        self.outline.part(s)
    }

    /// The groups that read outputs of session `s`.
    pub fn readers(&self, alloc: Global, s: u32) -> Result<MaskList, AllocError>
        requires { s < length self.now.sessions }
        ensures { IfOk result (λ masks. AreMasksOf masks (readers (session self.now s))) }
    {
        let mut masks = MaskList::new(alloc);
        add_readers(&self.outline, s, &mut masks)?;
        Ok(masks)
    }

    /// How many wires session `s` keeps at once, where it keeps most.
    pub fn live(&self, s: u32) -> u32
        requires { s < length self.now.sessions }
        ensures { result ≡ live (session self.now s) }
    {
        self.rows(s).count() - 1
    }

    /// The row of each wire of session `s`, in a table of `live + 1` rows.
    pub fn rows(&self, s: u32) -> &Arc<RowTable, Global>
        requires { s < length self.now.sessions }
        ensures { IsRows (session self.now s) (arc_value result.now) }
    {
        self.part(s).rows()
    }

    /// Who holds which summand.
    pub fn layout(&self) -> &Layout
        ensures { result.now ≡ structure self.now }
    {
        self.outline.layout()
    }

    /// Who multiplies which pair of summands.
    pub fn duty(&self) -> &Duty
        ensures { result.now ≡ structure self.now }
    {
        self.outline.duty()
    }

    /// Whether party `p` deals at a product: it has a pair of summands to multiply.
    pub fn multiplies(&self, p: u32) -> bool
        requires { p < self.now.parties }
        ensures { result ≡ has_pair (scheme self.now) p }
    {
        self.outline.multiplies(p)
    }

    /// Of how many of the first `end` summands party `p` is the least holder. Of all, as many words as it draws for a
    /// mask.
    pub fn least_held(&self, p: u32, end: u32) -> u32
        requires { end ≤ length self.now.groups }
        ensures { result ≡ least_held self.now p end }
    {
        least_held(&self.outline, p, end)
    }

    /// How many messages there are, over all sessions.
    pub fn messages(&self) -> u32
        ensures { result ≡ length (messages self.now) }
    {
        self.count
    }

    /// The message of this number.
    pub fn message(&self, n: u32) -> Key
        requires { n < length (messages self.now) }
        ensures is { result ≡ message self.now n }
        ensures few { result.share < MOST_GROUPS }
    {
        let s = self.session_of(n);
        let k = self.slot_of(s, n);
        let transfer = self.slot_transfers(s, k)[(n - self.first(s, k)) as usize];
        transfer.named(s, k)
    }

    // The session of message n: the last that begins there or before it.
    fn session_of(&self, n: u32) -> u32
        requires { n < length (messages self.now) }
        ensures there { result < length self.now.sessions }
        ensures begin { first self.now result 0 ≤ n }
        ensures end { n < first self.now result (slots self.now result) }
    {
        let mut s = self.sessions() - 1;
        while n < self.first(s, 0) {
            s -= 1;
        }
        s
    }

    // The slot of message n, which is of session s.
    fn slot_of(&self, s: u32, n: u32) -> u32
        requires session { s < length self.now.sessions }
        requires begin { first self.now s 0 ≤ n }
        requires end { n < first self.now s (slots self.now s) }
        ensures there { result < slots self.now s }
        ensures begin { first self.now s result ≤ n }
        ensures end { n < first self.now s (result + 1) }
    {
        self.starts[s as usize].part_of(n)
    }

    /// The number of the first message of slot `k` of session `s`; at the count of slots, of the first one after.
    pub fn first(&self, s: u32, k: u32) -> u32
        requires session { s < length self.now.sessions }
        requires slot { k ≤ slots self.now s }
        ensures is { result ≡ first self.now s k }
        ensures within { result ≤ length (messages self.now) }
    {
        self.starts[s as usize].at(k)
    }

    /// The number of this message, None exactly where the key is no message of the plan.
    pub fn number(&self, key: Key) -> Option<u32>
        ensures { SomeIff result (number self.now key < length (messages self.now)) (number self.now key) }
    {
        if key.session >= self.sessions() || key.slot >= self.slots(key.session) {
            return None;
        }
        let transfers = self.slot_transfers(key.session, key.slot);
        let order = self.pattern(key.session, key.slot).order();
        let at = search(transfers, order, key)?;
        Some(self.first(key.session, key.slot) + at as u32)
    }

    // The messages of slot k of session s, as the transfers of its pattern.
    fn slot_transfers(&self, s: u32, k: u32) -> &[Transfer]
        requires session { s < length self.now.sessions }
        requires slot { k < slots self.now s }
        ensures is { map (named s k) result.now ≡ slot_messages self.now s k (slot self.now s k) }
        ensures sound { IsSound self.now }
    {
        self.patterns.transfers(self.pattern(s, k))
    }

    /// How many slots session `s` has.
    pub fn slots(&self, s: u32) -> u32
        requires { s < length self.now.sessions }
        ensures { result ≡ slots self.now s }
    {
        self.outline.part(s).slots()
    }

    /// How the messages of slot `k` of session `s` go.
    pub fn pattern(&self, s: u32, k: u32) -> Pattern
        requires session { s < length self.now.sessions }
        requires slot { k < slots self.now s }
        ensures is { result ≡ pattern_at self.now s k }
        ensures occurs { Occurs self.now result }
    {
        self.outline.pattern(s, k)
    }

    /// The transfers of a pattern that occurs in the plan.
    pub fn transfers(&self, pattern: Pattern) -> &[Transfer]
        requires { Occurs self.now pattern }
        ensures { result.now ≡ transfers self.now pattern }
    {
        self.patterns.transfers(pattern)
    }

    /// How many deals party `p` makes in session `s`.
    pub fn deals(&self, p: u32, s: u32) -> u32
        requires party { p < self.now.parties }
        requires session { s < length self.now.sessions }
        ensures { result ≡ deals self.now p s }
    {
        deal_count(&self.outline, p, s)
    }

    /// How many tape words party `p` draws in session `s`.
    pub fn words(&self, p: u32, s: u32) -> u32
        requires party { p < self.now.parties }
        requires session { s < length self.now.sessions }
        ensures { result ≡ words self.now p s }
    {
        let start = self.tape_start(p, s);
        self.tape_start(p, s + 1) - start
    }

    /// The place on party `p`'s tape, which holds the words of all sessions, of the first word that it draws in session
    /// `s`. At the count of sessions, the end of the tape.
    pub fn tape_start(&self, p: u32, s: u32) -> u32
        requires party { p < self.now.parties }
        requires session { s ≤ length self.now.sessions }
        ensures is { result ≡ place self.now p s 0 }
        ensures sound { IsSound self.now }
    {
        self.words[p as usize].at(s)
    }

    /// The place on party `p`'s tape of the first word of deal `deal` of session `s`, behind all words that it draws
    /// before. At the count of its deals, the place behind them.
    pub fn tape_place(&self, p: u32, s: u32, deal: u32) -> u32
        requires party { p < self.now.parties }
        requires session { s < length self.now.sessions }
        requires deal { deal ≤ deals self.now p s }
        ensures is { result ≡ deal_place self.now p s deal }
        ensures in_slot { (k : ℕ) → k < slots self.now s → deals_in self.now s p (slot self.now s k) ≡ true
            → deal ≡ deals_before self.now p s k → result ≡ place self.now p s k }
    {
        self.tape_start(p, s) + self.mask_words(p, s, deal) + (self.shares() - 1) * deal
    }

    // How many words of masks `p` draws in session `s` before deal `deal`: those of all masks, but that its deals at
    // prepared products stand each behind both masks of the product where masks don't come ahead.
    fn mask_words(&self, p: u32, s: u32, deal: u32) -> u32
        requires party { p < self.now.parties }
        requires session { s < length self.now.sessions }
        requires deal { deal ≤ deals self.now p s }
        ensures { result
            ≡ least_held self.now p (length self.now.groups) * masks_before self.now s (deal_slot self.now p s deal) }
    {
        let products = prepared_products(&self.outline, s);
        if products == 0 {
            return 0;
        }
        if self.part(s).is_ahead() {
            return least_held(&self.outline, p, self.shares()) * (2 * products);
        }
        let behind = if self.multiplies(p) && deal < products {
            deal + 1
        } else {
            products
        };
        least_held(&self.outline, p, self.shares()) * (2 * behind)
    }

    /// The place on party `p`'s tape of summand `i` of the mask in slot `k` of session `s`; None exactly where the slot
    /// is no mask, or `p` doesn't draw the summand.
    pub fn random_place(&self, p: u32, s: u32, k: u32, i: u32) -> Option<u32>
        requires party { p < self.now.parties }
        requires session { s < length self.now.sessions }
        requires slot { k < slots self.now s }
        requires summand { i < length self.now.groups }
        ensures { SomeIff result (DrawsSummand self.now p s k i) (random_place self.now s k i) }
    {
        if self.outline.is_mask(s, k) && self.outline.least_holder(i) == p {
            Some(self.summand_place(p, s, k, i))
        } else {
            None
        }
    }

    // The place on p's tape of summand i of the mask in slot k, where p draws it.
    fn summand_place(&self, p: u32, s: u32, k: u32, i: u32) -> u32
        requires party { p < self.now.parties }
        requires session { s < length self.now.sessions }
        requires slot { k < slots self.now s }
        requires summand { i < length self.now.groups }
        requires drawn { DrawsSummand self.now p s k i }
        ensures { result ≡ random_place self.now s k i }
    {
        self.mask_place(p, s, k) + least_held(&self.outline, p, i)
    }

    // The place on p's tape of the first word that it draws for the mask in slot k: all slots before it are masks or,
    // where masks don't come ahead, the masks of products, and the products of these, three for each product.
    fn mask_place(&self, p: u32, s: u32, k: u32) -> u32
        requires party { p < self.now.parties }
        requires session { s < length self.now.sessions }
        requires slot { k < slots self.now s }
        requires mask { is_mask (slot self.now s k) ≡ true }
        ensures is { result ≡ place self.now p s k }
        ensures sound { IsSound self.now }
    {
        let held = least_held(&self.outline, p, self.shares());
        if self.part(s).is_ahead() {
            return self.tape_start(p, s) + k * held;
        }
        let each = 2 * held + self.product_words(p);
        self.tape_start(p, s) + k / 3 * each + k % 3 * held
    }

    // How many words p draws at a product that it deals.
    fn product_words(&self, p: u32) -> u32
        requires { p < self.now.parties }
        ensures { result ≡ (if has_pair (scheme self.now) p then length self.now.groups - 1 else 0) }
    {
        if self.multiplies(p) {
            self.shares() - 1
        } else {
            0
        }
    }
}

// The transfers of each pattern, and where each slot and each session begins.
#[derive(Drop)]
struct Tables {
    patterns: Patterns,
    starts: Vec<Starts>,
    words: Vec<Starts>,
}

// How many messages a plan has whose sessions keep what later ones carry, unless it is refused.
fn check_limits(outline: &Outline) -> Result<u32, PlanFault>
    ensures { MatchResult result
        (λ count. IsPlanWithin (keeping_plan outline.now) × (count ≡ length (messages (keeping_plan outline.now))))
        (IsPlanRefusal (keeping_plan outline.now)) }
{
    let count = message_count(outline);
    if count > MOST_MESSAGES {
        return Err(PlanFault::TooManyMessages { count });
    }
    check_words(outline)?;
    Ok(count as u32)
}

// The tables of a plan that isn't refused.
fn tables_of(alloc: Global, outline: &Outline, count: u32) -> Result<Tables, AllocError>
    requires kept { KeepsCarried outline.now }
    requires within { IsPlanWithin outline.now }
    requires count { count ≡ length (messages outline.now) }
    ensures { IfOk result (λ made.
        IsLaid outline.now count made.patterns made.starts.items made.words.items) }
{
    let _ = (outline.parties(), count);
    let patterns = Patterns::make(alloc, outline)?;
    let starts = list_starts(alloc, outline, &patterns)?;
    let words = list_words(alloc, outline)?;
    Ok(Tables {
        patterns,
        starts,
        words,
    })
}

// Looks for a party that draws too many tape words. What sessions keep draws none.
fn check_words(outline: &Outline) -> Result<(), PlanFault>
    requires { length (messages (keeping_plan outline.now)) ≤ MOST_MESSAGES }
    ensures { MatchResult result
        (λ _. IsPlanWithin (keeping_plan outline.now)) (IsPlanRefusal (keeping_plan outline.now)) }
{
    for party in 0..outline.parties() {
        let words = word_count(outline, party);
        if words > MOST_WORDS {
            return Err(PlanFault::TooManyWords {
                party,
                count: words,
            });
        }
    }
    Ok(())
}
