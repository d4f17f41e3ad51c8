//! How the tapes of one session change.
ghost use Rattle.std.specs.Prelude.{◌≡◌, ℕ, ◌+◌, ◌^◌, ◌<◌, ◌≤◌, ◌++◌, ◌%◌, if◌then◌else◌};
ghost use Rattle.std.specs.Prelude.{All, IfOk, OnOk, length, slice_index};
ghost use Rattle.list_laws.specs.Lists.{listed};
ghost use Rattle.session_slots.specs.Sessions.{row_names};
ghost use Rattle.session_slots.specs.SoundSessions.{IsWired};
ghost use Rattle.plan_model.specs.Plans.{session};
ghost use Rattle.plan_model.specs.InputWords.{session_words};
ghost use Rattle.mpc_ring.specs.Differences.{difference};
ghost use Rattle.tape_map.specs.TapeMaps.{raised};
ghost use Rattle.tape_map.specs.Changes.{AreNumbers, AreNamedRows, grown_rows, product_growth, row_growths};

use circuit_model::Gate;
use job_plan::{Plan, SessionPart, SlotKind};
use job_session::SlotContent;
use mpc_ring::Ring;
use party_set::Group;
use reshare_step::own_products;
use std::alloc::{AllocError, Global};
use wire_tables::{CarriedRows, SummandTable, WorldData, words_in};

/// The tables of a session, by the names of its rows: by how much each grows with the other inputs, its summands, and
/// these as they are when the hidden one grows by so much.
#[derive(Drop)]
pub struct Change {
    pub session: u32,
    pub hidden: u32,
    pub growths: Vec<u64>,
    pub rows: SummandTable,
    pub moved: Vec<Vec<u64>>,
}

impl Change {
    ghost use Rattle.std.specs.Prelude.{◌≡◌, ℕ, ◌+◌, ◌^◌, ◌<◌, ◌≤◌, ◌++◌, [], IfOk, OnOk, All, length, slice_index_or};
    ghost use Rattle.session_slots.specs.declared.slot_content.SlotContent.TheVariants.{Product};
    ghost use Rattle.session_slots.specs.Sessions.{row_names};
    ghost use Rattle.session_slots.specs.SoundSessions.{AreNamed, Inside, slot_of_kind};
    ghost use Rattle.plan_model.specs.InputWords.{session_words};
    ghost use Rattle.plan_model.specs.Plans.{session, place, words};
    ghost use Rattle.share_world.specs.Laws.{IsWhole};
    ghost use Rattle.wire_tables.specs.WireTables.{AreCarried, summand_rows, world_of};
    ghost use Rattle.tape_map.specs.TapeMaps.{hidden, hidden_word};
    ghost use Rattle.tape_map.specs.Changes.{AreNumbers, ReadsWhole, IsTable, Fits, growth_in, growth_by, grown_piece, row_growths};

    /// The tables of session `s`, whose wires grow by `growths`, where this summand is the hidden one. `carried` has
    /// what is carried of the sessions before, and what is carried of this one is added there.
    pub fn make(
        alloc: Global,
        world: &WorldData<'_>,
        growths: &[u64],
        carried: &mut CarriedRows,
        share: u32,
        s: u32,
    ) -> Result<Change, AllocError>
        requires whole { IsWhole (world_of world.now) }
        requires growths { AreNumbers world.now.plan.now (session world.now.plan.now s).wires growths.now }
        requires carried { AreCarried (world_of world.now) s carried.old }
        requires share { share < length world.now.plan.now.groups }
        requires session { s < length world.now.plan.now.sessions }
        ensures made { IfOk result (IsTable world.now.plan.now s share
            (row_growths (session world.now.plan.now s) growths.now) (summand_rows (world_of world.now) s)) }
        ensures carried { OnOk result (AreCarried (world_of world.now) (s + 1) carried.new) }
    {
        let plan = world.plan;
        let growths = row_growths(alloc, plan.part(s), growths)?;
        let rows = SummandTable::make(alloc, world, carried, s)?;
        let moved = moved_rows(alloc, plan, s, share, &growths, &rows)?;
        Ok(Change {
            session: s,
            hidden: share,
            growths,
            rows,
            moved,
        })
    }

    /// Adds the words that party `p` draws in the session, changed, to its changed tape.
    pub fn push_piece(
        &self,
        plan: &Plan,
        group: Group,
        p: u32,
        tape: &[u64],
        changed: &mut Vec<u64>,
    ) -> Result<(), AllocError>
        requires fits { Fits plan.now self.now }
        requires hidden { self.now.hidden ≡ hidden plan.now group.mask }
        requires share { self.now.hidden < length plan.now.groups }
        requires group { group.parties ≡ plan.now.parties }
        requires party { p < plan.now.parties }
        requires tape { place plan.now p self.now.session 0 + words plan.now p self.now.session
            ≤ length tape.now }
        requires words { All (λ word. word < 2 ^ plan.now.bits) tape.now }
        requires before { length changed.old.items ≡ place plan.now p self.now.session 0 }
        ensures { OnOk result (changed.new.items
            ≡ changed.old.items ++ grown_piece plan.now group.mask self.now tape.now p) }
    {
        let ring = plan.ring();
        let part = plan.part(self.session);
        for k in 0..plan.slots(self.session) {
            let kind = part.slot_kind(k);
            let count = words_in(plan, self.session, p, kind);
            if count > 0 {
                let place = self.hidden_word(plan, p, kind);
                let growth = self.growth(plan, group, p, kind);
                push_words(ring, tape, count, place, growth, changed)?;
            }
        }
        Ok(())
    }

    // Which of the words that party `p` draws in a slot is the hidden summand's.
    fn hidden_word(&self, plan: &Plan, p: u32, kind: SlotKind) -> u32
        requires share { self.now.hidden < length plan.now.groups }
        requires party { p < plan.now.parties }
        ensures { (group : ℕ) → self.now.hidden ≡ hidden plan.now group
            → result ≡ hidden_word plan.now group p (slot_of_kind kind) }
    {
        match kind {
            SlotKind::Mask(_, _) => {
                if plan.layout().least_holder(self.hidden) == p {
                    plan.least_held(p, self.hidden)
                } else {
                    plan.least_held(p, plan.shares())
                }
            }
            _ => self.hidden,
        }
    }

    // By how much that word grows: not at all where `p` is a member, and else as what is dealt there.
    fn growth(&self, plan: &Plan, group: Group, p: u32, kind: SlotKind) -> u64
        requires fits { Fits plan.now self.now }
        requires group { group.parties ≡ plan.now.parties }
        requires party { p < plan.now.parties }
        requires inside { Inside (session plan.now self.now.session) (slot_of_kind kind) }
        ensures is { result ≡ growth_by plan.now group.mask self.now p (slot_of_kind kind) }
        ensures below { result < 2 ^ plan.now.bits }
    {
        let ring = plan.ring();
        if group.has(p) {
            return ring.zero();
        }
        match plan.part(self.session).content(kind) {
            SlotContent::Row(name) => self.growths[name as usize],
            SlotContent::Excess { .. } => ring.zero(),
            SlotContent::Product(gate) => self.part_growth(plan, p, gate),
        }
    }

    // By how much party `p`'s part of the product of the rows grows that a gate reads.
    fn part_growth(&self, plan: &Plan, p: u32, gate: Gate) -> u64
        requires fits { Fits plan.now self.now }
        requires party { p < plan.now.parties }
        requires named { AreNamed (row_names (session plan.now self.now.session)) (Product gate) }
        requires whole { ReadsWhole plan.now self.now.rows (Product gate) }
        ensures is { result ≡ growth_in plan.now self.now p (Product gate) }
        ensures below { result < 2 ^ plan.now.bits }
    {
        let (x, y) = (self.rows.row(gate.first), self.rows.row(gate.second));
        let (moved_x, moved_y) = (self.moved_row(gate.first), self.moved_row(gate.second));
        product_growth(plan, p, x, y, moved_x, moved_y)
    }

    // The row of this name, as it is moved.
    fn moved_row(&self, name: u32) -> &[u64]
        requires { name < length self.now.moved.items }
        ensures { result.now ≡ slice_index_or (session_words self.now.moved.items) name [] }
    {
        &self.moved[name as usize]
    }
}

// By how much party `p`'s part of a product grows, from that of the rows `x` and `y` to that of two others.
fn product_growth(
    plan: &Plan,
    p: u32,
    x: &[u64],
    y: &[u64],
    moved_x: &[u64],
    moved_y: &[u64],
) -> u64
    requires party { p < plan.now.parties }
    requires first { length x.now ≡ length plan.now.groups }
    requires second { length y.now ≡ length plan.now.groups }
    requires moved_first { length moved_x.now ≡ length plan.now.groups }
    requires moved_second { length moved_y.now ≡ length plan.now.groups }
    ensures is { result ≡ product_growth plan.now p x.now y.now moved_x.now moved_y.now }
    ensures below { result < 2 ^ plan.now.bits }
{
    let ring = plan.ring();
    let before = own_products(ring, plan.duty(), p, x, y);
    let after = own_products(ring, plan.duty(), p, moved_x, moved_y);
    ring.sub(after, before)
}

/// By how much each wire of session `s` grows from the first of these values to the second.
pub(crate) fn wire_growths(
    alloc: Global,
    plan: &Plan,
    s: u32,
    first: &[u64],
    second: &[u64],
) -> Result<Vec<u64>, AllocError>
    requires first { AreNumbers plan.now (session plan.now s).wires first.now }
    requires second { AreNumbers plan.now (session plan.now s).wires second.now }
    ensures is { IfOk result (λ more. more.items ≡ listed (session plan.now s).wires
        (λ v. difference (2 ^ plan.now.bits) (slice_index second.now v) (slice_index first.now v))) }
    ensures fit { IfOk result (λ more. AreNumbers plan.now (session plan.now s).wires more.items) }
{
    let ring = plan.ring();
    let mut growths = Vec::new(alloc);
    for v in 0..first.len() {
        growths.push(ring.sub(second[v], first[v]))?;
    }
    Ok(growths)
}

// By how much the row of each name grows, where the wires grow by `growths`: a mask as the wire that it masks, and the
// product of masks, which no product reads, not at all.
fn row_growths(alloc: Global, part: &SessionPart, growths: &[u64]) -> Result<Vec<u64>, AllocError>
    requires wired { IsWired part.now }
    requires wires { length growths.now ≡ part.now.wires }
    ensures { IfOk result (λ more. more.items ≡ row_growths part.now growths.now) }
{
    let mut more = Vec::with_capacity(alloc, part.row_names() as usize)?;
    more.extend_from_slice(growths)?;
    if part.is_prepared() {
        for gate in part.gates() {
            let first = growths[gate.first as usize];
            let second = growths[gate.second as usize];
            more.extend_from_slice(&[first, second, 0])?;
        }
    }
    Ok(more)
}

// The row of each name, where the hidden summand grows by as much as the row is to.
fn moved_rows(
    alloc: Global,
    plan: &Plan,
    s: u32,
    share: u32,
    growths: &[u64],
    rows: &SummandTable,
) -> Result<Vec<Vec<u64>>, AllocError>
    requires session { s < length plan.now.sessions }
    requires share { share < length plan.now.groups }
    requires growths { AreNumbers plan.now (row_names (session plan.now s)) growths.now }
    requires rows { AreNamedRows plan.now s rows.now }
    ensures { IfOk result (λ moved. session_words moved.items
        ≡ grown_rows plan.now s share growths.now rows.now) }
{
    let ring = plan.ring();
    let names = plan.part(s).row_names();
    let mut moved = Vec::with_capacity(alloc, names as usize)?;
    for name in 0..names {
        let growth = growths[name as usize];
        moved.push(raised_row(alloc, ring, share, growth, rows.row(name))?)?;
    }
    Ok(moved)
}

// A copy of a row, of which one summand grows, if it has any.
fn raised_row(
    alloc: Global,
    ring: Ring,
    share: u32,
    growth: u64,
    row: &[u64],
) -> Result<Vec<u64>, AllocError>
    requires growth { growth < 2 ^ ring }
    requires row { 0 < length row.now
        → (share < length row.now) × All (λ word. word < 2 ^ ring) row.now }
    ensures { IfOk result (λ raised_row. raised_row.items
        ≡ listed (length row.now) (raised (2 ^ ring) share growth (slice_index row.now))) }
{
    if row.is_empty() {
        return Ok(Vec::new(alloc));
    }
    let mut raised = Vec::from_slice(alloc, row)?;
    let word = raised[share as usize];
    raised[share as usize] = ring.add(word, growth);
    Ok(raised)
}

// Adds the next words of a tape to its change. The one at a place among them grows.
fn push_words(
    ring: Ring,
    tape: &[u64],
    count: u32,
    place: u32,
    growth: u64,
    changed: &mut Vec<u64>,
) -> Result<(), AllocError>
    requires enough { length changed.old.items + count ≤ length tape.now }
    requires growth { growth < 2 ^ ring }
    requires words { All (λ word. word < 2 ^ ring) tape.now }
    ensures { OnOk result (changed.new.items ≡ changed.old.items ++ listed count
        (raised (2 ^ ring) place growth
        (λ i. slice_index tape.now (length changed.old.items + i)))) }
{
    for i in 0..count {
        let word = tape[changed.len()];
        changed.push(grown(ring, word, growth, i == place))?;
    }
    Ok(())
}

// A word, and where it is the hidden one, by how much it grows.
fn grown(ring: Ring, word: u64, growth: u64, is_hidden: bool) -> u64
    requires words { (word < 2 ^ ring) × (growth < 2 ^ ring) }
    ensures { result ≡ (if is_hidden then (word + growth) % 2 ^ ring else word) }
{
    if is_hidden {
        ring.add(word, growth)
    } else {
        word
    }
}
