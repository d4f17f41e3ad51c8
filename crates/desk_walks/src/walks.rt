//! Instructions of a desk at gates, one after another, on a board that threads share: head after head as far as a
//! batch goes, and then tail after tail. Each kind has a loop of its own, in which little but words and summands is
//! looked up.
ghost use Rattle.std.specs.Prelude.{◌≡◌, ℕ, ◌+◌, ◌-◌, ◌<◌, ◌≤◌, true, false, length};
ghost use Rattle.secret_sharing.specs.Schemes.{has_pair};
ghost use Rattle.session_slots.specs.Sessions.{session_slots};
ghost use Rattle.session_slots.specs.SoundSessions.{IsSoundSession};
ghost use Rattle.plan_model.specs.declared.pattern.Pattern.TheVariants.{Multiplied, Silent};
ghost use Rattle.plan_model.specs.Plans.{scheme, session};
ghost use Rattle.message_board.specs.Seats.{IsSeatOf};
ghost use Rattle.program_model.specs.declared.half.Half.TheVariants.{Head, Tail};
ghost use Rattle.program_model.specs.declared.instruction.Instruction.TheVariants.{Linear, Sum};
ghost use Rattle.party_program.specs.ProgramPlaces.{InProduct};
ghost use Rattle.program_model.specs.States.{Given};
ghost use Rattle.program_laws.specs.WordsRead.{gate_at};
ghost use Rattle.row_steps.specs.Rows.{gate_in};
ghost use Rattle.party_desk.specs.Desks.{instruction_at};
ghost use Rattle.desk_walks.specs.Walks.{MayTake, TakesLead, LooksAfter, WaitsAfter, AreGatesFrom, IsAmongGates, IsDeskOfPlan, CanWalk, ForWalking, HasWords, Computes, NoPosts, Walks, Sends, IsBefore, IsSending, IsAtTake, HasLooked, NothingToCompute, WentOn, DoesHead, DoesSilentHead};

use crate::beside::{is_beside, walk_beside};
use circuit_model::Gate;
use job_plan::{Pattern, Plan, SessionPart, SlotKind};
use message_board::{Board, BoardSeat, Promise, SlotItem};
use mpc_ring::Ring;
use party_desk::{Desk, Memory};
use party_program::{Half, Instruction, Place, Program};

// The takes that come next in the tail of a product, in which the place stands, until a cell is empty. It answers how
// many steps of the tail are done then: all but the sum, unless one waits.
#[inline(always)]
fn take_words<W: Promise, T: SlotItem<W>>(
    plan: &Plan,
    board: &Board<W, T>,
    seat: &mut BoardSeat<W, T>,
    program: &Program,
    place: &Place,
    session: u32,
    memory: &mut Memory,
) -> u32
    requires may { MayTake plan.now (W.list board.now.about.world) program.now place.now session memory.old }
    requires product { InProduct Tail place.now }
    requires seat { IsSeatOf board.now seat.old }
    ensures seat { IsSeatOf board.now seat.new }
    ensures forth { place.now.done ≤ result }
    ensures left { result < place.now.count }
    ensures walks { TakesLead plan.now (W.list board.now.about.world) program.now place.now session
        seat.old memory.old seat.new memory.new (result - place.now.done) }
    ensures still { result ≡ place.now.done → memory.new ≡ memory.old }
    ensures looked { LooksAfter plan.now (W.list board.now.about.world) program.now place.now session
        memory.old seat.new memory.new (result - place.now.done) }
    ensures waits { result + 1 < place.now.count → WaitsAfter plan.now (W.list board.now.about.world) program.now
        place.now session memory.old memory.new (result - place.now.done) }
{
    let of_product = program.product_steps(Half::Tail);
    let last = of_product.len() as u32 - 1;
    let mut next = place.done();
    while next < last {
        let step = program.product_step(plan, place, of_product, next);
        let Instruction::Take { number, share } = step else {
            unreachable!();
        };
        let Some(word) = board.take(seat, number) else {
            return next;
        };
        memory.add(plan, session, share, word);
        next += 1;
    }
    next
}

// The gates from gate `first` on, at most `most`.
#[inline(always)]
fn gates_at(gates: &[Gate], first: usize, most: usize) -> &[Gate]
    requires { first ≤ length gates.now }
    ensures most { length result.now ≤ most }
    ensures there { first + length result.now ≤ length gates.now }
    ensures are { (i : ℕ) → i < length result.now → gate_in result.now i ≡ gate_in gates.now (first + i) }
{
    let rest = &gates[first..];
    if rest.len() <= most {
        rest
    } else {
        &rest[..most]
    }
}

// The gates from this slot on, up to the end of a batch. Those behind a prepared product have no slots of the run.
#[inline(always)]
fn gates_from(part: &SessionPart, slot: u32, end: u32) -> &[Gate]
    requires sound { (parties : ℕ) × IsSoundSession parties part.now }
    requires among { IsAmongGates part.now slot }
    requires end { slot ≤ end }
    requires there { end ≤ session_slots part.now }
    ensures { AreGatesFrom part.now slot end result.now }
{
    if part.is_prepared() {
        return listed_gates(part, slot, end);
    }
    let first = slot - part.input_wires() as u32;
    gates_at(part.gates(), first as usize, (end - slot) as usize)
}

// The same where the slots of gates aren't counted from the first.
#[inline(never)]
fn listed_gates(part: &SessionPart, slot: u32, end: u32) -> &[Gate]
    requires sound { (parties : ℕ) × IsSoundSession parties part.now }
    requires end { slot ≤ end }
    requires there { end ≤ session_slots part.now }
    ensures { AreGatesFrom part.now slot end result.now }
{
    if slot == end {
        return &[];
    }
    let SlotKind::Gate(t) = part.slot_kind(slot) else {
        return &[];
    };
    gates_at(part.gates(), t as usize, (end - slot) as usize)
}

/// Does the instructions that come next, until one waits for a message or none is left, and answers how many they
/// were. Afterwards no own product, no sum and no linear gate comes next, nor a take of a product
/// whose word the seat knows.
#[inline(always)]
pub fn walk_gates<W: Promise, T: SlotItem<W>>(
    desk: &mut Desk,
    plan: &Plan,
    board: &Board<W, T>,
    seat: &mut BoardSeat<W, T>,
) -> u32
    requires may { CanWalk plan.now (W.list board.now.about.world) desk.old }
    requires seat { IsSeatOf board.now seat.old }
    ensures seat { IsSeatOf board.now seat.new }
    ensures walks { ForWalking plan.now (W.list board.now.about.world) desk.old
        (λ given. Walks given seat.old desk.old seat.new desk.new) }
    ensures moves { desk.new.position ≡ desk.old.position + result }
    ensures still { result ≡ 0 → desk.new ≡ desk.old }
    ensures through { ForWalking plan.now (W.list board.now.about.world) desk.old
        (λ given. NothingToCompute given desk.new) }
    ensures looked { ForWalking plan.now (W.list board.now.about.world) desk.old
        (λ given. HasLooked given seat.new desk.new) }
{
    let before = desk.position;
    let mut goes = true;
    while goes {
        goes = if is_beside(desk) {
            walk_beside(desk, plan, board, seat)
        } else {
            walk_half(desk, plan, board, seat)
        };
    }
    desk.position - before
}

// In a half of a gate's slot, what the party does there, and the linear gates that come next. It answers whether it
// went on.
#[inline(always)]
fn walk_half<W: Promise, T: SlotItem<W>>(
    desk: &mut Desk,
    plan: &Plan,
    board: &Board<W, T>,
    seat: &mut BoardSeat<W, T>,
) -> bool
    requires may { CanWalk plan.now (W.list board.now.about.world) desk.old }
    requires seat { IsSeatOf board.now seat.old }
    ensures seat { IsSeatOf board.now seat.new }
    ensures went { ForWalking plan.now (W.list board.now.about.world) desk.old
        (λ given. WentOn given seat.old desk.old seat.new desk.new result) }
    ensures still { desk.new.position ≡ desk.old.position → desk.new ≡ desk.old }
{
    match desk.place.half() {
        Half::Head => walk_head(desk, plan, board, seat),
        Half::Tail => walk_tail(desk, plan, board, seat),
    }
}

// In a head of a gate, what the party does there, and the linear gates that come next in heads. It answers whether
// it stood in one.
#[inline(always)]
fn walk_head<W: Promise, T: SlotItem<W>>(
    desk: &mut Desk,
    plan: &Plan,
    board: &Board<W, T>,
    seat: &mut BoardSeat<W, T>,
) -> bool
    requires may { CanWalk plan.now (W.list board.now.about.world) desk.old }
    requires seat { IsSeatOf board.now seat.old }
    requires head { desk.old.place.half ≡ Head }
    ensures seat { IsSeatOf board.now seat.new }
    ensures went { ForWalking plan.now (W.list board.now.about.world) desk.old
        (λ given. WentOn given seat.old desk.old seat.new desk.new result) }
    ensures still { desk.new.position ≡ desk.old.position → desk.new ≡ desk.old }
{
    let slot = desk.place.slot();
    let done = do_head(desk, plan, board, seat);
    if done {
        let part = plan.part(desk.session);
        compute_gates(desk, plan, part, slot + 1);
    }
    done
}

// In a head of a gate, what the party does there. It answers whether it stood in one. The place stays behind.
#[inline(always)]
fn do_head<W: Promise, T: SlotItem<W>>(
    desk: &mut Desk,
    plan: &Plan,
    board: &Board<W, T>,
    seat: &mut BoardSeat<W, T>,
) -> bool
    requires may { CanWalk plan.now (W.list board.now.about.world) desk.old }
    requires seat { IsSeatOf board.now seat.old }
    requires head { desk.old.place.half ≡ Head }
    ensures seat { IsSeatOf board.now seat.new }
    ensures does { result ≡ true
        → ForWalking plan.now (W.list board.now.about.world) desk.old
        (λ given. DoesHead plan.now given seat.old desk.old seat.new desk.new) }
    ensures still { result ≡ false → (desk.new ≡ desk.old) × (seat.new ≡ seat.old) }
    ensures through { result ≡ false
        → ForWalking plan.now (W.list board.now.about.world) desk.old
        (λ given. NothingToCompute given desk.new) }
{
    match desk.place.pattern() {
        Pattern::Multiplied => send_product(desk, plan, board, seat),
        Pattern::Silent => linear_gate(desk, plan),
        _ => false,
    }
}

// In a tail of a product, the takes that come next, and the sum. It answers whether it came to that.
#[inline(always)]
fn walk_tail<W: Promise, T: SlotItem<W>>(
    desk: &mut Desk,
    plan: &Plan,
    board: &Board<W, T>,
    seat: &mut BoardSeat<W, T>,
) -> bool
    requires may { CanWalk plan.now (W.list board.now.about.world) desk.old }
    requires seat { IsSeatOf board.now seat.old }
    requires tail { desk.old.place.half ≡ Tail }
    ensures seat { IsSeatOf board.now seat.new }
    ensures went { ForWalking plan.now (W.list board.now.about.world) desk.old
        (λ given. WentOn given seat.old desk.old seat.new desk.new result) }
    ensures still { desk.new.position ≡ desk.old.position → desk.new ≡ desk.old }
{
    let Pattern::Multiplied = desk.place.pattern() else {
        return false;
    };
    if desk.place.is_past() {
        return false;
    }
    if !take_each(desk, plan, board, seat) {
        return false;
    }
    sum_next(desk, plan);
    true
}

// At the start of a product, what the party deals and posts. It answers whether it stood there. The place stays
// behind.
#[inline(always)]
fn send_product<W: Promise, T: SlotItem<W>>(
    desk: &mut Desk,
    plan: &Plan,
    board: &Board<W, T>,
    seat: &mut BoardSeat<W, T>,
) -> bool
    requires may { CanWalk plan.now (W.list board.now.about.world) desk.old }
    requires seat { IsSeatOf board.now seat.old }
    requires head { desk.old.place.half ≡ Head }
    requires product { desk.old.place.pattern ≡ Multiplied }
    ensures seat { IsSeatOf board.now seat.new }
    ensures does { result ≡ true
        → ForWalking plan.now (W.list board.now.about.world) desk.old
        (λ given. DoesHead plan.now given seat.old desk.old seat.new desk.new) }
    ensures still { result ≡ false → (desk.new ≡ desk.old) × (seat.new ≡ seat.old) }
    ensures through { result ≡ false
        → ForWalking plan.now (W.list board.now.about.world) desk.old
        (λ given. NothingToCompute given desk.new) }
{
    if !desk.place.is_first() || !plan.multiplies(desk.party) {
        return false;
    }
    let gate = desk.gate(plan, desk.place.slot());
    deal_own(desk, plan, gate);
    post_each(desk, plan, board, seat, gate.output);
    true
}

// At the start of a product, forms the own one and deals it. The place stays behind.
#[inline(always)]
fn deal_own(desk: &mut Desk, plan: &Plan, gate: Gate)
    requires goes { (given : Given) × IsDeskOfPlan plan.now given desk.old }
    requires product { InProduct Head desk.old.place }
    requires first { desk.old.place.done ≡ 0 }
    requires has { has_pair (scheme plan.now) desk.old.party ≡ true }
    requires gate { gate ≡ gate_at plan.now desk.old.session desk.old.place.slot }
    ensures sends { (given : Given) → IsDeskOfPlan plan.now given desk.old → IsSending plan.now given 2 desk.new }
    ensures no_post { (given : Given) → IsDeskOfPlan plan.now given desk.old
        → NoPosts given desk.old.position desk.new.position }
    ensures rest { desk.new
        ≡ record desk.old { position = desk.old.position + 2; memory = desk.new.memory } }
{
    desk.memory.multiply(plan, desk.session, desk.party, gate);
    desk.memory.deal_product(plan, desk.session, gate.output);
    desk.position += 2;
}

// The posts of a product, whose summands are in the row of this wire. The place stays behind.
#[inline(always)]
fn post_each<W: Promise, T: SlotItem<W>>(
    desk: &mut Desk,
    plan: &Plan,
    board: &Board<W, T>,
    seat: &mut BoardSeat<W, T>,
    wire: u32,
)
    requires sends { (given : Given) × IsSending plan.now given 2 desk.old
        × HasWords given (W.list board.now.about.world) }
    requires seat { IsSeatOf board.now seat.old }
    requires wire { wire ≡ (gate_at plan.now desk.old.session desk.old.place.slot).output }
    ensures seat { IsSeatOf board.now seat.new }
    ensures walks { (given : Given) → IsSending plan.now given 2 desk.old
        → HasWords given (W.list board.now.about.world)
        → IsSending plan.now given desk.old.place.count desk.new
        × Sends given seat.old desk.old.position seat.new desk.new.position }
    ensures rest { desk.new
        ≡ record desk.old { position = desk.new.position; sent = desk.new.sent } }
{
    let place = desk.place;
    let of_product = desk.program.product_steps(Half::Head);
    let summands = desk.memory.summands(plan, desk.session, wire);
    let count = of_product.len() as u32;
    let mut at = 2;
    while at < count {
        let step = desk.program.product_step(plan, &place, of_product, at);
        let Instruction::Post { number, share } = step else {
            unreachable!();
        };
        let _ = board.post(seat, number, summands[share as usize]);
        at += 1;
    }
    desk.position += count - 2;
    desk.sent += count - 2;
}

// The takes of a product that come next, until a cell is empty. It answers whether none was.
#[inline(always)]
fn take_each<W: Promise, T: SlotItem<W>>(
    desk: &mut Desk,
    plan: &Plan,
    board: &Board<W, T>,
    seat: &mut BoardSeat<W, T>,
) -> bool
    requires may { CanWalk plan.now (W.list board.now.about.world) desk.old }
    requires seat { IsSeatOf board.now seat.old }
    requires product { InProduct Tail desk.old.place }
    ensures seat { IsSeatOf board.now seat.new }
    ensures walks { ForWalking plan.now (W.list board.now.about.world) desk.old
        (λ given. Walks given seat.old desk.old seat.new desk.new) }
    ensures still { desk.new.position ≡ desk.old.position → desk.new ≡ desk.old }
    ensures looked { ForWalking plan.now (W.list board.now.about.world) desk.old
        (λ given. HasLooked given seat.new desk.new) }
    ensures product { InProduct Tail desk.new.place }
    ensures done { result ≡ true → desk.new.place.done + 1 ≡ desk.new.place.count }
    ensures waits { result ≡ false
        → ForWalking plan.now (W.list board.now.about.world) desk.old
        (λ given. IsAtTake given desk.new) }
{
    let place = desk.place;
    let next = take_words(
        plan,
        board,
        seat,
        &desk.program,
        &place,
        desk.session,
        &mut desk.memory,
    );
    let moves = next - place.done();
    desk.place.skip(moves);
    desk.position += moves;
    desk.taken += moves;
    desk.place.is_last()
}

// The sum of a product, the last instruction of its tail.
#[inline(always)]
fn sum_next(desk: &mut Desk, plan: &Plan)
    requires goes { (given : Given) × IsDeskOfPlan plan.now given desk.old }
    requires product { InProduct Tail desk.old.place }
    requires last { desk.old.place.done + 1 ≡ desk.old.place.count }
    ensures computes { (given : Given) → IsDeskOfPlan plan.now given desk.old → Computes given desk.old desk.new }
    ensures on { desk.old.position < desk.new.position }
{
    let slot = desk.place.slot();
    let part = plan.part(desk.session);
    end_product(desk, plan, slot);
    enter_tail(desk, plan, part, slot + 1);
}

// At a linear gate, computes it. It answers whether it stood there. The place stays behind.
#[inline(always)]
fn linear_gate(desk: &mut Desk, plan: &Plan) -> bool
    requires goes { (given : Given) × IsDeskOfPlan plan.now given desk.old }
    requires head { desk.old.place.half ≡ Head }
    requires silent { desk.old.place.pattern ≡ Silent }
    ensures does { result ≡ true → (given : Given) → IsDeskOfPlan plan.now given desk.old
        → DoesSilentHead plan.now given desk.old desk.new }
    ensures still { result ≡ false → desk.new ≡ desk.old }
    ensures through { result ≡ false → (given : Given) → IsDeskOfPlan plan.now given desk.old
        → NothingToCompute given desk.new }
{
    let Instruction::Linear { slot } = desk.program.instruction_at(plan, &desk.place) else {
        return false;
    };
    end_gate(desk, plan, slot);
    true
}

// The sum of a product. The place stays behind.
#[inline(always)]
fn end_product(desk: &mut Desk, plan: &Plan, slot: u32)
    requires goes { (given : Given) × IsDeskOfPlan plan.now given desk.old }
    requires sum { (given : Given) → IsDeskOfPlan plan.now given desk.old
        → instruction_at given desk.old ≡ Sum slot }
    requires product { InProduct Tail desk.old.place }
    requires last { desk.old.place.done + 1 ≡ desk.old.place.count }
    ensures before { (given : Given) → IsDeskOfPlan plan.now given desk.old
        → IsBefore plan.now given Tail (slot + 1) desk.new }
    ensures rest { desk.new
        ≡ record desk.old { position = desk.old.position + 1; memory = desk.new.memory } }
{
    let gate = desk.gate(plan, slot);
    desk.memory.sum(plan, desk.session, desk.party, gate);
    desk.position += 1;
}

// A linear gate, the only instruction of its slot. The place stays behind.
#[inline(always)]
fn end_gate(desk: &mut Desk, plan: &Plan, slot: u32)
    requires goes { (given : Given) × IsDeskOfPlan plan.now given desk.old }
    requires linear { (given : Given) → IsDeskOfPlan plan.now given desk.old
        → instruction_at given desk.old ≡ Linear slot }
    ensures before { (given : Given) → IsDeskOfPlan plan.now given desk.old
        → IsBefore plan.now given Head (slot + 1) desk.new }
    ensures rest { desk.new
        ≡ record desk.old { position = desk.old.position + 1; memory = desk.new.memory } }
{
    let gate = desk.gate(plan, slot);
    let shares = plan.shares() as usize;
    desk.memory
        .linear(plan, desk.session, plan.ring(), shares, gate);
    desk.position += 1;
}

// Computes linear gates of the batch from the one of this slot on, and brings the place up.
#[inline(always)]
fn compute_gates(desk: &mut Desk, plan: &Plan, part: &SessionPart, slot: u32)
    requires goes { (given : Given) × IsBefore plan.now given Head slot desk.old }
    requires part { part.now ≡ session plan.now desk.old.session }
    requires among { IsAmongGates part.now slot }
    ensures { (given : Given) → IsBefore plan.now given Head slot desk.old → Computes given desk.old desk.new }
{
    let ring = plan.ring();
    let shares = plan.shares() as usize;
    // With three summands, as with three parties and the formula `2 of` them, no gate has a loop.
    if shares == 3 {
        compute_each(desk, plan, part, slot, ring, 3);
    } else {
        compute_each(desk, plan, part, slot, ring, shares);
    }
}

// The same, in the plan's ring and of `shares` summands, as its values have.
#[inline(always)]
fn compute_each(
    desk: &mut Desk,
    plan: &Plan,
    part: &SessionPart,
    slot: u32,
    ring: Ring,
    shares: usize,
)
    requires goes { (given : Given) × IsBefore plan.now given Head slot desk.old }
    requires part { part.now ≡ session plan.now desk.old.session }
    requires among { IsAmongGates part.now slot }
    requires ring { ring ≡ plan.now.bits }
    requires shares { shares ≡ length plan.now.groups }
    ensures { (given : Given) → IsBefore plan.now given Head slot desk.old → Computes given desk.old desk.new }
{
    let gates = gates_from(part, slot, desk.place.end());
    let computed = desk
        .memory
        .linear_gates(plan, desk.session, ring, shares, gates);
    let next = slot + computed as u32;
    desk.position += computed as u32;
    if computed < gates.len() && !part.is_prepared() {
        desk.program
            .enter_product(plan, &mut desk.place, Half::Head, next);
    } else {
        end_heads(desk, plan, part, next);
    }
}

// Brings the place up behind the heads of gates: at the end of a batch of gates to its tails.
#[inline(never)]
fn end_heads(desk: &mut Desk, plan: &Plan, part: &SessionPart, slot: u32)
    requires goes { (given : Given) × IsBefore plan.now given Head slot desk.old }
    requires part { part.now ≡ session plan.now desk.old.session }
    requires among { IsAmongGates part.now slot }
    ensures { (given : Given) → IsBefore plan.now given Head slot desk.old → Computes given desk.old desk.new }
{
    let batch = desk.place.batch();
    if slot == desk.place.end() && part.input_wires() as u32 <= batch {
        enter_tail(desk, plan, part, batch);
    } else {
        desk.program.enter(plan, &mut desk.place, Half::Head, slot);
    }
}

// Brings the place up to the first tail from that of this slot on. The tails of linear gates are empty.
#[inline(always)]
fn enter_tail(desk: &mut Desk, plan: &Plan, part: &SessionPart, slot: u32)
    requires goes { (given : Given) × IsBefore plan.now given Tail slot desk.old }
    requires part { part.now ≡ session plan.now desk.old.session }
    requires among { IsAmongGates part.now slot }
    ensures { (given : Given) → IsBefore plan.now given Tail slot desk.old → Computes given desk.old desk.new }
{
    let gates = gates_from(part, slot, desk.place.end());
    let linear = row_steps::linear_count(gates);
    let next = slot + linear as u32;
    if linear < gates.len() && !part.is_prepared() {
        desk.program
            .enter_product(plan, &mut desk.place, Half::Tail, next);
    } else {
        end_tails(desk, plan, next);
    }
}

// Brings the place up behind the tails of gates: at the end of a batch to the next one.
#[inline(never)]
fn end_tails(desk: &mut Desk, plan: &Plan, slot: u32)
    requires { (given : Given) × IsBefore plan.now given Tail slot desk.old }
    ensures { (given : Given) → IsBefore plan.now given Tail slot desk.old → Computes given desk.old desk.new }
{
    if slot == desk.place.end() {
        desk.program.enter_batch(plan, &mut desk.place);
    } else {
        desk.program.enter(plan, &mut desk.place, Half::Tail, slot);
    }
}
