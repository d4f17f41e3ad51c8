//! The tapes of a party: from its tape, or from its seed.
ghost use Rattle.std.specs.Prelude.{◌≡◌, ◌⊎◌, ◌<◌, ◌^◌, [], ◌∷◌, Some, None, IfOk, IfErr, Ok, length, sum};
ghost use Rattle.list_laws.specs.Lists.{listed};
ghost use Rattle.tape_words.specs.Cuts.{cut};
ghost use Rattle.tape_words.specs.declared.tape.TapeFault.TheVariants.{WordOutOfRing};
ghost use Rattle.tape_words.specs.Seeds.{seed_word};
ghost use Rattle.toml.specs.View.{table_view};
ghost use Rattle.plan_model.specs.Plans.{words};
ghost use Rattle.list_laws.specs.Checks.{first_fault};
ghost use Rattle.party_file.specs.Table.{numbers_in, out_of_ring, word_counts, tape_checks, seed_checks, seed_in, random_checks, tapes_of};
ghost use Rattle.party_file.specs.declared.fault.PartyFault.TheVariants.{Memory};

use crate::fault::PartyFault;
use crate::numbers::read_numbers;
use hex::FromHex;
use job_plan::Plan;
use mpc_ring::Ring;
use std::alloc::{AllocError, Global};
use tape_words::{SplitFault, Tape, TapeFault};
use toml::Table;
use toml_fields::{has_field, text_at};

/// How many words the party draws in each session.
#[tactic(auto, using(plan_model::proofs::GrownLists::listed_push), unfolding(crate::specs::Table::word_counts))]
fn word_counts(alloc: Global, plan: &Plan, party: u32) -> Result<Vec<u32>, AllocError>
    requires { party < plan.now.parties }
    ensures { IfOk result (λ counts. counts.items ≡ word_counts plan.now party) }
{
    let mut counts = Vec::new(alloc);
    for session in 0..plan.sessions() {
        counts.push(plan.words(party, session))?;
    }
    Ok(counts)
}

/// The tape of these words, if each is in the ring.
fn whole_tape(ring: Ring, words: Vec<u64>) -> Result<Tape, PartyFault>
    ensures passed { IfOk result (λ tape. (first_fault (out_of_ring ring None words.items ∷ []) ≡ None)
        × (tape ≡ words.items)) }
    ensures fault { IfErr result (λ fault. first_fault (out_of_ring ring None words.items ∷ []) ≡ Some fault) }
{
    match Tape::from_words(ring, words) {
        Ok(tape) => Ok(tape),
        Err(fault) => Err(PartyFault::WordOutOfRing {
            session: None,
            at: place(fault),
        }),
    }
}

fn place(fault: TapeFault) -> u64
    ensures { fault ≡ WordOutOfRing result }
{
    match fault {
        TapeFault::WordOutOfRing { at } => at,
    }
}

/// The pieces of the tape, from the text of its words.
#[tactic(auto, unfolding(crate::specs::Table::tape_checks))]
fn read_tape(alloc: Global, plan: &Plan, party: u32, text: &str) -> Result<Vec<Tape>, PartyFault>
    requires { party < plan.now.parties }
    ensures passed { IfOk result (λ tapes. (first_fault
        (tape_checks plan.now.bits (sum (word_counts plan.now party)) text.now) ≡ None)
        × (tapes.items ≡ cut (word_counts plan.now party) (numbers_in text.now))) }
    ensures fault { IfErr result (λ fault. (fault ≡ Memory)
        ⊎ (first_fault (tape_checks plan.now.bits (sum (word_counts plan.now party)) text.now) ≡ Some fault)) }
{
    let words = read_numbers(alloc, None, text)?;
    let tape = whole_tape(plan.ring(), words)?;
    let counts = word_counts(alloc, plan, party)?;
    match tape.split_sessions(alloc, &counts) {
        Ok(tapes) => Ok(tapes),
        Err((SplitFault::TapeShort { wanted, found }, _)) => {
            Err(PartyFault::TapeShort { wanted, found })
        }
        Err((SplitFault::Memory, _)) => Err(PartyFault::Memory),
    }
}

/// The tapes of a seed: each session has a stream of its own.
#[tactic(auto, using(plan_model::proofs::GrownLists::listed_push))]
fn seed_tapes(
    alloc: Global,
    plan: &Plan,
    party: u32,
    seed: &[u8; 32],
) -> Result<Vec<Tape>, AllocError>
    requires { party < plan.now.parties }
    ensures { IfOk result (λ tapes. tapes.items
        ≡ listed (length plan.now.sessions) (λ s. listed (words plan.now party s)
        (seed_word plan.now.bits seed.now s))) }
{
    let mut tapes = Vec::new(alloc);
    for session in 0..plan.sessions() {
        let count = plan.words(party, session);
        tapes.push(Tape::from_seed(alloc, plan.ring(), seed, session, count)?)?;
    }
    Ok(tapes)
}

/// The tapes of the seed of 64 hexadecimal digits.
fn read_seed(alloc: Global, plan: &Plan, party: u32, text: &str) -> Result<Vec<Tape>, PartyFault>
    requires { party < plan.now.parties }
    ensures passed { IfOk result (λ tapes. (first_fault (seed_checks text.now) ≡ None)
        × (tapes.items ≡ listed (length plan.now.sessions)
        (λ s. listed (words plan.now party s) (seed_word plan.now.bits (seed_in text.now) s)))) }
    ensures fault { IfErr result (λ fault. (fault ≡ Memory) ⊎ (first_fault (seed_checks text.now) ≡ Some fault)) }
{
    match <[u8; 32]>::from_hex(text) {
        Ok(seed) => Ok(seed_tapes(alloc, plan, party, &seed)?),
        Err(_) => Err(PartyFault::BadSeed),
    }
}

/// The tapes of the party, session by session.
#[tactic(auto, unfolding(crate::specs::Table::random_checks, crate::specs::Table::tapes_of))]
pub fn read_tapes(
    alloc: Global,
    plan: &Plan,
    party: u32,
    table: &Table,
) -> Result<Vec<Tape>, PartyFault>
    requires { party < plan.now.parties }
    ensures passed { IfOk result (λ tapes. (first_fault (random_checks plan.now party (table_view table.now)) ≡ None)
        × (tapes.items ≡ tapes_of plan.now party (table_view table.now))) }
    ensures fault { IfErr result (λ fault. (fault ≡ Memory)
        ⊎ (first_fault (random_checks plan.now party (table_view table.now)) ≡ Some fault)) }
{
    if has_field(table, "seed") {
        read_seed(alloc, plan, party, text_at(table, "seed"))
    } else {
        read_tape(alloc, plan, party, text_at(table, "tape"))
    }
}
