//! Calls from other code: a job from memory, a circuit in the clear and shared, and a plan whose desks two workers
//! step.
ghost use Rattle.std.specs.Prelude.{◌≡◌, ◌^◌, ◌<◌, ◌≤◌, All, IfOk, length, map};
ghost use Rattle.job_run.specs.Parties.{AllFit};

use crate::files::{PRODUCT, files_of};
use deal_step::deal;
use job_plan::Plan;
use job_run::prepared;
use job_walk::{Planned, Stop, read_party_file, read_planned};
use mpc_ring::Ring;
use mpc_top::command_alone;
use outer_io::{MapFiles, NoPace, VecSink};
use party_file::PartyData;
use party_names::Names;
use plain_eval::eval;
use std::alloc::{AllocError, Global};
use std::test::Fail;
use std::thread::Threads;
use tape_words::Tape;

/// The most bytes that a run may write here.
const MOST: usize = 10_000;

/// What `mpc run d` writes for a job whose files stand in memory: its outputs, or its line on standard error.
pub fn run_in_memory<R: Threads + Sync>(
    rt: &R,
    alloc: Global,
    files: &mut MapFiles,
) -> Result<Vec<u8>, AllocError> {
    let mut words = Vec::new(alloc);
    for word in ["mpc", "run", "d"] {
        words.push(String::from_str(alloc, word)?)?;
    }
    let mut out = VecSink::new(Vec::with_capacity(alloc, MOST)?, MOST, Vec::new(alloc));
    let mut err = VecSink::new(Vec::with_capacity(alloc, MOST)?, MOST, Vec::new(alloc));
    let status = command_alone(rt, alloc, &words, files, &mut out, &mut err, &NoPace);
    let text = if status == Some(0) { &out } else { &err };
    Vec::from_slice(alloc, text.bytes())
}

/// The value of a circuit's last wire in the clear, and its summands for three parties, each of whom lacks one.
pub fn clear_and_shared(
    alloc: Global,
    ring: Ring,
    text: &str,
    inputs: &[u64],
    tape: &mut Tape,
) -> Result<(u64, [u64; 3]), Fail>
    requires inputs { All (λ word. word < 2 ^ ring) inputs.now }
    requires tape { All (λ word. word < 2 ^ ring) tape.old }
    requires two { 2 ≤ length tape.old }
{
    let read = ring_reader::read(alloc, text.as_bytes(), ring);
    let circuit = read.ok().ok_or("no circuit")?;
    if circuit.inputs() as usize != inputs.len() {
        return Err("other inputs than the circuit has".into());
    }
    let values = eval(alloc, &circuit, ring, inputs)?;
    let value = *values.last().ok_or("no wire")?;
    let mut summands = [0; 3];
    deal(ring, value, tape, &mut summands);
    Ok((value, summands))
}

// What the files of all parties give, in their order.
fn all_parties(
    alloc: Global,
    files: &mut MapFiles,
    names: &Names,
    plan: &Plan,
) -> Result<Vec<PartyData>, Stop>
    requires { length names.now ≡ plan.now.parties }
    ensures count { IfOk result (λ parties. length parties.items ≡ plan.now.parties) }
    ensures fit { IfOk result (λ parties. AllFit plan.now parties.items) }
{
    let mut parties = Vec::new(alloc);
    for p in 0..names.len() {
        let party = read_party_file(alloc, files, "d", &[], plan, p, names.name(p))?;
        parties.push(party)?;
    }
    Ok(parties)
}

/// The words of all messages of a job, in the order of their numbers, where two workers step the desks of its plan.
pub fn words_by_two_workers<R: Threads + Sync>(
    rt: &R,
    alloc: Global,
    files: &mut MapFiles,
    planned: &Planned,
) -> Result<Vec<u64>, Stop>
    requires { length planned.now.names ≡ planned.now.plan.parties }
{
    let plan = &planned.plan;
    let parties = all_parties(alloc, files, &planned.names, plan)?;
    let ready = prepared(alloc, plan, parties, 2)?;
    let done = ready.run(rt, plan, &NoPace);
    let mut words = Vec::new(alloc);
    for number in 0..plan.messages() {
        words.push(done.cell(number))?;
    }
    Ok(words)
}

#[test]
fn a_job_from_memory(rt: HostRuntime) -> Result<(), Fail> {
    let mut files = files_of(rt.alloc(), &PRODUCT)?;
    let out = run_in_memory(&rt, rt.alloc(), &mut files)?;
    assert!(rt;
        out.as_slice() == b"out 0 0 c 35\n".as_slice(),
        "another text"
    );
    Ok(())
}

#[test]
fn a_circuit_in_the_clear_and_shared(rt: HostRuntime) -> Result<(), Fail> {
    let ring = Ring::new(8).ok_or("no ring")?;
    let mut tape = Tape::from_words(ring, vec![in rt.alloc(); 10, 20]?)?;
    let circuit = "1 3\n2 1 1\n1 1\n2 1 0 1 2 MUL\n";
    let inputs = [ring.reduce(5), ring.reduce(7)];
    let (value, summands) = clear_and_shared(rt.alloc(), ring, circuit, &inputs, &mut tape)?;
    assert!(rt; value == 35 && summands == [10, 20, 5], "another value");
    Ok(())
}

#[test]
fn a_plan_by_two_workers(rt: HostRuntime) -> Result<(), Fail> {
    let mut files = files_of(rt.alloc(), &PRODUCT)?;
    let planned = read_planned(rt.alloc(), &mut files, "d", None)
        .ok()
        .ok_or("no plan")?;
    let words = words_by_two_workers(&rt, rt.alloc(), &mut files, &planned);
    let words = words.ok().ok_or("no words")?;
    assert!(rt;
        words.last() == Some(&14) && words.len() == 21,
        "other words"
    );
    Ok(())
}
