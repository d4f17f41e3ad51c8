//! The sessions of a job: their circuits' files, the counts of owners and readers, and what they carry.
ghost use Rattle.std.specs.Prelude.{◌≡◌, ℕ, ◌<◌, ◌≤◌, [], ◌∷◌, All, IfOk, OnOk, length, map};
ghost use Rattle.circuit_model.specs.Checks.{Gives};
ghost use Rattle.circuit_file.specs.CircuitFiles.{circuit_in};
ghost use Rattle.layer_order.specs.Orders.{ordered};
ghost use Rattle.session_slots.specs.Carries.{CarriesFit, AllFit};
ghost use Rattle.session_slots.specs.SoundSessions.{IsSoundSession};
ghost use Rattle.job_file.specs.declared.layout.SessionLayout.TheVariants.{Numbers};
ghost use Rattle.job_file.specs.declared.products.Products.TheVariants.{Direct};
ghost use Rattle.job_file.specs.Jobs.{job_view, session_view, IsJob, IsSession};
ghost use Rattle.refusal_text.specs.Lines.{circuit_line, expressions_line, numbers_line, session_line};
ghost use Rattle.job_walk.specs.Verdict.{Ends, verdict_of};
ghost use Rattle.job_walk.specs.JobOf.{bits_alone, has_layers, is_numbers, owner_of, part_of, with_products, CircuitOf, ExpressionsOf, ProgramOf, SessionAt, SessionsAfter};
ghost use Rattle.job_walk.specs.FileLogs.{Logs};
ghost use Rattle.job_walk.specs.NodeOf.{circuit_files};
ghost use Rattle.job_walk.specs.Reads.{ReadsAs, WalksAs};

use crate::Stop;
use crate::file::read_file;
use crate::file_log::FileLog;
use crate::stop::stop_of;
use circuit_model::{Circuit, CircuitFault, CircuitLayout};
use job_file::{Job, JobOwner, JobSession, Products, SessionLayout};
use job_limits::MOST_SESSIONS;
use job_plan::{Owner, SessionPart};
use layer_order::ordered;
use mpc_ring::Ring;
use outer_io::Files;
use party_set::Group;
use refusal_text::{file_key, session_key};
use std::alloc::{AllocError, Global};

/// Reads the circuits of the sessions.
pub(crate) fn read_sessions<F: Files, L: FileLog>(
    alloc: Global,
    files: &mut F,
    log: &mut L,
    dir: &str,
    job: &Job,
) -> Result<Vec<SessionPart>, Stop>
    requires { IsJob job.now }
    ensures reads { ReadsAs dir.now (circuit_files (job_view job.now)) (λ parts. parts.items)
        (λ contents. SessionsAfter contents dir.now (job_view job.now) []
        (job_view job.now).sessions)
        (F.reading files.old) (F.reading files.new) result }
    ensures count { IfOk result (λ parts. length parts.items ≤ MOST_SESSIONS) }
    ensures sound { IfOk result (λ parts. All (IsSoundSession (length job.now.names)) parts.items) }
    ensures fit { IfOk result (λ parts. AllFit parts.items) }
    ensures log { OnOk result
        (Logs L.has (F.reading files.old).told dir.now (circuit_files (job_view job.now)) log.old log.new) }
{
    let mut parts = Vec::new(alloc);
    for session in &job.sessions {
        let part = read_session(alloc, files, log, dir, job, &parts, session)?;
        parts.push(part)?;
    }
    Ok(parts)
}

// Reads the session behind those before it.
fn read_session<F: Files, L: FileLog>(
    alloc: Global,
    files: &mut F,
    log: &mut L,
    dir: &str,
    job: &Job,
    before: &[SessionPart],
    session: &JobSession,
) -> Result<SessionPart, Stop>
    requires job { IsJob job.now }
    requires few { length before.now < MOST_SESSIONS }
    requires session { IsSession (length job.now.names) (length before.now) session.now }
    ensures reads { ReadsAs dir.now (session.now.circuit ∷ []) (λ part. part)
        (λ contents. SessionAt contents dir.now (job_view job.now) before.now (session_view session.now))
        (F.reading files.old) (F.reading files.new) result }
    ensures sound { IfOk result (IsSoundSession (length job.now.names)) }
    ensures fit { IfOk result (CarriesFit before.now) }
    ensures log { OnOk result
        (Logs L.has (F.reading files.old).told dir.now (session.now.circuit ∷ []) log.old log.new) }
{
    let bytes = read_file(alloc, files, dir, session.circuit.as_str())?;
    log.take(&bytes);
    let circuit = circuit_of(alloc, &bytes, session, job.ring, before.len() as u32)?;
    part_of(alloc, circuit, session, job, before)
}

fn read_circuit(
    alloc: Global,
    bytes: &[u8],
    layout: CircuitLayout,
    ring: Ring,
) -> Result<Circuit, CircuitFault>
    ensures { Gives result (circuit_in layout ring bytes.now) }
{
    match layout {
        CircuitLayout::Bristol => bristol_reader::read(alloc, bytes, ring),
        CircuitLayout::Ring => ring_reader::read(alloc, bytes, ring),
    }
}

// The circuit of the file of session s, which has this name.
#[tactic(auto, unfolding(crate::specs::JobOf::CircuitOf))]
fn circuit_of(
    alloc: Global,
    bytes: &[u8],
    session: &JobSession,
    ring: Ring,
    s: u32,
) -> Result<Circuit, Stop>
    ensures { WalksAs (λ circuit. circuit)
        (CircuitOf session.now.layout session.now.circuit s ring bytes.now) result }
{
    let file = session.circuit.as_str();
    match session.layout {
        SessionLayout::Gates(layout) => circuit_of_gates(alloc, bytes, layout, ring, file, s),
        SessionLayout::Expressions => circuit_of_expressions(alloc, bytes, ring, file, s),
        SessionLayout::Numbers => circuit_of_numbers(alloc, bytes, ring, file, s),
    }
}

#[tactic(auto, unfolding(refusal_text::specs::Lines::circuit_line))]
fn circuit_of_gates(
    alloc: Global,
    bytes: &[u8],
    layout: CircuitLayout,
    ring: Ring,
    file: &str,
    s: u32,
) -> Result<Circuit, Stop>
    ensures { WalksAs (λ circuit. circuit)
        (Ends (verdict_of (circuit_line file.now s) (circuit_in layout ring bytes.now))) result }
{
    read_circuit(alloc, bytes, layout, ring).map_err(|fault| stop_of(
        alloc,
        None,
        &[file_key(file), session_key(s)],
        &fault,
    ))
}

#[tactic(auto, unfolding(crate::specs::JobOf::ExpressionsOf, refusal_text::specs::Lines::expressions_line))]
fn circuit_of_expressions(
    alloc: Global,
    bytes: &[u8],
    ring: Ring,
    file: &str,
    s: u32,
) -> Result<Circuit, Stop>
    ensures { WalksAs (λ circuit. circuit)
        (ExpressionsOf (expressions_line file.now s) ring bytes.now) result }
{
    expr_circuit::read(alloc, bytes, ring).map_err(|fault| stop_of(
        alloc,
        None,
        &[file_key(file), session_key(s)],
        &fault,
    ))
}

fn circuit_of_numbers(
    alloc: Global,
    bytes: &[u8],
    ring: Ring,
    file: &str,
    s: u32,
) -> Result<Circuit, Stop>
    ensures { WalksAs (λ circuit. circuit) (CircuitOf Numbers file.now s ring bytes.now) result }
{
    check_ring(alloc, ring, file, s)?;
    circuit_of_program(alloc, bytes, file, s)
}

// Numbers are of bits, so the ring has to be that of one bit.
#[tactic(auto, unfolding(refusal_text::specs::Lines::circuit_line))]
fn check_ring(alloc: Global, ring: Ring, file: &str, s: u32) -> Result<(), Stop>
    ensures { WalksAs (λ passed. passed) (Ends (bits_alone (circuit_line file.now s) ring)) result }
{
    if ring.bits() == 1 {
        return Ok(());
    }
    let fault = CircuitFault::WrongRing {
        bits: i64::from(ring.bits()),
    };
    Err(stop_of(alloc, None, &[file_key(file), session_key(s)], &fault))
}

#[tactic(auto, unfolding(crate::specs::JobOf::ProgramOf, refusal_text::specs::Lines::numbers_line))]
fn circuit_of_program(alloc: Global, bytes: &[u8], file: &str, s: u32) -> Result<Circuit, Stop>
    ensures { WalksAs (λ circuit. circuit) (ProgramOf (numbers_line file.now s) bytes.now) result }
{
    number_compiler::read(alloc, bytes).map_err(|fault| stop_of(
        alloc,
        None,
        &[file_key(file), session_key(s)],
        &fault,
    ))
}

// The session of a circuit, its gates in layers or not, behind those before it.
#[tactic(auto, unfolding(refusal_text::specs::Lines::session_line))]
fn part_of(
    alloc: Global,
    circuit: Circuit,
    session: &JobSession,
    job: &Job,
    before: &[SessionPart],
) -> Result<SessionPart, Stop>
    requires few { length before.now < MOST_SESSIONS }
    requires session { IsSession (length job.now.names) (length before.now) session.now }
    ensures walks { WalksAs (λ part. part)
        (Ends (part_of (session_line (length before.now)) (ordered (has_layers (session_view session.now)) circuit)
        session.now.products session.now.owners.items session.now.readers.items before.now)) result }
    ensures sound { IfOk result (IsSoundSession (length job.now.names)) }
    ensures fit { IfOk result (CarriesFit before.now) }
{
    let _ = job;
    let circuit = ordered(alloc, circuit, has_layers(session))?;
    let owners = owners_of(alloc, session)?;
    let readers = readers_of(session)?;
    match SessionPart::make(alloc, circuit, owners, readers, before) {
        Ok(part) => Ok(with_products(alloc, part, session.products)?),
        Err(fault) => Err(stop_of(alloc, None, &[session_key(before.len() as u32)], &fault)),
    }
}

// The session, its products made in this way. As yet they are direct.
fn with_products(
    alloc: Global,
    part: SessionPart,
    products: Products,
) -> Result<SessionPart, AllocError>
    requires { with_products Direct part ≡ part }
    ensures made { IfOk result (λ made. made ≡ with_products products part) }
    ensures sound { (parties : ℕ) → IsSoundSession parties part → IfOk result (IsSoundSession parties) }
{
    match products {
        Products::Direct => Ok(part),
        Products::Prepared => part.prepared(alloc),
        Products::Ahead => part.prepared_ahead(alloc),
    }
}

/// Whether the words of each session are numbers.
pub(crate) fn numeric_sessions(alloc: Global, job: &Job) -> Result<Vec<bool>, AllocError>
    ensures { IfOk result (λ numeric. numeric.items
        ≡ map (λ session. is_numbers session.layout) job.now.sessions.items) }
{
    job.sessions
        .iter()
        .map(|session| is_numbers(session.layout))
        .collect(alloc)
}

fn is_numbers(layout: SessionLayout) -> bool
    ensures { result ≡ is_numbers layout }
{
    match layout {
        SessionLayout::Numbers => true,
        SessionLayout::Gates(_) | SessionLayout::Expressions => false,
    }
}

fn has_layers(session: &JobSession) -> bool
    ensures { result ≡ has_layers (session_view session.now) }
{
    session.layered_gates || is_numbers(session.layout)
}

// Who gives an input value.
fn owner_of(owner: JobOwner) -> Owner
    ensures { result ≡ owner_of owner }
{
    match owner {
        JobOwner::Party(party) => Owner::Party(party),
        JobOwner::Carried { session, value } => Owner::Carried { session, value },
    }
}

fn owners_of(alloc: Global, session: &JobSession) -> Result<Vec<Owner>, AllocError>
    ensures { IfOk result (λ owners. owners.items ≡ map owner_of session.now.owners.items) }
{
    session
        .owners
        .iter()
        .map(|owner| owner_of(*owner))
        .collect(alloc)
}

fn readers_of(session: &JobSession) -> Result<Vec<Group>, AllocError>
    ensures { IfOk result (λ readers. readers.items ≡ session.now.readers.items) }
{
    session.readers.clone()
}
