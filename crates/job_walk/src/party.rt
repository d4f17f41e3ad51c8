//! The file of a party.
ghost use Rattle.std.specs.Prelude.{◌≡◌, ◌<◌, [], ◌∷◌, IfOk, string_bytes};
ghost use Rattle.party_file.specs.Forms.{form_of, FitsPlan};
ghost use Rattle.party_file.specs.Table.{party_in};
ghost use Rattle.refusal_text.specs.Lines.{party_line};
ghost use Rattle.job_walk.specs.Names.{party_file};
ghost use Rattle.job_walk.specs.Verdict.{Ends, verdict_of};
ghost use Rattle.job_walk.specs.JobOf.{PartyAt};
ghost use Rattle.job_walk.specs.Reads.{ReadsAs, WalksAs};

use crate::Stop;
use crate::file::read_file;
use crate::stop::stop_of;
use job_plan::Plan;
use outer_io::Files;
use party_file::{PartyData, read_party};
use refusal_text::file_key;
use std::alloc::{AllocError, Global};

/// Reads the file of a party. `numeric` tells of each session whether its words are numbers.
pub fn read_party_file<F: Files>(
    alloc: Global,
    files: &mut F,
    dir: &str,
    numeric: &[bool],
    plan: &Plan,
    p: u32,
    name: &str,
) -> Result<PartyData, Stop>
    requires { p < plan.now.parties }
    ensures reads { ReadsAs dir.now (party_file name.now ∷ []) form_of
        (λ contents. PartyAt contents dir.now numeric.now plan.now p name.now)
        (F.reading files.old) (F.reading files.new) result }
    ensures fits { IfOk result (λ party. FitsPlan plan.now p (form_of party)) }
{
    let file = file_of(alloc, name)?;
    let bytes = read_file(alloc, files, dir, file.as_str())?;
    party_in(alloc, &bytes, numeric, plan, p, file.as_str())
}

/// The name of the file of the party of this name.
#[tactic(auto, unfolding(crate::specs::Names::party_file))]
fn file_of(alloc: Global, name: &str) -> Result<String, AllocError>
    ensures { IfOk result (λ file. string_bytes file ≡ party_file name.now) }
{
    let mut file = String::from_str(alloc, "party_")?;
    file.push_str(name)?;
    file.push_str(".toml")?;
    Ok(file)
}

#[tactic(auto, unfolding(refusal_text::specs::Lines::party_line))]
fn party_in(
    alloc: Global,
    bytes: &[u8],
    numeric: &[bool],
    plan: &Plan,
    p: u32,
    file: &str,
) -> Result<PartyData, Stop>
    requires { p < plan.now.parties }
    ensures walks { WalksAs form_of
        (Ends (verdict_of (party_line file.now) (party_in numeric.now plan.now p bytes.now))) result }
    ensures fits { IfOk result (λ party. FitsPlan plan.now p (form_of party)) }
{
    read_party(alloc, bytes, numeric, plan, p).map_err(|fault| stop_of(
        alloc,
        None,
        &[file_key(file)],
        &fault,
    ))
}
