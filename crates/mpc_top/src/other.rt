//! The file of other inputs.
ghost use Rattle.std.specs.Prelude.{◌≡◌, [], ◌∷◌, IfOk, length};
ghost use Rattle.plan_model.specs.InputWords.{AreInputs};
ghost use Rattle.other_file.specs.Table.{other_in};
ghost use Rattle.refusal_text.specs.Lines.{other_line};
ghost use Rattle.job_walk.specs.Names.{other_file};
ghost use Rattle.job_walk.specs.Verdict.{Ends, verdict_of};
ghost use Rattle.mpc_top.specs.WholeJobs.{OtherAt};
ghost use Rattle.job_walk.specs.Reads.{ReadsAs, WalksAs};

use job_plan::{Inputs, Plan};
use job_walk::{Stop, read_file, stop_of};
use other_file::read_other;
use outer_io::Files;
use party_names::Names;
use std::alloc::Global;

/// Reads the inputs that a folder gives beside those of its job.
pub(crate) fn read_other_inputs<F: Files>(
    alloc: Global,
    files: &mut F,
    dir: &str,
    names: &Names,
    numeric: &[bool],
    plan: &Plan,
    inputs: &Inputs,
) -> Result<Inputs, Stop>
    requires names { length names.now ≡ plan.now.parties }
    requires inputs { AreInputs plan.now inputs.now }
    ensures reads { ReadsAs dir.now (other_file ∷ []) (λ other. other)
        (λ contents. OtherAt contents dir.now numeric.now plan.now names.now inputs.now)
        (F.reading files.old) (F.reading files.new) result }
    ensures fits { IfOk result (AreInputs plan.now) }
{
    let bytes = read_file(alloc, files, dir, "other.toml")?;
    other_in(alloc, &bytes, names, numeric, plan, inputs)
}

#[tactic(auto, unfolding(refusal_text::specs::Lines::other_line))]
fn other_in(
    alloc: Global,
    bytes: &[u8],
    names: &Names,
    numeric: &[bool],
    plan: &Plan,
    inputs: &Inputs,
) -> Result<Inputs, Stop>
    requires names { length names.now ≡ plan.now.parties }
    requires inputs { AreInputs plan.now inputs.now }
    ensures walks { WalksAs (λ other. other)
        (Ends (verdict_of (other_line names.now)
        (other_in numeric.now plan.now names.now inputs.now bytes.now))) result }
    ensures fits { IfOk result (AreInputs plan.now) }
{
    read_other(alloc, bytes, numeric, plan, names, inputs).map_err(|fault| stop_of(
        alloc,
        Some(names),
        &[],
        &fault,
    ))
}
