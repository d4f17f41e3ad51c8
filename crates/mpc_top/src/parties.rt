//! The files of the parties.
ghost use Rattle.std.specs.Prelude.{◌≡◌, [], IfOk, length};
ghost use Rattle.job_run.specs.Parties.{AllFit};
ghost use Rattle.job_walk.specs.JobOf.{PartiesAfter};
ghost use Rattle.job_walk.specs.FilesAsked.{party_files};
ghost use Rattle.job_walk.specs.Reads.{ReadsAs};
ghost use Rattle.mpc_top.specs.Seen.{parties_view};

use job_walk::{Planned, Stop, read_party_file};
use outer_io::Files;
use party_file::PartyData;
use std::alloc::Global;

/// Reads the files of all parties.
pub(crate) fn read_parties<F: Files>(
    alloc: Global,
    files: &mut F,
    dir: &str,
    planned: &Planned,
) -> Result<Vec<PartyData>, Stop>
    requires { length planned.now.names ≡ planned.now.plan.parties }
    ensures reads { ReadsAs dir.now (party_files planned.now.names) parties_view
        (λ contents. PartiesAfter contents dir.now planned.now.numeric.items planned.now.plan [] planned.now.names)
        (F.reading files.old) (F.reading files.new) result }
    ensures count { IfOk result (λ parties. length parties.items ≡ planned.now.plan.parties) }
    ensures fit { IfOk result (λ parties. AllFit planned.now.plan parties.items) }
{
    let numeric: &[bool] = &planned.numeric;
    let mut parties = Vec::new(alloc);
    for p in 0..planned.names.len() {
        let party = read_party_file(
            alloc,
            files,
            dir,
            numeric,
            &planned.plan,
            p,
            planned.names.name(p),
        )?;
        parties.push(party)?;
    }
    Ok(parties)
}
