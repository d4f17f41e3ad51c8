//! Reads the files of a job.
ghost use Rattle.std.specs.Prelude.{◌≡◌, [], ◌∷◌, IfOk, string_bytes};
ghost use Rattle.job_walk.specs.Names.{path_of};
ghost use Rattle.job_walk.specs.Verdict.{Ends};
ghost use Rattle.job_walk.specs.JobOf.{file_at};
ghost use Rattle.job_walk.specs.Reads.{ReadsAs};

use crate::Stop;
use crate::stop::refusal;
use job_limits::FILE_LIMIT;
use outer_io::{Files, ReadRefusal};
use refusal_text::too_long_line;
use std::alloc::{AllocError, Global};

/// The path of a file of the folder.
#[tactic(auto, unfolding(crate::specs::Names::path_of))]
fn path_in(alloc: Global, dir: &str, name: &str) -> Result<String, AllocError>
    ensures { IfOk result (λ path. string_bytes path ≡ path_of dir.now name.now) }
{
    let mut path = String::from_str(alloc, dir)?;
    path.push_str("/")?;
    path.push_str(name)?;
    Ok(path)
}

/// The bytes of a file of the folder.
pub fn read_file<F: Files>(
    alloc: Global,
    files: &mut F,
    dir: &str,
    name: &str,
) -> Result<Vec<u8>, Stop>
    ensures { ReadsAs dir.now (name.now ∷ []) (λ bytes. bytes.items)
        (λ contents. Ends (file_at contents dir.now name.now))
        (F.reading files.old) (F.reading files.new) result }
{
    let (path, missing) = match names_of(alloc, dir, name) {
        Ok(names) => names,
        Err(_) => return Err(Stop::Memory),
    };
    match files.read(alloc, path.as_str(), FILE_LIMIT) {
        Ok(bytes) => Ok(bytes),
        Err(ReadRefusal::Failed) => Err(Stop::Files(missing)),
        Err(ReadRefusal::TooLong) => Err(refusal(too_long_line(alloc, name))),
        Err(ReadRefusal::Memory) => Err(Stop::Memory),
    }
}

// The path of a file, and its name to tell where it is missing.
fn names_of(alloc: Global, dir: &str, name: &str) -> Result<(String, Vec<u8>), AllocError>
    ensures { IfOk result (λ names.
        (string_bytes names.0 ≡ path_of dir.now name.now) × (names.1.items ≡ name.now)) }
{
    let path = path_in(alloc, dir, name)?;
    Ok((path, Vec::from_slice(alloc, name.as_bytes())?))
}
