//! What is kept of files as they are read.
ghost use Rattle.std.specs.Prelude.{ℕ, List, [], ◌∷◌, ◌++◌};
ghost use Rattle.job_digest.specs.Digests.{HasFiles};

use job_digest::JobDigest;

/// Keeps something of the files that are read, one after another.
pub trait FileLog {
    /// These are the files that it was told.
    ghost has: { Self → List (List ℕ) → Type 0 };

    /// Takes the next file.
    fn take(&mut self, file: &[u8])
        ensures { (files : List (List ℕ)) → has self.old files → has self.new (files ++ file.now ∷ []) };
}

impl FileLog for JobDigest {
    ghost has = { λ digest files. HasFiles digest files };

    fn take(&mut self, file: &[u8]) {
        self.add(file);
    }
}

/// Keeps nothing.
#[derive(Drop)]
pub struct NoLog;

impl FileLog for NoLog {
    ghost has = { λ log files. Unit };

    fn take(&mut self, file: &[u8]) {
        let _ = file;
    }
}
