//! The digest by which parties tell that they have the same job: SHA-256 (FIPS 180-4) of its files.
#![tactic(auto)]

ghost use Rattle.std.specs.Prelude.{◌≡◌, ℕ, List, [], ◌∷◌, ◌++◌};
ghost use Rattle.job_digest.specs.Digests.{joined_files, digest_of, HasFiles, AreFiles};

use sha2::{Digest, Sha256};

/// The digest of a job in the making: of the job's file, and then of the circuit's file of each session, in order.
#[derive(Drop)]
pub struct JobDigest {
    hasher: Sha256,
}

impl JobDigest {
    /// That of no file.
    pub fn new() -> JobDigest
        ensures { HasFiles result [] }
    {
        JobDigest {
            hasher: Sha256::new(),
        }
    }

    /// Adds the next file.
    pub fn add(&mut self, file: &[u8])
        ensures { (files : List (List ℕ)) → HasFiles self.old files → HasFiles self.new (files ++ file.now ∷ []) }
    {
        self.hasher.update((file.len() as u64).to_be_bytes());
        self.hasher.update(file);
    }

    /// The digest of all files, 32 bytes.
    pub fn finish(self) -> [u8; 32]
        ensures { (files : List (List ℕ)) → HasFiles self files → result ≡ digest_of files }
    {
        let JobDigest { hasher } = self;
        hasher.finalize()
    }
}

/// What is hashed tells the files, each from the others.
pub fn each_file_is_told()
    ensures { (files others : List (List ℕ)) → AreFiles files → AreFiles others
        → joined_files files ≡ joined_files others → files ≡ others }
{}
