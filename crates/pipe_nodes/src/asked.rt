//! The words of a call.
use std::test::Fail;

/// What is wrong with a pipe.
#[derive(Clone, Copy)]
pub enum Flaw {
    /// Nothing.
    Nothing,
    /// It takes `bytes`, and then fails.
    FailsAfter { bytes: u64 },
    /// It changes the byte that comes after `bytes` others.
    ChangesByte { bytes: u64 },
    /// Nothing comes over it before `bytes` have come from the next peer.
    IsHeld { bytes: u64 },
}

/// What the words ask for: `FOLDER ROOM FLAW BYTES FROM TO NAME..`.
#[derive(Drop)]
pub struct Asked<'w> {
    /// The folder that has one for each party, by its name.
    pub folder: &'w str,
    /// For how many bytes each pipe has room.
    pub room: usize,
    /// What is wrong with the pipe from one party to another.
    pub flaw: Flaw,
    pub from: usize,
    pub to: usize,
    /// The parties, in order.
    pub names: &'w [String],
}

/// The flaw of this name.
fn flaw_of(name: &str, bytes: u64) -> Result<Flaw, Fail> {
    match name {
        "none" => Ok(Flaw::Nothing),
        "fails" => Ok(Flaw::FailsAfter { bytes }),
        "changes" => Ok(Flaw::ChangesByte { bytes }),
        "held" => Ok(Flaw::IsHeld { bytes }),
        _ => Err("an unknown flaw".into()),
    }
}

/// How many words stand before the names, the program's own among them.
const HEAD: usize = 7;

/// What these words ask for.
pub fn asked_by(words: &[String]) -> Result<Asked<'_>, Fail> {
    if words.len() < HEAD {
        return Err(
            "usage: pipe_nodes FOLDER ROOM none|fails|changes|held BYTES FROM TO NAME..".into(),
        );
    }
    Ok(Asked {
        folder: &words[1],
        room: words[2].parse::<usize>()?,
        flaw: flaw_of(&words[3], words[4].parse::<u64>()?)?,
        from: words[5].parse::<usize>()?,
        to: words[6].parse::<usize>()?,
        names: &words[HEAD..],
    })
}
