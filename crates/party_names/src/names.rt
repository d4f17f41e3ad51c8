//! The names of the parties.
ghost use Rattle.std.specs.Prelude.{◌≡◌, ℕ, List, ◌<◌, ◌≤◌, ◌⊎◌, IfSome, MatchResult, Some, None, length, map, slice_get};
ghost use Rattle.std.specs.List.{list_all};
ghost use Rattle.std.specs.String.{string_bytes};
ghost use Rattle.party_names.specs.Names.{is_name, is_name_byte, name_fault, names_fault, party_named, AreNames};
ghost use Rattle.party_names.specs.declared.names.NamesFault.TheVariants.{Memory};

use crate::name_text::NameText;
use indexmap::IndexSet;
use party_set::MOST_PARTIES;
use std::alloc::{AllocError, Global};
use std::marker::Model;

/// The most bytes of a name.
pub const LONGEST_NAME: usize = 16;

/// What is wrong with a list of names.
#[derive(Clone, Copy, Debug, PartialEq, Eq)]
pub enum NamesFault {
    /// The text at this index is no name.
    BadName { at: u64 },
    /// The name at this index stood before.
    TwiceNamed { at: u64 },
    /// There are no names, or more than 12.
    PartyCount { count: u64 },
    /// There is not enough memory.
    Memory,
}

impl From<AllocError> for NamesFault {
    ghost from_gives = { λ _ fault. fault ≡ Memory };

    fn from(_: AllocError) -> NamesFault {
        NamesFault::Memory
    }
}

/// The names of 1 to 12 parties, in the order of their numbers. Contracts see a list of texts.
#[derive(Drop)]
pub struct Names {
    names: IndexSet<NameText>,
}

impl Model for Names {
    ghost use Rattle.std.specs.Prelude.{ℕ, List};
    ghost use Rattle.party_names.specs.Names.{AreNames};

    ghost Value = { List (List ℕ) };

    ghost view = { λ n. n.names.keys };

    ghost invariant = { λ n. AreNames n.names.keys };
}

/// The names, if there are 1 to 12, each of 1 to 16 letters, digits and `_` after a letter, none `of` and no two equal.
pub fn read_names(alloc: Global, texts: &[String]) -> Result<Names, NamesFault>
    ensures { MatchResult result
        (λ names. (names ≡ map string_bytes texts.now) × (names_fault (map string_bytes texts.now) ≡ None))
        (λ fault. (fault ≡ Memory) ⊎ (names_fault (map string_bytes texts.now) ≡ Some fault)) }
{
    if texts.is_empty() || texts.len() > MOST_PARTIES {
        return Err(NamesFault::PartyCount {
            count: texts.len() as u64,
        });
    }
    let mut names = IndexSet::new(alloc);
    for (at, text) in texts.iter().enumerate() {
        check_name(&names, text.as_str(), at as u64)?;
        if names.insert(NameText::of(text.clone()?)).is_err() {
            return Err(NamesFault::Memory);
        }
    }
    Ok(Names { names })
}

impl Names {
    /// How many parties there are.
    pub fn len(&self) -> u32
        ensures is { result ≡ length self.now }
        ensures some { 1 ≤ result }
        ensures few { result ≤ MOST_PARTIES }
        ensures names { AreNames self.now }
    {
        self.names.len() as u32
    }

    /// Brings into the proof of the function that calls it that these are names. It computes nothing.
    #[inline(always)]
    pub fn recall(&self)
        ensures names { AreNames self.now }
        ensures some { 1 ≤ length self.now }
        ensures few { length self.now ≤ MOST_PARTIES }
    {
        let _ = self.len();
    }

    /// The name of party `p`.
    pub fn name(&self, p: u32) -> &str
        requires { p < length self.now }
        ensures { slice_get self.now p ≡ Some result.now }
    {
        self.names[p as usize].as_str()
    }

    /// The party of this name, if there is one.
    pub fn number(&self, name: &str) -> Option<u32>
        ensures is { result ≡ party_named self.now name.now }
        ensures party { IfSome result (λ p. slice_get self.now p ≡ Some name.now) }
    {
        let p = self.names.get_index_of(name)?;
        Some(p as u32)
    }
}

/// A list of texts has no fault exactly where it is a list of 1 to 12 different names.
pub fn names_have_no_fault()
    ensures names { (names : List (List ℕ)) → names_fault names ≡ None → AreNames names }
    ensures no_fault { (names : List (List ℕ)) → AreNames names → names_fault names ≡ None }
{}

// Tells what is wrong with the name that stands at this place after these names.
fn check_name(before: &IndexSet<NameText>, name: &str, at: u64) -> Result<(), NamesFault>
    ensures { MatchResult result (λ _. name_fault before.now.keys name.now at ≡ None)
        (λ fault. name_fault before.now.keys name.now at ≡ Some fault) }
{
    if !is_name(name) {
        return Err(NamesFault::BadName { at });
    }
    if before.contains(name) {
        return Err(NamesFault::TwiceNamed { at });
    }
    Ok(())
}

fn is_name(name: &str) -> bool
    ensures { result ≡ is_name name.now }
{
    let bytes = name.as_bytes();
    if bytes.is_empty() || bytes.len() > LONGEST_NAME || !bytes[0].is_ascii_alphabetic() {
        return false;
    }
    has_name_bytes(bytes) && name != "of"
}

fn has_name_bytes(bytes: &[u8]) -> bool
    ensures { result ≡ list_all is_name_byte bytes.now }
{
    bytes.iter().all(|byte| is_name_byte(*byte))
}

fn is_name_byte(byte: u8) -> bool
    ensures { result ≡ is_name_byte byte }
{
    byte.is_ascii_alphanumeric() || byte == b'_'
}
