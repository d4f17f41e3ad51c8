//! What a party's file gives.
use tape_words::Tape;

/// What a party's file gives, by session: a word for each input wire that the party gives, in the order of the wires,
/// and the tape of as many words as the party draws.
#[derive(Drop)]
pub struct PartyData {
    pub inputs: Vec<Vec<u64>>,
    pub tapes: Vec<Tape>,
}
