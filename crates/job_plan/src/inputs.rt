//! The inputs of all parties.
ghost use Rattle.std.specs.Prelude.{◌≡◌, ◌<◌, [], length, slice_index_or};
ghost use Rattle.plan_model.specs.InputWords.{AreInputs, given, input_words};

use crate::plan::Plan;
use std::marker::Model;

/// The inputs of all parties, by party, session and position.
#[derive(Drop)]
pub struct Inputs {
    words: Vec<Vec<Vec<u64>>>,
}

impl Model for Inputs {
    ghost use Rattle.plan_model.specs.InputWords.{InputLists, input_words};

    ghost Value = { InputLists };

    ghost view = { λ i. input_words i.words.items };
}

impl Inputs {
    /// The inputs of a plan's parties: for each party and session a word of the ring for each input wire that the
    /// party owns, in the order of the wires.
    pub fn make(plan: &Plan, words: Vec<Vec<Vec<u64>>>) -> Inputs
        requires { AreInputs plan.now (input_words words.items) }
        ensures { result ≡ input_words words.items }
    {
        let _ = plan;
        Inputs { words }
    }

    /// What the party gives in the session.
    pub fn of(&self, party: u32, session: u32) -> &[u64]
        requires party { party < length self.now }
        requires session { session < length (slice_index_or self.now party []) }
        ensures { result.now ≡ given self.now party session }
    {
        &self.words[party as usize][session as usize]
    }
}
