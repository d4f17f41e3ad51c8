//! A node after its run.
ghost use Rattle.std.specs.Prelude.{◌≡◌, ◌<◌, length};
ghost use Rattle.node_talk.specs.Runs.{word_kept, output_of};

use message_board::PlainCells;
use party_desk::Desk;
use std::marker::Model;

/// A node that is done. Contracts see the words that it sent and got, and the outputs of each session.
#[derive(Drop)]
pub struct NodeDone {
    words: PlainCells,
    desks: Vec<Desk>,
}

impl Model for NodeDone {
    ghost use Rattle.std.specs.Prelude.{map};
    ghost use Rattle.party_desk.specs.declared.desk.Desk.{Desk};
    ghost use Rattle.node_talk.specs.Runs.{Results};

    ghost Value = { Results };

    ghost view = { λ d. record {
      words = d.words.cells;
      outputs = map (λ (desk : Desk). desk.memory.outputs.items) d.desks.items;
    } };
}

impl NodeDone {
    ghost use Rattle.std.specs.Prelude.{◌≡◌, ◌<◌, length, map};
    ghost use Rattle.party_desk.specs.declared.desk.Desk.{Desk};
    ghost use Rattle.node_talk.specs.Runs.{word_kept, output_of};

    // What these words and desks leave.
    pub(crate) fn new(words: PlainCells, desks: Vec<Desk>) -> NodeDone
        ensures { result ≡ record {
          words = words.cells;
          outputs = map (λ (desk : Desk). desk.memory.outputs.items) desks.items;
        } }
    {
        NodeDone { words, desks }
    }

    /// Output wire `output` of a session, counted from the first, where this party reads it.
    pub fn delivered(&self, session: u32, output: u32) -> Option<u64>
        requires { session < length self.now.outputs }
        ensures { result ≡ output_of self.now session output }
    {
        self.desks[session as usize].delivered(output)
    }

    /// The word of this message, where this party sent or got it.
    pub fn kept(&self, number: u32) -> Option<u64>
        requires { number < length self.now.words }
        ensures { result ≡ word_kept self.now number }
    {
        self.words.cell(number)
    }
}
