//! What a run leaves.
use message_board::ClosedBoard;
use party_desk::Desk;

/// All desks at their end, and the cells.
#[derive(Drop)]
pub struct Done {
    pub(crate) parties: u32,
    pub(crate) desks: Vec<Desk>,
    pub(crate) cells: ClosedBoard<Box<Desk>>,
    pub(crate) steps: u64,
}

impl Done {
    ghost use Rattle.std.specs.Prelude.{◌≡◌, ◌<◌, length, Some};
    ghost use Rattle.plan_model.specs.Plans.{words};
    ghost use Rattle.plan_model.specs.Messages.{messages};
    ghost use Rattle.plan_model.specs.Numbers.{message};
    ghost use Rattle.share_world.specs.Worlds.{World, word};
    ghost use Rattle.desk_workers.specs.Runs.{IsOver, Opens, desk_of, plain_output, instructions_of};

    // The desk of a party in a session.
    fn desk(&self, session: u32, party: u32) -> &Desk
        requires { (w : World) × IsOver w self.now × (session < length w.plan.sessions) × (party < w.plan.parties) }
        ensures { desk_of self.now session party ≡ Some result.now }
    {
        let k = session as usize * self.parties as usize + party as usize;
        &self.desks[k]
    }

    /// Output wire `output` of a session, counted from its first output wire, as a party that reads it opened it.
    pub fn delivered(&self, session: u32, output: u32, reader: u32) -> u64
        requires { (w : World) × IsOver w self.now × Opens w session output reader }
        ensures { (w : World) → IsOver w self.now → Opens w session output reader
            → result ≡ plain_output w session output }
    {
        match self.desk(session, reader).delivered(output) {
            Some(word) => word,
            None => unreachable!(),
        }
    }

    /// The word of message `number`.
    pub fn cell(&self, number: u32) -> u64
        requires { (w : World) × IsOver w self.now × (number < length (messages w.plan)) }
        ensures { (w : World) → IsOver w self.now → number < length (messages w.plan)
            → result ≡ word w (message w.plan number) }
    {
        match self.cells.cell(number) {
            Some(word) => word,
            None => unreachable!(),
        }
    }

    /// How many tape words the party has drawn in the session: all of its piece.
    pub fn drawn(&self, party: u32, session: u32) -> u32
        requires { (w : World) × IsOver w self.now × (session < length w.plan.sessions) × (party < w.plan.parties) }
        ensures { (w : World) → IsOver w self.now → session < length w.plan.sessions → party < w.plan.parties
            → result ≡ words w.plan party session }
    {
        self.desk(session, party).drawn()
    }

    /// How often all desks moved.
    pub fn steps(&self) -> u64
        ensures { (w : World) → IsOver w self.now → result ≡ instructions_of w }
    {
        self.steps
    }
}
