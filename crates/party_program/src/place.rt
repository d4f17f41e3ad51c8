//! Places in a program.
ghost use Rattle.std.specs.Prelude.{◌≡◌, ℕ, ◌+◌, ◌<◌, ◌==◌, ◌&&◌, ◌≤◌, nat_lt, not, length};
ghost use Rattle.plan_model.specs.Plans as plans;
ghost use Rattle.program_model.specs.Programs.{program};
ghost use Rattle.party_program.specs.ProgramPlaces.{IsPlace};

use job_plan::Pattern;
use program_model::Half;

/// Where an instruction stands in a program: the half of its slot, and how many steps of that come before it. Who keeps
/// it needs no search for the next instruction.
#[derive(Clone, Copy)]
pub struct Place {
    pub(crate) half: Half,
    pub(crate) slot: u32,
    // The first slot of its batch, and the one behind the last.
    pub(crate) batch: u32,
    pub(crate) end: u32,
    pub(crate) pattern: Pattern,
    // The number of the first message that is posted or taken in the slot.
    pub(crate) first: u32,
    // How many steps of the half are done, and how many it has. Past the last slot there are none.
    pub(crate) done: u32,
    pub(crate) count: u32,
}

impl Place {
    /// The slot in which the instruction stands, and past all instructions the count of slots.
    pub fn slot(self) -> u32
        ensures { result ≡ self.slot }
    {
        self.slot
    }

    /// The half of that slot.
    #[inline(always)]
    pub fn half(self) -> Half
        ensures { result ≡ self.half }
    {
        self.half
    }

    /// The first slot of its batch.
    #[inline(always)]
    pub fn batch(self) -> u32
        ensures { result ≡ self.batch }
    {
        self.batch
    }

    /// The slot behind the last of its batch.
    #[inline(always)]
    pub fn end(self) -> u32
        ensures { result ≡ self.end }
    {
        self.end
    }

    /// The number of the first message that is posted or taken in the slot.
    #[inline(always)]
    pub fn first(self) -> u32
        ensures { result ≡ self.first }
    {
        self.first
    }

    /// Whether no instruction is left.
    pub fn is_past(&self) -> bool
        ensures done { result ≡ not (nat_lt self.now.done self.now.count) }
        ensures ends { (plan : plans.Plan) (p s q : ℕ) → IsPlace plan p s self.now q → q ≤ length (program plan p s)
            → result ≡ (q == length (program plan p s)) }
    {
        self.done >= self.count
    }

    /// How many instructions of the half come before this one.
    #[inline(always)]
    pub fn done(self) -> u32
        ensures { result ≡ self.done }
    {
        self.done
    }

    /// Whether this is the first instruction of the half.
    #[inline(always)]
    pub fn is_first(&self) -> bool
        ensures { result ≡ (self.now.done == 0 && nat_lt 0 self.now.count) }
    {
        self.done == 0 && self.count > 0
    }

    /// Whether this is the last instruction of the half.
    #[inline(always)]
    pub fn is_last(&self) -> bool
        ensures { result ≡ (self.now.done + 1 == self.now.count) }
    {
        u64::from(self.done) + 1 == u64::from(self.count)
    }

    /// Moves on by `steps` steps of the half.
    #[inline(always)]
    pub fn skip(&mut self, steps: u32)
        requires few { self.old.done + steps < 4294967296 }
        ensures { self.new ≡ record self.old { done = self.old.done + steps } }
    {
        self.done += steps;
    }

    /// The pattern of that slot.
    pub fn pattern(self) -> Pattern
        ensures { result ≡ self.pattern }
    {
        self.pattern
    }
}
