// A spawner that does all work itself.
ghost use Rattle.std.specs.Prelude.{◌≡◌};

use crate::{Spawner, Task};

/// Does the work of a job where it is started, with a list of the starts that are to be refused.
#[derive(Drop)]
pub struct InlineSpawner {
    refusing: Vec<u64>,
    starts: u64,
    refusals: u64,
}

impl InlineSpawner {
    ghost use Rattle.outer_io.specs.Memory.{spawner_reading, all_past};

    /// A spawner that refuses the starts of these numbers, counted from 0.
    pub fn new(refusing: Vec<u64>) -> Self
        ensures { spawner_reading result ≡ record { refusals = 0; steady = all_past refusing.items 0 } }
    {
        InlineSpawner {
            refusing,
            starts: 0,
            refusals: 0,
        }
    }
}

impl<J: Task> Spawner<J> for InlineSpawner {
    ghost use Rattle.outer_io.specs.Memory.{spawner_reading};

    type Started = J;

    ghost reading = { spawner_reading };

    ghost may_end = { λ started end. end ≡ started };

    fn start(&mut self, mut job: J) -> Result<J, J> {
        let start = self.starts;
        self.starts = start.saturating_add(1);
        if self.refusing.contains(&start) {
            self.refusals = self.refusals.saturating_add(1);
            return Err(job);
        }
        job.work();
        Ok(job)
    }

    fn finish(&mut self, started: J) -> J {
        started
    }
}
