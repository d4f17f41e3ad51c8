// Jobs that are done beside their caller.
ghost use Rattle.std.specs.Prelude.{◌≡◌};
ghost use Rattle.outer_io.specs.Jobs.{SpawnerReading, Starts};

/// A job.
pub trait Task {
    /// How the job is after its work, where it was like the first before.
    ghost worked: { Self → Self → Type 0 };

    /// Does the job.
    fn work(&mut self)
        ensures { worked self.old self.new };
}

/// What starts jobs beside its caller, and waits for their ends.
pub trait Spawner<J: Task> {
    /// A job that was started.
    type Started;

    /// How many starts were refused, and whether the spawner is steady.
    ghost reading: { Self → SpawnerReading };

    /// How a started job may end.
    ghost may_end: { Self.Started → J → Type 0 };

    /// Starts the work of the job, or hands the job back.
    fn start(&mut self, job: J) -> Result<Self::Started, J>
        ensures { Starts J.worked may_end job (reading self.old) (reading self.new) result };

    /// The job as its work left it. It may wait for the end of that work.
    fn finish(&mut self, started: Self::Started) -> J
        ensures end { may_end started result }
        ensures same { reading self.new ≡ reading self.old };
}
