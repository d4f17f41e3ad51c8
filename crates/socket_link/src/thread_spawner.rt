// Jobs in threads of their own.
ghost use Rattle.std.specs.Prelude.{◌≡◌, ◌⊎◌, false, IfOk, IfErr};
ghost use Rattle.outer_io.specs.Jobs.{Starts};
ghost use Rattle.socket_link.specs.Threads.{IsBack};
ghost use Rattle.socket_link.specs.Spawners.{thread_reading};

use outer_io::Task;
use std::alloc::Global;
use std::marker::Model;
use std::snapshot::Snapshot;
use std::sync::Arc;
use std::sync::atomic::{AtomicU64, Ordering};
use std::thread;
use std::thread::{Promise, PromisedHandle, Threads};

/// Starts a thread for each job. `Spawner` is implemented over it for each type of job by itself, since a method of a
/// trait cannot send a value of a type parameter to a thread.
#[derive(Drop)]
pub struct ThreadSpawner<'r, R> {
    rt: &'r R,
    alloc: Global,
    refusals: u64,
}

/// A job that was started in a thread. Contracts see the job as it was given.
pub struct ThreadJob<J: Task> {
    handle: PromisedHandle<Back<J>, OfJob<J>>,
}

impl<J: Task> Model for ThreadJob<J> {
    ghost Value = { J };

    ghost view = { λ t. t.handle.promise.0.value };
}

// A job that comes back from a thread, and whether its work is done.
#[derive(Drop)]
struct Back<J> {
    job: J,
    worked: bool,
}

// The promise that it is this job which comes back.
#[derive(Drop)]
struct OfJob<J>(Snapshot<J>);

impl<J: Task> Promise<Back<J>> for OfJob<J> {
    ghost kept_by = { λ promise back. IsBack J.worked promise.0.value back.worked back.job };
}

impl<'r, R: Threads> ThreadSpawner<'r, R> {
    /// A spawner that starts the threads of this runtime.
    pub fn new(rt: &'r R, alloc: Global) -> Self
        ensures { thread_reading result ≡ record { refusals = 0; steady = false } }
    {
        ThreadSpawner {
            rt,
            alloc,
            refusals: 0,
        }
    }

    /// Starts a thread that does the job, or hands the job back.
    pub fn start<J: Task + Send + Drop + 'static>(&mut self, job: J) -> Result<ThreadJob<J>, J>
        ensures { Starts J.worked J.worked job (thread_reading self.old) (thread_reading self.new) result }
    {
        match start_thread(self.rt, self.alloc, job) {
            Ok(started) => Ok(started),
            Err(job) => {
                self.refusals = self.refusals.saturating_add(1);
                Err(job)
            }
        }
    }

    /// The job as its work left it. It waits for the end of that work.
    pub fn finish<J: Task + Send + Drop + 'static>(&mut self, started: ThreadJob<J>) -> J
        ensures worked { J.worked started result }
        ensures same { thread_reading self.new ≡ thread_reading self.old }
    {
        let ThreadJob { handle } = started;
        let Back { mut job, worked } = handle.join(self.rt);
        if !worked {
            job.work();
        }
        job
    }
}

// A thread that does the job, or the job, where no thread can be made.
fn start_thread<J: Task + Send + Drop + 'static, R: Threads>(
    rt: &R,
    alloc: Global,
    job: J,
) -> Result<ThreadJob<J>, J>
    ensures started { IfOk result (λ started. started ≡ job) }
    ensures handed_back { IfErr result (λ back. (back ≡ job) ⊎ J.worked job back) }
{
    let Ok(refused) = Arc::new(alloc, AtomicU64::new(0)) else {
        return Err(job);
    };
    let Ok(seen) = Arc::try_clone(&refused) else {
        return Err(job);
    };
    let promise = OfJob(Snapshot::of(&job));
    let run = move || {
        let refused = seen.load(Ordering::SeqCst) != 0;
        work_unless(refused, job)
    };
    match thread::spawn_with(rt, promise, run) {
        Ok(handle) => Ok(ThreadJob { handle }),
        Err(error) => {
            refused.store(1, Ordering::SeqCst);
            Err((error.value)().job)
        }
    }
}

// Does the job, unless its start was refused.
fn work_unless<J: Task>(refused: bool, mut job: J) -> Back<J>
    ensures { IsBack J.worked job result.worked result.job }
{
    if refused {
        return Back { job, worked: false };
    }
    job.work();
    Back { job, worked: true }
}
