//! Runs whose workers are held in their first call.

use crate::calls::{Call, expect_answer};
use crate::files::{PRODUCT, TWO_PRODUCTS, Texts};
use crate::links::{NEVER, WHOLE};
use outer_io::Pace;
use std::alloc::{AllocError, Global};
use std::process::Abort;
use std::sync::atomic::{AtomicU64, Ordering};
use std::test::Fail;
use std::thread;
use std::time::{Clock, Duration};

/// The most milliseconds that a worker is held, which a machine with much other work keeps too.
const MOST_MILLISECONDS: u32 = 40_000;

/// Holds each worker in its first call until all were called, and worker 0 until worker 1 was called for some desks as
/// well.
#[derive(Drop)]
struct Held<'r, R> {
    rt: &'r R,
    /// Those desks, a bit for each.
    desks: u64,
    /// The desks for which each worker was called.
    called: Vec<AtomicU64>,
    /// How many workers were held in vain.
    missed: AtomicU64,
}

impl<'r, R: Clock> Held<'r, R> {
    fn new(rt: &'r R, alloc: Global, workers: u32, desks: u64) -> Result<Self, AllocError> {
        let mut called = Vec::new(alloc);
        for _ in 0..workers {
            called.push(AtomicU64::new(0))?;
        }
        Ok(Held {
            rt,
            desks,
            called,
            missed: AtomicU64::new(0),
        })
    }

    /// The desks for which the worker was called.
    fn desks_of(&self, worker: u32) -> u64 {
        match self.called.get(worker as usize) {
            Some(desks) => desks.load(Ordering::SeqCst),
            None => 0,
        }
    }

    /// Whether the worker may go on.
    fn is_free(&self, worker: u32) -> bool {
        self.called
            .iter()
            .all(|desks| desks.load(Ordering::SeqCst) > 0)
            && (worker > 0 || self.desks_of(1) & self.desks == self.desks)
    }

    fn wait(&self, worker: u32) {
        for _ in 0..MOST_MILLISECONDS {
            if self.is_free(worker) {
                return;
            }
            thread::sleep(self.rt, Duration::from_millis(1));
        }
        self.missed.fetch_add(1, Ordering::SeqCst);
    }
}

impl<R: Clock + Sync> Pace for Held<'_, R> {
    fn before(&self, worker: u32, desk: u32) {
        let earlier = self.desks_of(worker);
        if let Some(desks) = self.called.get(worker as usize) {
            desks.store(earlier | 1 << (desk % 64), Ordering::SeqCst);
        }
        if earlier == 0 {
            self.wait(worker);
        }
    }
}

/// How many workers run a job, and the desks for which worker 1 is called while worker 0 is held; the job's files, and
/// what is written.
type Together = (u32, u64, &'static [&'static str], Texts, &'static str);

/// Worker 1 of two goes on while worker 0 is held, and six are called at once, for a desk each.
const TOGETHER: [Together; 2] = [
    (
        2,
        0b110,
        &["mpc", "run", "d", "--workers", "2"],
        PRODUCT,
        "out 0 0 c 35\n",
    ),
    (
        6,
        0,
        &["mpc", "run", "d", "--workers", "6"],
        TWO_PRODUCTS,
        "out 0 0 c 35\nout 1 0 c 6\n",
    ),
];

#[test]
fn workers_run_at_the_same_time(rt: HostRuntime) -> Result<(), Fail> {
    for (workers, desks, words, files, out) in TOGETHER {
        let call = Call {
            words,
            files,
            links: [WHOLE, WHOLE],
            refused_start: NEVER,
            status: 0,
            out,
            err: "",
            taken: [0, 0],
        };
        let pace = Held::new(&rt, rt.alloc(), workers, desks)?;
        expect_answer(&rt, rt.alloc(), &call, &pace)?;
        assert_eq!(rt; pace.missed.load(Ordering::SeqCst), 0, "held in vain");
    }
    Ok(())
}
