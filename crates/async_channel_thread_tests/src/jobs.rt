//! Threads that each do one job at once. A job is opaque to the functions here: the one closure that threads run is proved once, over a type
//! parameter, and its proof doesn't grow with the types of the handles that a job has. Jobs that are done together are of one type.

use std::alloc::{AllocError, AllocGlobal};
use std::thread;
use std::thread::Threads;

/// What one thread does.
pub(crate) trait Job<R> {
    /// What comes of it.
    type Done;

    /// Does it.
    fn run(self, rt: R) -> Self::Done;
}

/// Does all jobs at once, each in a thread of its own: what came of each, in order.
///
/// The closure's clause says nothing, since a job promises nothing.
pub(crate) fn all_done<R, J>(rt: R, jobs: Vec<J>) -> Result<Vec<J::Done>, AllocError>
where
    R: Threads + Copy + Send + Sync,
    J: Job<R> + Send + Drop,
    J::Done: Send + Drop,
{
    thread::map_vec(
        &rt,
        jobs,
        &|job|
            ensures { Unit }
        { job.run(rt) },
    )
}

/// Does two jobs at once: what came of each. `None` where memory was refused.
pub(crate) fn both<R, J>(rt: R, first: J, second: J) -> Option<(J::Done, J::Done)>
where
    R: Threads + AllocGlobal + Copy + Send + Sync,
    J: Job<R> + Send + Drop,
    J::Done: Send + Drop,
{
    let mut jobs = Vec::new(rt.alloc());
    jobs.push(first).ok()?;
    jobs.push(second).ok()?;
    let mut done = all_done(rt, jobs).ok()?;
    let second = done.pop()?;
    let first = done.pop()?;
    Some((first, second))
}
