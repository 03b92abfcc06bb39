//! A worker pool: workers share the jobs of one channel, each job going to one of them, and put their results into another. The last
//! sender of jobs shuts it down as it is dropped. What was sent before is still done; then the workers go, and with the last of them
//! the results end.

use crate::three::join_three;
use async_channel::{EventIds, Receiver, Runtime, Sender, bounded};
use std::alloc::Global;
use std::sync::Wait;
use std::thread;

/// One worker: how many jobs it did, until there were no more.
fn work<R: Wait + Copy>(jobs: Receiver<u64, R>, results: Sender<u64, R>) -> Option<u64> {
    let mut done = 0u64;
    for job in &jobs {
        let job = job.ok()?;
        results.send_blocking(job.wrapping_mul(job)).ok()?;
        done = done.wrapping_add(1);
    }
    Some(done)
}

/// Gives thirty jobs, and no more.
fn give<R: Wait + Copy>(jobs: Sender<u64, R>) -> Option<u64> {
    for job in 1..31 {
        jobs.send_blocking(job).ok()?;
    }
    Some(30)
}

/// The sum of all results.
fn gather<R: Wait + Copy>(results: Receiver<u64, R>) -> Option<u64> {
    let mut sum = 0u64;
    for result in &results {
        sum = sum.wrapping_add(result.ok()?);
    }
    Some(sum)
}

/// All workers at once, a thread each: how many jobs they did together.
fn work_all<R: Runtime>(rt: R, workers: Vec<(Receiver<u64, R>, Sender<u64, R>)>) -> Option<u64> {
    let mut done = 0u64;
    for one in thread::map_vec(&rt, workers, &|(jobs, results)| work(jobs, results)).ok()? {
        done = done.wrapping_add(one?);
    }
    Some(done)
}

/// What three workers have each: a receiver of jobs and a sender of results. They alone have these, so with the last of them the results
/// end, and jobs are refused.
fn workers<R: Wait + Copy>(
    alloc: Global,
    todo: Receiver<u64, R>,
    done: Sender<u64, R>,
) -> Option<Vec<(Receiver<u64, R>, Sender<u64, R>)>> {
    let mut workers = Vec::new(alloc);
    for _ in 0..3 {
        let worker = (todo.try_clone().ok()?, done.try_clone().ok()?);
        workers.push(worker).ok()?;
    }
    Some(workers)
}

/// That sum where three workers do the jobs.
pub(crate) fn sum<R: Runtime>(rt: R, alloc: Global, ids: &mut EventIds) -> Option<u64> {
    let (jobs, todo) = bounded(rt, alloc, 4, ids).ok()?;
    let (done, results) = bounded(rt, alloc, 4, ids).ok()?;
    let workers = workers(alloc, todo, done)?;
    let (given, worked, sum) = join_three(
        &rt,
        move || give(jobs),
        move || work_all(rt, workers),
        move || gather(results),
    );
    given?;
    worked?;
    sum
}
