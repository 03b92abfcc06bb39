//! A pool of workers: jobs come by one channel, results go by another. The results are, in some order, one for each job.

ghost use Rattle.std.specs.Prelude.{◌≡◌, ◌-◌, ◌*◌, ◌<◌, [], length, IfSome, IsPermutation};
ghost use Rattle.waybill.specs.Accounts.{all_parts, fresh, account, IsPartOf};
ghost use Rattle.examples.specs.Pool.{squares};

use async_channel::{Receiver, Sender, unbounded};
use event_listener::id::EventIds;
use std::alloc::Global;
use std::marker::{Brand, Model};
use std::sync::Wait;
use std::thread;
use std::thread::Threads;
use waybill::{Inbox, Office, Opened, Parcel, Pass, Room};

/// What is to be done with a job.
fn squared(job: u32) -> u64
    ensures { result ≡ job * job }
{
    job as u64 * job as u64
}

/// A worker: what it gave are the squares of what it took.
#[derive(Drop)]
struct Worker<B: Room, C: Room> {
    took: Pass<u32, B>,
    gave: Pass<u64, C>,
}

impl<B: Room, C: Room> Model for Worker<B, C> {
    ghost use Rattle.std.specs.Prelude.{◌≡◌, []};
    ghost use Rattle.waybill.specs.Accounts.{account};
    ghost use Rattle.examples.specs.Pool.{squares};

    ghost Value = { Unit {0} };

    ghost view = { λ w. tt };

    ghost invariant = { λ w. (w.took ≡ account 1 [] w.took.received []) × (w.gave ≡ account 1 (squares w.took.received) [] []) };
}

impl<B: Room, C: Room> Worker<B, C> {
    /// One that did nothing yet.
    fn new(took: Pass<u32, B>, gave: Pass<u64, C>) -> Worker<B, C>
        requires { (took ≡ fresh 1) × (gave ≡ fresh 1) }
    {
        Worker { took, gave }
    }

    /// Does one job.
    fn square(
        &mut self,
        jobs: &Office<u32, B>,
        results: &Office<u64, C>,
        job: Parcel<u32, B>,
    ) -> Parcel<u64, C> {
        let job = jobs.unpack(&mut self.took, job);
        results.pack(&mut self.gave, squared(job))
    }

    /// Both passes.
    fn into_passes(self) -> (Pass<u32, B>, Pass<u64, C>)
        ensures took { result.0 ≡ account 1 [] result.0.received [] }
        ensures gave { result.1 ≡ account 1 (squares result.0.received) [] [] }
    {
        (self.took, self.gave)
    }
}

/// Does jobs until there are no more.
fn work<B: Room, C: Room, R: Wait + Copy>(
    jobs: &Office<u32, B>,
    results: &Office<u64, C>,
    todo: Receiver<Parcel<u32, B>, R>,
    done: Sender<Parcel<u64, C>, R>,
    mut worker: Worker<B, C>,
) -> Worker<B, C> {
    for job in todo.iter() {
        let Ok(job) = job else {
            break;
        };
        let _ = done.send_blocking(worker.square(jobs, results, job));
    }
    worker
}

/// Gives the jobs and lets the sender go.
fn give<B: Room, R: Wait + Copy>(todo: Sender<Parcel<u32, B>, R>, jobs: Vec<Parcel<u32, B>>) {
    for job in jobs {
        let _ = todo.send_blocking(job);
    }
}

/// Gathers results until there are no more.
fn gather<C: Room, R: Wait + Copy>(
    results: &Office<u64, C>,
    done: Receiver<Parcel<u64, C>, R>,
    mut inbox: Inbox<u64, C>,
) -> Inbox<u64, C> {
    for parcel in done.iter() {
        let Ok(parcel) = parcel else {
            break;
        };
        if inbox.unpack(results, parcel).is_err() {
            break;
        }
    }
    inbox
}

/// Two workers who do what there is to do.
fn two_workers<
    B: Room + Send + Sync,
    C: Room + Send + Sync,
    R: Threads + Wait + Copy + Send + Sync,
>(
    rt: R,
    jobs: &Office<u32, B>,
    results: &Office<u64, C>,
    todo: (Receiver<Parcel<u32, B>, R>, Receiver<Parcel<u32, B>, R>),
    done: (Sender<Parcel<u64, C>, R>, Sender<Parcel<u64, C>, R>),
    workers: (Worker<B, C>, Worker<B, C>),
) -> (Worker<B, C>, Worker<B, C>) {
    let (todo, todo_too) = todo;
    let (done, done_too) = done;
    let (worker, worker_too) = workers;
    thread::join(
        &rt,
        move || work::<B, C, R>(jobs, results, todo, done, worker),
        move || work::<B, C, R>(jobs, results, todo_too, done_too, worker_too),
    )
}

/// A channel with two receivers, by which jobs come, and one with two senders, by which results go.
#[derive(Drop)]
struct Lines<B: Room, C: Room, R: Wait + Copy> {
    jobs: Sender<Parcel<u32, B>, R>,
    todo: (Receiver<Parcel<u32, B>, R>, Receiver<Parcel<u32, B>, R>),
    done: (Sender<Parcel<u64, C>, R>, Sender<Parcel<u64, C>, R>),
    results: Receiver<Parcel<u64, C>, R>,
}

/// Opens both. `None` where there is no memory.
fn open<B: Room, C: Room, R: Wait + Copy>(
    rt: R,
    alloc: Global,
    ids: &mut EventIds,
) -> Option<Lines<B, C, R>> {
    let (jobs, todo) = unbounded(rt, alloc, ids).ok()?;
    let (done, results) = unbounded(rt, alloc, ids).ok()?;
    let todo_too = todo.try_clone().ok()?;
    let done_too = done.try_clone().ok()?;
    Some(Lines {
        jobs,
        todo: (todo, todo_too),
        done: (done, done_too),
        results,
    })
}

/// Both workers and the inbox after all jobs.
fn all_done<B: Room + Send + Sync, C: Room + Send + Sync, R: Threads + Wait + Copy + Send + Sync>(
    rt: R,
    offices: (&Office<u32, B>, &Office<u64, C>),
    lines: Lines<B, C, R>,
    parcels: Vec<Parcel<u32, B>>,
    workers: (Worker<B, C>, Worker<B, C>),
    inbox: Inbox<u64, C>,
) -> ((Worker<B, C>, Worker<B, C>), Inbox<u64, C>) {
    let (at_jobs, at_results) = offices;
    let Lines {
        jobs,
        todo,
        done,
        results,
    } = lines;
    give(jobs, parcels);
    let workers = two_workers(rt, at_jobs, at_results, todo, done, workers);
    (workers, gather(at_results, results, inbox))
}

/// Packs all jobs and has two workers do them. `None` where there is no memory.
fn done_by_two<
    B: Room + Send + Sync,
    C: Room + Send + Sync,
    R: Threads + Wait + Copy + Send + Sync,
>(
    rt: R,
    alloc: Global,
    offices: (&Office<u32, B>, &Office<u64, C>),
    lines: Lines<B, C, R>,
    every_job: &mut Pass<u32, B>,
    every_result: &mut Pass<u64, C>,
    all: &[u32],
) -> Option<((Worker<B, C>, Worker<B, C>), Inbox<u64, C>)>
    requires { (every_job.old ≡ fresh all_parts) × (every_result.old ≡ fresh all_parts) }
    ensures jobs { IfSome result (λ r. every_job.new ≡ account (all_parts - 2) all.now [] []) }
    ensures results { IfSome result (λ r. every_result.new ≡ fresh (all_parts - 3)) }
{
    let (jobs, results) = offices;
    let parcels = jobs.pack_each(alloc, every_job, all).ok()?;
    let worker = Worker::new(jobs.another(every_job), results.another(every_result));
    let worker_too = Worker::new(jobs.another(every_job), results.another(every_result));
    let inbox = Inbox::new(alloc, results.another(every_result));
    let workers = (worker, worker_too);
    Some(all_done(rt, offices, lines, parcels, workers, inbox))
}

fn pool_in<B: Room + Send + Sync, C: Room + Send + Sync, R: Threads + Wait + Copy + Send + Sync>(
    rt: R,
    alloc: Global,
    ids: &mut EventIds,
    jobs: Opened<u32>,
    results: Opened<u64>,
    all: &[u32],
) -> Option<Vec<u64>>
    requires { (jobs ≡ B.table) × (results ≡ C.table) }
    ensures part { IfSome result (λ got. IsPartOf got.items (squares all.now)) }
    ensures each { IfSome result (λ got. length got.items ≡ length all.now → IsPermutation (squares all.now) got.items) }
{
    let lines = open(rt, alloc, ids)?;
    let (jobs, mut every_job) = jobs.enter::<B>();
    let (results, mut every_result) = results.enter::<C>();
    let offices = (&jobs, &results);
    let ((worker, worker_too), inbox) = done_by_two(
        rt,
        alloc,
        offices,
        lines,
        &mut every_job,
        &mut every_result,
        all,
    )?;
    let (took, gave) = worker.into_passes();
    let (took_too, gave_too) = worker_too.into_passes();
    let (gathered, got) = inbox.into_parts();
    jobs.absorb(&mut every_job, took);
    jobs.absorb(&mut every_job, took_too);
    results.absorb(&mut every_result, gave);
    results.absorb(&mut every_result, gave_too);
    results.absorb(&mut every_result, gathered);
    jobs.learn(&mut every_job);
    results.learn(&mut every_result);
    Some(got)
}

/// What two workers made of these jobs: always some of what is to be made of them, and where there are as many results as jobs, one
/// for each. `None` where there is no memory.
pub fn pool<R: Threads + Wait + Copy + Send + Sync>(
    rt: R,
    alloc: Global,
    ids: &mut EventIds,
    all: &[u32],
) -> Option<Vec<u64>>
    ensures part { IfSome result (λ got. IsPartOf got.items (squares all.now)) }
    ensures each { IfSome result (λ got. length got.items ≡ length all.now → IsPermutation (squares all.now) got.items) }
{
    let jobs = Opened::new(alloc).ok()?;
    let results = Opened::new(alloc).ok()?;
    pool_in::<Brand, Brand, R>(rt, alloc, ids, jobs, results, all)
}
