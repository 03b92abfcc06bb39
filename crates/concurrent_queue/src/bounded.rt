//! The ring: a queue of two slots or more, as a machine of atomic steps.
//!
//! A ring has a word `head`, a word `tail`, and for each slot a word `stamp`. Head and tail are *positions*: a multiple of a lap plus the
//! index of a slot. A lap is twice the *mark*, and the mark is the least power of two above the capacity, so that no index reaches it; in
//! `tail` the mark is set once the queue is closed. A stamp that equals the position of a push says that its slot is free for that push,
//! and one more than a position that its message is in.
//!
//! The invariant: the call that moves the tail (a push) or the head (a pop) from a position owns the slot of that position until it stores
//! the slot's stamp, and no other call touches the slot or writes the stamp meanwhile.
//!
//! Each function below is one step: it makes at most one operation on one word or slot, and decides what follows. Over shared cells a word
//! may hold anything, so no step relies on what it reads: sums wrap, and a word outside the cells reads 0. The orders of operations are
//! those of `concurrent-queue` 2.5.0, with two exceptions. A displacing push makes two steps, and adds to the tail where the Rust crate
//! stores it, so it can't erase a closed mark. And a queue whose positions end closes itself, where the Rust crate lets them wrap.

ghost use Rattle.std.specs.Prelude.{◌≡◌, ℕ, ◌<◌, ◌^◌, ◌*◌, ◌+◌, ◌-◌, ◌%◌, None, Some, if◌then◌else◌, bit_and};
ghost use Rattle.concurrent_queue.specs.machine.RingWords.{cap_of, ring_mark, index, is_marked, unmarked, stride, next_word, count_of, shut_reply, pushed_reply, stays, marks, finishes, ring_start};
ghost use Rattle.concurrent_queue.specs.Deeds.{Ready, loaded};
ghost use Rattle.concurrent_queue.specs.machine.RingMoves.{RingMakes, ring_moves};
ghost use Rattle.concurrent_queue.specs.machine.Dispatch.{ring_cap};
ghost use Rattle.concurrent_queue.specs.Replies.{RingFollows, MaySend};

pub(crate) mod fast_path;

use crate::call::{QueueAsk, QueueMark, QueueReply, Stepped};
use crate::cells::{Cells, QueueForm, Slot, Word};
use crate::error::{ForcePushError, PopError, PushError};
use crate::seen::Trace;

/// The greatest capacity of a ring.
pub(crate) const GREATEST: usize = 288_230_376_151_711_744;

/// What a push does if the ring is full.
#[derive(Clone, Copy)]
pub(crate) enum WhenFull {
    /// It is refused.
    Refuse,
    /// It takes the oldest message out.
    Displace,
}

/// The next step of a call, with the positions that it read.
#[derive(Drop)]
pub(crate) enum RingAction<T> {
    /// A push loads the tail.
    Push(WhenFull, T),
    /// A push found the tail where positions end, and closes the queue.
    PushShut(WhenFull, T),
    /// A push loads the stamp of the tail that it read.
    PushStamp(WhenFull, T, u64),
    /// A push tries to move the tail on.
    PushSwap(WhenFull, T, u64),
    /// A push that moved the tail on from here puts its message.
    PushPut(WhenFull, T, u64),
    /// The same push stores the stamp.
    PushStore(WhenFull, u64),
    /// A push that found the message of a lap before still there looks whether that is the oldest.
    PushHead(T, u64),
    /// A displacing push, likewise, tries to move the head on from there.
    ForceHead(T, u64),
    /// A displacing push that did so moves the tail on.
    ForceAdd(T, u64),
    /// It takes the old message out.
    ForceTake(T, u64),
    /// It puts its own, holding the old one.
    ForcePut(T, u64, T),
    /// It stores the stamp.
    ForceStore(u64, T),
    /// A pop loads the head.
    Pop,
    /// A pop loads the stamp of the head that it read.
    PopStamp(u64),
    /// A pop tries to move the head on.
    PopSwap(u64),
    /// A pop that found no message yet looks whether the tail is there too.
    PopTail(u64),
    /// A pop that moved the head on from here takes the message.
    PopTake(u64),
    /// The same pop stores the stamp.
    PopStore(u64, T),
    /// Sets the mark.
    Close,
    /// Loads the tail.
    IsClosed,
    /// Loads the head, then the tail.
    IsEmpty,
    /// The head is read.
    IsEmptyTail(u64),
    /// Loads the tail, then the head.
    IsFull,
    /// The tail is read.
    IsFullHead(u64),
    /// Loads the tail, the head, and the tail again.
    Len,
    /// The tail is read, and whether it was marked.
    LenHead(u64, bool),
    /// The head is read too.
    LenTail(u64, bool, u64),
    /// Touches nothing.
    Capacity,
    /// The call has ended.
    Finished,
}

/// The measures of a ring: its capacity, its mark, and a lap less one, which is a mask since a lap is a power of two.
#[derive(Clone, Copy)]
pub(crate) struct Shape {
    cap: u64,
    mark: u64,
    mask: u64,
    ghost small: { mark < 2 ^ 60 },
    ghost some: { 0 < mark },
    ghost masks: { (n : ℕ) → bit_and n mask ≡ n % (2 * mark) },
}

/// The capacity of a ring; one above 2^58, which no queue has, counts as 2^58.
pub(crate) fn at_most_greatest(capacity: usize) -> u64
    ensures { result ≡ cap_of capacity }
{
    if capacity < GREATEST {
        capacity as u64
    } else {
        GREATEST as u64
    }
}

impl Shape {
    ghost use Rattle.std.specs.Prelude.{◌≡◌, ◌<◌, ◌^◌, ◌*◌, if◌then◌else◌, ◌+◌, ◌%◌};
    ghost use Rattle.concurrent_queue.specs.machine.RingWords.{cap_of, ring_mark, index, is_marked, unmarked, stride, next_word, count_of, between};

    /// The measures of a ring of this capacity; one above 2^58, which no queue has, counts as 2^58.
    pub(crate) fn of(capacity: usize) -> Shape
        ensures cap { result.cap ≡ cap_of capacity }
        ensures mark { result.mark ≡ ring_mark (cap_of capacity) }
    {
        let cap = at_most_greatest(capacity);
        let mark = 1 << (64 - cap.leading_zeros());
        Shape {
            cap,
            mark,
            mask: 2 * mark - 1,
        }
    }

    #[inline(always)]
    fn lap(self) -> u64
        ensures { result ≡ 2 * self.mark }
    {
        2 * self.mark
    }

    /// The index of a position.
    #[inline(always)]
    fn index(self, position: u64) -> u64
        ensures { result ≡ index self.mark position }
    {
        position & self.mask
    }

    /// The name of the stamp that belongs to a position.
    #[inline(always)]
    fn stamp(self, position: u64) -> Word
        ensures { result ≡ Word.Stamp (index self.mark position) }
    {
        Word::Stamp(self.index(position))
    }

    /// Whether the mark is set in a word.
    #[inline(always)]
    fn is_marked(self, word: u64) -> bool
        ensures { result ≡ is_marked self.mark word }
    {
        self.mark <= self.index(word)
    }

    /// The position in a word.
    #[inline(always)]
    fn unmarked(self, word: u64) -> u64
        ensures { result ≡ unmarked self.mark word }
    {
        if self.is_marked(word) {
            word - self.mark
        } else {
            word
        }
    }

    /// How far it is from a position to the next one.
    #[inline(always)]
    fn stride(self, position: u64) -> u64
        ensures { result ≡ stride self.cap self.mark position }
    {
        let index = self.index(position);
        if index + 1 < self.cap {
            1
        } else {
            self.lap() - index
        }
    }

    /// The position after this one.
    #[inline(always)]
    fn next(self, position: u64) -> u64
        ensures { result ≡ next_word self.cap self.mark position }
    {
        position.wrapping_add(self.stride(position))
    }

    /// How many positions there are below this one.
    fn count(self, position: u64) -> u64
        ensures { result ≡ count_of self.cap self.mark position }
    {
        (position / self.lap())
            .wrapping_mul(self.cap)
            .wrapping_add(self.index(position))
    }
}

fn stay<T>(action: RingAction<T>) -> Stepped<RingAction<T>, T>
    ensures { result ≡ stays action }
{
    did(action, QueueMark::Nothing)
}

fn did<T>(action: RingAction<T>, mark: QueueMark) -> Stepped<RingAction<T>, T>
    ensures { result ≡ marks action mark }
{
    Stepped {
        action,
        mark,
        reply: None,
    }
}

fn finish<T>(reply: QueueReply<T>) -> Stepped<RingAction<T>, T>
    ensures { result ≡ finishes reply }
{
    closed_by(reply, QueueMark::Nothing)
}

fn closed_by<T>(reply: QueueReply<T>, mark: QueueMark) -> Stepped<RingAction<T>, T>
    ensures { result ≡ record { action = RingAction.Finished; mark = mark; reply = Some reply } }
{
    Stepped {
        action: RingAction::Finished,
        mark,
        reply: Some(reply),
    }
}

/// The answer of a push to a closed queue.
fn refused<T>(when_full: WhenFull, value: T) -> QueueReply<T>
    ensures reply { result ≡ shut_reply when_full value }
    ensures back { MaySend when_full value result }
{
    match when_full {
        WhenFull::Refuse => QueueReply::Push(Err(PushError::Closed(value))),
        WhenFull::Displace => QueueReply::Force(Err(ForcePushError::Closed(value))),
    }
}

/// The answer of a push that displaced nothing.
fn accepted<T>(when_full: WhenFull) -> QueueReply<T>
    ensures reply { result ≡ pushed_reply when_full }
    ensures sent { (v : T) → MaySend when_full v result }
{
    match when_full {
        WhenFull::Refuse => QueueReply::Push(Ok(())),
        WhenFull::Displace => QueueReply::Force(Ok(None)),
    }
}

/// A push that may find the queue closed, or positions at their end: it loads the tail.
fn push_load<T: Drop, C: Cells<T>>(
    shape: Shape,
    when_full: WhenFull,
    value: T,
    cells: &mut C,
) -> Stepped<RingAction<T>, T>
    requires ready { Ready C.may (ring_moves shape.cap shape.mark (RingAction.Push when_full value)) cells.old }
    ensures answers { RingFollows shape.cap (RingAction.Push when_full value) result }
    ensures deed { RingMakes shape.cap shape.mark C.did cells.old (RingAction.Push when_full value) cells.new result }
{
    // Load the tail first: the next steps test the stamp of this position and exchange this word. The same load shows a closed queue.
    let tail = cells.load(Word::Tail);
    if shape.is_marked(tail) {
        finish(refused(when_full, value))
    } else if u64::MAX - shape.lap() < tail {
        stay(RingAction::PushShut(when_full, value))
    } else {
        stay(RingAction::PushStamp(when_full, value, tail))
    }
}

/// Positions end here: the queue closes itself, where the Rust crate lets them wrap.
fn push_shut<T: Drop, C: Cells<T>>(
    shape: Shape,
    when_full: WhenFull,
    value: T,
    cells: &mut C,
) -> Stepped<RingAction<T>, T>
    requires ready { Ready C.may (ring_moves shape.cap shape.mark (RingAction.PushShut when_full value)) cells.old }
    ensures answers { RingFollows shape.cap (RingAction.PushShut when_full value) result }
    ensures deed { RingMakes shape.cap shape.mark C.did cells.old (RingAction.PushShut when_full value) cells.new result }
{
    // An `or`, as in `close`: of all calls that set the mark only one finds it clear, and that call closed the queue.
    let tail = cells.fetch_or(Word::Tail, shape.mark);
    let reply = refused(when_full, value);
    if shape.is_marked(tail) {
        finish(reply)
    } else {
        closed_by(reply, QueueMark::Close)
    }
}

/// The stamp says whether the slot is free for this push, or still has the message of the lap before.
fn push_look<T: Drop, C: Cells<T>>(
    shape: Shape,
    when_full: WhenFull,
    value: T,
    tail: u64,
    cells: &mut C,
) -> Stepped<RingAction<T>, T>
    requires ready { Ready C.may (ring_moves shape.cap shape.mark (RingAction.PushStamp when_full value tail)) cells.old }
    ensures answers { RingFollows shape.cap (RingAction.PushStamp when_full value tail) result }
    ensures deed { RingMakes shape.cap shape.mark C.did cells.old (RingAction.PushStamp when_full value tail) cells.new result }
{
    // Load the stamp after the tail. A stamp equal to the position can't change until a push moves the tail from here, so `push_swap`
    // need not load it again.
    let stamp = cells.load(shape.stamp(tail));
    if stamp == tail {
        return stay(RingAction::PushSwap(when_full, value, tail));
    }
    let lap = shape.lap();
    if lap <= tail && stamp == tail - lap + 1 {
        // The message of the lap before is still in, or a call has won it and not freed the slot yet. The head tells which.
        let head = tail - lap;
        return match when_full {
            WhenFull::Refuse => stay(RingAction::PushHead(value, head)),
            WhenFull::Displace => stay(RingAction::ForceHead(value, head)),
        };
    }
    // The push of the lap before hasn't finished, or the tail has moved on. Start again.
    stay(RingAction::Push(when_full, value))
}

/// The call that moves the tail from here owns the slot. A marked tail is no position, so this fails on a closed queue.
fn push_swap<T: Drop, C: Cells<T>>(
    shape: Shape,
    when_full: WhenFull,
    value: T,
    tail: u64,
    cells: &mut C,
) -> Stepped<RingAction<T>, T>
    requires ready { Ready C.may (ring_moves shape.cap shape.mark (RingAction.PushSwap when_full value tail)) cells.old }
    ensures answers { RingFollows shape.cap (RingAction.PushSwap when_full value tail) result }
    ensures deed { RingMakes shape.cap shape.mark C.did cells.old (RingAction.PushSwap when_full value tail) cells.new result }
{
    // Commit. An exchange, not an add: an add would take a position of a closed queue, or one whose slot isn't free.
    match cells.compare_exchange(Word::Tail, tail, shape.next(tail)) {
        Ok(_) => did(
            RingAction::PushPut(when_full, value, tail),
            QueueMark::Append,
        ),
        Err(_) => stay(RingAction::Push(when_full, value)),
    }
}

fn push_put<T: Drop, C: Cells<T>>(
    shape: Shape,
    when_full: WhenFull,
    value: T,
    tail: u64,
    cells: &mut C,
) -> Stepped<RingAction<T>, T>
    requires ready { Ready C.may (ring_moves shape.cap shape.mark (RingAction.PushPut when_full value tail)) cells.old }
    ensures answers { RingFollows shape.cap (RingAction.PushPut when_full value tail) result }
    ensures deed { RingMakes shape.cap shape.mark C.did cells.old (RingAction.PushPut when_full value tail) cells.new result }
{
    // Put before the stamp is stored: a pop takes the message as soon as it finds that stamp.
    match cells.put(Slot::At(shape.index(tail)), value) {
        Ok(()) => stay(RingAction::PushStore(when_full, tail)),
        Err(value) => stay(RingAction::PushPut(when_full, value, tail)),
    }
}

fn push_store<T: Drop, C: Cells<T>>(
    shape: Shape,
    when_full: WhenFull,
    tail: u64,
    cells: &mut C,
) -> Stepped<RingAction<T>, T>
    requires ready { Ready C.may (ring_moves shape.cap shape.mark (RingAction.PushStore when_full tail)) cells.old }
    ensures answers { RingFollows shape.cap (RingAction.PushStore when_full tail) result }
    ensures deed { RingMakes shape.cap shape.mark C.did cells.old (RingAction.PushStore when_full tail) cells.new result }
{
    // Last: this publishes the message to pops. A store suffices, since until here only the call that won the position writes this stamp.
    cells.store(shape.stamp(tail), tail.wrapping_add(1));
    finish(accepted(when_full))
}

/// The queue is full if the message of the lap before is still the oldest.
fn push_head<T: Drop, C: Cells<T>>(value: T, head: u64, cells: &mut C) -> Stepped<RingAction<T>, T>
    requires ready { (x : ℕ) → C.may (loaded Word.Head x) cells.old }
    ensures answers { (cap : ℕ) → RingFollows cap (RingAction.PushHead value head) result }
    ensures deed { (cap m : ℕ) → RingMakes cap m C.did cells.old (RingAction.PushHead value head) cells.new result }
{
    // The head never moves back. If it is still here, the queue is full now, and was full and open when the tail was loaded.
    // If not, another call has won the old message and the slot becomes free: `Full` would be false, so the push tries again.
    if cells.load(Word::Head) == head {
        finish(QueueReply::Push(Err(PushError::Full(value))))
    } else {
        stay(RingAction::Push(WhenFull::Refuse, value))
    }
}

/// Displaces the oldest message of a full queue. Its slot then waits for the new one, since no other push takes the position at the tail
/// while the stamp is of the lap before.
fn force_head<T: Drop, C: Cells<T>>(
    shape: Shape,
    value: T,
    head: u64,
    cells: &mut C,
) -> Stepped<RingAction<T>, T>
    requires ready { Ready C.may (ring_moves shape.cap shape.mark (RingAction.ForceHead value head)) cells.old }
    ensures answers { RingFollows shape.cap (RingAction.ForceHead value head) result }
    ensures deed { RingMakes shape.cap shape.mark C.did cells.old (RingAction.ForceHead value head) cells.new result }
{
    // An exchange: if a pop or another displacing push has won this message there may be room, and the call starts again.
    match cells.compare_exchange(Word::Head, head, shape.next(head)) {
        Ok(_) => did(RingAction::ForceAdd(value, head), QueueMark::TakeDisplaced),
        Err(_) => stay(RingAction::Push(WhenFull::Displace, value)),
    }
}

/// Moves the tail on. Adding keeps the closed mark, where a store could reopen a closed queue.
fn force_add<T: Drop, C: Cells<T>>(
    shape: Shape,
    value: T,
    head: u64,
    cells: &mut C,
) -> Stepped<RingAction<T>, T>
    requires ready { Ready C.may (ring_moves shape.cap shape.mark (RingAction.ForceAdd value head)) cells.old }
    ensures answers { RingFollows shape.cap (RingAction.ForceAdd value head) result }
    ensures deed { RingMakes shape.cap shape.mark C.did cells.old (RingAction.ForceAdd value head) cells.new result }
{
    // Commit. An exchange could fail after a close, when the old message is already won.
    cells.fetch_add(Word::Tail, shape.stride(head));
    did(RingAction::ForceTake(value, head), QueueMark::Append)
}

fn force_take<T: Drop, C: Cells<T>>(
    shape: Shape,
    value: T,
    head: u64,
    cells: &mut C,
) -> Stepped<RingAction<T>, T>
    requires ready { Ready C.may (ring_moves shape.cap shape.mark (RingAction.ForceTake value head)) cells.old }
    ensures answers { RingFollows shape.cap (RingAction.ForceTake value head) result }
    ensures deed { RingMakes shape.cap shape.mark C.did cells.old (RingAction.ForceTake value head) cells.new result }
{
    // Until this call stores the stamp, every other push and pop at this slot tries again.
    match cells.take(Slot::At(shape.index(head))) {
        Some(old) => stay(RingAction::ForcePut(value, head, old)),
        None => stay(RingAction::ForceTake(value, head)),
    }
}

fn force_put<T: Drop, C: Cells<T>>(
    shape: Shape,
    value: T,
    head: u64,
    old: T,
    cells: &mut C,
) -> Stepped<RingAction<T>, T>
    requires ready { Ready C.may (ring_moves shape.cap shape.mark (RingAction.ForcePut value head old)) cells.old }
    ensures answers { RingFollows shape.cap (RingAction.ForcePut value head old) result }
    ensures deed { RingMakes shape.cap shape.mark C.did cells.old (RingAction.ForcePut value head old) cells.new result }
{
    // After the old message is out, and before the stamp lets a pop in.
    match cells.put(Slot::At(shape.index(head)), value) {
        Ok(()) => stay(RingAction::ForceStore(head, old)),
        Err(value) => stay(RingAction::ForcePut(value, head, old)),
    }
}

fn force_store<T: Drop, C: Cells<T>>(
    shape: Shape,
    head: u64,
    old: T,
    cells: &mut C,
) -> Stepped<RingAction<T>, T>
    requires ready { Ready C.may (ring_moves shape.cap shape.mark (RingAction.ForceStore head old)) cells.old }
    ensures answers { RingFollows shape.cap (RingAction.ForceStore head old) result }
    ensures deed { RingMakes shape.cap shape.mark C.did cells.old (RingAction.ForceStore head old) cells.new result }
{
    // Last: the stamp of the new message, one lap on. A pop that has reached this position has been waiting for it.
    cells.store(shape.stamp(head), head.wrapping_add(shape.lap() + 1));
    finish(QueueReply::Force(Ok(Some(old))))
}

/// The stamp says whether the message at the head is in, or the slot is still free for it.
fn pop_look<T: Drop, C: Cells<T>>(
    shape: Shape,
    head: u64,
    cells: &mut C,
) -> Stepped<RingAction<T>, T>
    requires ready { Ready C.may (ring_moves shape.cap shape.mark (RingAction.PopStamp head)) cells.old }
    ensures answers { RingFollows shape.cap (RingAction.PopStamp head) result }
    ensures deed { RingMakes shape.cap shape.mark C.did cells.old (RingAction.PopStamp head) cells.new result }
{
    // Load the stamp after the head. A stamp that announces the message can't change until a call moves the head from here.
    let stamp = cells.load(shape.stamp(head));
    if stamp == head.wrapping_add(1) {
        stay(RingAction::PopSwap(head))
    } else if stamp == head {
        // The slot is free: the queue is empty, or a push has won the position and not stored its stamp. The tail tells which.
        stay(RingAction::PopTail(head))
    } else {
        // The last call at this slot hasn't stored its stamp yet, or the head has moved on. Start again.
        stay(RingAction::Pop)
    }
}

fn pop_swap<T: Drop, C: Cells<T>>(
    shape: Shape,
    head: u64,
    cells: &mut C,
) -> Stepped<RingAction<T>, T>
    requires ready { Ready C.may (ring_moves shape.cap shape.mark (RingAction.PopSwap head)) cells.old }
    ensures answers { RingFollows shape.cap (RingAction.PopSwap head) result }
    ensures deed { RingMakes shape.cap shape.mark C.did cells.old (RingAction.PopSwap head) cells.new result }
{
    // Commit. An exchange, since another pop or a displacing push may have won this message.
    match cells.compare_exchange(Word::Head, head, shape.next(head)) {
        Ok(_) => did(RingAction::PopTake(head), QueueMark::Take),
        Err(_) => stay(RingAction::Pop),
    }
}

/// The queue is empty only if the tail is at the head too. While a displacing push is under way the stamp is of the lap before, so a pop
/// does not come here.
fn pop_tail<T: Drop, C: Cells<T>>(
    shape: Shape,
    head: u64,
    cells: &mut C,
) -> Stepped<RingAction<T>, T>
    requires ready { Ready C.may (ring_moves shape.cap shape.mark (RingAction.PopTail head)) cells.old }
    ensures answers { RingFollows shape.cap (RingAction.PopTail head) result }
    ensures deed { RingMakes shape.cap shape.mark C.did cells.old (RingAction.PopTail head) cells.new result }
{
    // Load the tail after the head. In the other order a push and a pop in between could make them equal while there was a message
    // all the time, and `Empty` would be false.
    let tail = cells.load(Word::Tail);
    if shape.unmarked(tail) != head {
        return stay(RingAction::Pop);
    }
    if shape.is_marked(tail) {
        finish(QueueReply::Pop(Err(PopError::Closed)))
    } else {
        finish(QueueReply::Pop(Err(PopError::Empty)))
    }
}

fn pop_take<T: Drop, C: Cells<T>>(
    shape: Shape,
    head: u64,
    cells: &mut C,
) -> Stepped<RingAction<T>, T>
    requires ready { Ready C.may (ring_moves shape.cap shape.mark (RingAction.PopTake head)) cells.old }
    ensures answers { RingFollows shape.cap (RingAction.PopTake head) result }
    ensures deed { RingMakes shape.cap shape.mark C.did cells.old (RingAction.PopTake head) cells.new result }
{
    // Take before the stamp is stored: the push of the next lap puts its message as soon as it finds that stamp.
    match cells.take(Slot::At(shape.index(head))) {
        Some(value) => stay(RingAction::PopStore(head, value)),
        None => stay(RingAction::PopTake(head)),
    }
}

fn pop_store<T: Drop, C: Cells<T>>(
    shape: Shape,
    head: u64,
    value: T,
    cells: &mut C,
) -> Stepped<RingAction<T>, T>
    requires ready { Ready C.may (ring_moves shape.cap shape.mark (RingAction.PopStore head value)) cells.old }
    ensures answers { RingFollows shape.cap (RingAction.PopStore head value) result }
    ensures deed { RingMakes shape.cap shape.mark C.did cells.old (RingAction.PopStore head value) cells.new result }
{
    // Last: this frees the slot for the next lap. A store suffices, since until here only the call that won the head writes this stamp.
    cells.store(shape.stamp(head), head.wrapping_add(shape.lap()));
    finish(QueueReply::Pop(Ok(value)))
}

fn close<T: Drop, C: Cells<T>>(shape: Shape, cells: &mut C) -> Stepped<RingAction<T>, T>
    requires ready { Ready C.may (ring_moves shape.cap shape.mark RingAction.Close) cells.old }
    ensures answers { RingFollows shape.cap RingAction.Close result }
    ensures deed { RingMakes shape.cap shape.mark C.did cells.old RingAction.Close cells.new result }
{
    // An `or` keeps the position, up to which pops go on. Pushes expect a tail without the mark, so from here on none gets in.
    // Of two closes only one finds the mark clear.
    let tail = cells.fetch_or(Word::Tail, shape.mark);
    if shape.is_marked(tail) {
        finish(QueueReply::Close(false))
    } else {
        closed_by(QueueReply::Close(true), QueueMark::Close)
    }
}

fn is_closed<T: Drop, C: Cells<T>>(shape: Shape, cells: &mut C) -> Stepped<RingAction<T>, T>
    requires ready { Ready C.may (ring_moves shape.cap shape.mark RingAction.IsClosed) cells.old }
    ensures answers { RingFollows shape.cap RingAction.IsClosed result }
    ensures deed { RingMakes shape.cap shape.mark C.did cells.old RingAction.IsClosed cells.new result }
{
    // One load decides: the mark is in the tail, and no step clears it.
    let tail = cells.load(Word::Tail);
    finish(QueueReply::Flag(shape.is_marked(tail)))
}

fn empty_look<T: Drop, C: Cells<T>>(
    shape: Shape,
    head: u64,
    cells: &mut C,
) -> Stepped<RingAction<T>, T>
    requires ready { Ready C.may (ring_moves shape.cap shape.mark (RingAction.IsEmptyTail head)) cells.old }
    ensures answers { RingFollows shape.cap (RingAction.IsEmptyTail head) result }
    ensures deed { RingMakes shape.cap shape.mark C.did cells.old (RingAction.IsEmptyTail head) cells.new result }
{
    // Load the tail after the head: if they are equal, the queue is empty at this load. In the other order a push and a pop in between
    // could make them equal.
    let tail = cells.load(Word::Tail);
    finish(QueueReply::Flag(shape.unmarked(tail) == head))
}

fn full_load<T: Drop, C: Cells<T>>(shape: Shape, cells: &mut C) -> Stepped<RingAction<T>, T>
    requires ready { Ready C.may (ring_moves shape.cap shape.mark RingAction.IsFull) cells.old }
    ensures answers { RingFollows shape.cap RingAction.IsFull result }
    ensures deed { RingMakes shape.cap shape.mark C.did cells.old RingAction.IsFull cells.new result }
{
    // Load the tail before the head: `full_look` says why.
    let tail = cells.load(Word::Tail);
    stay(RingAction::IsFullHead(shape.unmarked(tail)))
}

fn full_look<T: Drop, C: Cells<T>>(
    shape: Shape,
    tail: u64,
    cells: &mut C,
) -> Stepped<RingAction<T>, T>
    requires ready { Ready C.may (ring_moves shape.cap shape.mark (RingAction.IsFullHead tail)) cells.old }
    ensures answers { RingFollows shape.cap (RingAction.IsFullHead tail) result }
    ensures deed { RingMakes shape.cap shape.mark C.did cells.old (RingAction.IsFullHead tail) cells.new result }
{
    // Load the head after the tail: if it is one lap behind, the queue was full when the tail was loaded. In the other order a pop and
    // a push in between could make it look full.
    let head = cells.load(Word::Head);
    let lap = shape.lap();
    finish(QueueReply::Flag(lap <= tail && head == tail - lap))
}

fn len_load<T: Drop, C: Cells<T>>(shape: Shape, cells: &mut C) -> Stepped<RingAction<T>, T>
    requires ready { Ready C.may (ring_moves shape.cap shape.mark RingAction.Len) cells.old }
    ensures answers { RingFollows shape.cap RingAction.Len result }
    ensures deed { RingMakes shape.cap shape.mark C.did cells.old RingAction.Len cells.new result }
{
    // The first of two loads of the tail, with the head in between.
    let tail = cells.load(Word::Tail);
    stay(RingAction::LenHead(shape.unmarked(tail), shape.is_marked(tail)))
}

/// The difference of the two positions counts only if the tail stood still.
fn len_again<T: Drop, C: Cells<T>>(
    shape: Shape,
    tail: u64,
    marked: bool,
    head: u64,
    cells: &mut C,
) -> Stepped<RingAction<T>, T>
    requires ready { Ready C.may (ring_moves shape.cap shape.mark (RingAction.LenTail tail marked head)) cells.old }
    ensures answers { RingFollows shape.cap (RingAction.LenTail tail marked head) result }
    ensures deed { RingMakes shape.cap shape.mark C.did cells.old (RingAction.LenTail tail marked head) cells.new result }
{
    let word = if marked {
        tail.wrapping_add(shape.mark)
    } else {
        tail
    };
    // Positions never repeat, so an equal word means that the tail stood still: when the head was loaded, the queue held this many.
    if cells.load(Word::Tail) == word {
        let length = shape.count(tail).wrapping_sub(shape.count(head));
        finish(QueueReply::Count(length as usize))
    } else {
        stay(RingAction::Len)
    }
}

/// The first step of a call.
pub(crate) fn first<T>(ask: QueueAsk<T>) -> RingAction<T>
    ensures { result ≡ ring_start ask }
{
    match ask {
        QueueAsk::Push(value) => RingAction::Push(WhenFull::Refuse, value),
        QueueAsk::ForcePush(value) => RingAction::Push(WhenFull::Displace, value),
        QueueAsk::Pop => RingAction::Pop,
        QueueAsk::Close => RingAction::Close,
        QueueAsk::IsClosed => RingAction::IsClosed,
        QueueAsk::IsEmpty => RingAction::IsEmpty,
        QueueAsk::IsFull => RingAction::IsFull,
        QueueAsk::Len => RingAction::Len,
        QueueAsk::Capacity => RingAction::Capacity,
    }
}

/// The one step of the question how many messages it can hold, which touches no cell.
#[inline(always)]
pub(crate) fn capacity<T: Drop, S: Trace<T>>(most: usize, trace: &S) -> Stepped<RingAction<T>, T>
    ensures answers { RingFollows (cap_of most) RingAction.Capacity result }
    ensures deed { RingMakes (cap_of most) (ring_mark (cap_of most)) S.did trace.now RingAction.Capacity trace.now result }
{
    finish(QueueReply::Cap(Some(at_most_greatest(most) as usize)))
}

/// One step of a call, which is one operation on one cell.
pub(crate) fn step<T: Drop, C: Cells<T>>(
    action: RingAction<T>,
    cells: &mut C,
) -> Stepped<RingAction<T>, T>
    requires ready { Ready C.may (ring_moves (ring_cap (C.form_of cells.old)) (ring_mark (ring_cap (C.form_of cells.old))) action) cells.old }
    ensures answers { RingFollows (ring_cap (C.form_of cells.old)) action result }
    ensures deed { RingMakes (ring_cap (C.form_of cells.old)) (ring_mark (ring_cap (C.form_of cells.old))) C.did cells.old action cells.new result }
{
    let capacity = match cells.form() {
        QueueForm::Bounded(capacity) => capacity,
        QueueForm::Unbounded => 0,
    };
    step_ring(Shape::of(capacity), action, cells)
}

fn step_ring<T: Drop, C: Cells<T>>(
    shape: Shape,
    action: RingAction<T>,
    cells: &mut C,
) -> Stepped<RingAction<T>, T>
    requires ready { Ready C.may (ring_moves shape.cap shape.mark action) cells.old }
    ensures answers { RingFollows shape.cap action result }
    ensures deed { RingMakes shape.cap shape.mark C.did cells.old action cells.new result }
{
    match action {
        RingAction::Push(when_full, value) => push_load(shape, when_full, value, cells),
        RingAction::PushShut(when_full, value) => push_shut(shape, when_full, value, cells),
        RingAction::PushStamp(when_full, value, tail) => push_look(
            shape, when_full, value, tail, cells,
        ),
        RingAction::PushSwap(when_full, value, tail) => push_swap(
            shape, when_full, value, tail, cells,
        ),
        RingAction::PushPut(when_full, value, tail) => push_put(
            shape, when_full, value, tail, cells,
        ),
        RingAction::PushStore(when_full, tail) => push_store(shape, when_full, tail, cells),
        RingAction::PushHead(value, head) => push_head(value, head, cells),
        RingAction::ForceHead(value, head) => force_head(shape, value, head, cells),
        RingAction::ForceAdd(value, head) => force_add(shape, value, head, cells),
        RingAction::ForceTake(value, head) => force_take(shape, value, head, cells),
        RingAction::ForcePut(value, head, old) => force_put(shape, value, head, old, cells),
        RingAction::ForceStore(head, old) => force_store(shape, head, old, cells),
        // Load the head first: the next steps test the stamp of this position and exchange this word.
        RingAction::Pop => stay(RingAction::PopStamp(cells.load(Word::Head))),
        RingAction::PopStamp(head) => pop_look(shape, head, cells),
        RingAction::PopSwap(head) => pop_swap(shape, head, cells),
        RingAction::PopTail(head) => pop_tail(shape, head, cells),
        RingAction::PopTake(head) => pop_take(shape, head, cells),
        RingAction::PopStore(head, value) => pop_store(shape, head, value, cells),
        RingAction::Close => close(shape, cells),
        RingAction::IsClosed => is_closed(shape, cells),
        // Load the head before the tail: `empty_look` says why.
        RingAction::IsEmpty => stay(RingAction::IsEmptyTail(cells.load(Word::Head))),
        RingAction::IsEmptyTail(head) => empty_look(shape, head, cells),
        RingAction::IsFull => full_load(shape, cells),
        RingAction::IsFullHead(tail) => full_look(shape, tail, cells),
        RingAction::Len => len_load(shape, cells),
        // Load the head between two loads of the tail, which have to agree.
        RingAction::LenHead(tail, marked) => stay(RingAction::LenTail(
            tail,
            marked,
            cells.load(Word::Head),
        )),
        RingAction::LenTail(tail, marked, head) => len_again(shape, tail, marked, head, cells),
        RingAction::Capacity => finish(QueueReply::Cap(Some(shape.cap as usize))),
        RingAction::Finished => stay(RingAction::Finished),
    }
}
