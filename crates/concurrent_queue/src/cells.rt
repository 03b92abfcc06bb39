//! The words and slots that the steps of a queue work on. The trait [`Cells`] is the only way in which the machines of `single`, `bounded`
//! and `unbounded` touch memory: one atomic operation on one word or slot at a time.

ghost use Rattle.std.specs.Prelude.{◌≡◌, IfErr};
ghost use Rattle.concurrent_queue.specs.Deeds.{Deed, loaded, stored, exchanged, added, bits_set, bits_kept, did_put, did_take, spared, retired};
ghost use Rattle.concurrent_queue.specs.Contents.{Contents};
ghost use Rattle.concurrent_queue.specs.Effects.{Does};

use crate::error::NoMemory;
use std::thread;

/// Which kind of queue the cells are of.
#[derive(Clone, Copy, PartialEq, Eq, Debug)]
pub enum QueueForm {
    /// At most this many messages.
    Bounded(usize),
    /// As many messages as there is memory for.
    Unbounded,
}

/// The name of a word. Blocks go by their numbers, from 0 in the order in which they were made.
#[derive(Clone, Copy)]
pub enum Word {
    /// The three bits of a queue of one slot.
    State,
    /// The position of the oldest message.
    Head,
    /// The position of the next message to come.
    Tail,
    /// The stamp of a ring's place.
    Stamp(u64),
    /// The block at the head, by its number plus 1, or 0.
    HeadBlock,
    /// The block at the tail, by its number plus 1, or 0.
    TailBlock,
    /// The block after this one, by its number plus 1, or 0.
    Next(u64),
    /// How many messages of this block were read.
    Reads(u64),
    /// Whether the message of this block at this offset is written.
    Written(u64, u64),
}

/// The name of a slot, which holds one message or none.
#[derive(Clone, Copy)]
pub enum Slot {
    /// The slot of a ring's place, or with 0 the only slot.
    At(u64),
    /// The slot of this block at this offset.
    In(u64, u64),
}

/// The cells of one queue. Each call is one atomic operation on one word or slot, or one critical section of the spare list with the block
/// that enters or leaves it. A word that does not exist reads 0 and stays so; a slot that does not exist holds nothing and takes nothing.
///
/// All atomic operations are sequentially consistent: the operations of all threads have one total order. The comments in the machines,
/// such as "load the head before the tail", rely on that order.
///
/// The contract of a method says which operation was done, with its answer, and nothing else. What it did to the contents follows by the
/// law `exact`. Over shared cells nobody can know the contents, and then `known` is false.
///
/// Each method requires that the operation may be made, whatever it is answered. A caller that makes the steps of a call has this from the
/// state of the call, by the laws `ready` and `leads`. Cells of one owner allow every operation.
pub trait Cells<T> {
    ghost use Rattle.concurrent_queue.specs.declared.cells.QueueForm.{QueueForm};

    /// Whether it is known what the cells hold.
    ghost known: { Type 0 };

    /// What the cells hold.
    ghost contents: { Self → Contents T };

    /// Which kind of queue they are of.
    ghost form_of: { Self → QueueForm };

    /// Whether this operation, with this answer, was done between the two. Every method states it, also over unknown contents; any relation
    /// that keeps the laws below may stand here.
    ghost did: { Deed T → Self → Self → Type 0 };

    ghost use Rattle.std.specs.Prelude.{ℕ, Result, Option};
    ghost use Rattle.concurrent_queue.specs.Stands.{MayGoOn, GoesOn};
    ghost use Rattle.concurrent_queue.specs.declared.queue_call.CallState.{CallState};
    ghost use Rattle.concurrent_queue.specs.declared.error.NoMemory.{NoMemory};

    /// Whether this operation may be made and be answered so. Cells of one owner allow any.
    ghost may: { Deed T → Self → Type 0 };

    /// Whether the call whose cells these are is at this action of its machine. Where any operation is allowed, every call is.
    ghost stands: { CallState T → Self → Type 0 };

    /// Which kind of queue it is; no operation changes that.
    fn form(&self) -> QueueForm
        ensures form { result ≡ form_of self.now };

    /// What the word holds.
    fn load(&mut self, at: Word) -> u64
        requires may { (x : ℕ) → may (loaded at x) self.old }
        ensures deed { did (loaded at result) self.old self.new }
        ensures form { form_of self.new ≡ form_of self.old };

    /// Writes the word.
    fn store(&mut self, at: Word, value: u64)
        requires may { may (stored at value) self.old }
        ensures deed { did (stored at value) self.old self.new }
        ensures form { form_of self.new ≡ form_of self.old };

    /// Writes `next` if the word holds `expected`; otherwise `Err` with what it holds.
    fn compare_exchange(&mut self, at: Word, expected: u64, next: u64) -> Result<u64, u64>
        requires may { (o : Result ℕ ℕ) → may (exchanged at expected next o) self.old }
        ensures deed { did (exchanged at expected next result) self.old self.new }
        ensures form { form_of self.new ≡ form_of self.old };

    /// Adds to the word, and answers what it held. The sum wraps at 2^64.
    fn fetch_add(&mut self, at: Word, by: u64) -> u64
        requires may { (o : ℕ) → may (added at by o) self.old }
        ensures deed { did (added at by result) self.old self.new }
        ensures form { form_of self.new ≡ form_of self.old };

    /// Sets these bits of the word, and answers what it held.
    fn fetch_or(&mut self, at: Word, bits: u64) -> u64
        requires may { (o : ℕ) → may (bits_set at bits o) self.old }
        ensures deed { did (bits_set at bits result) self.old self.new }
        ensures form { form_of self.new ≡ form_of self.old };

    /// Keeps these bits of the word and clears all others, and answers what it held.
    fn fetch_and(&mut self, at: Word, bits: u64) -> u64
        requires may { (o : ℕ) → may (bits_kept at bits o) self.old }
        ensures deed { did (bits_kept at bits result) self.old self.new }
        ensures form { form_of self.new ≡ form_of self.old };

    /// Fills an empty slot. `Err` returns the message: the slot is not empty, or another call holds it, so the call has to try again.
    fn put(&mut self, at: Slot, value: T) -> Result<(), T>
        requires may { (o : Result Unit T) → may (did_put at value o) self.old }
        ensures deed { did (did_put at value result) self.old self.new }
        ensures back { IfErr result (λ back. back ≡ value) }
        ensures form { form_of self.new ≡ form_of self.old };

    /// Empties a slot. `None`: the slot is empty, or another call holds it, so the call has to try again.
    fn take(&mut self, at: Slot) -> Option<T>
        requires may { (o : Option T) → may (did_take at o) self.old }
        ensures deed { did (did_take at result) self.old self.new }
        ensures form { form_of self.new ≡ form_of self.old };

    /// The number of a blank block: the spare one that was retired last, or a new one, which gets its place in the spare list when it is
    /// made. `Err`, with nothing changed, if no block is spare and there is no memory for a new one.
    fn spare(&mut self) -> Result<u64, NoMemory>
        requires may { (o : Result ℕ NoMemory) → may (spared o) self.old }
        ensures deed { did (spared result) self.old self.new }
        ensures form { form_of self.new ≡ form_of self.old };

    /// Blanks a block and puts its number on the spare list, which has a place for each block that was made. It takes no memory.
    fn retire(&mut self, block: u64)
        requires may { may (retired block) self.old }
        ensures deed { did (retired block) self.old self.new }
        ensures form { form_of self.new ≡ form_of self.old };

    /// Lets other threads run; called before a call repeats an action. It is no operation and touches no cell. Cells whose other calls run
    /// on no thread of their own run those here.
    fn give_way(&self) {
        thread::yield_now();
    }

    /// A call may make the next operation of its machine, whatever that is answered.
    ghost ready: { MayGoOn stands form_of may };

    /// Such an operation leads the call to where its machine goes by the answer.
    ghost leads: { GoesOn stands form_of did };

    /// No operation makes cells of one form into cells of another.
    ghost keeps_form: { (d : Deed T) (a b : Self) → did d a b → form_of b ≡ form_of a };

    /// What is known to be held is of the cells' form.
    ghost exact_form: { known → (a : Self) → (contents a).form ≡ form_of a };

    /// An operation does to what is known to be held just what it says.
    ghost exact: { known → (d : Deed T) (a b : Self) → did d a b → Does d (contents a) (contents b) };
}
