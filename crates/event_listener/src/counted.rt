//! What is behind the lock of a recorded event: a recording, and the book that counts its entries. The invariant: the book's total is the
//! number of entries.
ghost use Rattle.std.specs.Prelude.{◌≡◌, nat_lt};
ghost use Rattle.event_listener.specs.Lists.{told_by};

use crate::calls::Registered;
use crate::error::{ListenError, NoMemory, NotifyError, UnknownListener};
use crate::key::Key;
use crate::list::List;
use crate::notify::Notification;
use crate::recorded::{RecordedCall, RegisterError};
use crate::recording::Recording;
use crate::records::Records;
use crate::wakes::Wakes;
use std::alloc::Global;
use std::marker::Model;
use std::sync::ledger::{Book, Ledger, Share};

/// A recording with a book, whose total is the number of its entries.
///
/// A caller's share rises by one with each entry that it adds, so all shares together count the entries of the record.
#[derive(Drop)]
pub struct Counted<T: Copy, W: Copy, L: Ledger> {
    recording: Recording<T, W>,
    book: Book<L>,
}

impl<T: Copy, W: Copy, L: Ledger> Model for Counted<T, W, L> {
    ghost use Rattle.std.specs.Prelude.{◌≡◌, length};
    ghost use Rattle.event_listener.specs.Replay.{RecordView};

    ghost Value = { RecordView T W };

    ghost view = { λ c. c.recording };

    ghost invariant = { λ c. c.book.total ≡ length c.recording.calls };
}

impl<T: Copy, W: Copy, L: Ledger> Counted<T, W, L> {
    pub(crate) fn new(alloc: Global, book: Book<L>) -> Self
        requires { book.total ≡ 0 }
    {
        Counted {
            recording: Recording::new(alloc),
            book,
        }
    }
}

impl<T: Copy, W: Copy, L: Ledger> Records<T, W, L> for Counted<T, W, L> {
    ghost use Rattle.event_listener.specs.Recorded.{Stores, ComesApart};

    ghost did = { Stores };

    ghost parted = { ComesApart };

    fn insert(&mut self, mine: &mut Share<L>) -> Result<Key, ListenError> {
        match self.recording.insert() {
            Ok(key) => {
                self.book.add(mine, 1);
                Ok(key)
            }
            Err(error) => Err(error),
        }
    }

    fn register(
        &mut self,
        mine: &mut Share<L>,
        key: Key,
        task: W,
    ) -> Result<Registered<T>, RegisterError> {
        match self.recording.register(key, task) {
            Ok(registered) => {
                self.book.add(mine, 1);
                Ok(registered)
            }
            Err(error) => Err(error),
        }
    }

    fn poll(&mut self, mine: &mut Share<L>, key: Key) -> Result<Option<T>, UnknownListener> {
        match self.recording.poll(key) {
            Ok(Some(tag)) => {
                self.book.add(mine, 1);
                Ok(Some(tag))
            }
            Ok(None) => Ok(None),
            Err(error) => Err(error),
        }
    }

    fn remove<S: Wakes<W>>(
        &mut self,
        mine: &mut Share<L>,
        key: Key,
        pass_on: bool,
        sink: &mut S,
    ) -> Result<bool, UnknownListener> {
        match self.recording.remove(key, pass_on, sink) {
            Ok(told) => {
                self.book.add(mine, 1);
                Ok(told)
            }
            Err(error) => Err(error),
        }
    }

    fn notify<N: Notification<Tag = T> + Drop, S: Wakes<W>>(
        &mut self,
        alloc: Global,
        mine: &mut Share<L>,
        notice: N,
        sink: &mut S,
    ) -> Result<usize, NotifyError> {
        let answer = self.recording.notify(alloc, notice, sink);
        if told_somebody(&answer) {
            self.book.add(mine, 1);
        }
        answer
    }

    fn reserve(&mut self, extra: usize) -> Result<(), NoMemory> {
        self.recording.reserve(extra)
    }

    fn total(&self) -> usize {
        self.recording.total()
    }

    fn told(&self) -> usize {
        self.recording.told()
    }

    fn into_parts(self) -> (List<T, W>, Vec<RecordedCall<T, W>>, Book<L>) {
        let Counted { recording, book } = self;
        let (list, calls) = recording.into_parts();
        (list, calls, book)
    }
}

// Whether a notification told anybody, also if it was refused after that.
fn told_somebody(answer: &Result<usize, NotifyError>) -> bool
    ensures { result ≡ nat_lt 0 (told_by answer.now) }
{
    match answer {
        Ok(told) => *told > 0,
        Err(NotifyError { told }) => *told > 0,
    }
}
