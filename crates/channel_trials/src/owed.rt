//! Who answers for what came.

use crate::book::Book;
use crate::under_way::Part;
use channel_calls::stage::WaitList;

/// What calls under way answer for.
#[derive(Clone, Copy)]
struct AtWork {
    /// How many send, and how many receive.
    sending: usize,
    receiving: usize,
    /// How many places they made free and have told no send of.
    untold: usize,
    /// Whether one of them closed the channel.
    has_closed: bool,
}

fn at_work(book: &Book) -> AtWork {
    let mut all = AtWork {
        sending: 0,
        receiving: 0,
        untold: 0,
        has_closed: false,
    };
    for call in &book.calls {
        match call.part() {
            Part::Sending => all.sending = all.sending.saturating_add(1),
            Part::Receiving => all.receiving = all.receiving.saturating_add(1),
            Part::Neither => {}
        }
        all.untold = all.untold.saturating_add(call.untold());
        all.has_closed = all.has_closed || call.has_closed();
    }
    all
}

/// Whether at most so many of these have nobody who answers for them: of those who wait on this line and were woken, each answers
/// for one, and the calls under way answer for so many. Where nobody sleeps, nobody has to.
fn are_answered_for(book: &Book, line: WaitList, number: usize, by_calls: usize) -> bool {
    let answering = book
        .waiting
        .number(Some(line), true)
        .saturating_add(by_calls);
    book.waiting.number(Some(line), false) == 0 || number <= answering
}

/// Whether each free place of an open channel beside a send that sleeps has a call under way that answers for it by these.
fn places_are_told(book: &Book, by_calls: usize) -> bool {
    let places = book.count.free_places();
    book.count.closed || are_answered_for(book, WaitList::Sends, places, by_calls)
}

/// Whether free places would be answered for if each call under way that sends or receives answered for one. A receive of several
/// that has taken more than one breaks that, until it tells the sends.
pub fn one_place_each_is_enough(book: &Book) -> bool {
    let at_work = at_work(book);
    places_are_told(book, at_work.sending.saturating_add(at_work.receiving))
}

/// Whether somebody answers for each message, each free place and a closing beside one who waits and was not woken: one who
/// was woken, or a call under way. Where no call is under way only those who were woken answer. A sending call answers for every
/// stream that sleeps beside a message, the call that closed for all who sleep beside a closing.
pub fn is_nothing_owed(book: &Book) -> bool {
    let at_work = at_work(book);
    let messages = book.count.messages();
    let busy = at_work.sending.saturating_add(at_work.receiving);
    let places = at_work.sending.saturating_add(at_work.untold);
    let streams = book.waiting.number(Some(WaitList::Streams), false) == 0;
    let closing = !book.count.closed || book.waiting.number(None, false) == 0;
    are_answered_for(book, WaitList::Receives, messages, busy)
        && places_are_told(book, places)
        && (streams || messages == 0 || at_work.sending > 0)
        && (closing || at_work.has_closed)
}
