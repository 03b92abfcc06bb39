//! A sender's side that numbers what it sends. The invariant: the pass has sent the messages with the numbers below the next one, in order,
//! and received none.

ghost use Rattle.std.specs.Prelude.{◌≡◌, [], length, IfOk, IfErr};
ghost use Rattle.waybill.specs.Accounts.{fresh, account};
ghost use Rattle.waybill.specs.Order.{message, numbered, values};
ghost use Rattle.waybill.specs.Sides.{Sends, sends, with_packed, AreNumbersUsedUp};

use crate::line::Line;
use crate::numbered::{Numbered, NumbersUsedUp};
use crate::rule::Room;
use crate::tokens::{Office, Parcel, Pass};
use std::marker::Model;

/// One sender, which numbers its messages from 0. Contracts see its number and what it sent.
#[derive(Drop)]
pub struct Source<T, B: Room> {
    pass: Pass<Numbered<T>, B>,
    sender: u32,
    next: u64,
}

impl<T, B: Room> Model for Source<T, B> {
    ghost Value = { Sends T };

    ghost view = { λ s. sends s.sender (values s.pass.sent) };

    ghost invariant = { λ s. (s.pass ≡ account 1 (numbered s.sender 0 (values s.pass.sent)) [] []) × (s.next ≡ length (values s.pass.sent)) };
}

impl<T, B: Room> Source<T, B> {
    /// A sender by this number that has sent nothing, with a new pass.
    pub fn new(pass: Pass<Numbered<T>, B>, sender: u32) -> Source<T, B>
        requires { pass ≡ fresh 1 }
        ensures { result ≡ sends sender [] }
    {
        Source {
            pass,
            sender,
            next: 0,
        }
    }

    /// A message that may be sent, with its number. `Err` returns the message once the last number was given, after 2^64 - 1 messages.
    #[inline(always)]
    pub fn pack(
        &mut self,
        office: &Office<Numbered<T>, B>,
        value: T,
    ) -> Result<Parcel<Numbered<T>, B>, NumbersUsedUp<T>>
        ensures parcel { IfOk result (λ p. p ≡ message self.old.sender (length self.old.sent) value) }
        ensures sent { IfOk result (λ p. self.new ≡ with_packed self.old value) }
        ensures back { IfErr result (λ e. e.value ≡ value) }
        ensures same { IfErr result (λ e. self.new ≡ self.old) }
        ensures refused { IfErr result (λ e. AreNumbersUsedUp self.old) }
    {
        if self.next == u64::MAX {
            return Err(NumbersUsedUp { value });
        }
        let number = self.next;
        self.next += 1;
        Ok(office.pack(
            &mut self.pass,
            Numbered {
                sender: self.sender,
                number,
                value,
            },
        ))
    }

    /// Puts each of these into a line, with its number; the pass knows what was sent. As many numbers as a slice is long there are. It
    /// waits where the line does.
    pub fn send_all<L: Line<Parcel<Numbered<T>, B>>>(
        self,
        office: &Office<Numbered<T>, B>,
        line: &L,
        all: &[T],
    ) -> Pass<Numbered<T>, B>
    where
        T: Copy,
        requires { self.sent ≡ [] }
        ensures { result ≡ account 1 (numbered self.sender 0 all.now) [] [] }
    {
        let mut source = self;
        for next in 0..all.len() {
            match source.pack(office, all[next]) {
                Ok(parcel) => line.put(parcel),
                Err(_) => unreachable!(),
            }
        }
        source.into_pass()
    }

    /// The pass, which knows what was sent.
    pub fn into_pass(self) -> Pass<Numbered<T>, B>
        ensures { result ≡ account 1 (numbered self.sender 0 self.sent) [] [] }
    {
        self.pass
    }
}
