//! The weak handles of a channel, which don't keep it open. They share the channel's memory and aren't counted.
//!
//! `try_clone` never waits; `upgrade` retries while other clones or upgrades come in between.

ghost use Rattle.channel_calls.specs.declared.stage.Side.TheVariants as side;
ghost use Rattle.async_channel.specs.Counts.{Upgrades};
ghost use Rattle.async_channel.specs.Called.{UpgradedSo};
ghost use Rattle.async_channel.specs.Watched.{WasSeen};

use crate::counted::Counted;
use crate::handles::receiver::Receiver;
use crate::handles::sender::Sender;
use crate::link::Link;
use crate::open::no_trace::NoTrace;
use crate::seen::Trace;
use channel_calls::error::HandleError;
use std::fmt;
use std::marker::Model;
use std::sync::Wait;

/// A sender that doesn't keep the channel open. Contracts see its channel. As `async-channel` 2.5.0.
#[derive(Drop)]
pub struct WeakSender<T: Drop, R: Wait + Copy, S: Trace<T> + Copy = NoTrace> {
    pub(crate) link: Link<T>,
    pub(crate) rt: R,
    pub(crate) watch: S,
}

impl<T: Drop, R: Wait + Copy, S: Trace<T> + Copy> Model for WeakSender<T, R, S> {
    ghost use Rattle.async_channel.specs.Handles.{Handle, handle_of};

    ghost Value = { Handle };

    ghost view = { λ h. handle_of h.link };
}

impl<T: Drop, R: Wait + Copy, S: Trace<T> + Copy> WeakSender<T, R, S> {
    ghost use Rattle.std.specs.Prelude.{◌≡◌, IfOk, IfErr, IfSome, MatchOption};
    ghost use Rattle.async_channel.specs.Handles.{handle_of};

    pub(crate) fn new(rt: R, watch: S, link: Link<T>) -> WeakSender<T, R, S>
        ensures { result ≡ handle_of link }
    {
        WeakSender { link, rt, watch }
    }

    /// A sender of this channel; `None` if the channel is closed or no sender lives.
    ///
    /// `Err`, with nothing changed, if more than half of `usize::MAX` senders live, or if there is no further shared reference. As
    /// `async-channel` 2.5.0, which ends the program then.
    pub fn upgrade(&self) -> Result<Option<Sender<T, R, S>>, HandleError>
        ensures walked { MatchOption self.now.table (WasSeen S.did S.shown S.entered self.now (λ saw. Upgrades saw side.Senders) result) (λ table. UpgradedSo S.called table side.Senders result) }
        ensures made { IfOk result (λ made. IfSome made (λ sender. sender ≡ self.now)) }
    {
        match Counted::upgraded(&self.link, &self.rt, self.watch) {
            Ok(Some(counted)) => Ok(Some(Sender::new(self.rt, self.watch, counted))),
            Ok(None) => Ok(None),
            Err(error) => Err(error),
        }
    }

    /// One more weak sender. It is never refused for too many handles. `Clone` of `async-channel` 2.5.0.
    pub fn try_clone(&self) -> Result<WeakSender<T, R, S>, HandleError>
        ensures channel { IfOk result (λ more. more ≡ self.now) }
        ensures reason { IfErr result (λ e. e ≡ HandleError.NoMemory) }
    {
        match self.link.try_clone() {
            Some(link) => Ok(WeakSender::new(self.rt, self.watch, link)),
            None => Err(HandleError::NoMemory),
        }
    }
}

impl<T: Drop, R: Wait + Copy, S: Trace<T> + Copy> fmt::Debug for WeakSender<T, R, S> {
    fn fmt<W: fmt::Write>(&self, f: &mut fmt::Formatter<W>) -> fmt::Result {
        write!(f, "WeakSender {{ .. }}")
    }
}

/// A receiver that doesn't keep the channel open. Contracts see its channel. As `async-channel` 2.5.0.
#[derive(Drop)]
pub struct WeakReceiver<T: Drop, R: Wait + Copy, S: Trace<T> + Copy = NoTrace> {
    pub(crate) link: Link<T>,
    pub(crate) rt: R,
    pub(crate) watch: S,
}

impl<T: Drop, R: Wait + Copy, S: Trace<T> + Copy> Model for WeakReceiver<T, R, S> {
    ghost use Rattle.async_channel.specs.Handles.{Handle, handle_of};

    ghost Value = { Handle };

    ghost view = { λ h. handle_of h.link };
}

impl<T: Drop, R: Wait + Copy, S: Trace<T> + Copy> WeakReceiver<T, R, S> {
    ghost use Rattle.std.specs.Prelude.{◌≡◌, IfOk, IfErr, IfSome, MatchOption};
    ghost use Rattle.async_channel.specs.Handles.{handle_of, new_receiving};

    pub(crate) fn new(rt: R, watch: S, link: Link<T>) -> WeakReceiver<T, R, S>
        ensures { result ≡ handle_of link }
    {
        WeakReceiver { link, rt, watch }
    }

    /// A receiver of this channel; `None` if the channel is closed or no receiver lives.
    ///
    /// `Err`, with nothing changed, if more than half of `usize::MAX` receivers live, or if there is no further shared reference. As
    /// `async-channel` 2.5.0, which ends the program then.
    pub fn upgrade(&self) -> Result<Option<Receiver<T, R, S>>, HandleError>
        ensures walked { MatchOption self.now.table (WasSeen S.did S.shown S.entered self.now (λ saw. Upgrades saw side.Receivers) result) (λ table. UpgradedSo S.called table side.Receivers result) }
        ensures made { IfOk result (λ made. IfSome made (λ receiver. receiver ≡ new_receiving self.now)) }
    {
        match Counted::upgraded(&self.link, &self.rt, self.watch) {
            Ok(Some(counted)) => Ok(Some(Receiver::new(self.rt, self.watch, counted))),
            Ok(None) => Ok(None),
            Err(error) => Err(error),
        }
    }

    /// One more weak receiver. It is never refused for too many handles. `Clone` of `async-channel` 2.5.0.
    pub fn try_clone(&self) -> Result<WeakReceiver<T, R, S>, HandleError>
        ensures channel { IfOk result (λ more. more ≡ self.now) }
        ensures reason { IfErr result (λ e. e ≡ HandleError.NoMemory) }
    {
        match self.link.try_clone() {
            Some(link) => Ok(WeakReceiver::new(self.rt, self.watch, link)),
            None => Err(HandleError::NoMemory),
        }
    }
}

impl<T: Drop, R: Wait + Copy, S: Trace<T> + Copy> fmt::Debug for WeakReceiver<T, R, S> {
    fn fmt<W: fmt::Write>(&self, f: &mut fmt::Formatter<W>) -> fmt::Result {
        write!(f, "WeakReceiver {{ .. }}")
    }
}
