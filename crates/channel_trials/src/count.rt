//! A plain count of a channel: what it holds, as the marks of its calls say.

use crate::differs::Differs;
use channel_calls::mark::Mark;
use channel_calls::stage::Side;
use std::alloc::Global;

/// The messages that came, how many of them have left, whether it is closed, and how many strong handles live.
#[derive(Drop)]
pub struct Count {
    /// How many it can hold at most.
    pub capacity: Option<usize>,
    came: Vec<u64>,
    /// How many messages have left.
    pub gone: usize,
    /// How many messages were taken out to make room for one that is not in yet.
    pub on_way: usize,
    pub closed: bool,
    senders: usize,
    receivers: usize,
}

impl Count {
    /// Of an open and empty channel with one sender and one receiver.
    pub fn new(capacity: Option<usize>, alloc: Global) -> Self {
        Count {
            capacity,
            came: Vec::new(alloc),
            gone: 0,
            on_way: 0,
            closed: false,
            senders: 1,
            receivers: 1,
        }
    }

    /// How many messages are held.
    pub fn messages(&self) -> usize {
        self.came.len().saturating_sub(self.gone)
    }

    /// The oldest message that is held.
    pub fn oldest(&self) -> Option<u64> {
        self.came.get(self.gone).copied()
    }

    /// Whether this is the message that came at this place.
    pub fn came_as(&self, place: usize, message: u64) -> bool {
        self.came.get(place) == Some(&message)
    }

    /// How many more messages there is room for; as many as there can be where there is no bound.
    pub fn free_places(&self) -> usize {
        match self.capacity {
            Some(capacity) => capacity.saturating_sub(self.messages()),
            None => usize::MAX,
        }
    }

    /// How many strong handles of this kind live.
    pub fn handles(&self, side: Side) -> usize {
        match side {
            Side::Senders => self.senders,
            Side::Receivers => self.receivers,
        }
    }

    /// A message came to the back.
    fn append(&mut self, message: Option<u64>) -> Result<(), Differs> {
        let Some(message) = message else {
            return Err(Differs::Mark);
        };
        if self.free_places() == 0 {
            return Err(Differs::Mark);
        }
        match self.came.push(message) {
            Ok(()) => Ok(()),
            Err(_) => Err(Differs::NoMemory),
        }
    }

    /// The oldest message left.
    fn take(&mut self) -> Result<(), Differs> {
        if self.messages() == 0 {
            return Err(Differs::Mark);
        }
        self.gone = self.gone.saturating_add(1);
        Ok(())
    }

    /// The oldest message of a full channel left.
    fn take_displaced(&mut self) -> Result<(), Differs> {
        if self.free_places() > 0 || self.on_way > 0 {
            return Err(Differs::Mark);
        }
        self.take()
    }

    /// There is one handle of this kind more, beside another one, or one fewer.
    fn recount(&mut self, side: Side, more: bool) -> Result<(), Differs> {
        let before = self.handles(side);
        if before == 0 {
            return Err(Differs::Mark);
        }
        let after = if more {
            before.saturating_add(1)
        } else {
            before.saturating_sub(1)
        };
        match side {
            Side::Senders => self.senders = after,
            Side::Receivers => self.receivers = after,
        }
        Ok(())
    }

    /// A step made this mark, of a call that brings this message, and that had made room for it or not.
    pub fn apply(
        &mut self,
        mark: Mark,
        message: Option<u64>,
        made_room: bool,
    ) -> Result<(), Differs> {
        match mark {
            Mark::Nothing => Ok(()),
            Mark::Append if made_room => {
                self.on_way = self.on_way.saturating_sub(1);
                self.append(message)
            }
            Mark::Append if self.closed => Err(Differs::Mark),
            Mark::Append => self.append(message),
            Mark::Take => self.take(),
            Mark::TakeDisplaced => {
                self.take_displaced()?;
                self.on_way = 1;
                Ok(())
            }
            Mark::Replace => {
                self.take_displaced()?;
                self.append(message)
            }
            Mark::Close if self.closed => Err(Differs::Mark),
            Mark::Close => {
                self.closed = true;
                Ok(())
            }
            Mark::SenderUp => self.recount(Side::Senders, true),
            Mark::SenderDown => self.recount(Side::Senders, false),
            Mark::ReceiverUp => self.recount(Side::Receivers, true),
            Mark::ReceiverDown => self.recount(Side::Receivers, false),
        }
    }
}
