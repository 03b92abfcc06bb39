//! Messages that one call takes one after another. The invariant of `Gathering`: there is room for all that may still be taken, so a
//! message that was taken is never lost for want of memory.

ghost use Rattle.std.specs.Prelude.{◌≡◌, []};

use std::alloc::Global;
use std::marker::Model;

/// Messages in order. Contracts see only the list, so two are equal whatever room they have.
#[derive(Debug, Drop)]
pub struct Messages<T> {
    items: Vec<T>,
}

impl<T> Model for Messages<T> {
    ghost use Rattle.std.specs.Prelude.{List};

    ghost Value = { List T };

    ghost view = { λ m. m.items.items };
}

impl<T> Messages<T> {
    /// These messages.
    pub fn new(items: Vec<T>) -> Messages<T>
        ensures { result ≡ items.items }
    {
        Messages { items }
    }

    /// The messages in order.
    pub fn as_slice(&self) -> &[T]
        ensures { result.now ≡ self.now }
    {
        self.items.as_slice()
    }
}

impl<T: PartialEq> PartialEq for Messages<T> {
    ghost use Rattle.std.specs.Cmp.Lexicographic.{pointwise, lists_per};

    ghost eq = { λ a b. pointwise T.eq a b };

    ghost laws = { lists_per T.laws };

    fn eq(&self, other: &Self) -> bool {
        self.items.as_slice() == other.items.as_slice()
    }
}

impl<T: Eq> Eq for Messages<T> {
    ghost use Rattle.std.specs.Cmp.Lexicographic.{lists_equiv};

    ghost laws = { lists_equiv T.Eq.laws };
}

/// How many messages a call takes at most, and where memory for them comes from. Contracts see the number.
#[derive(Drop)]
pub struct Limit {
    most: usize,
    alloc: Global,
}

impl Model for Limit {
    ghost use Rattle.std.specs.Prelude.{ℕ};

    ghost Value = { ℕ };

    ghost view = { λ l. l.most };
}

/// Messages that were taken, with room for all that still may be. Pushing one takes no memory.
#[derive(Drop)]
pub struct Gathering<T> {
    items: Vec<T>,
    more: usize,
}

impl<T> Model for Gathering<T> {
    ghost use Rattle.std.specs.Prelude.{◌+◌, ◌<◌, vec_len};
    ghost use Rattle.std.specs.Vec.{vec_capacity};
    ghost use Rattle.channel_calls.specs.Several.{Gathered};

    ghost Value = { Gathered T };

    ghost view = { λ g. record { taken = g.items.items; more = g.more } };

    ghost invariant = { λ g. vec_len g.items + g.more < vec_capacity g.items };
}

impl Limit {
    ghost use Rattle.std.specs.Prelude.{◌==◌, ◌<◌, ◌-◌, IfSome};
    ghost use Rattle.channel_calls.specs.Several.{gathering};

    /// At most this many.
    pub fn new(most: usize, alloc: Global) -> Limit
        ensures { result ≡ most }
    {
        Limit { most, alloc }
    }

    /// Whether no message is wanted.
    pub(crate) fn is_zero(&self) -> bool
        ensures { result ≡ (self.now == 0) }
    {
        self.most == 0
    }

    /// No messages, and no memory.
    pub(crate) fn nothing<T>(self) -> Messages<T>
        ensures { result ≡ [] }
    {
        Messages {
            items: Vec::new(self.alloc),
        }
    }

    /// Room for all that may be taken. `None` if there is no memory for it.
    pub(crate) fn room<T: Drop>(self) -> Option<Gathering<T>>
        requires { 0 < self }
        ensures { IfSome result (λ g. g ≡ gathering (self - 1)) }
    {
        let Ok(items) = Vec::with_capacity(self.alloc, self.most) else {
            return None;
        };
        Some(Gathering {
            items,
            more: self.most - 1,
        })
    }
}

impl<T: Drop> Gathering<T> {
    ghost use Rattle.std.specs.Prelude.{◌==◌, length};
    ghost use Rattle.channel_calls.specs.Several.{with_one};

    /// Whether nothing was taken yet.
    pub(crate) fn is_empty(&self) -> bool
        ensures { result ≡ (length self.now.taken == 0) }
    {
        self.items.is_empty()
    }

    /// One message more. `Err` has the whole if no more is wanted.
    pub(crate) fn with(self, message: T) -> Result<Gathering<T>, Messages<T>>
        ensures { result ≡ with_one self message }
    {
        let Gathering { mut items, more } = self;
        items.push_reserved(message);
        if more == 0 {
            return Err(Messages { items });
        }
        Ok(Gathering {
            items,
            more: more - 1,
        })
    }

    /// What was taken.
    pub(crate) fn into_messages(self) -> Messages<T>
        ensures { result ≡ self.taken }
    {
        Messages { items: self.items }
    }
}
