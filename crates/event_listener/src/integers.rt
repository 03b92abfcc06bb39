//! Integers as notifications of the default kind.
ghost use Rattle.std.specs.Prelude.{◌≡◌, ◌^◌, ◌-◌, min};
ghost use Rattle.std.specs.Int.{saturate_unsigned, w64};

use crate::into_notification::IntoNotification;
use crate::notify::Notify;

// A plain notification for this many: none for a negative number, the greatest `usize` for one past it.
fn signed(count: i128) -> Notify
    ensures { result.count ≡ saturate_unsigned w64 count }
{
    let count = if count < 0 {
        0
    } else {
        usize::try_from(count).unwrap_or(usize::MAX)
    };
    Notify { count }
}

impl IntoNotification for u8 {
    type Tag = ();

    type Notify = Notify;

    ghost becomes = { λ n m. m.count ≡ n };

    fn into_notification(self) -> Notify {
        Notify {
            count: self as usize,
        }
    }
}

impl IntoNotification for u16 {
    type Tag = ();

    type Notify = Notify;

    ghost becomes = { λ n m. m.count ≡ n };

    fn into_notification(self) -> Notify {
        Notify {
            count: self as usize,
        }
    }
}

impl IntoNotification for u32 {
    type Tag = ();

    type Notify = Notify;

    ghost becomes = { λ n m. m.count ≡ n };

    fn into_notification(self) -> Notify {
        Notify {
            count: self as usize,
        }
    }
}

impl IntoNotification for u64 {
    type Tag = ();

    type Notify = Notify;

    ghost becomes = { λ n m. m.count ≡ n };

    fn into_notification(self) -> Notify {
        Notify {
            count: self as usize,
        }
    }
}

impl IntoNotification for usize {
    type Tag = ();

    type Notify = Notify;

    ghost becomes = { λ n m. m.count ≡ n };

    fn into_notification(self) -> Notify {
        Notify { count: self }
    }
}

impl IntoNotification for u128 {
    type Tag = ();

    type Notify = Notify;

    ghost becomes = { λ n m. m.count ≡ min n (2 ^ 64 - 1) };

    fn into_notification(self) -> Notify {
        Notify {
            count: usize::try_from(self).unwrap_or(usize::MAX),
        }
    }
}

impl IntoNotification for i8 {
    type Tag = ();

    type Notify = Notify;

    ghost becomes = { λ z m. m.count ≡ saturate_unsigned w64 z };

    fn into_notification(self) -> Notify {
        signed(i128::from(self))
    }
}

impl IntoNotification for i16 {
    type Tag = ();

    type Notify = Notify;

    ghost becomes = { λ z m. m.count ≡ saturate_unsigned w64 z };

    fn into_notification(self) -> Notify {
        signed(i128::from(self))
    }
}

impl IntoNotification for i32 {
    type Tag = ();

    type Notify = Notify;

    ghost becomes = { λ z m. m.count ≡ saturate_unsigned w64 z };

    fn into_notification(self) -> Notify {
        signed(i128::from(self))
    }
}

impl IntoNotification for i64 {
    type Tag = ();

    type Notify = Notify;

    ghost becomes = { λ z m. m.count ≡ saturate_unsigned w64 z };

    fn into_notification(self) -> Notify {
        signed(i128::from(self))
    }
}

impl IntoNotification for isize {
    type Tag = ();

    type Notify = Notify;

    ghost becomes = { λ z m. m.count ≡ saturate_unsigned w64 z };

    fn into_notification(self) -> Notify {
        signed(self as i128)
    }
}

impl IntoNotification for i128 {
    type Tag = ();

    type Notify = Notify;

    ghost becomes = { λ z m. m.count ≡ saturate_unsigned w64 z };

    fn into_notification(self) -> Notify {
        signed(self)
    }
}
