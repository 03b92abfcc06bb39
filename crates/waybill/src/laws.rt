//! Laws of numbered messages, for clients whose senders number what they send.

ghost use Rattle.std.specs.Prelude.{◌≡◌, ℕ, List, [], take, length};
ghost use Rattle.waybill.specs.Accounts.{IsPartOf};
ghost use Rattle.waybill.specs.Order.{numbered, all_numbered, of_sender, values, IsRising, IsGapless, IsInOrderOf, AreBeginnings, AreInOrder};
ghost use Rattle.waybill.specs.declared.numbered.Numbered.{Numbered};

/// What a receiver got of a sender is in that sender's order, if the places rise and all of it was sent.
pub fn messages_come_in_order<T>()
    ensures { (s : ℕ) (sent got : List (Numbered T)) (mine : List T) → IsPartOf got sent → of_sender s sent ≡ numbered s 0 mine → IsRising got → IsInOrderOf (values (of_sender s got)) mine }
{}

/// What a receiver got of a sender is a prefix of what that one sent, if no place is left out and all of it was sent.
pub fn the_first_messages_come_first<T>()
    ensures { (s : ℕ) (sent got : List (Numbered T)) (mine : List T) → IsPartOf got sent → of_sender s sent ≡ numbered s 0 mine → IsGapless got → values (of_sender s got) ≡ take (length (of_sender s got)) mine }
{}

/// Of each of several senders: what one receiver of several got is in that sender's order.
pub fn all_come_in_order<T>()
    ensures { (sent got : List (Numbered T)) (all : List (List T)) → IsPartOf got sent → sent ≡ all_numbered 0 all → IsRising got → AreInOrder got all }
{}

/// Of each of several senders: what the only receiver got is a prefix of what that sender sent.
pub fn all_begin<T>()
    ensures { (sent got : List (Numbered T)) (all : List (List T)) → IsPartOf got sent → sent ≡ all_numbered 0 all → IsGapless got → AreBeginnings got all }
{}
