//! Two laws of every record. Each is the contract of a function that does nothing, over what `Record::entries` says of every record.

ghost use Rattle.channel_world.specs.RecordLaws.{RecordLosesNothing, RecordLeavesNobody};

/// What was received or displaced, followed by what is held at the record's end, is what was accepted, in order: for every message type and
/// every record. So between threads, too, no message is lost, doubled or reordered.
pub fn a_record_loses_nothing<T>()
    ensures in_order { RecordLosesNothing T }
{}

/// At a record's end nobody stays pending and unwoken beside what lets them go on: beside an unwoken receive there are no more messages
/// than woken pending receives; beside an unwoken send, while the channel is open, no more free places than woken pending sends; beside an
/// unwoken stream no message; and everyone that is unwoken waits on an open channel.
pub fn a_record_leaves_nobody_asleep<T>()
    ensures awake { RecordLeavesNobody T }
{}
