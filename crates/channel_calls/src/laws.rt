//! A law of the calls' machine, whatever the cells are: the contract of a function that does nothing.

ghost use Rattle.channel_calls.specs.Tracked.{CallsKeepWhatCellsAsk};

/// There are cells that require all that [`ChannelCells`](crate::cells::ChannelCells) lets them require: a call that may do just the next
/// operation of its machine, whatever it is answered, and does it, is then where its machine goes by the answer, at every stage of every
/// call. A party that is where a call begins may begin it. The next operation is unique: a call does it at one stage alone.
pub fn calls_keep_what_cells_ask<T, W>()
    ensures asked { CallsKeepWhatCellsAsk T W }
{}
