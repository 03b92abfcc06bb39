//! A strong handle's share of its channel's count. The invariant: a `Counted` exists for each handle that the count has, so what a clone or
//! an upgrade raised, only the drop of the handle lowers.

mod questions;

ghost use Rattle.std.specs.Prelude.{◌≡◌, IfOk, IfErr, IfSome, MatchOption};
ghost use Rattle.channel_calls.specs.declared.stage.Side.TheVariants as side;
ghost use Rattle.async_channel.specs.Called.{ClonedSo, UpgradedSo};
ghost use Rattle.async_channel.specs.Counts.{Clones, Upgrades};
ghost use Rattle.async_channel.specs.Handles.{handle_of};
ghost use Rattle.async_channel.specs.Parties.{IsHandleOf, IsPartyOf};
ghost use Rattle.async_channel.specs.Watched.{WasSeen};

use crate::calls::counts;
use crate::link::Link;
use crate::polls::line::OfStreams;
use crate::polls::waits::Waits;
use crate::seen::{self, Seen, Trace};
use crate::with_bound::Witness;
use channel_calls::error::HandleError;
use channel_calls::kind::{Kind, OfReceivers, OfSenders};
use channel_calls::raised::Raised;
use event_listener::waking::WakeNow;
use kept::Kept;
use std::sync::{Arc, Wait};

/// A shared reference to a channel, with what the channel counts for one handle of this kind. On a channel with a bound the handle is a
/// party of its own, and its seat says that the handle is counted.
///
/// It can't be dropped: it becomes a handle, or is passed to `lower`. Nor can it be made of a reference alone, or be taken apart other than
/// by `lower`: the step that counts returns the [`Raised`], and the one that lowers the count takes it.
pub(crate) struct Counted<T: Drop, K: Kind> {
    pub(crate) link: Link<T>,
    raised: Raised<K>,
    seat: Option<Kept<Witness<T>>>,
    ghost handle: { IsHandleOf K.side (handle_of link).table seat },
}

impl<T: Drop, K: Kind> Counted<T, K> {
    /// The first handle of its kind, which a new channel counts already.
    pub(crate) fn first(
        link: Link<T>,
        raised: Raised<K>,
        seat: Option<Kept<Witness<T>>>,
    ) -> Counted<T, K>
        requires handle { IsHandleOf K.side (handle_of link).table seat }
        ensures { handle_of result.link ≡ handle_of link }
    {
        Counted { link, raised, seat }
    }

    /// One more handle of this kind. `Err` if more than half of `usize::MAX` live, or if there is no further shared reference.
    pub(crate) fn one_more<R: Wait, S: Trace<T> + Copy>(
        link: &Link<T>,
        rt: &R,
        watch: S,
    ) -> Result<Counted<T, K>, HandleError>
        ensures walked { MatchOption (handle_of link.now).table (WasSeen S.did S.shown S.entered (handle_of link.now) (λ saw. Clones saw K.side) result) (λ table. ClonedSo S.called table K.side result) }
        ensures made { IfOk result (λ more. handle_of more.link ≡ handle_of link.now) }
    {
        match link {
            Link::Bounded(channel) => {
                // The reference before the count: if it is refused, no count was raised, which no handle would lower.
                let Ok(tie) = Arc::try_clone(channel) else {
                    return Err(channel.no_memory(&watch));
                };
                match channel.clone_handle(rt, &watch) {
                    Ok((raised, seat)) => {
                        let link = Link::Bounded(tie);
                        let seat = Some(Kept::new(seat));
                        Ok(Counted { link, raised, seat })
                    }
                    Err(error) => Err(error),
                }
            }
            Link::Unbounded(shared) => {
                let seen = Seen::cells(shared, rt, (), watch);
                // The reference before the count, as above.
                let Ok(tie) = Arc::try_clone(shared) else {
                    let _ = seen.into_trace();
                    return Err(HandleError::NoMemory);
                };
                match counts::clone_handle(rt, seen).0 {
                    Ok(raised) => {
                        let link = Link::Unbounded(tie);
                        Ok(Counted {
                            link,
                            raised,
                            seat: None,
                        })
                    }
                    Err(error) => Err(error),
                }
            }
        }
    }

    /// One more handle of this kind if the channel is open and one lives; otherwise `None`. `Err` as above.
    pub(crate) fn upgraded<R: Wait, S: Trace<T> + Copy>(
        link: &Link<T>,
        rt: &R,
        watch: S,
    ) -> Result<Option<Counted<T, K>>, HandleError>
        ensures walked { MatchOption (handle_of link.now).table (WasSeen S.did S.shown S.entered (handle_of link.now) (λ saw. Upgrades saw K.side) result) (λ table. UpgradedSo S.called table K.side result) }
        ensures made { IfOk result (λ made. IfSome made (λ more. handle_of more.link ≡ handle_of link.now)) }
    {
        match link {
            Link::Bounded(channel) => {
                // The reference before the count, as in `one_more`.
                let Ok(tie) = Arc::try_clone(channel) else {
                    return Err(channel.no_memory(&watch));
                };
                match channel.upgrade(rt, &watch) {
                    Ok(Some((raised, seat))) => {
                        let link = Link::Bounded(tie);
                        let seat = Some(Kept::new(seat));
                        Ok(Some(Counted { link, raised, seat }))
                    }
                    Ok(None) => Ok(None),
                    Err(error) => Err(error),
                }
            }
            Link::Unbounded(shared) => {
                let seen = Seen::cells(shared, rt, (), watch);
                // The reference before the count, as in `one_more`.
                let Ok(tie) = Arc::try_clone(shared) else {
                    let _ = seen.into_trace();
                    return Err(HandleError::NoMemory);
                };
                match counts::upgrade(rt, seen).0 {
                    Ok(Some(raised)) => {
                        let link = Link::Unbounded(tie);
                        Ok(Some(Counted {
                            link,
                            raised,
                            seat: None,
                        }))
                    }
                    Ok(None) => Ok(None),
                    Err(error) => Err(error),
                }
            }
        }
    }
}

impl<T: Drop> Counted<T, OfSenders> {
    /// Drops the sender: lowers the count; the last one closes. The shared reference is dropped after that, so the channel still lives.
    pub(crate) fn lower<R: Wait, S: Trace<T> + Copy>(self, rt: &R, watch: S) {
        let Counted { link, raised, seat } = self;
        match link {
            Link::Bounded(channel) => {
                let Some(kept) = seat else { unreachable!() };
                let seat = kept.into_inner();
                let left = channel
                    .table
                    .drop_sender(rt, raised, seat, &mut WakeNow { rt });
                seen::tell(&watch, left);
            }
            Link::Unbounded(shared) => {
                let _ = counts::drop_sender(rt, raised, Seen::cells(&shared, rt, (), watch));
            }
        }
    }
}

impl<T: Drop> Counted<T, OfReceivers> {
    /// Drops the receiver: lowers the count, and then removes the listener that it may have as a stream; the last one closes. The shared
    /// reference is dropped after that.
    pub(crate) fn lower<R: Wait, S: Trace<T> + Copy>(
        self,
        rt: &R,
        stream: Waits<T, OfStreams>,
        watch: S,
    )
        requires here { IsPartyOf (handle_of self.link).table stream.seat stream.key }
    {
        let Counted { link, raised, seat } = self;
        match link {
            Link::Bounded(channel) => {
                let Some(kept) = seat else { unreachable!() };
                let seat = kept.into_inner();
                let mut stream = stream;
                let (party, key) = stream.take(&channel.table);
                let _ = stream.end();
                // The stream's listener joins the receiver's party, so one call drops both.
                let both = channel.table.gather(seat, party);
                let sink = &mut WakeNow { rt };
                let left = channel.table.drop_receiver(rt, raised, key, both, sink);
                seen::tell(&watch, left);
            }
            Link::Unbounded(shared) => {
                let _ = shared.drop_receiver(rt, raised, stream, watch);
            }
        }
    }
}
