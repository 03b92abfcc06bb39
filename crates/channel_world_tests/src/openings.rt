//! Channels that are opened from one source of identities.
use crate::checks::expect_equal;
use channel_calls::error::OpenError;
use channel_world::world::World;
use event_listener::id::EventIds;
use std::test::Fail;

#[test]
fn channels_are_opened_from_one_source(rt: HostRuntime) -> Result<(), Fail> {
    let mut ids = EventIds::new();
    let _one = ids.next()?;
    let bounded: World<u64> = World::bounded(rt.alloc(), 3, &mut ids)?;
    let unbounded: World<u64> = World::unbounded(rt.alloc(), &mut ids)?;
    let _opened = (bounded, unbounded);
    let beyond: Result<World<u64>, OpenError> = World::bounded(rt.alloc(), (1 << 58) + 1, &mut ids);
    expect_equal(&rt, &beyond.err(), &Some(OpenError::NoMemory));
    Ok(())
}
