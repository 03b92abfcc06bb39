//! The texts of refusals.

use crate::checks::expect_equal;
use channel_world::call::WorldRefusal;
use std::test::Fail;

#[test]
fn refusals_have_their_texts(rt: HostRuntime) -> Result<(), Fail> {
    for (why, text) in [
        (WorldRefusal::Busy, "Busy: the party has a call under way"),
        (WorldRefusal::Idle, "Idle: the party has no call under way"),
        (
            WorldRefusal::UnknownName,
            "UnknownName: a used name is not live",
        ),
        (
            WorldRefusal::NameTaken,
            "NameTaken: a new name was taken before",
        ),
        (
            WorldRefusal::OpUnderWay,
            "OpUnderWay: the operation is being polled",
        ),
        (
            WorldRefusal::Borrowed,
            "Borrowed: a live operation borrows the handle",
        ),
        (
            WorldRefusal::WrongKind,
            "WrongKind: a used name is of another kind",
        ),
        (WorldRefusal::NoMemory, "NoMemory: want of memory"),
    ] {
        expect_equal(
            &rt,
            &format!(in rt.alloc(); "{why:?}: {why}")?.as_str(),
            &text,
        );
    }
    Ok(())
}
