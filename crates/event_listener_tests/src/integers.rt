use crate::checks::expect_equal;
use event_listener::into_notification::IntoNotification;
use event_listener::notify::Notification;

/// How many listeners a notice made of this is for.
fn count_of<N: IntoNotification<Tag = ()>>(notice: N) -> usize {
    notice.into_notification().count()
}

#[test]
fn each_integer_is_a_count(rt: HostRuntime) {
    let unsigned = [
        count_of(3u8),
        count_of(3u16),
        count_of(3u32),
        count_of(3u64),
        count_of(3u128),
        count_of(3usize),
    ];
    expect_equal(&rt, &unsigned, &[3; 6]);
    let signed = [
        count_of(3i8),
        count_of(3i16),
        count_of(3i32),
        count_of(3i64),
        count_of(3i128),
        count_of(3isize),
    ];
    expect_equal(&rt, &signed, &[3; 6]);
    let negative = [
        count_of(i8::MIN),
        count_of(i16::MIN),
        count_of(i32::MIN),
        count_of(i64::MIN),
        count_of(i128::MIN),
        count_of(isize::MIN),
    ];
    expect_equal(&rt, &negative, &[0; 6]);
    let greatest = [
        count_of(u64::MAX),
        count_of(u128::MAX),
        count_of(i128::MAX),
        count_of(usize::MAX),
    ];
    expect_equal(&rt, &greatest, &[usize::MAX; 4]);
    expect_equal(&rt, &count_of(-1i8), &0);
}
