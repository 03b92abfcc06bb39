//! What events and listeners do, row by row: the calls are those of [`Units`](crate::units::Units) and [`Tags`](crate::tags::Tags).

pub(crate) const UNIT_ROWS: &str = "
row additional_and_default
listen
listen
listen
notify_additional 1 = 1
notify u8 1 = 0
notify_additional 1 = 1
poll 0 = told
poll 1 = told
poll 2 = pending

row a_told_one_leaves
listen
listen
listen
listen
notify_additional 1 = 1
notify i16 2 = 1
drop 0
poll 1 = told
poll 2 = told
poll 3 = pending

row all_are_told
listen
listen
poll 0 = pending
poll 1 = pending
notify_all = 2
poll 0 = told
poll 1 = told

# The notice that it had is for nobody: the other one that was told still is.
row one_of_two_that_were_told_leaves
listen
listen
listen
notify u8 2 = 2
drop 0
poll 1 = told
poll 2 = pending

row one_that_waits_leaves
listen
listen
listen
notify u8 1 = 1
drop 2
poll 0 = told
poll 1 = pending

row discarded
listen
listen
notify u8 1 = 1
discard 0 = true
poll 1 = pending
discard 1 = false

row a_notice_for_nobody
notify i8 5 = 0
listen
poll 0 = pending

row notices_of_units
listen
listen
listen
listen
is_notified = false
notify_relaxed 1 = 1
notify_relaxed 1 = 0
notify_additional_relaxed 1 = 1
notify relaxed 3 = 1
notify additional_twice 1 = 1
is_notified = true
total = 4

# It is polled again, and a wait hands it back.
row a_finished_one
listen
listen
same_event 0 1 = true
notify u8 1 = 1
poll 0 = told
poll 0 = finished
wait_timeout 0 0 = finished

row a_second_poll_is_silent
listen
poll_future 0 = pending
poll_future 0 = pending
is_woken = false
notify u8 1 = 1
is_woken = true
poll_future 0 = told

# The waker of the first poll is let go at the second one.
row a_second_poll_by_hand_wakes
listen
poll 0 = pending
is_woken = false
poll 0 = pending
is_woken = true

row a_wait_gives_nothing_before_its_time
listen
listen
wait_timeout 1 30 = nothing
wait_deadline 0 30 = nothing
total = 0
";

pub(crate) const TAG_ROWS: &str = "
row made_tags
listen
listen
listen
count_from 9
notify_made 2 = 2
poll 0 = 10
poll 1 = 11
poll 2 = pending

# Before anybody listened; after the only listener left; of the default kind where so many are told already. Then one for four where one
# is told and two wait.
row a_notice_for_nobody_makes_no_tag
notify_made 3 = 0
made = 0
listen
drop 0
notify_made 3 = 0
made = 0
listen
notify 1 7 = 1
notify_made 1 = 0
made = 0
listen
listen
notify_made 4 = 2
made = 2

row a_tag_is_passed_on
listen
listen
notify 1 7 = 1
drop 0
poll 1 = 7

# The notice is for three and has two tags.
row a_refused_tag_leaves_those_before_it_told
listen
listen
listen
notify_scarce 2 = refused after 2
poll 0 = 0
poll 1 = 1
poll 2 = pending

row a_told_one_waits
listen
notify 1 5 = 1
wait 0 = 5

row the_time_is_up
listen
wait_timeout 0 0 = nothing
listen
wait_deadline 1 0 = nothing
listen
notify 1 6 = 1
wait_timeout 2 0 = 6
total = 0
";
