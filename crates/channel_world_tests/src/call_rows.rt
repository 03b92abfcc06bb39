//! Calls made alone, settlings, and calls beside steps of parties, row by row: the calls are those of [`Worlds`](crate::worlds::Worlds).

/// Sends.
pub(crate) const SENDS: &str = "
row one_place_is_filled_and_emptied
bounded 1
send 1 s 10 = made
poll 1 = sent
is_finished 1 = true
try_send s 20 = full 20
recv 2 r = made
poll 2 = received 10
try_recv r = empty

row a_forced_send_displaces_the_oldest_message
bounded 3
send 1 s 1 = made
send 2 s 2 = made
poll 1 = sent
poll 2 = sent
force_send s 3 = sent
is_full s = true
force_send s 4 = displaced 1
try_recv r = received 2
try_recv r = received 3
try_recv r = received 4

row the_last_sender_closes
unbounded
capacity s = none
try_send s 1 = sent
try_recv r = received 1
try_recv r = empty
drop s = done
try_recv r = over

row sends_after_the_last_receiver_find_it_closed
bounded 100
send 1 s 1 = made
poll 1 = sent
send 2 s 2 = made
poll 2 = sent
send 3 s 3 = made
poll 3 = sent
drop r = done
send 4 s 4 = made
poll 4 = closed 4
try_send s 5 = closed 5
close s = false
try_recv r = stopped unknown_name 0 after 0 left 1

row sends_wait_in_turn
bounded 1
try_send s 1 = sent
send 1 s 2 = made
send 2 s 3 = made
poll 1 = pending
poll 2 = pending
try_recv r = received 1 wakes 1
poll 1 = sent wakes 2
try_recv r = received 2
poll 2 = sent
try_recv r = received 3
close r = true
try_recv r = over

row a_refused_poll_keeps_its_message
bounded 1
try_send s 1 = sent
send 1 s 2 = made
poll 1 = pending
poll_refused 1 = memory
try_recv r = received 1
poll 1 = sent
try_recv r = received 2

# The same as one list of calls.
row a_list_of_sends
bounded 1
later try_send s 1
later send 1 s 2
later send 2 s 3
later poll 1
later poll 2
later try_recv r
later poll 1
later try_recv r
later poll 2
later try_recv r
run_calls = sent made made pending pending received 1 wakes 1 sent wakes 2 received 2 sent received 3
";

/// Receives.
pub(crate) const RECEIVES: &str = "
row a_told_receive_that_is_given_up_passes_its_notice_on
bounded 1
recv 1 r = made
recv 2 r = made
poll 1 = pending
poll 2 = pending
try_send s 10 = sent wakes 1
try_send s 20 = full 20
give_up 1 = given_up wakes 2
poll 2 = received 10
drop r = stopped borrowed 0 after 0 left 1

row a_refused_poll_passes_its_notice_on
bounded 1
recv 1 r = made
recv 2 r = made
poll 1 = pending
poll 2 = pending
try_send s 9 = sent wakes 1
poll_refused 1 = memory wakes 2
poll 2 = received 9
close s = true
poll 1 = over

# It never listened: a message wakes nobody and stays.
row a_receive_without_its_waker_does_not_wait
bounded 1
recv 1 r = made
poll_refused 1 = memory
numbers = 0 0 0 0
try_send s 5 = sent
try_recv r = received 5

# The same as one list of calls.
row a_list_of_receives
bounded 1
later recv 1 r
later recv 2 r
later poll 1
later poll 2
later try_send s 10
later try_send s 20
later give_up 1
later poll 2
later drop r
later try_recv r
run_calls = made made pending pending sent wakes 1 full 20 given_up wakes 2 received 10 stopped borrowed 8 after 8 left 2
";

/// Streams, closings and handles.
pub(crate) const WAITS: &str = "
row a_closing_wakes_line_by_line
unbounded
clone r 2 = made
recv 1 r = made
closed 2 s = made
poll 1 = pending
next 2 = pending
poll 2 = pending
close s = true wakes 1 stream 2 2
poll 1 = over
next 2 = over
poll 2 = ready
is_closed s = true
is_terminated 2 = true

row a_closing_wakes_sends_before_receives
bounded 1
try_send s 1 = sent
send 1 s 2 = made
send 2 s 3 = made
poll 1 = pending
poll 2 = pending
try_recv r = received 1 wakes 1
recv 3 r = made
poll 3 = pending
close s = true wakes 2 3

row a_message_wakes_a_receive_and_all_streams
unbounded
clone r 2 = made
recv 1 r = made
next 2 = pending
poll 1 = pending
try_send s 7 = sent wakes 1 stream 2
next 2 = next 7
poll 1 = pending
try_send s 8 = sent wakes 1
poll 1 = received 8

row a_dropped_stream_waits_no_more
bounded 2
clone r 2 = made
next 2 = pending
next r = pending
numbers = 0 2 0 0
drop 2 = done
try_send s 3 = sent wakes stream 1
next r = next 3

row a_closed_channel_gives_no_handle
unbounded
downgrade s 2 = made
close s = true
upgrade 2 3 = none
sender_count s = 1

row handles_of_an_open_channel
bounded 2
downgrade r 2 = made
clone 2 3 = made
upgrade 3 4 = made
same_channel r 4 = true
receiver_count s = 2
drop r = done
receiver_count s = 1
drop 4 = done
upgrade 2 5 = none
receiver_count s = 0
is_closed s = true
capacity s = 2
";

/// Refused calls.
pub(crate) const REFUSED: &str = "
# Nothing has the name 9, and 8 was never taken.
row calls_of_unknown_names_or_wrong_kinds_are_refused
unbounded
downgrade s 2 = made
recv 1 r = made
clone 9 8 = stopped unknown_name 0 after 0 left 1
downgrade 9 8 = stopped unknown_name 0 after 0 left 1
upgrade 9 8 = stopped unknown_name 0 after 0 left 1
next 9 = stopped unknown_name 0 after 0 left 1
closed 2 9 = stopped unknown_name 0 after 0 left 1
poll 2 = stopped unknown_name 0 after 0 left 1
downgrade 2 8 = stopped wrong_kind 0 after 0 left 1
upgrade s 8 = stopped wrong_kind 0 after 0 left 1
next s = stopped wrong_kind 0 after 0 left 1
closed 2 r = stopped wrong_kind 0 after 0 left 1
close 2 = stopped wrong_kind 0 after 0 left 1
same_channel s r = stopped wrong_kind 0 after 0 left 1
is_finished 1 = stopped wrong_kind 0 after 0 left 1

# Of handles that a live operation borrows, and with new names that were taken before.
row calls_of_borrowed_handles_or_taken_names_are_refused
unbounded
downgrade s 2 = made
recv 1 r = made
close s = true
upgrade 2 3 = none
next r = stopped borrowed 0 after 0 left 1
drop r = stopped borrowed 0 after 0 left 1
clone s r = stopped name_taken 0 after 0 left 1
downgrade s 2 = stopped name_taken 0 after 0 left 1
upgrade 2 3 = stopped name_taken 0 after 0 left 1
clone s 3 = stopped name_taken 0 after 0 left 1
closed 1 s = stopped name_taken 0 after 0 left 1
give_up 1 = given_up
drop r = done
poll 1 = stopped unknown_name 0 after 0 left 1
";

/// One world, driven by calls made alone and by steps of several parties in turn.
pub(crate) const BOTH: &str = "
row nobody_is_woken_between_a_push_and_its_telling
bounded 1
recv 1 r = made
poll 1 = pending
numbers = 0 1 0 0
is_quiet = true
begin 1 3 try_send s 5 = goes on
numbers = 1 1 0 1
is_quiet = false
go 1 1 = wakes 1
numbers = 1 1 1 1
is_quiet = false
go 1 1 = sent
numbers = 1 1 1 0
is_quiet = true
poll 1 = received 5
numbers = 0 0 0 0
is_quiet = true

row calls_alone_go_on_after_two_parties_in_turn
bounded 2
then begin 0 0 recv 1 r
then begin 1 1 recv 2 r
then go 0 1
run_steps = made made
then begin 0 1 poll 1
then begin 1 2 poll 2
then go 0 2
then go 1 1
then go 0 5
then go 1 5
run_steps = pending pending
numbers = 0 2 0 0
is_quiet = true
begin 1 5 close s = wakes 1 2 true
numbers = 0 2 2 0
is_quiet = true
poll 2 = over
poll 1 = over
recv 3 r = made
poll 3 = over
numbers = 0 0 0 0
is_quiet = true

row one_woken_by_steps_passes_its_notice_on
bounded 1
then begin 0 1 recv 1 r
then begin 1 1 recv 2 r
then begin 0 3 poll 1
then begin 1 3 poll 2
then go 0 1
then go 1 1
run_steps = made made pending pending
numbers = 0 2 0 0
begin 2 5 try_send s 7 = wakes 1 sent
numbers = 1 2 1 0
give_up 1 = given_up wakes 2
numbers = 1 1 1 0
poll 2 = received 7
numbers = 0 0 0 0
";

/// Settlings.
pub(crate) const SETTLINGS: &str = "
row one_message_settles_two_of_three_receives
bounded 1
recv 1 r = made
recv 2 r = made
recv 3 r = made
poll 1 = pending
poll 2 = pending
poll 3 = pending
try_send s 9 = sent wakes 1
settle = 1 received 9 2 pending
numbers = 0 2 0 0
settle = nobody
numbers = 0 2 0 0

row a_woken_stream_is_settled_whose_receiver_is_borrowed
unbounded
next r = pending
recv 1 r = made
try_send s 1 = sent wakes stream 1
settle = stream 1 next 1
numbers = 0 0 0 0

row the_oldest_wake_is_settled_first
bounded 1
recv 2 r = made
poll 2 = pending
try_send s 1 = sent wakes 2
send 3 s 2 = made
poll 3 = pending
try_recv r = received 1 wakes 3
settle = 2 pending 3 sent 2 received 2
numbers = 0 0 0 0
";

/// What a world tells of its lines and its positions, and steps of one party without a list.
pub(crate) const TOLD: &str = "
# Each is counted on its own line, and as woken once a place came free.
row each_is_told_of_on_its_line
bounded 1
try_send s 1 = sent
send 0 s 2 = made
poll 0 = pending
closed 1 s = made
poll 1 = pending
lines = sends 1 0 receives 0 0 streams 0 0 closings 1 0 taken 0
try_recv r = received 1 wakes 0
lines = sends 1 1 receives 0 0 streams 0 0 closings 1 0 taken 0

row a_party_is_stepped_without_counting
bounded 1
begin 3 0 try_send s 5 = goes on
party 3 2 = append nothing in 2
party 3 300 = nothing nothing nothing sent in 3
party 3 300 = stopped idle 0 after 0 left 0 in 0
party 3 0 = in 0

# For how many messages more there are positions, before and after two were accepted: 2^61 - 1 in all, and with one place any number.
row one_place_has_positions_for_any_number
bounded 1
has_positions 0 = true
has_positions 1 = true
has_positions 2305843009213693949 = true
has_positions 2305843009213693951 = true
has_positions 2305843009213693952 = true
has_positions 18446744073709551615 = true
whole 0 force_send s 0 = sent
whole 0 force_send s 1 = displaced 0
has_positions 0 = true
has_positions 1 = true
has_positions 2305843009213693949 = true
has_positions 2305843009213693951 = true
has_positions 2305843009213693952 = true
has_positions 18446744073709551615 = true
bounded 2
has_positions 0 = true
has_positions 1 = true
has_positions 2305843009213693949 = true
has_positions 2305843009213693951 = true
has_positions 2305843009213693952 = false
has_positions 18446744073709551615 = false
whole 0 force_send s 0 = sent
whole 0 force_send s 1 = sent
has_positions 0 = true
has_positions 1 = true
has_positions 2305843009213693949 = true
has_positions 2305843009213693951 = false
has_positions 2305843009213693952 = false
has_positions 18446744073709551615 = false
unbounded
has_positions 0 = true
has_positions 1 = true
has_positions 2305843009213693949 = true
has_positions 2305843009213693951 = true
has_positions 2305843009213693952 = false
has_positions 18446744073709551615 = false
whole 0 force_send s 0 = sent
whole 0 force_send s 1 = sent
has_positions 0 = true
has_positions 1 = true
has_positions 2305843009213693949 = true
has_positions 2305843009213693951 = false
has_positions 2305843009213693952 = false
has_positions 18446744073709551615 = false
";
