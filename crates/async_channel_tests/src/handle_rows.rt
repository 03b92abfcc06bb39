//! What operations and handles do, row by row: the calls are those of [`Lent`](crate::lent::Lent) and [`Owned`](crate::owned::Owned).

pub(crate) const OPERATIONS: &str = "
row several_at_once_wake_as_many_sends
bounded 3
try_send s 1 = sent
try_send s 2 = sent
try_send s 3 = sent
send 4
send 5
send 6
poll 0 = pending
poll 1 = pending
poll 2 = pending
recv_many r 2 = received 1 2
is_woken 0 = true
is_woken 1 = true
is_woken 2 = false
poll 0 = sent
is_woken 2 = true
poll 1 = sent
poll 2 = pending
recv_many r 10 = received 3 4 5
is_woken 2 = true
poll 2 = sent
recv_many r 10 = received 6

row one_place_takes_one_message
bounded 1
send 10
poll 0 = sent
drop 0
try_send s 20 = full 20
recv
poll 1 = received 10
drop 1
try_recv r = empty

row a_forced_message_displaces_the_oldest
bounded 3
send 1
poll 0 = sent
send 2
poll 1 = sent
force_send s 3 = sent
force_send s 4 = displaced 1
try_recv r = received 2
try_recv r = received 3
try_recv r = received 4

# The first receive was told, and leaves.
row a_told_receive_that_leaves_passes_its_notice_on
bounded 1
recv
recv
poll 0 = pending
poll 1 = pending
try_send s 10 = sent
is_woken 0 = true
is_woken 1 = false
try_send s 20 = full 20
drop 0
is_woken 1 = true
poll 1 = received 10

row each_taking_wakes_the_next_send
bounded 1
try_send s 1 = sent
send 2
send 3
poll 0 = pending
poll 1 = pending
try_recv r = received 1
is_woken 0 = true
is_woken 1 = false
poll 0 = sent
is_woken 1 = true
is_finished 0 = true
is_finished 1 = false
try_recv r = received 2
poll 1 = sent
try_recv r = received 3

row a_closing_wakes_everybody
unbounded
recv
stream
closed
poll 0 = pending
poll 1 = pending
poll 2 = pending
close s = true
close s = false
is_woken 0 = true
is_woken 1 = true
is_woken 2 = true
poll 0 = over
poll 1 = over
poll 2 = over

row a_message_wakes_a_receive_and_a_stream
unbounded
stream
recv
poll 0 = pending
poll 1 = pending
try_send s 7 = sent
is_woken 0 = true
is_woken 1 = true
poll 0 = received 7
poll 1 = pending
is_woken 1 = false
try_send s 8 = sent
is_woken 1 = true
poll 1 = received 8

row a_second_poll_wakes_nobody
bounded 1
recv
poll 0 = pending
poll 0 = pending
is_woken 0 = false
try_send s 9 = sent
is_woken 0 = true
poll 0 = received 9

row a_finished_send_is_pending
bounded 2
send 1
is_finished 0 = false
poll 0 = sent
poll 0 = pending
is_finished 0 = true
give_up 0 = none
len r = 1
send 2
give_up 1 = 2
";

pub(crate) const HANDLES: &str = "
row several_at_once_of_none
bounded 3
recv_many r 10 = empty
try_send s 1 = sent
recv_many r 18446744073709551615 = memory
recv_many r 1 = received 1
close s = true
recv_many r 1 = over
recv_many r 0 = received

row the_last_sender_closes
unbounded
try_send s 1 = sent
try_recv r = received 1
try_recv r = empty
drop s
try_recv r = over

row the_last_receiver_closes
bounded 100
send_once s 1 = sent
send_once s 2 = sent
send_once s 3 = sent
drop r
send_once s 4 = closed 4
try_send s 5 = closed 5
force_send s 6 = closed 6

row messages_past_one_block_come_in_order
unbounded
try_sends s 1 33 = 32
try_recvs r 1 33 = 32
is_empty r = true
try_recv r = empty

row one_place_is_used_in_turn
bounded 1
send_to_end s 7 = sent
try_recv r = received 7
send_to_end s 8 = sent
recv_to_end r = received 8
try_recv r = empty

row no_bound_is_used_in_turn
unbounded
try_send s 7 = sent
try_recv r = received 7
send_to_end s 8 = sent
recv_to_end r = received 8
try_recv r = empty

row one_place_is_used_by_blocking_calls
bounded 1
send_blocking s 7 = sent
try_recv r = received 7
send_blocking s 8 = sent
recv_to_end r = received 8
send_to_end s 9 = sent
recv_blocking r = received 9
try_recv r = empty

row no_bound_is_used_by_blocking_calls
unbounded
send_blocking s 7 = sent
try_recv r = received 7
send_blocking s 8 = sent
recv_to_end r = received 8
send_to_end s 9 = sent
recv_blocking r = received 9
try_recv r = empty

row lengths_of_two_places
bounded 2
len s = 0
is_empty s = true
is_full s = false
len r = 0
is_empty r = true
is_full r = false
send_to_end s 1 = sent
len s = 1
is_empty s = false
is_full s = false
len r = 1
is_empty r = false
is_full r = false
send_to_end s 2 = sent
len s = 2
is_empty s = false
is_full s = true
len r = 2
is_empty r = false
is_full r = true
recv_to_end r = received 1
len s = 1
is_empty s = false
is_full s = false
len r = 1
is_empty r = false
is_full r = false

row lengths_without_a_bound
unbounded
len s = 0
is_empty s = true
is_full s = false
len r = 0
is_empty r = true
is_full r = false
send_to_end s 1 = sent
len s = 1
is_empty s = false
is_full s = false
len r = 1
is_empty r = false
is_full r = false
recv_to_end r = received 1
len s = 0
is_empty s = true
is_full s = false
len r = 0
is_empty r = true
is_full r = false

row capacities
bounded 1
capacity s = 1
capacity r = 1
bounded 2
capacity 2 = 2
capacity 3 = 2
bounded 3
capacity 4 = 3
capacity 5 = 3
bounded 4
capacity 6 = 4
capacity 7 = 4
bounded 5
capacity 8 = 5
capacity 9 = 5
bounded 6
capacity 10 = 6
capacity 11 = 6
bounded 7
capacity 12 = 7
capacity 13 = 7
bounded 8
capacity 14 = 8
capacity 15 = 8
bounded 9
capacity 16 = 9
capacity 17 = 9
unbounded
capacity 18 = none
capacity 19 = none

row sends_after_the_closing_of_a_hundred_places
bounded 100
send_to_end s 1 = sent
send_to_end s 2 = sent
send_to_end s 3 = sent
drop r
send_to_end s 4 = closed 4
try_send s 5 = closed 5
send_to_end s 6 = closed 6
send_blocking s 7 = closed 7

row sends_after_the_closing_without_a_bound
unbounded
send_to_end s 1 = sent
send_to_end s 2 = sent
send_to_end s 3 = sent
drop r
send_to_end s 4 = closed 4
try_send s 5 = closed 5
send_to_end s 6 = closed 6
send_blocking s 7 = closed 7

row receives_after_the_closing_of_a_hundred_places
bounded 100
send_to_end s 1 = sent
send_to_end s 2 = sent
send_to_end s 3 = sent
drop s
recv_to_end r = received 1
recv_to_end r = received 2
recv_to_end r = received 3
recv_to_end r = over

row receives_after_the_closing_without_a_bound
unbounded
send_to_end s 1 = sent
send_to_end s 2 = sent
send_to_end s 3 = sent
drop s
recv_to_end r = received 1
recv_to_end r = received 2
recv_to_end r = received 3
recv_to_end r = over

row sends_without_a_bound
unbounded
try_sends s 0 1000 = 1000
sends_to_end s 0 1000 = 1000
drop r
try_send s 777 = closed 777
send_to_end s 777 = closed 777

row handles_of_five_places_are_counted
bounded 5
clones s 20 = 20
same_channel s 2 = true
same_channel s 21 = true
clones r 20 = 20
same_channel r 22 = true
same_channel r 41 = true
sender_count s = 21
receiver_count s = 21
sender_count r = 21
receiver_count r = 21
drops 2 20
drops 22 20
sender_count s = 1
receiver_count s = 1
sender_count r = 1
receiver_count r = 1

row handles_without_a_bound_are_counted
unbounded
clones s 20 = 20
same_channel s 2 = true
same_channel s 21 = true
clones r 20 = 20
same_channel r 22 = true
same_channel r 41 = true
sender_count s = 21
receiver_count s = 21
sender_count r = 21
receiver_count r = 21
drops 2 20
drops 22 20
sender_count s = 1
receiver_count s = 1
sender_count r = 1
receiver_count r = 1

# The weak handles' clones upgrade, and a message goes through what they gave. Weak handles don't keep the channel open.
row weak_handles_of_three_places
bounded 3
downgrade s = made
downgrade r = made
clone 2 = made
clone 3 = made
upgrade 4 = made
upgrade 5 = made
sender_count 6 = 2
receiver_count 7 = 2
send_blocking 6 3 = sent
recv_blocking 7 = received 3
drops 2 6
sender_count s = 1
receiver_count r = 1
downgrade s = made
downgrade r = made
drop s
drop r
upgrade 8 = none
upgrade 9 = none

# The weak handles' clones upgrade, and a message goes through what they gave. Weak handles don't keep the channel open.
row weak_handles_without_a_bound
unbounded
downgrade s = made
downgrade r = made
clone 2 = made
clone 3 = made
upgrade 4 = made
upgrade 5 = made
sender_count 6 = 2
receiver_count 7 = 2
send_blocking 6 3 = sent
recv_blocking 7 = received 3
drops 2 6
sender_count s = 1
receiver_count r = 1
downgrade s = made
downgrade r = made
drop s
drop r
upgrade 8 = none
upgrade 9 = none

row none_is_made_once_closed
unbounded
downgrade s = made
close s = true
upgrade 2 = none
sender_count r = 1
receiver_count s = 1

row handles_of_one_channel
unbounded
unbounded
clone s = made
same_channel s 4 = true
downgrade r = made
upgrade 5 = made
same_channel r 6 = true
same_channel s 2 = false

row handles_have_their_texts
bounded 1
downgrade s = made
downgrade r = made
text s = Sender { .. }
text r = Receiver { .. }
text 2 = WeakSender { .. }
text 3 = WeakReceiver { .. }

# It is refused before any memory is asked for, and no identity is taken.
row capacities_past_the_greatest
bounded 288230376151711745 = memory
identity = 0

row a_walk_ends_where_the_channel_is_closed_and_empty
bounded 3
try_send s 1 = sent
try_send s 2 = sent
try_send s 3 = sent
close s = true
walk r 5 = 1 2 3 none none
unbounded
try_send 2 1 = sent
try_send 2 2 = sent
try_send 2 3 = sent
close 2 = true
walk 3 5 = 1 2 3 none none

# Where none was there, a message that is sent since is its next item.
row a_walk_that_does_not_wait_goes_on
bounded 3
try_send s 1 = sent
try_send s 2 = sent
try_walk r 4 s 3 = 1 2 none none sent 3
try_walk r 1 s 4 = none sent 4
try_send s 5 = sent
close s = true
try_walk r 2 s 6 = 5 none closed 6 none
unbounded
try_send 2 1 = sent
try_send 2 2 = sent
try_walk 3 4 2 3 = 1 2 none none sent 3
try_walk 3 1 2 4 = none sent 4
try_send 2 5 = sent
close 2 = true
try_walk 3 2 2 6 = 5 none closed 6 none

row messages_fill_the_room_that_is_there
bounded 5
try_sends s 1 6 = 5
fill r 1 4 = 3 holds 9 1 2 3 of 4
fill r 4 4 = 0 holds 9 9 9 9 of 4
fill r 0 4 = 2 holds 4 5 of 4
fill r 0 4 = empty holds of 4
close s = true
fill r 0 4 = over holds of 4
unbounded
try_sends 2 1 6 = 5
fill 3 1 4 = 3 holds 9 1 2 3 of 4
fill 3 4 4 = 0 holds 9 9 9 9 of 4
fill 3 0 4 = 2 holds 4 5 of 4
fill 3 0 4 = empty holds of 4
close 2 = true
fill 3 0 4 = over holds of 4
";

/// A channel in which the calls of [`FIFTY`] are made again and again.
pub(crate) const OF_A_THOUSAND_PLACES: &str = "
row lengths_after_each_call_of_a_thousand_places
bounded 1000
";

/// One in which they are made once.
pub(crate) const WITHOUT_A_BOUND: &str = "
row lengths_after_each_call_without_a_bound
unbounded
";

/// Fifty sends and fifty receives, with the length right after each.
pub(crate) const FIFTY: &str = "
send_to_end s 0 = sent
len s = 1
send_to_end s 1 = sent
len s = 2
send_to_end s 2 = sent
len s = 3
send_to_end s 3 = sent
len s = 4
send_to_end s 4 = sent
len s = 5
send_to_end s 5 = sent
len s = 6
send_to_end s 6 = sent
len s = 7
send_to_end s 7 = sent
len s = 8
send_to_end s 8 = sent
len s = 9
send_to_end s 9 = sent
len s = 10
send_to_end s 10 = sent
len s = 11
send_to_end s 11 = sent
len s = 12
send_to_end s 12 = sent
len s = 13
send_to_end s 13 = sent
len s = 14
send_to_end s 14 = sent
len s = 15
send_to_end s 15 = sent
len s = 16
send_to_end s 16 = sent
len s = 17
send_to_end s 17 = sent
len s = 18
send_to_end s 18 = sent
len s = 19
send_to_end s 19 = sent
len s = 20
send_to_end s 20 = sent
len s = 21
send_to_end s 21 = sent
len s = 22
send_to_end s 22 = sent
len s = 23
send_to_end s 23 = sent
len s = 24
send_to_end s 24 = sent
len s = 25
send_to_end s 25 = sent
len s = 26
send_to_end s 26 = sent
len s = 27
send_to_end s 27 = sent
len s = 28
send_to_end s 28 = sent
len s = 29
send_to_end s 29 = sent
len s = 30
send_to_end s 30 = sent
len s = 31
send_to_end s 31 = sent
len s = 32
send_to_end s 32 = sent
len s = 33
send_to_end s 33 = sent
len s = 34
send_to_end s 34 = sent
len s = 35
send_to_end s 35 = sent
len s = 36
send_to_end s 36 = sent
len s = 37
send_to_end s 37 = sent
len s = 38
send_to_end s 38 = sent
len s = 39
send_to_end s 39 = sent
len s = 40
send_to_end s 40 = sent
len s = 41
send_to_end s 41 = sent
len s = 42
send_to_end s 42 = sent
len s = 43
send_to_end s 43 = sent
len s = 44
send_to_end s 44 = sent
len s = 45
send_to_end s 45 = sent
len s = 46
send_to_end s 46 = sent
len s = 47
send_to_end s 47 = sent
len s = 48
send_to_end s 48 = sent
len s = 49
send_to_end s 49 = sent
len s = 50
recv_to_end r = received 0
len s = 49
recv_to_end r = received 1
len s = 48
recv_to_end r = received 2
len s = 47
recv_to_end r = received 3
len s = 46
recv_to_end r = received 4
len s = 45
recv_to_end r = received 5
len s = 44
recv_to_end r = received 6
len s = 43
recv_to_end r = received 7
len s = 42
recv_to_end r = received 8
len s = 41
recv_to_end r = received 9
len s = 40
recv_to_end r = received 10
len s = 39
recv_to_end r = received 11
len s = 38
recv_to_end r = received 12
len s = 37
recv_to_end r = received 13
len s = 36
recv_to_end r = received 14
len s = 35
recv_to_end r = received 15
len s = 34
recv_to_end r = received 16
len s = 33
recv_to_end r = received 17
len s = 32
recv_to_end r = received 18
len s = 31
recv_to_end r = received 19
len s = 30
recv_to_end r = received 20
len s = 29
recv_to_end r = received 21
len s = 28
recv_to_end r = received 22
len s = 27
recv_to_end r = received 23
len s = 26
recv_to_end r = received 24
len s = 25
recv_to_end r = received 25
len s = 24
recv_to_end r = received 26
len s = 23
recv_to_end r = received 27
len s = 22
recv_to_end r = received 28
len s = 21
recv_to_end r = received 29
len s = 20
recv_to_end r = received 30
len s = 19
recv_to_end r = received 31
len s = 18
recv_to_end r = received 32
len s = 17
recv_to_end r = received 33
len s = 16
recv_to_end r = received 34
len s = 15
recv_to_end r = received 35
len s = 14
recv_to_end r = received 36
len s = 13
recv_to_end r = received 37
len s = 12
recv_to_end r = received 38
len s = 11
recv_to_end r = received 39
len s = 10
recv_to_end r = received 40
len s = 9
recv_to_end r = received 41
len s = 8
recv_to_end r = received 42
len s = 7
recv_to_end r = received 43
len s = 6
recv_to_end r = received 44
len s = 5
recv_to_end r = received 45
len s = 4
recv_to_end r = received 46
len s = 3
recv_to_end r = received 47
len s = 2
recv_to_end r = received 48
len s = 1
recv_to_end r = received 49
len s = 0
";
