//! Worked scripts, row by row: a line of a script with the line that it writes. The lines are read by `scripts::rows`.

/// Plain calls, and what can't be read.
pub(crate) const LINES: &str = "
# Plain calls.
row stored_run
bounded 1 = ok
try_send s 10 = ok
try_send s 20 = full 20
try_recv r = ok 10
try_recv r = empty
close s = true
try_send s 30 = closed 30
try_recv r = closed
ends Done, status 0

row no_capacity
bounded 0 = capacity must be positive
ends Capacity, status 3

row no_lines
ends Done, status 0

row wrong_kind_and_unknown_names
bounded 2 = ok
try_recv s = refused 7
try_send x 1 = refused 3
close q = refused 3
ends Done, status 0

row capacity_past_all_memory
bounded 288230376151711745 = want of memory
ends Memory, status 4

row capacity_of_all_ones
bounded 18446744073709551615 = want of memory
ends Memory, status 4

row greatest_message
bounded 1 = ok
try_send s 18446744073709551615 = ok
try_recv r = ok 18446744073709551615
ends Done, status 0

row no_line_end
bounded 1 = ok
try_recv r = empty
without its last line end
ends Done, status 0

# What cannot be read.
row leading_zero
bounded 1 = ok
try_send s 01 = line 2: can't be read
ends Unreadable { line: 2 }, status 2

row one_word_missing
bounded 1 = ok
try_send s = line 2: can't be read
ends Unreadable { line: 2 }, status 2

row capacity_of_two_zeros
bounded 00 = line 1: can't be read
ends Unreadable { line: 1 }, status 2

row empty_second_line
bounded 1 = ok
 = line 2: can't be read
ends Unreadable { line: 2 }, status 2

row empty_first_line
 = line 1: can't be read
ends Unreadable { line: 1 }, status 2

row opened_twice
bounded 1 = ok
bounded 1 = line 2: can't be read
ends Unreadable { line: 2 }, status 2

row message_past_all_numbers
bounded 1 = ok
try_send s 18446744073709551616 = line 2: can't be read
ends Unreadable { line: 2 }, status 2

row settle_takes_no_name
bounded 1 = ok
settle s = line 2: can't be read
ends Unreadable { line: 2 }, status 2

row carriage_return
unbounded\r = line 1: can't be read
ends Unreadable { line: 1 }, status 2

row two_spaces
bounded  1 = line 1: can't be read
ends Unreadable { line: 1 }, status 2

row name_of_nine
unbounded = ok
recv abcdefghi r = line 2: can't be read
ends Unreadable { line: 2 }, status 2
";

/// Settling, and polled operations.
pub(crate) const POLLS: &str = "
# Settling.
row settling_three_receives
bounded 1 = ok
recv a r = ok
recv b r = ok
recv c r = ok
poll a = pending
poll b = pending
poll c = pending
try_send s 9 = ok wakes a
settle = polls 2: a ok 9, b pending
len r = 0
settle = polls 0
ends Done, status 0

row settling_after_a_closing
bounded 1 = ok
clone q r = ok
closed e s = ok
try_send s 1 = ok
send a s 2 = ok
send b s 3 = ok
poll a = pending
poll b = pending
try_recv r = ok 1 wakes a
recv c r = ok
poll e = pending
next q = pending
poll c = pending
close r = true wakes b c q e
settle = polls 5: a closed 2, b closed 3, c closed, q none, e ready
settle = polls 0
ends Done, status 0

row nobody_woken_to_settle
bounded 1 = ok
recv a r = ok
poll a = pending
settle = polls 0
ends Done, status 0

row a_woken_stream_is_settled_whose_receiver_is_borrowed
unbounded = ok
next r = pending
recv a r = ok
try_send s 1 = ok wakes r
next r = refused 6
settle = polls 1: r some 1
next r = refused 6
ends Done, status 0

row who_was_told_is_not_woken_again_and_keeps_its_place
bounded 2 = ok
recv a r = ok
next r = refused 6
drop a = ok
next r = pending
recv b r = ok
poll b = pending
try_send s 1 = ok wakes b r
try_send s 2 = ok
close s = true
settle = polls 2: b ok 1, r some 2
ends Done, status 0

row woken_by_the_polls_of_a_settling
unbounded = ok
clone q r = ok
recv a r = ok
recv b r = ok
poll a = pending
poll b = pending
next q = pending
send c s 7 = ok
poll c = ok wakes a q
send d s 8 = ok
settle = polls 3: a ok 7, q pending, b pending
poll d = ok wakes b q
settle = polls 2: b ok 8, q pending
ends Done, status 0

row one_polled_twice
bounded 1 = ok
recv b r = ok
poll b = pending
try_send s 1 = ok wakes b
send c s 2 = ok
poll c = pending
try_recv r = ok 1 wakes c
settle = polls 3: b pending, c ok, b ok 2
ends Done, status 0

row a_stream_polled_twice
bounded 1 = ok
clone q r = ok
recv b r = ok
poll b = pending
next q = pending
try_send s 1 = ok wakes b q
send c s 2 = ok
poll c = pending
settle = polls 4: b ok 1, q pending, c ok, q some 2
ends Done, status 0

# Polled operations.
row closing_wakes_a_receive
bounded 1 = ok
recv a r = ok
poll a = pending
drop r = refused 6
try_recv x = refused 3
close s = true wakes a
ends Done, status 0

row last_sender_dropped
unbounded = ok
recv a r = ok
poll a = pending
drop s = ok wakes a
poll a = closed
try_send s 1 = refused 3
ends Done, status 0

row sends_in_order_of_arrival
bounded 1 = ok
try_send s 1 = ok
send a s 2 = ok
send b s 3 = ok
poll a = pending
poll b = pending
try_recv r = ok 1 wakes a
poll a = ok wakes b
try_recv r = ok 2
poll b = ok
try_recv r = ok 3
ends Done, status 0

row told_receive_wakes_send_and_receive
bounded 1 = ok
recv a r = ok
recv b r = ok
send c s 2 = ok
poll a = pending
poll b = pending
try_send s 1 = ok wakes a
poll c = pending
poll a = ok 1 wakes c b
ends Done, status 0

row untold_receive_takes_the_message
unbounded = ok
recv a r = ok
recv b r = ok
recv c r = ok
poll a = pending
poll b = pending
poll c = pending
try_send s 1 = ok wakes a
poll b = ok 1
poll a = pending
try_send s 2 = ok wakes c
drop c = ok wakes a
poll a = ok 2
poll a = pending
ends Done, status 0

row finished_ones_polled_again
bounded 1 = ok
send a s 1 = ok
poll a = ok
poll a = pending
is_terminated a = true
drop s = refused 6
recv b r = ok
poll b = ok 1
poll b = pending
poll b = pending
drop a = ok
drop s = ok wakes b
poll b = closed
ends Done, status 0

row told_send_given_up
bounded 1 = ok
try_send s 1 = ok
send a s 2 = ok
send b s 3 = ok
poll a = pending
poll b = pending
try_recv r = ok 1 wakes a
drop a = ok wakes b
poll b = ok
ends Done, status 0

row untold_send_polled_keeps_its_place
bounded 1 = ok
try_send s 1 = ok
send a s 2 = ok
send b s 3 = ok
poll a = pending
poll b = pending
poll a = pending
try_recv r = ok 1 wakes a
ends Done, status 0

row taking_beside_a_told_send_tells_one_more
bounded 2 = ok
try_send s 1 = ok
try_send s 2 = ok
send a s 3 = ok
send b s 4 = ok
poll a = pending
poll b = pending
try_recv r = ok 1 wakes a
try_recv r = ok 2 wakes b
ends Done, status 0
";

/// Several at once, streams and notices of the closing, and handles.
pub(crate) const OTHERS: &str = "
# Several at once.
row as_many_sends_are_told_as_messages_were_taken
bounded 3 = ok
try_send s 1 = ok
try_send s 2 = ok
try_send s 3 = ok
send a s 4 = ok
send b s 5 = ok
send c s 6 = ok
poll a = pending
poll b = pending
poll c = pending
recv_many r 2 = ok 1 2 wakes a b
poll a = ok wakes c
poll b = ok
poll c = pending
recv_many r 10 = ok 3 4 5 wakes c
poll c = ok
recv_many r 10 = ok 6
recv_many r 10 = empty
close s = true
recv_many r 1 = closed
recv_many r 0 = ok
ends Done, status 0

row both_who_wait_are_told
bounded 2 = ok
try_send s 1 = ok
send a s 2 = ok
send b s 3 = ok
send c s 4 = ok
poll a = ok
poll b = pending
poll c = pending
recv_many r 9 = ok 1 2 wakes b c
close s = true
recv_many r 0 = ok
recv_many r 9 = closed
ends Done, status 0

row told_is_what_was_taken_not_what_was_wanted
bounded 1 = ok
try_send s 1 = ok
send a s 2 = ok
send b s 3 = ok
poll a = pending
poll b = pending
recv_many r 2 = ok 1 wakes a
ends Done, status 0

row after_a_message_was_displaced
bounded 2 = ok
try_send s 1 = ok
try_send s 2 = ok
send a s 4 = ok
poll a = pending
force_send s 3 = ok displaced 1
recv_many r 5 = ok 2 3 wakes a
poll a = ok
recv_many r 5 = ok 4
ends Done, status 0

row more_than_memory_has_room_for
unbounded = ok
try_send s 1 = ok
recv_many s 1 = refused 7
recv_many r 18446744073709551615 = want of memory
try_recv r
ends Memory, status 4

# Several at once over the end of a block.
row several_at_once_over_the_end_of_a_block
unbounded = ok
try_send s 1 = ok
try_send s 2 = ok
try_send s 3 = ok
try_send s 4 = ok
try_send s 5 = ok
try_send s 6 = ok
try_send s 7 = ok
try_send s 8 = ok
try_send s 9 = ok
try_send s 10 = ok
try_send s 11 = ok
try_send s 12 = ok
try_send s 13 = ok
try_send s 14 = ok
try_send s 15 = ok
try_send s 16 = ok
try_send s 17 = ok
try_send s 18 = ok
try_send s 19 = ok
try_send s 20 = ok
try_send s 21 = ok
try_send s 22 = ok
try_send s 23 = ok
try_send s 24 = ok
try_send s 25 = ok
try_send s 26 = ok
try_send s 27 = ok
try_send s 28 = ok
try_send s 29 = ok
try_send s 30 = ok
try_send s 31 = ok
try_send s 32 = ok
try_send s 33 = ok
try_send s 34 = ok
try_send s 35 = ok
try_send s 36 = ok
try_send s 37 = ok
try_send s 38 = ok
try_send s 39 = ok
try_send s 40 = ok
recv_many r 35 = ok 1 2 3 4 5 6 7 8 9 10 11 12 13 14 15 16 17 18 19 20 21 22 23 24 25 26 27 28 29 30 31 32 33 34 35
recv_many r 35 = ok 36 37 38 39 40
recv_many r 35 = empty
ends Done, status 0

# Streams and notices of the closing.
row closing_wakes_a_receive_a_stream_and_a_notice
unbounded = ok
clone q r = ok
recv a r = ok
closed c s = ok
poll a = pending
next q = pending
poll c = pending
close s = true wakes a q c
poll a = closed
next q = none
poll c = ready
ends Done, status 0

row last_receiver_dropped_with_its_stream_pending
unbounded = ok
send a s 1 = ok
closed c s = ok
poll c = pending
next r = pending
drop r = ok wakes r c
poll a = closed 1
poll c = ready
ends Done, status 0

row told_streams_dropped
unbounded = ok
clone p r = ok
clone q r = ok
next r = pending
next p = pending
next q = pending
try_send s 1 = ok wakes r p q
try_recv r = ok 1
next q = pending
drop r = ok
drop p = ok wakes q
drop q = ok
ends Done, status 0

row told_send_accepted
bounded 1 = ok
clone q r = ok
try_send s 1 = ok
send a s 2 = ok
send b s 3 = ok
poll a = pending
poll b = pending
try_recv r = ok 1 wakes a
recv c r = ok
poll c = pending
next q = pending
poll a = ok wakes c q b
ends Done, status 0

row closing_tells_all_lines
bounded 1 = ok
clone q r = ok
closed e s = ok
try_send s 1 = ok
send a s 2 = ok
send b s 3 = ok
poll a = pending
poll b = pending
try_recv r = ok 1 wakes a
recv c r = ok
poll e = pending
next q = pending
poll c = pending
close r = true wakes b c q e
poll b = closed 3
poll a = closed 2
ends Done, status 0

# Handles and questions.
row upgrade_of_a_closed_channel
unbounded = ok
downgrade w s = ok
close s = true
upgrade t w = none
upgrade t w = refused 4
sender_count t = refused 3
sender_count s = 1
ends Done, status 0

row clone_of_a_weak_handle
unbounded = ok
downgrade w r = ok
clone v w = ok
upgrade t v = ok
receiver_count t = 2
ends Done, status 0

row displacing_tells_no_send
bounded 1 = ok
recv a r = ok
recv b r = ok
poll a = pending
poll b = pending
try_send s 1 = ok wakes a
send c s 2 = ok
poll c = pending
force_send s 3 = ok displaced 1 wakes b
try_recv r = ok 3 wakes c
ends Done, status 0

row one_name_space
unbounded = ok
recv a r = ok
clone a r = refused 4
send s s 1 = refused 4
poll s = refused 7
try_send a 1 = refused 7
same_channel x a = refused 3
send a x 1 = refused 3
send a r 1 = refused 7
recv z z = refused 3
same_channel s r = refused 7
next s = refused 7
drop r = refused 6
send r a 1 = refused 7
drop a = ok
poll a = refused 3
recv a r = refused 4
ends Done, status 0

row upgrades_count_weak_drops_do_not
unbounded = ok
downgrade w r = ok
downgrade v s = ok
upgrade u w = ok
upgrade t v = ok
receiver_count s = 2
sender_count r = 2
drop w = ok
drop v = ok
receiver_count s = 2
sender_count r = 2
drop r = ok
is_closed s = false
drop u = ok
is_closed s = true
ends Done, status 0

row closed_before_full
bounded 1 = ok
try_send s 1 = ok
close s = true
try_send s 2 = closed 2
force_send s 3 = closed 3
send a s 4 = ok
is_terminated a = false
poll a = closed 4
is_terminated a = true
is_terminated r = false
try_recv r = ok 1
is_terminated r = true
ends Done, status 0

row questions
bounded 2 = ok
capacity s = 2
is_empty r = true
force_send s 1 = ok
len s = 1
force_send s 2 = ok
is_full r = true
same_channel s s = true
ends Done, status 0
";
