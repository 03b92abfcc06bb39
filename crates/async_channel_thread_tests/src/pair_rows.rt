//! What two threads say to each other, one with the sender and one with the receiver, row by row: lines that begin with `s` are the
//! sender's thread's, those with `r` the receiver's, and the calls are those of [`Side`](crate::pairs::Side). Most rows are of the
//! tests of `async-channel` 2.5.0, which have sleeps in the place of gates.

pub(crate) const PAIRS: &str = "
row tries_to_receive_of_a_hundred_places
bounded 100
r try_recv = empty
r open 1
s pass 1
s send_to_end 7 = sent
s drop
s open 2
r pass 2
r try_recv = received 7
r try_recv = over

row tries_to_receive_without_a_bound
unbounded
r try_recv = empty
r open 1
s pass 1
s send_to_end 7 = sent
s drop
s open 2
r pass 2
r try_recv = received 7
r try_recv = over

row receives_three_of_a_hundred_places
bounded 100
s send_to_end 7 = sent
s send_to_end 8 = sent
s send_to_end 9 = sent
s drop
r recv_to_end = received 7
r recv_to_end = received 8
r recv_to_end = received 9
r recv_to_end = over

row receives_three_without_a_bound
unbounded
s send_to_end 7 = sent
s send_to_end 8 = sent
s send_to_end 9 = sent
s drop
r recv_to_end = received 7
r recv_to_end = received 8
r recv_to_end = received 9
r recv_to_end = over

row tries_to_send
bounded 1
s try_send 1 = sent
s try_send 2 = full 2
s open 1
r pass 1
r try_recv = received 1
r try_recv = empty
r open 2
s pass 2
s try_send 3 = sent
r recv_to_end = received 3
r drop
r open 3
s pass 3
s try_send 4 = closed 4

row sends_four
bounded 1
s send_to_end 7 = sent
s send_to_end 8 = sent
s send_to_end 9 = sent
s send_to_end 10 = sent
s open 1
r recv_to_end = received 7
r recv_to_end = received 8
r recv_to_end = received 9
r pass 1
r try_recv = received 10

row forced_sends
bounded 1
s force_send 7 = sent
s force_send 8 = displaced 7
s open 1
r pass 1
r recv_to_end = received 8
r open 2
s pass 2
s force_send 9 = sent
s open 3
r pass 3
r recv_to_end = received 9
r open 4
s pass 4
s force_send 10 = sent
s open 5
r pass 5
r recv_to_end = received 10

# A thousand sends, each counted, and a thousand receives; and then many more at once, of which no more than a thousand are in the channel.
row lengths_between_threads
bounded 1000
s sends_counted 0 1000 = 1000
s open 1
r pass 1
r recvs_within 0 1000 1000 = 1000
r len = 0
r open 2
s pass 2
s sends_within 0 2500 1000 = 2500
r recvs_within 0 2500 1000 = 2500
s open 3
r pass 3
r len = 0
r open 4
s pass 4
s len = 0

row one_sender_one_receiver
bounded 3
s sends_to_end 0 10000 = 10000
s drop
r recvs_within 0 10000 3 = 10000
r recv_to_end = over

row one_sender_one_receiver_without_a_bound
unbounded
s sends_to_end 0 10000 = 10000
s drop
r recvs_within 0 10000 10000 = 10000
r recv_to_end = over

row a_dropped_receiver_wakes_a_sender
bounded 1
s send_to_end 1 = sent
s open 1
s send_to_end 2 = closed 2
r pass 1
r drop

row a_dropped_sender_wakes_a_receiver_of_one_place
bounded 1
s drop
r recv_to_end = over

row a_dropped_sender_wakes_a_receiver_without_a_bound
unbounded
s drop
r recv_to_end = over

row a_dropped_receiver_wakes_who_waits_for_the_closing
bounded 1
s send_to_end 7 = sent
s pass 1
s wait_for_closing 2 3 = pending true over true
r recv_to_end = received 7
r open 1
r pass 2
r drop
r open 3

row a_close_ends_a_blocked_send_of_one_place
bounded 1
s try_send 1 = sent
s open 1
s send_blocking 2 = closed 2
r pass 1
r close = true
r recv_blocking = received 1
r recv_blocking = over

row a_close_ends_a_blocked_send_of_two_places
bounded 2
s try_send 1 = sent
s try_send 2 = sent
s open 1
s send_blocking 3 = closed 3
r pass 1
r close = true
r close = false

row a_close_ends_a_blocked_receive
bounded 2
r open 1
r recv_blocking = over
s pass 1
s close = true
s close = false

# An operation that was polled once and is then left alone keeps nobody else from going on.
row a_forgotten_send
bounded 2
s send_to_end 3 = sent
s send_to_end 7 = sent
s forget_send 13 1 42 2 3 = pending sent
r pass 1
r recv_to_end = received 3
r recv_to_end = received 7
r pass 2
r try_recv = received 42
r open 3

row a_forgotten_receive
bounded 2
r forget_receive 1 2 3 = pending received 3
s pass 1
s send_to_end 3 = sent
s send_to_end 7 = sent
s pass 2
s try_send 42 = sent
s open 3
";
