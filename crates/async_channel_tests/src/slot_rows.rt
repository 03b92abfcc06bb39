//! What calls of a channel of one slot do, step by step: the calls are those of [`Slots`](crate::slots::Slots).

pub(crate) const STEPS: &str = "
row a_message_that_comes_between_two_tries_is_taken
bounded 1
begin 2 poll_recv 1 = goes on
begin 3 try_send 5 = goes on
go 0 5 = received 5
go 1 2 = sent
woken = nobody

row a_pending_receive_is_woken_by_the_section_after_the_push
bounded 1
begin 4 poll_recv 1 = pending
begin 3 try_send 5 = goes on
woken = nobody
go 1 1 = goes on
woken = 1
go 1 1 = sent

# Two sends wait, and the first is given up after the taking and before its section, which wakes the second.
row a_taking_wakes_the_send_that_still_waits
bounded 1
try_send 1 = sent
poll_send 2 2 = pending listens
poll_send 3 3 = pending listens
begin 3 try_recv = goes on
give_up_send 2 = given_up 2
woken = nobody
go 0 1 = received 1
woken = 3
begin 6 poll_send 3 3 = sent

# Two receives, a stream and a wait for the closing wait. A forced message wakes the first and the stream; where the first is refused its
# waker it passes its notice on. Then the last sender is dropped while two receivers live: who waits for the closing is woken, and the
# rest is received.
row a_refused_poll_passes_on_and_the_last_sender_closes
bounded 1
poll_recv 1 = pending listens
poll_recv 2 = pending listens
poll_next 3 = pending listens
poll_closed 4 = pending listens
force_send 7 = sent
woken = 1 3
refuse_recv 1 = memory
woken = 1 3 2
clone_receiver = made
count_receivers = 2
drop_sender = done
woken = 1 3 2 4
upgrade_receiver = none
is_terminated = false
poll_next 3 = received 7
is_terminated = true
try_send 8 = closed 8
poll_closed 4 = ready
";
