//! Interleavings by names, step by step: the calls are those of [`Worlds`](crate::worlds::Worlds).

/// Rows that are wrong in one mark: another mark, one at another step, and one too few. Their calls and replies are right.
pub(crate) const WRONG_MARKS: [&str; 4] = [
    "
row a_take_in_place_of_an_append
bounded 1
begin 0 1 recv 0 r = made
begin 0 2 poll 0 = goes on
marked begin 1 3 try_send s 5 = take nothing nothing
",
    "
row an_append_one_step_late
bounded 1
begin 0 1 recv 0 r = made
begin 0 2 poll 0 = goes on
marked begin 1 3 try_send s 5 = nothing append nothing
",
    "
row a_taking_that_displaces_without_its_mark
bounded 2
begin 0 7 try_send s 1 = sent
begin 0 7 try_send s 2 = sent
marked begin 1 3 force_send s 3 = nothing nothing nothing
",
    "
row a_taking_that_is_marked_as_displaced
bounded 1
begin 0 5 try_send s 1 = sent
marked begin 3 3 try_recv r = take displaced nothing nothing
",
];

pub(crate) const ROWS: &str = "
row a_message_between_two_tries_is_taken
bounded 1
begin 0 1 recv 0 r = made
marked begin 0 2 poll 0 = nothing nothing
marked begin 1 3 try_send s 5 = append nothing nothing
marked go 0 5 = take nothing nothing nothing nothing received 5
marked go 1 2 = nothing nothing sent
is_quiet = true

row a_pending_receive_is_woken_after_the_push
bounded 1
begin 0 1 recv 0 r = made
marked begin 0 4 poll 0 = nothing nothing nothing nothing pending
marked begin 1 1 try_send s 5 = append
numbers = 1 1 0 1
marked go 1 1 = nothing
numbers = 1 1 0 1
marked go 1 1 = nothing
numbers = 1 1 0 1
marked go 1 1 = nothing wakes 0
numbers = 1 1 1 1
marked go 1 1 = nothing sent

row a_taking_wakes_the_send_that_still_waits
bounded 1
marked begin 0 5 try_send s 1 = append nothing nothing nothing nothing sent
begin 0 1 send 0 s 2 = made
marked begin 0 4 poll 0 = nothing nothing nothing nothing pending
begin 0 1 send 1 s 3 = made
marked begin 0 4 poll 1 = nothing nothing nothing nothing pending
marked begin 3 3 try_recv r = take nothing nothing
marked begin 1 1 give_up 0 = nothing given_up 2
marked go 3 1 = nothing received 1 wakes 1
marked begin 2 6 poll 1 = append nothing nothing nothing nothing nothing sent
is_quiet = true

# Two places are free beside two sends that wait, with one call under way and nobody woken: the places that it has not announced answer
# for them, and no number of calls does.
row several_at_once_free_places_before_they_announce_them
bounded 2
whole 0 try_send s 1 = sent
whole 0 try_send s 2 = sent
whole 0 send 0 s 3 = made
whole 0 poll 0 = pending
whole 0 send 1 s 4 = made
whole 0 poll 1 = pending
marked begin 3 4 recv_many r 2 = nothing nothing nothing take
numbers = 1 2 0 1
marked go 3 5 = nothing nothing nothing nothing take
numbers = 0 2 0 1
marked go 3 2 = nothing nothing
marked go 3 1 = nothing received 1 2 wakes 0 1
numbers = 0 2 2 0

row a_stream_is_pending_beside_a_message_that_is_not_told_yet
unbounded
marked begin 0 8 next r = nothing nothing nothing nothing nothing nothing nothing nothing pending
marked begin 1 8 try_send s 7 = nothing nothing nothing nothing nothing append nothing nothing
marked begin 0 1 next r = nothing pending
numbers = 1 1 0 1
marked go 1 1 = nothing
marked go 1 1 = nothing sent wakes stream 1
marked begin 0 9 next r = nothing nothing nothing nothing take nothing nothing nothing nothing next 7

row a_message_on_its_way_is_still_received
bounded 2
marked begin 0 7 try_send s 1 = nothing nothing append nothing nothing nothing nothing sent
marked begin 0 7 try_send s 2 = nothing nothing append nothing nothing nothing nothing sent
marked begin 1 3 force_send s 3 = nothing nothing take displaced
marked begin 2 5 close s = close nothing nothing nothing nothing true
marked begin 3 6 try_recv r = nothing nothing take nothing nothing nothing received 2
marked begin 4 3 is_terminated r = nothing nothing nothing true
marked begin 5 2 try_recv r = nothing nothing
marked go 1 6 = append nothing nothing nothing nothing nothing displaced 1
marked go 5 6 = nothing nothing take nothing nothing nothing received 3
marked begin 0 3 try_recv r = nothing nothing nothing over
marked begin 0 1 try_send s 4 = nothing closed 4

# What a call says that begins while another is under way, or after it.
row calls_are_refused_by_names
bounded 1
begin 0 1 recv 0 r = made
begin 0 0 try_recv r = goes on
begin 1 0 try_recv 9 = stopped unknown_name 0 after 0 left 1
bounded 1
begin 0 1 recv 0 r = made
begin 0 0 send 1 s 5 = goes on
begin 1 0 poll 1 = stopped unknown_name 0 after 0 left 1
bounded 1
begin 0 1 recv 0 r = made
begin 0 0 drop s = goes on
begin 1 0 try_send s 5 = stopped unknown_name 0 after 0 left 1
bounded 1
begin 0 1 recv 0 r = made
begin 0 0 give_up 0 = goes on
begin 1 0 poll 0 = stopped unknown_name 0 after 0 left 1
bounded 1
begin 0 1 recv 0 r = made
begin 0 0 poll 0 = goes on
begin 1 0 poll 0 = stopped op_under_way 0 after 0 left 1
bounded 1
begin 0 1 recv 0 r = made
begin 0 2 poll 0 = goes on
begin 1 0 give_up 0 = stopped op_under_way 0 after 0 left 1
bounded 1
begin 0 1 recv 0 r = made
begin 0 0 try_send s 5 = goes on
begin 1 0 drop r = stopped borrowed 0 after 0 left 1
bounded 1
begin 0 1 recv 0 r = made
begin 0 0 send 0 s 5 = stopped name_taken 0 after 0 left 1
begin 1 0 send 1 s 5 = goes on
bounded 1
begin 0 1 recv 0 r = made
begin 0 0 send 1 s 5 = goes on
begin 1 0 send 1 s 6 = stopped name_taken 0 after 0 left 1
bounded 1
begin 0 1 recv 0 r = made
begin 0 0 try_send s 5 = goes on
begin 1 0 send 0 s 5 = stopped name_taken 0 after 0 left 1
bounded 1
begin 0 1 recv 0 r = made
begin 0 5 try_send s 5 = sent
begin 1 0 try_recv s = stopped wrong_kind 0 after 0 left 1

row a_polled_stream_is_not_used
bounded 1
begin 0 0 next r = goes on
begin 1 0 try_recv r = stopped op_under_way 0 after 0 left 1

row a_used_receiver_is_not_polled_as_a_stream
bounded 1
begin 0 0 try_recv r = goes on
begin 1 0 next r = stopped borrowed 0 after 0 left 1
go 7 1 = stopped idle 0 after 0 left 1
";

/// Lists of steps that are refused: at which place, and why. What stands after is what the steps before came to.
pub(crate) const REFUSED: &str = "
row names_that_do_not_fit
bounded 1
then go 7 1
run_steps = stopped idle 0 after 0 left 1
numbers = 0 0 0 0
then begin 0 0 try_recv 9
run_steps = stopped unknown_name 0 after 0 left 1
numbers = 0 0 0 0
then begin 0 0 try_recv s
run_steps = stopped wrong_kind 0 after 0 left 1
numbers = 0 0 0 0
then begin 0 1 recv 0 r
then begin 0 0 recv 0 r
run_steps = made stopped name_taken 2 after 2 left 1
numbers = 0 0 0 0
bounded 1
then begin 0 1 recv 0 r
then begin 0 0 recv 0 s
run_steps = made stopped wrong_kind 2 after 2 left 1
numbers = 0 0 0 0

row names_in_use
bounded 1
then begin 0 1 recv 0 r
then begin 0 0 poll 0
then begin 1 0 poll 0
run_steps = made stopped op_under_way 3 after 3 left 1
numbers = 0 0 0 1
bounded 1
then begin 0 0 next r
then begin 1 0 try_recv r
run_steps = stopped op_under_way 1 after 1 left 1
numbers = 0 0 0 1
bounded 1
then begin 0 0 try_recv r
then begin 1 0 next r
run_steps = stopped borrowed 1 after 1 left 1
numbers = 0 0 0 1
bounded 1
then begin 0 1 recv 0 r
then begin 0 0 drop r
run_steps = made stopped borrowed 2 after 2 left 1
numbers = 0 0 0 0
bounded 1
then begin 0 0 try_recv r
then begin 0 0 try_recv 9
run_steps = stopped busy 1 after 1 left 1
numbers = 0 0 0 1

# The step that is refused stays in front, with the begin that it is: once the first send has ended, the second begins.
row a_refused_step_stays_in_front
bounded 1
then begin 0 0 try_send s 1
then begin 0 0 try_send s 2
then go 0 1
run_front = stopped busy 1 after 1 left 2
numbers = 0 0 0 1
run_front = stopped busy 0 after 0 left 2
party 0 300 = append nothing nothing nothing nothing sent in 5
run_front = full 2
";

/// A full channel of two places: a send that displaces makes so many steps, several are received at once, and the send goes on. What
/// is displaced, what is received at once and what is left are the three messages, each once and in order, wherever the one call stands
/// between the other's steps, and after them. Once the oldest is displaced, several are received with the message that is on its way.
pub(crate) const SEVERAL: &str = "
row several_at_once_beside_a_displacing_send
bounded 2
whole 0 try_send s 1 = sent
whole 0 try_send s 2 = sent
begin 0 1 force_send s 3 = goes on
whole 1 recv_many r 5 = received 1 2
end 0 = sent
end 1 = stopped idle 0 after 0 left 1
whole 1 try_recv r = received 3
bounded 2
whole 0 try_send s 1 = sent
whole 0 try_send s 2 = sent
begin 0 2 force_send s 3 = goes on
whole 1 recv_many r 5 = received 1 2
end 0 = sent
end 1 = stopped idle 0 after 0 left 1
whole 1 try_recv r = received 3
bounded 2
whole 0 try_send s 1 = sent
whole 0 try_send s 2 = sent
begin 0 3 force_send s 3 = goes on
whole 1 recv_many r 5 = goes on
end 0 = displaced 1
end 1 = received 2 3
whole 1 try_recv r = empty
bounded 2
whole 0 try_send s 1 = sent
whole 0 try_send s 2 = sent
begin 0 4 force_send s 3 = goes on
whole 1 recv_many r 5 = goes on
end 0 = displaced 1
end 1 = received 2 3
whole 1 try_recv r = empty
bounded 2
whole 0 try_send s 1 = sent
whole 0 try_send s 2 = sent
begin 0 5 force_send s 3 = goes on
whole 1 recv_many r 5 = goes on
end 0 = displaced 1
end 1 = received 2 3
whole 1 try_recv r = empty
bounded 2
whole 0 try_send s 1 = sent
whole 0 try_send s 2 = sent
begin 0 6 force_send s 3 = goes on
whole 1 recv_many r 5 = goes on
end 0 = displaced 1
end 1 = received 2 3
whole 1 try_recv r = empty
bounded 2
whole 0 try_send s 1 = sent
whole 0 try_send s 2 = sent
begin 0 7 force_send s 3 = goes on
whole 1 recv_many r 5 = received 2 3
end 0 = displaced 1
end 1 = stopped idle 0 after 0 left 1
whole 1 try_recv r = empty
bounded 2
whole 0 try_send s 1 = sent
whole 0 try_send s 2 = sent
begin 0 8 force_send s 3 = goes on
whole 1 recv_many r 5 = received 2 3
end 0 = displaced 1
end 1 = stopped idle 0 after 0 left 1
whole 1 try_recv r = empty
bounded 2
whole 0 try_send s 1 = sent
whole 0 try_send s 2 = sent
begin 0 9 force_send s 3 = displaced 1
whole 1 recv_many r 5 = received 2 3
end 0 = stopped idle 0 after 0 left 1
end 1 = stopped idle 0 after 0 left 1
whole 1 try_recv r = empty
";
