//! Histories, wrong ones beside ones that are like them and right, and threads that sleep when no call is under way, where they may and
//! where they must not. The lines are those of [`histories`](crate::histories).

/// What calls of one message each did.
pub(crate) const ORDERS: &str = "
row a_message_received_twice
call first 0 1 append 1
call second 2 3 take 1
call second 4 5 take 1
verdict = refused
forget second
call second 2 3 take 1
call second 4 5 bare
verdict = fits

row a_message_lost
call first 0 1 append 1
call first 2 3 append 2
call second 4 5 take 2
verdict = refused
forget second
call first 4 5 displace 1 3
call second 6 7 take 2
verdict = fits

row messages_out_of_order
call first 0 1 append 1
call first 2 3 append 2
call second 4 5 take 2
call second 6 7 take 1
verdict = refused
forget first
forget second
call first 0 3 append 1
call second 1 2 append 2
call second 4 5 take 2
call second 6 7 take 1
verdict = fits

row one_number_for_two_messages
call first 0 1 append 1
call first 2 3 append 2
call second 4 5 take 1
call second 6 7 take 2
call first 8 9 append 1
call second 10 11 take 1
verdict = fits

row in_first_what_leaves_first
call first 0 20 append 1
call second 2 3 append 2
call third 4 5 take 1
call third 6 7 take 2
verdict = fits
forget third
call third 4 5 take 2
call third 6 7 take 1
verdict = fits
forget third
call third 4 8 take 2
call second 5 9 take 1
verdict = fits

row empty_beside_a_message
call second 2 3 bare
call second 4 5 take 1
call first 0 1 append 1
verdict = refused
forget first
call first 0 3 append 1
verdict = fits

row a_send_after_the_closing
call second 2 3 append 1
call first 0 1 close
verdict = refused
forget first
call first 0 3 close
verdict = fits

row between_the_steps_of_a_displacing_send
call first 0 1 append 1
call first 2 3 append 2
call first 4 20 displace 1 3
call second 6 7 take 2
call second 8 9 append 9
call second 21 22 take 9
call second 23 24 take 3
verdict = refused
forget second
call second 6 7 take 2
call second 8 9 append 9
call second 21 22 take 3
call second 23 24 take 9
verdict = fits
forget second
call second 6 7 take 2
call second 8 9 bare
call second 21 22 take 3
verdict = refused
forget second
call second 6 7 take 2
call second 8 9 empty
call second 21 22 take 3
verdict = fits

row open_after_the_last_drop
call second 2 3 open
call first 0 1 drop senders
verdict = refused
forget first
call first 0 3 drop senders
verdict = fits
forget first
forget second
call first 0 1 drop senders
call first 4 5 clone senders
verdict = refused
forget first
call first 0 1 clone senders
call first 4 5 drop senders
call second 2 3 open
verdict = fits

row an_order_that_is_told_late
call first 0 100 append 1
call first 0 100 clone senders
call first 0 100 clone senders
call first 0 100 clone senders
call first 0 100 clone senders
call first 0 100 clone senders
call first 0 100 clone senders
call first 0 100 clone senders
call first 0 100 clone senders
call first 0 100 clone senders
call first 0 100 clone senders
call first 0 100 clone senders
call first 0 100 clone senders
call second 0 99 append 2
call second 0 99 clone receivers
call second 0 99 clone receivers
call second 0 99 clone receivers
call second 0 99 clone receivers
call second 0 99 clone receivers
call second 0 99 clone receivers
call second 0 99 clone receivers
call second 0 99 clone receivers
call second 0 99 clone receivers
call second 0 99 clone receivers
call second 0 99 clone receivers
call second 0 99 clone receivers
call third 101 102 take 1
call third 103 104 take 2
verdict = fits
";

/// What receives of several messages did.
pub(crate) const SEVERAL: &str = "
row several_out_of_order
call first 0 1 append 1
call first 2 3 append 2
several second 4 5 2 2 2 1
verdict = refused
forget second
several second 4 5 2 1 2
verdict = refused
forget second
several second 4 5 2 2 1 2
verdict = fits
forget first
call first 0 3 append 1
call first 1 2 append 2
verdict = fits

row fewer_than_wanted_beside_a_message
call first 0 1 append 1
call first 2 3 append 2
several second 4 5 2 1 1
verdict = refused
forget first
call first 0 1 append 1
call first 2 5 append 2
verdict = fits
forget first
forget second
call first 0 1 append 1
call first 2 3 append 2
several second 4 5 1 1 1
verdict = fits

row others_come_between
call first 0 1 append 1
call first 2 3 append 2
call first 6 7 take 2
call first 8 9 append 3
several second 4 11 2 2 1 3
verdict = fits
forget first
call first 0 1 append 1
call first 2 3 append 2
call first 8 9 append 3
call first 12 13 take 2
verdict = refused
forget second
several second 4 11 2 2 1 2
verdict = refused

row fewer_than_wanted_beside_one_on_its_way
call first 0 1 append 1
call first 2 3 append 2
call first 4 20 displace 1 3
several second 6 7 3 1 2
verdict = refused
forget second
several second 6 7 3 2 2 3
verdict = fits

row more_than_wanted_or_none
call first 0 1 append 1
call first 2 3 append 2
several second 4 5 1 2 1 2
fault = spoiled
forget second
several second 4 5 2 0
fault = spoiled
forget second
several second 4 5 0 0
fault = none
forget second
several second 4 5 2 2 1 2
fault = none
";

/// Who sleeps where no call is under way.
pub(crate) const RESTS: &str = "
row one_that_waits
see nobody asleep 1
rest = true
see receive asleep 1
rest = false
see receive woken 1
rest = true
see receive asleep 0
rest = true
see send asleep 1
rest = false
see send asleep 2
rest = true
see stream asleep 1
rest = false
see stream asleep 0
rest = true
see blocked_receive asleep 1
rest = false
see blocked_receive asleep 0
rest = true
see blocked_send asleep 1
rest = false
see blocked_send asleep 2
rest = true
see closing asleep 1
rest = true
see_shut closing asleep 1
rest = false

row one_that_is_woken_answers_for_one_message
see receive asleep 1
see receive woken 1
rest = true
see receive asleep 2
see receive woken 2
rest = false
see blocked_receive asleep 1
see receive woken 1
rest = true
";
