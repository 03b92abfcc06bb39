//! What lists of one owner do, row by row: the calls are those of [`Lists`](crate::lists::Lists).

pub(crate) const ROWS: &str = "
row additional_notices_tell_more_and_others_count_the_told
inserts 3
notify_additional 1 10 = 1
notify 1 20 = 0
notify_additional 1 30 = 1
poll 0 = 10
poll 1 = 30
poll 2 = waits
woken = nobody

row a_told_listener_that_leaves_passes_its_notice_on
inserts 4
register 0 1 = waits
register 1 2 = waits
register 2 3 = waits
register 3 4 = waits
notify_additional 1 10 = 1
notify 2 20 = 1
leave 0 = told
told = 2
total = 3
poll 1 = 20
poll 2 = 10
poll 3 = waits
woken = 1 2 3

row a_run_answers_as_its_calls_do_one_by_one
later insert
later insert
later insert
later insert
later register 0 1
later register 1 2
later register 2 3
later register 3 4
later notify_additional 1 10 1
later notify 2 20 2
later leave 0
later poll 1
later poll 2
later poll 3
later poll 4
run = inserted inserted inserted inserted waits waits waits waits 1 1 told 20 10 waits unknown
woken = 1 2 3

row a_run_tells_no_more_than_it_has_tags
later reserve 2
later insert
later insert
later notify 2 7 1
run = reserved inserted inserted refused after 1
told = 1
total = 2

row tags_are_given_in_the_order_of_listening
inserts 3
notify 2 10 = 2
poll 0 = 10
poll 1 = 11
poll 2 = waits
poll 1 = unknown

row a_passed_notice_keeps_its_tag
insert
notify 1 7 = 1
insert
leave 0 = told
poll 1 = 7

row a_listener_taken_off_without_passing_on_tells_nobody
inserts 2
notify 1 7 = 1
discard 0 = told
poll 1 = waits
discard 1 = waited
total = 0

row a_notice_for_nobody_is_not_kept
notify 5 7 = 0
insert
poll 0 = waits

# The first leaves untold, and the second takes its slot.
row a_key_of_one_that_left_is_refused
insert
leave 0 = waited
insert
same 0 1 = false
register 1 2 = waits
register 0 1 = unknown
poll 0 = unknown
leave 0 = unknown
total = 1
notify 1 7 = 1
register 0 1 = unknown
poll 0 = unknown
leave 0 = unknown
register 1 3 = 7
# The third leaves told, and the fourth takes its slot.
insert
notify 1 6 = 1
leave 2 = told
insert
same 2 3 = false
register 3 2 = waits
register 2 1 = unknown
poll 2 = unknown
leave 2 = unknown
total = 1
notify 1 7 = 1
register 2 1 = unknown
poll 2 = unknown
leave 2 = unknown
register 3 3 = 7
total = 0
woken = 2 2

row the_newer_task_is_woken
insert
register 0 1 = waits
register 0 2 = waits
notify 1 7 = 1
woken = 2

row reserved_room_takes_as_many_insertions
reserve 100
inserts 100
total = 100
told = 0

# Its own node is not counted; what asks, polls or makes room leaves the number as it was.
row each_visit_of_another_node_is_counted_once
insert
visits = 0
insert
visits = 1
inserts 2
register 1 2 = waits
visits = 0
notify_additional 1 10 = 1
visits = 4
poll 0 = 10
reserve 100
told = 0
total = 3
visits = 4
# A node between two others has both neighbours written, the last one its neighbour.
discard 2 = waited
visits = 2
discard 3 = waited
visits = 1
# One behind another told one: a link of that one is written too. A told one that passes its notice on tells the next, which counts as in a notice.
inserts 2
notify_additional 1 20 = 1
visits = 4
notify_additional 1 30 = 1
visits = 5
leave 4 = told
visits = 5
poll 5 = 30
poll 1 = 20
visits = 5

# Three told at once, behind a told one and before one that waits: each state is read and written, and four links are written.
row three_told_at_once_are_counted
inserts 5
notify_additional 1 40 = 1
visits = 4
notify_additional 3 50 = 3
visits = 10
poll 3 = 52
poll 0 = 40
poll 2 = 51
poll 1 = 50
poll 4 = waits

# Ten thousand, every second of which leaves, and the others are told one by one.
row no_call_visits_more_than_five_others
visits = 0
listens 10000 = 10000
each discard 0 10000 = waited 5000
total = 5000
tells 5000 7 = 5000
most_visits = 5
woken_by 1 2 = 5000
notify_additional 1 7 = 0
visits = 0
told = 5000

# Ten thousand, half of them told, every second of which another one replaces; then those that are left of the first register.
row no_call_visits_more_than_five_others_where_half_are_told
inserts 10000
tells 5000 7 = 5000
each replace 0 5000 = told 2500
each replace 5000 10000 = waited 2500
told = 2500
total = 10000
each register 1 5000 = 7 2500
each register 5001 10000 = waits 2500
told = 0
total = 7500
most_visits = 5
";
