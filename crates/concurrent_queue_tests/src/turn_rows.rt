//! What steps of parties on a queue do, row by row: the lines are those of [`Turns`](crate::turns::Turns).

pub(crate) const TURNS: &str = "
row a_push_waits_while_a_pop_reads
begin 1 3 push 1
begin 2 1 pop
begin 3 1 push 2
go 2 2
go 3 3
run 1 0 = 1 append 3 pushed 5 take 9 popped 1 10 append 12 pushed entries 13 3

row a_closing_has_its_mark
begin 1 1 close
run 1 0 = 1 close closed it entries 2 1

row a_refused_step_stays_in_front
begin 1 1 push 1
begin 1 0 push 2
run 1 0 = 1 append entries 2 0 stopped busy 2 left 1
go 7 1
run 1 0 = entries 0 0 stopped idle 0 left 1

# Two messages go in; a displacing push takes the oldest, the queue is closed, a pop takes the other; a pop waits for the message on its
# way and gets it.
row a_pop_waits_for_a_displacing_push
begin 0 5 push 1
begin 1 5 push 2
begin 2 3 force 3
begin 3 1 close
begin 4 5 pop
begin 5 2 pop
go 2 4
go 5 5
begin 6 3 pop
run 2 0 = 3 append 5 pushed 9 append 11 pushed 15 displace 17 close closed it 21 take 23 popped 2 27 append 30 displaced 1 33 take 35 popped 3 39 shut entries 40 7

# The same, with questions: between its two steps the displacing push leaves the queue closed and empty, and yet no pop says so.
row a_closed_queue_stays_closed_under_a_displacing_push
begin 0 5 push 1
begin 0 5 push 2
begin 2 3 force 3
begin 3 1 close
begin 4 5 pop
begin 4 1 is_closed
begin 4 2 is_empty
begin 5 2 pop
go 2 4
go 5 5
begin 4 3 pop
begin 0 1 push 4
run 2 0 = 3 append 5 pushed 9 append 11 pushed 15 displace 17 close closed it 21 take 23 popped 2 25 yes 28 yes 32 append 35 displaced 1 38 take 40 popped 3 44 shut 46 closed 4 entries 47 10

# Thirty messages go in and out again, in 423 entries: the first push takes 8 steps, each other one 5, each pop 7.
row a_pop_waits_for_the_link_at_the_end_of_a_block
begin 0 8 push 0
begin 0 5 push 1
begin 0 5 push 2
begin 0 5 push 3
begin 0 5 push 4
begin 0 5 push 5
begin 0 5 push 6
begin 0 5 push 7
begin 0 5 push 8
begin 0 5 push 9
begin 0 5 push 10
begin 0 5 push 11
begin 0 5 push 12
begin 0 5 push 13
begin 0 5 push 14
begin 0 5 push 15
begin 0 5 push 16
begin 0 5 push 17
begin 0 5 push 18
begin 0 5 push 19
begin 0 5 push 20
begin 0 5 push 21
begin 0 5 push 22
begin 0 5 push 23
begin 0 5 push 24
begin 0 5 push 25
begin 0 5 push 26
begin 0 5 push 27
begin 0 5 push 28
begin 0 5 push 29
begin 0 7 pop
begin 0 7 pop
begin 0 7 pop
begin 0 7 pop
begin 0 7 pop
begin 0 7 pop
begin 0 7 pop
begin 0 7 pop
begin 0 7 pop
begin 0 7 pop
begin 0 7 pop
begin 0 7 pop
begin 0 7 pop
begin 0 7 pop
begin 0 7 pop
begin 0 7 pop
begin 0 7 pop
begin 0 7 pop
begin 0 7 pop
begin 0 7 pop
begin 0 7 pop
begin 0 7 pop
begin 0 7 pop
begin 0 7 pop
begin 0 7 pop
begin 0 7 pop
begin 0 7 pop
begin 0 7 pop
begin 0 7 pop
begin 0 7 pop
begin 1 4 push 31
begin 2 1 push 32
begin 3 4 pop
begin 4 2 is_empty
go 3 1
go 1 3
go 3 4
go 1 2
go 3 4
go 2 5
run 0 423 = 427 append 434 take 437 yes 447 pushed 451 popped 31 454 append 456 pushed entries 457 64
";
