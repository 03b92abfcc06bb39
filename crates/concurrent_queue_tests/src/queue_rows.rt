//! What queues answer on one thread, row by row: the calls are those of [`Queues`](crate::queues::Queues).

pub(crate) const QUEUES: &str = "
row one_slot_one_at_a_time
alone 1
capacity = 1
is_empty = true
push 10 = pushed
is_full = true
len = 1
push 20 = full 20
force 30 = displaced 10
pop = popped 30
pop = empty
force 40 = forced
close = true
close = false
is_closed = true
push 50 = closed 50
force 60 = closed 60
pop = popped 40
pop = shut

row a_ring_displaces_its_oldest
alone 3
force 1 = forced
force 2 = forced
force 3 = forced
push 4 = full 4
force 5 = displaced 1
force 6 = displaced 2
is_full = true
len = 3
close = true
force 7 = closed 7
pop = popped 3
pop = popped 5
pop = popped 6
pop = shut

row a_capacity_too_great_is_refused
alone 288230376151711745 = memory
shared 288230376151711745 = memory

# A walk that ends early leaves the rest, and one to its end gives it and leaves nothing.
row walked_to_its_end_or_dropped_early
alone 1
push 10 = pushed
walk_unread
len = 1
walk 10 = 1
is_empty = true
alone 2
push 10 = pushed
walk_unread
len = 1
walk 10 = 1
is_empty = true
alone 0
push 10 = pushed
walk_unread
len = 1
walk 10 = 1
is_empty = true

row a_walk_gives_the_messages_in_order
alone 0
pushes 0 100 = 100
walk 0 = 100
is_empty = true

row messages_without_a_bound_come_in_order
alone 0
capacity = none
pushes 0 32 = 32
len = 32
force 32 = forced
is_full = false
pops 0 33 = 33
is_empty = true
pop = empty
close = true
push 7 = closed 7
pop = shut

# Again and again.
row messages_come_in_order
shared 1
rounds 10 1 = 10
pop = empty
is_empty = true
shared 2
rounds 10 2 = 20
pop = empty
is_empty = true
shared 3
rounds 10 3 = 30
pop = empty
is_empty = true
shared 4
rounds 10 4 = 40
pop = empty
is_empty = true
shared 5
rounds 10 5 = 50
pop = empty
is_empty = true
shared 0
rounds 10 100 = 1000
pop = empty
is_empty = true

row a_full_queue_refuses_or_displaces
shared 1
forces 0 1 = 1
is_full = true
len = 1
push 7 = full 7
force 8 = displaced 0
close = true
close = false
is_closed = true
push 9 = closed 9
force 9 = closed 9
len = 1
capacity = 1
shared 2
forces 0 2 = 2
is_full = true
len = 2
push 7 = full 7
force 8 = displaced 0
close = true
close = false
is_closed = true
push 9 = closed 9
force 9 = closed 9
len = 2
capacity = 2
shared 3
forces 0 3 = 3
is_full = true
len = 3
push 7 = full 7
force 8 = displaced 0
close = true
close = false
is_closed = true
push 9 = closed 9
force 9 = closed 9
len = 3
capacity = 3

row an_unbounded_queue_is_never_full
shared 0
is_full = false
forces 0 1 = 1
is_full = false
forces 1 50 = 49
is_full = false
forces 50 100 = 50
is_full = false
len = 100
capacity = none
close = true
close = false
is_closed = true
push 9 = closed 9
force 9 = closed 9
pop = popped 0
";
