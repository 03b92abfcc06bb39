//! What calls of a queue do where memory is wanted or positions come to their end, row by row: the calls are those of
//! [`Wanting`](crate::scarce::Wanting).

pub(crate) const WANTS: &str = "
row a_refused_push_changes_nothing
blocks 0
push 5 = no memory 5
len = holds 0
more 1
passes 5 6 = 1

row two_blocks_serve_one_message_at_a_time
blocks 2
passes 1 32 = 31
more 0
passes 32 1001 = 969

# Four blocks are made, and three of them given back: these serve three times 31 messages more, and then one is wanted.
row blocks_that_were_given_back_take_no_memory
blocks 4
pushes 0 100 = 100
pops 0 100 = 100
more 0
pushes 100 216 = 116
push 216 = no memory 216
pops 100 216 = 116

row a_refused_block_after_the_first_changes_nothing
blocks 1
pushes 0 30 = 30
push 30 = no memory 30
len = holds 30
force 31 = no memory 31
more 1
force 31 = forced
pops 0 30 = 30
pops 31 32 = 1

# Each of the blocks that a hundred messages take is refused once, and then none.
row each_block_refused_once_loses_nothing
blocks 0
push 0 = no memory 0
len = holds 0
more 9
pushes 0 100 = 100
pops 0 100 = 100
blocks 1
pushes 0 30 = 30
push 30 = no memory 30
len = holds 30
more 9
pushes 30 100 = 70
pops 0 100 = 100
blocks 2
pushes 0 61 = 61
push 61 = no memory 61
len = holds 61
more 9
pushes 61 100 = 39
pops 0 100 = 100
blocks 3
pushes 0 92 = 92
push 92 = no memory 92
len = holds 92
more 9
pushes 92 100 = 8
pops 0 100 = 100
blocks 4
pushes 0 100 = 100
pops 0 100 = 100

# The tail stands at the last position that there is.
row positions_at_their_end_close_the_queue
blocks 1
tail 18446744073709551488
begin push 7
step = goes on
step = closed 7
mark = close
is_closed = yes
close = was closed

# The tail stands at the last lap that there is.
row laps_at_their_end_close_a_ring
ring 2
tail 18446744073709551608
begin push 7
step = goes on
step = closed 7
mark = close
is_closed = yes
close = was closed

row questions_and_closing
blocks 9
is_empty = yes
pop = empty
push 1 = pushed
is_empty = no
is_full = no
capacity = no bound
len = holds 1
close = closed it
push 2 = closed 2
pop = popped 1
pop = shut
";
