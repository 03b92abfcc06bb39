//! What the handles of a channel answer beside a send that stands still: the lines are those of [`standing`](crate::standing).

pub(crate) const QUESTIONS: &str = "
row beside_a_push_into_blocks
moments = 4
is_closed s = false 2
is_empty s = false 3
is_full s = false 1
capacity s = none 1
sender_count s = 2 2
receiver_count s = 1 2
same_channel s = true 0
another_channel s = false 0
downgrade s = made 0
is_closed r = false 2
is_empty r = false 3
is_full r = false 1
capacity r = none 1
sender_count r = 2 2
receiver_count r = 1 2
same_channel r = true 0
another_channel r = false 0
is_terminated r = false 2
downgrade r = made 0

row beside_a_push_into_blocks_of_a_closed_channel
closed
moments = 4
is_closed s = true 2
is_empty s = false 3
is_full s = false 1
capacity s = none 1
sender_count s = 2 2
receiver_count s = 1 2
same_channel s = true 0
another_channel s = false 0
downgrade s = made 0
is_closed r = true 2
is_empty r = false 3
is_full r = false 1
capacity r = none 1
sender_count r = 2 2
receiver_count r = 1 2
same_channel r = true 0
another_channel r = false 0
is_terminated r = false 4
downgrade r = made 0

row beside_a_push_into_the_last_place_of_a_block
passed 30
moments = 7
is_closed s = false 2
is_empty s = false 3
is_full s = false 1
capacity s = none 1
sender_count s = 2 2
receiver_count s = 1 2
same_channel s = true 0
another_channel s = false 0
downgrade s = made 0
is_closed r = false 2
is_empty r = false 3
is_full r = false 1
capacity r = none 1
sender_count r = 2 2
receiver_count r = 1 2
same_channel r = true 0
another_channel r = false 0
is_terminated r = false 2
downgrade r = made 0

row beside_a_push_into_the_last_place_of_a_block_of_a_closed_channel
passed 30
closed
moments = 7
is_closed s = true 2
is_empty s = false 3
is_full s = false 1
capacity s = none 1
sender_count s = 2 2
receiver_count s = 1 2
same_channel s = true 0
another_channel s = false 0
downgrade s = made 0
is_closed r = true 2
is_empty r = false 3
is_full r = false 1
capacity r = none 1
sender_count r = 2 2
receiver_count r = 1 2
same_channel r = true 0
another_channel r = false 0
is_terminated r = false 4
downgrade r = made 0
";
