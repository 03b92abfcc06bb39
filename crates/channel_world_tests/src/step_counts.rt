//! How many steps each call takes where no other is under way, per form.

use crate::checks::expect_equal;
use crate::worlds::Worlds;
use std::alloc::{AllocError, Global};
use std::test::Fail;
use worked_rows::answers_of;

/// Calls, the last of which is counted; what it answers; and how many steps it takes after its begin over one place, over three
/// places and without a bound. A line stands for those forms alone that have a number.
const COUNTS: &str = "
try_send s 1 = sent in 5 7 10
try_send s 1; try_send s 2 = sent in - 7 7
try_send s 1; try_send s 2; try_send s 3; try_send s 4 = full 4 in 1 3 -
close s; try_send s 1 = closed 1 in 1 1 1
force_send s 1 = sent in 5 7 10
try_send s 1; try_send s 2; try_send s 3; force_send s 4 = displaced 1 in 7 9 -
close s; force_send s 1 = closed 1 in 1 1 1
try_send s 1; try_recv r = received 1 in 4 6 8
try_recv r = empty in 1 3 3
close s; try_recv r = over in 1 3 3
try_send s 1; recv_many r 1 = received 1 in 5 7 9
try_send s 1; recv_many r 2 = received 1 in 6 10 12
try_send s 1; try_send s 2; recv_many r 2 = received 1 2 in - 12 16
recv_many r 2 = empty in 2 4 4
close s; recv_many r 2 = over in 2 4 4
recv_many r 0 = received in 1 1 1
try_send s 1; next r = next 1 in 4 6 8
next r = pending in 4 8 8
next r; next r = pending in 1 1 1
close s; next r = over in 1 3 3
send 1 s 5 = made in 1 1 1
recv 1 r = made in 1 1 1
closed 1 s = made in 1 1 1
send 1 s 5; poll 1 = sent in 5 7 10
try_send s 1; try_send s 2; try_send s 3; send 1 s 5; poll 1 = pending in 4 8 -
try_send s 1; try_send s 2; try_send s 3; send 1 s 5; poll 1; try_recv r; poll 1 = sent in 6 8 -
close s; send 1 s 5; poll 1 = closed 5 in 1 1 1
try_send s 1; recv 1 r; poll 1 = received 1 in 4 6 8
recv 1 r; poll 1 = pending in 4 8 8
recv 1 r; poll 1; poll 1 = pending in 2 4 4
recv 1 r; poll 1; try_send s 1; poll 1 = received 1 in 5 7 9
close s; recv 1 r; poll 1 = over in 1 3 3
closed 1 s; poll 1 = pending in 4 4 4
closed 1 s; poll 1; close s; poll 1 = ready in 2 2 2
close s; closed 1 s; poll 1 = ready in 1 1 1
send 1 s 5; poll_refused 1 = memory in 1 1 1
recv 1 r; poll_refused 1 = memory in 1 1 1
recv 1 r; poll 1; poll_refused 1 = memory in 1 1 1
closed 1 s; poll_refused 1 = memory in 1 1 1
recv 1 r; give_up 1 = given_up in 1 1 1
recv 1 r; poll 1; give_up 1 = given_up in 1 1 1
send 1 s 5; give_up 1 = given_up 5 in 1 1 1
close s = true in 5 5 5
recv 1 r; poll 1; close s = wakes 1 true in 5 5 5
close s; close s = false in 1 1 1
clone s 2; drop 2 = done in 1 1 1
drop s = done in 6 6 6
downgrade s 2; drop 2 = done in 1 1 1
clone s 2 = made in 2 2 2
downgrade s 2 = made in 1 1 1
downgrade s 2; upgrade 2 3 = made in 3 3 3
downgrade s 2; drop s; upgrade 2 3 = none in 1 1 1
same_channel s s = true in 1 1 1
is_closed s = false in 1 1 1
is_empty s = true in 1 2 2
is_full s = false in 1 2 1
len s = 0 in 1 3 3
capacity s = 1 in 1 - -
capacity s = 3 in - 1 -
capacity s = none in - - 1
sender_count s = 1 in 1 1 1
receiver_count s = 1 in 1 1 1
send 1 s 5; is_finished 1 = false in 1 1 1
is_terminated r = false in 1 1 1
";

/// The forms, in the order of the numbers.
const FORMS: [&str; 3] = ["bounded 1", "bounded 3", "unbounded"];

/// What the last of these calls answers over this form, with the number of its steps.
fn count(alloc: Global, form: &str, calls: &str) -> Result<String, AllocError> {
    let mut lines = String::new(alloc);
    lines.push_str(form)?;
    match calls.rsplit_once("; ") {
        Some((before, last)) => {
            for call in before.split("; ") {
                write!(lines, "\n{call}")?;
            }
            write!(lines, "\ncount {last}")?;
        }
        None => write!(lines, "\ncount {calls}")?,
    }
    let mut worlds = Worlds::new(alloc);
    answers_of(alloc, lines.as_str(), &mut worlds)
}

/// Whether the last call answers so over this form, in this number of steps; or the line leaves the form out.
fn is_so(
    alloc: Global,
    form: &str,
    calls: &str,
    reply: &str,
    number: &str,
) -> Result<bool, AllocError> {
    if number == "-" {
        return Ok(true);
    }
    let answers = count(alloc, form, calls)?;
    let wanted = format!(in alloc; "{reply} in {number}")?;
    Ok(match answers.as_str().rsplit_once(", ") {
        Some((_, last)) => last == wanted.as_str(),
        None => false,
    })
}

/// Whether a line of the table is so over each form.
fn line_is_so(alloc: Global, line: &str) -> Result<bool, AllocError> {
    let Some((calls, rest)) = line.split_once(" = ") else {
        return Ok(false);
    };
    let Some((reply, numbers)) = rest.rsplit_once(" in ") else {
        return Ok(false);
    };
    let mut forms = 0usize;
    for (form, number) in FORMS.iter().zip(numbers.split_whitespace()) {
        if !is_so(alloc, form, calls, reply, number)? {
            return Ok(false);
        }
        forms = forms.wrapping_add(1);
    }
    Ok(forms == 3)
}

#[test]
fn step_counts(rt: HostRuntime) -> Result<(), Fail> {
    let mut wrong = String::new(rt.alloc());
    let mut lines = 0u64;
    for line in COUNTS.lines() {
        if !line.is_empty() {
            lines = lines.wrapping_add(1);
            if !line_is_so(rt.alloc(), line)? {
                write!(wrong, "{line}\n")?;
            }
        }
    }
    expect_equal(&rt, &wrong.as_str(), &"");
    expect_equal(&rt, &lines, &64);
    Ok(())
}
