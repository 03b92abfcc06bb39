//! What lists do: the rows of [`list_rows`](crate::list_rows).

use crate::checks::expect_rows;
use crate::list_rows::ROWS;
use crate::lists::Lists;

#[test]
fn rows(rt: HostRuntime) {
    expect_rows(&rt, ROWS, &mut Lists::new(rt.alloc()), 15);
}
