//! How many rows were played, and the first that came out wrongly.

/// A tally of rows.
#[derive(Clone, Copy)]
pub struct Tally {
    /// How many rows of all tables there were.
    pub rows: u64,
    /// The first that came out wrongly: its table, and its place there from 1 on.
    pub wrong: Option<(&'static str, u64)>,
    /// The table that is played, and how many rows of it there were.
    table: &'static str,
    place: u64,
}

impl Tally {
    /// No rows yet.
    pub fn new() -> Self {
        Tally {
            rows: 0,
            wrong: None,
            table: "no table",
            place: 0,
        }
    }

    /// A table of this name begins.
    pub fn begin(&mut self, table: &'static str) {
        self.table = table;
        self.place = 0;
    }

    /// One more row of it.
    pub fn row(&mut self, is_right: bool) {
        self.rows = self.rows.wrapping_add(1);
        self.place = self.place.wrapping_add(1);
        if !is_right && self.wrong.is_none() {
            self.wrong = Some((self.table, self.place));
        }
    }
}
