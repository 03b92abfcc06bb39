//! One history of a queue that threads share: a table of words and slots under a rule. The rule says that the cells are what one history of
//! operations made of them, and that each party's part of it is what its machine does. Only this module and those below it make operations
//! on such a table.

pub mod cells;
pub mod counts;
pub mod foreign;
pub mod laws;
pub mod led;
pub mod party;
pub mod rule;
pub mod seats;
pub mod table;
