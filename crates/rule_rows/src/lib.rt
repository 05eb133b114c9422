// The records of a rule in a row, and what is known of its variables behind them.
#![tactic(auto)]

pub mod rows; // the records of a rule, one after another
pub mod words; // what is known of each variable of a rule

pub use rows::{next_record, record_length};
pub use words::{meet_row, number_record};

// Where the records of a rule go on: the position of the next one, how many patterns are still to come, and how many records at
// most.
#[derive(Clone, Copy)]
pub struct Row {
    pub at: usize,
    pub patterns: usize,
    pub most: usize,
}

// A record of a row, and where the row goes on behind it.
#[derive(Clone, Copy)]
pub struct Next {
    pub what: patterns::PatternRecord,
    pub rest: Row,
}
