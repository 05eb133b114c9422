// The tidy form of a rule, record by record.
#![tactic(auto)]

pub mod rules; // the tidy form of a rule

pub use rules::{measure_rule, put_rule};

// How far a rule was read, and how far its tidy form was measured or written.
#[derive(Clone, Copy)]
pub struct Moved {
    pub from: usize,
    pub to: usize,
}
