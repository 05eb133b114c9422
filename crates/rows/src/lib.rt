// The tests of a rule as a set of their numbers (document 01, "The walk": "a set of tests, test t being bit t of 64"), and what its
// records want.
#![tactic(auto)]

pub mod wants; // what a record wants, as codes
pub mod numbers; // the numbers of places and pairs
pub mod row; // the tests of a rule as a set

pub use row::rule_row;

// What a record wants at its place, as lowest and highest code.
#[derive(Clone, Copy)]
pub struct Codes {
    pub low: u32,
    pub high: u32,
}
