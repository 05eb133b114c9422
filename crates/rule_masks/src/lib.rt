// The tests of a rule, made in a piece: which are not known and which are contradicted, by their numbers in the sheet.
#![tactic(auto)]

pub mod kept; // the tests of the sheet, by their numbers
pub mod number; // the numbers of tests
pub mod rule; // the tests of a rule

// The tests of a rule that are not known in a piece, and those that are contradicted, as sets of their numbers.
#[derive(Clone, Copy)]
pub struct Masks {
    pub unknown: u64,
    pub contradicted: u64,
}

// A place of a variable.
#[derive(Clone, Copy)]
pub struct Spot {
    pub place: usize,
    pub name: u8,
}
