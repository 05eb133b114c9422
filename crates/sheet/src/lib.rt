// Reads sheets.
#![tactic(auto)]

pub mod record; // the record that a sheet begins with
pub mod rule; // the patterns of a rule
pub mod variable; // the common range of each variable of a rule

pub use record::read_header;
pub use rule::read_rule;
pub use variable::ranges as variable_ranges;

// The arity of a sheet and the number of its rules.
#[derive(Clone, Copy)]
pub struct Header {
    pub arity: u8,
    pub rules: u8,
}

// What reading took: so many bytes were used, and there are so many notes now.
#[derive(Clone, Copy)]
pub struct Took {
    pub bytes: usize,
    pub notes: usize,
}

// The common part of the ranges of each of the 16 variables: 0 and 65536 where it has no range.
#[derive(Clone, Copy)]
pub struct Ranges {
    pub low: [u16; 16],
    pub high: [u32; 16],
}
