// The tests of a sheet.
#![tactic(auto)]

pub mod rule; // the place tests of a rule
pub mod sheets; // the tests of a sheet, and its check
pub mod tested; // the set of tested places

pub use sheets::{check_noted, check_sheet, read_tests};

// Where each rule of a sheet begins.
pub type Starts = [usize; 64];

// The arity of a sheet, and how many rules and tests it has.
#[derive(Clone, Copy)]
pub struct SheetSizes {
    pub arity: u8,
    pub rules: u8,
    pub tests: u8,
}

// The arity of a sheet and the number of its rules, how many of its tests are places and how many are pairs.
#[derive(Clone, Copy)]
pub struct TestsRead {
    pub arity: u8,
    pub rules: u8,
    pub places: usize,
    pub pairs: usize,
}

// What reading the rules took: so many bytes were used, and there are so many pairs.
#[derive(Clone, Copy)]
pub struct Scan {
    pub bytes: usize,
    pub pairs: usize,
}
